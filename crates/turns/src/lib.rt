// The plain account by value: what a chip answers and takes, and how a transfer is gone along by turns. `plain` goes along the list of chips.
#![tactic(auto)]

ghost use Rattle.std.specs.Prelude.{◌≡◌, cond, ◌+◌, ◌≤◌, ◌<◌, ◌^◌, length};
ghost use Rattle.sheet.specs.Plain.{lower};
ghost use Rattle.turns.specs.Asking.{answers, alike_of, nothing_said, said_with, taken, ran_by};
ghost use Rattle.turns.specs.Turns.{once_each, last_heard, turn_past, most_after, most_in, taken_by, reach_of};

use sheet::{Chip, Expect, Kind};

// ---- one chip, by value

// A byte after the address: the part of the chips, to whom it goes, what it is, its value, and whether it is cut.
#[derive(Clone, Copy)]
pub struct BusByte {
    pub part: u8,
    pub address: u8,
    pub expect: Expect,
    pub byte: u8,
    pub cut: bool,
}

// Whether a chip hears a byte and acknowledges it: none that is cut.
fn acknowledges(chip: Chip, heard: BusByte) -> bool
    ensures { result ≡ answers heard chip }
{
    chip::hears(chip, heard.address)
        & (!heard.cut & chip::acknowledges(heard.part, chip, heard.expect, heard.byte))
}

// A subaddress and the smallest of the others.
fn lower(subaddress: usize, others: Option<usize>) -> Option<usize>
    ensures { result ≡ lower subaddress others }
{
    match others {
        Some(other) => Some(subaddress.min(other)),
        None => Some(subaddress),
    }
}

// Who acknowledges a byte of this chip and the others.
fn with_chip(chip: Chip, heard: BusByte, others: Option<usize>) -> Option<usize>
    ensures { result ≡ cond (answers heard chip) (lower chip.subaddress others) others }
{
    if acknowledges(chip, heard) {
        lower(chip.subaddress as usize, others)
    } else {
        others
    }
}

// How many bytes from this one on the chip answers alike, of so many: data that ends in the columns of the chip that A names, or this byte alone.
fn alike(chip: Chip, heard: BusByte, most: usize) -> usize
    ensures { result ≡ alike_of heard chip most }
{
    if (2 <= most) & chip::hears(chip, heard.address) {
        columns::room(heard.part, chip.registers).clamp(1, most)
    } else {
        most
    }
}

// What the chips say of a byte: who acknowledges it, and how many bytes from it on they all answer alike.
#[derive(Clone, Copy)]
pub struct Said {
    pub who: Option<usize>,
    pub count: usize,
}

// Of no chips.
pub fn nothing_said(most: usize) -> Said
    ensures { result ≡ nothing_said most }
{
    Said {
        who: None,
        count: most,
    }
}

// Of this chip and the others.
pub fn say_with(chip: Chip, heard: BusByte, others: Said) -> Said
    ensures { result ≡ said_with heard chip others }
{
    Said {
        who: with_chip(chip, heard, others.who),
        count: alike(chip, heard, others.count),
    }
}

// The chip after a byte: as it was, if it does not hear it.
fn take_byte(chip: Chip, heard: BusByte) -> Chip
    ensures { result ≡ taken heard chip }
{
    if chip::hears(chip, heard.address) {
        if heard.cut {
            chip::lose(chip, protocol::is_data(heard.expect))
        } else {
            chip::step(heard.part, chip, heard.expect, heard.byte)
        }
    } else {
        chip
    }
}

// And after data bytes that come at once.
fn take_run(bytes: &[u8], chip: Chip, heard: BusByte) -> Chip
    ensures { result ≡ ran_by heard bytes.now chip }
{
    if chip::hears(chip, heard.address) {
        chip::run(heard.part, chip, bytes)
    } else {
        chip
    }
}

// ---- a transfer, by turns

// The bytes acknowledged so far, and who acknowledged the last data byte.
#[derive(Clone, Copy)]
pub struct Tally {
    pub acknowledged: usize,
    pub last: Option<usize>,
}

// The byte that comes next, its place, whether the transfer's last is cut, and what is acknowledged so far.
#[derive(Clone, Copy)]
pub struct Turn {
    pub at: usize,
    pub cut: bool,
    pub tally: Tally,
    pub heard: BusByte,
}

// Each of so many bytes counts once however many chips acknowledge it.
fn counted(acknowledged: usize, who: Option<usize>, count: usize) -> usize
    requires { acknowledged + count < 2 ^ 64 }
    ensures { result ≡ acknowledged + once_each count who }
{
    match who {
        Some(_) => acknowledged + count,
        None => acknowledged,
    }
}

// Who acknowledged the last data byte, after a byte: one that is cut is not the last data byte.
fn last_heard(heard: BusByte, who: Option<usize>, last: Option<usize>) -> Option<usize>
    ensures { result ≡ last_heard heard who last }
{
    if protocol::is_data(heard.expect) & !heard.cut {
        who
    } else {
        last
    }
}

// The turn after this one, whose byte and those after it are answered so.
pub fn next(bytes: &[u8], turn: Turn, said: Said) -> Turn
    requires { (turn.at + said.count ≤ length bytes.now) × (turn.tally.acknowledged ≤ turn.at) }
    ensures { result ≡ turn_past bytes.now turn said }
{
    let at = turn.at + said.count;
    Turn {
        at,
        tally: Tally {
            acknowledged: counted(turn.tally.acknowledged, said.who, said.count),
            last: last_heard(turn.heard, said.who, turn.tally.last),
        },
        heard: BusByte {
            expect: protocol::follow(turn.heard.expect, turn.heard.byte),
            byte: checks::byte_at(bytes, at),
            cut: turn.cut & (bytes.len() <= at + 1),
            ..turn.heard
        },
        ..turn
    }
}

// How many bytes may be taken at once, of so many whole ones that are left: data to the end, or a byte alone.
fn most_after(expect: Expect, left: usize) -> usize
    ensures { result ≡ most_after expect left }
{
    match expect {
        Expect::Control | Expect::One(_) | Expect::All(Kind::Command) => 1,
        Expect::All(Kind::Data) => left.max(1),
    }
}

// And in a turn. The byte that is cut is not whole.
pub fn most_in(bytes: &[u8], turn: Turn) -> usize
    requires { turn.at < length bytes.now }
    ensures { result ≡ most_in bytes.now turn }
{
    let left = bytes.len() - turn.at;
    most_after(turn.heard.expect, if turn.cut { left - 1 } else { left })
}

// The chip after the turn's byte, or after so many data bytes from it on.
pub fn take(bytes: &[u8], chip: Chip, turn: Turn, count: usize) -> Chip
    requires { turn.at + count ≤ length bytes.now }
    ensures { result ≡ taken_by bytes.now turn count chip }
{
    if count < 2 {
        take_byte(chip, turn.heard)
    } else {
        take_run(&bytes[turn.at..turn.at + count], chip, turn.heard)
    }
}

// How many of the chips such a turn changes: a control byte changes none.
pub fn reach(turn: Turn, count: usize, chips: usize) -> usize
    ensures { result ≡ reach_of turn.heard.expect count chips }
{
    if matches!(turn.heard.expect, Expect::Control) & (count < 2) {
        0
    } else {
        chips
    }
}
