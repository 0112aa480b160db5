// How a transfer of the plain account begins, from what the list of chips is found to hold, and what is answered. By value: `plain` goes along the list.
#![tactic(auto)]

ghost use Rattle.std.specs.Prelude.{◌≡◌, cond, ◌+◌, ◌≤◌, length, Ok};
ghost use Rattle.sheet.specs.Parts.{part_of};
ghost use Rattle.sheet.specs.Protocol.{sent, address_byte};
ghost use Rattle.sheet.specs.Checks.{fault_of_sent};
ghost use Rattle.starts.specs.Questions.{yes};
ghost use Rattle.starts.specs.Starts.{mark_at, marks_found, check_bench, check_list, check_of, turn_at, start_of, answer_of};

use sheet::{Acknowledged, Chip, Expect, Marks, Refusal};
use turns::{BusByte, Tally, Turn};

// What a chip is asked: whether it is no chip of a part, or hears an address, or hears it and has a mark that is unknown.
#[derive(Clone, Copy)]
pub enum Question {
    Misfit(u8),
    Hears(u8),
    HighUnknown(u8),
    LowUnknown(u8),
    DeviceUnknown(u8),
}

pub fn says_yes(chip: Chip, question: Question) -> bool
    ensures { result ≡ yes question chip }
{
    let marks = chip::marks(chip);
    match question {
        Question::Misfit(part) => !chip::fits(part, chip),
        Question::Hears(address) => chip::hears(chip, address),
        Question::HighUnknown(address) => chip::hears(chip, address) & (marks.high == 1),
        Question::LowUnknown(address) => chip::hears(chip, address) & (marks.low == 1),
        Question::DeviceUnknown(address) => chip::hears(chip, address) & (marks.device == 1),
    }
}

// The address that byte 0 calls.
pub fn address(bytes: &[u8], bits: u8) -> u8
    ensures { result ≡ address_byte (sent bytes.now bits) }
{
    checks::address_byte(bytes, bits)
}

fn check_bytes(part: u8, bytes: &[u8], bits: u8, heard: bool, marks: Marks) -> Result<(), Refusal>
    ensures { result ≡ cond heard (fault_of_sent (part_of part) marks (sent bytes.now bits)) (Ok tt) }
{
    if heard {
        protocol::first_fault(part, marks, bytes, bits)
    } else {
        Ok(())
    }
}

// The part, and how many chips there are: 16, 10.
fn check_bench(part: u8, count: usize) -> Result<(), Refusal>
    ensures { result ≡ check_bench part count }
{
    checks::check_part(part)?;
    checks::unless(count <= 2 * arithmetic::limit(part), Refusal::ManyChips)
}

// What the list was found to hold: how many chips, and where the first misfit, the first that hears, and the first that hears and has each mark unknown stand, or else the count.
#[derive(Clone, Copy)]
pub struct Found {
    pub count: usize,
    pub misfit: usize,
    pub hearer: usize,
    pub high: usize,
    pub low: usize,
    pub device: usize,
}

// A mark, by where the first chip that has it unknown stands.
fn mark_at(place: usize, count: usize) -> u8
    ensures { result ≡ mark_at place count }
{
    (place < count) as u8
}

// The marks of the chips that hear.
fn marks_found(found: Found) -> Marks
    ensures { result ≡ marks_found found }
{
    Marks {
        high: mark_at(found.high, found.count),
        low: mark_at(found.low, found.count),
        device: mark_at(found.device, found.count),
    }
}

// 11, 1, 2, 19, then 7, 17 and 18.
#[tactic(auto, unfolding(sheet::specs::Checks::check_sent))]
fn check_chips(part: u8, bytes: &[u8], bits: u8, found: Found) -> Result<(), Refusal>
    ensures { result ≡ check_list part (sent bytes.now bits) found }
{
    checks::unless(
        found.count <= found.misfit,
        Refusal::ChipField(found.misfit),
    )?;
    checks::check_sent(bytes.len(), bits)?;
    check_bytes(
        part,
        bytes,
        bits,
        found.hearer < found.count,
        marks_found(found),
    )
}

fn check_transfer(part: u8, bytes: &[u8], bits: u8, found: Found) -> Result<(), Refusal>
    ensures { result ≡ check_of part (sent bytes.now bits) found }
{
    check_bench(part, found.count)?;
    check_chips(part, bytes, bits, found)
}

fn turn_at(part: u8, bytes: &[u8], bits: u8, at: usize, acknowledged: usize) -> Turn
    requires { at ≤ length bytes.now + 1 }
    ensures { result ≡ turn_at part (sent bytes.now bits) at acknowledged }
{
    let cut = bits < 8;
    Turn {
        at,
        cut,
        tally: Tally {
            acknowledged,
            last: None,
        },
        heard: BusByte {
            part,
            address: checks::address_byte(bytes, bits),
            expect: Expect::Control,
            byte: checks::byte_at(bytes, at),
            cut: cut & (bytes.len() <= at + 1),
        },
    }
}

// Refused or taken, and the turn from which the chips follow: of a refused transfer too, with nothing left, so that it is no `Result`.
#[derive(Clone, Copy)]
pub struct Start {
    pub check: Result<(), Refusal>,
    pub turn: Turn,
}

// The address is acknowledged, and the chips follow from the next byte on. Of a transfer that is refused, or that none hears, nothing is left to follow.
pub fn begin(bytes: &[u8], part: u8, bits: u8, found: Found) -> Start
    ensures { result ≡ start_of part (sent bytes.now bits) found }
{
    let check = check_transfer(part, bytes, bits, found);
    let turn = if checks::passes(check) & (found.hearer < found.count) {
        turn_at(part, bytes, bits, 1, 1)
    } else {
        turn_at(part, bytes, bits, bytes.len(), 0)
    };
    Start { check, turn }
}

pub fn answer(check: Result<(), Refusal>, tally: Tally) -> Result<Acknowledged, Refusal>
    ensures { result ≡ answer_of check tally }
{
    check?;
    Ok(Acknowledged {
        bytes: tally.acknowledged,
        last: tally.last,
    })
}
