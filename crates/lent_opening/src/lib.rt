// The commands that open a transfer, each after a control byte of its own, obeyed where the registers lie: in the twelve bytes that C lends. What these were is kept, so that a fault takes it back.
#![tactic(auto)]

ghost use Rattle.std.specs.Prelude.{◌≡◌, ◌<◌, length, drop};
ghost use Rattle.sheet.specs.Parts.{part_of};
ghost use Rattle.sheet.specs.Commands.{defined, obeyed};
ghost use Rattle.command.specs.Nibbles.{nibble_of};
ghost use Rattle.opening.specs.Opened.{opened};
ghost use Rattle.wire.specs.Bytes.{registers_in};
ghost use Rattle.lent_opening.specs.Held.{held_in};

use sheet::{Command, Refusal};

// ---- the registers as they were

// Four bytes a word.
#[derive(Clone, Copy)]
pub struct Kept {
    pub first: u32,
    pub second: u32,
    pub third: u32,
}

pub fn keep(set: &[u8]) -> Kept
    requires { length set.now ≡ 12 }
    ensures { held_in result ≡ set.now }
{
    Kept {
        first: words::four_columns(set, 0),
        second: words::four_columns(set, 4),
        third: words::four_columns(set, 8),
    }
}

pub fn take_back(kept: Kept, set: &mut [u8])
    requires { length set.old ≡ 12 }
    ensures { set.new ≡ held_in kept }
{
    words::store_four(set, 0, kept.first);
    words::store_four(set, 4, kept.second);
    words::store_four(set, 8, kept.third);
}

// ---- the commands

// The place of the byte after them; or, of one that is undefined, the fault. The place is promised of that too, so that it is no `Result`.
#[derive(Clone, Copy)]
pub struct Opening {
    pub fault: Result<(), Refusal>,
    pub at: usize,
}

// Whether a byte was a command.
fn is_defined(command: Command) -> bool
    ensures { result ≡ defined command }
{
    match command {
        Command::PointerHigh(_) => true,
        Command::PointerLow(_) => true,
        Command::Pointer(_) => true,
        Command::ModeSet(_) => true,
        Command::DeviceSelect(_) => true,
        Command::FrequencyCtrl => true,
        Command::BlinkSelect { ab: _, bf: _ } => true,
        Command::BankSelect { i: _, o: _ } => true,
        Command::Undefined => false,
    }
}

// A command in the twelve bytes: what it sets, and the marks that it restores.
fn obey(set: &mut [u8], command: Command)
    requires { (length set.old ≡ 12) × (nibble_of command < 16) }
    ensures { (registers_in set.new ≡ obeyed (registers_in set.old) command) × (length set.new ≡ 12) }
{
    match command {
        Command::PointerHigh(n) => {
            set[3] = 16 * n + set[3] % 16;
            set[9] = 0;
        }
        Command::PointerLow(n) => {
            set[3] = set[3] - set[3] % 16 + n;
            set[10] = 0;
        }
        Command::Pointer(p) => {
            set[3] = p;
            set[9] = 0;
            set[10] = 0;
        }
        Command::ModeSet(s) => {
            set[0] = s.e;
            set[1] = s.b;
            set[2] = s.m;
        }
        Command::DeviceSelect(n) => {
            set[4] = n;
            set[11] = 0;
        }
        Command::BlinkSelect { ab, bf } => {
            set[7] = ab;
            set[8] = bf;
        }
        Command::BankSelect { i, o } => {
            set[5] = i;
            set[6] = o;
        }
        Command::FrequencyCtrl => {}
        Command::Undefined => {}
    }
}

// The opening of the whole bytes of a transfer, of which the first is the address.
pub fn open(part: u8, set: &mut [u8], bytes: &[u8]) -> Opening
    requires { (length set.old ≡ 12) × (0 < length bytes.now) }
    ensures { (record { fault = result.fault; registers = registers_in set.new; at = result.at } ≡ opened (part_of part) (registers_in set.old) 1 (drop 1 bytes.now)) × (length set.new ≡ 12) }
{
    let mut at: usize = 1;
    // the place is a part of the answer: `chunks_exact` would want it counted beside the pairs
    while 2 <= bytes.len() - at {
        if bytes[at] == 0x80 {
            let command = decode::decode(part, bytes[at + 1]);
            if is_defined(command) {
                obey(set, command);
                at += 2;
            } else {
                return Opening {
                    fault: Err(Refusal::UndefinedCommand(at + 1)),
                    at,
                };
            }
        } else {
            return Opening { fault: Ok(()), at };
        }
    }
    Opening { fault: Ok(()), at }
}
