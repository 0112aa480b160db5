// What a command does to a group's registers.
#![tactic(auto)]

ghost use Rattle.std.specs.Prelude.{◌≡◌, ◌<◌};
ghost use Rattle.sheet.specs.Parts.{part_of};
ghost use Rattle.sheet.specs.Commands.{restored, obeyed};
ghost use Rattle.command.specs.Nibbles.{nibble_of};

use sheet::{Command, Marks, Registers};

// The marks after a command byte, which restores its own.
fn restore_own(part: u8, mut marks: Marks, byte: u8) -> Marks
    ensures { result ≡ restored ((part_of part).command byte) marks }
{
    match decode::decode(part, byte) {
        Command::PointerHigh(_) => {
            marks.high = 0;
            marks
        }
        Command::PointerLow(_) => {
            marks.low = 0;
            marks
        }
        Command::Pointer(_) => {
            marks.high = 0;
            marks.low = 0;
            marks
        }
        Command::ModeSet(_) => marks,
        Command::DeviceSelect(_) => {
            marks.device = 0;
            marks
        }
        Command::BlinkSelect { ab: _, bf: _ } => marks,
        Command::BankSelect { i: _, o: _ } => marks,
        Command::FrequencyCtrl => marks,
        Command::Undefined => marks,
    }
}

// The marks after a command byte. Mostly none is unknown, and then the byte is not looked at.
pub fn restore(part: u8, marks: Marks, byte: u8) -> Marks
    ensures { result ≡ restored ((part_of part).command byte) marks }
{
    if registers::all_known(marks) {
        marks
    } else {
        restore_own(part, marks, byte)
    }
}

// The registers after a command: what it sets, and the marks that it restores.
pub fn obey(mut registers: Registers, command: Command) -> Registers
    requires { nibble_of command < 16 }
    ensures { result ≡ obeyed registers command }
{
    let mut unknown = registers.unknown;
    match command {
        Command::PointerHigh(n) => {
            registers.p = 16 * (n as usize) + registers.p % 16;
            unknown.high = 0;
            registers.unknown = unknown;
            registers
        }
        Command::PointerLow(n) => {
            registers.p = registers.p - registers.p % 16 + (n as usize);
            unknown.low = 0;
            registers.unknown = unknown;
            registers
        }
        Command::Pointer(p) => {
            registers.p = p as usize;
            unknown.high = 0;
            unknown.low = 0;
            registers.unknown = unknown;
            registers
        }
        Command::ModeSet(s) => {
            registers.e = s.e;
            registers.b = s.b;
            registers.m = s.m;
            registers
        }
        Command::DeviceSelect(n) => {
            registers.a = n as usize;
            unknown.device = 0;
            registers.unknown = unknown;
            registers
        }
        Command::BlinkSelect { ab, bf } => {
            registers.ab = ab;
            registers.bf = bf;
            registers
        }
        Command::BankSelect { i, o } => {
            registers.i = i;
            registers.o = o;
            registers
        }
        Command::FrequencyCtrl => registers,
        Command::Undefined => registers,
    }
}
