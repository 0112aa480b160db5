// A group's registers: their ranges, their power-on values, and what is unknown of them.
#![tactic(auto)]

ghost use Rattle.std.specs.Prelude.{◌≡◌, ◌&&◌, ltb};
ghost use Rattle.sheet.specs.Parts.{part_of};
ghost use Rattle.sheet.specs.Registers.{known, power_on, lost_by, in_range};

use sheet::{Marks, Registers};

// Whether no mark is unknown.
pub fn all_known(marks: Marks) -> bool
    ensures { result ≡ known marks }
{
    (marks.high == 0) & ((marks.low == 0) & (marks.device == 0))
}

// The registers after a byte that is cut: data makes pointer and counter unknown, which keep their numbers.
pub fn lose(lost: bool, mut registers: Registers) -> Registers
    ensures { result ≡ lost_by lost registers }
{
    if lost {
        registers.unknown = Marks {
            high: 1,
            low: 1,
            device: 1,
        };
    }
    registers
}

// Whether every mark is 0 or 1.
fn marks_fit(marks: Marks) -> bool
    ensures { result ≡ (ltb marks.high 2 && (ltb marks.low 2 && ltb marks.device 2)) }
{
    (marks.high < 2) & ((marks.low < 2) & (marks.device < 2))
}

// Whether every register is in its range.
pub fn in_range(part: u8, registers: Registers) -> bool
    ensures { result ≡ in_range (part_of part) registers }
{
    let unknown = registers.unknown;
    (registers.e < 2)
        & (registers.b < 2)
        & (registers.m < 4)
        & (registers.p < arithmetic::columns(part))
        & (registers.a <= arithmetic::limit(part))
        & (registers.i < 2)
        & (registers.o < 2)
        & (registers.ab < 2)
        & (registers.bf < 4)
        & marks_fit(unknown)
}

// The registers at power-on.
pub fn power_on() -> Registers
    ensures { result ≡ power_on }
{
    Registers {
        e: 0,
        b: 0,
        m: 0,
        p: 0,
        a: 0,
        i: 0,
        o: 0,
        ab: 0,
        bf: 0,
        unknown: Marks {
            high: 0,
            low: 0,
            device: 0,
        },
    }
}
