// The two groups on the bus: who hears a transfer, and a group's chips, registers and part of the RAM.
// A group is any number, since each function and call promises its answer of every one and 8 refuses the others: 0, or else group 1.
#![tactic(auto)]

ghost use Rattle.std.specs.Prelude.{◌≡◌, cond, ◌*◌, ◌/◌};
ghost use Rattle.sheet.specs.Parts.{part_of};
ghost use Rattle.sheet.specs.Registers.{registers_of};
ghost use Rattle.sheet.specs.Protocol.{heard_by, chips_in};
ghost use Rattle.sheet.specs.Long.{replaced, start_of, end_of};

use sheet::{Both, Chips, Registers};

// A bus as a call is told of it: the part, the chips of each group, and whether their columns are packed.
#[derive(Clone, Copy)]
pub struct Bus {
    pub part: u8,
    pub chips: Chips,
    pub packed: bool,
}

// The group that hears an address byte. An empty transfer has none, and the 0 that stands for it is nobody's.
pub fn heard_by(chips: Chips, address: u8) -> Option<u8>
    ensures { result ≡ heard_by chips address }
{
    if (address == 112) & (0 < chips.zero) {
        return Some(0);
    }
    if (address == 114) & (0 < chips.one) {
        return Some(1);
    }
    None
}

// The chips of a group.
pub fn chips_in(group: u8, chips: Chips) -> u8
    ensures { result ≡ chips_in group chips }
{
    if group == 0 { chips.zero } else { chips.one }
}

// A group's registers.
#[tactic(auto, unfolding(sheet::specs::Registers::registers_of))]
pub fn registers_of(group: u8, registers: Both) -> Registers
    ensures { result ≡ registers_of group registers }
{
    match group {
        0 => registers.zero,
        _ => registers.one,
    }
}

// Both register sets, a group's replaced.
pub fn replaced(group: u8, after: Registers, mut registers: Both) -> Both
    ensures { result ≡ replaced group after registers }
{
    if group == 0 {
        registers.zero = after;
    } else {
        registers.one = after;
    }
    registers
}

// Where a group's columns begin in the RAM.
fn start_of(part: u8, chips: Chips, group: u8) -> usize
    ensures { result ≡ start_of (part_of part) chips group }
{
    if group == 0 {
        0
    } else {
        arithmetic::columns_in(part, chips.zero as u16)
    }
}

// And where they end.
fn end_of(part: u8, chips: Chips, group: u8) -> usize
    ensures { result ≡ end_of (part_of part) chips group }
{
    start_of(part, chips, group) + arithmetic::columns_in(part, chips_in(group, chips) as u16)
}

// A bus is lent to what asks it: by value it comes as one word, of which each function cuts its part anew, and a mode-set takes 5% more instructions.
impl Bus {
    // How many columns a group has.
    pub fn columns_of(&self, group: u8) -> usize
        ensures { result ≡ (part_of self.now.part).columns * chips_in group self.now.chips }
    {
        arithmetic::columns_in(self.part, chips_in(group, self.chips) as u16)
    }

    // The bytes of the RAM that hold them, a byte a column or packed: the first.
    pub fn start_in(&self, group: u8) -> usize
        ensures { result ≡ cond self.now.packed (start_of (part_of self.now.part) self.now.chips group / 2) (start_of (part_of self.now.part) self.now.chips group) }
    {
        arithmetic::byte_of(start_of(self.part, self.chips, group), self.packed)
    }

    // And the end of them.
    pub fn end_in(&self, group: u8) -> usize
        ensures { result ≡ cond self.now.packed (end_of (part_of self.now.part) self.now.chips group / 2) (end_of (part_of self.now.part) self.now.chips group) }
    {
        arithmetic::byte_of(end_of(self.part, self.chips, group), self.packed)
    }
}
