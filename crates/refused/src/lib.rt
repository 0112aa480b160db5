// Why a call of the long account is refused: its checks in the order of their numbers; a later one is looked at only if the earlier ones passed.
#![tactic(auto)]

ghost use Rattle.std.specs.Prelude.{◌≡◌, ◌*◌, ◌/◌, ltb};
ghost use Rattle.sheet.specs.declared.Refusal.TheVariants.{Register, GroupOrPhase};
ghost use Rattle.sheet.specs.Parts.{part_of};
ghost use Rattle.sheet.specs.Protocol.{heard_by, chips_in, sent, address_byte};
ghost use Rattle.sheet.specs.Checks.{unless, or_else, check_part, check_chips, check_columns, check_ram, check_bytes, check_power_on, check_transfer};
ghost use Rattle.packed_sheet.specs.Packed.{unpacked, columns_in};
ghost use Rattle.writer_sheet.specs.Writer.{check_wanted};
ghost use Rattle.refused.specs.Fitting.{fitting, state_by, picture_by};

use groups::Bus;
use sheet::{Both, Refusal};

// Whether every register of both groups is in range.
pub fn registers_fit(part: u8, registers: Both) -> bool
    ensures { result ≡ fitting (part_of part) registers }
{
    registers::in_range(part, registers.zero) & registers::in_range(part, registers.one)
}

// So many columns: 4, 5.
#[tactic(auto, unfolding(sheet::specs::Checks::check_columns))]
fn check_columns(size: usize, columns: &[u8]) -> Result<(), Refusal>
    ensures { result ≡ check_columns size columns.now }
{
    checks::unless(columns.len() == size, Refusal::RamLength)?;
    checks::first_over(columns)
}

// So many packed columns: 4 where they are not half as many bytes. Every byte is two columns, so 5 can't occur.
fn check_packed(size: usize, ram: &[u8]) -> Result<(), Refusal>
    requires { size ≡ 2 * (size / 2) }
    ensures { result ≡ check_columns size (unpacked ram.now) }
{
    checks::unless(ram.len() == size / 2, Refusal::RamLength)
}

// The RAM, of columns that are a byte each or packed: 4, 5.
fn check_ram(bus: &Bus, ram: &[u8]) -> Result<(), Refusal>
    ensures { result ≡ check_ram (part_of bus.now.part) bus.now.chips (columns_in bus.now.packed ram.now) }
{
    let chips = bus.chips.zero as u16 + bus.chips.one as u16;
    let size = arithmetic::columns_in(bus.part, chips);
    if bus.packed {
        check_packed(size, ram)
    } else {
        check_columns(size, ram)
    }
}

// What every call begins with: 16, 3.
fn check_bus(bus: &Bus) -> Result<(), Refusal>
    ensures { result ≡ or_else (check_part bus.now.part) (check_chips (part_of bus.now.part) bus.now.chips) }
{
    checks::check_part(bus.part)?;
    checks::check_chips(bus.part, bus.chips)
}

// A power-on: 16, 3, 4, 5.
#[tactic(auto, unfolding(sheet::specs::Checks::check_power_on))]
pub fn check_power_on(bus: &Bus, ram: &[u8]) -> Result<(), Refusal>
    ensures { result ≡ or_else (check_part bus.now.part) (check_power_on (part_of bus.now.part) bus.now.chips (columns_in bus.now.packed ram.now)) }
{
    check_bus(bus)?;
    check_ram(bus, ram)
}

// And every call but a power-on: 16, 3, 6. Whether the registers fit is asked before, so that they are not handed on.
fn check_registers(bus: &Bus, fit: bool) -> Result<(), Refusal>
    ensures { result ≡ or_else (check_part bus.now.part) (or_else (check_chips (part_of bus.now.part) bus.now.chips) (unless fit Register)) }
{
    check_bus(bus)?;
    checks::unless(fit, Refusal::Register)
}

// And every call with a RAM: 16, 3, 6, 4, 5.
pub fn check_state(bus: &Bus, fit: bool, ram: &[u8]) -> Result<(), Refusal>
    ensures { result ≡ or_else (check_part bus.now.part) (state_by (part_of bus.now.part) bus.now.chips fit (columns_in bus.now.packed ram.now)) }
{
    check_registers(bus, fit)?;
    check_ram(bus, ram)
}

// The bytes of a transfer that a chip hears: 7, 17 and 18.
fn check_bytes(bus: &Bus, registers: Both, bytes: &[u8], bits: u8) -> Result<(), Refusal>
    ensures { result ≡ check_bytes (part_of bus.now.part) registers (heard_by bus.now.chips (address_byte (sent bytes.now bits))) (sent bytes.now bits) }
{
    match groups::heard_by(bus.chips, checks::address_byte(bytes, bits)) {
        Some(group) => {
            let called = groups::registers_of(group, registers);
            protocol::first_fault(bus.part, called.unknown, bytes, bits)
        }
        None => Ok(()),
    }
}

// A transfer: 16, 3, 6, 4, 5, 1, 2, 19, then 7, 17 and 18.
#[tactic(auto, unfolding(sheet::specs::Checks::check_transfer, sheet::specs::Checks::check_state, sheet::specs::Checks::check_registers, sheet::specs::Checks::check_sent))]
pub fn check_transfer(
    bus: &Bus,
    registers: Both,
    ram: &[u8],
    bytes: &[u8],
    bits: u8,
) -> Result<(), Refusal>
    ensures { result ≡ or_else (check_part bus.now.part) (check_transfer (part_of bus.now.part) bus.now.chips registers (columns_in bus.now.packed ram.now) (sent bytes.now bits)) }
{
    check_state(bus, registers_fit(bus.part, registers), ram)?;
    checks::check_sent(bytes.len(), bits)?;
    check_bytes(bus, registers, bytes, bits)
}

// A picture into a buffer of the given size: 16, 3, 6, 4, 5, 8, 9.
pub fn check_picture(
    bus: &Bus,
    fit: bool,
    group: u8,
    phase: u8,
    ram: &[u8],
    size: usize,
) -> Result<(), Refusal>
    ensures { result ≡ or_else (check_part bus.now.part) (picture_by (part_of bus.now.part) bus.now.chips fit (columns_in bus.now.packed ram.now) group phase size) }
{
    check_state(bus, fit, ram)?;
    checks::unless((group < 2) & (phase < 2), Refusal::GroupOrPhase)?;
    checks::unless(size == bus.columns_of(group), Refusal::OutputLength)
}

// A group's rows: 8, 4, 5.
fn check_rows(bus: &Bus, group: u8, rows: &[u8]) -> Result<(), Refusal>
    ensures { result ≡ or_else (unless (ltb group 2) GroupOrPhase) (check_columns ((part_of bus.now.part).columns * chips_in group bus.now.chips) rows.now) }
{
    checks::unless(group < 2, Refusal::GroupOrPhase)?;
    check_columns(bus.columns_of(group), rows)
}

// A writer's wanted rows: 16, 3, 6 (also a wanted mode or bank out of range), 8, 4, 5.
#[tactic(auto, unfolding(writer_sheet::specs::Writer::check_wanted, sheet::specs::Checks::check_registers))]
pub fn check_wanted(
    bus: &Bus,
    registers: Both,
    group: u8,
    mode: u8,
    bank: u8,
    wanted: &[u8],
) -> Result<(), Refusal>
    ensures { result ≡ or_else (check_part bus.now.part) (check_wanted (part_of bus.now.part) bus.now.chips registers group mode bank wanted.now) }
{
    check_registers(bus, registers_fit(bus.part, registers))?;
    checks::unless((mode < 4) & (bank < 2), Refusal::Register)?;
    check_rows(bus, group, wanted)
}

// Those of a transfer for every element in 1:3: 16, 3, 6, 8, 4, 5. No call shares it, so that its registers are not handed on through memory.
#[tactic(auto, unfolding(writer_sheet::specs::Writer::check_wanted, sheet::specs::Checks::check_registers))]
pub fn check_every(bus: &Bus, registers: Both, group: u8, wanted: &[u8]) -> Result<(), Refusal>
    ensures { result ≡ or_else (check_part bus.now.part) (check_wanted (part_of bus.now.part) bus.now.chips registers group 3 0 wanted.now) }
{
    check_registers(bus, registers_fit(bus.part, registers))?;
    check_rows(bus, group, wanted)
}
