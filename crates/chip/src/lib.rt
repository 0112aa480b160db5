// One chip of the plain account: it follows every byte by itself, over its own registers and columns.
#![tactic(auto)]

ghost use Rattle.std.specs.Prelude.{◌≡◌, true, ◌+◌, ◌*◌, ◌<◌, length, take};
ghost use Rattle.sheet.specs.Refusals.{picture_numbers, check_numbers};
ghost use Rattle.sheet.specs.Parts.{part_of};
ghost use Rattle.sheet.specs.Registers.{in_range};
ghost use Rattle.sheet.specs.Commands.{obeyed};
ghost use Rattle.sheet.specs.Checks.{or_else, check_part, over_in, passed};
ghost use Rattle.sheet.specs.Pictures.{picture_of, lit_in};
ghost use Rattle.columns.specs.Stored.{chip_ran};
ghost use Rattle.sheet.specs.Plain.{with_registers, chip_byte, acknowledges_byte, chip_stepped, chip_answers, chip_lost, hears, chip_fits, chip_power_on, check_chip_picture, chip_power_on_part, chip_picture_part};

use sheet::{Chip, ChipPowerOn, Expect, Kind, Marks, Refusal, Registers};

// The chip after a command byte: it obeys every command, selected or not.
#[tactic(auto, using(command::proofs::Cases::pointer_nibble))]
fn obey(part: u8, chip: Chip, byte: u8) -> Chip
    ensures { result ≡ with_registers (obeyed chip.registers ((part_of part).command byte)) chip }
{
    Chip {
        registers: command::obey(chip.registers, decode::decode(part, byte)),
        ..chip
    }
}

// The chip, its registers in range, after a byte, by what the byte is.
fn follow(part: u8, chip: Chip, expect: Expect, byte: u8) -> Chip
    requires { in_range (part_of part) chip.registers ≡ true }
    ensures { result ≡ chip_byte (part_of part) expect byte chip }
{
    match protocol::kind(expect) {
        None => chip,
        Some(Kind::Command) => obey(part, chip, byte),
        Some(Kind::Data) => columns::take_data(part, chip, byte),
    }
}

// The chip after a byte. With a register out of range it stays as it is.
pub fn step(part: u8, chip: Chip, expect: Expect, byte: u8) -> Chip
    ensures { result ≡ chip_stepped (part_of part) expect byte chip }
{
    if registers::in_range(part, chip.registers) {
        follow(part, chip, expect, byte)
    } else {
        chip
    }
}

// The chip after data bytes, one after the other. With a register out of range it stays as it is.
pub fn run(part: u8, chip: Chip, bytes: &[u8]) -> Chip
    ensures { result ≡ chip_ran (part_of part) bytes.now chip }
{
    if registers::in_range(part, chip.registers) {
        columns::take_run(part, chip, bytes)
    } else {
        chip
    }
}

// Whether the chip, its registers in range, acknowledges a byte.
fn answers(part: u8, chip: Chip, expect: Expect, byte: u8) -> bool
    requires { in_range (part_of part) chip.registers ≡ true }
    ensures { result ≡ acknowledges_byte (part_of part) expect byte chip }
{
    match protocol::kind(expect) {
        None | Some(Kind::Command) => true,
        Some(Kind::Data) => columns::acknowledges_data(part, chip, byte),
    }
}

// Whether the chip acknowledges a byte. With a register out of range it acknowledges none.
pub fn acknowledges(part: u8, chip: Chip, expect: Expect, byte: u8) -> bool
    ensures { result ≡ chip_answers (part_of part) expect byte chip }
{
    registers::in_range(part, chip.registers) && answers(part, chip, expect, byte)
}

// The chip after a byte that is cut: data makes its pointer and counter unknown.
pub fn lose(chip: Chip, is_data: bool) -> Chip
    ensures { result ≡ chip_lost is_data chip }
{
    Chip {
        registers: registers::lose(is_data, chip.registers),
        ..chip
    }
}

// Its marks.
pub fn marks(chip: Chip) -> Marks
    ensures { result ≡ chip.registers.unknown }
{
    chip.registers.unknown
}

// Whether an address byte is the chip's.
pub fn hears(chip: Chip, address: u8) -> bool
    ensures { result ≡ hears address chip }
{
    address as usize == 112 + 2 * (chip.sa0 as usize)
}

// Whether no column of the part is over 15. What stands behind them is not looked at.
fn columns_fit(part: u8, columns: [u8; 160]) -> bool
    ensures { result ≡ passed (over_in 0 (take (part_of part).columns columns)) }
{
    let own = arithmetic::columns(part);
    checks::passes(checks::first_over(&columns[..own]))
}

// Whether every field and column of the chip is in range.
#[tactic(auto, unfolding(sheet::specs::Plain::chip_fits))]
pub fn fits(part: u8, chip: Chip) -> bool
    ensures { result ≡ chip_fits (part_of part) chip }
{
    let below = (chip.subaddress as usize) < arithmetic::limit(part);
    (chip.sa0 < 2)
        & (below & (registers::in_range(part, chip.registers) & columns_fit(part, chip.columns)))
}

// Whether a power-on is refused: 16, 11.
#[tactic(auto, unfolding(sheet::specs::Plain::chip_power_on))]
fn check_power_on(part: u8, chip: Chip) -> Result<(), Refusal>
    ensures { result ≡ or_else (check_part part) (chip_power_on (part_of part) chip).check }
{
    checks::check_part(part)?;
    let below = (chip.subaddress as usize) < arithmetic::limit(part);
    let fits = (chip.sa0 < 2) & (below & columns_fit(part, chip.columns));
    checks::unless(fits, Refusal::ChipField(0))
}

// Power-on, taken or refused: the registers become the power-on ones and the rest stays.
#[tactic(auto, unfolding(sheet::specs::Plain::chip_power_on_part))]
pub fn power_on(part: u8, chip: Chip) -> ChipPowerOn
    ensures value { result ≡ chip_power_on_part part chip }
    ensures check_value { check_numbers result.check ≡ check_numbers (chip_power_on_part part chip).check }
{
    ChipPowerOn {
        check: check_power_on(part, chip),
        chip: Chip {
            registers: registers::power_on(),
            ..chip
        },
    }
}

// Whether a picture of the chip into a buffer of this size is refused, the part being known.
#[tactic(auto, unfolding(sheet::specs::Plain::check_chip_picture))]
fn check_shown(part: u8, chip: Chip, phase: u8, size: usize) -> Result<(), Refusal>
    ensures { result ≡ check_chip_picture (part_of part) chip phase size }
{
    checks::unless(fits(part, chip), Refusal::ChipField(0))?;
    checks::unless(phase < 2, Refusal::GroupOrPhase)?;
    checks::unless(size == arithmetic::columns(part), Refusal::OutputLength)
}

// Whether a picture is refused: 16, 11, 8, 9.
fn check_picture(part: u8, chip: Chip, phase: u8, size: usize) -> Result<(), Refusal>
    ensures { result ≡ or_else (check_part part) (check_chip_picture (part_of part) chip phase size) }
{
    checks::check_part(part)?;
    check_shown(part, chip, phase, size)
}

// What the part's columns show. What stands behind them is not looked at.
fn show_own(part: u8, columns: [u8; 160], registers: Registers, phase: u8, out: &mut [u8]) -> usize
    requires { (length out.old ≡ (part_of part).columns) × (registers.m < 4) × (registers.o < 2) }
    ensures out_after { out.new ≡ picture_of registers phase (take (part_of part).columns columns) }
    ensures value { result ≡ lit_in (picture_of registers phase (take (part_of part).columns columns)) }
{
    let own = arithmetic::columns(part);
    picture::show(&columns[..own], false, registers, phase, out)
}

// The picture of the chip alone, of the part's columns, and its lit elements, or a refusal.
pub fn picture(part: u8, chip: Chip, phase: u8, out: &mut [u8]) -> Result<usize, Refusal>
    ensures out_after { record { result = result; out = out.new } ≡ chip_picture_part part chip phase out.old }
    ensures result_value { picture_numbers result ≡ picture_numbers (chip_picture_part part chip phase out.old).result }
{
    check_picture(part, chip, phase, out.len())?;
    Ok(show_own(part, chip.columns, chip.registers, phase, out))
}
