// From picture to bus bytes: the transfer that puts a group's wanted rows into its RAM (paper 02, request 2).
#![tactic(auto)]

ghost use Rattle.std.specs.Prelude.{◌≡◌, [], ◌∷◌, ◌++◌, ◌+◌, ◌*◌, ◌^◌, ◌<◌, length};
ghost use Rattle.sheet.specs.Parts.{part_of};
ghost use Rattle.sheet.specs.Registers.{backplanes};
ghost use Rattle.sheet.specs.Refusals.{written_numbers};
ghost use Rattle.sheet.specs.Protocol.{address_of};
ghost use Rattle.writer_sheet.specs.Writer.{each_after80, mode_set_of, bank_select_of, settings, set_to, bytes_for, data_of, write_rows_part};
ghost use Rattle.writer.specs.Room.{Settled, Room};

use groups::Bus;
use sheet::{Both, Chips, Refusal, Registers};

// ---- the head: the address, the commands each after 80, and the 40 before the data

// How long it is: the PCA85133 has one pointer command, the PCF8532 two.
fn head_size(part: u8) -> usize
    ensures { result ≡ 8 + 2 * length ((part_of part).pointer 0) }
{
    8 + 2 * arithmetic::pointers(part)
}

// E and B as the registers have them, and a wanted M.
pub fn mode_set(registers: Registers, mode: u8) -> u8
    requires { (registers.e < 2) × (registers.b < 2) × (mode < 4) }
    ensures { result ≡ mode_set_of registers mode }
{
    0xC0 + 8 * registers.e + 4 * registers.b + mode
}

// A wanted I, and O as the registers have it.
fn bank_select(registers: Registers, bank: u8) -> u8
    requires { (bank < 2) × (registers.o < 2) }
    ensures { result ≡ bank_select_of registers bank }
{
    0xF8 + 2 * bank + registers.o
}

// The pointer at 0, and the 40.
fn put_pointer(part: u8, out: &mut [u8])
    requires { length out.old ≡ 2 * length ((part_of part).pointer 0) + 1 }
    ensures { out.new ≡ each_after80 ((part_of part).pointer 0) ++ (0x40 ∷ []) }
{
    out[0] = 0x80;
    out[1] = 0x00;
    if part == sheet::PCA85133 {
        out[2] = 0x40;
    } else {
        out[2] = 0x80;
        out[3] = 0x40;
        out[4] = 0x40;
    }
}

// The address, mode-set, bank-select and device-select 0.
fn put_settings(group: u8, registers: Registers, mode: u8, bank: u8, out: &mut [u8])
    requires { Settled group registers mode bank × (length out.old ≡ 7) }
    ensures { out.new ≡ address_of group ∷ each_after80 (mode_set_of registers mode ∷ bank_select_of registers bank ∷ 0xE0 ∷ []) }
{
    out[0] = 112 + 2 * group;
    out[1] = 0x80;
    out[2] = mode_set(registers, mode);
    out[3] = 0x80;
    out[4] = bank_select(registers, bank);
    out[5] = 0x80;
    out[6] = 0xE0;
}

// The whole head.
fn put_head(part: u8, group: u8, registers: Registers, mode: u8, bank: u8, out: &mut [u8])
    requires { Settled group registers mode bank × (length out.old ≡ 8 + 2 * length ((part_of part).pointer 0)) }
    ensures { out.new ≡ address_of group ∷ each_after80 (settings (part_of part) registers mode bank) ++ (0x40 ∷ []) }
{
    put_settings(group, registers, mode, bank, &mut out[..7]);
    put_pointer(part, &mut out[7..]);
}

// ---- the transfer

// The backplanes of a wanted mode.
fn backplanes_of(mut registers: Registers, mode: u8) -> usize
    ensures { result ≡ backplanes (set_to mode 0 registers) }
{
    registers.m = mode;
    arithmetic::backplanes(registers)
}

// How long it is for so many columns.
fn rows_size(part: u8, m: usize, columns: usize) -> usize
    requires { (0 < m) × (m < 5) × (columns < 2 ^ 32) }
    ensures { result ≡ 8 + 2 * length ((part_of part).pointer 0) + bytes_for m columns }
{
    head_size(part) + gather::count(m, columns)
}

// Head and data, into an output that is as long.
fn put_rows(
    part: u8,
    group: u8,
    registers: Registers,
    mode: u8,
    bank: u8,
    wanted: &[u8],
    out: &mut [u8],
)
    requires { Settled group registers mode bank × Room (part_of part) registers mode wanted.now out.old }
    ensures { out.new ≡ address_of group ∷ each_after80 (settings (part_of part) registers mode bank) ++ (0x40 ∷ data_of (set_to mode bank registers) wanted.now) }
{
    let head = head_size(part);
    let m = backplanes_of(registers, mode);
    put_head(part, group, registers, mode, bank, &mut out[..head]);
    gather::gather(wanted, m, bank, &mut out[head..]);
}

// One transfer that puts the wanted rows into a group's RAM, at the start of `out`, whose other bytes stay; none for a group with no chip.
// Refused by 16, 3, 6 (also a wanted mode or bank out of range), 8, 4, 5, then 9 for an output shorter than the transfer.
pub fn write_rows(
    part: u8,
    chips: Chips,
    registers: Both,
    group: u8,
    mode: u8,
    bank: u8,
    wanted: &[u8],
    out: &mut [u8],
) -> Result<usize, Refusal>
    ensures out_after { record { result = result; out = out.new } ≡ write_rows_part part chips registers group mode bank wanted.now out.old }
    ensures result_value { written_numbers result ≡ written_numbers (write_rows_part part chips registers group mode bank wanted.now out.old).result }
{
    let bus = Bus {
        part,
        chips,
        packed: false,
    };
    refused::check_wanted(&bus, registers, group, mode, bank, wanted)?;
    if groups::chips_in(group, chips) == 0 {
        return Ok(0);
    }
    let own = groups::registers_of(group, registers);
    let size = rows_size(part, backplanes_of(own, mode), wanted.len());
    if out.len() < size {
        return Err(Refusal::OutputLength);
    }
    put_rows(part, group, own, mode, bank, wanted, &mut out[..size]);
    Ok(size)
}
