// Every element of a three-backplane glass: the transfer that sets rows 0 to 2 of every column of a group, a data byte at each even column (paper 02, request 12).
#![tactic(auto)]

ghost use Rattle.std.specs.Prelude.{◌≡◌, [], ◌∷◌, ◌++◌, ◌+◌, ◌*◌, ◌/◌, ◌%◌, ◌<◌, length};
ghost use Rattle.sheet.specs.Parts.{part_of};
ghost use Rattle.sheet.specs.Refusals.{written_numbers};
ghost use Rattle.sheet.specs.Protocol.{address_of};
ghost use Rattle.writer_sheet.specs.Writer.{each_after80, mode_set_of};
ghost use Rattle.writer_sheet.specs.Three.{byte_at, pairs_from, write_three_part};
ghost use Rattle.three.specs.Room.{Byte, Four, Chip, Pairs, Three};

use groups::Bus;
use sheet::{Both, Chips, Refusal, Registers};

// How long one data byte is with the commands before it.
fn byte_size(part: u8) -> usize
    ensures { result ≡ 4 + 2 * length ((part_of part).pointer 0) }
{
    4 + 2 * arithmetic::pointers(part)
}

// ---- a PCF8532

// Device-select, the pointer, and the data byte x, at column p of a chip, as two words.
fn put_large(chip: u32, p: usize, x: u32, out: &mut [u8])
    requires { (chip < 8) × (p < 160) × (x < 256) × (length out.old ≡ 8) }
    ensures { out.new ≡ 0x80 ∷ (0xE0 + chip) ∷ 0x80 ∷ p / 16 ∷ 0x80 ∷ (0x40 + p % 16) ∷ 0xC0 ∷ x ∷ [] }
{
    let low = 0x80E080 + chip * 0x100 + ((p / 16) as u32) * 0x1000000;
    let high = 0xC04080 + ((p % 16) as u32) * 0x100 + x * 0x1000000;
    gather::put_word(&mut out[..4], low);
    gather::put_word(&mut out[4..], high);
}

// ---- a PCA85133

// The same with its one pointer command.
fn put_small(chip: u32, p: usize, x: u32, out: &mut [u8])
    requires { (chip < 8) × (p < 80) × (x < 256) × (length out.old ≡ 6) }
    ensures { out.new ≡ 0x80 ∷ (0xE0 + chip) ∷ 0x80 ∷ p ∷ 0xC0 ∷ x ∷ [] }
{
    let low = 0x80E080 + chip * 0x100 + (p as u32) * 0x1000000;
    gather::put_word(&mut out[..4], low);
    out[4] = 0xC0;
    out[5] = x as u8;
}

// ---- either

// A data byte at column p of the chip whose first column is c.
fn put_byte(part: u8, c: usize, p: usize, x: u32, out: &mut [u8])
    requires { Byte (part_of part) c p out.old × (x < 256) }
    ensures { out.new ≡ byte_at (part_of part) (c + p) x }
{
    if part == sheet::PCA85133 {
        put_small((c / 80) as u32, p, x, out);
    } else {
        put_large((c / 160) as u32, p, x, out);
    }
}

// Those of the four even columns from p on.
fn put_four(part: u8, c: usize, p: usize, wanted: &[u8], out: &mut [u8])
    requires { Four (part_of part) c p wanted.now out.old }
    ensures { out.new ≡ pairs_from (part_of part) 4 (c + p) wanted.now }
{
    let size = byte_size(part);
    let word = gather::pair_bytes(wanted, c + p);
    for i in 0..4 {
        let x = (word >> (8 * i)) % 256;
        let at = size * i;
        put_byte(part, c, p + 2 * i, x, &mut out[at..at + size]);
    }
}

// And of a chip's columns from c on.
fn put_chip(part: u8, c: usize, wanted: &[u8], out: &mut [u8])
    requires { Chip (part_of part) c wanted.now out.old }
    ensures { out.new ≡ pairs_from (part_of part) ((part_of part).columns / 2) c wanted.now }
{
    let size = 4 * byte_size(part);
    let columns = arithmetic::columns(part);
    let mut at: usize = 0;
    let mut p: usize = 0;
    // `for i in 0..columns / 8` takes 1.08 times as long
    while p < columns {
        put_four(part, c, p, wanted, &mut out[at..at + size]);
        at += size;
        p += 8;
    }
}

// The same, each part by its own number: the compiler makes a loop of each.
fn put_either(part: u8, c: usize, wanted: &[u8], out: &mut [u8])
    requires { Chip (part_of part) c wanted.now out.old }
    ensures { out.new ≡ pairs_from (part_of part) ((part_of part).columns / 2) c wanted.now }
{
    if part == sheet::PCA85133 {
        put_chip(sheet::PCA85133, c, wanted, out);
    } else {
        put_chip(sheet::PCF8532, c, wanted, out);
    }
}

// A data byte at each even column.
fn put_pairs(part: u8, wanted: &[u8], out: &mut [u8])
    requires { Pairs (part_of part) wanted.now out.old }
    ensures { out.new ≡ pairs_from (part_of part) (length wanted.now / 2) 0 wanted.now }
{
    let columns = arithmetic::columns(part);
    let size = byte_size(part) * (columns / 2);
    for i in 0..wanted.len() / columns {
        let at = size * i;
        put_either(part, columns * i, wanted, &mut out[at..at + size]);
    }
}

// The address, mode-set 1:3, and the bytes, into an output that is as long.
fn put_three(part: u8, group: u8, registers: Registers, wanted: &[u8], out: &mut [u8])
    requires { (group < 2) × (registers.e < 2) × (registers.b < 2) × Three (part_of part) wanted.now out.old }
    ensures { out.new ≡ address_of group ∷ each_after80 (mode_set_of registers 3 ∷ []) ++ pairs_from (part_of part) (length wanted.now / 2) 0 wanted.now }
{
    out[0] = 112 + 2 * group;
    out[1] = 0x80;
    out[2] = writer::mode_set(registers, 3);
    put_pairs(part, wanted, &mut out[3..]);
}

// One transfer that sets rows 0 to 2 of every column of a group, at the start of `out`, whose other bytes stay; none for a group with no chip.
// Refused by 16, 3, 6, 8, 4, 5, then 9 for an output shorter than the transfer.
pub fn write_three(
    part: u8,
    chips: Chips,
    registers: Both,
    group: u8,
    wanted: &[u8],
    out: &mut [u8],
) -> Result<usize, Refusal>
    ensures out_after { record { result = result; out = out.new } ≡ write_three_part part chips registers group wanted.now out.old }
    ensures result_value { written_numbers result ≡ written_numbers (write_three_part part chips registers group wanted.now out.old).result }
{
    let bus = Bus {
        part,
        chips,
        packed: false,
    };
    refused::check_every(&bus, registers, group, wanted)?;
    if groups::chips_in(group, chips) == 0 {
        return Ok(0);
    }
    let own = groups::registers_of(group, registers);
    let size = 3 + byte_size(part) * (wanted.len() / 2);
    if out.len() < size {
        return Err(Refusal::OutputLength);
    }
    put_three(part, group, own, wanted, &mut out[..size]);
    Ok(size)
}
