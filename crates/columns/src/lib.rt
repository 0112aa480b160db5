// A data byte in one chip of the plain account: column by column, stored where A is the chip's subaddress, P and A moving on.
#![tactic(auto)]

ghost use Rattle.std.specs.Prelude.{◌≡◌, cond, true, ◌+◌, ◌-◌, ◌*◌, ◌/◌, ◌%◌, ◌^◌, ◌≤◌, ◌<◌, min, ltb, length};
ghost use Rattle.sheet.specs.Parts.{part_of};
ghost use Rattle.sheet.specs.Registers.{in_range, backplanes};
ghost use Rattle.sheet.specs.Plain.{put_rows, chip_data, acknowledges_data};
ghost use Rattle.columns.specs.Stored.{stored_in, columns_after, ran_over, room_in};
ghost use Rattle.sheet.specs.Places.{advanced, advanced_by};
ghost use Rattle.sheet.specs.Data.{bit_of, with_row, width_of, put_bits};
ghost use Rattle.words.specs.Fields.{with_rows};

use sheet::{Chip, Registers};

// A column with one row made bit k of a byte. A byte has no bit past 7: then the row stays.
fn put_row(row: usize, k: usize, byte: u8, column: u8) -> u8
    requires { row < 4 }
    ensures { result ≡ cond (ltb k 8) (with_row row (bit_of byte k) column) column }
{
    if 8 <= k {
        return column;
    }
    arithmetic::with_row(row, arithmetic::bit_of(byte, k), column)
}

// A column with m rows from row b on made the bits of a byte from bit k on.
fn put_rows(m: usize, b: usize, k: usize, byte: u8, column: u8) -> u8
    requires { (b + m < 5) × (k < 8) }
    ensures { result ≡ put_rows m b k byte column }
{
    let mut put = column;
    for n in 0..m {
        put = put_row(b + n, k + n, byte, put);
    }
    put
}

// A column on: P rises by 1; at the part's columns it becomes 0 and A rises by 1, stopping at the limit.
fn advance(part: u8, registers: Registers) -> Registers
    requires { (registers.p < (part_of part).columns) × (registers.a ≤ (part_of part).limit) }
    ensures { result ≡ advanced (part_of part) registers }
{
    if registers.p + 1 == arithmetic::columns(part) {
        Registers {
            p: 0,
            a: arithmetic::limit(part).min(registers.a + 1),
            ..registers
        }
    } else {
        Registers {
            p: registers.p + 1,
            ..registers
        }
    }
}

// The column at P after column j of a byte: new rows if A is the chip's subaddress.
fn stored(registers: Registers, subaddress: u8, byte: u8, j: usize, column: u8) -> u8
    requires { (registers.m < 4) × (registers.i < 2) × (backplanes registers * j < 8) }
    ensures { result ≡ stored_in registers subaddress byte j column }
{
    if registers.a == subaddress as usize {
        let m = arithmetic::backplanes(registers);
        let b = arithmetic::bank_row(m, registers.i);
        put_rows(m, b, m * j, byte, column)
    } else {
        column
    }
}

// The columns of a chip after a data byte, one after the other, from the registers that it finds. A column of another chip is written as it was.
fn put_columns(columns: &mut [u8], part: u8, start: Registers, subaddress: u8, byte: u8)
    requires { ((part_of part).columns ≤ length columns.old) × (in_range (part_of part) start ≡ true) }
    ensures { columns.new ≡ columns_after (part_of part) subaddress byte start (width_of (backplanes start)) columns.old }
{
    let width = arithmetic::width(arithmetic::backplanes(start));
    let mut registers = start;
    for j in 0..width {
        columns[registers.p] = stored(registers, subaddress, byte, j, columns[registers.p]);
        registers = advance(part, registers);
    }
}

// Rows b to b + h - 1 of a column made the binary digits of f, the other rows kept.
fn with_rows(b: usize, h: usize, f: u8, column: u8) -> u8
    requires { (b + h < 5) × (f < 2 ^ h) }
    ensures { result ≡ with_rows b h f column }
{
    let low = 1u8 << b;
    let high = 1u8 << (b + h);
    column / high * high + (f * low + column % low)
}

// A column with m rows from row b on made the bits from bit k on of a byte that stands in the other order. It has no bit past 7.
fn put_field(m: usize, b: usize, k: usize, bits: u8, column: u8) -> u8
    requires { (b + m < 5) × (k < 8) }
    ensures { result ≡ with_rows b (min m (8 - k)) (bits / 2 ^ k % 2 ^ min m (8 - k)) column }
{
    let h = m.min(8 - k);
    let rows = 1u8 << h;
    with_rows(b, h, (bits >> k) % rows, column)
}

// A data byte whose columns are all there: the rows of a column at once.
fn put_inside(columns: &mut [u8], at: usize, m: usize, b: usize, byte: u8)
    requires { (0 < m) × (b + m < 5) × (at + width_of m ≤ length columns.old) }
    ensures { columns.new ≡ put_bits 8 m b at byte columns.old }
{
    let bits = words::reversed(byte);
    let width = arithmetic::width(m);
    for j in 0..width {
        columns[at + j] = put_field(m, b, m * j, bits, columns[at + j]);
    }
}

// The columns of a chip after a data byte. If they are all of the chip that A names, and this is it, no column is tested.
fn put_byte(columns: &mut [u8], part: u8, start: Registers, subaddress: u8, byte: u8)
    requires { ((part_of part).columns ≤ length columns.old) × (in_range (part_of part) start ≡ true) }
    ensures { columns.new ≡ columns_after (part_of part) subaddress byte start (width_of (backplanes start)) columns.old }
{
    let m = arithmetic::backplanes(start);
    let inside = start.p + arithmetic::width(m) <= arithmetic::columns(part);
    if inside & (start.a == subaddress as usize) {
        put_inside(columns, start.p, m, arithmetic::bank_row(m, start.i), byte);
    } else {
        put_columns(columns, part, start, subaddress, byte);
    }
}

// The data bytes that end in the columns from P to the chip's last.
pub fn room(part: u8, registers: Registers) -> usize
    ensures { result ≡ room_in (part_of part) registers }
{
    let width = arithmetic::width(arithmetic::backplanes(registers));
    arithmetic::columns(part).saturating_sub(registers.p) / width
}

// The registers so many data bytes on, stored or not.
fn pass(part: u8, registers: Registers, count: usize) -> Registers
    requires { (in_range (part_of part) registers ≡ true) × (count < 65536) }
    ensures { result ≡ advanced_by (part_of part) (width_of (backplanes registers) * count) registers }
{
    let width = arithmetic::width(arithmetic::backplanes(registers));
    let v = arithmetic::position(part, registers) + width * count;
    arithmetic::at_position(part, registers, v)
}

// The chip after a data byte: all its columns; P and A move, stored or not.
pub fn take_data(part: u8, chip: Chip, byte: u8) -> Chip
    requires { in_range (part_of part) chip.registers ≡ true }
    ensures { result ≡ chip_data (part_of part) byte chip }
{
    let own = chip.subaddress;
    let mut columns = chip.columns;
    put_byte(&mut columns[..160], part, chip.registers, own, byte);
    Chip {
        columns,
        registers: pass(part, chip.registers, 1),
        ..chip
    }
}

// The chip after data bytes, each of which goes on where the one before ended. The columns are copied once, and not at each byte.
fn store_run(part: u8, chip: Chip, bytes: &[u8]) -> Chip
    requires { in_range (part_of part) chip.registers ≡ true }
    ensures { result ≡ ran_over (part_of part) bytes.now chip }
{
    let mut columns = chip.columns;
    let mut registers = chip.registers;
    for &byte in bytes {
        put_byte(&mut columns[..160], part, registers, chip.subaddress, byte);
        registers = pass(part, registers, 1);
    }
    Chip {
        columns,
        registers,
        ..chip
    }
}

// The same. Bytes that all end in the columns of another chip only move P.
pub fn take_run(part: u8, chip: Chip, bytes: &[u8]) -> Chip
    requires { in_range (part_of part) chip.registers ≡ true }
    ensures { result ≡ ran_over (part_of part) bytes.now chip }
{
    let inside = bytes.len() <= room(part, chip.registers);
    if inside & (chip.registers.a != chip.subaddress as usize) {
        Chip {
            registers: pass(part, chip.registers, bytes.len()),
            ..chip
        }
    } else {
        store_run(part, chip, bytes)
    }
}

// Whether the chip acknowledges a data byte, whatever it holds: A is its subaddress at the byte's last column.
pub fn acknowledges_data(part: u8, chip: Chip, byte: u8) -> bool
    requires { in_range (part_of part) chip.registers ≡ true }
    ensures { result ≡ acknowledges_data (part_of part) byte chip }
{
    let width = arithmetic::width(arithmetic::backplanes(chip.registers));
    let last = arithmetic::position(part, chip.registers) + width - 1;
    let a = arithmetic::limit(part).min(arithmetic::chip_of(part, last));
    a == chip.subaddress as usize
}
