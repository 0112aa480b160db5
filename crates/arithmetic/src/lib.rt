// The small arithmetic that several rooms share: the numbers of a part, modes and banks, places, bits and rows.
#![tactic(auto)]

ghost use Rattle.std.specs.Prelude.{true, cond, ◌≡◌, ◌-◌, ◌*◌, ◌/◌, ◌%◌, ◌<◌, min, length};
ghost use Rattle.sheet.specs.Parts.{part_of};
ghost use Rattle.sheet.specs.Registers.{in_range, backplanes, bank_row};
ghost use Rattle.sheet.specs.Places.{position, at_position};
ghost use Rattle.sheet.specs.Data.{bit_of, with_row, width_of};

use sheet::Registers;

// ---- a part by its number, any: no narrower type, since each function and call promises its answer of every number (`part_of`) and 16 refuses the others.
// Only here are its numbers told apart: a division is by a literal on either side

// The columns of a chip.
pub fn columns(part: u8) -> usize
    ensures { result ≡ (part_of part).columns }
{
    if part == sheet::PCA85133 { 80 } else { 160 }
}

// The subaddresses of a group, and where its counter rests.
pub fn limit(part: u8) -> usize
    ensures { result ≡ (part_of part).limit }
{
    if part == sheet::PCA85133 { 8 } else { 4 }
}

// The commands that make P a column.
pub fn pointers(part: u8) -> usize
    ensures { result ≡ length ((part_of part).pointer 0) }
{
    if part == sheet::PCA85133 { 1 } else { 2 }
}

// The columns of so many chips.
pub fn columns_in(part: u8, chips: u16) -> usize
    ensures { result ≡ (part_of part).columns * chips }
{
    columns(part) * chips as usize
}

// The chip that has a column of the group.
pub fn chip_of(part: u8, v: usize) -> usize
    ensures { result ≡ v / (part_of part).columns }
{
    if part == sheet::PCA85133 {
        v / 80
    } else {
        v / 160
    }
}

// Which of its columns that is.
pub fn column_of(part: u8, v: usize) -> usize
    ensures { result ≡ v % (part_of part).columns }
{
    if part == sheet::PCA85133 {
        v % 80
    } else {
        v % 160
    }
}

// ---- modes and banks

// The backplanes of a mode.
pub fn backplanes(registers: Registers) -> usize
    ensures { result ≡ backplanes registers }
{
    if registers.m == 0 {
        4
    } else {
        registers.m as usize
    }
}

// The first row of a bank.
#[tactic(auto, unfolding(sheet::specs::Registers::bank_row))]
pub fn bank_row(m: usize, bank: u8) -> usize
    ensures { result ≡ bank_row m bank }
{
    if m < 3 { 2 * (bank as usize) } else { 0 }
}

// ---- places

// The columns that a byte covers.
pub fn width(m: usize) -> usize
    requires { 0 < m }
    ensures { result ≡ width_of m }
{
    7 / m + 1
}

// Pointer and counter as one position.
pub fn position(part: u8, registers: Registers) -> usize
    requires { in_range (part_of part) registers ≡ true }
    ensures { result ≡ position (part_of part) registers }
{
    columns(part) * registers.a + registers.p
}

// The registers at a position.
pub fn at_position(part: u8, mut registers: Registers, v: usize) -> Registers
    ensures { result ≡ at_position (part_of part) registers v }
{
    registers.p = column_of(part, v);
    registers.a = limit(part).min(chip_of(part, v));
    registers
}

// The lesser of two numbers.
pub fn least(a: usize, b: usize) -> usize
    ensures { result ≡ min a b }
{
    a.min(b)
}

// The columns from v on, of as many as there are.
pub fn columns_from(v: usize, size: usize) -> usize
    ensures { result ≡ size - v }
{
    size.saturating_sub(v)
}

// ---- packed columns, two a byte (paper 02, request 6)

// The columns that so many bytes of RAM hold.
pub fn columns_held(bytes: usize, packed: bool) -> usize
    requires { bytes < 65536 }
    ensures { result ≡ cond packed (2 * bytes) bytes }
{
    if packed { 2 * bytes } else { bytes }
}

// The byte of RAM that holds a column.
pub fn byte_of(column: usize, packed: bool) -> usize
    ensures { result ≡ cond packed (column / 2) column }
{
    if packed { column / 2 } else { column }
}

// ---- bits and rows

// Bit k of a byte, numbered from the most significant.
pub fn bit_of(byte: u8, k: usize) -> u8
    requires { k < 8 }
    ensures { result ≡ bit_of byte k }
{
    (byte >> (7 - k)) % 2
}

// A column with one row made a bit, the other rows kept.
pub fn with_row(row: usize, bit: u8, column: u8) -> u8
    requires { (row < 4) × (bit < 2) }
    ensures { result ≡ with_row row bit column }
{
    let low = 1u8 << row;
    let high = 2 * low;
    column / high * high + bit * low + column % low
}
