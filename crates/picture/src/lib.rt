// What a group shows.
#![tactic(auto)]

ghost use Rattle.std.specs.Prelude.{◌≡◌, ◌≤◌, ◌<◌, ◌%◌, length, Some};
ghost use Rattle.sheet.specs.Pictures.{lit, picture_of, lit_in};
ghost use Rattle.packed_sheet.specs.Packed.{unpacked, columns_in};
ghost use Rattle.picture.specs.Drawn.{rows_of, drawn, Few, Drawable, Low};

use sheet::Registers;

// A column's rows from a first one on, moved down to row 0.
fn lit_rows(first: usize, height: usize, column: u8) -> u8
    requires { (first < 8) × (height < 8) }
    ensures { result ≡ lit height (Some first) column }
{
    (column >> first) & ((1u8 << height) - 1)
}

// Writes these rows of at most 48 columns and counts their ones. The count is a byte, so that many columns are done at once.
fn draw_some(columns: &[u8], first: usize, height: usize, out: &mut [u8]) -> u8
    requires { Few columns.now first height out.old }
    ensures { record { lit = result; out = out.new } ≡ drawn first height columns.now }
{
    let mut ones = 0;
    for (i, &column) in columns.iter().enumerate() {
        let value = lit_rows(first, height, column);
        out[i] = value;
        ones += value.count_ones() as u8;
    }
    ones
}

// Writes these rows of each column and counts their ones, 80 columns after the other, in two parts since a byte does not hold the count of 80.
fn draw(columns: &[u8], first: usize, height: usize, out: &mut [u8]) -> usize
    requires { Drawable columns.now first height out.old }
    ensures { record { lit = result; out = out.new } ≡ drawn first height columns.now }
{
    let mut lit = 0;
    for start in (0..columns.len()).step_by(80) {
        let middle = start + 48;
        let end = middle + 32;
        let ones = draw_some(
            &columns[start..middle],
            first,
            height,
            &mut out[start..middle],
        );
        let more = draw_some(&columns[middle..end], first, height, &mut out[middle..end]);
        lit += ones as usize + more as usize;
    }
    lit
}

// Writes these rows of each packed column, two a byte.
fn draw_pairs(ram: &[u8], first: usize, height: usize, out: &mut [u8])
    requires { (length out.old ≡ length (unpacked ram.now)) × (first < 8) × (height < 8) }
    ensures { out.new ≡ rows_of first height (unpacked ram.now) }
{
    for (i, &pair) in ram.iter().enumerate() {
        out[2 * i] = lit_rows(first, height, pair % 16);
        out[2 * i + 1] = lit_rows(first, height, pair / 16);
    }
}

// The ones of at most 48 columns, of at most 4 each. The count is a byte, so that many columns are counted at once.
fn count_some(columns: &[u8]) -> u8
    requires { (length columns.now ≤ 48) × Low columns.now }
    ensures { result ≡ lit_in columns.now }
{
    let mut ones = 0;
    for &column in columns {
        ones += column.count_ones() as u8;
    }
    ones
}

// The same of packed columns: 80 are written and then counted, since many at once are counted only where they lie a byte each.
fn draw_packed(ram: &[u8], first: usize, height: usize, out: &mut [u8]) -> usize
    requires { Drawable (unpacked ram.now) first height out.old }
    ensures { record { lit = result; out = out.new } ≡ drawn first height (unpacked ram.now) }
{
    let mut lit: usize = 0;
    for start in (0..ram.len()).step_by(40) {
        let end = start + 40;
        draw_pairs(
            &ram[start..end],
            first,
            height,
            &mut out[2 * start..2 * end],
        );
        let ones = count_some(&out[2 * start..2 * start + 48]);
        let others = count_some(&out[2 * start + 48..2 * end]);
        lit += ones as usize + others as usize;
    }
    lit
}

// Of columns that are a byte each, or packed.
fn draw_in(ram: &[u8], packed: bool, first: usize, height: usize, out: &mut [u8]) -> usize
    requires { Drawable (columns_in packed ram.now) first height out.old }
    ensures { record { lit = result; out = out.new } ≡ drawn first height (columns_in packed ram.now) }
{
    if packed {
        draw_packed(ram, first, height, out)
    } else {
        draw(ram, first, height, out)
    }
}

// The picture is written, a byte a column, and counted in one walk. Dark is a picture of no rows.
pub fn show(ram: &[u8], packed: bool, registers: Registers, phase: u8, out: &mut [u8]) -> usize
    requires { (length out.old ≡ length (columns_in packed ram.now)) × (length out.old ≤ 1280) × (length out.old % 80 ≡ 0) × (registers.m < 4) × (registers.o < 2) }
    ensures out_after { out.new ≡ picture_of registers phase (columns_in packed ram.now) }
    ensures value { result ≡ lit_in (picture_of registers phase (columns_in packed ram.now)) }
{
    match shown::shown(registers, phase) {
        None => draw_in(ram, packed, 0, 0, out),
        Some(first) => draw_in(ram, packed, first, arithmetic::backplanes(registers), out),
    }
}
