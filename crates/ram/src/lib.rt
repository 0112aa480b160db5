// Data bytes into a group's columns, each mode with its own literal arithmetic.
// Bytes whose columns are all there go in without a test a column; only the byte at the edge is tested.
#![tactic(auto)]

ghost use Rattle.std.specs.Prelude.{◌≡◌, ◌+◌, ◌-◌, ◌*◌, ◌%◌, ◌≤◌, ◌<◌, ◌^◌, length, Ok};
ghost use Rattle.sheet.specs.Registers.{bank_row};
ghost use Rattle.sheet.specs.Checks.{over_in};
ghost use Rattle.sheet.specs.Data.{changed, with_row, put_bits};
ghost use Rattle.sheet.specs.Runs.{put_run};
ghost use Rattle.words.specs.Fields.{three_columns};
ghost use Rattle.ram.specs.Writes.{Whole, Cut};
ghost use Rattle.ram.specs.Tables.{static_columns, first_bits, last_bits};

// One row of a column. A column past the end is nobody's. By `get_mut` its two goals at the return do not close.
fn put_row(ram: &mut [u8], at: usize, row: usize, bit: u8)
    requires { (row < 4) × (bit < 2) }
    ensures { ram.new ≡ changed (with_row row bit) at ram.old }
{
    if at < ram.len() {
        ram[at] = arithmetic::with_row(row, bit, ram[at]);
    }
}

// A data byte bit by bit, with a test for each: for the one byte of a run that is cut.
fn put_bits(ram: &mut [u8], at: usize, m: usize, b: usize, x: u8)
    requires { (0 < m) × (b + m ≤ 4) × (at < 2 ^ 32) }
    ensures { ram.new ≡ put_bits 8 m b at x ram.old }
{
    for k in 0..8 {
        let bit = arithmetic::bit_of(x, k);
        put_row(ram, at + k / m, b + k % m, bit);
    }
}

// Of the bytes that do not fit, only the first has columns left.
#[tactic(auto, using(crate::proofs::Runs::no_bytes, crate::proofs::Runs::first_byte))]
pub fn cut_byte(ram: &mut [u8], at: usize, m: usize, bank: u8, rest: &[u8])
    requires { Cut ram.old at m bank rest.now }
    ensures { ram.new ≡ put_run m (bank_row m bank) at rest.now ram.old }
{
    if let Some(&x) = rest.first() {
        let b = arithmetic::bank_row(m, bank);
        put_bits(ram, at, m, b, x);
    }
}

// Four columns of a byte in static, in the row that a shift by 7 or by 5 leads to: each column has a copy of the byte, of which the bit of its mask is carried to bit 7 by what the mask lacks to 80.
fn static_columns(x: u8, masks: u32, shift: u32) -> u32
    requires { (masks ≤ 2155905152) × (shift < 8) }
    ensures { result ≡ static_columns x masks shift }
{
    let copies = 0x01010101 * words::wide(x);
    ((copies & masks) + (0x80808080 - masks)) >> shift
}

// Static, where all columns are there.
fn static_run(ram: &mut [u8], v: usize, bank: u8, bytes: &[u8])
    requires { (bank < 2) × (8 * length bytes.now ≤ length ram.old - v) × (over_in 0 ram.old ≡ Ok tt) }
    ensures { ram.new ≡ put_run 1 (2 * bank) v bytes.now ram.old }
{
    let rows = 0x01010101 * (1 + 3 * words::wide(bank));
    let shift = 7 - 2 * words::wide(bank);
    for (i, &x) in bytes.iter().enumerate() {
        let at = v + 8 * i;
        words::put_four(ram, at, rows, static_columns(x, 0x10204080, shift));
        words::put_four(ram, at + 4, rows, static_columns(x, 0x01020408, shift));
    }
}

// 1:2, where all columns are there.
fn two_run(ram: &mut [u8], v: usize, bank: u8, bytes: &[u8])
    requires { (bank < 2) × (4 * length bytes.now ≤ length ram.old - v) × (over_in 0 ram.old ≡ Ok tt) }
    ensures { ram.new ≡ put_run 2 (2 * bank) v bytes.now ram.old }
{
    let rows = 0x03030303 * (1 + 3 * words::wide(bank));
    for (i, &x) in bytes.iter().enumerate() {
        words::put_four(ram, v + 4 * i, rows, words::spread(x));
    }
}

// The three columns of a byte in 1:3 as a word: what its first four bits give of column 0 and of column 1, and what its last four give of column 1 and of column 2.
const FIRST_BITS: [u32; 16] = [
    0,
    0x0100,
    4,
    4 + 0x0100,
    2,
    2 + 0x0100,
    6,
    6 + 0x0100,
    1,
    1 + 0x0100,
    5,
    5 + 0x0100,
    3,
    3 + 0x0100,
    7,
    7 + 0x0100,
];

const LAST_BITS: [u32; 16] = [
    0,
    0x020000,
    0x010000,
    0x030000,
    0x0400,
    0x0400 + 0x020000,
    0x0400 + 0x010000,
    0x0400 + 0x030000,
    0x0200,
    0x0200 + 0x020000,
    0x0200 + 0x010000,
    0x0200 + 0x030000,
    0x0600,
    0x0600 + 0x020000,
    0x0600 + 0x010000,
    0x0600 + 0x030000,
];

// A byte's three columns as a word.
fn three_columns(first: &[u32; 16], last: &[u32; 16], x: u8) -> u32
    requires { (first.now ≡ first_bits) × (last.now ≡ last_bits) }
    ensures { (result ≡ three_columns x) × (result < 16777216) }
{
    let high = (x / 16) as usize;
    let low = (x % 16) as usize;
    first[high] + last[low]
}

// 1:3, four bytes at a time, whose twelve columns are three words.
fn three_fours(ram: &mut [u8], v: usize, bytes: &[u8])
    requires { (3 * length bytes.now ≤ length ram.old - v) × (over_in 0 ram.old ≡ Ok tt) × (length bytes.now % 4 ≡ 0) }
    ensures { ram.new ≡ put_run 3 0 v bytes.now ram.old }
{
    // copied once, and not at each index
    let first = FIRST_BITS;
    let last = LAST_BITS;
    for four in 0..bytes.len() / 4 {
        let i = 4 * four;
        let a = three_columns(&first, &last, bytes[i]);
        let b = three_columns(&first, &last, bytes[i + 1]);
        let c = three_columns(&first, &last, bytes[i + 2]);
        let d = three_columns(&first, &last, bytes[i + 3]);
        words::put_twelve(ram, v + 3 * i, a, b, c, d);
    }
}

// 1:3, byte by byte.
fn three_bytes(ram: &mut [u8], v: usize, bytes: &[u8])
    requires { 3 * length bytes.now ≤ length ram.old - v }
    ensures { ram.new ≡ put_run 3 0 v bytes.now ram.old }
{
    for (i, &x) in bytes.iter().enumerate() {
        words::three_byte(ram, v + 3 * i, x);
    }
}

// 1:3, where all columns are there.
fn three_run(ram: &mut [u8], v: usize, bytes: &[u8])
    requires { (3 * length bytes.now ≤ length ram.old - v) × (over_in 0 ram.old ≡ Ok tt) }
    ensures { ram.new ≡ put_run 3 0 v bytes.now ram.old }
{
    let fours = bytes.len() / 4 * 4;
    three_fours(ram, v, &bytes[..fours]);
    three_bytes(ram, v + 3 * fours, &bytes[fours..]);
}

// 1:4, where all columns are there.
fn four_run(ram: &mut [u8], v: usize, bytes: &[u8])
    requires { (2 * length bytes.now ≤ length ram.old - v) × (over_in 0 ram.old ≡ Ok tt) }
    ensures { ram.new ≡ put_run 4 0 v bytes.now ram.old }
{
    for (i, &x) in bytes.iter().enumerate() {
        words::four_byte(ram, v + 2 * i, x);
    }
}

// Bytes whose columns are all there, by the mode.
pub fn whole_bytes(ram: &mut [u8], v: usize, m: usize, bank: u8, bytes: &[u8])
    requires { Whole ram.old v m bank bytes.now }
    ensures { ram.new ≡ put_run m (bank_row m bank) v bytes.now ram.old }
{
    match m {
        1 => static_run(ram, v, bank, bytes),
        2 => two_run(ram, v, bank, bytes),
        3 => three_run(ram, v, bytes),
        _ => four_run(ram, v, bytes),
    }
}
