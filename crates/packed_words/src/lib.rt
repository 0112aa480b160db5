// A data byte's packed columns as a word, four bits each, and words into packed columns: two columns a byte, the even one in the low four bits (paper 02, request 6).
#![tactic(auto)]

ghost use Rattle.std.specs.Prelude.{◌≡◌, ℕ, ◌+◌, ◌*◌, ◌≤◌, ◌<◌, ◌^◌, length};
ghost use Rattle.sheet.specs.Data.{changed};
ghost use Rattle.packed_sheet.specs.Packed.{unpacked};
ghost use Rattle.words.specs.Fields.{column_of, mixed, merged};
ghost use Rattle.packed_words.specs.Placed.{placed, RowsWord, Word, twelve_rows};

// ---- two columns a byte

// The rows in `rows` of two columns become those of t.
fn put(ram: &mut [u8], at: usize, rows: u8, t: u8)
    requires { at < length ram.old }
    ensures { ram.new ≡ changed (mixed rows t) at ram.old }
{
    ram[at] = ((ram[at] | rows) ^ rows) | (t & rows);
}

// Two columns of a word.
fn two_of(w: u64, j: usize) -> u8
    requires { j < 8 }
    ensures { result ≡ column_of w j }
{
    ((w >> (8 * j)) % 256) as u8
}

// The rows in `rows` of n bytes, two columns each, become those of t.
fn put_bytes(ram: &mut [u8], at: usize, n: usize, rows: u64, t: u64)
    requires { (at + n ≤ length ram.old) × (n ≤ 8) }
    ensures { ram.new ≡ merged n rows t at ram.old }
{
    for j in 0..n {
        put(ram, at + j, two_of(rows, j), two_of(t, j));
    }
}

// 1:3: the twelve columns of four data bytes in six bytes, the first four as one word.
pub fn put_twelve(ram: &mut [u8], at: usize, t: u64)
    requires { (at + 6 ≤ length ram.old) × (t < 2 ^ 48) }
    ensures { ram.new ≡ merged 6 twelve_rows t at ram.old }
{
    words::put_four(ram, at, 0x77377377, (t % 0x100000000) as u32);
    words::put_two(ram, at + 4, 0x3773, (t / 0x100000000) as u32);
}

// ---- a byte's columns

// Columns from v on, all of them there. From an odd column on the word begins one column later.
pub fn put_columns(ram: &mut [u8], v: usize, w: usize, rows: u64, t: u64)
    requires { (v + w ≤ 2 * length ram.old) × (w ≤ 8) × (rows < 2 ^ (4 * w)) × (t < 2 ^ 32) }
    ensures { unpacked ram.new ≡ placed w rows t v (unpacked ram.old) }
{
    if v % 2 == 0 {
        put_bytes(ram, v / 2, (w + 1) / 2, rows, t);
    } else {
        put_bytes(ram, v / 2, w / 2 + 1, 16 * rows, 16 * t);
    }
}

// Those of at most eight columns that are there, at the end of the RAM.
pub fn cut_columns(ram: &mut [u8], v: usize, rows: u64, t: u64)
    requires { (v < 2 * length ram.old) × (2 * length ram.old ≤ v + 8) × (rows < 2 ^ 32) × (t < 2 ^ 32) }
    ensures { (w : ℕ) → 2 * length ram.old ≤ v + w → unpacked ram.new ≡ placed w rows t v (unpacked ram.old) }
{
    let at = v / 2;
    let left = ram.len() - at;
    if v % 2 == 0 {
        put_bytes(ram, at, left, rows, t);
    } else {
        put_bytes(ram, at, left, 16 * rows, 16 * t);
    }
}

// The rows that a byte sets in its columns; in 1:3 the last column gets rows 0 and 1 only.
pub fn rows_of(m: usize, bank: u8) -> u64
    requires { (0 < m) × (m < 5) × (bank < 2) }
    ensures { RowsWord m bank result }
{
    match m {
        1 => 0x11111111 * (1 + 3 * (bank as u64)),
        2 => 0x3333 * (1 + 3 * (bank as u64)),
        3 => 0x377,
        _ => 0xFF,
    }
}

// Static: eight columns of one row, in both banks. The product has bit k of the byte at bit k + 10 j, for j from 0 to 3; what is past 32 bits is not asked, so that four bytes go at a time.
pub fn eight_columns(x: u8) -> u64
    ensures { Word 1 x result }
{
    let copies = ((x as u64) * 0x40100401 % 0x100000000) as u32;
    let word = (copies / 128 & 0x01010101) + (copies / 4 & 0x10101010);
    (5 * word) as u64
}

// 1:2: four columns of two rows, in both banks.
pub fn four_columns(x: u8) -> u64
    ensures { Word 2 x result }
{
    let y = words::reversed(x) as u64;
    let fours = (y | 16 * y) & 0x0F0F;
    5 * ((fours | 4 * fours) & 0x3333)
}

// 1:3: two columns of three rows and one of two. The product has bit k of the low seven at bits k, k + 7 and k + 14.
pub fn three_columns(x: u8) -> u64
    ensures { Word 3 x result }
{
    let copies = ((x % 128) as u64) * 0x4081;
    let rows = (copies / 128 & 0x110) + (copies / 32 & 0x222) + (copies / 8 & 0x044);
    (x / 128) as u64 + rows
}

// A byte's columns as a word; in 1:4 they are its bits in the other order.
pub fn columns_of(m: usize, x: u8) -> u64
    requires { (0 < m) × (m < 5) }
    ensures { Word m x result }
{
    match m {
        1 => eight_columns(x),
        2 => four_columns(x),
        3 => three_columns(x),
        _ => words::reversed(x) as u64,
    }
}
