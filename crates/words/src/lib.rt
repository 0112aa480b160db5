// A data byte into columns that are all there: whole columns at a time, and in static and 1:2 four of them as one word.
#![tactic(auto)]

ghost use Rattle.std.specs.Prelude.{◌≡◌, ◌+◌, ◌*◌, ◌/◌, ◌%◌, ◌≤◌, ◌<◌, length, get_or, Ok};
ghost use Rattle.sheet.specs.Checks.{over_in};
ghost use Rattle.sheet.specs.Data.{changed, put_bits};
ghost use Rattle.words.specs.Fields.{field, joined, laid, merged, three_rows, Spread};

// ---- column by column

// A byte's bits in the other order, so that the bit for the lowest row comes lowest.
pub fn reversed(x: u8) -> u8
    ensures { result ≡ field x 0 8 }
{
    x.reverse_bits()
}

// Makes f the rows of a column from the row worth low up to below the one worth high.
fn put(ram: &mut [u8], at: usize, low: u8, high: u8, f: u8)
    requires { (at < length ram.old) × (0 < low) × (f * low + low ≤ high) × (256 % high ≡ 0) }
    ensures { ram.new ≡ changed (λ q. q / high * high + (f * low + q % low)) at ram.old }
{
    let q = ram[at];
    ram[at] = q / high * high + (f * low + q % low);
}

// 1:3: three columns of three rows; the last gets rows 0 and 1 only and keeps its row 2.
pub fn three_byte(ram: &mut [u8], at: usize, x: u8)
    requires { at + 3 ≤ length ram.old }
    ensures { ram.new ≡ put_bits 8 3 0 at x ram.old }
{
    let y = reversed(x);
    put(ram, at, 1, 8, y % 8);
    put(ram, at + 1, 1, 8, y / 8 % 8);
    put(ram, at + 2, 1, 4, y / 64 % 4);
}

// 1:4: two columns, of which nothing is kept, since they have four rows and no more.
pub fn four_byte(ram: &mut [u8], at: usize, x: u8)
    requires { (at + 2 ≤ length ram.old) × (over_in 0 ram.old ≡ Ok tt) }
    ensures { ram.new ≡ put_bits 8 4 0 at x ram.old }
{
    let y = reversed(x);
    ram[at] = y % 16;
    ram[at + 1] = y / 16 % 16;
}

// ---- four columns as a word

// Widened with its bound kept, so that callers need not look it up.
pub fn wide(q: u8) -> u32
    ensures { (result ≡ q) × (result < 256) }
{
    q as u32
}

// Four columns as a word, the first lowest: the compiler makes one load of it.
pub fn four_columns(ram: &[u8], at: usize) -> u32
    requires { at + 4 ≤ length ram.now }
    ensures { result ≡ joined 4 (λ j. get_or ram.now (at + j) 0) }
{
    u32::from_le_bytes([ram[at], ram[at + 1], ram[at + 2], ram[at + 3]])
}

// A word stored as four columns, the lowest first. The four stores become one.
pub fn store_four(ram: &mut [u8], at: usize, w: u32)
    requires { at + 4 ≤ length ram.old }
    ensures { ram.new ≡ laid 4 w at ram.old }
{
    ram[at..at + 4].copy_from_slice(&w.to_le_bytes());
}

// Four columns at once: the rows in `rows` become those of t.
pub fn put_four(ram: &mut [u8], at: usize, rows: u32, t: u32)
    requires { at + 4 ≤ length ram.old }
    ensures { ram.new ≡ merged 4 rows t at ram.old }
{
    let old = four_columns(ram, at);
    let kept = (old | rows) ^ rows;
    store_four(ram, at, kept | (t & rows));
}

// Two words as one.
fn double(low: u32, high: u32) -> u64
    ensures { result ≡ low + 4294967296 * high }
{
    low as u64 + 4294967296 * (high as u64)
}

// Eight columns as a word.
pub fn eight_columns(ram: &[u8], at: usize) -> u64
    requires { at + 8 ≤ length ram.now }
    ensures { result ≡ joined 8 (λ j. get_or ram.now (at + j) 0) }
{
    double(four_columns(ram, at), four_columns(ram, at + 4))
}

// 1:3: the words of four bytes, three columns each, as three words of four.
pub fn put_twelve(ram: &mut [u8], at: usize, a: u32, b: u32, c: u32, d: u32)
    requires { (at + 12 ≤ length ram.old) × (a < 16777216) × (b < 16777216) × (c < 16777216) × (d < 16777216) }
    ensures { ram.new ≡ merged 3 three_rows d (at + 9) (merged 3 three_rows c (at + 6) (merged 3 three_rows b (at + 3) (merged 3 three_rows a at ram.old))) }
{
    put_four(ram, at, 0x07030707, a + 16777216 * (b % 256));
    put_four(ram, at + 4, 0x07070307, b / 256 + 65536 * (c % 65536));
    put_four(ram, at + 8, 0x03070703, c / 65536 + 256 * d);
}

// Two bytes at once, in the same way.
pub fn put_two(ram: &mut [u8], at: usize, rows: u32, t: u32)
    requires { at + 2 ≤ length ram.old }
    ensures { ram.new ≡ merged 2 rows t at ram.old }
{
    let old = u16::from_le_bytes([ram[at], ram[at + 1]]) as u32;
    let kept = (old | rows) ^ rows;
    let w = kept | (t & rows);
    ram[at..at + 2].copy_from_slice(&w.to_le_bytes()[..2]);
}

// A byte's four columns of two rows as a word, in both banks. The product has bit k of the byte at bit k + 10 j, for j from 0 to 3.
pub fn spread(x: u8) -> u32
    ensures { Spread 2 x 0 result }
{
    let copies = (x as u64) * 0x40100401;
    let word = (copies / 128 & 0x01010101) + (copies / 32 & 0x02020202);
    (5 * word) as u32
}
