// Wanted rows into data bytes, each mode with its own literal arithmetic: `words` and `ram` backwards.
// Columns are taken four at a time as a word, and in 1:3 so are the data bytes; in 1:4 two columns are a byte. The compiler takes several at a time.
#![tactic(auto)]

ghost use Rattle.std.specs.Prelude.{◌≡◌, ◌+◌, ◌*◌, ◌≤◌, ◌<◌, ◌^◌, [], ◌∷◌, map, length};
ghost use Rattle.sheet.specs.Registers.{bank_row};
ghost use Rattle.sheet.specs.Data.{width_of};
ghost use Rattle.writer_sheet.specs.Writer.{bits_from, data_from, bytes_for};
ghost use Rattle.writer_sheet.specs.Three.{pair_of};
ghost use Rattle.words.specs.Fields.{joined, column_of};
ghost use Rattle.gather.specs.Gathered.{side, pair_at, pairs_at, turned_three, turned_four, ByBytes, ByWords, Gathered};

// ---- static and 1:2: byte by byte

// Static: eight columns of one row, the first four above the others. Then each column comes above the next one, and each two above the next two.
fn static_byte(columns: &[u8], at: usize, bank: u8) -> u8
    requires { (at + 8 ≤ length columns.now) × (bank < 2) }
    ensures { result ≡ bits_from 8 1 (2 * bank) at columns.now }
{
    let rows = 0x01010101 * (1 + 3 * words::wide(bank));
    let low = words::four_columns(columns, at) & rows;
    let high = words::four_columns(columns, at + 4) & rows;
    let word = (16 * low + high) >> (2 * (bank as usize));
    let pairs = word * 2 + word / 256;
    ((pairs * 4 + pairs / 65536) % 256) as u8
}

// 1:2: four columns of two rows. Their rows change places, and the columns come together in the same way.
fn two_byte(columns: &[u8], at: usize, bank: u8) -> u8
    requires { (at + 4 ≤ length columns.now) × (bank < 2) }
    ensures { result ≡ bits_from 8 2 (2 * bank) at columns.now }
{
    let word = words::four_columns(columns, at) >> (2 * (bank as usize));
    let swapped = (word & 0x01010101) * 2 + (word / 2 & 0x01010101);
    let pairs = swapped * 4 + swapped / 256;
    ((pairs * 16 + pairs / 65536) % 256) as u8
}

// Either, by the byte's number.
fn byte_of(columns: &[u8], m: usize, bank: u8, j: usize) -> u8
    requires { (0 < m) × (m < 3) × (bank < 2) × (width_of m * (j + 1) ≤ length columns.now) }
    ensures { result ≡ bits_from 8 m (2 * bank) (width_of m * j) columns.now }
{
    if m == 1 {
        static_byte(columns, 8 * j, bank)
    } else {
        two_byte(columns, 4 * j, bank)
    }
}

fn byte_data(columns: &[u8], m: usize, bank: u8, out: &mut [u8])
    requires { ByBytes columns.now m bank out.old }
    ensures { out.new ≡ data_from (length out.old) m (2 * bank) columns.now }
{
    for (j, byte) in out.iter_mut().enumerate() {
        *byte = byte_of(columns, m, bank, j);
    }
}

// ---- 1:3: four bytes as a word

// Two columns of four rows side by side, and the next two: the first in the upper half.
fn two_pairs(columns: &[u8], at: usize) -> u32
    requires { at + 4 ≤ length columns.now }
    ensures value { result ≡ pair_at columns.now (at + 2) * 256 + pair_at columns.now at }
    ensures upper_bound { result < 65536 }
{
    let rows = words::four_columns(columns, at) & 0x0F0F0F0F;
    let pairs = rows * 16 + rows / 256;
    pairs % 256 + pairs / 65536 % 256 * 256
}

// Eight columns so.
fn four_pairs(columns: &[u8], at: usize) -> u32
    requires { at + 8 ≤ length columns.now }
    ensures { result ≡ joined 4 (λ i. pair_at columns.now (at + 2 * i)) }
{
    two_pairs(columns, at) + 65536 * two_pairs(columns, at + 4)
}

// 1:3: in each byte rows 0 and 2 of the column from bit 5 on, and of the one from bit 2 on, change places.
fn turned_three(word: u32) -> u32
    ensures { result ≡ turned_three word }
{
    ((word & 0x24242424) * 4 | word / 4 & 0x24242424) | word & 0x48484848
}

// Of twelve columns, four a word, every third from the first on.
fn firsts(a: u32, b: u32, c: u32) -> u32
    ensures { result ≡ side (column_of a 0) (column_of a 3) (column_of b 2) (column_of c 1) }
{
    a % 256
        + a / 0x1000000 % 256 * 0x100
        + b / 0x10000 % 256 * 0x10000
        + c / 0x100 % 256 * 0x1000000
}

// From the second on.
fn seconds(a: u32, b: u32, c: u32) -> u32
    ensures { result ≡ side (column_of a 1) (column_of b 0) (column_of b 3) (column_of c 2) }
{
    a / 0x100 % 256
        + b % 256 * 0x100
        + b / 0x1000000 % 256 * 0x10000
        + c / 0x10000 % 256 * 0x1000000
}

// From the third on.
fn thirds(a: u32, b: u32, c: u32) -> u32
    ensures { result ≡ side (column_of a 2) (column_of b 1) (column_of c 0) (column_of c 3) }
{
    a / 0x10000 % 256
        + b / 0x100 % 256 * 0x100
        + c % 256 * 0x10000
        + c / 0x1000000 % 256 * 0x1000000
}

// 1:3: three columns of three rows a byte; of the last only rows 0 and 1.
fn three_bytes(columns: &[u8], at: usize) -> u32
    requires { at + 12 ≤ length columns.now }
    ensures { result ≡ joined 4 (λ i. bits_from 8 3 0 (at + 3 * i) columns.now) }
{
    let a = words::four_columns(columns, at);
    let b = words::four_columns(columns, at + 4);
    let c = words::four_columns(columns, at + 8);
    let both = (firsts(a, b, c) & 0x07070707) * 32 + (seconds(a, b, c) & 0x07070707) * 4;
    let third = thirds(a, b, c);
    turned_three(both) | ((third & 0x01010101) * 2 | third / 2 & 0x01010101)
}

// Four bytes of a number, which are all of a buffer.
pub fn put_word(out: &mut [u8], word: u32)
    requires { length out.old ≡ 4 }
    ensures { out.new ≡ column_of word 0 ∷ column_of word 1 ∷ column_of word 2 ∷ column_of word 3 ∷ [] }
{
    out.copy_from_slice(&word.to_le_bytes());
}

fn word_data(columns: &[u8], out: &mut [u8])
    requires { ByWords columns.now out.old }
    ensures { out.new ≡ data_from (length out.old) 3 0 columns.now }
{
    for four in 0..out.len() / 4 {
        let j = 4 * four;
        let word = three_bytes(columns, 3 * j);
        put_word(&mut out[j..j + 4], word);
    }
}

// Every element in 1:3: two columns of three rows and two bits that are 0, for each two of eight columns.
pub fn pair_bytes(columns: &[u8], at: usize) -> u32
    requires { at + 8 ≤ length columns.now }
    ensures { result ≡ joined 4 (λ i. pair_of columns.now (at + 2 * i)) }
{
    let pairs = four_pairs(columns, at);
    turned_three((pairs & 0x70707070) * 2 + (pairs & 0x07070707) * 4)
}

// ---- the bytes of 1:3 after the last word: a column past the last is 0

fn three_byte(columns: &[u8], at: usize) -> u8
    requires { at < 2 ^ 32 }
    ensures { result ≡ bits_from 8 3 0 at columns.now }
{
    let first = checks::byte_at(columns, at) % 8;
    let second = checks::byte_at(columns, at + 1) % 8;
    let third = checks::byte_at(columns, at + 2) % 4;
    words::reversed(first + second * 8 + third * 64)
}

fn three_data(columns: &[u8], out: &mut [u8])
    requires { (length out.old ≡ bytes_for 3 (length columns.now)) × (length columns.now < 2 ^ 32) }
    ensures { out.new ≡ data_from (length out.old) 3 0 columns.now }
{
    let whole = columns.len() / 12 * 4;
    word_data(columns, &mut out[..whole]);
    for j in whole..out.len() {
        out[j] = three_byte(columns, 3 * j);
    }
}

// ---- 1:4: a walk that brings two columns together and one that turns their rows, many bytes at a time each

// Two columns of four rows side by side, the first in the upper half.
fn pair_of(columns: &[u8], at: usize) -> u8
    requires { at + 2 ≤ length columns.now }
    ensures { result ≡ pair_at columns.now at }
{
    let rows = u16::from_le_bytes([columns[at], columns[at + 1]]) & 0x0F0F;
    ((rows * 16 + rows / 256) % 256) as u8
}

fn put_pairs(columns: &[u8], out: &mut [u8])
    requires { 2 * length out.old ≤ length columns.now }
    ensures { out.new ≡ pairs_at (length out.old) columns.now }
{
    for (j, pair) in out.iter_mut().enumerate() {
        *pair = pair_of(columns, 2 * j);
    }
}

// The rows of each column the other way round, in two steps.
fn turned_four(pair: u8) -> u8
    ensures { result ≡ turned_four pair }
{
    let swapped = (pair & 0x33) * 4 | pair / 4 & 0x33;
    (swapped & 0x55) * 2 | swapped / 2 & 0x55
}

fn turn_pairs(out: &mut [u8])
    ensures { out.new ≡ map turned_four out.old }
{
    for pair in out.iter_mut() {
        *pair = turned_four(*pair);
    }
}

fn four_data(columns: &[u8], out: &mut [u8])
    requires { 2 * length out.old ≤ length columns.now }
    ensures { out.new ≡ data_from (length out.old) 4 0 columns.now }
{
    put_pairs(columns, out);
    turn_pairs(out);
}

// ---- all

// How many data bytes so many columns take, by literal divisors: a division by a number that is not known takes long.
pub fn count(m: usize, size: usize) -> usize
    requires { (0 < m) × (m < 5) × (size < 2 ^ 32) }
    ensures { result ≡ bytes_for m size }
{
    match m {
        1 => size.div_ceil(8),
        2 => size.div_ceil(4),
        3 => size.div_ceil(3),
        _ => size.div_ceil(2),
    }
}

// The data bytes of the columns, in a mode of m backplanes and an input bank.
pub fn gather(columns: &[u8], m: usize, bank: u8, out: &mut [u8])
    requires { Gathered columns.now m bank out.old }
    ensures { out.new ≡ data_from (length out.old) m (bank_row m bank) columns.now }
{
    if m < 3 {
        byte_data(columns, m, bank, out);
    } else if m == 3 {
        three_data(columns, out);
    } else {
        four_data(columns, out);
    }
}
