// Data bytes into a group's packed columns, two a byte (paper 02, request 6). Every run goes from an even column on: from an odd one its bits are a stream that begins one column earlier.
#![tactic(auto)]

ghost use Rattle.std.specs.Prelude.{◌≡◌, ◌≢◌, ◌+◌, ◌-◌, ◌*◌, ◌%◌, ◌≤◌, ◌<◌, length};
ghost use Rattle.sheet.specs.Registers.{bank_row};
ghost use Rattle.sheet.specs.Data.{put_bits, width_of};
ghost use Rattle.sheet.specs.Runs.{put_run};
ghost use Rattle.packed_sheet.specs.Packed.{unpacked};
ghost use Rattle.ram.specs.Writes.{Whole, Cut};
ghost use Rattle.packed_ram.specs.Stream.{earlier, stream, ending};

// The eight bits that begin `shift` bits before byte x.
fn earlier_byte(last: u8, x: u8, shift: usize) -> u8
    requires { shift < 8 }
    ensures { result ≡ earlier shift last x }
{
    // `u16::from_be_bytes` takes 1.03 times as long in 1:4
    let both = words::wide(last) * 256 + words::wide(x);
    ((both >> shift) % 256) as u8
}

// A byte of a stream into the packed bytes that it covers: four in static, two in 1:2, one in 1:4.
fn stream_byte(ram: &mut [u8], at: usize, m: usize, bank: u8, x: u8)
    requires { (0 < m) × (m < 5) × (m ≢ 3) × (bank < 2) × (2 * at + width_of m ≤ 2 * length ram.old) }
    ensures { unpacked ram.new ≡ put_bits 8 m (bank_row m bank) (2 * at) x (unpacked ram.old) }
{
    let rows = packed_words::rows_of(m, bank) as u32;
    match m {
        1 => words::put_four(ram, at, rows, packed_words::eight_columns(x) as u32),
        2 => words::put_two(ram, at, rows, packed_words::four_columns(x) as u32),
        _ => {
            ram[at] = words::reversed(x);
        }
    }
}

// A stream from an even column on, where a byte covers its columns exactly.
fn stream_run(ram: &mut [u8], at: usize, m: usize, bank: u8, shift: usize, before: u8, bytes: &[u8])
    requires { Whole (unpacked ram.old) (2 * at) m bank bytes.now × (m ≢ 3) × (shift < 8) }
    ensures { unpacked ram.new ≡ put_run m (bank_row m bank) (2 * at) (stream shift before bytes.now) (unpacked ram.old) }
{
    let each = arithmetic::width(m) / 2;
    let mut last = before;
    for (i, &x) in bytes.iter().enumerate() {
        stream_byte(ram, at + each * i, m, bank, earlier_byte(last, x, shift));
        last = x;
    }
}

// 1:3 from an even column on, four bytes at a time, whose twelve columns are six packed bytes.
fn three_fours(ram: &mut [u8], at: usize, bytes: &[u8])
    requires { (3 * length bytes.now ≤ 2 * length ram.old - 2 * at) × (length ram.old < 65536) × (length bytes.now % 4 ≡ 0) }
    ensures { unpacked ram.new ≡ put_run 3 0 (2 * at) bytes.now (unpacked ram.old) }
{
    for four in 0..bytes.len() / 4 {
        let i = 4 * four;
        let a = packed_words::three_columns(bytes[i]);
        let b = packed_words::three_columns(bytes[i + 1]);
        let c = packed_words::three_columns(bytes[i + 2]);
        let d = packed_words::three_columns(bytes[i + 3]);
        packed_words::put_twelve(
            ram,
            at + 6 * four,
            a + 4096 * b + 0x1000000 * (c + 4096 * d),
        );
    }
}

// 1:3, byte by byte.
fn three_bytes(ram: &mut [u8], v: usize, bytes: &[u8])
    requires { (3 * length bytes.now ≤ 2 * length ram.old - v) × (length ram.old < 65536) }
    ensures { unpacked ram.new ≡ put_run 3 0 v bytes.now (unpacked ram.old) }
{
    for (i, &x) in bytes.iter().enumerate() {
        packed_words::put_columns(ram, v + 3 * i, 3, 0x377, packed_words::three_columns(x));
    }
}

// 1:3 from an even column on.
fn three_even(ram: &mut [u8], at: usize, bytes: &[u8])
    requires { (3 * length bytes.now ≤ 2 * length ram.old - 2 * at) × (length ram.old < 65536) }
    ensures { unpacked ram.new ≡ put_run 3 0 (2 * at) bytes.now (unpacked ram.old) }
{
    let fours = bytes.len() / 4 * 4;
    three_fours(ram, at, &bytes[..fours]);
    if fours < bytes.len() {
        three_bytes(ram, 2 * at + 3 * fours, &bytes[fours..]);
    }
}

// 1:3: from an odd column on the first byte ends at an even one.
fn three_run(ram: &mut [u8], v: usize, bytes: &[u8])
    requires { (3 * length bytes.now ≤ 2 * length ram.old - v) × (length ram.old < 65536) }
    ensures { unpacked ram.new ≡ put_run 3 0 v bytes.now (unpacked ram.old) }
{
    if v % 2 == 0 {
        three_even(ram, v / 2, bytes);
    } else if 0 < bytes.len() {
        three_bytes(ram, v, &bytes[..1]);
        three_even(ram, v / 2 + 2, &bytes[1..]);
    }
}

// A run as a stream that begins so many columns, none or one, before an even one. Each mode goes by its own numbers: the compiler makes a loop of each.
fn shifted_run<const BACK: usize>(
    ram: &mut [u8],
    at: usize,
    m: usize,
    bank: u8,
    before: u8,
    bytes: &[u8],
)
    requires { Whole (unpacked ram.old) (2 * at) m bank bytes.now × (m ≢ 3) × (BACK < 2) }
    ensures { unpacked ram.new ≡ put_run m (bank_row m bank) (2 * at) (stream (m * BACK) before bytes.now) (unpacked ram.old) }
{
    match m {
        1 => stream_run(ram, at, 1, bank, BACK, before, bytes),
        2 => stream_run(ram, at, 2, bank, 2 * BACK, before, bytes),
        _ => stream_run(ram, at, 4, bank, 4 * BACK, before, bytes),
    }
}

// A byte whose last column is q, in the rows of the bank.
fn ending_in(m: usize, bank: u8, q: u8) -> u8
    requires { (0 < m) × (m < 5) × (bank < 2) × (q < 16) }
    ensures { ending m (bank_row m bank) result q ≡ q }
{
    let b = arithmetic::bank_row(m, bank);
    words::reversed(q >> b) >> (8 - m)
}

// From an odd column on: a stream from the even column before it, which keeps what it has; the last column stands apart.
fn odd_run(ram: &mut [u8], v: usize, m: usize, bank: u8, bytes: &[u8])
    requires { Whole (unpacked ram.old) v m bank bytes.now × (m ≢ 3) × (v % 2 ≢ 0) × (0 < length bytes.now) × (length ram.old < 65536) }
    ensures { unpacked ram.new ≡ put_run m (bank_row m bank) v bytes.now (unpacked ram.old) }
{
    let at = v / 2;
    let w = arithmetic::width(m);
    let before = ending_in(m, bank, ram[at] % 16);
    shifted_run::<1>(ram, at, m, bank, before, bytes);
    let n = bytes.len();
    let t = packed_words::columns_of(m, bytes[n - 1]);
    let down = 4 * (w - 1);
    packed_words::put_columns(
        ram,
        v - 1 + w * n,
        1,
        packed_words::rows_of(m, bank) >> down,
        t >> down,
    );
}

// Bytes whose columns are all there, by the mode and the column that they begin at.
pub fn whole_bytes(ram: &mut [u8], v: usize, m: usize, bank: u8, bytes: &[u8])
    requires { Whole (unpacked ram.old) v m bank bytes.now × (length ram.old < 65536) }
    ensures { unpacked ram.new ≡ put_run m (bank_row m bank) v bytes.now (unpacked ram.old) }
{
    if m == 3 {
        three_run(ram, v, bytes);
    } else if v % 2 == 0 {
        shifted_run::<0>(ram, v / 2, m, bank, 0, bytes);
    } else if 0 < bytes.len() {
        odd_run(ram, v, m, bank, bytes);
    }
}

// Of the bytes that do not fit, only the first has columns left.
pub fn cut_byte(ram: &mut [u8], at: usize, m: usize, bank: u8, rest: &[u8])
    requires { Cut (unpacked ram.old) at m bank rest.now }
    ensures { unpacked ram.new ≡ put_run m (bank_row m bank) at rest.now (unpacked ram.old) }
{
    if let Some(&x) = rest.first() {
        if at / 2 < ram.len() {
            packed_words::cut_columns(
                ram,
                at,
                packed_words::rows_of(m, bank),
                packed_words::columns_of(m, x),
            );
        }
    }
}
