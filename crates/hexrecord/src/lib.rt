// A record of a RAM image: its line written; found, checked and stored (paper 02, request 13).
#![tactic(auto)]

ghost use Rattle.std.specs.Prelude.{true, ◌≡◌, ◌++◌, ◌+◌, ◌≤◌, ◌<◌, length, drop};
ghost use Rattle.image_sheet.specs.Hex.{checksum_of, record_of, line_of};
ghost use Rattle.image_sheet.specs.Images.{line_end, address_of, kind_of, inside, none_given, head_fault, data_fault, fault_of, stored, fault_in, size_in, bytes_of, digits_in};
ghost use Rattle.text.specs.Texts.{Puts};
ghost use Rattle.hexrecord.specs.Lines.{line_at, step_of, given_after, Whole, Room};

use sheet::Refusal;

// ---- a record is written

// With it the sum of a record's bytes is 0 modulo 256.
fn checksum(head: &[u8], columns: &[u8]) -> u8
    ensures { result ≡ checksum_of (head.now ++ columns.now) }
{
    let sum = hexadecimal::sum(head) + hexadecimal::sum(columns);
    ((sum % 256) as u8).wrapping_neg()
}

// A record's line; the place after it is returned.
pub fn put_record(out: &mut [u8], at: usize, kind: u8, address: usize, columns: &[u8]) -> usize
    requires { Room at kind address columns.now out.old }
    ensures { Puts at (line_of (record_of kind address columns.now)) out.old out.new result }
{
    let [high, low] = (address as u16).to_be_bytes();
    let head = [columns.len() as u8, high, low, kind];
    let last = [checksum(&head, columns)];
    let start = text::put_byte(out, at, b':');
    let body = hexadecimal::put_text(out, start, &head);
    let end = hexadecimal::put_text(out, body, columns);
    let over = hexadecimal::put_text(out, end, &last);
    text::put_byte(out, over, b'\n')
}

// ---- a line is found

// A line of a file: what its record's length says and where the next line begins.
#[derive(Clone, Copy)]
pub struct Line {
    pub count: usize,
    pub next: usize,
}

// The bytes of a line's end at a place: LF, or CR LF; 0 where none stands.
fn line_end(file: &[u8], i: usize) -> usize
    requires { i < 131072 }
    ensures { (result ≡ line_end i file.now) × (result < 3) }
{
    let first = checks::byte_at(file, i);
    if first == 10 {
        return 1;
    }
    if (first == 13) & (checks::byte_at(file, i + 1) == 10) {
        2
    } else {
        0
    }
}

fn line_at(file: &[u8], at: usize) -> Option<Line>
    requires { (at ≤ length file.now) × (length file.now ≤ 65536) }
    ensures { result ≡ line_at at (drop at file.now) }
{
    let start = at + 1;
    let count = hexadecimal::pair_of(checks::byte_at(file, start), checks::byte_at(file, at + 2));
    let end = at + 11 + 2 * count;
    let over = line_end(file, end);
    if (checks::byte_at(file, at) == 58) & (0 < over) {
        if hexadecimal::are_digits(&file[start..end]) {
            Some(Line {
                count,
                next: end + over,
            })
        } else {
            None
        }
    } else {
        None
    }
}

// ---- a record is checked

fn address_of(bytes: &[u8]) -> usize
    requires { Whole bytes.now }
    ensures { (result ≡ address_of bytes.now) × (result < 65536) }
{
    u16::from_be_bytes([bytes[1], bytes[2]]) as usize
}

// 21 of an end record, 22, 23.
fn head_fault(bytes: &[u8], at: usize) -> Result<(), Refusal>
    requires { Whole bytes.now }
    ensures { result ≡ head_fault at bytes.now }
{
    let kind = bytes[3];
    if (kind == 1) & ((0 < bytes[0]) | (0 < address_of(bytes))) {
        return Err(Refusal::RecordForm(at));
    }
    if 0 < hexadecimal::sum(bytes) {
        return Err(Refusal::Checksum(at));
    }
    checks::unless(kind <= 1, Refusal::RecordType(at))
}

// Whether no record gave a column of these.
fn none_given(columns: &[u8]) -> bool
    ensures { result ≡ none_given columns.now }
{
    columns.iter().all(|column| 15 < *column)
}

// 24, 25, 5. A record without data has none.
fn data_fault(bytes: &[u8], given: &[u8], at: usize) -> Result<(), Refusal>
    requires { Whole bytes.now }
    ensures { result ≡ data_fault given.now at bytes.now }
{
    let count = bytes[0] as usize;
    if count == 0 {
        return Ok(());
    }
    let start = address_of(bytes);
    let end = start + count;
    if given.len() < end {
        return Err(Refusal::AddressOutside(at));
    }
    if none_given(&given[start..end]) {
        let last = 4 + count;
        let small = checks::passes(checks::first_over(&bytes[4..last]));
        checks::unless(small, Refusal::RamByte(at))
    } else {
        Err(Refusal::AddressTwice(at))
    }
}

#[tactic(auto, unfolding(image_sheet::specs::Images::fault_of))]
fn fault(bytes: &[u8], given: &[u8], at: usize) -> Result<(), Refusal>
    requires { Whole bytes.now }
    ensures { result ≡ fault_of given.now at bytes.now }
{
    head_fault(bytes, at)?;
    data_fault(bytes, given, at)
}

// ---- a record is stored

// Its data bytes into the columns that it gives.
fn store(bytes: &[u8], given: &mut [u8])
    requires { Whole bytes.now × (inside given.old bytes.now ≡ true) }
    ensures { given.new ≡ stored given.old bytes.now }
{
    let count = bytes[0] as usize;
    if 0 < count {
        let start = address_of(bytes);
        let end = start + count;
        let last = 4 + count;
        given[start..end].copy_from_slice(&bytes[4..last]);
    }
}

// What a record is, and the place after it: one of data, or the end record.
#[derive(Clone, Copy)]
pub enum Step {
    Next(usize),
    Last(usize),
}

// The record of these bytes, stored unless it is refused.
fn take(bytes: &[u8], given: &mut [u8], at: usize, next: usize) -> Result<Step, Refusal>
    requires { Whole bytes.now }
    ensures value { result ≡ step_of (fault_of given.old at bytes.now) (kind_of bytes.now) next }
    ensures given_after { given.new ≡ given_after (fault_of given.old at bytes.now) given.old bytes.now }
{
    fault(bytes, given, at)?;
    store(bytes, given);
    if bytes[3] == 1 {
        Ok(Step::Last(next))
    } else {
        Ok(Step::Next(next))
    }
}

// The record that stands at a place.
pub fn read_record(file: &[u8], given: &mut [u8], at: usize) -> Result<Step, Refusal>
    requires { (at < length file.now) × (length file.now ≤ 65536) }
    ensures value { result ≡ step_of (fault_in given.old at (drop at file.now)) (kind_of (bytes_of (digits_in (drop at file.now)))) (at + size_in (drop at file.now)) }
    ensures given_after { given.new ≡ given_after (fault_in given.old at (drop at file.now)) given.old (bytes_of (digits_in (drop at file.now))) }
{
    match line_at(file, at) {
        None => Err(Refusal::RecordForm(at)),
        Some(line) => {
            // room for the longest: its length is one byte
            let mut bytes = [0; 260];
            let size = line.count + 5;
            let start = at + 1;
            let end = start + 2 * size;
            hexadecimal::read(&file[start..end], &mut bytes[..size]);
            take(&bytes[..size], given, at, line.next)
        }
    }
}
