// The checks that several calls share, each with its refusal. A check is looked at only if the earlier ones passed.
#![tactic(auto)]

ghost use Rattle.std.specs.Prelude.{◌≡◌, ◌+◌, ◌%◌, ◌≤◌, max, length, get_or, drop, true, ltb};
ghost use Rattle.std.specs.List.{position};
ghost use Rattle.laws.proofs.Nibbles.{Nibbles};
ghost use Rattle.checks.specs.Highest.{highest_of, first_over};
ghost use Rattle.sheet.specs.Parts.{part_of};
ghost use Rattle.sheet.specs.Protocol.{sent, whole_count, address_byte};
ghost use Rattle.sheet.specs.Checks.{unless, or_else, over_in, check_part, check_chips, check_length, check_bits, passed};

use sheet::{Chips, Refusal};

// Refused unless a test holds.
pub fn unless(holds: bool, refusal: Refusal) -> Result<(), Refusal>
    ensures { result ≡ unless holds refusal }
{
    if holds { Ok(()) } else { Err(refusal) }
}

// Whether a check has passed.
pub fn passes(check: Result<(), Refusal>) -> bool
    ensures { result ≡ passed check }
{
    check.is_ok()
}

// A byte of a transfer or a log, and 0 past its end.
pub fn byte_at(bytes: &[u8], i: usize) -> u8
    ensures { result ≡ get_or bytes.now i 0 }
{
    bytes.get(i).copied().unwrap_or(0)
}

// The part: 16.
pub fn check_part(part: u8) -> Result<(), Refusal>
    ensures { result ≡ check_part part }
{
    unless(part <= 1, Refusal::UnknownPart)
}

// The chip counts: 3.
pub fn check_chips(part: u8, chips: Chips) -> Result<(), Refusal>
    ensures { result ≡ check_chips (part_of part) chips }
{
    let limit = arithmetic::limit(part);
    unless(
        (chips.zero as usize <= limit) & (chips.one as usize <= limit),
        Refusal::ChipCount,
    )
}

// The highest column. No branch leaves the loop, so that many columns are looked at at once.
fn highest(columns: &[u8]) -> u8
    ensures { result ≡ highest_of columns.now }
{
    let mut found = 0;
    for &column in columns {
        found = column.max(found);
    }
    found
}

// The columns of the blocks before the first one that has a column over 15.
fn blocks_passed(columns: &[u8]) -> usize
    ensures { (result + first_over (drop result columns.now) ≡ first_over columns.now) × (result ≤ length columns.now) }
{
    let blocks = columns.len() / 32;
    for block in 0..blocks {
        let start = 32 * block;
        if 15 < highest(&columns[start..start + 32]) {
            return start;
        }
    }
    32 * blocks
}

// The place of the first column over 15, if there is one.
fn column_over(columns: &[u8]) -> Option<usize>
    ensures { result ≡ position (λ q. ltb 15 q) columns.now }
{
    columns.iter().position(|&column| 15 < column)
}

// The place of the first column over 15, or past the last: a number, so that no answer goes through memory where there is none.
pub fn search_over(columns: &[u8]) -> usize
    ensures { result ≡ first_over columns.now }
{
    let passed = blocks_passed(columns);
    let rest = &columns[passed..];
    passed + column_over(rest).unwrap_or(rest.len())
}

// Whether the columns are whole words of eight and none is over 15. The rows of all words are brought together, and no branch leaves the loop.
fn words_low(columns: &[u8]) -> bool
    ensures nibbles { result ≡ true → Nibbles columns.now }
    ensures value { length columns.now % 8 ≡ 0 → Nibbles columns.now → result ≡ true }
{
    let n = columns.len();
    let mut rows: u64 = 0;
    for word in 0..n / 8 {
        rows |= words::eight_columns(columns, 8 * word);
    }
    (n % 8 == 0) & (rows & 0xF0F0F0F0F0F0F0F0 == 0)
}

// The first column over 15, if there is one; most RAMs have none.
pub fn first_over(columns: &[u8]) -> Result<(), Refusal>
    ensures { result ≡ over_in 0 columns.now }
{
    if words_low(columns) {
        Ok(())
    } else {
        let at = search_over(columns);
        unless(columns.len() <= at, Refusal::RamByte(at))
    }
}

// The length of a transfer: 1, 2.
#[tactic(auto, unfolding(sheet::specs::Checks::check_length))]
pub fn check_length(size: usize) -> Result<(), Refusal>
    ensures { result ≡ check_length size }
{
    unless(0 < size, Refusal::EmptyTransfer)?;
    unless(size <= 4096, Refusal::LongTransfer)
}

// A transfer of so many bytes, of the last of which so many bits came: 1, 2, 19.
pub fn check_sent(size: usize, bits: u8) -> Result<(), Refusal>
    ensures { result ≡ or_else (check_length size) (check_bits bits) }
{
    check_length(size)?;
    unless((1 <= bits) & (bits <= 8), Refusal::BitCount)
}

// How many of a transfer's bytes are whole: all, or all but the one that is cut.
pub fn whole_count(size: usize, bits: u8) -> usize
    ensures { result ≡ whole_count size bits }
{
    if 8 <= bits {
        size
    } else if size == 0 {
        0
    } else {
        size - 1
    }
}

// Byte 0 of a transfer; 0, which is nobody's address, where it is cut or not there.
pub fn address_byte(bytes: &[u8], bits: u8) -> u8
    ensures { result ≡ address_byte (sent bytes.now bits) }
{
    let whole = whole_count(bytes.len(), bits);
    byte_at(&bytes[..whole], 0)
}
