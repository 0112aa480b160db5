// A log's head and records: whether the head is one, what stands at a place, and whether all records are whole.
#![tactic(auto)]

ghost use Rattle.std.specs.Prelude.{◌≡◌, ◌<◌, drop};
ghost use Rattle.log_sheet.specs.Records.{length_of};
ghost use Rattle.log_sheet.specs.Logs.{log_chips, seen_bytes, log_records, check_head, seen_in};
ghost use Rattle.records.specs.Found.{record_in, Counted, AllCounted};

use sheet::{Chips, Refusal};

// ---- the head

// The chips in groups 0 and 1: bytes 1 and 2.
pub fn chips_of(log: &[u8]) -> Chips
    ensures { result ≡ log_chips log.now }
{
    Chips {
        zero: checks::byte_at(log, 1),
        one: checks::byte_at(log, 2),
    }
}

// 14, 12, 3. Logs are the PCF8532's.
#[tactic(auto, unfolding(log_sheet::specs::Logs::check_head, sheet::specs::Parts::part_of))]
pub fn check_head(log: &[u8]) -> Result<(), Refusal>
    ensures { result ≡ check_head log.now }
{
    checks::unless(log.len() <= 65536, Refusal::LongLog)?;
    let version = checks::byte_at(log, 0);
    checks::unless(
        (3 <= log.len()) & ((version == 1) | (version == 2)),
        Refusal::LogHead,
    )?;
    checks::check_chips(sheet::PCF8532, chips_of(log))
}

// ---- the records

// Two bytes, big-endian.
fn length_of(high: u8, low: u8) -> usize
    ensures { (result ≡ length_of high low) × (result < 65536) }
{
    256 * (high as usize) + low as usize
}

// The acknowledged bytes that the analyser saw, at the start of a body.
fn seen_in(body: &[u8]) -> usize
    ensures { (result ≡ seen_in body.now) × (result < 65536) }
{
    length_of(checks::byte_at(body, 0), checks::byte_at(body, 1))
}

// How many bytes of a body say what was seen: none in version 1, two in version 2.
pub fn seen_bytes(log: &[u8]) -> usize
    ensures { result ≡ seen_bytes log.now }
{
    if checks::byte_at(log, 0) == 2 { 2 } else { 0 }
}

// A place in a log, at a record's length field; each body has `seen` bytes at least.
#[derive(Clone, Copy)]
pub struct Cursor {
    pub at: usize,
    pub seen: usize,
}

// What stands there: a whole record, the log's end, a record that is cut short, or one with too short a body.
#[derive(Clone, Copy)]
pub enum Record {
    Body {
        start: usize,
        size: usize,
        count: usize,
    },
    End,
    Cut,
    Short,
}

impl Cursor {
    // What stands at the cursor. Nothing is changed.
    pub fn read(self, log: &[u8]) -> Record
        ensures value { result ≡ record_in self.seen self.at (drop self.at log.now) }
        ensures counted { Counted result }
    {
        let at = self.at;
        if log.len() <= at {
            return Record::End;
        }
        let left = log.len() - at;
        if left < 2 {
            return Record::Cut;
        }
        let high = log[at];
        let low = log[at + 1];
        let size = length_of(high, low);
        if left - 2 < size {
            return Record::Cut;
        }
        if size < self.seen {
            return Record::Short;
        }
        let start = at + 2;
        let end = start + size;
        let count = seen_in(&log[start..end]);
        Record::Body { start, size, count }
    }
}

// The first record that is cut short or has too short a body, if there is one.
pub fn check_records(log: &[u8]) -> Result<(), Refusal>
    ensures value { result ≡ (log_records log.now).tear }
    ensures all_counted { AllCounted (log_records log.now).bodies }
{
    let seen = seen_bytes(log);
    let mut at = 3;
    // a record says where the next one begins, which no `for` goes by
    loop {
        let cursor = Cursor { at, seen };
        match cursor.read(log) {
            Record::Body { start, size, .. } => at = start + size,
            Record::End => return Ok(()),
            Record::Cut => return Err(Refusal::CutRecord(at)),
            Record::Short => return Err(Refusal::ShortBody(at)),
        }
    }
}
