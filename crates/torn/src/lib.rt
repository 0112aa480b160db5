// A torn log: what of it is whole, and its rescue.
#![tactic(auto)]

ghost use Rattle.std.specs.Prelude.{◌≡◌, length};
ghost use Rattle.sheet.specs.Refusals.{rescued_numbers};
ghost use Rattle.log_sheet.specs.Logs.{log_records};
ghost use Rattle.log_sheet.specs.Rescue.{kept_of, check_rescue, rescue_call};

use records::{Cursor, Record};
use sheet::{Kept, Refusal};

// The whole records of a log before the first tear, and where they end.
#[derive(Clone, Copy)]
struct Whole {
    records: usize,
    end: usize,
}

fn whole_of(log: &[u8]) -> Whole
    ensures { result ≡ record { records = length (log_records log.now).bodies; end = kept_of log.now } }
{
    let seen = records::seen_bytes(log);
    let mut count = 0;
    let mut cursor = Cursor { at: 3, seen };
    // a record says where the next one begins, which no `for` goes by
    while let Record::Body { start, size, .. } = cursor.read(log) {
        let end = start + size;
        count += 1;
        cursor = Cursor { at: end, seen };
    }
    Whole {
        records: count,
        end: cursor.at,
    }
}

// 14, 12, 3, then 9 for an output shorter than the log.
#[tactic(auto, unfolding(log_sheet::specs::Rescue::check_rescue))]
fn check(log: &[u8], size: usize) -> Result<(), Refusal>
    ensures { result ≡ check_rescue log.now size }
{
    records::check_head(log)?;
    checks::unless(log.len() <= size, Refusal::OutputLength)
}

// Copies the head and the whole records before the first tear to the start of `out`, whose other bytes stay.
pub fn rescue(log: &[u8], out: &mut [u8]) -> Result<Kept, Refusal>
    ensures out_after { record { result = result; out = out.new } ≡ rescue_call log.now out.old }
    ensures result_value { rescued_numbers result ≡ rescued_numbers (rescue_call log.now out.old).result }
{
    check(log, out.len())?;
    let whole = whole_of(log);
    let end = whole.end;
    copies::copy(&log[..end], &mut out[..end]);
    Ok(Kept {
        records: whole.records,
        bytes: end,
        dropped: log.len() - end,
        tear: end,
    })
}
