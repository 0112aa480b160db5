// Bus logs: a log's bytes in, the program's text out.
#![tactic(auto)]

ghost use Rattle.std.specs.Prelude.{◌≡◌, ◌+◌, ◌≤◌, length, replicate, Ok};
ghost use Rattle.sheet.specs.Parts.{pcf8532};
ghost use Rattle.sheet.specs.Pictures.{lit_in};
ghost use Rattle.sheet.specs.Long.{state_of, state_after_all};
ghost use Rattle.log_sheet.specs.Logs.{seen_bytes, log_records, log_transfers, check_log, transfer_lines, column_lines, shown_at, end_lines, log_lines, text_of};
ghost use Rattle.sheet.specs.Agree.{Valid};
ghost use Rattle.text.specs.Texts.{Puts};
ghost use Rattle.wire.specs.Bytes.{both_of};
ghost use Rattle.lent_long.specs.LongCalls.{Sendable};
ghost use Rattle.records.specs.Found.{AllCounted};
ghost use Rattle.buslog.specs.Asked.{Listable, Playable};
ghost use Rattle.buslog.specs.Replays.{replay_call, Inside};

use groups::Bus;
use records::{Cursor, Record};
use sheet::{Both, Chips, Refusal};

// ---- the log

// A log is checked whole before its first line is written: 14, 12, 3, then 13 and 20.
#[tactic(auto, unfolding(log_sheet::specs::Logs::check_log))]
pub fn check_log(log: &[u8]) -> Result<(), Refusal>
    ensures value { result ≡ check_log log.now }
    ensures all_counted { result ≡ Ok tt → AllCounted (log_records log.now).bodies }
{
    records::check_head(log)?;
    records::check_records(log)
}

// ---- the text

// Carries out a log's transfers on a bus that is in range, and writes each record's lines. Where the text has come to.
fn put_transfers(
    log: &[u8],
    chips: Chips,
    registers: &mut [u8],
    ram: &mut [u8],
    out: &mut [u8],
) -> usize
    requires log_value { (log_records log.now).tear ≡ Ok tt }
    requires sendable { Sendable pcf8532 chips registers.old ram.old × (length (transfer_lines (seen_bytes log.now) chips 0 (state_of (both_of registers.old) ram.old) (log_records log.now).bodies) ≤ length out.old) }
    ensures ram_after { state_of (both_of registers.new) ram.new ≡ state_after_all pcf8532 chips (state_of (both_of registers.old) ram.old) (log_transfers log.now) }
    ensures puts { Puts 0 (transfer_lines (seen_bytes log.now) chips 0 (state_of (both_of registers.old) ram.old) (log_records log.now).bodies) out.old out.new result }
{
    let seen = records::seen_bytes(log);
    let mut index = 0;
    let mut at = 0;
    let mut cursor = Cursor { at: 3, seen };
    // a record says where the next one begins, which no `for` goes by
    while let Record::Body { start, size, count } = cursor.read(log) {
        let end = start + size;
        let from = start + seen;
        let bus = Bus {
            part: sheet::PCF8532,
            chips,
            packed: false,
        };
        let mut answer = [0; 6];
        lent_long::send(bus, registers, ram, &log[from..end], 8, &mut answer);
        at = lines::put_record(out, at, seen, index, count, answer);
        index += 1;
        cursor = Cursor { at: end, seen };
    }
    at
}

// Where the text has come to after a group's columns, and what the group has lit.
#[derive(Clone, Copy)]
struct Listed {
    at: usize,
    lit: usize,
}

// Room for a group's picture.
fn blank_picture() -> [u8; 640]
    ensures { length result ≡ 640 }
{
    [0; 640]
}

// The lines of a group's lit columns at phase 0.
fn put_group(
    chips: Chips,
    registers: Both,
    ram: &[u8],
    group: u8,
    size: usize,
    out: &mut [u8],
    at: usize,
) -> Listed
    requires { Listable chips (state_of registers ram.now) group size at out.old }
    ensures puts { Puts at (column_lines group 0 (shown_at chips (state_of registers ram.now) group)) out.old out.new result.at }
    ensures lit_value { result.lit ≡ lit_in (shown_at chips (state_of registers ram.now) group) }
{
    let mut picture = blank_picture();
    let shown = groups::registers_of(group, registers);
    let bus = Bus {
        part: sheet::PCF8532,
        chips,
        packed: false,
    };
    let lit = long::show_in(bus, group, shown, ram, 0, &mut picture[..size]);
    let after = lines::put_columns(out, at, group as usize, &picture[..size]);
    Listed { at: after, lit }
}

// The lines after the last transfer's: the lit columns of both groups, then how much each has lit.
fn put_end(chips: Chips, registers: Both, ram: &[u8], out: &mut [u8], at: usize) -> usize
    requires valid { Valid pcf8532 chips (state_of registers ram.now) }
    requires ram_in_bounds { at + length (end_lines chips (state_of registers ram.now)) ≤ length out.old }
    ensures { Puts at (end_lines chips (state_of registers ram.now)) out.old out.new result }
{
    let zeros = 160 * (chips.zero as usize);
    let ones = 160 * (chips.one as usize);
    let zero = put_group(chips, registers, ram, 0, zeros, out, at);
    let one = put_group(chips, registers, ram, 1, ones, out, zero.at);
    let next = text::put_line(out, one.at, b'G', &[0, zero.lit]);
    text::put_line(out, next, b'G', &[1, one.lit])
}

// A log that passed its checks, into the RAM of its chips.
fn play(log: &[u8], chips: Chips, ram: &mut [u8], out: &mut [u8]) -> usize
    requires { Playable log.now chips ram.old out.old }
    ensures { Puts 0 (log_lines (seen_bytes log.now) chips (log_records log.now).bodies) out.old out.new result }
{
    let bus = Bus {
        part: sheet::PCF8532,
        chips,
        packed: false,
    };
    let on = long::power_on(bus, ram);
    let mut registers = [0; 24];
    wire::put_both(on.registers, &mut registers);
    let at = put_transfers(log, chips, &mut registers, ram, out);
    put_end(chips, wire::both_of(&registers), ram, out, at)
}

// RAM all 0, for eight chips.
fn blank_ram() -> [u8; 1280]
    ensures { result ≡ replicate 1280 0 }
{
    [0; 1280]
}

// The lines of a log that passed its checks.
fn put_log(log: &[u8], out: &mut [u8]) -> usize
    requires log_value { check_log log.now ≡ Ok tt }
    requires log_in_bounds { length (text_of log.now) ≤ length out.old }
    ensures { Puts 0 (text_of log.now) out.old out.new result }
{
    let chips = records::chips_of(log);
    let mut ram = blank_ram();
    let size = 160 * (chips.zero as usize + chips.one as usize);
    play(log, chips, &mut ram[..size], out)
}

// ---- the call

// Room for the text of any log.
pub const TEXT: usize = 700000;

// Writes a log's text to the start of a buffer that has room for any, and says how long it is; nothing to a smaller one.
pub fn replay(log: &[u8], out: &mut [u8]) -> Option<usize>
    ensures out_after { out.new ≡ (replay_call log.now out.old).out }
    ensures value { result ≡ (replay_call log.now out.old).result }
    ensures inside { Inside result (length out.old) }
{
    if out.len() < TEXT {
        return None;
    }
    match check_log(log) {
        Err(refusal) => Some(lines::put_refusal(out, refusal)),
        Ok(()) => Some(put_log(log, out)),
    }
}
