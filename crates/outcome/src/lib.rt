// The RAM that a bus log leaves: its transfers carried out from power-on, with RAM all 0.
#![tactic(auto)]

ghost use Rattle.std.specs.Prelude.{◌≡◌};
ghost use Rattle.sheet.specs.Parts.{pcf8532};
ghost use Rattle.sheet.specs.Long.{both_on, state_of, state_after_all};
ghost use Rattle.log_sheet.specs.Logs.{log_chips, log_transfers};

use groups::Bus;
use records::{Cursor, Record};
use sheet::{Both, Chips};

// Carries out the transfers of a log's whole records.
fn carry_out(log: &[u8], chips: Chips, initial: Both, ram: &mut [u8])
    ensures { ram.new ≡ (state_after_all pcf8532 chips (state_of initial ram.old) (log_transfers log.now)).ram }
{
    let seen = records::seen_bytes(log);
    let mut registers = initial;
    let mut cursor = Cursor { at: 3, seen };
    // a record says where the next one begins, which no `for` goes by
    while let Record::Body { start, size, .. } = cursor.read(log) {
        let end = start + size;
        let from = start + seen;
        let bus = Bus {
            part: sheet::PCF8532,
            chips,
            packed: false,
        };
        let done = long::transfer(bus, registers, ram, &log[from..end], 8);
        registers = done.registers;
        cursor = Cursor { at: end, seen };
    }
}

// From power-on, in the RAM of the log's own chips.
pub fn leave(log: &[u8], ram: &mut [u8])
    ensures { ram.new ≡ (state_after_all pcf8532 (log_chips log.now) (state_of both_on ram.old) (log_transfers log.now)).ram }
{
    let chips = records::chips_of(log);
    let bus = Bus {
        part: sheet::PCF8532,
        chips,
        packed: false,
    };
    let start = long::power_on(bus, ram);
    carry_out(log, chips, start.registers, ram);
}
