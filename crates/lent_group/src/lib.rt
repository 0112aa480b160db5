// One group hears a transfer: its registers are twelve bytes that C lends, and what is said of the transfer goes into the numbers of a lent answer. A refused one leaves all as it was.
#![tactic(auto)]

ghost use Rattle.std.specs.Prelude.{◌≡◌, true, ◌<◌, length, get_or};
ghost use Rattle.sheet.specs.Parts.{part_of};
ghost use Rattle.sheet.specs.Refusals.{numbers};
ghost use Rattle.sheet.specs.Registers.{in_range};
ghost use Rattle.sheet.specs.Places.{at_position};
ghost use Rattle.sheet.specs.Protocol.{sent};
ghost use Rattle.packed_sheet.specs.Packed.{columns_in};
ghost use Rattle.long.specs.Heard.{heard_in_ram};
ghost use Rattle.lent_opening.specs.Held.{held_in};
ghost use Rattle.wire.specs.Bytes.{registers_in, bytes_of};
ghost use Rattle.lent_group.specs.Sets.{Asked, Left, Rest, Fitting, is_fitting, heard_set, set_to, numbered_set};

use groups::Bus;
use lent_opening::Kept;
use sheet::{Counts, Refusal, Registers, Taken};

// What is said of a transfer, in the numbers of the lent answer; the first is returned too.
pub fn say(part: u8, said: Result<Taken, Refusal>, answer: &mut [usize]) -> u8
    requires { length answer.old ≡ 6 }
    ensures value { result ≡ get_or (numbers (part_of part) said) 0 0 }
    ensures answer_after { answer.new ≡ numbers (part_of part) said }
{
    wire::put_numbers(answers::numbers(part, said), answer)
}

// ---- what is left of a transfer that has passed its checks

// Pointer and counter at a position. The other registers are not touched.
fn put_place(part: u8, v: usize, set: &mut [u8])
    requires { length set.old ≡ 12 }
    ensures { set.new ≡ bytes_of (at_position (part_of part) (registers_in set.old) v) }
{
    let chip = arithmetic::least(arithmetic::limit(part), arithmetic::chip_of(part, v));
    set[3] = (arithmetic::column_of(part, v) % 256) as u8;
    set[4] = (chip % 256) as u8;
}

// A run of data that is all that is left, and all of whose columns are there: every byte is stored and acknowledged.
fn hear_run(
    bus: Bus,
    group: u8,
    set: &mut [u8],
    ram: &mut [u8],
    bytes: &[u8],
    from: usize,
    answer: &mut [usize],
) -> u8
    requires { Fitting (part_of bus.part) bus.chips group set.old (columns_in bus.packed ram.old) bytes.now from answer.old }
    ensures { record { number = result; set = set.new; buffer = columns_in bus.packed ram.new; answer = answer.new } ≡ numbered_set (part_of bus.part) (heard_set (heard_in_ram (part_of bus.part) bus.chips group (registers_in set.old) (columns_in bus.packed ram.old) (sent bytes.now 8) from)) }
{
    let part = bus.part;
    let start = bus.start_in(group);
    let end = bus.end_in(group);
    let registers = wire::registers_of(set);
    let v = arithmetic::position(part, registers);
    let m = arithmetic::backplanes(registers);
    let n = bytes.len() - (from + 1);
    let after = v + arithmetic::width(m) * n;
    runs::whole_bytes(
        &mut ram[start..end],
        bus.packed,
        v,
        m,
        registers.i,
        &bytes[from + 1..],
    );
    put_place(part, after, set);
    let counts = Counts {
        acknowledged: bytes.len(),
        stored: 8 * n,
        discarded: 0,
    };
    let last = Some(arithmetic::chip_of(part, after - 1));
    say(part, Ok(Taken { counts, last }), answer)
}

// Whether all that is left is such a run, where so many columns are there.
fn is_fitting(
    part: u8,
    size: usize,
    registers: Registers,
    bytes: &[u8],
    bits: u8,
    from: usize,
) -> bool
    requires { (in_range (part_of part) registers ≡ true) × (length bytes.now < 4097) × (from < 4097) }
    ensures { result ≡ is_fitting (part_of part) size registers bytes.now bits from }
{
    if (bits == 8) & ((from + 1 < bytes.len()) & (checks::byte_at(bytes, from) == 0x40)) {
        let n = bytes.len() - (from + 1);
        let w = arithmetic::width(arithmetic::backplanes(registers));
        arithmetic::position(part, registers) + w * n <= size
    } else {
        false
    }
}

// Whatever is left.
fn hear_rest(
    bus: Bus,
    group: u8,
    set: &mut [u8],
    ram: &mut [u8],
    bytes: &[u8],
    bits: u8,
    from: usize,
    answer: &mut [usize],
) -> u8
    requires { Rest (part_of bus.part) bus.chips set.old (columns_in bus.packed ram.old) (sent bytes.now bits) from answer.old }
    ensures { record { number = result; set = set.new; buffer = columns_in bus.packed ram.new; answer = answer.new } ≡ numbered_set (part_of bus.part) (heard_set (heard_in_ram (part_of bus.part) bus.chips group (registers_in set.old) (columns_in bus.packed ram.old) (sent bytes.now bits) from)) }
{
    let opened = wire::registers_of(set);
    let size = bus.columns_of(group);
    if is_fitting(bus.part, size, opened, bytes, bits, from) {
        hear_run(bus, group, set, ram, bytes, from, answer)
    } else {
        let heard = long::hear_in(bus, group, opened, ram, bytes, bits, from);
        wire::put_registers(heard.registers, set);
        let taken = Taken {
            counts: heard.counts,
            last: heard.last,
        };
        say(bus.part, Ok(taken), answer)
    }
}

// ---- a transfer

// To a group that has obeyed the commands that open it and hears what is left: 7, 17 and 18.
fn send_rest(
    bus: Bus,
    group: u8,
    kept: Kept,
    set: &mut [u8],
    ram: &mut [u8],
    bytes: &[u8],
    bits: u8,
    from: usize,
    answer: &mut [usize],
) -> u8
    requires { Left (part_of bus.part) bus.chips (held_in kept) set.old (columns_in bus.packed ram.old) (sent bytes.now bits) answer.old from }
    ensures { record { number = result; set = set.new; buffer = columns_in bus.packed ram.new; answer = answer.new } ≡ numbered_set (part_of bus.part) (set_to (part_of bus.part) bus.chips group (held_in kept) (columns_in bus.packed ram.old) (sent bytes.now bits)) }
{
    let part = bus.part;
    let opened = wire::registers_of(set);
    let whole = checks::whole_count(bytes.len(), bits);
    match protocol::fault_from(part, bits < 8, opened.unknown, &bytes[..whole], from) {
        Err(refusal) => {
            lent_opening::take_back(kept, set);
            say(part, Err(refusal), answer)
        }
        Ok(()) => hear_rest(bus, group, set, ram, bytes, bits, from, answer),
    }
}

// To the group that hears it: 7, 17 and 18.
pub fn send(
    bus: Bus,
    group: u8,
    set: &mut [u8],
    ram: &mut [u8],
    bytes: &[u8],
    bits: u8,
    answer: &mut [usize],
) -> u8
    requires { Asked (part_of bus.part) bus.chips set.old (columns_in bus.packed ram.old) (sent bytes.now bits) answer.old }
    ensures { record { number = result; set = set.new; buffer = columns_in bus.packed ram.new; answer = answer.new } ≡ numbered_set (part_of bus.part) (set_to (part_of bus.part) bus.chips group set.old (columns_in bus.packed ram.old) (sent bytes.now bits)) }
{
    let part = bus.part;
    let kept = lent_opening::keep(set);
    let whole = checks::whole_count(bytes.len(), bits);
    let opening = lent_opening::open(part, set, &bytes[..whole]);
    let fault = opening.fault;
    let from = opening.at;
    match fault {
        Err(refusal) => {
            lent_opening::take_back(kept, set);
            say(part, Err(refusal), answer)
        }
        Ok(()) => {
            if from < whole {
                send_rest(bus, group, kept, set, ram, bytes, bits, from, answer)
            } else {
                say(part, long::without_data(from), answer)
            }
        }
    }
}
