// One group hears a transfer: the listener goes over the bytes, and each run of data is handed to the writer of its columns, a byte each or packed.
#![tactic(auto)]

ghost use Rattle.std.specs.Prelude.{◌≡◌, ◌+◌, ◌<◌, length, get_or, drop};
ghost use Rattle.sheet.specs.declared.Expect.TheVariants.{Control};
ghost use Rattle.sheet.specs.Parts.{part_of};
ghost use Rattle.sheet.specs.Protocol.{next_after, sent, whole_of};
ghost use Rattle.sheet.specs.Long.{heard};
ghost use Rattle.packed_sheet.specs.Packed.{columns_in};
ghost use Rattle.opening.specs.Opened.{opened_at, heard_from};
ghost use Rattle.listener.specs.Listeners.{group_of};
ghost use Rattle.hearing.specs.Hears.{Hears};

use listener::Listener;
use sheet::{Expect, Kind, Registers};

// What a group makes of the whole bytes of a transfer from a place on, all before it being commands that it has obeyed. A run is handed on as a part of the bytes.
fn hear_bytes(
    part: u8,
    ram: &mut [u8],
    packed: bool,
    opened: Registers,
    bytes: &[u8],
    from: usize,
) -> Listener
    requires { Hears (part_of part) (columns_in packed ram.old) opened bytes.now from }
    ensures ram_after { group_of result (columns_in packed ram.new) ≡ heard (part_of part) Control (drop from bytes.now) (opened_at from opened (columns_in packed ram.old)) }
    ensures expect_value { result.expect ≡ next_after Control (drop from bytes.now) }
{
    let n = bytes.len();
    let size = arithmetic::columns_held(ram.len(), packed);
    let mut listener = listener::begun(Expect::Control, opened, from);
    let mut i = from;
    // a turn takes one byte or a whole run, which no `for` goes by
    while i < n {
        let expect = listener.expect;
        let end = listener::data_end(expect, i, n);
        if i < end {
            let place = listener.registers;
            runs::write(part, ram, packed, place, &bytes[i..end]);
            listener = listener.run(part, end - i, size);
            i = end;
        } else {
            listener = listener.step(part, bytes[i]);
            i += 1;
        }
    }
    listener
}

// The same where all that is left is one run of data, after its control byte 40: no byte is looked at twice.
fn hear_run(
    part: u8,
    ram: &mut [u8],
    packed: bool,
    opened: Registers,
    bytes: &[u8],
    from: usize,
) -> Listener
    requires { Hears (part_of part) (columns_in packed ram.old) opened bytes.now from × (from + 1 < length bytes.now) × (get_or bytes.now from 0 ≡ 64) }
    ensures ram_after { group_of result (columns_in packed ram.new) ≡ heard (part_of part) Control (drop from bytes.now) (opened_at from opened (columns_in packed ram.old)) }
    ensures expect_value { result.expect ≡ next_after Control (drop from bytes.now) }
{
    let begins = from + 1;
    let size = arithmetic::columns_held(ram.len(), packed);
    let m = arithmetic::backplanes(opened);
    let v = arithmetic::position(part, opened);
    runs::put_run(ram, packed, v, m, opened.i, &bytes[begins..]);
    let kind = Kind::Data;
    let listener = listener::begun(Expect::All(kind), opened, begins);
    listener.run(part, bytes.len() - begins, size)
}

// What is left of them, in whichever form.
fn hear_left(
    part: u8,
    ram: &mut [u8],
    packed: bool,
    opened: Registers,
    bytes: &[u8],
    from: usize,
) -> Listener
    requires { Hears (part_of part) (columns_in packed ram.old) opened bytes.now from }
    ensures ram_after { group_of result (columns_in packed ram.new) ≡ heard (part_of part) Control (drop from bytes.now) (opened_at from opened (columns_in packed ram.old)) }
    ensures expect_value { result.expect ≡ next_after Control (drop from bytes.now) }
{
    if (from + 1 < bytes.len()) & (checks::byte_at(bytes, from) == 0x40) {
        hear_run(part, ram, packed, opened, bytes, from)
    } else {
        hear_bytes(part, ram, packed, opened, bytes, from)
    }
}

// What a group makes of what is left of a transfer that is for it, with the byte that is cut.
pub fn hear(
    part: u8,
    ram: &mut [u8],
    packed: bool,
    opened: Registers,
    bytes: &[u8],
    bits: u8,
    from: usize,
) -> Listener
    requires { Hears (part_of part) (columns_in packed ram.old) opened (whole_of (sent bytes.now bits)) from }
    ensures { group_of result (columns_in packed ram.new) ≡ heard_from (part_of part) (sent bytes.now bits) from opened (columns_in packed ram.old) }
{
    let whole = checks::whole_count(bytes.len(), bits);
    let listener = hear_left(part, ram, packed, opened, &bytes[..whole], from);
    listener.end(bits < 8)
}
