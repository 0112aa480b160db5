// The long account over registers and an answer that C lends as bytes and numbers, and columns that are a byte each or packed. A buffer of another size is answered 255 and nothing is written.
#![tactic(auto)]

ghost use Rattle.std.specs.Prelude.{◌≡◌, length};
ghost use Rattle.sheet.specs.Parts.{part_of};
ghost use Rattle.sheet.specs.Registers.{in_range};
ghost use Rattle.sheet.specs.Protocol.{sent};
ghost use Rattle.sheet.specs.Long.{transfer_part, picture_part};
ghost use Rattle.packed_sheet.specs.Packed.{columns_in};
ghost use Rattle.refused.specs.Fitting.{fitting};
ghost use Rattle.wire.specs.Bytes.{registers_in, both_of};
ghost use Rattle.lent_long.specs.LongCalls.{Sendable, Hearable, lent_after, numbered, sent_to, sent_c, power_on_c, transfer_c, picture_c};

use groups::Bus;
use sheet::Refusal;

// Power-on, taken or refused by 16, 3, 4, 5. Inlined into the call of each form, since one that both call takes up to 1.6 times as long.
#[inline(always)]
pub fn power_on(bus: Bus, ram: &[u8], registers: &mut [u8], answer: &mut [usize]) -> u8
    ensures { power_on_c bus.part bus.chips (columns_in bus.packed ram.now) registers.old answer.old ≡ record { number = result; registers = registers.new; buffer = columns_in bus.packed ram.now; answer = answer.new } }
{
    if (registers.len() == 24) & (answer.len() == 6) {
        let done = long::power_on(bus, ram);
        wire::put_both(done.registers, registers);
        wire::put_numbers(answers::check_numbers(done.check), answer)
    } else {
        255
    }
}

// ---- a transfer to a bus that is in range, so that only the transfer is left to check

// Whether every register of a group is in range. The bytes are looked at as words, whose masks have the bits that must be 0.
fn in_range(part: u8, registers: &[u8]) -> bool
    requires { length registers.now ≡ 12 }
    ensures { result ≡ in_range (part_of part) (registers_in registers.now) }
{
    (words::eight_columns(registers, 0) & 0xFEFEFE0000FCFEFE == 0)
        & (words::four_columns(registers, 8) & 0xFEFEFEFC == 0)
        & ((registers[3] as usize) < arithmetic::columns(part))
        & (registers[4] as usize <= arithmetic::limit(part))
}

// And of both groups.
fn fits(part: u8, registers: &[u8]) -> bool
    requires { length registers.now ≡ 24 }
    ensures { result ≡ fitting (part_of part) (both_of registers.now) }
{
    in_range(part, &registers[..12]) & in_range(part, &registers[12..])
}

// To the group that hears it: 7, 17 and 18. Of the registers only its own are read and written.
fn send_to(
    bus: Bus,
    group: u8,
    registers: &mut [u8],
    ram: &mut [u8],
    bytes: &[u8],
    bits: u8,
    answer: &mut [usize],
) -> u8
    requires { Hearable (part_of bus.part) bus.chips group registers.old (columns_in bus.packed ram.old) (sent bytes.now bits) answer.old }
    ensures { record { number = result; registers = registers.new; buffer = columns_in bus.packed ram.new; answer = answer.new } ≡ numbered (part_of bus.part) (sent_to (part_of bus.part) bus.chips group registers.old (columns_in bus.packed ram.old) (sent bytes.now bits)) }
{
    let at = 12 * (group as usize);
    let set = &mut registers[at..at + 12];
    lent_group::send(bus, group, set, ram, bytes, bits, answer)
}

// A transfer, of whose last byte so many bits came, taken or refused by 1, 2, 19, then 7, 17 and 18.
pub fn send(
    bus: Bus,
    registers: &mut [u8],
    ram: &mut [u8],
    bytes: &[u8],
    bits: u8,
    answer: &mut [usize],
) -> u8
    requires { Sendable (part_of bus.part) bus.chips registers.old (columns_in bus.packed ram.old) × (length answer.old ≡ 6) }
    ensures { record { number = result; registers = registers.new; buffer = columns_in bus.packed ram.new; answer = answer.new } ≡ numbered (part_of bus.part) (sent_c (part_of bus.part) bus.chips registers.old (columns_in bus.packed ram.old) (sent bytes.now bits)) }
{
    // read once, so that pointer and length are handed on and not where they lie
    let all = &bytes[..];
    match checks::check_sent(all.len(), bits) {
        Err(refusal) => lent_group::say(bus.part, Err(refusal), answer),
        Ok(()) => match groups::heard_by(bus.chips, checks::address_byte(all, bits)) {
            Some(group) => send_to(bus, group, registers, ram, all, bits, answer),
            None => lent_group::say(bus.part, long::without_data(0), answer),
        },
    }
}

// ---- the calls

// Registers of the right size: a transfer, taken or refused.
fn answered(
    bus: Bus,
    registers: &mut [u8],
    ram: &mut [u8],
    bytes: &[u8],
    bits: u8,
    answer: &mut [usize],
) -> u8
    requires { (length registers.old ≡ 24) × (length answer.old ≡ 6) }
    ensures { record { number = result; registers = registers.new; buffer = columns_in bus.packed ram.new; answer = answer.new } ≡ numbered (part_of bus.part) (lent_after (transfer_part bus.part bus.chips (both_of registers.old) (columns_in bus.packed ram.old) (sent bytes.now bits))) }
{
    let fit = fits(bus.part, registers);
    match refused::check_state(&bus, fit, ram) {
        Err(refusal) => lent_group::say(bus.part, Err(refusal), answer),
        Ok(()) => send(bus, registers, ram, bytes, bits, answer),
    }
}

// And a picture.
fn pictured(
    bus: Bus,
    group: u8,
    phase: u8,
    registers: &[u8],
    ram: &[u8],
    out: &mut [u8],
) -> Result<usize, Refusal>
    requires { length registers.now ≡ 24 }
    ensures { record { result = result; out = out.new } ≡ picture_part bus.part bus.chips (both_of registers.now) (columns_in bus.packed ram.now) group phase out.old }
{
    let fit = fits(bus.part, registers);
    refused::check_picture(&bus, fit, group, phase, ram, out.len())?;
    let at = 12 * (group as usize);
    let shown = wire::registers_of(&registers[at..at + 12]);
    let start = bus.start_in(group);
    let end = bus.end_in(group);
    Ok(picture::show(&ram[start..end], bus.packed, shown, phase, out))
}

// A transfer, of whose last byte so many bits came, taken or refused by 16, 3, 6, 4, 5, 1, 2, 19, then 7, 17 and 18. What is looked at first stands first, and comes in the processor's registers.
pub fn transfer(
    bus: Bus,
    answer: &mut [usize],
    registers: &mut [u8],
    ram: &mut [u8],
    bits: u8,
    bytes: &[u8],
) -> u8
    ensures { transfer_c bus.part bus.chips registers.old (columns_in bus.packed ram.old) (sent bytes.now bits) answer.old ≡ record { number = result; registers = registers.new; buffer = columns_in bus.packed ram.new; answer = answer.new } }
{
    if (registers.len() == 24) & (answer.len() == 6) {
        answered(bus, registers, ram, &bytes[..], bits, answer)
    } else {
        255
    }
}

// The picture of a group at a blink phase, or a refusal by 16, 3, 6, 4, 5, 8, 9.
pub fn picture(
    bus: Bus,
    group: u8,
    phase: u8,
    registers: &[u8],
    ram: &[u8],
    out: &mut [u8],
    answer: &mut [usize],
) -> u8
    ensures { picture_c bus.part bus.chips registers.now (columns_in bus.packed ram.now) group phase out.old answer.old ≡ record { number = result; buffer = out.new; answer = answer.new } }
{
    if (registers.len() == 24) & (answer.len() == 6) {
        let shown = pictured(bus, group, phase, &registers[..], &ram[..], out);
        wire::put_numbers(answers::picture_numbers(shown), answer)
    } else {
        255
    }
}
