// The model for C and Rust: numbers and lent buffers only. A part is its number, 0 the PCF8532 and 1 the PCA85133. Registers are 24 bytes, group 0's twelve and then group 1's, in the order E B M P A I O AB BF and the marks of pointer high, pointer low and device-select;
// a chip is 174 bytes (`wire`); an answer is six numbers: answer, place, acknowledged, stored, discarded, and who acknowledged the last data byte, or what the call counts. A buffer of another size is answered 255 and nothing is written.
#![tactic(auto)]

ghost use Rattle.std.specs.Prelude.{◌≡◌};
ghost use Rattle.sheet.specs.Protocol.{sent};
ghost use Rattle.buslog.specs.Replays.{replay_call};
ghost use Rattle.lent_long.specs.LongCalls.{power_on_c, transfer_c, picture_c};
ghost use Rattle.cabi.specs.Calls.{chips_of, packed_power_on_c, packed_transfer_c, packed_picture_c, chip_power_on_c, chip_picture_c, plain_c, write_rows_c, write_three_c, hex_write_c, hex_read_c, price_write_c, price_read_c, rescue_c, replay_number};

use groups::Bus;
use sheet::Chips;

fn bus_of(part: u8, zero: u8, one: u8, packed: bool) -> Bus
    ensures { result ≡ record { part = part; chips = chips_of zero one; packed = packed } }
{
    Bus {
        part,
        chips: Chips { zero, one },
        packed,
    }
}

// ---- the long account, over the chips of group zero and of group one; packed, two columns a byte, the RAM has half as many bytes and 5 can't occur

#[unsafe(no_mangle)]
pub extern "C" fn humtrellis_power_on(
    part: u8,
    zero: u8,
    one: u8,
    ram: &[u8],
    registers: &mut [u8],
    answer: &mut [usize],
) -> u8
    ensures { power_on_c part (chips_of zero one) ram.now registers.old answer.old ≡ record { number = result; registers = registers.new; buffer = ram.now; answer = answer.new } }
{
    let bus = bus_of(part, zero, one, false);
    lent_long::power_on(bus, ram, registers, answer)
}

#[unsafe(no_mangle)]
pub extern "C" fn humtrellis_packed_power_on(
    part: u8,
    zero: u8,
    one: u8,
    ram: &[u8],
    registers: &mut [u8],
    answer: &mut [usize],
) -> u8
    ensures { record { number = result; registers = registers.new; buffer = ram.now; answer = answer.new } ≡ packed_power_on_c part (chips_of zero one) ram.now registers.old answer.old }
{
    let bus = bus_of(part, zero, one, true);
    lent_long::power_on(bus, ram, registers, answer)
}

#[unsafe(no_mangle)]
pub extern "C" fn humtrellis_transfer(
    part: u8,
    zero: u8,
    one: u8,
    registers: &mut [u8],
    ram: &mut [u8],
    bytes: &[u8],
    bits: u8,
    answer: &mut [usize],
) -> u8
    ensures { transfer_c part (chips_of zero one) registers.old ram.old (sent bytes.now bits) answer.old ≡ record { number = result; registers = registers.new; buffer = ram.new; answer = answer.new } }
{
    let bus = bus_of(part, zero, one, false);
    lent_long::transfer(bus, answer, registers, ram, bits, bytes)
}

#[unsafe(no_mangle)]
pub extern "C" fn humtrellis_packed_transfer(
    part: u8,
    zero: u8,
    one: u8,
    registers: &mut [u8],
    ram: &mut [u8],
    bytes: &[u8],
    bits: u8,
    answer: &mut [usize],
) -> u8
    ensures { record { number = result; registers = registers.new; buffer = ram.new; answer = answer.new } ≡ packed_transfer_c part (chips_of zero one) registers.old ram.old (sent bytes.now bits) answer.old }
{
    let bus = bus_of(part, zero, one, true);
    lent_long::transfer(bus, answer, registers, ram, bits, bytes)
}

#[unsafe(no_mangle)]
pub extern "C" fn humtrellis_picture(
    part: u8,
    zero: u8,
    one: u8,
    registers: &[u8],
    ram: &[u8],
    group: u8,
    phase: u8,
    out: &mut [u8],
    answer: &mut [usize],
) -> u8
    ensures { picture_c part (chips_of zero one) registers.now ram.now group phase out.old answer.old ≡ record { number = result; buffer = out.new; answer = answer.new } }
{
    let bus = bus_of(part, zero, one, false);
    lent_long::picture(bus, group, phase, registers, ram, out, answer)
}

#[unsafe(no_mangle)]
pub extern "C" fn humtrellis_packed_picture(
    part: u8,
    zero: u8,
    one: u8,
    registers: &[u8],
    ram: &[u8],
    group: u8,
    phase: u8,
    out: &mut [u8],
    answer: &mut [usize],
) -> u8
    ensures { record { number = result; buffer = out.new; answer = answer.new } ≡ packed_picture_c part (chips_of zero one) registers.now ram.now group phase out.old answer.old }
{
    let bus = bus_of(part, zero, one, true);
    lent_long::picture(bus, group, phase, registers, ram, out, answer)
}

// ---- chips, one by one

// Power-on of one chip, taken or refused by 16, 11: only its registers are new.
#[unsafe(no_mangle)]
pub extern "C" fn humtrellis_chip_power_on(part: u8, chip: &mut [u8], answer: &mut [usize]) -> u8
    ensures { chip_power_on_c part chip.old answer.old ≡ record { number = result; buffer = chip.new; answer = answer.new } }
{
    if (chip.len() == 174) & (answer.len() == 6) {
        let before = wire::chip_of(chip);
        let done = chip::power_on(part, before);
        wire::put_chip(done.chip, chip);
        wire::put_numbers(answers::check_numbers(done.check), answer)
    } else {
        255
    }
}

// The picture of one chip, or a refusal by 16, 11, 8, 9.
#[unsafe(no_mangle)]
pub extern "C" fn humtrellis_chip_picture(
    part: u8,
    chip: &[u8],
    phase: u8,
    out: &mut [u8],
    answer: &mut [usize],
) -> u8
    ensures { chip_picture_c part chip.now phase out.old answer.old ≡ record { number = result; buffer = out.new; answer = answer.new } }
{
    if (chip.len() == 174) & (answer.len() == 6) {
        let before = wire::chip_of(chip);
        let shown = chip::picture(part, before, phase, out);
        wire::put_numbers(answers::picture_numbers(shown), answer)
    } else {
        255
    }
}

// A transfer to a list of chips, of whose last byte so many bits came, taken or refused by 16, 10, 11, 1, 2, 19, then 7, 17 and 18.
#[unsafe(no_mangle)]
pub extern "C" fn humtrellis_plain_transfer(
    part: u8,
    chips: &mut [u8],
    bytes: &[u8],
    bits: u8,
    answer: &mut [usize],
) -> u8
    ensures { plain_c part chips.old (sent bytes.now bits) answer.old ≡ record { number = result; buffer = chips.new; answer = answer.new } }
{
    if (chips.len() % 174 == 0) & (answer.len() == 6) {
        let said = lent::transfer(part, chips, bytes, bits);
        wire::put_numbers(answers::plain_numbers(part, said), answer)
    } else {
        255
    }
}

// One transfer that puts a group's wanted rows into its RAM, to the start of `out`, or a refusal by 16, 3, 6, 8, 4, 5, 9.
#[unsafe(no_mangle)]
pub extern "C" fn humtrellis_write_rows(
    part: u8,
    zero: u8,
    one: u8,
    registers: &[u8],
    group: u8,
    mode: u8,
    bank: u8,
    wanted: &[u8],
    out: &mut [u8],
    answer: &mut [usize],
) -> u8
    ensures { write_rows_c part (chips_of zero one) registers.now group mode bank wanted.now out.old answer.old ≡ record { number = result; buffer = out.new; answer = answer.new } }
{
    if (registers.len() == 24) & (answer.len() == 6) {
        let bus = Chips { zero, one };
        let before = wire::both_of(registers);
        let written = writer::write_rows(part, bus, before, group, mode, bank, wanted, out);
        wire::put_numbers(answers::written_numbers(written), answer)
    } else {
        255
    }
}

// One transfer that sets rows 0 to 2 of every column of a group, to the start of `out`, or a refusal by 16, 3, 6, 8, 4, 5, 9.
#[unsafe(no_mangle)]
pub extern "C" fn humtrellis_write_three(
    part: u8,
    zero: u8,
    one: u8,
    registers: &[u8],
    group: u8,
    wanted: &[u8],
    out: &mut [u8],
    answer: &mut [usize],
) -> u8
    ensures { write_three_c part (chips_of zero one) registers.now group wanted.now out.old answer.old ≡ record { number = result; buffer = out.new; answer = answer.new } }
{
    if (registers.len() == 24) & (answer.len() == 6) {
        let bus = Chips { zero, one };
        let before = wire::both_of(registers);
        let written = three::write_three(part, bus, before, group, wanted, out);
        wire::put_numbers(answers::written_numbers(written), answer)
    } else {
        255
    }
}

// A group's RAM as Intel HEX to the start of `out`, or a refusal by 16, 3, 4, 5, 9.
#[unsafe(no_mangle)]
pub extern "C" fn humtrellis_hex_write(
    part: u8,
    chips: u8,
    ram: &[u8],
    out: &mut [u8],
    answer: &mut [usize],
) -> u8
    ensures { hex_write_c part chips ram.now out.old answer.old ≡ record { number = result; buffer = out.new; answer = answer.new } }
{
    if answer.len() == 6 {
        let written = image::write(part, chips, ram, out);
        wire::put_numbers(answers::written_numbers(written), answer)
    } else {
        255
    }
}

// A group's RAM from Intel HEX, or a refusal by 16, 3, 14, 4, 21 to 25 or 5 by the first faulty record, 27, 26.
#[unsafe(no_mangle)]
pub extern "C" fn humtrellis_hex_read(
    part: u8,
    chips: u8,
    file: &[u8],
    ram: &mut [u8],
    answer: &mut [usize],
) -> u8
    ensures { record { number = result; buffer = ram.new; answer = answer.new } ≡ hex_read_c part chips file.now ram.old answer.old }
{
    if answer.len() == 6 {
        let written = image::read(part, chips, file, ram);
        wire::put_numbers(answers::written_numbers(written), answer)
    } else {
        255
    }
}

// A price's text to data bytes for an M at the start of `out`, or a refusal by 2, 6, 9 (under 80 bytes), 15.
#[unsafe(no_mangle)]
pub extern "C" fn humtrellis_price_write(
    mode: u8,
    text: &[u8],
    out: &mut [u8],
    answer: &mut [usize],
) -> u8
    ensures { price_write_c mode text.now out.old answer.old ≡ record { number = result; buffer = out.new; answer = answer.new } }
{
    if answer.len() == 6 {
        let written = price::write(mode, text, out);
        wire::put_numbers(answers::written_numbers(written), answer)
    } else {
        255
    }
}

// Data bytes to the text that they show at the start of `out`, or a refusal by 2, 6, 9 (under 160 bytes), 15.
#[unsafe(no_mangle)]
pub extern "C" fn humtrellis_price_read(
    mode: u8,
    segments: &[u8],
    out: &mut [u8],
    answer: &mut [usize],
) -> u8
    ensures { record { number = result; buffer = out.new; answer = answer.new } ≡ price_read_c mode segments.now out.old answer.old }
{
    if answer.len() == 6 {
        let written = price::read(mode, segments, out);
        wire::put_numbers(answers::written_numbers(written), answer)
    } else {
        255
    }
}

// What is whole of a torn log to the start of `out`, or a refusal by 14, 12, 3, 9.
#[unsafe(no_mangle)]
pub extern "C" fn humtrellis_rescue(log: &[u8], out: &mut [u8], answer: &mut [usize]) -> u8
    ensures { rescue_c log.now out.old answer.old ≡ record { number = result; buffer = out.new; answer = answer.new } }
{
    if answer.len() == 6 {
        let rescued = torn::rescue(log, out);
        wire::put_numbers(answers::rescued_numbers(rescued), answer)
    } else {
        255
    }
}

// The text of a log and its length; 0, and nothing is written, for a buffer with no room for any text.
#[unsafe(no_mangle)]
pub extern "C" fn humtrellis_replay(log: &[u8], out: &mut [u8]) -> usize
    ensures value { result ≡ replay_number (replay_call log.now out.old).result }
    ensures out_after { out.new ≡ (replay_call log.now out.old).out }
{
    match buslog::replay(log, out) {
        Some(length) => length,
        None => 0,
    }
}
