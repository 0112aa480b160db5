// THE LONG ACCOUNT: one register set a group and one long RAM, a byte a column or packed. Every input gets an answer; a refused call changes nothing.
#![tactic(auto)]

ghost use Rattle.std.specs.Prelude.{◌≡◌, ◌*◌, ◌<◌, length, None, Ok, Some};
ghost use Rattle.sheet.specs.Refusals.{numbers, picture_numbers, check_numbers};
ghost use Rattle.sheet.specs.Parts.{part_of};
ghost use Rattle.sheet.specs.Protocol.{chips_in, sent, whole_of};
ghost use Rattle.sheet.specs.Checks.{check_state};
ghost use Rattle.sheet.specs.Pictures.{picture_of, lit_in};
ghost use Rattle.sheet.specs.Long.{replaced, columns_of, taken, power_on_part, transfer_part, picture_part};
ghost use Rattle.listener.specs.Listeners.{group_of};
ghost use Rattle.long.specs.Heard.{Owned, Ready, heard_in_ram};
ghost use Rattle.packed_sheet.specs.Packed.{columns_in};

use groups::Bus;
use listener::Listener;
use sheet::{Both, Counts, PowerOn, Refusal, Registers, Taken, Transferred};

// Power-on: the power-on registers, taken or refused by 16, 3, 4, 5; the RAM is only read.
pub fn power_on(bus: Bus, ram: &[u8]) -> PowerOn
    ensures value { result ≡ power_on_part bus.part bus.chips (columns_in bus.packed ram.now) }
    ensures check_value { check_numbers result.check ≡ check_numbers (power_on_part bus.part bus.chips (columns_in bus.packed ram.now)).check }
{
    let check = refused::check_power_on(&bus, ram);
    let registers = Both {
        zero: registers::power_on(),
        one: registers::power_on(),
    };
    PowerOn { check, registers }
}

// What a group, its registers given, makes of what is left from a place on of a transfer that passed its checks, in its part of the RAM.
pub fn hear_in(
    bus: Bus,
    group: u8,
    opened: Registers,
    ram: &mut [u8],
    bytes: &[u8],
    bits: u8,
    from: usize,
) -> Listener
    requires { Ready (part_of bus.part) bus.chips opened (columns_in bus.packed ram.old) (sent bytes.now bits) from }
    ensures { group_of result (columns_in bus.packed ram.new) ≡ heard_in_ram (part_of bus.part) bus.chips group opened (columns_in bus.packed ram.old) (sent bytes.now bits) from }
{
    let start = bus.start_in(group);
    let end = bus.end_in(group);
    hearing::hear(
        bus.part,
        &mut ram[start..end],
        bus.packed,
        opened,
        bytes,
        bits,
        from,
    )
}

// A transfer that passed its checks, at the group that hears it.
fn deliver(
    bus: Bus,
    registers: Both,
    ram: &mut [u8],
    bytes: &[u8],
    bits: u8,
    group: u8,
) -> Transferred
    requires { (check_state (part_of bus.part) bus.chips registers (columns_in bus.packed ram.old) ≡ Ok tt) × (length bytes.now < 4097) × (0 < length (whole_of (sent bytes.now bits))) }
    ensures { record { result = result; ram = columns_in bus.packed ram.new } ≡ taken (part_of bus.part) bus.chips registers (columns_in bus.packed ram.old) (sent bytes.now bits) (Some group) }
{
    let before = groups::registers_of(group, registers);
    let heard = hear_in(bus, group, before, ram, bytes, bits, 1);
    Transferred {
        answer: Ok(Taken {
            counts: heard.counts,
            last: heard.last,
        }),
        registers: groups::replaced(group, heard.registers, registers),
    }
}

// What is said of a transfer that brings no data: so many bytes are acknowledged, none where nobody hears it.
pub fn without_data(acknowledged: usize) -> Result<Taken, Refusal>
    ensures { result ≡ Ok (record { counts = record { acknowledged = acknowledged; stored = 0; discarded = 0 }; last = None }) }
{
    Ok(Taken {
        counts: Counts {
            acknowledged,
            stored: 0,
            discarded: 0,
        },
        last: None,
    })
}

// A transfer, START to STOP, of whose last byte so many bits came, taken or refused by 16, 3, 6, 4, 5, 1, 2, 19, then 7, 17 and 18.
pub fn transfer(bus: Bus, registers: Both, ram: &mut [u8], bytes: &[u8], bits: u8) -> Transferred
    ensures ram_after { record { result = result; ram = columns_in bus.packed ram.new } ≡ transfer_part bus.part bus.chips registers (columns_in bus.packed ram.old) (sent bytes.now bits) }
    ensures answer_value { numbers (part_of bus.part) result.answer ≡ numbers (part_of bus.part) (transfer_part bus.part bus.chips registers (columns_in bus.packed ram.old) (sent bytes.now bits)).result.answer }
{
    match refused::check_transfer(&bus, registers, ram, bytes, bits) {
        Err(refusal) => Transferred {
            answer: Err(refusal),
            registers,
        },
        Ok(()) => match groups::heard_by(bus.chips, checks::address_byte(bytes, bits)) {
            Some(group) => deliver(bus, registers, ram, bytes, bits, group),
            None => Transferred {
                answer: without_data(0),
                registers,
            },
        },
    }
}

// The picture of a group, its registers given, once the checks have passed.
pub fn show_in(
    bus: Bus,
    group: u8,
    shown: Registers,
    ram: &[u8],
    phase: u8,
    out: &mut [u8],
) -> usize
    requires { Owned (part_of bus.part) bus.chips group shown (columns_in bus.packed ram.now) × (length out.old ≡ (part_of bus.part).columns * chips_in group bus.chips) }
    ensures out_after { out.new ≡ picture_of shown phase (columns_of (part_of bus.part) bus.chips group (columns_in bus.packed ram.now)) }
    ensures value { result ≡ lit_in (picture_of shown phase (columns_of (part_of bus.part) bus.chips group (columns_in bus.packed ram.now))) }
{
    let start = bus.start_in(group);
    let end = bus.end_in(group);
    picture::show(&ram[start..end], bus.packed, shown, phase, out)
}

// The picture of a group at a blink phase and its lit elements, or a refusal by 16, 3, 6, 4, 5, 8, 9.
pub fn picture(
    bus: Bus,
    registers: Both,
    ram: &[u8],
    group: u8,
    phase: u8,
    out: &mut [u8],
) -> Result<usize, Refusal>
    ensures out_after { record { result = result; out = out.new } ≡ picture_part bus.part bus.chips registers (columns_in bus.packed ram.now) group phase out.old }
    ensures result_value { picture_numbers result ≡ picture_numbers (picture_part bus.part bus.chips registers (columns_in bus.packed ram.now) group phase out.old).result }
{
    let fit = refused::registers_fit(bus.part, registers);
    refused::check_picture(&bus, fit, group, phase, ram, out.len())?;
    let shown = groups::registers_of(group, registers);
    Ok(show_in(bus, group, shown, ram, phase, out))
}
