// Reads a bus log from standard input and writes the RAM that it leaves in a group, its one argument, as Intel HEX to standard output.
// Standard error says why the log is refused, `X number place`, or what is wrong with the argument, the input or the output.
#![tactic(auto)]

ghost use Rattle.std.specs.Prelude.{◌≡◌, length, Ok};
ghost use Rattle.log_sheet.specs.Logs.{check_log};

use sheet::Refusal;
use std::env;

// The group of a name.
fn group_of(word: &str) -> Option<u8> {
    match word {
        "0" => Some(0),
        "1" => Some(1),
        _ => None,
    }
}

// The group that the one argument names.
fn group_named(rt: &HostRuntime) -> Option<u8> {
    match env::args(rt) {
        Ok(mut words) => match (words.nth(1), words.next()) {
            (Some(word), None) => group_of(word.as_str()),
            _ => None,
        },
        Err(_) => None,
    }
}

fn refuse(rt: &HostRuntime, refusal: Refusal) {
    let number = answers::number_of(refusal);
    let place = answers::place_of(refusal);
    let _ = eprintln!(rt; "X {number} {place}");
}

fn write_file(rt: &HostRuntime, file: &[u8]) {
    match input::write_output(rt, file) {
        Ok(()) => {}
        Err(error) => input::fail(rt, "hex: standard output could not be written", &error),
    }
}

// Room for the file of four chips.
fn file_buffer() -> [u8; 1772] {
    [0; 1772]
}

fn write_image(rt: &HostRuntime, ram: &[u8], chips: u8) {
    let mut file = file_buffer();
    match image::write(sheet::PCF8532, chips, ram, &mut file) {
        Ok(count) => write_file(rt, &file[..count]),
        Err(refusal) => refuse(rt, refusal),
    }
}

// RAM all 0, for eight chips.
fn blank_ram() -> [u8; 1280]
    ensures { length result ≡ 1280 }
{
    [0; 1280]
}

fn write_group(rt: &HostRuntime, log: &[u8], group: u8)
    requires { check_log log.now ≡ Ok tt }
{
    let chips = records::chips_of(log);
    let mut ram = blank_ram();
    let zeros = 160 * (chips.zero as usize);
    let all = zeros + 160 * (chips.one as usize);
    outcome::leave(log, &mut ram[..all]);
    if group == 0 {
        write_image(rt, &ram[..zeros], chips.zero);
    } else {
        write_image(rt, &ram[zeros..all], chips.one);
    }
}

fn write_log(rt: &HostRuntime, log: &[u8], group: u8) {
    match buslog::check_log(log) {
        Err(refusal) => refuse(rt, refusal),
        Ok(()) => write_group(rt, log, group),
    }
}

fn main(rt: HostRuntime) {
    let Some(group) = group_named(&rt) else {
        let _ = eprintln!(rt; "hex: the group is 0 or 1");
        return;
    };
    let mut log = input::log_buffer();
    match input::read_input(&mut rt.stdin(), &mut log) {
        Ok(count) => write_log(&rt, &log[..count], group),
        Err(error) => input::fail(&rt, "hex: standard input could not be read", &error),
    }
}
