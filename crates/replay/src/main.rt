// Reads a bus log from standard input and writes its text to standard output.
// Standard error says if the log is refused, or what could not be read or written.
#![tactic(auto)]

ghost use Rattle.std.specs.Prelude.{◌≡◌, length};
ghost use Rattle.buslog.specs.Replays.{room};

use buslog::TEXT;

fn text_buffer() -> [u8; TEXT]
    ensures { room ≡ length result }
{
    [0; TEXT]
}

fn write_text(rt: &HostRuntime, text: &[u8]) {
    match input::write_output(rt, text) {
        Err(error) => input::fail(rt, "replay: standard output could not be written", &error),
        Ok(()) => {
            if text.len() > 0 && text[0] == b'X' {
                let _ = eprintln!(rt; "replay: the log is refused");
            }
        }
    }
}

fn replay_log(rt: &HostRuntime, log: &[u8]) {
    let mut out = text_buffer();
    if let Some(count) = buslog::replay(log, &mut out) {
        write_text(rt, &out[..count]);
    }
}

fn main(rt: HostRuntime) {
    let mut log = input::log_buffer();
    match input::read_input(&mut rt.stdin(), &mut log) {
        Ok(count) => replay_log(&rt, &log[..count]),
        Err(error) => { input::fail(&rt, "replay: standard input could not be read", &error) }
    }
}
