// Reads a torn bus log from standard input and writes what is whole of it to standard output.
// Standard error has the report, `R records kept dropped tear`; or why the log is refused, `X number place`; or what could not be read or written.
#![tactic(auto)]

use sheet::Kept;

// A line of standard error: a letter, the numbers, and LF.
fn report(rt: &HostRuntime, letter: &str, numbers: &[usize]) {
    let _ = eprint!(rt; "{letter}");
    for number in numbers {
        let _ = eprint!(rt; " {number}");
    }
    let _ = eprintln!(rt);
}

// What is kept, and then the report: nothing is reported of a log that is not written.
fn write_kept(rt: &HostRuntime, kept: &[u8], numbers: &[usize]) {
    match input::write_output(rt, kept) {
        Ok(()) => report(rt, "R", numbers),
        Err(error) => input::fail(rt, "rescue: standard output could not be written", &error),
    }
}

fn rescue_log(rt: &HostRuntime, log: &[u8]) {
    let mut out = input::log_buffer();
    match torn::rescue(log, &mut out) {
        Ok(
            Kept {
                records,
                bytes,
                dropped,
                tear,
            },
        ) => write_kept(rt, &out[..bytes], &[records, bytes, dropped, tear]),
        Err(refusal) => report(
            rt,
            "X",
            &[answers::number_of(refusal), answers::place_of(refusal)],
        ),
    }
}

fn main(rt: HostRuntime) {
    let mut log = input::log_buffer();
    match input::read_input(&mut rt.stdin(), &mut log) {
        Ok(count) => rescue_log(&rt, &log[..count]),
        Err(error) => { input::fail(&rt, "rescue: standard input could not be read", &error) }
    }
}
