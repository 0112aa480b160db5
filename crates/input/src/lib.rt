// A program's bus log from standard input, what it writes to standard output, and what it says of a failure on standard error.
#![tactic(auto)]

ghost use Rattle.std.specs.Prelude.{◌≡◌, length};
ghost use Rattle.std.specs.Io.{ReadsAtMost};

use std::io::{Error, Read, Write};
use std::{fs, io};

// A byte more than a log may have, so that a longer one is seen.
pub fn log_buffer() -> [u8; 65537]
    ensures { 65537 ≡ length result }
{
    [0; 65537]
}

// The input to its end or until the buffer is full: how many bytes that are.
pub fn read_input<R: Read>(input: &mut R, buffer: &mut [u8]) -> io::Result<usize>
    ensures { ReadsAtMost result buffer.new }
{
    let mut done = 0;
    // a read says how much it brought, which no `for` goes by
    while done < buffer.len() {
        let more = input.read(&mut buffer[done..])?;
        if more == 0 {
            break;
        }
        done += more;
    }
    Ok(done)
}

// Some file systems say only late that what was written is lost, so a file is asked for it, where it can be opened again.
fn settled(rt: &HostRuntime) -> io::Result<()> {
    let path = "/dev/stdout";
    let is_file = match fs::metadata(rt, path) {
        Ok(found) => found.is_file(),
        Err(_) => false,
    };
    if !is_file {
        return Ok(());
    }
    match fs::open(rt, path) {
        Ok(file) => file.sync_all(),
        Err(_) => Ok(()),
    }
}

// Whether all is written.
pub fn write_output(rt: &HostRuntime, bytes: &[u8]) -> io::Result<()> {
    rt.stdout().write_all(bytes)?;
    settled(rt)
}

// A line of standard error: what failed, and why, in the system's words alone.
pub fn fail(rt: &HostRuntime, message: &str, error: &Error) {
    let said = match format!(in rt.alloc(); "{error}") {
        Ok(text) => match text.as_str().split_once(" (os error") {
            Some((words, _)) => eprintln!(rt; "{message}: {words}"),
            None => eprintln!(rt; "{message}: {text}"),
        },
        Err(_) => eprintln!(rt; "{message}: {error}"),
    };
    let _ = said;
}
