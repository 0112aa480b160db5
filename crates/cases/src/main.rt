// Replays many logs and writes each one's text. Standard input: for each log a four-byte big-endian length and the log.
#![tactic(auto)]

ghost use Rattle.std.specs.Prelude.{◌≡◌, ◌+◌, ◌≤◌, ◌<◌, ◌^◌, length};

// The descriptors of standard input and standard output.
const STDIN_FILENO: i32 = 0;

const STDOUT_FILENO: i32 = 1;

// Room for all logs, and for a log's text.
fn buffer() -> [u8; 700000]
    ensures { 700000 ≡ length result }
{
    [0; 700000]
}

// The four-byte length at a place.
fn length_at(input: &[u8], at: usize) -> usize
    requires { at + 4 ≤ length input.now }
    ensures { result < 2 ^ 32 }
{
    u32::from_be_bytes([input[at], input[at + 1], input[at + 2], input[at + 3]]) as usize
}

fn write_text(log: &[u8], out: &mut [u8]) {
    if let Some(count) = buslog::replay(log, out) {
        io::write_all(STDOUT_FILENO, &out[..count]);
    }
}

// A line `L index` and the log's text, for each log that is whole.
fn write_all(input: &[u8], out: &mut [u8]) {
    let mut at: usize = 0;
    let mut index: u64 = 0;
    // a log is as long as it says, which no `for` goes by
    while at < input.len() {
        if input.len() - at < 4 {
            return;
        }
        let size = length_at(input, at);
        let start = at + 4;
        if input.len() - start < size {
            return;
        }
        let end = start + size;
        io::write_all(STDOUT_FILENO, b"L ");
        io::print_decimal(STDOUT_FILENO, index);
        io::write_all(STDOUT_FILENO, b"\n");
        write_text(&input[start..end], out);
        index += 1;
        at = end;
    }
}

fn main() {
    let mut input = buffer();
    let size = io::read_full(STDIN_FILENO, &mut input);
    let mut out = buffer();
    write_all(&input[..size], &mut out);
}
