// Lines of text into a lent buffer: each writer writes at a place and returns the place after what it wrote.
#![tactic(auto)]

ghost use Rattle.std.specs.Prelude.{[], ◌∷◌, ◌+◌, ◌≤◌, ◌<◌, length};
ghost use Rattle.log_sheet.specs.Logs.{decimal, spaced, line};
ghost use Rattle.text.specs.Texts.{Puts};

pub fn put_byte(out: &mut [u8], at: usize, byte: u8) -> usize
    requires { at + 1 ≤ length out.old }
    ensures { Puts at (byte ∷ []) out.old out.new result }
{
    out[at] = byte;
    at + 1
}

fn put_digit(out: &mut [u8], at: usize, digit: usize) -> usize
    requires { (digit < 10) × (at + 1 ≤ length out.old) }
    ensures { Puts at ((48 + digit) ∷ []) out.old out.new result }
{
    put_byte(out, at, b'0' + digit as u8)
}

// The digits of the number's tenth, and its last digit.
#[tactic(auto, using(crate::proofs::Decimals::digit))]
fn put_number(out: &mut [u8], at: usize, n: usize) -> usize
    requires { at + length (decimal n) ≤ length out.old }
    ensures { Puts at (decimal n) out.old out.new result }
{
    if n < 10 {
        return put_digit(out, at, n);
    }
    let last = put_number(out, at, n / 10);
    put_digit(out, last, n % 10)
}

// A number: most have one digit, which needs no call.
fn put_decimal(out: &mut [u8], at: usize, n: usize) -> usize
    requires { at + length (decimal n) ≤ length out.old }
    ensures { Puts at (decimal n) out.old out.new result }
{
    if 10 <= n {
        put_number(out, at, n)
    } else {
        put_digit(out, at, n)
    }
}

// Each number after a space.
fn put_numbers(out: &mut [u8], at: usize, numbers: &[usize]) -> usize
    requires { at + length (spaced numbers.now) ≤ length out.old }
    ensures { Puts at (spaced numbers.now) out.old out.new result }
{
    let mut place = at;
    for number in numbers {
        let after = put_byte(out, place, b' ');
        place = put_decimal(out, after, *number);
    }
    place
}

// A letter, the numbers, and LF.
pub fn put_line(out: &mut [u8], at: usize, letter: u8, numbers: &[usize]) -> usize
    requires { at + length (line letter numbers.now) ≤ length out.old }
    ensures { Puts at (line letter numbers.now) out.old out.new result }
{
    let start = put_byte(out, at, letter);
    let end = put_numbers(out, start, numbers);
    put_byte(out, end, b'\n')
}
