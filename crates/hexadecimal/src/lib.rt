// Bytes as text, two capital hexadecimal digits each, and back; and their sum.
#![tactic(auto)]

ghost use Rattle.std.specs.Prelude.{true, ◌≡◌, ◌+◌, ◌*◌, ◌%◌, ◌≤◌, ◌<◌, length};
ghost use Rattle.image_sheet.specs.Hex.{digit_of, text_of, sum_of};
ghost use Rattle.image_sheet.specs.Images.{value_of, pair_of, are_digits, bytes_of};
ghost use Rattle.text.specs.Texts.{Puts};

// ---- bytes to text

// 0 to 9, A to F.
fn digit_of(value: u8) -> u8
    requires { value < 16 }
    ensures { result ≡ digit_of value }
{
    if value < 10 {
        b'0' + value
    } else {
        b'A' + (value - 10)
    }
}

// Two digits a byte, written at a place; the place after them is returned.
pub fn put_text(out: &mut [u8], at: usize, bytes: &[u8]) -> usize
    requires { at + length (text_of bytes.now) ≤ length out.old }
    ensures { Puts at (text_of bytes.now) out.old out.new result }
{
    let mut place = at;
    for byte in bytes {
        let half = text::put_byte(out, place, digit_of(byte / 16));
        place = text::put_byte(out, half, digit_of(byte % 16));
    }
    place
}

// ---- text to bytes

// A digit's value; 16 for a character that is none, a small letter too.
#[tactic(auto, unfolding(image_sheet::specs::Images::value_of, sheet::specs::Parts::within))]
fn value_of(character: u8) -> u8
    ensures { result ≡ value_of character }
{
    // by one `match` on the ranges a file is read in 1.4 to 1.5 times the time
    if matches!(character, b'0'..=b'9') {
        character - b'0'
    } else if matches!(character, b'A'..=b'F') {
        character - b'A' + 10
    } else {
        16
    }
}

// What two digits say; over 255 where one is none.
pub fn pair_of(high: u8, low: u8) -> usize
    ensures { (result ≡ pair_of high low) × (result ≤ 272) }
{
    16 * (value_of(high) as usize) + value_of(low) as usize
}

pub fn are_digits(text: &[u8]) -> bool
    ensures { result ≡ are_digits text.now }
{
    text.iter().all(|character| value_of(*character) < 16)
}

// The bytes that the digits say.
pub fn read(text: &[u8], bytes: &mut [u8])
    requires { (length text.now ≡ 2 * length bytes.old) × (are_digits text.now ≡ true) }
    ensures { bytes.new ≡ bytes_of text.now }
{
    for (i, byte) in bytes.iter_mut().enumerate() {
        *byte = pair_of(text[2 * i], text[2 * i + 1]) as u8;
    }
}

// ---- their sum

// The sum of the bytes, modulo 256.
pub fn sum(bytes: &[u8]) -> usize
    ensures { result ≡ sum_of bytes.now % 256 }
{
    bytes.iter().fold(0u8, |sum, byte| sum.wrapping_add(*byte)) as usize
}
