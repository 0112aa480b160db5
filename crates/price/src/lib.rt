// Write a price on the glass: a text to 7-segment data bytes, and back to text (paper 02, request 1).
#![tactic(auto)]

ghost use Rattle.std.specs.Prelude.{◌≡◌, map, ◌≤◌, ◌<◌, length, take};
ghost use Rattle.sheet.specs.Refusals.{written_numbers};
ghost use Rattle.price_sheet.specs.Price.{text_of, texts_of, byte_of, begun_at, spelled, read_from, check_price, Sizes, price_write, price_read};
ghost use Rattle.price.specs.Fronts.{Put, settled};

use price_sheet::Symbol;
use sheet::Refusal;

// ---- the symbols of a text

// What begins at a place of a text: a digit with the point directly after it, a digit, a space, or a minus.
#[tactic(auto, unfolding(price_sheet::specs::Price::begun, sheet::specs::Parts::within))]
fn begun_at(text: &[u8], at: usize) -> Option<Symbol>
    requires { at < 80 }
    ensures { result ≡ begun_at at text.now }
{
    // a `match` on the byte takes up to 1.9 times as long here
    let x = checks::byte_at(text, at);
    if (48 <= x) & (x <= 57) {
        if checks::byte_at(text, at + 1) == 0x2E {
            Some(Symbol::Pointed(x - 48))
        } else {
            Some(Symbol::Digit(x - 48))
        }
    } else if x == 0x20 {
        Some(Symbol::Space)
    } else if x == 0x2D {
        Some(Symbol::Minus)
    } else {
        let y = checks::byte_at(text, at + 1);
        let z = checks::byte_at(text, at + 2);
        if (x == 0xE2) & ((y == 0x88) & (z == 0x92)) {
            Some(Symbol::LongMinus)
        } else {
            None
        }
    }
}

// The bytes of a symbol's text.
fn text_size(symbol: Symbol) -> usize
    ensures { (result ≡ length (text_of symbol)) × (result ≤ 3) }
{
    match symbol {
        Symbol::Digit(_) => 1,
        Symbol::Pointed(_) => 2,
        Symbol::Space => 1,
        Symbol::Minus => 1,
        Symbol::LongMinus => 3,
    }
}

// ---- what stands at the start of an output is kept while it is written over, since a refusal leaves it as it was

// In two parts of at most 80 bytes, which are copied without a call.
fn before<const N: usize>(out: &[u8]) -> [u8; N]
    requires { N ≤ length out.now }
    ensures { result ≡ take N out.now }
{
    let half = N.min(80);
    let mut before = [0; N];
    let all = &mut before[..];
    all[..half].copy_from_slice(&out[..half]);
    all[half..].copy_from_slice(&out[half..N]);
    before
}

// A refusal puts back what stood there.
fn settled(written: Result<usize, Refusal>, before: &[u8], out: &mut [u8]) -> Result<usize, Refusal>
    requires { length before.now ≤ length out.old }
    ensures { record { result = result; out = out.new } ≡ settled written before.now out.old }
{
    match written {
        Ok(size) => Ok(size),
        Err(refusal) => {
            out[..before.len()].copy_from_slice(before);
            Err(refusal)
        }
    }
}

// ---- a text to data bytes, and data bytes to a text, each in one walk

// A data byte for each symbol, or 15 at the first byte that begins none.
fn put_bytes(mode: u8, text: &[u8], out: &mut [u8]) -> Result<usize, Refusal>
    requires { Sizes (length text.now) mode 80 (length out.old) }
    ensures { Put (spelled text.now) (map (byte_of mode) (spelled text.now).symbols) 80 out.old out.new result }
{
    let bytes = glyphs::bytes_of(mode);
    let mut place = 0;
    let mut i = 0;
    // a symbol is one to three bytes of the text, which no `for` goes by
    while i < text.len() {
        match begun_at(text, i) {
            Some(symbol) => {
                out[place] = glyphs::byte_of(bytes, symbol);
                place += 1;
                i += text_size(symbol);
            }
            None => return Err(Refusal::NoSymbol(i)),
        }
    }
    Ok(place)
}

// The text of each byte, or 15 at the first that is no symbol's. A point is put after each, and the next symbol over it where it does not belong; where no symbol comes, what stood there.
fn put_texts(mode: u8, segments: &[u8], before: &[u8], out: &mut [u8]) -> Result<usize, Refusal>
    requires { Sizes (length segments.now) mode 160 (length out.old) × (before.now ≡ take 160 out.old) }
    ensures { Put (read_from mode 0 segments.now) (texts_of (read_from mode 0 segments.now).symbols) 160 out.old out.new result }
{
    let mut place = 0;
    for (i, byte) in segments.iter().enumerate() {
        let entry = glyphs::entry_of(mode, *byte);
        if (entry % 256) as u8 != *byte {
            return Err(Refusal::NoSymbol(i));
        }
        let code = entry / 256;
        out[place] = (code % 256) as u8;
        out[place + 1] = 0x2E;
        place += (code / 256) as usize;
    }
    if place < before.len() {
        out[place] = before[place];
    }
    Ok(place)
}

// ---- the calls

// 2, 6, 9.
#[tactic(auto, unfolding(price_sheet::specs::Price::check_price))]
fn check_sizes(size: usize, mode: u8, room: usize, out: usize) -> Result<(), Refusal>
    ensures { result ≡ check_price size mode room out }
{
    checks::unless(size <= 80, Refusal::LongTransfer)?;
    checks::unless(mode < 4, Refusal::Register)?;
    checks::unless(room <= out, Refusal::OutputLength)
}

// A text's data bytes for an M, at the start of `out`, whose other bytes stay.
// Refused by 2 for more than 80 bytes, 6 for an M over 3, 9 for an output under 80 bytes, then 15.
pub fn write(mode: u8, text: &[u8], out: &mut [u8]) -> Result<usize, Refusal>
    ensures out_after { record { result = result; out = out.new } ≡ price_write mode text.now out.old }
    ensures result_value { written_numbers result ≡ written_numbers (price_write mode text.now out.old).result }
{
    check_sizes(text.len(), mode, 80, out.len())?;
    let before = before::<80>(out);
    settled(put_bytes(mode, text, out), &before, out)
}

// The text that data bytes show, with the plain minus, at the start of `out`, whose other bytes stay.
// Refused by 2 for more than 80 bytes, 6 for an M over 3, 9 for an output under 160 bytes, then 15.
pub fn read(mode: u8, segments: &[u8], out: &mut [u8]) -> Result<usize, Refusal>
    ensures out_after { record { result = result; out = out.new } ≡ price_read mode segments.now out.old }
    ensures result_value { written_numbers result ≡ written_numbers (price_read mode segments.now out.old).result }
{
    check_sizes(segments.len(), mode, 160, out.len())?;
    let before = before::<160>(out);
    settled(put_texts(mode, segments, &before, out), &before, out)
}
