// What each symbol lights, and its data byte in each mode, by tables; and back (paper 02, request 1).
#![tactic(auto)]

ghost use Rattle.std.specs.Prelude.{◌≡◌, ◌<◌};
ghost use Rattle.glyphs.specs.Tables.{order_of, pushed, bytes_in, byte_at, number_with, byte_in, byte_by, Slot, Picked, Entry};

use price_sheet::Symbol;

// The segments, a bit each.
const A: u8 = 1;

const B: u8 = 2;

const C: u8 = 4;

const D: u8 = 8;

const E: u8 = 16;

const F: u8 = 32;

const G: u8 = 64;

const DP: u8 = 128;

// What the digits 0 to 9 light.
const SHAPES: [u8; 10] = [
    A + B + C + D + E + F,
    B + C,
    A + B + D + E + G,
    A + B + C + D + G,
    B + C + F + G,
    A + C + D + F + G,
    A + C + D + E + F + G,
    A + B + C,
    A + B + C + D + E + F + G,
    A + B + C + D + F + G,
];

// The segments of a data byte, most significant bit first (sheet 003, figure 13).
const STATIC: [u8; 8] = [C, B, A, F, G, E, D, DP];

const ONE_TO_TWO: [u8; 8] = [A, B, F, G, E, C, D, DP];

const ONE_TO_THREE: [u8; 8] = [B, DP, C, A, D, G, F, E];

const ONE_TO_FOUR: [u8; 8] = [A, C, B, DP, F, E, G, D];

// The order of an M.
fn order_of(mode: u8) -> [u8; 8]
    requires { mode < 4 }
    ensures { result ≡ order_of mode }
{
    match mode {
        0 => ONE_TO_FOUR,
        1 => STATIC,
        2 => ONE_TO_TWO,
        _ => ONE_TO_THREE,
    }
}

// ---- the data bytes of a mode

// A byte each, the first lowest, in two numbers: digits 0 to 7; then 8, 9, a space, a minus and the point.
#[derive(Clone, Copy)]
pub struct Bytes {
    pub first: u64,
    pub second: u64,
}

// What they light: a minus segment g alone.
const FIRST: u64 = SHAPES[0] as u64
    + 0x100 * SHAPES[1] as u64
    + 0x10000 * SHAPES[2] as u64
    + 0x1000000 * SHAPES[3] as u64
    + 0x100000000 * SHAPES[4] as u64
    + 0x10000000000 * SHAPES[5] as u64
    + 0x1000000000000 * SHAPES[6] as u64
    + 0x100000000000000 * SHAPES[7] as u64;

const SECOND: u64 = SHAPES[8] as u64
    + 0x100 * SHAPES[9] as u64
    + 0x1000000 * G as u64
    + 0x100000000 * DP as u64;

// A segment comes in at the top of each byte: 1 where it is lit.
fn pushed(bytes: u64, lit: u64, segment: u8) -> u64
    requires { 0 < segment }
    ensures { result ≡ pushed bytes lit segment }
{
    bytes / 2 | 128 * (lit / segment as u64 & 0x0101010101010101)
}

// What is lit, in the order of an M, its last segment first.
fn arranged(mode: u8) -> Bytes
    requires { mode < 4 }
    ensures { result ≡ bytes_in (order_of mode) }
{
    let order = order_of(mode);
    let mut first: u64 = 0;
    let mut second: u64 = 0;
    for i in (0..8).rev() {
        first = pushed(first, FIRST, order[i]);
        second = pushed(second, SECOND, order[i]);
    }
    Bytes { first, second }
}

// The data bytes of an M. Each is named, so that the compiler works them out and a call only looks them up.
pub fn bytes_of(mode: u8) -> Bytes
    requires { mode < 4 }
    ensures { result ≡ bytes_in (order_of mode) }
{
    match mode {
        0 => arranged(0),
        1 => arranged(1),
        2 => arranged(2),
        _ => arranged(3),
    }
}

// ---- a symbol's data byte

fn byte_at(word: u64, k: u8) -> u8
    requires { k < 8 }
    ensures { result ≡ byte_at word k }
{
    ((word >> (8 * k)) % 256) as u8
}

// The number that has it: chosen before it is shifted, so that there is one shift.
fn number_with(bytes: Bytes, k: u8) -> u64
    ensures { result ≡ number_with bytes k }
{
    if k < 8 { bytes.first } else { bytes.second }
}

fn byte_in(bytes: Bytes, k: u8) -> u8
    ensures { result ≡ byte_in bytes k }
{
    byte_at(number_with(bytes, k), k % 8)
}

// A symbol's data byte among those of an M.
pub fn byte_of(bytes: Bytes, symbol: Symbol) -> u8
    ensures { result ≡ byte_by bytes symbol }
{
    match symbol {
        Symbol::Digit(digit) => byte_in(bytes, digit),
        Symbol::Pointed(digit) => byte_in(bytes, digit) | byte_in(bytes, 12),
        Symbol::Space => 0,
        Symbol::Minus => byte_in(bytes, 11),
        Symbol::LongMinus => byte_in(bytes, 11),
    }
}

// ---- and back

// By a byte's slot an entry: the byte itself, then the first byte of its symbol's text, then how many bytes the text has.
// A slot that no symbol's byte has holds the space, whose own slot is 0.
const STATIC_ENTRIES: [u32; 32] = [
    0x012000, 0x012000, 0x0137E0, 0x0233EB, 0x0136BE, 0x0130F6, 0x02326F, 0x012000, 0x0239FB,
    0x0133EA, 0x0234D9, 0x012000, 0x01326E, 0x012000, 0x0139FA, 0x012000, 0x0134D8, 0x0238FF,
    0x012D08, 0x0231C1, 0x012000, 0x0235BB, 0x012000, 0x0138FE, 0x012000, 0x0131C0, 0x012000,
    0x0135BA, 0x0237E1, 0x012000, 0x0236BF, 0x0230F7,
];

const ONE_TO_TWO_ENTRIES: [u32; 32] = [
    0x012000, 0x0135B6, 0x0230EF, 0x012000, 0x023145, 0x012000, 0x012000, 0x0235B7, 0x012000,
    0x012000, 0x0139F6, 0x012000, 0x0132DA, 0x013474, 0x0136BE, 0x0239F7, 0x0137C4, 0x012000,
    0x0232DB, 0x023475, 0x0236BF, 0x0133D6, 0x0237C5, 0x0138FE, 0x012000, 0x012000, 0x012D10,
    0x0233D7, 0x0238FF, 0x0130EE, 0x012000, 0x013144,
];

const ONE_TO_THREE_ENTRIES: [u32; 32] = [
    0x012000, 0x0238FF, 0x012000, 0x0237F0, 0x0234E6, 0x01353E, 0x012000, 0x012000, 0x0230FB,
    0x0139BE, 0x012000, 0x01363F, 0x0232DD, 0x0131A0, 0x0233FC, 0x0138BF, 0x012000, 0x0137B0,
    0x0134A6, 0x012000, 0x012000, 0x012000, 0x0130BB, 0x02357E, 0x012000, 0x012D04, 0x01329D,
    0x0239FE, 0x0133BC, 0x02367F, 0x012000, 0x0231E0,
];

const ONE_TO_FOUR_ENTRIES: [u32; 32] = [
    0x012000, 0x012000, 0x0135CB, 0x0235DB, 0x0133E3, 0x0139EB, 0x0233F3, 0x0239FB, 0x012D02,
    0x012000, 0x013160, 0x012000, 0x023170, 0x0130ED, 0x0132A7, 0x0230FD, 0x0232B7, 0x012000,
    0x0136CF, 0x01346A, 0x0236DF, 0x02347A, 0x0138EF, 0x0238FF, 0x0137E0, 0x012000, 0x0237F0,
    0x012000, 0x012000, 0x012000, 0x012000, 0x012000,
];

// The top five bits of a product, by a factor with which no two symbols of an M share them.
fn slot_of(byte: u8, factor: u64) -> u64
    requires { factor < 0x100000000 }
    ensures { Slot byte factor result }
{
    byte as u64 * factor % 0x100000000 / 0x8000000
}

// The entry of a slot. Each is named, so that the compiler keeps a constant table where it is: by an index it would copy it at each call.
fn entry_at(entries: [u32; 32], slot: u64) -> u32
    requires { slot < 32 }
    ensures { Picked entries slot result }
{
    match slot {
        0 => entries[0],
        1 => entries[1],
        2 => entries[2],
        3 => entries[3],
        4 => entries[4],
        5 => entries[5],
        6 => entries[6],
        7 => entries[7],
        8 => entries[8],
        9 => entries[9],
        10 => entries[10],
        11 => entries[11],
        12 => entries[12],
        13 => entries[13],
        14 => entries[14],
        15 => entries[15],
        16 => entries[16],
        17 => entries[17],
        18 => entries[18],
        19 => entries[19],
        20 => entries[20],
        21 => entries[21],
        22 => entries[22],
        23 => entries[23],
        24 => entries[24],
        25 => entries[25],
        26 => entries[26],
        27 => entries[27],
        28 => entries[28],
        29 => entries[29],
        30 => entries[30],
        _ => entries[31],
    }
}

// The entry where a byte's symbol stands in an M: if it has another byte, there is none.
pub fn entry_of(mode: u8, byte: u8) -> u32
    requires { mode < 4 }
    ensures { Entry mode byte result }
{
    match mode {
        0 => entry_at(ONE_TO_FOUR_ENTRIES, slot_of(byte, 0x20E00000)),
        1 => entry_at(STATIC_ENTRIES, slot_of(byte, 0xD2600000)),
        2 => entry_at(ONE_TO_TWO_ENTRIES, slot_of(byte, 0x2D140000)),
        _ => entry_at(ONE_TO_THREE_ENTRIES, slot_of(byte, 0x32400000)),
    }
}
