// The command of a byte, of each part.
#![tactic(auto)]

ghost use Rattle.std.specs.Prelude.{◌≡◌, cond, ◌≤◌, eqb};
ghost use Rattle.sheet.specs.Parts.{part_of, pcf8532, pca85133, mode_set, blink_select, bank_select};
ghost use Rattle.sheet.specs.Commands.{defined};

use sheet::{Command, Settings};

// ---- what both sheets have

// Mode-set: 1 1 0 0 E B M1 M0.
fn mode_set(byte: u8) -> Command
    ensures { result ≡ mode_set.is byte }
{
    Command::ModeSet(Settings {
        e: byte / 8 % 2,
        b: byte / 4 % 2,
        m: byte % 4,
    })
}

// Blink-select: 1 1 1 1 0 AB BF1 BF0.
fn blink_select(byte: u8) -> Command
    ensures { result ≡ blink_select.is byte }
{
    Command::BlinkSelect {
        ab: byte / 4 % 2,
        bf: byte % 4,
    }
}

// Bank-select: 1 1 1 1 1 0 I O.
fn bank_select(byte: u8) -> Command
    ensures { result ≡ bank_select.is byte }
{
    Command::BankSelect {
        i: byte / 2 % 2,
        o: byte % 2,
    }
}

// ---- the command of a byte, told apart by ranges

// The PCF8532's (sheet 003, table 5).
#[tactic(auto, using(crate::proofs::Shared::high_command))]
pub fn decode_pcf8532(byte: u8) -> Command
    ensures { result ≡ pcf8532.command byte }
{
    match byte {
        // pointer high: 0 0 0 0 P7 P6 P5 P4, to 9
        0x00..=0x09 => Command::PointerHigh(byte % 16),
        // pointer low: 0 1 0 0 P3 P2 P1 P0
        0x40..=0x4F => Command::PointerLow(byte % 16),
        0xC0..=0xCF => mode_set(byte),
        // device-select: 1 1 1 0 0 0 A1 A0
        0xE0..=0xE3 => Command::DeviceSelect(byte % 4),
        // frequency-ctrl: 1 1 1 0 1 F2 F1 F0
        0xE8..=0xEF => Command::FrequencyCtrl,
        0xF0..=0xF7 => blink_select(byte),
        0xF8..=0xFB => bank_select(byte),
        _ => Command::Undefined,
    }
}

// The PCA85133's from E0 to EF (sheet 002, table 11): device-select, 1 1 1 0 0 A2 A1 A0, and no frequency-ctrl.
fn device_pca85133(byte: u8) -> Command
    requires { (224 ≤ byte) × (byte ≤ 239) }
    ensures { result ≡ pca85133.command byte }
{
    if byte <= 0xE7 {
        Command::DeviceSelect(byte % 8)
    } else {
        Command::Undefined
    }
}

// The part's. The PCA85133 has its own pointer and devices, and all other bytes as the PCF8532; so told, both parts are one function small enough to be inlined.
pub fn decode(part: u8, byte: u8) -> Command
    ensures { result ≡ (part_of part).command byte }
{
    let other = part == sheet::PCA85133;
    // load-data-pointer: 0 P6 P5 P4 P3 P2 P1 P0, to 79
    if other & (byte <= 0x4F) {
        return Command::Pointer(byte);
    }
    if other & (0xE0 <= byte) & (byte <= 0xEF) {
        return device_pca85133(byte);
    }
    decode_pcf8532(byte)
}

// ---- whether a byte is a command, by the ends of its ranges and without a branch, so that many bytes are told at once

// The part's of two numbers.
fn of_part(part: u8, pca85133: u8, pcf8532: u8) -> u8
    ensures { result ≡ cond (eqb part 1) pca85133 pcf8532 }
{
    if part == sheet::PCA85133 {
        pca85133
    } else {
        pcf8532
    }
}

// Of the part. Where 00 to 4F are the pointer, the second range is in the first.
pub fn is_defined(part: u8, byte: u8) -> bool
    ensures { result ≡ defined ((part_of part).command byte) }
{
    (byte <= of_part(part, 0x4F, 0x09))
        | ((0x40 <= byte) & (byte <= 0x4F))
        | ((0xC0 <= byte) & (byte <= 0xCF))
        | ((0xE0 <= byte) & (byte <= of_part(part, 0xE7, 0xE3)))
        | ((of_part(part, 0xF0, 0xE8) <= byte) & (byte <= 0xFB))
}
