// The numbers of an answer, by value: answer, place, counts, and of a transfer who acknowledged its last data byte. Answer 0 is taken; a refusal has its number, its place and zero counts.
#![tactic(auto)]

ghost use Rattle.std.specs.Prelude.{◌≡◌};
ghost use Rattle.sheet.specs.Parts.{part_of};
ghost use Rattle.sheet.specs.Refusals.{number_of, place_of, last_number, refusal_numbers, numbers, plain_numbers, picture_numbers, rescued_numbers, check_numbers, written_numbers};

use sheet::{Acknowledged, Kept, Refusal, Taken};

// The paper's number of a refusal.
pub fn number_of(refusal: Refusal) -> usize
    ensures { result ≡ number_of refusal }
{
    match refusal {
        Refusal::EmptyTransfer => 1,
        Refusal::LongTransfer => 2,
        Refusal::ChipCount => 3,
        Refusal::RamLength => 4,
        Refusal::RamByte(_) => 5,
        Refusal::Register => 6,
        Refusal::UndefinedCommand(_) => 7,
        Refusal::GroupOrPhase => 8,
        Refusal::OutputLength => 9,
        Refusal::ManyChips => 10,
        Refusal::ChipField(_) => 11,
        Refusal::LogHead => 12,
        Refusal::CutRecord(_) => 13,
        Refusal::LongLog => 14,
        Refusal::NoSymbol(_) => 15,
        Refusal::UnknownPart => 16,
        Refusal::StrayBits(_) => 17,
        Refusal::UnknownPlace(_) => 18,
        Refusal::BitCount => 19,
        Refusal::ShortBody(_) => 20,
        Refusal::RecordForm(_) => 21,
        Refusal::Checksum(_) => 22,
        Refusal::RecordType(_) => 23,
        Refusal::AddressOutside(_) => 24,
        Refusal::AddressTwice(_) => 25,
        Refusal::AddressMissing(_) => 26,
        Refusal::NoEnd => 27,
    }
}

// Its place: 0 unless it holds one.
pub fn place_of(refusal: Refusal) -> usize
    ensures { result ≡ place_of refusal }
{
    match refusal {
        Refusal::RamByte(at) => at,
        Refusal::UndefinedCommand(at) => at,
        Refusal::ChipField(at) => at,
        Refusal::CutRecord(at) => at,
        Refusal::NoSymbol(at) => at,
        Refusal::StrayBits(at) => at,
        Refusal::UnknownPlace(at) => at,
        Refusal::ShortBody(at) => at,
        Refusal::RecordForm(at) => at,
        Refusal::Checksum(at) => at,
        Refusal::RecordType(at) => at,
        Refusal::AddressOutside(at) => at,
        Refusal::AddressTwice(at) => at,
        Refusal::AddressMissing(at) => at,
        Refusal::EmptyTransfer => 0,
        Refusal::LongTransfer => 0,
        Refusal::ChipCount => 0,
        Refusal::RamLength => 0,
        Refusal::Register => 0,
        Refusal::GroupOrPhase => 0,
        Refusal::OutputLength => 0,
        Refusal::ManyChips => 0,
        Refusal::LogHead => 0,
        Refusal::LongLog => 0,
        Refusal::UnknownPart => 0,
        Refusal::BitCount => 0,
        Refusal::NoEnd => 0,
    }
}

// The subaddress that acknowledged the last data byte, or where the part's counter rests.
fn last_number(part: u8, last: Option<usize>) -> usize
    ensures { result ≡ last_number (part_of part) last }
{
    match last {
        Some(subaddress) => subaddress,
        None => arithmetic::limit(part),
    }
}

// Of a refusal: its number, its place, and zero counts; then `last`.
fn refusal_numbers(refusal: Refusal, last: usize) -> [usize; 6]
    ensures { result ≡ refusal_numbers last refusal }
{
    [number_of(refusal), place_of(refusal), 0, 0, 0, last]
}

// Of a transfer: acknowledged, stored, discarded, and who acknowledged its last data byte.
pub fn numbers(part: u8, answer: Result<Taken, Refusal>) -> [usize; 6]
    ensures { result ≡ numbers (part_of part) answer }
{
    match answer {
        Ok(Taken { counts, last }) => [
            0,
            0,
            counts.acknowledged,
            counts.stored,
            counts.discarded,
            last_number(part, last),
        ],
        Err(refusal) => refusal_numbers(refusal, last_number(part, None)),
    }
}

// Of a transfer in the plain account: acknowledged only, and the same of its last data byte.
pub fn plain_numbers(part: u8, answer: Result<Acknowledged, Refusal>) -> [usize; 6]
    ensures { result ≡ plain_numbers (part_of part) answer }
{
    match answer {
        Ok(Acknowledged { bytes, last }) => [0, 0, bytes, 0, 0, last_number(part, last)],
        Err(refusal) => refusal_numbers(refusal, last_number(part, None)),
    }
}

// Of a picture: the lit elements.
pub fn picture_numbers(pictured: Result<usize, Refusal>) -> [usize; 6]
    ensures { result ≡ picture_numbers pictured }
{
    match pictured {
        Ok(lit) => [0, 0, lit, 0, 0, 0],
        Err(refusal) => refusal_numbers(refusal, 0),
    }
}

// Of a rescue: records kept, bytes kept, bytes dropped, and the offset of the tear.
pub fn rescued_numbers(rescued: Result<Kept, Refusal>) -> [usize; 6]
    ensures { result ≡ rescued_numbers rescued }
{
    match rescued {
        Ok(
            Kept {
                records,
                bytes,
                dropped,
                tear,
            },
        ) => [0, 0, records, bytes, dropped, tear],
        Err(refusal) => refusal_numbers(refusal, 0),
    }
}

// Of a power-on: no counts.
pub fn check_numbers(check: Result<(), Refusal>) -> [usize; 6]
    ensures { result ≡ check_numbers check }
{
    match check {
        Ok(()) => [0; 6],
        Err(refusal) => refusal_numbers(refusal, 0),
    }
}

// Of a writer: the bytes written.
pub fn written_numbers(written: Result<usize, Refusal>) -> [usize; 6]
    ensures { result ≡ written_numbers written }
{
    match written {
        Ok(bytes) => [0, 0, bytes, 0, 0, 0],
        Err(refusal) => refusal_numbers(refusal, 0),
    }
}
