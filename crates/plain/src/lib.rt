// THE PLAIN ACCOUNT: a lent list of chips of one part, each of which follows every byte by itself. Every input gets an answer; a refused call changes nothing.
// What is decided and done is decided and done by value, in `turns` and `starts`. The functions over the list only go along it.
#![tactic(auto)]

ghost use Rattle.std.specs.Prelude.{◌≡◌, map, ◌+◌, ◌≤◌, length};
ghost use Rattle.sheet.specs.Refusals.{plain_numbers};
ghost use Rattle.sheet.specs.Parts.{part_of};
ghost use Rattle.sheet.specs.Protocol.{sent};
ghost use Rattle.sheet.specs.Plain.{plain_part};
ghost use Rattle.turns.specs.Asking.{said_by};
ghost use Rattle.starts.specs.Questions.{found_in};
ghost use Rattle.turns.specs.Turns.{taken_by, followed, tally_of, Ready};
ghost use Rattle.plain.specs.Benches.{too_many, first_transferred, bench_transferred};

use sheet::{Acknowledged, Chip, Refusal};
use starts::{Found, Question};
use turns::{BusByte, Said, Tally, Turn};

// ---- the list

// The places of the first chip that does not fit, that hears the address, and that hears it and has each mark unknown; or the count.
fn found(chips: &[Chip], part: u8, called: u8) -> Found
    ensures { result ≡ found_in part called chips.now }
{
    let count = chips.len();
    Found {
        count,
        misfit: chips
            .iter()
            .position(|chip| starts::says_yes(*chip, Question::Misfit(part)))
            .unwrap_or(count),
        hearer: chips
            .iter()
            .position(|chip| starts::says_yes(*chip, Question::Hears(called)))
            .unwrap_or(count),
        high: chips
            .iter()
            .position(|chip| starts::says_yes(*chip, Question::HighUnknown(called)))
            .unwrap_or(count),
        low: chips
            .iter()
            .position(|chip| starts::says_yes(*chip, Question::LowUnknown(called)))
            .unwrap_or(count),
        device: chips
            .iter()
            .position(|chip| starts::says_yes(*chip, Question::DeviceUnknown(called)))
            .unwrap_or(count),
    }
}

// Who acknowledges a byte, the smallest subaddress, and how many bytes of so many are answered alike.
fn ask_all(chips: &[Chip], heard: BusByte, most: usize) -> Said
    ensures { result ≡ said_by heard most chips.now }
{
    chips.iter().rev().fold(
        turns::nothing_said(most),
        |said, chip| turns::say_with(*chip, heard, said),
    )
}

// Every chip takes them, if they change any.
fn take_all(chips: &mut [Chip], bytes: &[u8], turn: Turn, count: usize)
    requires { turn.at + count ≤ length bytes.now }
    ensures { chips.new ≡ map (taken_by bytes.now turn count) chips.old }
{
    let limit = turns::reach(turn, count, chips.len());
    for chip in &mut chips[..limit] {
        *chip = turns::take(bytes, *chip, turn, count);
    }
}

// The chips follow the bytes from a turn on, in each turn as many as they all answer alike. What is acknowledged in all.
fn follow(chips: &mut [Chip], bytes: &[u8], start: Turn) -> Tally
    requires { Ready chips.old bytes.now start }
    ensures value { result ≡ tally_of (followed chips.old bytes.now start) }
    ensures chips_after { chips.new ≡ (followed chips.old bytes.now start).chips }
{
    let mut turn = start;
    // a turn says how many bytes it took, which no `for` goes by
    while turn.at < bytes.len() {
        let most = turns::most_in(bytes, turn);
        let said = ask_all(chips, turn.heard, most);
        take_all(chips, bytes, turn, said.count);
        turn = turns::next(bytes, turn, said);
    }
    turn.tally
}

// A transfer, START to STOP, of whose last byte so many bits came, taken or refused by 16, 10, 11, 1, 2, 19, then 7, 17 and 18. The list and the bytes come first.
pub fn transfer(
    chips: &mut [Chip],
    bytes: &[u8],
    part: u8,
    bits: u8,
) -> Result<Acknowledged, Refusal>
    ensures value { (result ≡ (plain_part part chips.old (sent bytes.now bits)).answer) × (plain_numbers (part_of part) result ≡ plain_numbers (part_of part) (plain_part part chips.old (sent bytes.now bits)).answer) }
    ensures chips_after { chips.new ≡ (plain_part part chips.old (sent bytes.now bits)).chips }
{
    let called = starts::address(bytes, bits);
    let found = found(chips, part, called);
    let start = starts::begin(bytes, part, bits, found);
    let tally = follow(chips, bytes, start.turn);
    starts::answer(start.check, tally)
}

// ---- by value, for a caller that has its chips in a local

// As many chips as the smaller part can have on a bus.
#[derive(Clone, Copy)]
pub struct Bench {
    pub chips: [Chip; 16],
    pub count: usize,
}

#[derive(Clone, Copy)]
pub struct BenchTransferred {
    pub answer: Result<Acknowledged, Refusal>,
    pub bench: Bench,
}

// The first `count` chips take part, the others stay.
fn transfer_first(bytes: &[u8], bench: Bench, part: u8, bits: u8) -> BenchTransferred
    requires { bench.count ≤ 16 }
    ensures { result ≡ first_transferred part bench (sent bytes.now bits) }
{
    let count = bench.count;
    let mut chips = bench.chips;
    let answer = transfer(&mut chips[..count], bytes, part, bits);
    BenchTransferred {
        answer,
        bench: Bench { chips, count },
    }
}

// Why more chips than a bench has are refused: 16, 10.
pub fn too_many(part: u8) -> Refusal
    ensures { result ≡ too_many part }
{
    match checks::check_part(part) {
        Err(refusal) => refusal,
        Ok(()) => Refusal::ManyChips,
    }
}

// The same, taken or refused by 16, 10, 11, 1, 2, 19, then 7, 17 and 18.
pub fn transfer_bench(part: u8, bench: Bench, bytes: &[u8], bits: u8) -> BenchTransferred
    ensures value { result ≡ bench_transferred part bench (sent bytes.now bits) }
    ensures answer_value { plain_numbers (part_of part) result.answer ≡ plain_numbers (part_of part) (bench_transferred part bench (sent bytes.now bits)).answer }
{
    if bench.count <= 16 {
        transfer_first(bytes, bench, part, bits)
    } else {
        BenchTransferred {
            answer: Err(too_many(part)),
            bench,
        }
    }
}
