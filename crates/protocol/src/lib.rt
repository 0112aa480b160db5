// The bytes of a transfer after its address: what each is, and the first that is refused.
#![tactic(auto)]

ghost use Rattle.std.specs.Prelude.{◌≡◌, cond, ◌≤◌, ◌<◌, length, drop, Ok};
ghost use Rattle.sheet.specs.Parts.{part_of};
ghost use Rattle.sheet.specs.Protocol.{kind_of, control_of, next, sent, is_data};
ghost use Rattle.sheet.specs.declared.Refusal.TheVariants.{UnknownPlace};
ghost use Rattle.sheet.specs.Registers.{known};
ghost use Rattle.sheet.specs.Checks.{unless, fault, marks_after, last_fault, fault_in, fault_of_sent};
ghost use Rattle.protocol.specs.Kinds.{kind};
ghost use Rattle.protocol.specs.Left.{only_left, undefined_in, all_defined};

use sheet::{Expect, Kind, Marks, Refusal};

// ---- what a byte is

// The kind of what follows a control byte: its RS.
fn kind_of(byte: u8) -> Kind
    ensures { result ≡ kind_of byte }
{
    if byte / 64 % 2 == 1 {
        Kind::Data
    } else {
        Kind::Command
    }
}

// What follows a control byte, by its Co.
fn after_control(byte: u8) -> Expect
    ensures { result ≡ control_of byte }
{
    let kind = kind_of(byte);
    if byte / 128 % 2 == 1 {
        Expect::One(kind)
    } else {
        Expect::All(kind)
    }
}

// What follows a byte.
pub fn follow(expect: Expect, byte: u8) -> Expect
    ensures { result ≡ next expect byte }
{
    match expect {
        Expect::Control => after_control(byte),
        Expect::One(_) => Expect::Control,
        Expect::All(kind) => Expect::All(kind),
    }
}

// The kind of the next byte: none of a control byte.
pub fn kind(expect: Expect) -> Option<Kind>
    ensures { result ≡ kind expect }
{
    match expect {
        Expect::Control => None,
        Expect::One(kind) | Expect::All(kind) => Some(kind),
    }
}

// Whether the next byte is data.
pub fn is_data(expect: Expect) -> bool
    ensures { result ≡ is_data expect }
{
    matches!(expect, Expect::One(Kind::Data) | Expect::All(Kind::Data))
}

// ---- the first fault

// The fault of a byte at place i.
fn fault(part: u8, marks: Marks, expect: Expect, i: usize, byte: u8) -> Result<(), Refusal>
    ensures { result ≡ fault (part_of part) marks expect i byte }
{
    match kind(expect) {
        None => checks::unless(byte % 64 == 0, Refusal::StrayBits(i)),
        Some(Kind::Command) => checks::unless(
            decode::is_defined(part, byte),
            Refusal::UndefinedCommand(i),
        ),
        Some(Kind::Data) => checks::unless(registers::all_known(marks), Refusal::UnknownPlace(i)),
    }
}

// The marks after a byte: only a command changes them.
fn marks_after(part: u8, marks: Marks, expect: Expect, byte: u8) -> Marks
    ensures { result ≡ marks_after (part_of part) marks expect byte }
{
    match kind(expect) {
        Some(Kind::Command) => command::restore(part, marks, byte),
        None | Some(Kind::Data) => marks,
    }
}

// The fault of a byte that is cut, if there is one.
fn last_fault(cut: bool, marks: Marks, expect: Expect, i: usize) -> Result<(), Refusal>
    ensures { result ≡ last_fault cut marks expect i }
{
    if cut & is_data(expect) {
        checks::unless(registers::all_known(marks), Refusal::UnknownPlace(i))
    } else {
        Ok(())
    }
}

// Whether all bytes that are left are data, or are commands: while nothing is unknown there is no fault in data, and in commands none but one that is none.
fn only(of_data: bool, expect: Expect) -> bool
    ensures { result ≡ only_left of_data expect }
{
    match expect {
        Expect::Control | Expect::One(_) => false,
        Expect::All(kind) => matches!(kind, Kind::Data) == of_data,
    }
}

// Whether all of some bytes are commands. No branch leaves the loop, so that many are looked at at once.
fn all_defined(part: u8, commands: &[u8]) -> bool
    ensures { result ≡ all_defined (part_of part) commands.now }
{
    let mut found = true;
    for command in commands {
        found = found & decode::is_defined(part, *command);
    }
    found
}

// The place after the first blocks of 64 bytes, from a place on, that are all commands.
fn after_defined(part: u8, bytes: &[u8], from: usize) -> usize
    requires { from ≤ length bytes.now }
    ensures { (undefined_in (part_of part) result (drop result bytes.now) ≡ undefined_in (part_of part) from (drop from bytes.now)) × (result ≤ length bytes.now) }
{
    let mut i = from;
    // the place is the answer: `chunks_exact` would want it counted beside the blocks
    while 64 <= bytes.len() - i {
        let end = i + 64;
        if all_defined(part, &bytes[i..end]) {
            i = end;
        } else {
            return i;
        }
    }
    i
}

// The first byte, from a place on, that is no command.
fn undefined_from(part: u8, bytes: &[u8], from: usize) -> Result<(), Refusal>
    requires { from ≤ length bytes.now }
    ensures { result ≡ undefined_in (part_of part) from (drop from bytes.now) }
{
    for i in after_defined(part, bytes, from)..bytes.len() {
        if !decode::is_defined(part, bytes[i]) {
            return Err(Refusal::UndefinedCommand(i));
        }
    }
    Ok(())
}

// The first fault of whole bytes, from the control byte at a place on, and of one that is cut after them.
fn fault_in(part: u8, cut: bool, initial: Marks, bytes: &[u8], from: usize) -> Result<(), Refusal>
    ensures { result ≡ fault_in (part_of part) cut initial Expect.Control from (drop from bytes.now) }
{
    let mut expect = Expect::Control;
    let mut marks = initial;
    for i in from..bytes.len() {
        let byte = bytes[i];
        if let Err(refusal) = fault(part, marks, expect, i, byte) {
            return Err(refusal);
        }
        marks = marks_after(part, marks, expect, byte);
        expect = follow(expect, byte);
        if only(true, expect) & registers::all_known(marks) {
            return Ok(());
        }
        if only(false, expect) {
            return undefined_from(part, bytes, i + 1);
        }
    }
    last_fault(cut, marks, expect, from.max(bytes.len()))
}

// The first fault of a transfer to chips with these marks. Nothing is changed.
pub fn first_fault(part: u8, marks: Marks, bytes: &[u8], bits: u8) -> Result<(), Refusal>
    ensures { result ≡ fault_of_sent (part_of part) marks (sent bytes.now bits) }
{
    let whole = checks::whole_count(bytes.len(), bits);
    fault_in(part, bits < 8, marks, &bytes[..whole], 1)
}

// The fault of a run of data from place i to the end, of which a byte came, whole or cut: its place, while a mark is unknown.
fn run_fault(came: bool, marks: Marks, i: usize) -> Result<(), Refusal>
    ensures { result ≡ cond came (unless (known marks) (UnknownPlace i)) (Ok tt) }
{
    if came {
        checks::unless(registers::all_known(marks), Refusal::UnknownPlace(i))
    } else {
        Ok(())
    }
}

// The first fault of what is left of a transfer from a control byte on: mostly a run of data, which has one place to look at.
pub fn fault_from(
    part: u8,
    cut: bool,
    marks: Marks,
    bytes: &[u8],
    from: usize,
) -> Result<(), Refusal>
    requires { from < length bytes.now }
    ensures { result ≡ fault_in (part_of part) cut marks Expect.Control from (drop from bytes.now) }
{
    let control = bytes[from];
    if control == 0x40 {
        let i = from + 1;
        return run_fault((i < bytes.len()) | cut, marks, i);
    }
    if control % 64 == 0 {
        // by its fields, so that the registers that it is one of stay out of memory
        let initial = Marks {
            high: marks.high,
            low: marks.low,
            device: marks.device,
        };
        fault_in(part, cut, initial, bytes, from)
    } else {
        Err(Refusal::StrayBits(from))
    }
}
