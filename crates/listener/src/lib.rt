// A group as it follows a transfer: position, registers, counts and who acknowledged last, by value and without the RAM.
#![tactic(auto)]

ghost use Rattle.std.specs.Prelude.{◌≡◌, [], ◌<◌, ◌^◌};
ghost use Rattle.sheet.specs.Parts.{part_of};
ghost use Rattle.sheet.specs.Data.{acknowledger};
ghost use Rattle.sheet.specs.Long.{one_acknowledged};
ghost use Rattle.sheet.specs.Runs.{counted_run, last_run};
ghost use Rattle.opening.specs.Opened.{opened_at};
ghost use Rattle.listener.specs.Listeners.{listener_of, obeyed_by, data_end, stepped, ran, ended_by, Countable, Placed, Runs};

use sheet::{Counts, Expect, Kind, Registers};

// The protocol position, with the registers, the counts, and who acknowledged the last data byte.
#[derive(Clone, Copy)]
pub struct Listener {
    pub expect: Expect,
    pub registers: Registers,
    pub counts: Counts,
    pub last: Option<usize>,
}

// After so many bytes that are no data, all of them acknowledged.
pub fn begun(expect: Expect, registers: Registers, acknowledged: usize) -> Listener
    ensures { result ≡ listener_of expect (opened_at acknowledged registers []) }
{
    Listener {
        expect,
        registers,
        counts: Counts {
            acknowledged,
            stored: 0,
            discarded: 0,
        },
        last: None,
    }
}

// Where the data that begins with byte i of n bytes ends: at i, if that byte is no data.
pub fn data_end(expect: Expect, i: usize, n: usize) -> usize
    requires { i < n }
    ensures { result ≡ data_end expect i n }
{
    // by the kind apart: one `match` over both makes the walk take up to 1.1 times as long
    match expect {
        Expect::Control => i,
        Expect::One(kind) => match kind {
            Kind::Command => i,
            Kind::Data => i + 1,
        },
        Expect::All(kind) => match kind {
            Kind::Command => i,
            Kind::Data => n,
        },
    }
}

// One byte more is acknowledged.
fn acknowledged(mut counts: Counts) -> Counts
    requires { counts.acknowledged < 2 ^ 32 }
    ensures { result ≡ one_acknowledged counts }
{
    counts.acknowledged += 1;
    counts
}

// The registers after a byte that is no data: a command is obeyed.
#[tactic(auto, using(command::proofs::Cases::pointer_nibble))]
fn obeyed_by(part: u8, expect: Expect, byte: u8, registers: Registers) -> Registers
    ensures { result ≡ obeyed_by (part_of part) expect byte registers }
{
    if matches!(expect, Expect::Control) {
        registers
    } else {
        command::obey(registers, decode::decode(part, byte))
    }
}

// What n data bytes from column v on count. A byte is acknowledged if all its columns are there; of the first that is cut the columns left are stored.
fn counted(counts: Counts, v: usize, size: usize, m: usize, n: usize) -> Counts
    requires { Countable counts m n }
    ensures { result ≡ counted_run n m v size counts }
{
    let w = arithmetic::width(m);
    let left = arithmetic::columns_from(v, size);
    let whole = left / w;
    if n <= whole {
        Counts {
            acknowledged: counts.acknowledged + n,
            stored: counts.stored + 8 * n,
            discarded: counts.discarded,
        }
    } else {
        let stored = 8 * whole + m * (left % w);
        Counts {
            acknowledged: counts.acknowledged + whole,
            stored: counts.stored + stored,
            discarded: counts.discarded + (8 * n - stored),
        }
    }
}

// Who acknowledges a data byte from column v on: the chip that has its last column.
fn acknowledger(part: u8, v: usize, size: usize, m: usize) -> Option<usize>
    requires { (0 < m) × (v < 2 ^ 32) }
    ensures { result ≡ acknowledger (part_of part) m v size }
{
    let column = v + 7 / m;
    if column < size {
        Some(arithmetic::chip_of(part, column))
    } else {
        None
    }
}

// Who acknowledges the last of n data bytes from column v on; of none, who did before.
fn last_of(
    part: u8,
    earlier: Option<usize>,
    v: usize,
    size: usize,
    m: usize,
    n: usize,
) -> Option<usize>
    requires { Placed v m n }
    ensures { result ≡ last_run (part_of part) n m v size earlier }
{
    if n == 0 {
        earlier
    } else {
        let begins = v + arithmetic::width(m) * (n - 1);
        acknowledger(part, begins, size, m)
    }
}

impl Listener {
    // After a byte that is no data: a control byte, or a command.
    pub fn step(self, part: u8, byte: u8) -> Listener
        requires { self.counts.acknowledged < 2 ^ 32 }
        ensures { result ≡ stepped (part_of part) self byte }
    {
        Listener {
            expect: protocol::follow(self.expect, byte),
            registers: obeyed_by(part, self.expect, byte, self.registers),
            counts: acknowledged(self.counts),
            last: self.last,
        }
    }

    // After a run of n data bytes, `size` columns being there. What follows them does not depend on them.
    pub fn run(self, part: u8, n: usize, size: usize) -> Listener
        requires { Runs (part_of part) self n }
        ensures { result ≡ ran (part_of part) self n size }
    {
        let m = arithmetic::backplanes(self.registers);
        let v = arithmetic::position(part, self.registers);
        let after = v + arithmetic::width(m) * n;
        Listener {
            expect: protocol::follow(self.expect, 0),
            registers: arithmetic::at_position(part, self.registers, after),
            counts: counted(self.counts, v, size, m, n),
            last: last_of(part, self.last, v, size, m, n),
        }
    }

    // After the last whole byte of a transfer: a data byte that is cut makes pointer and counter unknown.
    pub fn end(self, cut: bool) -> Listener
        ensures { result ≡ ended_by cut self }
    {
        Listener {
            registers: registers::lose(cut & protocol::is_data(self.expect), self.registers),
            ..self
        }
    }
}
