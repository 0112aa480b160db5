// Registers, chips and answers in the buffers that C lends. Registers are twelve bytes a group, in the order E B M P A I O AB BF and the marks of pointer high, pointer low and device-select;
// a chip is 174 bytes: its 160 columns, SA0, subaddress and twelve registers; an answer is six numbers.
#![tactic(auto)]

ghost use Rattle.std.specs.Prelude.{◌≡◌, ◌*◌, ◌≤◌, ◌<◌, length, get_or, take};
ghost use Rattle.wire.specs.Benches.{Holds};
ghost use Rattle.wire.specs.Bytes.{registers_in, both_of, bytes_of, both_bytes, chip_in, chip_bytes, list_in, list_bytes};

use plain::Bench;
use sheet::{Both, Chip, Marks, Registers};

// ---- registers

// A group's registers, from its 12 bytes.
pub fn registers_of(bytes: &[u8]) -> Registers
    requires { length bytes.now ≡ 12 }
    ensures { result ≡ registers_in bytes.now }
{
    Registers {
        e: bytes[0],
        b: bytes[1],
        m: bytes[2],
        p: bytes[3] as usize,
        a: bytes[4] as usize,
        i: bytes[5],
        o: bytes[6],
        ab: bytes[7],
        bf: bytes[8],
        unknown: Marks {
            high: bytes[9],
            low: bytes[10],
            device: bytes[11],
        },
    }
}

// Both register sets, from 24 bytes.
pub fn both_of(bytes: &[u8]) -> Both
    requires { length bytes.now ≡ 24 }
    ensures { result ≡ both_of bytes.now }
{
    Both {
        zero: registers_of(&bytes[..12]),
        one: registers_of(&bytes[12..]),
    }
}

// A group's registers, into its 12 bytes.
pub fn put_registers(registers: Registers, out: &mut [u8])
    requires { length out.old ≡ 12 }
    ensures { out.new ≡ bytes_of registers }
{
    let unknown = registers.unknown;
    out[0] = registers.e;
    out[1] = registers.b;
    out[2] = registers.m;
    out[3] = (registers.p % 256) as u8;
    out[4] = (registers.a % 256) as u8;
    out[5] = registers.i;
    out[6] = registers.o;
    out[7] = registers.ab;
    out[8] = registers.bf;
    out[9] = unknown.high;
    out[10] = unknown.low;
    out[11] = unknown.device;
}

// Both register sets, into 24 bytes.
pub fn put_both(registers: Both, out: &mut [u8])
    requires { length out.old ≡ 24 }
    ensures { out.new ≡ both_bytes registers }
{
    put_registers(registers.zero, &mut out[..12]);
    put_registers(registers.one, &mut out[12..]);
}

// ---- chips

// A chip, from 174 bytes.
pub fn chip_of(bytes: &[u8]) -> Chip
    requires { length bytes.now ≡ 174 }
    ensures { result ≡ chip_in bytes.now }
{
    let mut columns = [0; 160];
    columns.copy_from_slice(&bytes[..160]);
    Chip {
        columns,
        sa0: bytes[160],
        subaddress: bytes[161],
        registers: registers_of(&bytes[162..]),
    }
}

// A chip, into 174 bytes.
pub fn put_chip(chip: Chip, out: &mut [u8])
    requires { length out.old ≡ 174 }
    ensures { out.new ≡ chip_bytes chip }
{
    let columns = chip.columns;
    let registers = chip.registers;
    out[..160].copy_from_slice(&columns);
    put_registers(registers, &mut out[162..]);
    out[160] = chip.sa0;
    out[161] = chip.subaddress;
}

// The chips of a list of at most sixteen; the places after them are not looked at.
pub fn bench_of(bytes: &[u8], count: usize) -> Bench
    requires { (length bytes.now ≡ 174 * count) × (count ≤ 16) }
    ensures { Holds count (list_in count bytes.now) result }
{
    let mut chips = [chip_of(&[0; 174]); 16];
    for i in 0..count {
        let at = 174 * i;
        chips[i] = chip_of(&bytes[at..at + 174]);
    }
    Bench { chips, count }
}

// The chips of a bench, into 174 bytes each.
pub fn put_bench(bench: Bench, out: &mut [u8])
    requires { (length out.old ≡ 174 * bench.count) × (bench.count ≤ 16) × (length bench.chips ≡ 16) }
    ensures { out.new ≡ list_bytes (take bench.count bench.chips) }
{
    let chips = bench.chips;
    let count = bench.count;
    for i in 0..count {
        let at = 174 * i;
        put_chip(chips[i], &mut out[at..at + 174]);
    }
}

// ---- answers

// Six numbers; the first is returned too.
pub fn put_numbers(numbers: [usize; 6], out: &mut [usize]) -> u8
    requires { (length out.old ≡ 6) × (get_or numbers 0 0 < 256) }
    ensures value { result ≡ get_or numbers 0 0 }
    ensures out_after { out.new ≡ numbers }
{
    out.copy_from_slice(&numbers);
    numbers[0] as u8
}
