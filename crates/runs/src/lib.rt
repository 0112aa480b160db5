// A run of data bytes into a group's columns, a byte each or packed: the bytes whose columns are all there, and the one that is cut.
#![tactic(auto)]

ghost use Rattle.std.specs.Prelude.{◌≡◌, ◌<◌, length};
ghost use Rattle.sheet.specs.Parts.{part_of};
ghost use Rattle.sheet.specs.Registers.{bank_row};
ghost use Rattle.sheet.specs.Runs.{put_run, written_by};
ghost use Rattle.packed_sheet.specs.Packed.{columns_in};
ghost use Rattle.ram.specs.Writes.{Whole, Cut};
ghost use Rattle.runs.specs.Asks.{Run, Writable};

use sheet::Registers;

// Bytes whose columns are all there.
pub fn whole_bytes(ram: &mut [u8], packed: bool, v: usize, m: usize, bank: u8, bytes: &[u8])
    requires { Whole (columns_in packed ram.old) v m bank bytes.now × (length ram.old < 65536) }
    ensures { columns_in packed ram.new ≡ put_run m (bank_row m bank) v bytes.now (columns_in packed ram.old) }
{
    if packed {
        packed_ram::whole_bytes(ram, v, m, bank, bytes)
    } else {
        ram::whole_bytes(ram, v, m, bank, bytes)
    }
}

// Of the bytes that do not fit, only the first has columns left.
fn cut_byte(ram: &mut [u8], packed: bool, at: usize, m: usize, bank: u8, rest: &[u8])
    requires { Cut (columns_in packed ram.old) at m bank rest.now }
    ensures { columns_in packed ram.new ≡ put_run m (bank_row m bank) at rest.now (columns_in packed ram.old) }
{
    if packed {
        packed_ram::cut_byte(ram, at, m, bank, rest)
    } else {
        ram::cut_byte(ram, at, m, bank, rest)
    }
}

// Writes a run from column v on: the bytes that fit, and of the others the columns left.
pub fn put_run(ram: &mut [u8], packed: bool, v: usize, m: usize, bank: u8, bytes: &[u8])
    requires { Run (columns_in packed ram.old) v m bank bytes.now }
    ensures { columns_in packed ram.new ≡ put_run m (bank_row m bank) v bytes.now (columns_in packed ram.old) }
{
    let w = arithmetic::width(m);
    let left = arithmetic::columns_from(v, arithmetic::columns_held(ram.len(), packed));
    let whole = arithmetic::least(bytes.len(), left / w);
    whole_bytes(ram, packed, v, m, bank, &bytes[..whole]);
    cut_byte(ram, packed, v + w * whole, m, bank, &bytes[whole..]);
}

// Writes a run of data bytes from where the registers point, in their mode and input bank.
pub fn write(part: u8, ram: &mut [u8], packed: bool, registers: Registers, bytes: &[u8])
    requires { Writable (part_of part) (columns_in packed ram.old) registers bytes.now }
    ensures { columns_in packed ram.new ≡ written_by (part_of part) registers bytes.now (columns_in packed ram.old) }
{
    let m = arithmetic::backplanes(registers);
    let v = arithmetic::position(part, registers);
    put_run(ram, packed, v, m, registers.i, bytes);
}
