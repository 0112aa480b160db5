// RAM images for the glass maker: a group's RAM to Intel HEX, and back (paper 02, request 13).
#![tactic(auto)]

ghost use Rattle.std.specs.Prelude.{◌≡◌, ◌+◌, ◌*◌, ◌/◌, ◌≤◌, ◌<◌, length, drop, replicate};
ghost use Rattle.sheet.specs.Refusals.{written_numbers};
ghost use Rattle.image_sheet.specs.Hex.{data_lines, file_of, one_group, hex_write_part};
ghost use Rattle.image_sheet.specs.Images.{image, missing_in, ended, image_from, check_file, hex_read_part};
ghost use Rattle.text.specs.Texts.{Puts};
ghost use Rattle.image.specs.Room.{Room};

use groups::Bus;
use hexrecord::Step;
use sheet::{Chips, Refusal};

// The chips of one group, of which there is no other.
fn one_group(chips: u8) -> Chips
    ensures { result ≡ one_group chips }
{
    Chips {
        zero: chips,
        one: 0,
    }
}

// ---- a file is written

// The data records of whole sixteens of columns.
fn put_data(out: &mut [u8], ram: &[u8]) -> usize
    requires { Room ram.now (data_lines ((length ram.now + 15) / 16) 0 ram.now) out.old }
    ensures { Puts 0 (data_lines ((length ram.now + 15) / 16) 0 ram.now) out.old out.new result }
{
    let mut place = 0;
    for i in 0..ram.len() / 16 {
        let address = 16 * i;
        let end = address + 16;
        place = hexrecord::put_record(out, place, 0, address, &ram[address..end]);
    }
    place
}

// They and the end record.
fn put_file(out: &mut [u8], ram: &[u8]) -> usize
    requires { Room ram.now (file_of ram.now) out.old }
    ensures { Puts 0 (file_of ram.now) out.old out.new result }
{
    let end = put_data(out, ram);
    hexrecord::put_record(out, end, 1, 0, &ram[..0])
}

// How long a file of so many columns is: two digits a column, and twelve characters a record.
fn file_size(columns: usize) -> usize
    requires { columns < 65536 }
    ensures { result ≡ 2 * columns + 12 * ((columns + 15) / 16) + 12 }
{
    2 * columns + 12 * ((columns + 15) / 16) + 12
}

// A group's RAM as Intel HEX, at the start of `out`, whose other bytes stay.
// Refused by 16, 3, 4, 5, then 9 for an output shorter than the file.
pub fn write(part: u8, chips: u8, ram: &[u8], out: &mut [u8]) -> Result<usize, Refusal>
    ensures out_after { record { result = result; out = out.new } ≡ hex_write_part part chips ram.now out.old }
    ensures result_value { written_numbers result ≡ written_numbers (hex_write_part part chips ram.now out.old).result }
{
    let bus = Bus {
        part,
        chips: one_group(chips),
        packed: false,
    };
    refused::check_power_on(&bus, ram)?;
    let size = file_size(ram.len());
    if out.len() < size {
        return Err(Refusal::OutputLength);
    }
    put_file(out, ram);
    Ok(size)
}

// ---- a file is read

// 26: where no record gave a column, it is over 15.
fn first_missing(given: &[u8]) -> Result<(), Refusal>
    ensures { result ≡ missing_in 0 given.now }
{
    let place = checks::search_over(given);
    checks::unless(place == given.len(), Refusal::AddressMissing(place))
}

// After the end record: 27, then 26.
fn finish(file: &[u8], given: &[u8], end: usize) -> Result<(), Refusal>
    ensures { result ≡ (ended given.now (drop end file.now)).check }
{
    if end < file.len() {
        Err(Refusal::NoEnd)
    } else {
        first_missing(given)
    }
}

// All records; what they give is in `given` afterwards, up to the first that is refused.
fn read_records(file: &[u8], given: &mut [u8]) -> Result<(), Refusal>
    requires { length file.now ≤ 65536 }
    ensures { image result given.new ≡ image_from 0 given.old file.now }
{
    let mut at = 0;
    // a record says where the next one begins, which no `for` goes by
    while at < file.len() {
        let step = hexrecord::read_record(file, given, at)?;
        match step {
            Step::Next(next) => at = next,
            Step::Last(end) => return finish(file, given, end),
        }
    }
    Err(Refusal::NoEnd)
}

// 16, 3, 14, 4.
#[tactic(auto, unfolding(image_sheet::specs::Images::check_file))]
fn check_file(part: u8, chips: u8, file: usize, out: usize) -> Result<(), Refusal>
    ensures { result ≡ check_file part chips file out }
{
    checks::check_part(part)?;
    checks::check_chips(part, one_group(chips))?;
    checks::unless(file <= 65536, Refusal::LongLog)?;
    checks::unless(
        out == arithmetic::columns_in(part, chips as u16),
        Refusal::RamLength,
    )
}

// No column is given yet.
fn none_given() -> [u8; 640]
    ensures { result ≡ replicate 640 16 }
{
    [16; 640]
}

// A group's RAM from Intel HEX. What the records give is kept apart until the last of them is checked, so that a refused file changes nothing.
// Refused by 16, 3, 14, 4, by the first faulty record (21 to 25, then 5), by 27, then 26.
pub fn read(part: u8, chips: u8, file: &[u8], ram: &mut [u8]) -> Result<usize, Refusal>
    ensures ram_after { record { result = result; out = ram.new } ≡ hex_read_part part chips file.now ram.old }
    ensures result_value { written_numbers result ≡ written_numbers (hex_read_part part chips file.now ram.old).result }
{
    check_file(part, chips, file.len(), ram.len())?;
    let mut given = none_given();
    let size = ram.len();
    read_records(file, &mut given[..size])?;
    ram.copy_from_slice(&given[..size]);
    Ok(size)
}
