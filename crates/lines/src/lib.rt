// The lines of a replay's text, each written into a lent buffer at a place.
#![tactic(auto)]

ghost use Rattle.std.specs.Prelude.{◌+◌, ◌≤◌, length};
ghost use Rattle.log_sheet.specs.Logs.{seen_line, column_line, column_lines, refusal_line};
ghost use Rattle.lines.specs.Numbered.{numbered_line, numbered_lines};
ghost use Rattle.text.specs.Texts.{Puts};

use sheet::Refusal;

// A transfer's line: its number in the log, and what it was answered.
fn put_transfer(out: &mut [u8], at: usize, index: usize, said: [usize; 6]) -> usize
    requires { at + length (numbered_line index said) ≤ length out.old }
    ensures { Puts at (numbered_line index said) out.old out.new result }
{
    text::put_line(
        out,
        at,
        b'T',
        &[index, said[0], said[1], said[2], said[3], said[4], said[5]],
    )
}

// The line of what the analyser saw, if it differs from what the model has.
fn put_seen(out: &mut [u8], at: usize, index: usize, seen: usize, modelled: usize) -> usize
    requires { at + length (seen_line index seen modelled) ≤ length out.old }
    ensures { Puts at (seen_line index seen modelled) out.old out.new result }
{
    if seen == modelled {
        at
    } else {
        text::put_line(out, at, b'A', &[index, seen, modelled])
    }
}

// A record's lines: the transfer's, and what was seen, if bodies have `seen` bytes for that.
pub fn put_record(
    out: &mut [u8],
    at: usize,
    seen: usize,
    index: usize,
    count: usize,
    said: [usize; 6],
) -> usize
    requires { at + length (numbered_lines seen index count said) ≤ length out.old }
    ensures { Puts at (numbered_lines seen index count said) out.old out.new result }
{
    let after = put_transfer(out, at, index, said);
    if seen == 0 {
        after
    } else {
        put_seen(out, after, index, count, said[2])
    }
}

// A column's line, if it is lit.
fn put_column(out: &mut [u8], at: usize, group: usize, column: usize, value: u8) -> usize
    requires { at + length (column_line group column value) ≤ length out.old }
    ensures { Puts at (column_line group column value) out.old out.new result }
{
    if value == 0 {
        at
    } else {
        text::put_line(out, at, b'S', &[group, column, value as usize])
    }
}

// The lines of a picture's lit columns.
pub fn put_columns(out: &mut [u8], at: usize, group: usize, picture: &[u8]) -> usize
    requires { at + length (column_lines group 0 picture.now) ≤ length out.old }
    ensures { Puts at (column_lines group 0 picture.now) out.old out.new result }
{
    let mut place = at;
    for (i, value) in picture.iter().enumerate() {
        place = put_column(out, place, group, i, *value);
    }
    place
}

// The line of a log that is refused.
pub fn put_refusal(out: &mut [u8], refusal: Refusal) -> usize
    requires { length (refusal_line refusal) ≤ length out.old }
    ensures { Puts 0 (refusal_line refusal) out.old out.new result }
{
    text::put_line(
        out,
        0,
        b'X',
        &[answers::number_of(refusal), answers::place_of(refusal)],
    )
}
