// What a group shows at a blink phase: nothing, or the rows of a bank.
#![tactic(auto)]

ghost use Rattle.std.specs.Prelude.{◌≡◌, cond, ◌-◌};
ghost use Rattle.sheet.specs.Pictures.{shown};

use sheet::Registers;

// The bank that is shown: the group's own, or the other one.
fn bank_shown(o: u8, other: bool) -> u8
    ensures { result ≡ cond other (1 - o) o }
{
    if other { if o == 0 { 1 } else { 0 } } else { o }
}

// What a group shows at a blink phase.
pub fn shown(registers: Registers, phase: u8) -> Option<usize>
    ensures { result ≡ shown registers phase }
{
    let m = arithmetic::backplanes(registers);
    let blinked = (registers.bf != 0) & (phase == 1);
    if (registers.e == 0) | (blinked & ((registers.ab == 0) | (2 < m))) {
        return None;
    }
    Some(arithmetic::bank_row(m, bank_shown(registers.o, blinked)))
}
