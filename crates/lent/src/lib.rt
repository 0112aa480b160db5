// A transfer to chips that C lends as bytes, 174 a chip.
#![tactic(auto)]

ghost use Rattle.std.specs.Prelude.{◌≡◌, ◌%◌, length};
ghost use Rattle.sheet.specs.Protocol.{sent};
ghost use Rattle.lent.specs.Lent.{Few, lent_call};

use sheet::{Acknowledged, Refusal};

// Of at most sixteen chips: they are read, follow the transfer, and are written if it is taken.
fn transfer_few(part: u8, chips: &mut [u8], bytes: &[u8], bits: u8) -> Result<Acknowledged, Refusal>
    requires { Few chips.old }
    ensures { lent_call part chips.old (sent bytes.now bits) ≡ record { answer = result; chips = chips.new } }
{
    let before = wire::bench_of(chips, chips.len() / 174);
    let done = plain::transfer_bench(part, before, bytes, bits);
    let said = done.answer?;
    wire::put_bench(done.bench, chips);
    Ok(said)
}

// More than sixteen are refused, and no byte is written.
#[tactic(auto, using(crate::proofs::Benches::refused_many))]
pub fn transfer(part: u8, chips: &mut [u8], bytes: &[u8], bits: u8) -> Result<Acknowledged, Refusal>
    requires { length chips.old % 174 ≡ 0 }
    ensures { lent_call part chips.old (sent bytes.now bits) ≡ record { answer = result; chips = chips.new } }
{
    if chips.len() / 174 <= 16 {
        transfer_few(part, chips, bytes, bits)
    } else {
        Err(plain::too_many(part))
    }
}
