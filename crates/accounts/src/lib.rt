// DEMAND 3 OVER THE RUNNING CODE: both accounts take the same transfer, and their contracts say that they agree.
#![tactic(auto)]

ghost use Rattle.std.specs.Prelude.{◌≡◌};
ghost use Rattle.sheet.specs.Protocol.{sent};
ghost use Rattle.sheet.specs.Long.{transfer_part};
ghost use Rattle.plain.specs.Benches.{bench_transferred};
ghost use Rattle.accounts.specs.Alike.{Alike, Agreed};

use groups::Bus;
use plain::{Bench, BenchTransferred};
use sheet::{Both, Chips, Transferred};

#[derive(Clone, Copy)]
pub struct Sides {
    pub long: Transferred,
    pub plain: BenchTransferred,
}

// The bench holds the chips of the long state, before and after. It asks for that, since it is a statement and no way in.
pub fn side_by_side(
    part: u8,
    chips: Chips,
    registers: Both,
    ram: &mut [u8],
    bytes: &[u8],
    bits: u8,
    bench: Bench,
) -> Sides
    requires { Alike part chips registers ram.old bench }
    ensures ram_after { record { result = result.long; ram = ram.new } ≡ transfer_part part chips registers ram.old (sent bytes.now bits) }
    ensures plain_value { result.plain ≡ bench_transferred part bench (sent bytes.now bits) }
    ensures agreed { Agreed part chips ram.new result }
{
    let plain = plain::transfer_bench(part, bench, bytes, bits);
    let bus = Bus {
        part,
        chips,
        packed: false,
    };
    let long = long::transfer(bus, registers, ram, bytes, bits);
    Sides { long, plain }
}
