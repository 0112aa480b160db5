// Bytes from one buffer to another.
#![tactic(auto)]

ghost use Rattle.std.specs.Prelude.{◌≡◌, length};

pub fn copy(from: &[u8], to: &mut [u8])
    requires { length to.old ≡ length from.now }
    ensures { to.new ≡ from.now }
{
    // by `copy_from_slice` the archive would need memmove of the C library too, and it is to need memcpy and memset alone
    for i in 0..from.len() {
        to[i] = from[i];
    }
}
