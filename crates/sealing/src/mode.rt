//! The modes: sealing, opening, digest.

ghost use Rattle.std.specs.Prelude.{◌≡◌, length};

pub mod digest;
pub mod open;
pub mod seal;
pub mod under;

// Byte by byte: of a length that is known only at run time `copy_from_slice` is `memmove`, which a C program would have to bring.
fn copy(from: &[u8], to: &mut [u8])
    requires { length from.now ≡ length to.old }
    ensures { to.new ≡ from.now }
{
    for (i, x) in from.iter().enumerate() {
        to[i] = *x;
    }
}
