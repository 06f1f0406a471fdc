//! The published example of the permutation.

ghost use Rattle.sycon.specs.Permutation.{permuted};
ghost use Rattle.sycon.specs.Published.{example, string};
ghost use Rattle.std.specs.Prelude.{◌≡◌};

use super::engine::StateBytes;

/// The published string: what 14 rounds make of 20 bytes 00 followed by 20 bytes AA.
pub fn published_state() -> StateBytes
    ensures { result ≡ permuted 14 example }
{
    example_stands();
    [
        0x31, 0xDE, 0xD5, 0x02, 0xD8, 0x55, 0x27, 0xB0, 0x73, 0x57, 0xD8, 0xE2, 0xBF, 0xA2, 0xAA,
        0x39, 0xDE, 0xD0, 0x03, 0xA4, 0xD9, 0x11, 0x13, 0x1F, 0xBC, 0x9A, 0x5B, 0xA1, 0x56, 0x18,
        0xC4, 0x64, 0xF2, 0x3A, 0xD5, 0x9E, 0xC3, 0xF5, 0xF7, 0x2B,
    ]
}

// The definition, computed on the example.
fn example_stands()
    ensures { permuted 14 example ≡ string }
{}
