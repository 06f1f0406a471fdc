//! Worked examples of the definitions.

ghost use Rattle.sycon.specs.Examples.{Worked, alone, written};
ghost use Rattle.sycon.specs.Permutation.{arranged, diffused, sbox};
ghost use Rattle.sycon.specs.Steps.{pl2};
ghost use Rattle.std.specs.Prelude.{◌≡◌, [], ◌∷◌, slice_index};

/// What the steps of a round make of a few values. Words are written with their first bit as the highest.
#[derive(Clone, Copy)]
pub struct Examples {
    /// The S-box at 0, 1, 16 and 31.
    pub substituted: [u8; 4],
    /// Entries 0 to 4 and 319 of step 4 as a list of bits.
    pub origins: [u16; 6],
    /// A_0 after the diffusion, where it was 1.
    pub diffused_word: u64,
    /// A_1 after step 4, where it was hex 8000000000000000.
    pub arranged_word: u64,
}

/// The values, each as the definitions give it.
pub fn worked_examples() -> Examples
    ensures worked { Worked }
    ensures substituted { result.substituted ≡ slice_index sbox 0 ∷ slice_index sbox 1 ∷ slice_index sbox 16 ∷ slice_index sbox 31 ∷ [] }
    ensures origins { result.origins ≡ pl2 0 ∷ pl2 1 ∷ pl2 2 ∷ pl2 3 ∷ pl2 4 ∷ pl2 319 ∷ [] }
    ensures diffused { result.diffused_word ≡ written (diffused (alone 0 1)) 0 }
    ensures arranged { result.arranged_word ≡ written (arranged (alone 1 0x8000000000000000)) 1 }
{
    examples_stand();
    Examples {
        substituted: [8, 19, 11, 5],
        origins: [51, 68, 178, 215, 285, 300],
        diffused_word: 0x0000_0000_0040_0801,
        arranged_word: 0x0000_0800_0000_0000,
    }
}

// The definitions, computed on the examples.
fn examples_stand()
    ensures { Worked }
{}
