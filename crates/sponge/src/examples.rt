//! Worked examples of padding and of the key's blocks.

ghost use Rattle.sponge.specs.Blocks.{blocks, padded};
ghost use Rattle.sponge.specs.Examples.{Worked};
ghost use Rattle.sponge.specs.Modes.{key_blocks};
ghost use Rattle.sycon.specs.Examples.{written};
ghost use Rattle.sycon.specs.Permutation.{bits};
ghost use Rattle.std.specs.Prelude.{◌≡◌, ℕ, List, [], ◌∷◌, ◌++◌, length, take, drop, replicate};

/// What padding makes of short texts and of a key.
#[derive(Clone, Copy)]
pub struct Examples {
    /// The one block of an empty text, at 8 bytes.
    pub empty_block: [u8; 8],
    /// The same block as a word, with its first bit as the highest.
    pub empty_word: u64,
    /// How many bytes a text of 8 bytes pads to, at 8 bytes.
    pub eight_padded: usize,
    /// The second block of the key, at 12 bytes.
    pub key_block: [u8; 12],
}

/// The values, each as the definitions give it.
pub fn worked_examples(key: &[u8; 16]) -> Examples
    ensures worked { Worked }
    ensures empty { blocks 8 [] ≡ result.empty_block ∷ [] }
    ensures word { written (bits result.empty_block) 0 ≡ result.empty_word }
    ensures eight { (xs : List ℕ) → length xs ≡ 8 → length (padded 8 xs) ≡ result.eight_padded }
    ensures key { key_blocks 12 key.now ≡ take 12 key.now ∷ result.key_block ∷ [] }
{
    examples_stand();
    Examples {
        empty_block: [1, 0, 0, 0, 0, 0, 0, 0],
        empty_word: 0x8000_0000_0000_0000,
        eight_padded: 16,
        key_block: second_block(key),
    }
}

// The definitions, computed on the examples.
fn examples_stand()
    ensures { Worked }
{}

// The key's last four bytes, and the padding behind them.
fn second_block(key: &[u8; 16]) -> [u8; 12]
    ensures { result ≡ drop 12 key.now ++ 1 ∷ replicate 7 0 }
{
    let mut block = [0u8; 12];
    block[4] = 1;
    block[0..4].copy_from_slice(&key[12..16]);
    block
}
