//! One word as a row of 64 columns: column c is its bit c.

ghost use Rattle.std.specs.Prelude.{◌≡◌, ℕ, ◌+◌, ◌*◌, ◌/◌, ◌%◌, ◌^◌, ◌<◌, ◌≢◌};
ghost use Rattle.sycon.specs.Permutation.{bit, bits, first_rotation, of_word, second_rotation};
ghost use Rattle.sycon.specs.Steps.{spread};

use sycon::engine::StateBytes;

pub mod words;

// The amounts of the two rotations that step 2 XORs into a word.
#[derive(Clone, Copy)]
struct Rotations(u32, u32);

const ROTATIONS: [Rotations; 5] = [
    Rotations(11, 22),
    Rotations(13, 26),
    Rotations(31, 62),
    Rotations(56, 60),
    Rotations(6, 12),
];

impl Rotations {
    // Those of word j.
    fn of_word(j: usize) -> Self
        requires { j < 5 }
        ensures first { result.0 ≡ of_word first_rotation j }
        ensures second { result.1 ≡ of_word second_rotation j }
    {
        ROTATIONS[j]
    }

    fn times(self, m: u32) -> Self
        requires first { m * self.0 < 2 ^ 32 }
        requires second { m * self.1 < 2 ^ 32 }
        ensures first { result.0 ≡ m * self.0 }
        ensures second { result.1 ≡ m * self.1 }
    {
        Rotations(m * self.0, m * self.1)
    }

    // The word XORed with two left rotations of its row. Column 0 stands first in a row and is the lowest bit of the
    // number, so the number rotates to the right.
    fn spread(self, x: u64) -> u64
        ensures { (c : ℕ) → c < 64 → bit result c ≡ spread (bit x) self.0 self.1 c }
    {
        x ^ x.rotate_right(self.0) ^ x.rotate_right(self.1)
    }

    // The word that `spread` takes to `x`. That map done twice is the same map with both amounts doubled, since the terms
    // with both rotations cancel; so 64 times it is the identity, and 63 times it takes itself back.
    fn spread_back(self, x: u64) -> u64
        requires first { self.0 < 64 }
        requires second { self.1 < 64 }
        ensures { (c : ℕ) → c < 64 → spread (bit result) self.0 self.1 c ≡ bit x c }
    {
        let mut row = x;
        for m in [32, 16, 8, 4, 2, 1] {
            row = self.times(m).spread(row);
        }
        row
    }
}

// Word j of a state.
fn load(bytes: &StateBytes, j: usize) -> u64
    requires { j < 5 }
    ensures { (c : ℕ) → c < 64 → bit result c ≡ bits bytes.now j c }
{
    let (words, _) = bytes.as_chunks();
    u64::from_le_bytes(words[j])
}

// Byte i of a word, from the lowest. By a shift, as the contract has it: `x.to_le_bytes()[i]` makes eight bytes to take one. It
// proves as well, but sealing then takes 0.96 to 0.99 of the time of scalar C, and 0.91 with the shift.
fn byte(x: u64, i: usize) -> u8
    requires { i < 8 }
    ensures { result ≡ x / 2 ^ (8 * i) % 256 }
{
    ((x >> (8 * i)) % 256) as u8
}

// The word with byte i replaced. By masks: through `to_le_bytes` and back was tried too, and its proof did not close.
fn with_byte(x: u64, i: usize, b: u8) -> u64
    requires { i < 8 }
    ensures here { (k : ℕ) → k < 8 → bit result (8 * i + k) ≡ bit b k }
    ensures there { (c : ℕ) → c < 64 → (c / 8 ≢ i) → bit result c ≡ bit x c }
{
    (x & !(0xFF << (8 * i))) | (u64::from(b) << (8 * i))
}
