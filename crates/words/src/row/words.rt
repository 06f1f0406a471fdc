//! The five words of a state.

ghost use Rattle.sycon.specs.Permutation.{added, diffused};
ghost use Rattle.sycon.specs.Steps.{on_state};
ghost use Rattle.words.specs.Words.{meant};
ghost use Rattle.std.specs.Prelude.{◌≡◌, slice_index, slice_set};

use super::{Rotations, byte, load, with_byte};
use std::array;
use sycon::engine::StateBytes;

/// The words A_0 to A_4. Loaded from the lowest byte up, a word has its column c as its bit c.
#[derive(Clone, Copy)]
#[repr(C)]
pub struct Words {
    pub rows: [u64; 5],
}

// Each public function passes its work on, so that what is wrong in it is refused there and not in a proof.
impl Words {
    /// The words of these bytes.
    pub fn load(bytes: &StateBytes) -> Self
        ensures { meant result ≡ bytes.now }
    {
        Self::of(bytes)
    }

    /// Byte `k` of the state, or 0 where there is none.
    pub fn byte(&self, k: usize) -> u8
        ensures { result ≡ slice_index (meant self.now) k }
    {
        self.read(k)
    }

    /// Byte `k` becomes `b`; past the last byte nothing changes.
    pub fn set_byte(&mut self, k: usize, b: u8)
        ensures { meant self.new ≡ slice_set (meant self.old) k b }
    {
        self.write(k, b);
    }

    /// Step 2 of a round.
    pub fn diffuse(&mut self)
        ensures { meant self.new ≡ on_state diffused (meant self.old) }
    {
        *self = self.spread();
    }

    /// Step 2, taken back.
    pub fn undiffuse(&mut self)
        ensures { on_state diffused (meant self.new) ≡ meant self.old }
    {
        *self = self.spread_back();
    }

    /// Step 3 of a round. It also takes itself back, since a constant XORed twice is gone.
    pub fn add_constant(&mut self, constant: u64)
        ensures there { meant self.new ≡ on_state (added constant) (meant self.old) }
        ensures back { on_state (added constant) (meant self.new) ≡ meant self.old }
    {
        *self = self.with_constant(constant);
    }

    fn of(bytes: &StateBytes) -> Self
        ensures { meant result ≡ bytes.now }
    {
        Words {
            rows: array::from_fn(|j| load(bytes, j)),
        }
    }

    // Byte k of the state stands in word k / 8.
    fn read(&self, k: usize) -> u8
        ensures { result ≡ slice_index (meant self.now) k }
    {
        match self.rows.get(k / 8) {
            Some(row) => byte(*row, k % 8),
            None => 0,
        }
    }

    // By number: of what is written through `get_mut` a proof knows nothing afterwards.
    fn write(&mut self, k: usize, b: u8)
        ensures { meant self.new ≡ slice_set (meant self.old) k b }
    {
        let j = k / 8;
        if j < self.rows.len() {
            self.rows[j] = with_byte(self.rows[j], k % 8, b);
        }
    }

    fn spread(&self) -> Self
        ensures { meant result ≡ on_state diffused (meant self.now) }
    {
        Words {
            rows: array::from_fn(|j| Rotations::of_word(j).spread(self.rows[j])),
        }
    }

    fn spread_back(&self) -> Self
        ensures { on_state diffused (meant result) ≡ meant self.now }
    {
        Words {
            rows: array::from_fn(|j| Rotations::of_word(j).spread_back(self.rows[j])),
        }
    }

    fn with_constant(&self, constant: u64) -> Self
        ensures there { meant result ≡ on_state (added constant) (meant self.now) }
        ensures back { on_state (added constant) (meant result) ≡ meant self.now }
    {
        let mut words = *self;
        words.rows[2] ^= constant;
        words
    }
}
