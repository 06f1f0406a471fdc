//! The engine of five words.

ghost use Rattle.sliced.specs.Sliced.{state_of};
ghost use Rattle.words.specs.Words.{rows};
ghost use Rattle.std.specs.Prelude.{◌≡◌, replicate};
ghost use Rattle.words.proofs.Held.{held_state};

use super::{arrange, inverse_sbox, sbox, unarrange};
use sycon::engine::{Engine, StateBytes, TwoWay};
use sycon::rounds::{self, Rounds, RoundsBack};
use words::Words;

/// An engine that keeps the state as five words.
#[derive(Drop)]
#[repr(C)]
pub struct Sliced {
    words: Words,
}

impl Engine for Sliced {
    ghost state = { state_of };

    ghost whole = { λ x. held_state (rows x.words) };

    fn load(&mut self, bytes: &StateBytes) {
        self.words = Words::load(bytes);
    }

    fn byte(&self, k: usize) -> u8 {
        self.words.byte(k)
    }

    fn set_byte(&mut self, k: usize, b: u8) {
        self.words.set_byte(k, b);
    }

    fn turn(&mut self, r: usize) {
        rounds::ahead(self, r);
    }
}

impl TwoWay for Sliced {
    fn turn_back(&mut self, r: usize) {
        rounds::back(self, r);
    }
}

impl Rounds for Sliced {
    ghost held = { state_of };

    fn round(&mut self, constant: u64) {
        let mut words = sbox(&self.words);
        words.diffuse();
        words.add_constant(constant);
        self.words = arrange(&words);
    }
}

impl RoundsBack for Sliced {
    fn round_back(&mut self, constant: u64) {
        let mut words = unarrange(&self.words);
        words.add_constant(constant);
        words.undiffuse();
        self.words = inverse_sbox(&words);
    }
}

impl Sliced {
    /// All 40 bytes are zero.
    pub fn new() -> Self
        ensures { state_of result ≡ replicate 40 0 }
    {
        Sliced {
            words: Words::load(&[0; 40]),
        }
    }
}
