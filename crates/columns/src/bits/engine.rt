//! The engine of 64 columns.

ghost use Rattle.columns.specs.Engine.{state_of};
ghost use Rattle.std.specs.Prelude.{◌≡◌, replicate};
ghost use Rattle.columns.specs.Held.{held_state};

use sycon::engine::{Engine, StateBytes, TwoWay};
use sycon::rounds::{self, Rounds, RoundsBack};
use words::Words;

/// An engine that keeps the state as 64 columns of five bits, A_0 the units.
#[derive(Drop)]
#[repr(C)]
pub struct Columns {
    columns: [u8; 64],
}

impl Engine for Columns {
    ghost state = { state_of };

    ghost whole = { λ x. held_state x.columns };

    fn load(&mut self, bytes: &StateBytes) {
        self.columns = super::gather(&Words::load(bytes));
    }

    fn byte(&self, k: usize) -> u8 {
        super::read(&self.columns, k)
    }

    fn set_byte(&mut self, k: usize, b: u8) {
        super::write(&mut self.columns, k, b);
    }

    fn turn(&mut self, r: usize) {
        rounds::ahead(self, r);
    }
}

impl TwoWay for Columns {
    fn turn_back(&mut self, r: usize) {
        rounds::back(self, r);
    }
}

impl Rounds for Columns {
    ghost held = { state_of };

    fn round(&mut self, constant: u64) {
        let mut words = super::scatter(&super::substitute(&self.columns));
        words.diffuse();
        words.add_constant(constant);
        self.columns = super::arrange(&super::gather(&words));
    }
}

impl RoundsBack for Columns {
    fn round_back(&mut self, constant: u64) {
        let mut words = super::scatter(&super::unarrange(&self.columns));
        words.add_constant(constant);
        words.undiffuse();
        self.columns = super::unsubstitute(&super::gather(&words));
    }
}

impl Columns {
    /// All 40 bytes are zero.
    pub fn new() -> Self
        ensures { state_of result ≡ replicate 40 0 }
    {
        Columns {
            columns: super::gather(&Words::load(&[0; 40])),
        }
    }
}
