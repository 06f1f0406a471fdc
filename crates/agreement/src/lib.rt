//! The engine of five words and the engine of 64 columns agree on every state, at every number of rounds, ahead and back.

#![tactic(auto)]

ghost use Rattle.columns.specs.Engine.{state_of as columns_state};
ghost use Rattle.sliced.specs.Sliced.{state_of as sliced_state};
ghost use Rattle.sycon.specs.Permutation.{permuted};
ghost use Rattle.std.specs.Prelude.{◌≡◌};

use columns::Columns;
use sliced::Sliced;
use sycon::engine::{Engine, StateBytes};
use sycon::{engine, laws};

/// What each engine made of a state.
#[derive(Clone, Copy)]
pub struct Outcomes {
    pub sliced: StateBytes,
    pub columns: StateBytes,
}

/// Both engines, turned from these bytes on.
pub fn turned(bytes: &StateBytes, r: usize) -> Outcomes
    ensures agree { result.sliced ≡ result.columns }
    ensures permuted { result.sliced ≡ permuted r bytes.now }
{
    let mut engines = Engines::load(bytes);
    laws::turn_both(&mut engines.sliced, &mut engines.columns, r);
    engines.outcomes()
}

/// Both engines, turned back from these bytes on.
pub fn turned_back(bytes: &StateBytes, r: usize) -> Outcomes
    ensures agree { result.sliced ≡ result.columns }
    ensures permuted { permuted r result.sliced ≡ bytes.now }
{
    let mut engines = Engines::load(bytes);
    laws::turn_both_back(&mut engines.sliced, &mut engines.columns, r);
    engines.outcomes()
}

#[derive(Drop)]
struct Engines {
    sliced: Sliced,
    columns: Columns,
}

impl Engines {
    // Both in the state of these bytes.
    fn load(bytes: &StateBytes) -> Self
        ensures sliced { sliced_state result.sliced ≡ bytes.now }
        ensures columns { columns_state result.columns ≡ bytes.now }
    {
        let mut sliced = Sliced::new();
        let mut columns = Columns::new();
        sliced.load(bytes);
        columns.load(bytes);
        Engines { sliced, columns }
    }

    fn outcomes(&self) -> Outcomes
        ensures sliced { result.sliced ≡ sliced_state self.now.sliced }
        ensures columns { result.columns ≡ columns_state self.now.columns }
    {
        Outcomes {
            sliced: engine::bytes(&self.sliced),
            columns: engine::bytes(&self.columns),
        }
    }
}
