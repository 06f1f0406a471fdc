//! Laws of the permutation, and of any engines that compute it.

ghost use Rattle.std.specs.Prelude.{◌≡◌, ℕ};
ghost use Rattle.sycon.specs.Laws.{OneToOne, Onto};
ghost use Rattle.sycon.specs.Permutation.{permuted};

use crate::engine::{Engine, TwoWay};

/// Turns ahead and back again: the state is what it was, since no two states are permuted to the same.
pub fn there_and_back<E: TwoWay>(engine: &mut E, ahead: usize)
    ensures state { E.Engine.state engine.new ≡ E.Engine.state engine.old }
    ensures one_to_one { (r : ℕ) → OneToOne (permuted r) }
{
    permutation_is_one_to_one();
    engine.turn(ahead);
    engine.turn_back(ahead);
}

/// Turns back and ahead again: the state is what it was; each state is what some state is permuted to.
pub fn back_and_there<E: TwoWay>(engine: &mut E, back: usize)
    ensures state { E.Engine.state engine.new ≡ E.Engine.state engine.old }
    ensures onto { (r : ℕ) → Onto (permuted r) }
{
    permutation_is_onto();
    engine.turn_back(back);
    engine.turn(back);
}

/// Turns two engines: from one state they come to one state, whatever they keep it in.
pub fn turn_both<A: Engine, B: Engine>(first: &mut A, second: &mut B, r: usize)
    ensures first { A.Engine.state first.new ≡ permuted r (A.Engine.state first.old) }
    ensures second { B.Engine.state second.new ≡ permuted r (B.Engine.state second.old) }
    ensures agree { A.Engine.state first.old ≡ B.Engine.state second.old
        → A.Engine.state first.new ≡ B.Engine.state second.new }
{
    first.turn(r);
    second.turn(r);
}

/// Turns two engines back: from one state they come to one state.
pub fn turn_both_back<A: TwoWay, B: TwoWay>(first: &mut A, second: &mut B, r: usize)
    ensures first { permuted r (A.Engine.state first.new) ≡ A.Engine.state first.old }
    ensures second { permuted r (B.Engine.state second.new) ≡ B.Engine.state second.old }
    ensures agree { A.Engine.state first.old ≡ B.Engine.state second.old
        → A.Engine.state first.new ≡ B.Engine.state second.new }
{
    permutation_is_one_to_one();
    first.turn_back(r);
    second.turn_back(r);
}

fn permutation_is_one_to_one()
    ensures { (r : ℕ) → OneToOne (permuted r) }
{}

fn permutation_is_onto()
    ensures { (r : ℕ) → Onto (permuted r) }
{}
