//! What computes Sycon's permutation.

ghost use Rattle.std.specs.Prelude.{◌≡◌, ℕ, List, slice_index, slice_set};
ghost use Rattle.sycon.specs.Permutation.{State, permuted};

use std::array;

/// The bytes of a state: byte k holds the bits s(8k) to s(8k + 7), the first as its lowest bit.
pub type StateBytes = [u8; 40];

/// An engine means a state of 40 bytes, and can permute it. How it keeps them is its own affair: each call is promised by
/// the bytes alone. No call refuses, and none asks anything of its caller.
pub trait Engine {
    /// The state that an engine means.
    ghost state: { Self → List ℕ };

    /// The state becomes these bytes.
    fn load(&mut self, bytes: &StateBytes)
        ensures { state self.new ≡ bytes.now };

    /// Byte `k`, or 0 where there is none. Nothing changes.
    fn byte(&self, k: usize) -> u8
        ensures { result ≡ slice_index (state self.now) k };

    /// Byte `k` becomes `b`, and no other changes; past the last byte nothing does.
    fn set_byte(&mut self, k: usize, b: u8)
        ensures { state self.new ≡ slice_set (state self.old) k b };

    /// The state goes through the first `r` rounds; there are 14, and an `r` above counts as 14.
    fn turn(&mut self, r: usize)
        ensures { state self.new ≡ permuted r (state self.old) };

    /// It is 40 numbers, each below 256.
    ghost whole: { (x : Self) → State (state x) };
}

/// An engine that can also take rounds back.
pub trait TwoWay: Engine {
    /// The state becomes the one that the first `r` rounds take to the present state: there is exactly one.
    /// An `r` above 14 counts as 14.
    fn turn_back(&mut self, r: usize)
        ensures { permuted r (Self.Engine.state self.new) ≡ Self.Engine.state self.old };
}

/// All bytes of an engine's state.
pub fn bytes<E: Engine>(engine: &E) -> StateBytes
    ensures { result ≡ E.Engine.state engine.now }
{
    read(engine)
}

// Apart, so that a slip in `bytes` is refused in the code.
fn read<E: Engine>(engine: &E) -> StateBytes
    ensures { result ≡ E.Engine.state engine.now }
{
    array::from_fn(|k| engine.byte(k))
}
