//! From single rounds to the permutation: what an engine can be built on. An engine's `turn` calls `ahead`, and its `turn_back`
//! calls `back`; it is not done for all of them at once, since an engine may turn in another way.

ghost use Rattle.std.specs.List.{range_with_len};
ghost use Rattle.std.specs.Prelude.{◌≡◌, ℕ, ◌≤◌, map, min, List};
ghost use Rattle.sycon.specs.Permutation.{permuted, round_constant};
ghost use Rattle.sycon.specs.Steps.{four_steps};

/// What can take one round, given the round's constant.
pub trait Rounds {
    /// The state that is held, as 40 bytes.
    ghost held: { Self → List ℕ };

    /// The four steps of a round.
    fn round(&mut self, constant: u64)
        ensures { held self.new ≡ four_steps constant (held self.old) };
}

/// What can also take one round back.
pub trait RoundsBack: Rounds {
    /// The state becomes one that the four steps take to the present one.
    fn round_back(&mut self, constant: u64)
        ensures { four_steps constant (Self.Rounds.held self.new) ≡ Self.Rounds.held self.old };
}

/// The first `r` rounds; there are 14, and an `r` above counts as 14.
pub fn ahead<T: Rounds>(engine: &mut T, r: usize)
    ensures { T.Rounds.held engine.new ≡ permuted r (T.Rounds.held engine.old) }
{
    run(engine, r.min(14));
}

/// The first `r` rounds taken back, the last one first; an `r` above 14 counts as 14.
pub fn back<T: RoundsBack>(engine: &mut T, r: usize)
    ensures { permuted r (T.Rounds.held engine.new) ≡ T.Rounds.held engine.old }
{
    run_back(engine, r.min(14));
}

// The rounds 0 to n - 1.
fn run<T: Rounds>(engine: &mut T, n: usize)
    requires { n ≤ 14 }
    ensures { (r : ℕ) → n ≡ min r 14 → T.Rounds.held engine.new ≡ permuted r (T.Rounds.held engine.old) }
{
    for constant in &constants()[..n] {
        engine.round(*constant);
    }
}

// The rounds n - 1 to 0, taken back.
fn run_back<T: RoundsBack>(engine: &mut T, n: usize)
    requires { n ≤ 14 }
    ensures { (r : ℕ) → n ≡ min r 14 → permuted r (T.Rounds.held engine.new) ≡ T.Rounds.held engine.old }
{
    for constant in constants()[..n].iter().rev() {
        engine.round_back(*constant);
    }
}

// The constants of rounds 0 to 13, as a function so that they are computed once.
fn constants() -> &'static [u64; 14]
    ensures { result.now ≡ map round_constant (range_with_len 0 14) }
{
    &CONSTANTS
}

const CONSTANTS: [u64; 14] = [
    0xAAAA_AAAA_AAAA_AA15,
    0xAAAA_AAAA_AAAA_AA1A,
    0xAAAA_AAAA_AAAA_AA1D,
    0xAAAA_AAAA_AAAA_AA0E,
    0xAAAA_AAAA_AAAA_AA17,
    0xAAAA_AAAA_AAAA_AA1B,
    0xAAAA_AAAA_AAAA_AA0D,
    0xAAAA_AAAA_AAAA_AA06,
    0xAAAA_AAAA_AAAA_AA03,
    0xAAAA_AAAA_AAAA_AA11,
    0xAAAA_AAAA_AAAA_AA18,
    0xAAAA_AAAA_AAAA_AA1C,
    0xAAAA_AAAA_AAAA_AA1E,
    0xAAAA_AAAA_AAAA_AA1F,
];
