//! The rates at which Sycon seals.

ghost use Rattle.std.specs.Prelude.{ℕ};
ghost use Rattle.sponge.specs.Rates.{Setting, Sets, narrow, narrow_sets, wide, wide_sets};

/// A rate: how long a block is, how many rounds follow one, and the initial vector, whose lowest byte is loaded first.
pub trait Rate {
    ghost setting: { Setting };

    ghost BLOCK: { ℕ };

    const BLOCK: usize;

    ghost ROUNDS: { ℕ };

    const ROUNDS: usize;

    ghost INITIAL_VECTOR: { ℕ };

    const INITIAL_VECTOR: u64;

    /// These constants make the setting, whose blocks have 8 to 12 bytes.
    ghost sets: { Sets setting BLOCK ROUNDS INITIAL_VECTOR };
}

/// 64 bits: blocks of 8 bytes.
pub struct Rate64;

impl Rate for Rate64 {
    ghost setting = { narrow };

    ghost BLOCK = { 8 };

    const BLOCK: usize = 8;

    ghost ROUNDS = { 7 };

    const ROUNDS: usize = 7;

    ghost INITIAL_VECTOR = { 0 };

    const INITIAL_VECTOR: u64 = 0;

    ghost sets = { narrow_sets };
}

/// 96 bits: blocks of 12 bytes.
pub struct Rate96;

impl Rate for Rate96 {
    ghost setting = { wide };

    ghost BLOCK = { 12 };

    const BLOCK: usize = 12;

    ghost ROUNDS = { 9 };

    const ROUNDS: usize = 9;

    ghost INITIAL_VECTOR = { 0x5980A92AFC5D9D2C };

    const INITIAL_VECTOR: u64 = 0x5980A92AFC5D9D2C;

    ghost sets = { wide_sets };
}
