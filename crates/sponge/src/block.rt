//! The sponge over any engine: blocks absorbed with a domain.

ghost use Rattle.std.specs.Prelude.{◌≡◌, ◌+◌, ◌≤◌, drop, length, take};
ghost use Rattle.sponge.specs.Blocks.{absorbed, domain_byte_of, with_byte, with_bytes, with_domain};
ghost use Rattle.sponge.specs.Stream.{with_part};
ghost use Rattle.sycon.specs.Permutation.{permuted};

use super::rate::Rate;
use std::array;
use sycon::engine::Engine;

pub mod keyed;
pub mod squeeze;
pub mod stream;

// XORs `x` into byte `place` of the state.
fn add_byte<E: Engine>(engine: &mut E, place: usize, x: u8)
    ensures { E.state engine.new ≡ with_byte place x (E.state engine.old) }
{
    let old = engine.byte(place);
    engine.set_byte(place, old ^ x);
}

fn add_bytes<E: Engine>(engine: &mut E, bytes: &[u8])
    ensures { E.state engine.new ≡ with_bytes 0 bytes.now (E.state engine.old) }
{
    for (i, x) in bytes.iter().enumerate() {
        add_byte(engine, i, *x);
    }
}

/// A domain: the number that tells to which part of a message a block belongs. Parts share numbers, so it is no enum; of a number
/// above 7 the lowest three bits count.
#[derive(Clone, Copy, Debug, PartialEq, Eq)]
pub struct Domain(pub u8);

impl Domain {
    // Its three bits as they stand at the end of the last byte, the unit last.
    fn byte(self) -> u8
        ensures { result ≡ domain_byte_of self.0 }
    {
        self.0.reverse_bits() & 0xE0
    }
}

fn add_domain<E: Engine>(engine: &mut E, domain: Domain)
    ensures { E.state engine.new ≡ with_domain domain.0 (E.state engine.old) }
{
    add_byte(engine, 39, domain.byte());
}

/// Absorbs a block of its own: XORs it into the first bytes of the state and the domain into the last three bits, and
/// permutes. Bytes past the state's 40 go nowhere.
pub fn absorb<E: Engine>(engine: &mut E, block: &[u8], domain: Domain, rounds: usize)
    ensures { E.state engine.new
        ≡ absorbed rounds block.now domain.0 (E.state engine.old) }
{
    add_bytes(engine, block);
    add_domain(engine, domain);
    engine.turn(rounds);
}

// The domain of a block whose bytes are in, and its rounds.
fn end_block<R: Rate, E: Engine>(engine: &mut E, domain: Domain)
    ensures { E.state engine.new
        ≡ permuted R.setting.rounds (with_domain domain.0 (E.state engine.old)) }
{
    add_domain(engine, domain);
    engine.turn(R::ROUNDS);
}

// Bytes of the state, from place `at` on.
fn read<const N: usize, E: Engine>(engine: &E, at: usize) -> [u8; N]
    requires { at + N ≤ 40 }
    ensures { result ≡ take N (drop at (E.state engine.now)) }
{
    array::from_fn(|k| engine.byte(at + k))
}

// Writes `bytes` from place `at` on.
fn put(into: &mut [u8], at: usize, bytes: &[u8])
    requires { at + length bytes.now ≤ length into.old }
    ensures { into.new ≡ with_part at bytes.now into.old }
{
    let end = at + bytes.len();
    into[at..end].copy_from_slice(bytes);
}
