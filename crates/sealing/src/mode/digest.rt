//! The digest.

ghost use Rattle.sealing.specs.Bytewise.{DigestsBytewise};
ghost use Rattle.sealing.specs.Calls.{digesting};
ghost use Rattle.sponge.specs.Modes.{digest_start, hashing, hashing_sets};
ghost use Rattle.std.specs.Prelude.{◌≡◌};

use refusal::Refusal;
use sponge::{Domain, Rate, absorb_message, squeeze};
use sycon::engine::{Engine, StateBytes};

/// Writes the digest of `text`, 32 bytes, to `place`.
pub fn digest<E: Engine>(engine: &mut E, text: &[u8], place: &mut [u8]) -> Result<(), Refusal>
    ensures outcome { (result, place.new, E.state engine.new)
        ≡ digesting text.now place.old (E.state engine.old) }
    ensures bytewise { DigestsBytewise text.now }
{
    digests_bytewise(text);
    if place.len() != 32 {
        return Err(Refusal::Measure);
    }
    engine.load(&start_bytes());
    engine.turn(14);
    absorb_message::<Hashing, E>(engine, text, Domain(0), Domain(0));
    place.copy_from_slice(&squeeze(engine));
    Ok(())
}

// The digest by blocks is the digest a byte at a time.
fn digests_bytewise(text: &[u8])
    ensures { DigestsBytewise text.now }
{}

// The digest absorbs blocks of 8 bytes, with all 14 rounds behind each.
struct Hashing;

impl Rate for Hashing {
    ghost setting = { hashing };

    ghost BLOCK = { 8 };

    const BLOCK: usize = 8;

    ghost ROUNDS = { 14 };

    const ROUNDS: usize = 14;

    ghost INITIAL_VECTOR = { 0x1C0A80D42C6E63C5 };

    const INITIAL_VECTOR: u64 = 0x1C0A80D42C6E63C5;

    ghost sets = { hashing_sets };
}

// The initial vector in A_2, and zeros.
fn start_bytes() -> StateBytes
    ensures { result ≡ digest_start }
{
    let mut bytes = [0u8; 40];
    bytes[16..24].copy_from_slice(&Hashing::INITIAL_VECTOR.to_le_bytes());
    bytes
}
