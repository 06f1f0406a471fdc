//! The start and the end of a message that is sealed under a key.

ghost use Rattle.sponge.specs.Modes.{keyed as under_key, labelled, seal_in, started};
ghost use Rattle.std.specs.Prelude.{◌≡◌, ◌∷◌, ◌++◌, replicate};

use super::super::rate::Rate;
use super::Domain;
use super::stream::absorb_message;
use sycon::engine::{Engine, StateBytes};

/// Begins under a key and a nonce: these and the initial vector are loaded, and the key blocks absorbed.
pub fn start<R: Rate, E: Engine>(engine: &mut E, key: &[u8; 16], nonce: &[u8; 16])
    ensures { E.state engine.new ≡ started R.setting key.now nonce.now }
{
    engine.load(&start_bytes(key, nonce, &R::INITIAL_VECTOR.to_le_bytes()));
    engine.turn(14);
    absorb_key::<R, E>(engine, key, Domain(0), Domain(1));
}

/// Absorbs a label. An empty one has no block.
pub fn absorb_label<R: Rate, E: Engine>(engine: &mut E, label: &[u8])
    ensures { E.state engine.new ≡ labelled R.setting label.now (E.state engine.old) }
{
    if !label.is_empty() {
        absorb_message::<R, E>(engine, label, Domain(1), Domain(2));
    }
}

/// Ends under the key and gives the seal. The engine holds zeros then, so that no key is left in it.
pub fn finish<R: Rate, E: Engine>(engine: &mut E, key: &[u8; 16]) -> [u8; 16]
    ensures tag { result ≡ seal_in R.setting key.now (E.state engine.old) }
    ensures clear { E.state engine.new ≡ replicate 40 0 }
{
    absorb_key::<R, E>(engine, key, Domain(4), Domain(4));
    let tag = super::read::<16, E>(engine, 16);
    engine.load(&[0; 40]);
    tag
}

// Both key blocks. Two blocks of 8 bytes end where the key does, and so before the padding.
fn absorb_key<R: Rate, E: Engine>(engine: &mut E, key: &[u8; 16], first: Domain, second: Domain)
    ensures { E.state engine.new
        ≡ under_key R.setting first.0 second.0 key.now (E.state engine.old) }
{
    let padded = padded_key(key);
    let block = R::BLOCK;
    super::absorb(engine, &padded[..block], first, 14);
    super::absorb(engine, &padded[block..2 * block], second, 14);
}

// The key with its padding, for two blocks of at most 12 bytes.
fn padded_key(key: &[u8; 16]) -> [u8; 24]
    ensures { result ≡ key.now ++ 1 ∷ replicate 7 0 }
{
    let mut padded = [0u8; 24];
    padded[16] = 1;
    padded[0..16].copy_from_slice(key);
    padded
}

// Key, nonce and initial vector, in that order.
fn start_bytes(key: &[u8; 16], nonce: &[u8; 16], vector: &[u8; 8]) -> StateBytes
    ensures { result ≡ key.now ++ (nonce.now ++ vector.now) }
{
    let mut bytes = [0u8; 40];
    super::put(&mut bytes, 0, key);
    super::put(&mut bytes, 16, nonce);
    super::put(&mut bytes, 32, vector);
    bytes
}
