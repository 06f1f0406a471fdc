//! The examples, and that the definitions meet them.

ghost use Rattle.published.specs.Examples.{digest as published_digest, seal as published_seal, sealed as published_bytes};
ghost use Rattle.published.specs.Examples.{digested as digested_bytes, key as example_key, label as example_label};
ghost use Rattle.published.specs.Examples.{digesting, seal_64, sealed_64, text as example_text};
ghost use Rattle.std.specs.Prelude.{◌≡◌, replicate};

use sealing::{Rate64, Under, digest, seal};
use sycon::engine::Engine;

/// The key, and the nonce too.
pub const KEY: [u8; 16] = [0, 1, 2, 3, 4, 5, 6, 7, 8, 9, 10, 11, 12, 13, 14, 15];

/// The label.
pub const LABEL: [u8; 16] = *b"\x05\xAE\x02\x3D\xC3\x10\x5D\xA6\x28\x94\xA1\x6A\x0E\x26\x09\x56";

/// The text.
pub const TEXT: [u8; 39] = *b"To authenticate, or not to authenticate";

const DIGESTED: [u8; 39] = [
    0, 1, 2, 3, 4, 5, 6, 7, 8, 9, 10, 11, 12, 13, 14, 15, 16, 17, 18, 19, 20, 21, 22, 23, 24, 25,
    26, 27, 28, 29, 30, 31, 32, 33, 34, 35, 36, 37, 38,
];

/// What sealing made of the example.
#[derive(Clone, Copy)]
pub struct Sealed {
    pub bytes: [u8; 39],
    pub tag: [u8; 16],
}

/// Seals the published example at 64 bits.
pub fn seal_example<E: Engine>(engine: &mut E) -> Sealed
    ensures bytes { result.bytes ≡ published_bytes }
    ensures tag { result.tag ≡ published_seal }
    ensures clear { E.state engine.new ≡ replicate 40 0 }
{
    bytes_stand();
    seal_stands();
    seal_whole(engine, &KEY, &KEY, &LABEL, &TEXT)
}

/// Digests the bytes whose digest was published.
pub fn digest_example<E: Engine>(engine: &mut E) -> [u8; 32]
    ensures digest { result ≡ published_digest }
    ensures clear { E.state engine.new ≡ replicate 40 0 }
{
    digest_stands();
    digest_whole(engine, &DIGESTED)
}

// No measure is wrong here, so nothing is refused.
fn seal_whole<E: Engine>(
    engine: &mut E,
    key: &[u8; 16],
    nonce: &[u8; 16],
    label: &[u8; 16],
    text: &[u8; 39],
) -> Sealed
    ensures bytes { result.bytes
        ≡ sealed_64 key.now nonce.now label.now text.now }
    ensures tag { result.tag
        ≡ seal_64 key.now nonce.now label.now text.now }
    ensures clear { E.state engine.new ≡ replicate 40 0 }
{
    let mut bytes = [0u8; 39];
    let mut tag = [0u8; 16];
    let under = Under { key, nonce, label };
    let _ = seal::<Rate64, E>(engine, under, text, &mut bytes, &mut tag);
    Sealed { bytes, tag }
}

fn digest_whole<E: Engine>(engine: &mut E, text: &[u8; 39]) -> [u8; 32]
    ensures digest { result ≡ digesting text.now }
    ensures clear { E.state engine.new ≡ replicate 40 0 }
{
    let mut place = [0u8; 32];
    let _ = digest(engine, text, &mut place);
    place
}

// The definitions, computed on the examples.
fn bytes_stand()
    ensures { sealed_64 example_key example_key example_label example_text ≡ published_bytes }
{}

fn seal_stands()
    ensures { seal_64 example_key example_key example_label example_text ≡ published_seal }
{}

fn digest_stands()
    ensures { digesting digested_bytes ≡ published_digest }
{}
