//! Sealing.

ghost use Rattle.std.specs.Prelude.{◌≡◌, length, replicate};
ghost use Rattle.sponge.specs.Blocks.{absorbed_all};
ghost use Rattle.sealing.specs.Bytewise.{SealsBytewise};
ghost use Rattle.sealing.specs.Calls.{sealing};
ghost use Rattle.sponge.specs.Modes.{seal_of, sealed_bytes, sealed_in, text_pairs};
ghost use Rattle.sponge.specs.Stream.{message, place_after, sealed_from, state_after};

use super::copy;
use super::under::{Keyed, Under};
use refusal::Refusal;
use sponge::{Domain, Rate, absorb_label, end, feed, finish, start};
use sycon::engine::Engine;

/// Seals `text`: its sealed bytes go to the front of `sealed`, its seal to `tag`.
pub fn seal<R: Rate, E: Engine>(
    engine: &mut E,
    under: Under<'_>,
    text: &[u8],
    sealed: &mut [u8],
    tag: &mut [u8],
) -> Result<(), Refusal>
    ensures outcome { (result, sealed.new, tag.new, E.state engine.new)
        ≡ sealing R.setting under.entry.key.now under.entry.nonce.now under.entry.label.now text.now
        sealed.old tag.old (E.state engine.old) }
    ensures bytewise { SealsBytewise R.setting under.entry.key.now under.entry.nonce.now under.entry.label.now }
{
    under.seals_bytewise::<R>();
    let keyed = under.measure(tag, text.len(), sealed.len())?;
    let front = &mut sealed[..text.len()];
    copy(text, front);
    tag.copy_from_slice(&seal_in_place::<R, E>(engine, keyed, front));
    Ok(())
}

// The bytes become their sealed ones; gives the seal.
#[tactic(auto, using(crate::proofs::Messages::messaged_both))]
fn seal_in_place<R: Rate, E: Engine>(engine: &mut E, keyed: Keyed<'_>, bytes: &mut [u8]) -> [u8; 16]
    ensures sealed { bytes.new
        ≡ sealed_bytes R.setting keyed.entry.key.now keyed.entry.nonce.now keyed.entry.label.now bytes.old }
    ensures tag { result ≡ seal_of R.setting keyed.entry.key.now keyed.entry.nonce.now keyed.entry.label.now bytes.old }
    ensures clear { E.state engine.new ≡ replicate 40 0 }
{
    start::<R, E>(engine, keyed.key, keyed.nonce);
    absorb_label::<R, E>(engine, keyed.label);
    seal_text::<R, E>(engine, bytes);
    finish::<R, E>(engine, keyed.key)
}

fn seal_text<R: Rate, E: Engine>(engine: &mut E, bytes: &mut [u8])
    ensures sealed { bytes.new ≡ sealed_in R.setting bytes.old (E.state engine.old) }
    ensures state { E.state engine.new
        ≡ absorbed_all R.setting.rounds (text_pairs R.setting.block bytes.old) (E.state engine.old) }
{
    seal_stream::<R, E>(engine, bytes);
}

// The same as the bytes go by.
fn seal_stream<R: Rate, E: Engine>(engine: &mut E, bytes: &mut [u8])
    ensures sealed { bytes.new ≡ sealed_from R.setting 0 bytes.old (E.state engine.old) }
    ensures state { E.state engine.new ≡ message R.setting 2 4 bytes.old (E.state engine.old) }
{
    let place = seal_bytes::<R, E>(engine, bytes);
    end::<R, E>(engine, place, Domain(4));
}

fn seal_bytes<R: Rate, E: Engine>(engine: &mut E, bytes: &mut [u8]) -> usize
    ensures sealed { bytes.new ≡ sealed_from R.setting 0 bytes.old (E.state engine.old) }
    ensures place { result ≡ place_after R.setting 0 bytes.old }
    ensures state { E.state engine.new ≡ state_after R.setting 2 0 bytes.old (E.state engine.old) }
{
    let mut place = 0;
    for x in bytes.iter_mut() {
        let y = engine.byte(place) ^ *x;
        place = feed::<R, E>(engine, place, *x, Domain(2));
        *x = y;
    }
    place
}
