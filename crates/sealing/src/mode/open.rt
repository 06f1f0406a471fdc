//! Opening.

ghost use Rattle.std.specs.Prelude.{◌≡◌, true, length, replicate};
ghost use Rattle.sponge.specs.Blocks.{absorbed_all};
ghost use Rattle.sealing.specs.Bytewise.{SealsBytewise};
ghost use Rattle.sealing.specs.Calls.{measured, opening, unsealing};
ghost use Rattle.sealing.specs.Laws.{Opened};
ghost use Rattle.sponge.specs.Modes.{opened_bytes, opened_in, seal_of, text_pairs};
ghost use Rattle.sponge.specs.Stream.{opened_from, place_after, state_after};
ghost use Rattle.std.specs.Str.{bytes_eq};

use super::copy;
use super::under::{Keyed, Under};
use refusal::Refusal;
use sponge::{Domain, Rate, absorb_label, end, feed, finish, start};
use sycon::engine::Engine;

/// Opens `sealed`: its text goes to the front of `text` if `tag` is its seal. If it is not, zeros go there.
pub fn open<R: Rate, E: Engine>(
    engine: &mut E,
    under: Under<'_>,
    sealed: &[u8],
    tag: &[u8],
    text: &mut [u8],
) -> Result<(), Refusal>
    ensures outcome { (result, text.new, E.state engine.new)
        ≡ opening R.setting under.entry.key.now under.entry.nonce.now under.entry.label.now sealed.now
        tag.now text.old (E.state engine.old) }
    ensures law { measured (length under.entry.key.now) (length under.entry.nonce.now) (length tag.now)
        (length sealed.now) (length text.old) ≡ true
        → Opened R.setting under.entry.key.now under.entry.nonce.now under.entry.label.now sealed.now
        tag.now result text.new }
    ensures bytewise { SealsBytewise R.setting under.entry.key.now under.entry.nonce.now under.entry.label.now }
{
    under.seals_bytewise::<R>();
    open_exactly::<R, E>(engine, under, sealed, tag, text)
}

// What the outcome means, beside what it is. `open` itself is left to the search, so that a slip there is refused in the code.
fn open_exactly<R: Rate, E: Engine>(
    engine: &mut E,
    under: Under<'_>,
    sealed: &[u8],
    tag: &[u8],
    text: &mut [u8],
) -> Result<(), Refusal>
    ensures outcome { (result, text.new, E.state engine.new)
        ≡ opening R.setting under.entry.key.now under.entry.nonce.now under.entry.label.now sealed.now
        tag.now text.old (E.state engine.old) }
    ensures law { measured (length under.entry.key.now) (length under.entry.nonce.now) (length tag.now)
        (length sealed.now) (length text.old) ≡ true
        → Opened R.setting under.entry.key.now under.entry.nonce.now under.entry.label.now sealed.now
        tag.now result text.new }
{
    open_place::<R, E>(engine, under, sealed, tag, text)
}

fn open_place<R: Rate, E: Engine>(
    engine: &mut E,
    under: Under<'_>,
    sealed: &[u8],
    tag: &[u8],
    text: &mut [u8],
) -> Result<(), Refusal>
    ensures { (result, text.new, E.state engine.new)
        ≡ opening R.setting under.entry.key.now under.entry.nonce.now under.entry.label.now sealed.now
        tag.now text.old (E.state engine.old) }
{
    let keyed = under.measure(tag, sealed.len(), text.len())?;
    let front = &mut text[..sealed.len()];
    copy(sealed, front);
    open_guarded::<R, E>(engine, keyed, tag, front)
}

// The bytes become their text, or zeros.
fn open_guarded<R: Rate, E: Engine>(
    engine: &mut E,
    keyed: Keyed<'_>,
    tag: &[u8],
    bytes: &mut [u8],
) -> Result<(), Refusal>
    ensures { (result, bytes.new, E.state engine.new)
        ≡ unsealing R.setting keyed.entry.key.now keyed.entry.nonce.now keyed.entry.label.now bytes.old tag.now }
{
    let guard = Guard { place: bytes };
    let computed = open_in_place::<R, E>(engine, keyed, guard.place);
    if !same_bytes(tag, &computed) {
        return Err(Refusal::BrokenSeal);
    }
    guard.release();
    Ok(())
}

// A place that zeros go to unless the guard is released.
struct Guard<'a> {
    place: &'a mut [u8],
}

impl Drop for Guard<'_> {
    fn drop(self)
        ensures { self.exit.0.now ≡ replicate (length self.entry.place.now) 0 }
    {
        let Guard { place } = self;
        place.fill(0);
    }
}

impl Guard<'_> {
    // Lets the place be as it is.
    fn release(self)
        ensures { self.exit.0.now ≡ self.entry.place.now }
    {
        let Guard { place: _ } = self;
    }
}

fn same_bytes(a: &[u8], b: &[u8]) -> bool
    ensures { result ≡ bytes_eq a.now b.now }
{
    a == b
}

// The bytes become the opened ones; gives the seal of these. It is sealing but that the state is given what comes out and not what
// goes in: so each of these functions has a promise of its own, and a twin in `seal`.
#[tactic(auto, using(crate::proofs::Messages::messaged_both))]
fn open_in_place<R: Rate, E: Engine>(engine: &mut E, keyed: Keyed<'_>, bytes: &mut [u8]) -> [u8; 16]
    ensures opened { bytes.new
        ≡ opened_bytes R.setting keyed.entry.key.now keyed.entry.nonce.now keyed.entry.label.now bytes.old }
    ensures tag { result
        ≡ seal_of R.setting keyed.entry.key.now keyed.entry.nonce.now keyed.entry.label.now
        (opened_bytes R.setting keyed.entry.key.now keyed.entry.nonce.now keyed.entry.label.now bytes.old) }
    ensures clear { E.state engine.new ≡ replicate 40 0 }
{
    start::<R, E>(engine, keyed.key, keyed.nonce);
    absorb_label::<R, E>(engine, keyed.label);
    open_text::<R, E>(engine, bytes);
    finish::<R, E>(engine, keyed.key)
}

fn open_text<R: Rate, E: Engine>(engine: &mut E, bytes: &mut [u8])
    ensures opened { bytes.new ≡ opened_in R.setting bytes.old (E.state engine.old) }
    ensures state { E.state engine.new
        ≡ absorbed_all R.setting.rounds
        (text_pairs R.setting.block (opened_in R.setting bytes.old (E.state engine.old)))
        (E.state engine.old) }
{
    let place = open_bytes::<R, E>(engine, bytes);
    end::<R, E>(engine, place, Domain(4));
}

fn open_bytes<R: Rate, E: Engine>(engine: &mut E, bytes: &mut [u8]) -> usize
    ensures opened { bytes.new ≡ opened_from R.setting 0 bytes.old (E.state engine.old) }
    ensures place { result
        ≡ place_after R.setting 0 (opened_from R.setting 0 bytes.old (E.state engine.old)) }
    ensures state { E.state engine.new
        ≡ state_after R.setting 2 0 (opened_from R.setting 0 bytes.old (E.state engine.old))
        (E.state engine.old) }
{
    let mut place = 0;
    for x in bytes.iter_mut() {
        *x ^= engine.byte(place);
        place = feed::<R, E>(engine, place, *x, Domain(2));
    }
    place
}
