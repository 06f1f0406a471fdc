//! Messages absorbed byte by byte: a block is never held, so nothing has to be buffered. The place goes beside the engine and not
//! into a struct with it: a caller lends the engine for one call, and keeps the place as the one local of its loop.

ghost use Rattle.sponge.specs.Blocks.{absorbed_all, blocks, marked};
ghost use Rattle.sponge.specs.Stream.{ended, fed, next, place_after, state_after};
ghost use Rattle.std.specs.Prelude.{◌≡◌};

use super::super::rate::Rate;
use super::Domain;
use sycon::engine::Engine;

/// One byte more, at `place` of the block; gives the place of the next. Where the byte fills the block, `domain` and the
/// rounds follow. A place past the block's last counts as its last.
pub fn feed<R: Rate, E: Engine>(engine: &mut E, place: usize, x: u8, domain: Domain) -> usize
    ensures place { result ≡ next R.setting place }
    ensures state { E.state engine.new ≡ fed R.setting domain.0 place x (E.state engine.old) }
{
    super::add_byte(engine, place, x);
    if place < R::BLOCK - 1 {
        place + 1
    } else {
        super::end_block::<R, E>(engine, domain);
        0
    }
}

/// The end of a message: the 1 bit of its padding at `place`, its last domain, and the rounds.
pub fn end<R: Rate, E: Engine>(engine: &mut E, place: usize, domain: Domain)
    ensures { E.state engine.new ≡ ended R.setting domain.0 place (E.state engine.old) }
{
    super::add_byte(engine, place, 1);
    super::end_block::<R, E>(engine, domain);
}

/// Absorbs a whole message: all blocks of its padded bytes under `domain`, the last under `last`.
pub fn absorb_message<R: Rate, E: Engine>(
    engine: &mut E,
    bytes: &[u8],
    domain: Domain,
    last: Domain,
)
    ensures { E.state engine.new
        ≡ absorbed_all R.setting.rounds (marked domain.0 last.0 (blocks R.setting.block bytes.now))
        (E.state engine.old) }
{
    absorb_padded::<R, E>(engine, bytes, domain, last);
}

// Apart, so that a slip in `absorb_message` is refused in the code. A running domain and a last one travel together in these two,
// and a pair of them would only be taken apart again.
fn absorb_padded<R: Rate, E: Engine>(engine: &mut E, bytes: &[u8], domain: Domain, last: Domain)
    ensures { E.state engine.new
        ≡ absorbed_all R.setting.rounds (marked domain.0 last.0 (blocks R.setting.block bytes.now))
        (E.state engine.old) }
{
    let place = feed_all::<R, E>(engine, bytes, domain);
    end::<R, E>(engine, place, last);
}

fn feed_all<R: Rate, E: Engine>(engine: &mut E, bytes: &[u8], domain: Domain) -> usize
    ensures place { result ≡ place_after R.setting 0 bytes.now }
    ensures state { E.state engine.new
        ≡ state_after R.setting domain.0 0 bytes.now (E.state engine.old) }
{
    let mut place = 0;
    for x in bytes {
        place = feed::<R, E>(engine, place, *x, domain);
    }
    place
}
