//! Wrong lengths, at which a call refuses and leaves everything as it was.

use crate::place;
use crate::place::{CLEARED, GIVEN, LABEL, MARK, TEXT, USED};
use crate::tally::Tally;
use refusal::Refusal;
use sealing::{Rate, Under, digest, open, seal};
use std::alloc::{AllocError, Global};
use std::fmt;
use sycon::engine;
use sycon::engine::Engine;

// How long a key, a nonce or a seal must not be.
const WRONG: [usize; 3] = [0, 15, 17];

// How long the place of a digest must not be.
const WRONG_DIGEST: [usize; 3] = [0, 31, 33];

// The lengths of what a call to seal or to open is given.
#[derive(Clone, Copy)]
struct Lengths {
    key: usize,
    nonce: usize,
    tag: usize,
    place: usize,
}

const RIGHT: Lengths = Lengths {
    key: 16,
    nonce: 16,
    tag: 16,
    place: TEXT.len(),
};

const TOO_SHORT: usize = TEXT.len() - 1;

/// How often calls refused for a wrong length, and left their places and the engine as they were.
#[derive(Clone, Copy, Default)]
pub struct Refused {
    answer: Tally,
    places: Tally,
    engine: Tally,
}

impl Refused {
    fn note<E: Engine>(&mut self, answer: Result<(), Refusal>, places_stay: bool, engine: &E) {
        self.answer.note(matches!(answer, Err(Refusal::Measure)));
        self.places.note(places_stay);
        self.engine.note(engine::bytes(engine) == USED);
    }
}

impl fmt::Display for Refused {
    fn fmt<W: fmt::Write>(&self, f: &mut fmt::Formatter<W>) -> fmt::Result {
        let Refused {
            answer,
            places,
            engine,
        } = *self;
        write!(
            f,
            "refused {answer}, places unchanged {places}, engine unchanged {engine}"
        )
    }
}

/// What came of wrong lengths, and of an empty text in empty places, which is right.
#[derive(Clone, Copy, Default)]
pub struct Measures {
    seal: Refused,
    open: Refused,
    digest: Refused,
    empty_sealed: Tally,
    empty_opened: Tally,
}

impl fmt::Display for Measures {
    fn fmt<W: fmt::Write>(&self, f: &mut fmt::Formatter<W>) -> fmt::Result {
        let Measures {
            seal,
            open,
            digest,
            empty_sealed,
            empty_opened,
        } = *self;
        writeln!(f, "wrong lengths to seal: {seal}")?;
        writeln!(f, "wrong lengths to open: {open}")?;
        writeln!(f, "wrong lengths to digest: {digest}")?;
        write!(
            f,
            "empty text in empty places: sealed {empty_sealed}, opened {empty_opened}"
        )
    }
}

/// Each length wrong by itself.
pub fn measure<R: Rate, E: Engine>(
    heap: Global,
    engine: &mut E,
    score: &mut Measures,
) -> Result<(), AllocError> {
    for wrong in WRONG {
        for lengths in [
            Lengths {
                key: wrong,
                ..RIGHT
            },
            Lengths {
                nonce: wrong,
                ..RIGHT
            },
            Lengths {
                tag: wrong,
                ..RIGHT
            },
        ] {
            refuse_both::<R, E>(heap, engine, lengths, score)?;
        }
    }
    let too_short = Lengths {
        place: TOO_SHORT,
        ..RIGHT
    };
    refuse_both::<R, E>(heap, engine, too_short, score)?;
    accept_empty::<R, E>(engine, score);
    Ok(())
}

fn refuse_both<R: Rate, E: Engine>(
    heap: Global,
    engine: &mut E,
    lengths: Lengths,
    score: &mut Measures,
) -> Result<(), AllocError> {
    let seal = |engine: &mut E, under: Under<'_>, sealed: &mut [u8], tag: &mut [u8]| {
        seal::<R, E>(engine, under, &TEXT, sealed, tag)
    };
    let open = |engine: &mut E, under: Under<'_>, text: &mut [u8], tag: &mut [u8]| {
        open::<R, E>(engine, under, &TEXT, tag, text)
    };
    refuse(heap, engine, lengths, MARK, seal, &mut score.seal)?;
    refuse(heap, engine, lengths, GIVEN, open, &mut score.open)
}

// A call that takes these lengths; the place is marked, and each byte of the seal's is `fill`.
fn refuse<E: Engine, F>(
    heap: Global,
    engine: &mut E,
    lengths: Lengths,
    fill: u8,
    call: F,
    score: &mut Refused,
) -> Result<(), AllocError>
where
    F: FnOnce(&mut E, Under<'_>, &mut [u8], &mut [u8]) -> Result<(), Refusal>,
    requires { F.IsAlwaysCallable call }
{
    let key = place::given(heap, lengths.key)?;
    let nonce = place::given(heap, lengths.nonce)?;
    let mut tag = vec![in heap; fill; lengths.tag]?;
    let mut place = place::marked(heap, lengths.place)?;
    let under = Under {
        key: key.as_slice(),
        nonce: nonce.as_slice(),
        label: &LABEL,
    };
    engine.load(&USED);
    let answer = call(engine, under, place.as_mut_slice(), tag.as_mut_slice());
    let stay = place::is_marked(place.as_slice()) && tag.iter().all(|b| *b == fill);
    score.note(answer, stay, engine);
    Ok(())
}

/// A digest has no rate.
pub fn measure_digest<E: Engine>(
    heap: Global,
    engine: &mut E,
    score: &mut Measures,
) -> Result<(), AllocError> {
    for wrong in WRONG_DIGEST {
        let mut place = place::marked(heap, wrong)?;
        engine.load(&USED);
        let answer = digest(engine, &TEXT, place.as_mut_slice());
        score
            .digest
            .note(answer, place::is_marked(place.as_slice()), engine);
    }
    Ok(())
}

fn accept_empty<R: Rate, E: Engine>(engine: &mut E, score: &mut Measures) {
    let under = Under {
        key: &[MARK; 16],
        nonce: &[MARK; 16],
        label: &LABEL,
    };
    let mut tag = [0; 16];
    engine.load(&USED);
    let answer = seal::<R, E>(engine, under, &[], &mut [], &mut tag);
    score
        .empty_sealed
        .note(answer.is_ok() && engine::bytes(engine) == CLEARED);
    engine.load(&USED);
    let answer = open::<R, E>(engine, under, &[], &tag, &mut []);
    score
        .empty_opened
        .note(answer.is_ok() && engine::bytes(engine) == CLEARED);
}
