//! Sealing, opening and digest, each held to what is expected. The heap and the engine are handed down as they are: a struct of
//! them would be made for each call.

use crate::place;
use crate::place::{CLEARED, Left, MARK, USED};
use crate::tally::Tally;
use refusal::Refusal;
use sealing::{Rate, Under, digest, open, seal};
use std::alloc::{AllocError, Global};
use std::fmt;
use sycon::engine;
use sycon::engine::Engine;

/// A text, and what belongs to it.
#[derive(Clone, Copy)]
pub struct Case<'a> {
    pub under: Under<'a>,
    pub text: &'a [u8],
    pub sealed: Expected<'a>,
    pub tag: &'a [u8],
}

/// The sealed bytes that belong to a text, or, where it is long, their digest.
#[derive(Clone, Copy)]
pub enum Expected<'a> {
    Bytes(&'a [u8]),
    Digest(&'a [u8]),
}

/// What one engine did at one rate.
#[derive(Clone, Copy, Default)]
pub struct Score {
    pub sealed: Left,
    pub seal: Tally,
    pub opened: Left,
}

/// Seals the text of a case, and opens what belongs to it: of a long text, what came of sealing it.
pub fn seal_and_open<R: Rate, E: Engine>(
    heap: Global,
    engine: &mut E,
    case: Case<'_>,
    score: &mut Score,
) -> Result<(), AllocError> {
    let Case {
        under,
        text,
        sealed,
        tag,
    } = case;
    let made = seal_marked::<R, E>(heap, engine, under, text)?;
    let (front, tail) = place::split(made.place.as_slice(), text.len());
    let belongs = match sealed {
        Expected::Bytes(bytes) => {
            score
                .sealed
                .note(made.answer.is_ok(), front, bytes, tail, engine);
            bytes
        }
        Expected::Digest(expected) => {
            let mut digested = [MARK; 32];
            let answered = made.answer.is_ok() && digest(engine, front, &mut digested).is_ok();
            score
                .sealed
                .note(answered, &digested, expected, tail, engine);
            front
        }
    };
    score.seal.note(made.tag.as_slice() == tag);
    open_marked::<R, E>(heap, engine, under, belongs, tag, text, &mut score.opened)
}

// What a call to seal left.
#[derive(Drop)]
struct Sealed {
    answer: Result<(), Refusal>,
    place: Vec<u8>,
    tag: [u8; 16],
}

fn seal_marked<R: Rate, E: Engine>(
    heap: Global,
    engine: &mut E,
    under: Under<'_>,
    text: &[u8],
) -> Result<Sealed, AllocError> {
    let mut place = place::with_tail(heap, text.len())?;
    let mut tag = [MARK; 16];
    engine.load(&USED);
    let answer = seal::<R, E>(engine, under, text, place.as_mut_slice(), &mut tag);
    Ok(Sealed { answer, place, tag })
}

// Opens what should give `text`.
fn open_marked<R: Rate, E: Engine>(
    heap: Global,
    engine: &mut E,
    under: Under<'_>,
    sealed: &[u8],
    tag: &[u8],
    text: &[u8],
    opened: &mut Left,
) -> Result<(), AllocError> {
    let len = sealed.len();
    let mut place = place::with_tail(heap, len)?;
    engine.load(&USED);
    let answer = open::<R, E>(engine, under, sealed, tag, place.as_mut_slice());
    let (front, tail) = place::split(place.as_slice(), len);
    opened.note(answer.is_ok(), front, text, tail, engine);
    Ok(())
}

/// What one engine did with texts to digest.
#[derive(Clone, Copy, Default)]
pub struct Digested {
    answer: Tally,
    digest: Tally,
    engine: Tally,
}

impl fmt::Display for Digested {
    fn fmt<W: fmt::Write>(&self, f: &mut fmt::Formatter<W>) -> fmt::Result {
        let Digested {
            answer,
            digest,
            engine,
        } = *self;
        write!(
            f,
            "answer {answer}, digest {digest}, engine cleared {engine}"
        )
    }
}

pub fn digest_text<E: Engine>(engine: &mut E, text: &[u8], expected: &[u8], score: &mut Digested) {
    let mut place = [MARK; 32];
    engine.load(&USED);
    let answer = digest(engine, text, &mut place);
    score.answer.note(answer.is_ok());
    score.digest.note(place.as_slice() == expected);
    score.engine.note(engine::bytes(engine) == CLEARED);
}
