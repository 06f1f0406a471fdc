//! One sealed text, damaged in every byte by every difference.

use crate::place;
use crate::place::{LABEL, Left, MARK, TAIL, TEXT, USED};
use refusal::Refusal;
use sealing::{Rate, Under, open, seal};
use std::fmt;
use sycon::engine::Engine;

const LEN: usize = TEXT.len();

const KEY: [u8; 16] = *b"ATLAS BINDERY 07";

// school 207, run 6
const NONCE: [u8; 16] = [0, 0, 0, 0, 0, 0, 0, 207, 0, 0, 0, 0, 0, 0, 0, 6];

const PLACE: usize = LEN + TAIL;

// What is delivered to be opened, and the key.
#[derive(Clone, Copy)]
struct Delivery {
    sealed: [u8; LEN],
    tag: [u8; 16],
    label: [u8; 12],
    key: [u8; 16],
    nonce: [u8; 16],
}

/// What came of the delivery as it was, and of those damaged in each part.
#[derive(Clone, Copy, Default)]
pub struct Damages {
    undamaged: Left,
    sealed: Left,
    seal: Left,
    label: Left,
    key: Left,
    nonce: Left,
}

impl fmt::Display for Damages {
    fn fmt<W: fmt::Write>(&self, f: &mut fmt::Formatter<W>) -> fmt::Result {
        let Damages {
            undamaged,
            sealed,
            seal,
            label,
            key,
            nonce,
        } = *self;
        writeln!(f, "nothing changed, so opened: {undamaged}")?;
        writeln!(
            f,
            "sealed bytes changed, so broken seal and zeros: {sealed}"
        )?;
        writeln!(f, "seal changed, so broken seal and zeros: {seal}")?;
        writeln!(f, "label changed, so broken seal and zeros: {label}")?;
        writeln!(f, "key changed, so broken seal and zeros: {key}")?;
        write!(f, "nonce changed, so broken seal and zeros: {nonce}")
    }
}

/// Opens the delivery, and then each that differs from it in one byte.
pub fn deliver<R: Rate, E: Engine>(engine: &mut E, score: &mut Damages) {
    let delivery = sealed_delivery::<R, E>(engine);
    open_delivery::<R, E>(engine, &delivery, Ok(()), &TEXT, &mut score.undamaged);
    damage::<R, E, _>(engine, &delivery, |d| &mut d.sealed, &mut score.sealed);
    damage::<R, E, _>(engine, &delivery, |d| &mut d.tag, &mut score.seal);
    damage::<R, E, _>(engine, &delivery, |d| &mut d.label, &mut score.label);
    damage::<R, E, _>(engine, &delivery, |d| &mut d.key, &mut score.key);
    damage::<R, E, _>(engine, &delivery, |d| &mut d.nonce, &mut score.nonce);
}

// Where sealing is refused the delivery does not open, which is counted.
fn sealed_delivery<R: Rate, E: Engine>(engine: &mut E) -> Delivery {
    let under = Under {
        key: &KEY,
        nonce: &NONCE,
        label: &LABEL,
    };
    let mut sealed = [0; LEN];
    let mut tag = [0; 16];
    let _ = seal::<R, E>(engine, under, &TEXT, &mut sealed, &mut tag);
    Delivery {
        sealed,
        tag,
        label: LABEL,
        key: KEY,
        nonce: NONCE,
    }
}

// Opens each delivery that differs from this one in a byte of one part. Each is a copy of its own, so the bytes are told by
// their places.
fn damage<R: Rate, E: Engine, F: Fn(&mut Delivery) -> &mut [u8]>(
    engine: &mut E,
    delivery: &Delivery,
    part: F,
    score: &mut Left,
)
    requires { F.IsAlwaysCallable part }
{
    let mut whole = *delivery;
    let len = part(&mut whole).len();
    for at in 0..len {
        for difference in 1..=255u8 {
            let mut damaged = *delivery;
            if let Some(b) = part(&mut damaged).get_mut(at) {
                *b ^= difference;
            }
            open_delivery::<R, E>(engine, &damaged, Err(Refusal::BrokenSeal), &[0; LEN], score);
        }
    }
}

// Opens a delivery that should give this answer, and these bytes in the place.
fn open_delivery<R: Rate, E: Engine>(
    engine: &mut E,
    delivery: &Delivery,
    expected: Result<(), Refusal>,
    bytes: &[u8; LEN],
    score: &mut Left,
) {
    let under = Under {
        key: &delivery.key,
        nonce: &delivery.nonce,
        label: &delivery.label,
    };
    let mut place = [MARK; PLACE];
    engine.load(&USED);
    let answer = open::<R, E>(engine, under, &delivery.sealed, &delivery.tag, &mut place);
    let (front, tail) = place::split(&place, LEN);
    score.note(answer == expected, front, bytes, tail, engine);
}
