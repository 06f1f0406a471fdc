//! Places that are longer than what goes there, and what calls leave in them and in an engine.

use crate::tally::Tally;
use std::alloc::{AllocError, Global};
use std::fmt;
use sycon::engine;
use sycon::engine::{Engine, StateBytes};

/// What is sealed, and, where the bytes do not matter, what is opened.
pub const TEXT: [u8; 13] = *b"#BE MILES W4\n";

pub const LABEL: [u8; 12] = *b"BV1,207,1,25";

/// What every byte of a place holds before a call.
pub const MARK: u8 = 0xA5;

/// What every byte that a call reads holds, where the bytes do not matter.
pub const GIVEN: u8 = 0x3C;

/// How many bytes longer than needed a place is.
pub const TAIL: usize = 5;

/// What an engine holds before a call, so that it is seen whether a call leaves or clears it.
pub const USED: StateBytes = *b"forty bytes that an engine held earlier.";

pub const CLEARED: StateBytes = [0; 40];

/// A place for `needed` bytes, with a tail.
pub fn with_tail(heap: Global, needed: usize) -> Result<Vec<u8>, AllocError> {
    marked(heap, needed.saturating_add(TAIL))
}

pub fn marked(heap: Global, len: usize) -> Result<Vec<u8>, AllocError> {
    vec![in heap; MARK; len]
}

/// Bytes for a call to read, other than the mark.
pub fn given(heap: Global, len: usize) -> Result<Vec<u8>, AllocError> {
    vec![in heap; GIVEN; len]
}

pub fn is_marked(bytes: &[u8]) -> bool {
    bytes.iter().all(|b| *b == MARK)
}

/// What calls left that write to a place with a tail: how often each was as expected.
#[derive(Clone, Copy, Default)]
pub struct Left {
    answer: Tally,
    front: Tally,
    tail: Tally,
    engine: Tally,
}

impl Left {
    /// Whether the answer was the expected one; what stands at the front of the place, and what should; what
    /// stands behind it; and the engine, which should be cleared.
    pub fn note<E: Engine>(
        &mut self,
        answered: bool,
        front: &[u8],
        expected: &[u8],
        tail: &[u8],
        engine: &E,
    ) {
        self.answer.note(answered);
        self.front.note(front == expected);
        self.tail.note(tail.len() == TAIL && is_marked(tail));
        self.engine.note(engine::bytes(engine) == CLEARED);
    }
}

impl fmt::Display for Left {
    fn fmt<W: fmt::Write>(&self, f: &mut fmt::Formatter<W>) -> fmt::Result {
        let Left {
            answer,
            front,
            tail,
            engine,
        } = *self;
        write!(
            f,
            "answer {answer}, bytes {front}, tail {tail}, engine cleared {engine}"
        )
    }
}

/// The first `len` bytes of a place, and the others.
pub fn split(place: &[u8], len: usize) -> (&[u8], &[u8]) {
    place.split_at(len.min(place.len()))
}
