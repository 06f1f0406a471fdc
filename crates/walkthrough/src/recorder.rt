//! An engine that passes each call on to another, and notes what the permutation was given.

ghost use Rattle.std.specs.Prelude.{◌≡◌, [], ◌∷◌, ◌++◌, if◌then◌else◌, nat_lt};
ghost use Rattle.std.proofs.Common.{rules};
ghost use Rattle.arrayvec.specs.ArrayVec.{array_vec_len};

use arrayvec::ArrayVec;
use sealing::Domain;
use std::array;
use sycon::engine::{Engine, StateBytes};

/// How many events a recorder has room for.
pub const ROOM: usize = 32;

/// What was done to the state since it was last loaded or permuted.
#[derive(Clone, Copy)]
pub enum Event {
    Loaded(StateBytes),
    Permuted {
        block: [u8; 8],
        domain: Domain,
        rounds: usize,
    },
}

// An `ArrayVec` keeps it in the places that are not used.
impl Default for Event {
    fn default() -> Event {
        Event::Loaded([0; 40])
    }
}

/// Another engine, the first bytes and the last of its state as the last event left them, and the events.
#[derive(Drop)]
pub struct Recorder<E> {
    engine: E,
    front: [u8; 8],
    last: u8,
    events: ArrayVec<Event, ROOM>,
}

impl<E: Engine> Engine for Recorder<E> {
    ghost state = { λ x. E.Engine.state x.engine };

    ghost whole = { Prim.search rules };

    fn load(&mut self, bytes: &StateBytes) {
        self.engine.load(bytes);
        self.note(Event::Loaded(*bytes));
    }

    fn byte(&self, k: usize) -> u8 {
        self.engine.byte(k)
    }

    fn set_byte(&mut self, k: usize, b: u8) {
        self.engine.set_byte(k, b);
    }

    fn turn(&mut self, r: usize) {
        let event = self.permuted(r);
        self.engine.turn(r);
        self.note(event);
    }
}

impl<E: Engine> Recorder<E> {
    pub fn new(engine: E) -> Self
        ensures engine { result.engine ≡ engine }
        ensures events { result.events.items ≡ [] }
    {
        Recorder {
            engine,
            front: [0; 8],
            last: 0,
            events: ArrayVec::new(),
        }
    }

    /// The events since the last `forget`, the oldest first; past `ROOM` none is kept.
    pub fn events(&self) -> &[Event]
        ensures { result.now ≡ self.now.events.items }
    {
        self.events.as_slice()
    }

    pub fn forget(&mut self)
        ensures engine { self.new.engine ≡ self.old.engine }
        ensures events { self.new.events.items ≡ [] }
    {
        self.events.clear();
    }

    // What changed since the last event: a block in the first bytes, and a domain in the last.
    fn permuted(&self, rounds: usize) -> Event {
        Event::Permuted {
            block: array::from_fn(|k| self.engine.byte(k) ^ self.front[k]),
            domain: domain_of(self.engine.byte(39) ^ self.last),
            rounds,
        }
    }

    fn note(&mut self, event: Event)
        ensures engine { self.new.engine ≡ self.old.engine }
        ensures events { self.new.events.items
            ≡ (if nat_lt (array_vec_len self.old.events) 32
            then self.old.events.items ++ event ∷ [] else self.old.events.items) }
    {
        self.front = array::from_fn(|k| self.engine.byte(k));
        self.last = self.engine.byte(39);
        let _ = self.events.try_push(event);
    }
}

// The domain whose three bits stand at the end of this byte, the unit last.
fn domain_of(byte: u8) -> Domain {
    Domain(byte.reverse_bits() & 7)
}
