//! Counting what held.

use std::fmt;

/// How often something was tried, and how often it held.
#[derive(Clone, Copy, Default)]
pub struct Tally {
    tried: u64,
    held: u64,
}

impl Tally {
    pub fn note(&mut self, held: bool) {
        self.tried = self.tried.saturating_add(1);
        self.held = self.held.saturating_add(u64::from(held));
    }
}

impl fmt::Display for Tally {
    fn fmt<W: fmt::Write>(&self, f: &mut fmt::Formatter<W>) -> fmt::Result {
        let Tally { tried, held } = *self;
        write!(f, "{held} of {tried}")
    }
}
