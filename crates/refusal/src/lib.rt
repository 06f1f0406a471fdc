//! Why a call refuses.

#![tactic(auto)]

ghost use Rattle.refusal.specs.Numbers.{number as number_of, word as word_of};
ghost use Rattle.std.specs.Prelude.{◌≡◌, Some};

use std::error::Error;
use std::fmt;

/// A refusal. Each has a number and a word that stay the same from one edition to the next.
#[derive(Clone, Copy, PartialEq, Eq, Debug)]
pub enum Refusal {
    /// A length is wrong: a key, a nonce or a seal is not 16 bytes, a digest's place is not 32, or a place is too short.
    Measure = 6,
    /// The seal is not the one that belongs to these bytes.
    BrokenSeal = 12,
}

impl Refusal {
    pub fn number(self) -> u8
        ensures { result ≡ number_of self }
    {
        self as u8
    }

    pub fn word(self) -> &'static str
        ensures { result.now ≡ word_of self }
    {
        match self {
            Refusal::Measure => "measure",
            Refusal::BrokenSeal => "broken seal",
        }
    }
}

/// Prints the word.
impl fmt::Display for Refusal {
    ghost output = { λ refusal. Some (word_of refusal) };

    fn fmt<W: fmt::Write>(&self, f: &mut fmt::Formatter<W>) -> fmt::Result {
        f.write_str(self.word())
    }
}

impl Error for Refusal {}
