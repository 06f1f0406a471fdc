//! The lines of the input.

use crate::trial::{Case, Expected};
use sealing::Under;
use std::alloc::{AllocError, Global};
use std::str::{FromStr, Split};

#[derive(Clone, Copy)]
pub enum Bits {
    Narrow,
    Wide,
}

/// A line of the input. Bytes are written in hexadecimal digits, and none at all as a dash.
#[derive(Drop)]
pub enum Line {
    /// `64` or `96`, key, nonce, label, text, sealed bytes, seal
    Sealing(Bits, SealingLine),
    /// `long`, `64` or `96`, key, nonce, label, the digest of the sealed bytes, seal
    Long(Bits, LongLine),
    /// `digest`, text, its digest
    Digest(DigestLine),
}

#[derive(Drop)]
pub struct SealingLine {
    under: UnderWords,
    text: Vec<u8>,
    sealed: Vec<u8>,
    tag: Vec<u8>,
}

#[derive(Drop)]
pub struct LongLine {
    under: UnderWords,
    digest: Vec<u8>,
    tag: Vec<u8>,
}

#[derive(Drop)]
pub struct DigestLine {
    pub text: Vec<u8>,
    pub digest: Vec<u8>,
}

// Owns what an `Under` lends.
#[derive(Drop)]
struct UnderWords {
    key: Vec<u8>,
    nonce: Vec<u8>,
    label: Vec<u8>,
}

impl SealingLine {
    pub fn case(&self) -> Case<'_> {
        Case {
            under: self.under.lent(),
            text: self.text.as_slice(),
            sealed: Expected::Bytes(self.sealed.as_slice()),
            tag: self.tag.as_slice(),
        }
    }
}

impl LongLine {
    /// The line does not have the long text.
    pub fn case<'a>(&'a self, text: &'a [u8]) -> Case<'a> {
        Case {
            under: self.under.lent(),
            text,
            sealed: Expected::Digest(self.digest.as_slice()),
            tag: self.tag.as_slice(),
        }
    }
}

impl UnderWords {
    fn lent(&self) -> Under<'_> {
        Under {
            key: self.key.as_slice(),
            nonce: self.nonce.as_slice(),
            label: self.label.as_slice(),
        }
    }
}

/// Why no line was read.
#[derive(Clone, Copy, Debug)]
pub enum Unread {
    /// It is none.
    NoLine,
    /// No memory is left for its bytes.
    NoMemory(AllocError),
}

impl From<AllocError> for Unread {
    fn from(lack: AllocError) -> Unread {
        Unread::NoMemory(lack)
    }
}

pub fn parse(heap: Global, line: &str) -> Result<Line, Unread> {
    let mut words = Words {
        heap,
        rest: line.split(' '),
    };
    let line = match words.word()? {
        "digest" => Line::Digest(words.digest_line()?),
        "long" => Line::Long(words.bits()?, words.long_line()?),
        kind => Line::Sealing(kind.parse()?, words.sealing_line()?),
    };
    match words.rest.next() {
        None => Ok(line),
        Some(_) => Err(Unread::NoLine),
    }
}

impl FromStr for Bits {
    type Err = Unread;

    fn from_str(word: &str) -> Result<Bits, Unread> {
        match word {
            "64" => Ok(Bits::Narrow),
            "96" => Ok(Bits::Wide),
            _ => Err(Unread::NoLine),
        }
    }
}

// The words of a line that are left, and where their bytes go.
#[derive(Drop)]
struct Words<'a> {
    heap: Global,
    rest: Split<'a, char>,
}

impl<'a> Words<'a> {
    fn word(&mut self) -> Result<&'a str, Unread> {
        self.rest.next().ok_or(Unread::NoLine)
    }

    fn bits(&mut self) -> Result<Bits, Unread> {
        self.word()?.parse()
    }

    // The model writes no capital letters, and a line that has some is none. The program states tests its cases for them too,
    // but the two share no crate. Memory is asked for only where all are digits.
    fn bytes(&mut self) -> Result<Vec<u8>, Unread> {
        let digits = match self.word()? {
            "-" => "",
            word if word.bytes().all(is_digit) => word,
            _ => return Err(Unread::NoLine),
        };
        let mut bytes = vec![in self.heap; 0; digits.len() / 2]?;
        hex::decode_to_slice(digits, bytes.as_mut_slice()).map_err(|_| Unread::NoLine)?;
        Ok(bytes)
    }

    fn under(&mut self) -> Result<UnderWords, Unread> {
        Ok(UnderWords {
            key: self.bytes()?,
            nonce: self.bytes()?,
            label: self.bytes()?,
        })
    }

    fn sealing_line(&mut self) -> Result<SealingLine, Unread> {
        Ok(SealingLine {
            under: self.under()?,
            text: self.bytes()?,
            sealed: self.bytes()?,
            tag: self.bytes()?,
        })
    }

    fn long_line(&mut self) -> Result<LongLine, Unread> {
        Ok(LongLine {
            under: self.under()?,
            digest: self.bytes()?,
            tag: self.bytes()?,
        })
    }

    fn digest_line(&mut self) -> Result<DigestLine, Unread> {
        Ok(DigestLine {
            text: self.bytes()?,
            digest: self.bytes()?,
        })
    }
}

fn is_digit(code: u8) -> bool {
    matches!(code, b'0'..=b'9' | b'a'..=b'f')
}
