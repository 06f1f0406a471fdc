//! Bytes as they are printed.

use std::fmt;

/// Bytes, each as two hexadecimal digits.
#[derive(Clone, Copy)]
pub struct Hex<'a>(pub &'a [u8]);

impl fmt::Display for Hex<'_> {
    fn fmt<W: fmt::Write>(&self, f: &mut fmt::Formatter<W>) -> fmt::Result {
        for b in self.0 {
            write!(f, "{b:02X}")?;
        }
        Ok(())
    }
}

/// Braille in its ASCII, with a bar at the end of each line.
#[derive(Clone, Copy)]
pub struct Braille<'a>(pub &'a [u8]);

impl fmt::Display for Braille<'_> {
    fn fmt<W: fmt::Write>(&self, f: &mut fmt::Formatter<W>) -> fmt::Result {
        for b in self.0 {
            let c = if *b == b'\n' { '|' } else { char::from(*b) };
            write!(f, "{c}")?;
        }
        Ok(())
    }
}
