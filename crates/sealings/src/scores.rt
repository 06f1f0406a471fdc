//! The lines of the input, each tried with both engines.

use crate::line::{Bits, DigestLine, Line, Unread};
use crate::trial::{Case, Digested, Score};
use crate::{line, trial};
use columns::Columns;
use sealing::{Rate, Rate64, Rate96};
use sliced::Sliced;
use std::alloc::{AllocError, Global};
use std::io;

// The length of the long text.
const LONG: usize = 60_000;

// What belongs to each engine.
#[derive(Clone, Copy, Default)]
struct PerEngine<T> {
    sliced: T,
    columns: T,
}

// What belongs to each rate.
#[derive(Clone, Copy, Default)]
struct PerRate<T> {
    narrow: T,
    wide: T,
}

type CaseScores = PerRate<PerEngine<Score>>;

/// What came of all lines.
#[derive(Clone, Copy, Default)]
pub struct Scores {
    unread: u64,
    cases: CaseScores,
    long: CaseScores,
    digests: PerEngine<Digested>,
}

pub fn read(rt: &HostRuntime) -> io::Result<Scores> {
    let heap = rt.alloc();
    let text = long_text(heap)?;
    let mut scores = Scores::default();
    for line in rt.lines(heap) {
        scores.note(heap, line?.as_str(), text.as_slice())?;
    }
    Ok(scores)
}

// The highest bytes of a linear congruential sequence. The model makes its long text by the same rule.
fn long_text(heap: Global) -> Result<Vec<u8>, AllocError> {
    let mut text = Vec::new(heap);
    let mut x = 1u32;
    for _ in 0..LONG {
        x = x.wrapping_mul(1664525).wrapping_add(1013904223);
        let [highest, ..] = x.to_be_bytes();
        text.push(highest)?;
    }
    Ok(text)
}

impl Scores {
    fn note(&mut self, heap: Global, line: &str, long_text: &[u8]) -> Result<(), AllocError> {
        match line::parse(heap, line) {
            Ok(Line::Sealing(bits, parts)) => {
                note_case(heap, &mut self.cases, bits, parts.case())?;
            }
            Ok(Line::Long(bits, parts)) => {
                note_case(heap, &mut self.long, bits, parts.case(long_text))?;
            }
            Ok(Line::Digest(parts)) => note_digest(&mut self.digests, &parts),
            // The lines behind one that no memory was left for are read all the same.
            Err(Unread::NoLine | Unread::NoMemory(_)) => {
                self.unread = self.unread.saturating_add(1);
            }
        }
        Ok(())
    }

    pub fn report(&self, rt: &HostRuntime) -> io::Result<()> {
        println!(rt; "lines that are none: {}", self.unread)?;
        report_cases(rt, "cases", &self.cases)?;
        report_cases(rt, "long text", &self.long)?;
        println!(rt; "digests, five words: {}", self.digests.sliced)?;
        println!(rt; "digests, 64 columns: {}", self.digests.columns)
    }
}

fn report_cases(rt: &HostRuntime, name: &str, scores: &CaseScores) -> io::Result<()> {
    for (rate, engine, score) in [
        ("64 bits", "five words", scores.narrow.sliced),
        ("64 bits", "64 columns", scores.narrow.columns),
        ("96 bits", "five words", scores.wide.sliced),
        ("96 bits", "64 columns", scores.wide.columns),
    ] {
        let Score {
            sealed,
            seal,
            opened,
        } = score;
        println!(rt; "{name}, {rate}, {engine}, sealed: {sealed}, seal {seal}")?;
        println!(rt; "{name}, {rate}, {engine}, opened: {opened}")?;
    }
    Ok(())
}

fn note_case(
    heap: Global,
    scores: &mut CaseScores,
    bits: Bits,
    case: Case<'_>,
) -> Result<(), AllocError> {
    match bits {
        Bits::Narrow => note_with_both::<Rate64>(heap, &mut scores.narrow, case),
        Bits::Wide => note_with_both::<Rate96>(heap, &mut scores.wide, case),
    }
}

fn note_with_both<R: Rate>(
    heap: Global,
    scores: &mut PerEngine<Score>,
    case: Case<'_>,
) -> Result<(), AllocError> {
    trial::seal_and_open::<R, Sliced>(heap, &mut Sliced::new(), case, &mut scores.sliced)?;
    trial::seal_and_open::<R, Columns>(heap, &mut Columns::new(), case, &mut scores.columns)
}

fn note_digest(scores: &mut PerEngine<Digested>, line: &DigestLine) {
    let text = line.text.as_slice();
    let digest = line.digest.as_slice();
    trial::digest_text(&mut Sliced::new(), text, digest, &mut scores.sliced);
    trial::digest_text(&mut Columns::new(), text, digest, &mut scores.columns);
}
