//! Cases from a model of Sycon, turned ahead and back by both engines and compared; then the edges of an engine's calls, and
//! the worked examples. A case is a line: the number of rounds, a state, and what the rounds make of it.

#![tactic(auto)]

use agreement::{turned, turned_back};
use columns::Columns;
use hex::FromHex;
use sliced::Sliced;
use std::str::FromStr;
use std::{array, fmt, io};
use sycon::engine::{Engine, StateBytes, TwoWay};
use sycon::examples::worked_examples;
use sycon::{engine, laws};

#[derive(Clone, Copy)]
struct Case {
    rounds: usize,
    before: StateBytes,
    after: StateBytes,
}

/// How many cases an engine met, ahead and back.
#[derive(Clone, Copy, Default)]
struct Met {
    ahead: u64,
    back: u64,
}

#[derive(Clone, Copy, Default)]
struct Score {
    cases: u64,
    unread: u64,
    sliced: Met,
    columns: Met,
}

fn main(rt: HostRuntime) -> io::Result<()> {
    let score = read(&rt)?;
    println!(rt; "{score}")?;
    edges(&rt, "five words", &mut Sliced::new())?;
    edges(&rt, "64 columns", &mut Columns::new())?;
    examples(&rt)
}

fn read(rt: &HostRuntime) -> io::Result<Score> {
    let mut score = Score::default();
    for line in rt.lines(rt.alloc()) {
        match line?.as_str().parse::<Case>() {
            Ok(case) => score.note(&case),
            Err(NoCase) => score.note_unread(),
        }
    }
    Ok(score)
}

impl Score {
    fn note(&mut self, case: &Case) {
        let ahead = turned(&case.before, case.rounds);
        let back = turned_back(&case.after, case.rounds);
        self.cases = self.cases.saturating_add(1);
        self.sliced
            .note(ahead.sliced == case.after, back.sliced == case.before);
        self.columns
            .note(ahead.columns == case.after, back.columns == case.before);
    }

    fn note_unread(&mut self) {
        self.unread = self.unread.saturating_add(1);
    }
}

impl fmt::Display for Score {
    fn fmt<W: fmt::Write>(&self, f: &mut fmt::Formatter<W>) -> fmt::Result {
        let Score {
            cases,
            unread,
            sliced,
            columns,
        } = *self;
        writeln!(f, "cases: {cases}, lines that are none: {unread}")?;
        writeln!(f, "five words: {sliced}")?;
        write!(f, "64 columns: {columns}")
    }
}

impl Met {
    fn note(&mut self, ahead: bool, back: bool) {
        self.ahead = self.ahead.saturating_add(u64::from(ahead));
        self.back = self.back.saturating_add(u64::from(back));
    }
}

impl fmt::Display for Met {
    fn fmt<W: fmt::Write>(&self, f: &mut fmt::Formatter<W>) -> fmt::Result {
        let Met { ahead, back } = *self;
        write!(f, "{ahead} met ahead, {back} met back")
    }
}

/// The line is no case.
#[derive(Clone, Copy, Debug)]
struct NoCase;

impl FromStr for Case {
    type Err = NoCase;

    fn from_str(line: &str) -> Result<Case, NoCase> {
        let mut words = line.split(' ');
        let rounds = words.next().ok_or(NoCase)?;
        let before = words.next().ok_or(NoCase)?;
        let after = words.next().ok_or(NoCase)?;
        Ok(Case {
            rounds: rounds.parse().map_err(|_| NoCase)?,
            before: state(before)?,
            after: state(after)?,
        })
    }
}

// 40 bytes, each as two hexadecimal digits. The cases have no capital letters, and a line that has some is none; they are looked
// for last, in words of the right length alone. The program sealings tests its lines for them too, but the two share no crate.
fn state(digits: &str) -> Result<StateBytes, NoCase> {
    let bytes = StateBytes::from_hex(digits).map_err(|_| NoCase)?;
    if digits.bytes().any(|c| c.is_ascii_uppercase()) {
        return Err(NoCase);
    }
    Ok(bytes)
}

fn edges<E: TwoWay>(rt: &HostRuntime, name: &str, engine: &mut E) -> io::Result<()> {
    let mut bytes: StateBytes = array::from_fn(|k| 100 + k as u8);
    engine.load(&bytes);
    let last = engine.byte(39);
    let past = engine.byte(40);
    let far = engine.byte(usize::MAX);
    println!(rt; "{name}: byte 39 is {last}, byte 40 is {past}, the byte furthest out is {far}")?;
    engine.set_byte(40, 1);
    engine.set_byte(usize::MAX, 1);
    println!(rt; "{name}: set past the end, {}", held(engine, &bytes))?;
    laws::there_and_back(engine, 14);
    laws::back_and_there(engine, usize::MAX);
    println!(rt;
        "{name}: turned there and back, and back and there, {}",
        held(engine, &bytes)
    )?;
    engine.set_byte(39, 1);
    bytes[39] = 1;
    println!(rt; "{name}: byte 39 set, {}", held(engine, &bytes))
}

fn held<E: TwoWay>(engine: &E, bytes: &StateBytes) -> &'static str {
    if engine::bytes(engine) == *bytes {
        "as expected"
    } else {
        "NOT as expected"
    }
}

fn examples(rt: &HostRuntime) -> io::Result<()> {
    let shown = worked_examples();
    let [s0, s1, s16, s31] = shown.substituted;
    let [p0, p1, p2, p3, p4, p319] = shown.origins;
    let diffused = shown.diffused_word;
    let arranged = shown.arranged_word;
    println!(rt; "S-box at 0, 1, 16, 31: {s0} {s1} {s16} {s31}")?;
    println!(rt; "origins 0 to 4 and 319: {p0} {p1} {p2} {p3} {p4} {p319}")?;
    println!(rt; "A_0 = 1, diffused: {diffused:016X}")?;
    println!(rt; "A_1 = 8000000000000000, arranged: {arranged:016X}")
}
