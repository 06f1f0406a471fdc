//! One braille text sealed, opened again, and then refused, with each action printed.

#![tactic(auto)]

mod recorder;
mod shown;

use recorder::{Event, Recorder};
use refusal::Refusal;
use sealing::{Domain, Rate64, Under, open, seal};
use shown::{Braille, Hex};
use sliced::Sliced;
use std::{fmt, io};
use sycon::engine::StateBytes;

type Engine = Recorder<Sliced>;

const KEY: &[u8; 16] = b"ATLAS BINDERY 07";
// school 207, run 5
const NONCE: &[u8; 16] = &[0, 0, 0, 0, 0, 0, 0, 207, 0, 0, 0, 0, 0, 0, 0, 5];

const LABEL: &[u8; 28] = b"BV1,207,1,3,25,40,48,ATLAS 2";

const TEXT: &[u8; 47] = b",! ,NOR? ,SEA\nDEP?S IN METRES\n#AJ #BE #EJ #AJJ\n";

const UNDER: Under<'static> = Under {
    key: KEY,
    nonce: NONCE,
    label: LABEL,
};

fn main(rt: HostRuntime) -> io::Result<()> {
    let mut engine = Recorder::new(Sliced::new());
    let mut sealed = [0u8; TEXT.len()];
    let mut tag = [0u8; 16];
    println!(rt; "A text is sealed at 64 bits.")?;
    println!(rt; "key: {}", Hex(KEY))?;
    println!(rt; "nonce of school 207, run 5: {}", Hex(NONCE))?;
    println!(rt; "label: {}", Braille(LABEL))?;
    println!(rt; "text: {}", Braille(TEXT))?;
    let answer = seal::<Rate64, Engine>(&mut engine, UNDER, TEXT, &mut sealed, &mut tag);
    events(&rt, &mut engine)?;
    println!(rt; "sealed bytes: {}", Hex(&sealed))?;
    println!(rt; "seal: {}", Hex(&tag))?;
    report(&rt, answer)?;

    println!(rt; "")?;
    println!(rt; "It is opened again.")?;
    opening(&rt, &mut engine, &sealed, &tag)?;

    println!(rt; "")?;
    println!(rt; "One sealed byte is changed, and it is opened once more.")?;
    let old = sealed[9];
    sealed[9] ^= 4;
    let new = sealed[9];
    println!(rt; "byte 9: {old:02X} becomes {new:02X}")?;
    opening(&rt, &mut engine, &sealed, &tag)
}

fn opening(rt: &HostRuntime, engine: &mut Engine, sealed: &[u8], tag: &[u8]) -> io::Result<()> {
    // what stood in the place before
    let mut text = [b'='; TEXT.len()];
    let answer = open::<Rate64, Engine>(engine, UNDER, sealed, tag, &mut text);
    events(rt, engine)?;
    match answer {
        Ok(()) => {
            println!(rt; "seal compared: it is the one given")?;
            report(rt, answer)?;
            println!(rt; "text: {}", Braille(&text))
        }
        Err(_) => {
            println!(rt; "seal compared: it is not the one given")?;
            report(rt, answer)?;
            println!(rt; "text's place: {}", Hex(&text))
        }
    }
}

fn report(rt: &HostRuntime, answer: Result<(), Refusal>) -> io::Result<()> {
    match answer {
        Ok(()) => println!(rt; "answer: done"),
        Err(refusal) => {
            let number = refusal.number();
            println!(rt; "answer: refused, {number} {refusal}")
        }
    }
}

// What the engine was given since the last time.
fn events(rt: &HostRuntime, engine: &mut Engine) -> io::Result<()> {
    for (i, event) in engine.events().iter().enumerate() {
        print_event(rt, Part::at(i), event)?;
    }
    engine.forget();
    Ok(())
}

/// What the permutation is given a part of.
#[derive(Clone, Copy)]
enum Part {
    Key,
    Label,
    Text,
}

// How many events come before the first of the label: loading, 14 rounds, two key blocks.
const LABEL_AT: usize = 4;

const TEXT_AT: usize = LABEL_AT + LABEL.len() / 8 + 1;

const TEXT_END: usize = TEXT_AT + TEXT.len() / 8 + 1;

impl Part {
    // What the event at a place is about; behind the text come two key blocks.
    fn at(i: usize) -> Part {
        match i {
            LABEL_AT..TEXT_AT => Part::Label,
            TEXT_AT..TEXT_END => Part::Text,
            _ => Part::Key,
        }
    }
}

impl fmt::Display for Part {
    fn fmt<W: fmt::Write>(&self, f: &mut fmt::Formatter<W>) -> fmt::Result {
        f.write_str(match self {
            Part::Key => "key",
            Part::Label => "label",
            Part::Text => "text",
        })
    }
}

fn print_event(rt: &HostRuntime, part: Part, event: &Event) -> io::Result<()> {
    match event {
        Event::Loaded(bytes) => loaded(rt, bytes),
        Event::Permuted {
            block,
            domain,
            rounds,
        } if *block == [0; 8] && *domain == Domain(0) => println!(rt; "{rounds} rounds"),
        Event::Permuted {
            block,
            domain: Domain(domain),
            rounds,
        } => println!(rt;
            "{part} block absorbed: {}, domain {domain}, {rounds} rounds",
            Hex(block)
        ),
    }
}

fn loaded(rt: &HostRuntime, bytes: &StateBytes) -> io::Result<()> {
    if *bytes == [0; 40] {
        return println!(rt; "engine cleared");
    }
    println!(rt; "key loaded: {}", Hex(&bytes[0..16]))?;
    println!(rt; "nonce loaded: {}", Hex(&bytes[16..32]))?;
    println!(rt; "initial vector loaded: {}", Hex(&bytes[32..40]))
}
