//! Sealing, opening and digest with both engines at both rates. What is expected of the lines of the input
//! comes from a model of Sycon in another language. Each count is of what was as expected, and of how many.

#![tactic(auto)]

mod damage;
mod line;
mod measures;
mod place;
mod scores;
mod tally;
mod trial;

use columns::Columns;
use damage::Damages;
use measures::Measures;
use sealing::{Rate, Rate64, Rate96};
use sliced::Sliced;
use std::alloc::{AllocError, Global};
use std::io;

fn main(rt: HostRuntime) -> io::Result<()> {
    let scores = scores::read(&rt)?;
    scores.report(&rt)?;
    let damages = damages();
    println!(rt; "{damages}")?;
    let measures = wrong_lengths(rt.alloc())?;
    println!(rt; "{measures}")
}

fn damages() -> Damages {
    let mut score = Damages::default();
    damages_at::<Rate64>(&mut score);
    damages_at::<Rate96>(&mut score);
    score
}

fn damages_at<R: Rate>(score: &mut Damages) {
    damage::deliver::<R, Sliced>(&mut Sliced::new(), score);
    damage::deliver::<R, Columns>(&mut Columns::new(), score);
}

fn wrong_lengths(heap: Global) -> Result<Measures, AllocError> {
    let mut score = Measures::default();
    wrong_lengths_at::<Rate64>(heap, &mut score)?;
    wrong_lengths_at::<Rate96>(heap, &mut score)?;
    measures::measure_digest::<Sliced>(heap, &mut Sliced::new(), &mut score)?;
    measures::measure_digest::<Columns>(heap, &mut Columns::new(), &mut score)?;
    Ok(score)
}

fn wrong_lengths_at<R: Rate>(heap: Global, score: &mut Measures) -> Result<(), AllocError> {
    measures::measure::<R, Sliced>(heap, &mut Sliced::new(), score)?;
    measures::measure::<R, Columns>(heap, &mut Columns::new(), score)
}
