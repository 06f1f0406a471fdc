//! The engine of five words.

#![tactic(auto)]

mod steps;

pub use steps::engine::Sliced;
