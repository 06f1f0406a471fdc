//! Sycon's permutation as a definition, and the traits of what computes it.

#![tactic(auto)]

pub mod engine;
pub mod examples;
pub mod laws;
pub mod published;
pub mod rounds;
