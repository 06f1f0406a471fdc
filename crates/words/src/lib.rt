//! The state as five words: loaded, read and written by bytes, diffused there and back, and given a constant.

#![tactic(auto)]

mod row;

pub use row::words::Words;
