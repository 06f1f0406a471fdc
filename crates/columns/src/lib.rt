//! The engine of 64 columns.

#![tactic(auto)]

mod bits;

pub use bits::engine::Columns;
