//! Sycon's sponge, written once for any engine and any rate: what sealing, opening and digest are made of.

#![tactic(auto)]

mod block;
pub mod examples;
mod rate;

pub use block::keyed::{absorb_label, finish, start};
pub use block::squeeze::squeeze;
pub use block::stream::{absorb_message, end, feed};
pub use block::{Domain, absorb};
pub use rate::{Rate, Rate64, Rate96};
