//! Sealing, opening and digest, written once for any engine and any rate.

#![tactic(auto)]

mod mode;

pub use mode::digest::digest;
pub use mode::open::open;
pub use mode::seal::seal;
pub use mode::under::Under;
pub use sponge::{Domain, Rate, Rate64, Rate96, absorb};
