//! The published examples of sealing and of the digest: whatever the engine, what comes out is what was published.

#![tactic(auto)]

mod example;

pub use example::{KEY, LABEL, Sealed, TEXT, digest_example, seal_example};
