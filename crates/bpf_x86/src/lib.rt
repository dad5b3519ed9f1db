//! The x86 machine: what store buffers add to sequential consistency.
#![tactic(auto)]

mod firsts;
pub mod laws;

pub use firsts::firsts_fit;
