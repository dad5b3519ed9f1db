//! The pairs that maps have at first, and the run in which a CPU puts them in.
#![tactic(auto)]

pub mod laws;
mod pairs;
mod putting;

pub use pairs::{Pair, count_in, has_key};
pub use putting::put_pairs;
