//! The names that a run file gives: of its maps and arrays, and of variables in arrays.
#![tactic(auto)]

mod names;

pub use names::{Names, Variable, bytes_in};
