//! Schedules as text: the turns of CPUs in run lengths, as `0*9 1*10 0*2`.
#![tactic(auto)]

mod moves;
mod printed;
mod reading;

pub use moves::{FLUSH, moves_are_read_back, moves_in, moves_in_word, moves_of, push_moves};
pub use printed::push_runs;
pub use reading::{printed_is_read_back, run_in, runs_in, runs_of};
