//! Runs on a machine whose CPUs have store buffers: the moves of a schedule, then rounds until all
//! is done, and what is printed of them.
#![tactic(auto)]

pub mod laws;
mod listing;
mod making;
mod moves;
mod report;
mod rounds;

pub use making::make_buffering;
pub use moves::moves_by;
pub use report::{run_with_buffers, tell};
pub use rounds::{have_ended, run_rounds};
