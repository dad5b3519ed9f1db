//! Runs, and the elements that left their map while a CPU in a run may still hold them.
#![tactic(auto)]

mod batches;
mod runs;

pub use batches::{Batches, Used};
pub use runs::{begin_run, end_run};
