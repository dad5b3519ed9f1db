//! The jobs of a run file on worker threads, over the concurrent store: what is printed of
//! them.
#![tactic(auto)]

mod arrays;
pub mod laws;
mod left;
mod names;
mod stats;
mod telling;
mod variables;
mod workers;

pub use telling::{Counted, Extras};
pub use workers::{WorkError, run_counted};
