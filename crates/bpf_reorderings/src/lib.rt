//! Every outcome of jobs on CPUs with store buffers, whatever the order of turns and flushes.
#![tactic(auto)]

mod answers;
mod edges;
mod ends;
mod explorer;
mod exploring;
mod hung;
pub mod laws;
mod trying;

pub use exploring::{Bounds, explore_patiently_with_buffers, explore_with_buffers};
