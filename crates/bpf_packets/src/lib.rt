//! What jobs leave in their packets: runs on one thread, and the packets of jobs that exit.
#![tactic(auto)]

mod keeping;
pub mod laws;
mod line;
mod running;
mod turning;

pub use running::run_with_packets;
