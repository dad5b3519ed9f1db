//! Machines that are the same but for places of CPUs and of jobs.
#![tactic(auto)]

mod finding;
pub mod laws;
mod peers;
mod twins;
mod unmarked;

pub use finding::find_peers;
pub use peers::Peer;
pub use twins::Twins;
