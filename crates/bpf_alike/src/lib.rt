//! Machines that are alike but for registers that are written before they are read.
#![tactic(auto)]

mod jobs;
pub mod laws;

pub use jobs::{Merged, are_alike, are_stages_alike, live_hash, live_state_hash, live_tables};
