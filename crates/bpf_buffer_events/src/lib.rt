//! The history of jobs on CPUs with store buffers: what the CPUs did at the store, and where each
//! waiting store reached memory, an event a line.
#![tactic(auto)]

mod history;
pub mod laws;
mod lines;
mod telling;
mod watching;

pub use history::run_with_buffer_events;
