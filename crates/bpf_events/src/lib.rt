//! The history of jobs on one thread: what their CPUs did at the store, an event a line.
#![tactic(auto)]

mod history;
pub mod laws;
mod lines;
mod note;
mod recorder;
mod telling;
mod watching;

pub use history::run_with_history;
pub use lines::{note_text, push_note};
pub use note::{Note, Place};
pub use recorder::Recorder;
pub use watching::{note_stage, watch};
