//! A debugger for CPUs with store buffers: commands that make turns and flushes in any order, and show
//! what the CPUs see.
#![tactic(auto)]

pub mod command;
mod going;
mod help;
pub mod laws;
mod lines;
mod moves;
mod nearby;
mod recall;
mod schedule;
mod script;
mod seeing;
pub mod session;
mod waiting;

pub use script::{answer, run_script};
pub use session::{Session, has_any_stopped};
