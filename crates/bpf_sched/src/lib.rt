//! Jobs on threads: what each CPU of a store does with its jobs, and the one history of them all.
#![tactic(auto)]

pub mod assignment;
pub mod crew;
mod filling;
pub mod gate;
pub mod jobs;
pub mod laws;
pub mod refusal;
pub mod room;
mod telling;
pub mod worker;
pub mod workload;

pub use assignment::Assignment;
pub use crew::{Asked, Report, run_ports};
pub use filling::run_filled;
pub use gate::{Gate, Gated, NoGate};
pub use jobs::run_jobs;
pub use refusal::{Refused, SchedError};
pub use room::Room;
pub use worker::Worker;
pub use workload::Workload;
