//! What a fault was over: the state of its CPU before the step, and what could be reached from it;
//! and in which loop a job was that ended out of budget.
//!
//! A machine is run once more for it, so nothing is kept for this while jobs run.
#![tactic(auto)]

mod area;
mod arrays;
mod evidence;
mod looping;
mod named;
mod operand;
mod watch;
mod words;

pub use evidence::{Evidence, Seen};
pub use looping::{Loop, describe_loop};
pub use named::Maps;
pub use watch::evidence_of;
pub use words::describe;
