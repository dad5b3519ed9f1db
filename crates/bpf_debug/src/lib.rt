//! A debugger: commands that step the CPUs of a machine in any order, and show what they see.
#![tactic(auto)]

pub mod breakpoint;
pub mod command;
pub mod course;
pub mod error;
pub mod going;
pub mod held;
mod help;
pub mod laws;
pub mod lines;
pub mod maps;
pub mod nearby;
mod origin;
mod places;
pub mod reading;
pub mod recall;
mod schedule;
pub mod script;
pub mod session;
pub mod show;
pub mod text;
pub mod told;
mod turns;
pub mod watch;

pub use command::Command;
pub use error::DebugError;
pub use reading::byte;
pub use script::{Answer, answer, run_script};
pub use session::Session;
