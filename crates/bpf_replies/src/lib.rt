//! What commands reply to a text, but for those of data races and of states, and how it is printed.
#![tactic(auto)]

pub mod buffer_script;
pub mod checking;
pub mod comments;
pub mod exploring;
pub mod input;
pub mod laws;
pub mod listing;
pub mod output;
pub mod printing;
pub mod programs;
pub mod racer;
pub mod refusal;
pub mod reordering;
pub mod reply;
pub mod running;
pub mod script;
pub mod several;
pub mod stream;
pub mod threading;
