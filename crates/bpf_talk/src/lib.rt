//! Conversations: lines are read from a terminal as they come, and each is answered before more is
//! read.
#![tactic(auto)]

pub mod respond;
pub mod talking;
pub mod terminal;

pub use respond::Respond;
pub use talking::{MAX_LINE, Stop, Talked, talk};
pub use terminal::{Console, Terminal};
