//! States of a search as bytes, and what the CPUs' turns lead to from such bytes.
#![tactic(auto)]

mod calls;
mod digits;
mod expander;
mod filter;
mod jobs;
pub mod laws;
mod lines;
mod origin;
mod parts;
mod records;
mod states;
mod successor;

pub use calls::{Called, Given, parts_of};
pub use expander::Expander;
pub use filter::{Filter, first_line, open};
pub use origin::Origin;
pub use parts::Parted;
pub use records::states_in;
pub use successor::Successor;
