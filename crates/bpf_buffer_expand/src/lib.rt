//! States of a search on CPUs with store buffers as bytes, and what moves lead to from such bytes.
#![tactic(auto)]

mod buffers;
mod expander;
mod filter;
mod fits;
mod jobs;
pub mod laws;
mod lines;
mod room;
mod successor;

pub use expander::BufferExpander;
pub use filter::{BufferFilter, first_line};
pub use successor::Successor;
