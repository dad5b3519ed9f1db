//! The elements of a map: each is owned by one CPU at a time, or by none.
#![tactic(auto)]

mod arena;
mod element;

pub use arena::Arena;
pub use element::Element;
