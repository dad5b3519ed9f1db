//! Where the words of the concurrent store are, and where a key belongs.
#![tactic(auto)]

mod about;
mod bytes;
mod hash;
mod index;
pub mod laws;
mod place;

pub use about::About;
pub use bytes::{word_at, word_of};
pub use hash::home;
pub use index::{Index, depth, elements, first_depth, segments};
pub use place::Place;
