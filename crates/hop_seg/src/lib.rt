//! One segment of a hopscotch hash table (Herlihy, Shavit and Tzafrir, "Hopscotch Hashing", DISC
//! 2008): 64 buckets with neighbourhoods of 32, and an overflow list for items that find no place.
//! Its words are read and written through a trait. No call takes memory, and none refuses.
#![tactic(auto)]

mod held;
mod hop_bits;
pub mod insertion;
mod items;
pub mod places;
pub mod plain;
pub mod removal;
pub mod search;
pub mod splitting;
pub mod words;

pub use insertion::{Landing, insert};
pub use removal::{remove, remove_at, replace, replace_at};
pub use search::{Spot, find, locate};
pub use splitting::{ChildWords, split};
pub use words::{SegReads, SegWords};

#[cfg(test)]
mod tests;
