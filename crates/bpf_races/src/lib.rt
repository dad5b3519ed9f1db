//! The data races of jobs, whatever the order of the CPUs' turns.
#![tactic(auto)]

mod access;
mod clash;
mod exchanging;
mod found;
mod gathering;
pub mod laws;
mod listing;
mod next;
mod search;
mod searched;
mod shape;
mod sync;
mod within;

pub use access::Access;
pub use found::{Pair, Race};
pub use gathering::gather_races;
pub use listing::{comment_races, list_races, list_races_in};
pub use next::{Next, Watcher};
pub use search::{Races, find_races, find_races_patiently};
pub use searched::Searched;
pub use sync::{Part, synced_parts};
pub use within::races_in;
