//! Whether worker threads may reach outcomes that turns don't, by what programs can do.
#![tactic(auto)]

mod after;
mod bounding;
mod chart;
mod counting;
mod drawing;
mod following;
mod lines;
mod outside;
mod spot;
mod threads;

pub use chart::Drawn;
pub use counting::{Counted, Kind};
pub use lines::{push_notes, push_threads};
pub use spot::Spot;
pub use threads::{Threads, may_differ};
