//! The words of the concurrent store: the rule that holds between any two steps on them.
#![tactic(auto)]

mod answering;
mod closing;
mod dealing;
mod fixed;
mod guarded;
mod known;
mod lane;
pub mod laws;
mod locking;
mod making;
mod owning;
mod peeking;
mod running;
mod splitting;
mod table;
mod touching;
mod walking;

pub use answering::Request;
pub use closing::{Rest, Returned};
pub use dealing::Lanes;
pub use fixed::FixedPart;
pub use known::{Change, Fresh, Known, Limbo, Lock, Peek, Reading, Sight, View};
pub use lane::Lane;
pub use locking::Stamped;
pub use table::{HopTable, OneRule};
pub use touching::{Operation, ValuePart};
pub use walking::{Way, towards};
