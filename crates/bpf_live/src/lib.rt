//! Which registers a program may read before it writes them, by pc, and CPUs that are alike but for
//! the others.
#![tactic(auto)]

mod finding;
pub mod laws;
mod live;
mod needs;

pub use finding::{all_live, find_live};
pub use live::Live;
