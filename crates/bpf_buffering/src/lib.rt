//! The x86 machine: jobs on CPUs whose plain stores wait in store buffers.
#![tactic(auto)]

mod ahead;
mod album;
mod buffering;
mod classes;
mod index;
mod jobs;
pub mod laws;
mod pools;
mod states;
mod waiting;

pub use album::Album;
pub use buffering::Buffering;
pub use jobs::Listed;
pub use pools::buffers::copy_buffers;
pub use waiting::Stored;
