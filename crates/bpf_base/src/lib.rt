//! What the crates above say of bytes and lists: bytes as little-endian numbers, lists with a part
//! replaced, what atomic operations leave; and how many steps a job may make. The definitions are in
//! specs/, the lemmas in proofs/; the code reads and writes numbers in bytes, does what atomic
//! operations do, and spreads numbers for hashes.
#![tactic(auto)]

pub mod atomic;
pub mod budget;
pub mod bytes;
mod hashes;
pub mod laws;

pub use atomic::Change;
pub use budget::{DEFAULT_BUDGET, MAX_BUDGET};
pub use hashes::spread;
