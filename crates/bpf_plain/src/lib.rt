//! The plain store: a shared store of one thread, which answers what the definitions allow, with
//! the choices that they leave to it. It has hash maps and, beside them, the bytes of arrays.
#![tactic(auto)]

mod bytes;
mod changes;
mod copying;
pub mod laws;
mod plain;
mod reading;

pub use copying::copy_shape;
pub use plain::PlainStore;
