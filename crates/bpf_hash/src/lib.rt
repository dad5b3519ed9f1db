//! The hash maps of a plain store: a store of one thread, which answers what the definitions allow
//! of maps, with the choices that they leave to it. Of arrays it knows nothing.
#![tactic(auto)]

mod home;
mod index;
pub mod laws;
mod marks;
mod runs;
mod store;
mod table;

pub use store::HashStore;
