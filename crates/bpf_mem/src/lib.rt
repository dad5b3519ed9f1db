//! The private memory of one CPU: its stack frames, its context and its packet.
#![tactic(auto)]

pub mod addresses;
mod atomic;
pub mod bytes;
pub mod context;
pub mod frames;
pub mod laws;
pub mod memory;
pub mod packet;
pub mod place;
pub mod words;

pub use addresses::is_aligned;
pub use bytes::{length, size_of_width};
pub use context::Context;
pub use frames::{Caller, Frames, KeptFrames};
pub use memory::PrivateMemory;
pub use packet::Packet;
pub use place::Place;
pub use words::{are_words, read_words, save_words};
