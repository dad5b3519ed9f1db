//! The arithmetic of BPF instructions on 64-bit registers, after RFC 9669, section 4.
//!
//! Every operation gives a number for any operands: none can fail.
#![tactic(auto)]

pub mod arithmetic;
pub mod bytes;
pub mod comparison;
pub mod extension;
mod low;

pub use arithmetic::{alu32, alu64, negate32, negate64};
pub use bytes::swap;
pub use comparison::{test32, test64};
pub use extension::sign_extend;
