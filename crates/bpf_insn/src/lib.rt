//! BPF instructions as values, and as bytes, after RFC 9669.
#![tactic(auto)]

mod candidate;
mod codes;
mod decoder;
mod encoder;
pub mod error;
mod fault;
pub mod instruction;
pub mod laws;
pub mod operation;
mod reading;
pub mod register;
mod row;
mod table;
mod word;

pub use decoder::decode;
pub use encoder::encode;
pub use error::InsnError;
pub use instruction::{Insn, Operand};
pub use operation::{
    ALU_OPS, ATOMIC_OPS, AluOp, AtomicOp, ByteSwap, CONDITIONS, Condition, SignExtension,
    SignedSize, Size, SwapWidth, Width,
};
pub use register::Reg;
