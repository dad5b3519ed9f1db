//! Instructions as canonical assembly text, which is read back as the same instructions, and
//! listings of programs.
#![tactic(auto)]

mod atomic;
pub mod laws;
mod line;
pub mod listing;
mod pieces;
mod program;

pub use listing::{program_lines, source_lines};
pub use program::disassemble;
