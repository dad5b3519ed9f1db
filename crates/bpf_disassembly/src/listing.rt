//! Programs as listings: lines with the places and the words of their instructions.

pub mod laws;
mod place;
pub mod program;
pub mod source;

pub use program::program_lines;
pub use source::source_lines;
