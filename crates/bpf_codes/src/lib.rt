//! The codes that the program prints, and what is printed of a refusal: its code with its place.
#![tactic(auto)]

pub mod code;
pub mod diagnostic;

pub use code::{CODES, Code, code_named};
pub use diagnostic::{Diagnostic, Position};
