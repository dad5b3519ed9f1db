//! Texts of lines: cut into lines, fields and words, numbers that digits write, and bytes as hex
//! digits.
#![tactic(auto)]

pub mod hex_text;
pub mod lines;
pub mod numbers;
pub mod words;

pub use hex_text::{HexError, from_hex, to_hex};
