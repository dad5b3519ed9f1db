//! Programs as text that people read and write.
#![tactic(auto)]

pub mod assembly;
pub mod error;
mod forms;
mod labels;
pub mod laws;
mod meaning;
pub mod misfit;
mod numbers;
pub mod places;
mod reading;
mod registers;
pub mod sizes;
mod source;
pub mod symbols;
mod targets;
mod token;
mod words;

pub use assembly::{assemble, assemble_with};
pub use error::TextError;
pub use misfit::{Misfit, misfit_in};
pub use places::token_places;
pub use reading::LineError;
pub use sizes::line_size;
pub use symbols::{Symbol, Symbols, name_symbol};
