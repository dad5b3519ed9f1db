//! What is said beside an answer: where a refusal or a fault is, and what may be meant.
//!
//! The text is for people. It comes of the input and of what was printed, and changes neither.
#![tactic(auto)]

mod advice;
mod answers;
mod caret;
mod claims;
mod excerpt;
mod expected;
mod finding;
mod hints;
mod inputs;
mod labels;
mod lost;
mod places;
mod sights;
mod sources;
mod symbols;
mod warnings;
mod whole;

pub use advice::{Detail, Details, Input, advise};
pub use excerpt::Language;
pub use warnings::warnings_of;
pub use whole::{Places, places_in};
