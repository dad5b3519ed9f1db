//! What the codes mean that the program prints: for each a page, with an input that gives it and
//! what to do; and pages of errors, flags, helpers and words of run files, by their names.
#![tactic(auto)]

pub mod definition;
pub mod page;
mod pages;
pub mod table;
pub mod term;
pub mod topic;

pub use definition::{Definition, definition_of};
pub use page::{Example, Page};
pub use table::page_of;
pub use term::Term;
pub use topic::{Topic, topic_named};
