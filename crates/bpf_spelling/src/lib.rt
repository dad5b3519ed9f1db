//! How the assembly language spells words, signs and operations: one table each, read both ways.
#![tactic(auto)]

pub mod atomics;
pub mod helpers;
pub mod keywords;
pub mod operators;
pub mod registers;
pub mod signs;

pub use atomics::AtomicForm;
pub use helpers::{Helper, helper_named};
pub use keywords::Keyword;
pub use operators::Operator;
pub use signs::Sign;
