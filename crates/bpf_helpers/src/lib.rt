//! The helpers that a program calls (bpf-helpers(7)), over any shared store. No call takes memory.
#![tactic(auto)]

mod answers;
pub mod arrays;
mod bins;
pub mod calls;
mod copying;
pub mod fault;
mod gathered;
pub mod given;
mod grid;
pub mod held;
mod indexed;
pub mod laws;
mod numbers;
mod reading;

pub use arrays::array_with;
pub use calls::call;
pub use fault::HelperFault;
pub use given::{Given, answer_job, asks_once, is_of_job};
pub use held::{HeldSpans, KeptSpans};
