//! The pages, by what the codes are of.

pub mod debugger;
pub mod files;
pub mod program;
pub mod running;
pub mod states;
pub mod terms;
pub mod text;
pub mod workers;
