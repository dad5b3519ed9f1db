//! Run files: CPUs, maps, arrays, variables, programs and jobs in one text.
#![tactic(auto)]

mod assembly;
mod contents;
mod draft;
pub mod error;
pub mod file;
mod form;
mod group;
mod key;
pub mod laws;
mod line;
mod packet;
mod program;
mod putting;
mod reader;
mod statement;
mod symbols;
mod variable;
mod version;

pub use error::{FileError, Reason};
pub use file::RunFile;
pub use reader::read_file;
