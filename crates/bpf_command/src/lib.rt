//! The command line of `ebpf`: what `clap` knows of it, and the command that words name.
#![tactic(auto)]

pub mod command;
pub mod command_line;
mod given;
mod options;

pub use command::{
    CheckOptions, Command, FileOptions, HistoryOptions, JudgeOptions, MAX_LIMIT, MAX_PARTS,
    MAX_WORKERS, RaceOptions, Request, RunOptions, SearchOptions, ShowOptions, SpreadOptions,
    X86Options,
};
pub use command_line::{CommandError, request_of};
