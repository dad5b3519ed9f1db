//! The program `ebpf`: reads its words, does what they name, and nothing more.
#![tactic(auto)]

pub mod answering;
pub mod buffer_answering;
pub mod buffer_debugging;
pub mod buffer_expanding;
pub mod conversing;
pub mod debugging;
pub mod engine;
pub mod expanding;
mod explaining;
mod fault;
mod hung;
pub mod laws;
pub mod objects;
pub mod perform;
pub mod pipeline;
pub mod program;
pub mod progress;
pub mod racing;
pub mod reader;
pub mod recorder;
mod scouting;
pub mod spreading;
mod tracing;

use bpf_talk::Console;
use explaining::Failures;
use program::{end, program};
use reader::Reader;
use recorder::Recorder;
use std::env::Env;
use std::io::IsTerminal;
use std::process::ExitCode;
use std::{env, io};

/// The words of the command line, the first of them the program's name.
fn words(rt: &(impl Env + AllocGlobal)) -> io::Result<Vec<String>> {
    let words = env::args(rt)?.collect(rt.alloc())?;
    Ok(words)
}

fn main(rt: HostRuntime) -> ExitCode {
    let mut source = Reader::new(&rt, rt.stdin());
    let mut sink = Recorder::new(rt.stdout());
    let input = rt.stdin();
    let prompts = input.is_terminal();
    let mut terminal = Console::new(&rt, input, rt.stdout(), prompts);
    let ending = program(
        &rt,
        rt.alloc(),
        words(&rt),
        &mut source,
        &mut sink,
        &mut terminal,
    );
    let failures = Failures {
        source: source.failure(),
        terminal: terminal.failure(),
    };
    ExitCode::from(end(&rt, rt.alloc(), ending, failures))
}
