//! How many threads make the turns of a search.

use bpf_command::{Command, MAX_WORKERS};
use bpf_explore::{Threaded, on_threads};
use std::thread;
use std::thread::Threads;

/// As many as there are processors, if that is known.
fn all_processors<T: Threads>(rt: &T) -> usize {
    match thread::available_parallelism(rt) {
        Ok(count) => count.get().min(MAX_WORKERS as usize),
        Err(_) => 1,
    }
}

/// As many as are asked for, or else as there are processors.
pub(crate) fn crew_of<T: Threads + Sync>(rt: &T, asked: Option<u8>) -> Threaded<'_, T> {
    let workers = match asked {
        Some(workers) => usize::from(workers),
        None => all_processors(rt),
    };
    on_threads(rt, workers)
}

/// How many a command asks for. One without a search of turns has one.
pub(crate) fn asked_workers(command: &Command) -> Option<u8> {
    match command {
        Command::Explore(search) => search.workers,
        Command::Check(options) => options.search.workers,
        Command::Show(options) => options.search.workers,
        Command::Races(options) => options.search.workers,
        _ => Some(1),
    }
}
