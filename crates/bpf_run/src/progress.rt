//! How far a search is, printed on standard error while it works.

use bpf_command::Command;
use bpf_explore::{Observer, Progress};
use std::io::IsTerminal;

/// Where something is printed beside the answer.
pub trait Aside {
    /// Whether somebody reads it as it comes.
    fn is_watched(&self) -> bool;

    /// Prints how far a search is, if that can be written.
    fn tell(&self, progress: Progress);
}

impl Aside for HostRuntime {
    fn is_watched(&self) -> bool {
        self.stderr().is_terminal()
    }

    fn tell(&self, progress: Progress) {
        let Progress { kept, left, bytes } = progress;
        let megabytes = bytes / 1_000_000;
        let _ = eprintln!(self; "{kept} states, {left} to go, {megabytes} MB");
    }
}

/// Prints how far a search is where that is asked for, or where somebody reads it as it comes.
#[derive(Clone, Copy)]
pub struct Teller<'a, T: Aside> {
    rt: &'a T,
    asked: bool,
}

impl<'a, T: Aside> Teller<'a, T> {
    /// One by this runtime.
    pub fn new(rt: &'a T, asked: bool) -> Teller<'a, T> {
        Teller { rt, asked }
    }
}

impl<T: Aside> Observer for Teller<'_, T> {
    fn see(&mut self, progress: Progress) {
        if self.asked || self.rt.is_watched() {
            self.rt.tell(progress);
        }
    }
}

/// Whether a command asks for it.
pub(crate) fn asks_progress(command: &Command) -> bool {
    match command {
        Command::Explore(search) | Command::ExploreX86(search) => search.progress,
        Command::Check(options) => options.search.progress,
        Command::Show(options) | Command::ShowX86(options) => options.search.progress,
        Command::Races(options) => options.search.progress,
        _ => false,
    }
}
