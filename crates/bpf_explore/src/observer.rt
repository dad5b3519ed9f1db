//! Who learns how far a search is, while it works.

use crate::frontier::Frontier;

/// A search reports each time that n more states are done. It counts states and reads no
/// clock, so what is printed of one file is always the same.
pub const TOLD_EVERY: usize = 131_072;

/// How far a search is.
#[derive(Clone, Copy, PartialEq, Eq, Debug)]
pub struct Progress {
    /// How many states are kept.
    pub kept: usize,
    /// From how many of them turns are still to be made.
    pub left: usize,
    /// About how many bytes of memory they take.
    pub bytes: usize,
}

/// Learns how far a search is. What is kept doesn't depend on it.
pub trait Observer {
    /// The search is so far.
    fn see(&mut self, progress: Progress);
}

/// Passes over what it learns.
#[derive(Clone, Copy, PartialEq, Eq, Debug)]
pub struct Silent;

impl Observer for Silent {
    fn see(&mut self, _progress: Progress) {}
}

/// How far a search is that has made the turns from n of its states.
fn progress_of<F: Frontier>(frontier: &F, done: usize) -> Progress {
    let kept = frontier.count();
    Progress {
        kept,
        left: kept.saturating_sub(done),
        bytes: frontier.bytes(),
    }
}

/// Reports it, each time that n more states are done.
pub(crate) fn tell<F: Frontier, O: Observer>(frontier: &F, done: usize, observer: &mut O) {
    if done % TOLD_EVERY == 0 {
        observer.see(progress_of(frontier, done));
    }
}
