//! Who sends scouts.

ghost use Rattle.std.specs.Prelude.{◌≡◌, ◌<◌, ℕ, All, length, slice_index_or};
ghost use Rattle.bpf_explore.specs.Scouts.{IsScout, StaysScout};
ghost use Rattle.bpf_explore.specs.declared.scouts.Scout.{Scout};

use crate::album::Album;
use crate::scouts::Scout;
use std::thread;
use std::thread::Threads;

/// Who sends scouts ahead of a search. What is kept doesn't depend on it.
pub trait Crew {
    /// The crew can be sent: what a scout works on may be shared between its threads.
    ghost can: { Type 0 };

    /// How many scouts it sends; where it sends fewer than two, the search goes alone.
    fn size(&self) -> usize;

    /// Has each scout make the turns from as many states, one after the other from this one on.
    fn send(&self, album: &Album, place: usize, share: usize, scouts: &mut [Scout])
        requires can { can }
        requires scouts { All (IsScout album.now.kept album.now.stock) scouts.old }
        ensures size { length scouts.new ≡ length scouts.old }
        ensures each { (i : ℕ) (d : Scout) → i < length scouts.old
            → StaysScout album.now.kept album.now.stock (slice_index_or scouts.old i d)
            (slice_index_or scouts.new i d) };
}

/// Sends nobody.
#[derive(Clone, Copy, PartialEq, Eq, Debug)]
pub struct Alone;

impl Crew for Alone {
    ghost can = { Unit {0} };

    fn size(&self) -> usize {
        0
    }

    fn send(&self, album: &Album, _place: usize, _share: usize, scouts: &mut [Scout]) {
        let _ = album.len();
        let _ = scouts.len();
    }
}

/// Sends each scout on a thread of its own, while threads can be started.
#[derive(Drop)]
pub struct Threaded<'a, R: Threads + Sync> {
    rt: &'a R,
    workers: usize,
}

impl<'a, R: Threads + Sync> Crew for Threaded<'a, R> {
    ghost use Rattle.std.specs.Thread.{IsSync};

    ghost can = { IsSync R.row };

    fn size(&self) -> usize {
        if self.workers < 2 { 0 } else { self.workers }
    }

    fn send(&self, album: &Album, place: usize, share: usize, scouts: &mut [Scout]) {
        let each = |index: usize, scout: &mut Scout|
            requires { IsScout album.now.kept album.now.stock scout.now }
            ensures { StaysScout album.entry.now.kept album.entry.now.stock scout.entry.now scout.exit.now }
        {
            let start = place.saturating_add(index.saturating_mul(share));
            scout.work(album, start, share)
        };
        thread::for_each_mut(self.rt, scouts, self.workers.max(1), &each);
    }
}

/// Sends as many scouts, each on a thread of its own, while threads can be started.
pub fn on_threads<R: Threads + Sync>(rt: &R, workers: usize) -> Threaded<'_, R> {
    Threaded { rt, workers }
}
