//! What a machine is made of, as it is kept, and taken again.

ghost use Rattle.std.specs.Prelude.{◌≡◌, ℕ, List, map};
ghost use Rattle.bpf_plain.specs.PlainStore.{IsSavedAs};
ghost use Rattle.bpf_plain.specs.Alike.{IsSameShape};
ghost use Rattle.bpf_buffering.specs.Jobs.{tasks_of};
ghost use Rattle.bpf_buffering.specs.Buffering.{IsBoard, state_with};
ghost use Rattle.bpf_buffering.specs.Private.Kept.{ShowsAsMuch, with_store};

use super::Buffering;
use crate::jobs::Listed;
use crate::waiting::Stored;
use bpf_plain::PlainStore;

impl Buffering {
    /// Its jobs.
    pub fn listed(&self) -> &[Listed]
        ensures { tasks_of result.now ≡ self.now.machine.jobs }
    {
        &self.jobs
    }

    /// By CPU, what waits.
    pub fn waiting(&self) -> &[Vec<Stored>]
        ensures state { self.now ≡ state_with self.now.machine.store self.now.machine.programs
            self.now.machine.jobs (map (λ b. b.items) result.now) }
        ensures board { IsBoard self.now.machine.store self.now.machine.programs
            self.now.machine.jobs (map (λ b. b.items) result.now) }
    {
        &self.buffers
    }

    /// Takes a store that is saved as its own.
    pub(crate) fn take_store(&mut self, store: &PlainStore)
        requires shape { IsSameShape self.old.machine.store store.now }
        requires alike { (bytes : List ℕ) × IsSavedAs self.old.machine.store bytes
            × IsSavedAs store.now bytes }
        ensures state { self.new ≡ with_store self.old store.now }
        ensures shows { ShowsAsMuch self.old self.new }
    {
        self.here.restore(store);
    }

    /// Takes a store, jobs and what waits, which fit each other.
    pub fn take(&mut self, store: &PlainStore, jobs: Vec<Listed>, buffers: Vec<Vec<Stored>>)
        requires shape { IsSameShape self.old.machine.store store.now }
        requires board { IsBoard store.now self.old.machine.programs (tasks_of jobs.items)
            (map (λ b. b.items) buffers.items) }
        ensures { self.new ≡ state_with store.now self.old.machine.programs
            (tasks_of jobs.items) (map (λ b. b.items) buffers.items) }
    {
        self.here.restore(store);
        self.jobs = jobs;
        self.buffers = buffers;
    }
}
