//! What is seen of a machine from outside before a CPU's next turn.

ghost use Rattle.std.specs.Prelude.{◌≡◌, ◌<◌, ◌⊎◌, ℕ, IfNone, IfOk, IfSome, Some, length, map, slice_get};
ghost use Rattle.bpf_plain.specs.Alike.{IsSameShape};
ghost use Rattle.bpf_plain.specs.PlainStore.{held_spans, is_running};
ghost use Rattle.bpf_machine.specs.Hands.{IsFree, NoneWaits};
ghost use Rattle.bpf_machine.specs.Work.{HasInHand, IsNext};
ghost use Rattle.bpf_machine.specs.Questions.{IsStanding};
ghost use Rattle.bpf_x86.specs.Forwarding.{AreStores};
ghost use Rattle.bpf_buffering.specs.Buffering.{IsSeenBy, Stands};
ghost use Rattle.bpf_buffering.specs.Jobs.{task_of};
ghost use Rattle.bpf_buffering.specs.Search.{buffer_at};
ghost use Rattle.bpf_buffering.specs.Waiting.{event_of};

use super::Buffering;
use crate::jobs::{Listed, copy_job, find_hand, find_waiting, standing_in};
use crate::waiting::{Stored, make_stores};
use bpf_machine::Standing;
use bpf_plain::PlainStore;
use std::alloc::{AllocError, Global};

impl Buffering {
    /// Says that its store, its programs and its jobs fit each other, and that stores alone wait.
    pub fn stands(&self)
        ensures stands { Stands self.now.machine }
        ensures stores { (c : ℕ) → AreStores (buffer_at self.now.buffers c) }
    {
        let _ = &self.here;
    }

    /// The stores of a CPU that wait, the oldest first.
    pub fn buffer(&self, cpu: u8) -> &[Stored]
        ensures { map event_of result.now ≡ buffer_at self.now.buffers cpu }
    {
        match self.buffers.get(cpu as usize) {
            Some(buffer) => buffer,
            None => &[],
        }
    }

    /// The job that a CPU goes on with in its next turn; `None` of a CPU without work.
    pub fn job(&self, cpu: u8) -> Option<usize>
        ensures job { IfSome result (λ j. HasInHand self.now.machine.jobs cpu j
            ⊎ IsNext self.now.machine.jobs cpu j) }
        ensures idle { IfNone result
            (IsFree self.now.machine.jobs cpu × NoneWaits self.now.machine.jobs cpu) }
    {
        match find_hand(&self.jobs, cpu) {
            Some(job) => Some(job),
            None => find_waiting(&self.jobs, cpu),
        }
    }

    /// Where a CPU is.
    pub fn standing(&self, cpu: u8) -> Standing<'_>
        ensures { IsStanding self.now.machine.jobs cpu result }
    {
        standing_in(&self.jobs, cpu)
    }

    /// A copy of a job.
    pub fn copy_of(&self, alloc: Global, job: usize) -> Result<Listed, AllocError>
        requires { job < length self.now.machine.jobs }
        ensures { IfOk result (λ copy. slice_get self.now.machine.jobs job ≡ Some (task_of copy)) }
    {
        copy_job(alloc, &self.jobs[job])
    }

    /// Makes of a store of the same shape what a CPU sees: memory after the CPU's waiting stores.
    pub fn see(&self, cpu: u8, seen: &mut PlainStore)
        requires { IsSameShape self.now.machine.store seen.old }
        ensures sees { IsSeenBy self.now cpu seen.new }
        ensures shape { IsSameShape self.now.machine.store seen.new }
        ensures held { held_spans seen.new ≡ held_spans self.now.machine.store }
        ensures running { is_running seen.new ≡ is_running self.now.machine.store }
    {
        seen.copy_from(self.here.store());
        let Some(buffer) = self.buffers.get(cpu as usize) else {
            return;
        };
        if !buffer.is_empty() {
            make_stores(seen, cpu, buffer);
        }
    }
}
