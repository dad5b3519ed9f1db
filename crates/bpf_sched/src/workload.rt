//! All jobs of one CPU, and the lists of keys that it makes after them.

ghost use Rattle.std.specs.Prelude.{◌≡◌, All, false, length, List, map, true};
ghost use Rattle.bpf_shared.specs.declared.events.Event.{Event};
ghost use Rattle.bpf_shared.specs.Chain.{Chain};
ghost use Rattle.bpf_sched.specs.Explained.{keys_events};
ghost use Rattle.bpf_sched.specs.Working.{AreListsFor, IsNew, RunsAll, RunsAndLists};

use crate::assignment::Assignment;
use bpf_loader::Program;
use bpf_shared::{KeyList, Shared};

/// A CPU by its number, its jobs in the order in which it is to run them, and lists for the maps
/// whose keys it is to list then: all, or none.
#[derive(Drop)]
pub struct Workload {
    pub cpu: u8,
    pub jobs: Vec<Assignment>,
    /// By map.
    pub lists: Vec<KeyList>,
}

/// Lists the keys of each map that there is a list for.
fn list_keys<S: Shared>(shared: &mut S, cpu: u8, lists: &mut [KeyList])
    requires serves { S.serves shared.old cpu ≡ true }
    requires lists { AreListsFor (S.shapes shared.old).maps lists.old }
    ensures chain { Chain S.passes S.serves cpu shared.old shared.new
        (keys_events 0 (map (λ list. list.keys) lists.new)) }
    ensures lists { map (λ list. list.shape) lists.new ≡ map (λ list. list.shape) lists.old }
    ensures idle { S.running shared.new ≡ S.running shared.old }
{
    for map in 0..lists.len() {
        shared.keys(cpu, map as u8, &mut lists[map]);
    }
}

impl Workload {
    /// Runs the jobs in their order.
    fn run_jobs<S: Shared>(&mut self, programs: &[Program], shared: &mut S)
        requires new { All (IsNew self.old.cpu (length programs.now)) self.old.jobs.items }
        requires serves { S.serves shared.old self.old.cpu ≡ true }
        requires idle { S.running shared.old self.old.cpu ≡ false }
        ensures runs { (events : List Event) ×
            RunsAll (Chain S.passes S.serves self.old.cpu) (λ x. S.may_wear x self.old.cpu)
            (S.shapes shared.old) programs.now shared.old self.old.jobs.items self.new.jobs.items
            events shared.new }
        ensures same { (self.new.cpu ≡ self.old.cpu) × (self.new.lists ≡ self.old.lists) }
        ensures serves { S.serves shared.new ≡ S.serves shared.old }
        ensures shapes { S.shapes shared.new ≡ S.shapes shared.old }
        ensures idle { S.running shared.new self.old.cpu ≡ false }
    {
        for job in 0..self.jobs.len() {
            self.jobs[job].run(programs, shared);
        }
    }

    /// Runs the jobs in their order, and then lists the keys of the maps. It takes no memory.
    pub fn run<S: Shared>(&mut self, programs: &[Program], shared: &mut S)
        requires new { All (IsNew self.old.cpu (length programs.now)) self.old.jobs.items }
        requires serves { S.serves shared.old self.old.cpu ≡ true }
        requires idle { S.running shared.old self.old.cpu ≡ false }
        requires lists { AreListsFor (S.shapes shared.old).maps self.old.lists.items }
        ensures runs { (events : List Event) ×
            RunsAndLists (Chain S.passes S.serves self.old.cpu) (λ x. S.may_wear x self.old.cpu)
            (S.shapes shared.old) programs.now shared.old self.old.jobs.items self.new.jobs.items
            (map (λ list. list.keys) self.new.lists.items) events shared.new }
        ensures cpu { self.new.cpu ≡ self.old.cpu }
        ensures lists { map (λ list. list.shape) self.new.lists.items
            ≡ map (λ list. list.shape) self.old.lists.items }
        ensures idle { S.running shared.new self.old.cpu ≡ false }
    {
        self.run_jobs(programs, shared);
        list_keys(shared, self.cpu, &mut self.lists);
    }
}
