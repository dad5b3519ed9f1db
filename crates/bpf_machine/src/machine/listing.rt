//! The keys of all maps, which a CPU lists in the turn that ends its last job.
ghost use Rattle.std.specs.Prelude.{◌≡◌, ◌≢◌, ◌<◌, ◌≤◌, ℕ, true, false, All, IfOk, Some, map, slice_get};
ghost use Rattle.bpf_shared.specs.Store.{Plain};
ghost use Rattle.bpf_shared.specs.Sound.{IsSoundStore};
ghost use Rattle.bpf_plain.specs.PlainStore.{has_cpu, is_running, held_spans, shape_of, shapes_of};
ghost use Rattle.bpf_plain.specs.PlainStore as plain_store;
ghost use Rattle.bpf_cpu.specs.declared.job.Job.{Job};
ghost use Rattle.bpf_machine.specs.Listings.{first_lists, keys_by_map, listing_at};
ghost use Rattle.bpf_machine.specs.Private.KeyLists.{listings, AreListsOf, AreFirst, HaveLists, AreAsked};

use super::{Machine, Work};
use bpf_cpu::Job;
use bpf_plain::PlainStore;
use bpf_shared::{KeyList, Shared};
use std::alloc::{AllocError, Global};

/// What a CPU lists the keys of all maps in.
#[derive(Drop)]
pub(crate) struct KeyLists {
    /// By map.
    pub maps: Vec<KeyList>,
    /// Whether they are listed.
    pub made: bool,
}

/// Whether a CPU has a job.
fn has_job(jobs: &[Job], cpu: u8) -> bool
    ensures { result ≡ false
        → (j : ℕ) (job : Job) → slice_get jobs.now j ≡ Some job → job.cpu ≢ cpu }
{
    for job in jobs {
        if job.cpu == cpu {
            return true;
        }
    }
    false
}

/// A list for the keys of each map.
fn make_lists_of_maps(alloc: Global, store: &PlainStore) -> Result<Vec<KeyList>, AllocError>
    ensures { IfOk result (λ lists. AreListsOf (shapes_of store.now) lists.items) }
{
    let mut lists = Vec::new(alloc);
    'maps: while let Some(shape) = store.shape(lists.len() as u64) {
        lists.push(KeyList::new(alloc, &shape)?)?;
    }
    Ok(lists)
}

/// The lists that a CPU takes: none where it has no job.
fn make_lists_of(
    alloc: Global,
    store: &PlainStore,
    jobs: &[Job],
    cpu: u8,
) -> Result<Vec<KeyList>, AllocError>
    ensures { IfOk result (λ lists. (j : ℕ) (job : Job) → slice_get jobs.now j ≡ Some job
        → job.cpu ≡ cpu → AreListsOf (shapes_of store.now) lists.items) }
{
    if has_job(jobs, cpu) {
        make_lists_of_maps(alloc, store)
    } else {
        Ok(Vec::new(alloc))
    }
}

/// Lists for each CPU that has a job, none of them made.
fn make_lists(
    alloc: Global,
    store: &PlainStore,
    jobs: &[Job],
    cpus: usize,
) -> Result<Vec<KeyLists>, AllocError>
    requires above { All (λ job. job.cpu < cpus) jobs.now }
    requires few { cpus ≤ 256 }
    ensures first { IfOk result (λ all. AreFirst all.items) }
    ensures have { IfOk result (λ all. HaveLists (shapes_of store.now) jobs.now all.items) }
{
    let mut all = Vec::new(alloc);
    for cpu in 0..cpus {
        let maps = make_lists_of(alloc, store, jobs, cpu as u8)?;
        all.push(KeyLists { maps, made: false })?;
    }
    Ok(all)
}

/// Lists for each CPU that has a job, where they are asked for; else none.
pub(crate) fn make_asked(
    alloc: Global,
    store: &PlainStore,
    jobs: &[Job],
    cpus: usize,
    keys: bool,
) -> Result<Vec<KeyLists>, AllocError>
    requires above { All (λ job. job.cpu < cpus) jobs.now }
    requires few { cpus ≤ 256 }
    ensures first { IfOk result
        (λ lists. listing_at (listings keys lists.items) ≡ first_lists keys) }
    ensures have { IfOk result
        (λ lists. AreAsked (shapes_of store.now) jobs.now keys lists.items) }
{
    if keys {
        Ok(make_lists(alloc, store, jobs, cpus)?)
    } else {
        Ok(Vec::new(alloc))
    }
}

/// Lists the keys of all maps.
fn list_all(store: &mut PlainStore, cpu: u8, lists: &mut [KeyList])
    requires serves { has_cpu store.old cpu ≡ true }
    requires lists { AreListsOf (shapes_of store.old) lists.old }
    ensures keys { (s : Plain) → IsSoundStore s → plain_store.StandsFor store.old s
        → plain_store.StandsFor store.new s
        × (map (λ list. list.keys) lists.new ≡ keys_by_map s) }
    ensures lists { AreListsOf (shapes_of store.old) lists.new }
    ensures shape { shape_of store.new ≡ shape_of store.old }
    ensures same { (has_cpu store.new ≡ has_cpu store.old)
        × (is_running store.new ≡ is_running store.old)
        × (held_spans store.new ≡ held_spans store.old) }
{
    for map in 0..lists.len() {
        store.keys(cpu, map as u8, &mut lists[map]);
    }
}

impl Machine {
    ghost use Rattle.bpf_machine.specs.Parts.{IsSameHost};
    ghost use Rattle.std.specs.Prelude.{◌≡◌, map, option_map, slice_get};
    ghost use Rattle.bpf_shared.specs.Store.{put};
    ghost use Rattle.bpf_machine.specs.Hands.{IsFree};
    ghost use Rattle.bpf_machine.specs.Listings.{listed_now, listing_at, made_keys};
    ghost use Rattle.bpf_machine.specs.Machine.{Shows};
    ghost use Rattle.bpf_machine.specs.Schedule.{World, Lists};
    ghost use Rattle.bpf_machine.specs.Private.KeyLists.{HasJob};

    /// Lists the keys of all maps for a CPU, where lists are asked for.
    fn make_list(&mut self, cpu: u8)
        requires { HasJob self.old.jobs cpu }
        ensures lists { (w : World) → Shows self.old w → Shows self.new
            (record w { lists = put w.lists cpu (listed_now w.store (w.lists cpu)) }) }
        ensures jobs { self.new.jobs ≡ self.old.jobs }
        ensures same { IsSameHost self.old self.new }
    {
        if !self.keys {
            return;
        }
        let lists = &mut self.lists[cpu as usize];
        list_all(&mut self.store, cpu, &mut lists.maps);
        lists.made = true;
    }

    /// Lists them with the end of a CPU's last job.
    pub(crate) fn list_at_end(&mut self, cpu: u8)
        requires job { HasJob self.old.jobs cpu }
        requires free { IsFree self.old.jobs cpu }
        ensures lists { (w : World) → Shows self.old w
            → (z : World) × Lists w cpu z × Shows self.new z }
        ensures jobs { self.new.jobs ≡ self.old.jobs }
        ensures same { IsSameHost self.old self.new }
    {
        match self.work(cpu) {
            Work::Nothing => self.make_list(cpu),
            Work::Waiting(_) => {}
            Work::InHand(_) => unreachable!(),
        }
    }

    /// What a CPU has listed, by map. Nothing before its last job has ended.
    pub fn lists(&self, cpu: u8) -> &[KeyList]
        ensures { map (λ list. list.keys) result.now ≡ made_keys (listing_at self.now.lists cpu) }
    {
        match self.lists.get(cpu as usize) {
            Some(lists) if self.keys && lists.made => &lists.maps,
            _ => &[],
        }
    }

    /// The keys of one map that a CPU has listed.
    pub fn listed(&self, cpu: u8, map: u8) -> Option<&KeyList>
        ensures { option_map (λ list. list.now.keys) result
            ≡ slice_get (made_keys (listing_at self.now.lists cpu)) map }
    {
        self.lists(cpu).get(map as usize)
    }
}
