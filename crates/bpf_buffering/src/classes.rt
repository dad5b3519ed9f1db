//! Kept states that count as one with others, by the registers that are compared, found by hashes.

ghost use Rattle.std.specs.Prelude.{◌≡◌, List, true};
ghost use Rattle.bpf_live.specs.Live.{Table};
ghost use Rattle.bpf_buffering.specs.Private.Classes.{IsLikeState};

use crate::index::{Index, Look};
use crate::pools::jobs::Jobs;
use crate::states::{Kept, States};
use bpf_base::spread;
use bpf_live::Live;
use std::alloc::{AllocError, Global};
use std::marker::Model;

/// Whether two states have the same store and buffers, and jobs that are alike.
fn is_like(tables: &[Live], jobs: &Jobs, one: &Kept, other: &Kept) -> bool
    ensures { result ≡ true → IsLikeState tables.now jobs.now one.now other.now }
{
    other.store == one.store
        && other.buffers == one.buffers
        && jobs.are_alike(tables, &one.jobs, &other.jobs)
}

/// By hashes of states but for dead registers, the numbers of those that are kept. What is found is
/// compared, so nothing that is promised rests on hashes.
#[derive(Drop)]
pub(crate) struct Classes {
    /// By program, the registers in which its states have to agree to count as one.
    tables: Vec<Live>,
    /// Of each kept job.
    hashes: Vec<u64>,
    index: Index,
}

impl Model for Classes {
    ghost Value = { List Table };

    ghost view = { λ c. c.tables.items };
}

impl Classes {
    ghost use Rattle.std.specs.Prelude.{◌≡◌, ◌++◌, ◌∷◌, [], true, IfOk, IfSome, OnErr, OnOk};
    ghost use Rattle.bpf_buffering.specs.Private.Classes.{IsLikeAt};

    /// None is kept.
    pub(crate) fn new(alloc: Global, tables: Vec<Live>) -> Classes
        ensures { result ≡ tables.items }
    {
        Classes {
            tables,
            hashes: Vec::new(alloc),
            index: Index::new(alloc),
        }
    }

    /// Takes the hashes of kept jobs that are new.
    fn learn(&mut self, jobs: &Jobs) -> Result<(), AllocError>
        ensures { self.new ≡ self.old }
    {
        for number in self.hashes.len()..jobs.len() {
            let hash = jobs.live_hash(&self.tables, number);
            self.hashes.push(hash)?;
        }
        Ok(())
    }

    /// What is there for a kept job in the hash of a state.
    fn hash_of_job(&self, number: u32) -> u64 {
        match self.hashes.get(number as usize) {
            Some(hash) => *hash,
            None => 0,
        }
    }

    /// Where a state is looked for.
    fn hash_of(&self, one: &Kept) -> u64 {
        let mut hash = spread(spread(u64::from(one.store)) ^ u64::from(one.buffers));
        for job in &one.jobs {
            hash = spread(hash ^ self.hash_of_job(*job));
        }
        hash
    }

    /// Whether the state of a place has the same store and buffers, and jobs that are alike.
    fn is_at(&self, jobs: &Jobs, states: &States, place: usize, one: &Kept) -> bool
        ensures { result ≡ true → IsLikeAt self.now jobs.now states.now one.now place }
    {
        if place >= states.len() {
            return false;
        }
        is_like(&self.tables, jobs, one, states.at(place))
    }

    /// The place of a kept state that has the same store and buffers, and jobs that are alike, by its hash.
    fn look(&self, jobs: &Jobs, states: &States, one: &Kept) -> Option<usize>
        ensures { IfSome result (IsLikeAt self.now jobs.now states.now one.now) }
    {
        let hash = self.hash_of(one);
        for step in 0..self.index.places() {
            match self.index.look(hash, step) {
                Look::Number(place) if self.is_at(jobs, states, place, one) => return Some(place),
                Look::Number(_) | Look::Other => {}
                Look::Nothing => return None,
            }
        }
        None
    }

    /// Learns of new jobs, and then the place of such a state, if it is found.
    pub(crate) fn find(
        &mut self,
        jobs: &Jobs,
        states: &States,
        one: &Kept,
    ) -> Result<Option<usize>, AllocError>
        ensures same { self.new ≡ self.old }
        ensures like { IfOk result (λ place.
            IfSome place (IsLikeAt self.old jobs.now states.now one.now)) }
    {
        self.learn(jobs)?;
        Ok(self.look(jobs, states, one))
    }

    /// Puts a state after those that are kept, and lets it be found.
    pub(crate) fn add(
        &mut self,
        alloc: Global,
        jobs: &Jobs,
        states: &mut States,
        one: Kept,
    ) -> Result<(), AllocError>
        ensures same { self.new ≡ self.old }
        ensures adds { OnOk result (states.new ≡ states.old ++ one ∷ []) }
        ensures err { OnErr result (states.new ≡ states.old) }
    {
        self.learn(jobs)?;
        let hash = self.hash_of(&one);
        self.index.note(alloc, hash, states.len())?;
        states.add(one)
    }

    /// How many bytes of memory they take.
    pub(crate) fn bytes(&self) -> usize {
        let hashes = self.hashes.capacity().saturating_mul(8);
        self.index.bytes().saturating_add(hashes)
    }
}
