//! Jobs that are compared in any order of those that are equal.

ghost use Rattle.std.specs.Prelude.{◌≡◌, ◌<◌, ℕ, List, All, IfOk, IfSome, Some, true, length, slice_get};
ghost use Rattle.bpf_machine.specs.Parts.{chosen};
ghost use Rattle.bpf_equal.specs.Groups.{AreJobsOf, IsJobOf};
ghost use Rattle.bpf_equal.specs.Twins.{AreAlikeElsewhere};
ghost use Rattle.bpf_equal.specs.Private.Twins.{FitsAt, IsAsFarAs, IsOrder, MayExchange};

use crate::peers::{Peer, peer_at};
use crate::unmarked::are_like_unmarked;
use bpf_alike::{are_stages_alike, live_state_hash};
use bpf_live::Live;
use bpf_machine::KeptJob;
use std::alloc::{AllocError, Global};

/// Jobs of which some are equal, and by program the registers in which states have to agree to count as
/// one.
#[derive(Drop)]
pub struct Twins {
    peers: Vec<Peer>,
    tables: Vec<Live>,
    /// By place, the number of the job whose stage is there.
    order: Vec<u32>,
}

/// Whether a kept job is a peer's.
pub(crate) fn is_of(peer: Peer, job: &KeptJob) -> bool
    ensures { result ≡ true → IsJobOf peer job.now }
{
    job.cpu() == peer.cpu && job.program() == peer.program && job.budget() == peer.budget
}

/// Whether the one is as far in a peer's program as the other, perhaps but for marks.
fn is_as_far(tables: &[Live], peer: Peer, moved: &KeptJob, other: &KeptJob) -> bool
    ensures { result ≡ true → IsAsFarAs tables.now peer moved.now.stage other.now.stage }
{
    if peer.blind {
        are_like_unmarked(tables, peer.program, moved, other)
    } else {
        are_stages_alike(tables, peer.program, moved, other)
    }
}

impl Twins {
    /// These jobs.
    pub fn new(alloc: Global, peers: Vec<Peer>, tables: Vec<Live>) -> Twins
        ensures peers { result.peers ≡ peers }
        ensures tables { result.tables ≡ tables }
    {
        Twins {
            peers,
            tables,
            order: Vec::new(alloc),
        }
    }

    /// The jobs, each with its group.
    pub fn peers(&self) -> &[Peer]
        ensures { result.now ≡ self.now.peers.items }
    {
        &self.peers
    }

    /// The jobs, each with its group.
    pub fn into_peers(self) -> Vec<Peer>
        ensures { result ≡ self.peers }
    {
        self.peers
    }

    /// By place, the number of the job that was taken for the one there when jobs were compared last.
    /// Nothing that is promised rests on it.
    pub fn order(&self) -> &[u32] {
        &self.order
    }

    /// What stands for a job's group in the hash of a machine: those of one group have one.
    pub fn group(&self, job: usize) -> u64 {
        match self.peers.get(job) {
            Some(peer) => peer.group as u64,
            None => 0,
        }
    }

    /// A number by which a job is found that is as far, on whichever CPU. Nothing that is promised rests
    /// on it.
    pub fn hash(&self, job: &KeptJob) -> u64 {
        match job.state() {
            Some((cpu, left)) => live_state_hash(left, &self.tables, job.program(), cpu),
            None if job.has_ended() => 2,
            None => 1,
        }
    }

    /// Whether a job fits the other one in a place: it has the CPU, the program and the budget of the
    /// place's, and the one of the first number is as far, perhaps but for marks.
    fn fits(&self, parts: &[KeptJob], place: usize, moved: u32, other: u32) -> bool
        requires place { place < length self.now.peers.items }
        requires moved { moved < length parts.now }
        requires other { other < length parts.now }
        ensures { result ≡ true
            → FitsAt self.now.tables.items self.now.peers.items parts.now place moved other }
    {
        let peer = self.peers[place];
        let there = &parts[other as usize];
        if !is_of(peer, there) {
            return false;
        }
        if moved == other {
            return true;
        }
        is_as_far(&self.tables, peer, &parts[moved as usize], there)
    }

    /// Whether the jobs of two places may be exchanged: they are equal, and both are in hand or neither is.
    fn may_exchange(&self, parts: &[KeptJob], place: usize, twin: usize) -> bool
        requires place { place < length self.now.peers.items }
        requires twin { twin < length self.now.peers.items }
        requires many { length self.now.order.items ≡ length self.now.peers.items }
        requires within { All (λ n. n < length parts.now) self.now.order.items }
        ensures { result ≡ true
            → MayExchange self.now.peers.items parts.now self.now.order.items place twin }
    {
        if self.peers[place].group != self.peers[twin].group {
            return false;
        }
        let here = self.order[place];
        let there = self.order[twin];
        parts[here as usize].is_in_hand() == parts[there as usize].is_in_hand()
    }

    /// Another place after this one, whose job may be exchanged with the one here, and fits the other one
    /// here.
    fn find_twin(&self, parts: &[KeptJob], place: usize, other: u32) -> Option<usize>
        requires place { place < length self.now.peers.items }
        requires many { length self.now.order.items ≡ length self.now.peers.items }
        requires within { All (λ n. n < length parts.now) self.now.order.items }
        requires other { other < length parts.now }
        ensures after { IfSome result (λ k. (place < k) × (k < length self.now.peers.items)) }
        ensures exchange { IfSome result
            (MayExchange self.now.peers.items parts.now self.now.order.items place) }
        ensures fits { IfSome result (λ k. (m : ℕ) → slice_get self.now.order.items k ≡ Some m
            → FitsAt self.now.tables.items self.now.peers.items parts.now place m other) }
    {
        for twin in place + 1..self.order.len() {
            if self.may_exchange(parts, place, twin)
                && self.fits(parts, place, self.order[twin], other)
            {
                return Some(twin);
            }
        }
        None
    }

    /// Has a job be in a place that fits the other one, if one is found there or after it.
    fn settle(&mut self, parts: &[KeptJob], place: usize, other: u32) -> bool
        requires place { place < length self.old.peers.items }
        requires many { length self.old.order.items ≡ length self.old.peers.items }
        requires within { All (λ n. n < length parts.now) self.old.order.items }
        requires other { other < length parts.now }
        ensures peers { self.new.peers ≡ self.old.peers }
        ensures tables { self.new.tables ≡ self.old.tables }
        ensures order { (first : List ℕ)
            → IsOrder self.old.peers.items parts.now first self.old.order.items
            → IsOrder self.old.peers.items parts.now first self.new.order.items }
        ensures before { (j : ℕ) → j < place
            → slice_get self.new.order.items j ≡ slice_get self.old.order.items j }
        ensures fits { result ≡ true → (m : ℕ) → slice_get self.new.order.items place ≡ Some m
            → FitsAt self.old.tables.items self.old.peers.items parts.now place m other }
    {
        if self.fits(parts, place, self.order[place], other) {
            return true;
        }
        match self.find_twin(parts, place, other) {
            Some(twin) => {
                self.order.swap(place, twin);
                true
            }
            None => false,
        }
    }

    /// Whether the jobs of these numbers are those of the peers.
    fn are_own(&self, parts: &[KeptJob], numbers: &[u32]) -> bool
        requires within { All (λ n. n < length parts.now) numbers.now }
        ensures own { result ≡ true
            → AreJobsOf self.now.peers.items (chosen parts.now numbers.now) }
        ensures some { result ≡ true → 0 < length self.now.peers.items }
    {
        let many = self.peers.len();
        if many == 0 {
            return false;
        }
        if numbers.len() != many {
            return false;
        }
        for place in 0..numbers.len() {
            let peer = peer_at(&self.peers, place);
            if !is_of(peer, &parts[numbers[place] as usize]) {
                return false;
            }
        }
        true
    }

    /// Whether the ones of these jobs are those of the peers, and alike the others in some order of equal
    /// ones.
    pub fn are_alike(
        &mut self,
        parts: &[KeptJob],
        numbers: &[u32],
        others: &[u32],
    ) -> Result<bool, AllocError>
        requires within { All (λ n. n < length parts.now) numbers.now }
        requires others { All (λ n. n < length parts.now) others.now }
        ensures peers { self.new.peers ≡ self.old.peers }
        ensures tables { self.new.tables ≡ self.old.tables }
        ensures own { IfOk result (λ is. is ≡ true
            → AreJobsOf self.old.peers.items (chosen parts.now numbers.now)) }
        ensures some { IfOk result (λ is. is ≡ true → 0 < length self.old.peers.items) }
        ensures alike { IfOk result (λ is. is ≡ true → AreAlikeElsewhere self.old.peers.items
            self.old.tables.items (chosen parts.now numbers.now) (chosen parts.now others.now)) }
    {
        if !self.are_own(parts, numbers) {
            return Ok(false);
        }
        if others.len() != numbers.len() {
            return Ok(false);
        }
        self.order.clear();
        self.order.extend_from_slice(numbers)?;
        for place in 0..others.len() {
            if !self.settle(parts, place, others[place]) {
                return Ok(false);
            }
        }
        Ok(true)
    }
}
