//! Lists of buffers under numbers: one that is as a kept one is found again.

ghost use Rattle.std.specs.Prelude.{◌≡◌, ◌<◌, ◌++◌, ◌∷◌, [], List, true, false, IfOk, IfSome, OnOk, OnErr, Some, length, map, slice_get, slice_index_or};
ghost use Rattle.bpf_buffering.specs.declared.waiting.Stored.{Stored};

use super::number_of;
use crate::index::{Index, Look};
use crate::waiting::Stored;
use bpf_base::spread;
use std::alloc::{AllocError, Global};
use std::marker::Model;

/// A copy of what waits.
pub fn copy_buffers(alloc: Global, buffers: &[Vec<Stored>]) -> Result<Vec<Vec<Stored>>, AllocError>
    ensures { IfOk result (λ copies. map (λ b. b.items) copies.items
        ≡ map (λ b. b.items) buffers.now) }
{
    let mut copies = Vec::with_capacity(alloc, buffers.len())?;
    for buffer in buffers {
        let mut copy = Vec::with_capacity(alloc, buffer.len())?;
        copy.extend_from_slice(buffer)?;
        copies.push(copy)?;
    }
    Ok(copies)
}

/// Whether it is the same store that waits.
fn is_same_stored(one: Stored, other: Stored) -> bool
    ensures { result ≡ true → one ≡ other }
{
    one == other
}

/// Whether the same waits of a CPU.
fn is_same_buffer(one: &[Stored], other: &[Stored]) -> bool
    ensures { result ≡ true → one.now ≡ other.now }
{
    if one.len() != other.len() {
        return false;
    }
    for place in 0..one.len() {
        if !is_same_stored(one[place], other[place]) {
            return false;
        }
    }
    true
}

/// Whether the same waits.
fn are_same_buffers(one: &[Vec<Stored>], other: &[Vec<Stored>]) -> bool
    ensures { result ≡ true → map (λ b. b.items) one.now ≡ map (λ b. b.items) other.now }
{
    if one.len() != other.len() {
        return false;
    }
    for cpu in 0..one.len() {
        if !is_same_buffer(&one[cpu], &other[cpu]) {
            return false;
        }
    }
    true
}

/// A number by which buffers are found.
fn hash_of_buffers(buffers: &[Vec<Stored>]) -> u64 {
    let mut hash = 0;
    for buffer in buffers {
        hash = spread(hash ^ buffer.len() as u64);
        for stored in buffer {
            hash = spread(spread(hash ^ stored.word) ^ stored.at);
        }
    }
    hash
}

/// Kept lists of buffers, each under its number, in the order in which they came.
#[derive(Drop)]
pub(crate) struct Buffers {
    kept: Vec<Vec<Vec<Stored>>>,
    index: Index,
}

impl Model for Buffers {
    ghost use Rattle.std.specs.Prelude.{List, map};
    ghost use Rattle.bpf_buffering.specs.declared.waiting.Stored.{Stored};

    ghost Value = { List (List (List Stored)) };

    ghost view = { λ p. map (λ bs. map (λ b. b.items) bs.items) p.kept.items };
}

impl Buffers {
    /// Nothing is kept.
    pub(crate) fn new(alloc: Global) -> Buffers
        ensures { result ≡ [] }
    {
        Buffers {
            kept: Vec::new(alloc),
            index: Index::new(alloc),
        }
    }

    /// Whether the buffers of a number are these.
    fn is_at(&self, number: usize, buffers: &[Vec<Stored>]) -> bool
        ensures { result ≡ true
            → slice_get self.now number ≡ Some (map (λ b. b.items) buffers.now) }
    {
        match self.kept.get(number) {
            Some(one) => are_same_buffers(one, buffers),
            None => false,
        }
    }

    /// The number of buffers that have this hash, if they are found.
    fn find(&self, hash: u64, buffers: &[Vec<Stored>]) -> Option<usize>
        ensures { IfSome result
            (λ n. slice_get self.now n ≡ Some (map (λ b. b.items) buffers.now)) }
    {
        for step in 0..self.index.places() {
            match self.index.look(hash, step) {
                Look::Number(number) if self.is_at(number, buffers) => return Some(number),
                Look::Number(_) | Look::Other => {}
                Look::Nothing => return None,
            }
        }
        None
    }

    /// Puts a copy of buffers after those that are kept. Its number.
    fn add(
        &mut self,
        alloc: Global,
        hash: u64,
        buffers: &[Vec<Stored>],
    ) -> Result<usize, AllocError>
        ensures at { IfOk result
            (λ n. slice_get self.new n ≡ Some (map (λ b. b.items) buffers.now)) }
        ensures adds { OnOk result (self.new ≡ self.old ++ map (λ b. b.items) buffers.now ∷ []) }
        ensures err { OnErr result (self.new ≡ self.old) }
    {
        let copies = copy_buffers(alloc, buffers)?;
        let number = self.kept.len();
        self.index.note(alloc, hash, number)?;
        self.kept.push(copies)?;
        Ok(number)
    }

    /// The number of buffers, which are kept if they aren't yet.
    pub(crate) fn keep(&mut self, alloc: Global, buffers: &[Vec<Stored>]) -> Result<u32, AllocError>
        ensures at { IfOk result
            (λ n. slice_get self.new n ≡ Some (map (λ b. b.items) buffers.now)) }
        ensures grows { (more : List (List (List Stored))) × (self.new ≡ self.old ++ more) }
    {
        let hash = hash_of_buffers(buffers);
        if let Some(number) = self.find(hash, buffers) {
            return number_of(number);
        }
        let number = self.add(alloc, hash, buffers)?;
        number_of(number)
    }

    /// A copy of the buffers of a number.
    pub(crate) fn copy(&self, alloc: Global, number: u32) -> Result<Vec<Vec<Stored>>, AllocError>
        requires { number < length self.now }
        ensures { IfOk result (λ copies. map (λ b. b.items) copies.items
            ≡ slice_index_or self.now number []) }
    {
        copy_buffers(alloc, &self.kept[number as usize])
    }

    /// About how many bytes of memory they take: each list as much as the last.
    pub(crate) fn bytes(&self) -> usize {
        let cpus = self.kept.last().map_or(0, Vec::len);
        let each = cpus.saturating_mul(64).saturating_add(24);
        let kept = self.kept.len().saturating_mul(each);
        self.index.bytes().saturating_add(kept)
    }
}
