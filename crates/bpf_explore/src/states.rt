//! Kept machines under numbers, each as the numbers of its store and of its jobs. They are found by
//! hashes, which those have in common that count as one by the registers that are compared.

ghost use Rattle.std.specs.Prelude.{◌≡◌, ◌≢◌, ◌<◌, ◌≤◌, true, false, All, drop, length, slice_index_or};
ghost use Rattle.bpf_explore.specs.Private.States.{AreAlikeBy, IsAlikeTuple, IsLikePart, state_hash};

use crate::album::behind_first;
use crate::room::bytes_of;
use crate::slots::{note, room_for, slot_of};
use crate::tuples::Tuples;
use bpf_alike::{are_alike, live_hash};
use bpf_base::spread;
use bpf_live::Live;
use bpf_machine::KeptJob;
use std::alloc::{AllocError, Global};
use std::marker::Model;

/// Whether the job of the one number is alike that of the other.
fn is_like_part(tables: &[Live], parts: &[KeptJob], number: u32, other: u32) -> bool
    requires within { number < length parts.now }
    requires other { other < length parts.now }
    ensures like { result ≡ true → IsLikePart tables.now parts.now number other }
    ensures differs { result ≡ false → number ≢ other }
{
    if number == other {
        return true;
    }
    are_alike(tables, &parts[number as usize], &parts[other as usize])
}

/// Whether the jobs of the ones of these numbers are alike those of the others, each in its place.
fn all_alike(tables: &[Live], parts: &[KeptJob], numbers: &[u32], others: &[u32]) -> bool
    requires within { All (λ n. n < length parts.now) numbers.now }
    requires others { All (λ n. n < length parts.now) others.now }
    ensures alike { result ≡ true → AreAlikeBy tables.now parts.now numbers.now others.now }
    ensures differs { result ≡ false → numbers.now ≢ others.now }
{
    if numbers.len() != others.len() {
        return false;
    }
    for job in 0..numbers.len() {
        if !is_like_part(tables, parts, numbers[job], others[job]) {
            return false;
        }
    }
    true
}

/// Whether the machine of the ones of these numbers has the store of the other, and jobs that are
/// alike.
fn is_like(tables: &[Live], parts: &[KeptJob], numbers: &[u32], tuple: &[u32]) -> bool
    requires some { (1 ≤ length numbers.now) × (1 ≤ length tuple.now) }
    requires within { All (λ n. n < length parts.now) (drop 1 numbers.now) }
    requires others { All (λ n. n < length parts.now) (drop 1 tuple.now) }
    ensures alike { result ≡ true → IsAlikeTuple tables.now parts.now numbers.now tuple.now }
    ensures differs { result ≡ false → numbers.now ≢ tuple.now }
{
    let jobs = behind_first(numbers);
    let others = behind_first(tuple);
    tuple[0] == numbers[0] && all_alike(tables, parts, jobs, others)
}

/// What stands for a kept job in the hash of a machine.
fn part_hash(hashes: &[u64], number: u32) -> u64
    ensures { result ≡ slice_index_or hashes.now number 0 }
{
    match hashes.get(number as usize) {
        Some(hash) => *hash,
        None => 0,
    }
}

/// Where a machine is looked for whose store has the first of these numbers, and whose jobs have the
/// others.
fn state_hash(hashes: &[u64], numbers: &[u32]) -> u64
    requires { 1 ≤ length numbers.now }
    ensures { result ≡ state_hash hashes.now numbers.now }
{
    let first = spread(u64::from(numbers[0]));
    behind_first(numbers)
        .iter()
        .fold(first, |hash: u64, number| {
            spread(hash ^ part_hash(hashes, *number))
        })
}

/// Kept machines. One is compared with those that are found, so nothing that is promised rests on
/// hashes.
#[derive(Drop)]
pub(crate) struct States {
    tuples: Tuples,
    /// By program, the registers in which its states have to agree to count as one.
    tables: Vec<Live>,
    /// Of each kept job.
    hashes: Vec<u64>,
    /// By place, one more than the number of a machine, from the place of its hash on; 0 where none
    /// is.
    slots: Vec<u32>,
}

impl Model for States {
    ghost use Rattle.bpf_explore.specs.Private.States.{StateList, HoldsStates};

    ghost Value = { StateList };

    ghost view = { λ s. record {
      tuples = s.tuples;
      tables = s.tables.items;
      hashes = s.hashes.items;
    } };

    ghost invariant = { λ s. HoldsStates s.tuples s.hashes.items s.slots.items };
}

impl States {
    ghost use Rattle.std.specs.Prelude.{◌≡◌, ◌<◌, ◌≤◌, ◌⊎◌, ℕ, [], true, false, All, IfOk, IfSome, IfNone, OnOk, OnErr, drop, length};
    ghost use Rattle.bpf_explore.specs.Tuples.{AreWhole, IsTuple, tuple_at, with_tuple};
    ghost use Rattle.bpf_explore.specs.Private.States.{AreOfParts, IsAlikeTuple, state_hash};
    ghost use Rattle.bpf_explore.specs.Private.Kept.{AreTuplesApart};

    /// None is kept.
    pub fn new(alloc: Global, width: usize, tables: Vec<Live>) -> States
        requires { 1 ≤ width }
        ensures tuples { result.tuples ≡ record { width = width; count = 0; numbers = [] } }
        ensures tables { result.tables ≡ tables.items }
    {
        States {
            tuples: Tuples::new(alloc, width),
            tables,
            hashes: Vec::new(alloc),
            slots: Vec::new(alloc),
        }
    }

    /// How many are kept.
    pub fn count(&self) -> usize
        ensures count { result ≡ self.now.tuples.count }
        ensures whole { AreWhole self.now.tuples }
    {
        self.tuples.count()
    }

    /// How many bytes of memory they take.
    pub fn bytes(&self) -> usize {
        let slots = bytes_of(&self.slots, size_of::<u32>());
        let hashes = bytes_of(&self.hashes, size_of::<u64>()).saturating_add(slots);
        self.tuples.bytes().saturating_add(hashes)
    }

    /// The numbers of a kept machine's store and jobs.
    pub fn tuple(&self, number: usize) -> &[u32]
        requires { number < self.now.tuples.count }
        ensures tuple { IsTuple self.now.tuples number result.now }
        ensures width { length result.now ≡ self.now.tuples.width }
        ensures some { 1 ≤ self.now.tuples.width }
    {
        self.tuples.tuple(number)
    }

    /// No machine is kept twice.
    pub fn apart(&self)
        ensures { AreTuplesApart self.now.tuples }
    {
        let _ = &self.slots;
    }

    /// Takes the hashes of kept jobs that are new.
    fn learn(&mut self, parts: &[KeptJob]) -> Result<(), AllocError>
        ensures tuples { self.new.tuples ≡ self.old.tuples }
        ensures tables { self.new.tables ≡ self.old.tables }
        ensures learned { OnOk result (length parts.now ≤ length self.new.hashes) }
    {
        for number in self.hashes.len()..parts.len() {
            let hash = live_hash(&self.tables, &parts[number]);
            self.hashes.push(hash)?;
        }
        Ok(())
    }

    /// Whether the machine of this number has the same store, and jobs that are alike.
    fn is_at(&self, parts: &[KeptJob], number: usize, numbers: &[u32]) -> bool
        requires some { 1 ≤ length numbers.now }
        requires within { All (λ n. n < length parts.now) (drop 1 numbers.now) }
        requires states { AreOfParts parts.now self.now.tuples }
        ensures within { result ≡ true → number < self.now.tuples.count }
        ensures alike { result ≡ true → IsAlikeTuple self.now.tables parts.now numbers.now
            (tuple_at self.now.tuples number) }
        ensures differs { result ≡ false → IsTuple self.now.tuples number numbers.now → ⊥ }
    {
        if number >= self.count() {
            return false;
        }
        let tuple = self.tuples.tuple(number);
        is_like(&self.tables, parts, numbers, tuple)
    }

    /// The number of a kept machine of this hash that has the same store, and jobs that are alike, if
    /// one is found.
    fn find(&self, hash: u64, parts: &[KeptJob], numbers: &[u32]) -> Option<usize>
        requires some { 1 ≤ length numbers.now }
        requires hash { hash ≡ state_hash self.now.hashes numbers.now }
        requires within { All (λ n. n < length parts.now) (drop 1 numbers.now) }
        requires states { AreOfParts parts.now self.now.tuples }
        ensures within { IfSome result (λ n. n < self.now.tuples.count) }
        ensures alike { IfSome result (λ n. IsAlikeTuple self.now.tables parts.now numbers.now
            (tuple_at self.now.tuples n)) }
        ensures none { IfNone result ((n : ℕ) → IsTuple self.now.tuples n numbers.now → ⊥) }
    {
        for step in 0..self.slots.len() {
            let slot = slot_of(&self.slots, hash, step);
            if slot == 0 {
                return None;
            }
            let number = slot as usize - 1;
            if self.is_at(parts, number, numbers) {
                return Some(number);
            }
        }
        None
    }

    /// Makes more places where half of them are taken.
    fn widen(&mut self, alloc: Global) -> Result<(), AllocError>
        ensures { self.new ≡ self.old }
    {
        let count = self.count();
        if count < self.slots.len() / 2 {
            return Ok(());
        }
        let mut slots = room_for(alloc, self.slots.len())?;
        for number in 0..count {
            let hash = state_hash(&self.hashes, self.tuples.tuple(number));
            note(&mut slots, hash, number)?;
        }
        self.slots = slots;
        Ok(())
    }

    /// Puts a machine after those that are kept, of which it is none. Its number.
    fn add(&mut self, hash: u64, numbers: &[u32]) -> Result<usize, AllocError>
        requires width { length numbers.now ≡ self.old.tuples.width }
        requires hash { hash ≡ state_hash self.old.hashes numbers.now }
        requires learned { All (λ n. n < length self.old.hashes) (drop 1 numbers.now) }
        requires new { (n : ℕ) → IsTuple self.old.tuples n numbers.now → ⊥ }
        ensures found { IfOk result (λ n. IsTuple self.new.tuples n numbers.now) }
        ensures adds { OnOk result (self.new.tuples ≡ with_tuple self.old.tuples numbers.now) }
        ensures err { OnErr result (self.new.tuples ≡ self.old.tuples) }
        ensures tables { self.new.tables ≡ self.old.tables }
    {
        let number = self.count();
        note(&mut self.slots, hash, number)?;
        self.tuples.push(numbers)?;
        Ok(number)
    }

    /// The number of a kept machine that has the same store, and jobs that are alike. Where none is
    /// found, that whose store and jobs have these numbers is kept.
    pub fn keep(
        &mut self,
        alloc: Global,
        parts: &[KeptJob],
        numbers: &[u32],
    ) -> Result<usize, AllocError>
        requires width { length numbers.now ≡ self.old.tuples.width }
        requires some { 1 ≤ length numbers.now }
        requires within { All (λ n. n < length parts.now) (drop 1 numbers.now) }
        requires states { AreOfParts parts.now self.old.tuples }
        ensures tables { self.new.tables ≡ self.old.tables }
        ensures adds { (self.new.tuples ≡ self.old.tuples)
            ⊎ (self.new.tuples ≡ with_tuple self.old.tuples numbers.now) }
        ensures within { IfOk result (λ n. n < self.new.tuples.count) }
        ensures alike { IfOk result (λ n. IsAlikeTuple self.old.tables parts.now numbers.now
            (tuple_at self.new.tuples n)) }
    {
        self.learn(parts)?;
        let hash = state_hash(&self.hashes, numbers);
        if let Some(number) = self.find(hash, parts, numbers) {
            return Ok(number);
        }
        self.widen(alloc)?;
        let number = self.add(hash, numbers)?;
        Ok(number)
    }
}
