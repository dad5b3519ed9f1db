//! Jobs as they are, under numbers: one that is as a kept one stood is found again.

ghost use Rattle.std.specs.Prelude.{◌≡◌, ◌<◌, ◌++◌, ◌∷◌, ◌⊎◌, ℕ, [], true, false, Some, IfOk, IfSome, IfNone, OnOk, OnErr, length, slice_get, slice_index_or};
ghost use Rattle.bpf_cpu.specs.Task.{Task};
ghost use Rattle.bpf_machine.specs.Hashes.{task_hash};
ghost use Rattle.bpf_machine.specs.Parts.{no_task};
ghost use Rattle.bpf_explore.specs.Private.Kept.{part_at, ArePartsApart};

use crate::room::bytes_of;
use crate::slots::{note, room_for, slot_of};
use bpf_machine::{KeptJob, Machine, bytes_of_jobs};
use std::alloc::{AllocError, Global};
use std::marker::Model;

/// Kept jobs, each under its number, in the order in which they came. All of a job is compared, so
/// nothing that is promised rests on hashes.
#[derive(Drop)]
pub struct Parts {
    kept: Vec<KeptJob>,
    /// By place, one more than the number of a job, from the place of its hash on; 0 where none is.
    slots: Vec<u32>,
}

impl Model for Parts {
    ghost use Rattle.std.specs.Prelude.{List};
    ghost use Rattle.bpf_cpu.specs.Task.{Task};
    ghost use Rattle.bpf_explore.specs.Private.Kept.{HoldsParts};

    ghost Value = { List Task };

    ghost view = { λ p. p.kept.items };

    ghost invariant = { λ p. HoldsParts p.kept.items p.slots.items };
}

impl Parts {
    /// Nothing is kept.
    pub fn new(alloc: Global) -> Parts
        ensures { result ≡ [] }
    {
        Parts {
            kept: Vec::new(alloc),
            slots: Vec::new(alloc),
        }
    }

    /// All that are kept, by number.
    pub fn jobs(&self) -> &[KeptJob]
        ensures { result.now ≡ self.now }
    {
        &self.kept
    }

    /// How many bytes of memory they take, but for contexts and packets.
    pub fn bytes(&self) -> usize {
        let slots = bytes_of(&self.slots, size_of::<u32>());
        bytes_of(&self.kept, size_of::<KeptJob>())
            .saturating_add(bytes_of_jobs(&self.kept))
            .saturating_add(slots)
    }

    /// No job is kept twice.
    pub fn apart(&self)
        ensures { ArePartsApart self.now }
    {
        let _ = &self.kept;
    }

    /// Whether the machine's job is as that of this number stood.
    fn is_at(&self, number: usize, machine: &Machine, job: usize) -> bool
        requires { job < length machine.now.jobs }
        ensures within { result ≡ true → number < length self.now }
        ensures same { result ≡ true → slice_get machine.now.jobs job
            ≡ Some (slice_index_or self.now number no_task) }
        ensures differs { result ≡ false → number < length self.now
            → slice_get machine.now.jobs job ≡ Some (part_at self.now number) → ⊥ }
    {
        match self.kept.get(number) {
            Some(kept) => machine.is_kept_job(job, kept),
            None => false,
        }
    }

    /// The number under which a job is so that has this hash, if it is kept.
    fn find(&self, hash: u64, machine: &Machine, job: usize) -> Option<usize>
        requires job { job < length machine.now.jobs }
        requires hash { (task : Task) → slice_get machine.now.jobs job ≡ Some task
            → hash ≡ task_hash task }
        ensures within { IfSome result (λ n. n < length self.now) }
        ensures same { IfSome result (λ n. slice_get machine.now.jobs job
            ≡ Some (slice_index_or self.now n no_task)) }
        ensures none { IfNone result ((n : ℕ) → n < length self.now
            → slice_get machine.now.jobs job ≡ Some (part_at self.now n) → ⊥) }
    {
        for step in 0..self.slots.len() {
            let slot = slot_of(&self.slots, hash, step);
            if slot == 0 {
                return None;
            }
            let number = slot as usize - 1;
            if self.is_at(number, machine, job) {
                return Some(number);
            }
        }
        None
    }

    /// The number under which a machine's job is kept as it is, if it is.
    pub fn number(&self, machine: &Machine, job: usize) -> Option<usize>
        requires { job < length machine.now.jobs }
        ensures within { IfSome result (λ n. n < length self.now) }
        ensures same { IfSome result (λ n. slice_get machine.now.jobs job
            ≡ Some (slice_index_or self.now n no_task)) }
    {
        self.find(machine.hash_of_job(job), machine, job)
    }

    /// Makes more places where half of them are taken.
    fn widen(&mut self, alloc: Global) -> Result<(), AllocError>
        ensures { self.new ≡ self.old }
    {
        if self.kept.len() < self.slots.len() / 2 {
            return Ok(());
        }
        let mut slots = room_for(alloc, self.slots.len())?;
        for number in 0..self.kept.len() {
            note(&mut slots, self.kept[number].hash(), number)?;
        }
        self.slots = slots;
        Ok(())
    }

    /// Puts a job after those that are kept, of which it is none. Its number.
    fn add(&mut self, hash: u64, job: KeptJob) -> Result<usize, AllocError>
        requires hash { hash ≡ task_hash job }
        requires new { (n : ℕ) → n < length self.old → part_at self.old n ≡ job → ⊥ }
        ensures within { IfOk result (λ n. n < length self.new) }
        ensures is { IfOk result (λ n. part_at self.new n ≡ job) }
        ensures adds { OnOk result (self.new ≡ self.old ++ job ∷ []) }
        ensures err { OnErr result (self.new ≡ self.old) }
    {
        let number = self.kept.len();
        note(&mut self.slots, hash, number)?;
        self.kept.push(job)?;
        Ok(number)
    }

    /// Keeps a machine's job as it is, where none that stood so is kept. Its number. It is
    /// alone, or each call of `keep` would clear room on the stack for all of a job.
    #[cold]
    #[inline(never)]
    fn keep_new(
        &mut self,
        alloc: Global,
        hash: u64,
        machine: &Machine,
        job: usize,
    ) -> Result<usize, AllocError>
        requires job { job < length machine.now.jobs }
        requires hash { (task : Task) → slice_get machine.now.jobs job ≡ Some task
            → hash ≡ task_hash task }
        requires new { (n : ℕ) → n < length self.old → slice_get machine.now.jobs job
            ≡ Some (part_at self.old n) → ⊥ }
        ensures within { IfOk result (λ n. n < length self.new) }
        ensures same { IfOk result (λ n. slice_get machine.now.jobs job
            ≡ Some (slice_index_or self.new n no_task)) }
        ensures adds { (self.new ≡ self.old)
            ⊎ ((task : Task) × (self.new ≡ self.old ++ task ∷ [])) }
    {
        self.widen(alloc)?;
        let kept = machine.kept_job(alloc, job)?;
        let number = self.add(hash, kept)?;
        Ok(number)
    }

    /// Keeps a machine's job as it is, unless one that stood so is kept. Its number.
    pub fn keep(
        &mut self,
        alloc: Global,
        machine: &Machine,
        job: usize,
    ) -> Result<usize, AllocError>
        requires { job < length machine.now.jobs }
        ensures within { IfOk result (λ n. n < length self.new) }
        ensures same { IfOk result (λ n. slice_get machine.now.jobs job
            ≡ Some (slice_index_or self.new n no_task)) }
        ensures adds { (self.new ≡ self.old)
            ⊎ ((task : Task) × (self.new ≡ self.old ++ task ∷ [])) }
    {
        let hash = machine.hash_of_job(job);
        if let Some(number) = self.find(hash, machine, job) {
            return Ok(number);
        }
        let number = self.keep_new(alloc, hash, machine, job)?;
        Ok(number)
    }
}
