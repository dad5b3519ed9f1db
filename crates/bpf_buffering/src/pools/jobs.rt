//! Jobs under numbers: one that is as a kept one is found again.

ghost use Rattle.std.specs.Prelude.{◌≡◌, ◌<◌, ◌++◌, ◌∷◌, [], List, true, false, All, IfOk, IfSome, OnOk, OnErr, Some, length, slice_get};
ghost use Rattle.bpf_cpu.specs.Task.{Task};
ghost use Rattle.bpf_machine.specs.Parts.{chosen};
ghost use Rattle.bpf_machine.specs.Rounds.{HaveEnded};
ghost use Rattle.bpf_buffering.specs.Jobs.{task_of, tasks_of};
ghost use Rattle.bpf_buffering.specs.Private.Classes.{AreLikeJobs, IsLikeJob, job_at};
ghost use Rattle.bpf_buffering.specs.Private.Kept.{AreNumbersOf};

use super::number_of;
use crate::index::{Index, Look};
use crate::jobs::Listed;
use bpf_alike::{are_alike, live_state_hash};
use bpf_base::spread;
use bpf_cpu::{Cpu, Outcome};
use bpf_live::Live;
use bpf_machine::{KeptJob, KeptStage, bytes_of_jobs};
use std::alloc::{AllocError, Global};
use std::marker::Model;

/// A job as it is, as one that is kept.
fn keep_job(alloc: Global, job: &Listed) -> Result<KeptJob, AllocError>
    ensures { IfOk result (λ kept. kept ≡ task_of job.now) }
{
    KeptJob::new(alloc, job.cpu, job.program, job.budget, &job.stage)
}

/// A kept job, in a machine's list.
fn list_job(alloc: Global, kept: &KeptJob) -> Result<Listed, AllocError>
    ensures { IfOk result (λ job. task_of job ≡ kept.now) }
{
    let stage = kept.stage(alloc)?;
    Ok(Listed {
        cpu: kept.cpu(),
        program: kept.program(),
        budget: kept.budget(),
        stage,
    })
}

/// Whether a kept job is this one.
fn is_same_job(kept: &KeptJob, job: &Listed) -> bool
    ensures { result ≡ true → kept.now ≡ task_of job.now }
{
    kept.cpu() == job.cpu
        && kept.program() == job.program
        && kept.budget() == job.budget
        && kept.is_in_stage(&job.stage)
}

/// A number by which a job in hand is found, after one of its own.
fn hash_of_hand(first: u64, cpu: &Cpu, left: u64) -> u64 {
    let hash = spread(spread(first ^ cpu.pc as u64) ^ left);
    cpu.registers
        .iter()
        .fold(hash, |hash: u64, word| spread(hash ^ *word))
}

/// A number by which a job that has this outcome is found, or one that waits, after one of its own.
fn hash_of_end(first: u64, outcome: Option<Outcome>) -> u64 {
    match outcome {
        None => spread(first ^ 1),
        Some(Outcome::Exit(word)) => spread(spread(first ^ 2) ^ word),
        Some(Outcome::Fault(_, _) | Outcome::OutOfBudget(_)) => spread(first ^ 3),
    }
}

/// A number by which a job is found.
fn hash_of_job(job: &Listed) -> u64 {
    let first = spread(spread(u64::from(job.cpu)) ^ job.program as u64);
    match &job.stage {
        KeptStage::Waiting(_) => hash_of_end(first, None),
        KeptStage::InHand(cpu, left) => hash_of_hand(first, cpu, *left),
        KeptStage::Ended(outcome) => hash_of_end(first, Some(*outcome)),
    }
}

/// A number by which a job is found that differs only in registers that aren't live.
fn live_hash_of_job(tables: &[Live], job: &KeptJob) -> u64 {
    let first = spread(spread(u64::from(job.cpu())) ^ job.program() as u64);
    match job.state() {
        Some((cpu, left)) => live_state_hash(spread(first ^ left), tables, job.program(), cpu),
        None => hash_of_end(first, job.outcome()),
    }
}

/// Kept jobs, each under its number, in the order in which they came.
#[derive(Drop)]
pub(crate) struct Jobs {
    kept: Vec<KeptJob>,
    index: Index,
}

impl Model for Jobs {
    ghost use Rattle.std.specs.Prelude.{List};
    ghost use Rattle.bpf_cpu.specs.Task.{Task};

    ghost Value = { List Task };

    ghost view = { λ p. p.kept.items };
}

impl Jobs {
    /// Nothing is kept.
    pub(crate) fn new(alloc: Global) -> Jobs
        ensures { result ≡ [] }
    {
        Jobs {
            kept: Vec::new(alloc),
            index: Index::new(alloc),
        }
    }

    /// How many are kept.
    pub(crate) fn len(&self) -> usize {
        self.kept.len()
    }

    /// A number by which a job is found that is alike the one of this number.
    pub(crate) fn live_hash(&self, tables: &[Live], number: usize) -> u64 {
        match self.kept.get(number) {
            Some(job) => live_hash_of_job(tables, job),
            None => 0,
        }
    }

    /// Whether the job of the one number is alike that of the other.
    fn is_alike(&self, tables: &[Live], number: usize, other: usize) -> bool
        ensures { result ≡ true
            → IsLikeJob tables.now (job_at self.now number) (job_at self.now other) }
    {
        if number == other {
            return true;
        }
        match self.kept.get(number) {
            Some(one) => match self.kept.get(other) {
                Some(job) => are_alike(tables, one, job),
                None => false,
            },
            None => false,
        }
    }

    /// Whether the jobs of the ones of these numbers are alike those of the others, each in its place.
    pub(crate) fn are_alike(&self, tables: &[Live], numbers: &[u32], others: &[u32]) -> bool
        ensures { result ≡ true → AreLikeJobs tables.now self.now numbers.now others.now }
    {
        if numbers.len() != others.len() {
            return false;
        }
        for job in 0..numbers.len() {
            if !self.is_alike(tables, numbers[job] as usize, others[job] as usize) {
                return false;
            }
        }
        true
    }

    /// Whether the job of a number is this one.
    fn is_at(&self, number: usize, job: &Listed) -> bool
        ensures { result ≡ true → slice_get self.now number ≡ Some (task_of job.now) }
    {
        match self.kept.get(number) {
            Some(one) => is_same_job(one, job),
            None => false,
        }
    }

    /// The number of a job that has this hash, if it is found.
    fn find(&self, hash: u64, job: &Listed) -> Option<usize>
        ensures { IfSome result (λ n. slice_get self.now n ≡ Some (task_of job.now)) }
    {
        for step in 0..self.index.places() {
            match self.index.look(hash, step) {
                Look::Number(number) if self.is_at(number, job) => return Some(number),
                Look::Number(_) | Look::Other => {}
                Look::Nothing => return None,
            }
        }
        None
    }

    /// Puts a copy of a job after those that are kept. Its number.
    fn add(&mut self, alloc: Global, hash: u64, job: &Listed) -> Result<usize, AllocError>
        ensures at { IfOk result (λ n. slice_get self.new n ≡ Some (task_of job.now)) }
        ensures adds { OnOk result (self.new ≡ self.old ++ task_of job.now ∷ []) }
        ensures err { OnErr result (self.new ≡ self.old) }
    {
        let kept = keep_job(alloc, job)?;
        let number = self.kept.len();
        self.index.note(alloc, hash, number)?;
        self.kept.push(kept)?;
        Ok(number)
    }

    /// The number of a job, which is kept if it isn't yet.
    fn keep(&mut self, alloc: Global, job: &Listed) -> Result<u32, AllocError>
        ensures at { IfOk result (λ n. slice_get self.new n ≡ Some (task_of job.now)) }
        ensures grows { (more : List Task) × (self.new ≡ self.old ++ more) }
    {
        let hash = hash_of_job(job);
        if let Some(number) = self.find(hash, job) {
            return number_of(number);
        }
        let number = self.add(alloc, hash, job)?;
        number_of(number)
    }

    /// The numbers of jobs, of which each is kept that isn't yet.
    pub(crate) fn keep_all(
        &mut self,
        alloc: Global,
        jobs: &[Listed],
    ) -> Result<Vec<u32>, AllocError>
        ensures numbers { IfOk result
            (λ numbers. AreNumbersOf self.new numbers.items (tasks_of jobs.now)) }
        ensures grows { (more : List Task) × (self.new ≡ self.old ++ more) }
    {
        let mut numbers = Vec::with_capacity(alloc, jobs.len())?;
        for job in jobs {
            let number = self.keep(alloc, job)?;
            numbers.push(number)?;
        }
        Ok(numbers)
    }

    /// Copies of the jobs of these numbers.
    pub(crate) fn copy(&self, alloc: Global, numbers: &[u32]) -> Result<Vec<Listed>, AllocError>
        requires { All (λ n. n < length self.now) numbers.now }
        ensures { IfOk result (λ copies. tasks_of copies.items ≡ chosen self.now numbers.now) }
    {
        let mut copies = Vec::with_capacity(alloc, numbers.len())?;
        for job in 0..numbers.len() {
            let copy = list_job(alloc, &self.kept[numbers[job] as usize])?;
            copies.push(copy)?;
        }
        Ok(copies)
    }

    /// Whether each of the jobs of these numbers has ended.
    pub(crate) fn have_ended(&self, numbers: &[u32]) -> bool
        requires { All (λ n. n < length self.now) numbers.now }
        ensures ended { result ≡ true → HaveEnded (chosen self.now numbers.now) }
        ensures works { result ≡ false → HaveEnded (chosen self.now numbers.now) → ⊥ }
    {
        for job in 0..numbers.len() {
            if !self.kept[numbers[job] as usize].has_ended() {
                return false;
            }
        }
        true
    }

    /// About how many bytes of memory they take, but for contexts and packets.
    pub(crate) fn bytes(&self) -> usize {
        let kept = self.kept.capacity().saturating_mul(size_of::<KeptJob>());
        self.index
            .bytes()
            .saturating_add(kept)
            .saturating_add(bytes_of_jobs(&self.kept))
    }
}
