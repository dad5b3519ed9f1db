//! What a machine keeps of each job, and of each CPU.

ghost use Rattle.std.specs.Prelude.{◌≡◌, ◌<◌, ◌≤◌, ◌+◌, ℕ, true, [], length, map, All, IfOk, vec_len, vec_capacity};
ghost use Rattle.bpf_shared.specs.Store.{Plain};
ghost use Rattle.bpf_shared.specs.Sound.{IsSoundStore};
ghost use Rattle.bpf_plain.specs.PlainStore.{has_cpu, is_running, held_spans, shape_of};
ghost use Rattle.bpf_plain.specs.PlainStore as plain_store;
ghost use Rattle.bpf_helpers.specs.Held.{AreHeld, KeepsRun};
ghost use Rattle.bpf_cpu.specs.Saved.{IsOfOneJob};
ghost use Rattle.bpf_cpu.specs.Step.{IsReady};
ghost use Rattle.bpf_machine.specs.Schedule.{Advances};
ghost use Rattle.bpf_machine.specs.Private.Lanes.{IsFirstJob, lane_of, first_entry, room_of};
ghost use Rattle.bpf_machine.specs.Private.Turns.{Lasts};

use bpf_cpu::{Cpu, Input, Job, Outcome, Progress};
use bpf_loader::Program;
use bpf_plain::PlainStore;
use std::alloc::{AllocError, Global};

/// How far a job is.
#[derive(Drop)]
pub(crate) enum Phase {
    /// It waits, with what it is given.
    Waiting(Input),
    /// It is in its CPU's hand.
    InHand,
    Ended(Outcome),
}

/// A job in the machine's list.
#[derive(Drop)]
pub(crate) struct Listed {
    pub cpu: u8,
    pub program: usize,
    pub budget: u64,
    pub phase: Phase,
}

/// A job in hand.
#[derive(Drop)]
pub(crate) struct Hand {
    pub job: usize,
    pub cpu: Cpu,
    /// How many steps its budget has left.
    pub left: u64,
}

/// A CPU's work.
#[derive(Drop)]
pub(crate) struct Lane {
    pub hand: Option<Hand>,
    /// What was in hand before, whose room is taken again.
    pub rest: Option<Hand>,
    /// The CPU's lowest waiting job, or the number of all jobs where none waits.
    pub next: usize,
}

/// The CPU's first job from a number on, or the number of all jobs where there is none.
pub(crate) fn first_job(jobs: &[Listed], cpu: u8, from: usize) -> usize
    requires { from ≤ length jobs.now }
    ensures { IsFirstJob jobs.now cpu from result }
{
    let mut job = from;
    while job < jobs.len() && jobs[job].cpu != cpu {
        job += 1;
    }
    job
}

/// How many CPUs there are up to the highest that has a job.
pub(crate) fn count_cpus(jobs: &[Job]) -> usize
    ensures above { All (λ job. job.cpu < result) jobs.now }
    ensures few { result ≤ 256 }
{
    let mut count = 0;
    for job in jobs {
        count = count.max(job.cpu as usize + 1);
    }
    count
}

/// Puts down what a CPU has in hand. It is alone, or each turn would clear room on the stack
/// for the state that is dropped.
#[cold]
#[inline(never)]
pub(crate) fn put_down(lane: &mut Lane)
    ensures { lane.new ≡ record lane.old { hand = None; rest = lane.new.rest } }
{
    lane.rest = lane.hand.take();
}

/// Has nothing in hand.
pub(crate) fn empty_hand(lane: &mut Lane)
    ensures hand { lane.new.hand ≡ None }
    ensures next { lane.new.next ≡ lane.old.next }
{
    if lane.hand.is_some() {
        put_down(lane);
    }
}

/// Has in hand what was there before, where nothing is.
#[cold]
#[inline(never)]
fn take_again(lane: &mut Lane)
    requires { lane.old.hand ≡ None }
    ensures { lane.new ≡ record lane.old { hand = lane.old.rest; rest = None } }
{
    lane.hand = lane.rest.take();
}

/// Has the room in hand that there is for a job.
pub(crate) fn take_room(lane: &mut Lane)
    ensures hand { lane.new.hand ≡ room_of lane.old }
    ensures next { lane.new.next ≡ lane.old.next }
{
    if lane.hand.is_none() {
        take_again(lane);
    }
}

/// Room for this many jobs and CPUs.
pub(crate) fn make_room(
    alloc: Global,
    jobs: usize,
    cpus: usize,
) -> Result<(Vec<Listed>, Vec<Lane>), AllocError>
    ensures jobs { IfOk result (λ r. (r.0.items ≡ []) × (jobs ≤ vec_capacity r.0)) }
    ensures cpus { IfOk result (λ r. (r.1.items ≡ []) × (cpus ≤ vec_capacity r.1)) }
{
    Ok((
        Vec::with_capacity(alloc, jobs)?,
        Vec::with_capacity(alloc, cpus)?,
    ))
}

/// The jobs, all waiting.
pub(crate) fn list_jobs(jobs: Vec<Job>, room: Vec<Listed>) -> Vec<Listed>
    requires empty { room.items ≡ [] }
    requires room { vec_len jobs ≤ vec_capacity room }
    ensures { result.items ≡ map first_entry jobs.items }
{
    let mut list = room;
    for job in jobs {
        let Job {
            cpu,
            program,
            budget,
            input,
        } = job;
        let phase = Phase::Waiting(input);
        match list.push(Listed {
            cpu,
            program,
            budget,
            phase,
        }) {
            Ok(()) => {}
            Err(_) => unreachable!(),
        }
    }
    list
}

/// This many CPUs, with nothing in hand.
pub(crate) fn make_lanes(jobs: &[Listed], cpus: usize, room: Vec<Lane>) -> Vec<Lane>
    requires empty { room.items ≡ [] }
    requires room { cpus ≤ vec_capacity room }
    requires few { cpus ≤ 256 }
    ensures count { length result.items ≡ cpus }
    ensures idle { (c : ℕ) → c < cpus → (lane_of result.items c).hand ≡ None }
    ensures first { (c : ℕ) → c < cpus → IsFirstJob jobs.now c 0 (lane_of result.items c).next }
{
    let mut lanes = room;
    for cpu in 0..cpus {
        let next = first_job(jobs, cpu as u8, 0);
        match lanes.push(Lane {
            hand: None,
            rest: None,
            next,
        }) {
            Ok(()) => {}
            Err(_) => unreachable!(),
        }
    }
    lanes
}

impl Hand {
    /// Makes one step, if the budget has one left. With the job's outcome, where it has one then.
    pub(crate) fn advance(&mut self, program: &Program, store: &mut PlainStore) -> Option<Outcome>
        requires ready { IsReady program.now self.old.cpu }
        requires serves { has_cpu store.old self.old.cpu.number ≡ true }
        requires in_run { is_running store.old self.old.cpu.number ≡ true }
        requires held { AreHeld (held_spans store.old self.old.cpu.number) self.old.cpu.held }
        ensures advance { (s : Plain) → IsSoundStore s → plain_store.StandsFor store.old s →
            (t : Plain) ×
            Advances program.now self.old.cpu.number s self.old.cpu self.old.left result t self.new.cpu
            self.new.left ×
            IsSoundStore t × plain_store.StandsFor store.new t }
        ensures ready { IsReady program.now self.new.cpu }
        ensures same { (self.new.job ≡ self.old.job) × (self.new.cpu.number ≡ self.old.cpu.number) }
        ensures job { IsOfOneJob self.old.cpu self.new.cpu }
        ensures held { AreHeld (held_spans store.new self.old.cpu.number) self.new.cpu.held }
        ensures keeps { KeepsRun shape_of is_running held_spans self.old.cpu.number store.old
            store.new }
        ensures serves { has_cpu store.new ≡ has_cpu store.old }
    {
        if self.left == 0 {
            return Some(Outcome::OutOfBudget(self.cpu.pc));
        }
        self.left -= 1;
        match self.cpu.step(program, store) {
            Progress::Done(outcome) => Some(outcome),
            Progress::On if self.left == 0 => Some(Outcome::OutOfBudget(self.cpu.pc)),
            Progress::On => None,
        }
    }

    /// Makes the steps that its budget has left, until the job ends. With its outcome.
    pub(crate) fn finish(&mut self, program: &Program, store: &mut PlainStore) -> Outcome
        requires ready { IsReady program.now self.old.cpu }
        requires serves { has_cpu store.old self.old.cpu.number ≡ true }
        requires in_run { is_running store.old self.old.cpu.number ≡ true }
        requires held { AreHeld (held_spans store.old self.old.cpu.number) self.old.cpu.held }
        ensures lasts { (s : Plain) → IsSoundStore s → plain_store.StandsFor store.old s →
            (t : Plain) × (turns : ℕ) ×
            Lasts program.now self.old.cpu.number turns s self.old.cpu self.old.left result t ×
            IsSoundStore t × plain_store.StandsFor store.new t }
        ensures keeps { KeepsRun shape_of is_running held_spans self.old.cpu.number store.old
            store.new }
        ensures serves { has_cpu store.new ≡ has_cpu store.old }
    {
        self.cpu.make_steps(program, store, self.left)
    }
}
