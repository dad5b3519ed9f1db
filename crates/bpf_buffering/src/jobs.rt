//! The jobs of a machine, and how one goes on.

ghost use Rattle.std.specs.Prelude.{◌≡◌, ℕ, true, false, IfOk, IfSome, IfNone, map};
ghost use Rattle.bpf_plain.specs.PlainStore.{is_running, held_spans, shape_of};
ghost use Rattle.bpf_helpers.specs.Held.{AreHeld, KeepsRun};
ghost use Rattle.bpf_cpu.specs.Step.{IsReady};
ghost use Rattle.bpf_cpu.specs.Task.{Ended, InHand};
ghost use Rattle.bpf_machine.specs.Kept.{kept_stage};
ghost use Rattle.bpf_machine.specs.Hands.{IsFree, NoneWaits};
ghost use Rattle.bpf_machine.specs.Work.{HasInHand};
ghost use Rattle.bpf_machine.specs.Questions.{IsStanding};
ghost use Rattle.bpf_buffering.specs.Waiting.{serves_one};
ghost use Rattle.bpf_buffering.specs.Jobs.{first_entry, in_hand, waits, held_by, waits_for, task_of, tasks_of, filled_up, IsTakenUp, IsLowest};
ghost use Rattle.bpf_buffering.specs.Buffering.{answer_of};
ghost use Rattle.bpf_buffering.specs.Going.{AdvancesOver, CanGoOn, GoesOver, LeavesOthers, StaysFit};

use crate::waiting::Waiting;
use bpf_cpu::{Cpu, Input, Job, Outcome, Progress};
use bpf_loader::Program;
use bpf_machine::{KeptStage, Standing, Turn};
use bpf_shared::Shared;
use std::alloc::{AllocError, Global};
use std::mem;

/// A job in the machine's list.
#[derive(Drop)]
pub struct Listed {
    pub cpu: u8,
    pub program: usize,
    pub budget: u64,
    pub stage: KeptStage,
}

/// Makes one step of a job in hand, if its budget has one left. With the job's outcome, where it has
/// one then.
fn advance(
    state: &mut Cpu,
    left: &mut u64,
    program: &Program,
    here: &mut Waiting,
) -> Option<Outcome>
    requires ready { IsReady program.now state.old }
    requires serves { serves_one here.old state.old.number ≡ true }
    requires in_run { is_running here.old.store state.old.number ≡ true }
    requires held { AreHeld (held_spans here.old.store state.old.number) state.old.held }
    ensures advance { AdvancesOver program.now here.old state.old left.old result here.new
        state.new left.new }
    ensures ready { IsReady program.now state.new }
    ensures number { state.new.number ≡ state.old.number }
    ensures held { AreHeld (held_spans here.new.store state.old.number) state.new.held }
    ensures keeps { KeepsRun (λ w. shape_of w.store) (λ w. is_running w.store)
        (λ w. held_spans w.store) state.old.number here.old here.new }
{
    if *left == 0 {
        return Some(Outcome::OutOfBudget(state.pc));
    }
    *left -= 1;
    match state.step(program, here) {
        Progress::Done(outcome) => Some(outcome),
        Progress::On if *left == 0 => Some(Outcome::OutOfBudget(state.pc)),
        Progress::On => None,
    }
}

/// The result of a turn in which a job made a step.
pub(crate) fn answer(job: usize, end: Option<Outcome>) -> Turn
    ensures { result ≡ answer_of job end }
{
    match end {
        None => Turn::Ran,
        Some(outcome) => Turn::Ended(job, outcome),
    }
}

impl Listed {
    /// Whether it is in its CPU's hand.
    fn is_in_hand(&self) -> bool
        ensures { result ≡ in_hand (kept_stage self.now.stage) }
    {
        match &self.stage {
            KeptStage::Waiting(_) => false,
            KeptStage::InHand(_, _) => true,
            KeptStage::Ended(_) => false,
        }
    }

    /// Whether it waits.
    fn waits(&self) -> bool
        ensures { result ≡ waits (kept_stage self.now.stage) }
    {
        match &self.stage {
            KeptStage::Waiting(_) => true,
            KeptStage::InHand(_, _) => false,
            KeptStage::Ended(_) => false,
        }
    }

    /// Whether it has an outcome.
    pub(crate) fn has_ended(&self) -> bool
        ensures ended { result ≡ true
            → (outcome : Outcome) × (kept_stage self.now.stage ≡ Ended outcome) }
        ensures goes { result ≡ false → (outcome : Outcome)
            → kept_stage self.now.stage ≡ Ended outcome → ⊥ }
    {
        match &self.stage {
            KeptStage::Ended(_) => true,
            KeptStage::Waiting(_) | KeptStage::InHand(_, _) => false,
        }
    }

    /// Whether it is in this CPU's hand.
    fn is_held_by(&self, cpu: u8) -> bool
        ensures { result ≡ held_by cpu self.now }
    {
        self.cpu == cpu && self.is_in_hand()
    }

    /// Whether it waits for this CPU.
    fn waits_for(&self, cpu: u8) -> bool
        ensures { result ≡ waits_for cpu self.now }
    {
        self.cpu == cpu && self.waits()
    }

    /// The state of its CPU, if it is in hand.
    fn state(&self) -> Option<&Cpu>
        ensures some { IfSome result
            (λ state. (left : ℕ) × (kept_stage self.now.stage ≡ InHand state.now left)) }
        ensures none { IfNone result (in_hand (kept_stage self.now.stage) ≡ false) }
    {
        match &self.stage {
            KeptStage::Waiting(_) => None,
            KeptStage::InHand(state, _) => Some(state),
            KeptStage::Ended(_) => None,
        }
    }

    /// The state of this CPU, if the job is in its hand.
    fn state_of(&self, cpu: u8) -> Option<&Cpu>
        ensures some { IfSome result (λ state. (self.now.cpu ≡ cpu)
            × ((left : ℕ) × (kept_stage self.now.stage ≡ InHand state.now left))) }
        ensures none { IfNone result (held_by cpu self.now ≡ false) }
    {
        if self.cpu == cpu { self.state() } else { None }
    }

    /// Is taken in hand.
    pub(crate) fn begin(&mut self)
        requires { waits (kept_stage self.old.stage) ≡ true }
        ensures stage { IsTakenUp self.old (kept_stage self.new.stage) }
        ensures same { self.new ≡ record self.old { stage = self.new.stage } }
    {
        let placeholder = KeptStage::Ended(Outcome::OutOfBudget(0));
        match mem::replace(&mut self.stage, placeholder) {
            KeptStage::Waiting(input) => {
                let state = Cpu::new(self.cpu, input);
                self.stage = KeptStage::InHand(state, self.budget);
            }
            _ => unreachable!(),
        }
    }

    /// Has its whole budget left where it is in hand, or what it had where that is more.
    pub(crate) fn refill(&mut self)
        ensures stage { kept_stage self.new.stage
            ≡ filled_up self.old.budget (kept_stage self.old.stage) }
        ensures same { self.new ≡ record self.old { stage = self.new.stage } }
    {
        let budget = self.budget;
        match &mut self.stage {
            KeptStage::Waiting(_) => {}
            KeptStage::InHand(_, left) => *left = (*left).max(budget),
            KeptStage::Ended(_) => {}
        }
    }

    /// Makes one step, if the budget has one left, and ends the run where the job has an outcome then.
    pub(crate) fn go_on(&mut self, program: &Program, here: &mut Waiting) -> Option<Outcome>
        requires { CanGoOn program.now here.old (kept_stage self.old.stage) }
        ensures goes { GoesOver program.now here.old (kept_stage self.old.stage) result here.new
            (kept_stage self.new.stage) }
        ensures fits { StaysFit program.now here.new (kept_stage self.new.stage) result }
        ensures others { LeavesOthers here.old.cpu here.old.store here.new.store }
        ensures cpu { here.new.cpu ≡ here.old.cpu }
        ensures same { self.new ≡ record self.old { stage = self.new.stage } }
    {
        let KeptStage::InHand(state, left) = &mut self.stage else {
            unreachable!()
        };
        match advance(state, left, program, here) {
            None => None,
            Some(outcome) => {
                here.end(state.number);
                self.stage = KeptStage::Ended(outcome);
                Some(outcome)
            }
        }
    }
}

/// A copy of a CPU's state.
fn copy_cpu(alloc: Global, cpu: &Cpu) -> Result<Cpu, AllocError>
    ensures { IfOk result (λ copy. copy ≡ cpu.now) }
{
    let input = Input {
        context: cpu.memory.context.copy(alloc)?,
        packet: cpu.memory.packet.copy(alloc)?,
        given: cpu.given,
    };
    let mut copy = Cpu::new(cpu.number, input);
    copy.copy_from(cpu);
    Ok(copy)
}

/// A copy of how far a job is.
fn copy_stage(alloc: Global, stage: &KeptStage) -> Result<KeptStage, AllocError>
    ensures { IfOk result (λ copy. kept_stage copy ≡ kept_stage stage.now) }
{
    match stage {
        KeptStage::Waiting(input) => Ok(KeptStage::Waiting(input.copy(alloc)?)),
        KeptStage::InHand(cpu, left) => Ok(KeptStage::InHand(copy_cpu(alloc, cpu)?, *left)),
        KeptStage::Ended(outcome) => Ok(KeptStage::Ended(*outcome)),
    }
}

/// A copy of a job.
pub(crate) fn copy_job(alloc: Global, job: &Listed) -> Result<Listed, AllocError>
    ensures { IfOk result (λ copy. task_of copy ≡ task_of job.now) }
{
    let stage = copy_stage(alloc, &job.stage)?;
    Ok(Listed {
        cpu: job.cpu,
        program: job.program,
        budget: job.budget,
        stage,
    })
}

/// The jobs, all waiting.
pub(crate) fn list_jobs(alloc: Global, jobs: Vec<Job>) -> Result<Vec<Listed>, AllocError>
    ensures { IfOk result (λ list. list.items ≡ map first_entry jobs.items) }
{
    let mut list = Vec::with_capacity(alloc, jobs.len())?;
    for job in jobs {
        let Job {
            cpu,
            program,
            budget,
            input,
        } = job;
        let stage = KeptStage::Waiting(input);
        list.push(Listed {
            cpu,
            program,
            budget,
            stage,
        })?;
    }
    Ok(list)
}

/// The place of the job that a CPU has in hand.
pub(crate) fn find_hand(jobs: &[Listed], cpu: u8) -> Option<usize>
    ensures some { IfSome result (HasInHand (tasks_of jobs.now) cpu) }
    ensures none { IfNone result (IsFree (tasks_of jobs.now) cpu) }
{
    for job in 0..jobs.len() {
        if jobs[job].is_held_by(cpu) {
            return Some(job);
        }
    }
    None
}

/// The place of a CPU's lowest job that waits.
pub(crate) fn find_waiting(jobs: &[Listed], cpu: u8) -> Option<usize>
    ensures some { IfSome result (IsLowest (tasks_of jobs.now) cpu) }
    ensures none { IfNone result (NoneWaits (tasks_of jobs.now) cpu) }
{
    for job in 0..jobs.len() {
        if jobs[job].waits_for(cpu) {
            return Some(job);
        }
    }
    None
}

/// Where a CPU is that has no job in hand.
fn stands_off<'a>(jobs: &'a [Listed], cpu: u8) -> Standing<'a>
    requires { IsFree (tasks_of jobs.now) cpu }
    ensures { IsStanding (tasks_of jobs.now) cpu result }
{
    match find_waiting(jobs, cpu) {
        Some(job) => Standing::Waiting(job),
        None => Standing::Idle,
    }
}

/// Where a CPU is.
pub(crate) fn standing_in<'a>(jobs: &'a [Listed], cpu: u8) -> Standing<'a>
    ensures { IsStanding (tasks_of jobs.now) cpu result }
{
    for job in 0..jobs.len() {
        if let Some(state) = jobs[job].state_of(cpu) {
            return Standing::InHand(job, state);
        }
    }
    stands_off(jobs, cpu)
}
