//! A machine whose CPUs have store buffers: jobs on the CPUs of a plain store, on one thread, in the
//! order of any schedule of turns and flushes.

ghost use Rattle.std.specs.Prelude.{◌≡◌, ℕ, [], IfOk, length};
ghost use Rattle.bpf_buffering.specs.Buffering.{stored_at};

mod keeping;
mod refilling;
mod watching;

use crate::jobs::{Listed, answer, find_hand, find_waiting, list_jobs};
use crate::waiting::{Stored, Waiting};
use bpf_cpu::{Job, Outcome};
use bpf_loader::Program;
use bpf_machine::{KeptStage, Turn};
use bpf_plain::PlainStore;
use bpf_shared::Shared;
use std::alloc::{AllocError, Global};
use std::marker::Model;

/// A buffer for each CPU, in which nothing waits.
fn make_buffers(alloc: Global, cpus: u8) -> Result<Vec<Vec<Stored>>, AllocError>
    ensures count { IfOk result (λ buffers. length buffers.items ≡ cpus) }
    ensures empty { IfOk result (λ buffers. (c : ℕ) → stored_at buffers.items c ≡ []) }
{
    let mut buffers = Vec::with_capacity(alloc, cpus as usize)?;
    for cpu in 0..cpus {
        let _ = cpu;
        buffers.push(Vec::new(alloc))?;
    }
    Ok(buffers)
}

/// A plain store with programs, jobs that run them, and by CPU the stores that wait.
#[derive(Drop)]
pub struct Buffering {
    /// It has no stores that wait but while a CPU takes its turn.
    here: Waiting,
    programs: Vec<Program>,
    jobs: Vec<Listed>,
    buffers: Vec<Vec<Stored>>,
}

impl Model for Buffering {
    ghost use Rattle.bpf_buffering.specs.Search.{BufferedState};
    ghost use Rattle.bpf_buffering.specs.Buffering.{state_of, IsBuffering};

    ghost Value = { BufferedState };

    ghost view = { λ m. state_of m.here m.programs.items m.jobs.items m.buffers.items };

    ghost invariant = { λ m. IsBuffering m.here m.programs.items m.jobs.items m.buffers.items };
}

impl Buffering {
    ghost use Rattle.std.specs.Prelude.{◌≡◌, ◌<◌, ◌≤◌, ℕ, true, false, [], Option, None, Some, IfOk, OnOk, All, length, map, nat_lt, option_map, slice_get, vec_len};
    ghost use Rattle.bpf_cpu.specs.declared.outcome.Outcome.{Outcome};
    ghost use Rattle.bpf_plain.specs.PlainStore.{has_cpu, is_running};
    ghost use Rattle.bpf_plain.specs.Alike.{IsSameShape};
    ghost use Rattle.bpf_cpu.specs.Task.{Task, outcome_at, waiting};
    ghost use Rattle.bpf_machine.specs.Hands.{IsFree};
    ghost use Rattle.bpf_machine.specs.Work.{HasInHand};
    ghost use Rattle.bpf_machine.specs.Parts.{IsSameHost};
    ghost use Rattle.bpf_x86.specs.Machine.{TurnOf, FlushOf};
    ghost use Rattle.bpf_buffering.specs.Search.{MovesTo, CannotMove, buffer_at};
    ghost use Rattle.bpf_buffering.specs.Ahead.{RunsUnseen};
    ghost use Rattle.bpf_buffering.specs.Jobs.{IsLowest};
    ghost use Rattle.bpf_buffering.specs.Buffering.{answer_of, Proceeds, Begins, TurnsTo};

    /// A machine whose jobs all wait, with a second store of the same shape, to try in what CPUs see.
    pub fn new(
        alloc: Global,
        store: PlainStore,
        seen: PlainStore,
        programs: Vec<Program>,
        jobs: Vec<Job>,
    ) -> Result<Buffering, AllocError>
        requires shape { IsSameShape store seen }
        requires idle { (cpu : ℕ) → is_running store cpu ≡ false }
        requires cpus { All (λ job. has_cpu store job.cpu ≡ true) jobs.items }
        requires programs { All (λ job. job.program < vec_len programs) jobs.items }
        ensures store { IfOk result (λ m. m.machine.store ≡ store) }
        ensures programs { IfOk result (λ m. m.machine.programs ≡ programs.items) }
        ensures jobs { IfOk result (λ m. m.machine.jobs ≡ map waiting jobs.items) }
        ensures lists { IfOk result (λ m. m.machine.lists ≡ None) }
        ensures empty { IfOk result (λ m. (c : ℕ) → buffer_at m.buffers c ≡ []) }
    {
        let buffers = make_buffers(alloc, store.cpus())?;
        let listed = list_jobs(alloc, jobs)?;
        let here = Waiting::new(alloc, store, seen);
        Ok(Buffering {
            here,
            programs,
            jobs: listed,
            buffers,
        })
    }

    /// One turn of a CPU: it begins its lowest waiting job where it has none in hand, makes one step
    /// of it unless the budget is used up, and ends it where it has an outcome then. Where there is no
    /// memory for a store that is to wait, the machine is of no more use.
    pub fn turn(&mut self, cpu: u8) -> Result<Turn, AllocError>
        ensures turns { IfOk result (λ turn. TurnsTo self.old cpu turn self.new) }
        ensures moves { OnOk result (MovesTo self.old (TurnOf cpu) self.new) }
        ensures idle { IfOk result (λ turn. turn ≡ Turn.Idle → self.new ≡ self.old) }
        ensures host { IsSameHost self.old.machine self.new.machine }
    {
        if let Some(job) = find_hand(&self.jobs, cpu) {
            return self.proceed(cpu, job);
        }
        match find_waiting(&self.jobs, cpu) {
            Some(job) => {
                self.begin(cpu, job)?;
                self.proceed(cpu, job)
            }
            None => Ok(Turn::Idle),
        }
    }

    /// Makes the turns of a CPU that no other CPU sees, as long as its job stays in hand. How many.
    /// Where there is no memory for a store that is to wait, the machine is of no more use.
    pub fn run_ahead(&mut self, cpu: u8) -> Result<u64, AllocError>
        ensures unseen { IfOk result (λ n. RunsUnseen self.old cpu n self.new) }
        ensures host { IsSameHost self.old.machine self.new.machine }
    {
        match find_hand(&self.jobs, cpu) {
            Some(job) => self.go_ahead(cpu, job),
            None => Ok(0),
        }
    }

    /// The CPU's oldest waiting store reaches memory. Whether one waits.
    pub fn flush(&mut self, cpu: u8) -> bool
        ensures flushed { result ≡ true → MovesTo self.old (FlushOf cpu) self.new }
        ensures none { result ≡ false → CannotMove self.old (FlushOf cpu) }
        ensures empty { result ≡ false → buffer_at self.old.buffers cpu ≡ [] }
        ensures unchanged { result ≡ false → self.new ≡ self.old }
        ensures host { IsSameHost self.old.machine self.new.machine }
    {
        if cpu as usize >= self.buffers.len() {
            return false;
        }
        self.here.exchange(cpu, &mut self.buffers[cpu as usize]);
        let flushed = self.here.flush();
        self.here.exchange(cpu, &mut self.buffers[cpu as usize]);
        flushed
    }

    /// How a job ended, if it has.
    pub fn outcome(&self, job: usize) -> Option<Outcome>
        ensures { result ≡ outcome_at self.now.machine.jobs job }
    {
        match self.jobs.get(job)?.stage {
            KeptStage::Ended(outcome) => Some(outcome),
            _ => None,
        }
    }

    /// The store, of which what waits isn't in memory yet.
    pub fn store(&self) -> &PlainStore
        ensures { result.now ≡ self.now.machine.store }
    {
        self.here.store()
    }

    /// The programs, as jobs number them.
    pub fn programs(&self) -> &[Program]
        ensures { result.now ≡ self.now.machine.programs }
    {
        &self.programs
    }

    /// The CPU of a job.
    pub fn cpu_of(&self, job: usize) -> Option<u8>
        ensures { result ≡ option_map (λ task. task.cpu) (slice_get self.now.machine.jobs job) }
    {
        Some(self.jobs.get(job)?.cpu)
    }

    /// How many CPUs there are: those of the numbers below it, and each job is of one of them.
    pub fn cpus(&self) -> u8
        ensures cpus { (c : ℕ) → has_cpu self.now.machine.store c ≡ nat_lt c result }
        ensures jobs { (j : ℕ) (task : Task) → slice_get self.now.machine.jobs j ≡ Some task
            → task.cpu < result }
        ensures few { result ≤ 16 }
    {
        let store = self.here.store();
        // The call says that they are few.
        let _ = Shared::cpus(store);
        store.cpus()
    }

    /// How many jobs there are.
    pub fn jobs(&self) -> usize
        ensures { result ≡ length self.now.machine.jobs }
    {
        self.jobs.len()
    }

    /// How many of a CPU's stores wait.
    pub fn waits(&self, cpu: u8) -> usize
        ensures { result ≡ length (buffer_at self.now.buffers cpu) }
    {
        if cpu as usize >= self.buffers.len() {
            return 0;
        }
        self.buffers[cpu as usize].len()
    }

    /// Begins a CPU's next job.
    fn begin(&mut self, cpu: u8, job: usize) -> Result<(), AllocError>
        requires free { IsFree self.old.machine.jobs cpu }
        requires lowest { IsLowest self.old.machine.jobs cpu job }
        ensures begins { OnOk result (Begins self.old cpu job self.new) }
        ensures host { IsSameHost self.old.machine self.new.machine }
    {
        self.here.exchange(cpu, &mut self.buffers[cpu as usize]);
        let listed = &mut self.jobs[job];
        self.programs[listed.program].starts();
        listed.begin();
        match self.here.begin(cpu) {
            Ok(()) => {}
            Err(_) => unreachable!(),
        }
        self.here.exchange(cpu, &mut self.buffers[cpu as usize]);
        if self.here.is_lost() {
            return Err(AllocError);
        }
        Ok(())
    }

    /// Goes on with the job that a CPU has in hand.
    fn proceed(&mut self, cpu: u8, job: usize) -> Result<Turn, AllocError>
        requires { HasInHand self.old.machine.jobs cpu job }
        ensures proceeds { IfOk result (λ turn. (end : Option Outcome)
            × (turn ≡ answer_of job end) × Proceeds self.old cpu job end self.new) }
        ensures host { IsSameHost self.old.machine self.new.machine }
    {
        self.here.exchange(cpu, &mut self.buffers[cpu as usize]);
        let listed = &mut self.jobs[job];
        let end = listed.go_on(&self.programs[listed.program], &mut self.here);
        self.here.exchange(cpu, &mut self.buffers[cpu as usize]);
        if self.here.is_lost() {
            return Err(AllocError);
        }
        Ok(answer(job, end))
    }

    /// Goes ahead with the job that a CPU has in hand, by steps that no other CPU sees. How many.
    fn go_ahead(&mut self, cpu: u8, job: usize) -> Result<u64, AllocError>
        requires { HasInHand self.old.machine.jobs cpu job }
        ensures unseen { IfOk result (λ n. RunsUnseen self.old cpu n self.new) }
        ensures host { IsSameHost self.old.machine self.new.machine }
    {
        self.here.exchange(cpu, &mut self.buffers[cpu as usize]);
        let listed = &mut self.jobs[job];
        let made = listed.go_ahead(&self.programs[listed.program], &mut self.here);
        self.here.exchange(cpu, &mut self.buffers[cpu as usize]);
        if self.here.is_lost() {
            return Err(AllocError);
        }
        Ok(made)
    }
}
