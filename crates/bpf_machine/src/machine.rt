//! A machine: jobs on the CPUs of a plain store, on one thread, in the order of any schedule.

ghost use Rattle.bpf_cpu.specs.Input.{IsShort};

mod ahead;
mod another;
mod budgets;
mod lane;
mod lengths;
mod listing;
mod parts;
mod rounds;
mod saving;

pub use ahead::Headway;
use bpf_cpu::{Cpu, Job, Outcome};
use bpf_loader::Program;
use bpf_plain::PlainStore;
use bpf_shared::Shared;
use lane::{
    Hand, Lane, Listed, Phase, count_cpus, first_job, list_jobs, make_lanes, make_room, put_down,
};
use listing::{KeyLists, make_asked};
pub use parts::{KeptJob, KeptStage, bytes_of_jobs, can_stand, read_jobs};
use std::alloc::Global;
use std::marker::Model;
use std::mem;

/// What a turn of a CPU came to.
#[derive(Clone, Copy, PartialEq, Eq, Debug)]
pub enum Turn {
    /// Its job goes on.
    Ran,
    /// This job of its ended so.
    Ended(usize, Outcome),
    /// It has no work.
    Idle,
}

/// What a machine was to be made of. There was no memory for more.
#[derive(Drop)]
pub struct Refused {
    pub store: PlainStore,
    pub programs: Vec<Program>,
    pub jobs: Vec<Job>,
}

/// Where a CPU is, with the number of the job.
#[derive(Clone, Copy)]
pub enum Standing<'a> {
    /// It has this job in hand, and is in this state.
    InHand(usize, &'a Cpu),
    /// It is to begin this job next.
    Waiting(usize),
    Idle,
}

/// A CPU that has a job in hand, the number of the job's program, and the pc in it.
#[derive(Clone, Copy, PartialEq, Eq, Debug)]
pub struct Stand {
    pub cpu: u8,
    pub program: usize,
    pub pc: u32,
}

/// What a CPU is to do, with the number of the job.
#[derive(Clone, Copy)]
pub(crate) enum Work {
    InHand(usize),
    Waiting(usize),
    Nothing,
}

/// A plain store with programs, and jobs that run them, each on its CPU in the order of their list.
#[derive(Drop)]
pub struct Machine {
    store: PlainStore,
    programs: Vec<Program>,
    jobs: Vec<Listed>,
    /// By CPU. CPUs beyond them have no jobs.
    lanes: Vec<Lane>,
    /// Whether lists of keys are asked for.
    keys: bool,
    /// By CPU, where they are.
    lists: Vec<KeyLists>,
}

impl Model for Machine {
    ghost use Rattle.bpf_machine.specs.Machine.{MachineState};

    ghost Value = { MachineState };

    ghost use Rattle.bpf_plain.specs.PlainStore.{has_cpu, is_running, held_spans, shapes_of};
    ghost use Rattle.bpf_machine.specs.Private.Lanes.{tasks_of, IsBoard};
    ghost use Rattle.bpf_machine.specs.Private.KeyLists.{listings, FitLists};

    ghost view = { λ m. record {
      store = m.store;
      programs = m.programs.items;
      jobs = tasks_of m.lanes.items m.jobs.items;
      lists = listings m.keys m.lists.items;
    } };

    ghost invariant = { λ m. IsBoard (has_cpu m.store) (is_running m.store) (held_spans m.store)
        m.programs.items m.jobs.items m.lanes.items
        × FitLists (shapes_of m.store) m.jobs.items m.keys m.lists.items };
}

impl Machine {
    ghost use Rattle.std.specs.Prelude.{◌≡◌, ◌≢◌, ◌≤◌, ◌<◌, ◌⊎◌, ℕ, true, false, All, IfOk, IfErr, IfSome, IfNone, length, map, nat_lt, vec_len, option_map, slice_get};
    ghost use Rattle.bpf_plain.specs.PlainStore.{has_cpu, is_running};
    ghost use Rattle.bpf_cpu.specs.Task.{outcome_at, waiting};
    ghost use Rattle.bpf_machine.specs.Hands.{IsFree, NoneWaits, OthersStay};
    ghost use Rattle.bpf_machine.specs.Schedule.{World, TakesTurn, RunsSchedule};
    ghost use Rattle.bpf_machine.specs.Listings.{first_lists, listing_at};
    ghost use Rattle.bpf_machine.specs.Machine.{Shows};
    ghost use Rattle.bpf_machine.specs.Work.{BeginsJob, Proceeds, IsWork, IsNext, HasInHand, IsState};
    ghost use Rattle.bpf_machine.specs.Questions.{IsStanding, turns_left};
    ghost use Rattle.bpf_machine.specs.Rounds.{RunsRounds};
    ghost use Rattle.bpf_machine.specs.Parts.{IsSameHost};
    ghost use Rattle.bpf_machine.specs.Saved.{ComeFromSame};
    ghost use Rattle.bpf_machine.specs.Private.Turns.{IsAlone, StaysOrEnds};

    /// A machine whose jobs all wait. It makes all the room that they will ever need.
    pub fn new(
        alloc: Global,
        store: PlainStore,
        programs: Vec<Program>,
        jobs: Vec<Job>,
    ) -> Result<Machine, Refused>
        requires idle { (cpu : ℕ) → is_running store cpu ≡ false }
        requires cpus { All (λ job. has_cpu store job.cpu ≡ true) jobs.items }
        requires programs { All (λ job. job.program < vec_len programs) jobs.items }
        requires inputs { All (λ job. IsShort job.input) jobs.items }
        ensures store { IfOk result (λ m. m.store ≡ store) }
        ensures programs { IfOk result (λ m. m.programs ≡ programs.items) }
        ensures jobs { IfOk result (λ m. m.jobs ≡ map waiting jobs.items) }
        ensures lists { IfOk result (λ m. listing_at m.lists ≡ first_lists false) }
        ensures refused { IfErr result
            (λ r. (r.store ≡ store) × (r.programs ≡ programs) × (r.jobs ≡ jobs)) }
    {
        Machine::make(alloc, store, programs, jobs, false)
    }

    /// A machine whose jobs all wait, and whose CPUs list the keys of all maps in the turn that ends
    /// their last job.
    pub fn with_keys(
        alloc: Global,
        store: PlainStore,
        programs: Vec<Program>,
        jobs: Vec<Job>,
    ) -> Result<Machine, Refused>
        requires idle { (cpu : ℕ) → is_running store cpu ≡ false }
        requires cpus { All (λ job. has_cpu store job.cpu ≡ true) jobs.items }
        requires programs { All (λ job. job.program < vec_len programs) jobs.items }
        requires inputs { All (λ job. IsShort job.input) jobs.items }
        ensures store { IfOk result (λ m. m.store ≡ store) }
        ensures programs { IfOk result (λ m. m.programs ≡ programs.items) }
        ensures jobs { IfOk result (λ m. m.jobs ≡ map waiting jobs.items) }
        ensures lists { IfOk result (λ m. listing_at m.lists ≡ first_lists true) }
        ensures refused { IfErr result
            (λ r. (r.store ≡ store) × (r.programs ≡ programs) × (r.jobs ≡ jobs)) }
    {
        Machine::make(alloc, store, programs, jobs, true)
    }

    /// A machine, with or without lists.
    fn make(
        alloc: Global,
        store: PlainStore,
        programs: Vec<Program>,
        jobs: Vec<Job>,
        keys: bool,
    ) -> Result<Machine, Refused>
        requires idle { (cpu : ℕ) → is_running store cpu ≡ false }
        requires cpus { All (λ job. has_cpu store job.cpu ≡ true) jobs.items }
        requires programs { All (λ job. job.program < vec_len programs) jobs.items }
        requires inputs { All (λ job. IsShort job.input) jobs.items }
        ensures store { IfOk result (λ m. m.store ≡ store) }
        ensures programs { IfOk result (λ m. m.programs ≡ programs.items) }
        ensures jobs { IfOk result (λ m. m.jobs ≡ map waiting jobs.items) }
        ensures lists { IfOk result (λ m. listing_at m.lists ≡ first_lists keys) }
        ensures refused { IfErr result
            (λ r. (r.store ≡ store) × (r.programs ≡ programs) × (r.jobs ≡ jobs)) }
    {
        let cpus = count_cpus(&jobs);
        let made = make_room(alloc, jobs.len(), cpus);
        let asked = make_asked(alloc, &store, &jobs, cpus, keys);
        match (made, asked) {
            (Ok((room, lanes)), Ok(lists)) => {
                let listed = list_jobs(jobs, room);
                let lanes = make_lanes(&listed, cpus, lanes);
                Ok(Machine {
                    store,
                    programs,
                    jobs: listed,
                    lanes,
                    keys,
                    lists,
                })
            }
            _ => Err(Refused {
                store,
                programs,
                jobs,
            }),
        }
    }

    /// One turn of a CPU: it begins its lowest waiting job where it has none in hand, makes one
    /// step of it unless the budget is used up, and ends it where it has an outcome then. With its
    /// last job it lists the keys of all maps, where lists are asked for. It takes no memory.
    pub fn turn(&mut self, cpu: u8) -> Turn
        ensures turn { (w : World) → Shows self.old w
            → (z : World) × TakesTurn w cpu result z × Shows self.new z }
        ensures idle { result ≡ Turn.Idle → self.new ≡ self.old }
        ensures same { IsSameHost self.old self.new }
        ensures jobs { ComeFromSame self.old.jobs self.new.jobs }
        ensures others { OthersStay self.old.jobs cpu self.new.jobs }
    {
        match self.work(cpu) {
            Work::InHand(job) => self.proceed(cpu, job),
            Work::Waiting(job) => {
                self.begin(cpu, job);
                self.proceed(cpu, job)
            }
            Work::Nothing => Turn::Idle,
        }
    }

    /// The turns of a schedule, in order. A schedule is any list of CPU numbers.
    pub fn turns(&mut self, schedule: &[u8])
        ensures { (w : World) → Shows self.old w
            → (z : World) × RunsSchedule w schedule.now z × Shows self.new z }
    {
        for cpu in schedule {
            self.turn(*cpu);
        }
    }

    /// How a job ended, if it has.
    pub fn outcome(&self, job: usize) -> Option<Outcome>
        ensures { result ≡ outcome_at self.now.jobs job }
    {
        match self.jobs.get(job)?.phase {
            Phase::Ended(outcome) => Some(outcome),
            _ => None,
        }
    }

    /// The CPU of a job.
    pub fn cpu_of(&self, job: usize) -> Option<u8>
        ensures { result ≡ option_map (λ task. task.cpu) (slice_get self.now.jobs job) }
    {
        Some(self.jobs.get(job)?.cpu)
    }

    /// The number of a job's program.
    pub fn program_of(&self, job: usize) -> Option<usize>
        ensures { result ≡ option_map (λ task. task.program) (slice_get self.now.jobs job) }
    {
        Some(self.jobs.get(job)?.program)
    }

    /// The store.
    pub fn store(&self) -> &PlainStore
        ensures { result.now ≡ self.now.store }
    {
        &self.store
    }

    /// The programs, as jobs number them.
    pub fn programs(&self) -> &[Program]
        ensures { result.now ≡ self.now.programs }
    {
        &self.programs
    }

    /// The job that a CPU has in hand, or else is to begin next.
    pub fn job(&self, cpu: u8) -> Option<usize>
        ensures job { IfSome result (λ j. HasInHand self.now.jobs cpu j
            ⊎ IsNext self.now.jobs cpu j) }
        ensures idle { IfNone result (IsFree self.now.jobs cpu × NoneWaits self.now.jobs cpu) }
    {
        match self.work(cpu) {
            Work::InHand(job) | Work::Waiting(job) => Some(job),
            Work::Nothing => None,
        }
    }

    /// The state of a CPU that has a job in hand.
    pub fn cpu(&self, cpu: u8) -> Option<&Cpu>
        ensures state { IfSome result (λ state. IsState self.now.jobs cpu state.now) }
        ensures free { IfNone result (IsFree self.now.jobs cpu) }
    {
        match self.standing(cpu) {
            Standing::InHand(_, state) => Some(state),
            Standing::Waiting(_) => None,
            Standing::Idle => None,
        }
    }

    /// Where a CPU is.
    pub fn standing(&self, cpu: u8) -> Standing<'_>
        ensures { IsStanding self.now.jobs cpu result }
    {
        let Some(lane) = self.lanes.get(cpu as usize) else {
            return Standing::Idle;
        };
        match &lane.hand {
            Some(hand) => Standing::InHand(hand.job, &hand.cpu),
            None if lane.next < self.jobs.len() => Standing::Waiting(lane.next),
            None => Standing::Idle,
        }
    }

    /// How many CPUs there are: those of the numbers below it.
    pub fn cpus(&self) -> u8
        ensures { (c : ℕ) → has_cpu self.now.store c ≡ nat_lt c result }
    {
        self.store.cpus()
    }

    /// How many jobs there are.
    pub fn jobs(&self) -> usize
        ensures { result ≡ length self.now.jobs }
    {
        self.jobs.len()
    }

    /// What a CPU is to do.
    pub(crate) fn work(&self, cpu: u8) -> Work
        ensures { IsWork self.now.jobs cpu result }
    {
        match self.standing(cpu) {
            Standing::InHand(job, _) => Work::InHand(job),
            Standing::Waiting(job) => Work::Waiting(job),
            Standing::Idle => Work::Nothing,
        }
    }

    /// Begins a CPU's next job.
    fn begin(&mut self, cpu: u8, job: usize)
        requires { IsNext self.old.jobs cpu job }
        ensures begins { BeginsJob self.old cpu job self.new }
        ensures same { IsSameHost self.old self.new }
    {
        let lane = &mut self.lanes[cpu as usize];
        let listed = &mut self.jobs[job];
        let left = listed.budget;
        self.programs[listed.program].starts();
        match mem::replace(&mut listed.phase, Phase::InHand) {
            Phase::Waiting(input) => {
                let start = Cpu::new(cpu, input);
                lane.hand = Some(Hand {
                    job,
                    cpu: start,
                    left,
                });
            }
            _ => unreachable!(),
        }
        lane.next = first_job(&self.jobs, cpu, job + 1);
        match self.store.begin(cpu) {
            Ok(()) => {}
            Err(_) => unreachable!(),
        }
    }

    /// Goes on with the job that a CPU has in hand.
    fn proceed(&mut self, cpu: u8, job: usize) -> Turn
        requires { HasInHand self.old.jobs cpu job }
        ensures proceeds { Proceeds self.old cpu job result self.new }
        ensures works { result ≢ Turn.Idle }
        ensures stays { StaysOrEnds self.old.jobs cpu job self.new.jobs }
        ensures same { IsSameHost self.old self.new }
    {
        let lane = &mut self.lanes[cpu as usize];
        let Some(hand) = &mut lane.hand else {
            unreachable!()
        };
        let listed = &mut self.jobs[job];
        match hand.advance(&self.programs[listed.program], &mut self.store) {
            None => Turn::Ran,
            Some(outcome) => {
                self.store.end(cpu);
                listed.phase = Phase::Ended(outcome);
                put_down(lane);
                self.list_at_end(cpu);
                Turn::Ended(job, outcome)
            }
        }
    }

    /// Makes all turns that the job in a CPU's hand has left, where no other CPU has work.
    pub(crate) fn finish(&mut self, cpu: u8, job: usize)
        requires has { HasInHand self.old.jobs cpu job }
        requires alone { IsAlone self.old.jobs cpu }
        ensures finishes { (w : World) → Shows self.old w
            → (z : World) × ((n : ℕ) × RunsRounds n w z) × Shows self.new z }
        ensures falls { ((w : World) × Shows self.old w)
            → turns_left self.new.jobs < turns_left self.old.jobs }
    {
        let lane = &mut self.lanes[cpu as usize];
        let Some(hand) = &mut lane.hand else {
            unreachable!()
        };
        let listed = &mut self.jobs[job];
        let outcome = hand.finish(&self.programs[listed.program], &mut self.store);
        self.store.end(cpu);
        listed.phase = Phase::Ended(outcome);
        put_down(lane);
        self.list_at_end(cpu);
    }
}
