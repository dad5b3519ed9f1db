//! Jobs of a machine that are kept as they are, and a machine that is made again of such jobs and
//! a store.

ghost use Rattle.std.specs.Prelude.{◌≡◌, ◌≢◌, ◌<◌, ◌≤◌, ℕ, true, false, All, IfOk, IfSome, IfNone, OnOk, OnErr, Some, None, length, fold};
ghost use Rattle.bpf_cpu.specs.Task.{Waiting, InHand, Ended};
ghost use Rattle.bpf_machine.specs.Hashes.{mix, stage_hash, task_hash};
ghost use Rattle.bpf_machine.specs.Parts.{chosen_at};
ghost use Rattle.bpf_machine.specs.Private.Lanes.{lane_of, room_of, stage_of};
ghost use Rattle.bpf_machine.specs.Kept.{compact_stage, kept_stage};
ghost use Rattle.bpf_machine.specs.Private.Parts.{IsReadAs, in_hand, waits, entry_at, IsEntryOf, IsHandOf, IsFirstWaiting, IsLaneOf, AreAsLarge, FitsIn, CanFill, IsSpareFor, spare_of};

mod compact;
mod fitting;
mod reading;

use super::Machine;
use crate::machine::lane::{Hand, Lane, Listed, Phase, empty_hand, take_room};
use bpf_base::spread;
use bpf_cpu::{Cpu, Input, KeptCpu, Outcome};
use bpf_plain::PlainStore;
use compact::{CompactStage, make_compact};
pub use fitting::can_stand;
pub use reading::read_jobs;
use std::alloc::{AllocError, Global};
use std::marker::Model;

/// How far a job is, with all that its CPU goes on from.
#[derive(Drop)]
pub enum KeptStage {
    /// It waits, with what it is given.
    Waiting(Input),
    /// It is in its CPU's hand, with this many steps left.
    InHand(Cpu, u64),
    Ended(Outcome),
}

/// A job as it stood.
#[derive(Drop)]
pub struct KeptJob {
    cpu: u8,
    program: usize,
    budget: u64,
    stage: CompactStage,
}

impl Model for KeptJob {
    ghost use Rattle.bpf_cpu.specs.Task.{Task};
    ghost use Rattle.bpf_machine.specs.Kept.{compact_stage};

    ghost Value = { Task };

    ghost view = { λ k. record {
      cpu = k.cpu;
      program = k.program;
      budget = k.budget;
      stage = compact_stage k.stage;
    } };
}

/// The stage of a job, which is in this phase on the CPU of this lane.
fn keep_stage(alloc: Global, lane: &Lane, phase: &Phase) -> Result<CompactStage, AllocError>
    ensures { IfOk result (λ s. compact_stage s ≡ stage_of lane.now.hand phase.now) }
{
    match phase {
        Phase::Waiting(input) => Ok(CompactStage::Waiting(input.copy(alloc)?)),
        Phase::Ended(outcome) => Ok(CompactStage::Ended(*outcome)),
        Phase::InHand => match &lane.hand {
            Some(hand) => Ok(CompactStage::InHand(KeptCpu::of(alloc, &hand.cpu)?, hand.left)),
            None => Ok(CompactStage::Waiting(Input::nothing(alloc))),
        },
    }
}

/// Whether the job in a CPU's hand is in this state, with this many steps left.
fn is_in_hand(lane: &Lane, cpu: &KeptCpu, left: u64) -> bool
    ensures same { result ≡ true → compact_stage (CompactStage.InHand cpu.now left)
        ≡ stage_of lane.now.hand Phase.InHand }
    ensures differs { result ≡ false → compact_stage (CompactStage.InHand cpu.now left)
        ≡ stage_of lane.now.hand Phase.InHand → ⊥ }
{
    match &lane.hand {
        Some(hand) => hand.left == left && cpu.is_state_of(&hand.cpu),
        None => false,
    }
}

/// Whether a job in this phase on the CPU of this lane is in this stage.
fn is_stage(lane: &Lane, phase: &Phase, stage: &CompactStage) -> bool
    ensures same { result ≡ true → compact_stage stage.now ≡ stage_of lane.now.hand phase.now }
    ensures differs { result ≡ false → compact_stage stage.now ≡ stage_of lane.now.hand phase.now
        → ⊥ }
{
    match stage {
        CompactStage::Waiting(input) => match phase {
            Phase::Waiting(other) => input.is_same(other),
            Phase::InHand => match &lane.hand {
                Some(_) => false,
                None => input.is_nothing(),
            },
            Phase::Ended(_) => false,
        },
        CompactStage::InHand(cpu, left) => match phase {
            Phase::InHand => is_in_hand(lane, cpu, *left),
            _ => false,
        },
        CompactStage::Ended(outcome) => match phase {
            Phase::Ended(other) => *outcome == *other,
            _ => false,
        },
    }
}

impl KeptJob {
    /// A job of this CPU and of the program of this number, which may make this many steps in all and
    /// is in this stage.
    pub fn new(
        alloc: Global,
        cpu: u8,
        program: usize,
        budget: u64,
        stage: &KeptStage,
    ) -> Result<KeptJob, AllocError>
        ensures { IfOk result (λ kept. kept ≡ record {
          cpu = cpu;
          program = program;
          budget = budget;
          stage = kept_stage stage.now;
        }) }
    {
        let stage = make_compact(alloc, stage)?;
        Ok(KeptJob {
            cpu,
            program,
            budget,
            stage,
        })
    }

    /// The number of its program.
    pub fn program(&self) -> usize
        ensures { result ≡ self.now.program }
    {
        self.program
    }

    /// How many steps it may make in all.
    pub fn budget(&self) -> u64
        ensures { result ≡ self.now.budget }
    {
        self.budget
    }

    /// How far it is, with all that its CPU goes on from.
    pub fn stage(&self, alloc: Global) -> Result<KeptStage, AllocError>
        ensures { IfOk result (λ stage. kept_stage stage ≡ self.now.stage) }
    {
        self.stage.widen(alloc)
    }

    /// Whether it is this far.
    pub fn is_in_stage(&self, stage: &KeptStage) -> bool
        ensures { result ≡ true → kept_stage stage.now ≡ self.now.stage }
    {
        self.stage.is(stage)
    }

    /// What it is given, if it waits.
    pub fn input(&self) -> Option<&Input>
        ensures { IfSome result (λ input. self.now.stage ≡ Waiting input.now) }
    {
        match &self.stage {
            CompactStage::Waiting(input) => Some(input),
            CompactStage::InHand(_, _) | CompactStage::Ended(_) => None,
        }
    }

    /// The state of its CPU and how many steps are left, if it is in hand.
    pub fn state(&self) -> Option<(&KeptCpu, u64)>
        ensures { IfSome result (λ r. self.now.stage ≡ InHand r.0.now r.1) }
    {
        match &self.stage {
            CompactStage::InHand(cpu, left) => Some((cpu, *left)),
            CompactStage::Waiting(_) | CompactStage::Ended(_) => None,
        }
    }

    /// Its outcome, if it has one.
    pub fn outcome(&self) -> Option<Outcome>
        ensures { IfSome result (λ outcome. self.now.stage ≡ Ended outcome) }
    {
        match &self.stage {
            CompactStage::Ended(outcome) => Some(*outcome),
            CompactStage::Waiting(_) | CompactStage::InHand(_, _) => None,
        }
    }

    /// About how many bytes of memory it takes beside itself, contexts and packets.
    fn bytes(&self) -> usize {
        self.stage.bytes()
    }

    /// Whether it is in its CPU's hand.
    pub fn is_in_hand(&self) -> bool
        ensures { result ≡ in_hand self.now.stage }
    {
        match &self.stage {
            CompactStage::InHand(_, _) => true,
            CompactStage::Waiting(_) | CompactStage::Ended(_) => false,
        }
    }

    fn is_waiting(&self) -> bool
        ensures { result ≡ waits self.now.stage }
    {
        match &self.stage {
            CompactStage::Waiting(_) => true,
            CompactStage::InHand(_, _) | CompactStage::Ended(_) => false,
        }
    }

    /// Whether it has an outcome.
    pub fn has_ended(&self) -> bool
        ensures ended { result ≡ true
            → (outcome : Outcome) × (self.now.stage ≡ Ended outcome) }
        ensures going { result ≡ false → (outcome : Outcome) → self.now.stage ≡ Ended outcome → ⊥ }
    {
        match &self.stage {
            CompactStage::Ended(_) => true,
            CompactStage::Waiting(_) | CompactStage::InHand(_, _) => false,
        }
    }

    /// Whether it has ended out of budget.
    pub fn is_out_of_budget(&self) -> bool
        ensures out { result ≡ true
            → (pc : ℕ) × (self.now.stage ≡ Ended (Outcome.OutOfBudget pc)) }
        ensures not { result ≡ false → (pc : ℕ)
            → self.now.stage ≡ Ended (Outcome.OutOfBudget pc) → ⊥ }
    {
        match &self.stage {
            CompactStage::Ended(Outcome::OutOfBudget(_)) => true,
            CompactStage::Ended(Outcome::Exit(_) | Outcome::Fault(_, _)) => false,
            CompactStage::Waiting(_) | CompactStage::InHand(_, _) => false,
        }
    }

    /// A number by which it is found.
    pub fn hash(&self) -> u64
        ensures { result ≡ task_hash self.now }
    {
        let first = mix(self.cpu as u64, self.program as u64);
        match &self.stage {
            CompactStage::Waiting(_) => mix(first, 1),
            CompactStage::InHand(cpu, left) => {
                hash_of_hand(first, cpu.pc(), *left, cpu.registers())
            }
            CompactStage::Ended(_) => mix(first, 2),
        }
    }

    /// The CPU's number.
    pub fn cpu(&self) -> u8
        ensures { result ≡ self.now.cpu }
    {
        self.cpu
    }

    /// Whether it is a listed job's, but for the stage.
    fn is_of(&self, listed: &Listed) -> bool
        ensures same { result ≡ true → (listed.now.cpu ≡ self.now.cpu)
            × (listed.now.program ≡ self.now.program) × (listed.now.budget ≡ self.now.budget) }
        ensures differs { result ≡ false → listed.now.cpu ≡ self.now.cpu
            → listed.now.program ≡ self.now.program → listed.now.budget ≡ self.now.budget → ⊥ }
    {
        listed.cpu == self.cpu && listed.program == self.program && listed.budget == self.budget
    }

    /// Whether it is how a listed job depends on the CPU of this lane.
    fn is_at(&self, lane: &Lane, listed: &Listed) -> bool
        ensures same { result ≡ true → IsReadAs lane.now listed.now self.now }
        ensures differs { result ≡ false → IsReadAs lane.now listed.now self.now → ⊥ }
    {
        if !self.is_of(listed) {
            return false;
        }
        is_stage(lane, &listed.phase, &self.stage)
    }

    /// Its entry in a machine's list.
    fn entry(&self, alloc: Global) -> Result<Listed, AllocError>
        ensures { IfOk result (IsEntryOf self.now) }
    {
        let phase = match &self.stage {
            CompactStage::Waiting(input) => Phase::Waiting(input.copy(alloc)?),
            CompactStage::InHand(_, _) => Phase::InHand,
            CompactStage::Ended(outcome) => Phase::Ended(*outcome),
        };
        Ok(Listed {
            cpu: self.cpu,
            program: self.program,
            budget: self.budget,
            phase,
        })
    }

    /// The hand that it is in, as the job of this number.
    fn hand(&self, alloc: Global, job: usize) -> Result<Option<Hand>, AllocError>
        ensures { IfOk result (IsHandOf self.now.stage job) }
    {
        match &self.stage {
            CompactStage::InHand(cpu, left) => {
                let cpu = cpu.to_cpu(alloc)?;
                let left = *left;
                Ok(Some(Hand { job, cpu, left }))
            }
            CompactStage::Waiting(_) | CompactStage::Ended(_) => Ok(None),
        }
    }
}

/// About how many bytes of memory jobs take beside themselves, contexts and packets.
pub fn bytes_of_jobs(jobs: &[KeptJob]) -> usize {
    let mut bytes = 0usize;
    for job in jobs {
        bytes = bytes.saturating_add(job.bytes());
    }
    bytes
}

/// The entries of the jobs that have these numbers.
fn list_kept(alloc: Global, parts: &[KeptJob], numbers: &[u32]) -> Result<Vec<Listed>, AllocError>
    requires { All (λ n. n < length parts.now) numbers.now }
    ensures count { IfOk result (λ v. length v.items ≡ length numbers.now) }
    ensures each { IfOk result (λ v. (k : ℕ) → k < length numbers.now
        → IsEntryOf (chosen_at parts.now numbers.now k) (entry_at v.items k)) }
{
    let mut jobs = Vec::with_capacity(alloc, numbers.len())?;
    for job in 0..numbers.len() {
        let entry = parts[numbers[job] as usize].entry(alloc)?;
        jobs.push(entry)?;
    }
    Ok(jobs)
}

/// The place of the job that a CPU has in hand.
fn find_hand(parts: &[KeptJob], numbers: &[u32], cpu: u8) -> Option<usize>
    requires { All (λ n. n < length parts.now) numbers.now }
    ensures within { IfSome result (λ j. j < length numbers.now) }
    ensures of { IfSome result (λ j. (chosen_at parts.now numbers.now j).cpu ≡ cpu) }
    ensures found { IfSome result
        (λ j. in_hand (chosen_at parts.now numbers.now j).stage ≡ true) }
    ensures first { IfSome result (λ j. (k : ℕ) → k < j
        → (chosen_at parts.now numbers.now k).cpu ≡ cpu
        → in_hand (chosen_at parts.now numbers.now k).stage ≡ false) }
    ensures none { IfNone result ((k : ℕ) → k < length numbers.now
        → (chosen_at parts.now numbers.now k).cpu ≡ cpu
        → in_hand (chosen_at parts.now numbers.now k).stage ≡ false) }
{
    for job in 0..numbers.len() {
        let part = &parts[numbers[job] as usize];
        if part.cpu() == cpu && part.is_in_hand() {
            return Some(job);
        }
    }
    None
}

/// The place of a CPU's first job that waits, or how many there are.
fn find_waiting(parts: &[KeptJob], numbers: &[u32], cpu: u8) -> usize
    requires { All (λ n. n < length parts.now) numbers.now }
    ensures { IsFirstWaiting parts.now numbers.now cpu result }
{
    for job in 0..numbers.len() {
        let part = &parts[numbers[job] as usize];
        if part.cpu() == cpu && part.is_waiting() {
            return job;
        }
    }
    numbers.len()
}

/// What a machine keeps of a CPU that has these jobs.
fn make_lane(alloc: Global, parts: &[KeptJob], numbers: &[u32], cpu: u8) -> Result<Lane, AllocError>
    requires { All (λ n. n < length parts.now) numbers.now }
    ensures { IfOk result (IsLaneOf parts.now numbers.now cpu) }
{
    let hand = match find_hand(parts, numbers, cpu) {
        Some(job) => parts[numbers[job] as usize].hand(alloc, job)?,
        None => None,
    };
    let next = find_waiting(parts, numbers, cpu);
    Ok(Lane {
        hand,
        rest: None,
        next,
    })
}

/// What a machine keeps of each of its CPUs, which have these jobs.
fn lanes_of_kept(
    alloc: Global,
    parts: &[KeptJob],
    numbers: &[u32],
    cpus: u8,
) -> Result<Vec<Lane>, AllocError>
    requires { All (λ n. n < length parts.now) numbers.now }
    ensures count { IfOk result (λ v. length v.items ≡ cpus) }
    ensures each { IfOk result (λ v. (c : ℕ) → c < cpus
        → IsLaneOf parts.now numbers.now c (lane_of v.items c)) }
{
    let mut lanes = Vec::with_capacity(alloc, cpus as usize)?;
    for cpu in 0..cpus {
        let lane = make_lane(alloc, parts, numbers, cpu)?;
        lanes.push(lane)?;
    }
    Ok(lanes)
}

/// The room that a lane has for a job: what is in hand, or else what was there before.
fn room_in(lane: &Lane) -> Option<&Hand>
    ensures some { IfSome result (λ h. room_of lane.now ≡ Some h.now) }
{
    match &lane.hand {
        Some(hand) => Some(hand),
        None => lane.rest.as_ref(),
    }
}

/// Whether a job's state can be copied into a lane's room: their memories are as large.
fn fits_room(lane: &Lane, part: &KeptJob) -> bool
    ensures { result ≡ true → FitsIn part.now.stage (room_of lane.now) }
{
    match &part.stage {
        CompactStage::InHand(cpu, _) => match room_in(lane) {
            Some(hand) => has_memory_of(cpu, &hand.cpu),
            None => false,
        },
        CompactStage::Waiting(_) | CompactStage::Ended(_) => false,
    }
}

/// Whether two states have contexts of one length, and packets of one length.
fn has_memory_of(cpu: &KeptCpu, other: &Cpu) -> bool
    ensures { result ≡ true → AreAsLarge cpu.now other.now }
{
    cpu.context().bytes().len() == other.memory.context.bytes().len()
        && cpu.packet().bytes().len() == other.memory.packet.bytes().len()
}

/// Whether a CPU's lane can become that of these jobs without memory.
fn can_fill(lane: &Lane, parts: &[KeptJob], numbers: &[u32], cpu: u8) -> bool
    requires { All (λ n. n < length parts.now) numbers.now }
    ensures { result ≡ true → CanFill parts.now numbers.now cpu lane.now }
{
    match find_hand(parts, numbers, cpu) {
        Some(job) => fits_room(lane, &parts[numbers[job] as usize]),
        None => true,
    }
}

/// Whether each CPU's lane can become that of these jobs without memory.
fn can_fill_all(lanes: &[Lane], parts: &[KeptJob], numbers: &[u32], cpus: u8) -> bool
    requires { All (λ n. n < length parts.now) numbers.now }
    ensures count { result ≡ true → length lanes.now ≡ cpus }
    ensures each { result ≡ true → (c : ℕ) → c < cpus
        → CanFill parts.now numbers.now c (lane_of lanes.now c) }
{
    if lanes.len() != cpus as usize {
        return false;
    }
    for cpu in 0..cpus {
        if !can_fill(&lanes[cpu as usize], parts, numbers, cpu) {
            return false;
        }
    }
    true
}

/// A hand becomes that of a job, which has this number.
fn fill_hand(hand: &mut Hand, part: &KeptJob, job: usize)
    requires { FitsIn part.now.stage (Some hand.old) }
    ensures stage { part.now.stage ≡ InHand hand.new.cpu hand.new.left }
    ensures job { hand.new.job ≡ job }
{
    match &part.stage {
        CompactStage::InHand(cpu, left) => {
            hand.job = job;
            hand.cpu.copy_from_kept(cpu);
            hand.left = *left;
        }
        CompactStage::Waiting(_) | CompactStage::Ended(_) => unreachable!(),
    }
}

/// A lane has a job in hand, which has this number.
fn take_hand(lane: &mut Lane, part: &KeptJob, job: usize)
    requires { FitsIn part.now.stage (room_of lane.old) }
    ensures hand { IfSome lane.new.hand
        (λ h. (h.job ≡ job) × (part.now.stage ≡ InHand h.cpu h.left)) }
    ensures some { lane.new.hand ≢ None }
{
    take_room(lane);
    match &mut lane.hand {
        Some(hand) => fill_hand(hand, part, job),
        None => unreachable!(),
    }
}

/// A CPU's lane has in hand what these jobs have.
fn take_up(lane: &mut Lane, parts: &[KeptJob], numbers: &[u32], cpu: u8)
    requires within { All (λ n. n < length parts.now) numbers.now }
    requires fits { CanFill parts.now numbers.now cpu lane.old }
    ensures hand { (h : Hand) → lane.new.hand ≡ Some h → (h.job < length numbers.now)
        × ((chosen_at parts.now numbers.now h.job).cpu ≡ cpu)
        × ((chosen_at parts.now numbers.now h.job).stage ≡ InHand h.cpu h.left) }
    ensures free { lane.new.hand ≡ None → (k : ℕ) → k < length numbers.now
        → (chosen_at parts.now numbers.now k).cpu ≡ cpu
        → in_hand (chosen_at parts.now numbers.now k).stage ≡ false }
{
    match find_hand(parts, numbers, cpu) {
        Some(job) => take_hand(lane, &parts[numbers[job] as usize], job),
        None => empty_hand(lane),
    }
}

/// A CPU's lane becomes that of these jobs.
fn fill_lane(lane: &mut Lane, parts: &[KeptJob], numbers: &[u32], cpu: u8)
    requires within { All (λ n. n < length parts.now) numbers.now }
    requires fits { CanFill parts.now numbers.now cpu lane.old }
    ensures { IsLaneOf parts.now numbers.now cpu lane.new }
{
    take_up(lane, parts, numbers, cpu);
    lane.next = find_waiting(parts, numbers, cpu);
}

/// Each CPU's lane becomes that of these jobs.
fn fill_all(lanes: &mut Vec<Lane>, parts: &[KeptJob], numbers: &[u32], cpus: u8)
    requires within { All (λ n. n < length parts.now) numbers.now }
    requires count { length lanes.old.items ≡ cpus }
    requires each { (c : ℕ) → c < cpus
        → CanFill parts.now numbers.now c (lane_of lanes.old.items c) }
    ensures count { length lanes.new.items ≡ cpus }
    ensures each { (c : ℕ) → c < cpus
        → IsLaneOf parts.now numbers.now c (lane_of lanes.new.items c) }
{
    for cpu in 0..cpus {
        fill_lane(&mut lanes[cpu as usize], parts, numbers, cpu);
    }
}

/// The lane of a CPU that has these jobs, where the one that is there can't become it without memory.
fn spare_lane(
    alloc: Global,
    lane: &Lane,
    parts: &[KeptJob],
    numbers: &[u32],
    cpu: u8,
) -> Result<Option<Box<Lane>>, AllocError>
    requires { All (λ n. n < length parts.now) numbers.now }
    ensures { IfOk result (IsSpareFor parts.now numbers.now cpu lane.now) }
{
    if can_fill(lane, parts, numbers, cpu) {
        return Ok(None);
    }
    let made = make_lane(alloc, parts, numbers, cpu)?;
    let spare = Box::new(alloc, made)?;
    Ok(Some(spare))
}

/// Those of all CPUs.
fn spare_lanes(
    alloc: Global,
    lanes: &[Lane],
    parts: &[KeptJob],
    numbers: &[u32],
    cpus: u8,
) -> Result<Vec<Option<Box<Lane>>>, AllocError>
    requires within { All (λ n. n < length parts.now) numbers.now }
    requires count { length lanes.now ≡ cpus }
    ensures count { IfOk result (λ v. length v.items ≡ cpus) }
    ensures each { IfOk result (λ v. (c : ℕ) → c < cpus
        → IsSpareFor parts.now numbers.now c (lane_of lanes.now c) (spare_of v.items c)) }
{
    let mut spares = Vec::with_capacity(alloc, cpus as usize)?;
    for cpu in 0..cpus {
        let spare = spare_lane(alloc, &lanes[cpu as usize], parts, numbers, cpu)?;
        spares.push(spare)?;
    }
    Ok(spares)
}

/// A CPU's lane becomes that of these jobs: the spare one, if there is one.
fn renew_lane(
    lane: &mut Lane,
    spare: &mut Option<Box<Lane>>,
    parts: &[KeptJob],
    numbers: &[u32],
    cpu: u8,
)
    requires within { All (λ n. n < length parts.now) numbers.now }
    requires spare { IsSpareFor parts.now numbers.now cpu lane.old spare.old }
    ensures { IsLaneOf parts.now numbers.now cpu lane.new }
{
    match spare.take() {
        Some(made) => *lane = Box::into_inner(made),
        None => fill_lane(lane, parts, numbers, cpu),
    }
}

/// Each CPU's lane becomes that of these jobs.
fn renew_all(
    lanes: &mut Vec<Lane>,
    mut spares: Vec<Option<Box<Lane>>>,
    parts: &[KeptJob],
    numbers: &[u32],
    cpus: u8,
)
    requires within { All (λ n. n < length parts.now) numbers.now }
    requires count { (length lanes.old.items ≡ cpus) × (length spares.items ≡ cpus) }
    requires each { (c : ℕ) → c < cpus → IsSpareFor parts.now numbers.now c
        (lane_of lanes.old.items c) (spare_of spares.items c) }
    ensures count { length lanes.new.items ≡ cpus }
    ensures each { (c : ℕ) → c < cpus
        → IsLaneOf parts.now numbers.now c (lane_of lanes.new.items c) }
{
    for cpu in 0..cpus {
        let spare = &mut spares[cpu as usize];
        renew_lane(&mut lanes[cpu as usize], spare, parts, numbers, cpu);
    }
}

/// Lanes become those of these jobs. Unchanged where there is no memory; none is taken where what
/// is in hand can be written over, and else only the lanes are made that lack room.
fn renew_lanes(
    alloc: Global,
    lanes: &mut Vec<Lane>,
    parts: &[KeptJob],
    numbers: &[u32],
    cpus: u8,
) -> Result<(), AllocError>
    requires { All (λ n. n < length parts.now) numbers.now }
    ensures count { OnOk result (length lanes.new.items ≡ cpus) }
    ensures each { OnOk result ((c : ℕ) → c < cpus
        → IsLaneOf parts.now numbers.now c (lane_of lanes.new.items c)) }
    ensures err { OnErr result (lanes.new.items ≡ lanes.old.items) }
{
    if can_fill_all(lanes, parts, numbers, cpus) {
        fill_all(lanes, parts, numbers, cpus);
        return Ok(());
    }
    if lanes.len() == cpus as usize {
        let spares = spare_lanes(alloc, lanes, parts, numbers, cpus)?;
        renew_all(lanes, spares, parts, numbers, cpus);
        return Ok(());
    }
    let made = lanes_of_kept(alloc, parts, numbers, cpus)?;
    *lanes = made;
    Ok(())
}

/// One more number of what is hashed.
fn mix(hash: u64, number: u64) -> u64
    ensures { result ≡ mix hash number }
{
    spread(hash ^ number)
}

/// A number by which a job in hand is found, after one of its own.
fn hash_of_hand(first: u64, pc: u32, left: u64, registers: &[u64; 11]) -> u64
    ensures { result ≡ fold mix (mix (mix first pc) left) registers.now }
{
    let hash = mix(mix(first, pc as u64), left);
    registers
        .iter()
        .fold(hash, |hash: u64, word| spread(hash ^ *word))
}

/// A number by which a job in this phase is found, on the CPU of this lane.
fn hash_of_stage(first: u64, lane: &Lane, phase: &Phase) -> u64
    ensures { result ≡ stage_hash first (stage_of lane.now.hand phase.now) }
{
    match phase {
        Phase::Waiting(_) => mix(first, 1),
        Phase::Ended(_) => mix(first, 2),
        Phase::InHand => match &lane.hand {
            Some(hand) => hash_of_hand(first, hand.cpu.pc, hand.left, &hand.cpu.registers),
            None => mix(first, 1),
        },
    }
}

impl Machine {
    ghost use Rattle.std.specs.Prelude.{◌≡◌, ◌<◌, ◌↔◌, ℕ, true, false, All, IfOk, OnOk, OnErr, IsTrue, Some, None, length, slice_get};
    ghost use Rattle.bpf_plain.specs.Alike.{IsSameShape};
    ghost use Rattle.bpf_cpu.specs.Task.{Task};
    ghost use Rattle.bpf_machine.specs.Parts.{CanStand, made_of};
    ghost use Rattle.bpf_machine.specs.Hashes.{task_hash};

    /// A job as it is.
    pub fn kept_job(&self, alloc: Global, job: usize) -> Result<KeptJob, AllocError>
        requires { job < length self.now.jobs }
        ensures { IfOk result (λ kept. slice_get self.now.jobs job ≡ Some kept) }
    {
        let listed = &self.jobs[job];
        let stage = keep_stage(alloc, &self.lanes[listed.cpu as usize], &listed.phase)?;
        Ok(KeptJob {
            cpu: listed.cpu,
            program: listed.program,
            budget: listed.budget,
            stage,
        })
    }

    /// Whether a job is as a kept one stood.
    pub fn is_kept_job(&self, job: usize, kept: &KeptJob) -> bool
        requires { job < length self.now.jobs }
        ensures same { result ≡ true → slice_get self.now.jobs job ≡ Some kept.now }
        ensures differs { result ≡ false → slice_get self.now.jobs job ≡ Some kept.now → ⊥ }
    {
        let listed = &self.jobs[job];
        kept.is_at(&self.lanes[listed.cpu as usize], listed)
    }

    /// A number by which jobs that are alike are found.
    pub fn hash_of_job(&self, job: usize) -> u64
        requires { job < length self.now.jobs }
        ensures { (task : Task) → slice_get self.now.jobs job ≡ Some task
            → result ≡ task_hash task }
    {
        let listed = &self.jobs[job];
        let first = mix(listed.cpu as u64, listed.program as u64);
        hash_of_stage(first, &self.lanes[listed.cpu as usize], &listed.phase)
    }

    /// The machine's store, programs and jobs fit each other.
    pub fn stands(&self)
        ensures { CanStand self.now }
    {
        let _ = &self.store;
    }

    /// The machine's programs fit a store and the kept jobs that have these numbers.
    pub fn can_restore(&self, store: &PlainStore, parts: &[KeptJob], numbers: &[u32]) -> bool
        requires { All (λ n. n < length parts.now) numbers.now }
        ensures { IsTrue result
            ↔ CanStand (made_of store.now self.now.programs parts.now numbers.now) }
    {
        can_stand(store, &self.programs, parts, numbers)
    }

    /// Becomes the machine of a store and of the kept jobs that have these numbers, where no lists
    /// are asked for. Unchanged where there is no memory.
    pub fn restore(
        &mut self,
        alloc: Global,
        store: &PlainStore,
        parts: &[KeptJob],
        numbers: &[u32],
    ) -> Result<(), AllocError>
        requires lists { self.old.lists ≡ None }
        requires shape { IsSameShape store.now self.old.store }
        requires within { All (λ n. n < length parts.now) numbers.now }
        requires stands { CanStand (made_of store.now self.old.programs parts.now numbers.now) }
        ensures ok { OnOk result
            (self.new ≡ made_of store.now self.old.programs parts.now numbers.now) }
        ensures err { OnErr result (self.new ≡ self.old) }
    {
        let jobs = list_kept(alloc, parts, numbers)?;
        let cpus = self.store.cpus();
        renew_lanes(alloc, &mut self.lanes, parts, numbers, cpus)?;
        self.store.copy_from(store);
        self.jobs = jobs;
        Ok(())
    }
}
