//! A run of a machine in rounds, watched for its faults.

ghost use Rattle.std.specs.Prelude.{◌≡◌, ◌≢◌, ◌<◌, ℕ, true, false, All, IfOk, IfNone, IfSome, OnOk, Some, [], length, map, slice_get};
ghost use Rattle.bpf_cpu.specs.declared.outcome.Fault.{Fault};
ghost use Rattle.bpf_machine.specs.declared.machine.Turn.TheVariants as answers;
ghost use Rattle.bpf_cpu.specs.declared.outcome.Outcome.TheVariants as outcome;
ghost use Rattle.bpf_cpu.specs.Setup.{IsRunnable};
ghost use Rattle.bpf_cpu.specs.Task.{waiting};
ghost use Rattle.bpf_machine.specs.Schedule.{World};
ghost use Rattle.bpf_machine.specs.Questions.{turns_left};
ghost use Rattle.bpf_machine.specs.Rounds.{RunsRound};
ghost use Rattle.bpf_machine.specs.Machine.{Shows};
ghost use Rattle.bpf_jobs.specs.Printed.{first_of};
ghost use Rattle.bpf_faults.specs.Evidence.{AreSizes, HasEvidence, IsEvidenceIn, IsEvidenceOf, LeavesNoneOut, sizes_of};
ghost use Rattle.bpf_faults.specs.Private.{AddsEvidence, AreWatched, HasNoWork, HaveOneInHand, IsEvidenceOfTurn, SeesNext, Watches, works};

use crate::evidence::{Evidence, Seen, Sizes};
use crate::looping::{Loop, Loops};
use bpf_cpu::{Fault, Job, Outcome, Setup};
use bpf_jobs::make_machine;
use bpf_machine::{Machine, Standing, Turn};
use std::alloc::{AllocError, Global};

/// How many bytes a job is given.
fn sizes_of(job: &Job) -> Sizes
    ensures { result ≡ sizes_of job.now.input }
{
    Sizes {
        context: job.input.context.bytes().len(),
        packet: job.input.packet.bytes().len(),
    }
}

/// How many bytes each job is given.
fn all_sizes(alloc: Global, jobs: &[Job]) -> Result<Vec<Sizes>, AllocError>
    ensures { IfOk result (λ sizes. AreSizes (map waiting jobs.now) sizes.items) }
{
    let mut sizes = Vec::new(alloc);
    for job in jobs {
        sizes.push(sizes_of(job))?;
    }
    Ok(sizes)
}

fn sizes_at(sizes: &[Sizes], job: usize) -> Option<Sizes>
    ensures { result ≡ slice_get sizes.now job }
{
    sizes.get(job).copied()
}

/// Sees the state from which a CPU is to make its next step; the job of which it is, if there is
/// one.
fn see_next(
    alloc: Global,
    machine: &Machine,
    cpu: u8,
    sizes: &[Sizes],
    seen: &mut Seen,
) -> Result<Option<usize>, AllocError>
    requires { AreSizes machine.now.jobs sizes.now }
    ensures { IfOk result (SeesNext machine.now.jobs cpu seen.new) }
{
    match machine.standing(cpu) {
        Standing::InHand(job, state) => {
            seen.see(state)?;
            Ok(Some(job))
        }
        Standing::Waiting(job) => {
            let Some(given) = sizes_at(sizes, job) else {
                return Ok(None);
            };
            seen.see_start(alloc, cpu, given)?;
            Ok(Some(job))
        }
        Standing::Idle => Ok(None),
    }
}

/// The job, if it is this one, with its fault and the pc, where a turn has ended it in one.
fn fault_of(turn: Turn, job: Option<usize>) -> Option<(usize, Fault, u32)>
    ensures some { IfSome result (λ f. (job ≡ Some f.0)
        × (turn ≡ answers.Ended f.0 (outcome.Fault f.1 f.2))) }
    ensures none { IfNone result ((j : ℕ) (fault : Fault) (pc : ℕ) → job ≡ Some j
        → turn ≢ answers.Ended j (outcome.Fault fault pc)) }
{
    let Turn::Ended(ended, Outcome::Fault(fault, pc)) = turn else {
        return None;
    };
    match job {
        Some(job) if job == ended => Some((job, fault, pc)),
        _ => None,
    }
}

/// Adds the evidence of a CPU's turn, if that has ended the job in a fault. The state before it was
/// seen.
fn add_evidence(
    alloc: Global,
    cpu: u8,
    job: Option<usize>,
    turn: Turn,
    seen: &Seen,
    evidence: &mut Vec<Evidence>,
) -> Result<(), AllocError>
    ensures adds { OnOk result (AddsEvidence (IsEvidenceOfTurn cpu job turn seen.now)
        evidence.old.items evidence.new.items) }
    ensures has { OnOk result ((j : ℕ) (fault : Fault) (pc : ℕ) → job ≡ Some j
        → turn ≡ answers.Ended j (outcome.Fault fault pc)
        → HasEvidence evidence.new.items j fault pc) }
{
    let Some((job, fault, pc)) = fault_of(turn, job) else {
        return Ok(());
    };
    let seen = seen.again(alloc)?;
    evidence.push(Evidence {
        job,
        cpu,
        fault,
        pc,
        seen,
    })?;
    Ok(())
}

/// Whether a turn was one of a CPU with work.
fn works(turn: Turn) -> bool
    ensures { result ≡ works turn }
{
    !matches!(turn, Turn::Idle)
}

/// What is watched for in a run, so far.
#[derive(Drop)]
struct Findings {
    /// The state before the last step.
    seen: Seen,
    loops: Loops,
    /// Of each job that ended in a fault.
    evidence: Vec<Evidence>,
}

/// Makes a CPU's turn, with its evidence where the turn ends a job in a fault. Whether it had work.
fn watch_turn(
    alloc: Global,
    machine: &mut Machine,
    cpu: u8,
    sizes: &[Sizes],
    findings: &mut Findings,
) -> Result<bool, AllocError>
    requires shown { (w : World) × Shows machine.old w }
    requires sizes { AreSizes machine.old.jobs sizes.now }
    requires one { HaveOneInHand machine.old.jobs }
    ensures { IfOk result (λ busy. Watches machine.old cpu findings.old.evidence.items busy
        machine.new findings.new.evidence.items) }
{
    let job = see_next(alloc, machine, cpu, sizes, &mut findings.seen)?;
    findings.loops.note(alloc, machine, cpu);
    let turn = machine.turn(cpu);
    add_evidence(
        alloc,
        cpu,
        job,
        turn,
        &findings.seen,
        &mut findings.evidence,
    )?;
    findings.loops.add(alloc, cpu, turn)?;
    Ok(works(turn))
}

/// One round: each CPU's turn, in rising order. Whether any had work.
fn watch_round(
    alloc: Global,
    machine: &mut Machine,
    sizes: &[Sizes],
    findings: &mut Findings,
) -> Result<bool, AllocError>
    requires shown { (w : World) × Shows machine.old w }
    requires watched { AreWatched machine.old.jobs sizes.now findings.old.evidence.items }
    ensures round { OnOk result ((w : World) → Shows machine.old w
        → (z : World) × RunsRound w z × Shows machine.new z
        × AddsEvidence (IsEvidenceIn w) findings.old.evidence.items findings.new.evidence.items) }
    ensures watched { OnOk result
        (AreWatched machine.new.jobs sizes.now findings.new.evidence.items) }
    ensures falls { IfOk result (λ worked. worked ≡ true
        → turns_left machine.new.jobs < turns_left machine.old.jobs) }
    ensures idle { IfOk result (λ worked. worked ≡ false
        → (w : World) → Shows machine.new w → HasNoWork w) }
{
    let mut worked = false;
    let end = machine.cpus();
    for cpu in 0..end {
        let busy = watch_turn(alloc, machine, cpu, sizes, findings)?;
        worked |= busy;
    }
    Ok(worked)
}

/// Runs a machine in rounds until no CPU has work: the evidence of each job that ends in a fault,
/// and the last steps of those that end out of budget.
fn watch(
    alloc: Global,
    machine: &mut Machine,
    sizes: &[Sizes],
    loops: Loops,
) -> Result<Findings, AllocError>
    requires shown { (w : World) × Shows machine.old w }
    requires watched { AreWatched machine.old.jobs sizes.now [] }
    ensures shown { IfOk result (λ findings. (w : World) → Shows machine.old w
        → All (IsEvidenceOf w) findings.evidence.items) }
    ensures all { IfOk result (λ findings. (w : World) → Shows machine.old w
        → LeavesNoneOut w machine.new findings.evidence.items) }
{
    let mut findings = Findings {
        seen: Seen::nothing(alloc),
        loops,
        evidence: Vec::new(alloc),
    };
    'watching: loop {
        let worked = watch_round(alloc, machine, sizes, &mut findings)?;
        if !worked {
            // Nothing is left to do, which is to say that each job has ended.
            machine.rounds();
            return Ok(findings);
        }
    }
}

/// Runs jobs in rounds over a new store, until each has ended: the machine that they leave, and of
/// each job that ended in a fault what its CPU had before that step; and put after the loops, of
/// each that ended out of budget, its last steps. Out of memory is the only refusal.
pub fn evidence_of(
    alloc: Global,
    setup: Setup,
    loops: &mut Vec<Loop>,
) -> Result<(Machine, Vec<Evidence>), AllocError>
    requires { IsRunnable setup }
    ensures shown { IfOk result (λ r. All (IsEvidenceOf (first_of setup)) r.1.items) }
    ensures all { IfOk result (λ r. LeavesNoneOut (first_of setup) r.0 r.1.items) }
{
    let sizes = all_sizes(alloc, &setup.jobs)?;
    let mut machine = make_machine(alloc, setup)?;
    let found = Loops::new(alloc, machine.cpus())?;
    let mut findings = watch(alloc, &mut machine, &sizes, found)?;
    loops.append(&mut findings.loops.found)?;
    Ok((machine, findings.evidence))
}
