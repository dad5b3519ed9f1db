//! The jobs of a machine as kept ones, and as bytes.

ghost use Rattle.std.specs.Prelude.{◌≡◌, ◌++◌, ℕ, true, IfOk, OnOk, Some, map, slice_get};
ghost use Rattle.bpf_cpu.specs.Task.{Task};
ghost use Rattle.bpf_machine.specs.Kept.{kept_stage};
ghost use Rattle.bpf_machine.specs.Saved.{jobs_saved, ComesFrom, FitsBytes, IsStageOf, input_of};
ghost use Rattle.bpf_buffering.specs.Jobs.{task_of, tasks_of};
ghost use Rattle.bpf_expand.specs.Private.Home.{CountUp};
ghost use Rattle.bpf_buffer_expand.specs.Private.Room.{AreFrom};

use bpf_buffering::Listed;
use bpf_cpu::Input;
use bpf_machine::{KeptJob, KeptStage};
use std::alloc::{AllocError, Global};

/// The numbers below this one.
pub(crate) fn count_up(alloc: Global, count: usize) -> Result<Vec<u32>, AllocError>
    ensures { IfOk result (λ v. CountUp v.items count) }
{
    let mut numbers = Vec::with_capacity(alloc, count)?;
    for job in 0..count {
        let number = u32::try_from(job).map_err(|_| AllocError)?;
        numbers.push(number)?;
    }
    Ok(numbers)
}

/// A job as it is, as one that is kept.
fn keep_job(alloc: Global, job: &Listed) -> Result<KeptJob, AllocError>
    ensures { IfOk result (λ kept. kept ≡ task_of job.now) }
{
    KeptJob::new(alloc, job.cpu, job.program, job.budget, &job.stage)
}

/// Jobs as they are, as kept ones.
pub(crate) fn keep_jobs(alloc: Global, jobs: &[Listed]) -> Result<Vec<KeptJob>, AllocError>
    ensures { IfOk result (λ v. v.items ≡ tasks_of jobs.now) }
{
    let mut kept = Vec::with_capacity(alloc, jobs.len())?;
    for job in jobs {
        let one = keep_job(alloc, job)?;
        kept.push(one)?;
    }
    Ok(kept)
}

/// The CPUs of jobs.
pub(crate) fn cpus_of(alloc: Global, jobs: &[Listed]) -> Result<Vec<u8>, AllocError>
    ensures { IfOk result (λ v. v.items ≡ map (λ task. task.cpu) (tasks_of jobs.now)) }
{
    let mut cpus = Vec::with_capacity(alloc, jobs.len())?;
    for job in jobs {
        cpus.push(job.cpu)?;
    }
    Ok(cpus)
}

/// A kept job, of this CPU, in a machine's list.
fn list_job(alloc: Global, cpu: u8, kept: &KeptJob) -> Result<Listed, AllocError>
    requires { kept.now.cpu ≡ cpu }
    ensures { IfOk result (λ job. task_of job ≡ kept.now) }
{
    let stage = kept.stage(alloc)?;
    Ok(Listed {
        cpu,
        program: kept.program(),
        budget: kept.budget(),
        stage,
    })
}

/// Kept jobs, of these CPUs, as a machine's list.
pub(crate) fn list_jobs(
    alloc: Global,
    cpus: &[u8],
    kept: &[KeptJob],
) -> Result<Vec<Listed>, AllocError>
    requires { cpus.now ≡ map (λ task. task.cpu) kept.now }
    ensures { IfOk result (λ v. tasks_of v.items ≡ kept.now) }
{
    let mut jobs = Vec::with_capacity(alloc, kept.len())?;
    for job in 0..kept.len() {
        let listed = list_job(alloc, cpus[job], &kept[job])?;
        jobs.push(listed)?;
    }
    Ok(jobs)
}

/// Appends to the bytes what jobs are saved as.
pub(crate) fn save_jobs(jobs: &[Listed], out: &mut Vec<u8>) -> Result<(), AllocError>
    ensures { OnOk result (out.new.items ≡ out.old.items ++ jobs_saved (tasks_of jobs.now)) }
{
    for job in jobs {
        job.stage.save(out)?;
    }
    Ok(())
}

/// Each job's stage fits into bytes: says so, and does nothing.
pub(crate) fn jobs_fit_bytes(jobs: &[Listed])
    ensures { (j : ℕ) (task : Task) → slice_get (tasks_of jobs.now) j ≡ Some task
        → FitsBytes task.stage }
{
    for job in jobs {
        job.stage.fits_bytes();
    }
}

/// Whether the stage is one of a job of this CPU that waited with this.
fn is_stage_of(cpu: u8, input: &Input, stage: &KeptStage) -> bool
    ensures { result ≡ true → IsStageOf cpu input.now (kept_stage stage.now) }
{
    match stage {
        KeptStage::Waiting(own) => own.is_same(input),
        KeptStage::InHand(state, _) => {
            state.number == cpu
                && state.given == input.given
                && state.memory.context.bytes().len() == input.context.bytes().len()
                && state.memory.packet.bytes().len() == input.packet.bytes().len()
        }
        KeptStage::Ended(_) => true,
    }
}

/// Whether the stage is one of a job of this CPU that was this kept one, which waited.
fn is_stage_from(cpu: u8, first: &KeptJob, stage: &KeptStage) -> bool
    ensures { result ≡ true → IsStageOf cpu (input_of first.now.stage) (kept_stage stage.now) }
{
    match first.input() {
        Some(input) => is_stage_of(cpu, input, stage),
        None => false,
    }
}

/// Whether the job is one that was this kept one, of this CPU.
fn is_from(cpu: u8, first: &KeptJob, job: &Listed) -> bool
    requires { first.now.cpu ≡ cpu }
    ensures { result ≡ true → ComesFrom first.now (task_of job.now) }
{
    job.cpu == cpu
        && job.program == first.program()
        && job.budget == first.budget()
        && is_stage_from(cpu, first, &job.stage)
}

/// Whether the jobs are those that were these kept ones, of these CPUs.
pub(crate) fn are_from(cpus: &[u8], first: &[KeptJob], jobs: &[Listed]) -> bool
    requires { cpus.now ≡ map (λ task. task.cpu) first.now }
    ensures { result ≡ true → AreFrom first.now (tasks_of jobs.now) }
{
    if jobs.len() != first.len() {
        return false;
    }
    for job in 0..jobs.len() {
        if !is_from(cpus[job], &first[job], &jobs[job]) {
            return false;
        }
    }
    true
}
