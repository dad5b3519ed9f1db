//! The jobs of a machine as a list, and as bytes.

ghost use Rattle.std.specs.Prelude.{◌≡◌, ◌<◌, ◌++◌, ℕ, IfOk, OnOk, Some, length, slice_get};
ghost use Rattle.bpf_cpu.specs.Task.{Task};
ghost use Rattle.bpf_machine.specs.Saved.{jobs_saved, FitsBytes};
ghost use Rattle.bpf_expand.specs.Private.Home.{CountUp};

use bpf_machine::{KeptJob, Machine};
use std::alloc::{AllocError, Global};

/// The numbers below this one.
pub(crate) fn count_up(alloc: Global, count: usize) -> Result<Vec<u32>, AllocError>
    ensures { IfOk result (λ v. CountUp v.items count) }
{
    let mut numbers = Vec::with_capacity(alloc, count)?;
    for job in 0..count {
        let number = u32::try_from(job).map_err(|_| AllocError)?;
        numbers.push(number)?;
    }
    Ok(numbers)
}

/// A machine's jobs as they are.
pub(crate) fn keep_jobs(alloc: Global, machine: &Machine) -> Result<Vec<KeptJob>, AllocError>
    ensures { IfOk result (λ v. v.items ≡ machine.now.jobs) }
{
    let mut jobs = Vec::with_capacity(alloc, machine.jobs())?;
    for job in 0..machine.jobs() {
        let kept = machine.kept_job(alloc, job)?;
        jobs.push(kept)?;
    }
    Ok(jobs)
}

/// Appends to the bytes what a machine's jobs are saved as.
pub(crate) fn save_jobs(machine: &Machine, out: &mut Vec<u8>) -> Result<(), AllocError>
    ensures { OnOk result (out.new.items ≡ out.old.items ++ jobs_saved machine.now.jobs) }
{
    for job in 0..machine.jobs() {
        machine.save_job(job, out)?;
    }
    Ok(())
}

/// Each job's stage fits into bytes: says so, and does nothing.
pub(crate) fn jobs_fit_bytes(machine: &Machine)
    ensures { (j : ℕ) (task : Task) → slice_get machine.now.jobs j ≡ Some task
        → FitsBytes task.stage }
{
    for job in 0..machine.jobs() {
        machine.job_fits_bytes(job);
    }
}
