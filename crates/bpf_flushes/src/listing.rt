//! The lines of all jobs.

ghost use Rattle.std.specs.Prelude.{◌≡◌, ◌++◌, IfOk, OnOk, length, slice_get, string_bytes};
ghost use Rattle.bpf_cpu.specs.Task.{outcome_at};
ghost use Rattle.bpf_jobs.specs.Printed.{any_stopped, is_stop, job_lines, task_line};

use bpf_buffering::Buffering;
use bpf_jobs::{is_stop, push_job};
use std::alloc::{AllocError, Global};

/// Appends the line of a job to the text, where the job has ended.
#[tactic(auto, using(bpf_jobs::proofs::LineLaws::no_cpu, bpf_jobs::proofs::LineLaws::no_outcome, bpf_jobs::proofs::LineLaws::has_ended))]
fn push_ended(
    alloc: Global,
    text: &mut String,
    machine: &Buffering,
    job: usize,
) -> Result<(), AllocError>
    ensures { OnOk result (string_bytes text.new
        ≡ string_bytes text.old ++ task_line job (slice_get machine.now.machine.jobs job)) }
{
    let Some(cpu) = machine.cpu_of(job) else {
        return Ok(());
    };
    let Some(outcome) = machine.outcome(job) else {
        return Ok(());
    };
    push_job(alloc, text, job, cpu, outcome)
}

/// A line a job, in the order of the machine's list.
pub(crate) fn list_jobs(alloc: Global, machine: &Buffering) -> Result<String, AllocError>
    ensures { IfOk result (λ text. string_bytes text
        ≡ job_lines (length machine.now.machine.jobs) machine.now.machine.jobs) }
{
    let mut text = String::new(alloc);
    for job in 0..machine.jobs() {
        push_ended(alloc, &mut text, machine, job)?;
    }
    Ok(text)
}

/// Whether a job has ended in a fault or out of budget.
fn has_stopped(machine: &Buffering, job: usize) -> bool
    ensures { result ≡ is_stop (outcome_at machine.now.machine.jobs job) }
{
    match machine.outcome(job) {
        Some(outcome) => is_stop(outcome),
        None => false,
    }
}

/// Whether some job has ended in a fault or out of budget.
pub(crate) fn has_any_stopped(machine: &Buffering) -> bool
    ensures { result
        ≡ any_stopped (length machine.now.machine.jobs) machine.now.machine.jobs }
{
    let mut stopped = false;
    for job in 0..machine.jobs() {
        stopped = stopped || has_stopped(machine, job);
    }
    stopped
}
