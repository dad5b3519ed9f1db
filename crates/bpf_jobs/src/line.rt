//! The line of a job that has ended.

ghost use Rattle.std.specs.Prelude.{◌≡◌, ◌++◌, OnOk, Some, string_bytes};
ghost use Rattle.bpf_cpu.specs.Lines.{job_line};
ghost use Rattle.bpf_jobs.specs.Printed.{is_stop};

use bpf_cpu::Outcome;
use std::alloc::{AllocError, Global};
use std::fmt;

/// How an outcome is printed.
#[derive(Drop)]
pub struct OutcomeText(pub Outcome);

impl fmt::Display for OutcomeText {
    ghost use Rattle.std.specs.Prelude.{Some};
    ghost use Rattle.bpf_cpu.specs.Lines.{outcome_text};

    ghost output = { λ x. Some (outcome_text x.0) };

    fn fmt<W: fmt::Write>(&self, f: &mut fmt::Formatter<W>) -> fmt::Result {
        match self.0 {
            Outcome::Exit(r0) => write!(f, "r0={r0}"),
            Outcome::Fault(fault, pc) => write!(f, "fault {} at {pc}", fault.code().text()),
            Outcome::OutOfBudget(pc) => write!(f, "out of budget at {pc}"),
        }
    }
}

/// A job by its number, the CPU that ran it, and how it ended.
#[derive(Drop)]
struct JobLine {
    job: usize,
    cpu: u8,
    outcome: Outcome,
}

impl fmt::Display for JobLine {
    ghost use Rattle.std.specs.Prelude.{Some};
    ghost use Rattle.bpf_cpu.specs.Lines.{job_line};

    ghost output = { λ x. Some (job_line x.job x.cpu x.outcome) };

    fn fmt<W: fmt::Write>(&self, f: &mut fmt::Formatter<W>) -> fmt::Result {
        write!(
            f,
            "job {} cpu {} {}\n",
            self.job,
            self.cpu,
            OutcomeText(self.outcome)
        )
    }
}

/// Appends the line of a job that has ended to the text.
pub fn push_job(
    alloc: Global,
    text: &mut String,
    job: usize,
    cpu: u8,
    outcome: Outcome,
) -> Result<(), AllocError>
    ensures { OnOk result (string_bytes text.new
        ≡ string_bytes text.old ++ job_line job cpu outcome) }
{
    let line = format!(in alloc; "{}", JobLine { job, cpu, outcome })?;
    text.push_str(line.as_str())
}

/// Whether this is a fault or out of budget.
pub fn is_stop(outcome: Outcome) -> bool
    ensures { result ≡ is_stop (Some outcome) }
{
    match outcome {
        Outcome::Fault(_, _) | Outcome::OutOfBudget(_) => true,
        Outcome::Exit(_) => false,
    }
}
