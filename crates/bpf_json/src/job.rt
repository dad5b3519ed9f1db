//! Lines of jobs that have ended.

ghost use Rattle.std.specs.Prelude.{◌≡◌, IfOk, string_bytes};
ghost use Rattle.bpf_json.specs.Lines.{end_members, end_text, job_object, job_text};

use crate::known::Known;
use crate::texts::{exact_members, line_member, text_member};
use std::alloc::{AllocError, Global};

/// How a job has ended.
#[derive(PartialEq, Eq, Debug, Drop)]
pub enum End {
    /// With this in r0.
    Exit(u64),
    /// By a fault of this code at a pc.
    Fault { code: String, pc: u64 },
    /// At this pc, with no step left.
    OutOfBudget(u64),
}

/// A job that has ended, by its number and its CPU's.
#[derive(PartialEq, Eq, Debug, Drop)]
pub struct Job {
    pub job: u64,
    pub cpu: u64,
    pub end: End,
}

impl End {
    fn plain(&self, alloc: Global) -> Result<String, AllocError>
        ensures { IfOk result (λ s. string_bytes s ≡ end_text self.now) }
    {
        match self {
            End::Exit(r0) => format!(in alloc; "r0={r0}"),
            End::Fault { code, pc } => format!(in alloc; "fault {code} at {pc}"),
            End::OutOfBudget(pc) => format!(in alloc; "out of budget at {pc}"),
        }
    }

    fn members(&self, alloc: Global, known: &Known, job: u64) -> Result<String, AllocError>
        ensures { IfOk result (λ s. string_bytes s ≡ end_members known.now job self.now) }
    {
        match self {
            End::Exit(r0) => exact_members(alloc, "r0", *r0),
            End::Fault { code, pc } => {
                let code = text_member(alloc, "fault", code.as_str())?;
                let line = line_member(alloc, known.line_of_job(job, *pc))?;
                format!(in alloc; "{code},\"pc\":{pc}{line}")
            }
            End::OutOfBudget(pc) => {
                let line = line_member(alloc, known.line_of_job(job, *pc))?;
                format!(in alloc; "\"out_of_budget\":true,\"pc\":{pc}{line}")
            }
        }
    }
}

impl Job {
    pub(crate) fn plain(&self, alloc: Global) -> Result<String, AllocError>
        ensures { IfOk result (λ s. string_bytes s ≡ job_text self.now) }
    {
        let Job { job, cpu, end } = self;
        let end = end.plain(alloc)?;
        format!(in alloc; "job {job} cpu {cpu} {end}")
    }

    pub(crate) fn object(&self, alloc: Global, known: &Known) -> Result<String, AllocError>
        ensures { IfOk result (λ s. string_bytes s ≡ job_object known.now self.now) }
    {
        let Job { job, cpu, end } = self;
        let end = end.members(alloc, known, self.job)?;
        format!(in alloc; "{{\"job\":{job},\"cpu\":{cpu},{end}}}")
    }
}
