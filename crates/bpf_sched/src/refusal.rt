//! Why no job is begun.

use bpf_codes::{Code, Diagnostic};
use hop_map::HopStore;
use thiserror::Error;

/// Why no job is begun: the first that applies.
#[derive(Clone, Copy, PartialEq, Eq, Debug, Error)]
pub enum SchedError {
    /// J1: there are no workers.
    #[error("there are no workers")]
    NoWorkers,
    /// J2: there are more workers than a store can have CPUs.
    #[error("there are more than 16 workers")]
    TooManyWorkers,
    /// J3: some job's CPU isn't one of the store.
    #[error("the store doesn't have the CPU of a job")]
    NoSuchCpu,
    /// J4: there was no memory for what the jobs need.
    #[error("out of memory")]
    OutOfMemory,
}

impl SchedError {
    ghost use Rattle.std.specs.Prelude.{◌≡◌};
    ghost use Rattle.bpf_sched.specs.Diagnostic.{sched_diagnostic};

    /// What is printed of it: its code, and where it is.
    pub fn diagnostic(self) -> Diagnostic
        ensures { result ≡ sched_diagnostic self }
    {
        match self {
            SchedError::NoWorkers => Diagnostic::new(Code::J1),
            SchedError::TooManyWorkers => Diagnostic::new(Code::J2),
            SchedError::NoSuchCpu => Diagnostic::new(Code::J3),
            SchedError::OutOfMemory => Diagnostic::new(Code::J4),
        }
    }
}

/// Why no job was begun, with the store.
#[derive(Drop)]
pub struct Refused {
    pub error: SchedError,
    pub store: HopStore,
}
