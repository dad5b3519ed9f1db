//! Another machine of the same programs, for kept jobs.

ghost use Rattle.std.specs.Prelude.{◌≡◌, IfOk, map};
ghost use Rattle.bpf_machine.specs.Private.Lanes.{empty_job};

use super::Machine;
use crate::machine::lane::Listed;
use bpf_cpu::{Input, Job};
use bpf_loader::Program;
use bpf_plain::PlainStore;
use std::alloc::{AllocError, Global};

/// A copy of each program.
fn copy_programs(alloc: Global, programs: &[Program]) -> Result<Vec<Program>, AllocError>
    ensures { IfOk result (λ copies. copies.items ≡ programs.now) }
{
    let mut copies = Vec::with_capacity(alloc, programs.len())?;
    for program in programs {
        copies.push(program.copy(alloc)?)?;
    }
    Ok(copies)
}

/// As many jobs, of the same CPUs and programs, which wait with nothing.
fn empty_jobs(alloc: Global, jobs: &[Listed]) -> Result<Vec<Job>, AllocError>
    ensures { IfOk result (λ empty. empty.items ≡ map empty_job jobs.now) }
{
    let mut empty = Vec::with_capacity(alloc, jobs.len())?;
    for job in jobs {
        empty.push(Job {
            cpu: job.cpu,
            program: job.program,
            budget: job.budget,
            input: Input::nothing(alloc),
        })?;
    }
    Ok(empty)
}

impl Machine {
    ghost use Rattle.std.specs.Prelude.{◌≡◌, ℕ, false, None, IfOk, length};
    ghost use Rattle.bpf_plain.specs.PlainStore.{has_cpu, is_running};

    /// A machine of the same programs and of as many jobs, on another store that has the same CPUs.
    /// The jobs all wait with nothing: it becomes another by `restore`.
    pub fn another(&self, alloc: Global, store: PlainStore) -> Result<Machine, AllocError>
        requires idle { (cpu : ℕ) → is_running store cpu ≡ false }
        requires cpus { (cpu : ℕ) → has_cpu store cpu ≡ has_cpu self.now.store cpu }
        ensures store { IfOk result (λ m. m.store ≡ store) }
        ensures programs { IfOk result (λ m. m.programs ≡ self.now.programs) }
        ensures jobs { IfOk result (λ m. length m.jobs ≡ length self.now.jobs) }
        ensures lists { IfOk result (λ m. m.lists ≡ None) }
    {
        let programs = copy_programs(alloc, &self.programs)?;
        let jobs = empty_jobs(alloc, &self.jobs)?;
        match Machine::new(alloc, store, programs, jobs) {
            Ok(machine) => Ok(machine),
            Err(_) => Err(AllocError),
        }
    }
}
