//! A run file on worker threads.

ghost use Rattle.std.specs.Prelude.{IfOk, string_bytes};
ghost use Rattle.bpf_cpu.specs.Setup.{IsRunnable};
ghost use Rattle.bpf_file.specs.File.{file_of};
ghost use Rattle.bpf_sched.specs.Refusing.{AreWorkers};
ghost use Rattle.bpf_workers.specs.Printed.{IsWorkersReport};

use crate::left::Left;
use crate::telling::{Counted, Ended, Extras, tell_counted};
use bpf_cpu::Setup;
use bpf_file::RunFile;
use bpf_plain::copy_shape;
use bpf_sched::{Asked, NoGate, SchedError, run_filled};
use hop_map::HopStore;
use std::alloc::Global;
use std::sync::Wait;
use std::thread::Threads;
use thiserror::Error;

/// Who found no memory.
#[derive(Clone, Copy, PartialEq, Eq, Debug, Error)]
pub enum WorkError {
    /// What the jobs need, before the first of them began.
    #[error("out of memory for the jobs")]
    Jobs,
    /// The store that the file asks for, or the answer.
    #[error("out of memory")]
    OutOfMemory,
}

/// Runs the jobs of a run file by n workers, over a new store whose maps have their pairs, and makes
/// what is printed of them. Where keys are asked for, each CPU with jobs lists those of all maps after
/// them. Out of memory is the only refusal; all that the jobs and the lists need is there before the
/// first begins.
///
/// Beside it, where they are asked for, a line a map of its numbers: its segments, keys, keys on
/// overflow lists and free elements, as the store is left; splits, readings that were disturbed and
/// lookups under a lock, as the ports counted them.
pub fn run_counted<R: Threads + Wait + Sync>(
    rt: &R,
    alloc: Global,
    file: RunFile,
    workers: u8,
    extras: Extras,
) -> Result<Counted, WorkError>
    requires file { IsRunnable file.setup }
    requires workers { AreWorkers workers }
    ensures { IfOk result (λ r. IsWorkersReport (file_of file)
        (record { keys = extras.keys; maps = extras.maps; stats = extras.stats })
        (record {
          text = string_bytes r.report.text;
          stopped = r.report.stopped;
          counts = string_bytes r.stats;
        })) }
{
    let RunFile { setup, seed, names } = file;
    let Setup {
        shape,
        pairs,
        programs,
        jobs,
    } = setup;
    // The store takes its own, and the lines of what is left need one too.
    let Ok(copy) = copy_shape(alloc, &shape) else {
        return Err(WorkError::OutOfMemory);
    };
    let Ok(store) = HopStore::new(alloc, shape, seed) else {
        return Err(WorkError::OutOfMemory);
    };
    let asked = Asked {
        programs: &programs,
        jobs: &jobs,
        workers: usize::from(workers),
        keys: extras.keys,
        gate: &NoGate,
    };
    let done = match run_filled(rt, alloc, store, &pairs, &asked) {
        Ok(done) => done,
        Err(SchedError::OutOfMemory) => return Err(WorkError::Jobs),
        // There are workers, not too many, and a file's jobs are on its CPUs.
        Err(_) => unreachable!(),
    };
    let left = Left {
        shape: &copy,
        closed: &done.closed,
    };
    let ended = Ended {
        jobs: &jobs,
        ends: &done.outcomes,
        lists: &done.lists,
    };
    match tell_counted(alloc, &ended, left, &names, extras) {
        Ok(counted) => Ok(counted),
        Err(_) => Err(WorkError::OutOfMemory),
    }
}
