//! Jobs over a store, on worker threads.

ghost use Rattle.std.specs.Prelude.{◌≡◌, ◌<◌, ◌≤◌, [], All, IfErr, IfOk, IsFalse, IsTrue, OnOk, length, map, vec_len};
ghost use Rattle.bpf_mem.specs.Limits.{max_context};
ghost use Rattle.bpf_shared.specs.Store.{Plain};
ghost use Rattle.bpf_cpu.specs.Input.{IsShort};
ghost use Rattle.bpf_cpu.specs.Task.{waiting};
ghost use Rattle.hop_map.specs.Dumping.{IsLast};
ghost use Rattle.bpf_sched.specs.Explained.{IsExplained, LeadsTo};
ghost use Rattle.bpf_sched.specs.Refusing.{AreHere, AreWorkers, HasOutside, IsFirstSchedError};
ghost use Rattle.bpf_sched.specs.Worked.{listed_by};

use crate::crew::{Asked, Report, run_ports};
use crate::gate::Gate;
use crate::refusal::{Refused, SchedError};
use crate::room::Room;
use bpf_cpu::Job;
use hop_map::HopStore;
use std::alloc::Global;
use std::sync::Wait;
use std::thread::Threads;

/// At most: a store has no more CPUs.
const MAX_WORKERS: usize = 16;

/// Whether each job's CPU is one of n.
fn are_here(cpus: u8, jobs: &[Job]) -> bool
    ensures here { IsTrue result → AreHere cpus jobs.now }
    ensures outside { IsFalse result → HasOutside cpus jobs.now }
{
    for job in jobs {
        if job.cpu >= cpus {
            return false;
        }
    }
    true
}

/// Why n workers can't run these jobs on n CPUs, but since memory ran out.
pub(crate) fn check(cpus: u8, workers: usize, jobs: &[Job]) -> Result<(), SchedError>
    ensures workers { OnOk result (AreWorkers workers) }
    ensures cpus { OnOk result (AreHere cpus jobs.now) }
    ensures refused { IfErr result (IsFirstSchedError cpus workers jobs.now) }
{
    if workers == 0 {
        return Err(SchedError::NoWorkers);
    }
    if workers > MAX_WORKERS {
        return Err(SchedError::TooManyWorkers);
    }
    if !are_here(cpus, jobs) {
        return Err(SchedError::NoSuchCpu);
    }
    Ok(())
}

/// Runs all jobs over the store, each CPU's in their order, by n workers; and where lists of
/// keys are asked for, each CPU with jobs lists all maps after them. One history of the store
/// explains how they all ended and what was listed. Where it is refused no job is begun, and the
/// store is handed back as it was.
pub fn run_jobs<R: Threads + Wait + Sync, G: Gate + Sync>(
    rt: &R,
    alloc: Global,
    store: HopStore,
    asked: &Asked<'_, G>,
) -> Result<Report, Refused>
    requires programs { All (λ job. job.program < length asked.now.programs.now)
        asked.now.jobs.now }
    requires inputs { All (λ job. IsShort job.input) asked.now.jobs.now }
    ensures workers { OnOk result (AreWorkers asked.now.workers) }
    ensures cpus { OnOk result (AreHere store.table.about.shape.cpus asked.now.jobs.now) }
    ensures about { IfOk result (λ r. r.closed.about ≡ store.table.about) }
    ensures explained { IfOk result
        (λ r. IsExplained store.table.about.shape store.table.about.count [] asked.now.programs.now
        (map waiting asked.now.jobs.now) asked.now.keys r.outcomes.items (listed_by r.lists.items)
        r.closed.history) }
    ensures last { IfOk result (λ r. (last : Plain) × IsLast r.closed last
        × LeadsTo r.closed.about.shape r.closed.about.version r.closed.history last) }
    ensures refused { IfErr result (λ r.
        IsFirstSchedError store.table.about.shape.cpus asked.now.workers asked.now.jobs.now
        r.error) }
    ensures store { IfErr result (λ r. r.store ≡ store) }
{
    let shape = &store.about().shape;
    let cpus = shape.cpus();
    if let Err(error) = check(cpus, asked.workers, asked.jobs) {
        return Err(Refused { error, store });
    }
    let Ok(room) = Room::new(alloc, cpus, shape.maps(), asked.jobs, asked.keys) else {
        let error = SchedError::OutOfMemory;
        return Err(Refused { error, store });
    };
    let (table, ports) = store.ports();
    Ok(run_ports(rt, table, ports, room, asked))
}
