//! A store whose maps have pairs before the first job.

ghost use Rattle.std.specs.Prelude.{◌≡◌, ◌<◌, ◌≤◌, [], false, All, IfErr, IfOk, OnOk, length, map, vec_len};
ghost use Rattle.bpf_mem.specs.Limits.{max_context};
ghost use Rattle.bpf_shared.specs.History.{events_of};
ghost use Rattle.bpf_shared.specs.Store.{Plain};
ghost use Rattle.bpf_cpu.specs.Input.{IsShort};
ghost use Rattle.bpf_cpu.specs.Task.{waiting};
ghost use Rattle.bpf_pairs.specs.Pairs.{ArePairs, pair_of};
ghost use Rattle.bpf_pairs.specs.Putting.{first_history};
ghost use Rattle.hop_map.specs.Dumping.{IsLast};
ghost use Rattle.hop_map.specs.Port.{IsPortOf, own_events, runs};
ghost use Rattle.hop_map.specs.Stores.{ArePorts, HaveSeen, seen_by};
ghost use Rattle.bpf_sched.specs.Explained.{IsExplained, LeadsTo};
ghost use Rattle.bpf_sched.specs.Refusing.{AreHere, AreWorkers, IsFirstSchedError};
ghost use Rattle.bpf_sched.specs.Worked.{listed_by};

use crate::crew::{Asked, Report, run_ports};
use crate::gate::Gate;
use crate::jobs::check;
use crate::refusal::SchedError;
use crate::room::Room;
use bpf_pairs::{Pair, put_pairs};
use hop_cpu::HopCpu;
use hop_map::{HopPort, HopStore, settle};
use hop_words::HopTable;
use std::alloc::{AllocError, Global};
use std::sync::Wait;
use std::thread::Threads;

/// The port, after its CPU has put the pairs in, if it is CPU 0. An update that isn't done is answered
/// as out of memory.
fn put_by<R: Wait>(
    rt: &R,
    table: &HopTable,
    port: HopPort,
    pairs: &[Pair],
) -> Result<HopPort, AllocError>
    requires fits { IsPortOf table.now port }
    requires idle { runs port ≡ false }
    requires new { own_events port ≡ [] }
    requires pairs { ArePairs table.now.about.shape.maps (map pair_of pairs.now) }
    ensures fits { IfOk result (IsPortOf table.now) }
    ensures idle { IfOk result (λ p. runs p ≡ false) }
    ensures cpu { IfOk result (λ p. p.known.cpu ≡ port.known.cpu) }
    ensures put { IfOk result (λ p. own_events p
        ≡ events_of port.known.cpu (first_history (map pair_of pairs.now))) }
{
    let cpu = port.cpu();
    if cpu != 0 {
        return Ok(port);
    }
    let mut store = HopCpu::new(rt, table, port);
    if !put_pairs(&mut store, cpu, pairs) {
        return Err(AllocError);
    }
    Ok(store.into_port())
}

/// The ports of a store that no CPU has called yet, after CPU 0 has put these pairs in, and no other
/// has done anything: each has seen that run, which is the whole history so far.
pub(crate) fn fill<R: Wait>(
    rt: &R,
    alloc: Global,
    table: &HopTable,
    ports: Vec<HopPort>,
    pairs: &[Pair],
) -> Result<Vec<HopPort>, AllocError>
    requires ports { ArePorts table.now ports.items }
    requires pairs { ArePairs table.now.about.shape.maps (map pair_of pairs.now) }
    ensures { IfOk result (λ v. HaveSeen table.now (seen_by v.items) v.items
        × (seen_by v.items ≡ first_history (map pair_of pairs.now))) }
{
    if pairs.is_empty() {
        return Ok(ports);
    }
    let _few = table.about().shape.cpus();
    let mut filled = Vec::with_capacity(alloc, 16)?;
    'ports: for port in ports {
        filled.push(put_by(rt, table, port, pairs)?)?;
    }
    settle(alloc, table, filled)
}

/// Runs jobs as `run_jobs` does, over a store whose maps have pairs before any job: CPU 0 puts them in,
/// and no CPU calls the store before that. Where it is refused no job is begun, and the store is gone.
pub fn run_filled<R: Threads + Wait + Sync, G: Gate + Sync>(
    rt: &R,
    alloc: Global,
    store: HopStore,
    pairs: &[Pair],
    asked: &Asked<'_, G>,
) -> Result<Report, SchedError>
    requires pairs { ArePairs store.table.about.shape.maps (map pair_of pairs.now) }
    requires programs { All (λ job. job.program < length asked.now.programs.now)
        asked.now.jobs.now }
    requires inputs { All (λ job. IsShort job.input) asked.now.jobs.now }
    ensures workers { OnOk result (AreWorkers asked.now.workers) }
    ensures cpus { OnOk result (AreHere store.table.about.shape.cpus asked.now.jobs.now) }
    ensures about { IfOk result (λ r. r.closed.about ≡ store.table.about) }
    ensures explained { IfOk result
        (λ r. IsExplained store.table.about.shape store.table.about.count
        (first_history (map pair_of pairs.now)) asked.now.programs.now
        (map waiting asked.now.jobs.now) asked.now.keys
        r.outcomes.items (listed_by r.lists.items) r.closed.history) }
    ensures last { IfOk result (λ r. (last : Plain) × IsLast r.closed last
        × LeadsTo r.closed.about.shape r.closed.about.version r.closed.history last) }
    ensures refused { IfErr result
        (IsFirstSchedError store.table.about.shape.cpus asked.now.workers asked.now.jobs.now) }
{
    let shape = &store.about().shape;
    let cpus = shape.cpus();
    check(cpus, asked.workers, asked.jobs)?;
    let Ok(room) = Room::new(alloc, cpus, shape.maps(), asked.jobs, asked.keys) else {
        return Err(SchedError::OutOfMemory);
    };
    let (table, ports) = store.ports();
    let Ok(ports) = fill(rt, alloc, &table, ports, pairs) else {
        return Err(SchedError::OutOfMemory);
    };
    Ok(run_ports(rt, table, ports, room, asked))
}
