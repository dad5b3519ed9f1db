//! All workers of a store.

ghost use Rattle.std.specs.Prelude.{◌≡◌, ◌<◌, ◌≤◌, ℕ, [], All, IsSome, Some, length, map, slice_index_or, vec_capacity, vec_len};
ghost use Rattle.bpf_shared.specs.Store.{Plain};
ghost use Rattle.bpf_cpu.specs.Task.{waiting};
ghost use Rattle.hop_map.specs.Dumping.{IsLast};
ghost use Rattle.hop_map.specs.Port.{Port};
ghost use Rattle.hop_map.specs.Stores.{HaveSeen, seen_by};
ghost use Rattle.bpf_sched.specs.Explained.{IsExplained, LeadsTo};
ghost use Rattle.bpf_sched.specs.Worked.{AreFor, IsReadyWorker, listed_by, Worked};
ghost use Rattle.bpf_sched.specs.declared.worker.Worker.{Worker};

use crate::gate::Gate;
use crate::room::Room;
use crate::telling::note_all;
use crate::worker::{Worker, work};
use bpf_cpu::{Job, Outcome};
use bpf_loader::Program;
use bpf_shared::KeyList;
use hop_map::{Closed, HopPort, gather};
use hop_words::HopTable;
use std::sync::Wait;
use std::thread;
use std::thread::Threads;

/// Gives each worker its CPU's port.
pub(crate) fn equip(workers: &mut [Worker], ports: Vec<HopPort>)
    requires { vec_len ports ≡ length workers.old }
    ensures size { length workers.new ≡ length workers.old }
    ensures ports { (c : ℕ) (d : Worker) (p : Port) → c < length workers.old
        → (slice_index_or workers.new c d).port ≡ Some (slice_index_or ports.items c p) }
    ensures workloads { (c : ℕ) (d : Worker) → c < length workers.old
        → (slice_index_or workers.new c d).workload ≡ (slice_index_or workers.old c d).workload }
{
    let mut cpu = 0;
    for port in ports {
        workers[cpu].port = Some(port);
        cpu += 1;
    }
}

/// Takes the ports and the lists back.
pub(crate) fn dismiss(
    workers: Vec<Worker>,
    mut ports: Vec<HopPort>,
    mut lists: Vec<Vec<KeyList>>,
) -> (Vec<HopPort>, Vec<Vec<KeyList>>)
    requires empty { (ports.items ≡ []) × (lists.items ≡ []) }
    requires room { (vec_len workers ≤ vec_capacity ports)
        × (vec_len workers ≤ vec_capacity lists) }
    requires ports { All (λ w. IsSome w.port) workers.items }
    ensures ports { map Some result.0.items ≡ map (λ w. w.port) workers.items }
    ensures lists { result.1.items ≡ map (λ w. w.workload.lists) workers.items }
{
    for worker in workers {
        let Worker { port, workload } = worker;
        let Some(port) = port else { unreachable!() };
        let (Ok(()), Ok(())) = (ports.push(port), lists.push(workload.lists)) else {
            unreachable!()
        };
    }
    (ports, lists)
}

/// Runs all workers, in n threads at most. Where a thread can't be started, the others do its
/// work.
pub(crate) fn work_all<R: Threads + Wait + Sync, G: Gate + Sync>(
    rt: &R,
    table: &HopTable,
    programs: &[Program],
    gate: &G,
    threads: usize,
    workers: &mut [Worker],
)
    requires threads { 0 < threads }
    requires ready { All (IsReadyWorker table.now (length programs.now)) workers.old }
    ensures size { length workers.new ≡ length workers.old }
    ensures worked { (i : ℕ) (d : Worker) → i < length workers.old → Worked table.now programs.now
        (slice_index_or workers.old i d) (slice_index_or workers.new i d) }
{
    let each = |_: usize, worker: &mut Worker|
        requires { IsReadyWorker table.now (length programs.now) worker.now }
        ensures { Worked table.entry.now programs.entry.now worker.entry.now worker.exit.now }
    { work(rt, table, programs, gate, worker) };
    thread::for_each_mut(rt, workers, threads, &each);
}

/// How all jobs ended, in the order of their list, what CPUs have listed, and what is left of the
/// store.
#[derive(Drop)]
pub struct Report {
    pub outcomes: Vec<Outcome>,
    /// By CPU, and of each by map; none where lists weren't asked for or the CPU has no job.
    pub lists: Vec<Vec<KeyList>>,
    pub closed: Closed,
}

/// What is to be run: these jobs of these programs, by n workers; and whether each CPU with jobs lists
/// all maps' keys after them.
#[derive(Drop)]
pub struct Asked<'a, G: Gate> {
    pub programs: &'a [Program],
    pub jobs: &'a [Job],
    pub workers: usize,
    pub keys: bool,
    pub gate: &'a G,
}

/// Runs all jobs over the ports of a store, whose CPUs have all seen its history so far, each CPU's in
/// their order, by n workers at most; and where lists are asked for, each CPU with jobs lists all maps'
/// keys after them. It takes no memory.
pub fn run_ports<R: Threads + Wait + Sync, G: Gate + Sync>(
    rt: &R,
    table: HopTable,
    ports: Vec<HopPort>,
    room: Room,
    asked: &Asked<'_, G>,
) -> Report
    requires ports { HaveSeen table (seen_by ports.items) ports.items }
    requires workers { 0 < asked.now.workers }
    requires programs { All (λ job. job.program < length asked.now.programs.now)
        asked.now.jobs.now }
    requires cpus { All (λ job. job.cpu < table.about.shape.cpus) asked.now.jobs.now }
    requires assigned { AreFor room.keys table.about.shape.maps (map waiting asked.now.jobs.now)
        table.about.shape.cpus room.workers.items }
    requires empty { (room.ports.items ≡ []) × (room.lists.items ≡ []) }
    requires room { (table.about.shape.cpus ≤ vec_capacity room.ports)
        × (table.about.shape.cpus ≤ vec_capacity room.lists) }
    requires ends { vec_len room.ends ≡ length asked.now.jobs.now }
    ensures about { result.closed.about ≡ table.about }
    ensures explained { IsExplained table.about.shape table.about.count (seen_by ports.items)
        asked.now.programs.now (map waiting asked.now.jobs.now) room.keys result.outcomes.items
        (listed_by result.lists.items) result.closed.history }
    ensures last { (last : Plain) × IsLast result.closed last
        × LeadsTo result.closed.about.shape result.closed.about.version result.closed.history last }
{
    let _few = table.about().shape.cpus();
    let _maps = table.about().shape.maps();
    let Room {
        keys: _,
        workers: mut crew,
        ports: back,
        lists: listed,
        mut ends,
    } = room;
    equip(&mut crew, ports);
    work_all(
        rt,
        &table,
        asked.programs,
        asked.gate,
        asked.workers,
        &mut crew,
    );
    note_all(asked.jobs, &crew, &mut ends);
    let (ports, lists) = dismiss(crew, back, listed);
    let closed = gather(table, ports);
    Report {
        outcomes: ends,
        lists,
        closed,
    }
}
