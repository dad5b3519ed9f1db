//! All memory that jobs and lists of keys take, asked for before the first job begins.

ghost use Rattle.std.specs.Prelude.{◌≡◌, ◌≤◌, [], All, IfOk, length, List, map, vec_capacity, vec_len};
ghost use Rattle.bpf_cpu.specs.Task.{Task, waiting};
ghost use Rattle.bpf_sched.specs.Explained.{jobs_of, listed_maps};
ghost use Rattle.bpf_sched.specs.Working.{assigned};
ghost use Rattle.bpf_sched.specs.Worked.{AreFor};

use crate::assignment::Assignment;
use crate::worker::Worker;
use crate::workload::Workload;
use bpf_cpu::{Cpu, Job, Outcome};
use bpf_shared::{KeyList, MapShape};
use hop_map::HopPort;
use std::alloc::{AllocError, Global};

/// Workers without their ports, and room for the ports and the lists when they are back and for how
/// all jobs ended.
#[derive(Drop)]
pub struct Room {
    /// Whether lists of keys are asked for.
    pub keys: bool,
    pub workers: Vec<Worker>,
    pub ports: Vec<HopPort>,
    pub lists: Vec<Vec<KeyList>>,
    pub ends: Vec<Outcome>,
}

/// What a job needs to be run.
fn assigned(alloc: Global, job: &Job) -> Result<Assignment, AllocError>
    ensures { IfOk result (λ a. a ≡ assigned (waiting job.now)) }
{
    Ok(Assignment {
        cpu: Cpu::new(job.cpu, job.input.copy(alloc)?),
        program: job.program,
        budget: job.budget,
        outcome: Outcome::OutOfBudget(0),
    })
}

/// What a CPU's jobs need, in their order.
#[tactic(auto, using(crate::proofs::Assigning::one_of_its, crate::proofs::Assigning::one_of_others))]
fn assign(alloc: Global, cpu: u8, jobs: &[Job]) -> Result<Vec<Assignment>, AllocError>
    ensures { IfOk result (λ v. v.items ≡ map assigned (jobs_of cpu (map waiting jobs.now))) }
{
    let mut list = Vec::new(alloc);
    for job in jobs {
        if job.cpu == cpu {
            list.push(assigned(alloc, job)?)?;
        }
    }
    Ok(list)
}

/// A list for the keys of each of these maps.
fn make_lists(alloc: Global, maps: &[MapShape]) -> Result<Vec<KeyList>, AllocError>
    ensures { IfOk result (λ v. map (λ list. list.shape) v.items ≡ maps.now) }
{
    let mut lists = Vec::with_capacity(alloc, maps.len())?;
    for shape in maps {
        lists.push(KeyList::new(alloc, shape)?)?;
    }
    Ok(lists)
}

/// The lists that a CPU with these jobs takes.
fn assign_lists(
    alloc: Global,
    keys: bool,
    maps: &[MapShape],
    jobs: &[Assignment],
) -> Result<Vec<KeyList>, AllocError>
    ensures { (tasks : List Task) → jobs.now ≡ map assigned tasks → IfOk result
        (λ v. map (λ list. list.shape) v.items ≡ listed_maps keys maps.now tasks) }
{
    if keys && !jobs.is_empty() {
        make_lists(alloc, maps)
    } else {
        Ok(Vec::new(alloc))
    }
}

/// A worker for each of n CPUs.
fn enlist(
    alloc: Global,
    cpus: u8,
    maps: &[MapShape],
    jobs: &[Job],
    keys: bool,
) -> Result<Vec<Worker>, AllocError>
    ensures { IfOk result (λ v. AreFor keys maps.now (map waiting jobs.now) cpus v.items) }
{
    let mut workers = Vec::with_capacity(alloc, usize::from(cpus))?;
    for cpu in 0..cpus {
        let jobs = assign(alloc, cpu, jobs)?;
        let lists = assign_lists(alloc, keys, maps, &jobs)?;
        workers.push(Worker {
            port: None,
            workload: Workload { cpu, jobs, lists },
        })?;
    }
    Ok(workers)
}

/// Room for how n jobs end.
fn blank(alloc: Global, jobs: usize) -> Result<Vec<Outcome>, AllocError>
    ensures { IfOk result (λ v. vec_len v ≡ jobs) }
{
    let mut ends = Vec::with_capacity(alloc, jobs)?;
    for _job in 0..jobs {
        ends.push(Outcome::OutOfBudget(0))?;
    }
    Ok(ends)
}

impl Room {
    /// All that these jobs take, on a store of n CPUs with these maps; and all that lists of
    /// the maps' keys take, where they are asked for.
    pub fn new(
        alloc: Global,
        cpus: u8,
        maps: &[MapShape],
        jobs: &[Job],
        keys: bool,
    ) -> Result<Room, AllocError>
        ensures keys { IfOk result (λ r. r.keys ≡ keys) }
        ensures workers { IfOk result
            (λ r. AreFor keys maps.now (map waiting jobs.now) cpus r.workers.items) }
        ensures ports { IfOk result (λ r. (r.ports.items ≡ []) × (cpus ≤ vec_capacity r.ports)) }
        ensures lists { IfOk result (λ r. (r.lists.items ≡ []) × (cpus ≤ vec_capacity r.lists)) }
        ensures ends { IfOk result (λ r. vec_len r.ends ≡ length jobs.now) }
    {
        Ok(Room {
            keys,
            workers: enlist(alloc, cpus, maps, jobs, keys)?,
            ports: Vec::with_capacity(alloc, usize::from(cpus))?,
            lists: Vec::with_capacity(alloc, usize::from(cpus))?,
            ends: blank(alloc, jobs.len())?,
        })
    }
}
