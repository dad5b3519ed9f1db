//! Jobs of real stores, on worker threads.
ghost use Rattle.std.specs.Prelude.{◌≤◌, ◌<◌, All, IfOk, length, vec_len};
ghost use Rattle.bpf_cpu.specs.Input.{IsShort};
ghost use Rattle.bpf_mem.specs.Limits.{max_context};

mod meeting;
mod texts;

use bpf_cpu::{Fault, Input, Job, Outcome};
use bpf_loader::{Named, Program, load};
use bpf_sched::{Asked, Gate, NoGate, Refused, Report, SchedError, run_jobs};
use bpf_shared::{MapShape, StoreShape};
use bpf_text::assemble;
use hop_map::{Closed, HopStore};
use meeting::Meeting;
use std::alloc::Global;
use std::sync::Wait;
use std::test::Fail;
use std::thread::Threads;
use texts::{ADD, KEEP, USE};

const fn shape(spare: u64) -> MapShape {
    MapShape {
        key: 4,
        value: 8,
        max: 1,
        spare,
        mask: 0xffff_ffff,
        grow: false,
    }
}

fn programs(alloc: Global, texts: &[&str]) -> Result<Vec<Program>, Fail> {
    let mut programs = Vec::new(alloc);
    let named = Named { maps: 2, arrays: 0 };
    for text in texts {
        programs.push(load(alloc, assemble(alloc, text)?, named)?)?;
    }
    Ok(programs)
}

// A store of maps with n spare elements.
fn store(alloc: Global, cpus: u64, spares: &[u64]) -> Result<HopStore, Fail> {
    let mut maps = Vec::new(alloc);
    for spare in spares {
        maps.push(shape(*spare))?;
    }
    Ok(HopStore::new(alloc, StoreShape::new(cpus, maps)?, 0)?)
}

// Programs, and jobs by their CPUs and the numbers of their programs.
#[derive(Clone, Copy)]
struct Given<'a> {
    programs: &'a [Program],
    list: &'a [(u8, usize)],
}

// Jobs by their CPUs and programs, of which there are n.
fn jobs(alloc: Global, list: &[(u8, usize)], programs: usize) -> Result<Vec<Job>, Fail>
    ensures programs { IfOk result (λ v. All (λ job. job.program < programs) v.items) }
    ensures inputs { IfOk result (λ v. All (λ job. IsShort job.input) v.items) }
{
    let mut jobs = Vec::new(alloc);
    'jobs: for (cpu, program) in list {
        if *program >= programs {
            return Err(Fail::new("a job of no program"));
        }
        jobs.push(Job {
            cpu: *cpu,
            program: *program,
            budget: 1_000_000,
            input: Input::nothing(alloc),
        })?;
    }
    Ok(jobs)
}

// Runs jobs, given by their CPUs and programs.
fn run<R: Threads + Wait + Sync, G: Gate + Sync>(
    rt: &R,
    alloc: Global,
    store: HopStore,
    given: Given<'_>,
    workers: usize,
    gate: &G,
) -> Result<Result<Report, Refused>, Fail> {
    let Given { programs, list } = given;
    let jobs = jobs(alloc, list, programs.len())?;
    let asked = Asked {
        programs,
        jobs: &jobs,
        workers,
        keys: false,
        gate,
    };
    Ok(run_jobs(rt, alloc, store, &asked))
}

// The report, where there is one.
fn reported(answer: Result<Report, Refused>) -> Result<Report, Fail> {
    match answer {
        Ok(report) => Ok(report),
        Err(_) => Err(Fail::new("the jobs were refused")),
    }
}

// The refusal with the store, where there is one.
fn refused(answer: Result<Report, Refused>) -> Result<(SchedError, HopStore), Fail> {
    match answer {
        Ok(_) => Err(Fail::new("the jobs weren't refused")),
        Err(Refused { error, store }) => Ok((error, store)),
    }
}

// Whether map 0 has the key 0 alone, with this number.
fn has_only(alloc: Global, closed: &Closed, number: u64) -> Result<bool, Fail> {
    let pairs = closed.dump(alloc, 0)?;
    Ok(
        pairs.len() == 1
            && pairs[0].0.as_slice() == [0; 4].as_slice()
            && pairs[0].1.as_slice() == number.to_le_bytes().as_slice(),
    )
}

#[test]
fn a_kept_address_is_of_no_use_in_a_later_run(rt: HostRuntime) -> Result<(), Fail> {
    let programs = programs(rt.alloc(), &[KEEP, USE])?;
    for workers in [1, 2, 16] {
        let store = store(rt.alloc(), 1, &[0, 0])?;
        let list = [(0, 0), (0, 1)];
        let given = Given {
            programs: &programs,
            list: &list,
        };
        let report = reported(run(&rt, rt.alloc(), store, given, workers, &NoGate)?)?;
        let ends = [Outcome::Exit(0), Outcome::Fault(Fault::BadAddress, 7)];
        assert!(rt;
            report.outcomes.as_slice() == ends.as_slice(),
            "with {workers} workers"
        );
    }
    Ok(())
}

#[test]
fn no_run_begins_on_a_worn_counter(rt: HostRuntime) -> Result<(), Fail> {
    let programs = programs(rt.alloc(), &[ADD])?;
    let shape = StoreShape::new(2, vec![in rt.alloc(); shape(1)]?)?;
    let store = HopStore::aged(rt.alloc(), shape, 0, 0, u64::MAX - 1)?;
    let list = [(0, 0), (1, 0), (0, 0)];
    let given = Given {
        programs: &programs,
        list: &list,
    };
    let report = reported(run(&rt, rt.alloc(), store, given, 2, &NoGate)?)?;
    let ends = [Outcome::Fault(Fault::Worn, 0); 3];
    assert!(rt; report.outcomes.as_slice() == ends.as_slice());
    Ok(())
}

// The second job's program isn't stepped: only the first adds.
#[test]
fn the_last_run_of_a_counter_is_made(rt: HostRuntime) -> Result<(), Fail> {
    let programs = programs(rt.alloc(), &[ADD])?;
    let shape = StoreShape::new(1, vec![in rt.alloc(); shape(1)]?)?;
    let store = HopStore::aged(rt.alloc(), shape, 0, 0, u64::MAX - 3)?;
    let list = [(0, 0), (0, 0)];
    let given = Given {
        programs: &programs,
        list: &list,
    };
    let report = reported(run(&rt, rt.alloc(), store, given, 1, &NoGate)?)?;
    let ends = [Outcome::Exit(0), Outcome::Fault(Fault::Worn, 0)];
    assert!(rt; report.outcomes.as_slice() == ends.as_slice());
    assert!(rt; has_only(rt.alloc(), &report.closed, 1_000)?);
    Ok(())
}

#[test]
fn two_cpus_add_to_one_value(rt: HostRuntime) -> Result<(), Fail> {
    let programs = programs(rt.alloc(), &[ADD])?;
    for workers in [1, 2, 16] {
        let store = store(rt.alloc(), 2, &[1])?;
        let list = [(0, 0), (1, 0)];
        let given = Given {
            programs: &programs,
            list: &list,
        };
        let report = reported(run(&rt, rt.alloc(), store, given, workers, &NoGate)?)?;
        let ends = [Outcome::Exit(0); 2];
        assert!(rt;
            report.outcomes.as_slice() == ends.as_slice(),
            "with {workers} workers"
        );
        assert!(rt;
            has_only(rt.alloc(), &report.closed, 2_000)?,
            "with {workers} workers"
        );
    }
    Ok(())
}

// How often two CPUs that wait for each other give up.
fn given_up<R: Threads + Wait + Sync>(
    rt: &R,
    alloc: Global,
    workers: usize,
    turns: u64,
) -> Result<u64, Fail> {
    let programs = programs(alloc, &[ADD])?;
    let store = store(alloc, 2, &[1])?;
    let gate = Meeting::new(turns);
    let given = Given {
        programs: &programs,
        list: &[(0, 0), (1, 0)],
    };
    let report = reported(run(rt, alloc, store, given, workers, &gate)?)?;
    if has_only(alloc, &report.closed, 2_000)? {
        Ok(gate.given_up())
    } else {
        Err(Fail::new("an addition is missing"))
    }
}

#[test]
fn two_workers_run_at_once(rt: HostRuntime) -> Result<(), Fail> {
    assert_eq!(rt; given_up(&rt, rt.alloc(), 2, 10_000_000)?, 0);
    Ok(())
}

// However long it waits: on one thread CPU 1 runs only when CPU 0 has given up.
#[test]
fn one_worker_gives_up_waiting(rt: HostRuntime) -> Result<(), Fail> {
    assert!(rt; given_up(&rt, rt.alloc(), 1, 10_000)? > 0);
    Ok(())
}

#[test]
fn a_refused_store_still_answers(rt: HostRuntime) -> Result<(), Fail> {
    let programs = programs(rt.alloc(), &[ADD])?;
    let mut store = store(rt.alloc(), 2, &[1])?;
    let refusals = [
        (0, SchedError::NoWorkers),
        (17, SchedError::TooManyWorkers),
        (2, SchedError::NoSuchCpu),
    ];
    for (workers, error) in refusals {
        let list = [(0, 0), (3, 0)];
        let given = Given {
            programs: &programs,
            list: &list,
        };
        let answer = refused(run(&rt, rt.alloc(), store, given, workers, &NoGate)?)?;
        assert!(rt; answer.0 == error, "with {workers} workers");
        store = answer.1;
    }
    let list = [(1, 0)];
    let given = Given {
        programs: &programs,
        list: &list,
    };
    let report = reported(run(&rt, rt.alloc(), store, given, 2, &NoGate)?)?;
    assert!(rt; report.outcomes.as_slice() == [Outcome::Exit(0)].as_slice());
    assert!(rt; has_only(rt.alloc(), &report.closed, 1_000)?);
    Ok(())
}
