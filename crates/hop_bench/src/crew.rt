//! A store, and a thread for each of its CPUs.
ghost use Rattle.std.specs.Prelude.{All, IfOk};
ghost use Rattle.hop_bench.specs.Trial.{IsNewPort};

use crate::growing::{fill_timed, grow_or_look};
use crate::plan::{Mix, Plan};
use crate::working::{Timing, fill, work};
use anyhow::Result;
use bpf_shared::{MapShape, StoreShape};
use hop_map::{HopPort, HopStore};
use hop_words::HopTable;
use std::alloc::Global;
use std::sync::Wait;
use std::thread::Threads;
use std::time::Clock;
use std::{io, thread};

// A new store with one map, and a CPU for each thread.
fn new_ports(alloc: Global, plan: Plan) -> Result<(HopTable, Vec<HopPort>)>
    ensures { IfOk result (λ r. All (IsNewPort r.0) r.1.items) }
{
    let map = MapShape {
        key: 8,
        value: 8,
        max: plan.max,
        spare: plan.spare,
        mask: 0xffff_ffff,
        grow: plan.grows(),
    };
    let shape = StoreShape::new(plan.threads, vec![in alloc; map]?)?;
    Ok(HopStore::new(alloc, shape, 0)?.ports())
}

// All threads fill the map with what is to be there at first.
fn filled<R: Threads + Wait + Sync>(
    rt: &R,
    table: &HopTable,
    ports: Vec<HopPort>,
    plan: Plan,
) -> Result<Vec<HopPort>>
    requires { All (IsNewPort table.now) ports.items }
    ensures { IfOk result (λ ps. All (IsNewPort table.entry.now) ps.items) }
{
    let fill_part = |port: HopPort| -> HopPort
        requires { IsNewPort table.now port }
        ensures { IsNewPort table.entry.now result }
    { fill(rt, table, port, plan) };
    let ports = thread::map_vec(rt, ports, &fill_part)?;
    Ok(ports)
}

// What each thread's calls took.
fn timed<R: Threads + Wait + Clock + Sync>(
    rt: &R,
    alloc: Global,
    table: &HopTable,
    ports: Vec<HopPort>,
    plan: Plan,
) -> Result<Vec<Timing>>
    requires { All (IsNewPort table.now) ports.items }
{
    let each = |port: HopPort| -> io::Result<Timing>
        requires { IsNewPort table.now port }
    {
        match plan.mix {
            Mix::Fill | Mix::Grow => fill_timed(rt, table, port, plan),
            _ => work(rt, table, port, plan),
        }
    };
    let mut timings = Vec::new(alloc);
    for timing in thread::map_vec(rt, ports, &each)? {
        timings.push(timing?)?;
    }
    Ok(timings)
}

// What the filling took, and what each other thread's lookups took before it and meanwhile.
fn timed_twice<R: Threads + Wait + Clock + Sync>(
    rt: &R,
    alloc: Global,
    table: &HopTable,
    ports: Vec<HopPort>,
    plan: Plan,
) -> Result<Vec<Timing>>
    requires { All (IsNewPort table.now) ports.items }
{
    let each = |port: HopPort| -> io::Result<[Timing; 2]>
        requires { IsNewPort table.now port }
    { grow_or_look(rt, table, port, plan) };
    let mut timings = Vec::new(alloc);
    for both in thread::map_vec(rt, ports, &each)? {
        let [before, during] = both?;
        timings.push(before)?;
        timings.push(during)?;
    }
    Ok(timings)
}

/// What each thread's calls took, on a store of its own, after all have filled the map.
pub fn timings<R: Threads + Wait + Clock + Sync>(
    rt: &R,
    alloc: Global,
    plan: Plan,
) -> Result<Vec<Timing>> {
    let (table, ports) = new_ports(alloc, plan)?;
    let ports = filled(rt, &table, ports, plan)?;
    match plan.mix {
        Mix::Growth => timed_twice(rt, alloc, &table, ports, plan),
        _ => timed(rt, alloc, &table, ports, plan),
    }
}
