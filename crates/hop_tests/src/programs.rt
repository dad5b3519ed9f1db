//! Programs on CPUs of the concurrent store, and of the plain one.
ghost use Rattle.std.specs.Prelude.{◌≡◌, ◌%◌, ◌≤◌, true, false, All, IfOk, vec_len};
ghost use Rattle.bpf_mem.specs.Limits.{max_context};
ghost use Rattle.hop_map.specs.Port.{IsPortOf};
ghost use Rattle.hop_tests.specs.Trial.{IsIdlePort};

use crate::stores::{a_map, a_shape, aged_ports, close, last_of, new_ports, pop_port};
use crate::texts::{ADD, CALLS, LOOK_UP};
use bpf_cpu::{Cpu, Fault, Input, Outcome};
use bpf_loader::{Named, Program, load};
use bpf_plain::PlainStore;
use bpf_shared::{MapShape, Shared};
use bpf_text::assemble;
use hop_cpu::HopCpu;
use hop_map::HopPort;
use hop_words::HopTable;
use std::alloc::{AllocError, Global};
use std::sync::Wait;
use std::sync::atomic::{AtomicU64, Ordering};
use std::test::Fail;
use std::thread;
use std::thread::Threads;

const MAP: MapShape = MapShape {
    key: 4,
    value: 8,
    max: 1,
    spare: 1,
    mask: 0xffff_ffff,
    grow: false,
};

fn program(alloc: Global, text: &str) -> Result<Program, Fail> {
    let named = Named { maps: 1, arrays: 0 };
    Ok(load(alloc, assemble(alloc, text)?, named)?)
}

// Runs a program as a job of CPU 0 with this number as its context.
fn run_over<S: Shared>(
    alloc: Global,
    shared: &mut S,
    program: &Program,
    context: Vec<u8>,
) -> Outcome
    requires serves { S.serves shared.old 0 ≡ true }
    requires idle { S.running shared.old 0 ≡ false }
    requires context { vec_len context ≤ max_context }
    ensures serves { S.serves shared.new 0 ≡ true }
    ensures idle { S.running shared.new 0 ≡ false }
{
    Cpu::new(0, Input::of_bytes(alloc, context)).run(program, shared, 1_000_000)
}

// How many of the programs, one after the other, end with their number, up to the first that
// doesn't.
fn follow<S: Shared>(alloc: Global, shared: &mut S, rows: &[(Program, u64)]) -> usize
    requires serves { S.serves shared.old 0 ≡ true }
    requires idle { S.running shared.old 0 ≡ false }
{
    'rows: for (number, row) in rows.iter().enumerate() {
        if run_over(alloc, shared, &row.0, Vec::new(alloc)) != Outcome::Exit(row.1) {
            return number;
        }
    }
    rows.len()
}

// The port of CPU 0 of a store with this map.
fn first_port(alloc: Global, map: MapShape, count: u64) -> Result<(HopTable, HopPort), Fail>
    requires even { count % 2 ≡ 0 }
    ensures idle { IfOk result (λ r. IsIdlePort r.0 r.1) }
    ensures first { IfOk result (λ r. r.1.known.cpu ≡ 0) }
{
    let (table, mut ports) = aged_ports(alloc, 1, map, 0, count)?;
    match pop_port(&table, &mut ports) {
        Some(port) if port.cpu() == 0 => Ok((table, port)),
        _ => Err(Fail::new("no port of CPU 0")),
    }
}

#[test]
fn a_port_answers_as_the_plain_store(rt: HostRuntime) -> Result<(), Fail> {
    let mut rows = Vec::new(rt.alloc());
    for (text, number) in CALLS {
        rows.push((program(rt.alloc(), text)?, number))?;
    }
    let mut plain = PlainStore::new(rt.alloc(), a_shape(rt.alloc(), 1, MAP)?)?;
    assert_eq!(rt; follow(rt.alloc(), &mut plain, &rows), 15);
    let (table, port) = first_port(rt.alloc(), MAP, 0)?;
    let mut shared = HopCpu::new(&rt, &table, port);
    assert_eq!(rt; follow(rt.alloc(), &mut shared, &rows), 15);
    Ok(())
}

// What comes of looking n keys up in a run, over a port and over the plain store.
fn look_many_up<R: Wait>(rt: &R, alloc: Global, keys: u16) -> Result<(Outcome, Outcome), Fail> {
    let map = a_map(300, 0, 0xffff_ffff);
    let program = program(alloc, LOOK_UP)?;
    let mut plain = PlainStore::new(alloc, a_shape(alloc, 1, map)?)?;
    let count = Vec::from_slice(alloc, &keys.to_le_bytes())?;
    let of_plain = run_over(alloc, &mut plain, &program, count);
    let (table, port) = first_port(alloc, map, 0)?;
    let mut shared = HopCpu::new(rt, &table, port);
    let count = Vec::from_slice(alloc, &keys.to_le_bytes())?;
    Ok((run_over(alloc, &mut shared, &program, count), of_plain))
}

#[test]
fn a_run_holds_256_values(rt: HostRuntime) -> Result<(), Fail> {
    let held = Outcome::Exit(256);
    assert_eq!(rt; look_many_up(&rt, rt.alloc(), 256)?, (held, held));
    let fault = Outcome::Fault(Fault::TooManyHeld, 16);
    assert_eq!(rt; look_many_up(&rt, rt.alloc(), 257)?, (fault, fault));
    Ok(())
}

#[test]
fn no_job_runs_on_a_worn_counter(rt: HostRuntime) -> Result<(), Fail> {
    let rows = vec![in rt.alloc(); (program(rt.alloc(), ADD)?, 0)]?;
    let (table, port) = first_port(rt.alloc(), MAP, u64::MAX - 1)?;
    let mut shared = HopCpu::new(&rt, &table, port);
    let outcome = run_over(rt.alloc(), &mut shared, &rows[0].0, Vec::new(rt.alloc()));
    assert_eq!(rt; outcome, Outcome::Fault(Fault::Worn, 0));
    Ok(())
}

/// Runs a program as a job of each port's CPU, each by a thread of its own. Answers how many ended
/// with this number, and the ports.
pub(crate) fn run_by_threads<R: Threads + Wait + Sync>(
    rt: &R,
    alloc: Global,
    table: &HopTable,
    ports: Vec<HopPort>,
    program: &Program,
    wanted: u64,
) -> Result<(u64, Vec<HopPort>), AllocError>
    requires idle { All (IsIdlePort table.now) ports.items }
    ensures fits { IfOk result (λ r. All (IsPortOf table.now) r.1.items) }
{
    let count = AtomicU64::new(0);
    let each = |port: HopPort| -> HopPort
        requires { IsIdlePort table.now port }
        ensures { IsPortOf table.entry.now result }
    {
        let mut cpu = Cpu::new(port.cpu(), Input::nothing(alloc));
        let mut shared = HopCpu::new(rt, table, port);
        if shared.run(&mut cpu, program, 1_000_000) == Outcome::Exit(wanted) {
            count.fetch_add(1, Ordering::SeqCst);
        }
        shared.into_port()
    };
    let ports = thread::map_vec(rt, ports, &each)?;
    Ok((count.load(Ordering::SeqCst), ports))
}

// How many of two CPUs' jobs of a program ended with 0, and the value of the key 0 then.
fn two_jobs<R: Threads + Wait + Sync>(
    rt: &R,
    alloc: Global,
    text: &str,
) -> Result<(u64, Option<u64>), Fail> {
    let (table, ports) = new_ports(alloc, 2, MAP)?;
    let program = program(alloc, text)?;
    let (count, ports) = run_by_threads(rt, alloc, &table, ports, &program, 0)?;
    let closed = close(table, ports)?;
    Ok((count, last_of(&closed.dump(alloc, 0)?, 0)))
}

#[test]
fn each_of_two_cpus_adds_1_000_to_one_value(rt: HostRuntime) -> Result<(), Fail> {
    for _ in 0..20u32 {
        assert_eq!(rt; two_jobs(&rt, rt.alloc(), ADD)?, (2, Some(2_000)));
    }
    Ok(())
}
