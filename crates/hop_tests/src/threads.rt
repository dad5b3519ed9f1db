//! Calls of ports by threads.
ghost use Rattle.std.specs.Prelude.{◌<◌, All, IfOk, OnOk};
ghost use Rattle.hop_map.specs.Port.{IsPortOf};
ghost use Rattle.hop_tests.specs.Trial.{IsIdlePort};

use crate::asking::{Call, Reply, ask_port};
use crate::stores::{a_map, close, new_ports, pop_port, push_port};
use bpf_shared::{MapAnswer, MapShape};
use hop_map::{Closed, HopPort};
use hop_words::HopTable;
use std::alloc::{AllocError, Global};
use std::sync::Wait;
use std::sync::atomic::{AtomicU64, Ordering};
use std::test::Fail;
use std::thread;
use std::thread::Threads;

/// A call with its reply.
#[derive(Clone, Copy)]
pub(crate) struct Noted {
    pub(crate) call: Call,
    pub(crate) reply: Reply,
}

/// What a thread hands back: its port, and its calls in their order. Fewer calls than asked for
/// where a run counter was worn or memory short.
#[derive(Drop)]
pub(crate) struct Back {
    pub(crate) port: HopPort,
    pub(crate) noted: Vec<Noted>,
}

/// What calls are made by the threads.
#[derive(Clone, Copy)]
pub(crate) enum Work {
    /// Additions of keys that lie as many apart as there are CPUs.
    OwnKeys { cpus: u32 },
    /// One key each: the CPU's number.
    OwnKey,
    /// Additions and deletions of the key 0.
    OneKey,
    /// Stores of a byte of the key 0's value: 17 at place 0 by CPU 0, 34 at place 1 by CPU 1.
    Bytes,
    /// Additions of 1 to a half of the key 0's value, each CPU to its own.
    Halves,
    /// Lookups of the key 0, which CPU 0 adds and deletes in turn. A run has n calls.
    Storm { run: u32 },
    /// All kinds of calls of n keys, drawn from a sequence that this number begins.
    All { keys: u64, from: u64 },
}

// One of all kinds of calls. Its value is its own.
fn drawn(key: u32, own: u64, draw: u64) -> Call {
    match draw % 8 {
        0 => Call::Update {
            key,
            value: own,
            flags: 0,
        },
        1 | 2 => Call::Update {
            key,
            value: own,
            flags: 1,
        },
        3 => Call::Update {
            key,
            value: own,
            flags: 2,
        },
        4 | 5 => Call::Delete { key },
        _ => Call::Find { key },
    }
}

// The number that follows in a sequence of drawn ones.
fn next_draw(draw: u64) -> u64 {
    draw.wrapping_mul(6_364_136_223_846_793_005)
        .wrapping_add(1_442_695_040_888_963_407)
}

// The CPU's call of this number.
fn call_of(work: Work, cpu: u8, number: u32, draw: u64) -> Call {
    let own = u64::from(cpu);
    match work {
        Work::OwnKeys { cpus } => {
            let key = number.wrapping_mul(cpus).wrapping_add(u32::from(cpu));
            Call::Update {
                key,
                value: u64::from(key),
                flags: 1,
            }
        }
        Work::OwnKey => Call::Update {
            key: u32::from(cpu),
            value: own,
            flags: 1,
        },
        Work::OneKey if draw >> 33 & 1 == 0 => Call::Update {
            key: 0,
            value: own,
            flags: 1,
        },
        Work::OneKey => Call::Delete { key: 0 },
        Work::Bytes => Call::StoreByte {
            key: 0,
            place: own,
            byte: 17u64.wrapping_mul(own.wrapping_add(1)),
        },
        Work::Halves => Call::AddOne {
            key: 0,
            place: own.wrapping_mul(4),
        },
        Work::Storm { run: _ } if cpu != 0 => Call::Find { key: 0 },
        Work::Storm { run: _ } if number % 2 == 0 => Call::Update {
            key: 0,
            value: u64::from(number),
            flags: 1,
        },
        Work::Storm { run: _ } => Call::Delete { key: 0 },
        Work::All { keys, from: _ } => {
            let key = (draw >> 40) % keys.max(1);
            let value = u64::from(number).wrapping_mul(16).wrapping_add(own);
            drawn(key as u32, value, draw >> 33)
        }
    }
}

// How many calls are made in a run.
fn calls_in_a_run(work: Work) -> u32
    ensures { 0 < result }
{
    match work {
        Work::Storm { run } => run.max(1),
        _ => 8,
    }
}

// Makes n calls, some in each run, and notes them.
fn call_often<R: Wait>(
    rt: &R,
    table: &HopTable,
    port: HopPort,
    noted: &mut Vec<Noted>,
    work: Work,
    calls: u32,
) -> HopPort
    requires idle { IsIdlePort table.now port }
    ensures fits { IsPortOf table.now result }
{
    let cpu = port.cpu();
    let run = calls_in_a_run(work);
    let mut port = port;
    if port.begin(table).is_err() {
        return port;
    }
    let mut draw = match work {
        Work::All { keys: _, from } => from,
        _ => 0
    };
    draw = next_draw(draw ^ u64::from(cpu));
    'calls: for number in 0..calls {
        draw = next_draw(draw);
        let call = call_of(work, cpu, number, draw);
        let (after, reply) = ask_port(rt, table, port, call);
        port = after;
        let Some(reply) = reply else { return port };
        if noted.push(Noted { call, reply }).is_err() {
            return port;
        }
        if number % run == run - 1 {
            let (after, reply) = ask_port(rt, table, port, Call::NextRun);
            port = after;
            if reply.is_none() {
                return port;
            }
        }
    }
    port.end(table);
    port
}

/// Waits for the other threads, for at most n turns.
pub(crate) fn meet(arrived: &AtomicU64, threads: u64) {
    arrived.fetch_add(1, Ordering::SeqCst);
    for _ in 0..100_000u32 {
        if arrived.load(Ordering::SeqCst) >= threads {
            return;
        }
        thread::yield_now();
    }
}

/// As many threads as ports make n calls each, and begin together.
pub(crate) fn work_by_threads<R: Threads + Wait + Sync>(
    rt: &R,
    alloc: Global,
    table: &HopTable,
    ports: Vec<HopPort>,
    work: Work,
    calls: u32,
) -> Result<Vec<Back>, AllocError>
    requires idle { All (IsIdlePort table.now) ports.items }
    ensures fits { IfOk result (λ v. All (λ b. IsPortOf table.now b.port) v.items) }
{
    let arrived = AtomicU64::new(0);
    let threads = ports.len() as u64;
    let each = |port: HopPort| -> Back
        requires { IsIdlePort table.now port }
        ensures { IsPortOf table.entry.now result.port }
    {
        meet(&arrived, threads);
        let mut noted = Vec::new(alloc);
        let port = call_often(rt, table, port, &mut noted, work, calls);
        Back { port, noted }
    };
    thread::map_vec(rt, ports, &each)
}

/// A port that noted nothing goes after the others.
pub(crate) fn push_back(
    alloc: Global,
    table: &HopTable,
    backs: &mut Vec<Back>,
    port: HopPort,
) -> Result<(), AllocError>
    requires fit { All (λ b. IsPortOf table.now b.port) backs.old.items }
    requires port { IsPortOf table.now port }
    ensures fit { OnOk result (All (λ b. IsPortOf table.now b.port) backs.new.items) }
{
    let _table = table;
    let noted = Vec::new(alloc);
    backs.push(Back { port, noted })?;
    Ok(())
}

/// The ports go back, and the notes stay.
pub(crate) fn close_all(
    alloc: Global,
    table: HopTable,
    backs: Vec<Back>,
) -> Result<(Closed, Vec<Vec<Noted>>), Fail>
    requires fit { All (λ b. IsPortOf table b.port) backs.items }
{
    let mut ports = Vec::new(alloc);
    let mut notes = Vec::new(alloc);
    'backs: for back in backs {
        let Back { port, noted } = back;
        ports.push(port)?;
        notes.push(noted)?;
    }
    Ok((close(table, ports)?, notes))
}

/// Puts values of zeros under n keys, by the last port in a run of its own.
pub(crate) fn put_zeros<R: Wait>(
    rt: &R,
    table: &HopTable,
    ports: &mut Vec<HopPort>,
    keys: u32,
) -> Result<(), Fail>
    requires idle { All (IsIdlePort table.now) ports.old.items }
    ensures idle { OnOk result (All (IsIdlePort table.now) ports.new.items) }
{
    let Some(mut port) = pop_port(table, ports) else {
        return Err(Fail::new("no port"));
    };
    port.begin(table)?;
    'keys: for key in 0..keys {
        let call = Call::Update {
            key,
            value: 0,
            flags: 1,
        };
        let (after, reply) = ask_port(rt, table, port, call);
        port = after;
        if reply != Some(Reply::Answer(MapAnswer::Done)) {
            return Err(Fail::new("no value of zeros"));
        }
    }
    port.end(table);
    push_port(table, ports, port)?;
    Ok(())
}

// The replies to n calls of two threads each, and the pairs of the map when both have ended.
fn two_threads<R: Threads + Wait + Sync>(
    rt: &R,
    alloc: Global,
    map: MapShape,
    zeros: bool,
    work: Work,
    calls: u32,
) -> Result<(Vec<Vec<Noted>>, Vec<(Vec<u8>, Vec<u8>)>), Fail> {
    let (table, mut ports) = new_ports(alloc, 2, map)?;
    if zeros {
        put_zeros(rt, &table, &mut ports, 1)?;
    }
    let backs = work_by_threads(rt, alloc, &table, ports, work, calls)?;
    let (closed, notes) = close_all(alloc, table, backs)?;
    for noted in &notes {
        if noted.len() != calls as usize {
            return Err(Fail::new("a thread gave up"));
        }
    }
    Ok((notes, closed.dump(alloc, 0)?))
}

// How many calls were answered as this.
fn count(notes: &[Vec<Noted>], updates: bool, answer: MapAnswer) -> usize {
    let mut count = 0usize;
    for noted in notes {
        for one in noted {
            let is_update = matches!(one.call, Call::Update { .. });
            if is_update == updates && one.reply == Reply::Answer(answer) {
                count = count.wrapping_add(1);
            }
        }
    }
    count
}

#[test]
fn two_threads_insert_500_keys_each(rt: HostRuntime) -> Result<(), Fail> {
    let map = a_map(1_000, 0, 0xffff_ffff);
    let (notes, pairs) = two_threads(&rt, rt.alloc(), map, false, Work::OwnKeys { cpus: 2 }, 500)?;
    assert_eq!(rt; count(&notes, true, MapAnswer::Done), 1_000);
    assert_eq!(rt; pairs.len(), 1_000);
    for (key, value) in &pairs {
        assert!(rt; value.starts_with(key));
    }
    Ok(())
}

// The reply to the first call of CPU 0.
fn first_reply(notes: &[Vec<Noted>]) -> Option<Reply> {
    Some(notes.first()?.first()?.reply)
}

// Whether this is the only pair.
fn is_only(pairs: &[(Vec<u8>, Vec<u8>)], key: u32, value: u64) -> bool {
    match pairs.first() {
        Some(pair) => {
            pairs.len() == 1
                && pair.0.as_slice() == key.to_le_bytes().as_slice()
                && pair.1.as_slice() == value.to_le_bytes().as_slice()
        }
        None => false,
    }
}

#[test]
fn one_of_two_threads_gets_the_only_place(rt: HostRuntime) -> Result<(), Fail> {
    for _ in 0..100u32 {
        let map = a_map(1, 1, 0xffff_ffff);
        let (notes, pairs) = two_threads(&rt, rt.alloc(), map, false, Work::OwnKey, 1)?;
        assert_eq!(rt; count(&notes, true, MapAnswer::Done), 1);
        assert_eq!(rt; count(&notes, true, MapAnswer::Full), 1);
        let first_won = first_reply(&notes) == Some(Reply::Answer(MapAnswer::Done));
        let winner = if first_won { 0 } else { 1 };
        assert!(rt; is_only(&pairs, winner, u64::from(winner)));
    }
    Ok(())
}

#[test]
fn two_threads_add_and_delete_the_only_key(rt: HostRuntime) -> Result<(), Fail> {
    let map = a_map(1, 1, 0xffff_ffff);
    let (notes, pairs) = two_threads(&rt, rt.alloc(), map, false, Work::OneKey, 20_000)?;
    let added = count(&notes, true, MapAnswer::Done);
    let deleted = count(&notes, false, MapAnswer::Done);
    assert_eq!(rt; pairs.len(), added.wrapping_sub(deleted));
    Ok(())
}

#[test]
fn two_threads_store_a_byte_each(rt: HostRuntime) -> Result<(), Fail> {
    for _ in 0..100u32 {
        let map = a_map(1, 0, 0xffff_ffff);
        let (_notes, pairs) = two_threads(&rt, rt.alloc(), map, true, Work::Bytes, 1)?;
        let bytes = [0x11, 0x22, 0, 0, 0, 0, 0, 0];
        assert!(rt; is_only(&pairs, 0, u64::from_le_bytes(bytes)));
    }
    Ok(())
}

#[test]
fn two_threads_add_to_a_half_each(rt: HostRuntime) -> Result<(), Fail> {
    let map = a_map(1, 0, 0xffff_ffff);
    let (_notes, pairs) = two_threads(&rt, rt.alloc(), map, true, Work::Halves, 1_000)?;
    let halves = [0xe8, 3, 0, 0, 0xe8, 3, 0, 0];
    assert!(rt; is_only(&pairs, 0, u64::from_le_bytes(halves)));
    Ok(())
}
