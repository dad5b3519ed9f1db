//! Segments that split while other CPUs look keys up, replace and delete them, and while one holds a
//! value.
ghost use Rattle.std.specs.Prelude.{◌≡◌, true, false, All, IfOk, IfSome, OnOk};
ghost use Rattle.hop_map.specs.Port.{IsPortOf, runs};
ghost use Rattle.hop_tests.specs.Trial.{IsIdlePort, IsRunning};

use crate::asking::{Call, Reply, ask_port, is_fitting, is_place};
use crate::growing::growing;
use crate::listings::Back;
use crate::stores::{close, last_of, new_ports, pop_port, push_port};
use crate::threads::meet;
use bpf_shared::{MapAnswer, Shared, Size, ValuePlace};
use hop_cpu::HopCpu;
use hop_map::{Growth, HopPort};
use hop_words::{HopTable, Request};
use std::alloc::{AllocError, Global};
use std::sync::Wait;
use std::sync::atomic::{AtomicU64, Ordering};
use std::test::Fail;
use std::thread;
use std::thread::Threads;

// How many keys there are before the first split, all in one segment. Of three that follow each other
// the first is looked up, the second deleted, the third replaced.
const KEYS: u32 = 1_500;

// Splits each segment of the first map, level by level, until it has all of its greatest depth.
fn split_all<R: Wait>(rt: &R, table: &HopTable, port: HopPort) -> Back
    requires idle { IsIdlePort table.now port }
    ensures fits { IsPortOf table.now result.port }
{
    let mut port = port;
    let Some(_map) = port.shape(table, 0) else {
        return Back { port, wrong: 1 };
    };
    let mut wrong = 0u32;
    'levels: for level in 0..10u32 {
        'segments: for segment in 0..1u32 << level {
            if port.split(rt, table, 0, segment) != Growth::Grown {
                wrong = wrong.wrapping_add(1);
            }
        }
    }
    Back { port, wrong }
}

// The call of this number that a CPU makes: CPU 0 looks up, CPU 1 deletes, CPU 2 replaces.
fn call_of(cpu: u8, number: u32) -> Call {
    let key = number.wrapping_mul(3);
    match cpu {
        0 => Call::Find { key },
        1 => Call::Delete {
            key: key.wrapping_add(1),
        },
        _ => Call::Update {
            key: key.wrapping_add(2),
            value: 1,
            flags: 2,
        },
    }
}

// Whether this is an answer to the call of a CPU. While another CPU's run goes on, elements may be
// lacking.
fn is_answer(cpu: u8, reply: Reply) -> bool {
    match (cpu, reply) {
        (0, Reply::Value(Some(0))) => true,
        (1 | 2, Reply::Answer(MapAnswer::Done)) => true,
        (2, Reply::Answer(MapAnswer::NoMemory)) => true,
        _ => false,
    }
}

// Makes a CPU's calls, one for each third key, in a run.
fn call_each<R: Wait>(rt: &R, table: &HopTable, port: HopPort) -> Back
    requires idle { IsIdlePort table.now port }
    ensures fits { IsPortOf table.now result.port }
    ensures idle { result.wrong ≡ 0 → runs result.port ≡ false }
{
    let cpu = port.cpu();
    let mut port = port;
    if port.begin(table).is_err() {
        return Back { port, wrong: 1 };
    }
    'calls: for number in 0..KEYS / 3 {
        let (after, reply) = ask_port(rt, table, port, call_of(cpu, number));
        port = after;
        let Some(reply) = reply else {
            return Back { port, wrong: 1 };
        };
        if !is_answer(cpu, reply) {
            return Back { port, wrong: 1 };
        }
    }
    port.end(table);
    Back { port, wrong: 0 }
}

// Makes them again and again until the splits are done; deletions once.
fn call_on<R: Wait>(rt: &R, table: &HopTable, port: HopPort, done: &AtomicU64) -> Back
    requires idle { IsIdlePort table.now port }
    ensures fits { IsPortOf table.now result.port }
{
    let cpu = port.cpu();
    let mut port = port;
    'rounds: for _ in 0..100_000u32 {
        let back = call_each(rt, table, port);
        if back.wrong > 0 || cpu == 1 || done.load(Ordering::SeqCst) > 0 {
            return back;
        }
        port = back.port;
    }
    Back { port, wrong: 1 }
}

// CPU 3 splits all segments while the three others call, and they begin together.
fn split_beside_calls<R: Threads + Wait + Sync>(
    rt: &R,
    table: &HopTable,
    ports: Vec<HopPort>,
) -> Result<Vec<Back>, AllocError>
    requires idle { All (IsIdlePort table.now) ports.items }
    ensures fits { IfOk result (λ v. All (λ b. IsPortOf table.now b.port) v.items) }
{
    let arrived = AtomicU64::new(0);
    let done = AtomicU64::new(0);
    let threads = ports.len() as u64;
    let each = |port: HopPort| -> Back
        requires { IsIdlePort table.now port }
        ensures { IsPortOf table.entry.now result.port }
    {
        meet(&arrived, threads);
        if port.cpu() == 3 {
            let back = split_all(rt, table, port);
            done.fetch_add(1, Ordering::SeqCst);
            back
        } else {
            call_on(rt, table, port, &done)
        }
    };
    thread::map_vec(rt, ports, &each)
}

// Puts values of zeros under n keys, by the last port, and splits nothing.
fn put_unsplit<R: Wait>(
    rt: &R,
    table: &HopTable,
    ports: &mut Vec<HopPort>,
    keys: u32,
) -> Result<(), Fail>
    requires idle { All (IsIdlePort table.now) ports.old.items }
    ensures idle { OnOk result (All (IsIdlePort table.now) ports.new.items) }
{
    let Some(mut port) = pop_port(table, ports) else {
        return Err(Fail::new("no port"));
    };
    let Some(shape) = port.shape(table, 0) else {
        return Err(Fail::new("no map"));
    };
    if shape.key != 4 || shape.value != 8 {
        return Err(Fail::new("a map of other sizes"));
    }
    port.begin(table)?;
    'keys: for key in 0..keys {
        let request = Request {
            key: &key.to_le_bytes(),
            value: &[0; 8],
            flags: 1,
        };
        if port.update(rt, table, 0, &request) != MapAnswer::Done {
            return Err(Fail::new("no place for a key"));
        }
    }
    port.end(table);
    push_port(table, ports, port)?;
    Ok(())
}

// The ports go back.
fn ports_of(alloc: Global, table: &HopTable, backs: Vec<Back>) -> Result<(Vec<HopPort>, u32), Fail>
    requires fit { All (λ b. IsPortOf table.now b.port) backs.items }
    ensures fit { IfOk result (λ r. All (IsPortOf table.now) r.0.items) }
{
    let _table = table;
    let mut ports = Vec::new(alloc);
    let mut all_wrong = 0u32;
    'backs: for back in backs {
        let Back { port, wrong } = back;
        ports.push(port)?;
        all_wrong = all_wrong.wrapping_add(wrong);
    }
    Ok((ports, all_wrong))
}

// Whether each third key has its first value, and each but one has another, and no other is there.
fn are_left(pairs: &[(Vec<u8>, Vec<u8>)]) -> bool {
    for number in 0..KEYS / 3 {
        let key = number.wrapping_mul(3);
        let looked_up = last_of(pairs, key) == Some(0);
        let deleted = last_of(pairs, key.wrapping_add(1)).is_none();
        let replaced = last_of(pairs, key.wrapping_add(2)) == Some(1);
        if !looked_up || !deleted || !replaced {
            return false;
        }
    }
    pairs.len() == (KEYS / 3 * 2) as usize
}

#[test]
fn a_map_grows_to_1024_segments_beside_calls(rt: HostRuntime) -> Result<(), Fail> {
    let alloc = rt.alloc();
    let (table, mut ports) = new_ports(alloc, 4, growing(65_536, 65_536, 0xffff_ffff))?;
    put_unsplit(&rt, &table, &mut ports, KEYS)?;
    let backs = split_beside_calls(&rt, &table, ports)?;
    let (ports, wrong) = ports_of(alloc, &table, backs)?;
    assert_eq!(rt; wrong, 0);
    let closed = close(table, ports)?;
    assert_eq!(rt; closed.segments(0), 1_024);
    assert!(rt; are_left(&closed.dump(alloc, 0)?));
    Ok(())
}

// How often the first of two CPUs reads 7 at the address of a value that it holds, between ten splits
// of the key's segment which the second makes when it has put 8 under the key.
fn read_through_splits<R: Wait, S: Shared>(
    rt: &R,
    table: &HopTable,
    zero: &mut S,
    second: HopPort,
) -> Option<u32>
    requires serves { S.serves zero.old 0 ≡ true }
    requires idle { S.running zero.old 0 ≡ false }
    requires second { IsIdlePort table.now second }
{
    if !is_fitting(zero) {
        return None;
    }
    let Some(_map) = second.shape(table, 0) else {
        return None;
    };
    let key = 0u32.to_le_bytes();
    zero.begin(0).ok()?;
    let _put = zero.update(0, 0, &key, &7u64.to_le_bytes(), 1);
    let held = zero.lookup(0, 0, &key)?;
    if !is_place(held, 0, 8) {
        return None;
    }
    let held = ValuePlace { at: held.at };
    let mut second = put_8(rt, table, second)?;
    let mut right = 0u32;
    'splits: for _ in 0..10u32 {
        if second.split(rt, table, 0, 0) != Growth::Grown {
            return None;
        }
        if zero.value_load(0, held, Size::Double) == 7 {
            right = right.wrapping_add(1);
        }
    }
    Some(right)
}

// Puts 8 under the key 0, which is there, in a run of its own.
fn put_8<R: Wait>(rt: &R, table: &HopTable, port: HopPort) -> Option<HopPort>
    requires idle { IsIdlePort table.now port }
    ensures fits { IfSome result (IsPortOf table.now) }
{
    let mut port = port;
    port.begin(table).ok()?;
    let call = Call::Update {
        key: 0,
        value: 8,
        flags: 2,
    };
    let (after, reply) = ask_port(rt, table, port, call);
    let mut port = after;
    if reply? != Reply::Answer(MapAnswer::Done) {
        return None;
    }
    port.end(table);
    Some(port)
}

#[test]
fn a_held_value_stays_through_ten_splits(rt: HostRuntime) -> Result<(), Fail> {
    let (table, mut ports) = new_ports(rt.alloc(), 2, growing(65_536, 1, 0xffff_ffff))?;
    let Some(second) = pop_port(&table, &mut ports) else {
        return Err(Fail::new("no port"));
    };
    let Some(first) = pop_port(&table, &mut ports) else {
        return Err(Fail::new("no port"));
    };
    if first.cpu() != 0 {
        return Err(Fail::new("the ports are others"));
    }
    let mut zero = HopCpu::new(&rt, &table, first);
    assert!(rt; read_through_splits(&rt, &table, &mut zero, second) == Some(10));
    Ok(())
}
