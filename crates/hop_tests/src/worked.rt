//! Calls on one thread with answers worked out by hand, over a port and over the plain store.
ghost use Rattle.std.specs.Prelude.{◌≡◌, ◌<◌, ◌%◌, ◌^◌, true, false};
ghost use Rattle.hop_tests.specs.Trial.{IsIdlePort};

use crate::asking::{Call, Reply, ask, ask_port, lookups_agree};
use crate::stores::{a_map, a_shape, aged_ports, new_ports, pop_port};
use bpf_plain::PlainStore;
use bpf_shared::{MapAnswer, MapShape, Shared};
use hop_layout::home;
use hop_map::HopPort;
use hop_words::HopTable;
use std::alloc::Global;
use std::sync::Wait;
use std::test::Fail;

/// A call with the reply that is wanted.
#[derive(Clone, Copy)]
pub(crate) struct Row {
    pub(crate) call: Call,
    pub(crate) reply: Reply,
}

pub(crate) fn put(key: u32, value: u64, flags: u64, answer: MapAnswer) -> Row {
    Row {
        call: Call::Update { key, value, flags },
        reply: Reply::Answer(answer),
    }
}

pub(crate) fn take(key: u32, answer: MapAnswer) -> Row {
    Row {
        call: Call::Delete { key },
        reply: Reply::Answer(answer),
    }
}

fn find(key: u32, value: Option<u64>) -> Row {
    Row {
        call: Call::Find { key },
        reply: Reply::Value(value),
    }
}

fn next_run() -> Row {
    Row {
        call: Call::NextRun,
        reply: Reply::Begun,
    }
}

// How many of the rows a port answers as wanted, up to the first that it doesn't. Each lookup is
// made by the port's other calls too.
fn follow_port<R: Wait>(rt: &R, table: &HopTable, port: HopPort, rows: &[Row]) -> usize
    requires idle { IsIdlePort table.now port }
{
    let mut port = port;
    if port.begin(table).is_err() {
        return 0;
    }
    'rows: for (number, row) in rows.iter().enumerate() {
        let (after, reply) = ask_port(rt, table, port, row.call);
        port = after;
        let Some(reply) = reply else { return number };
        if reply != row.reply {
            return number;
        }
        if let Call::Find { key } = row.call
            && !lookups_agree(rt, table, &mut port, key)
        {
            return number;
        }
    }
    rows.len()
}

// How many of the rows any store answers as wanted.
fn follow<S: Shared>(shared: &mut S, rows: &[Row]) -> usize
    requires serves { S.serves shared.old 0 ≡ true }
    requires idle { S.running shared.old 0 ≡ false }
{
    if shared.begin(0).is_err() {
        return 0;
    }
    'rows: for (number, row) in rows.iter().enumerate() {
        if ask(shared, 0, row.call) != Some(row.reply) {
            return number;
        }
    }
    rows.len()
}

// How many of the rows the port of a new store answers as wanted, and how many the plain store.
fn follow_both<R: Wait>(
    rt: &R,
    alloc: Global,
    map: MapShape,
    rows: &[Row],
) -> Result<(usize, usize), Fail> {
    let mut plain = PlainStore::new(alloc, a_shape(alloc, 1, map)?)?;
    let of_plain = follow(&mut plain, rows);
    let (table, mut ports) = new_ports(alloc, 1, map)?;
    match pop_port(&table, &mut ports) {
        Some(port) => Ok((follow_port(rt, &table, port, rows), of_plain)),
        None => Err(Fail::new("no port")),
    }
}

// An answer that the flags or the key decide comes before the want of room or of an element.
fn one_run() -> [Row; 12] {
    [
        put(0, 7, 3, MapAnswer::Invalid),
        put(0, 7, 2, MapAnswer::Absent),
        put(0, 7, 0, MapAnswer::Done),
        put(0, 8, 1, MapAnswer::Exists),
        put(1, 8, 0, MapAnswer::Full),
        put(1, 8, 2, MapAnswer::Absent),
        put(0, 9, 0, MapAnswer::Done),
        take(1, MapAnswer::Absent),
        put(0, 10, 0, MapAnswer::NoMemory),
        take(0, MapAnswer::Done),
        find(0, None),
        put(0, 11, 0, MapAnswer::NoMemory),
    ]
}

// With no element to spare, a replacement finds none, and the old value stays.
fn no_spare() -> [Row; 4] {
    [
        put(0, 7, 1, MapAnswer::Done),
        put(0, 8, 0, MapAnswer::NoMemory),
        find(0, Some(7)),
        find(1, None),
    ]
}

// What was replaced in a run is free again in the next.
fn one_spare() -> [Row; 7] {
    [
        put(0, 7, 1, MapAnswer::Done),
        put(0, 8, 0, MapAnswer::Done),
        put(0, 9, 0, MapAnswer::NoMemory),
        find(0, Some(8)),
        next_run(),
        put(0, 9, 0, MapAnswer::Done),
        find(0, Some(9)),
    ]
}

// Of two keys and three elements: what leaves the map comes back once its CPU's run has ended.
fn three_elements() -> [Row; 22] {
    [
        put(1, 1, 2, MapAnswer::Absent),
        put(1, 1, 3, MapAnswer::Invalid),
        put(1, 1, 1, MapAnswer::Done),
        put(1, 1, 1, MapAnswer::Exists),
        put(1, 1, 2, MapAnswer::Done),
        put(2, 2, 0, MapAnswer::Done),
        put(3, 3, 0, MapAnswer::Full),
        put(1, 1, 0, MapAnswer::NoMemory),
        take(3, MapAnswer::Absent),
        take(2, MapAnswer::Done),
        take(2, MapAnswer::Absent),
        put(2, 2, 0, MapAnswer::NoMemory),
        next_run(),
        put(2, 2, 0, MapAnswer::Done),
        put(2, 2, 0, MapAnswer::Done),
        put(2, 2, 0, MapAnswer::NoMemory),
        next_run(),
        put(3, 3, 0, MapAnswer::Full),
        take(1, MapAnswer::Done),
        put(3, 3, 1, MapAnswer::Done),
        put(1, 1, 2, MapAnswer::Absent),
        put(2, 2, 1, MapAnswer::Exists),
    ]
}

#[test]
fn calls_are_answered_as_worked_out(rt: HostRuntime) -> Result<(), Fail> {
    let full = a_map(1, 0, 0xffff_ffff);
    let spare = a_map(1, 1, 0xffff_ffff);
    assert_eq!(rt; follow_both(&rt, rt.alloc(), spare, &one_run())?, (12, 12));
    assert_eq!(rt; follow_both(&rt, rt.alloc(), full, &no_spare())?, (4, 4));
    assert_eq!(rt; follow_both(&rt, rt.alloc(), spare, &one_spare())?, (7, 7));
    let two = a_map(2, 1, 0xffff_ffff);
    assert_eq!(rt;
        follow_both(&rt, rt.alloc(), two, &three_elements())?,
        (22, 22)
    );
    Ok(())
}

/// The order in which 100 keys are deleted.
#[derive(Clone, Copy)]
enum Order {
    Rising,
    Falling,
    EverySecondFirst,
}

fn place_in(order: Order, number: usize) -> usize {
    match order {
        Order::Rising => number,
        Order::Falling => 99usize.wrapping_sub(number),
        Order::EverySecondFirst if number < 50 => number.wrapping_mul(2),
        Order::EverySecondFirst => number.wrapping_mul(2).wrapping_sub(99),
    }
}

// The key at a place of the list; of the place after it, one that is never put.
fn key_at(keys: &[u32], place: usize) -> u32 {
    keys.get(place).copied().unwrap_or(u32::MAX)
}

// 100 keys come, each is found, they go in this order, and the others are found each time.
fn crowd(alloc: Global, keys: &[u32], order: Order) -> Result<Vec<Row>, Fail> {
    let mut rows = Vec::new(alloc);
    for key in keys {
        rows.push(put(*key, u64::from(*key), 1, MapAnswer::Done))?;
    }
    rows.push(put(u32::MAX, 0, 1, MapAnswer::Full))?;
    for gone in 0..101usize {
        for number in 0..100usize {
            let key = key_at(keys, place_in(order, number));
            let value = if number < gone {
                None
            } else {
                Some(u64::from(key))
            };
            rows.push(find(key, value))?;
        }
        let (key, answer) = if gone < 100 {
            (key_at(keys, place_in(order, gone)), MapAnswer::Done)
        } else {
            (u32::MAX, MapAnswer::Absent)
        };
        rows.push(take(key, answer))?;
        rows.push(next_run())?;
    }
    Ok(rows)
}

// In whatever order 100 keys are deleted, a port and the plain store keep the others.
fn keep_a_crowd<R: Wait>(rt: &R, alloc: Global, mask: u32, keys: &[u32]) -> Result<(), Fail> {
    for order in [Order::Rising, Order::Falling, Order::EverySecondFirst] {
        let rows = crowd(alloc, keys, order)?;
        let count = rows.len();
        if follow_both(rt, alloc, a_map(100, 0, mask), &rows)? != (count, count) {
            return Err(Fail::new("a reply isn't the one that was worked out"));
        }
    }
    Ok(())
}

#[test]
fn a_crowded_segment_keeps_its_keys(rt: HostRuntime) -> Result<(), Fail> {
    let mut keys = Vec::new(rt.alloc());
    for key in 0..100u32 {
        keys.push(key)?;
    }
    keep_a_crowd(&rt, rt.alloc(), 0, &keys)
}

// The first 100 keys whose segment, of two, and bucket are these, by the hash of seed 0.
fn keys_at_home(alloc: Global, wanted: u32) -> Result<Vec<u32>, Fail> {
    let mask = 0x3f_0001;
    let mut keys = Vec::new(alloc);
    for key in 0..100_000u32 {
        if keys.len() < 100 && home(&key.to_le_bytes(), 0, mask) == wanted {
            keys.push(key)?;
        }
    }
    Ok(keys)
}

#[test]
fn keys_of_one_home_by_the_hash_are_kept(rt: HostRuntime) -> Result<(), Fail> {
    let keys = keys_at_home(rt.alloc(), 0x2a_0001)?;
    assert_eq!(rt; keys.len(), 100);
    keep_a_crowd(&rt, rt.alloc(), 0xffff_ffff, &keys)
}

// How many rows the port of a store is answered as wanted whose segments have this version, and
// whose run counters this count.
fn follow_aged<R: Wait>(
    rt: &R,
    alloc: Global,
    version: u64,
    count: u64,
    rows: &[Row],
) -> Result<usize, Fail>
    requires version { version < 2 ^ 56 }
    requires even { count % 2 ≡ 0 }
{
    let (table, mut ports) = aged_ports(alloc, 1, a_map(2, 1, 0xffff_ffff), version, count)?;
    match pop_port(&table, &mut ports) {
        Some(port) => Ok(follow_port(rt, &table, port, rows)),
        None => Err(Fail::new("no port")),
    }
}

// At a segment's last version each change is refused, and lookups aren't.
fn last_version() -> [Row; 7] {
    [
        put(0, 7, 3, MapAnswer::Invalid),
        put(0, 7, 0, MapAnswer::Busy),
        put(0, 7, 1, MapAnswer::Busy),
        put(0, 7, 2, MapAnswer::Busy),
        take(0, MapAnswer::Busy),
        find(0, None),
        next_run(),
    ]
}

// The last change but one goes through, and what it left is found.
fn last_version_but_one() -> [Row; 7] {
    [
        take(0, MapAnswer::Absent),
        put(0, 7, 0, MapAnswer::Done),
        put(0, 8, 0, MapAnswer::Busy),
        put(0, 8, 3, MapAnswer::Invalid),
        take(0, MapAnswer::Busy),
        find(0, Some(7)),
        next_run(),
    ]
}

#[test]
fn a_worn_store_refuses_changes(rt: HostRuntime) -> Result<(), Fail> {
    let last = (1 << 56) - 1;
    assert_eq!(rt; follow_aged(&rt, rt.alloc(), last, 0, &last_version())?, 7);
    assert_eq!(rt;
        follow_aged(&rt, rt.alloc(), last - 1, 0, &last_version_but_one())?,
        7
    );
    Ok(())
}

// Each row is in a run of its own.
fn two_runs() -> [Row; 3] {
    [find(0, None), next_run(), find(0, None)]
}

#[test]
fn a_worn_run_counter_begins_no_run(rt: HostRuntime) -> Result<(), Fail> {
    let last = u64::MAX - 1;
    assert_eq!(rt; follow_aged(&rt, rt.alloc(), 0, last, &two_runs())?, 0);
    assert_eq!(rt; follow_aged(&rt, rt.alloc(), 0, last - 2, &two_runs())?, 1);
    assert_eq!(rt; follow_aged(&rt, rt.alloc(), 0, last - 4, &two_runs())?, 3);
    Ok(())
}
