//! Listings of a map's keys: alone, beside a value that is still held, and beside a CPU that inserts
//! and deletes.
ghost use Rattle.std.specs.Prelude.{◌≡◌, ◌<◌, ◌≤◌, All, IfOk, IsTrue, OnOk};
ghost use Rattle.hop_map.specs.Port.{IsPortOf, runs};
ghost use Rattle.hop_tests.specs.Trial.{IsIdlePort, IsRunning};

use crate::asking::{Call, Reply, ask_port};
use crate::stores::{a_map, new_ports, pop_port};
use crate::threads::{meet, put_zeros};
use bpf_shared::{KeyList, MapAnswer, MapShape};
use hop_map::HopPort;
use hop_words::{HopTable, Request};
use std::alloc::{AllocError, Global};
use std::sync::Wait;
use std::sync::atomic::AtomicU64;
use std::test::Fail;
use std::thread;
use std::thread::Threads;

/// A key of a list.
pub(crate) fn key_at(list: &KeyList, place: usize) -> Option<u32> {
    let bytes: [u8; 4] = list.get(place)?.try_into().ok()?;
    Some(u32::from_le_bytes(bytes))
}

// Whether the list has the numbers below n, each once, and no other key.
fn are_below(list: &KeyList, n: u32) -> bool {
    for key in 0..n {
        if key_at(list, key as usize) != Some(key) {
            return false;
        }
    }
    list.get(n as usize).is_none()
}

// The keys of the first map.
fn keys_of<R: Wait>(
    rt: &R,
    alloc: Global,
    table: &HopTable,
    port: &mut HopPort,
) -> Result<KeyList, Fail>
    requires fits { IsPortOf table.now port.old }
    ensures fits { OnOk result (IsPortOf table.now port.new) }
    ensures in_run { OnOk result (runs port.new ≡ runs port.old) }
{
    let Some(shape) = port.shape(table, 0) else {
        return Err(Fail::new("no map"));
    };
    let mut list = KeyList::new(alloc, &shape)?;
    port.keys(rt, table, 0, &mut list);
    Ok(list)
}

// The keys of a new map into which n numbers are inserted.
fn keys_after<R: Wait>(rt: &R, alloc: Global, map: MapShape, keys: u32) -> Result<KeyList, Fail> {
    let (table, mut ports) = new_ports(alloc, 1, map)?;
    put_zeros(rt, &table, &mut ports, keys)?;
    let Some(mut port) = pop_port(&table, &mut ports) else {
        return Err(Fail::new("no port"));
    };
    keys_of(rt, alloc, &table, &mut port)
}

#[test]
fn an_empty_map_has_no_keys(rt: HostRuntime) -> Result<(), Fail> {
    let list = keys_after(&rt, rt.alloc(), a_map(1_000, 0, 0xffff_ffff), 0)?;
    assert!(rt; list.get(0).is_none());
    Ok(())
}

// All keys have the home 0, so at most 32 of them are at places.
#[test]
fn keys_of_one_segment_and_its_list_are_listed_once(rt: HostRuntime) -> Result<(), Fail> {
    let list = keys_after(&rt, rt.alloc(), a_map(100, 0, 0), 100)?;
    assert!(rt; are_below(&list, 100));
    Ok(())
}

#[test]
fn keys_of_many_segments_are_listed_in_order(rt: HostRuntime) -> Result<(), Fail> {
    let list = keys_after(&rt, rt.alloc(), a_map(1_000, 0, 0xffff_ffff), 256)?;
    assert!(rt; are_below(&list, 256));
    Ok(())
}

// This number as a key of 64 bytes. The order of the keys is that of the numbers.
fn wide_key(number: u32) -> [u8; 64] {
    let [first, second, third, last] = number.to_be_bytes();
    let mut key = [7; 64];
    key[60] = first;
    key[61] = second;
    key[62] = third;
    key[63] = last;
    key
}

// Inserts n keys of 64 bytes, in falling order.
fn put_wide<R: Wait>(rt: &R, table: &HopTable, port: &mut HopPort, keys: u32) -> Result<(), Fail>
    requires idle { IsIdlePort table.now port.old }
    ensures idle { OnOk result (IsIdlePort table.now port.new) }
{
    let Some(shape) = port.shape(table, 0) else {
        return Err(Fail::new("no map"));
    };
    if shape.key != 64 || shape.value != 8 {
        return Err(Fail::new("a map of other sizes"));
    }
    port.begin(table)?;
    'keys: for place in 0..keys {
        let key = wide_key(keys - 1 - place);
        let request = Request {
            key: &key,
            value: &[0; 8],
            flags: 1,
        };
        if port.update(rt, table, 0, &request) != MapAnswer::Done {
            return Err(Fail::new("no place for a key"));
        }
    }
    port.end(table);
    Ok(())
}

// Whether the list has the keys of 64 bytes of the numbers below n, each once, and no other key.
fn are_wide_below(list: &KeyList, n: u32) -> bool {
    for number in 0..n {
        let Some(key) = list.get(number as usize) else {
            return false;
        };
        if key != wide_key(number).as_slice() {
            return false;
        }
    }
    list.get(n as usize).is_none()
}

#[test]
fn the_most_keys_of_64_bytes_are_listed_in_order(rt: HostRuntime) -> Result<(), Fail> {
    let map = MapShape {
        key: 64,
        ..a_map(65_536, 0, 0xffff_ffff)
    };
    let (table, mut ports) = new_ports(rt.alloc(), 1, map)?;
    let Some(mut port) = pop_port(&table, &mut ports) else {
        return Err(Fail::new("no port"));
    };
    put_wide(&rt, &table, &mut port, 65_536)?;
    let list = keys_of(&rt, rt.alloc(), &table, &mut port)?;
    assert!(rt; are_wide_below(&list, 65_536));
    Ok(())
}

// Makes a call that has this reply.
fn told<R: Wait>(
    rt: &R,
    table: &HopTable,
    port: HopPort,
    call: Call,
    reply: Reply,
) -> Result<HopPort, Fail>
    requires running { IsRunning table.now port }
    ensures running { IfOk result (IsRunning table.now) }
{
    let (port, told) = ask_port(rt, table, port, call);
    if told != Some(reply) {
        return Err(Fail::new("another reply"));
    }
    Ok(port)
}

// What both CPUs list while the first holds the value of a key that the second has deleted, and
// what the second lists when it has put the key anew.
fn lists_beside_a_held_value<R: Wait>(
    rt: &R,
    alloc: Global,
    table: &HopTable,
    holder: HopPort,
    writer: HopPort,
) -> Result<[KeyList; 3], Fail>
    requires holder { IsIdlePort table.now holder }
    requires writer { IsIdlePort table.now writer }
{
    let (mut holder, mut writer) = (holder, writer);
    let done = Reply::Answer(MapAnswer::Done);
    holder.begin(table)?;
    let find = Call::Find { key: 0 };
    let mut holder = told(rt, table, holder, find, Reply::Value(Some(0)))?;
    writer.begin(table)?;
    let mut writer = told(rt, table, writer, Call::Delete { key: 0 }, done)?;
    let by_holder = keys_of(rt, alloc, table, &mut holder)?;
    let by_writer = keys_of(rt, alloc, table, &mut writer)?;
    let insertion = Call::Update {
        key: 0,
        value: 1,
        flags: 1,
    };
    let mut writer = told(rt, table, writer, insertion, done)?;
    let put_anew = keys_of(rt, alloc, table, &mut writer)?;
    Ok([by_holder, by_writer, put_anew])
}

#[test]
fn a_deleted_key_is_not_listed_while_its_value_is_held(rt: HostRuntime) -> Result<(), Fail> {
    let alloc = rt.alloc();
    let (table, mut ports) = new_ports(alloc, 2, a_map(1, 1, 0xffff_ffff))?;
    put_zeros(&rt, &table, &mut ports, 1)?;
    let Some(holder) = pop_port(&table, &mut ports) else {
        return Err(Fail::new("no port"));
    };
    let Some(writer) = pop_port(&table, &mut ports) else {
        return Err(Fail::new("no second port"));
    };
    let lists = lists_beside_a_held_value(&rt, alloc, &table, holder, writer)?;
    assert!(rt; are_below(&lists[0], 0));
    assert!(rt; are_below(&lists[1], 0));
    assert!(rt; are_below(&lists[2], 1));
    Ok(())
}

/// What a thread hands back: its port, and how often it found something wrong.
#[derive(Drop)]
pub(crate) struct Back {
    pub(crate) port: HopPort,
    pub(crate) wrong: u32,
}

/// Inserts the key that follows this one, deletes this one, and begins another run.
pub(crate) fn step_on<R: Wait>(
    rt: &R,
    table: &HopTable,
    port: HopPort,
    key: u32,
    next: u32,
) -> (HopPort, bool)
    requires running { IsRunning table.now port }
    ensures fits { IsPortOf table.now result.0 }
    ensures running { IsTrue result.1 → IsRunning table.now result.0 }
{
    let done = Some(Reply::Answer(MapAnswer::Done));
    let insertion = Call::Update {
        key: next,
        value: 0,
        flags: 1,
    };
    let (port, inserted) = ask_port(rt, table, port, insertion);
    if inserted != done {
        return (port, false);
    }
    let (port, deleted) = ask_port(rt, table, port, Call::Delete { key });
    if deleted != done {
        return (port, false);
    }
    let (port, begun) = ask_port(rt, table, port, Call::NextRun);
    match begun {
        Some(_) => (port, true),
        None => (port, false),
    }
}

// So up to the last key.
fn walk<R: Wait>(rt: &R, table: &HopTable, port: HopPort, last: u32) -> Back
    requires idle { IsIdlePort table.now port }
    ensures fits { IsPortOf table.now result.port }
{
    let mut port = port;
    if port.begin(table).is_err() {
        return Back { port, wrong: 1 };
    }
    'keys: for key in 0..last {
        let (after, on) = step_on(rt, table, port, key, key.wrapping_add(1));
        port = after;
        if !on {
            return Back { port, wrong: 1 };
        }
    }
    Back { port, wrong: 0 }
}

/// How many CPUs write at most beside a listing.
pub(crate) const MOST_WRITERS: u32 = 4;

/// Whether the list has of each of n writers one key, or two of which one follows the other,
/// and no other key. A key is that of the writer whose number is left of it by a division by theirs,
/// and the writer's next key is as many further.
pub(crate) fn are_of_one_moment(list: &KeyList, writers: u32) -> bool
    requires some { 0 < writers }
    requires few { writers ≤ MOST_WRITERS }
{
    let mut keys = [0u32; 4];
    let mut counts = [0u8; 4];
    let mut seen = 0u32;
    'places: for place in 0..2 * MOST_WRITERS + 1 {
        let Some(key) = key_at(list, place as usize) else {
            return list.get(place as usize).is_none() && seen == writers;
        };
        let writer = (key % writers) as usize;
        let other = keys[writer];
        let follows = key == other.wrapping_add(writers) || other == key.wrapping_add(writers);
        match counts[writer] {
            0 => seen = seen.wrapping_add(1),
            1 if follows => {}
            _ => return false,
        }
        counts[writer] = counts[writer].wrapping_add(1);
        keys[writer] = key;
    }
    false
}

/// Lists the keys so often, in no run, beside n writers.
pub(crate) fn list_often<R: Wait>(
    rt: &R,
    alloc: Global,
    table: &HopTable,
    port: HopPort,
    times: u32,
    writers: u32,
) -> Back
    requires some { 0 < writers }
    requires few { writers ≤ MOST_WRITERS }
    requires idle { IsIdlePort table.now port }
    ensures fits { IsPortOf table.now result.port }
{
    let mut port = port;
    let Some(shape) = port.shape(table, 0) else {
        return Back { port, wrong: 1 };
    };
    let Ok(mut list) = KeyList::new(alloc, &shape) else {
        return Back { port, wrong: 1 };
    };
    let mut wrong = 0u32;
    'lists: for _ in 0..times {
        port.keys(rt, table, 0, &mut list);
        if !are_of_one_moment(&list, writers) {
            wrong = wrong.wrapping_add(1);
        }
    }
    Back { port, wrong }
}

// CPU 0 walks over n keys, the other lists so often, and they begin together.
fn walk_and_list<R: Threads + Wait + Sync>(
    rt: &R,
    alloc: Global,
    table: &HopTable,
    ports: Vec<HopPort>,
    last: u32,
    times: u32,
) -> Result<Vec<Back>, AllocError>
    requires idle { All (IsIdlePort table.now) ports.items }
{
    let arrived = AtomicU64::new(0);
    let threads = ports.len() as u64;
    let each = |port: HopPort| -> Back
        requires { IsIdlePort table.now port }
        ensures { IsPortOf table.entry.now result.port }
    {
        meet(&arrived, threads);
        if port.cpu() == 0 {
            walk(rt, table, port, last)
        } else {
            list_often(rt, alloc, table, port, times, 1)
        }
    };
    thread::map_vec(rt, ports, &each)
}

#[test]
fn a_listing_beside_a_walk_is_of_one_moment(rt: HostRuntime) -> Result<(), Fail> {
    let alloc = rt.alloc();
    let (table, mut ports) = new_ports(alloc, 2, a_map(1_000, 0, 0xffff_ffff))?;
    put_zeros(&rt, &table, &mut ports, 1)?;
    let backs = walk_and_list(&rt, alloc, &table, ports, 10_000, 1_000)?;
    for back in &backs {
        assert_eq!(rt; back.wrong, 0);
    }
    Ok(())
}
