//! Maps that grow: their segments, and what they have, after calls of one port and of threads.
ghost use Rattle.std.specs.Prelude.{◌<◌, ◌^◌, IfSome};
ghost use Rattle.hop_map.specs.Port.{IsPortOf};
ghost use Rattle.hop_tests.specs.Trial.{IsIdlePort};

use crate::asking::{Call, Reply, ask_port};
use crate::stores::{a_map, aged_ports, close, new_ports, pop_port, push_port};
use crate::threads::{Work, close_all, push_back, put_zeros, work_by_threads};
use bpf_shared::MapShape;
use hop_map::{Growth, HopPort, MapStats};
use hop_words::HopTable;
use std::alloc::Global;
use std::sync::Wait;
use std::test::Fail;
use std::thread::Threads;

/// A map that begins with one segment.
pub(crate) fn growing(max: u64, spare: u64, mask: u32) -> MapShape {
    MapShape {
        grow: true,
        ..a_map(max, spare, mask)
    }
}

// How many segments and how many keys a map has, into which one port has put n.
fn filled<R: Wait>(rt: &R, alloc: Global, map: MapShape, keys: u32) -> Result<(u32, usize), Fail> {
    let (table, mut ports) = new_ports(alloc, 1, map)?;
    put_zeros(rt, &table, &mut ports, keys)?;
    let closed = close(table, ports)?;
    Ok((closed.segments(0), closed.dump(alloc, 0)?.len()))
}

// With the mask 0 all keys are at home in one bucket, whose neighbourhood has 32 places.
#[test]
fn a_segment_splits_behind_the_first_overflow(rt: HostRuntime) -> Result<(), Fail> {
    let map = growing(100, 0, 0);
    assert_eq!(rt; filled(&rt, rt.alloc(), map, 32)?, (1, 32));
    assert_eq!(rt; filled(&rt, rt.alloc(), map, 33)?, (2, 33));
    assert_eq!(rt; filled(&rt, rt.alloc(), map, 100)?, (2, 100));
    assert_eq!(rt; filled(&rt, rt.alloc(), growing(64, 0, 0), 64)?, (1, 64));
    Ok(())
}

// A map that doesn't grow has all its segments from the first on, as many as its keys ask for.
#[test]
fn a_map_that_does_not_grow_keeps_its_segments(rt: HostRuntime) -> Result<(), Fail> {
    assert_eq!(rt; filled(&rt, rt.alloc(), a_map(100, 0, 0), 0)?, (2, 0));
    assert_eq!(rt; filled(&rt, rt.alloc(), a_map(100, 0, 0), 100)?, (2, 100));
    assert_eq!(rt;
        filled(&rt, rt.alloc(), a_map(65_536, 0, 0), 1)?,
        (1_024, 1)
    );
    Ok(())
}

// How two splits of segment 0 end, in a new store whose segments have this version, and how many
// segments there are then.
fn split_twice<R: Wait>(
    rt: &R,
    alloc: Global,
    map: MapShape,
    version: u64,
) -> Result<(Growth, Growth, u32), Fail>
    requires version { version < 2 ^ 56 }
{
    let (table, mut ports) = aged_ports(alloc, 1, map, version, 0)?;
    let Some(mut port) = pop_port(&table, &mut ports) else {
        return Err(Fail::new("no port"));
    };
    let Some(_map) = port.shape(&table, 0) else {
        return Err(Fail::new("no map"));
    };
    let first = port.split(rt, &table, 0, 0);
    let second = port.split(rt, &table, 0, 0);
    push_port(&table, &mut ports, port)?;
    let closed = close(table, ports)?;
    Ok((first, second, closed.segments(0)))
}

#[test]
fn a_split_ends_by_depth_before_version(rt: HostRuntime) -> Result<(), Fail> {
    let last = (1 << 56) - 1;
    let alloc = rt.alloc();
    let once = (Growth::Grown, Growth::AtDepth, 2);
    assert_eq!(rt; split_twice(&rt, alloc, growing(65, 0, 0), 0)?, once);
    assert_eq!(rt; split_twice(&rt, alloc, growing(65, 0, 0), last - 1)?, once);
    let worn = (Growth::Worn, Growth::Worn, 1);
    assert_eq!(rt; split_twice(&rt, alloc, growing(65, 0, 0), last)?, worn);
    let deep = (Growth::AtDepth, Growth::AtDepth, 1);
    assert_eq!(rt; split_twice(&rt, alloc, growing(64, 0, 0), last)?, deep);
    let fixed = (Growth::AtDepth, Growth::AtDepth, 2);
    assert_eq!(rt; split_twice(&rt, alloc, a_map(65, 0, 0), 0)?, fixed);
    Ok(())
}

// How splits of the segments 0 and 1 end, in a map into which one port has put n keys, and how
// many segments and keys there are then.
fn split_both<R: Wait>(
    rt: &R,
    alloc: Global,
    map: MapShape,
    keys: u32,
) -> Result<(Growth, Growth, u32, usize), Fail> {
    let (table, mut ports) = new_ports(alloc, 1, map)?;
    put_zeros(rt, &table, &mut ports, keys)?;
    let Some(mut port) = pop_port(&table, &mut ports) else {
        return Err(Fail::new("no port"));
    };
    let Some(_map) = port.shape(&table, 0) else {
        return Err(Fail::new("no map"));
    };
    let parent = port.split(rt, &table, 0, 0);
    let child = port.split(rt, &table, 0, 1);
    push_port(&table, &mut ports, port)?;
    let closed = close(table, ports)?;
    let pairs = closed.dump(alloc, 0)?;
    Ok((parent, child, closed.segments(0), pairs.len()))
}

// A map for 100 keys has two segments at its depth.
#[test]
fn a_full_map_at_its_depth_splits_no_more(rt: HostRuntime) -> Result<(), Fail> {
    let deep = (Growth::AtDepth, Growth::AtDepth, 2, 100);
    assert_eq!(rt; split_both(&rt, rt.alloc(), growing(100, 0, 0), 100)?, deep);
    assert_eq!(rt; split_both(&rt, rt.alloc(), a_map(100, 0, 0), 100)?, deep);
    Ok(())
}

// All keys are at home in one bucket: 32 are in its neighbourhood, the others on the overflow list
// of the parent, since the child has none of them.
#[test]
fn numbers_of_a_map_that_has_grown(rt: HostRuntime) -> Result<(), Fail> {
    let (table, mut ports) = new_ports(rt.alloc(), 1, growing(100, 8, 0))?;
    put_zeros(&rt, &table, &mut ports, 90)?;
    let closed = close(table, ports)?;
    let stats = MapStats {
        segments: 2,
        keys: 90,
        overflow: 58,
        free: 18,
        splits: 1,
        disturbed: 0,
        locks: 0,
    };
    assert_eq!(rt; closed.stats(0), Some(stats));
    assert_eq!(rt; closed.stats(1), None);
    Ok(())
}

// How many of the keys 0 to 127 a port finds, in a run of its own.
fn count_found<R: Wait>(rt: &R, table: &HopTable, port: HopPort) -> Option<(HopPort, u32)>
    requires idle { IsIdlePort table.now port }
    ensures fits { IfSome result (λ r. IsPortOf table.now r.0) }
{
    let mut port = port;
    port.begin(table).ok()?;
    let mut found = 0u32;
    'keys: for key in 0..128 {
        let (after, reply) = ask_port(rt, table, port, Call::Find { key });
        port = after;
        if matches!(reply?, Reply::Value(Some(_))) {
            found = found.wrapping_add(1);
        }
    }
    port.end(table);
    Some((port, found))
}

// How many segments and how many keys a map has, into which n threads have put n each,
// and how many of the first 128 another CPU finds after that.
fn filled_by_threads<R: Threads + Wait + Sync>(
    rt: &R,
    alloc: Global,
    map: MapShape,
    threads: u32,
    keys: u32,
) -> Result<(u32, usize, u32), Fail> {
    let (table, mut ports) = new_ports(alloc, u64::from(threads) + 1, map)?;
    let Some(onlooker) = pop_port(&table, &mut ports) else {
        return Err(Fail::new("no port"));
    };
    let work = Work::OwnKeys { cpus: threads };
    let mut backs = work_by_threads(rt, alloc, &table, ports, work, keys)?;
    let Some((port, found)) = count_found(rt, &table, onlooker) else {
        return Err(Fail::new("no lookups"));
    };
    push_back(alloc, &table, &mut backs, port)?;
    let (closed, _notes) = close_all(alloc, table, backs)?;
    Ok((closed.segments(0), closed.dump(alloc, 0)?.len(), found))
}

#[test]
fn threads_make_a_map_grow(rt: HostRuntime) -> Result<(), Fail> {
    let two = filled_by_threads(&rt, rt.alloc(), growing(128, 0, 1), 2, 64)?;
    assert_eq!(rt; two, (2, 128, 128));
    let (segments, keys, found) = filled_by_threads(
        &rt,
        rt.alloc(),
        growing(65_536, 0, 0xffff_ffff),
        4,
        16_384,
    )?;
    assert_eq!(rt; keys, 65_536);
    assert_eq!(rt; found, 128);
    assert!(rt; (2..=1_024).contains(&segments));
    Ok(())
}
