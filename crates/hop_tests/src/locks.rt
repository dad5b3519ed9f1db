//! A lock of one segment stops nobody at another.
ghost use Rattle.std.specs.Prelude.{◌≡◌, ◌<◌, All, IfOk, IfSome, OnSome};
ghost use Rattle.hop_map.specs.Stores.{IsNewLane};

use crate::stores::{a_map, a_shape};
use bpf_shared::MapAnswer;
use hop_arena::Arena;
use hop_epoch::{Batches, begin_run};
use hop_layout::{About, home};
use hop_map::{UpdateCall, update};
use hop_words::{HopTable, Lane, Lanes, Request};
use std::alloc::Global;
use std::sync::Wait;
use std::sync::atomic::{AtomicU64, Ordering};
use std::test::Fail;
use std::thread;
use std::thread::Threads;

// A store for two CPUs, with a map of two segments, and the lanes of its CPUs.
fn new_lanes(alloc: Global) -> Result<(HopTable, Lanes), Fail>
    ensures table { IfOk result (λ r. r.1.table ≡ r.0.id) }
    ensures new { IfOk result (λ r. All (IsNewLane r.0.about) r.1.lanes) }
{
    let about = About {
        shape: a_shape(alloc, 2, a_map(128, 0, 1))?,
        seed: 0,
        version: 0,
        count: 0,
    };
    Ok(HopTable::new(alloc, about)?)
}

// The lane of the next CPU.
fn next_lane(table: &HopTable, lanes: &mut Lanes) -> Option<Lane>
    requires table { lanes.old.table ≡ table.now.id }
    requires new { All (IsNewLane table.now.about) lanes.old.lanes }
    ensures table { lanes.new.table ≡ table.now.id }
    ensures new { OnSome result (All (IsNewLane table.now.about) lanes.new.lanes) }
    ensures lane { IfSome result
        (λ l. (l.table ≡ table.now.id) × IsNewLane table.now.about l.known) }
{
    let lane = lanes.deal(table)?;
    Some(lane)
}

// Locks the first segment of the first map.
#[tactic(auto, using(crate::proofs::Fresh::first_segment, crate::proofs::Fresh::first_born))]
fn lock_first(table: &HopTable, lane: &mut Lane) -> bool
    requires table { lane.old.table ≡ table.now.id }
    requires new { IsNewLane table.now.about lane.old.known }
{
    if table.about().shape.maps().is_empty() {
        return false;
    }
    let stamp = lane.look_at_stamp(table, 0, 0);
    stamp % 2 == 0 && lane.lock(table, 0, 0, stamp)
}

// The answer to a CPU's first call, an update of this key.
#[tactic(auto, using(crate::proofs::Fresh::running))]
fn first_update<'x, R: Wait>(
    rt: &'x R,
    table: &'x HopTable,
    lane: Lane,
    key: u32,
) -> Option<MapAnswer>
    requires table { lane.table ≡ table.now.id }
    requires new { IsNewLane table.now.about lane.known }
{
    let about = table.about();
    let shape = about.shape.maps().first()?;
    if shape.key != 4 || shape.value != 8 || about.count % 2 != 0 {
        return None;
    }
    let mut lane = lane;
    let mut arena = Arena::new(table, 0, lane.cpu());
    let mut batches = Batches::new(0);
    match begin_run(&mut lane, table) {
        Ok(()) => {}
        Err(_) => return None,
    }
    let mut expected = 0;
    let key = key.to_le_bytes();
    let call = UpdateCall {
        rt,
        table,
        map: 0,
        request: Request {
            key: &key,
            value: &[7; 8],
            flags: 1,
        },
    };
    let (_lane, answer, _spilled) = update(&call, lane, &mut expected, &mut arena, &mut batches);
    Some(answer)
}

// The first key whose home is this.
fn key_at_home(table: &HopTable, wanted: u32) -> Option<u32> {
    for key in 0..1_000u32 {
        if home(&key.to_le_bytes(), table.about().seed, 1) == wanted {
            return Some(key);
        }
    }
    None
}

// Waits until this isn't 0, for at most n turns.
fn wait_for(told: &AtomicU64) -> bool {
    for _ in 0..10_000_000u32 {
        if told.load(Ordering::SeqCst) != 0 {
            return true;
        }
        thread::yield_now();
    }
    false
}

// What another thread is given that updates this key, and whether this one saw it answered in time.
fn update_meanwhile<R: Threads + Wait + Sync>(
    rt: &R,
    table: &HopTable,
    lane: Lane,
    key: u32,
) -> (bool, Option<MapAnswer>)
    requires table { lane.table ≡ table.now.id }
    requires new { IsNewLane table.now.about lane.known }
{
    let told = AtomicU64::new(0);
    thread::join(
        rt,
        || -> bool { wait_for(&told) },
        || -> Option<MapAnswer>
            requires { (lane.table ≡ table.now.id) × IsNewLane table.now.about lane.known }
        {
            let answer = first_update(rt, table, lane, key);
            told.store(1, Ordering::SeqCst);
            answer
        },
    )
}

#[test]
fn another_segments_lock_stops_nobody(rt: HostRuntime) -> Result<(), Fail> {
    let (table, mut lanes) = new_lanes(rt.alloc())?;
    let Some(mut first) = next_lane(&table, &mut lanes) else {
        return Err(Fail::new("no CPU 0"));
    };
    let Some(second) = next_lane(&table, &mut lanes) else {
        return Err(Fail::new("no CPU 1"));
    };
    let Some(key) = key_at_home(&table, 1) else {
        return Err(Fail::new("no key of the second segment"));
    };
    assert!(rt; lock_first(&table, &mut first));
    let (in_time, answer) = update_meanwhile(&rt, &table, second, key);
    assert!(rt; in_time);
    assert_eq!(rt; answer, Some(MapAnswer::Done));
    Ok(())
}
