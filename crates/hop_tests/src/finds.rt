//! Lookups without a lock, while another CPU changes the segment.
ghost use Rattle.std.specs.Prelude.{All};
ghost use Rattle.hop_tests.specs.Trial.{IsIdlePort};

use crate::asking::{Call, ask_port};
use crate::stores::{a_map, new_ports};
use crate::threads::put_zeros;
use hop_map::{HopPort, Once};
use hop_words::HopTable;
use std::alloc::AllocError;
use std::sync::Wait;
use std::sync::atomic::{AtomicU64, Ordering};
use std::test::Fail;
use std::thread;
use std::thread::Threads;

/// What a thread saw.
#[derive(Clone, Copy, Drop)]
struct Saw {
    /// Lookups.
    finds: u32,
    found: u32,
    absent: u32,
    /// Disturbed as is promised: the first stamp locked, or the two different.
    disturbed: u32,
    /// Changes by the other thread.
    changes: u32,
}

const NOTHING: Saw = Saw {
    finds: 0,
    found: 0,
    absent: 0,
    disturbed: 0,
    changes: 0,
};

// One lookup of the key 0, in a run of its own.
fn find_in_a_run(table: &HopTable, port: &mut HopPort) -> Option<Once>
    requires idle { IsIdlePort table.now port.old }
    ensures idle { IsIdlePort table.now port.new }
{
    let shape = port.shape(table, 0)?;
    if shape.key != 4 {
        return None;
    }
    port.begin(table).ok()?;
    let once = port.find_once(table, 0, &0u32.to_le_bytes());
    port.end(table);
    Some(once)
}

// What the two threads report to each other: how many changes were made, and that the lookups are.
#[derive(Drop)]
struct Signs {
    changes: AtomicU64,
    stop: AtomicU64,
}

// 100,000 lookups of the key 0, and more until the other thread has made 1,000 changes: on a full
// machine it may begin late. After ten million lookups it gives up.
fn find_often(table: &HopTable, port: HopPort, signs: &Signs) -> Saw
    requires idle { IsIdlePort table.now port }
{
    let mut port = port;
    let mut saw = NOTHING;
    'finds: for find in 0..10_000_000u32 {
        if find >= 100_000 {
            if signs.changes.load(Ordering::SeqCst) >= 1_000 {
                break;
            }
            thread::yield_now();
        }
        saw.finds = saw.finds.wrapping_add(1);
        match find_in_a_run(table, &mut port) {
            Some(Once::Found(_)) => saw.found = saw.found.wrapping_add(1),
            Some(Once::Disturbed(first, last)) if first % 2 == 1 || first != last => {
                saw.disturbed = saw.disturbed.wrapping_add(1);
            }
            Some(Once::Absent) => saw.absent = saw.absent.wrapping_add(1),
            _ => {}
        }
    }
    signs.stop.store(1, Ordering::SeqCst);
    saw
}

// Deletes and inserts the keys 1 to 39, each in a run of its own, until the other thread is done.
fn change_often<R: Wait>(rt: &R, table: &HopTable, port: HopPort, signs: &Signs) -> Saw
    requires idle { IsIdlePort table.now port }
{
    let mut port = port;
    let mut saw = NOTHING;
    if port.begin(table).is_err() {
        return saw;
    }
    'changes: for change in 0..100_000_000u32 {
        if signs.stop.load(Ordering::SeqCst) != 0 {
            return saw;
        }
        let key = 1 + change / 2 % 39;
        let call = if change % 2 == 0 {
            Call::Delete { key }
        } else {
            Call::Update {
                key,
                value: 0,
                flags: 1,
            }
        };
        let (after, reply) = ask_port(rt, table, port, call);
        port = after;
        if reply.is_none() {
            return saw;
        }
        let (after, reply) = ask_port(rt, table, port, Call::NextRun);
        port = after;
        if reply.is_none() {
            return saw;
        }
        saw.changes = saw.changes.wrapping_add(1);
        signs.changes.fetch_add(1, Ordering::SeqCst);
    }
    saw
}

// CPU 0 changes the map, and the others look up.
fn find_by_threads<R: Threads + Wait + Sync>(
    rt: &R,
    table: &HopTable,
    ports: Vec<HopPort>,
) -> Result<Vec<Saw>, AllocError>
    requires idle { All (IsIdlePort table.now) ports.items }
{
    let signs = Signs {
        changes: AtomicU64::new(0),
        stop: AtomicU64::new(0),
    };
    let each = |port: HopPort| -> Saw
        requires { IsIdlePort table.now port }
    {
        if port.cpu() == 0 {
            change_often(rt, table, port, &signs)
        } else {
            find_often(table, port, &signs)
        }
    };
    thread::map_vec(rt, ports, &each)
}

#[test]
fn a_key_that_stays_is_never_missed(rt: HostRuntime) -> Result<(), Fail> {
    let (table, mut ports) = new_ports(rt.alloc(), 2, a_map(40, 40, 0))?;
    put_zeros(&rt, &table, &mut ports, 40)?;
    let saw = find_by_threads(&rt, &table, ports)?;
    assert_eq!(rt; saw.len(), 2);
    assert!(rt; saw[0].changes >= 1_000);
    assert!(rt; saw[1].finds >= 100_000);
    assert_eq!(rt; saw[1].absent, 0);
    assert_eq!(rt; saw[1].found.wrapping_add(saw[1].disturbed), saw[1].finds);
    Ok(())
}
