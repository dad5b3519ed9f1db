//! Listings of all CPUs of a store at once, of which four insert and delete too.
ghost use Rattle.std.specs.Prelude.{All};
ghost use Rattle.hop_map.specs.Port.{IsPortOf};
ghost use Rattle.hop_tests.specs.Trial.{IsIdlePort};

use crate::listings::{Back, MOST_WRITERS, are_of_one_moment, list_often, step_on};
use crate::stores::{a_map, new_ports};
use crate::threads::{meet, put_zeros};
use bpf_shared::KeyList;
use hop_map::HopPort;
use hop_words::HopTable;
use std::alloc::{AllocError, Global};
use std::sync::Wait;
use std::sync::atomic::AtomicU64;
use std::test::Fail;
use std::thread;
use std::thread::Threads;

// Walks over n keys of this CPU, and lists all keys after each step.
fn walk_and_list<R: Wait>(
    rt: &R,
    alloc: Global,
    table: &HopTable,
    port: HopPort,
    steps: u32,
) -> Back
    requires idle { IsIdlePort table.now port }
    ensures fits { IsPortOf table.now result.port }
{
    let mut port = port;
    let Some(shape) = port.shape(table, 0) else {
        return Back { port, wrong: 1 };
    };
    let Ok(mut list) = KeyList::new(alloc, &shape) else {
        return Back { port, wrong: 1 };
    };
    let mut key = u32::from(port.cpu());
    if port.begin(table).is_err() {
        return Back { port, wrong: 1 };
    }
    let mut wrong = 0u32;
    'steps: for _ in 0..steps {
        let next = key.wrapping_add(MOST_WRITERS);
        let (after, on) = step_on(rt, table, port, key, next);
        port = after;
        if !on {
            return Back { port, wrong: 1 };
        }
        key = next;
        port.keys(rt, table, 0, &mut list);
        if !are_of_one_moment(&list, MOST_WRITERS) {
            wrong = wrong.wrapping_add(1);
        }
    }
    Back { port, wrong }
}

// Each CPU lists so often, and they begin together.
fn list_at_once<R: Threads + Wait + Sync>(
    rt: &R,
    alloc: Global,
    table: &HopTable,
    ports: Vec<HopPort>,
    times: u32,
) -> Result<Vec<Back>, AllocError>
    requires idle { All (IsIdlePort table.now) ports.items }
{
    let arrived = AtomicU64::new(0);
    let threads = ports.len() as u64;
    let each = |port: HopPort| -> Back
        requires { IsIdlePort table.now port }
        ensures { IsPortOf table.entry.now result.port }
    {
        meet(&arrived, threads);
        if u32::from(port.cpu()) < MOST_WRITERS {
            walk_and_list(rt, alloc, table, port, times)
        } else {
            list_often(rt, alloc, table, port, times, MOST_WRITERS)
        }
    };
    thread::map_vec(rt, ports, &each)
}

#[test]
fn sixteen_cpus_list_at_once_while_four_write(rt: HostRuntime) -> Result<(), Fail> {
    let alloc = rt.alloc();
    let (table, mut ports) = new_ports(alloc, 16, a_map(1_000, 0, 0xffff_ffff))?;
    put_zeros(&rt, &table, &mut ports, MOST_WRITERS)?;
    let backs = list_at_once(&rt, alloc, &table, ports, 200)?;
    assert_eq!(rt; backs.len(), 16);
    for back in &backs {
        assert_eq!(rt; back.wrong, 0);
    }
    Ok(())
}
