//! Whether some order of all threads' calls of a key explains their replies, by a model of its own.
//! Calls of different keys commute where no map is full, so each key has an order of its own.

use crate::asking::{Call, Reply};
use crate::stores::{a_map, last_of, new_ports};
use crate::threads::{Noted, Work, close_all, work_by_threads};
use bpf_shared::MapAnswer;
use std::alloc::{AllocError, Global};
use std::collections::BTreeSet;
use std::sync::Wait;
use std::test::Fail;
use std::thread::Threads;

/// How many calls of each thread are explained, and the key's value after them.
type Position = ([u16; 4], Option<u64>);

// The answer to an update where an element is free.
fn answer_to(flags: u64, value: Option<u64>) -> MapAnswer {
    match (flags, value) {
        (0, _) | (1, None) | (2, Some(_)) => MapAnswer::Done,
        (1, Some(_)) => MapAnswer::Exists,
        (2, None) => MapAnswer::Absent,
        _ => MapAnswer::Invalid,
    }
}

// The key's value after a call, if the reply is right where the key has this value.
fn after(noted: Noted, old: Option<u64>) -> Option<Option<u64>> {
    match (noted.call, noted.reply) {
        (
            Call::Update {
                key: _,
                value,
                flags,
            },
            Reply::Answer(answer),
        ) => {
            match (answer_to(flags, old), answer) {
                (MapAnswer::Done, MapAnswer::Done) => Some(Some(value)),
                (MapAnswer::Done, MapAnswer::NoMemory) => Some(old),
                (wanted, given) if wanted == given => Some(old),
                _ => None,
            }
        }
        (Call::Delete { key: _ }, Reply::Answer(MapAnswer::Done)) if old.is_some() => Some(None),
        (Call::Delete { key: _ }, Reply::Answer(MapAnswer::Absent)) if old.is_none() => Some(None),
        (Call::Find { key: _ }, Reply::Value(found)) if found == old => Some(old),
        _ => None,
    }
}

// One call more of a thread, if its reply is right there.
fn follow(lists: &[Vec<Noted>], at: Position, thread: usize) -> Option<Position> {
    let (mut done, value) = at;
    let count = done.get_mut(thread)?;
    let noted = lists.get(thread)?.get(usize::from(*count))?;
    *count = count.checked_add(1)?;
    let value = after(*noted, value)?;
    Some((done, value))
}

// Whether all calls are explained.
fn is_end(lists: &[Vec<Noted>], done: [u16; 4]) -> bool {
    lists
        .iter()
        .zip(done)
        .all(|(list, count)| list.len() == usize::from(count))
}

// One call more that changes nothing, if there is one. It may be here in each order that it has
// a place in after this one.
fn follow_quiet(lists: &[Vec<Noted>], at: Position) -> Option<Position> {
    for thread in 0..4usize {
        if let Some(next) = follow(lists, at, thread)
            && next.1 == at.1
        {
            return Some(next);
        }
    }
    None
}

// Whether the calls of one key by up to four threads have an order that explains them and leaves
// this value. All that can be reached is looked at once.
fn has_order(alloc: Global, lists: &[Vec<Noted>], last: Option<u64>) -> Result<bool, AllocError> {
    let first: Position = ([0; 4], None);
    let mut seen = BTreeSet::new(alloc);
    let mut open = vec![in alloc; first]?;
    for _ in 0..1_000_000u32 {
        let Some(at) = open.pop() else {
            return Ok(false);
        };
        if is_end(lists, at.0) && at.1 == last {
            return Ok(true);
        }
        if let Some(next) = follow_quiet(lists, at) {
            open.push(next)?;
            continue;
        }
        for thread in 0..4usize {
            if let Some(next) = follow(lists, at, thread)
                && seen.insert(next)?
            {
                open.push(next)?;
            }
        }
    }
    Ok(false)
}

// The calls of a key, by thread.
fn calls_of(alloc: Global, notes: &[Vec<Noted>], key: u32) -> Result<Vec<Vec<Noted>>, AllocError> {
    let mut lists = Vec::new(alloc);
    for noted in notes {
        let mut list = Vec::new(alloc);
        for one in noted {
            if one.call.key() == Some(key) {
                list.push(*one)?;
            }
        }
        lists.push(list)?;
    }
    Ok(lists)
}

// How many of 16 keys' calls by four threads have an order that explains them.
fn explained<R: Threads + Wait + Sync>(rt: &R, alloc: Global, from: u64) -> Result<u32, Fail> {
    let (table, ports) = new_ports(alloc, 4, a_map(16, 48, 3))?;
    let work = Work::All { keys: 16, from };
    let backs = work_by_threads(rt, alloc, &table, ports, work, 256)?;
    let (closed, notes) = close_all(alloc, table, backs)?;
    let pairs = closed.dump(alloc, 0)?;
    let mut count = 0u32;
    for key in 0..16u32 {
        let lists = calls_of(alloc, &notes, key)?;
        if has_order(alloc, &lists, last_of(&pairs, key))? {
            count = count.wrapping_add(1);
        }
    }
    Ok(count)
}

#[test]
fn an_order_explains_the_calls_of_four_threads(rt: HostRuntime) -> Result<(), Fail> {
    for from in 0..10u64 {
        assert_eq!(rt; explained(&rt, rt.alloc(), from)?, 16);
    }
    Ok(())
}

// Whether an order explains the calls of one key by four threads, of which one adds and deletes it
// and the others look it up, in runs of n calls.
fn is_storm_explained<R: Threads + Wait + Sync>(
    rt: &R,
    alloc: Global,
    run: u32,
) -> Result<bool, Fail> {
    let (table, ports) = new_ports(alloc, 4, a_map(1, 1_000, 0))?;
    let backs = work_by_threads(rt, alloc, &table, ports, Work::Storm { run }, 20_000)?;
    let (closed, notes) = close_all(alloc, table, backs)?;
    let last = last_of(&closed.dump(alloc, 0)?, 0);
    for noted in &notes {
        if noted.len() != 20_000 {
            return Err(Fail::new("a thread gave up"));
        }
    }
    Ok(has_order(alloc, &notes, last)?)
}

#[test]
fn an_order_explains_a_storm_of_lookups_in_runs_of_one(rt: HostRuntime) -> Result<(), Fail> {
    assert!(rt; is_storm_explained(&rt, rt.alloc(), 1)?);
    Ok(())
}

#[test]
fn an_order_explains_a_storm_of_lookups_in_runs_of_a_thousand(rt: HostRuntime) -> Result<(), Fail> {
    assert!(rt; is_storm_explained(&rt, rt.alloc(), 1_000)?);
    Ok(())
}

fn put(value: u64, answer: MapAnswer) -> Noted {
    Noted {
        call: Call::Update {
            key: 0,
            value,
            flags: 1,
        },
        reply: Reply::Answer(answer),
    }
}

fn take() -> Noted {
    Noted {
        call: Call::Delete { key: 0 },
        reply: Reply::Answer(MapAnswer::Done),
    }
}

fn find(value: u64) -> Noted {
    Noted {
        call: Call::Find { key: 0 },
        reply: Reply::Value(Some(value)),
    }
}

#[test]
fn wrong_replies_have_no_order(rt: HostRuntime) -> Result<(), Fail> {
    let alloc = rt.alloc();
    let first = vec![in alloc; put(1, MapAnswer::Done), find(2)]?;
    let second = vec![in alloc; take(), put(2, MapAnswer::Done)]?;
    let lists = vec![in alloc; first, second]?;
    assert!(rt; has_order(alloc, &lists, Some(2))?);
    assert!(rt; !has_order(alloc, &lists, Some(1))?);
    let first = vec![in alloc; put(1, MapAnswer::Done), find(2)]?;
    let second = vec![in alloc; put(2, MapAnswer::Done), take()]?;
    let lists = vec![in alloc; first, second]?;
    assert!(rt; !has_order(alloc, &lists, Some(1))?);
    assert!(rt; !has_order(alloc, &lists, Some(2))?);
    Ok(())
}
