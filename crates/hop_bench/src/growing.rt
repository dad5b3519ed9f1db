//! A map that is filled, which has all its segments from the first on or grows from one; and lookups
//! of a map that grows meanwhile.
ghost use Rattle.std.specs.Prelude.{◌≡◌, true};
ghost use Rattle.hop_words.specs.Trial.{IsTrial};
ghost use Rattle.hop_map.specs.Port.{IsPortOf, runs};
ghost use Rattle.hop_bench.specs.Trial.{IsNewPort};

use crate::calls::{Draw, Tally, put_growing};
use crate::plan::{Keys, Plan, key_of};
use crate::working::{Timing, make_run};
use hop_map::HopPort;
use hop_words::HopTable;
use std::io;
use std::sync::Wait;
use std::time::{Clock, Instant};

// The nanoseconds that have passed.
fn nanoseconds<R: Clock>(rt: &R, start: &Instant) -> io::Result<u64> {
    let passed = start.elapsed(rt)?.as_nanos();
    Ok(u64::try_from(passed).unwrap_or(u64::MAX))
}

// Keys of these numbers are added: n, so far apart, from this one on, as far as there are keys.
#[derive(Clone, Copy)]
struct Part {
    count: u64,
    apart: u64,
    from: u64,
}

// Adds n keys in one run. Answers how many no element was to be had for.
fn put_run<R: Wait>(rt: &R, table: &HopTable, port: &mut HopPort, plan: Plan, part: Part) -> u64
    requires new { IsNewPort table.now port.old }
    ensures new { IsNewPort table.now port.new }
{
    let mut refused = 0u64;
    if port.begin(table).is_err() {
        return refused;
    }
    'keys: for passed in 0..part.count {
        let number = passed.wrapping_mul(part.apart).wrapping_add(part.from);
        if number >= plan.keys {
            break;
        }
        if put_growing(rt, table, port, &key_of(number), plan.grows()) {
            refused = refused.wrapping_add(1);
        }
    }
    port.end(table);
    refused
}

// Adds the keys of all numbers from this one on, so far apart, and times that.
fn put_all<R: Wait + Clock>(
    rt: &R,
    table: &HopTable,
    port: &mut HopPort,
    plan: Plan,
    from: u64,
    apart: u64,
) -> io::Result<Timing>
    requires new { IsNewPort table.now port.old }
    ensures new { IsNewPort table.now port.new }
{
    let keys = plan.keys.saturating_sub(from).div_ceil(apart.max(1));
    let count = plan.run.max(1);
    let mut refused = 0u64;
    let mut from = from;
    let start = Instant::now(rt)?;
    'runs: for _run in 0..keys.div_ceil(count) {
        let part = Part { count, apart, from };
        refused = refused.wrapping_add(put_run(rt, table, port, plan, part));
        from = from.wrapping_add(count.wrapping_mul(apart));
    }
    Ok(Timing {
        calls: keys,
        refused,
        found: 0,
        nanoseconds: nanoseconds(rt, &start)?,
    })
}

/// What a thread takes to add its part of all keys.
pub fn fill_timed<R: Wait + Clock>(
    rt: &R,
    table: &HopTable,
    port: HopPort,
    plan: Plan,
) -> io::Result<Timing>
    requires new { IsNewPort table.now port }
{
    let mut port = port;
    let thread = u64::from(port.cpu());
    put_all(rt, table, &mut port, plan, thread, plan.threads)
}

// Makes n lookups in one run, and answers the last bits drawn.
#[inline(never)]
fn look_up<R: Wait>(
    rt: &R,
    table: &HopTable,
    port: &mut HopPort,
    plan: Plan,
    draw: Draw,
    tally: &mut Tally,
) -> u64
    requires new { IsNewPort table.now port.old }
    ensures new { IsNewPort table.now port.new }
{
    make_run(rt, table, port, plan, draw, tally)
}

// Whether the key of this number is there, by the first word of its value, which isn't 0.
fn is_there<R: Wait>(rt: &R, table: &HopTable, port: &mut HopPort, plan: Plan, number: u64) -> bool
    requires new { IsNewPort table.now port.old }
    ensures new { IsNewPort table.now port.new }
{
    let one = Plan { run: 1, ..plan };
    let keys = Keys {
        count: 1,
        apart: 1,
        from: number,
    };
    let mut tally = Tally {
        refused: 0,
        found: 0,
    };
    look_up(rt, table, port, one, Draw { keys, bits: 0 }, &mut tally);
    tally.found != 0
}

// Looks keys up until so much time has passed or the key of this number is there, which is looked
// for after some 256 calls; and times that.
fn look_until<R: Wait + Clock>(
    rt: &R,
    table: &HopTable,
    port: &mut HopPort,
    plan: Plan,
    most: u64,
    last: u64,
) -> io::Result<Timing>
    requires new { IsNewPort table.now port.old }
    ensures new { IsNewPort table.now port.new }
{
    let keys = plan.keys_of(0);
    let runs = (256 / plan.run.max(1)).max(1);
    let mut tally = Tally {
        refused: 0,
        found: 0,
    };
    let mut bits = 0x2545_f491_4f6c_dd1du64.wrapping_mul(u64::from(port.cpu()).wrapping_add(1));
    let start = Instant::now(rt)?;
    let mut calls = 0u64;
    let mut passed = 0;
    'looks: for _look in 0..u64::MAX {
        'all: for _run in 0..runs {
            bits = look_up(rt, table, port, plan, Draw { keys, bits }, &mut tally);
        }
        calls = calls.wrapping_add(runs.wrapping_mul(plan.run));
        passed = nanoseconds(rt, &start)?;
        if passed >= most || is_there(rt, table, port, plan, last) {
            break;
        }
    }
    Ok(Timing {
        calls,
        refused: 0,
        found: tally.found,
        nanoseconds: passed,
    })
}

// Waits until so much time has passed.
fn wait_for<R: Clock>(rt: &R, most: u64) -> io::Result<()> {
    let start = Instant::now(rt)?;
    'looks: for _look in 0..u64::MAX {
        if nanoseconds(rt, &start)? >= most {
            break;
        }
    }
    Ok(())
}

// Waits until the key of this number is there, but no longer than this.
fn wait_for_key<R: Wait + Clock>(
    rt: &R,
    table: &HopTable,
    port: &mut HopPort,
    plan: Plan,
    number: u64,
    most: u64,
) -> io::Result<()>
    requires new { IsNewPort table.now port.old }
    ensures new { IsNewPort table.now port.new }
{
    let start = Instant::now(rt)?;
    'looks: for _look in 0..u64::MAX {
        if is_there(rt, table, port, plan, number) || nanoseconds(rt, &start)? >= most {
            break;
        }
    }
    Ok(())
}

/// CPU 0 waits for so long and then makes the map grow by all keys that aren't there; it says what
/// that took, twice. Each other CPU looks up keys that are there: for so long, and then while CPU 0
/// adds keys; it reports both.
pub fn grow_or_look<R: Wait + Clock>(
    rt: &R,
    table: &HopTable,
    port: HopPort,
    plan: Plan,
) -> io::Result<[Timing; 2]>
    requires new { IsNewPort table.now port }
{
    let mut port = port;
    let most = plan.milliseconds.wrapping_mul(1_000_000);
    let first = plan.first_keys();
    if port.cpu() == 0 {
        wait_for(rt, most.wrapping_add(5_000_000))?;
        let grown = put_all(rt, table, &mut port, plan, first, 1)?;
        return Ok([grown, grown]);
    }
    let last = plan.keys.wrapping_sub(1);
    let before = look_until(rt, table, &mut port, plan, most, last)?;
    wait_for_key(rt, table, &mut port, plan, first, 1_000_000_000)?;
    let during = look_until(rt, table, &mut port, plan, 1_000_000_000, last)?;
    Ok([before, during])
}
