//! What one thread does: it fills its part of the map, and then makes calls and times them.
ghost use Rattle.std.specs.Prelude.{◌≡◌, true};
ghost use Rattle.hop_words.specs.Trial.{IsTrial};
ghost use Rattle.hop_map.specs.Port.{IsPortOf, runs};
ghost use Rattle.hop_bench.specs.Trial.{IsNewPort};

use crate::calls::{Draw, Tally, call, put_growing};
use crate::plan::{Plan, key_of};
use hop_map::HopPort;
use hop_words::HopTable;
use std::io;
use std::sync::Wait;
use std::time::{Clock, Instant};

/// A thread's calls, those refused for want of an element, and the time that they took.
#[derive(Clone, Copy)]
pub struct Timing {
    pub calls: u64,
    pub refused: u64,
    pub found: u64,
    pub nanoseconds: u64,
}

// Puts a part of the keys that are to be there.
fn put_part<R: Wait>(rt: &R, table: &HopTable, port: &mut HopPort, plan: Plan)
    requires fits { IsPortOf table.now port.old }
    requires trial { IsTrial table.now.about }
    requires in_run { runs port.old ≡ true }
    ensures fits { IsPortOf table.now port.new }
    ensures in_run { runs port.new ≡ true }
{
    let thread = u64::from(port.cpu());
    'keys: for number in 0..plan.keys {
        if number % plan.threads.max(1) == thread && plan.is_there(number) {
            put_growing(rt, table, port, &key_of(number), plan.grows());
        }
    }
}

/// Fills a part of the map.
pub fn fill<R: Wait>(rt: &R, table: &HopTable, port: HopPort, plan: Plan) -> HopPort
    requires new { IsNewPort table.now port }
    ensures new { IsNewPort table.now result }
{
    let mut port = port;
    if port.begin(table).is_ok() {
        put_part(rt, table, &mut port, plan);
        port.end(table);
    }
    port
}

// The 64 bits after these (Marsaglia, "Xorshift RNGs").
#[inline]
fn next(bits: u64) -> u64 {
    let a = bits ^ bits << 13;
    let b = a ^ a >> 7;
    b ^ b << 17
}

// Makes n calls in one run, and answers the last bits drawn.
#[inline(always)]
pub(crate) fn make_run<R: Wait>(
    rt: &R,
    table: &HopTable,
    port: &mut HopPort,
    plan: Plan,
    draw: Draw,
    tally: &mut Tally,
) -> u64
    requires new { IsNewPort table.now port.old }
    ensures new { IsNewPort table.now port.new }
{
    let Draw { keys, mut bits } = draw;
    if port.begin(table).is_err() {
        return bits;
    }
    'calls: for _call in 0..plan.run {
        bits = next(bits);
        call(rt, table, port, plan.mix, Draw { keys, bits }, tally);
    }
    port.end(table);
    bits
}

/// Makes calls until the time is over, and looks at the clock after some 1,024 of them.
pub fn work<R: Wait + Clock>(
    rt: &R,
    table: &HopTable,
    port: HopPort,
    plan: Plan,
) -> io::Result<Timing>
    requires new { IsNewPort table.now port }
{
    let mut port = port;
    let thread = u64::from(port.cpu());
    let keys = plan.keys_of(thread);
    let runs_a_look = (1_024 / plan.run.max(1)).max(1);
    let mut tally = Tally {
        refused: 0,
        found: 0,
    };
    let mut bits = next(thread.wrapping_add(1).wrapping_mul(0x2545_f491_4f6c_dd1d));
    let start = Instant::now(rt)?;
    let mut calls = 0u64;
    let mut nanoseconds = 0;
    'looks: for _look in 0..u64::MAX {
        'all: for _run in 0..runs_a_look {
            bits = make_run(rt, table, &mut port, plan, Draw { keys, bits }, &mut tally);
        }
        calls = calls.wrapping_add(runs_a_look.wrapping_mul(plan.run));
        nanoseconds = u64::try_from(start.elapsed(rt)?.as_nanos()).unwrap_or(u64::MAX);
        if calls >= plan.most || nanoseconds / 1_000_000 >= plan.milliseconds {
            break;
        }
    }
    Ok(Timing {
        calls,
        refused: tally.refused,
        found: tally.found,
        nanoseconds,
    })
}
