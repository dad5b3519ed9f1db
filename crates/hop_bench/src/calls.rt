//! One call of a port.
ghost use Rattle.std.specs.Prelude.{◌≡◌, ◌≤◌, ◌%◌, true, IfSome};
ghost use Rattle.hop_words.specs.Trial.{IsTrial};
ghost use Rattle.hop_map.specs.Port.{IsPortOf, runs};

use crate::plan::{Keys, Mix, key_of};
use bpf_shared::{AtomicOp, MapAnswer, Size, Span, ValuePlace};
use hop_map::HopPort;
use hop_words::{HopTable, Request};
use std::sync::Wait;

// Where the value's first word lies, if it is a whole one.
#[inline]
fn word_in(span: Span) -> Option<ValuePlace>
    ensures { IfSome result (λ p. (p.at ≡ span.at) × (8 ≤ span.size) × (p.at % 8 ≡ 0)) }
{
    if span.size >= 8 && span.at % 8 == 0 {
        Some(ValuePlace { at: span.at })
    } else {
        None
    }
}

/// Looks a key up, and reads its value or adds to it. One place looks up for both, so that a call is
/// small enough to be in line in a run.
#[inline(always)]
fn look<R: Wait>(rt: &R, table: &HopTable, port: &mut HopPort, key: &[u8; 8], adds: bool) -> u64
    requires fits { IsPortOf table.now port.old }
    requires trial { IsTrial table.now.about }
    requires in_run { runs port.old ≡ true }
    ensures fits { IsPortOf table.now port.new }
    ensures in_run { runs port.new ≡ true }
{
    let Some(span) = port.lookup(rt, table, 0, key) else {
        return 0;
    };
    match word_in(span) {
        Some(at) if adds => port.atomic_word(table, at, AtomicOp::Add, 1, 0),
        Some(at) => port.value_load(table, at, Size::Double),
        None => 0,
    }
}

/// Adds or replaces a key. Answers whether no element was to be had.
#[inline]
pub fn put<R: Wait>(rt: &R, table: &HopTable, port: &mut HopPort, key: &[u8; 8]) -> bool
    requires fits { IsPortOf table.now port.old }
    requires trial { IsTrial table.now.about }
    requires in_run { runs port.old ≡ true }
    ensures fits { IsPortOf table.now port.new }
    ensures in_run { runs port.new ≡ true }
{
    let request = Request {
        key,
        value: key,
        flags: 0,
    };
    matches!(port.update(rt, table, 0, &request), MapAnswer::NoMemory)
}

/// Adds or replaces a key, of a map that may grow: after an insertion that went to an overflow list
/// one split is tried, as CPUs of programs do. Answers whether no element was to be had.
pub fn put_growing<R: Wait>(
    rt: &R,
    table: &HopTable,
    port: &mut HopPort,
    key: &[u8; 8],
    grows: bool,
) -> bool
    requires fits { IsPortOf table.now port.old }
    requires trial { IsTrial table.now.about }
    requires in_run { runs port.old ≡ true }
    ensures fits { IsPortOf table.now port.new }
    ensures in_run { runs port.new ≡ true }
{
    let refused = put(rt, table, port, key);
    if grows {
        if let Some(segment) = port.spilled() {
            let _growth = port.split(rt, table, 0, segment);
        }
    }
    refused
}

#[inline(always)]
fn take<R: Wait>(rt: &R, table: &HopTable, port: &mut HopPort, key: &[u8; 8])
    requires fits { IsPortOf table.now port.old }
    requires trial { IsTrial table.now.about }
    requires in_run { runs port.old ≡ true }
    ensures fits { IsPortOf table.now port.new }
    ensures in_run { runs port.new ≡ true }
{
    port.delete(rt, table, 0, key);
}

/// What a thread counts, so that no call is left out for want of use.
#[derive(Clone, Copy)]
pub struct Tally {
    pub refused: u64,
    pub found: u64,
}

/// The keys of which calls draw, and the bits that were drawn last.
#[derive(Clone, Copy)]
pub struct Draw {
    pub keys: Keys,
    pub bits: u64,
}

/// Makes the call that the bits draw.
#[inline(always)]
pub fn call<R: Wait>(
    rt: &R,
    table: &HopTable,
    port: &mut HopPort,
    mix: Mix,
    draw: Draw,
    tally: &mut Tally,
)
    requires fits { IsPortOf table.now port.old }
    requires trial { IsTrial table.now.about }
    requires in_run { runs port.old ≡ true }
    ensures fits { IsPortOf table.now port.new }
    ensures in_run { runs port.new ≡ true }
{
    let Draw { keys, bits } = draw;
    let key = &key_of(keys.number(bits));
    let kind = match mix {
        Mix::Hits | Mix::Misses | Mix::Fill | Mix::Grow | Mix::Growth => 0,
        Mix::Counts => 100,
        Mix::Most => bits % 100,
        Mix::Own | Mix::Shared => 90 + bits % 2 * 9,
    };
    match kind {
        90..=98 => {
            if put(rt, table, port, key) {
                tally.refused = tally.refused.wrapping_add(1);
            }
        }
        99 => take(rt, table, port, key),
        _ => {
            let found = look(rt, table, port, key, kind == 100);
            tally.found = tally.found.wrapping_add(found);
        }
    }
}
