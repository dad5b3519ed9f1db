//! Lookups.
ghost use Rattle.std.specs.Prelude.{◌≡◌, ◌≢◌, ◌<◌, ◌%◌, true, length, []};
ghost use Rattle.hop_words.specs.declared.known.Known.{Known};
ghost use Rattle.hop_layout.specs.Home.{home_of};
ghost use Rattle.hop_words.specs.Content.{item};
ghost use Rattle.hop_words.specs.Ghost.{shape_at};
ghost use Rattle.hop_words.specs.Kinds.{LookedUp, found_span};
ghost use Rattle.hop_words.specs.Locking.{lock_of};
ghost use Rattle.hop_map.specs.Private.UnderLock.{LockShows};
ghost use Rattle.hop_map.specs.Finding.{AsksForKey, Looked, OnceEnds, TakesLock, Disturbs, LooksAtMost, most_loads, home_in};
ghost use Rattle.hop_map.specs.Private.Finding.{AsksHere, IsHomed, Approaching, Walked, ReadsFound, TryEnds, SeesDisturbances, LooksUp};
ghost use Rattle.hop_words.specs.Depths.{stamp_depth};

use crate::counts::MapCounts;
use crate::homing::{KeyHome, homed, homing, shape_of};
use crate::locked::{KeyLock, LockedWords};
use crate::numbers::{item, link_word};
use crate::once::Once;
use crate::peeked::PeekedWords;
use crate::waiting::lock_home;
use bpf_shared::{FIRST_VALUE, MAP_AREA, Span};
use hop_seg::find;
use hop_words::{HopTable, Lane, Stamped, Way, towards};
use std::sync::Wait;

/// Where the value of an element lies, if there is one.
pub(crate) fn span_of(table: &HopTable, map: u8, found: Option<u32>) -> Option<Span>
    requires map { map < length table.now.about.shape.maps }
    ensures { result ≡ found_span table.now.about map found }
{
    let element = found?;
    let size = shape_of(table, map).value;
    // `div_ceil` would test the remainder.
    let stride = (size + 7) / 8 * 8;
    Some(Span {
        at: FIRST_VALUE + MAP_AREA * u64::from(map) + u64::from(element) * stride,
        size,
    })
}

/// Finds a key, and gives the lock back: with that the lookup is answered.
pub(crate) fn find_here<'a>(
    words: LockedWords<'a>,
    lock: KeyLock,
    key: &[u8],
) -> (Lane, Option<u32>)
    requires contents { LockShows words.about words.known words.map words.segment }
    requires asks { AsksHere words.about words.known words.map words.segment
        (stamp_depth (lock_of words.known).stamp) key.now }
    requires home { lock.home ≡ home_of key.now words.about.seed
        (shape_at words.about words.map).mask }
    requires stamp { lock.stamp ≡ (lock_of words.known).stamp }
    ensures table { result.0.table ≡ words.entry.table }
    ensures found { let l = words.entry.known in
        LookedUp words.entry.about l (lock_of l) key.now result.1 result.0.known }
{
    let mut words = words;
    let found = find(&mut words, key, lock.home);
    (words.unlock_lookup(lock.stamp, key, found), found)
}

// The key's element, found under the lock of the key's segment. The CPU waits for it.
fn locate_locked<R: Wait>(
    rt: &R,
    table: &HopTable,
    lane: Lane,
    map: u8,
    key: &[u8],
) -> (Lane, Option<u32>)
    requires table { lane.table ≡ table.now.id }
    requires asks { AsksForKey table.now.about lane.known map key.now }
    ensures table { result.0.table ≡ table.now.id }
    ensures found { Looked table.now.about lane.known map key.now
        (found_span table.now.about map result.1) result.0.known }
    ensures readings { result.0.known.readings ≡ [] }
    ensures locked { TakesLock table.now.about lane.known map key.now result.0.known }
{
    let at = homing(table, map, key);
    let mut lane = lane;
    let taken = lock_home(rt, table, &mut lane, map, at.home);
    let words = LockedWords::new(table, lane, map, taken.segment, at.key_size, at.elements);
    let lock = KeyLock {
        home: at.home,
        stamp: taken.stamp,
    };
    find_here(words, lock, key)
}

/// Where the key's value lies, found under the lock of the key's segment. The CPU waits for it.
pub fn find_locked<R: Wait>(
    rt: &R,
    table: &HopTable,
    lane: Lane,
    map: u8,
    key: &[u8],
) -> (Lane, Option<Span>)
    requires table { lane.table ≡ table.now.id }
    requires asks { AsksForKey table.now.about lane.known map key.now }
    ensures table { result.0.table ≡ table.now.id }
    ensures found { Looked table.now.about lane.known map key.now result.1 result.0.known }
    ensures readings { result.0.known.readings ≡ [] }
    ensures locked { TakesLock table.now.about lane.known map key.now result.0.known }
{
    let (lane, found) = locate_locked(rt, table, lane, map, key);
    (lane, span_of(table, map, found))
}

// The depth in a stamp.
#[inline(always)]
fn depth_of(stamp: u64) -> u32
    ensures { result ≡ stamp_depth stamp }
{
    (stamp / 2 % 32) as u32
}

/// The way of a home in a map, as far as the segment that is being read, and that one's stamp.
#[derive(Clone, Copy)]
pub(crate) struct Approach {
    pub(crate) map: u8,
    pub(crate) home: u32,
    pub(crate) way: Way,
    pub(crate) stamp: u64,
}

// From a segment on the way of a home that is being read to the one that the home belongs to, which
// is read then. Answers it and its stamp, or the first on the way whose stamp is locked.
#[inline(never)]
fn walk(table: &HopTable, lane: Lane, from: Approach) -> (Lane, u32, u64)
    requires table { lane.table ≡ table.now.id }
    requires map { from.map < length table.now.about.shape.maps }
    requires idle { lane.known.locks ≡ [] }
    requires grows { (shape_at table.now.about from.map).grow ≡ true }
    requires begins { (l : Known) × Approaching table.now.about l from.map from.home from.way
        from.stamp [] lane.known }
    ensures table { result.0.table ≡ table.now.id }
    ensures walked { (l : Known) → Approaching table.now.about l from.map from.home from.way
        from.stamp [] lane.known
        → Walked table.now.about l from.map from.home result.1 result.2 result.0.known }
{
    let mut lane = lane;
    let Approach { map, home, .. } = from;
    let mut way = from.way;
    let mut stamp = from.stamp;
    'way: for _level in 0..11u32 {
        let Some(next) = towards(home, way, depth_of(stamp)) else {
            return (lane, way.segment, stamp);
        };
        way = next;
        stamp = lane.see_stamp(table, map, way.segment);
        if stamp % 2 == 1 {
            return (lane, way.segment, stamp);
        }
    }
    unreachable!()
}

/// What a reading of a segment came to: the key's element, if its words show one, and the stamp that
/// was seen last.
#[derive(Clone, Copy)]
pub(crate) struct SegmentRead {
    pub(crate) found: Option<u32>,
    pub(crate) last: u64,
}

// From the first stamp of the key's segment, which was unlocked, to its last: where that is the same
// stamp, the lookup is answered.
#[inline(always)]
fn read_segment(
    table: &HopTable,
    lane: Lane,
    from: Stamped,
    at: KeyHome,
    key: &[u8],
) -> (Lane, SegmentRead)
    requires table { lane.table ≡ table.now.id }
    requires homed { IsHomed table.now.about from.map key.now at }
    requires even { from.stamp % 2 ≡ 0 }
    requires begins { (l : Known) × AsksForKey table.now.about l from.map key.now
        × Walked table.now.about l from.map at.home from.segment from.stamp lane.known }
    ensures table { result.0.table ≡ table.now.id }
    ensures same { (l : Known) → AsksForKey table.now.about l from.map key.now
        → Walked table.now.about l from.map at.home from.segment from.stamp lane.known
        → result.1.last ≡ from.stamp
        → ReadsFound table.now.about l from.map key.now result.1.found result.0.known }
    ensures other { (l : Known) → AsksForKey table.now.about l from.map key.now
        → Walked table.now.about l from.map at.home from.segment from.stamp lane.known
        → result.1.last ≢ from.stamp
        → Disturbs table.now.about l from.map key.now from.stamp result.1.last result.0.known }
    ensures loads { (l : Known) → AsksForKey table.now.about l from.map key.now
        → Walked table.now.about l from.map at.home from.segment from.stamp lane.known
        → LooksAtMost (most_loads table.now.about from.map) l result.0.known }
{
    let Stamped { map, segment, .. } = from;
    let mut words = PeekedWords::new(table, lane, map, segment, at.key_size, at.elements);
    let found = find(&mut words, key, at.home);
    let (lane, last) = words.see_again(key, found);
    (lane, SegmentRead { found, last })
}

/// What one reading came to: the key's element, if there is one; or, where it was disturbed, the
/// stamp as it was read first and last.
#[derive(Clone, Copy)]
pub(crate) enum Tried {
    Read(Option<u32>),
    Disturbed(u64, u64),
}

// A reading from the first segment on, which isn't the key's: only in a map that grows are there
// others on the way. It is out of line, so that a map that doesn't grow doesn't pay.
#[inline(never)]
fn try_on_way(table: &HopTable, lane: Lane, from: Approach, key: &[u8]) -> (Lane, Tried)
    requires table { lane.table ≡ table.now.id }
    requires map { from.map < length table.now.about.shape.maps }
    requires home { from.home ≡ home_in table.now.about from.map key.now }
    requires grows { (shape_at table.now.about from.map).grow ≡ true }
    requires begins { (l : Known) × AsksForKey table.now.about l from.map key.now
        × Approaching table.now.about l from.map from.home from.way from.stamp [] lane.known }
    ensures table { result.0.table ≡ table.now.id }
    ensures ends { (l : Known) → AsksForKey table.now.about l from.map key.now
        → Approaching table.now.about l from.map from.home from.way from.stamp [] lane.known
        → TryEnds table.now.about l from.map key.now result.1 result.0.known }
    ensures loads { (l : Known) → AsksForKey table.now.about l from.map key.now
        → Approaching table.now.about l from.map from.home from.way from.stamp [] lane.known
        → LooksAtMost (most_loads table.now.about from.map) l result.0.known }
{
    let at = homed(table, from.map, from.home);
    let (lane, segment, stamp) = walk(table, lane, from);
    if stamp % 2 == 1 {
        return (lane, Tried::Disturbed(stamp, stamp));
    }
    let reached = Stamped {
        map: from.map,
        segment,
        stamp,
    };
    let (lane, read) = read_segment(table, lane, reached, at, key);
    if read.last != stamp {
        return (lane, Tried::Disturbed(stamp, read.last));
    }
    (lane, Tried::Read(read.found))
}

// One reading.
fn try_once(table: &HopTable, lane: Lane, map: u8, key: &[u8]) -> (Lane, Tried)
    requires table { lane.table ≡ table.now.id }
    requires asks { AsksForKey table.now.about lane.known map key.now }
    ensures table { result.0.table ≡ table.now.id }
    ensures ends { TryEnds table.now.about lane.known map key.now result.1 result.0.known }
    ensures loads { LooksAtMost (most_loads table.now.about map) lane.known result.0.known }
{
    let mut lane = lane;
    let at = homing(table, map, key);
    let way = table.first_way(map, at.home);
    let first = lane.see_stamp(table, map, way.segment);
    // Unlocked, and of this depth: the segment is the key's.
    if first % 64 == 2 * u64::from(way.level) {
        let from = Stamped {
            map,
            segment: way.segment,
            stamp: first,
        };
        let (lane, read) = read_segment(table, lane, from, at, key);
        if read.last != first {
            return (lane, Tried::Disturbed(first, read.last));
        }
        return (lane, Tried::Read(read.found));
    }
    if first % 2 == 1 {
        return (lane, Tried::Disturbed(first, first));
    }
    let from = Approach {
        map,
        home: at.home,
        way,
        stamp: first,
    };
    try_on_way(table, lane, from, key)
}

/// Where the key's value lies, by one reading of the key's segment, which takes no lock and writes
/// no word. Where the segment's stamp was locked or is another by the end, it answers nothing but
/// that. It loads at most `most_loads` words: each load is noted.
pub fn find_once(table: &HopTable, lane: Lane, map: u8, key: &[u8]) -> (Lane, Once)
    requires table { lane.table ≡ table.now.id }
    requires asks { AsksForKey table.now.about lane.known map key.now }
    ensures table { result.0.table ≡ table.now.id }
    ensures ends { OnceEnds table.now.about lane.known map key.now result.1 result.0.known }
    ensures loads { LooksAtMost (most_loads table.now.about map) lane.known result.0.known }
{
    let (lane, tried) = try_once(table, lane, map, key);
    match tried {
        Tried::Read(found) => match span_of(table, map, found) {
            Some(span) => (lane, Once::Found(span)),
            None => (lane, Once::Absent),
        },
        Tried::Disturbed(first, last) => (lane, Once::Disturbed(first, last)),
    }
}

// Further readings of a lookup, after one that was disturbed: up to seven. Where each of them was
// too, the CPU waits for the lock. It is rare, and so is out of line. Answers the word that
// leads to the element, which goes by a register.
#[cold]
fn look_again<R: Wait>(
    rt: &R,
    table: &HopTable,
    lane: Lane,
    counts: &mut MapCounts,
    map: u8,
    key: &[u8],
) -> (Lane, u64)
    requires table { lane.table ≡ table.now.id }
    requires begins { (l : Known) × AsksForKey table.now.about l map key.now
        × SeesDisturbances table.now.about l map key.now 1 lane.known }
    ensures table { result.0.table ≡ table.now.id }
    ensures found { (l : Known) → AsksForKey table.now.about l map key.now
        → SeesDisturbances table.now.about l map key.now 1 lane.known
        → LooksUp table.now.about l map key.now (item result.1) result.0.known }
{
    let mut lane = lane;
    counts.disturbed(map);
    'tries: for _tried in 1..8u32 {
        let (after, tried) = try_once(table, lane, map, key);
        lane = after;
        match tried {
            Tried::Read(found) => return (lane, link_word(found)),
            Tried::Disturbed(_, _) => counts.disturbed(map),
        }
    }
    counts.locked(map);
    let (lane, found) = locate_locked(rt, table, lane, map, key);
    (lane, link_word(found))
}

// A lookup from the first segment on, which isn't the key's, as `try_on_way` and then `look_again`.
#[inline(never)]
fn look_on_way<R: Wait>(
    rt: &R,
    table: &HopTable,
    lane: Lane,
    counts: &mut MapCounts,
    from: Approach,
    key: &[u8],
) -> (Lane, u64)
    requires table { lane.table ≡ table.now.id }
    requires map { from.map < length table.now.about.shape.maps }
    requires home { from.home ≡ home_in table.now.about from.map key.now }
    requires grows { (shape_at table.now.about from.map).grow ≡ true }
    requires begins { (l : Known) × AsksForKey table.now.about l from.map key.now
        × Approaching table.now.about l from.map from.home from.way from.stamp [] lane.known }
    ensures table { result.0.table ≡ table.now.id }
    ensures found { (l : Known) → AsksForKey table.now.about l from.map key.now
        → Approaching table.now.about l from.map from.home from.way from.stamp [] lane.known
        → LooksUp table.now.about l from.map key.now (item result.1) result.0.known }
{
    let (lane, tried) = try_on_way(table, lane, from, key);
    match tried {
        Tried::Read(found) => (lane, link_word(found)),
        Tried::Disturbed(_, _) => look_again(rt, table, lane, counts, from.map, key),
    }
}

/// The key's element, if there is one. Up to eight readings take no lock; where each was disturbed,
/// the CPU waits for the lock. The counts have both.
#[inline(always)]
pub(crate) fn locate<R: Wait>(
    rt: &R,
    table: &HopTable,
    lane: Lane,
    counts: &mut MapCounts,
    map: u8,
    key: &[u8],
) -> (Lane, Option<u32>)
    requires table { lane.table ≡ table.now.id }
    requires asks { AsksForKey table.now.about lane.known map key.now }
    ensures table { result.0.table ≡ table.now.id }
    ensures found { LooksUp table.now.about lane.known map key.now result.1 result.0.known }
{
    let mut lane = lane;
    let at = homing(table, map, key);
    let way = table.first_way(map, at.home);
    let first = lane.see_stamp(table, map, way.segment);
    // As in `try_once`; what is rare is called.
    if first % 64 == 2 * u64::from(way.level) {
        let from = Stamped {
            map,
            segment: way.segment,
            stamp: first,
        };
        let (lane, read) = read_segment(table, lane, from, at, key);
        if read.last == first {
            return (lane, read.found);
        }
        let (lane, word) = look_again(rt, table, lane, counts, map, key);
        return (lane, item(word));
    }
    if first % 2 == 1 {
        let (lane, word) = look_again(rt, table, lane, counts, map, key);
        return (lane, item(word));
    }
    let from = Approach {
        map,
        home: at.home,
        way,
        stamp: first,
    };
    let (lane, word) = look_on_way(rt, table, lane, counts, from, key);
    (lane, item(word))
}
