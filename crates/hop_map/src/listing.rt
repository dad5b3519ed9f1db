//! A map's keys, listed as one step: the segments are locked one after the other and read, and
//! where all are locked the first unlock is the listing.
ghost use Rattle.std.specs.Prelude.{◌≡◌, ◌<◌, ◌≤◌, ◌+◌, ◌*◌, ◌++◌, ◌∷◌, [], length, take, IsTrue, IsFalse};
ghost use Rattle.bpf_base.specs.Bytes.{low_bytes};
ghost use Rattle.hop_words.specs.Ghost.{HasElement, IsSegment, shape_at};
ghost use Rattle.hop_words.specs.Kinds.{MayLink};
ghost use Rattle.hop_words.specs.Listing.{lock_given};
ghost use Rattle.hop_words.specs.Locking.{lock_of, other_locks, unlocking_last, HasLastLock};
ghost use Rattle.hop_words.specs.Sights.{sighted};
ghost use Rattle.hop_layout.specs.Layout.{segments};
ghost use Rattle.hop_words.specs.Rule.{image};
ghost use Rattle.hop_map.specs.Private.Listing.{Gathers, Covers, NotesLock, LocksMore, ReadsMore, Adds, Listed, Opens, Part, StandsBelow};
ghost use Rattle.hop_map.specs.Private.LockedSegment.{spelled_key};

use crate::homing::shape_of;
use crate::numbers::item;
use crate::waiting::{lock_number, seek};
use crate::words::{head_place, link_place, slot_place};
use bpf_shared::KeyList;
use hop_layout::{Place, segments as segment_count};
use hop_words::{HopTable, Lane, Stamped};
use std::sync::Wait;

// The bytes of a word, the lowest first.
fn bytes_of(number: u64) -> [u8; 8]
    ensures { result ≡ low_bytes 8 number }
{
    number.to_le_bytes()
}

/// Puts a word after the words before it, its lowest byte first.
pub(crate) fn put_word(bytes: &mut [u8], word: usize, number: u64)
    requires fits { 8 * word + 8 ≤ length bytes.old }
    ensures size { length bytes.new ≡ length bytes.old }
    ensures put { take (8 * word + 8) bytes.new ≡ take (8 * word) bytes.old ++ low_bytes 8 number }
{
    bytes[8 * word..8 * word + 8].copy_from_slice(&bytes_of(number));
}

// Adds the key of an element that is linked in the segment that was locked last.
fn add_key(table: &HopTable, lane: &mut Lane, map: u8, element: u32, list: &mut KeyList)
    requires table { lane.old.table ≡ table.now.id }
    requires element { HasElement table.now.about map element }
    requires list { list.old.shape ≡ shape_at table.now.about map }
    requires held { lane.old.known.locks ≡ lock_of lane.old.known ∷ other_locks lane.old.known }
    requires map { (lock_of lane.old.known).map ≡ map }
    requires linked { MayLink table.now.about lane.old.known (lock_of lane.old.known) element }
    requires room { length list.old.keys < (shape_at table.now.about map).max }
    ensures table { lane.new.table ≡ lane.old.table }
    ensures known { lane.new.known ≡ lane.old.known }
    ensures list { list.new.shape ≡ list.old.shape }
    ensures key { list.new.keys ≡ list.old.keys ++ spelled_key table.now.about map
        (image table.now.about (lock_of lane.old.known).copy) element ∷ [] }
{
    let size = shape_of(table, map).key as usize;
    let mut bytes = [0u8; 64];
    'words: for word in 0..size.div_ceil(8) {
        let place = Place::KeyWord {
            map,
            element,
            word: word as u32,
        };
        put_word(&mut bytes, word, lane.read_guarded(table, place));
    }
    list.add(&bytes[..size]);
}

// Adds the keys of the elements at the places.
fn add_placed(table: &HopTable, lane: &mut Lane, map: u8, segment: u32, list: &mut KeyList)
    requires table { lane.old.table ≡ table.now.id }
    requires inside { IsSegment table.now.about map segment }
    requires list { list.old.shape ≡ shape_at table.now.about map }
    requires opens { Opens table.now.about lane.old.known map segment list.old.keys }
    ensures table { lane.new.table ≡ lane.old.table }
    ensures known { lane.new.known ≡ lane.old.known }
    ensures list { list.new.shape ≡ list.old.shape }
    ensures part { Part table.now.about lane.old.known map segment list.old.keys list.new.keys
        (StandsBelow table.now.about lane.old.known map segment 64) }
{
    'places: for place in 0..64 {
        let Some(element) = item(lane.read_guarded(table, slot_place(map, segment, place))) else {
            continue;
        };
        add_key(table, lane, map, element, list);
    }
}

// Adds the keys of the segment that was locked last.
fn add_segment(table: &HopTable, lane: &mut Lane, map: u8, segment: u32, list: &mut KeyList)
    requires table { lane.old.table ≡ table.now.id }
    requires inside { IsSegment table.now.about map segment }
    requires list { list.old.shape ≡ shape_at table.now.about map }
    requires opens { Opens table.now.about lane.old.known map segment list.old.keys }
    ensures table { lane.new.table ≡ lane.old.table }
    ensures known { lane.new.known ≡ lane.old.known }
    ensures list { list.new.shape ≡ list.old.shape }
    ensures adds { Adds table.now.about lane.old.known map list.old.keys list.new.keys }
{
    add_placed(table, lane, map, segment, list);
    let most = shape_of(table, map).max;
    let mut at = item(lane.read_guarded(table, head_place(map, segment)));
    'list: for _passed in 0..most {
        let Some(element) = at else {
            return;
        };
        add_key(table, lane, map, element, list);
        at = item(lane.read_guarded(table, link_place(map, element)));
    }
}

// Locks a segment as soon as nobody else has its lock, after those with lower numbers, and adds
// its keys to the list. One that isn't born it leaves.
fn list_segment<R: Wait>(
    rt: &R,
    table: &HopTable,
    lane: &mut Lane,
    map: u8,
    segment: u32,
    list: &mut KeyList,
)
    requires table { lane.old.table ≡ table.now.id }
    requires inside { IsSegment table.now.about map segment }
    requires list { list.old.shape ≡ shape_at table.now.about map }
    requires gathers { Gathers table.now.about lane.old.known map segment list.old.keys }
    ensures table { lane.new.table ≡ lane.old.table }
    ensures list { list.new.shape ≡ list.old.shape }
    ensures locks { LocksMore lane.old.known lane.new.known }
    ensures noted { NotesLock table.now.about map segment lane.old.known lane.new.known }
    ensures gathers { Gathers table.now.about lane.new.known map (segment + 1) list.new.keys }
{
    if lock_number(rt, table, lane, map, segment) {
        add_segment(table, lane, map, segment, list);
    }
}

// Whether the segment of this number is locked, where none above it is any more.
fn has_lock<R: Wait>(rt: &R, table: &HopTable, lane: &mut Lane, map: u8, segment: u32) -> bool
    requires table { lane.old.table ≡ table.now.id }
    requires inside { IsSegment table.now.about map segment }
    requires covers { Covers table.now.about map (segment + 1) lane.old.known.locks }
    ensures table { lane.new.table ≡ lane.old.table }
    ensures kept { ReadsMore lane.old.known lane.new.known }
    ensures last { IsTrue result → HasLastLock lane.new.known map segment }
    ensures none { IsFalse result → Covers table.now.about map segment lane.new.known.locks }
{
    seek(rt, table, lane, map, segment).segment == segment
}

// The highest number of a locked segment.
fn find_last<R: Wait>(rt: &R, table: &HopTable, lane: &mut Lane, map: u8, count: u32) -> u32
    requires table { lane.old.table ≡ table.now.id }
    requires map { map < length table.now.about.shape.maps }
    requires some { 0 < count }
    requires count { count ≤ segments (shape_at table.now.about map) }
    requires covers { Covers table.now.about map count lane.old.known.locks }
    ensures table { lane.new.table ≡ lane.old.table }
    ensures kept { ReadsMore lane.old.known lane.new.known }
    ensures inside { IsSegment table.now.about map result }
    ensures last { HasLastLock lane.new.known map result }
    ensures covers { Covers table.now.about map (result + 1) lane.new.known.locks }
{
    'down: for passed in 0..count {
        let segment = count - 1 - passed;
        if has_lock(rt, table, lane, map, segment) {
            return segment;
        }
    }
    unreachable!()
}

// Gives the lock back that was taken last, at the stamp that it was taken at.
fn unlock_last(table: &HopTable, lane: &mut Lane, map: u8, segment: u32)
    requires table { lane.old.table ≡ table.now.id }
    requires inside { IsSegment table.now.about map segment }
    requires last { HasLastLock lane.old.known map segment }
    requires covers { Covers table.now.about map (segment + 1) lane.old.known.locks }
    ensures table { lane.new.table ≡ lane.old.table }
    ensures given { lane.new.known
        ≡ sighted (unlocking_last lane.old.known) (lock_given (lock_of lane.old.known)) }
    ensures covers { Covers table.now.about map segment lane.new.known.locks }
{
    let stamp = lane.read_locked_stamp(table, map, segment) - 1;
    let at = Stamped {
        map,
        segment,
        stamp,
    };
    lane.unlock_listed(table, at);
}

/// Lists the keys of a map in the order of their bytes. The CPU waits for the locks of the map's
/// segments.
pub(crate) fn list_keys<R: Wait>(
    rt: &R,
    table: &HopTable,
    lane: &mut Lane,
    map: u8,
    list: &mut KeyList,
)
    requires table { lane.old.table ≡ table.now.id }
    requires map { map < length table.now.about.shape.maps }
    requires list { list.old.shape ≡ shape_at table.now.about map }
    requires idle { lane.old.known.locks ≡ [] }
    ensures table { lane.new.table ≡ lane.old.table }
    ensures list { list.new.shape ≡ list.old.shape }
    ensures listed { Listed table.now.about lane.old.known map list.new.keys lane.new.known }
{
    let count = segment_count(&shape_of(table, map));
    list.clear();
    'segments: for segment in 0..count {
        list_segment(rt, table, lane, map, segment, list);
    }
    let last = find_last(rt, table, lane, map, count);
    let stamp = lane.read_locked_stamp(table, map, last) - 1;
    let at = Stamped {
        map,
        segment: last,
        stamp,
    };
    lane.unlock_keys(table, at, list);
    'others: for left in 0..last {
        let segment = last - 1 - left;
        if !has_lock(rt, table, lane, map, segment) {
            continue;
        }
        unlock_last(table, lane, map, segment);
    }
    list.sort();
}
