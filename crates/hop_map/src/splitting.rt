//! A segment of a map splits, while other CPUs call the map.
ghost use Rattle.std.specs.Prelude.{◌≡◌, ◌<◌, ◌≤◌, ◌+◌, ◌^◌, ◌%◌, ◌/◌, false, [], length};
ghost use Rattle.hop_layout.specs.Layout.{depth as depth_of, power};
ghost use Rattle.hop_words.specs.Depths.{stamp_depth};
ghost use Rattle.hop_words.specs.Ghost.{shape_at};
ghost use Rattle.hop_words.specs.Kinds.{unlocking};
ghost use Rattle.hop_words.specs.Locking.{lock_of};
ghost use Rattle.hop_words.specs.Sights.{sighted, split_made};
ghost use Rattle.hop_map.specs.Splitting.{SplitEnds};
ghost use Rattle.hop_map.specs.Private.UnderLock.{LockShows};
ghost use Rattle.hop_map.specs.Private.Splitting.{EndsUnderLock};

use crate::growth::Growth;
use crate::homing::shape_of;
use crate::judging::WORN;
use crate::locked::LockedWords;
use crate::pair::SplitWords;
use crate::waiting::lock_home;
use hop_layout::{depth as depth_for, elements};
use hop_seg::split;
use hop_words::{HopTable, Lane};
use std::sync::Wait;

// Splits the locked segment, and gives the lock back: from then on its child is born.
fn divide<'a>(words: LockedWords<'a>, stamp: u64, depth: u32) -> Lane
    requires contents { LockShows words.about words.known words.map words.segment }
    requires stamp { stamp ≡ (lock_of words.known).stamp }
    requires fits { stamp + 258 < 2 ^ 64 }
    requires depth { depth ≡ stamp_depth stamp }
    requires room { words.segment < power depth }
    requires less { depth < depth_of (shape_at words.about words.map) }
    ensures table { result.table ≡ words.entry.table }
    ensures divided { result.known ≡ sighted (unlocking words.entry.known)
        (split_made words.entry.map words.entry.segment stamp) }
{
    let child = words.segment() + (1 << depth);
    let mut pair = SplitWords::new(words, child);
    pair.clear();
    split(&mut pair, depth);
    pair.publish(stamp, depth)
}

// Splits the locked segment, if its depth and its version let it, and gives the lock back.
fn split_locked<'a>(words: LockedWords<'a>, stamp: u64) -> (Lane, Growth)
    requires contents { LockShows words.about words.known words.map words.segment }
    requires stamp { stamp ≡ (lock_of words.known).stamp }
    requires even { stamp % 2 ≡ 0 }
    requires room { words.segment < power (stamp_depth stamp) }
    requires most { stamp_depth stamp ≤ depth_of (shape_at words.about words.map) }
    ensures table { result.0.table ≡ words.entry.table }
    ensures ends { EndsUnderLock words.entry stamp result.1 result.0.known }
{
    let depth = (stamp / 2 % 32) as u32;
    if depth == depth_for(words.shape().max) {
        return (words.unlock_silent(stamp), Growth::AtDepth);
    }
    if stamp >= WORN {
        return (words.unlock_silent(stamp), Growth::Worn);
    }
    (divide(words, stamp, depth), Growth::Grown)
}

/// Splits the segment that a home belongs to, while other CPUs call the map: the items whose homes
/// have the bit of its depth go over to a new segment. The home of a born segment's own number
/// belongs to that segment.
pub(crate) fn split_segment<R: Wait>(
    rt: &R,
    table: &HopTable,
    lane: Lane,
    map: u8,
    home: u32,
) -> (Lane, Growth)
    requires table { lane.table ≡ table.now.id }
    requires map { map < length table.now.about.shape.maps }
    requires empty { lane.known.fresh ≡ [] }
    requires idle { lane.known.locks ≡ [] }
    ensures table { result.0.table ≡ table.now.id }
    ensures ends { SplitEnds table.now.about lane.known map home result.1 result.0.known }
{
    let mut lane = lane;
    let shape = shape_of(table, map);
    let taken = lock_home(rt, table, &mut lane, map, home);
    let words = LockedWords::new(
        table,
        lane,
        map,
        taken.segment,
        shape.key as usize,
        elements(&shape),
    );
    split_locked(words, taken.stamp)
}
