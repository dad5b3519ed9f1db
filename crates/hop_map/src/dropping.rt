//! A key is taken out of a map, under the lock of its segment.
ghost use Rattle.std.specs.Prelude.{◌≡◌, ◌<◌, ◌+◌, ◌^◌};
ghost use Rattle.bpf_shared.specs.Shape.{elements as elements_of};
ghost use Rattle.hop_layout.specs.Home.{home_of};
ghost use Rattle.hop_words.specs.Ghost.{shape_at};
ghost use Rattle.hop_words.specs.Locking.{lock_of};
ghost use Rattle.hop_seg.specs.Spots.{IsSpot};
ghost use Rattle.hop_map.specs.Private.LockedSegment.{seen_words as seen};
ghost use Rattle.hop_map.specs.Private.UnderLock.{LockShows};
ghost use Rattle.hop_map.specs.Noting.{BusyFirst};
ghost use Rattle.hop_map.specs.Private.Removals.{NamesKey, Dropped, DeleteEnds, answer_to};

use crate::judging::WORN;
use crate::locked::{KeyLock, LockedWords};
use bpf_shared::MapAnswer;
use hop_seg::{Spot, locate, remove_at};
use hop_words::Lane;

/// What became of a key that was to be taken out.
pub(crate) enum Deletion {
    /// It had this element, which is in hand from now on.
    Gone(u32),
    /// It wasn't there.
    Missing,
    /// The segment can't change any more.
    Worn,
}

/// Takes out a key where it was found, and gives the lock back. Answers the key's element, which is
/// in hand from now on.
pub(crate) fn drop_key<'a>(
    words: LockedWords<'a>,
    expected: &mut u64,
    lock: KeyLock,
    found: Spot,
    key: &[u8],
) -> (Lane, u32)
    requires contents { LockShows words.about words.known words.map words.segment }
    requires names { NamesKey words.about words.known words.map words.segment key.now }
    requires home { lock.home ≡ home_of key.now words.about.seed
        (shape_at words.about words.map).mask }
    requires stamp { lock.stamp ≡ (lock_of words.known).stamp }
    requires fits { lock.stamp + 256 < 2 ^ 64 }
    requires there { IsSpot (seen words) key.now found }
    ensures table { result.0.table ≡ words.entry.table }
    ensures inside { result.1 < elements_of (shape_at words.entry.about words.entry.map) }
    ensures dropped { Dropped words.entry.about words.entry.known words.entry.map
        key.now result.1 result.0.known }
{
    let mut words = words;
    let element = remove_at(&mut words, found, key, lock.home);
    (
        words.unlock_removed(expected, lock.stamp, key, element),
        element,
    )
}

/// Takes out a key, if the segment has it, and gives the lock back.
pub(crate) fn delete_key<'a>(
    words: LockedWords<'a>,
    expected: &mut u64,
    lock: KeyLock,
    key: &[u8],
) -> (Lane, Deletion)
    requires contents { LockShows words.about words.known words.map words.segment }
    requires names { NamesKey words.about words.known words.map words.segment key.now }
    requires home { lock.home ≡ home_of key.now words.about.seed
        (shape_at words.about words.map).mask }
    requires stamp { lock.stamp ≡ (lock_of words.known).stamp }
    ensures table { result.0.table ≡ words.entry.table }
    ensures ends { DeleteEnds words.entry.about words.entry.known words.entry.map
        key.now result.1 result.0.known }
    ensures order { BusyFirst lock.stamp (answer_to result.1) }
{
    let mut words = words;
    if lock.stamp >= WORN {
        return (
            words.unlock_delete(lock.stamp, key, MapAnswer::Busy),
            Deletion::Worn,
        );
    }
    match locate(&mut words, key, lock.home) {
        None => (
            words.unlock_delete(lock.stamp, key, MapAnswer::Absent),
            Deletion::Missing,
        ),
        Some(found) => {
            let (lane, element) = drop_key(words, expected, lock, found, key);
            (lane, Deletion::Gone(element))
        }
    }
}
