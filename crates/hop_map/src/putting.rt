//! An update under the lock of its key's segment.
ghost use Rattle.std.specs.Prelude.{◌≡◌, ◌≢◌, ◌<◌, ◌+◌, ◌^◌, ℕ, Some, None, IfSome};
ghost use Rattle.hop_layout.specs.Home.{home_of};
ghost use Rattle.hop_words.specs.Ghost.{shape_at};
ghost use Rattle.hop_words.specs.Kinds.{SawAllTaken};
ghost use Rattle.hop_words.specs.Locking.{lock_of};
ghost use Rattle.hop_seg.specs.Content.{IsAbsent};
ghost use Rattle.hop_seg.specs.Spots.{IsSpot};
ghost use Rattle.hop_seg.specs.declared.insertion.Landing.TheVariants.{Neighbourhood, OverflowList};
ghost use Rattle.hop_map.specs.Private.LockedSegment.{seen_words as seen};
ghost use Rattle.hop_map.specs.Private.Replacing.{IsReplacement};
ghost use Rattle.hop_map.specs.Private.UnderLock.{LockShows};
ghost use Rattle.hop_map.specs.Noting.{BusyFirst};
ghost use Rattle.hop_map.specs.Private.Updates.{Wants, Offers, Refusal, UpdateEnds, SpillsTo, answer_of};

use crate::ending::Ending;
use crate::judging::{Finding, judge};
use crate::locked::{KeyLock, LockedWords};
use bpf_shared::MapAnswer;
use hop_seg::{Landing, Spot, insert, replace_at};
use hop_words::{Lane, Request};
use std::sync::Wait;

// The segment, if the element went to its overflow list.
fn spilled_to(landing: Landing, segment: u32) -> Option<u32>
    ensures near { landing ≡ Neighbourhood → result ≡ None }
    ensures listed { landing ≡ OverflowList → result ≡ Some segment }
    ensures segment { IfSome result (λ s. s ≡ segment) }
{
    match landing {
        Landing::Neighbourhood => None,
        Landing::OverflowList => Some(segment),
    }
}

/// Adds the key that the segment doesn't have, with the element in hand, if the map has room for
/// one key more. Gives the lock back.
pub(crate) fn put_new<'a, R: Wait>(
    rt: &R,
    words: LockedWords<'a>,
    expected: &mut u64,
    lock: KeyLock,
    element: u32,
    request: &Request<'_>,
) -> (Lane, Ending)
    requires contents { LockShows words.about words.known words.map words.segment }
    requires offers { Offers words.about words.known words.map words.segment
        request.now.key.now request.now.value.now request.now.flags element }
    requires home { lock.home ≡ home_of request.now.key.now words.about.seed
        (shape_at words.about words.map).mask }
    requires stamp { lock.stamp ≡ (lock_of words.known).stamp }
    requires fits { lock.stamp + 256 < 2 ^ 64 }
    requires new { request.now.flags ≢ 2 }
    requires absent { IsAbsent (seen words) request.now.key.now }
    ensures table { result.0.table ≡ words.entry.table }
    ensures ends { UpdateEnds words.entry.about words.entry.known words.entry.map
        request.now.key.now request.now.value.now request.now.flags result.1 result.0.known }
    ensures order { BusyFirst lock.stamp (answer_of result.1) }
    ensures spilled { SpillsTo words.entry.segment result.1 }
{
    let mut words = words;
    if !words.count_in(rt, expected, element, request) {
        return (
            words.unlock_silent(lock.stamp),
            Ending::Refused(MapAnswer::Full),
        );
    }
    let segment = words.segment();
    let landing = insert(&mut words, element, lock.home);
    let spilled = spilled_to(landing, segment);
    (words.unlock_written(lock.stamp), Ending::Added(spilled))
}

/// Puts the element in hand in the place of the one that the key has, where it was found, and gives
/// the lock back.
/// Answers the old element, which is in hand from now on.
pub(crate) fn put_over<'a>(
    words: LockedWords<'a>,
    lock: KeyLock,
    found: Spot,
    element: u32,
    request: &Request<'_>,
) -> (Lane, u32)
    requires contents { LockShows words.about words.known words.map words.segment }
    requires offers { Offers words.about words.known words.map words.segment
        request.now.key.now request.now.value.now request.now.flags element }
    requires over { request.now.flags ≢ 1 }
    requires home { lock.home ≡ home_of request.now.key.now words.about.seed
        (shape_at words.about words.map).mask }
    requires stamp { lock.stamp ≡ (lock_of words.known).stamp }
    requires fits { lock.stamp + 256 < 2 ^ 64 }
    requires there { IsSpot (seen words) request.now.key.now found }
    ensures table { result.0.table ≡ words.entry.table }
    ensures over { IsReplacement words.entry.about words.entry.known words.entry.map
        request.now.key.now request.now.value.now request.now.flags result.1 result.0.known }
{
    let mut words = words;
    let old = replace_at(&mut words, found, request.key, lock.home, element);
    (words.unlock_replaced(lock.stamp, request, old), old)
}

/// Puts the element in hand, as the flags say, and gives the lock back. Where the update is refused
/// the element stays in hand.
pub(crate) fn put<'a, R: Wait>(
    rt: &R,
    words: LockedWords<'a>,
    expected: &mut u64,
    lock: KeyLock,
    element: u32,
    request: &Request<'_>,
) -> (Lane, Ending)
    requires contents { LockShows words.about words.known words.map words.segment }
    requires offers { Offers words.about words.known words.map words.segment
        request.now.key.now request.now.value.now request.now.flags element }
    requires home { lock.home ≡ home_of request.now.key.now words.about.seed
        (shape_at words.about words.map).mask }
    requires stamp { lock.stamp ≡ (lock_of words.known).stamp }
    ensures table { result.0.table ≡ words.entry.table }
    ensures ends { UpdateEnds words.entry.about words.entry.known words.entry.map
        request.now.key.now request.now.value.now request.now.flags result.1 result.0.known }
    ensures order { BusyFirst lock.stamp (answer_of result.1) }
    ensures spilled { SpillsTo words.entry.segment result.1 }
{
    let mut words = words;
    match judge(&mut words, lock, request) {
        Finding::Refuses(answer) => (
            words.unlock_update(lock.stamp, request, answer),
            Ending::Refused(answer),
        ),
        Finding::There(found) => {
            let (lane, old) = put_over(words, lock, found, element, request);
            (lane, Ending::Replaced(old))
        }
        Finding::Missing => put_new(rt, words, expected, lock, element, request),
    }
}

/// Refuses an update for which no element is to be had, and gives the lock back.
pub(crate) fn refuse<'a>(
    words: LockedWords<'a>,
    lock: KeyLock,
    request: &Request<'_>,
) -> (Lane, MapAnswer)
    requires contents { LockShows words.about words.known words.map words.segment }
    requires wants { Wants words.about words.known words.map words.segment
        request.now.key.now request.now.value.now request.now.flags }
    requires home { lock.home ≡ home_of request.now.key.now words.about.seed
        (shape_at words.about words.map).mask }
    requires stamp { lock.stamp ≡ (lock_of words.known).stamp }
    requires lacks { SawAllTaken words.about words.known words.map }
    ensures table { result.0.table ≡ words.entry.table }
    ensures refused { Refusal words.entry.about words.entry.known words.entry.map
        request.now.key.now request.now.value.now request.now.flags result.1 result.0.known }
    ensures order { BusyFirst lock.stamp result.1 }
{
    let mut words = words;
    match judge(&mut words, lock, request) {
        Finding::Refuses(answer) => (words.unlock_update(lock.stamp, request, answer), answer),
        Finding::There(_) => (
            words.unlock_update(lock.stamp, request, MapAnswer::NoMemory),
            MapAnswer::NoMemory,
        ),
        Finding::Missing => {
            let answer = words.see_lack(request);
            (words.unlock_silent(lock.stamp), answer)
        }
    }
}
