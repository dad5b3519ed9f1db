//! What the lock's words and the flags say of an update (bpf-helpers(7)).
ghost use Rattle.std.specs.Prelude.{◌≡◌};
ghost use Rattle.hop_layout.specs.Home.{home_of};
ghost use Rattle.hop_words.specs.Ghost.{shape_at};
ghost use Rattle.hop_words.specs.Locking.{lock_of};
ghost use Rattle.hop_map.specs.Private.UnderLock.{LockShows};
ghost use Rattle.hop_map.specs.Private.Updates.{Wants, DecidesUpdate};

use crate::locked::{KeyLock, LockedWords};
use bpf_shared::MapAnswer;
use hop_seg::{Spot, locate};
use hop_words::Request;

/// The least stamp of the last version. A segment with this version can't change any more.
pub(crate) const WORN: u64 = u64::MAX - 255;

/// What an update finds under the lock of its key's segment.
pub(crate) enum Finding {
    /// It is refused.
    Refuses(MapAnswer),
    /// The key is there, where the words lead to it so, and may be replaced.
    There(Spot),
    /// The key isn't there, and may be added.
    Missing,
}

/// Whether an update is refused, and if not, whether the key is there.
#[inline(always)]
pub(crate) fn judge<'a>(
    words: &mut LockedWords<'a>,
    lock: KeyLock,
    request: &Request<'_>,
) -> Finding
    requires contents { LockShows words.old.about words.old.known words.old.map words.old.segment }
    requires wants { Wants words.old.about words.old.known words.old.map words.old.segment
        request.now.key.now request.now.value.now request.now.flags }
    requires home { lock.home ≡ home_of request.now.key.now words.old.about.seed
        (shape_at words.old.about words.old.map).mask }
    requires stamp { lock.stamp ≡ (lock_of words.old.known).stamp }
    ensures judges { DecidesUpdate words.old request.now.key.now request.now.value.now
        request.now.flags result }
    ensures same { words.new ≡ words.old }
{
    let Request { key, value, flags } = *request;
    let _size = value.len();
    if lock.stamp >= WORN {
        return Finding::Refuses(MapAnswer::Busy);
    }
    match locate(words, key, lock.home) {
        Some(_) if flags == 1 => Finding::Refuses(MapAnswer::Exists),
        Some(found) => Finding::There(found),
        None if flags == 2 => Finding::Refuses(MapAnswer::Absent),
        None => Finding::Missing,
    }
}
