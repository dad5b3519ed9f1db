//! Reads of words that nobody else writes: what is read is what is there.

ghost use Rattle.std.specs.Prelude.{◌≡◌, ◌<◌, MatchOption};
ghost use Rattle.hop_seg.specs.Words.{IsKnown};
ghost use Rattle.hop_seg.specs.Segment.{Sound};
ghost use Rattle.hop_seg.specs.Content.{IsAbsent};
ghost use Rattle.hop_seg.specs.Spots.{IsSpot};

use crate::search::{Spot, locate};
use crate::words::{SegReads, SegWords};

/// The hop information of a bucket.
#[inline]
pub(crate) fn hop<S: SegWords>(words: &mut S, bucket: usize) -> u32
    requires { bucket < 64 }
    ensures value { result ≡ (S.words words.old).hop bucket }
    ensures same { S.words words.new ≡ S.words words.old }
    ensures stays { S.stays words.old words.new }
{
    words.hop(bucket)
}

/// The item at a place.
#[inline]
pub(crate) fn slot<S: SegWords>(words: &mut S, place: usize) -> Option<u32>
    requires { place < 64 }
    ensures value { result ≡ (S.words words.old).slot place }
    ensures same { S.words words.new ≡ S.words words.old }
    ensures stays { S.stays words.old words.new }
{
    words.slot(place)
}

/// The first element of the overflow list.
#[inline]
pub(crate) fn head<S: SegWords>(words: &mut S) -> Option<u32>
    ensures value { result ≡ (S.words words.old).head }
    ensures same { S.words words.new ≡ S.words words.old }
    ensures stays { S.stays words.old words.new }
{
    words.head()
}

/// The element that an element's link leads to.
#[inline]
pub(crate) fn next<S: SegWords>(words: &mut S, element: u32) -> Option<u32>
    requires { IsKnown (S.words words.old).fixed element }
    ensures value { result ≡ (S.words words.old).next element }
    ensures same { S.words words.new ≡ S.words words.old }
    ensures stays { S.stays words.old words.new }
{
    words.next(element)
}

/// Where the words lead to the element of this key. The home is the key's.
pub(crate) fn spot<S: SegWords>(words: &mut S, key: &[u8], home: u32) -> Option<Spot>
    requires sound { Sound (S.words words.old) }
    requires home { home ≡ (S.words words.old).fixed.home key.now }
    ensures found { MatchOption result (IsAbsent (S.words words.old) key.now)
        (IsSpot (S.words words.old) key.now) }
    ensures same { S.words words.new ≡ S.words words.old }
    ensures stays { S.stays words.old words.new }
{
    locate(words, key, home)
}
