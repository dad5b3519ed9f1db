//! Finding a key: in its home bucket's neighbourhood, then on the overflow list.
//!
//! The same code runs over words that a lock guards and over words that others write meanwhile. So
//! each answer is true of all sound words that agree with what was read: over words that nobody
//! else writes these are the words themselves.

ghost use Rattle.std.specs.Prelude.{◌≡◌, ◌<◌, ◌≤◌, ◌+◌, ◌*◌, MatchOption};
ghost use Rattle.std.specs.Int.{bit_at};
ghost use Rattle.hop_seg.specs.Words.{Words};
ghost use Rattle.hop_seg.specs.Segment.{Sound};
ghost use Rattle.hop_seg.specs.Content.{HasPair, IsAbsent};
ghost use Rattle.hop_seg.specs.Spots.{bucket_for, IsSpot, NoneAt, NoneNear, NoneListed, IsKeyed};

use crate::hop_bits::{nearest, without_bit};
use crate::places::{bucket_of, place_at};
use crate::words::SegReads;

/// Where the words lead to an element.
#[derive(Clone, Copy, PartialEq, Eq, Debug)]
pub enum Spot {
    /// Its place is so far after its home bucket.
    Near { distance: usize, element: u32 },
    /// It is on the overflow list, after this element, or the first.
    Listed { before: Option<u32>, element: u32 },
}

/// The element of this key, if the segment has it. The home is the key's.
///
/// It reads the places that the home bucket's hop information shows, then the overflow list, up to
/// as many links as there are elements: at most two words, and for each of 32 places and each
/// element one and those of a key.
#[inline(always)]
pub fn find<S: SegReads>(words: &mut S, key: &[u8], home: u32) -> Option<u32>
    ensures found { (w : Words) → S.agrees words.new w → Sound w → home ≡ w.fixed.home key.now →
        MatchOption result (IsAbsent w key.now) (HasPair w key.now) }
    ensures rests { S.rests words.old words.new }
    ensures reads { S.reads words.new ≤ S.reads words.old + 2
        + (32 + S.count words.old) * (1 + S.key_words words.old) }
{
    match locate(words, key, home)? {
        Spot::Near { element, .. } | Spot::Listed { element, .. } => Some(element),
    }
}

/// Where the words lead to the element of this key, if the segment has it. The home is the key's.
#[inline(always)]
pub fn locate<S: SegReads>(words: &mut S, key: &[u8], home: u32) -> Option<Spot>
    ensures found { (w : Words) → S.agrees words.new w → Sound w → home ≡ w.fixed.home key.now →
        MatchOption result (IsAbsent w key.now) (IsSpot w key.now) }
    ensures rests { S.rests words.old words.new }
    ensures reads { S.reads words.new ≤ S.reads words.old + 2
        + (32 + S.count words.old) * (1 + S.key_words words.old) }
{
    if let Some(spot) = locate_near(words, key, bucket_of(home)) {
        return Some(spot);
    }
    locate_listed(words, key)
}

/// Looks through the places that the home bucket's hop information shows, nearest first.
#[inline(always)]
fn locate_near<S: SegReads>(words: &mut S, key: &[u8], bucket: usize) -> Option<Spot>
    requires { bucket < 64 }
    ensures found { (w : Words) → S.agrees words.new w → Sound w → bucket ≡ bucket_for w key.now →
        MatchOption result (NoneNear w bucket key.now) (IsSpot w key.now) }
    ensures rests { S.rests words.old words.new }
    ensures reads { S.reads words.new
        ≤ S.reads words.old + 1 + 32 * (1 + S.key_words words.old) }
{
    let mut left = words.hop(bucket);
    'bits: while left != 0 {
        let distance = nearest(left);
        if let Some(element) = keyed_item(words, key, bucket, distance) {
            return Some(Spot::Near { distance, element });
        }
        left = without_bit(left, distance);
    }
    None
}

/// The item so far after the bucket, if it has the key.
#[inline(always)]
fn keyed_item<S: SegReads>(words: &mut S, key: &[u8], bucket: usize, distance: usize) -> Option<u32>
    requires bucket { bucket < 64 }
    requires distance { distance < 32 }
    ensures found { (w : Words) → S.agrees words.new w → Sound w →
        bit_at (w.hop bucket) distance ≡ 1 →
        MatchOption result (NoneAt w bucket key.now distance) (IsKeyed w bucket key.now distance) }
    ensures rests { S.rests words.old words.new }
    ensures reads { S.reads words.new ≤ S.reads words.old + (1 + S.key_words words.old) }
{
    let element = words.slot(place_at(bucket, distance))?;
    if words.has_key(element, key) {
        Some(element)
    } else {
        None
    }
}

/// Looks through the overflow list, from its head on. Of sound words it is no longer than there
/// are elements.
#[inline(always)]
fn locate_listed<S: SegReads>(words: &mut S, key: &[u8]) -> Option<Spot>
    ensures found { (w : Words) → S.agrees words.new w → Sound w →
        MatchOption result (NoneListed w key.now) (IsSpot w key.now) }
    ensures rests { S.rests words.old words.new }
    ensures reads { S.reads words.new
        ≤ S.reads words.old + 1 + S.count words.old * (1 + S.key_words words.old) }
{
    let elements = words.elements();
    let mut before = None;
    let mut at = words.head();
    for _passed in 0..elements {
        let Some(element) = at else {
            return None;
        };
        if words.has_key(element, key) {
            return Some(Spot::Listed { before, element });
        }
        before = Some(element);
        at = words.next(element);
    }
    None
}
