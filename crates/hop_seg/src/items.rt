//! One place of a segment, and its hop bit.

ghost use Rattle.std.specs.Prelude.{◌≡◌, ◌<◌, Some};
ghost use Rattle.hop_seg.specs.Edits.{item_put, item_taken, item_changed};

use crate::held::hop;
use crate::hop_bits::{with_bit, without_bit};
use crate::places::place_at;
use crate::words::SegWords;

/// Puts an item so far after its home bucket.
#[inline(always)]
pub(crate) fn put_item<S: SegWords>(words: &mut S, bucket: usize, distance: usize, element: u32)
    requires bucket { bucket < 64 }
    requires near { distance < 32 }
    ensures words { S.words words.new ≡ item_put (S.words words.old) bucket distance element }
    ensures stays { S.stays words.old words.new }
{
    let bits = hop(words, bucket);
    words.set_slot(place_at(bucket, distance), Some(element));
    words.set_hop(bucket, with_bit(bits, distance));
}

/// Takes away the item so far after the bucket.
#[inline(always)]
pub(crate) fn take_item<S: SegWords>(words: &mut S, bucket: usize, distance: usize)
    requires bucket { bucket < 64 }
    requires near { distance < 32 }
    ensures words { S.words words.new ≡ item_taken (S.words words.old) bucket distance }
    ensures stays { S.stays words.old words.new }
{
    let bits = hop(words, bucket);
    words.set_slot(place_at(bucket, distance), None);
    words.set_hop(bucket, without_bit(bits, distance));
}

/// Puts another item in the place so far after the bucket.
pub(crate) fn change_item<S: SegWords>(words: &mut S, bucket: usize, distance: usize, new: u32)
    requires bucket { bucket < 64 }
    requires near { distance < 32 }
    ensures words { S.words words.new ≡ item_changed (S.words words.old) bucket distance new }
    ensures stays { S.stays words.old words.new }
{
    words.set_slot(place_at(bucket, distance), Some(new));
}
