//! Insertion: at the free place nearest after the home bucket, which displacement brings into the
//! neighbourhood where it lies beyond it, or else on the overflow list.

ghost use Rattle.std.specs.Prelude.{◌≡◌, ◌<◌, IfSome, Some, None};
ghost use Rattle.hop_seg.specs.Places.{place_at as place_of};
ghost use Rattle.hop_seg.specs.Words.{IsKnown};
ghost use Rattle.hop_seg.specs.Segment.{Sound, IsOwn, element_key};
ghost use Rattle.hop_seg.specs.Content.{IsAbsent, KeepsPairs, Gains};
ghost use Rattle.hop_seg.specs.Edits.{listed_first};
ghost use Rattle.hop_seg.specs.Moves.{IsMovable, IsFreeAt, Landed};

use crate::held::{head, hop, slot};
use crate::hop_bits::{nearer_than, nearest};
use crate::items::{put_item, take_item};
use crate::places::{NEIGHBOURHOOD, PLACES, bucket_before, bucket_of, place_at};
use crate::words::SegWords;

/// Where an insertion put its element.
#[derive(Clone, Copy, PartialEq, Eq, Debug)]
pub enum Landing {
    Neighbourhood,
    OverflowList,
}

/// An item that can move: from one distance after its home bucket to another, farther one.
#[derive(Clone, Copy)]
pub(crate) struct Move {
    bucket: usize,
    from: usize,
    to: usize,
}

/// Inserts an element whose key the segment hasn't. The home is its key's.
pub fn insert<S: SegWords>(words: &mut S, element: u32, home: u32) -> Landing
    requires sound { Sound (S.words words.old) }
    requires own { IsOwn (S.words words.old).fixed element }
    requires home { home
        ≡ (S.words words.old).fixed.home (element_key (S.words words.old) element) }
    requires absent { IsAbsent (S.words words.old) (element_key (S.words words.old) element) }
    ensures gains { Gains (S.words words.old) (S.words words.new)
        (element_key (S.words words.old) element) element }
    ensures landed { Landed (S.words words.new) element result }
    ensures stays { S.stays words.old words.new }
{
    let bucket = bucket_of(home);
    match free_near(words, bucket) {
        Some(distance) => {
            put_item(words, bucket, distance, element);
            Landing::Neighbourhood
        }
        None => {
            list_item(words, element);
            Landing::OverflowList
        }
    }
}

/// Makes an element the first of the overflow list.
fn list_item<S: SegWords>(words: &mut S, element: u32)
    requires { IsKnown (S.words words.old).fixed element }
    ensures words { S.words words.new ≡ listed_first (S.words words.old) element }
    ensures stays { S.stays words.old words.new }
{
    let first = head(words);
    words.set_next(element, first);
    words.set_head(Some(element));
}

/// The distance of a free place of the neighbourhood, if there is one or displacement makes one.
fn free_near<S: SegWords>(words: &mut S, bucket: usize) -> Option<usize>
    requires sound { Sound (S.words words.old) }
    requires bucket { bucket < 64 }
    ensures keeps { KeepsPairs (S.words words.old) (S.words words.new) }
    ensures near { IfSome result (λ d. d < 32) }
    ensures free { IfSome result (IsFreeAt (S.words words.new) bucket) }
    ensures stays { S.stays words.old words.new }
{
    let distance = nearest_free(words, bucket)?;
    if can_come_near(words, bucket, distance) {
        bring_near(words, bucket, distance)
    } else {
        None
    }
}

/// The distance of the free place nearest after the bucket.
fn nearest_free<S: SegWords>(words: &mut S, bucket: usize) -> Option<usize>
    requires { bucket < 64 }
    ensures in_range { IfSome result (λ d. d < 64) }
    ensures free { IfSome result (IsFreeAt (S.words words.old) bucket) }
    ensures same { S.words words.new ≡ S.words words.old }
    ensures stays { S.stays words.old words.new }
{
    for distance in 0..PLACES {
        if slot(words, place_at(bucket, distance)).is_none() {
            return Some(distance);
        }
    }
    None
}

/// Whether displacement can bring the free place into the neighbourhood. It moves nothing yet: the
/// moves that come before don't change which item moves next.
fn can_come_near<S: SegWords>(words: &mut S, bucket: usize, mut distance: usize) -> bool
    requires bucket { bucket < 64 }
    requires in_range { distance < 64 }
    ensures same { S.words words.new ≡ S.words words.old }
    ensures stays { S.stays words.old words.new }
{
    while distance >= NEIGHBOURHOOD {
        let Some(item) = movable(words, place_at(bucket, distance)) else {
            return false;
        };
        distance -= item.to - item.from;
    }
    true
}

/// Moves items away until the free place is in the neighbourhood.
fn bring_near<S: SegWords>(words: &mut S, bucket: usize, mut distance: usize) -> Option<usize>
    requires sound { Sound (S.words words.old) }
    requires bucket { bucket < 64 }
    requires in_range { distance < 64 }
    requires free { IsFreeAt (S.words words.old) bucket distance }
    ensures keeps { KeepsPairs (S.words words.old) (S.words words.new) }
    ensures near { IfSome result (λ d. d < 32) }
    ensures free { IfSome result (IsFreeAt (S.words words.new) bucket) }
    ensures stays { S.stays words.old words.new }
{
    while distance >= NEIGHBOURHOOD {
        let item = movable(words, place_at(bucket, distance))?;
        displace(words, item);
        distance -= item.to - item.from;
    }
    Some(distance)
}

/// The item that moves to a free place: of the buckets from 31 before the place on, the first that
/// has an item before the place moves its nearest one.
fn movable<S: SegWords>(words: &mut S, free: usize) -> Option<Move>
    requires { free < 64 }
    ensures found { IfSome result (IsMovable (S.words words.old) free) }
    ensures same { S.words words.new ≡ S.words words.old }
    ensures stays { S.stays words.old words.new }
{
    for passed in 1..NEIGHBOURHOOD {
        let to = NEIGHBOURHOOD - passed;
        let bucket = bucket_before(free, to);
        let bits = nearer_than(hop(words, bucket), to);
        if bits != 0 {
            return Some(Move {
                bucket,
                from: nearest(bits),
                to,
            });
        }
    }
    None
}

/// Moves an item.
fn displace<S: SegWords>(words: &mut S, item: Move)
    requires sound { Sound (S.words words.old) }
    requires movable { IsMovable (S.words words.old) (place_of item.bucket item.to) item }
    requires free { IsFreeAt (S.words words.old) item.bucket item.to }
    ensures keeps { KeepsPairs (S.words words.old) (S.words words.new) }
    ensures free { IsFreeAt (S.words words.new) item.bucket item.from }
    ensures stays { S.stays words.old words.new }
{
    if let Some(element) = slot(words, place_at(item.bucket, item.from)) {
        take_item(words, item.bucket, item.from);
        put_item(words, item.bucket, item.to, element);
    }
}
