//! A segment splits in two: the items whose homes have the bit of its depth go over to the child,
//! at the places that they had, or to its overflow list.

ghost use Rattle.std.specs.Prelude.{◌≡◌, ◌<◌, ◌/◌, ◌%◌, ◌^◌, ℕ, IsTrue, false, Some};
ghost use Rattle.hop_seg.specs.Words.{IsKnown};
ghost use Rattle.hop_seg.specs.Segment.{Sound, element_key};
ghost use Rattle.hop_seg.specs.Content.{IsInOverflow};
ghost use Rattle.hop_seg.specs.Spots.{IsLink};
ghost use Rattle.hop_seg.specs.Edits.{item_taken};
ghost use Rattle.hop_seg.specs.Split.{Front, IsEmpty, Remains, Splits, Parted, Hands, front_with_hop, front_with_slot, front_put, handed};

use crate::held::{head, next, slot};
use crate::hop_bits::with_bit;
use crate::items::take_item;
use crate::places::{PLACES, bucket_of, distance_to, place_at};
use crate::removal::set_link;
use crate::words::SegWords;

/// Also reads and writes the words of a child that is to be born.
pub trait ChildWords: SegWords {
    /// The child's own words.
    ghost child: { Self → Front };

    /// Whatever else than the parent's and the child's words the value shows is the same in both.
    ghost stays_beside: { Self → Self → Type 0 };

    /// The home of the element's key.
    fn home(&mut self, element: u32) -> u32
        requires { IsKnown (Self.words self.old).fixed element }
        ensures value { result ≡ (Self.words self.old).fixed.home
            (element_key (Self.words self.old) element) }
        ensures same { Self.words self.new ≡ Self.words self.old }
        ensures stays { Self.stays self.old self.new };

    fn child_hop(&mut self, bucket: usize) -> u32
        requires { bucket < 64 }
        ensures value { result ≡ (child self.old).hop bucket }
        ensures words { Self.words self.new ≡ Self.words self.old }
        ensures child { child self.new ≡ child self.old }
        ensures stays { stays_beside self.old self.new };

    fn set_child_hop(&mut self, bucket: usize, bits: u32)
        requires { bucket < 64 }
        ensures words { Self.words self.new ≡ Self.words self.old }
        ensures child { child self.new ≡ front_with_hop (child self.old) bucket bits }
        ensures stays { stays_beside self.old self.new };

    fn set_child_slot(&mut self, place: usize, item: Option<u32>)
        requires { place < 64 }
        ensures words { Self.words self.new ≡ Self.words self.old }
        ensures child { child self.new ≡ front_with_slot (child self.old) place item }
        ensures stays { stays_beside self.old self.new };

    fn child_head(&mut self) -> Option<u32>
        ensures value { result ≡ (child self.old).head }
        ensures words { Self.words self.new ≡ Self.words self.old }
        ensures child { child self.new ≡ child self.old }
        ensures stays { stays_beside self.old self.new };

    fn set_child_head(&mut self, element: Option<u32>)
        ensures words { Self.words self.new ≡ Self.words self.old }
        ensures child { child self.new ≡ record (child self.old) { head = element } }
        ensures stays { stays_beside self.old self.new };

    /// What stays includes the child's words.
    ghost child_stays: { (x y : Self) → Self.stays x y → child y ≡ child x };

    ghost stays_too: { (x y : Self) → Self.stays x y → stays_beside x y };

    ghost stays_beside_on: { (x y z : Self) →
        stays_beside x y → stays_beside y z → stays_beside x z };
}

/// Splits a segment of this depth. The child has no items yet.
pub fn split<C: ChildWords>(words: &mut C, depth: u32)
    requires sound { Sound (C.words words.old) }
    requires empty { IsEmpty (C.child words.old) }
    requires depth { depth ≡ (C.words words.old).fixed.depth }
    requires small { depth < 32 }
    ensures splits { Splits (C.words words.old) (C.words words.new) (C.child words.new) }
    ensures stays { C.stays_beside words.old words.new }
{
    split_places(words, depth);
    split_list(words, depth);
}

/// Hands over the items in places.
fn split_places<C: ChildWords>(words: &mut C, depth: u32)
    requires parted { Parted (C.words words.old) (C.child words.old) }
    requires depth { depth ≡ (C.words words.old).fixed.depth }
    requires small { depth < 32 }
    ensures hands { Hands (C.words words.old) (C.child words.old) (C.words words.new)
        (C.child words.new) }
    ensures none { (p e : ℕ) → p < 64 → (C.words words.new).slot p ≡ Some e → Remains
        (C.words words.new).fixed e }
    ensures stays { C.stays_beside words.old words.new }
{
    for place in 0..PLACES {
        split_place(words, depth, place);
    }
}

/// Hands over the item at a place, if it leaves.
fn split_place<C: ChildWords>(words: &mut C, depth: u32, place: usize)
    requires parted { Parted (C.words words.old) (C.child words.old) }
    requires depth { depth ≡ (C.words words.old).fixed.depth }
    requires small { depth < 32 }
    requires place { place < 64 }
    ensures hands { Hands (C.words words.old) (C.child words.old) (C.words words.new)
        (C.child words.new) }
    ensures none { (e : ℕ) → (C.words words.new).slot place ≡ Some e → Remains
        (C.words words.new).fixed e }
    ensures stays { C.stays_beside words.old words.new }
{
    let Some(element) = slot(words, place) else {
        return;
    };
    let home = words.home(element);
    if leaves(home, depth) {
        hand_placed(
            words,
            bucket_of(home),
            distance_to(bucket_of(home), place),
            element,
        );
    }
}

/// Puts an item into the child, at the place that it had.
fn hand_placed<C: ChildWords>(words: &mut C, bucket: usize, distance: usize, element: u32)
    requires bucket { bucket < 64 }
    requires near { distance < 32 }
    ensures words { C.words words.new ≡ item_taken (C.words words.old) bucket distance }
    ensures child { C.child words.new ≡ front_put (C.child words.old) bucket distance element }
    ensures stays { C.stays_beside words.old words.new }
{
    take_item(words, bucket, distance);
    let bits = words.child_hop(bucket);
    words.set_child_slot(place_at(bucket, distance), Some(element));
    words.set_child_hop(bucket, with_bit(bits, distance));
}

/// Whether a key of this home leaves a segment of this depth.
fn leaves(home: u32, depth: u32) -> bool
    requires { depth < 32 }
    ensures leaves { IsTrue result → home / 2 ^ depth % 2 ≡ 1 }
    ensures remains { result ≡ false → home / 2 ^ depth % 2 ≡ 0 }
{
    home >> depth & 1 == 1
}

/// Hands over the elements of the overflow list.
fn split_list<C: ChildWords>(words: &mut C, depth: u32)
    requires parted { Parted (C.words words.old) (C.child words.old) }
    requires depth { depth ≡ (C.words words.old).fixed.depth }
    requires small { depth < 32 }
    ensures hands { Hands (C.words words.old) (C.child words.old) (C.words words.new)
        (C.child words.new) }
    ensures none { (e : ℕ) → IsInOverflow (C.words words.new) e → Remains (C.words words.new).fixed e }
    ensures stays { C.stays_beside words.old words.new }
{
    let mut before = None;
    let mut at = head(words);
    'list: while let Some(element) = at {
        at = next(words, element);
        let home = words.home(element);
        if leaves(home, depth) {
            hand_listed(words, before, element);
        } else {
            before = Some(element);
        }
    }
}

/// Takes an element off the overflow list and makes it the first of the child's.
fn hand_listed<C: ChildWords>(words: &mut C, before: Option<u32>, element: u32)
    requires sound { Sound (C.words words.old) }
    requires link { IsLink (C.words words.old) before element }
    ensures words { C.words words.new ≡ handed (C.words words.old) (C.child words.old) before
        element }
    ensures child { C.child words.new ≡ record (C.child words.old) { head = Some element } }
    ensures stays { C.stays_beside words.old words.new }
{
    let following = next(words, element);
    set_link(words, before, following);
    let first = words.child_head();
    words.set_next(element, first);
    words.set_child_head(Some(element));
}
