//! Removal and replacement of an element that a segment has.

ghost use Rattle.std.specs.Prelude.{◌≡◌, ◌<◌, ℕ};
ghost use Rattle.hop_seg.specs.Words.{IsKnown};
ghost use Rattle.hop_seg.specs.Segment.{Sound, IsOwn, element_key};
ghost use Rattle.hop_seg.specs.Content.{HasPair, IsInSegment, Loses, Changes};
ghost use Rattle.hop_seg.specs.Edits.{with_link, unlinked, relinked, IsLinkKnown};
ghost use Rattle.hop_seg.specs.Spots.{IsLink, IsSpot};

use crate::held::{next, spot};
use crate::items::{change_item, take_item};
use crate::places::bucket_of;
use crate::search::Spot;
use crate::words::SegWords;

/// Removes the element of this key, which the segment has, and answers it. The home is the key's.
pub fn remove<S: SegWords>(words: &mut S, key: &[u8], home: u32) -> u32
    requires sound { Sound (S.words words.old) }
    requires home { home ≡ (S.words words.old).fixed.home key.now }
    requires there { (e : ℕ) × HasPair (S.words words.old) key.now e }
    ensures loses { Loses (S.words words.old) (S.words words.new) key.now result }
    ensures stays { S.stays words.old words.new }
{
    let Some(found) = spot(words, key, home) else {
        unreachable!()
    };
    remove_at(words, found, key, home)
}

/// Removes the element to which the words were seen to lead: there is no second search.
pub fn remove_at<S: SegWords>(words: &mut S, found: Spot, key: &[u8], home: u32) -> u32
    requires sound { Sound (S.words words.old) }
    requires home { home ≡ (S.words words.old).fixed.home key.now }
    requires found { IsSpot (S.words words.old) key.now found }
    ensures loses { Loses (S.words words.old) (S.words words.new) key.now result }
    ensures stays { S.stays words.old words.new }
{
    let _key = key.len();
    match found {
        Spot::Near { distance, element } => {
            take_item(words, bucket_of(home), distance);
            element
        }
        Spot::Listed { before, element } => {
            unlink(words, before, element);
            element
        }
    }
}

/// Puts a new element of this key in the place or link of the one that the segment has, and answers
/// the old one. The home is the key's.
pub fn replace<S: SegWords>(words: &mut S, key: &[u8], home: u32, new: u32) -> u32
    requires sound { Sound (S.words words.old) }
    requires home { home ≡ (S.words words.old).fixed.home key.now }
    requires there { (e : ℕ) × HasPair (S.words words.old) key.now e }
    requires own { IsOwn (S.words words.old).fixed new }
    requires keyed { element_key (S.words words.old) new ≡ key.now }
    requires fresh { IsInSegment (S.words words.old) new → ⊥ }
    ensures changes { Changes (S.words words.old) (S.words words.new) key.now result new }
    ensures stays { S.stays words.old words.new }
{
    let Some(found) = spot(words, key, home) else {
        unreachable!()
    };
    replace_at(words, found, key, home, new)
}

/// Puts a new element in the place of the old one to which the words were seen to lead: there is no
/// second search.
pub fn replace_at<S: SegWords>(words: &mut S, found: Spot, key: &[u8], home: u32, new: u32) -> u32
    requires sound { Sound (S.words words.old) }
    requires home { home ≡ (S.words words.old).fixed.home key.now }
    requires found { IsSpot (S.words words.old) key.now found }
    requires own { IsOwn (S.words words.old).fixed new }
    requires keyed { element_key (S.words words.old) new ≡ key.now }
    requires fresh { IsInSegment (S.words words.old) new → ⊥ }
    ensures changes { Changes (S.words words.old) (S.words words.new) key.now result new }
    ensures stays { S.stays words.old words.new }
{
    let _key = key.len();
    match found {
        Spot::Near { distance, element } => {
            change_item(words, bucket_of(home), distance, new);
            element
        }
        Spot::Listed { before, element } => {
            relink(words, before, element, new);
            element
        }
    }
}

/// Takes an element off the overflow list.
fn unlink<S: SegWords>(words: &mut S, before: Option<u32>, element: u32)
    requires sound { Sound (S.words words.old) }
    requires link { IsLink (S.words words.old) before element }
    ensures words { S.words words.new ≡ unlinked (S.words words.old) before element }
    ensures stays { S.stays words.old words.new }
{
    let following = next(words, element);
    set_link(words, before, following);
}

/// Puts a new element in an element's place on the overflow list.
fn relink<S: SegWords>(words: &mut S, before: Option<u32>, element: u32, new: u32)
    requires sound { Sound (S.words words.old) }
    requires link { IsLink (S.words words.old) before element }
    requires known { IsKnown (S.words words.old).fixed new }
    ensures words { S.words words.new ≡ relinked (S.words words.old) before element new }
    ensures stays { S.stays words.old words.new }
{
    let following = next(words, element);
    words.set_next(new, following);
    set_link(words, before, Some(new));
}

/// Writes the link of an element, or the list's head.
pub(crate) fn set_link<S: SegWords>(words: &mut S, before: Option<u32>, target: Option<u32>)
    requires { IsLinkKnown (S.words words.old).fixed before }
    ensures words { S.words words.new ≡ with_link (S.words words.old) before target }
    ensures stays { S.stays words.old words.new }
{
    match before {
        Some(element) => words.set_next(element, target),
        None => words.set_head(target),
    }
}
