//! The words of a locked segment and of the one that is born when it splits.
ghost use Rattle.std.specs.Prelude.{◌≡◌, ◌<◌, ◌≤◌, ◌+◌, ◌*◌, ◌^◌, ◌%◌};
ghost use Rattle.hop_layout.specs.Layout.{depth as depth_of};
ghost use Rattle.hop_words.specs.Depths.{stamp_depth};
ghost use Rattle.hop_words.specs.Ghost.{shape_at};
ghost use Rattle.hop_words.specs.Kinds.{unlocking};
ghost use Rattle.hop_words.specs.Locking.{lock_of};
ghost use Rattle.hop_words.specs.Sights.{sighted, split_made};
ghost use Rattle.hop_seg.specs.Split.{IsEmpty};
ghost use Rattle.hop_map.specs.LockedSegment.{Ready, StaysBeside, child_front};
ghost use Rattle.hop_map.specs.Private.LockedSegment.{seen_words as seen};
ghost use Rattle.hop_map.specs.Private.Splitting.{IsChildOf, IsParted};

use crate::locked::LockedWords;
use crate::numbers::{hop_bits, item, link_word};
use crate::words::{head_place, hop_place, slot_place};
use hop_layout::Place;
use hop_seg::{ChildWords, SegReads, SegWords};
use hop_words::Lane;
use std::marker::Model;

/// The words of a segment whose lock this CPU has, and of its child to be.
#[derive(Drop)]
pub(crate) struct SplitWords<'a> {
    words: LockedWords<'a>,
    child: u32,
}

impl<'a> Model for SplitWords<'a> {
    ghost use Rattle.hop_map.specs.LockedSegment.{Locked};
    ghost use Rattle.hop_map.specs.Private.Splitting.{IsChildOf};

    ghost Value = { Locked };

    ghost view = { λ s. s.words };

    ghost invariant = { λ s. IsChildOf s.words s.child };
}

impl<'a> SplitWords<'a> {
    /// The words of a locked segment, and of its child of this number.
    pub(crate) fn new(words: LockedWords<'a>, child: u32) -> SplitWords<'a>
        requires child { IsChildOf words child }
        ensures same { result ≡ words.entry }
    {
        SplitWords { words, child }
    }

    /// Makes the child's words those of a segment with no items.
    pub(crate) fn clear(&mut self)
        ensures empty { IsEmpty (child_front self.new) }
        ensures words { seen self.new ≡ seen self.old }
        ensures stays { StaysBeside self.old self.new }
    {
        self.set_child_head(None);
        'buckets: for bucket in 0..64 {
            self.set_child_hop(bucket, 0);
            self.set_child_slot(bucket, None);
        }
    }

    /// Writes the child's stamp, with the version that segments are made with, and gives the lock
    /// back: the child is born.
    pub(crate) fn publish(self, stamp: u64, depth: u32) -> Lane
        requires stamp { stamp ≡ (lock_of self.known).stamp }
        requires fits { stamp + 258 < 2 ^ 64 }
        requires depth { depth ≡ stamp_depth stamp }
        requires less { depth < depth_of (shape_at self.about self.map) }
        requires parted { Ready self.about self.known self.map self.segment →
            IsParted self.about (lock_of self.known) }
        ensures table { result.table ≡ self.entry.table }
        ensures born { result.known ≡ sighted (unlocking self.entry.known)
            (split_made self.entry.map self.entry.segment stamp) }
    {
        let SplitWords { mut words, child } = self;
        let place = Place::Stamp {
            map: words.map(),
            segment: child,
        };
        let child_stamp = words.version() % (1 << 56) * 256 + 2 * (u64::from(depth) + 1);
        words.write_stamp_beside(place, child_stamp);
        words.unlock_split(stamp, child_stamp)
    }
}

impl<'a> SegReads for SplitWords<'a> {
    ghost use Rattle.std.specs.Prelude.{refl, ◌≡◌};
    ghost use Rattle.std.proofs.Common.{◌∙◌, ap};
    ghost use Rattle.hop_map.specs.Private.LockedSegment.{seen_words as shown_words, locked_elements};

    ghost agrees = { λ x w. w ≡ shown_words x };

    ghost rests = { λ x y. y ≡ x };

    ghost reads = { λ x. 0 };

    ghost key_words = { λ x. 0 };

    ghost count = { locked_elements };

    ghost rests_itself = { λ x. refl };

    ghost rests_on = { λ x y z p q. q ∙ p };

    ghost rests_alike = { λ x y p. (ap locked_elements p, refl) };

    ghost agreed_before = { λ x y w p a. a ∙ ap shown_words p };

    fn elements(&self) -> u32 {
        self.words.elements()
    }

    fn hop(&mut self, bucket: usize) -> u32 {
        self.words.hop(bucket)
    }

    fn slot(&mut self, place: usize) -> Option<u32> {
        self.words.slot(place)
    }

    fn head(&mut self) -> Option<u32> {
        self.words.head()
    }

    fn next(&mut self, element: u32) -> Option<u32> {
        self.words.next(element)
    }

    fn has_key(&mut self, element: u32, key: &[u8]) -> bool {
        self.words.has_key(element, key)
    }
}

impl<'a> SegWords for SplitWords<'a> {
    ghost use Rattle.std.specs.Prelude.{refl, ◌≡◌};
    ghost use Rattle.std.proofs.Common.{ap, sym, subst};
    ghost use Rattle.hop_map.specs.Private.LockedSegment.{seen_words as shown_words};
    ghost use Rattle.hop_map.specs.LockedSegment.{Stays};
    ghost use Rattle.hop_map.specs.Lemmas.Keeping.{stays_itself as itself, stays_on as on};

    ghost words = { shown_words };

    ghost stays = { Stays };

    ghost stays_itself = { itself };

    ghost stays_on = { on };

    ghost words_agree = { λ x. refl };

    ghost words_rest = { λ x y p. ap shown_words p };

    ghost stays_at_rest = { λ x y p. subst (Stays x) (sym p) (itself x) };

    fn set_hop(&mut self, bucket: usize, bits: u32) {
        self.words.set_hop(bucket, bits);
    }

    fn set_slot(&mut self, place: usize, item: Option<u32>) {
        self.words.set_slot(place, item);
    }

    fn set_head(&mut self, element: Option<u32>) {
        self.words.set_head(element);
    }

    fn set_next(&mut self, element: u32, following: Option<u32>) {
        self.words.set_next(element, following);
    }
}

impl<'a> ChildWords for SplitWords<'a> {
    ghost use Rattle.hop_map.specs.LockedSegment.{StaysBeside, child_front as front};
    ghost use Rattle.hop_map.specs.Lemmas.Keeping.{stays_too as too, stays_beside_on as beside_on};

    ghost child = { front };

    ghost stays_beside = { StaysBeside };

    ghost child_stays = { λ x y p. p.child };

    ghost stays_too = { too };

    ghost stays_beside_on = { beside_on };

    fn home(&mut self, element: u32) -> u32 {
        self.words.home_of_key(element)
    }

    fn child_hop(&mut self, bucket: usize) -> u32 {
        let place = hop_place(self.words.map(), self.child, bucket);
        hop_bits(self.words.read_beside(place))
    }

    fn set_child_hop(&mut self, bucket: usize, bits: u32) {
        let place = hop_place(self.words.map(), self.child, bucket);
        self.words.write_beside(place, u64::from(bits));
    }

    fn set_child_slot(&mut self, place: usize, item: Option<u32>) {
        let slot = slot_place(self.words.map(), self.child, place);
        self.words.write_beside(slot, link_word(item));
    }

    fn child_head(&mut self) -> Option<u32> {
        let place = head_place(self.words.map(), self.child);
        item(self.words.read_beside(place))
    }

    fn set_child_head(&mut self, element: Option<u32>) {
        let place = head_place(self.words.map(), self.child);
        self.words.write_beside(place, link_word(element));
    }
}
