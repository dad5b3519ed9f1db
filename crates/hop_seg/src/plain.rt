//! A segment whose words are a plain copy, for tests and for reading.

ghost use Rattle.std.specs.Prelude.{◌≡◌, ◌<◌};
ghost use Rattle.hop_seg.specs.Plain.{front_of, plain_words};
ghost use Rattle.hop_seg.specs.Segment.{Sound};
ghost use Rattle.hop_seg.specs.Split.{IsEmpty};

use crate::places::PLACES;
use crate::splitting::ChildWords;
use crate::words::{SegReads, SegWords};

/// How many keys there are, each of one byte.
pub const KEYS: usize = 128;

/// How many elements there are. Two have each key: the key is the element's number modulo `KEYS`.
pub const ELEMENTS: usize = 256;

/// The hop and slot words of a segment, and its overflow list's head.
#[derive(Clone, Copy)]
pub struct PlainFront {
    pub hop: [u32; PLACES],
    pub slot: [Option<u32>; PLACES],
    pub head: Option<u32>,
}

/// The words of a segment of depth 0, those of the child that it splits into, the links of its
/// elements and the homes of their keys.
#[derive(Drop)]
pub struct PlainSegment {
    pub front: PlainFront,
    pub child: PlainFront,
    pub next: [Option<u32>; ELEMENTS],
    pub homes: [u32; KEYS],
}

impl PlainFront {
    /// No items.
    pub fn new() -> PlainFront
        ensures { IsEmpty (front_of result) }
    {
        PlainFront {
            hop: [0; PLACES],
            slot: [None; PLACES],
            head: None,
        }
    }
}

impl PlainSegment {
    /// A segment with no items, nor has its child any.
    pub fn new(homes: [u32; KEYS]) -> PlainSegment
        ensures sound { Sound (plain_words result) }
        ensures empty { IsEmpty (front_of result.front) }
        ensures child { IsEmpty (front_of result.child) }
        ensures homes { result.homes ≡ homes }
    {
        PlainSegment {
            front: PlainFront::new(),
            child: PlainFront::new(),
            next: [None; ELEMENTS],
            homes,
        }
    }
}

impl SegReads for PlainSegment {
    ghost use Rattle.std.specs.Prelude.{refl, ◌≡◌};
    ghost use Rattle.std.proofs.Common.{◌∙◌, ap};
    ghost use Rattle.hop_seg.specs.Plain.{plain_words};

    ghost agrees = { λ x w. w ≡ plain_words x };

    ghost rests = { λ x y. y ≡ x };

    ghost rests_itself = { λ x. refl };

    ghost reads = { λ x. 0 };

    ghost key_words = { λ x. 0 };

    ghost count = { λ x. 256 };

    ghost rests_on = { λ x y z p q. q ∙ p };

    ghost rests_alike = { λ x y p. (refl, refl) };

    ghost agreed_before = { λ x y w p a. a ∙ ap plain_words p };

    fn elements(&self) -> u32 {
        ELEMENTS as u32
    }

    fn hop(&mut self, bucket: usize) -> u32 {
        self.front.hop[bucket]
    }

    fn slot(&mut self, place: usize) -> Option<u32> {
        self.front.slot[place]
    }

    fn head(&mut self) -> Option<u32> {
        self.front.head
    }

    fn next(&mut self, element: u32) -> Option<u32> {
        if (element as usize) < ELEMENTS {
            self.next[element as usize]
        } else {
            None
        }
    }

    fn has_key(&mut self, element: u32, key: &[u8]) -> bool {
        key.len() == 1 && u32::from(key[0]) == element % 128
    }
}

impl SegWords for PlainSegment {
    ghost use Rattle.std.specs.Prelude.{refl, ◌≡◌};
    ghost use Rattle.std.proofs.Common.{◌∙◌, ap};
    ghost use Rattle.hop_seg.specs.Plain.{plain_words};

    ghost words = { plain_words };

    ghost stays = { λ x y. (y.child ≡ x.child) × (y.homes ≡ x.homes) };

    ghost stays_itself = { λ x. (refl, refl) };

    ghost stays_on = { λ x y z p q. (q.0 ∙ p.0, q.1 ∙ p.1) };

    ghost words_agree = { λ x. refl };

    ghost words_rest = { λ x y p. ap plain_words p };

    ghost stays_at_rest = { λ x y p. (ap (λ s. s.child) p, ap (λ s. s.homes) p) };

    fn set_hop(&mut self, bucket: usize, bits: u32) {
        self.front.hop[bucket] = bits;
    }

    fn set_slot(&mut self, place: usize, item: Option<u32>) {
        self.front.slot[place] = item;
    }

    fn set_head(&mut self, element: Option<u32>) {
        self.front.head = element;
    }

    fn set_next(&mut self, element: u32, following: Option<u32>) {
        self.next[element as usize] = following;
    }
}

impl ChildWords for PlainSegment {
    ghost use Rattle.std.specs.Prelude.{refl, ◌≡◌};
    ghost use Rattle.std.proofs.Common.{◌∙◌, ap};
    ghost use Rattle.hop_seg.specs.Plain.{front_of};

    ghost child = { λ x. front_of x.child };

    ghost stays_beside = { λ x y. y.homes ≡ x.homes };

    ghost child_stays = { λ x y s. ap front_of s.0 };

    ghost stays_too = { λ x y s. s.1 };

    ghost stays_beside_on = { λ x y z p q. q ∙ p };

    fn home(&mut self, element: u32) -> u32 {
        self.homes[element as usize % KEYS]
    }

    fn child_hop(&mut self, bucket: usize) -> u32 {
        self.child.hop[bucket]
    }

    fn set_child_hop(&mut self, bucket: usize, bits: u32) {
        self.child.hop[bucket] = bits;
    }

    fn set_child_slot(&mut self, place: usize, item: Option<u32>) {
        self.child.slot[place] = item;
    }

    fn child_head(&mut self) -> Option<u32> {
        self.child.head
    }

    fn set_child_head(&mut self, element: Option<u32>) {
        self.child.head = element;
    }
}
