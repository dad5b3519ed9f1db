//! The words of a segment that is read without its lock.
ghost use Rattle.std.specs.Prelude.{◌≡◌, ◌+◌, ◌<◌, ◌≤◌, ◌↔◌, true, length, IsTrue};
ghost use Rattle.bpf_shared.specs.Shape.{elements as elements_of};
ghost use Rattle.hop_layout.specs.Layout.{is_place};
ghost use Rattle.hop_words.specs.Content.{MapWords, Reached};
ghost use Rattle.hop_words.specs.Ghost.{shape_at};
ghost use Rattle.hop_words.specs.Kinds.{FindsByPeeks, StampSeenAgain};
ghost use Rattle.hop_words.specs.Peeking.{latest_reading, HasReading};
ghost use Rattle.hop_map.specs.Private.Peeks.{FitsPeeks, peeked, HavePeeks, Spelled, OnlyReads, looks_noted, key_words_of};

use crate::numbers::{hop_bits, item};
use crate::words::{head_place, hop_place, link_place, slot_place};
use hop_layout::{Place, word_at};
use hop_seg::SegReads;
use hop_words::{HopTable, Lane};
use std::marker::Model;

/// The words of a segment that this CPU reads while others may be writing them.
#[derive(Drop)]
pub(crate) struct PeekedWords<'a> {
    table: &'a HopTable,
    lane: Lane,
    map: u8,
    segment: u32,
    key_size: usize,
    elements: u32,
}

impl<'a> Model for PeekedWords<'a> {
    ghost use Rattle.hop_map.specs.Private.Peeks.{Peeked, FitsPeeks};

    ghost Value = { Peeked };

    ghost view = { λ s. record {
      table = s.table.now.id;
      about = s.table.now.about;
      known = s.lane.known;
      map = s.map;
      segment = s.segment;
    } };

    ghost invariant = { λ s. FitsPeeks s.table.now.id s.table.now.about s.lane.table s.lane.known
        s.map s.segment s.key_size s.elements };
}

impl<'a> PeekedWords<'a> {
    /// The words of a segment of which this CPU has seen an unlocked stamp, with the sizes of the
    /// map.
    pub(crate) fn new(
        table: &'a HopTable,
        lane: Lane,
        map: u8,
        segment: u32,
        key_size: usize,
        elements: u32,
    ) -> PeekedWords<'a>
        requires fits { FitsPeeks table.now.id table.now.about lane.table lane.known
            map segment key_size elements }
        ensures table { result.table ≡ table.now.id }
        ensures about { result.about ≡ table.now.about }
        ensures known { result.known ≡ lane.known }
        ensures map { result.map ≡ map }
        ensures segment { result.segment ≡ segment }
    {
        let words = PeekedWords {
            table,
            lane,
            map,
            segment,
            key_size,
            elements,
        };
        let _map = words.map;
        words
    }

    /// Sees the stamp again, where all that was read shows what the key leads to, and answers it.
    pub(crate) fn see_again(self, key: &[u8], found: Option<u32>) -> (Lane, u64)
        requires finds { let l = self.known in
            HasReading l self.map self.segment →
            FindsByPeeks self.about l (latest_reading l) key.now found }
        ensures table { result.0.table ≡ self.entry.table }
        ensures seen { let l = self.entry.known in
            StampSeenAgain self.entry.about l (latest_reading l) key.now found result.1
            result.0.known }
    {
        let (table, map, segment) = (self.table, self.map, self.segment);
        let mut lane = self.lane;
        let last = lane.see_stamp_again(table, map, segment, key, found);
        (lane, last)
    }

    #[inline(always)]
    fn read(&mut self, place: Place) -> u64
        requires there { is_place self.old.about.shape place ≡ true }
        ensures peeked { self.new ≡ peeked self.old place result }
        ensures rests { OnlyReads self.old self.new }
        ensures looks { looks_noted self.new ≡ looks_noted self.old + 1 }
    {
        self.lane.peek(self.table, place)
    }

    /// Whether an element's words are the key's, of all words that were read.
    #[inline(always)]
    fn spells(&mut self, element: u32, key: &[u8]) -> bool
        requires inside { element < elements_of (shape_at self.old.about self.old.map) }
        requires size { length key.now ≡ (shape_at self.old.about self.old.map).key }
        requires small { length key.now ≤ 64 }
        ensures value { (w : MapWords) → HavePeeks w self.new →
            Reached w self.old.map self.old.segment element →
            IsTrue result ↔ Spelled self.old.about self.old.map w element key.now }
        ensures rests { OnlyReads self.old self.new }
        ensures looks { looks_noted self.new ≤ looks_noted self.old + key_words_of self.old }
    {
        'words: for word in 0..key.len().div_ceil(8) {
            let place = Place::KeyWord {
                map: self.map,
                element,
                word: word as u32,
            };
            if self.read(place) != word_at(key, word) {
                return false;
            }
        }
        true
    }
}

impl<'a> SegReads for PeekedWords<'a> {
    ghost use Rattle.hop_map.specs.Private.Peeks.{Agreed, OnlyReads, looks_noted, key_words_of, elements_in};
    ghost use Rattle.hop_map.specs.Lemmas.Resting.{rested_itself as itself, rested_on as on, rested_alike as alike, agreed_before as before};

    ghost agrees = { Agreed };

    ghost rests = { OnlyReads };

    ghost reads = { looks_noted };

    ghost key_words = { key_words_of };

    ghost count = { elements_in };

    ghost rests_itself = { itself };

    ghost rests_on = { on };

    ghost rests_alike = { alike };

    ghost agreed_before = { λ x y w p a. before x y p w a };

    fn elements(&self) -> u32 {
        self.elements
    }

    fn hop(&mut self, bucket: usize) -> u32 {
        hop_bits(self.read(hop_place(self.map, self.segment, bucket)))
    }

    fn slot(&mut self, place: usize) -> Option<u32> {
        item(self.read(slot_place(self.map, self.segment, place)))
    }

    fn head(&mut self) -> Option<u32> {
        item(self.read(head_place(self.map, self.segment)))
    }

    fn next(&mut self, element: u32) -> Option<u32> {
        if element >= self.elements {
            return None;
        }
        item(self.read(link_place(self.map, element)))
    }

    #[inline(always)]
    fn has_key(&mut self, element: u32, key: &[u8]) -> bool {
        if element >= self.elements {
            return false;
        }
        key.len() == self.key_size && self.spells(element, key)
    }
}
