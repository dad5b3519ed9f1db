//! The words of a locked segment.
ghost use Rattle.std.specs.Prelude.{◌≡◌, ◌≢◌, ◌⊎◌, ◌<◌, ◌≤◌, ◌+◌, ◌%◌, ◌^◌, ◌↔◌, true, false, [], length, IsTrue, IsFalse, IsOk, IsErr, IfSome, None, take};
ghost use Rattle.bpf_shared.specs.Shape.{IsMapShape, elements as elements_of};
ghost use Rattle.hop_layout.specs.Home.{home_of};
ghost use Rattle.hop_words.specs.Rule.{image, owed};
ghost use Rattle.hop_layout.specs.Layout.{is_place, mem};
ghost use Rattle.hop_words.specs.Ghost.{shape_at, IsSegment};
ghost use Rattle.bpf_shared.specs.declared.events.Event.TheVariants.{Delete, Update};
ghost use Rattle.bpf_shared.specs.declared.events.MapAnswer.TheVariants.{Full, NoMemory};
ghost use Rattle.hop_words.specs.Kinds.{Inserted, IsKeyAbsent, IsWritten, unlocking, Splits, Replaces, Replaced, Removes, AnswersUnderLock, Answered, LooksUpLocked, LookedUp, AddsEvent, SawAllTaken};
ghost use Rattle.hop_words.specs.Locking.{lock_of, hand};
ghost use Rattle.hop_words.specs.Guarded.{IsGuarded, MayWrite, IsGuardedBeside, IsWordBeside, IsStampBeside};
ghost use Rattle.hop_words.specs.Sights.{sighted, split_made};
ghost use Rattle.hop_map.specs.Private.LockedSegment.{IsNoKey, IsWordAt, written, SpellsKey, spelled_key};
ghost use Rattle.hop_map.specs.LockedSegment.{knows, Ready, Fits};
ghost use Rattle.hop_words.specs.declared.known.Change.TheVariants.{Drops};
ghost use Rattle.hop_map.specs.Private.UnderLock.{LockShows, OffersInsertion};
ghost use Rattle.hop_map.specs.Private.Removals.{Dropped};
ghost use Rattle.hop_map.specs.Private.Updates.{Wants, Offers};

use crate::homing::shape_of;
use crate::listing::put_word;
use crate::numbers::{hop_bits, item, link_word};
use crate::words::{head_place, hop_place, link_place, slot_place};
use bpf_shared::{MapAnswer, MapShape};
use hop_layout::{Place, home, word_at};
use hop_seg::{SegReads, SegWords};
use hop_words::{HopTable, Lane, Request, Stamped};
use std::marker::Model;
use std::sync::Wait;

/// The lock of a key's segment: the segment's stamp before, and the key's home.
#[derive(Clone, Copy)]
pub(crate) struct KeyLock {
    pub(crate) home: u32,
    pub(crate) stamp: u64,
}

/// The words of a segment whose lock this CPU has.
#[derive(Drop)]
pub struct LockedWords<'a> {
    table: &'a HopTable,
    lane: Lane,
    map: u8,
    segment: u32,
    key_size: usize,
    elements: u32,
    // where the segment's words begin: the table would be asked before each step
    first: usize,
}

impl<'a> Model for LockedWords<'a> {
    ghost use Rattle.hop_map.specs.LockedSegment.{Locked, FitsFrom};

    ghost Value = { Locked };

    ghost view = { λ s. record {
      table = s.table.now.id;
      about = s.table.now.about;
      known = s.lane.known;
      map = s.map;
      segment = s.segment;
    } };

    ghost invariant = { λ s. FitsFrom s.table.now.id s.table.now.about s.lane.table s.lane.known
        s.map s.segment s.key_size s.elements s.first };
}

impl<'a> LockedWords<'a> {
    /// The words of a segment that this CPU has locked, with the sizes of the map.
    pub fn new(
        table: &'a HopTable,
        lane: Lane,
        map: u8,
        segment: u32,
        key_size: usize,
        elements: u32,
    ) -> LockedWords<'a>
        requires fits { Fits table.now.id table.now.about lane.table lane.known
            map segment key_size elements }
        ensures table { result.table ≡ table.now.id }
        ensures about { result.about ≡ table.now.about }
        ensures known { result.known ≡ lane.known }
        ensures map { result.map ≡ map }
        ensures segment { result.segment ≡ segment }
    {
        let first = table.segment_start(map, segment);
        let words = LockedWords {
            table,
            lane,
            map,
            segment,
            key_size,
            elements,
            first,
        };
        let _map = words.map;
        words
    }

    /// The new key counts, if the map has n: from here on the element is the map's. If it
    /// hasn't, answers how many it has.
    pub(crate) fn count_up(
        &mut self,
        element: u32,
        request: &Request<'_>,
        count: u64,
    ) -> Result<(), u64>
        requires contents { LockShows self.old.about self.old.known self.old.map self.old.segment }
        requires brings { OffersInsertion self.old.about self.old.known self.old.map
            self.old.segment
            request.now.key.now request.now.value.now request.now.flags element }
        requires absent { IsKeyAbsent self.old.about (lock_of self.old.known) request.now.key.now }
        requires room { count < (shape_at self.old.about self.old.map).max }
        requires fits { count + 1 < 2 ^ 64 }
        ensures done { let l = self.old.known in
            IsOk result →
            Inserted self.old.about l (lock_of l) (hand l) [] request.now.key.now
            request.now.value.now request.now.flags self.new.known }
        ensures missed { IsErr result → self.new ≡ self.old }
        ensures table { self.new.table ≡ self.old.table }
        ensures about { self.new.about ≡ self.old.about }
        ensures map { self.new.map ≡ self.old.map }
        ensures segment { self.new.segment ≡ self.old.segment }
    {
        let _element = element;
        self.lane.count_up(self.table, self.map, count, request)
    }

    /// The key count to try: the one that is expected, if the map would have room for one key more
    /// by it, or else the one that is there. If that leaves no room, the update is answered with
    /// `Full`.
    fn see_room(&mut self, expected: u64, request: &Request<'_>) -> Option<u64>
        requires contents { LockShows self.old.about self.old.known self.old.map self.old.segment }
        requires wants { Wants self.old.about self.old.known self.old.map self.old.segment
            request.now.key.now request.now.value.now request.now.flags }
        requires absent { IsKeyAbsent self.old.about (lock_of self.old.known) request.now.key.now }
        requires new { request.now.flags ≢ 2 }
        ensures full { result ≡ None →
            AddsEvent self.old.about self.old.known (Update self.old.map request.now.key.now
            request.now.value.now request.now.flags Full)
            self.new.known }
        ensures room { IfSome result (λ n. (self.new ≡ self.old)
            × (n < (shape_at self.old.about self.old.map).max)) }
        ensures fits { IfSome result (λ n. n + 1 < 2 ^ 64) }
        ensures table { self.new.table ≡ self.old.table }
        ensures about { self.new.about ≡ self.old.about }
        ensures map { self.new.map ≡ self.old.map }
        ensures segment { self.new.segment ≡ self.old.segment }
    {
        let max = shape_of(self.table, self.map).max;
        if expected < max {
            return Some(expected);
        }
        let count = self.lane.see_count(self.table, self.map, request);
        if count == max { None } else { Some(count) }
    }

    /// Counts the new key: from then on the element is the map's, and the words remain to be
    /// written. Or the update is answered with `Full`. The count that this CPU left is tried first,
    /// then at once the one that was found: a try that missed has the count's cache line, which a
    /// load before each try would fetch twice, and others would take it in a pause.
    pub(crate) fn count_in<R: Wait>(
        &mut self,
        rt: &R,
        expected: &mut u64,
        element: u32,
        request: &Request<'_>,
    ) -> bool
        requires contents { LockShows self.old.about self.old.known self.old.map self.old.segment }
        requires offers { Offers self.old.about self.old.known self.old.map self.old.segment
            request.now.key.now request.now.value.now request.now.flags element }
        requires absent { IsKeyAbsent self.old.about (lock_of self.old.known) request.now.key.now }
        requires new { request.now.flags ≢ 2 }
        ensures counted { let l = self.old.known in
            IsTrue result →
            Inserted self.old.about l (lock_of l) (hand l) [] request.now.key.now
            request.now.value.now request.now.flags self.new.known }
        ensures full { IsFalse result →
            AddsEvent self.old.about self.old.known (Update self.old.map request.now.key.now
            request.now.value.now request.now.flags Full)
            self.new.known }
        ensures table { self.new.table ≡ self.old.table }
        ensures about { self.new.about ≡ self.old.about }
        ensures map { self.new.map ≡ self.old.map }
        ensures segment { self.new.segment ≡ self.old.segment }
    {
        for _ in rt.forever() {
            let Some(count) = self.see_room(*expected, request) else {
                return false;
            };
            match self.count_up(element, request, count) {
                Ok(()) => {
                    *expected = count + 1;
                    return true;
                }
                Err(found) => *expected = found,
            }
        }
        unreachable!()
    }

    /// Whether the map is full, and so the update's answer: `Full`, or `NoMemory` where no element
    /// is to be had.
    pub(crate) fn see_lack(&mut self, request: &Request<'_>) -> MapAnswer
        requires contents { LockShows self.old.about self.old.known self.old.map self.old.segment }
        requires wants { Wants self.old.about self.old.known self.old.map self.old.segment
            request.now.key.now request.now.value.now request.now.flags }
        requires absent { IsKeyAbsent self.old.about (lock_of self.old.known) request.now.key.now }
        requires new { request.now.flags ≢ 2 }
        requires lacks { SawAllTaken self.old.about self.old.known self.old.map }
        ensures told { AddsEvent self.old.about self.old.known
            (Update self.old.map request.now.key.now request.now.value.now request.now.flags
            result) self.new.known }
        ensures answer { (result ≡ Full) ⊎ (result ≡ NoMemory) }
        ensures table { self.new.table ≡ self.old.table }
        ensures about { self.new.about ≡ self.old.about }
        ensures map { self.new.map ≡ self.old.map }
        ensures segment { self.new.segment ≡ self.old.segment }
    {
        let max = shape_of(self.table, self.map).max;
        let count = self.lane.see_count_lacking(self.table, self.map, request);
        if count == max {
            MapAnswer::Full
        } else {
            MapAnswer::NoMemory
        }
    }

    /// Gives the lock back, after what took effect has been written.
    pub(crate) fn unlock_written(self, stamp: u64) -> Lane
        requires stamp { stamp ≡ (lock_of self.known).stamp }
        requires fits { stamp + 256 < 2 ^ 64 }
        requires owes { owed (lock_of self.known).change ≡ 1 }
        requires written { Ready self.about self.known self.map self.segment →
            IsWritten self.about (lock_of self.known) }
        ensures table { result.table ≡ self.entry.table }
        ensures known { result.known ≡ unlocking self.entry.known }
    {
        let table = self.table;
        let at = Stamped {
            map: self.map,
            segment: self.segment,
            stamp,
        };
        let mut lane = self.lane;
        lane.unlock_written(table, at);
        lane
    }

    /// Gives the lock back, and with it a replacement takes effect that has been written.
    pub(crate) fn unlock_replaced(self, stamp: u64, request: &Request<'_>, old: u32) -> Lane
        requires stamp { stamp ≡ (lock_of self.known).stamp }
        requires fits { stamp + 256 < 2 ^ 64 }
        requires replaces { let l = self.known in
            Ready self.about l self.map self.segment →
            Replaces self.about l (lock_of l) (hand l) [] request.now.key.now
            request.now.value.now request.now.flags old }
        ensures table { result.table ≡ self.entry.table }
        ensures replaced { let l = self.entry.known in
            Replaced self.entry.about l (lock_of l) [] request.now.key.now request.now.value.now
            request.now.flags old result.known }
    {
        let table = self.table;
        let at = Stamped {
            map: self.map,
            segment: self.segment,
            stamp,
        };
        let mut lane = self.lane;
        lane.unlock_replaced(table, at, request, old);
        lane
    }

    /// Counts a key off, whose element has been removed: the deletion takes effect. Then gives the
    /// lock back.
    pub(crate) fn unlock_removed(self, expected: &mut u64, stamp: u64, key: &[u8], old: u32) -> Lane
        requires stamp { stamp ≡ (lock_of self.known).stamp }
        requires fits { stamp + 256 < 2 ^ 64 }
        requires removes { let l = self.known in
            Ready self.about l self.map self.segment →
            Removes self.about l (lock_of l) key.now old }
        requires written { let l = self.known in
            Ready self.about l self.map self.segment →
            IsWritten self.about (record (lock_of l) { change = Drops key.now; dirty = true }) }
        ensures table { result.table ≡ self.entry.table }
        ensures dropped { let l = self.entry.known in
            Dropped self.entry.about l (lock_of l).map key.now old result.known }
    {
        let table = self.table;
        let at = Stamped {
            map: self.map,
            segment: self.segment,
            stamp,
        };
        let mut holder = self.lane;
        *expected = holder.count_down(table, at.map, key, old);
        holder.unlock_written(table, at);
        holder
    }

    /// Gives the lock back, where nothing has changed, and with it a deletion is answered.
    pub(crate) fn unlock_delete(self, stamp: u64, key: &[u8], answer: MapAnswer) -> Lane
        requires stamp { stamp ≡ (lock_of self.known).stamp }
        requires answers { let l = self.known in
            Ready self.about l self.map self.segment →
            AnswersUnderLock self.about l (lock_of l) (Delete self.map key.now answer) }
        ensures table { result.table ≡ self.entry.table }
        ensures answered { let l = self.entry.known in
            Answered self.entry.about l (lock_of l) (Delete self.entry.map key.now answer)
            result.known }
    {
        let table = self.table;
        let at = Stamped {
            map: self.map,
            segment: self.segment,
            stamp,
        };
        let mut lane = self.lane;
        lane.unlock_delete(table, at, key, answer);
        lane
    }

    /// Gives the lock back, where nothing has changed, and with it an update is answered.
    pub(crate) fn unlock_update(self, stamp: u64, request: &Request<'_>, answer: MapAnswer) -> Lane
        requires stamp { stamp ≡ (lock_of self.known).stamp }
        requires answers { let l = self.known in
            Ready self.about l self.map self.segment →
            AnswersUnderLock self.about l (lock_of l) (Update self.map request.now.key.now
            request.now.value.now request.now.flags answer) }
        ensures table { result.table ≡ self.entry.table }
        ensures answered { let l = self.entry.known in
            Answered self.entry.about l (lock_of l)
            (Update self.entry.map request.now.key.now request.now.value.now request.now.flags
            answer) result.known }
    {
        let table = self.table;
        let at = Stamped {
            map: self.map,
            segment: self.segment,
            stamp,
        };
        let mut lane = self.lane;
        lane.unlock_update(table, at, request, answer);
        lane
    }

    /// Gives the lock back, where nothing has changed, and with it a lookup is answered.
    pub(crate) fn unlock_lookup(self, stamp: u64, key: &[u8], found: Option<u32>) -> Lane
        requires stamp { stamp ≡ (lock_of self.known).stamp }
        requires looks { let l = self.known in
            Ready self.about l self.map self.segment →
            LooksUpLocked self.about l (lock_of l) key.now found }
        ensures table { result.table ≡ self.entry.table }
        ensures answered { let l = self.entry.known in
            LookedUp self.entry.about l (lock_of l) key.now found result.known }
    {
        let table = self.table;
        let at = Stamped {
            map: self.map,
            segment: self.segment,
            stamp,
        };
        let mut lane = self.lane;
        lane.unlock_lookup(table, at, key, found);
        lane
    }

    /// Gives the lock back, where nothing has changed.
    pub(crate) fn unlock_silent(self, stamp: u64) -> Lane
        requires stamp { stamp ≡ (lock_of self.known).stamp }
        requires clean { (lock_of self.known).dirty ≡ false }
        ensures table { result.table ≡ self.entry.table }
        ensures known { result.known ≡ unlocking self.entry.known }
    {
        let table = self.table;
        let at = Stamped {
            map: self.map,
            segment: self.segment,
            stamp,
        };
        let mut lane = self.lane;
        lane.unlock_silent(table, at);
        lane
    }

    /// The map's number.
    pub(crate) fn map(&self) -> u8
        ensures map { result ≡ self.now.map }
        ensures ready { Ready self.now.about self.now.known self.now.map self.now.segment }
    {
        self.map
    }

    /// The segment's number.
    pub(crate) fn segment(&self) -> u32
        ensures segment { result ≡ self.now.segment }
        ensures inside { IsSegment self.now.about self.now.map self.now.segment }
    {
        self.segment
    }

    /// The shape of the segment's map.
    pub(crate) fn shape(&self) -> MapShape
        ensures shape { result ≡ shape_at self.now.about self.now.map }
        ensures sizes { IsMapShape result }
    {
        shape_of(self.table, self.map)
    }

    /// The seed of the maps' hashes.
    fn seed(&self) -> u64
        ensures { result ≡ self.now.about.seed }
    {
        self.table.about().seed
    }

    /// The version that segments are made with.
    pub(crate) fn version(&self) -> u64
        ensures { result ≡ self.now.about.version }
    {
        self.table.about().version
    }

    /// A word of the segment that is born when this one splits.
    #[inline(always)]
    pub(crate) fn read_beside(&mut self, place: Place) -> u64
        requires there { is_place self.old.about.shape place ≡ true }
        requires beside { IsGuardedBeside self.old.known place }
        ensures value { result ≡ mem self.old.about.shape (lock_of self.old.known).copy place }
        ensures same { self.new ≡ self.old }
    {
        self.lane.read_beside(self.table, place)
    }

    /// Writes a word of that segment.
    #[inline(always)]
    pub(crate) fn write_beside(&mut self, place: Place, number: u64)
        requires there { is_place self.old.about.shape place ≡ true }
        requires beside { IsWordBeside self.old.known place }
        requires no_key { IsNoKey place }
        ensures written { self.new ≡ written self.old place number }
    {
        self.lane.write_beside(self.table, place, number);
    }

    /// Writes the stamp of that segment.
    pub(crate) fn write_stamp_beside(&mut self, place: Place, stamp: u64)
        requires there { is_place self.old.about.shape place ≡ true }
        requires beside { IsStampBeside self.old.known place }
        requires no_key { IsNoKey place }
        requires even { stamp % 2 ≡ 0 }
        ensures written { self.new ≡ written self.old place stamp }
    {
        self.lane.write_stamp_beside(self.table, place, stamp);
    }

    /// Gives the lock back with one depth more, and with it that segment is born.
    pub(crate) fn unlock_split(self, stamp: u64, child_stamp: u64) -> Lane
        requires stamp { stamp ≡ (lock_of self.known).stamp }
        requires fits { stamp + 258 < 2 ^ 64 }
        requires splits { let l = self.known in
            Ready self.about l self.map self.segment →
            Splits self.about l (lock_of l) child_stamp }
        ensures table { result.table ≡ self.entry.table }
        ensures known { result.known ≡ sighted (unlocking self.entry.known)
            (split_made self.entry.map self.entry.segment stamp) }
    {
        let table = self.table;
        let at = Stamped {
            map: self.map,
            segment: self.segment,
            stamp,
        };
        let mut lane = self.lane;
        lane.publish_split(table, at, child_stamp);
        lane
    }

    #[inline(always)]
    fn read(&mut self, place: Place) -> u64
        requires there { is_place self.old.about.shape place ≡ true }
        ensures value { IsGuarded self.old.about self.old.known place →
            result ≡ mem self.old.about.shape (lock_of self.old.known).copy place }
        ensures same { self.new ≡ self.old }
    {
        self.lane.read_guarded(self.table, place)
    }

    // Reads a word of the segment, n words after its first.
    #[inline(always)]
    fn read_in(&mut self, place: Place, offset: usize) -> u64
        requires there { is_place self.old.about.shape place ≡ true }
        requires word { IsWordAt self.old.about self.old.map self.old.segment offset place }
        ensures value { IsGuarded self.old.about self.old.known place →
            result ≡ mem self.old.about.shape (lock_of self.old.known).copy place }
        ensures same { self.new ≡ self.old }
    {
        let word = self.first + offset;
        self.lane.read_guarded_at(self.table, place, word)
    }

    // Writes a word of the segment, n words after its first.
    #[inline(always)]
    fn write_in(&mut self, place: Place, offset: usize, number: u64)
        requires there { is_place self.old.about.shape place ≡ true }
        requires word { IsWordAt self.old.about self.old.map self.old.segment offset place }
        requires may { MayWrite self.old.about self.old.known place }
        requires no_key { IsNoKey place }
        ensures written { self.new ≡ written self.old place number }
    {
        let word = self.first + offset;
        self.lane.write_guarded_at(self.table, place, word, number);
    }

    #[inline(always)]
    fn write(&mut self, place: Place, number: u64)
        requires there { is_place self.old.about.shape place ≡ true }
        requires may { MayWrite self.old.about self.old.known place }
        requires no_key { IsNoKey place }
        ensures written { self.new ≡ written self.old place number }
    {
        self.lane.write_guarded(self.table, place, number);
    }
}

impl<'a> LockedWords<'a> {
    /// Whether an element's words are the key's.
    #[inline(always)]
    fn spells(&mut self, element: u32, key: &[u8]) -> bool
        requires inside { element < elements_of (shape_at self.old.about self.old.map) }
        requires size { length key.now ≡ (shape_at self.old.about self.old.map).key }
        requires small { length key.now ≤ 64 }
        ensures value { knows self.old.known self.old.map element ≡ true →
            IsTrue result ↔ SpellsKey self.old.about self.old.known self.old.map element key.now }
        ensures same { self.new ≡ self.old }
    {
        'words: for word in 0..key.len().div_ceil(8) {
            let place = Place::KeyWord {
                map: self.map,
                element,
                word: word as u32,
            };
            if self.read(place) != word_at(key, word) {
                return false;
            }
        }
        true
    }
    /// The bytes of an element's key, and what lies after them.
    fn key_bytes(&mut self, element: u32, size: usize) -> [u8; 64]
        requires inside { element < elements_of (shape_at self.old.about self.old.map) }
        requires known { knows self.old.known self.old.map element ≡ true }
        requires size { size ≡ (shape_at self.old.about self.old.map).key }
        requires small { size ≤ 64 }
        ensures key { take size result ≡ spelled_key self.old.about self.old.map
            (image self.old.about (lock_of self.old.known).copy) element }
        ensures same { self.new ≡ self.old }
    {
        let mut bytes = [0u8; 64];
        'words: for word in 0..size.div_ceil(8) {
            let place = Place::KeyWord {
                map: self.map,
                element,
                word: word as u32,
            };
            put_word(&mut bytes, word, self.read(place));
        }
        bytes
    }

    // The home of an element's key of any size. Out of line, since a key of one word needs no buffer.
    #[inline(never)]
    fn home_of_bytes(&mut self, element: u32) -> u32
        requires inside { element < elements_of (shape_at self.old.about self.old.map) }
        requires known { knows self.old.known self.old.map element ≡ true }
        ensures home { let g = shape_at self.old.about self.old.map in
            result ≡ home_of (spelled_key self.old.about self.old.map
            (image self.old.about (lock_of self.old.known).copy) element)
            self.old.about.seed g.mask }
        ensures same { self.new ≡ self.old }
    {
        let shape = self.shape();
        let seed = self.seed();
        let size = shape.key as usize;
        let bytes = self.key_bytes(element, size);
        home(&bytes[..size], seed, shape.mask)
    }

    /// The home of an element's key. A key of one whole word is hashed as it was read.
    pub(crate) fn home_of_key(&mut self, element: u32) -> u32
        requires inside { element < elements_of (shape_at self.old.about self.old.map) }
        requires known { knows self.old.known self.old.map element ≡ true }
        ensures home { let g = shape_at self.old.about self.old.map in
            result ≡ home_of (spelled_key self.old.about self.old.map
            (image self.old.about (lock_of self.old.known).copy) element)
            self.old.about.seed g.mask }
        ensures same { self.new ≡ self.old }
    {
        let shape = self.shape();
        let seed = self.seed();
        if shape.key == 8 {
            let place = Place::KeyWord {
                map: self.map,
                element,
                word: 0,
            };
            let bytes = self.read(place).to_le_bytes();
            return home(&bytes, seed, shape.mask);
        }
        self.home_of_bytes(element)
    }
}

impl<'a> SegReads for LockedWords<'a> {
    ghost use Rattle.std.specs.Prelude.{refl, ◌≡◌};
    ghost use Rattle.std.proofs.Common.{◌∙◌, ap};
    ghost use Rattle.hop_map.specs.Private.LockedSegment.{seen_words as shown_words, locked_elements};

    ghost agrees = { λ x w. w ≡ shown_words x };

    ghost rests = { λ x y. y ≡ x };

    ghost reads = { λ x. 0 };

    ghost key_words = { λ x. 0 };

    ghost count = { locked_elements };

    ghost rests_itself = { λ x. refl };

    ghost rests_on = { λ x y z p q. q ∙ p };

    ghost rests_alike = { λ x y p. (ap locked_elements p, refl) };

    ghost agreed_before = { λ x y w p a. a ∙ ap shown_words p };

    fn elements(&self) -> u32 {
        self.elements
    }

    fn hop(&mut self, bucket: usize) -> u32 {
        let place = hop_place(self.map, self.segment, bucket);
        hop_bits(self.read_in(place, 2 + 2 * bucket))
    }

    fn slot(&mut self, place: usize) -> Option<u32> {
        let slot = slot_place(self.map, self.segment, place);
        item(self.read_in(slot, 3 + 2 * place))
    }

    fn head(&mut self) -> Option<u32> {
        let place = head_place(self.map, self.segment);
        item(self.read_in(place, 1))
    }

    fn next(&mut self, element: u32) -> Option<u32> {
        if element >= self.elements {
            return None;
        }
        item(self.read(link_place(self.map, element)))
    }

    #[inline(always)]
    fn has_key(&mut self, element: u32, key: &[u8]) -> bool {
        if element >= self.elements {
            return false;
        }
        key.len() == self.key_size && self.spells(element, key)
    }
}

impl<'a> SegWords for LockedWords<'a> {
    ghost use Rattle.std.specs.Prelude.{refl, ◌≡◌};
    ghost use Rattle.std.proofs.Common.{ap, sym, subst};
    ghost use Rattle.hop_map.specs.Private.LockedSegment.{seen_words as shown_words};
    ghost use Rattle.hop_map.specs.LockedSegment.{Stays};
    ghost use Rattle.hop_map.specs.Lemmas.Keeping.{stays_itself as itself, stays_on as on};

    ghost words = { shown_words };

    ghost stays = { Stays };

    ghost stays_itself = { itself };

    ghost stays_on = { on };

    ghost words_agree = { λ x. refl };

    ghost words_rest = { λ x y p. ap shown_words p };

    ghost stays_at_rest = { λ x y p. subst (Stays x) (sym p) (itself x) };

    fn set_hop(&mut self, bucket: usize, bits: u32) {
        let place = hop_place(self.map, self.segment, bucket);
        self.write_in(place, 2 + 2 * bucket, u64::from(bits));
    }

    fn set_slot(&mut self, place: usize, item: Option<u32>) {
        let slot = slot_place(self.map, self.segment, place);
        self.write_in(slot, 3 + 2 * place, link_word(item));
    }

    fn set_head(&mut self, element: Option<u32>) {
        let place = head_place(self.map, self.segment);
        self.write_in(place, 1, link_word(element));
    }

    fn set_next(&mut self, element: u32, following: Option<u32>) {
        self.write(link_place(self.map, element), link_word(following));
    }
}
