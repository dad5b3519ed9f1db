//! The steps by which an update or a deletion takes effect: at the key count, or at the unlock.
ghost use Rattle.std.specs.Prelude.{◌≡◌, ◌<◌, ◌+◌, ◌^◌, false, length, IsOk, IsErr};
ghost use Rattle.bpf_shared.specs.declared.events.Event.TheVariants.{Update, Delete, Keys};
ghost use Rattle.bpf_shared.specs.KeyOrder.{in_order};
ghost use Rattle.hop_words.specs.Ghost.{IsSegment};
ghost use Rattle.hop_words.specs.Rule.{owed};
ghost use Rattle.hop_words.specs.Kinds.{Inserts, Inserted, Removes, Removed, CountsUnderLock, Misflagged, AddsEvent, IsWritten, unlocking, AreElsewhere, AnswersUnderLock, Answered, LooksUpLocked, LookedUp, Replaces, Replaced, SawAllTaken};
ghost use Rattle.hop_words.specs.Owning.{tail_of};
ghost use Rattle.hop_words.specs.Listing.{AnswersGiving, ListsMap, lock_given};
ghost use Rattle.hop_words.specs.Sights.{sighted};
ghost use Rattle.hop_words.specs.Locking.{lock_of, other_locks, unlocking_last, hand, HasLock, HasLastLock, SeesRoom, SeesLack};

use crate::lane::Lane;
use crate::locking::Stamped;
use crate::table::HopTable;
use bpf_shared::{KeyList, MapAnswer};
use hop_layout::Place;
use std::marker::Brand;

/// What an update asks for: a value under a key, as the flags say (bpf-helpers(7)).
#[derive(Clone, Copy)]
pub struct Request<'a> {
    pub key: &'a [u8],
    pub value: &'a [u8],
    pub flags: u64,
}

impl Lane {
    /// The new key counts if the count is this one: the update is done, and the element is the
    /// map's. If it isn't, answers the count that is there.
    pub fn count_up(
        &mut self,
        table: &HopTable,
        map: u8,
        count: u64,
        request: &Request<'_>,
    ) -> Result<(), u64>
        requires table { self.old.table ≡ table.now.id }
        requires inside { map < length table.now.about.shape.maps }
        requires map { (lock_of self.old.known).map ≡ map }
        requires fits { count + 1 < 2 ^ 64 }
        requires inserts { Inserts table.now.about self.old.known (lock_of self.old.known)
            (hand self.old.known) (tail_of self.old.known.fresh) request.now.key.now
            request.now.value.now request.now.flags count }
        ensures table { self.new.table ≡ self.old.table }
        ensures done { IsOk result
            → Inserted table.now.about self.old.known (lock_of self.old.known) (hand self.old.known)
            (tail_of self.old.known.fresh) request.now.key.now request.now.value.now
            request.now.flags self.new.known }
        ensures missed { IsErr result → self.new.known ≡ self.old.known }
    {
        let place = Place::KeyCount { map };
        let found = self.exchange_by::<Brand, _>(table, place, count, count + 1, request);
        if found == count { Ok(()) } else { Err(found) }
    }

    /// The key count goes down by one: the deletion is done, and the element is in hand, used.
    /// AnswersUnderLock the count that is left.
    pub fn count_down(&mut self, table: &HopTable, map: u8, key: &[u8], element: u32) -> u64
        requires table { self.old.table ≡ table.now.id }
        requires inside { map < length table.now.about.shape.maps }
        requires map { (lock_of self.old.known).map ≡ map }
        requires removes { Removes table.now.about self.old.known (lock_of self.old.known) key.now
            element }
        ensures table { self.new.table ≡ self.old.table }
        ensures done { Removed table.now.about self.old.known (lock_of self.old.known) key.now
            element self.new.known }
    {
        let place = Place::KeyCount { map };
        self.add_by::<Brand, _>(table, place, u64::MAX, (key, element))
            .wrapping_sub(1)
    }

    /// The key count, where the key isn't in the map. At the map's most keys the update's answer is
    /// `Full`.
    pub fn see_count(&mut self, table: &HopTable, map: u8, request: &Request<'_>) -> u64
        requires table { self.old.table ≡ table.now.id }
        requires inside { map < length table.now.about.shape.maps }
        requires map { (lock_of self.old.known).map ≡ map }
        requires counts { CountsUnderLock table.now.about self.old.known (lock_of self.old.known)
            request.now.key.now
            request.now.value.now request.now.flags }
        ensures table { self.new.table ≡ self.old.table }
        ensures seen { SeesRoom table.now.about self.old.known request.now.key.now
            request.now.value.now request.now.flags result
            self.new.known }
    {
        self.load_by::<Brand, _>(table, Place::KeyCount { map }, request)
    }

    /// The key count, where no element is to be had: the update's answer is `Full` or `NoMemory`.
    pub fn see_count_lacking(&mut self, table: &HopTable, map: u8, request: &Request<'_>) -> u64
        requires table { self.old.table ≡ table.now.id }
        requires inside { map < length table.now.about.shape.maps }
        requires map { (lock_of self.old.known).map ≡ map }
        requires counts { CountsUnderLock table.now.about self.old.known (lock_of self.old.known)
            request.now.key.now
            request.now.value.now request.now.flags }
        requires lacks { SawAllTaken table.now.about self.old.known map }
        ensures table { self.new.table ≡ self.old.table }
        ensures seen { SeesLack table.now.about self.old.known request.now.key.now
            request.now.value.now request.now.flags result
            self.new.known }
    {
        self.load_by::<Brand, _>(table, Place::KeyCount { map }, request)
    }

    /// The key count, where the flags are none of those known: the update's answer is `Invalid`.
    pub fn see_count_misflagged(&mut self, table: &HopTable, map: u8, request: &Request<'_>)
        requires table { self.old.table ≡ table.now.id }
        requires misflagged { Misflagged table.now.about self.old.known map request.now.key.now
            request.now.value.now
            request.now.flags }
        ensures table { self.new.table ≡ self.old.table }
        ensures answered { AddsEvent table.now.about self.old.known
            (Update map request.now.key.now request.now.value.now request.now.flags
            MapAnswer.Invalid) self.new.known }
    {
        self.load_by::<Brand, _>(table, Place::KeyCount { map }, (map, request));
    }

    /// Unlocks a segment that changed, after what took effect has been written.
    pub fn unlock_written(&mut self, table: &HopTable, at: Stamped)
        requires table { self.old.table ≡ table.now.id }
        requires inside { IsSegment table.now.about at.map at.segment }
        requires lock { HasLock self.old.known at.map at.segment }
        requires stamp { at.stamp ≡ (lock_of self.old.known).stamp }
        requires fits { at.stamp + 256 < 2 ^ 64 }
        requires owes { owed (lock_of self.old.known).change ≡ 1 }
        requires written { IsWritten table.now.about (lock_of self.old.known) }
        ensures table { self.new.table ≡ self.old.table }
        ensures unlocked { self.new.known ≡ unlocking self.old.known }
    {
        let place = Place::Stamp {
            map: at.map,
            segment: at.segment,
        };
        self.unlock_by::<Brand, _>(table, place, at.stamp + 256, ());
    }

    /// Unlocks the segment that was locked last, where it didn't change. Other locks stay.
    pub fn unlock_silent(&mut self, table: &HopTable, at: Stamped)
        requires table { self.old.table ≡ table.now.id }
        requires inside { IsSegment table.now.about at.map at.segment }
        requires lock { HasLastLock self.old.known at.map at.segment }
        requires elsewhere { AreElsewhere (lock_of self.old.known) (other_locks self.old.known) }
        requires stamp { at.stamp ≡ (lock_of self.old.known).stamp }
        requires clean { (lock_of self.old.known).dirty ≡ false }
        ensures table { self.new.table ≡ self.old.table }
        ensures unlocked { self.new.known ≡ unlocking_last self.old.known }
    {
        let place = Place::Stamp {
            map: at.map,
            segment: at.segment,
        };
        self.unlock_by::<Brand, _>(table, place, at.stamp, ());
    }

    /// Unlocks the segment that was locked last, where this CPU has the locks of all segments of a
    /// map and none changed, and with it the map's keys are listed: those of the list, in order.
    /// The unlock is noted.
    pub fn unlock_keys(&mut self, table: &HopTable, at: Stamped, list: &KeyList)
        requires table { self.old.table ≡ table.now.id }
        requires inside { IsSegment table.now.about at.map at.segment }
        requires lock { HasLastLock self.old.known at.map at.segment }
        requires stamp { at.stamp ≡ (lock_of self.old.known).stamp }
        requires lists { ListsMap table.now.about self.old.known at.map list.now.keys }
        ensures table { self.new.table ≡ self.old.table }
        ensures listed { AnswersGiving table.now.about self.old.known
            (Keys at.map (in_order list.now.keys)) self.new.known }
    {
        let place = Place::Stamp {
            map: at.map,
            segment: at.segment,
        };
        self.unlock_noted::<Brand, _>(table, place, at.stamp, (at.map, list));
    }

    /// Unlocks the segment that was locked last, where it didn't change: one of those that were
    /// listed. The unlock is noted, and other locks stay.
    pub fn unlock_listed(&mut self, table: &HopTable, at: Stamped)
        requires table { self.old.table ≡ table.now.id }
        requires inside { IsSegment table.now.about at.map at.segment }
        requires lock { HasLastLock self.old.known at.map at.segment }
        requires elsewhere { AreElsewhere (lock_of self.old.known) (other_locks self.old.known) }
        requires stamp { at.stamp ≡ (lock_of self.old.known).stamp }
        requires clean { (lock_of self.old.known).dirty ≡ false }
        ensures table { self.new.table ≡ self.old.table }
        ensures unlocked { self.new.known ≡ sighted (unlocking_last self.old.known)
            (lock_given (lock_of self.old.known)) }
    {
        let place = Place::Stamp {
            map: at.map,
            segment: at.segment,
        };
        self.unlock_noted::<Brand, _>(table, place, at.stamp, ());
    }

    /// Unlocks a segment that didn't change, and with it an update is answered.
    pub fn unlock_update(
        &mut self,
        table: &HopTable,
        at: Stamped,
        request: &Request<'_>,
        answer: MapAnswer,
    )
        requires table { self.old.table ≡ table.now.id }
        requires inside { IsSegment table.now.about at.map at.segment }
        requires lock { HasLock self.old.known at.map at.segment }
        requires stamp { at.stamp ≡ (lock_of self.old.known).stamp }
        requires answers { AnswersUnderLock table.now.about self.old.known (lock_of self.old.known)
            (Update at.map request.now.key.now request.now.value.now request.now.flags answer) }
        ensures table { self.new.table ≡ self.old.table }
        ensures answered { Answered table.now.about self.old.known (lock_of self.old.known)
            (Update at.map request.now.key.now request.now.value.now request.now.flags answer)
            self.new.known }
    {
        let place = Place::Stamp {
            map: at.map,
            segment: at.segment,
        };
        self.unlock_by::<Brand, _>(table, place, at.stamp, (at.map, request, answer));
    }

    /// Unlocks a segment that didn't change, and with it a deletion is answered.
    pub fn unlock_delete(&mut self, table: &HopTable, at: Stamped, key: &[u8], answer: MapAnswer)
        requires table { self.old.table ≡ table.now.id }
        requires inside { IsSegment table.now.about at.map at.segment }
        requires lock { HasLock self.old.known at.map at.segment }
        requires stamp { at.stamp ≡ (lock_of self.old.known).stamp }
        requires answers { AnswersUnderLock table.now.about self.old.known (lock_of self.old.known)
            (Delete at.map key.now answer) }
        ensures table { self.new.table ≡ self.old.table }
        ensures answered { Answered table.now.about self.old.known (lock_of self.old.known)
            (Delete at.map key.now answer) self.new.known }
    {
        let place = Place::Stamp {
            map: at.map,
            segment: at.segment,
        };
        self.unlock_by::<Brand, _>(table, place, at.stamp, (at.map, key, answer));
    }

    /// Unlocks a segment that didn't change, and with it a lookup is answered.
    pub fn unlock_lookup(&mut self, table: &HopTable, at: Stamped, key: &[u8], found: Option<u32>)
        requires table { self.old.table ≡ table.now.id }
        requires inside { IsSegment table.now.about at.map at.segment }
        requires lock { HasLock self.old.known at.map at.segment }
        requires stamp { at.stamp ≡ (lock_of self.old.known).stamp }
        requires looks { LooksUpLocked table.now.about self.old.known (lock_of self.old.known)
            key.now found }
        ensures table { self.new.table ≡ self.old.table }
        ensures answered { LookedUp table.now.about self.old.known (lock_of self.old.known) key.now
            found self.new.known }
    {
        let place = Place::Stamp {
            map: at.map,
            segment: at.segment,
        };
        self.unlock_by::<Brand, _>(table, place, at.stamp, (key, found));
    }

    /// Unlocks a segment, and with it a replacement takes effect that has been written: the old
    /// element is in hand, used.
    pub fn unlock_replaced(
        &mut self,
        table: &HopTable,
        at: Stamped,
        request: &Request<'_>,
        old: u32,
    )
        requires table { self.old.table ≡ table.now.id }
        requires inside { IsSegment table.now.about at.map at.segment }
        requires lock { HasLock self.old.known at.map at.segment }
        requires stamp { at.stamp ≡ (lock_of self.old.known).stamp }
        requires fits { at.stamp + 256 < 2 ^ 64 }
        requires replaces { Replaces table.now.about self.old.known (lock_of self.old.known)
            (hand self.old.known) (tail_of self.old.known.fresh) request.now.key.now
            request.now.value.now request.now.flags old }
        ensures table { self.new.table ≡ self.old.table }
        ensures replaced { Replaced table.now.about self.old.known (lock_of self.old.known)
            (tail_of self.old.known.fresh) request.now.key.now request.now.value.now
            request.now.flags old self.new.known }
    {
        let place = Place::Stamp {
            map: at.map,
            segment: at.segment,
        };
        self.unlock_by::<Brand, _>(table, place, at.stamp + 256, (request, old));
    }
}
