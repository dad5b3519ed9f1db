//! The steps on a segment under its lock. A lock is a compare-exchange of an unlocked stamp, and
//! the unlock a store of it: with the version plus 1 where the segment changed, else with the same.
ghost use Rattle.std.specs.Prelude.{◌≡◌, ◌+◌, ◌%◌, IsTrue, IsFalse};
ghost use Rattle.hop_layout.specs.declared.place.Place.TheVariants.{Stamp};
ghost use Rattle.hop_words.specs.Ghost.{IsSegment};
ghost use Rattle.hop_words.specs.Kinds.{LocksSegment, KnowsBorn};
ghost use Rattle.hop_words.specs.Locking.{lock_of, HasLastLock};
ghost use Rattle.hop_words.specs.Sights.{look, sighted};

use crate::lane::Lane;
use crate::table::HopTable;
use hop_layout::Place;
use std::marker::Brand;

/// A segment of a map, and its stamp.
#[derive(Clone, Copy)]
pub struct Stamped {
    pub map: u8,
    pub segment: u32,
    pub stamp: u64,
}

impl Lane {
    /// A segment's stamp, of which nothing is known later but that it was looked at.
    pub fn look_at_stamp(&mut self, table: &HopTable, map: u8, segment: u32) -> u64
        requires table { self.old.table ≡ table.now.id }
        requires inside { IsSegment table.now.about map segment }
        ensures table { self.new.table ≡ self.old.table }
        ensures looked { self.new.known ≡ sighted self.old.known (look (Stamp map segment) result) }
    {
        self.load_noted::<Brand, _>(table, Place::Stamp { map, segment }, (map, segment))
    }

    /// Locks a segment if its stamp is this one. The locks that the CPU has already it keeps.
    pub fn lock(&mut self, table: &HopTable, map: u8, segment: u32, stamp: u64) -> bool
        requires table { self.old.table ≡ table.now.id }
        requires inside { IsSegment table.now.about map segment }
        requires born { KnowsBorn table.now.about self.old.known map segment }
        requires even { stamp % 2 ≡ 0 }
        ensures table { self.new.table ≡ self.old.table }
        ensures locked { IsTrue result
            → LocksSegment table.now.about self.old.known map segment stamp self.new.known }
        ensures missed { IsFalse result → self.new.known ≡ self.old.known }
    {
        let place = Place::Stamp { map, segment };
        let found = self.exchange_noted::<Brand, _>(table, place, stamp, stamp + 1, (map, segment));
        found == stamp
    }

    /// The stamp of the segment that was locked last, as it was before.
    pub fn read_locked_stamp(&mut self, table: &HopTable, map: u8, segment: u32) -> u64
        requires table { self.old.table ≡ table.now.id }
        requires inside { IsSegment table.now.about map segment }
        requires lock { HasLastLock self.old.known map segment }
        ensures table { self.new.table ≡ self.old.table }
        ensures stamp { result ≡ (lock_of self.old.known).stamp + 1 }
        ensures same { self.new.known ≡ self.old.known }
    {
        self.load_by::<Brand, _>(table, Place::Stamp { map, segment }, (map, segment))
    }
}
