//! Readings without a lock: a segment's stamp, then words of it, then its stamp again.
ghost use Rattle.std.specs.Prelude.{◌≡◌, true, [], ◌∷◌};
ghost use Rattle.hop_layout.specs.Layout.{is_place};
ghost use Rattle.hop_words.specs.Ghost.{IsSegment};
ghost use Rattle.hop_words.specs.Kinds.{StampSeen, StampSeenAgain, peeking, FindsByPeeks, KnowsBorn, StampNoted};
ghost use Rattle.hop_words.specs.Peeking.{latest_reading, HasReading};

use crate::lane::Lane;
use crate::table::HopTable;
use hop_layout::Place;
use std::marker::Brand;
use std::sync::Wait;

impl Lane {
    /// A segment's stamp. An unlocked one begins a reading of the segment, a locked one is a
    /// disturbed reading.
    #[inline(always)]
    pub fn see_stamp(&mut self, table: &HopTable, map: u8, segment: u32) -> u64
        requires table { self.old.table ≡ table.now.id }
        requires inside { IsSegment table.now.about map segment }
        requires unlocked { self.old.known.locks ≡ [] }
        requires born { KnowsBorn table.now.about self.old.known map segment }
        ensures table { self.new.table ≡ self.old.table }
        ensures seen { StampSeen table.now.about self.old.known map segment result self.new.known }
    {
        self.load_noted::<Brand, _>(table, Place::Stamp { map, segment }, (map, segment))
    }

    /// A segment's stamp on the way to a lock, whether locked or not. Which of its children are born
    /// is known from here on. It isn't noted: so only a caller that may wait can make it.
    pub fn note_stamp<R: Wait>(&mut self, _rt: &R, table: &HopTable, map: u8, segment: u32) -> u64
        requires table { self.old.table ≡ table.now.id }
        requires inside { IsSegment table.now.about map segment }
        requires born { KnowsBorn table.now.about self.old.known map segment }
        ensures table { self.new.table ≡ self.old.table }
        ensures noted { StampNoted table.now.about self.old.known map segment result
            self.new.known }
    {
        self.load_by::<Brand, _>(table, Place::Stamp { map, segment }, (map, segment))
    }

    /// Any word, which others may be writing. What it was is kept with the reading, and noted.
    #[inline(always)]
    pub fn peek(&mut self, table: &HopTable, place: Place) -> u64
        requires table { self.old.table ≡ table.now.id }
        requires there { is_place table.now.about.shape place ≡ true }
        requires reading { self.old.known.readings ≡ latest_reading self.old.known ∷ [] }
        ensures table { self.new.table ≡ self.old.table }
        ensures peeked { self.new.known
            ≡ peeking self.old.known (latest_reading self.old.known) place result }
    {
        self.load_noted::<Brand, _>(table, place, ())
    }

    /// The segment's stamp again, where all that was read shows what the key leads to. The same
    /// stamp answers a lookup of the key, any other is a disturbed reading.
    #[inline(always)]
    pub fn see_stamp_again(
        &mut self,
        table: &HopTable,
        map: u8,
        segment: u32,
        key: &[u8],
        found: Option<u32>,
    ) -> u64
        requires table { self.old.table ≡ table.now.id }
        requires inside { IsSegment table.now.about map segment }
        requires reading { HasReading self.old.known map segment }
        requires finds { FindsByPeeks table.now.about self.old.known (latest_reading self.old.known)
            key.now found }
        ensures table { self.new.table ≡ self.old.table }
        ensures seen { StampSeenAgain table.now.about self.old.known (latest_reading self.old.known)
            key.now found result self.new.known }
    {
        self.load_noted::<Brand, _>(table, Place::Stamp { map, segment }, (key, found))
    }
}
