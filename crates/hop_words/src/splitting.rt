//! A segment splits: under its lock the words of its child to be are written beside its own, and by
//! the unlocking store, with one depth more, the child is born.
ghost use Rattle.std.specs.Prelude.{◌≡◌, ◌<◌, ◌+◌, ◌^◌, ◌%◌, true, [], ◌∷◌};
ghost use Rattle.hop_layout.specs.Layout.{is_place, mem};
ghost use Rattle.hop_words.specs.Ghost.{IsSegment};
ghost use Rattle.hop_words.specs.Kinds.{Splits, unlocking, writing};
ghost use Rattle.hop_words.specs.Locking.{lock_of, HasLock};
ghost use Rattle.hop_words.specs.Guarded.{IsGuardedBeside, IsWordBeside, IsStampBeside};
ghost use Rattle.hop_words.specs.Sights.{sighted, split_made};

use crate::lane::Lane;
use crate::locking::Stamped;
use crate::table::HopTable;
use hop_layout::Place;
use std::marker::Brand;

impl Lane {
    /// Reads a word of the segment that is born when the locked one splits.
    #[inline(always)]
    pub fn read_beside(&mut self, table: &HopTable, place: Place) -> u64
        requires table { self.old.table ≡ table.now.id }
        requires there { is_place table.now.about.shape place ≡ true }
        requires held { self.old.known.locks ≡ lock_of self.old.known ∷ [] }
        requires beside { IsGuardedBeside self.old.known place }
        ensures table { self.new.table ≡ self.old.table }
        ensures word { result ≡ mem table.now.about.shape (lock_of self.old.known).copy place }
        ensures same { self.new.known ≡ self.old.known }
    {
        self.load_by::<Brand, _>(table, place, ())
    }

    /// Writes a word of the segment that is born when the locked one splits.
    #[inline(always)]
    pub fn write_beside(&mut self, table: &HopTable, place: Place, number: u64)
        requires table { self.old.table ≡ table.now.id }
        requires there { is_place table.now.about.shape place ≡ true }
        requires held { self.old.known.locks ≡ lock_of self.old.known ∷ [] }
        requires beside { IsWordBeside self.old.known place }
        ensures table { self.new.table ≡ self.old.table }
        ensures written { let l = self.old.known in
            self.new.known ≡ writing table.now.about l (lock_of l) place number }
    {
        self.store_by::<Brand, _>(table, place, number, ());
    }

    /// Writes the stamp of the segment that is born when the locked one splits. It isn't locked.
    pub fn write_stamp_beside(&mut self, table: &HopTable, place: Place, stamp: u64)
        requires table { self.old.table ≡ table.now.id }
        requires there { is_place table.now.about.shape place ≡ true }
        requires held { self.old.known.locks ≡ lock_of self.old.known ∷ [] }
        requires beside { IsStampBeside self.old.known place }
        requires even { stamp % 2 ≡ 0 }
        ensures table { self.new.table ≡ self.old.table }
        ensures written { let l = self.old.known in
            self.new.known ≡ writing table.now.about l (lock_of l) place stamp }
    {
        self.beside_by::<Brand, _>(table, place, stamp, ());
    }

    /// Unlocks a segment with one depth more, and with it the child is born that was written beside
    /// it.
    pub fn publish_split(&mut self, table: &HopTable, at: Stamped, child_stamp: u64)
        requires table { self.old.table ≡ table.now.id }
        requires inside { IsSegment table.now.about at.map at.segment }
        requires lock { HasLock self.old.known at.map at.segment }
        requires stamp { at.stamp ≡ (lock_of self.old.known).stamp }
        requires fits { at.stamp + 258 < 2 ^ 64 }
        requires splits { Splits table.now.about self.old.known (lock_of self.old.known)
            child_stamp }
        ensures table { self.new.table ≡ self.old.table }
        ensures unlocked { self.new.known
            ≡ sighted (unlocking self.old.known) (split_made at.map at.segment at.stamp) }
    {
        let _child = child_stamp;
        let place = Place::Stamp {
            map: at.map,
            segment: at.segment,
        };
        let said = (at.map, at.segment, at.stamp);
        self.split_noted::<Brand, _>(table, place, at.stamp + 258, said);
    }
}
