//! The words that a segment's lock guards, read and written by their places.
ghost use Rattle.std.specs.Prelude.{◌≡◌, true, [], ◌∷◌};
ghost use Rattle.hop_layout.specs.Layout.{is_place, at, mem};
ghost use Rattle.hop_words.specs.Kinds.{writing};
ghost use Rattle.hop_words.specs.Locking.{lock_of, other_locks};
ghost use Rattle.hop_words.specs.Guarded.{IsGuarded, MayWrite};

use crate::lane::Lane;
use crate::table::HopTable;
use hop_layout::Place;
use std::marker::Brand;

impl Lane {
    /// Reads any word. Where the lock taken last guards it, it is the word as its holder knows it.
    #[inline(always)]
    pub fn read_guarded(&mut self, table: &HopTable, place: Place) -> u64
        requires table { self.old.table ≡ table.now.id }
        requires there { is_place table.now.about.shape place ≡ true }
        requires held { self.old.known.locks ≡ lock_of self.old.known ∷ other_locks self.old.known }
        ensures table { self.new.table ≡ self.old.table }
        ensures word { IsGuarded table.now.about self.old.known place →
            result ≡ mem table.now.about.shape (lock_of self.old.known).copy place }
        ensures same { self.new.known ≡ self.old.known }
    {
        self.load_by::<Brand, _>(table, place, ())
    }

    /// Reads the word of a place as `read_guarded` does, where its caller says where that word is.
    #[inline(always)]
    pub fn read_guarded_at(&mut self, table: &HopTable, place: Place, word: usize) -> u64
        requires table { self.old.table ≡ table.now.id }
        requires there { is_place table.now.about.shape place ≡ true }
        requires word { word ≡ at table.now.about.shape place }
        requires held { self.old.known.locks ≡ lock_of self.old.known ∷ other_locks self.old.known }
        ensures table { self.new.table ≡ self.old.table }
        ensures word { IsGuarded table.now.about self.old.known place →
            result ≡ mem table.now.about.shape (lock_of self.old.known).copy place }
        ensures same { self.new.known ≡ self.old.known }
    {
        self.load_at::<Brand, _>(table, place, word, ())
    }

    /// Writes the word of a place as `write_guarded` does, where its caller says where that word is.
    #[inline(always)]
    pub fn write_guarded_at(&mut self, table: &HopTable, place: Place, word: usize, number: u64)
        requires table { self.old.table ≡ table.now.id }
        requires there { is_place table.now.about.shape place ≡ true }
        requires word { word ≡ at table.now.about.shape place }
        requires held { self.old.known.locks ≡ lock_of self.old.known ∷ [] }
        requires may { MayWrite table.now.about self.old.known place }
        ensures table { self.new.table ≡ self.old.table }
        ensures written { let l = self.old.known in
            self.new.known ≡ writing table.now.about l (lock_of l) place number }
    {
        self.store_at::<Brand, _>(table, place, word, number, ());
    }

    /// Writes a word of the locked segment, or the link of an element there or in hand.
    #[inline(always)]
    pub fn write_guarded(&mut self, table: &HopTable, place: Place, number: u64)
        requires table { self.old.table ≡ table.now.id }
        requires there { is_place table.now.about.shape place ≡ true }
        requires held { self.old.known.locks ≡ lock_of self.old.known ∷ [] }
        requires may { MayWrite table.now.about self.old.known place }
        ensures table { self.new.table ≡ self.old.table }
        ensures written { let l = self.old.known in
            self.new.known ≡ writing table.now.about l (lock_of l) place number }
    {
        self.store_by::<Brand, _>(table, place, number, ());
    }
}
