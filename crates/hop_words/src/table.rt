//! The table of the store's words.
use crate::known::View;
use crate::walking::Way;
use atomic_table::{Table, TableRule};
use hop_layout::{About, Index, Place};
use std::alloc::Global;
use std::marker::Model;

/// What holds between any two steps.
pub struct OneRule;

impl TableRule<(), View, About> for OneRule {
    ghost use Rattle.hop_words.specs.Rule.{Kept};
    ghost use Rattle.hop_words.specs.Opens.{opens};

    ghost holds = { Kept };

    ghost first = { opens };
}

/// The words of a store, which CPUs share. It is seen as its number and what it was given when it
/// was made.
#[derive(Drop)]
pub struct HopTable {
    pub(crate) table: Table<(), View, About, OneRule, Global>,
    pub(crate) index: Index,
}

impl Model for HopTable {
    ghost use Rattle.hop_words.specs.Inside.{Shown};
    ghost use Rattle.hop_words.specs.Private.Inside.{shown, HasLayout};

    ghost Value = { Shown };

    ghost view = { shown };

    ghost invariant = { HasLayout };
}

impl HopTable {
    ghost use Rattle.std.specs.Prelude.{◌≡◌, ◌<◌, ◌≤◌, ◌%◌, ◌+◌, ◌^◌, true, length};
    ghost use Rattle.hop_words.specs.declared.known.Known.{Known};
    ghost use Rattle.hop_words.specs.Kinds.{KnowsBorn};
    ghost use Rattle.hop_words.specs.Walking.{IsOnWay};
    ghost use Rattle.hop_words.specs.Ghost.{shape_at, IsSegment};
    ghost use Rattle.hop_layout.specs.Layout.{is_place, at, first_depth};
    ghost use Rattle.hop_layout.specs.declared.place.Place.TheVariants.{Stamp};

    /// What the store was given when it was made.
    pub fn about(&self) -> &About
        ensures { result.now ≡ self.now.about }
    {
        self.index.about()
    }

    /// Where the way of a home begins: at segment 0 of a map that grows, else at the home's own
    /// segment.
    #[inline(always)]
    pub fn first_way(&self, map: u8, home: u32) -> Way
        requires map { map < length self.now.about.shape.maps }
        ensures way { IsOnWay home result }
        ensures level { result.level ≡ first_depth (shape_at self.now.about map) }
        ensures few { result.level ≤ 10 }
        ensures inside { IsSegment self.now.about map result.segment }
        ensures born { (l : Known) → KnowsBorn self.now.about l map result.segment }
    {
        Way {
            segment: self.index.first_segment(map, home),
            level: self.index.first_depth_of(map),
        }
    }

    /// Where the words of a segment begin.
    #[inline(always)]
    pub fn segment_start(&self, map: u8, segment: u32) -> usize
        requires inside { IsSegment self.now.about map segment }
        ensures word { result ≡ at self.now.about.shape (Stamp map segment) }
        ensures room { result + 130 ≤ 2 ^ 64 }
    {
        let _words = self.index.words();
        self.word_of(Place::Stamp { map, segment })
    }

    // Where the word of a place is.
    #[inline(always)]
    pub(crate) fn word_of(&self, place: Place) -> usize
        requires there { is_place self.now.about.shape place ≡ true }
        ensures word { result ≡ at self.now.about.shape place }
    {
        self.index.word_of(place)
    }
}
