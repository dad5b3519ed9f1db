//! The CPUs of a store given back, and its words at rest.
ghost use Rattle.std.specs.Prelude.{◌≡◌, ℕ, true, List, [], ◌∷◌, ◌++◌};
ghost use mathlib.Core.Option.{some};
ghost use lib.ListN.{get_elem?};
ghost use Rattle.hop_words.specs.declared.known.Known.{Known};
ghost use Rattle.hop_words.specs.Closing.{AreAllBack};
ghost use Rattle.hop_layout.specs.Layout.{is_place, mem};
ghost use Rattle.hop_words.specs.Seats.{AreSettled, HasSeenBeginning, KeepsWholeHistory, view};

use crate::dealing::Deal;
use crate::known::View;
use crate::lane::Lane;
use crate::table::HopTable;
use atomic_table::{Closed, Join, Play, Seat, Split};
use hop_layout::{About, Index, Place};
use std::alloc::Global;
use std::marker::{Brand, Model, PhantomData};

// A new seat, without a CPU.
struct Comes;

impl Play<(), View> for Comes {
    ghost use Rattle.hop_words.specs.Private.Closing.{came};

    ghost then = { came };
}

// The CPUs of a second seat go after those of a first.
struct Gather;

impl Join<View> for Gather {
    ghost use Rattle.hop_words.specs.Private.Seats.{gathered, empty_view};

    ghost both = { gathered };

    ghost spent = { empty_view };
}

// A load that learns the whole history.
struct Learns;

impl Play<(), View> for Learns {
    ghost use Rattle.hop_words.specs.Private.Closing.{learned};

    ghost then = { learned };
}

// What a load says that changes what all CPUs of a seat have seen: its call picks it.
trait TellAll {
    ghost use Rattle.hop_words.specs.declared.known.Known.{Known};

    ghost told: { List Known → List Known → Type 0 };
}

impl TellAll for Brand {
    ghost told = { λ old new. Unit {0} };
}

struct Settles<E> {
    of: PhantomData<E>,
}

impl<E: TellAll> Play<(), View> for Settles<E> {
    ghost use Rattle.hop_words.specs.Private.Closing.{settled};

    ghost then = { settled E.told };
}

// A copy of what is kept of the history.
pub(crate) struct Keep;

impl Split<View> for Keep {
    ghost use Rattle.hop_words.specs.Private.Seats.{onlooker};

    ghost left = { λ v. v };

    ghost right = { onlooker };
}

/// The CPUs of a store that were given back.
#[derive(Drop)]
pub struct Returned {
    seat: Seat<(), View>,
}

impl Model for Returned {
    ghost use Rattle.hop_words.specs.Dealing.{Dealing};
    ghost use Rattle.hop_words.specs.Private.Closing.{returned, IsReturned};

    ghost Value = { Dealing };

    ghost view = { returned };

    ghost invariant = { IsReturned };
}

impl Returned {
    /// No CPU was given back yet.
    pub fn new(table: &HopTable) -> Returned
        ensures table { result.table ≡ table.now.id }
        ensures none { result.lanes ≡ [] }
    {
        let _cpus = table.about().shape.cpus();
        let (_, seat) = table.table.shared.load_new_seat::<Comes>(0);
        Returned { seat }
    }

    /// Takes a CPU back.
    pub fn take(&mut self, table: &HopTable, lane: Lane)
        requires table { self.old.table ≡ table.now.id }
        requires lane { lane.table ≡ table.now.id }
        ensures table { self.new.table ≡ self.old.table }
        ensures taken { self.new.lanes ≡ self.old.lanes ++ lane.known ∷ [] }
    {
        let _cpus = table.about().shape.cpus();
        let seat = lane.into_seat();
        table.table.shared.join_seat::<Gather>(&mut self.seat, seat);
    }

    // Each CPU has seen the whole history.
    fn settle_by<E: TellAll>(&mut self, table: &HopTable)
        requires table { self.old.table ≡ table.now.id }
        requires told { (new : List Known) → AreSettled table.now.about self.old.lanes new
            → E.told self.old.lanes new }
        ensures table { self.new.table ≡ self.old.table }
        ensures told { E.told self.old.lanes self.new.lanes }
    {
        let _cpus = table.about().shape.cpus();
        table.table.shared.load::<Settles<E>>(&mut self.seat, 0);
    }

    /// Each CPU has now seen the whole history so far, and knows all else as before.
    pub fn settle(&mut self, table: &HopTable)
        requires table { self.old.table ≡ table.now.id }
        ensures table { self.new.table ≡ self.old.table }
        ensures settled { AreSettled table.now.about self.old.lanes self.new.lanes }
    {
        self.settle_by::<Brand>(table);
    }

    /// The first CPU again, by its number.
    pub fn give(&mut self, table: &HopTable, cpu: u8) -> Lane
        requires table { self.old.table ≡ table.now.id }
        requires first { (l : Known) × (rest : List Known) × (self.old.lanes ≡ l ∷ rest)
            × (l.cpu ≡ cpu) }
        ensures table { self.new.table ≡ self.old.table }
        ensures given { (self.old.lanes ≡ result.known ∷ self.new.lanes)
            × (result.table ≡ self.old.table) }
    {
        let _cpus = table.about().shape.cpus();
        let seat = table.table.shared.split_seat::<Deal>(&mut self.seat);
        Lane::seated_again(cpu, seat)
    }

    // Learns the whole history.
    fn learn(self, table: &HopTable) -> Seat<(), View>
        requires table { self.table ≡ table.now.id }
        ensures table { result.table_id ≡ table.now.id }
        ensures slots { result.me.1 ≡ [] }
        ensures lanes { result.me.0.lanes ≡ self.lanes }
        ensures within { (k : ℕ) (l : Known) → get_elem? self.lanes k ≡ some l
            → HasSeenBeginning l result.me.0.kept }
    {
        let _cpus = table.about().shape.cpus();
        let Returned { mut seat } = self;
        table.table.shared.load::<Learns>(&mut seat, 0);
        seat
    }
}

/// The words of a store that no CPU shares any more. Contracts see the whole history beside them.
pub struct Rest {
    words: Closed<(), Global>,
    index: Index,
    keeper: Seat<(), View>,
}

impl Model for Rest {
    ghost use Rattle.hop_words.specs.Closing.{Ending};
    ghost use Rattle.hop_words.specs.Private.Closing.{ending, IsAtRest};

    ghost Value = { Ending };

    ghost view = { ending };

    ghost invariant = { IsAtRest };
}

impl Drop for Rest {
    fn drop(self) {
        let Rest {
            words,
            index: _,
            keeper: _,
        } = self;
        words.free();
    }
}

impl HopTable {
    /// The end of a store, all of whose CPUs were given back.
    pub fn close(self, returned: Returned) -> Rest
        requires table { returned.table ≡ self.id }
        requires all { AreAllBack self.about returned.lanes }
        ensures about { result.about ≡ self.about }
        ensures within { (k : ℕ) (l : Known) → get_elem? returned.lanes k ≡ some l
            → HasSeenBeginning l result.history }
        ensures whole { KeepsWholeHistory result.about (view [] result.history) result.words }
    {
        let _cpus = self.about().shape.cpus();
        let mut seat = returned.learn(&self);
        let HopTable { table, index } = self;
        let keeper = table.shared.split_seat::<Keep>(&mut seat);
        let words = table.close_with(seat);
        Rest {
            words,
            index,
            keeper,
        }
    }
}

impl Rest {
    /// What the store was given when it was made.
    pub fn about(&self) -> &About
        ensures about { result.now ≡ self.now.about }
        ensures whole { KeepsWholeHistory self.now.about (view [] self.now.history) self.now.words }
    {
        self.index.about()
    }

    /// The word of a place.
    pub fn word(&self, place: Place) -> u64
        requires there { is_place self.now.about.shape place ≡ true }
        ensures word { result ≡ mem self.now.about.shape self.now.words place }
    {
        self.words.word(self.index.word_of(place))
    }
}
