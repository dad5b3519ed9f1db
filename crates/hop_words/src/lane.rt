//! The right of one CPU to step on the words, and the steps of the table that all kinds of step are
//! made of.
ghost use Rattle.std.specs.Prelude.{◌≡◌, ◌==◌, true, [], ℕ, ◌+◌, ◌%◌, ◌^◌, bit_and, bit_or, bit_xor};
ghost use prog.Atomic.{either};
ghost use Rattle.hop_layout.specs.Layout.{is_place, at};
ghost use Rattle.hop_words.specs.Private.Step.{solo, IsQuiet, Unlocks, IsBesideStamp, IsSplit, Steps, Notes, NotesTaken, first_lane};
ghost use Rattle.hop_words.specs.Inside.{nobody};

use crate::known::View;
use crate::table::HopTable;
use atomic_table::{Play, Seat};
use hop_layout::Place;
use std::marker::{Brand, Model, PhantomData};

/// The right of one CPU to step, with its number. It is seen as all that the CPU knows.
#[derive(Drop)]
pub struct Lane {
    pub(crate) cpu: u8,
    // Only the steps below are made with it.
    seat: Seat<(), View>,
}

impl Model for Lane {
    ghost use Rattle.hop_words.specs.Inside.{Standing};
    ghost use Rattle.hop_words.specs.Private.Inside.{standing, IsOne};

    ghost Value = { Standing };

    ghost view = { standing };

    ghost invariant = { IsOne };
}

impl Lane {
    // The lane of the only CPU that this seat has, which has noted nothing yet: so no lane that was
    // taken apart is seated again with sights that no step of its own noted.
    pub(crate) fn seated(cpu: u8, seat: Seat<(), View>) -> Lane
        requires one { (seat.me ≡ (solo (first_lane nobody seat.me.0.lanes), []))
            × ((first_lane nobody seat.me.0.lanes).cpu ≡ cpu) }
        requires new { (first_lane nobody seat.me.0.lanes).tally ≡ [] }
        ensures table { result.table ≡ seat.table_id }
        ensures known { result.known ≡ first_lane nobody seat.me.0.lanes }
    {
        Lane { cpu, seat }
    }

    // Makes a lane anew of one that was given back, and so noted what steps of its own noted.
    pub(crate) fn seated_again(cpu: u8, seat: Seat<(), View>) -> Lane
        requires one { (seat.me ≡ (solo (first_lane nobody seat.me.0.lanes), []))
            × ((first_lane nobody seat.me.0.lanes).cpu ≡ cpu) }
        ensures table { result.table ≡ seat.table_id }
        ensures known { result.known ≡ first_lane nobody seat.me.0.lanes }
    {
        Lane { cpu, seat }
    }

    // The seat, of which no step is made any more.
    pub(crate) fn into_seat(self) -> Seat<(), View>
        ensures table { result.table_id ≡ self.table }
        ensures known { result.me ≡ (solo self.known, []) }
    {
        let Lane { cpu: _, seat } = self;
        seat
    }
}

// What a step says: each kind picks it.
pub(crate) trait Tell {
    ghost use Rattle.hop_words.specs.declared.known.Known.{Known};

    ghost told: { ℕ → Known → Type 0 };
}

impl Tell for Brand {
    ghost told = { λ n l. Unit {0} };
}

pub(crate) struct Told<E> {
    of: PhantomData<E>,
}

impl<E: Tell> Play<(), View> for Told<E> {
    ghost use Rattle.hop_words.specs.Private.Inside.{tells};

    ghost then = { tells E.told };
}

// Each takes what its kind says besides, which the choice of what it says may name. A load of these
// isn't noted. A kind of it asks for a lock, an old batch, a CPU in no run or a caller that may wait,
// or it is an event: so all that a lookup without a lock loads is noted.
impl Lane {
    #[inline(always)]
    pub(crate) fn load_by<E: Tell, T: Copy>(
        &mut self,
        table: &HopTable,
        place: Place,
        _said: T,
    ) -> u64
        requires table { self.old.table ≡ table.now.id }
        requires place { is_place table.now.about.shape place ≡ true }
        requires step { Steps table.now.about self.old.known place (λ n. n) (λ ws n l. E.told n l) }
        ensures table { self.new.table ≡ self.old.table }
        ensures told { E.told result self.new.known }
    {
        let word = table.word_of(place);
        table.table.shared.load::<Told<E>>(&mut self.seat, word)
    }

    #[inline(always)]
    pub(crate) fn store_by<E: Tell, T: Copy>(
        &mut self,
        table: &HopTable,
        place: Place,
        new: u64,
        _said: T,
    )
        requires table { self.old.table ≡ table.now.id }
        requires place { is_place table.now.about.shape place ≡ true }
        requires quiet { IsQuiet place }
        requires step { Steps table.now.about self.old.known place (λ _. new)
            (λ ws n l. E.told new l) }
        ensures table { self.new.table ≡ self.old.table }
        ensures told { E.told new self.new.known }
    {
        let word = table.word_of(place);
        table
            .table
            .shared
            .store::<Told<E>>(&mut self.seat, word, new);
    }

    #[inline(always)]
    pub(crate) fn exchange_by<E: Tell, T: Copy>(
        &mut self,
        table: &HopTable,
        place: Place,
        old: u64,
        new: u64,
        _said: T,
    ) -> u64
        requires table { self.old.table ≡ table.now.id }
        requires place { is_place table.now.about.shape place ≡ true }
        requires quiet { IsQuiet place }
        requires step { Steps table.now.about self.old.known place (λ n. either (n == old) new n)
            (λ ws n l. E.told n l) }
        ensures table { self.new.table ≡ self.old.table }
        ensures told { E.told result self.new.known }
    {
        let word = table.word_of(place);
        table
            .table
            .shared
            .compare_exchange::<Told<E>>(&mut self.seat, word, old, new)
    }

    #[inline(always)]
    pub(crate) fn and_by<E: Tell, T: Copy>(
        &mut self,
        table: &HopTable,
        place: Place,
        mask: u64,
        _said: T,
    ) -> u64
        requires table { self.old.table ≡ table.now.id }
        requires place { is_place table.now.about.shape place ≡ true }
        requires quiet { IsQuiet place }
        requires step { Steps table.now.about self.old.known place (λ n. bit_and n mask)
            (λ ws n l. E.told n l) }
        ensures table { self.new.table ≡ self.old.table }
        ensures told { E.told result self.new.known }
    {
        let word = table.word_of(place);
        table
            .table
            .shared
            .fetch_and::<Told<E>>(&mut self.seat, word, mask)
    }

    #[inline(always)]
    pub(crate) fn or_by<E: Tell, T: Copy>(
        &mut self,
        table: &HopTable,
        place: Place,
        mask: u64,
        _said: T,
    ) -> u64
        requires table { self.old.table ≡ table.now.id }
        requires place { is_place table.now.about.shape place ≡ true }
        requires quiet { IsQuiet place }
        requires step { Steps table.now.about self.old.known place (λ n. bit_or n mask)
            (λ ws n l. E.told n l) }
        ensures table { self.new.table ≡ self.old.table }
        ensures told { E.told result self.new.known }
    {
        let word = table.word_of(place);
        table
            .table
            .shared
            .fetch_or::<Told<E>>(&mut self.seat, word, mask)
    }

    #[inline(always)]
    pub(crate) fn xor_by<E: Tell, T: Copy>(
        &mut self,
        table: &HopTable,
        place: Place,
        mask: u64,
        _said: T,
    ) -> u64
        requires table { self.old.table ≡ table.now.id }
        requires place { is_place table.now.about.shape place ≡ true }
        requires quiet { IsQuiet place }
        requires step { Steps table.now.about self.old.known place (λ n. bit_xor n mask)
            (λ ws n l. E.told n l) }
        ensures table { self.new.table ≡ self.old.table }
        ensures told { E.told result self.new.known }
    {
        let word = table.word_of(place);
        table
            .table
            .shared
            .fetch_xor::<Told<E>>(&mut self.seat, word, mask)
    }

    #[inline(always)]
    pub(crate) fn swap_by<E: Tell, T: Copy>(
        &mut self,
        table: &HopTable,
        place: Place,
        new: u64,
        _said: T,
    ) -> u64
        requires table { self.old.table ≡ table.now.id }
        requires place { is_place table.now.about.shape place ≡ true }
        requires quiet { IsQuiet place }
        requires step { Steps table.now.about self.old.known place (λ _. new)
            (λ ws n l. E.told n l) }
        ensures table { self.new.table ≡ self.old.table }
        ensures told { E.told result self.new.known }
    {
        let word = table.word_of(place);
        table
            .table
            .shared
            .swap::<Told<E>>(&mut self.seat, word, new)
    }

    #[inline(always)]
    pub(crate) fn add_by<E: Tell, T: Copy>(
        &mut self,
        table: &HopTable,
        place: Place,
        more: u64,
        _said: T,
    ) -> u64
        requires table { self.old.table ≡ table.now.id }
        requires place { is_place table.now.about.shape place ≡ true }
        requires quiet { IsQuiet place }
        requires step { Steps table.now.about self.old.known place (λ n. (n + more) % 2 ^ 64)
            (λ ws n l. E.told n l) }
        ensures table { self.new.table ≡ self.old.table }
        ensures told { E.told result self.new.known }
    {
        let word = table.word_of(place);
        table
            .table
            .shared
            .fetch_add::<Told<E>>(&mut self.seat, word, more)
    }
}

// Steps whose caller says where the place's word is.
impl Lane {
    #[inline(always)]
    pub(crate) fn load_at<E: Tell, T: Copy>(
        &mut self,
        table: &HopTable,
        place: Place,
        word: usize,
        _said: T,
    ) -> u64
        requires table { self.old.table ≡ table.now.id }
        requires place { is_place table.now.about.shape place ≡ true }
        requires word { word ≡ at table.now.about.shape place }
        requires step { Steps table.now.about self.old.known place (λ n. n) (λ ws n l. E.told n l) }
        ensures table { self.new.table ≡ self.old.table }
        ensures told { E.told result self.new.known }
    {
        let _place = place;
        table.table.shared.load::<Told<E>>(&mut self.seat, word)
    }

    #[inline(always)]
    pub(crate) fn store_at<E: Tell, T: Copy>(
        &mut self,
        table: &HopTable,
        place: Place,
        word: usize,
        new: u64,
        _said: T,
    )
        requires table { self.old.table ≡ table.now.id }
        requires place { is_place table.now.about.shape place ≡ true }
        requires word { word ≡ at table.now.about.shape place }
        requires quiet { IsQuiet place }
        requires step { Steps table.now.about self.old.known place (λ _. new)
            (λ ws n l. E.told new l) }
        ensures table { self.new.table ≡ self.old.table }
        ensures told { E.told new self.new.known }
    {
        let _place = place;
        table
            .table
            .shared
            .store::<Told<E>>(&mut self.seat, word, new);
    }
}

// The unlock, and the stamp of a segment that isn't born: the steps that store a stamp unnoted.
impl Lane {
    #[inline(always)]
    pub(crate) fn unlock_by<E: Tell, T: Copy>(
        &mut self,
        table: &HopTable,
        place: Place,
        new: u64,
        _said: T,
    )
        requires table { self.old.table ≡ table.now.id }
        requires place { is_place table.now.about.shape place ≡ true }
        requires unlocks { Unlocks self.old.known place new }
        requires step { Steps table.now.about self.old.known place (λ _. new)
            (λ ws n l. E.told new l) }
        ensures table { self.new.table ≡ self.old.table }
        ensures told { E.told new self.new.known }
    {
        let word = table.word_of(place);
        table
            .table
            .shared
            .store::<Told<E>>(&mut self.seat, word, new);
    }
}

impl Lane {
    #[inline(always)]
    pub(crate) fn beside_by<E: Tell, T: Copy>(
        &mut self,
        table: &HopTable,
        place: Place,
        new: u64,
        _said: T,
    )
        requires table { self.old.table ≡ table.now.id }
        requires place { is_place table.now.about.shape place ≡ true }
        requires beside { IsBesideStamp self.old.known place new }
        requires step { Steps table.now.about self.old.known place (λ _. new)
            (λ ws n l. E.told new l) }
        ensures table { self.new.table ≡ self.old.table }
        ensures told { E.told new self.new.known }
    {
        let word = table.word_of(place);
        table
            .table
            .shared
            .store::<Told<E>>(&mut self.seat, word, new);
    }
}

// The noted steps: each puts itself in front of the lane's tally, with the number found and the
// number left, whatever its kind says. An exchange does so where it takes effect.
impl Lane {
    #[inline(always)]
    pub(crate) fn load_noted<E: Tell, T: Copy>(
        &mut self,
        table: &HopTable,
        place: Place,
        _said: T,
    ) -> u64
        requires table { self.old.table ≡ table.now.id }
        requires place { is_place table.now.about.shape place ≡ true }
        requires step { Notes table.now.about self.old.known place (λ n. n) (λ ws n l. E.told n l) }
        ensures table { self.new.table ≡ self.old.table }
        ensures told { E.told result self.new.known }
    {
        let word = table.word_of(place);
        table.table.shared.load::<Told<E>>(&mut self.seat, word)
    }

    #[inline(always)]
    pub(crate) fn and_noted<E: Tell, T: Copy>(
        &mut self,
        table: &HopTable,
        place: Place,
        mask: u64,
        _said: T,
    ) -> u64
        requires table { self.old.table ≡ table.now.id }
        requires place { is_place table.now.about.shape place ≡ true }
        requires step { Notes table.now.about self.old.known place (λ n. bit_and n mask)
            (λ ws n l. E.told n l) }
        ensures table { self.new.table ≡ self.old.table }
        ensures told { E.told result self.new.known }
    {
        let word = table.word_of(place);
        table
            .table
            .shared
            .fetch_and::<Told<E>>(&mut self.seat, word, mask)
    }

    #[inline(always)]
    pub(crate) fn or_noted<E: Tell, T: Copy>(
        &mut self,
        table: &HopTable,
        place: Place,
        mask: u64,
        _said: T,
    ) -> u64
        requires table { self.old.table ≡ table.now.id }
        requires place { is_place table.now.about.shape place ≡ true }
        requires step { Notes table.now.about self.old.known place (λ n. bit_or n mask)
            (λ ws n l. E.told n l) }
        ensures table { self.new.table ≡ self.old.table }
        ensures told { E.told result self.new.known }
    {
        let word = table.word_of(place);
        table
            .table
            .shared
            .fetch_or::<Told<E>>(&mut self.seat, word, mask)
    }

    #[inline(always)]
    pub(crate) fn add_noted<E: Tell, T: Copy>(
        &mut self,
        table: &HopTable,
        place: Place,
        more: u64,
        _said: T,
    ) -> u64
        requires table { self.old.table ≡ table.now.id }
        requires place { is_place table.now.about.shape place ≡ true }
        requires step { Notes table.now.about self.old.known place (λ n. (n + more) % 2 ^ 64)
            (λ ws n l. E.told n l) }
        ensures table { self.new.table ≡ self.old.table }
        ensures told { E.told result self.new.known }
    {
        let word = table.word_of(place);
        table
            .table
            .shared
            .fetch_add::<Told<E>>(&mut self.seat, word, more)
    }

    #[inline(always)]
    pub(crate) fn exchange_noted<E: Tell, T: Copy>(
        &mut self,
        table: &HopTable,
        place: Place,
        old: u64,
        new: u64,
        _said: T,
    ) -> u64
        requires table { self.old.table ≡ table.now.id }
        requires place { is_place table.now.about.shape place ≡ true }
        requires step { NotesTaken table.now.about self.old.known place old new
            (λ ws n l. E.told n l) }
        ensures table { self.new.table ≡ self.old.table }
        ensures told { E.told result self.new.known }
    {
        let word = table.word_of(place);
        table
            .table
            .shared
            .compare_exchange::<Told<E>>(&mut self.seat, word, old, new)
    }

    // The unlock of a segment that was listed.
    #[inline(always)]
    pub(crate) fn unlock_noted<E: Tell, T: Copy>(
        &mut self,
        table: &HopTable,
        place: Place,
        new: u64,
        _said: T,
    )
        requires table { self.old.table ≡ table.now.id }
        requires place { is_place table.now.about.shape place ≡ true }
        requires unlocks { Unlocks self.old.known place new }
        requires step { Notes table.now.about self.old.known place (λ _. new)
            (λ ws n l. E.told new l) }
        ensures table { self.new.table ≡ self.old.table }
        ensures told { E.told new self.new.known }
    {
        let word = table.word_of(place);
        table
            .table
            .shared
            .store::<Told<E>>(&mut self.seat, word, new);
    }

    // The unlock by which a segment is born.
    #[inline(always)]
    pub(crate) fn split_noted<E: Tell, T: Copy>(
        &mut self,
        table: &HopTable,
        place: Place,
        new: u64,
        _said: T,
    )
        requires table { self.old.table ≡ table.now.id }
        requires place { is_place table.now.about.shape place ≡ true }
        requires splits { IsSplit self.old.known place new }
        requires step { Notes table.now.about self.old.known place (λ _. new)
            (λ ws n l. E.told new l) }
        ensures table { self.new.table ≡ self.old.table }
        ensures told { E.told new self.new.known }
    {
        let word = table.word_of(place);
        table
            .table
            .shared
            .store::<Told<E>>(&mut self.seat, word, new);
    }
}
