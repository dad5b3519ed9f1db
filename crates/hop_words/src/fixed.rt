//! The steps on the words of a fixed value: each load, store and atomic operation takes effect at
//! one. Nobody has to hold it.
ghost use Rattle.std.specs.Prelude.{◌≡◌, ◌≢◌, ◌<◌};
ghost use Rattle.bpf_base.specs.Bytes.{low_bytes, with_part};
ghost use Rattle.bpf_base.specs.Atomic.{number_after};
ghost use Rattle.bpf_shared.specs.Access.{bytes_in};
ghost use Rattle.bpf_shared.specs.declared.events.Event.TheVariants.{Load, Store, Atomic};
ghost use Rattle.bpf_shared.specs.declared.events.Size.TheVariants.{Double};
ghost use Rattle.hop_words.specs.Kinds.{AddsEvent};
ghost use Rattle.hop_words.specs.Touching.{TouchesFixed, ChangesFixed, ChangesFixedWord, fixed_part_address, found_fixed};

use crate::lane::Lane;
use crate::table::HopTable;
use crate::touching::Operation;
use bpf_shared::{AtomicOp, Size};
use hop_layout::Place;
use std::marker::Brand;
use std::sync::Wait;

/// Bytes of a fixed value that lie in one of its array's words: so far after the word's first.
#[derive(Clone, Copy, Drop)]
pub struct FixedPart {
    pub array: u8,
    pub word: u32,
    pub offset: u32,
    pub size: Size,
}

impl Lane {
    /// The word that the bytes lie in, of which nothing is known later. It is no event, and isn't
    /// noted: so only a caller that may wait can make it.
    pub fn look_at_fixed<R: Wait>(&mut self, _rt: &R, table: &HopTable, part: FixedPart) -> u64
        requires table { self.old.table ≡ table.now.id }
        requires touches { TouchesFixed table.now.about self.old.known part }
        ensures table { self.new.table ≡ self.old.table }
        ensures same { self.new.known ≡ self.old.known }
    {
        let place = Place::FixedWord {
            array: part.array,
            word: part.word,
        };
        self.load_by::<Brand, _>(table, place, ())
    }

    /// Loads the bytes, and answers the word that they lie in.
    pub fn load_fixed(&mut self, table: &HopTable, part: FixedPart) -> u64
        requires table { self.old.table ≡ table.now.id }
        requires touches { TouchesFixed table.now.about self.old.known part }
        ensures table { self.new.table ≡ self.old.table }
        ensures loaded { AddsEvent table.now.about self.old.known
            (Load (fixed_part_address part) part.size (found_fixed part result))
            self.new.known }
    {
        let place = Place::FixedWord {
            array: part.array,
            word: part.word,
        };
        self.load_by::<Brand, _>(table, place, part)
    }

    /// Stores a whole word.
    pub fn store_fixed(&mut self, table: &HopTable, part: FixedPart, number: u64)
        requires table { self.old.table ≡ table.now.id }
        requires changes { ChangesFixedWord table.now.about self.old.known part }
        ensures table { self.new.table ≡ self.old.table }
        ensures stored { AddsEvent table.now.about self.old.known
            (Store (fixed_part_address part) Double number) self.new.known }
    {
        let place = Place::FixedWord {
            array: part.array,
            word: part.word,
        };
        self.store_by::<Brand, _>(table, place, number, part);
    }

    /// Stores the bytes by a compare-exchange of the word that they lie in. Answers the word found,
    /// which is the old one where they are stored.
    pub fn exchange_fixed(
        &mut self,
        table: &HopTable,
        part: FixedPart,
        old: u64,
        new: u64,
        stored: u64,
    ) -> u64
        requires table { self.old.table ≡ table.now.id }
        requires changes { ChangesFixed table.now.about self.old.known part }
        requires splices { low_bytes 8 new
            ≡ with_part (low_bytes 8 old) part.offset (low_bytes (bytes_in part.size) stored) }
        ensures table { self.new.table ≡ self.old.table }
        ensures stored { result ≡ old
            → AddsEvent table.now.about self.old.known
            (Store (fixed_part_address part) part.size stored) self.new.known }
        ensures missed { result ≢ old → self.new.known ≡ self.old.known }
    {
        let place = Place::FixedWord {
            array: part.array,
            word: part.word,
        };
        self.exchange_by::<Brand, _>(table, place, old, new, (part, stored))
    }

    /// Makes an atomic operation on the bytes by a compare-exchange of the word that they lie in.
    /// Answers the word found, which is the old one where the operation is made.
    pub fn exchange_fixed_by(
        &mut self,
        table: &HopTable,
        part: FixedPart,
        operation: Operation,
        old: u64,
        new: u64,
    ) -> u64
        requires table { self.old.table ≡ table.now.id }
        requires changes { ChangesFixed table.now.about self.old.known part }
        requires splices { low_bytes 8 new
            ≡ with_part (low_bytes 8 old) part.offset
            (low_bytes (bytes_in part.size) (number_after operation.op (bytes_in part.size)
            (found_fixed part old) operation.operand operation.expected)) }
        ensures table { self.new.table ≡ self.old.table }
        ensures made { result ≡ old
            → AddsEvent table.now.about self.old.known
            (Atomic (fixed_part_address part) part.size operation.op operation.operand
            operation.expected
            (found_fixed part old)) self.new.known }
        ensures missed { result ≢ old → self.new.known ≡ self.old.known }
    {
        let place = Place::FixedWord {
            array: part.array,
            word: part.word,
        };
        self.exchange_by::<Brand, _>(table, place, old, new, (part, operation))
    }

    /// Makes an atomic operation on a whole word, by one step, and answers the word found.
    pub fn change_fixed(
        &mut self,
        table: &HopTable,
        part: FixedPart,
        op: AtomicOp,
        operand: u64,
        expected: u64,
    ) -> u64
        requires table { self.old.table ≡ table.now.id }
        requires changes { ChangesFixedWord table.now.about self.old.known part }
        ensures table { self.new.table ≡ self.old.table }
        ensures made { AddsEvent table.now.about self.old.known
            (Atomic (fixed_part_address part) Double op operand expected result)
            self.new.known }
    {
        let place = Place::FixedWord {
            array: part.array,
            word: part.word,
        };
        let said = (part, operand, expected);
        match op {
            AtomicOp::Add => self.add_by::<Brand, _>(table, place, operand, said),
            AtomicOp::Or => self.or_by::<Brand, _>(table, place, operand, said),
            AtomicOp::And => self.and_by::<Brand, _>(table, place, operand, said),
            AtomicOp::Xor => self.xor_by::<Brand, _>(table, place, operand, said),
            AtomicOp::Exchange => self.swap_by::<Brand, _>(table, place, operand, said),
            AtomicOp::CompareExchange => {
                self.exchange_by::<Brand, _>(table, place, expected, operand, said)
            }
        }
    }
}
