//! The steps on elements: seeing, claiming and giving back their free bits, and writing the words
//! of one's own.
ghost use Rattle.std.specs.Prelude.{ℕ, ◌≡◌, ◌<◌, ◌-◌, ◌/◌, ◌%◌, ◌^◌, true, [], ◌∷◌, length};
ghost use Rattle.bpf_shared.specs.History.{events_of};
ghost use Rattle.bpf_shared.specs.Own.{in_run};
ghost use Rattle.hop_layout.specs.declared.place.Place.TheVariants.{FreeBits};
ghost use Rattle.hop_words.specs.Sights.{look, sighted};
ghost use Rattle.hop_layout.specs.Layout.{words_for};
ghost use Rattle.hop_words.specs.Ghost.{shape_at, HasElement, limbo_at};
ghost use Rattle.hop_words.specs.Rule.{link_to};
ghost use Rattle.hop_words.specs.Kinds.{Passed, retiring};
ghost use Rattle.hop_words.specs.Owning.{IsUpdateAnswered, IsFreeWord, ClaimsBit, GivesFresh, GivesOld, IsInHand, tail_of, key_filled, value_filled, with_key_word, with_value_word};

use crate::lane::Lane;
use crate::table::HopTable;
use hop_layout::Place;
use std::marker::Brand;

// The bit of an element in its word.
fn bit_of(element: u32) -> u64
    ensures { result ≡ 2 ^ (element % 64) }
{
    1 << (element % 64)
}

// All bits of the word but the element's.
fn all_but(element: u32) -> u64
    ensures { result ≡ 2 ^ 64 - 1 - 2 ^ (element % 64) }
{
    !bit_of(element)
}

impl Lane {
    /// Which of 64 elements are free: one load.
    pub fn see_bits(&mut self, table: &HopTable, map: u8, word: u32) -> u64
        requires table { self.old.table ≡ table.now.id }
        requires inside { IsFreeWord table.now.about map word }
        ensures table { self.new.table ≡ self.old.table }
        ensures seen { self.new.known ≡ sighted self.old.known (look (FreeBits map word) result) }
    {
        self.load_noted::<Brand, _>(table, Place::FreeBits { map, word }, (map, word))
    }

    /// In a run, with none in hand, takes an element if it is free, by one fetch-and, and answers
    /// the bits found.
    pub fn claim_bit(&mut self, table: &HopTable, map: u8, element: u32) -> u64
        requires table { self.old.table ≡ table.now.id }
        requires element { HasElement table.now.about map element }
        requires empty { self.old.known.fresh ≡ [] }
        requires unlocked { self.old.known.locks ≡ [] }
        requires runs { in_run (events_of self.old.known.cpu self.old.known.seen) ≡ true }
        ensures table { self.new.table ≡ self.old.table }
        ensures claimed { ClaimsBit self.old.known map element result self.new.known }
    {
        let word = element / 64;
        let mask = all_but(element);
        self.and_noted::<Brand, _>(table, Place::FreeBits { map, word }, mask, (map, element))
    }

    /// Gives back the element in hand, which nobody else has seen, after the update that took it was
    /// answered.
    pub fn give_bit(&mut self, table: &HopTable, map: u8, element: u32)
        requires table { self.old.table ≡ table.now.id }
        requires element { HasElement table.now.about map element }
        requires hand { IsInHand self.old.known map element }
        requires answered { IsUpdateAnswered self.old.known map }
        ensures table { self.new.table ≡ self.old.table }
        ensures given { (found : ℕ) × GivesFresh self.old.known map element found self.new.known }
    {
        let word = element / 64;
        let bit = bit_of(element);
        self.or_noted::<Brand, _>(table, Place::FreeBits { map, word }, bit, (map, element));
    }

    /// Gives back the first element of the old batch, which no running CPU can hold. Its bit is
    /// clear, so one fetch-add sets it.
    pub fn give_old_bit(&mut self, table: &HopTable, map: u8, element: u32)
        requires table { self.old.table ≡ table.now.id }
        requires element { HasElement table.now.about map element }
        requires room { map < length self.old.known.limbo }
        requires even { table.now.about.count % 2 ≡ 0 }
        requires passed { Passed table.now.about self.old.known map element
            (tail_of (limbo_at self.old.known.limbo map).old) }
        ensures table { self.new.table ≡ self.old.table }
        ensures given { (found : ℕ) × GivesOld self.old.known map element found self.new.known }
    {
        let word = element / 64;
        let bit = bit_of(element);
        self.add_noted::<Brand, _>(table, Place::FreeBits { map, word }, bit, (map, element));
    }

    /// Writes the next word of the key of the element in hand.
    pub fn fill_key_word(&mut self, table: &HopTable, map: u8, element: u32, word: u32, number: u64)
        requires table { self.old.table ≡ table.now.id }
        requires element { HasElement table.now.about map element }
        requires hand { IsInHand self.old.known map element }
        requires unlocked { self.old.known.locks ≡ [] }
        requires next { word ≡ key_filled self.old.known.fresh }
        requires room { word < words_for (shape_at table.now.about map).key }
        ensures table { self.new.table ≡ self.old.table }
        ensures filled { self.new.known
            ≡ record self.old.known { fresh = with_key_word self.old.known.fresh number } }
    {
        let place = Place::KeyWord { map, element, word };
        self.store_by::<Brand, _>(table, place, number, ());
    }

    /// Writes the next word of the value of the element in hand.
    pub fn fill_value_word(
        &mut self,
        table: &HopTable,
        map: u8,
        element: u32,
        word: u32,
        number: u64,
    )
        requires table { self.old.table ≡ table.now.id }
        requires element { HasElement table.now.about map element }
        requires hand { IsInHand self.old.known map element }
        requires unlocked { self.old.known.locks ≡ [] }
        requires next { word ≡ value_filled self.old.known.fresh }
        requires room { word < words_for (shape_at table.now.about map).value }
        ensures table { self.new.table ≡ self.old.table }
        ensures filled { self.new.known
            ≡ record self.old.known { fresh = with_value_word self.old.known.fresh number } }
    {
        let place = Place::ValueWord { map, element, word };
        self.store_by::<Brand, _>(table, place, number, ());
    }

    /// Links the used element in hand before the first of the young batch, whose word of a link
    /// this is.
    pub fn retire_used(&mut self, table: &HopTable, map: u8, element: u32, link: u64)
        requires table { self.old.table ≡ table.now.id }
        requires element { HasElement table.now.about map element }
        requires room { map < length self.old.known.limbo }
        requires unlocked { self.old.known.locks ≡ [] }
        requires used { (limbo_at self.old.known.limbo map).used
            ≡ element ∷ tail_of (limbo_at self.old.known.limbo map).used }
        requires link { link ≡ link_to (limbo_at self.old.known.limbo map).young }
        ensures table { self.new.table ≡ self.old.table }
        ensures retired { self.new.known
            ≡ retiring self.old.known map element
            (tail_of (limbo_at self.old.known.limbo map).used) }
    {
        let place = Place::Link { map, element };
        self.store_by::<Brand, _>(table, place, link, (map, element));
    }

    /// Reads the link of the first element of the old batch.
    pub fn read_old_link(&mut self, table: &HopTable, map: u8, element: u32) -> u64
        requires table { self.old.table ≡ table.now.id }
        requires element { HasElement table.now.about map element }
        requires old { (limbo_at self.old.known.limbo map).old
            ≡ element ∷ tail_of (limbo_at self.old.known.limbo map).old }
        ensures table { self.new.table ≡ self.old.table }
        ensures link { result ≡ link_to (tail_of (limbo_at self.old.known.limbo map).old) }
        ensures same { self.new.known ≡ self.old.known }
    {
        self.load_by::<Brand, _>(table, Place::Link { map, element }, map)
    }
}
