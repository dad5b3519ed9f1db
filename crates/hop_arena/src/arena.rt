//! Claiming the free elements of a map.
ghost use Rattle.std.specs.Prelude.{ℕ, ◌≡◌, ◌⊎◌, ◌+◌, ◌*◌, ◌/◌, ◌<◌, true, [], length, MatchOption, IsTrue, IsFalse};
ghost use Rattle.std.specs.Int.{bit_at};
ghost use Rattle.hop_words.specs.Ghost.{shape_at, HasElement};
ghost use Rattle.hop_words.specs.Owning.{IsUpdateAnswered, IsInHand, GivesFresh};
ghost use Rattle.bpf_shared.specs.Shape.{elements};
ghost use Rattle.bpf_shared.specs.History.{events_of};
ghost use Rattle.bpf_shared.specs.Own.{in_run};
ghost use Rattle.hop_arena.specs.Claiming.{Claims, Misses, TakesNothing, IsArena};

use crate::element::Element;
use hop_words::{HopTable, Lane};
use std::marker::Model;

/// Where one CPU looks for free elements of one map: in the word of free bits of its last claim or
/// give-back first, so that CPUs meet seldom. The words from `low` on and before `high` are its own
/// part.
#[derive(Clone, Copy, Drop)]
pub struct Arena {
    map: u8,
    elements: u32,
    start: u32,
    low: u32,
    high: u32,
}

impl Arena {
    /// The first pass begins in the CPU's own part of the words.
    pub fn new(table: &HopTable, map: u8, cpu: u8) -> Arena
        requires map { map < length table.now.about.shape.maps }
        requires cpu { cpu < table.now.about.shape.cpus }
        ensures map { result.map ≡ map }
        ensures arena { IsArena table.now.about result.map result.elements result.start }
    {
        let shape = &table.about().shape;
        let sizes = shape.maps()[usize::from(map)];
        let elements = (sizes.max + sizes.spare) as u32;
        let words = elements.div_ceil(64);
        let cpus = u32::from(shape.cpus());
        let start = words * u32::from(cpu) / cpus;
        Arena {
            map,
            elements,
            start,
            low: start,
            high: words * (u32::from(cpu) + 1) / cpus,
        }
    }

    /// The next pass begins at the word of this element, which the CPU has given back, if that word
    /// lies in the CPU's own part: what was used last is near at hand, and other CPUs look
    /// elsewhere.
    pub fn look_from(&mut self, element: u32)
        ensures map { self.new.map ≡ self.old.map }
        ensures elements { self.new.elements ≡ self.old.elements }
        ensures start { (self.new.start ≡ self.old.start)
            ⊎ ((self.new.start ≡ element / 64) × (element < self.old.elements)) }
    {
        let word = element / 64;
        if element < self.elements && self.low <= word && word < self.high {
            self.start = word;
        }
    }

    /// Gives back an element, after the update that took it was answered. The next pass begins at its
    /// word.
    pub fn give_back(&mut self, lane: &mut Lane, table: &HopTable, element: Element)
        requires table { lane.old.table ≡ table.now.id }
        requires arena { IsArena table.now.about self.old.map self.old.elements self.old.start }
        requires element { HasElement table.now.about element.map element.number }
        requires map { element.map ≡ self.old.map }
        requires hand { IsInHand lane.old.known element.map element.number }
        requires answered { IsUpdateAnswered lane.old.known element.map }
        ensures table { lane.new.table ≡ lane.old.table }
        ensures given { (found : ℕ) × GivesFresh lane.old.known element.map element.number found
            lane.new.known }
        ensures arena { (self.new.map ≡ self.old.map) × (self.new.elements ≡ self.old.elements)
            × IsArena table.now.about self.new.map self.new.elements self.new.start }
    {
        let Element { map, number } = element;
        lane.give_bit(table, map, number);
        self.start = number / 64;
    }

    /// One pass over the free bits, in a run and with no element in hand, with one fetch-and for each bit that was seen set: an
    /// element of its own, or none where each element of the map was seen not free, at a moment of
    /// its own.
    #[inline(always)]
    pub fn claim(&mut self, lane: &mut Lane, table: &HopTable) -> Option<Element>
        requires table { lane.old.table ≡ table.now.id }
        requires map { self.old.map < length table.now.about.shape.maps }
        requires arena { IsArena table.now.about self.old.map self.old.elements self.old.start }
        requires empty { lane.old.known.fresh ≡ [] }
        requires unlocked { lane.old.known.locks ≡ [] }
        requires runs { in_run (events_of lane.old.known.cpu lane.old.known.seen) ≡ true }
        ensures table { lane.new.table ≡ lane.old.table }
        ensures claimed { MatchOption result (Misses table.now.about lane.old.known self.old.map
            lane.new.known) (λ e. Claims table.now.about lane.old.known self.old.map e
            lane.new.known) }
        ensures arena { (self.new.map ≡ self.old.map) × (self.new.elements ≡ self.old.elements)
            × IsArena table.now.about self.new.map self.new.elements self.new.start }
    {
        let _sizes = table.about().shape.maps()[usize::from(self.map)];
        // `div_ceil` would test the remainder.
        let words = (self.elements + 63) / 64;
        'after: for word in self.start..words {
            if let Some(element) = claim_in(lane, table, self.map, word, self.elements) {
                self.start = word;
                return Some(element);
            }
        }
        'before: for word in 0..self.start {
            if let Some(element) = claim_in(lane, table, self.map, word, self.elements) {
                self.start = word;
                return Some(element);
            }
        }
        None
    }
}

// Whether a bit is set.
fn has_bit(bits: u64, place: u32) -> bool
    requires { place < 64 }
    ensures set { IsTrue result → bit_at bits place ≡ 1 }
    ensures clear { IsFalse result → bit_at bits place ≡ 0 }
{
    bits >> place & 1 == 1
}

// A free element among the 64 of a word, or none where each was seen not free. Each try clears a
// bit of those that were set at each look.
#[inline(always)]
fn claim_in(lane: &mut Lane, table: &HopTable, map: u8, word: u32, count: u32) -> Option<Element>
    requires table { lane.old.table ≡ table.now.id }
    requires map { map < length table.now.about.shape.maps }
    requires count { count ≡ elements (shape_at table.now.about map) }
    requires inside { 64 * word < count }
    requires empty { lane.old.known.fresh ≡ [] }
    requires unlocked { lane.old.known.locks ≡ [] }
    requires runs { in_run (events_of lane.old.known.cpu lane.old.known.seen) ≡ true }
    ensures table { lane.new.table ≡ lane.old.table }
    ensures claimed { MatchOption result
        (TakesNothing table.now.about lane.old.known map word (word + 1) lane.new.known)
        (λ e. Claims table.now.about lane.old.known map e lane.new.known) }
{
    let mut bits = lane.see_bits(table, map, word);
    while bits != 0 {
        let number = 64 * word + bits.trailing_zeros();
        if number >= count {
            return None;
        }
        let found = lane.claim_bit(table, map, number);
        if has_bit(found, number % 64) {
            return Some(Element { map, number });
        }
        bits &= found;
    }
    None
}
