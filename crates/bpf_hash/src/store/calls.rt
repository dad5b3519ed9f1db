//! What CPUs do to maps: each call is one event, by the contract of a shared store.
ghost use Rattle.std.specs.Prelude.{◌≡◌, ◌<◌, ◌≤◌, ℕ, true, false, IfSome, Some, slice_get};
ghost use Rattle.bpf_base.specs.Bytes.{modulus};
ghost use Rattle.bpf_shared.specs.declared.events.Span.{Span};
ghost use Rattle.bpf_shared.specs.Shape.{IsMapShape, IsKeyOf, IsPairOf, IsElement, IsElementSpan, IsValueSpan, AreMaps};
ghost use Rattle.bpf_shared.specs.Access.{bytes_in};
ghost use Rattle.bpf_shared.specs.Store.{put};
ghost use Rattle.bpf_shared.specs.Passage.{held_with, held_without, IsHeldPlace};
ghost use Rattle.bpf_hash.specs.Private.Contents.{Contents, shapes_of, has_cpu, is_running, held_spans, MayLack, Makes};

use super::HashStore;
use bpf_shared::bytes::change;
use bpf_shared::{AtomicOp, Event, KeyList, MapAnswer, MapShape, Size, Span, ValuePlace};

impl HashStore {
    /// The shape of the map of this number; `None` for no map's number.
    pub fn shape(&self, map: u64) -> Option<MapShape>
        ensures shape { result ≡ slice_get (shapes_of self.now) map }
        ensures in_range { IfSome result (λ h. (map < 16) × IsMapShape h) }
    {
        Some(self.tables.get(map as usize)?.shape())
    }

    /// The CPU enters a run, which holds nothing yet.
    pub fn begin(&mut self, cpu: u8)
        requires serves { has_cpu self.old cpu ≡ true }
        requires idle { is_running self.old cpu ≡ false }
        ensures begun { Makes self.old self.new cpu Event.Begin }
        ensures running { is_running self.new ≡ put (is_running self.old) cpu true }
        ensures held { held_spans self.new ≡ held_without (held_spans self.old) cpu }
        ensures same { (shapes_of self.new ≡ shapes_of self.old)
            × (has_cpu self.new ≡ has_cpu self.old) }
    {
        self.make_countable(cpu);
        let runs = &mut self.runs[cpu as usize];
        runs.count += 1;
        runs.running = true;
    }

    /// Where the value of the key lies; the CPU holds that value until its run ends.
    pub fn lookup(&mut self, cpu: u8, map: u8, key: &[u8]) -> Option<Span>
        requires serves { has_cpu self.old cpu ≡ true }
        requires in_run { is_running self.old cpu ≡ true }
        requires key { IsKeyOf (shapes_of self.old) map key.now }
        ensures found { Makes self.old self.new cpu
            (Event.Lookup map key.now result) }
        ensures held { held_spans self.new ≡ held_with (held_spans self.old) cpu result }
        ensures element { IfSome result (IsElementSpan (shapes_of self.old) map) }
        ensures in_range { IfSome result IsValueSpan }
        ensures maps { AreMaps (shapes_of self.old) }
        ensures elements { (p : Span) → held_spans self.new cpu p ≡ true
            → IsElement (shapes_of self.old) p }
        ensures same { (shapes_of self.new ≡ shapes_of self.old)
            × (has_cpu self.new ≡ has_cpu self.old) × (is_running self.new ≡ is_running self.old) }
    {
        let run = self.runs[cpu as usize].count;
        let table = &self.tables[map as usize];
        let element = table.find(key)?;
        let span = table.span(map, element);
        self.tables[map as usize].look_up(element, cpu, run);
        Some(span)
    }

    /// A value of these bytes is to be under the key: always for the flags 0, where the key isn't
    /// there yet for 1, where it is there for 2 (bpf-helpers(7)).
    pub fn update(&mut self, _cpu: u8, map: u8, key: &[u8], value: &[u8], flags: u64) -> MapAnswer
        requires serves { has_cpu self.old _cpu ≡ true }
        requires in_run { is_running self.old _cpu ≡ true }
        requires pair { IsPairOf (shapes_of self.old) map key.now value.now }
        ensures answered { Makes self.old self.new _cpu
            (Event.Update map key.now value.now flags result) }
        ensures shortage { MayLack self.old self.new map key.now result }
        ensures held { held_spans self.new ≡ held_spans self.old }
        ensures same { (shapes_of self.new ≡ shapes_of self.old)
            × (has_cpu self.new ≡ has_cpu self.old) × (is_running self.new ≡ is_running self.old) }
    {
        self.tables[map as usize].put(key, value, flags, &self.runs)
    }

    /// The key is to leave the map. Whoever holds its value keeps it until its run ends.
    pub fn delete(&mut self, _cpu: u8, map: u8, key: &[u8]) -> MapAnswer
        requires serves { has_cpu self.old _cpu ≡ true }
        requires in_run { is_running self.old _cpu ≡ true }
        requires key { IsKeyOf (shapes_of self.old) map key.now }
        ensures answered { Makes self.old self.new _cpu
            (Event.Delete map key.now result) }
        ensures shortage { MayLack self.old self.new map key.now result }
        ensures held { held_spans self.new ≡ held_spans self.old }
        ensures same { (shapes_of self.new ≡ shapes_of self.old)
            × (has_cpu self.new ≡ has_cpu self.old) × (is_running self.new ≡ is_running self.old) }
    {
        self.tables[map as usize].take(key, &self.runs)
    }

    /// The keys of a map, in the order of their bytes. The CPU may be in a run or not. The list is
    /// one that was made for the map's shape.
    pub fn keys(&mut self, _cpu: u8, map: u8, list: &mut KeyList)
        requires serves { has_cpu self.old _cpu ≡ true }
        requires list { slice_get (shapes_of self.old) map ≡ Some list.old.shape }
        ensures listed { Makes self.old self.new _cpu
            (Event.Keys map list.new.keys) }
        ensures list { list.new.shape ≡ list.old.shape }
        ensures held { held_spans self.new ≡ held_spans self.old }
        ensures same { (shapes_of self.new ≡ shapes_of self.old)
            × (has_cpu self.new ≡ has_cpu self.old) × (is_running self.new ≡ is_running self.old) }
    {
        self.tables[map as usize].list_keys(list);
    }

    /// The number that the bytes at an aligned place in a held value read as.
    pub fn value_load(&mut self, _cpu: u8, at: ValuePlace, size: Size) -> u64
        requires serves { has_cpu self.old _cpu ≡ true }
        requires in_run { is_running self.old _cpu ≡ true }
        requires place { IsHeldPlace (held_spans self.old _cpu) at.at (bytes_in size) }
        ensures loaded { Makes self.old self.new _cpu
            (Event.Load at.at size result) }
        ensures fits { result < modulus (bytes_in size) }
        ensures held { held_spans self.new ≡ held_spans self.old }
        ensures same { (shapes_of self.new ≡ shapes_of self.old)
            × (has_cpu self.new ≡ has_cpu self.old) × (is_running self.new ≡ is_running self.old) }
    {
        let reach = self.reach(at.at);
        self.tables[reach.map].load(reach.element, reach.offset, size)
    }

    /// The bytes at an aligned place in a held value become the low bytes of the word.
    pub fn value_store(&mut self, _cpu: u8, at: ValuePlace, size: Size, word: u64)
        requires serves { has_cpu self.old _cpu ≡ true }
        requires in_run { is_running self.old _cpu ≡ true }
        requires place { IsHeldPlace (held_spans self.old _cpu) at.at (bytes_in size) }
        ensures stored { Makes self.old self.new _cpu
            (Event.Store at.at size word) }
        ensures held { held_spans self.new ≡ held_spans self.old }
        ensures same { (shapes_of self.new ≡ shapes_of self.old)
            × (has_cpu self.new ≡ has_cpu self.old) × (is_running self.new ≡ is_running self.old) }
    {
        let reach = self.reach(at.at);
        self.tables[reach.map].store(reach.element, reach.offset, size, word);
    }

    /// An atomic operation on the four or eight bytes at an aligned place in a held value; the
    /// number that was there before. Only `CompareExchange` looks at the number that is expected.
    pub fn value_atomic(
        &mut self,
        _cpu: u8,
        at: ValuePlace,
        size: Size,
        op: AtomicOp,
        operand: u64,
        expected: u64,
    ) -> u64
        requires serves { has_cpu self.old _cpu ≡ true }
        requires in_run { is_running self.old _cpu ≡ true }
        requires place { IsHeldPlace (held_spans self.old _cpu) at.at (bytes_in size) }
        requires wide { 4 ≤ bytes_in size }
        ensures changed { Makes self.old self.new _cpu
            (Event.Atomic at.at size op operand expected result) }
        ensures fits { result < modulus (bytes_in size) }
        ensures held { held_spans self.new ≡ held_spans self.old }
        ensures same { (shapes_of self.new ≡ shapes_of self.old)
            × (has_cpu self.new ≡ has_cpu self.old) × (is_running self.new ≡ is_running self.old) }
    {
        let reach = self.reach(at.at);
        let table = &mut self.tables[reach.map];
        let found = table.load(reach.element, reach.offset, size);
        let word = change(op, size, found, operand, expected);
        table.store(reach.element, reach.offset, size, word);
        found
    }

    /// The CPU leaves its run, and holds nothing any more.
    pub fn end(&mut self, cpu: u8)
        requires serves { has_cpu self.old cpu ≡ true }
        requires in_run { is_running self.old cpu ≡ true }
        ensures ended { Makes self.old self.new cpu Event.End }
        ensures running { is_running self.new ≡ put (is_running self.old) cpu false }
        ensures held { held_spans self.new ≡ held_without (held_spans self.old) cpu }
        ensures same { (shapes_of self.new ≡ shapes_of self.old)
            × (has_cpu self.new ≡ has_cpu self.old) }
    {
        self.runs[cpu as usize].running = false;
    }
}
