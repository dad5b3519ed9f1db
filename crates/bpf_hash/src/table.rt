//! A map of a `HashStore`: its elements, which an index finds by their keys.
ghost use Rattle.std.specs.Prelude.{◌≡◌, ◌+◌, ◌*◌, ◌<◌, ◌≤◌, ◌↔◌, ◌⊎◌, ℕ, IfOk, IfSome, IfNone, IsTrue, length, map, slice_index};
ghost use Rattle.bpf_base.specs.Bytes.{little_endian, low_bytes, modulus, part, with_part};
ghost use Rattle.bpf_shared.specs.Access.{bytes_in};
ghost use Rattle.bpf_hash.specs.Private.Runs.{count_of};
ghost use Rattle.bpf_shared.specs.Shape.{IsMapShape, IsValueSpan, elements, element_span, element_stride};
ghost use Rattle.bpf_shared.specs.Listing.{pair_of};
ghost use Rattle.bpf_hash.specs.Private.Pairs.{AreRowPairs, ArePairsBelow, AreRowKeys};
ghost use Rattle.bpf_hash.specs.Private.Index.{IsHome};
ghost use Rattle.bpf_hash.specs.Private.Rows.{AreMarked, ArePassed, GoOn, HasCurrentAt, key_of, bytes_of, IsLinked, linked_count, IsTable, IsBlank, IsMissing, IsKeyAt, IsKeptRow, IsTakenRow, IsLowestFreeRow, HasCurrent, Erases, noted_row, linked_row, unlinked_row, stored_row, Forgets, PutsRow, TakesRow};

pub(crate) mod restoring;
mod saving;

use crate::home::home;
use crate::index::Index;
use crate::marks::{first_unmarked, past_marked};
use crate::runs::Runs;
use bpf_shared::bytes::{load, store};
use bpf_shared::{FIRST_VALUE, KeyList, MAP_AREA, MapAnswer, MapShape, Size, Span};
use std::alloc::{AllocError, Global};
use std::marker::Model;

/// The elements of a map, each for a key and a value, and what CPUs had to do with the value that
/// is there. Those that are in the map are found by their keys.
///
/// A CPU's runs are counted from 1. What a run noted here is void once the CPU is in another run,
/// so that no element has to be looked at when a run begins or ends.
#[derive(Drop)]
pub struct Table {
    shape: MapShape,
    /// How many CPUs note their runs.
    cpus: u8,
    /// The elements that are in the map, by their keys.
    index: Index,
    /// How many elements are in the map.
    count: usize,
    /// By element, whether it is in the map.
    linked: Vec<bool>,
    /// Each element below this one is in the map.
    filled: usize,
    /// Each element below this one is in the map or kept, as long as the runs of `seen` go on.
    passed: usize,
    /// By CPU, its runs when elements were passed.
    seen: Vec<Runs>,
    /// The keys of the elements, one after the other.
    keys: Vec<u8>,
    /// The values of the elements, one after the other.
    values: Vec<u8>,
    /// By element and CPU, the run that looked the value up; 0 is no run.
    looked_up: Vec<u32>,
    /// By element and CPU, the last run that had begun when the value left the map; 0 is no run.
    left: Vec<u32>,
}

impl Model for Table {
    ghost use Rattle.std.specs.Prelude.{◌≡◌, length};
    ghost use Rattle.bpf_hash.specs.Private.Rows.{Rows, ArePassed, IsTable, AreMarked, linked_count};
    ghost use Rattle.bpf_hash.specs.Private.Index.{IsIndexed};

    ghost Value = { Rows };

    ghost view = { λ t. record {
      shape = t.shape;
      cpus = t.cpus;
      linked = t.linked.items;
      keys = t.keys.items;
      values = t.values.items;
      looked_up = t.looked_up.items;
      left = t.left.items;
    } };

    ghost invariant = { λ t.
        let rows : Rows = record { shape = t.shape; cpus = t.cpus; linked = t.linked.items; keys = t.keys.items; values = t.values.items; looked_up = t.looked_up.items; left = t.left.items } in
        IsTable rows × (IsIndexed rows t.index × (t.count ≡ linked_count rows))
        × AreMarked t.linked.items t.filled × (length t.seen.items ≡ t.cpus) × ArePassed t.seen.items rows t.passed };
}

/// Of a CPU that began no run.
const IDLE: Runs = Runs {
    count: 0,
    running: false,
};

/// Some CPU is still in the run that is noted for it.
fn has_current(notes: &[u32], runs: &[Runs]) -> bool
    requires { length notes.now ≡ length runs.now }
    ensures { IsTrue result ↔ HasCurrent notes.now runs.now }
{
    for (cpu, run) in runs.iter().enumerate() {
        if run.running && notes[cpu] == run.count {
            return true;
        }
    }
    false
}

/// How far elements stay passed when one of them leaves the map, whose notes begin here.
fn passed_without(passed: usize, element: usize, left: &[u32], first: usize, seen: &[Runs]) -> usize
    requires { first + length seen.now ≤ length left.now }
    ensures below { result ≤ passed }
    ensures kept { element < result → HasCurrentAt left.now first seen.now }
{
    if has_current(&left[first..first + seen.len()], seen) {
        passed
    } else {
        passed.min(element)
    }
}

/// How far elements are passed when one of them comes into the map.
fn passed_with(passed: usize, element: usize) -> usize
    requires { element < 0x1_0000_0000 }
    ensures { (i : ℕ) → i < result → (i < passed) ⊎ (i ≡ element) }
{
    if passed == element {
        element + 1
    } else {
        passed
    }
}

/// Each run of these goes on.
fn go_on(seen: &[Runs], runs: &[Runs]) -> bool
    requires { length seen.now ≡ length runs.now }
    ensures { IsTrue result → GoOn seen.now runs.now }
{
    for (cpu, run) in seen.iter().enumerate() {
        if run.running && !(runs[cpu].running && runs[cpu].count == run.count) {
            return false;
        }
    }
    true
}

/// Sees these runs where further elements are passed than were under the runs seen so far.
fn see(seen: &mut [Runs], runs: &[Runs], passed: usize, element: usize)
    requires { length seen.old ≡ length runs.now }
    ensures { (seen.new ≡ runs.now) ⊎ ((seen.new ≡ seen.old) × (element ≤ passed)) }
{
    if passed < element {
        seen.copy_from_slice(runs);
    }
}

/// Notes for each CPU the run that it began last.
fn note_runs(notes: &mut [u32], runs: &[Runs])
    requires { length notes.old ≡ length runs.now }
    ensures { notes.new ≡ map count_of runs.now }
{
    if let [run] = runs {
        notes[0] = run.count;
        return;
    }
    for (cpu, run) in runs.iter().enumerate() {
        notes[cpu] = run.count;
    }
}

/// Notes for each CPU, from the first of these on, the run that it began last.
fn note_runs_at(notes: &mut [u32], first: usize, runs: &[Runs])
    requires { first + length runs.now ≤ length notes.old }
    ensures { notes.new ≡ with_part notes.old first (map count_of runs.now) }
{
    note_runs(&mut notes[first..first + runs.len()], runs);
}

/// Puts others in place of as many bytes. Keys and values mostly have four or eight, and this many are
/// copied without a call.
fn put_part(bytes: &mut [u8], first: usize, others: &[u8])
    requires { first + length others.now ≤ length bytes.old }
    ensures { bytes.new ≡ with_part bytes.old first others.now }
{
    match others.len() {
        4 => bytes[first..first + 4].copy_from_slice(others),
        8 => bytes[first..first + 8].copy_from_slice(others),
        count => bytes[first..first + count].copy_from_slice(others),
    }
}

/// Takes out the notes of one CPU in this many elements.
#[tactic(auto, using(crate::proofs::Blocks::in_block))]
fn erase(notes: &mut [u32], elements: usize, cpus: usize, cpu: usize)
    requires notes { length notes.old ≡ elements * cpus }
    requires cpu { cpu < cpus }
    ensures { Erases cpus cpu notes.old notes.new }
{
    for element in 0..elements {
        notes[element * cpus + cpu] = 0;
    }
}

impl Table {
    /// A table with no keys, and with all the room that it will ever need.
    pub fn new(alloc: Global, shape: MapShape, cpus: u8) -> Result<Table, AllocError>
        requires shape { IsMapShape shape }
        requires cpus { cpus ≤ 16 }
        ensures shape { IfOk result (λ t. (t.shape ≡ shape) × (t.cpus ≡ cpus)) }
        ensures blank { IfOk result IsBlank }
        ensures table { IfOk result IsTable }
    {
        let count = (shape.max + shape.spare) as usize;
        let notes = count * usize::from(cpus);
        Ok(Table {
            shape,
            cpus,
            index: Index::new(alloc, shape.max as usize, count)?,
            count: 0,
            linked: vec![in alloc; false; count]?,
            filled: 0,
            passed: 0,
            seen: vec![in alloc; IDLE; usize::from(cpus)]?,
            keys: vec![in alloc; 0; count * shape.key as usize]?,
            values: vec![in alloc; 0; count * shape.value as usize]?,
            looked_up: vec![in alloc; 0; notes]?,
            left: vec![in alloc; 0; notes]?,
        })
    }

    pub fn shape(&self) -> MapShape
        ensures shape { result ≡ self.now.shape }
        ensures in_range { IsMapShape result }
    {
        self.shape
    }

    /// The key in an element.
    #[tactic(auto, using(crate::proofs::Blocks::block_fits, crate::proofs::Blocks::in_block))]
    fn key(&self, element: usize) -> &[u8]
        requires { element < elements self.now.shape }
        ensures { result.now ≡ key_of self.now element }
    {
        let size = self.shape.key as usize;
        &self.keys[element * size..element * size + size]
    }

    /// Where a key belongs in the index.
    fn home(&self, key: &[u8]) -> usize
        ensures { IsHome self.now key.now result }
    {
        home(key, self.shape.max as usize)
    }

    /// The element with this key that is in the map, where the key belongs to this home.
    #[inline(always)]
    fn find_at(&self, home: usize, key: &[u8]) -> Option<usize>
        requires { IsHome self.now key.now home }
        ensures inside { IfSome result (λ i. i < elements self.now.shape) }
        ensures found { IfSome result (IsKeyAt self.now key.now) }
        ensures absent { IfNone result (IsMissing self.now key.now) }
    {
        self.index
            .find(home, &self.keys, self.shape.key as usize, key)
    }

    /// The element with this key that is in the map.
    pub fn find(&self, key: &[u8]) -> Option<usize>
        ensures inside { IfSome result (λ i. i < elements self.now.shape) }
        ensures found { IfSome result (λ i. IsLinked self.now i × (key_of self.now i ≡ key.now)) }
        ensures absent { IfNone result (IsMissing self.now key.now) }
    {
        self.find_at(self.home(key), key)
    }

    /// The CPU's run of this number looked the element up.
    #[tactic(auto, using(crate::proofs::Blocks::block_fits, crate::proofs::Blocks::in_block))]
    pub fn look_up(&mut self, element: usize, cpu: u8, run: u32)
        requires element { element < elements self.old.shape }
        requires cpu { cpu < self.old.cpus }
        ensures noted { self.new ≡ noted_row element cpu run self.old }
        ensures table { IsTable self.old × IsTable self.new }
    {
        let note = element * usize::from(self.cpus) + usize::from(cpu);
        self.looked_up[note] = run;
    }

    /// Nothing of the CPU's runs stays noted.
    pub fn forget(&mut self, cpu: u8)
        requires { cpu < self.old.cpus }
        ensures forgets { Forgets cpu self.old self.new }
        ensures table { IsTable self.new }
    {
        self.passed = 0;
        let elements = self.linked.len();
        erase(
            &mut self.looked_up,
            elements,
            usize::from(self.cpus),
            usize::from(cpu),
        );
        erase(
            &mut self.left,
            elements,
            usize::from(self.cpus),
            usize::from(cpu),
        );
    }

    /// Some CPU is still in the run that it was in when the element left the map.
    #[tactic(auto, using(crate::proofs::Blocks::block_fits, crate::proofs::Blocks::in_block))]
    fn is_kept(&self, element: usize, runs: &[Runs]) -> bool
        requires element { element < elements self.now.shape }
        requires runs { length runs.now ≡ self.now.cpus }
        ensures { IsTrue result ↔ IsKeptRow runs.now self.now element }
    {
        let first = element * usize::from(self.cpus);
        has_current(&self.left[first..first + usize::from(self.cpus)], runs)
    }

    /// The element is in the map or kept.
    fn is_taken(&self, element: usize, runs: &[Runs]) -> bool
        requires element { element < elements self.now.shape }
        requires runs { length runs.now ≡ self.now.cpus }
        ensures { IsTrue result ↔ IsTakenRow runs.now self.now element }
    {
        self.linked[element] || self.is_kept(element, runs)
    }

    /// Each element below this one is in the map or kept.
    #[tactic(auto, using(crate::proofs::Passing::passed_on))]
    fn first_open(&self, runs: &[Runs]) -> usize
        requires { length runs.now ≡ self.now.cpus }
        ensures { ArePassed runs.now self.now result }
    {
        if go_on(&self.seen, runs) {
            self.filled.max(self.passed)
        } else {
            self.filled
        }
    }

    /// Notes that each element below this one is in the map or kept.
    fn pass(&mut self, element: usize, runs: &[Runs])
        requires runs { length runs.now ≡ self.old.cpus }
        requires taken { ArePassed runs.now self.old element }
        ensures same { self.new ≡ self.old }
        ensures table { IsTable self.old }
    {
        see(&mut self.seen, runs, self.filled.max(self.passed), element);
        self.passed = element;
    }

    /// The lowest element that is neither in the map nor kept.
    #[inline(always)]
    fn lowest_free(&self, runs: &[Runs]) -> Option<usize>
        requires { length runs.now ≡ self.now.cpus }
        ensures found { IfSome result (IsLowestFreeRow runs.now self.now) }
        ensures none { IfNone result
            ((i : ℕ) → i < elements self.now.shape → IsTakenRow runs.now self.now i) }
    {
        let mut element = self.first_open(runs);
        while element < self.linked.len() {
            if !self.is_taken(element, runs) {
                return Some(element);
            }
            element = past_marked(&self.linked, element + 1);
        }
        None
    }

    /// An element leaves the map, whose key belongs to this home.
    #[tactic(auto, using(crate::proofs::Blocks::block_fits, crate::proofs::Blocks::in_block))]
    fn unlink(&mut self, home: usize, element: usize, runs: &[Runs])
        requires linked { IsLinked self.old element }
        requires home { IsHome self.old (key_of self.old element) home }
        requires runs { length runs.now ≡ self.old.cpus }
        ensures unlinked { self.new ≡ unlinked_row runs.now element self.old }
        ensures table { IsTable self.old × IsTable self.new }
    {
        self.index.remove(home, element);
        self.count -= 1;
        self.linked[element] = false;
        self.filled = self.filled.min(element);
        let first = element * runs.len();
        note_runs_at(&mut self.left, first, runs);
        self.passed = passed_without(self.passed, element, &self.left, first, &self.seen);
    }

    /// A key, which belongs to this home, and a value are put into an element.
    #[inline(always)]
    #[tactic(auto, using(crate::proofs::Blocks::block_fits, crate::proofs::Blocks::in_block))]
    fn link(&mut self, home: usize, element: usize, key: &[u8], value: &[u8])
        requires room { linked_count self.old < self.old.shape.max }
        requires home { IsHome self.old key.now home }
        requires missing { IsMissing self.old key.now }
        requires element { element < elements self.old.shape }
        requires free { IsLinked self.old element → ⊥ }
        requires key { length key.now ≡ self.old.shape.key }
        requires value { length value.now ≡ self.old.shape.value }
        ensures linked { self.new ≡ linked_row element key.now value.now self.old }
        ensures table { IsTable self.old × IsTable self.new }
    {
        self.index.insert(home, element);
        self.count += 1;
        self.linked[element] = true;
        self.filled = first_unmarked(&self.linked, self.filled);
        self.passed = passed_with(self.passed, element);
        put_part(&mut self.keys, element * key.len(), key);
        put_part(&mut self.values, element * value.len(), value);
    }

    /// A value is to be under the key, as the flags say.
    pub fn put(&mut self, key: &[u8], value: &[u8], flags: u64, runs: &[Runs]) -> MapAnswer
        requires key { length key.now ≡ self.old.shape.key }
        requires value { length value.now ≡ self.old.shape.value }
        requires runs { length runs.now ≡ self.old.cpus }
        ensures puts { PutsRow runs.now self.old key.now value.now flags result self.new }
        ensures table { IsTable self.old → IsTable self.new }
    {
        if flags > 2 {
            return MapAnswer::Invalid;
        }
        let home = self.home(key);
        match self.find_at(home, key) {
            Some(_) if flags == 1 => MapAnswer::Exists,
            Some(old) => match self.lowest_free(runs) {
                None => MapAnswer::NoMemory,
                Some(element) => {
                    self.pass(element, runs);
                    self.unlink(home, old, runs);
                    self.link(home, element, key, value);
                    MapAnswer::Done
                }
            },
            None if flags == 2 => MapAnswer::Absent,
            None if self.count as u64 == self.shape.max => MapAnswer::Full,
            None => match self.lowest_free(runs) {
                None => MapAnswer::NoMemory,
                Some(element) => {
                    self.pass(element, runs);
                    self.link(home, element, key, value);
                    MapAnswer::Done
                }
            },
        }
    }

    /// The key is to leave the map.
    pub fn take(&mut self, key: &[u8], runs: &[Runs]) -> MapAnswer
        requires { length runs.now ≡ self.old.cpus }
        ensures takes { TakesRow runs.now self.old key.now result self.new }
        ensures table { IsTable self.old → IsTable self.new }
    {
        let home = self.home(key);
        match self.find_at(home, key) {
            Some(element) => {
                self.unlink(home, element, runs);
                MapAnswer::Done
            }
            None => MapAnswer::Absent,
        }
    }

    /// The value in an element.
    #[tactic(auto, using(crate::proofs::Blocks::block_fits, crate::proofs::Blocks::in_block))]
    fn value(&self, element: usize) -> &[u8]
        requires { element < elements self.now.shape }
        ensures value { result.now ≡ bytes_of self.now element }
        ensures size { length result.now ≡ self.now.shape.value }
    {
        let size = self.shape.value as usize;
        &self.values[element * size..element * size + size]
    }

    /// The value of a key, if the map has it.
    pub fn value_of(&self, key: &[u8]) -> Option<&[u8]>
        ensures found { IfSome result (λ value. (i : ℕ) × IsKeyAt self.now key.now i
            × (value.now ≡ bytes_of self.now i)) }
        ensures absent { IfNone result (IsMissing self.now key.now) }
    {
        match self.find(key) {
            Some(element) => Some(self.value(element)),
            None => None,
        }
    }

    /// The keys of the map with their values.
    fn unsorted_pairs(&self, alloc: Global) -> Result<Vec<(Vec<u8>, Vec<u8>)>, AllocError>
        ensures { IfOk result
            (λ v. ArePairsBelow self.now (length self.now.linked) (map pair_of v.items)) }
    {
        let mut pairs = Vec::with_capacity(alloc, self.count)?;
        for element in 0..self.linked.len() {
            if self.linked[element] {
                let key = self.key(element).to_vec(alloc)?;
                let value = self.value(element).to_vec(alloc)?;
                pairs.push((key, value))?;
            }
        }
        Ok(pairs)
    }

    /// The keys of the map with their values, in the keys' order.
    pub fn pairs(&self, alloc: Global) -> Result<Vec<(Vec<u8>, Vec<u8>)>, AllocError>
        ensures pairs { IfOk result (λ v. AreRowPairs self.now (map pair_of v.items)) }
    {
        let mut pairs = self.unsorted_pairs(alloc)?;
        pairs.sort_unstable();
        Ok(pairs)
    }

    /// Lists the keys of the map in the order of their bytes.
    pub fn list_keys(&self, list: &mut KeyList)
        requires shape { list.old.shape ≡ self.now.shape }
        ensures shape { list.new.shape ≡ list.old.shape }
        ensures keys { AreRowKeys self.now list.new.keys }
    {
        list.clear();
        'elements: for element in 0..self.linked.len() {
            if !self.linked[element] {
                continue;
            }
            list.add(self.key(element));
        }
        list.sort();
    }

    /// The byte at an offset in the value of an element that is in the map or kept.
    pub fn byte(&self, element: usize, offset: usize, runs: &[Runs]) -> Option<u8>
        requires element { element < elements self.now.shape }
        requires offset { offset < self.now.shape.value }
        requires runs { length runs.now ≡ self.now.cpus }
        ensures taken { IfSome result (λ b. IsTakenRow runs.now self.now element
            × (b ≡ slice_index (bytes_of self.now element) offset)) }
        ensures free { IfNone result (IsTakenRow runs.now self.now element → ⊥) }
    {
        if self.is_taken(element, runs) {
            Some(self.value(element)[offset])
        } else {
            None
        }
    }

    /// The key in an element that is in the map.
    pub fn linked_key(&self, element: usize) -> Option<&[u8]>
        requires { element < elements self.now.shape }
        ensures linked { IfSome result
            (λ key. IsLinked self.now element × (key.now ≡ key_of self.now element)) }
        ensures free { IfNone result (IsLinked self.now element → ⊥) }
    {
        if self.linked[element] {
            Some(self.key(element))
        } else {
            None
        }
    }

    /// How many elements the map has.
    pub fn elements(&self) -> u64
        ensures { result ≡ elements self.now.shape }
    {
        self.shape.max + self.shape.spare
    }

    /// The number at an offset in a value.
    #[tactic(auto, using(crate::proofs::Blocks::block_fits, crate::proofs::Blocks::in_block))]
    pub fn load(&self, element: usize, offset: usize, size: Size) -> u64
        requires element { element < elements self.now.shape }
        requires inside { offset + bytes_in size ≤ self.now.shape.value }
        ensures value { result ≡ little_endian
            (part (bytes_of self.now element) offset (bytes_in size)) }
        ensures fits { result < modulus (bytes_in size) }
    {
        let from = element * self.shape.value as usize;
        load(
            &self.values[from..from + self.shape.value as usize],
            offset,
            size,
        )
    }

    /// The bytes at an offset in a value become the low bytes of a word.
    #[tactic(auto, using(crate::proofs::Blocks::block_fits, crate::proofs::Blocks::in_block))]
    pub fn store(&mut self, element: usize, offset: usize, size: Size, word: u64)
        requires element { element < elements self.old.shape }
        requires inside { offset + bytes_in size ≤ self.old.shape.value }
        ensures stored { self.new ≡ stored_row element offset
            (low_bytes (bytes_in size) word) self.old }
        ensures table { IsTable self.old × IsTable self.new }
    {
        let from = element * self.shape.value as usize;
        store(&mut self.values, from + offset, size, word);
    }

    /// From one value to the next.
    pub fn stride(&self) -> u64
        ensures stride { result ≡ element_stride self.now.shape }
        ensures in_range { (1 ≤ result) × (result ≤ 256) }
        ensures table { IsTable self.now }
    {
        self.shape.value.next_multiple_of(8)
    }

    /// Where the value in the element lies, if this is the map of this number.
    pub fn span(&self, map: u8, element: usize) -> Span
        requires map { map < 16 }
        requires element { element < elements self.now.shape }
        ensures span { result ≡ element_span map self.now.shape element }
        ensures in_range { IsValueSpan result }
    {
        Span {
            at: FIRST_VALUE + MAP_AREA * u64::from(map) + element as u64 * self.stride(),
            size: self.shape.value,
        }
    }
}
