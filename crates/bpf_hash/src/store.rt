//! The hash maps of a store of one thread.
ghost use Rattle.std.specs.Prelude.{◌≡◌, ◌+◌, ◌<◌, ◌≤◌, ℕ, true, false, IsTrue, IfOk, IfSome, IfNone, length, map, nat_lt, option_map, slice_index_or};
ghost use Rattle.bpf_shared.specs.declared.events.Span.{Span};
ghost use Rattle.bpf_shared.specs.Shape.{IsMap, IsMapShape, IsValueSpan};
ghost use Rattle.bpf_shared.specs.Store.{Plain};
ghost use Rattle.bpf_shared.specs.Sound.{IsSoundStore};
ghost use Rattle.bpf_hash.specs.Private.Rows.{no_rows, shape_of, IsBlank, IsTable};
ghost use Rattle.bpf_hash.specs.Private.Runs.{no_runs};

mod calls;
mod restoring;
mod saving;

use crate::runs::Runs;
use crate::table::Table;
use bpf_shared::{FIRST_VALUE, MAP_AREA, MapShape, Span, StoreShape};
use std::alloc::{AllocError, Global};
use std::marker::Model;

/// A store's maps, for all its CPUs on one thread: what the definitions allow, with the choices that
/// they leave to it. All its memory is taken when it is made.
#[derive(Drop)]
pub struct HashStore {
    /// By CPU.
    runs: Vec<Runs>,
    /// By map.
    tables: Vec<Table>,
}

impl Model for HashStore {
    ghost use Rattle.bpf_hash.specs.Private.Contents.{Contents, IsStore};

    ghost Value = { Contents };

    ghost view = { λ p. record { runs = p.runs.items; tables = p.tables.items } };

    ghost invariant = { λ p. IsStore (record { runs = p.runs.items; tables = p.tables.items }) };
}

/// No CPU has begun a run.
fn new_runs(alloc: Global, cpus: u8) -> Result<Vec<Runs>, AllocError>
    ensures cpus { IfOk result (λ v. length v.items ≡ cpus) }
    ensures idle { IfOk result (λ v. (c : ℕ) → slice_index_or v.items c no_runs ≡ no_runs) }
{
    let mut runs = Vec::with_capacity(alloc, cpus as usize)?;
    for _ in 0..cpus {
        runs.push(Runs {
            count: 0,
            running: false,
        })?;
    }
    Ok(runs)
}

/// No map has a key.
fn new_tables(alloc: Global, maps: &[MapShape], cpus: u8) -> Result<Vec<Table>, AllocError>
    requires maps { (m : ℕ) (h : _) → IsMap maps.now m h → IsMapShape h }
    requires cpus { cpus ≤ 16 }
    ensures shapes { IfOk result (λ v. map shape_of v.items ≡ maps.now) }
    ensures blank { IfOk result (λ v. (m : ℕ) → IsBlank (slice_index_or v.items m no_rows)) }
    ensures tables { IfOk result (λ v. (m : ℕ) → m < length v.items
        → IsTable (slice_index_or v.items m no_rows)
        × ((slice_index_or v.items m no_rows).cpus ≡ cpus)) }
{
    let mut tables = Vec::with_capacity(alloc, maps.len())?;
    for map in maps {
        tables.push(Table::new(alloc, *map, cpus)?)?;
    }
    Ok(tables)
}

/// Where in a store's tables a byte of a value is.
#[derive(Clone, Copy)]
struct Reach {
    map: usize,
    element: usize,
    offset: usize,
}

impl HashStore {
    ghost use Rattle.bpf_hash.specs.Private.Contents.{IsMade, StandsFor, has_cpu, is_running, held_spans, holds, runs_of, element_count, span_at};
    ghost use Rattle.bpf_shared.specs.Passage.{same_span};
    ghost use Rattle.bpf_hash.specs.Private.Changes.{IsAtValue, IsAlike, IsReach};
    ghost use Rattle.bpf_shared.specs.Listing.{listed};
    ghost use Rattle.bpf_hash.specs.Shows.{AreElementsLow, Lists, ShowsByte, ShowsKey, ShowsNoByte, ShowsNoKey, ShowsValue};

    /// The maps of a store of this shape, with no keys, and no CPU in a run.
    pub fn new(alloc: Global, shape: &StoreShape) -> Result<HashStore, AllocError>
        ensures { IfOk result (IsMade shape.now) }
    {
        Ok(HashStore {
            runs: new_runs(alloc, shape.cpus())?,
            tables: new_tables(alloc, shape.maps(), shape.cpus())?,
        })
    }

    /// How many CPUs the store has: those of the numbers below it.
    pub fn cpus(&self) -> u8
        ensures { (c : ℕ) → has_cpu self.now c ≡ nat_lt c result }
    {
        self.runs.len() as u8
    }

    /// Only CPUs that the store has are in a run: says so, and does nothing.
    pub fn runs_are_served(&self)
        ensures { (c : ℕ) → is_running self.now c ≡ true → has_cpu self.now c ≡ true }
    {
        let _ = &self.runs;
    }

    /// Values lie below the areas of arrays: says so, and does nothing.
    pub fn values_are_low(&self)
        ensures held { (c : ℕ) (q : Span) → held_spans self.now c q ≡ true → IsValueSpan q }
        ensures shown { (s : Plain) → IsSoundStore s → StandsFor self.now s → AreElementsLow s }
    {
        let _ = &self.runs;
    }

    /// The CPU of this number is in a run.
    pub fn is_running(&self, cpu: u8) -> bool
        ensures { result ≡ is_running self.now cpu }
    {
        match self.runs.get(cpu as usize) {
            Some(runs) => runs.running,
            None => false,
        }
    }

    /// The run of the CPU of this number holds the value of a span.
    pub fn holds(&self, cpu: u8, span: Span) -> bool
        ensures holds { result ≡ held_spans self.now cpu span }
        ensures value { IsTrue result → IsValueSpan span }
    {
        let _ = &self.runs;
        match self.place(span.at) {
            Some(reach) => self.holds_element(cpu, reach) && self.is_span(reach, span),
            None => false,
        }
    }

    /// The keys of a map with their values, in the keys' order; of no map there are none. Want of
    /// memory is the only refusal.
    pub fn dump(&self, alloc: Global, map: u64) -> Result<Vec<(Vec<u8>, Vec<u8>)>, AllocError>
        ensures listed { IfOk result (λ pairs. Lists self.now map (listed pairs.items)) }
    {
        match self.tables.get(map as usize) {
            Some(table) => table.pairs(alloc),
            None => Ok(Vec::new(alloc)),
        }
    }

    /// The byte at an address, of the one value there that is in a map or kept.
    pub fn peek(&self, address: u64) -> Option<u8>
        ensures found { IfSome result (ShowsByte self.now address) }
        ensures none { IfNone result (ShowsNoByte self.now address) }
    {
        let runs = self.runs.as_slice();
        let reach = self.place(address)?;
        self.tables[reach.map].byte(reach.element, reach.offset, runs)
    }

    /// The key that leads to the value at an address. None where no map has a value there, as of a
    /// value that is only held.
    pub fn key_at(&self, address: u64) -> Option<&[u8]>
        ensures found { IfSome result (λ key. ShowsKey self.now address key.now) }
        ensures none { IfNone result (ShowsNoKey self.now address) }
    {
        let tables = self.tables.as_slice();
        let reach = self.place(address)?;
        tables[reach.map].linked_key(reach.element)
    }

    /// The value of a key of a map. None where the map doesn't have the key, or there is no such map.
    pub fn value(&self, map: u64, key: &[u8]) -> Option<&[u8]>
        ensures { ShowsValue self.now map key.now (option_map (λ value. value.now) result) }
    {
        match self.tables.get(map as usize) {
            Some(table) => table.value_of(key),
            None => None,
        }
    }

    /// Makes sure that the CPU's runs can be counted up once more. After 2^32 - 1 runs that takes a
    /// new count, from 0 on, and every run of the old one is forgotten.
    fn make_countable(&mut self, cpu: u8)
        requires serves { has_cpu self.old cpu ≡ true }
        requires idle { is_running self.old cpu ≡ false }
        ensures countable { (runs_of self.new cpu).count < u32.MAX }
        ensures alike { IsAlike self.old self.new }
    {
        if self.runs[cpu as usize].count < u32::MAX {
            return;
        }
        self.runs[cpu as usize].count = 0;
        for table in self.tables.iter_mut() {
            table.forget(cpu);
        }
    }

    /// The CPU's run looked the element of a place up.
    fn holds_element(&self, cpu: u8, reach: Reach) -> bool
        requires map { reach.map < length self.now.tables }
        requires element { reach.element < element_count self.now reach.map }
        ensures { result ≡ holds self.now cpu reach.map reach.element }
    {
        match self.runs.get(cpu as usize) {
            Some(runs) => self.tables[reach.map].is_held_by(reach.element, cpu as usize, *runs),
            None => false,
        }
    }

    /// A span is that of the element of a place.
    fn is_span(&self, reach: Reach, span: Span) -> bool
        requires { IsReach self.now span.at reach }
        ensures { result ≡ same_span span (span_at self.now reach.map reach.element) }
    {
        reach.offset == 0 && span.size == self.tables[reach.map].shape().value
    }

    /// Where the byte at an address is, if it is one of an element's value.
    fn place(&self, address: u64) -> Option<Reach>
        ensures found { IfSome result (IsReach self.now address) }
        ensures none { IfNone result (IsAtValue self.now address → ⊥) }
    {
        let above = address.checked_sub(FIRST_VALUE)?;
        let map = (above / MAP_AREA) as usize;
        let table = self.tables.get(map)?;
        let within = above % MAP_AREA;
        let stride = table.stride();
        let element = within / stride;
        let offset = within % stride;
        if element < table.elements() && offset < table.shape().value {
            Some(Reach {
                map,
                element: element as usize,
                offset: offset as usize,
            })
        } else {
            None
        }
    }

    /// Where the byte at an address in a value is.
    fn reach(&self, at: u64) -> Reach
        requires { IsAtValue self.now at }
        ensures map { result.map < length self.now.tables }
        ensures element { result.element < element_count self.now result.map }
        ensures at { at ≡ (span_at self.now result.map result.element).at + result.offset }
        ensures inside { result.offset < (span_at self.now result.map result.element).size }
    {
        let above = at - FIRST_VALUE;
        let map = (above / MAP_AREA) as usize;
        let within = above % MAP_AREA;
        let stride = self.tables[map].stride();
        Reach {
            map,
            element: (within / stride) as usize,
            offset: (within % stride) as usize,
        }
    }
}
