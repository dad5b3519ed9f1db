//! Stores of a CPU that wait.

ghost use Rattle.std.specs.Prelude.{◌≡◌, true, All, map};
ghost use Rattle.bpf_shared.specs.Access.{bytes_in};
ghost use Rattle.bpf_shared.specs.Store.{Plain};
ghost use Rattle.bpf_shared.specs.Sound.{IsSoundStore};
ghost use Rattle.bpf_shared.specs.History.{PlainlyLegal, entry};
ghost use Rattle.bpf_shared.specs.Passage.{IsWritable};
ghost use Rattle.bpf_plain.specs.PlainStore.{is_running, has_cpu, shape_of, held_spans, StandsFor};
ghost use Rattle.bpf_buffering.specs.Waiting.{event_of, AreWritable};

use bpf_plain::PlainStore;
use bpf_shared::{
    ArrayShape, AtomicOp, KeyList, MapAnswer, MapShape, Shared, Size, Span, ValuePlace, Worn,
};
use std::alloc::Global;
use std::marker::Model;
use std::mem;

/// How many stores of a CPU may wait for one more to be made ahead of what other CPUs do.
const ROOM: usize = 64;

/// A plain store that waits.
#[derive(Clone, Copy, PartialEq, Eq, Debug)]
pub struct Stored {
    pub at: u64,
    pub size: Size,
    pub word: u64,
}

/// Makes stores of a CPU that waited, the oldest first.
pub(crate) fn make_stores(store: &mut PlainStore, cpu: u8, waiting: &[Stored])
    requires serves { has_cpu store.old cpu ≡ true }
    requires runs { is_running store.old cpu ≡ true }
    requires places { AreWritable (shape_of store.old) (held_spans store.old cpu) waiting.now }
    ensures made { (s : Plain) → IsSoundStore s → StandsFor store.old s
        → (t : Plain) × PlainlyLegal s (map (entry cpu) (map event_of waiting.now)) t
        × IsSoundStore t × StandsFor store.new t }
    ensures shape { shape_of store.new ≡ shape_of store.old }
    ensures held { held_spans store.new ≡ held_spans store.old }
    ensures running { is_running store.new ≡ is_running store.old }
    ensures serves { has_cpu store.new ≡ has_cpu store.old }
{
    for stored in waiting {
        store.value_store(cpu, ValuePlace { at: stored.at }, stored.size, stored.word);
    }
}

/// A plain store, of which one CPU's plain stores wait; and one to try in what that CPU sees.
#[derive(Drop)]
pub(crate) struct Waiting {
    store: PlainStore,
    seen: PlainStore,
    waiting: Vec<Stored>,
    cpu: u8,
    lost: bool,
}

impl Model for Waiting {
    ghost use Rattle.std.specs.Prelude.{◌≡◌, false, []};
    ghost use Rattle.bpf_plain.specs.PlainStore.{shape_of, held_spans, is_running};
    ghost use Rattle.bpf_plain.specs.Alike.{IsSameShape};
    ghost use Rattle.bpf_buffering.specs.Waiting.{WaitingContents, AreWritable};

    ghost Value = { WaitingContents };

    ghost view = { λ w. record {
      store = w.store;
      waiting = w.waiting.items;
      cpu = w.cpu;
      lost = w.lost;
    } };

    ghost invariant = { λ w. IsSameShape w.store w.seen
        × AreWritable (shape_of w.store) (held_spans w.store w.cpu) w.waiting.items
        × (is_running w.store w.cpu ≡ false → w.waiting.items ≡ []) };
}

impl Waiting {
    ghost use Rattle.std.specs.Prelude.{◌≡◌, ◌<◌, true, false, [], length};
    ghost use Rattle.bpf_plain.specs.PlainStore.{has_cpu, is_running, shape_of, held_spans};
    ghost use Rattle.bpf_plain.specs.Alike.{IsSameShape};
    ghost use Rattle.bpf_buffering.specs.Waiting.{CanWait, FlushesAlone};

    /// A store of which nothing waits, with another of its shape.
    pub(crate) fn new(alloc: Global, store: PlainStore, seen: PlainStore) -> Waiting
        requires { IsSameShape store seen }
        ensures { result ≡ record { store = store; waiting = []; cpu = 0; lost = false } }
    {
        Waiting {
            store,
            seen,
            waiting: Vec::new(alloc),
            cpu: 0,
            lost: false,
        }
    }

    /// The store.
    pub(crate) fn store(&self) -> &PlainStore
        ensures { result.now ≡ self.now.store }
    {
        &self.store
    }

    /// Takes the contents of another store of its shape, where nothing waits.
    pub(crate) fn restore(&mut self, store: &PlainStore)
        requires empty { self.old.waiting ≡ [] }
        requires shape { IsSameShape self.old.store store.now }
        ensures { self.new ≡ record self.old { store = store.now; lost = false } }
    {
        self.store.copy_from(store);
        self.lost = false;
    }

    /// Whether there was no memory for some store that was to wait.
    pub(crate) fn is_lost(&self) -> bool
        ensures { result ≡ self.now.lost }
    {
        self.lost
    }

    /// Whether a store may be made ahead of what other CPUs do.
    pub(crate) fn has_room(&self) -> bool
        ensures { result ≡ true → length self.now.waiting < 64 }
    {
        self.waiting.len() < ROOM
    }

    /// Serves a CPU, of which these stores wait. They are exchanged for those of the CPU that was
    /// served before.
    pub(crate) fn exchange(&mut self, cpu: u8, waiting: &mut Vec<Stored>)
        requires { CanWait self.old.store cpu waiting.old.items }
        ensures serves { self.new ≡ record self.old { waiting = waiting.old.items; cpu = cpu } }
        ensures before { waiting.new.items ≡ self.old.waiting }
        ensures can_wait { CanWait self.old.store self.old.cpu waiting.new.items }
    {
        mem::swap(&mut self.waiting, waiting);
        self.cpu = cpu;
    }

    /// Makes the oldest store that waits. Whether there is one.
    pub(crate) fn flush(&mut self) -> bool
        requires { has_cpu self.old.store self.old.cpu ≡ true }
        ensures flushed { result ≡ true → FlushesAlone self.old self.new }
        ensures none { result ≡ false → (self.old.waiting ≡ []) × (self.new ≡ self.old) }
        ensures cpu { (self.new.cpu ≡ self.old.cpu) × (self.new.lost ≡ self.old.lost) }
        ensures shape { shape_of self.new.store ≡ shape_of self.old.store }
        ensures held { held_spans self.new.store ≡ held_spans self.old.store }
        ensures running { is_running self.new.store ≡ is_running self.old.store }
        ensures serves { has_cpu self.new.store ≡ has_cpu self.old.store }
    {
        if self.waiting.is_empty() {
            return false;
        }
        let stored = self.waiting.remove(0);
        let place = ValuePlace { at: stored.at };
        self.store
            .value_store(self.cpu, place, stored.size, stored.word);
        true
    }
}

impl Shared for Waiting {
    ghost use Rattle.bpf_plain.specs.PlainStore.{shape_of, is_running, held_spans, MayLack};
    ghost use Rattle.bpf_buffering.specs.Waiting.{PassesWaiting, serves_one};
    ghost use Rattle.bpf_buffering.specs.Lemmas.Passages.{passes_nothing, passes_follow};

    ghost shapes = { λ w. shape_of w.store };

    ghost serves = { serves_one };

    ghost running = { λ w. is_running w.store };

    ghost held = { λ w. held_spans w.store };

    ghost passes = { PassesWaiting };

    ghost may_wear = { λ _ _. ⊥ };

    ghost may_lack = { λ x y m key answer. Unit {0} };

    fn shape(&self, map: u64) -> Option<MapShape> {
        self.store.shape(map)
    }

    fn array(&self, array: u64) -> Option<ArrayShape> {
        self.store.array(array)
    }

    fn cpus(&self) -> u8 {
        Shared::cpus(&self.store)
    }

    fn begin(&mut self, cpu: u8) -> Result<(), Worn> {
        self.store.begin(cpu)
    }

    fn lookup(&mut self, cpu: u8, map: u8, key: &[u8]) -> Option<Span> {
        self.store.lookup(cpu, map, key)
    }

    fn update(&mut self, cpu: u8, map: u8, key: &[u8], value: &[u8], flags: u64) -> MapAnswer {
        if flags > 2 {
            return self.store.update(cpu, map, key, value, flags);
        }
        make_stores(&mut self.store, self.cpu, &self.waiting);
        self.waiting.clear();
        self.store.update(cpu, map, key, value, flags)
    }

    fn delete(&mut self, cpu: u8, map: u8, key: &[u8]) -> MapAnswer {
        make_stores(&mut self.store, self.cpu, &self.waiting);
        self.waiting.clear();
        self.store.delete(cpu, map, key)
    }

    fn keys(&mut self, cpu: u8, map: u8, list: &mut KeyList) {
        self.lost = true;
        self.store.keys(cpu, map, list);
    }

    fn value_load(&mut self, cpu: u8, at: ValuePlace, size: Size) -> u64 {
        self.seen.copy_from(&self.store);
        make_stores(&mut self.seen, self.cpu, &self.waiting);
        self.seen.value_load(cpu, at, size)
    }

    fn value_store(&mut self, cpu: u8, at: ValuePlace, size: Size, word: u64) {
        self.seen.copy_from(&self.store);
        make_stores(&mut self.seen, self.cpu, &self.waiting);
        self.seen.value_store(cpu, at, size, word);
        let stored = Stored {
            at: at.at,
            size,
            word,
        };
        if self.waiting.push(stored).is_err() {
            self.lost = true;
        }
    }

    fn value_atomic(
        &mut self,
        cpu: u8,
        at: ValuePlace,
        size: Size,
        op: AtomicOp,
        operand: u64,
        expected: u64,
    ) -> u64 {
        make_stores(&mut self.store, self.cpu, &self.waiting);
        self.waiting.clear();
        self.store
            .value_atomic(cpu, at, size, op, operand, expected)
    }

    fn end(&mut self, cpu: u8) {
        make_stores(&mut self.store, self.cpu, &self.waiting);
        self.waiting.clear();
        self.store.end(cpu);
    }

    ghost nothing = { passes_nothing };

    ghost follows = { passes_follow };
}
