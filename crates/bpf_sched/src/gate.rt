//! Calls of one's own round each helper's call: a test can hold a CPU there until another has come.

use bpf_shared::{
    ArrayShape, AtomicOp, KeyList, MapAnswer, MapShape, Shared, Size, Span, ValuePlace, Worn,
};

/// What is called round each lookup, update and deletion.
pub trait Gate {
    fn before_helper(&self, cpu: u8);

    fn after_helper(&self, cpu: u8);
}

/// A gate that does nothing.
pub struct NoGate;

impl Gate for NoGate {
    fn before_helper(&self, _cpu: u8) {}

    fn after_helper(&self, _cpu: u8) {}
}

/// A store whose lookups, updates and deletions are between two calls of a gate. All that a store
/// promises of its events it promises too.
pub struct Gated<'a, S: Shared, G: Gate> {
    store: S,
    gate: &'a G,
}

impl<'a, S: Shared, G: Gate> Gated<'a, S, G> {
    ghost use Rattle.std.specs.Prelude.{◌≡◌};

    /// The store, after the gate.
    pub fn new(store: S, gate: &'a G) -> Gated<'a, S, G>
        ensures { result.store ≡ store }
    {
        Gated { store, gate }
    }

    /// The store.
    pub fn into_store(self) -> S
        ensures { result ≡ self.entry.store }
    {
        let Gated { store, gate: _ } = self;
        store
    }
}

impl<S: Shared, G: Gate> Shared for Gated<'_, S, G> {
    ghost shapes = { λ x. S.shapes x.store };

    ghost serves = { λ x. S.serves x.store };

    ghost running = { λ x. S.running x.store };

    ghost held = { λ x. S.held x.store };

    ghost passes = { λ x y log. S.passes x.store y.store log };

    ghost may_wear = { λ x c. S.may_wear x.store c };

    ghost may_lack = { λ x y m key answer. S.may_lack x.store y.store m key answer };

    fn shape(&self, map: u64) -> Option<MapShape> {
        self.store.shape(map)
    }

    fn array(&self, array: u64) -> Option<ArrayShape> {
        self.store.array(array)
    }

    fn cpus(&self) -> u8 {
        self.store.cpus()
    }

    fn begin(&mut self, cpu: u8) -> Result<(), Worn> {
        self.store.begin(cpu)
    }

    fn lookup(&mut self, cpu: u8, map: u8, key: &[u8]) -> Option<Span> {
        self.gate.before_helper(cpu);
        let found = self.store.lookup(cpu, map, key);
        self.gate.after_helper(cpu);
        found
    }

    fn update(&mut self, cpu: u8, map: u8, key: &[u8], value: &[u8], flags: u64) -> MapAnswer {
        self.gate.before_helper(cpu);
        let answer = self.store.update(cpu, map, key, value, flags);
        self.gate.after_helper(cpu);
        answer
    }

    fn delete(&mut self, cpu: u8, map: u8, key: &[u8]) -> MapAnswer {
        self.gate.before_helper(cpu);
        let answer = self.store.delete(cpu, map, key);
        self.gate.after_helper(cpu);
        answer
    }

    // No helper lists keys, so the gate is not called.
    fn keys(&mut self, cpu: u8, map: u8, list: &mut KeyList) {
        self.store.keys(cpu, map, list);
    }

    fn value_load(&mut self, cpu: u8, at: ValuePlace, size: Size) -> u64 {
        self.store.value_load(cpu, at, size)
    }

    fn value_store(&mut self, cpu: u8, at: ValuePlace, size: Size, word: u64) {
        self.store.value_store(cpu, at, size, word);
    }

    fn value_atomic(
        &mut self,
        cpu: u8,
        at: ValuePlace,
        size: Size,
        op: AtomicOp,
        operand: u64,
        expected: u64,
    ) -> u64 {
        self.store
            .value_atomic(cpu, at, size, op, operand, expected)
    }

    fn end(&mut self, cpu: u8) {
        self.store.end(cpu);
    }

    ghost nothing = { λ x. S.nothing x.store };

    ghost follows = { λ x y z xs ys. S.follows x.store y.store z.store xs ys };
}
