//! What CPUs do to the store: each call is one event.
use super::PlainStore;
use super::places::FIRST_FIXED;
use bpf_shared::bytes::change;
use bpf_shared::{
    ArrayShape, AtomicOp, KeyList, MapAnswer, MapShape, Shared, Size, Span, ValuePlace, Worn,
};

impl Shared for PlainStore {
    ghost use Rattle.bpf_plain.specs.Private.Contents.{shape_of, has_cpu, is_running, held_spans, Passes, MayLack};
    ghost use Rattle.bpf_plain.specs.Lemmas.Passages.{passes_nothing, passes_follow};

    ghost shapes = { shape_of };

    ghost serves = { has_cpu };

    ghost running = { is_running };

    ghost held = { held_spans };

    ghost passes = { Passes };

    ghost may_wear = { λ _ _. ⊥ };

    ghost may_lack = { MayLack };

    fn shape(&self, map: u64) -> Option<MapShape> {
        self.maps.shape(map)
    }

    fn array(&self, array: u64) -> Option<ArrayShape> {
        let shape = self.shape.arrays().get(array as usize)?;
        Some(*shape)
    }

    fn cpus(&self) -> u8 {
        self.shape.cpus()
    }

    fn begin(&mut self, cpu: u8) -> Result<(), Worn> {
        self.maps.begin(cpu);
        Ok(())
    }

    fn lookup(&mut self, cpu: u8, map: u8, key: &[u8]) -> Option<Span> {
        self.maps.lookup(cpu, map, key)
    }

    fn update(&mut self, cpu: u8, map: u8, key: &[u8], value: &[u8], flags: u64) -> MapAnswer {
        self.maps.update(cpu, map, key, value, flags)
    }

    fn delete(&mut self, cpu: u8, map: u8, key: &[u8]) -> MapAnswer {
        self.maps.delete(cpu, map, key)
    }

    fn keys(&mut self, cpu: u8, map: u8, list: &mut KeyList) {
        self.maps.keys(cpu, map, list);
    }

    fn value_load(&mut self, cpu: u8, at: ValuePlace, size: Size) -> u64 {
        self.maps.values_are_low();
        if at.at < FIRST_FIXED {
            self.maps.value_load(cpu, at, size)
        } else {
            self.load_fixed(at.at, size)
        }
    }

    fn value_store(&mut self, cpu: u8, at: ValuePlace, size: Size, word: u64) {
        self.maps.values_are_low();
        if at.at < FIRST_FIXED {
            self.maps.value_store(cpu, at, size, word);
        } else {
            self.store_fixed(at.at, size, word);
        }
    }

    fn value_atomic(
        &mut self,
        cpu: u8,
        at: ValuePlace,
        size: Size,
        op: AtomicOp,
        operand: u64,
        expected: u64,
    ) -> u64 {
        self.maps.values_are_low();
        if at.at < FIRST_FIXED {
            self.maps.value_atomic(cpu, at, size, op, operand, expected)
        } else {
            let found = self.load_fixed(at.at, size);
            let word = change(op, size, found, operand, expected);
            self.store_fixed(at.at, size, word);
            found
        }
    }

    fn end(&mut self, cpu: u8) {
        self.maps.end(cpu);
    }

    ghost nothing = { passes_nothing };

    ghost follows = { passes_follow };
}
