//! A plain store that notes what one CPU does there.

use crate::note::{Note, note_delete, note_lookup, note_update};
use bpf_plain::PlainStore;
use bpf_shared::{
    ArrayShape, AtomicOp, KeyList, MapAnswer, MapShape, Shared, Size, Span, ValuePlace, Worn,
};
use std::alloc::{AllocError, Global};
use std::marker::Model;

/// A plain store, and notes of the calls of one CPU.
#[derive(Drop)]
pub struct Recorder {
    alloc: Global,
    store: PlainStore,
    cpu: u8,
    notes: Vec<Note>,
    /// Whether there was no memory for some note, or another CPU has made a call.
    lost: bool,
}

impl Model for Recorder {
    ghost use Rattle.std.specs.Prelude.{map};
    ghost use Rattle.bpf_events.specs.Private.Recording.{Recording, event_of};

    ghost Value = { Recording };

    ghost view = { λ r. record {
      store = r.store;
      cpu = r.cpu;
      events = map event_of r.notes.items;
      lost = r.lost;
    } };
}

impl Recorder {
    ghost use Rattle.std.specs.Prelude.{◌≡◌, ◌++◌, [], ◌∷◌, false, IsOkAnd, map};
    ghost use Rattle.bpf_plain.specs.Alike.{IsSameShape};
    ghost use Rattle.bpf_events.specs.Private.Recording.{event_of};

    /// A recorder over a store.
    pub fn new(alloc: Global, store: PlainStore) -> Recorder
        ensures { result.store ≡ store }
    {
        Recorder {
            alloc,
            store,
            cpu: 0,
            notes: Vec::new(alloc),
            lost: false,
        }
    }

    /// Forgets its notes.
    pub fn forget(&mut self)
        ensures { self.new ≡ record self.old { events = []; lost = false } }
    {
        self.notes.clear();
        self.lost = false;
    }

    /// Forgets its notes, and notes the calls of this CPU over a store with these contents.
    pub fn restart(&mut self, store: &PlainStore, cpu: u8)
        requires { IsSameShape store.now self.old.store }
        ensures { self.new ≡ record { store = store.now; cpu = cpu; events = []; lost = false } }
    {
        self.store.copy_from(store);
        self.cpu = cpu;
        self.notes.clear();
        self.lost = false;
    }

    /// Its notes.
    pub fn notes(&self) -> &[Note]
        ensures { map event_of result.now ≡ self.now.events }
    {
        &self.notes
    }

    /// Whether some note is missing.
    pub fn is_lost(&self) -> bool
        ensures { result ≡ self.now.lost }
    {
        self.lost
    }

    /// Appends a note of a CPU's call to the others.
    fn put(&mut self, cpu: u8, note: Result<Note, AllocError>)
        ensures store { self.new.store ≡ self.old.store }
        ensures cpu { self.new.cpu ≡ self.old.cpu }
        ensures noted { self.new.lost ≡ false → (self.old.lost ≡ false) × (cpu ≡ self.old.cpu)
            × IsOkAnd note (λ note. self.new.events ≡ self.old.events ++ event_of note ∷ []) }
    {
        match note {
            Ok(note) if cpu == self.cpu => {
                if self.notes.push(note).is_err() {
                    self.lost = true;
                }
            }
            _ => self.lost = true,
        }
    }
}

#[tactic(auto, using(crate::proofs::Noting::noted_call, crate::proofs::Noting::lost_call))]
impl Shared for Recorder {
    ghost use Rattle.bpf_plain.specs.PlainStore.{has_cpu, shape_of, is_running, held_spans, MayLack};
    ghost use Rattle.bpf_events.specs.Private.Recording.{PassesNoted};
    ghost use Rattle.bpf_events.specs.Lemmas.Passages.{passes_nothing, passes_follow};

    ghost shapes = { λ r. shape_of r.store };

    ghost serves = { λ r. has_cpu r.store };

    ghost running = { λ r. is_running r.store };

    ghost held = { λ r. held_spans r.store };

    ghost passes = { PassesNoted };

    ghost may_wear = { λ _ _. ⊥ };

    ghost may_lack = { λ x y. MayLack x.store y.store };

    fn shape(&self, map: u64) -> Option<MapShape> {
        self.store.shape(map)
    }

    fn array(&self, array: u64) -> Option<ArrayShape> {
        self.store.array(array)
    }

    fn cpus(&self) -> u8 {
        Shared::cpus(&self.store)
    }

    fn begin(&mut self, cpu: u8) -> Result<(), Worn> {
        self.store.begin(cpu)?;
        self.put(cpu, Ok(Note::Begin));
        Ok(())
    }

    fn lookup(&mut self, cpu: u8, map: u8, key: &[u8]) -> Option<Span> {
        let answer = self.store.lookup(cpu, map, key);
        let note = note_lookup(self.alloc, map, key, answer);
        self.put(cpu, note);
        answer
    }

    fn update(&mut self, cpu: u8, map: u8, key: &[u8], value: &[u8], flags: u64) -> MapAnswer {
        let answer = self.store.update(cpu, map, key, value, flags);
        let note = note_update(self.alloc, map, key, value, flags, answer);
        self.put(cpu, note);
        answer
    }

    fn delete(&mut self, cpu: u8, map: u8, key: &[u8]) -> MapAnswer {
        let answer = self.store.delete(cpu, map, key);
        let note = note_delete(self.alloc, map, key, answer);
        self.put(cpu, note);
        answer
    }

    fn keys(&mut self, cpu: u8, map: u8, list: &mut KeyList) {
        self.store.keys(cpu, map, list);
        self.lost = true;
    }

    fn value_load(&mut self, cpu: u8, at: ValuePlace, size: Size) -> u64 {
        let found = self.store.value_load(cpu, at, size);
        self.put(
            cpu,
            Ok(Note::Load {
                at: at.at,
                size,
                found,
            }),
        );
        found
    }

    fn value_store(&mut self, cpu: u8, at: ValuePlace, size: Size, word: u64) {
        self.store.value_store(cpu, at, size, word);
        self.put(
            cpu,
            Ok(Note::Store {
                at: at.at,
                size,
                word,
            }),
        );
    }

    fn value_atomic(
        &mut self,
        cpu: u8,
        at: ValuePlace,
        size: Size,
        op: AtomicOp,
        operand: u64,
        expected: u64,
    ) -> u64 {
        let found = self
            .store
            .value_atomic(cpu, at, size, op, operand, expected);
        self.put(
            cpu,
            Ok(Note::Atomic {
                at: at.at,
                size,
                op,
                operand,
                expected,
                found,
            }),
        );
        found
    }

    fn end(&mut self, cpu: u8) {
        self.store.end(cpu);
        self.put(cpu, Ok(Note::End));
    }

    ghost nothing = { passes_nothing };

    ghost follows = { passes_follow };
}
