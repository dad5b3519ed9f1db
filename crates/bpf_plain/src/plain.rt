//! The plain store: the shared store of one thread.
ghost use Rattle.std.specs.Prelude.{◌≡◌, ◌≤◌, ◌<◌, ℕ, true, false, IsTrue, IfOk, IfErr, IfSome, IfNone, nat_lt, option_map};
ghost use Rattle.bpf_shared.specs.Shape.{IsValueSpan};

mod calls;
mod places;
mod restoring;
mod saving;

use crate::bytes::new_arrays;
use bpf_hash::HashStore;
use bpf_shared::{ShapeError, Span, StoreShape};
use std::alloc::{AllocError, Global};
use std::marker::Model;

/// A store that serves all its CPUs on one thread: what the definitions allow, as it is there,
/// with the choices that they leave to it. All its memory is taken when it is made.
#[derive(Drop)]
pub struct PlainStore {
    shape: StoreShape,
    maps: HashStore,
    /// By array, the bytes of its values, each at its offset from the first.
    arrays: Vec<Vec<u8>>,
}

impl Model for PlainStore {
    ghost use Rattle.bpf_shared.specs.Contents.{bytes_of_all};
    ghost use Rattle.bpf_plain.specs.Private.Contents.{Contents, IsStore};

    ghost Value = { Contents };

    ghost view = { λ p. record { shape = p.shape; maps = p.maps; arrays = bytes_of_all p.arrays.items } };

    ghost invariant = { λ p. IsStore (record { shape = p.shape; maps = p.maps; arrays = bytes_of_all p.arrays.items }) };
}

impl PlainStore {
    ghost use Rattle.bpf_shared.specs.Listing.{listed};
    ghost use Rattle.bpf_plain.specs.Private.Contents.{IsMade, has_cpu, is_running, held_spans};
    ghost use Rattle.bpf_plain.specs.Shows.{Lists, ShowsKey, ShowsNoKey, ShowsValue};
    ghost use Rattle.bpf_plain.specs.Private.Contents.{shape_of};

    /// A store with no keys, and no CPU in a run. Out of memory is its only refusal.
    pub fn new(alloc: Global, shape: StoreShape) -> Result<PlainStore, ShapeError>
        ensures made { IfOk result (IsMade shape) }
        ensures refused { IfErr result (λ e. e ≡ ShapeError.OutOfMemory) }
    {
        Self::allocate(alloc, shape).map_err(|_| ShapeError::OutOfMemory)
    }

    fn allocate(alloc: Global, shape: StoreShape) -> Result<PlainStore, AllocError>
        ensures { IfOk result (IsMade shape) }
    {
        let maps = HashStore::new(alloc, &shape)?;
        let arrays = new_arrays(alloc, &shape)?;
        Ok(PlainStore {
            shape,
            maps,
            arrays,
        })
    }

    /// What the store was made with.
    pub fn store_shape(&self) -> &StoreShape
        ensures { result.now ≡ shape_of self.now }
    {
        &self.shape
    }

    /// How many CPUs the store has: those of the numbers below it.
    pub fn cpus(&self) -> u8
        ensures { (c : ℕ) → has_cpu self.now c ≡ nat_lt c result }
    {
        self.maps.cpus()
    }

    /// Only CPUs that the store has are in a run: says so, and does nothing.
    pub fn runs_are_served(&self)
        ensures { (c : ℕ) → is_running self.now c ≡ true → has_cpu self.now c ≡ true }
    {
        self.maps.runs_are_served();
    }

    /// The CPU of this number is in a run.
    pub fn is_running(&self, cpu: u8) -> bool
        ensures { result ≡ is_running self.now cpu }
    {
        self.maps.is_running(cpu)
    }

    /// The run of the CPU of this number holds the value of a span.
    pub fn holds(&self, cpu: u8, span: Span) -> bool
        ensures holds { result ≡ held_spans self.now cpu span }
        ensures value { IsTrue result → IsValueSpan span }
    {
        self.maps.holds(cpu, span)
    }

    /// The keys of a map with their values, in the keys' order; of no map there are none. Out of
    /// memory is the only refusal.
    pub fn dump(&self, alloc: Global, map: u64) -> Result<Vec<(Vec<u8>, Vec<u8>)>, AllocError>
        ensures listed { IfOk result (λ pairs. Lists self.now map (listed pairs.items)) }
    {
        self.maps.dump(alloc, map)
    }

    /// The key that leads to the value at an address. None where no map has a value there, as of a
    /// value that is only held.
    pub fn key_at(&self, address: u64) -> Option<&[u8]>
        ensures found { IfSome result (λ key. ShowsKey self.now address key.now) }
        ensures none { IfNone result (ShowsNoKey self.now address) }
    {
        self.maps.key_at(address)
    }

    /// The value of a key of a map. None where the map doesn't have the key, or there is no such map.
    pub fn value(&self, map: u64, key: &[u8]) -> Option<&[u8]>
        ensures { ShowsValue self.now map key.now (option_map (λ value. value.now) result) }
    {
        self.maps.value(map, key)
    }
}
