//! Stores under numbers: one that is saved as a kept one is found again.

ghost use Rattle.std.specs.Prelude.{◌≡◌, ◌<◌, ◌++◌, ◌∷◌, ◌⊎◌, [], List, ℕ, true, IfOk, IfSome, Some, length, slice_get, slice_index_or};
ghost use Rattle.bpf_plain.specs.PlainStore.{IsSavedAs};
ghost use Rattle.bpf_buffering.specs.Private.Kept.{no_store};

use super::number_of;
use crate::index::{Index, Look};
use bpf_base::spread;
use bpf_plain::{PlainStore, copy_shape};
use std::alloc::{AllocError, Global};
use std::marker::Model;

/// A copy of a store.
#[tactic(auto, using(crate::proofs::Keeping::made_same))]
fn copy_store(alloc: Global, store: &PlainStore) -> Result<PlainStore, AllocError>
    requires { (bytes : List ℕ) × IsSavedAs store.now bytes }
    ensures { IfOk result (λ copy. copy ≡ store.now) }
{
    let shape = copy_shape(alloc, store.store_shape())?;
    let mut copy = PlainStore::new(alloc, shape).map_err(|_| AllocError)?;
    copy.copy_from(store);
    Ok(copy)
}

/// A number by which a store is found that is saved as these bytes.
pub(crate) fn hash_of(bytes: &[u8]) -> u64 {
    bytes
        .iter()
        .fold(0, |hash: u64, byte| spread(hash ^ u64::from(*byte)))
}

/// A store, and the bytes that it is saved as.
#[derive(Drop)]
struct Saved {
    store: PlainStore,
    bytes: Vec<u8>,
}

impl Model for Saved {
    ghost use Rattle.bpf_plain.specs.PlainStore.{Contents, IsSavedAs};

    ghost Value = { Contents };

    ghost view = { λ s. s.store };

    ghost invariant = { λ s. IsSavedAs s.store s.bytes.items };
}

impl Saved {
    /// A copy of a store, with the bytes that it is saved as.
    fn of(alloc: Global, store: &PlainStore) -> Result<Saved, AllocError>
        ensures { IfOk result (λ s. s ≡ store.now) }
    {
        let mut bytes = Vec::new(alloc);
        store.save(&mut bytes)?;
        let store = copy_store(alloc, store)?;
        Ok(Saved { store, bytes })
    }

    /// Whether it is saved as these bytes.
    fn is(&self, bytes: &[u8]) -> bool
        ensures { result ≡ true → IsSavedAs self.now bytes.now }
    {
        self.bytes.as_slice() == bytes
    }

    /// The store.
    fn store(&self) -> &PlainStore
        ensures { result.now ≡ self.now }
    {
        &self.store
    }

    /// A number by which it is found.
    fn hash(&self) -> u64 {
        hash_of(&self.bytes)
    }

    /// How many bytes it is saved as.
    fn len(&self) -> usize {
        self.bytes.len()
    }
}

/// Kept stores, each under its number, in the order in which they came.
#[derive(Drop)]
pub(crate) struct Stores {
    kept: Vec<Saved>,
    index: Index,
}

impl Model for Stores {
    ghost use Rattle.std.specs.Prelude.{List};
    ghost use Rattle.bpf_plain.specs.PlainStore.{Contents};

    ghost Value = { List Contents };

    ghost view = { λ s. s.kept.items };
}

impl Stores {
    /// Nothing is kept.
    pub(crate) fn new(alloc: Global) -> Stores
        ensures { result ≡ [] }
    {
        Stores {
            kept: Vec::new(alloc),
            index: Index::new(alloc),
        }
    }

    /// The store of a number.
    pub(crate) fn store(&self, number: u32) -> &PlainStore
        requires { number < length self.now }
        ensures { result.now ≡ slice_index_or self.now number no_store }
    {
        self.kept[number as usize].store()
    }

    /// Whether the store of a number is saved as these bytes.
    fn is_at(&self, number: usize, bytes: &[u8]) -> bool
        ensures within { result ≡ true → number < length self.now }
        ensures saved { result ≡ true
            → IsSavedAs (slice_index_or self.now number no_store) bytes.now }
    {
        match self.kept.get(number) {
            Some(saved) => saved.is(bytes),
            None => false,
        }
    }

    /// The number of a store that is saved as these bytes, if it is found.
    pub(crate) fn find(&self, bytes: &[u8]) -> Option<u32>
        ensures within { IfSome result (λ n. n < length self.now) }
        ensures saved { IfSome result
            (λ n. IsSavedAs (slice_index_or self.now n no_store) bytes.now) }
    {
        let hash = hash_of(bytes);
        for step in 0..self.index.places() {
            match self.index.look(hash, step) {
                Look::Number(number) if self.is_at(number, bytes) => {
                    return u32::try_from(number).ok();
                }
                Look::Number(_) | Look::Other => {}
                Look::Nothing => return None,
            }
        }
        None
    }

    /// Puts a copy of a store after those that are kept. Its number.
    pub(crate) fn keep_anew(&mut self, alloc: Global, store: &PlainStore) -> Result<u32, AllocError>
        ensures at { IfOk result (λ n. slice_get self.new n ≡ Some store.now) }
        ensures adds { (self.new ≡ self.old) ⊎ (self.new ≡ self.old ++ store.now ∷ []) }
    {
        let saved = Saved::of(alloc, store)?;
        let number = self.kept.len();
        self.index.note(alloc, saved.hash(), number)?;
        self.kept.push(saved)?;
        number_of(number)
    }

    /// About how many bytes of memory they take: each some times what the last is saved as.
    pub(crate) fn bytes(&self) -> usize {
        let each = self.kept.last().map_or(0, Saved::len).saturating_mul(4);
        let kept = self.kept.len().saturating_mul(each);
        self.index.bytes().saturating_add(kept)
    }
}
