//! Stores under numbers: one that looks like a kept one is found again.

ghost use Rattle.std.specs.Prelude.{◌≡◌, ◌<◌, ◌++◌, ◌∷◌, ◌⊎◌, ℕ, List, [], true, false, IfOk, IfSome, IfNone, OnOk, OnErr, length, slice_index_or};
ghost use Rattle.bpf_plain.specs.PlainStore.{IsMade, IsSavedAs};
ghost use Rattle.bpf_explore.specs.Stores.{IsOfShape, no_store};
ghost use Rattle.bpf_explore.specs.Private.Slots.{hash_of};
ghost use Rattle.bpf_explore.specs.Private.Kept.{store_at, AreStoresApart, HoldsStores};

use crate::room::{bytes_of, store_bytes};
use crate::slots::{note, room_for, slot_of};
use bpf_base::spread;
use bpf_plain::{PlainStore, copy_shape};
use bpf_shared::StoreShape;
use std::alloc::{AllocError, Global};
use std::marker::Model;

/// A store with the bytes that it is saved as.
#[derive(Drop)]
struct Saved {
    store: PlainStore,
    bytes: Vec<u8>,
}

impl Model for Saved {
    ghost use Rattle.bpf_plain.specs.PlainStore.{Contents, IsSavedAs};

    ghost Value = { Contents };

    ghost view = { λ s. s.store };

    ghost invariant = { λ s. IsSavedAs s.store s.bytes.items };
}

/// Stores of one shape, each under its number, in the order in which they came. What they are saved
/// as is compared byte by byte, so nothing that is promised rests on hashes.
#[derive(Drop)]
pub struct Stores {
    kept: Vec<Saved>,
    /// By place, one more than the number of a store, from the place of its hash on; 0 where none
    /// is.
    slots: Vec<u32>,
}

impl Model for Stores {
    ghost use Rattle.std.specs.Prelude.{List};
    ghost use Rattle.bpf_plain.specs.PlainStore.{Contents};
    ghost use Rattle.bpf_explore.specs.Private.Kept.{HoldsStores};

    ghost Value = { List Contents };

    ghost view = { λ s. s.kept.items };

    ghost invariant = { λ s. HoldsStores s.kept.items s.slots.items };
}

/// Where a store is looked for first.
fn hash_of(bytes: &[u8]) -> u64
    ensures { result ≡ hash_of bytes.now }
{
    bytes
        .iter()
        .fold(0, |hash: u64, byte| spread(hash ^ u64::from(*byte)))
}

/// A new store of this shape.
pub(crate) fn new_store(alloc: Global, shape: &StoreShape) -> Result<PlainStore, AllocError>
    ensures { IfOk result (IsMade shape.now) }
{
    let shape = copy_shape(alloc, shape)?;
    PlainStore::new(alloc, shape).map_err(|_| AllocError)
}

/// A copy of a store of this shape.
fn copy_store(
    alloc: Global,
    shape: &StoreShape,
    store: &PlainStore,
) -> Result<PlainStore, AllocError>
    requires { IsOfShape shape.now store.now }
    ensures { IfOk result (λ copy. copy ≡ store.now) }
{
    let shape = copy_shape(alloc, shape)?;
    let mut copy = PlainStore::new(alloc, shape).map_err(|_| AllocError)?;
    copy.copy_from(store);
    Ok(copy)
}

impl Saved {
    /// Whether it is saved as these bytes.
    fn is(&self, bytes: &[u8]) -> bool
        ensures same { result ≡ true → IsSavedAs self.now bytes.now }
        ensures differs { result ≡ false → IsSavedAs self.now bytes.now → ⊥ }
    {
        self.bytes.as_slice() == bytes
    }

    /// Where it is looked for first.
    fn hash(&self) -> u64
        ensures { (bytes : List ℕ) → IsSavedAs self.now bytes → result ≡ hash_of bytes }
    {
        hash_of(&self.bytes)
    }

    /// How many bytes it is saved as.
    fn bytes(&self) -> usize {
        self.bytes.len()
    }

    /// The store.
    fn store(&self) -> &PlainStore
        ensures { result.now ≡ self.now }
    {
        &self.store
    }
}

/// A store with the bytes that it is saved as.
fn save(
    alloc: Global,
    shape: &StoreShape,
    store: &PlainStore,
    bytes: &[u8],
) -> Result<Saved, AllocError>
    requires shape { IsOfShape shape.now store.now }
    requires saved { IsSavedAs store.now bytes.now }
    ensures { IfOk result (λ s. s ≡ store.now) }
{
    let mut copy = Vec::with_capacity(alloc, bytes.len())?;
    copy.extend_from_slice(bytes)?;
    let store = copy_store(alloc, shape, store)?;
    Ok(Saved { store, bytes: copy })
}

impl Stores {
    /// Nothing is kept.
    pub fn new(alloc: Global) -> Stores
        ensures { result ≡ [] }
    {
        Stores {
            kept: Vec::new(alloc),
            slots: Vec::new(alloc),
        }
    }

    /// The store of a number.
    pub fn store(&self, number: usize) -> &PlainStore
        requires { number < length self.now }
        ensures { result.now ≡ slice_index_or self.now number no_store }
    {
        self.kept[number].store()
    }

    /// About how many bytes of memory they take: each as much as the last.
    pub fn bytes(&self, shape: &StoreShape) -> usize {
        let saved = self.kept.last().map_or(0, Saved::bytes);
        let each = saved.saturating_add(store_bytes(shape) as usize);
        let slots = bytes_of(&self.slots, size_of::<u32>());
        let kept = bytes_of(&self.kept, size_of::<Saved>());
        let stores = self.kept.len().saturating_mul(each);
        slots.saturating_add(kept).saturating_add(stores)
    }

    /// Whether the store of this number is saved as these bytes.
    fn is_at(&self, number: usize, bytes: &[u8]) -> bool
        ensures within { result ≡ true → number < length self.now }
        ensures saved { result ≡ true
            → IsSavedAs (slice_index_or self.now number no_store) bytes.now }
        ensures differs { result ≡ false → number < length self.now
            → IsSavedAs (store_at self.now number) bytes.now → ⊥ }
    {
        match self.kept.get(number) {
            Some(saved) => saved.is(bytes),
            None => false,
        }
    }

    /// The number of a store that is saved as these bytes, which have this hash, if it is kept.
    fn find(&self, hash: u64, bytes: &[u8]) -> Option<usize>
        requires { hash ≡ hash_of bytes.now }
        ensures within { IfSome result (λ n. n < length self.now) }
        ensures saved { IfSome result
            (λ n. IsSavedAs (slice_index_or self.now n no_store) bytes.now) }
        ensures none { IfNone result ((n : ℕ) → n < length self.now
            → IsSavedAs (store_at self.now n) bytes.now → ⊥) }
    {
        for step in 0..self.slots.len() {
            let slot = slot_of(&self.slots, hash, step);
            if slot == 0 {
                return None;
            }
            let number = slot as usize - 1;
            if self.is_at(number, bytes) {
                return Some(number);
            }
        }
        None
    }

    /// The number of a store that is saved as these bytes, if it is kept.
    pub fn number(&self, bytes: &[u8]) -> Option<usize>
        ensures within { IfSome result (λ n. n < length self.now) }
        ensures saved { IfSome result
            (λ n. IsSavedAs (slice_index_or self.now n no_store) bytes.now) }
    {
        self.find(hash_of(bytes), bytes)
    }

    /// Makes more places where half of them are taken.
    fn widen(&mut self, alloc: Global) -> Result<(), AllocError>
        ensures { self.new ≡ self.old }
    {
        if self.kept.len() < self.slots.len() / 2 {
            return Ok(());
        }
        let mut slots = room_for(alloc, self.slots.len())?;
        for number in 0..self.kept.len() {
            note(&mut slots, self.kept[number].hash(), number)?;
        }
        self.slots = slots;
        Ok(())
    }

    /// No two stores are saved as the same bytes.
    pub fn apart(&self)
        ensures apart { AreStoresApart self.now }
        ensures saved { (i : ℕ) → i < length self.now
            → (bytes : List ℕ) × IsSavedAs (store_at self.now i) bytes }
    {
        let _ = &self.kept;
    }

    /// Puts a store after those that are kept, none of which is saved as its bytes. Its number.
    fn add(&mut self, hash: u64, bytes: &[u8], saved: Saved) -> Result<usize, AllocError>
        requires saved { IsSavedAs saved bytes.now }
        requires hash { hash ≡ hash_of bytes.now }
        requires new { (n : ℕ) → n < length self.old → IsSavedAs (store_at self.old n) bytes.now
            → ⊥ }
        ensures within { IfOk result (λ n. n < length self.new) }
        ensures is { IfOk result (λ n. store_at self.new n ≡ saved) }
        ensures adds { OnOk result (self.new ≡ self.old ++ saved ∷ []) }
        ensures err { OnErr result (self.new ≡ self.old) }
    {
        let _ = bytes.len();
        let number = self.kept.len();
        note(&mut self.slots, hash, number)?;
        self.kept.push(saved)?;
        Ok(number)
    }

    /// Keeps a store that is saved as these bytes, where none that is saved so is kept. Its number.
    /// It is alone, or each call of `keep` would clear room on the stack for a store.
    #[cold]
    #[inline(never)]
    fn keep_new(
        &mut self,
        alloc: Global,
        hash: u64,
        shape: &StoreShape,
        store: &PlainStore,
        bytes: &[u8],
    ) -> Result<usize, AllocError>
        requires shape { IsOfShape shape.now store.now }
        requires saved { IsSavedAs store.now bytes.now }
        requires hash { hash ≡ hash_of bytes.now }
        requires new { (n : ℕ) → n < length self.old → IsSavedAs (store_at self.old n) bytes.now
            → ⊥ }
        ensures within { IfOk result (λ n. n < length self.new) }
        ensures alike { IfOk result
            (λ n. IsSavedAs (slice_index_or self.new n no_store) bytes.now) }
        ensures adds { (self.new ≡ self.old) ⊎ (self.new ≡ self.old ++ store.now ∷ []) }
    {
        self.widen(alloc)?;
        let saved = save(alloc, shape, store, bytes)?;
        let number = self.add(hash, bytes, saved)?;
        Ok(number)
    }

    /// Keeps a store that is saved as these bytes, unless one that is saved so is kept. Its number.
    pub fn keep(
        &mut self,
        alloc: Global,
        shape: &StoreShape,
        store: &PlainStore,
        bytes: &[u8],
    ) -> Result<usize, AllocError>
        requires shape { IsOfShape shape.now store.now }
        requires saved { IsSavedAs store.now bytes.now }
        ensures within { IfOk result (λ n. n < length self.new) }
        ensures alike { IfOk result
            (λ n. IsSavedAs (slice_index_or self.new n no_store) bytes.now) }
        ensures adds { (self.new ≡ self.old) ⊎ (self.new ≡ self.old ++ store.now ∷ []) }
    {
        let hash = hash_of(bytes);
        if let Some(number) = self.find(hash, bytes) {
            return Ok(number);
        }
        let number = self.keep_new(alloc, hash, shape, store, bytes)?;
        Ok(number)
    }
}
