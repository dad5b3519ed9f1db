//! A map's keys, as a listing finds them.
ghost use Rattle.std.specs.Prelude.{◌≡◌, ◌<◌, ◌≤◌, [], ◌∷◌, ◌++◌, Some, IfOk, IfSome, IfNone, length, slice_get, take};
ghost use Rattle.std.specs.List.Sorted.{IsPermutation, IsSorted};
ghost use Rattle.bpf_shared.specs.KeyOrder.{in_order, AreDistinct};
ghost use Rattle.bpf_shared.specs.Private.KeyVectors.{by_bytes};

use crate::shapes::MapShape;
use std::alloc::{AllocError, Global};
use std::marker::Model;

/// Room for the keys of a map of one shape, and the keys that were listed last.
#[derive(Drop)]
pub struct KeyList {
    shape: MapShape,
    /// As many as the map may have, each of the size of its keys. Those that are listed come first.
    keys: Vec<Vec<u8>>,
    count: usize,
}

impl Model for KeyList {
    ghost use Rattle.bpf_shared.specs.KeyOrder.{Listed};
    ghost use Rattle.bpf_shared.specs.Private.KeyVectors.{listed_keys, IsKeyList};

    ghost Value = { Listed };

    ghost view = { λ k. record { shape = k.shape; keys = listed_keys k.keys.items k.count } };

    ghost invariant = { λ k. IsKeyList k.shape k.keys.items k.count };
}

// Puts the first of these in the order of their bytes.
fn sort_front(keys: &mut [Vec<u8>], count: usize)
    requires { count ≤ length keys.old }
    ensures moved { IsPermutation keys.old keys.new }
    ensures front { IsPermutation (take count keys.old) (take count keys.new) }
    ensures sorted { IsSorted by_bytes (take count keys.new) }
{
    keys[..count].sort_unstable();
}

impl KeyList {
    /// Makes room for the keys of a map of this shape. The only refusal is that memory is out.
    pub fn new(alloc: Global, shape: &MapShape) -> Result<KeyList, AllocError>
        ensures shape { IfOk result (λ list. list.shape ≡ shape.now) }
        ensures empty { IfOk result (λ list. list.keys ≡ []) }
    {
        let mut keys = Vec::with_capacity(alloc, shape.max as usize)?;
        'keys: for _ in 0..shape.max {
            keys.push(vec![in alloc; 0; shape.key as usize]?)?;
        }
        Ok(KeyList {
            shape: *shape,
            keys,
            count: 0,
        })
    }

    /// The key of this number, from 0 on; `None` where fewer are listed.
    pub fn get(&self, i: usize) -> Option<&[u8]>
        ensures some { IfSome result (λ key. slice_get self.now.keys i ≡ Some key.now) }
        ensures none { IfNone result (length self.now.keys ≤ i) }
    {
        if i < self.count {
            Some(&self.keys[i])
        } else {
            None
        }
    }

    /// Forgets the keys that were listed.
    pub fn clear(&mut self)
        ensures shape { self.new.shape ≡ self.old.shape }
        ensures keys { self.new.keys ≡ [] }
    {
        self.count = 0;
    }

    /// Lists one key more.
    pub fn add(&mut self, key: &[u8])
        requires size { length key.now ≡ self.old.shape.key }
        requires room { length self.old.keys < self.old.shape.max }
        ensures shape { self.new.shape ≡ self.old.shape }
        ensures keys { self.new.keys ≡ self.old.keys ++ key.now ∷ [] }
    {
        self.keys[self.count].copy_from_slice(key);
        self.count += 1;
    }

    /// Puts the keys in the order of their bytes.
    pub fn sort(&mut self)
        requires distinct { AreDistinct self.old.keys }
        ensures shape { self.new.shape ≡ self.old.shape }
        ensures keys { self.new.keys ≡ in_order self.old.keys }
    {
        sort_front(&mut self.keys, self.count);
    }
}
