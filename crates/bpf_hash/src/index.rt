//! An index of a map's elements by their keys.
ghost use Rattle.std.specs.Prelude.{◌≡◌, ◌≢◌, ◌+◌, ◌*◌, ◌<◌, ◌≤◌, ◌↔◌, ℕ, IfOk, IfSome, IfNone, IsTrue, length, slice_index};
ghost use Rattle.bpf_base.specs.Bytes.{part};
ghost use Rattle.bpf_hash.specs.Private.Chains.{IsChainedAt, GetsChained, GetsUnchained};

use std::alloc::{AllocError, Global};
use std::marker::Model;

/// The elements that are in a map: a chain of them for each home, where keys of that home belong.
/// A link to an element is one more than its number, and 0 ends a chain. All room is taken when
/// the index is made.
#[derive(Drop)]
pub struct Index {
    /// By home, the link to the first element of its chain.
    heads: Vec<u32>,
    /// By element, the link to the next one of its chain.
    nexts: Vec<u32>,
}

impl Model for Index {
    ghost use Rattle.bpf_hash.specs.Private.Chains.{Links, IsLinks};

    ghost Value = { Links };

    ghost view = { λ x. record { heads = x.heads.items; nexts = x.nexts.items } };

    ghost invariant = { λ x. IsLinks (record { heads = x.heads.items; nexts = x.nexts.items }) };
}

/// An element has this key, where all keys have one size and lie one after the other.
fn is_key_of(element: usize, keys: &[u8], size: usize, key: &[u8]) -> bool
    requires { element * size + size ≤ length keys.now }
    ensures { IsTrue result ↔ (part keys.now (element * size) size ≡ key.now) }
{
    &keys[element * size..element * size + size] == key
}

impl Index {
    /// No elements, with this many homes and room for this many elements.
    pub fn new(alloc: Global, homes: usize, elements: usize) -> Result<Index, AllocError>
        requires { elements < 0x1_0000_0000 }
        ensures homes { IfOk result (λ x. length x.heads ≡ homes) }
        ensures elements { IfOk result (λ x. length x.nexts ≡ elements) }
        ensures none { IfOk result (λ x. (b i : ℕ) → IsChainedAt x b i → ⊥) }
    {
        Ok(Index {
            heads: vec![in alloc; 0; homes]?,
            nexts: vec![in alloc; 0; elements]?,
        })
    }

    /// Becomes what another one is, which has as many homes and elements.
    pub fn copy_from(&mut self, other: &Index)
        requires homes { length other.now.heads ≡ length self.old.heads }
        requires elements { length other.now.nexts ≡ length self.old.nexts }
        ensures { self.new ≡ other.now }
    {
        self.heads.copy_from_slice(&other.heads);
        self.nexts.copy_from_slice(&other.nexts);
    }

    /// The element of a home with a key, where all keys have one size and lie one after the other.
    pub fn find(&self, home: usize, keys: &[u8], size: usize, key: &[u8]) -> Option<usize>
        requires home { home < length self.now.heads }
        requires keys { length keys.now ≡ length self.now.nexts * size }
        ensures found { IfSome result
            (λ i. IsChainedAt self.now home i × (part keys.now (i * size) size ≡ key.now)) }
        ensures absent { IfNone result
            ((i : ℕ) → IsChainedAt self.now home i → part keys.now (i * size) size ≢ key.now) }
    {
        let mut link = self.heads[home];
        while link != 0 {
            let element = (link - 1) as usize;
            if is_key_of(element, keys, size, key) {
                return Some(element);
            }
            link = self.nexts[element];
        }
        None
    }

    /// An element that is in no chain is put into that of its home.
    pub fn insert(&mut self, home: usize, element: usize)
        requires home { home < length self.old.heads }
        requires element { element < length self.old.nexts }
        requires new { (b : ℕ) → IsChainedAt self.old b element → ⊥ }
        ensures { GetsChained home element self.old self.new }
    {
        self.nexts[element] = self.heads[home];
        self.heads[home] = element as u32 + 1;
    }

    /// The element that leads to another one, which isn't the first.
    fn before(&self, home: usize, element: usize) -> usize
        requires element { IsChainedAt self.now home element }
        requires home { home < length self.now.heads }
        requires behind { slice_index self.now.heads home ≢ element + 1 }
        ensures at { IsChainedAt self.now home result }
        ensures leads { slice_index self.now.nexts result ≡ element + 1 }
    {
        let mut before = (self.heads[home] - 1) as usize;
        let mut next = self.nexts[before];
        let link = element as u32 + 1;
        while next != link {
            before = (next - 1) as usize;
            next = self.nexts[before];
        }
        before
    }

    /// An element of a home goes.
    pub fn remove(&mut self, home: usize, element: usize)
        requires element { IsChainedAt self.old home element }
        requires home { home < length self.old.heads }
        ensures { GetsUnchained element self.old self.new }
    {
        let next = self.nexts[element];
        if self.heads[home] == element as u32 + 1 {
            self.heads[home] = next;
        } else {
            let before = self.before(home, element);
            self.nexts[before] = next;
        }
    }
}
