//! Kept states: each the numbers of what it is made of.

ghost use Rattle.std.specs.Prelude.{◌≡◌, ◌<◌, ◌++◌, ◌∷◌, [], IfSome, IfNone, OnOk, OnErr, Some, length, slice_get};

use std::alloc::{AllocError, Global};
use std::marker::Model;

/// A state: the numbers of its store, of its buffers, and of each of its jobs.
#[derive(Drop)]
pub(crate) struct Kept {
    pub store: u32,
    pub buffers: u32,
    pub jobs: Vec<u32>,
}

impl Model for Kept {
    ghost use Rattle.bpf_buffering.specs.Private.Kept.{Numbers};

    ghost Value = { Numbers };

    ghost view = { λ k. record { store = k.store; buffers = k.buffers; jobs = k.jobs.items } };
}

/// Kept states, in the order in which they came.
#[derive(Drop)]
pub(crate) struct States {
    kept: Vec<Kept>,
}

impl Model for States {
    ghost use Rattle.std.specs.Prelude.{List};
    ghost use Rattle.bpf_buffering.specs.Private.Kept.{Numbers};

    ghost Value = { List Numbers };

    ghost view = { λ s. s.kept.items };
}

impl States {
    /// Nothing is kept.
    pub(crate) fn new(alloc: Global) -> States
        ensures { result ≡ [] }
    {
        States {
            kept: Vec::new(alloc),
        }
    }

    /// How many are kept.
    pub(crate) fn len(&self) -> usize
        ensures { result ≡ length self.now }
    {
        self.kept.len()
    }

    /// A kept state.
    pub(crate) fn at(&self, place: usize) -> &Kept
        requires { place < length self.now }
        ensures { slice_get self.now place ≡ Some result.now }
    {
        &self.kept[place]
    }

    /// Puts a state after those that are kept.
    pub(crate) fn add(&mut self, one: Kept) -> Result<(), AllocError>
        ensures adds { OnOk result (self.new ≡ self.old ++ one ∷ []) }
        ensures err { OnErr result (self.new ≡ self.old) }
    {
        self.kept.push(one)?;
        Ok(())
    }

    /// How many bytes of memory they take, where each has `jobs` jobs.
    pub(crate) fn bytes(&self, jobs: usize) -> usize {
        let each = jobs.saturating_mul(4).saturating_add(16);
        let kept = self.kept.capacity().saturating_mul(size_of::<Kept>());
        let numbers = self.kept.len().saturating_mul(each);
        kept.saturating_add(numbers)
    }
}
