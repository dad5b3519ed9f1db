//! States, each once.

ghost use Rattle.std.specs.Prelude.{◌≡◌};

use indexmap::IndexSet;
use std::alloc::{AllocError, Global};
use std::marker::Model;

/// Bytes of states, each once, in the order in which they came. They are compared byte by byte, so
/// nothing that is promised rests on hashes.
#[derive(Drop)]
pub(crate) struct States {
    alloc: Global,
    kept: IndexSet<Vec<u8>>,
}

impl Model for States {
    ghost use Rattle.std.specs.Prelude.{ℕ, List, map};

    ghost Value = { List (List ℕ) };

    ghost view = { λ s. map (λ v. v.items) s.kept.keys };
}

impl States {
    ghost use Rattle.std.specs.Prelude.{◌≡◌, ◌≤◌, ◌++◌, ◌∷◌, [], IfOk, IfSome, OnOk, OnErr, false, true, drop, length, map};
    ghost use Rattle.bpf_expand.specs.Parts.{put, put_all};

    /// None.
    pub fn new(alloc: Global) -> States
        ensures { result ≡ [] }
    {
        States {
            alloc,
            kept: IndexSet::new(alloc),
        }
    }

    /// How many there are.
    pub fn count(&self) -> usize
        ensures { result ≡ length self.now }
    {
        self.kept.len()
    }

    /// Puts a state after those that are there, unless it is one of them.
    pub fn put(&mut self, bytes: &[u8]) -> Result<(), AllocError>
        ensures ok { OnOk result (self.new ≡ put self.old bytes.now) }
    {
        let bytes = Vec::from_slice(self.alloc, bytes)?;
        let Ok(_) = self.kept.insert(bytes) else {
            return Err(AllocError);
        };
        Ok(())
    }

    /// Puts a state in the same way, and says whether it is new.
    pub fn put_new(&mut self, bytes: &[u8]) -> Result<bool, AllocError>
        ensures ok { OnOk result (self.new ≡ put self.old bytes.now) }
        ensures new { IfOk result (λ is. is ≡ true → self.new ≡ self.old ++ bytes.now ∷ []) }
        ensures known { IfOk result (λ is. is ≡ false → self.new ≡ self.old) }
    {
        let before = self.count();
        self.put(bytes)?;
        Ok(before < self.count())
    }

    /// Puts each of some states.
    pub fn put_all(&mut self, states: &[Vec<u8>]) -> Result<(), AllocError>
        ensures ok { OnOk result (self.new ≡ put_all self.old (map (λ v. v.items) states.now)) }
    {
        for state in states {
            self.put(state)?;
        }
        Ok(())
    }

    /// Those from a number on.
    pub fn from(&self, first: usize) -> &[Vec<u8>]
        requires { first ≤ length self.now }
        ensures { map (λ v. v.items) result.now ≡ drop first self.now }
    {
        let kept = self.kept.as_slice();
        &kept[first..]
    }
}
