//! A store's contents as bytes, and from another store.
ghost use Rattle.std.specs.Prelude.{◌≡◌, ◌++◌, ℕ, List, OnOk, OnErr};
ghost use Rattle.std.specs.Io.{StartsWith};
ghost use Rattle.bpf_plain.specs.Private.Saved.{IsSavedAs};
ghost use Rattle.bpf_plain.specs.Alike.{IsSameShape};

use super::PlainStore;
use crate::bytes::copy_arrays;
use crate::changes::push_arrays;
use std::alloc::AllocError;

impl PlainStore {
    /// The arrays, and then the maps.
    fn push_all(&self, out: &mut Vec<u8>) -> Result<(), AllocError>
        ensures ok { OnOk result ((bytes : List ℕ) × (out.new.items ≡ out.old.items ++ bytes)
            × IsSavedAs self.now bytes) }
        ensures err { OnErr result (StartsWith out.new.items out.old.items) }
    {
        push_arrays(&self.shape, &self.arrays, out)?;
        self.maps.save(out)?;
        Ok(())
    }

    /// Appends all that a call can see of the store to the bytes. Stores of one shape that are
    /// saved as the same bytes look alike. The bytes stay as they were where there is no memory.
    pub fn save(&self, out: &mut Vec<u8>) -> Result<(), AllocError>
        ensures ok { OnOk result ((bytes : List ℕ) × (out.new.items ≡ out.old.items ++ bytes)
            × IsSavedAs self.now bytes) }
        ensures err { OnErr result (out.new.items ≡ out.old.items) }
    {
        let count = out.len();
        let saved = self.push_all(out);
        if saved.is_err() {
            out.truncate(count);
        }
        saved
    }

    /// Becomes what another store is, which has the same shape. It takes no memory.
    pub fn copy_from(&mut self, other: &PlainStore)
        requires { IsSameShape other.now self.old }
        ensures { self.new ≡ other.now }
    {
        self.maps.copy_from(&other.maps);
        copy_arrays(&mut self.arrays, &other.arrays);
    }
}
