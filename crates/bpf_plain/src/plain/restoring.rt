//! A store from the bytes that it was saved as, or from any.
ghost use Rattle.std.specs.Prelude.{◌≡◌, ◌≤◌, ℕ, List, OnOk, OnErr, IfOk, IfSome, IfNone, length, take};
ghost use Rattle.bpf_plain.specs.Private.Contents.{Contents};
ghost use Rattle.bpf_plain.specs.Private.Saved.{IsSavedAs};
ghost use Rattle.bpf_plain.specs.Private.Normal.{normal};
ghost use Rattle.bpf_plain.specs.Alike.{IsSameShape};
ghost use Rattle.bpf_plain.specs.Read.{IsRead, SavesNone};

use super::PlainStore;
use crate::reading::{count_arrays, past, read_arrays};
use std::alloc::{AllocError, Global};

impl PlainStore {
    /// Becomes the store of the same shape that was saved as the first of these bytes, in its
    /// normal form, with how many these are. None, and unchanged, where they begin with no such
    /// store, whoever wrote them; unchanged too where there is no memory.
    pub fn read(&mut self, alloc: Global, bytes: &[u8]) -> Result<Option<usize>, AllocError>
        ensures read { IfOk result (λ found. IfSome found
            (λ n. IsRead self.old bytes.now n self.new)) }
        ensures none { IfOk result (λ found. IfNone found (SavesNone self.old bytes.now)) }
        ensures stays { IfOk result (λ found. IfNone found (self.new ≡ self.old)) }
        ensures err { OnErr result (self.new ≡ self.old) }
    {
        let arrays = read_arrays(alloc, &self.shape, bytes)?;
        let Some(count) = count_arrays(alloc, &self.shape, &arrays, bytes)? else {
            return Ok(None);
        };
        let Some(more) = self.maps.read(alloc, past(bytes, count))? else {
            return Ok(None);
        };
        self.arrays = arrays;
        Ok(Some(count + more))
    }

    /// Becomes the store that was saved as these bytes, in its normal form. Unchanged where there
    /// is no memory.
    pub fn restore(&mut self, alloc: Global, bytes: &[u8]) -> Result<(), AllocError>
        requires { (p : Contents) × IsSameShape p self.old × IsSavedAs p bytes.now }
        ensures ok { OnOk result ((p : Contents) → IsSameShape p self.old → IsSavedAs p bytes.now
            → self.new ≡ normal p) }
        ensures err { OnErr result (self.new ≡ self.old) }
    {
        self.read(alloc, bytes)?;
        Ok(())
    }
}
