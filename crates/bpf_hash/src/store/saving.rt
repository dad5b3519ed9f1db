//! A store's contents as bytes, and from another store.
ghost use Rattle.std.specs.Prelude.{◌≡◌, ◌++◌, ℕ, List, ◌<◌, OnOk, OnErr, length, map, slice_index_or};
ghost use Rattle.std.specs.Io.{StartsWith};
ghost use Rattle.bpf_hash.specs.Private.Rows.{no_rows};
ghost use Rattle.bpf_hash.specs.Private.Saved.{all_below, map_block, is_in_run, saved, IsSavedAs};
ghost use Rattle.bpf_hash.specs.Private.Contents.{IsStore};
ghost use Rattle.bpf_hash.specs.Alike.{IsSameShape};

use super::HashStore;
use crate::table::Table;
use std::alloc::AllocError;

/// These tables become what others of their shapes are.
fn copy_tables(tables: &mut [Table], others: &[Table])
    requires count { length others.now ≡ length tables.old }
    requires shapes { (m : ℕ) → m < length tables.old → (slice_index_or others.now m no_rows).shape
        ≡ (slice_index_or tables.old m no_rows).shape }
    requires cpus { (m : ℕ) → m < length tables.old → (slice_index_or others.now m no_rows).cpus
        ≡ (slice_index_or tables.old m no_rows).cpus }
    ensures { tables.new ≡ others.now }
{
    for map in 0..tables.len() {
        tables[map].copy_from(&others[map]);
    }
}

impl HashStore {
    /// Appends to the bytes which CPUs are in a run.
    fn push_runs(&self, out: &mut Vec<u8>) -> Result<(), AllocError>
        ensures ok { OnOk result (out.new.items ≡ out.old.items ++ map is_in_run self.now.runs) }
        ensures err { OnErr result (StartsWith out.new.items out.old.items) }
        ensures store { IsStore self.now }
    {
        for run in &self.runs {
            out.push(if run.running { 1 } else { 0 })?;
        }
        Ok(())
    }

    /// All maps' elements.
    fn push_blocks(&self, out: &mut Vec<u8>) -> Result<(), AllocError>
        ensures ok { OnOk result (out.new.items
            ≡ out.old.items ++ all_below (map_block self.now) (length self.now.tables)) }
        ensures err { OnErr result (StartsWith out.new.items out.old.items) }
    {
        for map in 0..self.tables.len() {
            self.tables[map].push_blocks(&self.runs, out)?;
        }
        Ok(())
    }

    /// Both.
    fn push_all(&self, out: &mut Vec<u8>) -> Result<(), AllocError>
        ensures ok { OnOk result (out.new.items ≡ out.old.items ++ saved self.now) }
        ensures err { OnErr result (StartsWith out.new.items out.old.items) }
        ensures store { IsStore self.now }
    {
        self.push_runs(out)?;
        self.push_blocks(out)?;
        Ok(())
    }

    /// Appends all that a call can see of the store to the bytes. Stores of one shape that are
    /// saved as the same bytes look alike. The bytes stay as they were where there is no memory.
    pub fn save(&self, out: &mut Vec<u8>) -> Result<(), AllocError>
        ensures ok { OnOk result ((bytes : List ℕ) × (out.new.items ≡ out.old.items ++ bytes)
            × IsSavedAs self.now bytes) }
        ensures err { OnErr result (out.new.items ≡ out.old.items) }
    {
        let count = out.len();
        let saved = self.push_all(out);
        if saved.is_err() {
            out.truncate(count);
        }
        saved
    }

    /// Becomes what another store is, which has the same shape. It takes no memory.
    pub fn copy_from(&mut self, other: &HashStore)
        requires { IsSameShape other.now self.old }
        ensures { self.new ≡ other.now }
    {
        self.runs.copy_from_slice(&other.runs);
        copy_tables(&mut self.tables, &other.tables);
    }
}
