//! A store from the bytes that it was saved as, or from any.
ghost use Rattle.std.specs.Prelude.{◌≡◌, ◌<◌, ◌≤◌, ℕ, List, OnOk, OnErr, IfOk, IfSome, IfNone, length, map, take, slice_index_or};
ghost use Rattle.bpf_hash.specs.Private.Rows.{no_rows, shape_of};
ghost use Rattle.bpf_hash.specs.Private.Contents.{Contents};
ghost use Rattle.bpf_hash.specs.Private.Saved.{IsSavedAs};
ghost use Rattle.bpf_hash.specs.Private.Normal.{normal, normal_rows, run_read, AreSavedTables};
ghost use Rattle.bpf_hash.specs.Private.Sized.{IsReadTable};
ghost use Rattle.bpf_hash.specs.Alike.{IsSameShape};
ghost use Rattle.bpf_hash.specs.Read.{IsRead, IsSavedFirst, SavesNone};

use super::HashStore;
use crate::runs::Runs;
use crate::table::Table;
use crate::table::restoring::past;
use std::alloc::{AllocError, Global};

/// The first run of this many CPUs. Which are in it, the bytes say.
fn read_runs(alloc: Global, count: usize, bytes: &[u8]) -> Result<Vec<Runs>, AllocError>
    requires { count ≤ length bytes.now }
    ensures { IfOk result (λ v. v.items ≡ map run_read (take count bytes.now)) }
{
    let mut runs = Vec::new(alloc);
    for cpu in 0..count {
        let running = bytes[cpu] == 1;
        runs.push(Runs { count: 1, running })?;
    }
    Ok(runs)
}

/// Tables of these shapes, which are the normal form of any that the bytes begin with. None only
/// where they begin with none.
fn read_tables(
    alloc: Global,
    old: &[Table],
    cpus: u8,
    bytes: &[u8],
) -> Result<Option<Vec<Table>>, AllocError>
    requires cpus { cpus ≤ 16 }
    ensures read { IfOk result (λ found. IfSome found (λ v. (p : Contents) (more : List ℕ)
        → AreSavedTables (map shape_of old.now) cpus bytes.now p more
        → v.items ≡ map (normal_rows p.runs) p.tables)) }
    ensures none { IfOk result (λ found. IfNone found ((p : Contents) (more : List ℕ)
        → AreSavedTables (map shape_of old.now) cpus bytes.now p more → ⊥)) }
    ensures shaped { IfOk result (λ found. IfSome found
        (λ v. map shape_of v.items ≡ map shape_of old.now)) }
    ensures tables { IfOk result (λ found. IfSome found (λ v. (m : ℕ) → m < length v.items
        → IsReadTable cpus (slice_index_or v.items m no_rows))) }
{
    let mut tables = Vec::new(alloc);
    let mut at = 0;
    for map in 0..old.len() {
        let shape = old[map].shape();
        let Some((table, count)) = Table::restored(alloc, shape, cpus, past(bytes, at))? else {
            return Ok(None);
        };
        tables.push(table)?;
        at += count;
    }
    Ok(Some(tables))
}

impl HashStore {
    fn count_cpus(&self) -> usize
        ensures count { result ≡ length self.now.runs }
        ensures few { result ≤ 16 }
    {
        self.runs.len()
    }

    fn tables(&self) -> &[Table]
        ensures same { result.now ≡ self.now.tables }
        ensures few { length result.now ≤ 16 }
    {
        &self.tables
    }

    /// A store of the same shape, which is the normal form of any that the bytes begin with. None
    /// only where they begin with none.
    fn restored(&self, alloc: Global, bytes: &[u8]) -> Result<Option<HashStore>, AllocError>
        ensures shape { IfOk result (λ found. IfSome found (λ new. IsSameShape new self.now)) }
        ensures read { IfOk result (λ found. IfSome found (λ new. (k : ℕ) (p : Contents)
            → IsSavedFirst self.now bytes.now k p → new ≡ normal p)) }
        ensures none { IfOk result (λ found. IfNone found (SavesNone self.now bytes.now)) }
    {
        let cpus = self.count_cpus();
        if bytes.len() < cpus {
            return Ok(None);
        }
        let runs = read_runs(alloc, cpus, bytes)?;
        match read_tables(alloc, self.tables(), cpus as u8, past(bytes, cpus))? {
            Some(tables) => Ok(Some(HashStore { runs, tables })),
            None => Ok(None),
        }
    }

    /// How many of the bytes the store is saved as, if they begin so.
    fn count_saved(&self, alloc: Global, bytes: &[u8]) -> Result<Option<usize>, AllocError>
        ensures some { IfOk result (λ found. IfSome found
            (λ n. (n ≤ length bytes.now) × IsSavedAs self.now (take n bytes.now))) }
        ensures none { IfOk result (λ found. IfNone found
            ((k : ℕ) → IsSavedAs self.now (take k bytes.now) → ⊥)) }
    {
        let mut saved = Vec::new(alloc);
        self.save(&mut saved)?;
        if bytes.starts_with(&saved) {
            Ok(Some(saved.len()))
        } else {
            Ok(None)
        }
    }

    /// Becomes the store of the same shape that was saved as the first of these bytes, in its
    /// normal form, with how many these are. None, and unchanged, where they begin with no such
    /// store, whoever wrote them; unchanged too where there is no memory.
    pub fn read(&mut self, alloc: Global, bytes: &[u8]) -> Result<Option<usize>, AllocError>
        ensures read { IfOk result (λ found. IfSome found
            (λ n. IsRead self.old bytes.now n self.new)) }
        ensures none { IfOk result (λ found. IfNone found (SavesNone self.old bytes.now)) }
        ensures stays { IfOk result (λ found. IfNone found (self.new ≡ self.old)) }
        ensures err { OnErr result (self.new ≡ self.old) }
    {
        let Some(new) = self.restored(alloc, bytes)? else {
            return Ok(None);
        };
        let Some(count) = new.count_saved(alloc, bytes)? else {
            return Ok(None);
        };
        *self = new;
        Ok(Some(count))
    }

    /// Becomes the store that was saved as these bytes, in its normal form. Unchanged where there
    /// is no memory.
    pub fn restore(&mut self, alloc: Global, bytes: &[u8]) -> Result<(), AllocError>
        requires { (p : Contents) × IsSameShape p self.old × IsSavedAs p bytes.now }
        ensures ok { OnOk result ((p : Contents) → IsSameShape p self.old → IsSavedAs p bytes.now
            → self.new ≡ normal p) }
        ensures err { OnErr result (self.new ≡ self.old) }
    {
        self.read(alloc, bytes)?;
        Ok(())
    }
}
