//! What a table is saved as, beside the runs of the CPUs.
ghost use Rattle.std.specs.Prelude.{◌≡◌, ◌<◌, ◌+◌, ◌++◌, ◌||◌, ℕ, OnOk, OnErr, length, if◌then◌else◌};
ghost use Rattle.std.specs.Io.{StartsWith};
ghost use Rattle.bpf_shared.specs.Shape.{elements};
ghost use Rattle.bpf_hash.specs.Private.Saved.{all_below, holds_row, keeps_row, note_of, is_linked, is_noted, marks_of, content_of, block_of};

use super::Table;
use crate::runs::Runs;
use std::alloc::AllocError;

/// A number where the test is true.
fn bit(number: u8, test: bool) -> u8
    ensures { result ≡ (if test then number else 0) }
{
    if test { number } else { 0 }
}

impl Table {
    /// The element is in the map.
    fn is_linked(&self, element: usize) -> bool
        requires { element < elements self.now.shape }
        ensures { result ≡ is_linked self.now element }
    {
        self.linked[element]
    }

    /// The CPU is in this run, and its run looked the element up.
    #[tactic(auto, using(crate::proofs::Blocks::block_fits, crate::proofs::Blocks::in_block))]
    pub fn is_held_by(&self, element: usize, cpu: usize, run: Runs) -> bool
        requires element { element < elements self.now.shape }
        requires cpu { cpu < self.now.cpus }
        ensures { result ≡ holds_row self.now element cpu run }
    {
        run.running && self.looked_up[element * usize::from(self.cpus) + cpu] == run.count
    }

    /// The CPU is in this run, and in it the element left the map.
    #[tactic(auto, using(crate::proofs::Blocks::block_fits, crate::proofs::Blocks::in_block))]
    fn is_kept_by(&self, element: usize, cpu: usize, run: Runs) -> bool
        requires element { element < elements self.now.shape }
        requires cpu { cpu < self.now.cpus }
        ensures { result ≡ keeps_row self.now element cpu run }
    {
        run.running && self.left[element * usize::from(self.cpus) + cpu] == run.count
    }

    /// Both, in two bits.
    fn note(&self, element: usize, cpu: usize, run: Runs) -> u8
        requires element { element < elements self.now.shape }
        requires cpu { cpu < self.now.cpus }
        ensures { result ≡ note_of self.now element cpu run }
    {
        bit(1, self.is_held_by(element, cpu, run)) + bit(2, self.is_kept_by(element, cpu, run))
    }

    /// Appends to the bytes whether an element is in the map, and what CPUs have to do with it.
    fn push_marks(&self, element: usize, runs: &[Runs], out: &mut Vec<u8>) -> Result<(), AllocError>
        requires element { element < elements self.now.shape }
        requires runs { length runs.now ≡ self.now.cpus }
        ensures ok { OnOk result
            (out.new.items ≡ out.old.items ++ marks_of runs.now self.now element) }
        ensures err { OnErr result (StartsWith out.new.items out.old.items) }
    {
        out.push(bit(1, self.is_linked(element)))?;
        for (cpu, run) in runs.iter().enumerate() {
            out.push(self.note(element, cpu, *run))?;
        }
        Ok(())
    }

    /// Some CPU holds or keeps the element.
    fn is_noted(&self, element: usize, runs: &[Runs]) -> bool
        requires element { element < elements self.now.shape }
        requires runs { length runs.now ≡ self.now.cpus }
        ensures { result ≡ is_noted runs.now self.now element }
    {
        let mut noted = false;
        for (cpu, run) in runs.iter().enumerate() {
            noted = self.is_held_by(element, cpu, *run)
                || self.is_kept_by(element, cpu, *run)
                || noted;
        }
        noted
    }

    /// Appends an element's key and value to the bytes, as far as they are in use.
    fn push_content(
        &self,
        element: usize,
        runs: &[Runs],
        out: &mut Vec<u8>,
    ) -> Result<(), AllocError>
        requires element { element < elements self.now.shape }
        requires runs { length runs.now ≡ self.now.cpus }
        ensures ok { OnOk result
            (out.new.items ≡ out.old.items ++ content_of runs.now self.now element) }
        ensures err { OnErr result (StartsWith out.new.items out.old.items) }
    {
        if self.is_linked(element) {
            out.extend_from_slice(self.key(element))?;
        }
        if self.is_linked(element) || self.is_noted(element, runs) {
            out.extend_from_slice(self.value(element))?;
        }
        Ok(())
    }

    /// An element's marks, and then what is in it.
    fn push_block(&self, element: usize, runs: &[Runs], out: &mut Vec<u8>) -> Result<(), AllocError>
        requires element { element < elements self.now.shape }
        requires runs { length runs.now ≡ self.now.cpus }
        ensures ok { OnOk result
            (out.new.items ≡ out.old.items ++ block_of runs.now self.now element) }
        ensures err { OnErr result (StartsWith out.new.items out.old.items) }
    {
        self.push_marks(element, runs, out)?;
        self.push_content(element, runs, out)
    }

    /// All elements.
    pub fn push_blocks(&self, runs: &[Runs], out: &mut Vec<u8>) -> Result<(), AllocError>
        requires { length runs.now ≡ self.now.cpus }
        ensures ok { OnOk result (out.new.items ≡ out.old.items
            ++ all_below (block_of runs.now self.now) (elements self.now.shape)) }
        ensures err { OnErr result (StartsWith out.new.items out.old.items) }
    {
        for element in 0..self.elements() as usize {
            self.push_block(element, runs, out)?;
        }
        Ok(())
    }

    /// Becomes what another table is, which has the same shape.
    pub fn copy_from(&mut self, other: &Table)
        requires shape { other.now.shape ≡ self.old.shape }
        requires cpus { other.now.cpus ≡ self.old.cpus }
        ensures { self.new ≡ other.now }
    {
        self.index.copy_from(&other.index);
        self.count = other.count;
        self.linked.copy_from_slice(&other.linked);
        self.filled = other.filled;
        self.passed = other.passed;
        self.seen.copy_from_slice(&other.seen);
        self.keys.copy_from_slice(&other.keys);
        self.values.copy_from_slice(&other.values);
        self.looked_up.copy_from_slice(&other.looked_up);
        self.left.copy_from_slice(&other.left);
    }
}
