//! Places of kept machines, by hashes that those have in common which differ in places of equal jobs
//! alone. Nothing that is promised rests on them.

ghost use Rattle.std.specs.Prelude.{◌<◌, length};

use crate::album::Album;
use crate::room::bytes_of;
use crate::slots::{note, room_for, slot_of};
use bpf_base::spread;
use bpf_equal::Twins;
use std::alloc::{AllocError, Global};

/// Numbers of kept machines.
#[derive(Drop)]
pub(crate) struct Places {
    alloc: Global,
    /// Of each kept job, on whichever CPU.
    hashes: Vec<u64>,
    /// By place, one more than the number of a machine, from the place of its hash on; 0 where none
    /// is.
    slots: Vec<u32>,
}

impl Places {
    /// None is noted.
    pub fn new(alloc: Global) -> Places {
        Places {
            alloc,
            hashes: Vec::new(alloc),
            slots: Vec::new(alloc),
        }
    }

    /// How many places there are.
    pub fn len(&self) -> usize {
        self.slots.len()
    }

    /// How many bytes of memory they take.
    pub fn bytes(&self) -> usize {
        let slots = bytes_of(&self.slots, size_of::<u32>());
        bytes_of(&self.hashes, size_of::<u64>()).saturating_add(slots)
    }

    /// Takes the hashes of kept jobs that are new, where some are equal.
    pub fn learn(&mut self, album: &Album, twins: &Twins) -> Result<(), AllocError> {
        if twins.peers().is_empty() {
            return Ok(());
        }
        let jobs = album.jobs();
        for number in self.hashes.len()..jobs.len() {
            self.hashes.push(twins.hash(&jobs[number]))?;
        }
        Ok(())
    }

    /// Where the machine of a store and of jobs of these numbers is looked for: its jobs count in any
    /// order of equal ones.
    pub fn hash(&self, twins: &Twins, numbers: &[u32]) -> u64 {
        let mut sum = 0u64;
        for (place, number) in numbers.iter().enumerate() {
            let part = match self.hashes.get(*number as usize) {
                Some(hash) => *hash,
                None => 0,
            };
            let counted = match place.checked_sub(1) {
                Some(job) => spread(part ^ twins.group(job)),
                None => spread(u64::from(*number)),
            };
            sum = sum.wrapping_add(counted);
        }
        spread(sum)
    }

    /// The machine that is noted this many places after that of a hash.
    pub fn place(&self, hash: u64, step: usize) -> Option<usize> {
        if step >= self.slots.len() {
            return None;
        }
        let slot = slot_of(&self.slots, hash, step);
        (slot as usize).checked_sub(1)
    }

    /// Notes all kept machines anew, in more places.
    fn widen(&mut self, album: &Album, twins: &Twins) -> Result<(), AllocError> {
        let mut slots = room_for(self.alloc, self.slots.len())?;
        for place in 0..album.len() {
            let hash = self.hash(twins, album.numbers(place));
            note(&mut slots, hash, place)?;
        }
        self.slots = slots;
        Ok(())
    }

    /// Notes a kept machine, where some jobs are equal.
    pub fn add(&mut self, album: &Album, twins: &Twins, number: usize) -> Result<(), AllocError> {
        if twins.peers().is_empty() || number >= album.len() {
            return Ok(());
        }
        if album.len() >= self.slots.len() / 2 {
            return self.widen(album, twins);
        }
        let hash = self.hash(twins, album.numbers(number));
        note(&mut self.slots, hash, number)
    }
}
