//! Numbers that are found by hashes. Whoever finds one compares all, so nothing that is promised rests
//! on hashes.

use std::alloc::{AllocError, Global};

/// The half of a hash that a place keeps.
const UPPER: u64 = 0xffff_ffff_0000_0000;

/// What a place has for a hash.
pub(crate) enum Look {
    /// This number has a hash like it.
    Number(usize),
    /// A number of another hash.
    Other,
    /// Nothing, here and from here on.
    Nothing,
}

/// The place of a hash among n, or one n steps after it.
fn place_of(hash: u64, step: usize, places: usize) -> usize {
    ((hash >> 32) as usize).wrapping_add(step) & places.wrapping_sub(1)
}

/// Puts a mark at the first place from that of its hash on where nothing is. A place that lacks
/// counts as out of memory.
fn put(places: &mut Vec<u64>, mark: u64) -> Result<(), AllocError> {
    for step in 0..places.len() {
        let place = place_of(mark, step, places.len());
        if place < places.len() && places[place] == 0 {
            places[place] = mark;
            return Ok(());
        }
    }
    Err(AllocError)
}

/// The numbers, by place.
#[derive(Drop)]
pub(crate) struct Index {
    /// Half of a hash, and below it one more than the number; 0 where nothing is.
    places: Vec<u64>,
    taken: usize,
}

impl Index {
    /// It has no number.
    pub(crate) fn new(alloc: Global) -> Index {
        Index {
            places: Vec::new(alloc),
            taken: 0,
        }
    }

    /// How many places there are.
    pub(crate) fn places(&self) -> usize {
        self.places.len()
    }

    /// What a hash has at the place that is `step` places after its own.
    pub(crate) fn look(&self, hash: u64, step: usize) -> Look {
        match self.places.get(place_of(hash, step, self.places.len())) {
            None | Some(0) => Look::Nothing,
            Some(mark) if *mark & UPPER == hash & UPPER => {
                Look::Number(((*mark & !UPPER) as usize).wrapping_sub(1))
            }
            Some(_) => Look::Other,
        }
    }

    /// Makes more places where half of them are taken.
    fn widen(&mut self, alloc: Global) -> Result<(), AllocError> {
        if self.taken < self.places.len() / 2 {
            return Ok(());
        }
        let count = self.places.len().saturating_mul(2).max(16);
        let mut wider = vec![in alloc; 0; count]?;
        for mark in &self.places {
            if *mark != 0 {
                put(&mut wider, *mark)?;
            }
        }
        self.places = wider;
        Ok(())
    }

    /// Lets a number be found by its hash.
    pub(crate) fn note(
        &mut self,
        alloc: Global,
        hash: u64,
        number: usize,
    ) -> Result<(), AllocError> {
        self.widen(alloc)?;
        let mark = number.checked_add(1).ok_or(AllocError)?;
        let mark = u32::try_from(mark).map_err(|_| AllocError)?;
        put(&mut self.places, hash & UPPER | u64::from(mark))?;
        self.taken = self.taken.saturating_add(1);
        Ok(())
    }

    /// How many bytes of memory it takes.
    pub(crate) fn bytes(&self) -> usize {
        self.places.capacity().saturating_mul(8)
    }
}
