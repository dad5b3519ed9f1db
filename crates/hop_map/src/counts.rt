//! Numbers that a port keeps of each map for itself: how often it went rare ways, which is given to
//! whoever sizes a map, and the key count that it left, which its next insertion tries first. Nothing
//! rests on these numbers, and no contract speaks of them.

use crate::growth::Growth;

/// The numbers of one map.
#[derive(Clone, Copy)]
pub(crate) struct Counts {
    /// Segments that it split.
    pub(crate) splits: u64,
    /// Readings of its lookups that others disturbed.
    pub(crate) disturbed: u64,
    /// Lookups that took the lock.
    pub(crate) locks: u64,
    /// The key count after the last insertion or deletion.
    pub(crate) keys: u64,
}

/// The key counts and numbers of rare ways by map, of which there are at most 16.
#[derive(Clone, Copy)]
pub(crate) struct MapCounts {
    maps: [Counts; 16],
}

impl MapCounts {
    /// None so far.
    pub(crate) fn new() -> MapCounts {
        MapCounts {
            maps: [Counts {
                splits: 0,
                disturbed: 0,
                locks: 0,
                keys: 0,
            }; 16],
        }
    }

    /// One more disturbed reading.
    pub(crate) fn disturbed(&mut self, map: u8) {
        if let Some(counts) = self.maps.get_mut(usize::from(map)) {
            counts.disturbed = counts.disturbed.wrapping_add(1);
        }
    }

    /// One more lookup that takes the lock.
    pub(crate) fn locked(&mut self, map: u8) {
        if let Some(counts) = self.maps.get_mut(usize::from(map)) {
            counts.locks = counts.locks.wrapping_add(1);
        }
    }

    /// One more segment that split, if it did.
    pub(crate) fn split(&mut self, map: u8, growth: Growth) {
        if growth == Growth::Grown {
            if let Some(counts) = self.maps.get_mut(usize::from(map)) {
                counts.splits = counts.splits.wrapping_add(1);
            }
        }
    }

    /// The map's key count, as it was left.
    pub(crate) fn keys_left(&mut self, map: u8, keys: u64) {
        if let Some(counts) = self.maps.get_mut(usize::from(map)) {
            counts.keys = keys;
        }
    }

    /// Those of another port, too. The key count stays.
    pub(crate) fn add(&mut self, others: &MapCounts) {
        for map in 0..16 {
            let more = others.maps[map];
            let counts = self.maps[map];
            self.maps[map] = Counts {
                splits: counts.splits.wrapping_add(more.splits),
                disturbed: counts.disturbed.wrapping_add(more.disturbed),
                locks: counts.locks.wrapping_add(more.locks),
                keys: counts.keys,
            };
        }
    }

    /// Those of a map; of no map there are none.
    pub(crate) fn at(&self, map: u8) -> Counts {
        match self.maps.get(usize::from(map)) {
            Some(counts) => *counts,
            None => Counts {
                splits: 0,
                disturbed: 0,
                locks: 0,
                keys: 0,
            },
        }
    }
}
