//! What is to be timed.

use bpf_base::spread;

/// Calls that are drawn.
#[derive(Clone, Copy)]
pub enum Mix {
    /// Lookups of keys that are there; the value is read.
    Hits,
    /// Lookups of keys that aren't there.
    Misses,
    /// Lookups with an addition to the value.
    Counts,
    /// Of 100 calls 90 lookups, 9 updates, a deletion.
    Most,
    /// Updates and deletions, each thread's of keys of its own, of which half are there.
    Own,
    /// Updates and deletions of keys of all threads, of which half are there.
    Shared,
    /// Updates that fill a map which has all its segments from the first on.
    Fill,
    /// Updates that fill a map which grows from one segment.
    Grow,
    /// Lookups of keys that are there, before and while one thread makes the map grow.
    Growth,
}

impl Mix {
    /// The mix of this name.
    pub fn named(name: &str) -> Option<Mix> {
        match name {
            "hits" => Some(Mix::Hits),
            "misses" => Some(Mix::Misses),
            "counts" => Some(Mix::Counts),
            "most" => Some(Mix::Most),
            "own" => Some(Mix::Own),
            "shared" => Some(Mix::Shared),
            "fill" => Some(Mix::Fill),
            "grow" => Some(Mix::Grow),
            "growth" => Some(Mix::Growth),
            _ => None,
        }
    }
}

/// How many keys there are to draw from, the sizes of the map, how many calls a run has, how many
/// threads make them, and when a thread stops: after this time, or after n calls.
#[derive(Clone, Copy)]
pub struct Plan {
    pub mix: Mix,
    pub keys: u64,
    pub max: u64,
    pub spare: u64,
    pub run: u64,
    pub threads: u64,
    pub milliseconds: u64,
    pub most: u64,
}

/// The keys that a thread draws from: n, so far apart, from this one on.
#[derive(Clone, Copy)]
pub struct Keys {
    pub count: u64,
    pub apart: u64,
    pub from: u64,
}

impl Plan {
    /// The keys of this thread.
    pub fn keys_of(&self, thread: u64) -> Keys {
        match self.mix {
            Mix::Own => Keys {
                count: self.keys / self.threads.max(1),
                apart: self.threads,
                from: thread,
            },
            Mix::Misses => Keys {
                count: self.keys,
                apart: 1,
                from: self.keys,
            },
            Mix::Growth => Keys {
                count: self.first_keys(),
                apart: 1,
                from: 0,
            },
            _ => Keys {
                count: self.keys,
                apart: 1,
                from: 0,
            },
        }
    }

    /// Whether the key of this number is there at the start.
    pub fn is_there(&self, number: u64) -> bool {
        match self.mix {
            Mix::Own => number / self.threads.max(1) % 2 == 0,
            Mix::Shared => number % 2 == 0,
            Mix::Fill | Mix::Grow => false,
            Mix::Growth => number < self.first_keys(),
            _ => true,
        }
    }

    /// Whether the map grows from one segment.
    pub fn grows(&self) -> bool {
        matches!(self.mix, Mix::Grow | Mix::Growth)
    }

    /// How many keys are there before the map is made to grow.
    pub fn first_keys(&self) -> u64 {
        self.keys / 64
    }
}

impl Keys {
    /// The number of the key drawn by these 64 bits.
    #[inline]
    pub fn number(&self, bits: u64) -> u64 {
        let drawn = (bits >> 32).wrapping_mul(self.count) >> 32;
        drawn.wrapping_mul(self.apart).wrapping_add(self.from)
    }
}

/// The bytes of the key of this number. Numbers are spread, for stores whose hash would keep their
/// order.
#[inline]
pub fn key_of(number: u64) -> [u8; 8] {
    spread(number).to_le_bytes()
}
