//! A gate at which two CPUs wait for each other, so that neither gets by unless both run at once.

use bpf_sched::Gate;
use std::sync::atomic::{AtomicU64, Ordering};
use std::thread;

/// Holds CPU 0's first helper before its call until CPU 1's first was answered, and CPU 1's first
/// before its call until CPU 0's first has come: each for at most n turns.
#[derive(Drop)]
pub(super) struct Meeting {
    turns: u64,
    zero_came: AtomicU64,
    one_came: AtomicU64,
    one_answered: AtomicU64,
    given_up: AtomicU64,
}

impl Meeting {
    pub(super) fn new(turns: u64) -> Meeting {
        Meeting {
            turns,
            zero_came: AtomicU64::new(0),
            one_came: AtomicU64::new(0),
            one_answered: AtomicU64::new(0),
            given_up: AtomicU64::new(0),
        }
    }

    /// How often the turns were used up.
    pub(super) fn given_up(&self) -> u64 {
        self.given_up.load(Ordering::SeqCst)
    }

    fn wait_for(&self, sign: &AtomicU64) {
        'turns: for _turn in 0..self.turns {
            if sign.load(Ordering::SeqCst) != 0 {
                return;
            }
            thread::yield_now();
        }
        self.given_up.fetch_add(1, Ordering::SeqCst);
    }
}

impl Gate for Meeting {
    fn before_helper(&self, cpu: u8) {
        if cpu == 0 && self.zero_came.swap(1, Ordering::SeqCst) == 0 {
            self.wait_for(&self.one_answered);
        }
        if cpu == 1 && self.one_came.swap(1, Ordering::SeqCst) == 0 {
            self.wait_for(&self.zero_came);
        }
    }

    fn after_helper(&self, cpu: u8) {
        if cpu == 1 {
            self.one_answered.store(1, Ordering::SeqCst);
        }
    }
}
