//! Tuples of numbers under numbers, in the order in which they came.

ghost use Rattle.std.specs.Prelude.{◌≡◌, ◌<◌, ◌≤◌, ℕ, [], OnOk, OnErr, length};
ghost use Rattle.bpf_explore.specs.Tuples.{TupleList, IsTuple, AreWhole, with_tuple};

use crate::room::bytes_of;
use std::alloc::{AllocError, Global};
use std::marker::Model;

/// Tuples of one width, each under its number, one after the other.
#[derive(Drop)]
pub(crate) struct Tuples {
    width: usize,
    count: usize,
    /// All tuples, one after the other.
    numbers: Vec<u32>,
}

impl Model for Tuples {
    ghost use Rattle.bpf_explore.specs.Tuples.{TupleList, AreWhole};

    ghost Value = { TupleList };

    ghost view = { λ t. record { width = t.width; count = t.count; numbers = t.numbers.items } };

    ghost invariant = { λ t.
        AreWhole (record { width = t.width; count = t.count; numbers = t.numbers.items }) };
}

impl Tuples {
    /// None is there yet.
    pub fn new(alloc: Global, width: usize) -> Tuples
        requires { 1 ≤ width }
        ensures { result ≡ record { width = width; count = 0; numbers = [] } }
    {
        Tuples {
            width,
            count: 0,
            numbers: Vec::new(alloc),
        }
    }

    /// How many there are.
    pub fn count(&self) -> usize
        ensures count { result ≡ self.now.count }
        ensures whole { AreWhole self.now }
    {
        self.count
    }

    /// How many bytes of memory they take.
    pub fn bytes(&self) -> usize {
        bytes_of(&self.numbers, size_of::<u32>())
    }

    /// The tuple of a number.
    #[tactic(auto, using(bpf_hash::proofs::Blocks::block_fits))]
    pub fn tuple(&self, number: usize) -> &[u32]
        requires { number < self.now.count }
        ensures tuple { IsTuple self.now number result.now }
        ensures width { length result.now ≡ self.now.width }
        ensures some { 1 ≤ self.now.width }
    {
        let first = number * self.width;
        &self.numbers[first..first + self.width]
    }

    /// Puts a tuple after those that are there.
    pub fn push(&mut self, tuple: &[u32]) -> Result<(), AllocError>
        requires { length tuple.now ≡ self.old.width }
        ensures adds { OnOk result (self.new ≡ with_tuple self.old tuple.now) }
        ensures err { OnErr result (self.new ≡ self.old) }
    {
        self.numbers.extend_from_slice(tuple)?;
        self.count += 1;
        Ok(())
    }
}
