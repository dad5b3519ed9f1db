//! What a seat of the table knows. No value of these types is ever made.
use bpf_shared::Entry;
use hop_layout::Place;
use std::collections::LinkedList;

/// An element that its owner fills: which of the owner's updates of the map took it, counted from 0,
/// and the words of its key and of its value so far.
pub struct Fresh {
    pub map: u8,
    pub element: u32,
    pub update: u64,
    pub key: LinkedList<u64>,
    pub value: LinkedList<u64>,
}

/// The elements of one map that a CPU took out and that aren't free yet: used ones in hand, and its
/// two batches; with the old batch, of each CPU the run counter noted.
pub struct Limbo {
    pub used: LinkedList<u32>,
    pub young: LinkedList<u32>,
    pub old: LinkedList<u32>,
    pub noted: LinkedList<u64>,
}

/// What took effect under a lock and isn't written yet.
pub enum Change {
    Nothing,
    Puts { key: LinkedList<u8>, element: u32 },
    Drops { key: LinkedList<u8> },
}

/// A locked segment: its stamp before, the words when it was locked, the words as they are by now,
/// what took effect since, the elements that keys led to when it was locked, and whether the
/// version has to change.
pub struct Lock {
    pub map: u8,
    pub segment: u32,
    pub stamp: u64,
    pub first: LinkedList<u64>,
    pub copy: LinkedList<u64>,
    pub change: Change,
    pub known: LinkedList<u32>,
    pub dirty: bool,
}

/// A word that was read without a lock.
pub struct Peek {
    pub place: Place,
    pub number: u64,
}

/// A segment that is read without a lock: its stamp, and the words read since.
pub struct Reading {
    pub map: u8,
    pub segment: u32,
    pub stamp: u64,
    pub peeks: LinkedList<Peek>,
}

/// A step as it was noted: its place, the number found there, and the number left.
pub struct Sight {
    pub place: Place,
    pub found: u64,
    pub left: u64,
}

/// A CPU and all that it knows. Its tally has the steps that were noted, the last first: the noted
/// steps of `lane` put them there, and no other step changes them.
pub struct Known {
    pub cpu: u8,
    pub seen: LinkedList<Entry>,
    pub fresh: LinkedList<Fresh>,
    pub limbo: LinkedList<Limbo>,
    pub locks: LinkedList<Lock>,
    pub readings: LinkedList<Reading>,
    pub tally: LinkedList<Sight>,
}

/// What a seat knows: its CPUs, and what it keeps of the history for others.
pub struct View {
    pub lanes: LinkedList<Known>,
    pub kept: LinkedList<Entry>,
}
