//! The races of one machine.

ghost use Rattle.std.specs.Prelude.{◌≡◌, ◌<◌, ◌+◌, ℕ, [], IfOk, OnOk, length};
ghost use Rattle.bpf_machine.specs.Machine.{Shows};
ghost use Rattle.bpf_machine.specs.Schedule.{World};
ghost use Rattle.bpf_races.specs.Touch.{Clash};
ghost use Rattle.bpf_races.specs.Races.{AreRacesIn};
ghost use Rattle.bpf_races.specs.Private.Clashes.{Collects};
ghost use Rattle.bpf_races.specs.Private.Searching.{AreNexts, IsNextOf};
ghost use Rattle.bpf_races.specs.Private.Within.{Amid, IsFor, UpTo};

use crate::clash::racing_bytes;
use crate::found::{Pair, Race, add_race};
use crate::next::{Next, Watcher};
use crate::sync::Part;
use bpf_machine::Machine;
use std::alloc::{AllocError, Global};

/// The bytes for which two next steps race, but for those that are left out.
fn bytes_between(
    alloc: Global,
    first: &Next,
    second: &Next,
    sync: &[Part],
) -> Result<Vec<u64>, AllocError>
    ensures { IfOk result (λ v. Collects (Clash first.now.accesses second.now.accesses) sync.now []
        v.items) }
{
    racing_bytes(alloc, first.accesses(), second.accesses(), sync)
}

/// A race of these two for a byte, in a machine.
fn race_for(
    alloc: Global,
    watcher: &Watcher,
    machine: &Machine,
    pair: Pair,
    at: u64,
) -> Result<Race, AllocError>
    ensures { IfOk result (IsFor machine.now pair at) }
{
    let key = watcher.key_at(machine, at)?;
    let by = Vec::new(alloc);
    Ok(Race { pair, at, key, by })
}

/// A machine, its CPUs' next steps, and the parts of values that are left out.
#[derive(Clone, Copy)]
struct Situation<'a> {
    machine: &'a Machine,
    sync: &'a [Part],
    nexts: &'a [Next],
}

/// Appends the races of these two for some bytes to the others, each once.
fn add_bytes(
    alloc: Global,
    watcher: &Watcher,
    situation: &Situation<'_>,
    first: &Next,
    second: &Next,
    races: &mut Vec<Race>,
) -> Result<(), AllocError>
    requires order { first.now.here.cpu < second.now.here.cpu }
    requires next { IsNextOf situation.now.machine.now first.now.here.cpu first.now }
    requires next_too { IsNextOf situation.now.machine.now second.now.here.cpu second.now }
    requires before { UpTo situation.now.machine.now situation.now.sync.now
        situation.now.nexts.now first.now.here.cpu second.now.here.cpu
        races.old.items }
    ensures { OnOk result (UpTo situation.now.machine.now situation.now.sync.now
        situation.now.nexts.now first.now.here.cpu
        (second.now.here.cpu + 1) races.new.items) }
{
    let pair = Pair {
        one: first.here(),
        other: second.here(),
    };
    let bytes = bytes_between(alloc, first, second, situation.sync)?;
    for at in &bytes {
        let race = race_for(alloc, watcher, situation.machine, pair, *at)?;
        add_race(races, race)?;
    }
    Ok(())
}

/// Appends the races of a CPU with those of greater numbers to the others.
fn add_races_of(
    alloc: Global,
    watcher: &Watcher,
    situation: &Situation<'_>,
    cpu: usize,
    races: &mut Vec<Race>,
) -> Result<(), AllocError>
    requires within { cpu < length situation.now.nexts.now }
    requires nexts { AreNexts situation.now.machine.now situation.now.nexts.now }
    requires before { UpTo situation.now.machine.now situation.now.sync.now
        situation.now.nexts.now cpu 0 races.old.items }
    ensures { OnOk result (UpTo situation.now.machine.now situation.now.sync.now
        situation.now.nexts.now (cpu + 1) 0 races.new.items) }
{
    let nexts = situation.nexts;
    for other in cpu + 1..nexts.len() {
        let (first, second) = (&nexts[cpu], &nexts[other]);
        add_bytes(alloc, watcher, situation, first, second, races)?;
    }
    Ok(())
}

/// The races of a machine, whose CPUs' next steps are these.
fn races_of(
    alloc: Global,
    watcher: &Watcher,
    situation: &Situation<'_>,
) -> Result<Vec<Race>, AllocError>
    requires { AreNexts situation.now.machine.now situation.now.nexts.now }
    ensures { IfOk result (λ races. AreRacesIn situation.now.machine.now situation.now.sync.now
        races.items) }
{
    let mut races = Vec::new(alloc);
    let nexts = situation.nexts;
    for cpu in 0..nexts.len() {
        add_races_of(alloc, watcher, situation, cpu, &mut races)?;
    }
    Ok(races)
}

/// The races of a machine, but for those at bytes that are left out: by rising pair of CPUs, each
/// once, and without a schedule.
pub fn races_in(
    alloc: Global,
    watcher: &mut Watcher,
    machine: &Machine,
    sync: &[Part],
) -> Result<Vec<Race>, AllocError>
    ensures { IfOk result (λ races. AreRacesIn machine.now sync.now races.items) }
{
    let nexts = watcher.nexts(machine)?;
    let situation = Situation {
        machine,
        sync,
        nexts: &nexts,
    };
    races_of(alloc, watcher, &situation)
}
