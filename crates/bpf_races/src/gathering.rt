//! The races of the machines that a search keeps.

ghost use Rattle.std.specs.Prelude.{◌≡◌, ◌⊎◌, ◌<◌, ℕ, false, true, IfOk, OnOk, length, option_map};
ghost use Rattle.bpf_machine.specs.Machine.{Shows};
ghost use Rattle.bpf_machine.specs.Schedule.{World};
ghost use Rattle.bpf_races.specs.Races.{IsListed, RacesIn, spot_of};
ghost use Rattle.bpf_races.specs.Private.Searching.{AreAllListed, AreListedAt, AreOrdered, AreRacesAt, Gathered, IsRaceAt, Keeps};

use crate::found::{Race, is_listed, is_one_of};
use crate::next::{Watcher, copy_bytes};
use crate::searched::Searched;
use crate::sync::Part;
use crate::within::races_in;
use std::alloc::{AllocError, Global};

/// Whether a race of a kept machine is one of the machine to work with, to which the way to the kept
/// one leads. Of a search that isn't patient that is the kept one.
fn is_there<S: Searched>(
    search: &S,
    watcher: &mut Watcher,
    sync: &[Part],
    found: &Race,
) -> Result<bool, AllocError>
    requires kept { S.patient ≡ false → (w : World) → Shows (S.working search.now) w
        → RacesIn w sync.now found.now }
    ensures there { IfOk result (λ there. there ≡ true → (w : World)
        → Shows (S.working search.now) w → RacesIn w sync.now found.now) }
    ensures exact { S.patient ≡ false → IfOk result (λ there. there ≡ true) }
{
    if !search.is_patient() {
        return Ok(true);
    }
    let alloc = watcher.alloc();
    let races = races_in(alloc, watcher, search.current(), sync)?;
    Ok(is_one_of(&races, found))
}

/// A copy of a key, if it is one.
fn copy_key(alloc: Global, key: &Option<Vec<u8>>) -> Result<Option<Vec<u8>>, AllocError>
    ensures { IfOk result (λ copy. option_map (λ bytes. bytes.items) copy
        ≡ option_map (λ bytes. bytes.items) key.now) }
{
    match key {
        Some(key) => Ok(Some(copy_bytes(alloc, key)?)),
        None => Ok(None),
    }
}

/// A copy of a race, with this schedule.
pub(crate) fn with_way(alloc: Global, race: &Race, by: Vec<(u8, u64)>) -> Result<Race, AllocError>
    ensures { IfOk result (λ new. new ≡ record race.now { by = by.items }) }
{
    let key = copy_key(alloc, &race.key)?;
    Ok(Race {
        pair: race.pair,
        at: race.at,
        key,
        by,
    })
}

/// Lists a race of a kept machine, unless such a one is listed. Whether one is then.
fn add_found<S: Searched>(
    search: &mut S,
    watcher: &mut Watcher,
    sync: &[Part],
    place: usize,
    found: &Race,
    races: &mut Vec<Race>,
) -> Result<bool, AllocError>
    requires place { place < length (S.kept search.old) }
    requires order { found.now.pair.one.cpu < found.now.pair.other.cpu }
    requires here { IsRaceAt (S.kept search.old) sync.now place found.now }
    requires gathered { Gathered (S.kept search.old) sync.now races.old.items }
    ensures same { S.kept search.new ≡ S.kept search.old }
    ensures gathered { OnOk result (Gathered (S.kept search.old) sync.now races.new.items) }
    ensures keeps { OnOk result (Keeps races.old.items races.new.items) }
    ensures listed { IfOk result (λ listed. listed ≡ true
        → IsListed races.new.items (spot_of found.now)) }
    ensures exact { S.patient ≡ false → IfOk result (λ listed. listed ≡ true) }
{
    if is_listed(races, found) {
        return Ok(true);
    }
    let by = search.witness(place)?;
    if !is_there(search, watcher, sync, found)? {
        return Ok(false);
    }
    races.push(with_way(watcher.alloc(), found, by)?)?;
    Ok(true)
}

/// Whether both hold.
pub(crate) fn both(first: bool, second: bool) -> bool
    ensures both { result ≡ true → (first ≡ true) × (second ≡ true) }
    ensures not { result ≡ false → (first ≡ false) ⊎ (second ≡ false) }
{
    first && second
}

/// Lists races of a kept machine. Whether all are listed then.
fn add_all<S: Searched>(
    search: &mut S,
    watcher: &mut Watcher,
    sync: &[Part],
    place: usize,
    found: &[Race],
    races: &mut Vec<Race>,
) -> Result<bool, AllocError>
    requires place { place < length (S.kept search.old) }
    requires order { AreOrdered found.now }
    requires here { AreRacesAt (S.kept search.old) sync.now place found.now }
    requires gathered { Gathered (S.kept search.old) sync.now races.old.items }
    ensures same { S.kept search.new ≡ S.kept search.old }
    ensures gathered { OnOk result (Gathered (S.kept search.old) sync.now races.new.items) }
    ensures keeps { OnOk result (Keeps races.old.items races.new.items) }
    ensures listed { IfOk result (λ listed. listed ≡ true
        → AreAllListed races.new.items found.now) }
    ensures exact { S.patient ≡ false → IfOk result (λ listed. listed ≡ true) }
{
    let mut all = true;
    for k in 0..found.len() {
        let listed = add_found(search, watcher, sync, place, &found[k], races)?;
        all = both(all, listed);
    }
    Ok(all)
}

/// Lists the races of a kept machine. Whether all are listed then.
fn add_at<S: Searched>(
    search: &mut S,
    watcher: &mut Watcher,
    sync: &[Part],
    place: usize,
    races: &mut Vec<Race>,
) -> Result<bool, AllocError>
    requires place { place < length (S.kept search.old) }
    requires gathered { Gathered (S.kept search.old) sync.now races.old.items }
    ensures same { S.kept search.new ≡ S.kept search.old }
    ensures gathered { OnOk result (Gathered (S.kept search.old) sync.now races.new.items) }
    ensures keeps { OnOk result (Keeps races.old.items races.new.items) }
    ensures listed { IfOk result (λ listed. listed ≡ true
        → AreListedAt (S.kept search.old) races.new.items sync.now place) }
    ensures exact { S.patient ≡ false → IfOk result (λ listed. listed ≡ true) }
{
    search.take(place)?;
    let alloc = watcher.alloc();
    let found = races_in(alloc, watcher, search.current(), sync)?;
    let listed = add_all(search, watcher, sync, place, &found, races)?;
    Ok(listed)
}

/// The races of all kept machines, and whether they are all: not where the way to one is longer than
/// the budgets that jobs have, as only that of a patient search can be.
pub fn gather_races<S: Searched>(
    alloc: Global,
    search: &mut S,
    watcher: &mut Watcher,
    sync: &[Part],
) -> Result<(Vec<Race>, bool), AllocError>
    ensures same { S.kept search.new ≡ S.kept search.old }
    ensures gathered { IfOk result (λ r. Gathered (S.kept search.old) sync.now r.0.items) }
    ensures listed { IfOk result (λ r. r.1 ≡ true → (i : ℕ)
        → AreListedAt (S.kept search.old) r.0.items sync.now i) }
    ensures exact { S.patient ≡ false → IfOk result (λ r. r.1 ≡ true) }
{
    let mut races = Vec::new(alloc);
    let mut all = true;
    for place in 0..search.count() {
        let listed = add_at(search, watcher, sync, place, &mut races)?;
        all = both(all, listed);
    }
    Ok((races, all))
}
