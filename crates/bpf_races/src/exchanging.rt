//! Races in which equal CPUs change places.

ghost use Rattle.std.specs.Prelude.{◌≡◌, ◌<◌, ◌≤◌, IfOk, OnOk, length};
ghost use Rattle.bpf_equal.specs.Races.{stand_exchanged};
ghost use Rattle.bpf_races.specs.Touch.{IsAmong};
ghost use Rattle.bpf_races.specs.Private.Exchanging.{HaveExchanges, HaveExchangesBelow, CoversBelow, Grows, IsExchanged, IsListedAround, IsListedFor, IsListedFrom, in_order, pair_exchanged};

use crate::found::{Pair, Race, add_race};
use crate::gathering::with_way;
use bpf_equal::Peer;
use bpf_explore::{exchange, exchange_turns};
use bpf_machine::Stand;
use std::alloc::{AllocError, Global};

/// Where a CPU is, if two change places.
fn exchange_stand(here: Stand, one: u8, other: u8) -> Stand
    ensures { result ≡ stand_exchanged one other here }
{
    let Stand { cpu, program, pc } = here;
    let cpu = exchange(cpu, one, other);
    Stand { cpu, program, pc }
}

/// Two CPUs, that of the lesser number first.
fn put_in_order(one: Stand, other: Stand) -> Pair
    ensures { result ≡ in_order one other }
{
    if one.cpu < other.cpu {
        Pair { one, other }
    } else {
        Pair {
            one: other,
            other: one,
        }
    }
}

/// Where both CPUs are, if two change places.
fn exchange_pair(pair: Pair, one: u8, other: u8) -> Pair
    ensures { result ≡ pair_exchanged one other pair }
{
    let first = exchange_stand(pair.one, one, other);
    let second = exchange_stand(pair.other, one, other);
    put_in_order(first, second)
}

/// A copy of a schedule.
fn copy_way(alloc: Global, by: &[(u8, u64)]) -> Result<Vec<(u8, u64)>, AllocError>
    ensures { IfOk result (λ copy. copy.items ≡ by.now) }
{
    let mut copy = Vec::with_capacity(alloc, by.len())?;
    copy.extend_from_slice(by)?;
    Ok(copy)
}

/// A copy of a race.
fn copy_race(alloc: Global, race: &Race) -> Result<Race, AllocError>
    ensures { IfOk result (λ copy. copy ≡ race.now) }
{
    let by = copy_way(alloc, &race.by)?;
    with_way(alloc, race, by)
}

/// The race in which two CPUs have changed places, also in its schedule.
fn exchange_race(alloc: Global, race: &Race, one: u8, other: u8) -> Result<Race, AllocError>
    ensures { IfOk result (λ new. IsExchanged one other race.now new) }
{
    let mut by = copy_way(alloc, &race.by)?;
    exchange_turns(&mut by, one, other);
    let mut new = with_way(alloc, race, by)?;
    new.pair = exchange_pair(race.pair, one, other);
    Ok(new)
}

/// Lists a race with the CPUs of two jobs exchanged, if they are equal, unless such a one is listed.
fn add_if_equal(
    alloc: Global,
    peers: &[Peer],
    jobs: (usize, usize),
    race: &Race,
    races: &mut Vec<Race>,
) -> Result<(), AllocError>
    requires less { jobs.0 < jobs.1 }
    requires within { jobs.1 < length peers.now }
    requires among { IsAmong races.old.items race.now }
    ensures listed { OnOk result
        (IsListedFor peers.now races.new.items race.now jobs.0 jobs.1) }
    ensures grows { OnOk result (Grows peers.now races.old.items races.new.items) }
{
    bpf_equal::laws::races_are_exchanged();
    let one = peers[jobs.0];
    let other = peers[jobs.1];
    if one.group != other.group {
        return Ok(());
    }
    let exchanged = exchange_race(alloc, race, one.cpu, other.cpu)?;
    add_race(races, exchanged)?;
    Ok(())
}

/// Does so for a job and each later one.
fn add_from(
    alloc: Global,
    peers: &[Peer],
    one: usize,
    race: &Race,
    races: &mut Vec<Race>,
) -> Result<(), AllocError>
    requires one { one < length peers.now }
    requires among { IsAmong races.old.items race.now }
    ensures listed { OnOk result
        (IsListedFrom peers.now races.new.items race.now one (length peers.now)) }
    ensures grows { OnOk result (Grows peers.now races.old.items races.new.items) }
{
    for other in one + 1..peers.len() {
        add_if_equal(alloc, peers, (one, other), race, races)?;
    }
    Ok(())
}

/// Does so for each two jobs.
fn add_around(
    alloc: Global,
    peers: &[Peer],
    race: &Race,
    races: &mut Vec<Race>,
) -> Result<(), AllocError>
    requires { IsAmong races.old.items race.now }
    ensures listed { OnOk result
        (IsListedAround peers.now races.new.items race.now (length peers.now)) }
    ensures grows { OnOk result (Grows peers.now races.old.items races.new.items) }
{
    for one in 0..peers.len() {
        add_from(alloc, peers, one, race, races)?;
    }
    Ok(())
}

/// Lists races from a place on with each two equal CPUs exchanged too, until nothing is new. How many
/// are listed then.
fn close_from(
    alloc: Global,
    peers: &[Peer],
    first: usize,
    races: &mut Vec<Race>,
) -> Result<usize, AllocError>
    requires within { first ≤ length races.old.items }
    requires closed { HaveExchangesBelow peers.now races.old.items first }
    ensures all { IfOk result (λ n. n ≡ length races.new.items) }
    ensures closed { IfOk result (HaveExchangesBelow peers.now races.new.items) }
    ensures grows { OnOk result (Grows peers.now races.old.items races.new.items) }
{
    let mut next = first;
    while next < races.len() {
        let race = copy_race(alloc, &races[next])?;
        add_around(alloc, peers, &race, races)?;
        next += 1;
    }
    Ok(next)
}

/// Races, each with each two equal CPUs exchanged too, until nothing is new. Those of a race are listed
/// before the next one: so where several are one but for equal CPUs, their schedules are that of the
/// first, as it is or exchanged.
pub(crate) fn exchange_races(
    alloc: Global,
    peers: &[Peer],
    found: &[Race],
) -> Result<Vec<Race>, AllocError>
    ensures closed { IfOk result (λ races. HaveExchanges peers.now races.items) }
    ensures covers { IfOk result (λ races.
        CoversBelow peers.now found.now races.items (length found.now)) }
{
    let mut races = Vec::new(alloc);
    let mut next = 0;
    for k in 0..found.len() {
        let race = copy_race(alloc, &found[k])?;
        add_race(&mut races, race)?;
        next = close_from(alloc, peers, next, &mut races)?;
    }
    Ok(races)
}
