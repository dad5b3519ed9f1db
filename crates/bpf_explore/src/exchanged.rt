//! Schedules to hung states, with the CPUs of equal jobs exchanged.

ghost use Rattle.std.specs.Prelude.{◌≡◌, ◌<◌, true, IfOk, OnOk, Some, ℕ, length, slice_get};
ghost use Rattle.bpf_equal.specs.Patient.{AreAllExchanged};
ghost use Rattle.bpf_explore.specs.Private.Exchanged.{Grows, IsListedAround, IsListedFor, IsListedFrom};
ghost use Rattle.bpf_explore.specs.Private.Hung.{IsAmong};

use crate::hung::Hung;
use crate::spread::exchange_turns;
use bpf_equal::Peer;
use std::alloc::{AllocError, Global};

/// Whether two schedules are the same.
fn are_same(one: &[(u8, u64)], other: &[(u8, u64)]) -> bool
    ensures { result ≡ true → one.now ≡ other.now }
{
    if one.len() != other.len() {
        return false;
    }
    for run in 0..one.len() {
        let (cpu, turns) = one[run];
        let (own, more) = other[run];
        if cpu != own || turns != more {
            return false;
        }
    }
    true
}

/// Whether a schedule is listed.
fn is_listed(hung: &[Hung], by: &[(u8, u64)]) -> bool
    ensures { result ≡ true → IsAmong hung.now by.now }
{
    for place in 0..hung.len() {
        if are_same(hung[place].by(), by) {
            return true;
        }
    }
    false
}

/// A copy of a schedule.
fn copy_way(alloc: Global, by: &[(u8, u64)]) -> Result<Vec<(u8, u64)>, AllocError>
    ensures { IfOk result (λ copy. copy.items ≡ by.now) }
{
    let mut copy = Vec::with_capacity(alloc, by.len())?;
    copy.extend_from_slice(by)?;
    Ok(copy)
}

/// Lists a schedule with the CPUs of two jobs exchanged, if they are equal, unless it is listed.
fn add_if_equal(
    alloc: Global,
    peers: &[Peer],
    jobs: (usize, usize),
    by: &[(u8, u64)],
    hung: &mut Vec<Hung>,
) -> Result<(), AllocError>
    requires less { jobs.0 < jobs.1 }
    requires within { jobs.1 < length peers.now }
    requires among { IsAmong hung.old.items by.now }
    ensures listed { OnOk result (IsListedFor peers.now hung.new.items by.now jobs.0 jobs.1) }
    ensures grows { OnOk result (Grows peers.now hung.old.items hung.new.items) }
{
    bpf_equal::laws::hung_are_exchanged();
    let one = peers[jobs.0];
    let other = peers[jobs.1];
    if one.group != other.group {
        return Ok(());
    }
    let mut exchanged = copy_way(alloc, by)?;
    exchange_turns(&mut exchanged, one.cpu, other.cpu);
    if is_listed(hung, &exchanged) {
        return Ok(());
    }
    hung.push(Hung::new(exchanged))?;
    Ok(())
}

/// Does so for a job and each later one.
fn add_from(
    alloc: Global,
    peers: &[Peer],
    one: usize,
    by: &[(u8, u64)],
    hung: &mut Vec<Hung>,
) -> Result<(), AllocError>
    requires one { one < length peers.now }
    requires among { IsAmong hung.old.items by.now }
    ensures listed { OnOk result
        (IsListedFrom peers.now hung.new.items by.now one (length peers.now)) }
    ensures grows { OnOk result (Grows peers.now hung.old.items hung.new.items) }
{
    for other in one + 1..peers.len() {
        add_if_equal(alloc, peers, (one, other), by, hung)?;
    }
    Ok(())
}

/// Does so for each two jobs.
fn add_around(
    alloc: Global,
    peers: &[Peer],
    by: &[(u8, u64)],
    hung: &mut Vec<Hung>,
) -> Result<(), AllocError>
    requires { IsAmong hung.old.items by.now }
    ensures listed { OnOk result
        (IsListedAround peers.now hung.new.items by.now (length peers.now)) }
    ensures grows { OnOk result (Grows peers.now hung.old.items hung.new.items) }
{
    for one in 0..peers.len() {
        add_from(alloc, peers, one, by, hung)?;
    }
    Ok(())
}

/// Lists each schedule with the CPUs of each two equal jobs exchanged too, until nothing is new.
pub(crate) fn exchange_hung(
    alloc: Global,
    peers: &[Peer],
    hung: &mut Vec<Hung>,
) -> Result<(), AllocError>
    ensures exchanged { OnOk result (AreAllExchanged peers.now hung.new.items) }
    ensures grows { OnOk result (Grows peers.now hung.old.items hung.new.items) }
{
    let mut next = 0;
    while next < hung.len() {
        let by = copy_way(alloc, hung[next].by())?;
        add_around(alloc, peers, &by, hung)?;
        next += 1;
    }
    Ok(())
}
