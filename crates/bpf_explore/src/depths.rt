//! How many steps of a job lead at most to a kept machine of a patient search.

ghost use Rattle.std.specs.Prelude.{◌≡◌, ◌+◌, ◌<◌, ◌≤◌, ◌⊎◌, ℕ, true, length};
ghost use Rattle.bpf_machine.specs.Budgets.{depth_at};
ghost use Rattle.bpf_equal.specs.Patient.{AreSparingPermuted};
ghost use Rattle.bpf_explore.specs.Album.{HaveBudgets};
ghost use Rattle.bpf_explore.specs.Search.{IsIdleAt};
ghost use Rattle.bpf_explore.specs.Private.Depths.{IsSparingAt, LeadsDeeperAt};
ghost use Rattle.bpf_explore.specs.Private.Edges.{AreTurns};

use crate::patient::PatientExplorer;
use crate::turns::{Edge, Turns};
use std::alloc::{AllocError, Global};

/// Depths of kept machines.
#[derive(Drop)]
pub(crate) struct Depths {
    /// How many steps lead at most to each: right where turns lead in no circle.
    pub steps: Vec<u64>,
    /// How many turns lead to each from those that are in a circle, or after one.
    pub waits: Vec<u32>,
}

/// How deep a kept machine is.
fn depth_of(depths: &[u64], place: usize) -> u64
    ensures { result ≡ depth_at depths.now place }
{
    match depths.get(place) {
        Some(depth) => *depth,
        None => 0,
    }
}

/// The turn of a CPU that has work in a kept machine.
pub(crate) fn working_edge(
    explorer: &PatientExplorer,
    turns: &Turns,
    place: usize,
    cpu: u8,
) -> Option<Edge>
    requires turns { AreTurns explorer.now.kept turns.now }
    requires place { place < length explorer.now.kept }
    requires cpu { cpu < turns.now.cpus }
{
    if explorer.has_work(place, cpu) {
        Some(turns.edge(place, cpu))
    } else {
        None
    }
}

/// How many turns lead to each kept machine.
fn count_turns(
    alloc: Global,
    explorer: &PatientExplorer,
    turns: &Turns,
) -> Result<Vec<u32>, AllocError>
    requires { AreTurns explorer.now.kept turns.now }
{
    let mut counts = vec![in alloc; 0u32; explorer.len()]?;
    for place in 0..explorer.len() {
        for cpu in 0..turns.cpus {
            if let Some(edge) = working_edge(explorer, turns, place, cpu)
                && let Some(count) = counts.get_mut(edge.to as usize)
            {
                *count = count.saturating_add(1);
            }
        }
    }
    Ok(counts)
}

/// One turn less leads there from what isn't passed yet. Whether it was the last.
fn count_down(waits: &mut Vec<u32>, place: usize) -> bool {
    match waits.get_mut(place) {
        Some(count) => {
            let last = *count == 1;
            *count = count.saturating_sub(1);
            last
        }
        None => false,
    }
}

/// It is so deep at least.
fn deepen(depths: &mut Vec<u64>, place: usize, depth: u64) {
    if let Some(old) = depths.get_mut(place) {
        *old = (*old).max(depth);
    }
}

/// Passes a kept machine to which no more turns lead: those after it are deeper, and some of them
/// can be passed next.
fn pass(
    explorer: &PatientExplorer,
    turns: &Turns,
    place: usize,
    depths: &mut Depths,
    order: &mut Vec<usize>,
) -> Result<(), AllocError>
    requires turns { AreTurns explorer.now.kept turns.now }
    requires place { place < length explorer.now.kept }
{
    let depth = depth_of(&depths.steps, place);
    for cpu in 0..turns.cpus {
        if let Some(edge) = working_edge(explorer, turns, place, cpu) {
            let to = edge.to as usize;
            let more = depth.saturating_add(edge.ahead as u64 + 1);
            deepen(&mut depths.steps, to, more);
            if count_down(&mut depths.waits, to) {
                order.push(to)?;
            }
        }
    }
    Ok(())
}

/// How deep kept machines are, from the first on.
pub(crate) fn find_depths(
    alloc: Global,
    explorer: &PatientExplorer,
    turns: &Turns,
) -> Result<Depths, AllocError>
    requires { AreTurns explorer.now.kept turns.now }
{
    let waits = count_turns(alloc, explorer, turns)?;
    let steps = vec![in alloc; 0u64; explorer.len()]?;
    let mut depths = Depths { steps, waits };
    let mut order = Vec::new(alloc);
    order.push(0)?;
    for next in 0..explorer.len() {
        let Some(place) = order.get(next).copied() else {
            break;
        };
        if place < explorer.len() {
            pass(explorer, turns, place, &mut depths, &mut order)?;
        }
    }
    Ok(depths)
}

/// Whether a depth is at least another one and n steps more, and one.
fn is_deeper(depth: u64, ahead: u32, next: u64) -> bool
    ensures { result ≡ true → depth + ahead + 1 ≤ next }
{
    match depth.checked_add(ahead as u64 + 1) {
        Some(sum) => sum <= next,
        None => false,
    }
}

/// Whether a CPU has no work in a kept machine, or its turn leads deeper.
fn leads_deeper(
    explorer: &PatientExplorer,
    turns: &Turns,
    depths: &[u64],
    place: usize,
    cpu: u8,
) -> bool
    requires turns { AreTurns explorer.now.kept turns.now }
    requires place { place < length explorer.now.kept }
    requires cpu { cpu < turns.now.cpus }
    ensures { result ≡ true → IsIdleAt explorer.now.kept place cpu
        ⊎ LeadsDeeperAt turns.now.peers.items explorer.now.kept depths.now place cpu }
{
    if !explorer.has_work(place, cpu) {
        return true;
    }
    let edge = turns.edge(place, cpu);
    let depth = depth_of(depths, place);
    let next = depth_of(depths, edge.to as usize);
    is_deeper(depth, edge.ahead, next)
}

/// Whether a kept machine is less deep than the least budget, and all turns from it lead deeper.
fn is_sparing_at(
    explorer: &PatientExplorer,
    turns: &Turns,
    depths: &[u64],
    least: u64,
    place: usize,
) -> bool
    requires turns { AreTurns explorer.now.kept turns.now }
    requires place { place < length explorer.now.kept }
    ensures { result ≡ true → IsSparingAt turns.now.peers.items explorer.now.kept depths.now least place }
{
    if depth_of(depths, place) >= least {
        return false;
    }
    for cpu in 0..turns.cpus {
        if !leads_deeper(explorer, turns, depths, place, cpu) {
            return false;
        }
    }
    true
}

/// Whether turns lead ever deeper, and no kept machine is as deep as a budget.
pub(crate) fn is_sparing(explorer: &PatientExplorer, turns: &Turns, depths: &[u64]) -> bool
    requires { AreTurns explorer.now.kept turns.now }
    ensures { result ≡ true → (least : ℕ)
        × AreSparingPermuted turns.now.peers.items explorer.now.kept depths.now least }
{
    let least = explorer.least_budget();
    for place in 0..explorer.len() {
        if !is_sparing_at(explorer, turns, depths, least, place) {
            return false;
        }
    }
    true
}
