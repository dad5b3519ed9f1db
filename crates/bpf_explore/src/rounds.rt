//! Circles of kept machines in a patient search: who goes round uses budgets up.

ghost use Rattle.std.specs.Prelude.{◌≡◌, ◌<◌, true, IfOk, length};
ghost use Rattle.bpf_explore.specs.Private.Edges.{AreTurns};
ghost use Rattle.bpf_explore.specs.Private.Replays.{CanRunOut, IsReached};

use crate::album::number_of;
use crate::depths::working_edge;
use crate::explorer::{Origin, push_turns};
use crate::patient::{PatientExplorer, same_cpus};
use crate::replays::some_ran_out;
use crate::turns::{Edge, Turns};
use std::alloc::{AllocError, Global};

/// How often a circle is gone round before it is given up.
const ROUNDS: u32 = 4_000_000;

/// How often at most the turns of a circle are put one after the other until each job is where it was: in
/// a circle equal jobs may change places.
const TRIPS: usize = 64;

/// A circle of kept machines: one of them, and the turns that lead round to it.
#[derive(Drop)]
struct Circle {
    place: usize,
    edges: Vec<Edge>,
}

/// Whether turns lead to this kept machine from one that is in a circle, or after one.
fn waits_at(waits: &[u32], place: usize) -> bool {
    match waits.get(place) {
        Some(count) => *count > 0,
        None => false,
    }
}

/// Of each kept machine a turn that leads to it from one that is in a circle, or after one.
fn turns_before(
    alloc: Global,
    explorer: &PatientExplorer,
    turns: &Turns,
    waits: &[u32],
) -> Result<Vec<Option<Origin>>, AllocError>
    requires { AreTurns explorer.now.kept turns.now }
{
    let mut before = vec![in alloc; None; explorer.len()]?;
    for place in 0..explorer.len() {
        if !waits_at(waits, place) {
            continue;
        }
        let from = number_of(place)?;
        for cpu in 0..turns.cpus {
            if let Some(edge) = working_edge(explorer, turns, place, cpu)
                && let Some(turn) = before.get_mut(edge.to as usize)
            {
                let ahead = edge.ahead;
                *turn = Some(Origin { from, ahead, cpu });
            }
        }
    }
    Ok(before)
}

/// The turn that leads to a kept machine so.
fn turn_before(before: &[Option<Origin>], place: usize) -> Option<Origin> {
    match before.get(place) {
        Some(turn) => *turn,
        None => None,
    }
}

/// A kept machine in a circle, if there is one: who goes back far enough is in it.
fn find_in_circle(before: &[Option<Origin>], waits: &[u32]) -> Option<usize> {
    let mut place = waits.iter().position(|count| *count > 0)?;
    for _ in 0..before.len() {
        place = turn_before(before, place)?.from as usize;
    }
    Some(place)
}

/// The turns that lead round to a kept machine in a circle.
fn go_round(
    alloc: Global,
    before: &[Option<Origin>],
    place: usize,
) -> Result<Vec<Edge>, AllocError> {
    let mut edges = Vec::new(alloc);
    let mut state = place;
    for _ in 0..before.len() {
        let Some(turn) = turn_before(before, state) else {
            break;
        };
        let Origin { from, ahead, cpu } = turn;
        let to = number_of(state)?;
        state = from as usize;
        edges.push(Edge {
            from: state,
            to,
            ahead,
            cpu,
        })?;
        if state == place {
            break;
        }
    }
    edges.reverse();
    Ok(edges)
}

/// A circle of kept machines, if there is one.
fn find_circle(
    alloc: Global,
    explorer: &PatientExplorer,
    turns: &Turns,
    waits: &[u32],
) -> Result<Option<Circle>, AllocError>
    requires { AreTurns explorer.now.kept turns.now }
{
    let before = turns_before(alloc, explorer, turns, waits)?;
    let Some(place) = find_in_circle(&before, waits) else {
        return Ok(None);
    };
    let edges = go_round(alloc, &before, place)?;
    Ok(Some(Circle { place, edges }))
}

/// The CPU that is noted for this one.
fn noted_cpu(noted: &[u8], cpu: u8) -> u8 {
    match noted.get(usize::from(cpu)) {
        Some(other) => *other,
        None => cpu,
    }
}

/// By each CPU, the one that a first list notes for the one that a second notes for it.
fn both_noted(alloc: Global, first: &[u8], second: &[u8]) -> Result<Vec<u8>, AllocError> {
    let mut both = Vec::new(alloc);
    for cpu in second {
        both.push(noted_cpu(first, *cpu))?;
    }
    Ok(both)
}

/// Whether each CPU is noted for itself.
fn are_own(noted: &[u8]) -> bool {
    noted
        .iter()
        .enumerate()
        .all(|(cpu, other)| usize::from(*other) == cpu)
}

/// For each turn of a circle, the CPUs that jobs of the kept machine which it led to have after it.
fn find_moves(
    alloc: Global,
    explorer: &mut PatientExplorer,
    edges: &[Edge],
) -> Result<Vec<Vec<u8>>, AllocError>
    ensures same { explorer.new.kept ≡ explorer.old.kept }
    ensures peers { explorer.new.peers ≡ explorer.old.peers }
{
    let mut moves = Vec::new(alloc);
    for edge in edges {
        if edge.from >= explorer.len() || edge.to as usize >= explorer.len() {
            return Err(AllocError);
        }
        let moved = explorer.moved_by(*edge)?;
        moves.push(moved)?;
    }
    Ok(moves)
}

/// The turns of a circle, by the CPUs that jobs have who go round, until each job is where it was.
fn turns_round(
    alloc: Global,
    cpus: u8,
    edges: &[Edge],
    moves: &[Vec<u8>],
) -> Result<Vec<(u8, u64)>, AllocError> {
    let mut by = Vec::new(alloc);
    let mut here = same_cpus(alloc, cpus)?;
    for _ in 0..TRIPS {
        for (edge, moved) in edges.iter().zip(moves) {
            push_turns(&mut by, noted_cpu(&here, edge.cpu), edge.ahead as u64 + 1)?;
            here = both_noted(alloc, &here, moved)?;
        }
        if are_own(&here) {
            break;
        }
    }
    Ok(by)
}

/// Makes the turns of a schedule from the first machine, and then those of another, again and
/// again. Whether some job is out of budget after some of them.
fn goes_round(
    explorer: &mut PatientExplorer,
    way: &[(u8, u64)],
    circle: &[(u8, u64)],
) -> Result<bool, AllocError>
    requires { 0 < length explorer.old.kept }
    ensures same { explorer.new.kept ≡ explorer.old.kept }
    ensures peers { explorer.new.peers ≡ explorer.old.peers }
    ensures out { IfOk result (λ out. out ≡ true → CanRunOut explorer.old.kept) }
{
    explorer.restore(0)?;
    explorer.turns_by(way);
    for _ in 0..ROUNDS {
        if some_ran_out(explorer.machine()) {
            return Ok(true);
        }
        explorer.turns_by(circle);
    }
    Ok(false)
}

/// Whether a budget is used up by who goes round in a circle of kept machines.
pub(crate) fn wears_out(
    alloc: Global,
    explorer: &mut PatientExplorer,
    turns: &Turns,
    waits: &[u32],
) -> Result<bool, AllocError>
    requires first { 0 < length explorer.old.kept }
    requires turns { AreTurns explorer.old.kept turns.now }
    ensures same { explorer.new.kept ≡ explorer.old.kept }
    ensures peers { explorer.new.peers ≡ explorer.old.peers }
    ensures out { IfOk result (λ out. out ≡ true → CanRunOut explorer.old.kept) }
{
    let Some(circle) = find_circle(alloc, explorer, turns, waits)? else {
        return Ok(false);
    };
    if circle.place >= explorer.len() {
        return Ok(false);
    }
    let moves = find_moves(alloc, explorer, &circle.edges)?;
    let by = turns_round(alloc, turns.cpus, &circle.edges, &moves)?;
    let way = explorer.way(circle.place)?;
    goes_round(explorer, &way, &by)
}
