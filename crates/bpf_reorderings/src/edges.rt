//! Where the moves from kept machines lead, after a patient search that has made all of them.

ghost use Rattle.std.specs.Prelude.{◌≡◌, ◌<◌, ◌≤◌, true, IfOk, OnOk, length};
ghost use Rattle.bpf_x86.specs.Machine.{TurnOf};
ghost use Rattle.bpf_patience.specs.Ends.{LeadsToX86};
ghost use Rattle.bpf_reorderings.specs.Private.Edges.{AreEdges, AreEdgesFrom, FlushLeads, IsEdge};

use crate::explorer::{Explorer, number_of};
use std::alloc::AllocError;

/// The kept machines to which a CPU's moves lead from another: its turn, and the flush of its buffer, if a
/// store waits there.
#[derive(Clone, Copy)]
pub(crate) struct Edge {
    pub turn: u32,
    pub flush: Option<u32>,
}

/// The kept machine to which a CPU's turn leads. A new one counts as out of memory.
fn turn_to(explorer: &mut Explorer, place: usize, cpu: u8) -> Result<u32, AllocError>
    requires patient { explorer.old.patient ≡ true }
    requires place { place < length explorer.old.kept }
    requires cpu { cpu < 128 }
    ensures same { OnOk result (explorer.new.kept ≡ explorer.old.kept) }
    ensures patient { explorer.new.patient ≡ explorer.old.patient }
    ensures inside { IfOk result (λ to. to < length explorer.old.kept) }
    ensures leads { IfOk result (λ to. LeadsToX86 explorer.old.kept place (TurnOf cpu) to) }
{
    let count = explorer.len();
    let to = explorer.turn(place, cpu)?;
    if explorer.len() > count {
        return Err(AllocError);
    }
    let number = number_of(to)?;
    Ok(number)
}

/// The kept machine to which the flush of a CPU's buffer leads; `None` where nothing waits. A new one counts
/// as out of memory.
fn flush_to(explorer: &mut Explorer, place: usize, cpu: u8) -> Result<Option<u32>, AllocError>
    requires patient { explorer.old.patient ≡ true }
    requires place { place < length explorer.old.kept }
    requires cpu { cpu < 128 }
    ensures same { OnOk result (explorer.new.kept ≡ explorer.old.kept) }
    ensures patient { explorer.new.patient ≡ explorer.old.patient }
    ensures leads { IfOk result (FlushLeads explorer.old.kept place cpu) }
{
    let count = explorer.len();
    let flushed = explorer.flush(place, cpu)?;
    if explorer.len() > count {
        return Err(AllocError);
    }
    let Some(to) = flushed else {
        return Ok(None);
    };
    let number = number_of(to)?;
    Ok(Some(number))
}

/// Where a CPU's moves lead from a kept machine.
fn edge_from(explorer: &mut Explorer, place: usize, cpu: u8) -> Result<Edge, AllocError>
    requires patient { explorer.old.patient ≡ true }
    requires place { place < length explorer.old.kept }
    requires cpu { cpu < 128 }
    ensures same { OnOk result (explorer.new.kept ≡ explorer.old.kept) }
    ensures patient { explorer.new.patient ≡ explorer.old.patient }
    ensures edge { IfOk result (IsEdge explorer.old.kept place cpu) }
{
    let turn = turn_to(explorer, place, cpu)?;
    let flush = flush_to(explorer, place, cpu)?;
    Ok(Edge { turn, flush })
}

/// Where the moves of each CPU lead from a kept machine, CPU by CPU.
fn edges_from(explorer: &mut Explorer, place: usize) -> Result<Vec<Edge>, AllocError>
    requires patient { explorer.old.patient ≡ true }
    requires place { place < length explorer.old.kept }
    ensures same { OnOk result (explorer.new.kept ≡ explorer.old.kept) }
    ensures patient { explorer.new.patient ≡ explorer.old.patient }
    ensures edges { IfOk result (λ row. AreEdgesFrom explorer.old.kept place row.items) }
{
    let mut row = Vec::new(explorer.alloc());
    for cpu in 0..explorer.cpus() {
        let edge = edge_from(explorer, place, cpu)?;
        row.push(edge)?;
    }
    Ok(row)
}

/// Where the moves of each CPU lead from each kept machine.
pub(crate) fn find_edges(explorer: &mut Explorer) -> Result<Vec<Vec<Edge>>, AllocError>
    requires { explorer.old.patient ≡ true }
    ensures same { OnOk result (explorer.new.kept ≡ explorer.old.kept) }
    ensures patient { explorer.new.patient ≡ explorer.old.patient }
    ensures edges { IfOk result (λ rows. AreEdges explorer.old.kept rows.items) }
{
    let mut rows = Vec::new(explorer.alloc());
    for place in 0..explorer.len() {
        let row = edges_from(explorer, place)?;
        rows.push(row)?;
    }
    Ok(rows)
}
