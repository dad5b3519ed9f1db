//! From which kept machines of a patient search an end can be reached.

ghost use Rattle.std.specs.Prelude.{◌≡◌, ◌<◌, ◌≤◌, ℕ, Vec, true, false, Some, IfOk, IfSome, length, slice_get};
ghost use Rattle.bpf_patience.specs.Ends.{AreStuckX86, IsStuckX86};
ghost use Rattle.bpf_reorderings.specs.Private.Edges.{AreEdges, AreEdgesFrom};
ghost use Rattle.bpf_reorderings.specs.Private.Hung.{AllGoOn, AreMarked, GoesTo, LeadToEnds, LeadsToEnd, NoneRanOutAt};
ghost use Rattle.bpf_explore.specs.Private.Ends.{unmarked};

use crate::edges::Edge;
use crate::explorer::Explorer;
use bpf_explore::marks::{either, mark_of, set_mark};
use std::alloc::AllocError;

/// Whether a move of a CPU leads to a marked machine.
fn leads_to_marked(edge: Edge, marks: &[bool]) -> bool
    requires turn { edge.turn < length marks.now }
    requires flush { IfSome edge.flush (λ k. k < length marks.now) }
    ensures leads { result ≡ true → (k : ℕ) × GoesTo edge k × (slice_get marks.now k ≡ Some true) }
    ensures none { result ≡ false → (k : ℕ) → GoesTo edge k → slice_get marks.now k ≡ Some false }
{
    if mark_of(marks, edge.turn as usize) {
        return true;
    }
    match edge.flush {
        Some(to) => mark_of(marks, to as usize),
        None => false,
    }
}

/// Where the moves of a CPU lead.
fn edge_of(edges: &[Edge], cpu: usize) -> Edge
    requires { cpu < length edges.now }
    ensures { slice_get edges.now cpu ≡ Some result }
{
    edges[cpu]
}

/// Whether a kept machine has ended, or some move leads from it to one that is marked.
fn leads_to_end(explorer: &Explorer, edges: &[Edge], marks: &[bool], place: usize) -> bool
    requires place { place < length explorer.now.kept }
    requires edges { AreEdgesFrom explorer.now.kept place edges.now }
    requires marks { length marks.now ≡ length explorer.now.kept }
    requires none { NoneRanOutAt explorer.now.kept place }
    ensures leads { result ≡ true → LeadToEnds explorer.now.kept marks.now
        → LeadsToEnd explorer.now.kept place }
    ensures stuck { result ≡ false → slice_get marks.now place ≡ Some false
        → IsStuckX86 explorer.now.kept marks.now place }
{
    if explorer.has_ended(place) {
        return true;
    }
    for cpu in 0..edges.len() {
        if leads_to_marked(edge_of(edges, cpu), marks) {
            return true;
        }
    }
    false
}

/// Marks a kept machine if an end is seen to be reached from it now. Whether it is, and wasn't.
fn mark_at(explorer: &Explorer, edges: &[Vec<Edge>], marks: &mut Vec<bool>, place: usize) -> bool
    requires place { place < length explorer.now.kept }
    requires edges { AreEdges explorer.now.kept edges.now }
    requires marks { length marks.old.items ≡ length explorer.now.kept }
    requires none { NoneRanOutAt explorer.now.kept place }
    requires lead { LeadToEnds explorer.now.kept marks.old.items }
    ensures marks { length marks.new.items ≡ length explorer.now.kept }
    ensures lead { LeadToEnds explorer.now.kept marks.new.items }
    ensures fewer { result ≡ true → unmarked marks.new.items < unmarked marks.old.items }
    ensures same { result ≡ false → marks.new.items ≡ marks.old.items }
    ensures stuck { result ≡ false → slice_get marks.old.items place ≡ Some false
        → IsStuckX86 explorer.now.kept marks.old.items place }
{
    if mark_of(marks, place) {
        return false;
    }
    if leads_to_end(explorer, &edges[place], marks, place) {
        set_mark(marks, place);
        return true;
    }
    false
}

/// Marks kept machines, from the last to the first, from which an end is seen to be reached now.
/// Whether some is marked that wasn't.
fn mark_more(explorer: &Explorer, edges: &[Vec<Edge>], marks: &mut Vec<bool>) -> bool
    requires edges { AreEdges explorer.now.kept edges.now }
    requires marks { length marks.old.items ≡ length explorer.now.kept }
    requires none { AllGoOn explorer.now.kept }
    requires lead { LeadToEnds explorer.now.kept marks.old.items }
    ensures marks { length marks.new.items ≡ length explorer.now.kept }
    ensures lead { LeadToEnds explorer.now.kept marks.new.items }
    ensures fewer { result ≡ true → unmarked marks.new.items < unmarked marks.old.items }
    ensures no_more { unmarked marks.new.items ≤ unmarked marks.old.items }
    ensures stuck { result ≡ false → AreStuckX86 explorer.now.kept marks.new.items }
{
    let mut more = false;
    let count = explorer.len();
    for step in 0..count {
        let marked = mark_at(explorer, edges, marks, count - 1 - step);
        more = either(more, marked);
    }
    more
}

/// Of each kept machine whether an end can be reached from it.
pub(crate) fn mark_ends(explorer: &Explorer, edges: &[Vec<Edge>]) -> Result<Vec<bool>, AllocError>
    requires edges { AreEdges explorer.now.kept edges.now }
    requires none { AllGoOn explorer.now.kept }
    ensures { IfOk result (λ marks. AreMarked explorer.now.kept marks.items) }
{
    let mut marks = vec![in explorer.alloc(); false; explorer.len()]?;
    let mut more = true;
    while more {
        more = mark_more(explorer, edges, &mut marks);
    }
    Ok(marks)
}
