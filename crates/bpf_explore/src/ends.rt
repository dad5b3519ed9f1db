//! From which kept machines of a patient search an end can be reached.

ghost use Rattle.std.specs.Prelude.{◌≡◌, ◌<◌, ◌≤◌, true, false, Some, IfOk, length, slice_get};
ghost use Rattle.bpf_equal.specs.Patient.{IsStuckPermuted, AreStuckPermuted};
ghost use Rattle.bpf_explore.specs.Album.{NoneRanOutAt};
ghost use Rattle.bpf_explore.specs.Private.Edges.{AreTurns};
ghost use Rattle.bpf_explore.specs.Private.Ends.{AllGoOn, LeadToEnds, LeadsToEnd, AreMarked, unmarked};

use crate::marks::{either, mark_of, set_mark};
use crate::patient::PatientExplorer;
use crate::turns::Turns;
use std::alloc::{AllocError, Global};

/// Whether a kept machine has ended, or some CPU's turn leads from it to one that is marked.
fn leads_to_end(explorer: &PatientExplorer, turns: &Turns, marks: &[bool], place: usize) -> bool
    requires place { place < length explorer.now.kept }
    requires turns { AreTurns explorer.now.kept turns.now }
    requires marks { length marks.now ≡ length explorer.now.kept }
    requires none { NoneRanOutAt explorer.now.kept place }
    ensures leads { result ≡ true → LeadToEnds turns.now.peers.items explorer.now.kept marks.now
        → LeadsToEnd turns.now.peers.items explorer.now.kept place }
    ensures stuck { result ≡ false → slice_get marks.now place ≡ Some false
        → IsStuckPermuted turns.now.peers.items explorer.now.kept marks.now place }
{
    if explorer.has_ended(place) {
        return true;
    }
    for cpu in 0..turns.cpus {
        let edge = turns.edge(place, cpu);
        if mark_of(marks, edge.to as usize) {
            return true;
        }
    }
    false
}

/// Marks a kept machine if an end is seen to be reached from it now. Whether it is, and wasn't.
fn mark_at(explorer: &PatientExplorer, turns: &Turns, marks: &mut Vec<bool>, place: usize) -> bool
    requires place { place < length explorer.now.kept }
    requires turns { AreTurns explorer.now.kept turns.now }
    requires marks { length marks.old.items ≡ length explorer.now.kept }
    requires none { NoneRanOutAt explorer.now.kept place }
    requires lead { LeadToEnds turns.now.peers.items explorer.now.kept marks.old.items }
    ensures marks { length marks.new.items ≡ length explorer.now.kept }
    ensures lead { LeadToEnds turns.now.peers.items explorer.now.kept marks.new.items }
    ensures fewer { result ≡ true → unmarked marks.new.items < unmarked marks.old.items }
    ensures same { result ≡ false → marks.new.items ≡ marks.old.items }
    ensures stuck { result ≡ false → slice_get marks.old.items place ≡ Some false
        → IsStuckPermuted turns.now.peers.items explorer.now.kept marks.old.items place }
{
    if mark_of(marks, place) {
        return false;
    }
    if leads_to_end(explorer, turns, marks, place) {
        set_mark(marks, place);
        return true;
    }
    false
}

/// Marks kept machines, from the last to the first, from which an end is seen to be reached now.
/// Whether some is marked that wasn't.
fn mark_more(explorer: &PatientExplorer, turns: &Turns, marks: &mut Vec<bool>) -> bool
    requires turns { AreTurns explorer.now.kept turns.now }
    requires marks { length marks.old.items ≡ length explorer.now.kept }
    requires none { AllGoOn explorer.now.kept }
    requires lead { LeadToEnds turns.now.peers.items explorer.now.kept marks.old.items }
    ensures marks { length marks.new.items ≡ length explorer.now.kept }
    ensures lead { LeadToEnds turns.now.peers.items explorer.now.kept marks.new.items }
    ensures fewer { result ≡ true → unmarked marks.new.items < unmarked marks.old.items }
    ensures no_more { unmarked marks.new.items ≤ unmarked marks.old.items }
    ensures stuck { result ≡ false → AreStuckPermuted turns.now.peers.items explorer.now.kept marks.new.items }
{
    let mut more = false;
    let count = explorer.len();
    for step in 0..count {
        let marked = mark_at(explorer, turns, marks, count - 1 - step);
        more = either(more, marked);
    }
    more
}

/// Of each kept machine whether an end can be reached from it.
pub(crate) fn mark_ends(
    alloc: Global,
    explorer: &PatientExplorer,
    turns: &Turns,
) -> Result<Vec<bool>, AllocError>
    requires turns { AreTurns explorer.now.kept turns.now }
    requires none { AllGoOn explorer.now.kept }
    ensures { IfOk result (λ marks. AreMarked turns.now.peers.items explorer.now.kept marks.items) }
{
    let mut marks = vec![in alloc; false; explorer.len()]?;
    let mut more = true;
    while more {
        more = mark_more(explorer, turns, &mut marks);
    }
    Ok(marks)
}
