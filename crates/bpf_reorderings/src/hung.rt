//! States of a patient search from which no end can be reached.

ghost use Rattle.std.specs.Prelude.{◌≡◌, ◌<◌, ◌⊎◌, ◌+◌, ℕ, true, false, Some, IfOk, IfSome, IfNone, OnOk, length, slice_get};
ghost use Rattle.bpf_machine.specs.Schedule.{World};
ghost use Rattle.bpf_patience.specs.Ends.{AreStuckX86};
ghost use Rattle.bpf_reorderings.specs.Private.Answers.{CanRunOut};
ghost use Rattle.bpf_reorderings.specs.Private.Hung.{AllGoOn, AllBeyondBelow, AllHang, AllLeadOrBeyond, AreMarked, ComesTo, Hangs, NoneRanOutAt};
ghost use Rattle.bpf_reorderings.specs.Private.Searching.{BeginsAt};
ghost use Rattle.bpf_reorderings.specs.Private.Trail.{LeadsOn};

use crate::edges::find_edges;
use crate::ends::mark_ends;
use crate::explorer::Explorer;
use crate::trying::{some_ran_out, uses_up};
use bpf_explore::Hung;
use bpf_explore::marks::mark_of;
use std::alloc::AllocError;

/// Whether no job of a kept machine has ended out of budget.
fn none_ran_out(explorer: &mut Explorer, place: usize) -> Result<bool, AllocError>
    requires { place < length explorer.old.kept }
    ensures same { explorer.new.kept ≡ explorer.old.kept }
    ensures patient { explorer.new.patient ≡ explorer.old.patient }
    ensures none { IfOk result (λ none. none ≡ true → NoneRanOutAt explorer.old.kept place) }
    ensures out { IfOk result (λ none. none ≡ false
        → NoneRanOutAt explorer.old.kept place → ⊥) }
{
    explorer.restore(place)?;
    Ok(!some_ran_out(explorer.machine()))
}

/// Tries the schedule to a kept machine in which a job has ended out of budget: it uses a budget
/// up.
fn show_run_out(explorer: &mut Explorer, place: usize) -> Result<(), AllocError>
    requires patient { explorer.old.patient ≡ true }
    requires place { place < length explorer.old.kept }
    requires begins { (w : World) × BeginsAt explorer.old.kept w }
    requires out { NoneRanOutAt explorer.old.kept place → ⊥ }
    ensures same { explorer.new.kept ≡ explorer.old.kept }
    ensures patient { explorer.new.patient ≡ explorer.old.patient }
    ensures out { OnOk result (CanRunOut explorer.old.kept) }
{
    bpf_patience::laws::free_moves_agree();
    let by = explorer.way(place)?;
    let _ = uses_up(explorer, &by)?;
    Ok(())
}

/// Whether no kept machine has a job that ended out of budget. Where some has, the schedule to it
/// uses a budget up.
fn all_go_on(explorer: &mut Explorer) -> Result<bool, AllocError>
    requires patient { explorer.old.patient ≡ true }
    requires begins { (w : World) × BeginsAt explorer.old.kept w }
    ensures same { explorer.new.kept ≡ explorer.old.kept }
    ensures patient { explorer.new.patient ≡ explorer.old.patient }
    ensures on { IfOk result (λ on. on ≡ true → AllGoOn explorer.old.kept) }
    ensures out { IfOk result (λ on. on ≡ false → CanRunOut explorer.old.kept) }
{
    for place in 0..explorer.len() {
        if !none_ran_out(explorer, place)? {
            show_run_out(explorer, place)?;
            return Ok(false);
        }
    }
    Ok(true)
}

/// Whether no end can be reached from a kept machine, but from the one before it on its way.
fn is_first_hung(explorer: &Explorer, marks: &[bool], place: usize) -> bool
    requires place { place < length marks.now }
    requires count { length marks.now ≡ length explorer.now.kept }
    ensures first { result ≡ true → slice_get marks.now place ≡ Some false }
    ensures later { result ≡ false → (slice_get marks.now place ≡ Some true)
        ⊎ ((i : ℕ) × (i < place) × (slice_get marks.now i ≡ Some false)
        × LeadsOn explorer.now.patient explorer.now.kept i place) }
{
    if mark_of(marks, place) {
        return false;
    }
    if place == 0 {
        return true;
    }
    mark_of(marks, explorer.came_from(place))
}

/// What is printed of a kept machine from which no end can be reached; `None` where the schedule to it
/// uses a budget up.
fn hung_at(
    explorer: &mut Explorer,
    marks: &[bool],
    place: usize,
) -> Result<Option<Hung>, AllocError>
    requires patient { explorer.old.patient ≡ true }
    requires place { place < length explorer.old.kept }
    requires stuck { AreStuckX86 explorer.old.kept marks.now }
    requires unmarked { slice_get marks.now place ≡ Some false }
    ensures same { explorer.new.kept ≡ explorer.old.kept }
    ensures patient { explorer.new.patient ≡ explorer.old.patient }
    ensures hung { IfOk result (λ found. IfSome found (Hangs explorer.old.kept)) }
    ensures there { IfOk result (λ found. IfSome found (λ by. ComesTo explorer.old.kept by place)) }
    ensures out { IfOk result (λ found. IfNone found (CanRunOut explorer.old.kept)) }
{
    bpf_patience::laws::stuck_x86s_are_hung();
    bpf_patience::laws::free_moves_agree();
    let _ = marks.len();
    let by = explorer.way(place)?;
    if uses_up(explorer, &by)? {
        return Ok(None);
    }
    Ok(Some(Hung::new(by)))
}

/// Appends what is printed of a kept machine to the others, if it is the first on its way. Whether
/// that can be: not where the schedule to it uses a budget up.
fn add_hung(
    explorer: &mut Explorer,
    marks: &[bool],
    place: usize,
    hung: &mut Vec<Hung>,
) -> Result<bool, AllocError>
    requires patient { explorer.old.patient ≡ true }
    requires marked { AreMarked explorer.old.kept marks.now }
    requires place { place < length marks.now }
    ensures same { explorer.new.kept ≡ explorer.old.kept }
    ensures patient { explorer.new.patient ≡ explorer.old.patient }
    ensures hung { OnOk result (AllHang explorer.old.kept hung.old.items
        → AllHang explorer.old.kept hung.new.items) }
    ensures listed { IfOk result (λ fits. fits ≡ true
        → AllBeyondBelow explorer.old.kept marks.now hung.old.items place
        → AllBeyondBelow explorer.old.kept marks.now hung.new.items (place + 1)) }
    ensures out { IfOk result (λ fits. fits ≡ false → CanRunOut explorer.old.kept) }
{
    if !is_first_hung(explorer, marks, place) {
        return Ok(true);
    }
    let Some(found) = hung_at(explorer, marks, place)? else {
        return Ok(false);
    };
    hung.push(found)?;
    Ok(true)
}

/// Whether both hold.
pub(crate) fn both(first: bool, second: bool) -> bool
    ensures both { result ≡ true → (first ≡ true) × (second ≡ true) }
    ensures not { result ≡ false → (first ≡ false) ⊎ (second ≡ false) }
{
    first && second
}

/// Those that are the first on their ways, in the order in which the search came to them, and
/// whether all schedules to them fit the budgets.
fn list_hung(explorer: &mut Explorer, marks: &[bool]) -> Result<(Vec<Hung>, bool), AllocError>
    requires patient { explorer.old.patient ≡ true }
    requires marked { AreMarked explorer.old.kept marks.now }
    ensures same { explorer.new.kept ≡ explorer.old.kept }
    ensures patient { explorer.new.patient ≡ explorer.old.patient }
    ensures hung { IfOk result (λ r. AllHang explorer.old.kept r.0.items) }
    ensures listed { IfOk result (λ r. r.1 ≡ true
        → AllBeyondBelow explorer.old.kept marks.now r.0.items (length marks.now)) }
    ensures out { IfOk result (λ r. r.1 ≡ false → CanRunOut explorer.old.kept) }
{
    let mut hung = Vec::new(explorer.alloc());
    let mut fit = true;
    for place in 0..marks.len() {
        let fits = add_hung(explorer, marks, place, &mut hung)?;
        fit = both(fit, fits);
    }
    Ok((hung, fit))
}

/// Those that are first on their ways, where no kept machine has a job that is out of budget. Where all
/// schedules fit, each kept machine leads to an end, or moves lead to it from one that is printed.
pub(crate) fn gather_hung(explorer: &mut Explorer) -> Result<(Vec<Hung>, bool), AllocError>
    requires patient { explorer.old.patient ≡ true }
    requires begins { (w : World) × BeginsAt explorer.old.kept w }
    ensures same { OnOk result (explorer.new.kept ≡ explorer.old.kept) }
    ensures hung { IfOk result (λ r. AllHang explorer.old.kept r.0.items) }
    ensures ends { IfOk result (λ r. r.1 ≡ true → AllLeadOrBeyond explorer.old.kept r.0.items) }
    ensures out { IfOk result (λ r. r.1 ≡ false → CanRunOut explorer.old.kept) }
{
    if !all_go_on(explorer)? {
        return Ok((Vec::new(explorer.alloc()), false));
    }
    let edges = find_edges(explorer)?;
    let marks = mark_ends(explorer, &edges)?;
    let (hung, fit) = list_hung(explorer, &marks)?;
    Ok((hung, fit))
}
