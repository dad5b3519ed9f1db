//! States of a patient search from which no end can be reached.

ghost use Rattle.std.specs.Prelude.{◌≡◌, ◌<◌, ◌⊎◌, ◌+◌, ℕ, List, true, false, Some, IfOk, IfSome, IfNone, OnOk, length, slice_get};
ghost use Rattle.bpf_equal.specs.declared.peers.Peer.{Peer as PeerOf};
ghost use Rattle.bpf_equal.specs.Patient.{AreAllExchanged, AreStuckPermuted};
ghost use Rattle.bpf_explore.specs.Album.{NoneRanOutAt};
ghost use Rattle.bpf_explore.specs.Private.Answers.{StartsFresh};
ghost use Rattle.bpf_explore.specs.Private.Edges.{AreTurns};
ghost use Rattle.bpf_explore.specs.Private.Ends.{AllGoOn, AreMarked};
ghost use Rattle.bpf_explore.specs.Private.Hung.{Hangs, AllHang, ComesTo, LeadsOn, AllBeyondBelow, AllLeadOrBeyond, StaysFirst};
ghost use Rattle.bpf_explore.specs.Private.Replays.{CanRunOut};

use crate::ends::mark_ends;
use crate::exchanged::exchange_hung;
use crate::marks::mark_of;
use crate::patience::both;
use crate::patient::PatientExplorer;
use crate::turns::Turns;
use std::alloc::{AllocError, Global};
use std::marker::Model;

/// A state from which no end can be reached: a schedule that leads there.
#[derive(Drop)]
pub struct Hung {
    by: Vec<(u8, u64)>,
}

impl Model for Hung {
    ghost use Rattle.std.specs.Prelude.{ℕ, List};

    ghost Value = { List (ℕ × ℕ) };

    ghost view = { λ h. h.by.items };
}

impl Hung {
    /// A state to which this schedule leads.
    pub fn new(by: Vec<(u8, u64)>) -> Hung
        ensures { result ≡ by.items }
    {
        Hung { by }
    }

    /// The schedule: moves, each with how often it is made before the next.
    pub fn by(&self) -> &[(u8, u64)]
        ensures { result.now ≡ self.now }
    {
        &self.by
    }
}

/// Tries the schedule to a kept machine in which a job has ended out of budget: it uses a budget
/// up.
fn show_run_out(explorer: &mut PatientExplorer, place: usize) -> Result<(), AllocError>
    requires place { place < length explorer.old.kept }
    requires fresh { StartsFresh explorer.old.kept }
    requires out { NoneRanOutAt explorer.old.kept place → ⊥ }
    ensures same { explorer.new.kept ≡ explorer.old.kept }
    ensures peers { explorer.new.peers ≡ explorer.old.peers }
    ensures out { OnOk result (CanRunOut explorer.old.kept) }
{
    bpf_machine::laws::free_runs_agree();
    let by = explorer.way(place)?;
    let _ = explorer.replay(&by)?;
    Ok(())
}

/// Whether no kept machine has a job that ended out of budget. Where some has, the schedule to it
/// uses a budget up.
fn all_go_on(explorer: &mut PatientExplorer) -> Result<bool, AllocError>
    requires { StartsFresh explorer.old.kept }
    ensures same { explorer.new.kept ≡ explorer.old.kept }
    ensures peers { explorer.new.peers ≡ explorer.old.peers }
    ensures on { IfOk result (λ on. on ≡ true → AllGoOn explorer.old.kept) }
    ensures out { IfOk result (λ on. on ≡ false → CanRunOut explorer.old.kept) }
{
    for place in 0..explorer.len() {
        if !explorer.none_ran_out(place) {
            show_run_out(explorer, place)?;
            return Ok(false);
        }
    }
    Ok(true)
}

/// Whether no end can be reached from a kept machine, but from the one before it on its way.
fn is_first_hung(explorer: &PatientExplorer, marks: &[bool], place: usize) -> bool
    requires place { place < length marks.now }
    requires count { length marks.now ≡ length explorer.now.kept }
    ensures first { result ≡ true → slice_get marks.now place ≡ Some false }
    ensures later { result ≡ false → (slice_get marks.now place ≡ Some true)
        ⊎ ((i : ℕ) × (i < place) × (slice_get marks.now i ≡ Some false)
        × LeadsOn explorer.now.kept i place) }
{
    if mark_of(marks, place) {
        return false;
    }
    if place == 0 {
        return true;
    }
    mark_of(marks, explorer.came_from(place))
}

/// What is printed of a kept machine from which no end can be reached; `None` where the schedule to it
/// uses a budget up.
fn hung_at(
    explorer: &mut PatientExplorer,
    marks: &[bool],
    place: usize,
) -> Result<Option<Hung>, AllocError>
    requires place { place < length explorer.old.kept }
    requires stuck { (peers : List PeerOf)
        × AreStuckPermuted peers explorer.old.kept marks.now }
    requires unmarked { slice_get marks.now place ≡ Some false }
    ensures same { explorer.new.kept ≡ explorer.old.kept }
    ensures peers { explorer.new.peers ≡ explorer.old.peers }
    ensures hung { IfOk result (λ found. IfSome found (Hangs explorer.old.kept)) }
    ensures there { IfOk result (λ found. IfSome found (λ by. ComesTo explorer.old.kept by place)) }
    ensures out { IfOk result (λ found. IfNone found (CanRunOut explorer.old.kept)) }
{
    bpf_equal::laws::permuted_stuck_are_hung();
    bpf_machine::laws::free_runs_agree();
    let _ = marks.len();
    let by = explorer.way(place)?;
    if explorer.replay(&by)? {
        return Ok(None);
    }
    Ok(Some(Hung { by }))
}

/// Appends what is printed of a kept machine to the others, if it is the first on its way. Whether
/// that can be: not where the schedule to it uses a budget up.
fn add_hung(
    explorer: &mut PatientExplorer,
    marks: &[bool],
    place: usize,
    hung: &mut Vec<Hung>,
) -> Result<bool, AllocError>
    requires marked { (peers : List PeerOf) × AreMarked peers explorer.old.kept marks.now }
    requires place { place < length marks.now }
    ensures same { explorer.new.kept ≡ explorer.old.kept }
    ensures peers { explorer.new.peers ≡ explorer.old.peers }
    ensures hung { OnOk result (AllHang explorer.old.kept hung.old.items
        → AllHang explorer.old.kept hung.new.items) }
    ensures listed { IfOk result (λ fits. fits ≡ true
        → AllBeyondBelow explorer.old.kept marks.now hung.old.items place
        → AllBeyondBelow explorer.old.kept marks.now hung.new.items (place + 1)) }
    ensures out { IfOk result (λ fits. fits ≡ false → CanRunOut explorer.old.kept) }
{
    if !is_first_hung(explorer, marks, place) {
        return Ok(true);
    }
    let Some(found) = hung_at(explorer, marks, place)? else {
        return Ok(false);
    };
    hung.push(found)?;
    Ok(true)
}

/// Those that are the first on their ways, in the order in which the search came to them, and
/// whether all schedules to them fit the budgets.
fn list_hung(
    alloc: Global,
    explorer: &mut PatientExplorer,
    marks: &[bool],
) -> Result<(Vec<Hung>, bool), AllocError>
    requires { (peers : List PeerOf) × AreMarked peers explorer.old.kept marks.now }
    ensures same { explorer.new.kept ≡ explorer.old.kept }
    ensures peers { explorer.new.peers ≡ explorer.old.peers }
    ensures hung { IfOk result (λ r. AllHang explorer.old.kept r.0.items) }
    ensures listed { IfOk result (λ r. r.1 ≡ true
        → AllBeyondBelow explorer.old.kept marks.now r.0.items (length marks.now)) }
    ensures out { IfOk result (λ r. r.1 ≡ false → CanRunOut explorer.old.kept) }
{
    let mut hung = Vec::new(alloc);
    let mut fit = true;
    for place in 0..marks.len() {
        let fits = add_hung(explorer, marks, place, &mut hung)?;
        fit = both(fit, fits);
    }
    Ok((hung, fit))
}

/// Those that are first on their ways, and those with equal jobs exchanged, where no kept machine has a job
/// that is out of budget. Where all schedules fit, each kept machine leads to an end, or turns lead to it
/// from one that is printed.
pub(crate) fn gather_hung(
    alloc: Global,
    explorer: &mut PatientExplorer,
    turns: &Turns,
) -> Result<(Vec<Hung>, bool), AllocError>
    requires fresh { StartsFresh explorer.old.kept }
    requires turns { AreTurns explorer.old.kept turns.now }
    requires stays { StaysFirst turns.now.peers.items explorer.old.kept }
    ensures same { explorer.new.kept ≡ explorer.old.kept }
    ensures peers { explorer.new.peers ≡ explorer.old.peers }
    ensures hung { IfOk result (λ r. AllHang explorer.old.kept r.0.items) }
    ensures ends { IfOk result (λ r. r.1 ≡ true
        → AllLeadOrBeyond turns.now.peers.items explorer.old.kept r.0.items) }
    ensures exchanged { IfOk result (λ r. AreAllExchanged turns.now.peers.items r.0.items) }
    ensures out { IfOk result (λ r. r.1 ≡ false → CanRunOut explorer.old.kept) }
{
    if !all_go_on(explorer)? {
        return Ok((Vec::new(alloc), false));
    }
    let marks = mark_ends(alloc, explorer, turns)?;
    let (mut hung, fit) = list_hung(alloc, explorer, &marks)?;
    exchange_hung(alloc, &turns.peers, &mut hung)?;
    Ok((hung, fit))
}
