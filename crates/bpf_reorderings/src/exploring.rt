//! Every outcome of jobs on CPUs with store buffers.

ghost use Rattle.std.specs.Prelude.{◌≡◌, ℕ, true, false, IfOk, OnOk};
ghost use Rattle.bpf_names.specs.Names.{names_of};
ghost use Rattle.bpf_cpu.specs.Setup.{IsRunnable};
ghost use Rattle.bpf_machine.specs.Schedule.{World};
ghost use Rattle.bpf_jobs.specs.Printed.{first_of};
ghost use Rattle.bpf_reorderings.specs.Outcomes.{IsExploredX86};
ghost use Rattle.bpf_reorderings.specs.Patient.{IsExploredPatientlyX86};
ghost use Rattle.bpf_reorderings.specs.Private.Answers.{CanRunOut, budgets_found};
ghost use Rattle.bpf_reorderings.specs.Private.Hung.{AllHang, AllLeadOrBeyond};
ghost use Rattle.bpf_reorderings.specs.Private.Searching.{BeginsAt, CameTo};

use crate::answers::{Told, gather};
use crate::explorer::Explorer;
use crate::hung::{both, gather_hung};
use bpf_alike::Merged;
use bpf_cpu::Setup;
use bpf_explore::{Budgets, Explored, ExploredPatiently, Extent, Hung, Observer};
use bpf_flushes::make_buffering;
use bpf_names::Names;
use std::alloc::{AllocError, Global};

/// How far a search goes, and which states it takes for one.
#[derive(Clone, Copy, PartialEq, Eq, Debug)]
pub struct Bounds {
    /// The search ends once more states than this are kept.
    pub limit: usize,
    pub merged: Merged,
}

/// A search that begins with the machine of jobs. Out of memory is the only refusal.
fn search_of(
    alloc: Global,
    setup: Setup,
    patient: bool,
    merged: Merged,
) -> Result<Explorer, AllocError>
    requires { IsRunnable setup }
    ensures begins { IfOk result (λ e. BeginsAt e.kept (first_of setup)) }
    ensures patient { IfOk result (λ e. e.patient ≡ patient) }
{
    let machine = make_buffering(alloc, setup)?;
    Explorer::new(alloc, machine, patient, merged)
}

/// What a search found that came this far.
fn conclude(
    explorer: &mut Explorer,
    names: &Names,
    maps: bool,
    extent: Extent,
) -> Result<Explored, AllocError>
    requires begins { (w : World) × BeginsAt explorer.old.kept w }
    requires patient { explorer.old.patient ≡ false }
    ensures { IfOk result (λ e. (w : World) (limit : ℕ) → BeginsAt explorer.old.kept w
        → CameTo false explorer.old.kept extent limit
        → IsExploredX86 w (names_of names.now) maps limit e) }
{
    bpf_buffering::laws::ahead_sets_cover_x86();
    explorer.leads();
    let Told { answers, .. } = gather(explorer, names, maps)?;
    let states = explorer.len();
    Ok(Explored {
        answers,
        all: extent.is_whole(),
        refused: extent.is_refused(),
        states,
    })
}

/// Whether some schedule uses a budget up, where that is known: one does where a schedule to a kept machine
/// doesn't fit.
fn budgets_by(whole: bool) -> Budgets
    ensures { result ≡ budgets_found whole }
{
    if whole {
        Budgets::Unknown
    } else {
        Budgets::RunOut
    }
}

/// What is hung, and whether a schedule to it uses a budget up: nothing is printed where states are
/// left out.
fn find_hung(explorer: &mut Explorer, whole: bool) -> Result<(Vec<Hung>, bool), AllocError>
    requires patient { explorer.old.patient ≡ true }
    requires begins { (w : World) × BeginsAt explorer.old.kept w }
    ensures same { OnOk result (explorer.new.kept ≡ explorer.old.kept) }
    ensures hung { IfOk result (λ r. AllHang explorer.old.kept r.0.items) }
    ensures ends { IfOk result (λ r. whole ≡ true → r.1 ≡ true
        → AllLeadOrBeyond explorer.old.kept r.0.items) }
    ensures out { IfOk result (λ r. r.1 ≡ false → CanRunOut explorer.old.kept) }
{
    if whole {
        gather_hung(explorer)
    } else {
        Ok((Vec::new(explorer.alloc()), true))
    }
}

/// What a patient search found that came this far.
fn conclude_patiently(
    explorer: &mut Explorer,
    names: &Names,
    maps: bool,
    extent: Extent,
) -> Result<ExploredPatiently, AllocError>
    requires begins { (w : World) × BeginsAt explorer.old.kept w }
    requires patient { explorer.old.patient ≡ true }
    ensures { IfOk result (λ e. (w : World) (limit : ℕ) → BeginsAt explorer.old.kept w
        → CameTo true explorer.old.kept extent limit
        → IsExploredPatientlyX86 w (names_of names.now) maps limit e) }
{
    bpf_patience::laws::patient_sets_cover_x86();
    bpf_patience::laws::patient_sets_lead_on();
    bpf_patience::laws::x86s_can_end();
    explorer.leads();
    let whole = extent.is_whole();
    let Told {
        answers,
        whole: told,
    } = gather(explorer, names, maps)?;
    let (hung, fit) = find_hung(explorer, whole)?;
    let all_fit = both(told, fit);
    let states = explorer.len();
    Ok(ExploredPatiently {
        answers,
        all: both(whole, all_fit),
        refused: extent.is_refused(),
        states,
        hung,
        budgets: budgets_by(all_fit),
    })
}

/// Searches through all schedules of turns and flushes of jobs over a new store whose maps, and then
/// arrays, have these names, until no state is new, more than its limit are kept, or memory is
/// refused to the search. Out of memory before or after it is the only refusal.
/// The observer learns meanwhile how far it is.
pub fn explore_with_buffers<O: Observer>(
    alloc: Global,
    setup: Setup,
    names: &Names,
    maps: bool,
    bounds: Bounds,
    observer: &mut O,
) -> Result<Explored, AllocError>
    requires { IsRunnable setup }
    ensures { IfOk result (IsExploredX86 (first_of setup) (names_of names.now) maps bounds.limit) }
{
    let mut explorer = search_of(alloc, setup, false, bounds.merged)?;
    let extent = explorer.explore(bounds.limit, observer);
    conclude(&mut explorer, names, maps, extent)
}

/// What jobs may reach with store buffers while none is out of budget: machines that differ only in how
/// many steps are left of budgets count as one. The outcomes aren't all either where a schedule that was found uses a
/// budget up, which is reported then. Besides, states from which no end can be reached, however many steps
/// jobs are given.
pub fn explore_patiently_with_buffers<O: Observer>(
    alloc: Global,
    setup: Setup,
    names: &Names,
    maps: bool,
    bounds: Bounds,
    observer: &mut O,
) -> Result<ExploredPatiently, AllocError>
    requires { IsRunnable setup }
    ensures { IfOk result
        (IsExploredPatientlyX86 (first_of setup) (names_of names.now) maps bounds.limit) }
{
    let mut explorer = search_of(alloc, setup, true, bounds.merged)?;
    let extent = explorer.explore(bounds.limit, observer);
    conclude_patiently(&mut explorer, names, maps, extent)
}
