//! Every race of jobs: the search from a shape and its jobs.

ghost use Rattle.std.specs.Prelude.{◌≡◌, [], false, true, ℕ, IfOk};
ghost use Rattle.bpf_cpu.specs.Setup.{IsRunnable};
ghost use Rattle.bpf_machine.specs.Schedule.{World};
ghost use Rattle.bpf_jobs.specs.Printed.{first_of};
ghost use Rattle.bpf_explore.specs.Album.{BeginsAt};
ghost use Rattle.bpf_explore.specs.Search.{CameTo, Permuted, Richly};
ghost use Rattle.bpf_x86.specs.Laws.{FirstsFit};
ghost use Rattle.bpf_races.specs.Races.{AreRaces};

use crate::exchanging::exchange_races;
use crate::found::Race;
use crate::gathering::{both, gather_races};
use crate::next::Watcher;
use crate::sync::Part;
use bpf_alike::Merged;
use bpf_cpu::Setup;
use bpf_explore::{
    Crew, Extent, Observer, PatientExplorer, PermutedExplorer, Scope, explore,
    permuted_patient_search_of, permuted_search_of,
};
use bpf_plain::copy_shape;
use bpf_shared::StoreShape;
use std::alloc::{AllocError, Global};

/// The races that schedules lead to.
#[derive(Drop)]
pub struct Races {
    /// In the order in which the search came to them, each between two places for one value once.
    pub list: Vec<Race>,
    /// Whether none is left out.
    pub all: bool,
    /// Whether the search ended because memory ran out.
    pub refused: bool,
}

/// One for machines over stores of this shape.
fn make_watcher(alloc: Global, shape: &StoreShape) -> Result<Watcher, AllocError> {
    let copy = copy_shape(alloc, shape)?;
    Watcher::new(alloc, copy)
}

/// A search that begins with the machine of jobs, and what watches its machines.
fn begin(
    alloc: Global,
    setup: Setup,
    merged: Merged,
) -> Result<(Watcher, PermutedExplorer), AllocError>
    requires { IsRunnable setup }
    ensures { IfOk result (λ r. BeginsAt r.1.found.kept (first_of setup)) }
{
    let watcher = make_watcher(alloc, &setup.shape)?;
    let explorer = permuted_search_of(alloc, setup, merged)?;
    Ok((watcher, explorer))
}

/// A patient search that begins with the machine of jobs, and what watches its machines.
fn begin_patiently(
    alloc: Global,
    setup: Setup,
    merged: Merged,
) -> Result<(Watcher, PatientExplorer), AllocError>
    requires { IsRunnable setup }
    ensures { IfOk result (λ r. BeginsAt r.1.kept (first_of setup)) }
{
    let watcher = make_watcher(alloc, &setup.shape)?;
    let explorer = permuted_patient_search_of(alloc, setup, merged)?;
    Ok((watcher, explorer))
}

/// The races of the machines that a search keeps which came this far, and those with equal CPUs
/// exchanged.
fn conclude(
    alloc: Global,
    explorer: PermutedExplorer,
    watcher: &mut Watcher,
    sync: &[Part],
    extent: Extent,
) -> Result<Races, AllocError>
    ensures { IfOk result (λ r. (w : World) (limit : ℕ) → FirstsFit w.programs
        → BeginsAt explorer.found.kept w
        → CameTo (Permuted explorer.peers) explorer.found.kept extent limit
        → AreRaces false w sync.now r.list.items r.all r.refused limit) }
{
    bpf_equal::laws::permuted_races_are_kept();
    bpf_equal::laws::permuted_sets_have_turns();
    bpf_x86::laws::turning_race_free_is_same();
    let (mut found, peers) = explorer.into_parts();
    found.leads();
    found.apart();
    let (races, listed) = gather_races(alloc, &mut found, watcher, sync)?;
    let list = exchange_races(alloc, &peers, &races)?;
    let all = both(extent.is_whole(), listed);
    Ok(Races {
        list,
        all,
        refused: extent.is_refused(),
    })
}

/// The races of the machines that a patient search keeps which came this far, and those with equal CPUs
/// exchanged.
fn conclude_patiently(
    alloc: Global,
    explorer: &mut PatientExplorer,
    watcher: &mut Watcher,
    sync: &[Part],
    extent: Extent,
) -> Result<Races, AllocError>
    ensures { IfOk result (λ r. (w : World) (limit : ℕ) → FirstsFit w.programs
        → BeginsAt explorer.old.kept w
        → CameTo (Richly explorer.old.peers) explorer.old.kept extent limit
        → AreRaces true w sync.now r.list.items r.all r.refused limit) }
{
    bpf_equal::laws::permuted_patient_races_are_kept();
    bpf_equal::laws::permuted_patient_sets_have_turns();
    bpf_x86::laws::turning_race_free_is_same();
    let peers = explorer.copy_peers()?;
    let (races, listed) = gather_races(alloc, explorer, watcher, sync)?;
    let list = exchange_races(alloc, &peers, &races)?;
    let all = both(extent.is_whole(), listed);
    Ok(Races {
        list,
        all,
        refused: extent.is_refused(),
    })
}

/// Searches through all schedules of jobs over a new store, until no state is new, more are kept than
/// the limit or memory is refused to the search, for races at bytes that aren't left out.
/// Refused means out of memory before or after it; cases that never come count as such, but no
/// contract rules them out. The observer learns meanwhile how far the search is. Where states are merged,
/// machines that differ only in which of several equal CPUs is how far count as one, and each race is
/// found with these exchanged too.
pub fn find_races<C: Crew, O: Observer>(
    alloc: Global,
    setup: Setup,
    sync: &[Part],
    scope: Scope<'_, C>,
    observer: &mut O,
) -> Result<Races, AllocError>
    requires crew { C.can }
    requires runs { IsRunnable setup }
    ensures { IfOk result (λ r. AreRaces false (first_of setup) sync.now r.list.items r.all
        r.refused scope.entry.limit) }
{
    bpf_x86::firsts_fit(&setup.programs);
    let (mut watcher, mut explorer) = begin(alloc, setup, scope.merged)?;
    let extent = explore(&mut explorer, scope.crew, scope.limit, observer);
    conclude(alloc, explorer, &mut watcher, sync, extent)
}

/// Searches likewise through what schedules lead to while no job runs out of budget: machines that
/// differ only in how many steps are left of budgets count as one. Where states are merged, equal CPUs are
/// exchanged as above.
pub fn find_races_patiently<C: Crew, O: Observer>(
    alloc: Global,
    setup: Setup,
    sync: &[Part],
    scope: Scope<'_, C>,
    observer: &mut O,
) -> Result<Races, AllocError>
    requires crew { C.can }
    requires runs { IsRunnable setup }
    ensures { IfOk result (λ r. AreRaces true (first_of setup) sync.now r.list.items r.all
        r.refused scope.entry.limit) }
{
    bpf_x86::firsts_fit(&setup.programs);
    let (mut watcher, mut explorer) = begin_patiently(alloc, setup, scope.merged)?;
    let extent = explore(&mut explorer, scope.crew, scope.limit, observer);
    conclude_patiently(alloc, &mut explorer, &mut watcher, sync, extent)
}
