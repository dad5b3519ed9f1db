//! Searches before their first turn.

ghost use Rattle.std.specs.Prelude.{◌≡◌, [], IfOk, None};
ghost use Rattle.bpf_cpu.specs.Setup.{IsRunnable};
ghost use Rattle.bpf_machine.specs.Machine.{Shows};
ghost use Rattle.bpf_jobs.specs.Printed.{first_of};
ghost use Rattle.bpf_explore.specs.Album.{BeginsAt};
ghost use Rattle.bpf_explore.specs.Stores.{IsOfShape};

use crate::crew::Crew;
use crate::explorer::Explorer;
use crate::patient::PatientExplorer;
use crate::permuted::PermutedExplorer;
use bpf_alike::Merged;
use bpf_cpu::Setup;
use bpf_jobs::make_machine;
use bpf_machine::Machine;
use bpf_plain::copy_shape;
use bpf_shared::StoreShape;
use std::alloc::{AllocError, Global};

/// The machine of jobs over a new store, in which they all wait, and a copy of the store's shape.
/// Out of memory is the only refusal.
pub fn first_machine(alloc: Global, setup: Setup) -> Result<(StoreShape, Machine), AllocError>
    requires { IsRunnable setup }
    ensures copy { IfOk result (λ r. r.0 ≡ setup.shape) }
    ensures shape { IfOk result (λ r. IsOfShape r.0 r.1.store) }
    ensures lists { IfOk result (λ r. r.1.lists ≡ None) }
    ensures machine { IfOk result (λ r. Shows r.1 (first_of setup)) }
{
    let shape = copy_shape(alloc, &setup.shape)?;
    let machine = make_machine(alloc, setup)?;
    Ok((shape, machine))
}

/// How far a search goes, which states it takes for one, and who makes turns ahead of it.
#[derive(Drop)]
pub struct Scope<'a, C: Crew> {
    /// The search ends once more states than this are kept.
    pub limit: usize,
    pub merged: Merged,
    pub crew: &'a C,
}

/// A search that begins with the machine of jobs. Out of memory is the only refusal.
pub fn search_of(alloc: Global, setup: Setup, merged: Merged) -> Result<Explorer, AllocError>
    requires { IsRunnable setup }
    ensures { IfOk result (λ e. BeginsAt e.kept (first_of setup)) }
{
    let (shape, machine) = first_machine(alloc, setup)?;
    Explorer::new(alloc, shape, machine, merged)
}

/// A search that begins with the machine of jobs, in which equal jobs count as one where states are
/// merged. Out of memory is the only refusal.
pub fn permuted_search_of(
    alloc: Global,
    setup: Setup,
    merged: Merged,
) -> Result<PermutedExplorer, AllocError>
    requires { IsRunnable setup }
    ensures { IfOk result (λ p. BeginsAt p.found.kept (first_of setup)) }
{
    let explorer = search_of(alloc, setup, merged)?;
    let permuted = PermutedExplorer::new(alloc, explorer, merged)?;
    Ok(permuted)
}

/// A patient search that begins with the machine of jobs, and has made no turn. No jobs count as equal.
/// Out of memory is the only refusal.
fn patient_search_of(
    alloc: Global,
    setup: Setup,
    merged: Merged,
) -> Result<PatientExplorer, AllocError>
    requires { IsRunnable setup }
    ensures begins { IfOk result (λ e. BeginsAt e.kept (first_of setup)) }
    ensures none { IfOk result (λ e. e.made ≡ []) }
    ensures apart { IfOk result (λ e. e.peers ≡ []) }
{
    let (shape, machine) = first_machine(alloc, setup)?;
    PatientExplorer::new(alloc, shape, machine, merged)
}

/// A patient search that begins so, in which equal jobs count as one where states are merged. Out of memory
/// is the only refusal.
pub fn permuted_patient_search_of(
    alloc: Global,
    setup: Setup,
    merged: Merged,
) -> Result<PatientExplorer, AllocError>
    requires { IsRunnable setup }
    ensures begins { IfOk result (λ e. BeginsAt e.kept (first_of setup)) }
    ensures none { IfOk result (λ e. e.made ≡ []) }
{
    let mut explorer = patient_search_of(alloc, setup, merged)?;
    explorer.find_equal(merged)?;
    Ok(explorer)
}
