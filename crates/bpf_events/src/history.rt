//! Jobs from their beginning to their history and what is printed of them.

ghost use Rattle.std.specs.Prelude.{◌≡◌, IfOk, string_bytes};
ghost use Rattle.bpf_names.specs.Names.{names_of};
ghost use Rattle.bpf_plain.specs.Alike.{IsSameShape};
ghost use Rattle.bpf_cpu.specs.Setup.{IsRunnable};
ghost use Rattle.bpf_machine.specs.Machine.{Shows};
ghost use Rattle.bpf_machine.specs.Schedule.{World};
ghost use Rattle.bpf_jobs.specs.Printed.{asked_of};
ghost use Rattle.bpf_events.specs.Private.Recording.{IsRecorderOf};
ghost use Rattle.bpf_events.specs.Reports.{IsHistory};

use crate::recorder::Recorder;
use crate::telling::{make_rounds, make_turns};
use bpf_cpu::Setup;
use bpf_jobs::{Report, make_asked, tell};
use bpf_machine::Machine;
use bpf_names::Names;
use bpf_plain::{PlainStore, copy_shape};
use bpf_shared::StoreShape;
use std::alloc::{AllocError, Global};

/// A recorder over a new store of this shape.
fn make_recorder(alloc: Global, shape: &StoreShape) -> Result<Recorder, AllocError>
    ensures { IfOk result (IsRecorderOf shape.now) }
{
    let copy = copy_shape(alloc, shape)?;
    let store = PlainStore::new(alloc, copy).map_err(|_| AllocError)?;
    Ok(Recorder::new(alloc, store))
}

/// The machine of jobs over a new store, and a recorder over another of its shape.
fn begin(alloc: Global, setup: Setup, keys: bool) -> Result<(Machine, Recorder), AllocError>
    requires { IsRunnable setup }
    ensures shows { IfOk result (λ r. Shows r.0 (asked_of keys setup)) }
    ensures shape { IfOk result (λ r. IsSameShape r.0.store r.1.store) }
{
    let recorder = make_recorder(alloc, &setup.shape)?;
    let machine = make_asked(alloc, setup, keys)?;
    Ok((machine, recorder))
}

/// The history of a machine, and after it what is printed of its jobs.
fn history_of(
    alloc: Global,
    machine: &mut Machine,
    recorder: &mut Recorder,
    names: &Names,
    schedule: &[(u8, u64)],
    maps: bool,
) -> Result<Report, AllocError>
    requires shape { IsSameShape machine.old.store recorder.old.store }
    requires shows { (w : World) × Shows machine.old w }
    ensures { IfOk result (λ r. (w : World) → Shows machine.old w → IsHistory w schedule.now
        (names_of names.now) maps (string_bytes r.text) r.stopped) }
{
    let mut text = String::new(alloc);
    make_turns(alloc, machine, recorder, &mut text, &names.maps, schedule)?;
    make_rounds(alloc, machine, recorder, &mut text, &names.maps)?;
    let report = tell(alloc, machine, names, maps)?;
    text.push_str(report.text.as_str())?;
    let stopped = report.stopped;
    Ok(Report { text, stopped })
}

/// Runs jobs over a new store whose maps, arrays and variables have these names: the turns of a schedule, CPUs, each with
/// how many it takes before the next, and then rounds until each job has ended. The text has a line
/// for each event at the store, in their order, and after them what `run_jobs_by` of bpf_jobs
/// shows. Out of memory is the only refusal.
pub fn run_with_history(
    alloc: Global,
    setup: Setup,
    names: &Names,
    schedule: &[(u8, u64)],
    keys: bool,
    maps: bool,
) -> Result<Report, AllocError>
    requires { IsRunnable setup }
    ensures { IfOk result (λ r. IsHistory (asked_of keys setup) schedule.now
        (names_of names.now) maps (string_bytes r.text) r.stopped) }
{
    let (mut machine, mut recorder) = begin(alloc, setup, keys)?;
    history_of(alloc, &mut machine, &mut recorder, names, schedule, maps)
}
