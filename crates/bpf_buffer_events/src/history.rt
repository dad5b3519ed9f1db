//! Jobs from their beginning to their history and what is printed of them.

ghost use Rattle.std.specs.Prelude.{◌≡◌, [], IfOk, string_bytes};
ghost use Rattle.bpf_names.specs.Names.{names_of};
ghost use Rattle.bpf_cpu.specs.Setup.{IsRunnable};
ghost use Rattle.bpf_machine.specs.Schedule.{World};
ghost use Rattle.bpf_x86.specs.Machine.{drained};
ghost use Rattle.bpf_buffering.specs.Search.{ShowsX86};
ghost use Rattle.bpf_jobs.specs.Printed.{first_of};
ghost use Rattle.bpf_buffer_events.specs.Private.Watched.{AreWatched, HasShape};
ghost use Rattle.bpf_buffer_events.specs.Printed.{IsHistoryWithBuffers};

use crate::telling::{Scene, make_moves, make_rounds};
use crate::watching::Watcher;
use bpf_cpu::Setup;
use bpf_events::Recorder;
use bpf_flushes::{make_buffering, tell};
use bpf_jobs::Report;
use bpf_names::Names;
use bpf_plain::{PlainStore, copy_shape};
use bpf_shared::StoreShape;
use std::alloc::{AllocError, Global};

/// A new store of this shape.
fn new_store(alloc: Global, shape: &StoreShape) -> Result<PlainStore, AllocError>
    ensures { IfOk result (HasShape shape.now) }
{
    let copy = copy_shape(alloc, shape)?;
    PlainStore::new(alloc, copy).map_err(|_| AllocError)
}

/// The machine of jobs over a new store, and what notes its turns.
fn begin(alloc: Global, setup: Setup) -> Result<Scene, AllocError>
    requires { IsRunnable setup }
    ensures shows { IfOk result (λ s. ShowsX86 s.machine (drained (first_of setup))) }
    ensures shape { IfOk result (λ s. AreWatched s.machine s.watcher) }
    ensures text { IfOk result (λ s. string_bytes s.text ≡ []) }
{
    let noted = new_store(alloc, &setup.shape)?;
    let recorder = Recorder::new(alloc, noted);
    let seen = new_store(alloc, &setup.shape)?;
    let machine = make_buffering(alloc, setup)?;
    Ok(Scene {
        machine,
        watcher: Watcher { recorder, seen },
        text: String::new(alloc),
    })
}

/// Makes the moves of a schedule and rounds after them, and appends their lines to the text, and after
/// these what is printed of the machine then. Whether some job ended in a fault or out of budget.
fn push_history(
    alloc: Global,
    scene: &mut Scene,
    names: &Names,
    moves: &[(u8, u64)],
    maps: bool,
) -> Result<bool, AllocError>
    requires { AreWatched scene.old.machine scene.old.watcher }
    ensures { IfOk result (λ stopped. (w : World) → ShowsX86 scene.old.machine (drained w)
        → string_bytes scene.old.text ≡ [] → IsHistoryWithBuffers w moves.now
        (names_of names.now) maps (string_bytes scene.new.text) stopped) }
{
    make_moves(alloc, scene, &names.maps, moves)?;
    make_rounds(alloc, scene, &names.maps)?;
    let report = tell(alloc, &scene.machine, names, maps)?;
    scene.text.push_str(report.text.as_str())?;
    Ok(report.stopped)
}

/// Runs jobs on CPUs with store buffers, over a new store whose maps, arrays and variables have these
/// names: first the moves of a schedule, each with how often it is made, then rounds until each job
/// has ended. The text has a line for each call of the store and for each waiting store that reaches
/// memory, in their order, and after them what `run_with_buffers` of bpf_flushes shows. The only
/// refusal is out of memory.
pub fn run_with_buffer_events(
    alloc: Global,
    setup: Setup,
    names: &Names,
    moves: &[(u8, u64)],
    maps: bool,
) -> Result<Report, AllocError>
    requires { IsRunnable setup }
    ensures { IfOk result (λ r. IsHistoryWithBuffers (first_of setup) moves.now
        (names_of names.now) maps (string_bytes r.text) r.stopped) }
{
    let mut scene = begin(alloc, setup)?;
    let stopped = push_history(alloc, &mut scene, names, moves, maps)?;
    Ok(Report {
        text: scene.text,
        stopped,
    })
}
