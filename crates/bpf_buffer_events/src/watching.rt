//! What a turn does at the store, noted before the turn is made.

ghost use Rattle.std.specs.Prelude.{IfOk};
ghost use Rattle.bpf_buffer_events.specs.Private.Watched.{AreWatched, IsWatched};

use bpf_buffering::Buffering;
use bpf_events::{Recorder, note_stage};
use bpf_plain::PlainStore;
use std::alloc::{AllocError, Global};

/// What notes turns: a recorder, and a store to make what a CPU sees in.
#[derive(Drop)]
pub(crate) struct Watcher {
    pub recorder: Recorder,
    pub seen: PlainStore,
}

/// Notes what a CPU's next turn does at the store, but for the end of its job: it makes the step on
/// a copy of what the CPU sees. The job, and the pc at which the CPU is; `None` of a CPU without work.
pub(crate) fn watch(
    alloc: Global,
    machine: &Buffering,
    watcher: &mut Watcher,
    cpu: u8,
) -> Result<Option<(usize, u32)>, AllocError>
    requires { AreWatched machine.now watcher.old }
    ensures watched { IfOk result (λ at. IsWatched machine.now cpu at watcher.new.recorder.events) }
    ensures shape { AreWatched machine.now watcher.new }
{
    machine.stands();
    watcher.recorder.forget();
    let Some(job) = machine.job(cpu) else {
        return Ok(None);
    };
    let kept = machine.copy_of(alloc, job)?;
    let program = &machine.programs()[kept.program];
    machine.see(cpu, &mut watcher.seen);
    watcher.recorder.restart(&watcher.seen, cpu);
    let pc = note_stage(&mut watcher.recorder, program, cpu, kept.stage, kept.budget);
    if watcher.recorder.is_lost() {
        return Err(AllocError);
    }
    Ok(Some((job, pc)))
}
