//! What a turn does at the store, noted before the turn is made.

ghost use Rattle.std.specs.Prelude.{◌≡◌, ◌<◌, ◌≤◌, true, false, IfNone, IfOk, IfSome, length, slice_get};
ghost use Rattle.bpf_plain.specs.Alike.{IsSameShape};
ghost use Rattle.bpf_plain.specs.PlainStore.{has_cpu, held_spans, is_running};
ghost use Rattle.bpf_helpers.specs.Held.{AreHeld};
ghost use Rattle.bpf_cpu.specs.Step.{IsReady};
ghost use Rattle.bpf_machine.specs.Kept.{kept_stage};
ghost use Rattle.bpf_events.specs.Private.Watching.{CanStepAt, FitsStage, IsQuietAt, IsWatched, NotesBegin, NotesStage, NotesStep};

use crate::recorder::Recorder;
use bpf_cpu::{Cpu, Input};
use bpf_loader::Program;
use bpf_machine::{KeptStage, Machine};
use bpf_shared::Shared;
use std::alloc::{AllocError, Global};

/// Makes the step that a job in this state makes next, if its budget has one left.
fn note_step(recorder: &mut Recorder, program: &Program, state: Cpu, left: u64)
    requires own { state.number ≡ recorder.old.cpu }
    requires serves { has_cpu recorder.old.store state.number ≡ true }
    requires in_run { is_running recorder.old.store state.number ≡ true }
    requires ready { IsReady program.now state }
    requires held { AreHeld (held_spans recorder.old.store state.number) state.held }
    ensures noted { NotesStep program.now state left recorder.old recorder.new }
    ensures shape { IsSameShape recorder.old.store recorder.new.store }
{
    if left == 0 {
        return;
    }
    let mut cpu = state;
    cpu.step(program, recorder);
}

/// Begins a run of a CPU, and makes its first step.
fn note_begin(recorder: &mut Recorder, program: &Program, cpu: u8, input: Input, budget: u64)
    requires own { cpu ≡ recorder.old.cpu }
    requires serves { has_cpu recorder.old.store cpu ≡ true }
    requires idle { is_running recorder.old.store cpu ≡ false }
    ensures noted { NotesBegin program.now cpu input budget recorder.old recorder.new }
    ensures shape { IsSameShape recorder.old.store recorder.new.store }
{
    program.starts();
    let Ok(()) = recorder.begin(cpu) else {
        unreachable!();
    };
    let state = Cpu::new(cpu, input);
    note_step(recorder, program, state, budget);
}

/// Goes on with a CPU's job from this stage, as its next turn will. The pc at which the CPU is.
pub fn note_stage(
    recorder: &mut Recorder,
    program: &Program,
    cpu: u8,
    stage: KeptStage,
    budget: u64,
) -> u32
    requires own { cpu ≡ recorder.old.cpu }
    requires serves { has_cpu recorder.old.store cpu ≡ true }
    requires fits { FitsStage program.now cpu (kept_stage stage) recorder.old }
    ensures noted { NotesStage program.now cpu (kept_stage stage) budget recorder.old recorder.new
        result }
    ensures shape { IsSameShape recorder.old.store recorder.new.store }
{
    match stage {
        KeptStage::Waiting(input) => {
            note_begin(recorder, program, cpu, input, budget);
            0
        }
        KeptStage::InHand(state, left) => {
            let pc = state.pc;
            note_step(recorder, program, state, left);
            pc
        }
        KeptStage::Ended(_) => unreachable!(),
    }
}

/// Makes the next step of a job in hand, where no store sees it. The pc at which the CPU stood.
fn make_quiet_step(program: &Program, stage: &mut KeptStage) -> Option<u32>
    requires { CanStepAt program.now (kept_stage stage.old) }
    ensures quiet { IfSome result (IsQuietAt program.now (kept_stage stage.old)) }
    ensures same { IfNone result (kept_stage stage.new ≡ kept_stage stage.old) }
{
    let KeptStage::InHand(state, left) = stage else {
        return None;
    };
    if *left == 0 {
        return None;
    }
    let pc = state.pc;
    if state.make_quiet_steps(program, 1) == 0 {
        return None;
    }
    Some(pc)
}

/// Notes what a CPU's next turn does at the store, but for the end of its job. The job, and the pc
/// at which the CPU is; `None` of a CPU without work. The store is copied only for steps that it
/// sees.
pub fn watch(
    alloc: Global,
    machine: &Machine,
    recorder: &mut Recorder,
    cpu: u8,
) -> Result<Option<(usize, u32)>, AllocError>
    requires { IsSameShape machine.now.store recorder.old.store }
    ensures watched { IfOk result (λ at. IsWatched machine.now cpu at recorder.new.events) }
    ensures shape { IsSameShape machine.now.store recorder.new.store }
{
    machine.stands();
    recorder.forget();
    let Some(job) = machine.job(cpu) else {
        return Ok(None);
    };
    let kept = machine.kept_job(alloc, job)?;
    let program = &machine.programs()[kept.program()];
    let budget = kept.budget();
    let mut stage = kept.stage(alloc)?;
    if let Some(pc) = make_quiet_step(program, &mut stage) {
        return Ok(Some((job, pc)));
    }
    recorder.restart(machine.store(), cpu);
    let pc = note_stage(recorder, program, cpu, stage, budget);
    if recorder.is_lost() {
        return Err(AllocError);
    }
    Ok(Some((job, pc)))
}
