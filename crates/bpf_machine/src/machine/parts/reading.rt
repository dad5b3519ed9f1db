//! Kept jobs from bytes, each into the one that is in its place. A state in hand is read
//! through a whole state of its CPU, for which memory is taken.

ghost use Rattle.std.specs.Prelude.{◌≡◌, ◌≤◌, true, List, ◌∷◌, ◌++◌, ℕ, All, OnOk, IfOk, IfSome, IfNone, length};
ghost use Rattle.bpf_cpu.specs.declared.cpu.Cpu.{Cpu};
ghost use Rattle.bpf_cpu.specs.Task.{Stage, Task, Waiting, InHand};
ghost use Rattle.bpf_machine.specs.Kept.{compact_stage};
ghost use Rattle.bpf_machine.specs.Private.Parts.{HasRoom};
ghost use Rattle.bpf_machine.specs.Saved.{jobs_saved, stage_saved, AreLater, HoldWhatMayBe, HoldsWhatMayBe, IsLater, IsSavableStage};

use super::KeptJob;
use super::compact::CompactStage;
use bpf_cpu::{Cpu, Input, KeptCpu, read_outcome};
use bpf_mem::read_words;
use std::alloc::{AllocError, Global};

/// Whether a job is in hand, with memory as large as it is given.
fn has_room(stage: &CompactStage, input: &Input) -> bool
    ensures { result ≡ true → HasRoom input.now (compact_stage stage.now) }
{
    match stage {
        CompactStage::InHand(state, _) => {
            state.context().bytes().len() == input.context.bytes().len()
                && state.packet().bytes().len() == input.packet.bytes().len()
        }
        CompactStage::Waiting(_) | CompactStage::Ended(_) => false,
    }
}

/// Puts a job in hand. It is alone, or each call that reads one would clear room on the stack
/// for the state.
#[cold]
#[inline(never)]
fn put_in_hand(
    alloc: Global,
    cpu: u8,
    input: &Input,
    stage: &mut CompactStage,
) -> Result<(), AllocError>
    ensures { OnOk result (HasRoom input.now (compact_stage stage.new)) }
{
    let state = Cpu::new(cpu, input.copy(alloc)?);
    *stage = CompactStage::InHand(KeptCpu::of(alloc, &state)?, 0);
    Ok(())
}

/// A job is in hand, with memory as large as it is given.
fn make_room(
    alloc: Global,
    cpu: u8,
    input: &Input,
    stage: &mut CompactStage,
) -> Result<(), AllocError>
    ensures { OnOk result (HasRoom input.now (compact_stage stage.new)) }
{
    if has_room(stage, input) {
        return Ok(());
    }
    put_in_hand(alloc, cpu, input, stage)
}

/// A stage becomes that of the job in hand, with its steps left, whose saved form the bytes begin
/// with after their first; what comes after it.
fn read_hand<'a>(
    alloc: Global,
    cpu: u8,
    input: &Input,
    stage: &mut CompactStage,
    bytes: &'a [u8],
) -> Result<Option<&'a [u8]>, AllocError>
    ensures some { IfOk result (λ o. IfSome o (λ rest.
        1 ∷ bytes.now ≡ stage_saved (compact_stage stage.new) ++ rest.now)) }
    ensures savable { IfOk result (λ o. IfSome o (λ rest.
        IsSavableStage cpu input.now (compact_stage stage.new))) }
    ensures none { IfOk result (λ o. IfNone o ((state : Cpu) (left : ℕ) (more : List ℕ)
        → IsSavableStage cpu input.now (InHand state left)
        → HoldsWhatMayBe (InHand state left)
        → 1 ∷ bytes.now ≡ stage_saved (InHand state left) ++ more → ⊥)) }
{
    let mut words = [0; 1];
    let Some(rest) = read_words(&mut words, bytes) else {
        return Ok(None);
    };
    make_room(alloc, cpu, input, stage)?;
    match stage {
        CompactStage::InHand(state, left) => {
            state.set_job(cpu, input.given);
            *left = words[0];
            let behind = state.restore(alloc, rest)?;
            match behind {
                Some(rest) => Ok(Some(rest)),
                None => Ok(None),
            }
        }
        CompactStage::Waiting(_) | CompactStage::Ended(_) => unreachable!(),
    }
}

/// Whether a job waits and is given this.
fn waits_with(stage: &CompactStage, input: &Input) -> bool
    ensures { result ≡ true → compact_stage stage.now ≡ Waiting input.now }
{
    match stage {
        CompactStage::Waiting(own) => own.is_same(input),
        CompactStage::InHand(_, _) | CompactStage::Ended(_) => false,
    }
}

/// A stage becomes that of a job that waits and is given this.
fn wait_with(alloc: Global, input: &Input, stage: &mut CompactStage) -> Result<(), AllocError>
    ensures { OnOk result (compact_stage stage.new ≡ Waiting input.now) }
{
    if waits_with(stage, input) {
        return Ok(());
    }
    *stage = CompactStage::Waiting(input.copy(alloc)?);
    Ok(())
}

/// A stage becomes the one whose saved form the bytes begin with, of a job on this CPU that is
/// given this; what comes after it. `None` where no stage of such a job has such a form, and
/// then it may be any.
fn read_stage<'a>(
    alloc: Global,
    cpu: u8,
    input: &Input,
    stage: &mut CompactStage,
    bytes: &'a [u8],
) -> Result<Option<&'a [u8]>, AllocError>
    ensures some { IfOk result (λ o. IfSome o (λ rest.
        bytes.now ≡ stage_saved (compact_stage stage.new) ++ rest.now)) }
    ensures savable { IfOk result (λ o. IfSome o (λ rest.
        IsSavableStage cpu input.now (compact_stage stage.new))) }
    ensures none { IfOk result (λ o. IfNone o ((other : Stage) (more : List ℕ)
        → IsSavableStage cpu input.now other → HoldsWhatMayBe other
        → bytes.now ≡ stage_saved other ++ more → ⊥)) }
{
    if bytes.is_empty() {
        return Ok(None);
    }
    let rest = &bytes[1..];
    match bytes[0] {
        0 => {
            wait_with(alloc, input, stage)?;
            Ok(Some(rest))
        }
        1 => read_hand(alloc, cpu, input, stage, rest),
        2 => match read_outcome(rest) {
            Some((outcome, rest)) => {
                *stage = CompactStage::Ended(outcome);
                Ok(Some(rest))
            }
            None => Ok(None),
        },
        _ => Ok(None),
    }
}

impl KeptJob {
    /// Becomes the job that one which waited is, whose saved form the bytes begin with; what comes
    /// after it. `None` where it has no stage of such a form, and then it may be any.
    fn read<'a>(
        &mut self,
        alloc: Global,
        first: &KeptJob,
        bytes: &'a [u8],
    ) -> Result<Option<&'a [u8]>, AllocError>
        ensures some { IfOk result (λ o. IfSome o (λ rest.
            bytes.now ≡ stage_saved self.new.stage ++ rest.now)) }
        ensures later { IfOk result (λ o. IfSome o (λ rest. IsLater first.now self.new)) }
        ensures none { IfOk result (λ o. IfNone o ((task : Task) (more : List ℕ)
            → IsLater first.now task → HoldsWhatMayBe task.stage
            → bytes.now ≡ stage_saved task.stage ++ more → ⊥)) }
    {
        self.cpu = first.cpu;
        self.program = first.program;
        self.budget = first.budget;
        match &first.stage {
            CompactStage::Waiting(input) => {
                read_stage(alloc, first.cpu, input, &mut self.stage, bytes)
            }
            CompactStage::InHand(_, _) | CompactStage::Ended(_) => {
                let nothing = Input::nothing(alloc);
                read_stage(alloc, first.cpu, &nothing, &mut self.stage, bytes)
            }
        }
    }
}

/// Jobs become those that these which waited are, whose saved forms the bytes begin with, one
/// after the other; what comes after them. `None` where none of their stages have such forms, and
/// then they may be any. `AllocError` where memory for one ran out.
pub fn read_jobs<'a>(
    alloc: Global,
    first: &[KeptJob],
    jobs: &mut [KeptJob],
    bytes: &'a [u8],
) -> Result<Option<&'a [u8]>, AllocError>
    requires count { length jobs.old ≡ length first.now }
    ensures some { IfOk result (λ o. IfSome o (λ rest.
        bytes.now ≡ jobs_saved jobs.new ++ rest.now)) }
    ensures later { IfOk result (λ o. IfSome o (λ rest. AreLater first.now jobs.new)) }
    ensures none { IfOk result (λ o. IfNone o ((others : List Task) (more : List ℕ)
        → AreLater first.now others → HoldWhatMayBe others
        → bytes.now ≡ jobs_saved others ++ more → ⊥)) }
{
    let mut rest = bytes;
    for job in 0..first.len() {
        let Some(behind) = jobs[job].read(alloc, &first[job], rest)? else {
            return Ok(None);
        };
        rest = behind;
    }
    Ok(Some(rest))
}
