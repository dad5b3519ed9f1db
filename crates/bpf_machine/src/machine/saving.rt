//! Jobs' stages as bytes.

ghost use Rattle.std.specs.Prelude.{◌≡◌, [], ◌++◌, OnOk, OnErr};
ghost use Rattle.std.specs.Io.{StartsWith};
ghost use Rattle.bpf_cpu.specs.declared.outcome.Outcome.{Outcome};
ghost use Rattle.bpf_cpu.specs.Input.{no_input};
ghost use Rattle.bpf_cpu.specs.Task.{Waiting, InHand, Ended};
ghost use Rattle.bpf_machine.specs.Private.Lanes.{stage_of};
ghost use Rattle.bpf_machine.specs.Saved.{stage_saved, FitsBytes};

use super::{KeptStage, Machine};
use crate::machine::lane::{Lane, Phase};
use bpf_cpu::{Cpu, Outcome, is_savable_outcome, save_outcome};
use bpf_mem::save_words;
use std::alloc::AllocError;

/// Appends to the bytes what a job that waits is saved as.
fn save_waiting(out: &mut Vec<u8>) -> Result<(), AllocError>
    ensures ok { OnOk result (out.new.items ≡ out.old.items ++ stage_saved (Waiting no_input)) }
    ensures err { OnErr result (StartsWith out.new.items out.old.items) }
{
    out.push(0)?;
    Ok(())
}

/// Appends to the bytes what a job in hand is saved as, with this many steps left.
fn save_hand(cpu: &Cpu, left: u64, out: &mut Vec<u8>) -> Result<(), AllocError>
    ensures ok { OnOk result
        (out.new.items ≡ out.old.items ++ stage_saved (InHand cpu.now left)) }
    ensures err { OnErr result (StartsWith out.new.items out.old.items) }
{
    out.push(1)?;
    save_words(&[left], out)?;
    cpu.save(out)
}

/// Appends to the bytes what a job that has ended is saved as.
fn save_ended(outcome: Outcome, out: &mut Vec<u8>) -> Result<(), AllocError>
    ensures ok { OnOk result
        (out.new.items ≡ out.old.items ++ stage_saved (Ended outcome)) }
    ensures err { OnErr result (StartsWith out.new.items out.old.items) }
{
    out.push(2)?;
    save_outcome(outcome, out)
}

/// Appends to the bytes what a job in this phase is saved as, on the CPU of this lane.
fn save_stage(lane: &Lane, phase: &Phase, out: &mut Vec<u8>) -> Result<(), AllocError>
    ensures ok { OnOk result
        (out.new.items ≡ out.old.items ++ stage_saved (stage_of lane.now.hand phase.now)) }
    ensures err { OnErr result (StartsWith out.new.items out.old.items) }
{
    match phase {
        Phase::Waiting(_) => save_waiting(out),
        Phase::Ended(outcome) => save_ended(*outcome, out),
        Phase::InHand => match &lane.hand {
            Some(hand) => save_hand(&hand.cpu, hand.left, out),
            None => save_waiting(out),
        },
    }
}

/// A job in hand fits into bytes, with this many steps left: says so, and does nothing.
fn hand_fits_bytes(cpu: &Cpu, left: u64)
    ensures { FitsBytes (InHand cpu.now left) }
{
    let _ = left;
    cpu.is_savable();
}

/// So does a job in this phase on the CPU of this lane: says so.
fn stage_fits_bytes(lane: &Lane, phase: &Phase)
    ensures { FitsBytes (stage_of lane.now.hand phase.now) }
{
    match phase {
        Phase::Waiting(_) => {}
        Phase::Ended(outcome) => is_savable_outcome(*outcome),
        Phase::InHand => match &lane.hand {
            Some(hand) => hand_fits_bytes(&hand.cpu, hand.left),
            None => {}
        },
    }
}

impl KeptStage {
    ghost use Rattle.std.specs.Prelude.{◌≡◌, ◌++◌, OnOk, OnErr};
    ghost use Rattle.std.specs.Io.{StartsWith};
    ghost use Rattle.bpf_machine.specs.Kept.{kept_stage};
    ghost use Rattle.bpf_machine.specs.Saved.{stage_saved, FitsBytes};

    /// It fits into bytes: says so, and does nothing.
    pub fn fits_bytes(&self)
        ensures { FitsBytes (kept_stage self.now) }
    {
        match self {
            KeptStage::Waiting(_) => {}
            KeptStage::InHand(cpu, left) => hand_fits_bytes(cpu, *left),
            KeptStage::Ended(outcome) => is_savable_outcome(*outcome),
        }
    }

    /// Appends to the bytes what it is saved as.
    pub fn save(&self, out: &mut Vec<u8>) -> Result<(), AllocError>
        ensures ok { OnOk result
            (out.new.items ≡ out.old.items ++ stage_saved (kept_stage self.now)) }
        ensures err { OnErr result (StartsWith out.new.items out.old.items) }
    {
        match self {
            KeptStage::Waiting(_) => save_waiting(out),
            KeptStage::InHand(cpu, left) => save_hand(cpu, *left, out),
            KeptStage::Ended(outcome) => save_ended(*outcome, out),
        }
    }
}

impl Machine {
    ghost use Rattle.std.specs.Prelude.{◌≡◌, ◌<◌, ◌++◌, OnOk, OnErr, Some, length, slice_get};
    ghost use Rattle.bpf_cpu.specs.Task.{Task};
    ghost use Rattle.bpf_machine.specs.Saved.{stage_saved, FitsBytes};

    /// A job's stage fits into bytes: says so, and does nothing.
    pub fn job_fits_bytes(&self, job: usize)
        requires { job < length self.now.jobs }
        ensures { (task : Task) → slice_get self.now.jobs job ≡ Some task → FitsBytes task.stage }
    {
        let listed = &self.jobs[job];
        stage_fits_bytes(&self.lanes[listed.cpu as usize], &listed.phase);
    }

    /// Appends to the bytes what a job's stage is saved as.
    pub fn save_job(&self, job: usize, out: &mut Vec<u8>) -> Result<(), AllocError>
        requires { job < length self.now.jobs }
        ensures ok { OnOk result ((task : Task) → slice_get self.now.jobs job ≡ Some task
            → out.new.items ≡ out.old.items ++ stage_saved task.stage) }
        ensures err { OnErr result (StartsWith out.new.items out.old.items) }
    {
        let listed = &self.jobs[job];
        save_stage(&self.lanes[listed.cpu as usize], &listed.phase, out)
    }
}
