//! Rounds: each CPU in rising order takes a turn and flushes its oldest waiting store.

ghost use Rattle.std.specs.Prelude.{◌≡◌, ◌<◌, ◌||◌, ℕ, true, false, IfOk, OnOk};
ghost use Rattle.bpf_machine.specs.Questions.{turns_left};
ghost use Rattle.bpf_machine.specs.Rounds.{HaveEnded};
ghost use Rattle.bpf_x86.specs.Machine.{X86};
ghost use Rattle.bpf_buffering.specs.Search.{ShowsX86};
ghost use Rattle.bpf_flushes.specs.Moves.{RoundTo, RoundsTo};

use crate::moves::{flush, take_turn};
use bpf_buffering::Buffering;
use std::alloc::AllocError;

/// Whether each job has an outcome.
pub fn have_ended(machine: &Buffering) -> bool
    ensures ended { result ≡ true → HaveEnded machine.now.machine.jobs }
    ensures open { result ≡ false → HaveEnded machine.now.machine.jobs → ⊥ }
{
    for job in 0..machine.jobs() {
        if machine.outcome(job).is_none() {
            return false;
        }
    }
    true
}

/// Whether one of both holds.
fn either(first: bool, second: bool) -> bool
    ensures { result ≡ (first || second) }
{
    first || second
}

/// One round. Whether any CPU had work.
fn make_round(machine: &mut Buffering) -> Result<bool, AllocError>
    requires { (x : X86) × ShowsX86 machine.old x }
    ensures makes { OnOk result (RoundTo machine.old machine.new) }
    ensures falls { IfOk result (λ worked. worked ≡ true
        → turns_left machine.new.machine.jobs < turns_left machine.old.machine.jobs) }
    ensures ended { IfOk result (λ worked. worked ≡ false → HaveEnded machine.old.machine.jobs) }
{
    let mut worked = false;
    for cpu in 0..machine.cpus() {
        let took = take_turn(machine, cpu)?;
        flush(machine, cpu);
        worked = either(worked, took);
    }
    Ok(worked)
}

/// Rounds until each job has ended. They end, since each job has a budget.
pub fn run_rounds(machine: &mut Buffering) -> Result<(), AllocError>
    requires { (x : X86) × ShowsX86 machine.old x }
    ensures { OnOk result (RoundsTo machine.old machine.new) }
{
    while !have_ended(machine) {
        make_round(machine)?;
    }
    Ok(())
}
