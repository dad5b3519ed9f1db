//! Schedules that a patient search has found, tried with the budgets that jobs have.

ghost use Rattle.std.specs.Prelude.{◌≡◌, ◌<◌, true, false, IfOk, OnOk, length};
ghost use Rattle.bpf_machine.specs.Patient.{NoneRanOut};
ghost use Rattle.bpf_machine.specs.Schedule.{unrolled};
ghost use Rattle.bpf_explore.specs.Private.Replays.{CanRunOut, IsReplayed, SomeRanOut};

use crate::album::Album;
use bpf_cpu::Outcome;
use bpf_machine::Machine;
use std::alloc::AllocError;

/// Whether some job has ended out of budget.
pub(crate) fn some_ran_out(machine: &Machine) -> bool
    ensures out { result ≡ true → SomeRanOut machine.now.jobs }
    ensures none { result ≡ false → NoneRanOut machine.now.jobs }
{
    for job in 0..machine.jobs() {
        if let Some(Outcome::OutOfBudget(_)) = machine.outcome(job) {
            return true;
        }
    }
    false
}

/// Makes the turns of a schedule from the first machine of an album. Whether some job is out of budget
/// then.
pub(crate) fn replay_in(album: &mut Album, by: &[(u8, u64)]) -> Result<bool, AllocError>
    requires { 0 < length album.old.kept }
    ensures same { album.new.kept ≡ album.old.kept }
    ensures cpus { album.new.cpus ≡ album.old.cpus }
    ensures stock { album.new.stock ≡ album.old.stock }
    ensures replayed { OnOk result (IsReplayed album.old.kept (unrolled by.now)
        album.new.machine) }
    ensures out { IfOk result (λ out. out ≡ true → CanRunOut album.old.kept) }
    ensures none { IfOk result (λ out. out ≡ false → NoneRanOut album.new.machine.jobs) }
{
    album.restore(0)?;
    album.turns_by(by);
    Ok(some_ran_out(album.machine()))
}
