//! Schedules that a patient search has found, tried with the budgets that jobs have.

ghost use Rattle.std.specs.Prelude.{◌≡◌, ◌<◌, ◌∷◌, [], true, false, IfOk, IfNone, IfSome, OnOk, length, map, replicate};
ghost use Rattle.bpf_machine.specs.Patient.{NoneRanOut};
ghost use Rattle.bpf_machine.specs.Schedule.{World, unrolled};
ghost use Rattle.bpf_buffering.specs.Album.{HaveEndedAt};
ghost use Rattle.bpf_buffering.specs.Search.{move_of};
ghost use Rattle.bpf_explore.specs.Private.Replays.{SomeRanOut};
ghost use Rattle.bpf_flushes.specs.Moves.{MakesTo};
ghost use Rattle.bpf_reorderings.specs.Private.Answers.{CanRunOut, LeadsInBudget};
ghost use Rattle.bpf_reorderings.specs.Private.Searching.{BeginsAt, IsTried};

use crate::explorer::Explorer;
use bpf_buffering::Buffering;
use bpf_cpu::Outcome;
use bpf_schedule::FLUSH;
use std::alloc::AllocError;

/// A move; a flush where nothing waits is passed over.
fn make_move(explorer: &mut Explorer, made: u8) -> Result<(), AllocError>
    ensures makes { OnOk result
        (MakesTo explorer.old.machine (move_of made ∷ []) explorer.new.machine) }
    ensures same { explorer.new.kept ≡ explorer.old.kept }
    ensures patient { explorer.new.patient ≡ explorer.old.patient }
{
    if made < FLUSH {
        return explorer.take_turn(made);
    }
    explorer.pass_flush(made - FLUSH);
    Ok(())
}

/// This many moves of one kind.
fn repeat(explorer: &mut Explorer, made: u8, count: u64) -> Result<(), AllocError>
    ensures makes { OnOk result
        (MakesTo explorer.old.machine (replicate count (move_of made)) explorer.new.machine) }
    ensures same { explorer.new.kept ≡ explorer.old.kept }
    ensures patient { explorer.new.patient ≡ explorer.old.patient }
{
    for _ in 0..count {
        make_move(explorer, made)?;
    }
    Ok(())
}

/// The moves of a schedule, each with how often it is made before the next.
fn make_moves(explorer: &mut Explorer, runs: &[(u8, u64)]) -> Result<(), AllocError>
    ensures makes { OnOk result
        (MakesTo explorer.old.machine (map move_of (unrolled runs.now)) explorer.new.machine) }
    ensures same { explorer.new.kept ≡ explorer.old.kept }
    ensures patient { explorer.new.patient ≡ explorer.old.patient }
{
    for (made, count) in runs {
        repeat(explorer, *made, *count)?;
    }
    Ok(())
}

/// Whether some job has ended out of budget.
pub(crate) fn some_ran_out(machine: &Buffering) -> bool
    ensures out { result ≡ true → SomeRanOut machine.now.machine.jobs }
    ensures none { result ≡ false → NoneRanOut machine.now.machine.jobs }
{
    for job in 0..machine.jobs() {
        if let Some(Outcome::OutOfBudget(_)) = machine.outcome(job) {
            return true;
        }
    }
    false
}

/// Makes the moves of a schedule from the first machine. Whether some job is out of budget then.
pub(crate) fn uses_up(explorer: &mut Explorer, by: &[(u8, u64)]) -> Result<bool, AllocError>
    requires { 0 < length explorer.old.kept }
    ensures same { explorer.new.kept ≡ explorer.old.kept }
    ensures patient { explorer.new.patient ≡ explorer.old.patient }
    ensures tried { OnOk result
        (IsTried explorer.old.kept (map move_of (unrolled by.now)) explorer.new.machine) }
    ensures out { IfOk result (λ out. out ≡ true → CanRunOut explorer.old.kept) }
    ensures none { IfOk result (λ out. out ≡ false
        → NoneRanOut explorer.new.machine.machine.jobs) }
{
    explorer.restore(0)?;
    make_moves(explorer, by)?;
    Ok(some_ran_out(explorer.machine()))
}

/// The schedule that leads to a kept machine without work. In a patient search it is tried with the
/// budgets that jobs have: `None` where it uses one up.
pub(crate) fn way_in_budget(
    explorer: &mut Explorer,
    place: usize,
) -> Result<Option<Vec<(u8, u64)>>, AllocError>
    requires place { place < length explorer.old.kept }
    requires begins { (w : World) × BeginsAt explorer.old.kept w }
    requires ended { HaveEndedAt explorer.old.kept place }
    ensures same { explorer.new.kept ≡ explorer.old.kept }
    ensures patient { explorer.new.patient ≡ explorer.old.patient }
    ensures leads { IfOk result (λ way. IfSome way (λ by.
        LeadsInBudget explorer.old.patient explorer.old.kept by.items place)) }
    ensures out { IfOk result (λ way. IfNone way
        ((explorer.old.patient ≡ true) × CanRunOut explorer.old.kept)) }
{
    bpf_patience::laws::free_moves_agree();
    let by = explorer.way(place)?;
    if !explorer.is_patient() {
        return Ok(Some(by));
    }
    if uses_up(explorer, &by)? {
        return Ok(None);
    }
    Ok(Some(by))
}
