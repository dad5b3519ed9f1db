//! Whether some schedule uses a budget up, after a patient search.

ghost use Rattle.std.specs.Prelude.{◌≡◌, ◌<◌, ◌≤◌, ◌+◌, ◌⊎◌, ℕ, true, false, Some, IfOk, OnOk, length, slice_get};
ghost use Rattle.bpf_machine.specs.Machine.{MachineState};
ghost use Rattle.bpf_explore.specs.Search.{IsIdleAt};
ghost use Rattle.bpf_explore.specs.Private.Edges.{AreTurns};
ghost use Rattle.bpf_explore.specs.Private.Replays.{CanRunOut, NoneRunsOut};

use crate::depths::{find_depths, is_sparing};
use crate::patient::PatientExplorer;
use crate::rounds::wears_out;
use crate::turns::Turns;
use std::alloc::{AllocError, Global};

/// Whether some schedule uses a budget up.
#[derive(Clone, Copy, PartialEq, Eq, Debug)]
pub enum Budgets {
    /// None does.
    Suffice,
    /// One does.
    RunOut,
    /// That isn't known.
    Unknown,
}

/// Whether some schedule uses a budget up: none does where turns lead ever deeper and no kept
/// machine is as deep as a budget; and one does that goes round in a circle of kept machines.
pub(crate) fn judge_budgets(
    alloc: Global,
    explorer: &mut PatientExplorer,
    turns: &Turns,
) -> Result<Budgets, AllocError>
    requires first { 0 < length explorer.old.kept }
    requires turns { AreTurns explorer.old.kept turns.now }
    ensures same { explorer.new.kept ≡ explorer.old.kept }
    ensures peers { explorer.new.peers ≡ explorer.old.peers }
    ensures suffice { IfOk result (λ b. b ≡ Budgets.Suffice → NoneRunsOut explorer.old.kept) }
    ensures out { IfOk result (λ b. b ≡ Budgets.RunOut → CanRunOut explorer.old.kept) }
{
    bpf_equal::laws::permuted_budgets_suffice();
    let depths = find_depths(alloc, explorer, turns)?;
    if is_sparing(explorer, turns, &depths.steps) {
        return Ok(Budgets::Suffice);
    }
    if wears_out(alloc, explorer, turns, &depths.waits)? {
        return Ok(Budgets::RunOut);
    }
    Ok(Budgets::Unknown)
}
