//! What follows from the definitions of worlds that are the same but for places of CPUs and of
//! jobs, as promises to the crates above.
//!
//! These functions do nothing: their contracts are the laws, which a proof cites.
ghost use Rattle.bpf_equal.specs.Covers.{KeptEndsAreShown, PermutedPatientSetsCover, PermutedPatientSetsHaveTurns, PermutedSetsCover, PermutedSetsHaveTurns};
ghost use Rattle.bpf_equal.specs.Equal.{EqualCpusAreExchanged, OutcomesAreExchanged};
ghost use Rattle.bpf_equal.specs.Laws.{EventsArePermuted, MovesReachEnds, PartnersEndAlike, PermutedEndsAreOne, PermutedIsAnEquivalence, SchedulesArePermuted, SoundStoresStaySound, StepsAreMarked, TurnsArePermuted};
ghost use Rattle.bpf_equal.specs.Patient.{BeyondIsExchanged, CoveredLieBeyond, ExchangesAreSymmetries, FreeRunsArePermuted, HungAreExchanged, PermutedBudgetsSuffice, PermutedCanEnd, PermutedStuckAreHung};
ghost use Rattle.bpf_equal.specs.Races.{PermutedPatientRacesAreKept, PermutedRacesAreKept, RacesAreExchanged};

/// A program that asks for no marks makes the same steps with others.
pub fn steps_are_marked()
    ensures { StepsAreMarked }
{}

/// What a store allows a CPU, the permuted store allows the one that it goes to.
pub fn events_are_permuted()
    ensures { EventsArePermuted }
{}

/// A turn leads to what the turn of the CPU that it goes to leads to, but for the permutation.
pub fn turns_are_permuted()
    ensures { TurnsArePermuted }
{}

/// So does a schedule.
pub fn schedules_are_permuted()
    ensures { SchedulesArePermuted }
{}

/// To be permuted is an equivalence.
pub fn permuted_is_an_equivalence()
    ensures { PermutedIsAnEquivalence }
{}

/// A job ends as its partner does.
pub fn partners_end_alike()
    ensures { PartnersEndAlike }
{}

/// Where each job has ended, one world alone is this one but for the permutations.
pub fn permuted_ends_are_one()
    ensures { PermutedEndsAreOne }
{}

/// Moves that leave the first world as it is lead from each end of its schedules to another.
pub fn moves_reach_ends()
    ensures { MovesReachEnds }
{}

/// A permuted store is sound.
pub fn sound_stores_stay_sound()
    ensures { SoundStoresStaySound }
{}

/// Two CPUs that are equal before the first turn may be exchanged.
pub fn equal_cpus_are_exchanged()
    ensures { EqualCpusAreExchanged }
{}

/// What a schedule leads to, the schedule with two equal CPUs exchanged leads to, but for their jobs.
pub fn outcomes_are_exchanged()
    ensures { OutcomesAreExchanged }
{}

/// A list of machines that is closed but for places and dead registers covers all that schedules lead to.
pub fn permuted_sets_cover()
    ensures { PermutedSetsCover }
{
    bpf_live::laws::alike_is_an_equivalence();
    bpf_live::laws::steps_are_alike();
    bpf_live::laws::one_state_is_alike();
    bpf_mem::laws::writes_are_determined();
    bpf_loader::laws::one_instruction_begins();
    bpf_shared::laws::calls_have_one_reply();
}

/// One that is closed but for these and budgets does while no job runs out of budget.
pub fn permuted_patient_sets_cover()
    ensures { PermutedPatientSetsCover }
{
    bpf_live::laws::alike_is_an_equivalence();
    bpf_live::laws::steps_are_alike();
    bpf_live::laws::one_state_is_alike();
    bpf_mem::laws::writes_are_determined();
    bpf_loader::laws::one_instruction_begins();
    bpf_shared::laws::calls_have_one_reply();
}

/// In all that schedules lead to, each CPU has its next turn.
pub fn permuted_sets_have_turns()
    ensures { PermutedSetsHaveTurns }
{
    bpf_live::laws::alike_is_an_equivalence();
    bpf_live::laws::steps_are_alike();
    bpf_live::laws::one_state_is_alike();
    bpf_mem::laws::writes_are_determined();
    bpf_loader::laws::one_instruction_begins();
    bpf_shared::laws::calls_have_one_reply();
}

/// So it has with richer jobs, while none runs out of budget, over a list that is closed but for budgets too.
pub fn permuted_patient_sets_have_turns()
    ensures { PermutedPatientSetsHaveTurns }
{
    bpf_live::laws::alike_is_an_equivalence();
    bpf_live::laws::steps_are_alike();
    bpf_live::laws::one_state_is_alike();
    bpf_mem::laws::writes_are_determined();
    bpf_loader::laws::one_instruction_begins();
    bpf_shared::laws::calls_have_one_reply();
}

/// Each race there is one in what such a list shows, but for places.
pub fn permuted_races_are_kept()
    ensures { PermutedRacesAreKept }
{
    bpf_live::laws::alike_is_an_equivalence();
    bpf_live::laws::steps_are_alike();
    bpf_live::laws::one_state_is_alike();
    bpf_mem::laws::writes_are_determined();
    bpf_loader::laws::one_instruction_begins();
    bpf_shared::laws::calls_have_one_reply();
}

/// Over one that is closed but for these and budgets, each race there before which no job is out of budget is.
pub fn permuted_patient_races_are_kept()
    ensures { PermutedPatientRacesAreKept }
{
    bpf_live::laws::alike_is_an_equivalence();
    bpf_live::laws::steps_are_alike();
    bpf_live::laws::one_state_is_alike();
    bpf_mem::laws::writes_are_determined();
    bpf_loader::laws::one_instruction_begins();
    bpf_shared::laws::calls_have_one_reply();
}

/// A race of a schedule comes with that of the schedule with two equal CPUs exchanged.
pub fn races_are_exchanged()
    ensures { RacesAreExchanged }
{}

/// Where ends are kept in all their places, each end is shown.
pub fn kept_ends_are_shown()
    ensures { KeptEndsAreShown }
{}

/// A schedule in which jobs are given steps leads to what the schedule of the CPUs that its own go to
/// leads to.
pub fn free_runs_are_permuted()
    ensures { FreeRunsArePermuted }
{}

/// From what a machine covers that leads to an end, but for places, one can be reached.
pub fn permuted_can_end()
    ensures { PermutedCanEnd }
{
    bpf_live::laws::alike_is_an_equivalence();
    bpf_live::laws::steps_are_alike();
    bpf_live::laws::one_state_is_alike();
}

/// From machines that lead to no end, but for places, none can be reached.
pub fn permuted_stuck_are_hung()
    ensures { PermutedStuckAreHung }
{
    bpf_live::laws::alike_is_an_equivalence();
    bpf_live::laws::steps_are_alike();
    bpf_live::laws::one_state_is_alike();
    bpf_mem::laws::writes_are_determined();
    bpf_loader::laws::one_instruction_begins();
    bpf_shared::laws::calls_have_one_reply();
}

/// Where turns lead ever deeper, but for places, no schedule uses a budget up.
pub fn permuted_budgets_suffice()
    ensures { PermutedBudgetsSuffice }
{
    bpf_live::laws::alike_is_an_equivalence();
    bpf_live::laws::steps_are_alike();
    bpf_live::laws::one_state_is_alike();
    bpf_mem::laws::writes_are_determined();
    bpf_loader::laws::one_instruction_begins();
    bpf_shared::laws::calls_have_one_reply();
}

/// Where equal CPUs may be exchanged, each move leaves the world as it is.
pub fn exchanges_are_symmetries()
    ensures { ExchangesAreSymmetries }
{}

/// A schedule to a hung state leads to one with two equal CPUs exchanged.
pub fn hung_are_exchanged()
    ensures { HungAreExchanged }
{}

/// What a machine covers lies beyond the schedules that lead to it.
pub fn covered_lie_beyond()
    ensures { CoveredLieBeyond }
{}

/// What lies beyond a schedule lies, exchanged, beyond the exchanged one.
pub fn beyond_is_exchanged()
    ensures { BeyondIsExchanged }
{}
