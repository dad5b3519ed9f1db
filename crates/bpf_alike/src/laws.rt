//! What follows from the definition of jobs that are alike, as promises to the crates above.
//!
//! These functions do nothing: their contracts are the laws, which a proof cites.
ghost use Rattle.bpf_alike.specs.Covers.{AlikeRacesAreKept, AlikeSetsCover, AlikeSetsHaveTurns};
ghost use Rattle.bpf_alike.specs.Patient.{AlikePatientRacesAreKept, AlikePatientSetsCover, AlikePatientSetsHaveTurns};
ghost use Rattle.bpf_alike.specs.Ends.{AlikeAllCanEnd, AlikeCanEnd, AlikeStuckAreHung};
ghost use Rattle.bpf_alike.specs.Budgets.{AlikeBudgetsSuffice};

/// A list of machines that is closed but for dead registers covers all that schedules lead to.
pub fn alike_sets_cover()
    ensures { AlikeSetsCover }
{
    bpf_live::laws::alike_is_an_equivalence();
    bpf_live::laws::steps_are_alike();
    bpf_live::laws::one_state_is_alike();
    bpf_mem::laws::writes_are_determined();
    bpf_loader::laws::one_instruction_begins();
    bpf_shared::laws::calls_have_one_reply();
}

/// Each CPU has its next turn in all that schedules lead to.
pub fn alike_sets_have_turns()
    ensures { AlikeSetsHaveTurns }
{
    bpf_live::laws::alike_is_an_equivalence();
    bpf_live::laws::steps_are_alike();
    bpf_live::laws::one_state_is_alike();
    bpf_mem::laws::writes_are_determined();
    bpf_loader::laws::one_instruction_begins();
    bpf_shared::laws::calls_have_one_reply();
}

/// Each race that a schedule leads to is one in what such a list shows.
pub fn alike_races_are_kept()
    ensures { AlikeRacesAreKept }
{
    bpf_live::laws::alike_is_an_equivalence();
    bpf_live::laws::steps_are_alike();
    bpf_live::laws::one_state_is_alike();
    bpf_mem::laws::writes_are_determined();
    bpf_loader::laws::one_instruction_begins();
    bpf_shared::laws::calls_have_one_reply();
}

/// A list that is closed but for dead registers and budgets covers all that schedules lead to while no
/// job runs out of budget.
pub fn alike_patient_sets_cover()
    ensures { AlikePatientSetsCover }
{
    bpf_live::laws::alike_is_an_equivalence();
    bpf_live::laws::steps_are_alike();
    bpf_live::laws::one_state_is_alike();
    bpf_mem::laws::writes_are_determined();
    bpf_loader::laws::one_instruction_begins();
    bpf_shared::laws::calls_have_one_reply();
}

/// With richer jobs each CPU has its next turn there.
pub fn alike_patient_sets_have_turns()
    ensures { AlikePatientSetsHaveTurns }
{
    bpf_live::laws::alike_is_an_equivalence();
    bpf_live::laws::steps_are_alike();
    bpf_live::laws::one_state_is_alike();
    bpf_mem::laws::writes_are_determined();
    bpf_loader::laws::one_instruction_begins();
    bpf_shared::laws::calls_have_one_reply();
}

/// Each race that such a schedule leads to is one in what the list shows.
pub fn alike_patient_races_are_kept()
    ensures { AlikePatientRacesAreKept }
{
    bpf_live::laws::alike_is_an_equivalence();
    bpf_live::laws::steps_are_alike();
    bpf_live::laws::one_state_is_alike();
    bpf_mem::laws::writes_are_determined();
    bpf_loader::laws::one_instruction_begins();
    bpf_shared::laws::calls_have_one_reply();
}

/// From machines whose turns lead to no end, none is reached, however many steps jobs are given.
pub fn alike_stuck_are_hung()
    ensures { AlikeStuckAreHung }
{
    bpf_live::laws::alike_is_an_equivalence();
    bpf_live::laws::steps_are_alike();
    bpf_live::laws::one_state_is_alike();
    bpf_mem::laws::writes_are_determined();
    bpf_loader::laws::one_instruction_begins();
    bpf_shared::laws::calls_have_one_reply();
}

/// Where turns lead from a machine to an end, so does all that it covers.
pub fn alike_can_end()
    ensures { AlikeCanEnd }
{
    bpf_live::laws::alike_is_an_equivalence();
    bpf_live::laws::steps_are_alike();
    bpf_live::laws::one_state_is_alike();
}

/// Where each machine of such a list leads to an end, so does all that schedules lead to before some
/// job runs out of budget.
pub fn alike_all_can_end()
    ensures { AlikeAllCanEnd }
{
    bpf_live::laws::alike_is_an_equivalence();
    bpf_live::laws::steps_are_alike();
    bpf_live::laws::one_state_is_alike();
    bpf_mem::laws::writes_are_determined();
    bpf_loader::laws::one_instruction_begins();
    bpf_shared::laws::calls_have_one_reply();
}

/// Where turns lead ever deeper, and no machine is as deep as a budget, none is used up.
pub fn alike_budgets_suffice()
    ensures { AlikeBudgetsSuffice }
{
    bpf_live::laws::alike_is_an_equivalence();
    bpf_live::laws::steps_are_alike();
    bpf_live::laws::one_state_is_alike();
    bpf_mem::laws::writes_are_determined();
    bpf_loader::laws::one_instruction_begins();
    bpf_shared::laws::calls_have_one_reply();
}
