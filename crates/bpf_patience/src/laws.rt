//! What follows from the definition of the x86 machine for a search that passes over how many steps are
//! left of budgets.
//!
//! The functions do nothing: their contracts are the laws.
ghost use Rattle.bpf_patience.specs.Patience.{FreeMovesAgree, PatientSetsCoverX86};
ghost use Rattle.bpf_patience.specs.Ends.{PatientSetsLeadOn, StuckX86sAreHung, X86sCanEnd};

/// A list that moves, each with unseen turns after it, don't lead out of but for dead registers and budgets
/// shows each machine without work that schedules of moves lead to while no job runs out of budget.
pub fn patient_sets_cover_x86()
    ensures { PatientSetsCoverX86 }
{
    bpf_live::laws::alike_is_an_equivalence();
    bpf_live::laws::steps_are_alike();
    bpf_mem::laws::writes_are_determined();
    bpf_loader::laws::one_instruction_begins();
    bpf_shared::laws::calls_have_one_reply();
}

/// Where jobs are given steps on the way, moves lead to the same, but for richer jobs, as with the budgets
/// that jobs have, as long as no job runs out of budget.
pub fn free_moves_agree()
    ensures { FreeMovesAgree }
{
    bpf_mem::laws::writes_are_determined();
    bpf_loader::laws::one_instruction_begins();
    bpf_shared::laws::calls_have_one_reply();
}

/// What moves lead to, and a kept machine shows, but for richer jobs and dead registers, from which all moves
/// lead to others like it, never ends.
pub fn stuck_x86s_are_hung()
    ensures { StuckX86sAreHung }
{
    bpf_live::laws::alike_is_an_equivalence();
    bpf_live::laws::steps_are_alike();
    bpf_mem::laws::writes_are_determined();
    bpf_loader::laws::one_instruction_begins();
    bpf_shared::laws::calls_have_one_reply();
}

/// Where moves lead from a kept machine to an end, what it shows but for dead registers can reach one.
pub fn x86s_can_end()
    ensures { X86sCanEnd }
{
    bpf_live::laws::alike_is_an_equivalence();
    bpf_live::laws::steps_are_alike();
}

/// All that schedules of moves lead to while no job runs out of budget leads on to what a list shows, but for
/// dead registers, that moves don't lead out of but for those and budgets.
pub fn patient_sets_lead_on()
    ensures { PatientSetsLeadOn }
{
    bpf_live::laws::alike_is_an_equivalence();
    bpf_live::laws::steps_are_alike();
    bpf_mem::laws::writes_are_determined();
    bpf_loader::laws::one_instruction_begins();
    bpf_shared::laws::calls_have_one_reply();
}
