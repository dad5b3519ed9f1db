//! What follows from the definition of a state, as promises to the crates above.
//!
//! These functions do nothing: their contracts are the laws, which a proof cites.
ghost use Rattle.bpf_buffer_expand.specs.Laws.{LinesCoverX86, PatientStatesCoverX86, StatesCoverX86};

/// States of which each move leads to one of them show every end.
pub fn states_cover_x86()
    ensures { StatesCoverX86 }
{
    bpf_plain::laws::saved_alike_look_alike();
    bpf_plain::laws::alike_stand_alike();
    bpf_buffering::laws::ahead_sets_cover_x86();
}

/// Such states show every end that is reached while no job runs out of budget, where how many steps
/// are left of budgets is passed over.
pub fn patient_states_cover_x86()
    ensures { PatientStatesCoverX86 }
{
    bpf_plain::laws::saved_alike_look_alike();
    bpf_plain::laws::alike_stand_alike();
    bpf_patience::laws::patient_sets_cover_x86();
}

/// Lines of states that are closed under what they are answered have the report of each end; where how
/// many steps are left of budgets is passed over, of each that is reached while no job runs out of
/// budget.
pub fn lines_cover_x86()
    ensures { LinesCoverX86 }
{
    states_cover_x86();
    patient_states_cover_x86();
    bpf_plain::laws::saved_alike_look_alike();
    bpf_plain::laws::alike_stand_alike();
}
