//! What follows from the definition of a state, as promises to the crates above.
//!
//! These functions do nothing: their contracts are the laws, which a proof cites.
ghost use Rattle.bpf_expand.specs.Laws.{CallsClose, LinesCover, LinesHaveRaces, PatientStatesCover, StatesCover};

/// States of which each CPU's turn leads to one of them cover all that schedules lead to.
pub fn states_cover()
    ensures { StatesCover }
{
    bpf_plain::laws::saved_alike_look_alike();
    bpf_plain::laws::alike_stand_alike();
    bpf_machine::laws::closed_sets_cover();
}

/// Such states cover all schedules in which no job runs out of budget, where how many steps are left
/// of budgets
/// is passed over.
pub fn patient_states_cover()
    ensures { PatientStatesCover }
{
    bpf_plain::laws::saved_alike_look_alike();
    bpf_plain::laws::alike_stand_alike();
    bpf_machine::laws::patient_sets_cover();
}

/// States that calls read and find, until all that is new was read, are so.
pub fn calls_close()
    ensures { CallsClose }
{}

/// Lines of states that are closed under what they are answered have the report of each end; where how
/// many steps are left of budgets is passed over, of each to which no job runs out of budget.
pub fn lines_cover()
    ensures { LinesCover }
{
    states_cover();
    patient_states_cover();
    bpf_plain::laws::saved_alike_look_alike();
    bpf_plain::laws::alike_stand_alike();
}

/// Where the races of such lines are printed, these are all to which those schedules lead.
pub fn lines_have_races()
    ensures { LinesHaveRaces }
{
    bpf_plain::laws::saved_alike_look_alike();
    bpf_plain::laws::alike_stand_alike();
    bpf_machine::laws::races_are_kept();
    bpf_machine::laws::patient_races_are_kept();
}
