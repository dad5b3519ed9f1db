//! What follows from the definitions of turns and schedules, and of what is saved, as promises to
//! the crates above.
//!
//! These functions do nothing: their contracts are the laws, which a proof cites.
ghost use Rattle.bpf_machine.specs.Questions.{TurnsFall};
ghost use Rattle.bpf_machine.specs.Happenings.{HappeningsAreOfRuns};
ghost use Rattle.bpf_machine.specs.Laws.{HappeningsAreDetermined, RoundsAreDetermined, RunsByAreDetermined, SavedTellsStages, SchedulesAreDetermined};
ghost use Rattle.bpf_machine.specs.Cover.{ClosedSetsCover};
ghost use Rattle.bpf_machine.specs.Race.{RacesAreKept};
ghost use Rattle.bpf_machine.specs.Patient.{PatientSetsCover, PatientRacesAreKept};
ghost use Rattle.bpf_machine.specs.Ends.{FreeRunsAgree};

/// Over a plain store, a schedule has one run.
pub fn schedules_are_determined()
    ensures { SchedulesAreDetermined }
{
    bpf_mem::laws::writes_are_determined();
    bpf_loader::laws::one_instruction_begins();
    bpf_shared::laws::calls_have_one_reply();
}

/// Each turn with work leaves fewer turns, and one that ends a job one open job less.
pub fn turns_fall()
    ensures { TurnsFall }
{}

/// Over a plain store, rounds leave one machine.
pub fn rounds_are_determined()
    ensures { RoundsAreDetermined }
{
    bpf_mem::laws::writes_are_determined();
    bpf_loader::laws::one_instruction_begins();
    bpf_shared::laws::calls_have_one_reply();
}

/// So do rounds after the turns of a schedule.
pub fn runs_by_are_determined()
    ensures { RunsByAreDetermined }
{
    bpf_mem::laws::writes_are_determined();
    bpf_loader::laws::one_instruction_begins();
    bpf_shared::laws::calls_have_one_reply();
}

/// Rounds after a schedule, with what happens in them, are rounds after that schedule.
pub fn happenings_are_of_runs()
    ensures { HappeningsAreOfRuns }
{}

/// Over a plain store, one thing happens in them.
pub fn happenings_are_determined()
    ensures { HappeningsAreDetermined }
{
    bpf_mem::laws::writes_are_determined();
    bpf_loader::laws::one_instruction_begins();
    bpf_shared::laws::calls_have_one_reply();
}

/// A closed list of machines covers all that schedules lead to.
pub fn closed_sets_cover()
    ensures { ClosedSetsCover }
{
    bpf_mem::laws::writes_are_determined();
    bpf_loader::laws::one_instruction_begins();
    bpf_shared::laws::calls_have_one_reply();
}

/// Each race that a schedule leads to is one in what a closed list of machines shows.
pub fn races_are_kept()
    ensures { RacesAreKept }
{
    bpf_mem::laws::writes_are_determined();
    bpf_loader::laws::one_instruction_begins();
    bpf_shared::laws::calls_have_one_reply();
}

/// A list that is closed but for budgets covers all that schedules lead to while no job runs out of
/// budget.
pub fn patient_sets_cover()
    ensures { PatientSetsCover }
{
    bpf_mem::laws::writes_are_determined();
    bpf_loader::laws::one_instruction_begins();
    bpf_shared::laws::calls_have_one_reply();
}

/// Each race that such a schedule leads to is one in what the list shows.
pub fn patient_races_are_kept()
    ensures { PatientRacesAreKept }
{
    bpf_mem::laws::writes_are_determined();
    bpf_loader::laws::one_instruction_begins();
    bpf_shared::laws::calls_have_one_reply();
}

/// With steps that are given to jobs a schedule leads to the same, as long as no job runs out of
/// budget without them.
pub fn free_runs_agree()
    ensures { FreeRunsAgree }
{
    bpf_mem::laws::writes_are_determined();
    bpf_loader::laws::one_instruction_begins();
    bpf_shared::laws::calls_have_one_reply();
}

/// What a stage is saved as determines it, of a job whose CPU and context are known.
pub fn saved_tells_stages()
    ensures { SavedTellsStages }
{}
