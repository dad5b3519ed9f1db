//! What follows from the definition of a history.
//!
//! The functions do nothing: their contracts are the laws.
ghost use Rattle.bpf_events.specs.Reports.{HistoriesAreDetermined, HistoriesAreOfReports};

/// After the lines of a history is the report of its run.
pub fn histories_are_of_reports()
    ensures { HistoriesAreOfReports }
{
    bpf_machine::laws::happenings_are_of_runs();
}

/// What is printed is a function of the store's shape, the maps' names, the programs, the jobs and
/// the schedule.
pub fn histories_are_determined()
    ensures { HistoriesAreDetermined }
{
    bpf_machine::laws::happenings_are_determined();
    bpf_jobs::laws::reports_by_are_determined();
    bpf_machine::laws::happenings_are_of_runs();
}
