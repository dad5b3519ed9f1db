//! What follows from the definition of what is printed.
//!
//! The function does nothing: its contract is the law.
ghost use Rattle.bpf_jobs.specs.Laws.{ReportsByAreDetermined};

/// What is printed is a function of the store's shape, the maps' names, the programs, the jobs and the
/// schedule.
pub fn reports_by_are_determined()
    ensures { ReportsByAreDetermined }
{
    bpf_machine::laws::runs_by_are_determined();
}
