//! What follows from the definition of a report with packets.
//!
//! The function does nothing: its contract is the law.
ghost use Rattle.bpf_packets.specs.Reports.{ReportsWithPacketsAreDetermined};

/// What is printed is a function of the store's shape, the names, the programs, the jobs and the
/// schedule.
pub fn reports_with_packets_are_determined()
    ensures { ReportsWithPacketsAreDetermined }
{
    bpf_mem::laws::writes_are_determined();
    bpf_loader::laws::one_instruction_begins();
    bpf_shared::laws::calls_have_one_reply();
    bpf_jobs::laws::reports_by_are_determined();
}
