//! What follows from the definition of a history with store buffers.
//!
//! The functions do nothing: their contracts are the laws.
ghost use Rattle.bpf_buffer_events.specs.Printed.{HistoriesAreOfReportsWithBuffers, HistoriesWithBuffersAreDetermined};

/// After the lines of a history is the report of its run.
pub fn histories_are_of_reports_with_buffers()
    ensures { HistoriesAreOfReportsWithBuffers }
{}

/// What is printed is a function of the store's shape, the names, the programs, the jobs and the
/// schedule.
pub fn histories_with_buffers_are_determined()
    ensures { HistoriesWithBuffersAreDetermined }
{
    bpf_mem::laws::writes_are_determined();
    bpf_loader::laws::one_instruction_begins();
    bpf_shared::laws::calls_have_one_reply();
}
