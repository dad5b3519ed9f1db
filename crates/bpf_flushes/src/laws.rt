//! What follows from the definition of a run with store buffers.
//!
//! The functions do nothing: their contracts are the laws.
ghost use Rattle.bpf_flushes.specs.Printed.{LastsAreReached, ReportsWithBuffersAreDetermined};

/// What is printed is a function of the store's shape, the names, the programs, the jobs and the
/// schedule.
pub fn reports_with_buffers_are_determined()
    ensures { ReportsWithBuffersAreDetermined }
{
    bpf_buffering::laws::moves_are_determined();
}

/// What a schedule and rounds after it lead to, moves of the x86 machine lead to, and nothing waits
/// there.
pub fn lasts_are_reached()
    ensures { LastsAreReached }
{
    bpf_buffering::laws::nothing_waits_at_last();
}
