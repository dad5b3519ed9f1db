//! What follows from the definition of the x86 machine for a search through its moves.
//!
//! The functions do nothing: their contracts are the laws.
ghost use Rattle.bpf_buffering.specs.Ahead.{AheadSetsCoverX86};
ghost use Rattle.bpf_buffering.specs.Search.{CallsAreLocal, MovesAreDetermined, NothingWaitsAtLast};

/// A schedule of moves has one course.
pub fn moves_are_determined()
    ensures { MovesAreDetermined }
{
    bpf_mem::laws::writes_are_determined();
    bpf_loader::laws::one_instruction_begins();
    bpf_shared::laws::calls_have_one_reply();
}

/// Where all jobs have ended, nothing waits.
pub fn nothing_waits_at_last()
    ensures { NothingWaitsAtLast }
{}

/// What a CPU's calls do doesn't depend on what waits in other CPUs' buffers.
pub fn calls_are_local()
    ensures { CallsAreLocal }
{}

/// A list that moves, each with unseen turns after it, don't lead out of but for dead registers shows each
/// machine without work that schedules of moves lead to.
pub fn ahead_sets_cover_x86()
    ensures { AheadSetsCoverX86 }
{
    bpf_live::laws::alike_is_an_equivalence();
    bpf_live::laws::steps_are_alike();
    bpf_mem::laws::writes_are_determined();
    bpf_loader::laws::one_instruction_begins();
    bpf_shared::laws::calls_have_one_reply();
}
