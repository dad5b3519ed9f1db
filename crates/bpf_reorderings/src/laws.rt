//! What follows from the definitions.
//!
//! The function does nothing: its contract is the law.
ghost use Rattle.bpf_reorderings.specs.Laws.{OutcomesAreX86s};

/// Each outcome that jobs have by turns alone, they have on CPUs with store buffers too.
pub fn outcomes_are_x86s()
    ensures { OutcomesAreX86s }
{
    bpf_x86::laws::orders_are_x86s();
}
