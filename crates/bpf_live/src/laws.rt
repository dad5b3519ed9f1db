//! What follows from the definition of states that are alike, as promises to the crates above.
//!
//! These functions do nothing: their contracts are the laws, which a proof cites.
ghost use Rattle.bpf_live.specs.Laws.{AlikeIsAnEquivalence, OneStateIsAlike, StepsAreAlike};

/// States that are alike make the same steps.
pub fn steps_are_alike()
    ensures { StepsAreAlike }
{}

/// To be alike is an equivalence.
pub fn alike_is_an_equivalence()
    ensures { AlikeIsAnEquivalence }
{}

/// Where a step leads to one state whatever the store, so does it from a state that is alike.
pub fn one_state_is_alike()
    ensures { OneStateIsAlike }
{
    bpf_loader::laws::one_instruction_begins();
}
