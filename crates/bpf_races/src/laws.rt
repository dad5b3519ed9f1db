//! What follows from the definitions.
//!
//! The functions do nothing: their contracts are the laws.
ghost use Rattle.bpf_races.specs.OnX86.{AnswersHoldOnX86};

/// Where x86 adds nothing, answers that are all outcomes of sequential consistency are all of x86 too.
pub fn answers_hold_on_x86()
    ensures { AnswersHoldOnX86 }
{}
