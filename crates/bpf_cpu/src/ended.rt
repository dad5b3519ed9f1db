//! How a job ended, as bytes, and from such bytes.

ghost use Rattle.std.specs.Prelude.{◌≡◌, [], ◌∷◌, ◌++◌, List, ℕ, OnOk, OnErr, IfSome, IfNone};
ghost use Rattle.std.specs.Io.{StartsWith};
ghost use Rattle.bpf_cpu.specs.declared.outcome.Fault.{Fault as Reason};
ghost use Rattle.bpf_cpu.specs.declared.outcome.Outcome.{Outcome};
ghost use Rattle.bpf_cpu.specs.Saved.{fault_number, outcome_saved, outcome_words, IsSavableOutcome};

use crate::outcome::{Fault, Outcome};
use bpf_mem::{read_words, save_words};
use std::alloc::AllocError;

/// A fault's number.
fn number_of(fault: Fault) -> u64
    ensures { result ≡ fault_number fault }
{
    match fault {
        Fault::BadAddress => 1,
        Fault::Misaligned => 2,
        Fault::CallDepth => 3,
        Fault::NotAMap => 4,
        Fault::TooManyHeld => 5,
        Fault::Worn => 6,
        Fault::ReadOnly => 8,
    }
}

/// The fault of this number.
fn fault_of(number: u64) -> Option<Fault>
    ensures some { IfSome result (λ fault. fault_number fault ≡ number) }
    ensures none { IfNone result ((fault : Reason) → fault_number fault ≡ number → ⊥) }
{
    match number {
        1 => Some(Fault::BadAddress),
        2 => Some(Fault::Misaligned),
        3 => Some(Fault::CallDepth),
        4 => Some(Fault::NotAMap),
        5 => Some(Fault::TooManyHeld),
        6 => Some(Fault::Worn),
        8 => Some(Fault::ReadOnly),
        _ => None,
    }
}

/// An outcome's two words.
fn words_of(outcome: Outcome) -> [u64; 2]
    ensures { result ≡ outcome_words outcome }
{
    match outcome {
        Outcome::Exit(number) => [0, number],
        Outcome::Fault(fault, pc) => [number_of(fault), u64::from(pc)],
        Outcome::OutOfBudget(pc) => [7, u64::from(pc)],
    }
}

/// The outcome of these words.
fn outcome_of(kind: u64, number: u64) -> Option<Outcome>
    ensures some { IfSome result (λ outcome. outcome_words outcome ≡ kind ∷ number ∷ []) }
    ensures savable { IfSome result (λ outcome. IsSavableOutcome outcome) }
    ensures none { IfNone result ((other : Outcome) → IsSavableOutcome other
        → outcome_words other ≡ kind ∷ number ∷ [] → ⊥) }
{
    if kind == 0 {
        return Some(Outcome::Exit(number));
    }
    if number > u64::from(u32::MAX) {
        return None;
    }
    let pc = number as u32;
    if kind == 7 {
        return Some(Outcome::OutOfBudget(pc));
    }
    let fault = fault_of(kind)?;
    Some(Outcome::Fault(fault, pc))
}

/// An outcome is determined by what it is saved as: says so, and does nothing.
pub fn is_savable_outcome(outcome: Outcome)
    ensures { IsSavableOutcome outcome }
{
    match outcome {
        Outcome::Exit(_number) => {}
        Outcome::Fault(_, _pc) => {}
        Outcome::OutOfBudget(_pc) => {}
    }
}

/// Appends to the bytes what an outcome is saved as.
pub fn save_outcome(outcome: Outcome, out: &mut Vec<u8>) -> Result<(), AllocError>
    ensures ok { OnOk result (out.new.items ≡ out.old.items ++ outcome_saved outcome) }
    ensures err { OnErr result (StartsWith out.new.items out.old.items) }
{
    save_words(&words_of(outcome), out)
}

/// The outcome whose saved form the bytes begin with; what comes after it.
pub fn read_outcome(bytes: &[u8]) -> Option<(Outcome, &[u8])>
    ensures some { IfSome result (λ r. bytes.now ≡ outcome_saved r.0 ++ r.1.now) }
    ensures savable { IfSome result (λ r. IsSavableOutcome r.0) }
    ensures none { IfNone result ((other : Outcome) (more : List ℕ) → IsSavableOutcome other
        → bytes.now ≡ outcome_saved other ++ more → ⊥) }
{
    let mut words = [0; 2];
    let rest = read_words(&mut words, bytes)?;
    let outcome = outcome_of(words[0], words[1])?;
    Some((outcome, rest))
}
