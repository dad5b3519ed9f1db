//! What the store answers, as programs get it.

ghost use Rattle.std.specs.Prelude.{◌≡◌, true, [], ◌∷◌, Option, IfSome};
ghost use Rattle.bpf_shared.specs.declared.events.Event.{Event};
ghost use Rattle.bpf_shared.specs.declared.events.Span.{Span};
ghost use Rattle.bpf_shared.specs.Chain.{Chain};
ghost use Rattle.bpf_shared.specs.Shape.{IsKeyOf};
ghost use Rattle.bpf_helpers.specs.Held.{AreElements, AreHeld, KeepsRun};
ghost use Rattle.bpf_helpers.specs.Calls.{TakesAnswer, answer_number};

use crate::fault::HelperFault;
use crate::held::HeldSpans;
use bpf_shared::{MapAnswer, Shared, Span};

/// An answer as a program gets it: 0, or 2^64 less the error's number.
pub(crate) fn number_of_answer(answer: MapAnswer) -> u64
    ensures { result ≡ answer_number answer }
{
    match answer {
        MapAnswer::Done => 0,
        MapAnswer::Invalid => u64::MAX - 21,
        MapAnswer::Busy => u64::MAX - 15,
        MapAnswer::Exists => u64::MAX - 16,
        MapAnswer::Absent => u64::MAX - 1,
        MapAnswer::Full => u64::MAX - 6,
        MapAnswer::NoMemory => u64::MAX - 11,
    }
}

/// Goes on with a lookup's answer.
fn take_answer(held: &mut HeldSpans, answer: Option<Span>) -> Result<u64, HelperFault>
    requires elements { IfSome answer (λ p. AreElements (p ∷ held.old)) }
    ensures { TakesAnswer answer held.old result held.new }
{
    match answer {
        None => Ok(0),
        Some(span) => {
            if held.is_full() && !held.has(span) {
                return Err(HelperFault::TooManyHeld);
            }
            held.hold(span);
            Ok(span.at)
        }
    }
}

/// Looks up a key that was read.
pub(crate) fn look_up<S: Shared>(
    cpu: u8,
    map: u8,
    key: &[u8],
    held: &mut HeldSpans,
    shared: &mut S,
) -> Result<u64, HelperFault>
    requires serves { S.serves shared.old cpu ≡ true }
    requires in_run { S.running shared.old cpu ≡ true }
    requires key { IsKeyOf (S.shapes shared.old).maps map key.now }
    requires held { AreHeld (S.held shared.old cpu) held.old }
    ensures call { (answer : Option Span)
        × Chain S.passes S.serves cpu shared.old shared.new (Event.Lookup map key.now answer ∷ [])
        × TakesAnswer answer held.old result held.new }
    ensures held { AreHeld (S.held shared.new cpu) held.new }
    ensures keeps { KeepsRun S.shapes S.running S.held cpu shared.old shared.new }
{
    let answer = shared.lookup(cpu, map, key);
    take_answer(held, answer)
}
