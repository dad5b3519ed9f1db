//! Answers of a patient search, each tried by its schedule, with the budgets that jobs have.

ghost use Rattle.std.specs.Prelude.{◌≡◌, ◌<◌, ◌⊎◌, ℕ, Bool, List, true, false, Some, IfOk, IfSome, IfNone, OnOk, length, map, slice_get, string_bytes};
ghost use Rattle.bpf_names.specs.Names.{Names as FileNames, names_of};
ghost use Rattle.bpf_machine.specs.Schedule.{World};
ghost use Rattle.bpf_explore.specs.Album.{HaveEndedAt};
ghost use Rattle.bpf_explore.specs.Patient.{ArePatient, EndsPatiently};
ghost use Rattle.bpf_explore.specs.Private.Answers.{AreSorted, IsFirst, KeepsAll, IsPlaceOf, IsAnsweredAt, StartsFresh};
ghost use Rattle.bpf_explore.specs.Private.Patience.{AllEndPatiently, LeadsInBudget};
ghost use Rattle.bpf_explore.specs.Private.Replays.{CanRunOut};

use crate::answers::{Answer, place_of};
use crate::runs::Freely;
use crate::spread::Spread;
use bpf_jobs::{Report, tell};
use bpf_names::Names;
use std::alloc::{AllocError, Global};

/// The schedule that leads to a kept machine without work, with the budgets that jobs have; `None`
/// where it uses a budget up.
fn way_in_budget(
    spread: &mut Spread<Freely>,
    place: usize,
) -> Result<Option<Vec<(u8, u64)>>, AllocError>
    requires place { place < length spread.old.kept }
    requires fresh { StartsFresh spread.old.kept }
    requires ended { HaveEndedAt spread.old.kept place }
    ensures same { spread.new.kept ≡ spread.old.kept }
    ensures leads { IfOk result (λ way. IfSome way (λ by.
        LeadsInBudget spread.old.kept by.items place)) }
    ensures out { IfOk result (λ way. IfNone way (CanRunOut spread.old.kept)) }
{
    bpf_machine::laws::free_runs_agree();
    let by = spread.way(place)?;
    if spread.replay(&by)? {
        return Ok(None);
    }
    Ok(Some(by))
}

/// Puts an answer in its place.
fn put_patiently(answers: &mut Vec<Answer>, at: usize, answer: Answer) -> Result<(), AllocError>
    requires sorted { AreSorted answers.old.items }
    requires place { IsPlaceOf answers.old.items answer.text at }
    ensures sorted { AreSorted answers.new.items }
    ensures keeps { KeepsAll answers.old.items answers.new.items }
    ensures ends { (w : World) (names : FileNames) (maps : Bool)
        → EndsPatiently w names maps answer → AllEndPatiently w names maps answers.old.items
        → AllEndPatiently w names maps answers.new.items }
    ensures put { OnOk result (slice_get answers.new.items at ≡ Some answer) }
{
    answers.insert(at, answer)?;
    Ok(())
}

/// Puts what is printed of a kept machine without work among the answers, if that isn't one of them
/// yet. Whether it is one then: not where the schedule to it uses a budget up.
fn tell_ended(
    alloc: Global,
    spread: &mut Spread<Freely>,
    names: &Names,
    maps: bool,
    answers: &mut Vec<Answer>,
    place: usize,
) -> Result<bool, AllocError>
    requires place { place < length spread.old.kept }
    requires fresh { StartsFresh spread.old.kept }
    requires ended { HaveEndedAt spread.old.kept place }
    requires sorted { AreSorted answers.old.items }
    requires ends { (w : World) → IsFirst spread.old.kept w
        → AllEndPatiently w (names_of names.now) maps answers.old.items }
    ensures same { spread.new.kept ≡ spread.old.kept }
    ensures sorted { AreSorted answers.new.items }
    ensures keeps { KeepsAll answers.old.items answers.new.items }
    ensures ends { (w : World) → IsFirst spread.old.kept w
        → AllEndPatiently w (names_of names.now) maps answers.new.items }
    ensures answered { IfOk result (λ answered. answered ≡ true → IsAnsweredAt spread.old.kept
        (names_of names.now) maps answers.new.items place) }
    ensures out { IfOk result (λ answered. answered ≡ false → CanRunOut spread.old.kept) }
{
    spread.leads();
    spread.restore(place)?;
    let Report { text, stopped } = tell(alloc, spread.machine(), names, maps)?;
    match place_of(answers, text.as_str()) {
        Ok(_) => Ok(true),
        Err(at) => {
            let Some(by) = way_in_budget(spread, place)? else {
                return Ok(false);
            };
            put_patiently(answers, at, Answer::new(text, stopped, by))?;
            Ok(true)
        }
    }
}

/// Puts what is printed of a kept machine among the answers, if it has no work.
fn tell_at(
    alloc: Global,
    spread: &mut Spread<Freely>,
    names: &Names,
    maps: bool,
    answers: &mut Vec<Answer>,
    place: usize,
) -> Result<bool, AllocError>
    requires place { place < length spread.old.kept }
    requires fresh { StartsFresh spread.old.kept }
    requires sorted { AreSorted answers.old.items }
    requires ends { (w : World) → IsFirst spread.old.kept w
        → AllEndPatiently w (names_of names.now) maps answers.old.items }
    ensures same { spread.new.kept ≡ spread.old.kept }
    ensures sorted { AreSorted answers.new.items }
    ensures keeps { KeepsAll answers.old.items answers.new.items }
    ensures ends { (w : World) → IsFirst spread.old.kept w
        → AllEndPatiently w (names_of names.now) maps answers.new.items }
    ensures answered { IfOk result (λ answered. answered ≡ true → IsAnsweredAt spread.old.kept
        (names_of names.now) maps answers.new.items place) }
    ensures out { IfOk result (λ answered. answered ≡ false → CanRunOut spread.old.kept) }
{
    if !spread.has_ended(place) {
        return Ok(true);
    }
    tell_ended(alloc, spread, names, maps, answers, place)
}

/// Whether both hold.
pub(crate) fn both(first: bool, second: bool) -> bool
    ensures both { result ≡ true → (first ≡ true) × (second ≡ true) }
    ensures not { result ≡ false → (first ≡ false) ⊎ (second ≡ false) }
{
    first && second
}

/// The answers, and whether what is printed of each kept machine without work is one.
pub(crate) fn gather_patiently(
    alloc: Global,
    spread: &mut Spread<Freely>,
    names: &Names,
    maps: bool,
) -> Result<(Vec<Answer>, bool), AllocError>
    requires { StartsFresh spread.old.kept }
    ensures same { spread.new.kept ≡ spread.old.kept }
    ensures outcomes { IfOk result (λ r. (w : World) → IsFirst spread.old.kept w
        → ArePatient w (names_of names.now) maps r.0.items) }
    ensures answered { IfOk result (λ r. r.1 ≡ true → (i : ℕ) → IsAnsweredAt spread.old.kept
        (names_of names.now) maps r.0.items i) }
    ensures out { IfOk result (λ r. r.1 ≡ false → CanRunOut spread.old.kept) }
{
    let mut answers = Vec::new(alloc);
    let mut whole = true;
    for place in 0..spread.len() {
        let answered = tell_at(alloc, spread, names, maps, &mut answers, place)?;
        whole = both(whole, answered);
    }
    Ok((answers, whole))
}
