//! Answers: what is printed of kept machines without work, each with a schedule that leads there.

ghost use Rattle.std.specs.Prelude.{◌≡◌, ◌<◌, ◌+◌, ℕ, Bool, List, Some, IfOk, IfErr, OnOk, length, map, slice_get, string_bytes};
ghost use Rattle.std.specs.List.{list_any};
ghost use Rattle.bpf_names.specs.Names.{Names as FileNames, names_of};
ghost use Rattle.bpf_machine.specs.Schedule.{World};
ghost use Rattle.bpf_explore.specs.Album.{HaveEndedAt};
ghost use Rattle.bpf_explore.specs.Outcomes.{Found, AreOutcomes, EndsBy};
ghost use Rattle.bpf_explore.specs.Private.Answers.{AreSorted, IsFirst, AllEnd, KeepsAll, IsPlaceOf, IsAnsweredAt, Gathered};

use crate::runs::Strictly;
use crate::spread::Spread;
use bpf_jobs::{Report, tell};
use bpf_names::Names;
use std::alloc::{AllocError, Global};
use std::cmp::Ordering;
use std::marker::Model;

/// An outcome, with a schedule that leads to it.
#[derive(Drop)]
pub struct Answer {
    text: String,
    stopped: bool,
    by: Vec<(u8, u64)>,
}

impl Model for Answer {
    ghost use Rattle.std.specs.Prelude.{string_bytes};
    ghost use Rattle.bpf_explore.specs.Outcomes.{Found};

    ghost Value = { Found };

    ghost view = { λ a. record { text = string_bytes a.text; stopped = a.stopped; by = a.by.items } };
}

impl Answer {
    /// What is printed, with a schedule that leads there.
    pub fn new(text: String, stopped: bool, by: Vec<(u8, u64)>) -> Answer
        ensures { result ≡ record { text = string_bytes text; stopped = stopped; by = by.items } }
    {
        Answer { text, stopped, by }
    }

    /// What is printed: a line a job, and those of the maps and arrays where they are asked for.
    pub fn text(&self) -> &str
        ensures { result.now ≡ self.now.text }
    {
        self.text.as_str()
    }

    /// Whether some job ended in a fault or out of budget.
    pub fn stopped(&self) -> bool
        ensures { result ≡ self.now.stopped }
    {
        self.stopped
    }

    /// The schedule: CPUs, each with how many turns it makes before the next.
    pub fn by(&self) -> &[(u8, u64)]
        ensures { result.now ≡ self.now.by }
    {
        &self.by
    }
}

/// Whether some answer has a job that ended in a fault or out of budget.
pub fn is_any_stopped(answers: &[Answer]) -> bool
    ensures { result ≡ list_any (λ found. found.stopped) answers.now }
{
    answers.iter().any(|answer| answer.stopped())
}

/// The place of a text among sorted answers: of the one that has it, or where it is to be.
pub(crate) fn place_of(answers: &[Answer], text: &str) -> Result<usize, usize>
    requires { AreSorted answers.now }
    ensures found { IfOk result (λ i. (found : Found) × (slice_get answers.now i ≡ Some found)
        × (found.text ≡ text.now)) }
    ensures between { IfErr result (IsPlaceOf answers.now text.now) }
{
    for place in 0..answers.len() {
        match answers[place].text().cmp(text) {
            Ordering::Less => {}
            Ordering::Equal => return Ok(place),
            Ordering::Greater => return Err(place),
        }
    }
    Err(answers.len())
}

/// Puts an answer in its place.
fn put_answer(answers: &mut Vec<Answer>, at: usize, answer: Answer) -> Result<(), AllocError>
    requires sorted { AreSorted answers.old.items }
    requires place { IsPlaceOf answers.old.items answer.text at }
    ensures sorted { AreSorted answers.new.items }
    ensures keeps { KeepsAll answers.old.items answers.new.items }
    ensures ends { (w : World) (names : FileNames) (maps : Bool) → EndsBy w names maps answer
        → AllEnd w names maps answers.old.items → AllEnd w names maps answers.new.items }
    ensures put { OnOk result (slice_get answers.new.items at ≡ Some answer) }
{
    answers.insert(at, answer)?;
    Ok(())
}

/// Puts what is printed of a kept machine without work among the answers, if that isn't one of them
/// yet.
fn tell_ended(
    alloc: Global,
    spread: &mut Spread<Strictly>,
    names: &Names,
    maps: bool,
    answers: &mut Vec<Answer>,
    place: usize,
) -> Result<(), AllocError>
    requires place { place < length spread.old.kept }
    requires ended { HaveEndedAt spread.old.kept place }
    requires first { (w : World) × IsFirst spread.old.kept w }
    requires sorted { AreSorted answers.old.items }
    requires ends { (w : World) → IsFirst spread.old.kept w
        → AllEnd w (names_of names.now) maps answers.old.items }
    ensures same { spread.new.kept ≡ spread.old.kept }
    ensures sorted { OnOk result (AreSorted answers.new.items) }
    ensures keeps { OnOk result (KeepsAll answers.old.items answers.new.items) }
    ensures ends { OnOk result ((w : World) → IsFirst spread.old.kept w
        → AllEnd w (names_of names.now) maps answers.new.items) }
    ensures answered { OnOk result (IsAnsweredAt spread.old.kept (names_of names.now)
        maps answers.new.items place) }
{
    spread.leads();
    spread.restore(place)?;
    let Report { text, stopped } = tell(alloc, spread.machine(), names, maps)?;
    match place_of(answers, text.as_str()) {
        Ok(_) => Ok(()),
        Err(at) => {
            let by = spread.way(place)?;
            put_answer(answers, at, Answer { text, stopped, by })?;
            Ok(())
        }
    }
}

/// Puts what is printed of a kept machine among the answers, if it has no work.
fn tell_at(
    alloc: Global,
    spread: &mut Spread<Strictly>,
    names: &Names,
    maps: bool,
    answers: &mut Vec<Answer>,
    place: usize,
) -> Result<(), AllocError>
    requires place { place < length spread.old.kept }
    requires first { (w : World) × IsFirst spread.old.kept w }
    requires gathered { Gathered spread.old.kept (names_of names.now) maps place
        answers.old.items }
    ensures same { spread.new.kept ≡ spread.old.kept }
    ensures gathered { OnOk result (Gathered spread.old.kept (names_of names.now) maps
        (place + 1) answers.new.items) }
{
    if !spread.has_ended(place) {
        return Ok(());
    }
    tell_ended(alloc, spread, names, maps, answers, place)?;
    Ok(())
}

/// The answers: what is printed of each kept machine without work.
pub(crate) fn gather(
    alloc: Global,
    spread: &mut Spread<Strictly>,
    names: &Names,
    maps: bool,
) -> Result<Vec<Answer>, AllocError>
    requires { (w : World) × IsFirst spread.old.kept w }
    ensures same { spread.new.kept ≡ spread.old.kept }
    ensures outcomes { IfOk result (λ answers. (w : World) → IsFirst spread.old.kept w
        → AreOutcomes w (names_of names.now) maps answers.items) }
    ensures answered { IfOk result (λ answers. (i : ℕ) → IsAnsweredAt spread.old.kept
        (names_of names.now) maps answers.items i) }
{
    let mut answers = Vec::new(alloc);
    for place in 0..spread.len() {
        tell_at(alloc, spread, names, maps, &mut answers, place)?;
    }
    Ok(answers)
}
