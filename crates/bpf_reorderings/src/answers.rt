//! Answers: what is printed of kept machines without work, each with a schedule that leads there.

ghost use Rattle.std.specs.Prelude.{◌≡◌, ◌<◌, ◌+◌, Bool, Some, IfOk, IfErr, OnOk, length, slice_get};
ghost use Rattle.bpf_names.specs.Names.{Names as FileNames, names_of};
ghost use Rattle.bpf_machine.specs.Schedule.{World};
ghost use Rattle.bpf_buffering.specs.Album.{HaveEndedAt};
ghost use Rattle.bpf_explore.specs.Outcomes.{Found};
ghost use Rattle.bpf_explore.specs.Private.Answers.{AreSorted, KeepsAll, IsPlaceOf};
ghost use Rattle.bpf_reorderings.specs.Private.Answers.{AllEnd, Ends, Gathered};
ghost use Rattle.bpf_reorderings.specs.Private.Searching.{BeginsAt};

use crate::explorer::Explorer;
use crate::trying::way_in_budget;
use bpf_explore::Answer;
use bpf_flushes::tell;
use bpf_jobs::Report;
use bpf_names::Names;
use std::alloc::{AllocError, Global};
use std::cmp::Ordering;

/// Answers so far, and whether what was printed of each kept machine without work is one of them: not
/// where its schedule uses a budget up.
#[derive(Drop)]
pub(crate) struct Told {
    pub answers: Vec<Answer>,
    pub whole: bool,
}

/// The place of a text among sorted answers: of the one that has it, or where it is to be.
fn place_of(answers: &[Answer], text: &str) -> Result<usize, usize>
    requires { AreSorted answers.now }
    ensures found { IfOk result (λ i. (found : Found) × (slice_get answers.now i ≡ Some found)
        × (found.text ≡ text.now)) }
    ensures between { IfErr result (IsPlaceOf answers.now text.now) }
{
    for place in 0..answers.len() {
        match answers[place].text().cmp(text) {
            Ordering::Less => {}
            Ordering::Equal => return Ok(place),
            Ordering::Greater => return Err(place),
        }
    }
    Err(answers.len())
}

/// Puts an answer in its place.
fn put_answer(answers: &mut Vec<Answer>, at: usize, answer: Answer) -> Result<(), AllocError>
    requires sorted { AreSorted answers.old.items }
    requires place { IsPlaceOf answers.old.items answer.text at }
    ensures sorted { OnOk result (AreSorted answers.new.items) }
    ensures keeps { OnOk result (KeepsAll answers.old.items answers.new.items) }
    ensures ends { OnOk result ((patient : Bool) (w : World) (names : FileNames) (maps : Bool)
        → Ends patient w names maps answer → AllEnd patient w names maps answers.old.items
        → AllEnd patient w names maps answers.new.items) }
    ensures put { OnOk result (slice_get answers.new.items at ≡ Some answer) }
{
    answers.insert(at, answer)?;
    Ok(())
}

/// Puts what is printed of a kept machine without work among the answers, if that isn't one of them
/// yet.
fn tell_ended(
    explorer: &mut Explorer,
    names: &Names,
    maps: bool,
    told: &mut Told,
    place: usize,
) -> Result<(), AllocError>
    requires ended { HaveEndedAt explorer.old.kept place }
    requires place { place < length explorer.old.kept }
    requires begins { (w : World) × BeginsAt explorer.old.kept w }
    requires gathered { Gathered explorer.old.patient explorer.old.kept (names_of names.now) maps
        place told.old }
    ensures same { explorer.new.kept ≡ explorer.old.kept }
    ensures patient { explorer.new.patient ≡ explorer.old.patient }
    ensures gathered { OnOk result (Gathered explorer.old.patient explorer.old.kept
        (names_of names.now) maps (place + 1) told.new) }
{
    bpf_buffering::laws::nothing_waits_at_last();
    explorer.leads();
    explorer.restore(place)?;
    let Report { text, stopped } = tell(explorer.alloc(), explorer.machine(), names, maps)?;
    match place_of(&told.answers, text.as_str()) {
        Ok(_) => Ok(()),
        Err(at) => {
            let Some(by) = way_in_budget(explorer, place)? else {
                told.whole = false;
                return Ok(());
            };
            put_answer(&mut told.answers, at, Answer::new(text, stopped, by))?;
            Ok(())
        }
    }
}

/// Puts what is printed of a kept machine among the answers, if it has no work.
fn tell_at(
    explorer: &mut Explorer,
    names: &Names,
    maps: bool,
    told: &mut Told,
    place: usize,
) -> Result<(), AllocError>
    requires place { place < length explorer.old.kept }
    requires begins { (w : World) × BeginsAt explorer.old.kept w }
    requires gathered { Gathered explorer.old.patient explorer.old.kept (names_of names.now) maps
        place told.old }
    ensures same { explorer.new.kept ≡ explorer.old.kept }
    ensures patient { explorer.new.patient ≡ explorer.old.patient }
    ensures gathered { OnOk result (Gathered explorer.old.patient explorer.old.kept
        (names_of names.now) maps (place + 1) told.new) }
{
    if !explorer.has_ended(place) {
        return Ok(());
    }
    tell_ended(explorer, names, maps, told, place)
}

/// The answers: what is printed of each kept machine without work.
pub(crate) fn gather(explorer: &mut Explorer, names: &Names, maps: bool) -> Result<Told, AllocError>
    requires { (w : World) × BeginsAt explorer.old.kept w }
    ensures same { explorer.new.kept ≡ explorer.old.kept }
    ensures patient { explorer.new.patient ≡ explorer.old.patient }
    ensures gathered { IfOk result (Gathered explorer.old.patient explorer.old.kept
        (names_of names.now) maps (length explorer.old.kept)) }
{
    let mut told = Told {
        answers: Vec::new(explorer.alloc()),
        whole: true,
    };
    for place in 0..explorer.len() {
        tell_at(explorer, names, maps, &mut told, place)?;
    }
    Ok(told)
}
