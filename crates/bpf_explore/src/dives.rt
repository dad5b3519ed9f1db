//! Answers that dives find, where a search has met its limit.

ghost use Rattle.std.specs.Prelude.{◌≡◌, true, IfOk, IfSome, OnOk, string_bytes};
ghost use Rattle.bpf_names.specs.Names.{names_of};
ghost use Rattle.bpf_machine.specs.Machine.{Shows};
ghost use Rattle.bpf_machine.specs.Patient.{NoneRanOut};
ghost use Rattle.bpf_machine.specs.Rounds.{HaveEnded};
ghost use Rattle.bpf_machine.specs.Schedule.{World};
ghost use Rattle.bpf_jobs.specs.Printed.{lines_of_lists, TellsWith};
ghost use Rattle.bpf_explore.specs.Private.Answers.{AllEnd, AreOneMore, AreSorted, IsFirst, KeepsAll};
ghost use Rattle.bpf_explore.specs.Private.Patience.{AllEndPatiently};

use crate::answers::{Answer, place_of};
use crate::diving::dives_after;
use crate::replays::some_ran_out;
use crate::runs::{Freely, Strictly};
use crate::spread::Spread;
use bpf_jobs::{Report, tell};
use bpf_machine::Machine;
use bpf_names::Names;
use std::alloc::{AllocError, Global};

/// Whether each job of a machine has ended.
fn have_ended(machine: &Machine) -> bool
    ensures { result ≡ true → HaveEnded machine.now.jobs }
{
    for job in 0..machine.jobs() {
        let Some(_) = machine.outcome(job) else {
            return false;
        };
    }
    true
}

/// What is printed of a machine, if its jobs have ended.
fn tell_end(
    alloc: Global,
    machine: &Machine,
    names: &Names,
    maps: bool,
) -> Result<Option<Report>, AllocError>
    ensures ended { IfOk result (λ told. IfSome told (λ r. HaveEnded machine.now.jobs)) }
    ensures told { IfOk result (λ told. IfSome told (λ r. (w : World) → Shows machine.now w
        → TellsWith (lines_of_lists w (names_of names.now).maps) w.store w.jobs
        (names_of names.now) maps (string_bytes r.text) r.stopped)) }
{
    if !have_ended(machine) {
        return Ok(None);
    }
    let report = tell(alloc, machine, names, maps)?;
    Ok(Some(report))
}

/// Puts an answer in its place, unless there is one of its text.
fn add_answer(answers: &mut Vec<Answer>, answer: Answer) -> Result<(), AllocError>
    requires { AreSorted answers.old.items }
    ensures sorted { AreSorted answers.new.items }
    ensures keeps { KeepsAll answers.old.items answers.new.items }
    ensures adds { AreOneMore answers.old.items answer answers.new.items }
{
    if let Err(at) = place_of(answers, answer.text()) {
        answers.insert(at, answer)?;
    }
    Ok(())
}

/// Puts what dives lead to among the answers.
pub(crate) fn dive_further(
    alloc: Global,
    spread: &mut Spread<Strictly>,
    names: &Names,
    maps: bool,
    answers: &mut Vec<Answer>,
) -> Result<(), AllocError>
    requires first { (w : World) × IsFirst spread.old.kept w }
    requires sorted { AreSorted answers.old.items }
    requires ends { (w : World) → IsFirst spread.old.kept w
        → AllEnd w (names_of names.now) maps answers.old.items }
    ensures same { spread.new.kept ≡ spread.old.kept }
    ensures sorted { AreSorted answers.new.items }
    ensures keeps { KeepsAll answers.old.items answers.new.items }
    ensures ends { (w : World) → IsFirst spread.old.kept w
        → AllEnd w (names_of names.now) maps answers.new.items }
{
    for number in 0..dives_after(spread.len()) {
        let by = spread.dive(number)?;
        let Some(report) = tell_end(alloc, spread.machine(), names, maps)? else {
            continue;
        };
        add_answer(answers, Answer::new(report.text, report.stopped, by))?;
    }
    Ok(())
}

/// Puts what dives lead to among the answers of a patient search, if no job is out of budget there.
pub(crate) fn dive_patiently(
    alloc: Global,
    spread: &mut Spread<Freely>,
    names: &Names,
    maps: bool,
    answers: &mut Vec<Answer>,
) -> Result<(), AllocError>
    requires first { (w : World) × IsFirst spread.old.kept w }
    requires sorted { AreSorted answers.old.items }
    requires ends { (w : World) → IsFirst spread.old.kept w
        → AllEndPatiently w (names_of names.now) maps answers.old.items }
    ensures same { spread.new.kept ≡ spread.old.kept }
    ensures sorted { AreSorted answers.new.items }
    ensures keeps { KeepsAll answers.old.items answers.new.items }
    ensures ends { (w : World) → IsFirst spread.old.kept w
        → AllEndPatiently w (names_of names.now) maps answers.new.items }
{
    for number in 0..dives_after(spread.len()) {
        let by = spread.dive(number)?;
        if some_ran_out(spread.machine()) {
            continue;
        }
        let Some(report) = tell_end(alloc, spread.machine(), names, maps)? else {
            continue;
        };
        add_answer(answers, Answer::new(report.text, report.stopped, by))?;
    }
    Ok(())
}
