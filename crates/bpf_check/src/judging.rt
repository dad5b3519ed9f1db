//! What the findings of a search say of expectations.

ghost use Rattle.std.specs.Prelude.{◌≡◌, IfOk};
ghost use Rattle.std.specs.List.{list_any, position};
ghost use Rattle.bpf_check.specs.Verdict.{conclusion_by, decides, ends_verdict, hung_verdict, is_refused, is_untold, outcome_verdict, races_verdict, verdict_at, verdict_of, verdict_of_ends, verdict_of_hung, verdict_of_none, verdict_of_races, verdicts_of};

use crate::expectation::{Expectation, Often, asks_ends, asks_hung, asks_of_races};
use crate::findings::Findings;
use bpf_explore::Answer;
use std::alloc::{AllocError, Global};

/// Whether outcomes are as expected.
#[derive(Clone, Copy)]
pub enum Verdict {
    Holds,
    /// They aren't: the answer at this place shows it.
    Shown(usize),
    /// They aren't: no outcome has the line.
    Refuted,
    /// They aren't: there is no outcome at all.
    NoOutcome,
    /// Not every schedule can end: what is hung shows it.
    Hangs,
    /// None is hung, where one is to be.
    NoneHangs,
    /// What was found doesn't decide it, and it isn't all.
    Untold,
    /// There is a data race, where none is to be.
    Races,
    /// There is none, where one is to be.
    NoRaces,
    /// No data race was found, and not all states were looked at.
    RacesUntold,
}

/// What all verdicts amount to.
#[derive(Clone, Copy)]
pub enum Conclusion {
    /// All is as expected.
    Met,
    /// Something isn't.
    Unmet,
    /// Something couldn't be decided, and all else is as expected.
    Untold,
}

/// Whether an outcome of this text alone says whether outcomes are as expected.
fn decides(expectation: &Expectation, text: &str) -> bool
    ensures { result ≡ decides expectation.now text.now }
{
    let agrees = expectation.agrees(text.as_bytes());
    match expectation.often() {
        Often::Always => !agrees,
        Often::Sometimes | Often::Never => agrees,
    }
}

/// The place of the first answer that says it.
fn first_deciding(answers: &[Answer], expectation: &Expectation) -> Option<usize>
    ensures { result ≡ position (λ found. decides expectation.now found.text) answers.now }
{
    answers
        .iter()
        .position(|answer| decides(expectation, answer.text()))
}

/// The verdict where no answer decides: whether they are all, and whether there is one.
fn verdict_of_none(often: Often, all: bool, none: bool) -> Verdict
    ensures { result ≡ verdict_of_none often all none }
{
    if !all {
        return Verdict::Untold;
    }
    match often {
        Often::Always if none => Verdict::NoOutcome,
        Often::Sometimes => Verdict::Refuted,
        Often::Always | Often::Never => Verdict::Holds,
    }
}

/// The verdict by the place of the first answer that decides.
fn verdict_at(often: Often, first: Option<usize>, all: bool, none: bool) -> Verdict
    ensures { result ≡ verdict_at often first all none }
{
    let Some(place) = first else {
        return verdict_of_none(often, all, none);
    };
    match often {
        Often::Sometimes => Verdict::Holds,
        Often::Always | Often::Never => Verdict::Shown(place),
    }
}

/// What the outcomes say of an expectation.
fn outcome_verdict(findings: &Findings, expectation: &Expectation) -> Verdict
    ensures { result ≡ outcome_verdict findings.now expectation.now }
{
    let answers = findings.answers();
    let first = first_deciding(answers, expectation);
    verdict_at(
        expectation.often(),
        first,
        findings.all(),
        answers.is_empty(),
    )
}

fn verdict_of_ends(all: bool, none: bool) -> Verdict
    ensures { result ≡ verdict_of_ends all none }
{
    match (all, none) {
        (_, false) => Verdict::Hangs,
        (true, true) => Verdict::Holds,
        (false, true) => Verdict::Untold,
    }
}

/// Whether each schedule can end.
pub fn ends_verdict(findings: &Findings) -> Verdict
    ensures { result ≡ ends_verdict findings.now }
{
    verdict_of_ends(findings.all(), findings.hung().is_empty())
}

fn verdict_of_hung(all: bool, none: bool) -> Verdict
    ensures { result ≡ verdict_of_hung all none }
{
    match (all, none) {
        (_, false) => Verdict::Holds,
        (true, true) => Verdict::NoneHangs,
        (false, true) => Verdict::Untold,
    }
}

/// Whether some schedule can't end.
fn hung_verdict(findings: &Findings) -> Verdict
    ensures { result ≡ hung_verdict findings.now }
{
    verdict_of_hung(findings.all(), findings.hung().is_empty())
}

/// Whether there are data races as expected: whether one was found, and whether all were.
fn verdict_of_races(often: Often, some: bool, all: bool) -> Verdict
    ensures { result ≡ verdict_of_races often some all }
{
    match (often, some, all) {
        (Often::Always, _, _) => Verdict::RacesUntold,
        (Often::Sometimes, true, _) => Verdict::Holds,
        (Often::Never, true, _) => Verdict::Races,
        (Often::Sometimes, false, true) => Verdict::NoRaces,
        (Often::Never, false, true) => Verdict::Holds,
        (Often::Sometimes | Often::Never, false, false) => Verdict::RacesUntold,
    }
}

/// What the findings say of data races.
fn races_verdict(findings: &Findings, often: Often) -> Verdict
    ensures { result ≡ races_verdict findings.now often }
{
    let raced = findings.raced();
    verdict_of_races(often, raced.some, raced.all)
}

/// What the findings say of an expectation.
pub fn judge(findings: &Findings, expectation: &Expectation) -> Verdict
    ensures { result ≡ verdict_of findings.now expectation.now }
{
    let often = expectation.often();
    if asks_of_races(often, expectation.line()) {
        races_verdict(findings, often)
    } else if findings.is_patient() && asks_ends(often, expectation.line()) {
        ends_verdict(findings)
    } else if findings.is_patient() && asks_hung(often, expectation.line()) {
        hung_verdict(findings)
    } else {
        outcome_verdict(findings, expectation)
    }
}

/// What they say of each.
pub(crate) fn judge_all(
    alloc: Global,
    findings: &Findings,
    expectations: &[Expectation],
) -> Result<Vec<Verdict>, AllocError>
    ensures { IfOk result (λ verdicts. verdicts.items
        ≡ verdicts_of findings.now expectations.now) }
{
    expectations
        .iter()
        .map(|expectation| judge(findings, expectation))
        .collect(alloc)
}

fn is_refused(verdict: Verdict) -> bool
    ensures { result ≡ is_refused verdict }
{
    match verdict {
        Verdict::Shown(_)
        | Verdict::Refuted
        | Verdict::NoOutcome
        | Verdict::Hangs
        | Verdict::NoneHangs
        | Verdict::Races
        | Verdict::NoRaces => true,
        Verdict::Holds | Verdict::Untold | Verdict::RacesUntold => false,
    }
}

fn is_untold(verdict: Verdict) -> bool
    ensures { result ≡ is_untold verdict }
{
    matches!(verdict, Verdict::Untold | Verdict::RacesUntold)
}

fn is_any_refused(verdicts: &[Verdict]) -> bool
    ensures { result ≡ list_any is_refused verdicts.now }
{
    verdicts.iter().any(|verdict| is_refused(*verdict))
}

fn is_any_untold(verdicts: &[Verdict]) -> bool
    ensures { result ≡ list_any is_untold verdicts.now }
{
    verdicts.iter().any(|verdict| is_untold(*verdict))
}

/// What verdicts amount to, with that of a patient search's first test, and with the place of a fault that
/// isn't expected.
pub fn conclusion_by(findings: &Findings, fault: Option<usize>, verdicts: &[Verdict]) -> Conclusion
    ensures { result ≡ conclusion_by findings.now fault verdicts.now }
{
    let patient = findings.is_patient();
    let ends = ends_verdict(findings);
    if fault.is_some() || patient && is_refused(ends) || is_any_refused(verdicts) {
        Conclusion::Unmet
    } else if patient && is_untold(ends) || is_any_untold(verdicts) {
        Conclusion::Untold
    } else {
        Conclusion::Met
    }
}
