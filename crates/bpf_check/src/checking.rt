//! What a run file expects, against what its jobs can reach.

ghost use Rattle.std.specs.Prelude.{◌≡◌, ◌++◌, IfOk, string_bytes};
ghost use Rattle.bpf_check.specs.Listing.{checked_text, count_of, listed_text, name_text, plan_text};
ghost use Rattle.bpf_check.specs.Verdict.{conclusion_of, verdicts_of};

use crate::expectation::Expectation;
use crate::faults::unexpected_fault;
use crate::findings::Findings;
use crate::judging::{Conclusion, conclusion_by, judge_all};
use crate::listing::{Tested, first_count, last_count, list_tests, plan, push_last};
use std::alloc::{AllocError, Global};

/// What is expected of a file, and the numbers of its lines that do so, where these are printed.
#[derive(Clone, Copy)]
pub struct Asked<'a> {
    pub expected: &'a [Expectation],
    pub lines: &'a [usize],
}

/// What is printed of a file's expectations, and what it amounts to.
#[derive(Drop)]
pub struct Checked {
    pub text: String,
    pub conclusion: Conclusion,
}

/// What is printed of a file's expectations among those of several files, how many tests they are, and
/// what it amounts to.
#[derive(Drop)]
pub struct CheckedPart {
    pub text: String,
    pub tests: usize,
    pub conclusion: Conclusion,
}

/// The tests of a file, with this before what is expected, after the n tests of the files before it.
/// The only refusal is that memory, or numbers for tests, ran out.
fn check_part(
    alloc: Global,
    name: &str,
    before: usize,
    asked: Asked<'_>,
    findings: &Findings,
) -> Result<CheckedPart, AllocError>
    ensures text { IfOk result (λ part. string_bytes part.text
        ≡ listed_text name.now asked.entry.lines.now before findings.now asked.entry.expected.now
        (verdicts_of findings.now asked.entry.expected.now)) }
    ensures tests { IfOk result (λ part.
        part.tests ≡ count_of findings.now asked.entry.expected.now) }
    ensures conclusion { IfOk result (λ part. part.conclusion
        ≡ conclusion_of findings.now asked.entry.expected.now) }
{
    let Asked { expected, lines } = asked;
    let most = expected.len().checked_add(2).ok_or(AllocError)?;
    if before.checked_add(most).is_none() {
        return Err(AllocError);
    }
    let verdicts = judge_all(alloc, findings, expected)?;
    let file = Tested {
        name,
        lines,
        findings,
    };
    let mut text = list_tests(alloc, file, before, expected, &verdicts)?;
    let fault = unexpected_fault(findings, expected);
    let count = first_count(findings) + expected.len();
    push_last(alloc, &mut text, file, before + (count + 1), fault)?;
    Ok(CheckedPart {
        text,
        tests: count + last_count(fault),
        conclusion: conclusion_by(findings, fault, &verdicts),
    })
}

/// The tests of a file of this name among several, after the n tests of the files before it. Out of
/// memory, or of numbers for tests, is the only refusal.
pub fn check_named(
    alloc: Global,
    name: &str,
    before: usize,
    asked: Asked<'_>,
    findings: &Findings,
) -> Result<CheckedPart, AllocError>
    ensures text { IfOk result (λ part. string_bytes part.text
        ≡ listed_text (name_text name.now) asked.entry.lines.now before findings.now
        asked.entry.expected.now (verdicts_of findings.now asked.entry.expected.now)) }
    ensures tests { IfOk result (λ part.
        part.tests ≡ count_of findings.now asked.entry.expected.now) }
    ensures conclusion { IfOk result (λ part. part.conclusion
        ≡ conclusion_of findings.now asked.entry.expected.now) }
{
    let name = format!(in alloc; "{name}: ")?;
    check_part(alloc, name.as_str(), before, asked, findings)
}

/// The plan of some tests, and the tests.
fn planned(alloc: Global, part: &CheckedPart) -> Result<String, AllocError>
    ensures { IfOk result (λ text. string_bytes text
        ≡ plan_text part.now.tests ++ string_bytes part.now.text) }
{
    let mut text = plan(alloc, part.tests)?;
    text.push_str(part.text.as_str())?;
    Ok(text)
}

/// Judges what is expected of a run file by what a search through its schedules found. Out of memory is
/// the only refusal.
pub fn check_explored(
    alloc: Global,
    asked: Asked<'_>,
    findings: &Findings,
) -> Result<Checked, AllocError>
    ensures text { IfOk result (λ checked. string_bytes checked.text
        ≡ checked_text asked.entry.lines.now findings.now asked.entry.expected.now
        (verdicts_of findings.now asked.entry.expected.now)) }
    ensures conclusion { IfOk result (λ checked. checked.conclusion
        ≡ conclusion_of findings.now asked.entry.expected.now) }
{
    let part = check_part(alloc, "", 0, asked, findings)?;
    let text = planned(alloc, &part)?;
    Ok(Checked {
        text,
        conclusion: part.conclusion,
    })
}
