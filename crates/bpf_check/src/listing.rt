//! Verdicts as they are printed, in the form of TAP.

ghost use Rattle.std.specs.Prelude.{◌≡◌, ◌<◌, ◌≤◌, ◌+◌, ◌^◌, ◌++◌, IfOk, OnOk, Some, codes, length, map, slice_get, string_bytes};
ghost use Rattle.bpf_check.specs.Listing.{asked_text, expected_text, first_count, first_text, hung_lines, hung_text, is_claim_mark, is_line_byte, last_count, last_text, left_text, mark_text, number_text, ok_text, plan_text, reason_text, schedule_text, shown_byte, test_text, tests_text, untold_text};
ghost use Rattle.bpf_check.specs.Verdict.{ends_verdict};

use crate::expectation::Expectation;
use crate::findings::Findings;
use crate::judging::{Verdict, ends_verdict};
use bpf_explore::{Answer, Hung};
use bpf_lines::words::is_word_byte;
use bpf_schedule::push_moves;
use std::alloc::{AllocError, Global};

/// A file whose tests are listed: what is before the claims of its tests, the numbers of the lines that
/// expect them, where these are printed, and what a search found of it.
#[derive(Clone, Copy)]
pub(crate) struct Tested<'a> {
    pub(crate) name: &'a str,
    pub(crate) lines: &'a [usize],
    pub(crate) findings: &'a Findings,
}

/// Whether a claim may have this byte beside those of words.
fn is_claim_mark(byte: u8) -> bool
    ensures { result ≡ is_claim_mark byte }
{
    matches!(byte, b'!' | b'+' | b'<'..=b'>' | b'[' | b']')
}

/// Whether a claim may have this byte.
fn is_line_byte(byte: u8) -> bool
    ensures { result ≡ is_line_byte byte }
{
    is_word_byte(byte) || byte == b' ' || is_claim_mark(byte)
}

/// A byte of a line as it is shown.
fn shown_byte(byte: u8) -> u8
    ensures shown { result ≡ shown_byte byte }
    ensures ascii { result < 128 }
{
    if is_line_byte(byte) { byte } else { b'?' }
}

/// Appends a line that is expected to the text.
fn push_line(text: &mut String, line: &[u8]) -> Result<(), AllocError>
    ensures { OnOk result (string_bytes text.new
        ≡ string_bytes text.old ++ map shown_byte line.now) }
{
    for byte in line {
        text.push(char::from(shown_byte(*byte)))?;
    }
    Ok(())
}

/// Appends an expectation to the text.
pub(crate) fn push_expected(text: &mut String, expectation: &Expectation) -> Result<(), AllocError>
    ensures { OnOk result (string_bytes text.new
        ≡ string_bytes text.old ++ expected_text expectation.now) }
{
    let often = expectation.often();
    text.push_str(often.text(expectation.x86()))?;
    text.push_str(" ")?;
    push_line(text, expectation.line())
}

/// How a test's line begins.
fn ok_text(verdict: Verdict) -> &'static str
    ensures { result.now ≡ ok_text verdict }
{
    match verdict {
        Verdict::Holds => "ok ",
        Verdict::Shown(_)
        | Verdict::Refuted
        | Verdict::NoOutcome
        | Verdict::Hangs
        | Verdict::NoneHangs
        | Verdict::Untold
        | Verdict::Races
        | Verdict::NoRaces
        | Verdict::RacesUntold => "not ok ",
    }
}

/// Appends the number of a test to the text.
pub(crate) fn push_number(alloc: Global, text: &mut String, number: usize) -> Result<(), AllocError>
    ensures { OnOk result (string_bytes text.new ≡ string_bytes text.old ++ number_text number) }
{
    let number = format!(in alloc; "{number} - ")?;
    text.push_str(number.as_str())
}

/// Appends the schedule of an answer to the text, on a line.
fn push_schedule(alloc: Global, text: &mut String, answer: &Answer) -> Result<(), AllocError>
    ensures { OnOk result (string_bytes text.new
        ≡ string_bytes text.old ++ schedule_text (Some answer.now)) }
{
    text.push_str("# by")?;
    push_moves(alloc, text, answer.by())?;
    text.push_str("\n")
}

/// Appends a schedule to a hung state to the text, on a line.
fn push_hung(alloc: Global, text: &mut String, hung: &Hung) -> Result<(), AllocError>
    ensures { OnOk result (string_bytes text.new ≡ string_bytes text.old ++ hung_text hung.now) }
{
    text.push_str("# hung by")?;
    push_moves(alloc, text, hung.by())?;
    text.push_str("\n")
}

/// Appends the schedule to each hung state to the text, a line each.
fn push_all_hung(alloc: Global, text: &mut String, hung: &[Hung]) -> Result<(), AllocError>
    ensures { OnOk result (string_bytes text.new
        ≡ string_bytes text.old ++ hung_lines (length hung.now) hung.now) }
{
    for found in hung {
        push_hung(alloc, text, found)?;
    }
    Ok(())
}

/// The line that not all outcomes were found, and what may find more.
fn untold_text(patient: bool) -> &'static str
    ensures { result.now ≡ untold_text patient }
{
    if patient {
        "# not decided: not all outcomes were found; --limit N looks at more states\n"
    } else {
        "# not decided: not all outcomes were found; --limit N looks at more states, --patient has fewer\n"
    }
}

/// Appends to the text why a test isn't ok.
fn push_reason(
    alloc: Global,
    text: &mut String,
    findings: &Findings,
    verdict: Verdict,
) -> Result<(), AllocError>
    ensures { OnOk result (string_bytes text.new
        ≡ string_bytes text.old ++ reason_text findings.now verdict) }
{
    match verdict {
        Verdict::Holds => Ok(()),
        Verdict::Shown(place) => match findings.answers().get(place) {
            Some(answer) => push_schedule(alloc, text, answer),
            None => Ok(()),
        },
        Verdict::Refuted => text.push_str("# it is so in no outcome\n"),
        Verdict::NoOutcome => text.push_str("# no outcome\n"),
        Verdict::Hangs => push_all_hung(alloc, text, findings.hung()),
        Verdict::NoneHangs => text.push_str("# every schedule can end\n"),
        Verdict::Untold => text.push_str(untold_text(findings.is_patient())),
        Verdict::Races => text.push_str(findings.raced().lines.as_str()),
        Verdict::NoRaces => text.push_str("# there is no race\n"),
        Verdict::RacesUntold => text.push_str(
            "# not decided: not all states were looked at for races; --limit N looks at more\n",
        ),
    }
}

/// Appends to the text how a test begins: whether it is ok, its number and its file's name.
fn push_head(
    alloc: Global,
    text: &mut String,
    name: &str,
    number: usize,
    verdict: Verdict,
) -> Result<(), AllocError>
    ensures { OnOk result (string_bytes text.new ≡ string_bytes text.old
        ++ (ok_text verdict ++ number_text number ++ name.now)) }
{
    text.push_str(ok_text(verdict))?;
    push_number(alloc, text, number)?;
    text.push_str(name)
}

/// Appends the test of this number to the text.
fn push_test(
    alloc: Global,
    text: &mut String,
    file: Tested<'_>,
    number: usize,
    expectation: &Expectation,
    verdict: Verdict,
) -> Result<(), AllocError>
    ensures { OnOk result (string_bytes text.new ≡ string_bytes text.old
        ++ test_text file.entry.name.now file.entry.findings.now number (expected_text expectation.now)
        verdict) }
{
    push_head(alloc, text, file.name, number, verdict)?;
    push_expected(text, expectation)?;
    text.push_str("\n")?;
    push_reason(alloc, text, file.findings, verdict)
}

/// How many tests a search has before those of expectations: one after a patient search.
pub fn first_count(findings: &Findings) -> usize
    ensures count { result ≡ first_count findings.now }
    ensures small { result ≤ 1 }
{
    if findings.is_patient() { 1 } else { 0 }
}

/// Appends the test of this number to the text, of what is stated.
fn push_stated(
    alloc: Global,
    text: &mut String,
    file: Tested<'_>,
    number: usize,
    what: &str,
    verdict: Verdict,
) -> Result<(), AllocError>
    ensures { OnOk result (string_bytes text.new ≡ string_bytes text.old
        ++ test_text file.entry.name.now file.entry.findings.now number what.now verdict) }
{
    push_head(alloc, text, file.name, number, verdict)?;
    text.push_str(what)?;
    text.push_str("\n")?;
    push_reason(alloc, text, file.findings, verdict)
}

/// Appends the first test after a patient search to the text: whether every schedule can end.
fn push_first(
    alloc: Global,
    text: &mut String,
    file: Tested<'_>,
    number: usize,
) -> Result<(), AllocError>
    ensures { OnOk result (string_bytes text.new ≡ string_bytes text.old
        ++ test_text file.entry.name.now file.entry.findings.now number (codes "every schedule can end")
        (ends_verdict file.entry.findings.now)) }
{
    let verdict = ends_verdict(file.findings);
    push_stated(alloc, text, file, number, "every schedule can end", verdict)
}

/// The text of the first test after a patient search; empty after another.
fn first_text(alloc: Global, file: Tested<'_>, before: usize) -> Result<String, AllocError>
    requires { before + 1 < 2 ^ 64 }
    ensures { IfOk result (λ text. string_bytes text
        ≡ first_text file.entry.name.now before file.entry.findings.now) }
{
    let mut text = String::new(alloc);
    if file.findings.is_patient() {
        push_first(alloc, &mut text, file, before + 1)?;
    }
    Ok(text)
}

/// The comment that counts expectations that are no tests, since they are of CPUs with store buffers alone,
/// after a mark; empty where there is none.
pub fn left_text(alloc: Global, mark: &str, count: usize) -> Result<String, AllocError>
    ensures { IfOk result (λ text. string_bytes text ≡ left_text mark.now count) }
{
    if count == 0 {
        Ok(String::new(alloc))
    } else {
        format!(in alloc; "# {mark}only --x86 tests {count} more\n")
    }
}

/// The line that says how many tests there are, and where there are none that they are skipped.
pub fn plan(alloc: Global, count: usize) -> Result<String, AllocError>
    ensures { IfOk result (λ text. string_bytes text ≡ plan_text count) }
{
    if count == 0 {
        "1..0 # SKIP no expectations\n".to_string(alloc)
    } else {
        format!(in alloc; "1..{count}\n")
    }
}

/// Appends to the text the number of the line that expects the test at this place, where it is given.
fn push_mark(
    alloc: Global,
    text: &mut String,
    lines: &[usize],
    place: usize,
) -> Result<(), AllocError>
    ensures { OnOk result (string_bytes text.new ≡ string_bytes text.old
        ++ mark_text (slice_get lines.now place)) }
{
    match lines.get(place) {
        Some(line) => {
            let line = *line;
            let mark = format!(in alloc; "line {line} ")?;
            text.push_str(mark.as_str())
        }
        None => Ok(()),
    }
}

/// Appends the tests of expectations to the text: an expectation a test, each with its verdict.
fn push_tests(
    alloc: Global,
    text: &mut String,
    file: Tested<'_>,
    before: usize,
    expectations: &[Expectation],
    verdicts: &[Verdict],
) -> Result<(), AllocError>
    requires same { length verdicts.now ≡ length expectations.now }
    requires room { before + length expectations.now < 2 ^ 64 }
    ensures { OnOk result (string_bytes text.new ≡ string_bytes text.old
        ++ tests_text file.entry.name.now file.entry.lines.now before file.entry.findings.now
        (length expectations.now) expectations.now verdicts.now) }
{
    for place in 0..expectations.len() {
        let expectation = &expectations[place];
        let number = before + (place + 1);
        push_mark(alloc, text, file.lines, place)?;
        push_test(alloc, text, file, number, expectation, verdicts[place])?;
    }
    Ok(())
}

/// How many tests there are after those of expectations: one where there is a fault that isn't expected.
pub fn last_count(fault: Option<usize>) -> usize
    ensures count { result ≡ last_count fault }
    ensures small { result ≤ 1 }
{
    match fault {
        Some(_) => 1,
        None => 0,
    }
}

/// Appends the test of this number to the text, where there is a fault that isn't expected: that there is
/// none.
pub(crate) fn push_last(
    alloc: Global,
    text: &mut String,
    file: Tested<'_>,
    number: usize,
    fault: Option<usize>,
) -> Result<(), AllocError>
    ensures { OnOk result (string_bytes text.new ≡ string_bytes text.old
        ++ last_text file.entry.name.now number file.entry.findings.now fault) }
{
    match fault {
        Some(place) => {
            let verdict = Verdict::Shown(place);
            push_stated(alloc, text, file, number, "no job ends in a fault", verdict)
        }
        None => Ok(()),
    }
}

/// The text of the tests of a file but for the last, after the n tests of the files before it; each has the
/// name before what is expected.
pub(crate) fn list_tests(
    alloc: Global,
    file: Tested<'_>,
    before: usize,
    expectations: &[Expectation],
    verdicts: &[Verdict],
) -> Result<String, AllocError>
    requires same { length verdicts.now ≡ length expectations.now }
    requires room { before + (1 + length expectations.now) < 2 ^ 64 }
    ensures { IfOk result (λ text. string_bytes text
        ≡ asked_text file.entry.name.now file.entry.lines.now before file.entry.findings.now
        expectations.now verdicts.now) }
{
    let mut text = first_text(alloc, file, before)?;
    let before = before + first_count(file.findings);
    push_tests(alloc, &mut text, file, before, expectations, verdicts)?;
    Ok(text)
}
