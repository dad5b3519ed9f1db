//! What a run file expects, against what one run of its jobs prints.

ghost use Rattle.std.specs.Prelude.{◌≡◌, ◌++◌, IfOk, OnOk, string_bytes};
ghost use Rattle.bpf_check.specs.Expectation.{asks_of_search};
ghost use Rattle.bpf_check.specs.Single.{is_any_refuted, is_open, is_open_by, is_refuted, is_refuted_by, judged_test, judged_text, open_text, refuted_text, shown_text, why_text};

use crate::expectation::{self, Expectation, Often};
use crate::listing::{plan, push_expected, push_number};
use std::alloc::{AllocError, Global};

/// What is printed of a file's expectations, and whether one of them is refuted.
#[derive(Drop)]
pub struct Judged {
    pub text: String,
    pub refuted: bool,
}

/// Whether it is asked of a search.
fn asks_of_search(expectation: &Expectation) -> bool
    ensures { result ≡ asks_of_search expectation.now.often expectation.now.line }
{
    expectation::asks_of_search(expectation.often(), expectation.line())
}

fn is_refuted_by(often: Often, agrees: bool) -> bool
    ensures { result ≡ is_refuted_by often agrees }
{
    match often {
        Often::Always => !agrees,
        Often::Sometimes => false,
        Often::Never => agrees,
    }
}

/// Whether what is printed shows that outcomes aren't as expected.
fn is_refuted(printed: &str, expectation: &Expectation) -> bool
    ensures { result ≡ is_refuted printed.now expectation.now }
{
    let agrees = expectation.agrees(printed.as_bytes());
    !asks_of_search(expectation) && is_refuted_by(expectation.often(), agrees)
}

fn is_open_by(often: Often, agrees: bool) -> bool
    ensures { result ≡ is_open_by often agrees }
{
    match often {
        Often::Sometimes => !agrees,
        Often::Always | Often::Never => false,
    }
}

/// Whether one outcome can't decide it.
fn is_open(printed: &str, expectation: &Expectation) -> bool
    ensures { result ≡ is_open printed.now expectation.now }
{
    let agrees = expectation.agrees(printed.as_bytes());
    asks_of_search(expectation) || is_open_by(expectation.often(), agrees)
}

fn is_any_refuted(printed: &str, expectations: &[Expectation]) -> bool
    ensures { result ≡ is_any_refuted printed.now expectations.now }
{
    expectations
        .iter()
        .any(|expectation| is_refuted(printed, expectation))
}

/// How a test's line begins.
fn refuted_text(refuted: bool) -> &'static str
    ensures { result.now ≡ refuted_text refuted }
{
    if refuted { "not ok " } else { "ok " }
}

/// How it ends: where one outcome doesn't decide it, that it is skipped.
fn open_text(asks: bool, left: bool) -> &'static str
    ensures { result.now ≡ open_text asks left }
{
    match (left, asks) {
        (true, true) => " # SKIP one run can't tell it\n",
        (true, false) => " # SKIP it isn't so in this run\n",
        (false, _) => "\n",
    }
}

/// What refutes an expectation.
fn shown_text(often: Often) -> &'static str
    ensures { result.now ≡ shown_text often }
{
    match often {
        Often::Always => "# it isn't so in this run\n",
        Often::Sometimes => "",
        Often::Never => "# it is so in this run\n",
    }
}

/// Why a test isn't ok, where it isn't.
fn why_text(often: Often, refuted: bool) -> &'static str
    ensures { result.now ≡ why_text often refuted }
{
    if refuted { shown_text(often) } else { "" }
}

/// Appends the test of this number to the text.
fn push_judged(
    alloc: Global,
    text: &mut String,
    printed: &str,
    number: usize,
    expectation: &Expectation,
) -> Result<(), AllocError>
    ensures { OnOk result (string_bytes text.new
        ≡ string_bytes text.old ++ judged_test printed.now number expectation.now) }
{
    let refuted = is_refuted(printed, expectation);
    text.push_str(refuted_text(refuted))?;
    push_number(alloc, text, number)?;
    push_expected(text, expectation)?;
    let left = is_open(printed, expectation);
    text.push_str(open_text(asks_of_search(expectation), left))?;
    text.push_str(why_text(expectation.often(), refuted))
}

/// The text of all tests.
fn list_judged(
    alloc: Global,
    printed: &str,
    expectations: &[Expectation],
) -> Result<String, AllocError>
    ensures { IfOk result (λ text.
        string_bytes text ≡ judged_text printed.now expectations.now) }
{
    let mut text = plan(alloc, expectations.len())?;
    for place in 0..expectations.len() {
        push_judged(alloc, &mut text, printed, place + 1, &expectations[place])?;
    }
    Ok(text)
}

/// Judges what is expected of a run file by what a run of its jobs printed. Out of memory is the only
/// refusal.
pub fn check_printed(
    alloc: Global,
    expectations: &[Expectation],
    printed: &str,
) -> Result<Judged, AllocError>
    ensures text { IfOk result (λ judged. string_bytes judged.text
        ≡ judged_text printed.now expectations.now) }
    ensures refuted { IfOk result (λ judged. judged.refuted
        ≡ is_any_refuted printed.now expectations.now) }
{
    let text = list_judged(alloc, printed, expectations)?;
    let refuted = is_any_refuted(printed, expectations);
    Ok(Judged { text, refuted })
}
