//! `ebpf check`: whether a run file's outcomes are as its comments expect, whatever the order of the
//! CPUs' turns.

ghost use Rattle.std.specs.Prelude.{◌≡◌, ◌≤◌, ◌++◌, true, IfErr, IfOk, IfSome, string_bytes};
ghost use Rattle.bpf_check.specs.declared.settings.TheConstants.{MOST_STATES};
ghost use Rattle.bpf_command.specs.declared.command.TheConstants.{MAX_LIMIT};
ghost use Rattle.bpf_replies.specs.Answer.{Replies};
ghost use Rattle.bpf_replies.specs.Comments.{AreLinesIn, IsExpectedIn, RefusesComments, for_check};
ghost use Rattle.bpf_replies.specs.Checking.{AreGroundsBy, AreNotesOf, IsCheckedFile, head_text, is_patient, is_told, is_unmet, limit_by, limit_of, reading_by, states_of, states_text};
ghost use Rattle.bpf_check.specs.Expectation.{are_races_asked};
ghost use Rattle.bpf_replies.specs.Reordering.{AreFindingsIn};
ghost use Rattle.bpf_replies.specs.Running.{RefusesFile};

use crate::comments::{Reading, expected_in, left_in, lines_in};
use crate::racer::Racer;
use crate::refusal::Refusal;
use crate::reordering::{Sought, findings_by};
use crate::reply::Reply;
use crate::threading::threads_in;
use bpf_check::{
    Asked, Conclusion, Expectation, Findings, Raced, Settings, are_races_asked, check_explored,
    left_text, settings_of,
};
use bpf_command::{CheckOptions, SearchOptions};
use bpf_explore::{Crew, Observer};
use bpf_threads::{Threads, push_notes};
use std::alloc::{AllocError, Global};

pub(crate) fn is_unmet(conclusion: Conclusion) -> bool
    ensures { result ≡ is_unmet conclusion }
{
    matches!(conclusion, Conclusion::Unmet)
}

pub(crate) fn is_told(conclusion: Conclusion) -> bool
    ensures { result ≡ is_told conclusion }
{
    !matches!(conclusion, Conclusion::Untold)
}

/// How `ebpf check` reads comments.
pub(crate) fn reading_of(patient: bool, x86: bool, lenient: bool) -> Reading
    ensures { result ≡ for_check patient x86 lenient }
{
    Reading {
        lists: false,
        ends: patient,
        x86,
        lenient,
    }
}

/// The limit of options, or else that which a file's comments ask for.
fn limit_by(options: &CheckOptions, asked: Settings) -> u64
    ensures value { result ≡ limit_by options.now asked }
    ensures bound { IfSome asked.limit (λ n. n ≤ MOST_STATES) → result ≤ MAX_LIMIT }
{
    if options.limited {
        options.search.limit
    } else {
        asked.limit.unwrap_or(options.search.limit)
    }
}

/// The search that options and the comments of a text ask for.
fn search_for(
    alloc: Global,
    options: &CheckOptions,
    text: &str,
) -> Result<SearchOptions, AllocError>
    ensures patient { IfOk result (λ s. s.patient ≡ is_patient options.now text.now) }
    ensures limit { IfOk result (λ s. s.limit ≡ limit_of options.now text.now) }
    ensures all { IfOk result (λ s. s.all_states ≡ options.now.search.all_states) }
{
    let asked = settings_of(alloc, text.as_bytes())?;
    Ok(SearchOptions {
        limit: limit_by(options, asked),
        patient: options.search.patient || asked.patient,
        progress: options.search.progress,
        all_states: options.search.all_states,
        workers: options.search.workers,
    })
}

/// What is said before the tests of a text.
#[derive(Clone, Copy)]
pub(crate) struct Notes {
    /// How many of its expectations are no tests.
    pub left: usize,
    /// In which ways threads may reach more outcomes.
    pub threads: Threads,
}

/// What is said before the tests of a text, or why there are none.
fn notes_in(alloc: Global, reading: Reading, text: &str) -> Result<Notes, Refusal>
    ensures found { IfOk result (AreNotesOf reading text.now) }
    ensures refused { IfErr result (RefusesComments reading text.now) }
{
    let left = left_in(alloc, reading, text)?;
    let threads = threads_in(alloc, text)?;
    Ok(Notes { left, threads })
}

/// What the tests of a text rest on.
#[derive(Drop)]
pub(crate) struct Grounds {
    /// What its comments expect.
    pub expected: Vec<Expectation>,
    /// The numbers of the lines that expect it, where they are wanted.
    pub lines: Vec<usize>,
    pub notes: Notes,
    /// What a search through all schedules found.
    pub findings: Findings,
}

/// What is found of data races, where some expectation asks of them.
fn races_for<D: Racer, C: Crew, O: Observer>(
    alloc: Global,
    expected: &[Expectation],
    options: &SearchOptions,
    text: &str,
    crew: &C,
    observer: &mut O,
) -> Result<Raced, Refusal>
    requires crew { C.can }
    ensures found { IfOk result (λ raced. are_races_asked expected.now ≡ true
        → D.finds options.now.patient options.now.limit text.now raced) }
    ensures refused { IfErr result (RefusesFile text.now) }
{
    if are_races_asked(expected) {
        D::races(alloc, options, text, crew, observer)
    } else {
        Ok(Raced::none(alloc))
    }
}

/// What the tests of a text rest on, or why there are none.
pub(crate) fn grounds_in<D: Racer, C: Crew, O: Observer>(
    alloc: Global,
    options: &CheckOptions,
    text: &str,
    crew: &C,
    observer: &mut O,
) -> Result<Grounds, Refusal>
    requires crew { C.can }
    ensures expected { IfOk result (λ grounds.
        IsExpectedIn (reading_by options.now text.now) text.now grounds.expected.items) }
    ensures lines { IfOk result (λ grounds.
        AreLinesIn (reading_by options.now text.now) options.now.lines text.now grounds.lines.items) }
    ensures notes { IfOk result (λ grounds.
        AreNotesOf (reading_by options.now text.now) text.now grounds.notes) }
    ensures findings { IfOk result (λ grounds. AreGroundsBy D.finds options.now text.now
        grounds.expected.items grounds.findings) }
    ensures refused { IfErr result (RefusesComments (reading_by options.now text.now) text.now) }
{
    let search = search_for(alloc, options, text)?;
    let reading = reading_of(search.patient, options.x86, options.lenient);
    let expected = expected_in(alloc, reading, text)?;
    let lines = lines_in(alloc, reading, options.lines, text)?;
    let notes = notes_in(alloc, reading, text)?;
    let raced = races_for::<D, C, O>(alloc, &expected, &search, text, crew, observer)?;
    let sought = Sought {
        search: &search,
        x86: options.x86,
    };
    let findings = findings_by(alloc, sought, raced, text, crew, observer)?;
    Ok(Grounds {
        expected,
        lines,
        notes,
        findings,
    })
}

/// How many states a search kept, where that is to be printed.
pub(crate) fn states_of(options: &CheckOptions, findings: &Findings) -> Option<usize>
    ensures { result ≡ states_of options.now findings.now }
{
    if options.states {
        Some(findings.states())
    } else {
        None
    }
}

/// The comment that counts states, after a mark.
fn states_text(alloc: Global, mark: &str, states: Option<usize>) -> Result<String, AllocError>
    ensures { IfOk result (λ text. string_bytes text ≡ states_text mark.now states) }
{
    match states {
        Some(states) => format!(in alloc; "# {mark}{states} states\n"),
        None => Ok(String::new(alloc)),
    }
}

/// What is printed of tests, after comments that count states and expectations that are no tests, and say in
/// which ways threads may reach more, each after a mark.
pub(crate) fn with_head(
    alloc: Global,
    mark: &str,
    states: Option<usize>,
    notes: Notes,
    tests: &str,
) -> Result<String, AllocError>
    ensures { IfOk result (λ text. string_bytes text
        ≡ head_text mark.now states notes ++ tests.now) }
{
    let mut text = states_text(alloc, mark, states)?;
    let left = left_text(alloc, mark, notes.left)?;
    text.push_str(left.as_str())?;
    push_notes(&mut text, mark, notes.threads)?;
    text.push_str(tests)?;
    Ok(text)
}

/// `ebpf check`.
pub fn check_file<D: Racer, C: Crew, O: Observer>(
    alloc: Global,
    options: &CheckOptions,
    text: &str,
    crew: &C,
    observer: &mut O,
) -> Result<Reply, Refusal>
    requires crew { C.can }
    ensures { Replies (IsCheckedFile D.finds options.now text.now) result }
{
    let grounds = grounds_in::<D, C, O>(alloc, options, text, crew, observer)?;
    let asked = Asked {
        expected: &grounds.expected,
        lines: &grounds.lines,
    };
    let checked = check_explored(alloc, asked, &grounds.findings)?;
    let states = states_of(options, &grounds.findings);
    let text = with_head(alloc, "", states, grounds.notes, &checked.text)?;
    Ok(Reply::Outcomes {
        text,
        stopped: is_unmet(checked.conclusion),
        all: is_told(checked.conclusion),
    })
}
