//! Answers as they are printed.

ghost use Rattle.std.specs.Prelude.{◌≡◌, ◌++◌, IfOk, OnOk, length, string_bytes};
ghost use Rattle.bpf_explore.specs.Listing.{all_text, answer_text, answers_text, budgets_text, counts_text, explored_text, hung_lines, hung_text, last_line, patient_text};

use crate::answers::Answer;
use crate::budgets::Budgets;
use crate::exploring::{Explored, ExploredPatiently};
use crate::hung::Hung;
use bpf_schedule::push_moves;
use bpf_threads::{Threads, push_threads};
use std::alloc::{AllocError, Global};

/// Appends the schedule of an answer to the text, and what is printed.
fn push_answer(alloc: Global, text: &mut String, answer: &Answer) -> Result<(), AllocError>
    ensures { OnOk result (string_bytes text.new
        ≡ string_bytes text.old ++ answer_text answer.now) }
{
    text.push_str("by")?;
    push_moves(alloc, text, answer.by())?;
    text.push_str("\n")?;
    text.push_str(answer.text())
}

/// Whether what is printed is all.
pub fn whether_all(all: bool) -> &'static str
    ensures { result.now ≡ all_text all }
{
    if all { "all" } else { "not all" }
}

/// Appends the end of the last line to the text.
fn push_counts(
    alloc: Global,
    text: &mut String,
    outcomes: usize,
    states: usize,
) -> Result<(), AllocError>
    ensures { OnOk result (string_bytes text.new
        ≡ string_bytes text.old ++ counts_text outcomes states) }
{
    let counts = format!(in alloc; ": {outcomes} outcomes, {states} states\n")?;
    text.push_str(counts.as_str())?;
    Ok(())
}

/// Appends the last line to the text.
pub fn push_last(
    alloc: Global,
    text: &mut String,
    all: bool,
    outcomes: usize,
    states: usize,
) -> Result<(), AllocError>
    ensures { OnOk result (string_bytes text.new
        ≡ string_bytes text.old ++ last_line all outcomes states) }
{
    text.push_str(whether_all(all))?;
    push_counts(alloc, text, outcomes, states)?;
    Ok(())
}

/// Appends answers, each after its schedule, to the text.
fn push_answers(alloc: Global, text: &mut String, answers: &[Answer]) -> Result<(), AllocError>
    ensures { OnOk result (string_bytes text.new
        ≡ string_bytes text.old ++ answers_text (length answers.now) answers.now) }
{
    for answer in answers {
        push_answer(alloc, text, answer)?;
    }
    Ok(())
}

/// The answers, each after its schedule, what is said of threads, and a line that says whether the
/// answers are all.
pub fn list_explored(
    alloc: Global,
    explored: &Explored,
    threads: Threads,
) -> Result<String, AllocError>
    ensures { IfOk result (λ text. string_bytes text ≡ explored_text explored.now.answers.items
        threads explored.now.all explored.now.states) }
{
    let mut text = String::new(alloc);
    push_answers(alloc, &mut text, &explored.answers)?;
    push_threads(&mut text, threads)?;
    let outcomes = explored.answers.len();
    push_last(alloc, &mut text, explored.all, outcomes, explored.states)?;
    Ok(text)
}

/// Appends the schedule to a hung state to the text.
fn push_hung(alloc: Global, text: &mut String, hung: &Hung) -> Result<(), AllocError>
    ensures { OnOk result (string_bytes text.new ≡ string_bytes text.old ++ hung_text hung.now) }
{
    text.push_str("hung by")?;
    push_moves(alloc, text, hung.by())?;
    text.push_str("\n")
}

/// Appends the schedule to each hung state to the text.
fn push_all_hung(alloc: Global, text: &mut String, hung: &[Hung]) -> Result<(), AllocError>
    ensures { OnOk result (string_bytes text.new
        ≡ string_bytes text.old ++ hung_lines (length hung.now) hung.now) }
{
    for found in hung {
        push_hung(alloc, text, found)?;
    }
    Ok(())
}

/// Whether some schedule uses a budget up.
fn budgets_text(budgets: Budgets) -> &'static str
    ensures { result.now ≡ budgets_text budgets }
{
    match budgets {
        Budgets::Suffice => "",
        Budgets::RunOut => "budgets can run out\n",
        Budgets::Unknown => "budgets may run out\n",
    }
}

/// Appends that to the text.
fn push_budgets(text: &mut String, budgets: Budgets) -> Result<(), AllocError>
    ensures { OnOk result (string_bytes text.new
        ≡ string_bytes text.old ++ budgets_text budgets) }
{
    text.push_str(budgets_text(budgets))
}

/// The answers of a patient search, each after its schedule, a line for each hung state, one where
/// budgets run out, what is said of threads, and a line that says whether the answers are all.
pub fn list_patient(
    alloc: Global,
    explored: &ExploredPatiently,
    threads: Threads,
) -> Result<String, AllocError>
    ensures { IfOk result (λ text. string_bytes text ≡ patient_text explored.now.answers.items
        explored.now.hung.items explored.now.budgets threads explored.now.all
        explored.now.states) }
{
    let mut text = String::new(alloc);
    push_answers(alloc, &mut text, &explored.answers)?;
    push_all_hung(alloc, &mut text, &explored.hung)?;
    push_budgets(&mut text, explored.budgets)?;
    push_threads(&mut text, threads)?;
    let outcomes = explored.answers.len();
    push_last(alloc, &mut text, explored.all, outcomes, explored.states)?;
    Ok(text)
}
