//! `ebpf explore`: every outcome of a run file's jobs, whatever the order of the CPUs' turns.

ghost use Rattle.std.specs.Prelude.{◌≡◌, ◌<◌, ◌++◌, ◌||◌, if◌then◌else◌, false, true, Bool, IfErr, IfOk, length, string_bytes, ℕ};
ghost use Rattle.bpf_explore.specs.Listing.{last_line};
ghost use Rattle.bpf_explore.specs.Outcomes.{IsExplored};
ghost use Rattle.bpf_explore.specs.Patient.{IsSearchedPatiently};
ghost use Rattle.bpf_file.specs.File.{file_of};
ghost use Rattle.bpf_cpu.specs.Setup.{IsRunnable};
ghost use Rattle.bpf_replies.specs.Answer.{Replies};
ghost use Rattle.bpf_replies.specs.Exploring.{AreAnswersTo, AreFindingsBy, AreFoundBy, ArePatientAnswersTo, IsExploredFile, IsMissing, IsShownBy, IsShownFile, any_stopped_of, is_any_hung};
ghost use Rattle.bpf_replies.specs.Running.{IsHistoryBy, RefusesFile};
ghost use Rattle.bpf_replies.specs.Script.{first_world_of};

use crate::refusal::Refusal;
use crate::reply::Reply;
use crate::running::{file_in, history_by};
use crate::threading::threads_in;
use bpf_alike::Merged;
use bpf_check::{Findings, Raced};
use bpf_command::SearchOptions;
use bpf_explore::{
    Crew, Explored, ExploredPatiently, Hung, Observer, Scope, explore_jobs, is_any_stopped,
    list_explored, list_patient, push_last, search_patiently,
};
use bpf_file::RunFile;
use bpf_jobs::Report;
use std::alloc::{AllocError, Global};

/// Which states a search takes for one: where all are to be kept, those that are the same, else those
/// too from which the same is found.
pub(crate) fn merged_by(all_states: bool) -> Merged
    ensures { result ≡ (if all_states then Merged.Same else Merged.Alike) }
{
    if all_states {
        Merged::Same
    } else {
        Merged::Alike
    }
}

/// How far a search goes by its options, and which states it takes for one, with this crew.
pub fn scope_of<'a, C: Crew>(options: &SearchOptions, crew: &'a C) -> Scope<'a, C>
    ensures limit { result.limit ≡ options.now.limit }
    ensures merged { result.merged
        ≡ (if options.now.all_states then Merged.Same else Merged.Alike) }
{
    Scope {
        limit: options.limit as usize,
        merged: merged_by(options.all_states),
        crew,
    }
}

/// Searches through all schedules of a file's jobs, and prints the maps too.
fn explore<C: Crew, O: Observer>(
    alloc: Global,
    file: RunFile,
    scope: Scope<'_, C>,
    observer: &mut O,
) -> Result<Explored, AllocError>
    requires crew { C.can }
    requires runs { IsRunnable file.setup }
    ensures { IfOk result (λ e. IsExplored (first_world_of (file_of file)) (file_of file).names true
        e.answers.items e.all e.refused scope.entry.limit e.states) }
{
    let RunFile { setup, names, .. } = file;
    explore_jobs(alloc, setup, &names, true, scope, observer)
}

/// Searches through all schedules of a file's jobs, but for how many steps are left of budgets.
fn explore_patient<C: Crew, O: Observer>(
    alloc: Global,
    file: RunFile,
    scope: Scope<'_, C>,
    observer: &mut O,
) -> Result<ExploredPatiently, AllocError>
    requires crew { C.can }
    requires runs { IsRunnable file.setup }
    ensures { IfOk result (λ e. IsSearchedPatiently (first_world_of (file_of file))
        (file_of file).names true e.answers.items e.all e.refused scope.entry.limit e.states
        e.hung.items e.budgets) }
{
    let RunFile { setup, names, .. } = file;
    search_patiently(alloc, setup, &names, true, scope, observer)
}

/// What a search through all schedules of the jobs that a text says finds.
fn explored_in<C: Crew, O: Observer>(
    alloc: Global,
    scope: Scope<'_, C>,
    text: &str,
    observer: &mut O,
) -> Result<Explored, Refusal>
    requires crew { C.can }
    ensures found { IfOk result (λ e. AreAnswersTo text.now e.answers.items e.all scope.entry.limit
        e.states) }
    ensures refused { IfErr result (RefusesFile text.now) }
{
    let file = file_in(alloc, text)?;
    let explored = explore(alloc, file, scope, observer)?;
    Ok(explored)
}

/// What a patient search finds.
fn patient_in<C: Crew, O: Observer>(
    alloc: Global,
    scope: Scope<'_, C>,
    text: &str,
    observer: &mut O,
) -> Result<ExploredPatiently, Refusal>
    requires crew { C.can }
    ensures found { IfOk result (λ e. ArePatientAnswersTo text.now e.answers.items e.all
        scope.entry.limit e.states e.hung.items e.budgets) }
    ensures refused { IfErr result (RefusesFile text.now) }
{
    let file = file_in(alloc, text)?;
    let explored = explore_patient(alloc, file, scope, observer)?;
    Ok(explored)
}

/// The outcomes of either search.
fn found_in<C: Crew, O: Observer>(
    alloc: Global,
    options: SearchOptions,
    text: &str,
    crew: &C,
    observer: &mut O,
) -> Result<Explored, Refusal>
    requires crew { C.can }
    ensures found { IfOk result (λ e. AreFoundBy options.patient text.now e.answers.items e.all
        options.limit e.states) }
    ensures refused { IfErr result (RefusesFile text.now) }
{
    let scope = scope_of(&options, crew);
    if !options.patient {
        return explored_in(alloc, scope, text, observer);
    }
    let ExploredPatiently {
        answers,
        all,
        refused,
        states,
        ..
    } = patient_in(alloc, scope, text, observer)?;
    Ok(Explored {
        answers,
        all,
        refused,
        states,
    })
}

/// What either search found, as far as tests rest on it, beside what was found of races.
pub(crate) fn findings_in<C: Crew, O: Observer>(
    alloc: Global,
    options: &SearchOptions,
    raced: Raced,
    text: &str,
    crew: &C,
    observer: &mut O,
) -> Result<Findings, Refusal>
    requires crew { C.can }
    ensures found { IfOk result
        (AreFindingsBy options.now.patient options.now.limit text.now) }
    ensures raced { IfOk result (λ f. f.raced ≡ raced) }
    ensures refused { IfErr result (RefusesFile text.now) }
{
    let scope = scope_of(options, crew);
    if !options.patient {
        let explored = explored_in(alloc, scope, text, observer)?;
        return Ok(Findings::new(alloc, explored, raced));
    }
    let explored = patient_in(alloc, scope, text, observer)?;
    Ok(Findings::patient(explored, raced))
}

/// `ebpf explore` of all outcomes.
fn explore_all<C: Crew, O: Observer>(
    alloc: Global,
    scope: Scope<'_, C>,
    text: &str,
    observer: &mut O,
) -> Result<Reply, Refusal>
    requires crew { C.can }
    ensures { Replies (IsExploredFile false scope.entry.limit text.now) result }
{
    let threads = threads_in(alloc, text)?;
    let explored = explored_in(alloc, scope, text, observer)?;
    let text = list_explored(alloc, &explored, threads)?;
    Ok(Reply::Outcomes {
        text,
        stopped: is_any_stopped(&explored.answers),
        all: explored.all,
    })
}

/// Whether some state is hung.
fn is_any_hung(hung: &[Hung]) -> bool
    ensures { result ≡ is_any_hung hung.now }
{
    !hung.is_empty()
}

/// Whether some outcome has a job that ended in a fault, or some state is hung.
pub(crate) fn is_stopped(explored: &ExploredPatiently) -> bool
    ensures { result ≡ (any_stopped_of explored.now.answers.items
        || is_any_hung explored.now.hung.items) }
{
    is_any_stopped(&explored.answers) || is_any_hung(&explored.hung)
}

/// `ebpf explore --patient`.
fn explore_patiently<C: Crew, O: Observer>(
    alloc: Global,
    scope: Scope<'_, C>,
    text: &str,
    observer: &mut O,
) -> Result<Reply, Refusal>
    requires crew { C.can }
    ensures { Replies (IsExploredFile true scope.entry.limit text.now) result }
{
    let threads = threads_in(alloc, text)?;
    let explored = patient_in(alloc, scope, text, observer)?;
    let text = list_patient(alloc, &explored, threads)?;
    Ok(Reply::Outcomes {
        text,
        stopped: is_stopped(&explored),
        all: explored.all,
    })
}

/// `ebpf explore`.
pub fn explore_file<C: Crew, O: Observer>(
    alloc: Global,
    options: SearchOptions,
    text: &str,
    crew: &C,
    observer: &mut O,
) -> Result<Reply, Refusal>
    requires crew { C.can }
    ensures { Replies (IsExploredFile options.patient options.limit text.now) result }
{
    let scope = scope_of(&options, crew);
    if options.patient {
        explore_patiently(alloc, scope, text, observer)
    } else {
        explore_all(alloc, scope, text, observer)
    }
}

/// That there is no outcome of this number, counted from 1.
pub(crate) fn missing(alloc: Global, outcome: u64, explored: &Explored) -> Result<Reply, AllocError>
    ensures { IfOk result
        (IsMissing outcome (length explored.now.answers.items) explored.now.all) }
{
    let found = explored.answers.len();
    let text = format!(in alloc; "no outcome {outcome}: {found} were found\n")?;
    Ok(Reply::NoOutcome {
        text,
        all: explored.all,
    })
}

/// A text, and after it how many outcomes a search found, which aren't all.
pub(crate) fn with_last(
    alloc: Global,
    text: String,
    explored: &Explored,
) -> Result<String, AllocError>
    ensures { IfOk result (λ new. string_bytes new ≡ string_bytes text
        ++ last_line false (length explored.now.answers.items) explored.now.states) }
{
    let mut shown = text;
    push_last(
        alloc,
        &mut shown,
        false,
        explored.answers.len(),
        explored.states,
    )?;
    Ok(shown)
}

/// What happens by a schedule, and after it that there are more outcomes than a search found, if that
/// may be.
fn show_by(
    alloc: Global,
    by: &[(u8, u64)],
    explored: &Explored,
    text: &str,
) -> Result<Reply, Refusal>
    ensures { Replies (IsShownBy (IsHistoryBy by.now false true) explored.now.all
        (length explored.now.answers.items) explored.now.states text.now) result }
{
    let Report { text, stopped } = history_by(alloc, by, false, true, text)?;
    if explored.all {
        return Ok(Reply::Jobs(text, stopped));
    }
    let text = with_last(alloc, text, explored)?;
    Ok(Reply::Outcomes {
        text,
        stopped,
        all: false,
    })
}

/// `ebpf explore --show`: all that happens on the way to the outcome of this number, counted from 1.
/// Where memory was refused to the search the number may be another outcome's, so that is a refusal.
pub fn show_file<C: Crew, O: Observer>(
    alloc: Global,
    options: SearchOptions,
    outcome: u64,
    text: &str,
    crew: &C,
    observer: &mut O,
) -> Result<Reply, Refusal>
    requires crew { C.can }
    requires counted { 0 < outcome }
    ensures { Replies (IsShownFile options.patient options.limit outcome text.now) result }
{
    let explored = found_in(alloc, options, text, crew, observer)?;
    if explored.refused {
        return Err(Refusal::OutOfMemory);
    }
    let Some(answer) = explored.answers.get(outcome as usize - 1) else {
        return Ok(missing(alloc, outcome, &explored)?);
    };
    show_by(alloc, answer.by(), &explored, text)
}
