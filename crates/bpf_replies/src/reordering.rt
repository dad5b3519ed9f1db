//! `ebpf explore --x86`: every outcome of a run file's jobs on CPUs with store buffers, whatever the order
//! of turns and flushes.

ghost use Rattle.std.specs.Prelude.{◌≡◌, ◌<◌, true, false, IfErr, IfOk, length};
ghost use Rattle.bpf_cpu.specs.Setup.{IsRunnable};
ghost use Rattle.bpf_file.specs.File.{file_of};
ghost use Rattle.bpf_reorderings.specs.Outcomes.{IsExploredX86};
ghost use Rattle.bpf_reorderings.specs.Patient.{IsExploredPatientlyX86};
ghost use Rattle.bpf_replies.specs.Answer.{Replies};
ghost use Rattle.bpf_replies.specs.Exploring.{IsShownBy};
ghost use Rattle.bpf_replies.specs.Reordering.{AreAnswersOnX86, AreFindingsIn, AreFindingsOnX86, AreFoundOnX86, ArePatientAnswersOnX86, IsExploredFileOnX86, IsShownFileOnX86};
ghost use Rattle.bpf_replies.specs.Running.{IsBufferHistory, RefusesFile};
ghost use Rattle.bpf_replies.specs.Script.{first_world_of};

use crate::exploring::{findings_in, is_stopped, merged_by, missing, with_last};
use crate::refusal::Refusal;
use crate::reply::Reply;
use crate::running::{buffer_history_by, file_in};
use crate::threading::threads_in;
use bpf_check::{Findings, Raced};
use bpf_command::SearchOptions;
use bpf_explore::{
    Crew, Explored, ExploredPatiently, Observer, is_any_stopped, list_explored, list_patient,
};
use bpf_file::RunFile;
use bpf_jobs::Report;
use bpf_reorderings::{Bounds, explore_patiently_with_buffers, explore_with_buffers};
use std::alloc::{AllocError, Global};

/// How far a search goes by its options, and which states it takes for one.
fn bounds_of(options: &SearchOptions) -> Bounds
    ensures { result.limit ≡ options.now.limit }
{
    Bounds {
        limit: options.limit as usize,
        merged: merged_by(options.all_states),
    }
}

/// Searches through all schedules of turns and flushes of a file's jobs, and prints the maps too.
fn explore<O: Observer>(
    alloc: Global,
    file: RunFile,
    bounds: Bounds,
    observer: &mut O,
) -> Result<Explored, AllocError>
    requires { IsRunnable file.setup }
    ensures { IfOk result
        (IsExploredX86 (first_world_of (file_of file)) (file_of file).names true bounds.limit) }
{
    let RunFile { setup, names, .. } = file;
    explore_with_buffers(alloc, setup, &names, true, bounds, observer)
}

/// What a search through all schedules of turns and flushes of the jobs that a text says finds.
fn explored_in<O: Observer>(
    alloc: Global,
    options: &SearchOptions,
    text: &str,
    observer: &mut O,
) -> Result<Explored, Refusal>
    ensures found { IfOk result (AreAnswersOnX86 text.now options.now.limit) }
    ensures refused { IfErr result (RefusesFile text.now) }
{
    let file = file_in(alloc, text)?;
    let explored = explore(alloc, file, bounds_of(options), observer)?;
    Ok(explored)
}

/// Searches through all schedules of turns and flushes of a file's jobs, but for how many steps are left
/// of budgets.
fn explore_patient<O: Observer>(
    alloc: Global,
    file: RunFile,
    bounds: Bounds,
    observer: &mut O,
) -> Result<ExploredPatiently, AllocError>
    requires { IsRunnable file.setup }
    ensures { IfOk result (IsExploredPatientlyX86 (first_world_of (file_of file))
        (file_of file).names true bounds.limit) }
{
    let RunFile { setup, names, .. } = file;
    explore_patiently_with_buffers(alloc, setup, &names, true, bounds, observer)
}

/// What a patient search finds.
fn patient_in<O: Observer>(
    alloc: Global,
    options: &SearchOptions,
    text: &str,
    observer: &mut O,
) -> Result<ExploredPatiently, Refusal>
    ensures found { IfOk result (ArePatientAnswersOnX86 text.now options.now.limit) }
    ensures refused { IfErr result (RefusesFile text.now) }
{
    let file = file_in(alloc, text)?;
    let explored = explore_patient(alloc, file, bounds_of(options), observer)?;
    Ok(explored)
}

/// The outcomes of either search.
fn found_in<O: Observer>(
    alloc: Global,
    options: &SearchOptions,
    text: &str,
    observer: &mut O,
) -> Result<Explored, Refusal>
    ensures found { IfOk result (λ e. AreFoundOnX86 options.now.patient text.now options.now.limit
        e.answers.items e.all e.states) }
    ensures refused { IfErr result (RefusesFile text.now) }
{
    if !options.patient {
        return explored_in(alloc, options, text, observer);
    }
    let ExploredPatiently {
        answers,
        all,
        refused,
        states,
        ..
    } = patient_in(alloc, options, text, observer)?;
    Ok(Explored {
        answers,
        all,
        refused,
        states,
    })
}

/// A search, and whether CPUs have store buffers.
#[derive(Clone, Copy)]
pub(crate) struct Sought<'a> {
    pub search: &'a SearchOptions,
    pub x86: bool,
}

/// What either search found, as far as tests rest on it, beside what was found of races.
fn findings_with_buffers<O: Observer>(
    alloc: Global,
    options: &SearchOptions,
    raced: Raced,
    text: &str,
    observer: &mut O,
) -> Result<Findings, Refusal>
    ensures found { IfOk result
        (AreFindingsOnX86 options.now.patient options.now.limit text.now) }
    ensures raced { IfOk result (λ f. f.raced ≡ raced) }
    ensures refused { IfErr result (RefusesFile text.now) }
{
    if !options.patient {
        let explored = explored_in(alloc, options, text, observer)?;
        return Ok(Findings::new(alloc, explored, raced));
    }
    let explored = patient_in(alloc, options, text, observer)?;
    Ok(Findings::patient(explored, raced))
}

/// What a search found, as far as tests rest on it, beside what was found of races: one through flushes
/// too, where CPUs have store buffers.
pub(crate) fn findings_by<C: Crew, O: Observer>(
    alloc: Global,
    sought: Sought<'_>,
    raced: Raced,
    text: &str,
    crew: &C,
    observer: &mut O,
) -> Result<Findings, Refusal>
    requires crew { C.can }
    ensures found { IfOk result
        (AreFindingsIn sought.entry.x86 sought.entry.search.now.patient
        sought.entry.search.now.limit text.now) }
    ensures raced { IfOk result (λ f. f.raced ≡ raced) }
    ensures refused { IfErr result (RefusesFile text.now) }
{
    if sought.x86 {
        findings_with_buffers(alloc, sought.search, raced, text, observer)
    } else {
        findings_in(alloc, sought.search, raced, text, crew, observer)
    }
}

/// `ebpf explore --x86` of all outcomes.
fn explore_all<O: Observer>(
    alloc: Global,
    options: &SearchOptions,
    text: &str,
    observer: &mut O,
) -> Result<Reply, Refusal>
    ensures { Replies (IsExploredFileOnX86 false options.now.limit text.now) result }
{
    let threads = threads_in(alloc, text)?;
    let explored = explored_in(alloc, options, text, observer)?;
    let text = list_explored(alloc, &explored, threads)?;
    Ok(Reply::Outcomes {
        text,
        stopped: is_any_stopped(&explored.answers),
        all: explored.all,
    })
}

/// `ebpf explore --x86 --patient`.
fn explore_patiently<O: Observer>(
    alloc: Global,
    options: &SearchOptions,
    text: &str,
    observer: &mut O,
) -> Result<Reply, Refusal>
    ensures { Replies (IsExploredFileOnX86 true options.now.limit text.now) result }
{
    let threads = threads_in(alloc, text)?;
    let explored = patient_in(alloc, options, text, observer)?;
    let text = list_patient(alloc, &explored, threads)?;
    Ok(Reply::Outcomes {
        text,
        stopped: is_stopped(&explored),
        all: explored.all,
    })
}

/// `ebpf explore --x86`.
pub fn explore_file_with_buffers<O: Observer>(
    alloc: Global,
    options: &SearchOptions,
    text: &str,
    observer: &mut O,
) -> Result<Reply, Refusal>
    ensures { Replies (IsExploredFileOnX86 options.now.patient options.now.limit text.now) result }
{
    if options.patient {
        explore_patiently(alloc, options, text, observer)
    } else {
        explore_all(alloc, options, text, observer)
    }
}

/// What happens by a schedule of turns and flushes, and after it that there are more outcomes than a
/// search found, if that may be.
fn show_by(
    alloc: Global,
    by: &[(u8, u64)],
    explored: &Explored,
    text: &str,
) -> Result<Reply, Refusal>
    ensures { Replies (IsShownBy (IsBufferHistory by.now true) explored.now.all
        (length explored.now.answers.items) explored.now.states text.now) result }
{
    let Report { text, stopped } = buffer_history_by(alloc, by, true, text)?;
    if explored.all {
        return Ok(Reply::Jobs(text, stopped));
    }
    let text = with_last(alloc, text, explored)?;
    Ok(Reply::Outcomes {
        text,
        stopped,
        all: false,
    })
}

/// `ebpf explore --x86 --show`: all that happens on the way to the outcome of this number, counted
/// from 1. Where memory was refused to the search the number may be another outcome's, so that is a
/// refusal.
pub fn show_file_with_buffers<O: Observer>(
    alloc: Global,
    options: &SearchOptions,
    outcome: u64,
    text: &str,
    observer: &mut O,
) -> Result<Reply, Refusal>
    requires { 0 < outcome }
    ensures { Replies (IsShownFileOnX86 options.now.patient options.now.limit outcome text.now)
        result }
{
    let explored = found_in(alloc, options, text, observer)?;
    if explored.refused {
        return Err(Refusal::OutOfMemory);
    }
    let Some(answer) = explored.answers.get(outcome as usize - 1) else {
        return Ok(missing(alloc, outcome, &explored)?);
    };
    show_by(alloc, answer.by(), &explored, text)
}
