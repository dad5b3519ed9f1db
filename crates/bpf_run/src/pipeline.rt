//! From the text that was read to the reply: each command over the crates below.

ghost use Rattle.bpf_replies.specs.Answer.{Replies};
ghost use Rattle.bpf_run.specs.Commands.{IsAnswer, IsForOneThread};

use crate::buffer_expanding::expand_file_with_buffers;
use crate::expanding::expand_file;
use crate::racing::{AllRaces, race_file};
use crate::scouting::{asked_workers, crew_of};
use bpf_command::{Command, FileOptions, HistoryOptions, JudgeOptions, ShowOptions, X86Options};
use bpf_explore::{Crew, Observer};
use bpf_replies::buffer_script::debug_file_with_buffers;
use bpf_replies::checking::check_file;
use bpf_replies::exploring::{explore_file, show_file};
use bpf_replies::programs::{assembled, assembled_run, disassembled, run};
use bpf_replies::refusal::Refusal;
use bpf_replies::reordering::{explore_file_with_buffers, show_file_with_buffers};
use bpf_replies::reply::Reply;
use bpf_replies::running::{
    judge_file, run_file, run_file_by_workers, run_file_with_buffer_events, run_file_with_buffers,
    run_file_with_history, run_file_with_packets,
};
use bpf_replies::script::debug_file;
use bpf_workers::Extras;
use std::alloc::Global;
use std::sync::Wait;
use std::thread::Threads;

/// What a command replies to the text that it read, or why it has no answer, on the thread that
/// calls. The crew goes ahead of a search, and the observer hears how far it is.
fn answer_to<C: Crew, O: Observer>(
    alloc: Global,
    command: Command,
    text: &str,
    crew: &C,
    observer: &mut O,
) -> Result<Reply, Refusal>
    requires crew { C.can }
    requires one_thread { IsForOneThread command }
    ensures { Replies (IsAnswer command text.now) result }
{
    match command {
        Command::Hex(options) => run(alloc, options, text),
        Command::Asm { listing } => assembled(alloc, listing, text),
        Command::AsmRun(options) => assembled_run(alloc, options, text),
        Command::Disasm { pc } => disassembled(alloc, pc, text),
        Command::Run(
            FileOptions {
                by,
                keys,
                maps,
                workers: None,
                ..
            },
        ) => run_file(alloc, &by, keys, maps, text),
        Command::Run(
            FileOptions {
                workers: Some(_),
                ..
            },
        ) => unreachable!(),
        Command::Debug { echo, strict } => debug_file(alloc, echo, strict, text),
        Command::DebugX86 { echo, strict } => debug_file_with_buffers(alloc, echo, strict, text),
        Command::History(HistoryOptions { by, keys, maps }) => {
            run_file_with_history(alloc, &by, keys, maps, text)
        }
        Command::Packets(HistoryOptions { by, keys, maps }) => {
            run_file_with_packets(alloc, &by, keys, maps, text)
        }
        Command::X86(X86Options { by, maps }) => run_file_with_buffers(alloc, &by, maps, text),
        Command::X86History(X86Options { by, maps }) => {
            run_file_with_buffer_events(alloc, &by, maps, text)
        }
        Command::Judge(JudgeOptions { by, keys }) => judge_file(alloc, &by, keys, text),
        Command::Explore(search) => explore_file(alloc, search, text, crew, observer),
        Command::ExploreX86(search) => explore_file_with_buffers(alloc, &search, text, observer),
        Command::Show(ShowOptions { outcome, search }) => {
            show_file(alloc, search, outcome, text, crew, observer)
        }
        Command::ShowX86(ShowOptions { outcome, search }) => {
            show_file_with_buffers(alloc, &search, outcome, text, observer)
        }
        Command::Races(options) => race_file(alloc, options, text, crew, observer),
        Command::Check(options) => check_file::<AllRaces, C, O>(
            alloc, &options, text, crew, observer,
        ),
        Command::Expand { first, .. } => expand_file(alloc, first, text),
        Command::ExpandX86 { first, .. } => expand_file_with_buffers(alloc, first, text),
    }
}

/// What a command replies to the text that it read, on the thread that calls and the crew's.
pub fn reply<C: Crew, O: Observer>(
    alloc: Global,
    command: Command,
    text: &str,
    crew: &C,
    observer: &mut O,
) -> Reply
    requires crew { C.can }
    requires one_thread { IsForOneThread command }
    ensures { IsAnswer command text.now result }
{
    Reply::of(answer_to(alloc, command, text, crew, observer))
}

/// What a command replies to the text that it read, or why it has no answer, on worker threads
/// where it asks for them.
fn answer_by_workers<T: Threads + Wait + Sync, O: Observer>(
    rt: &T,
    alloc: Global,
    command: Command,
    text: &str,
    observer: &mut O,
) -> Result<Reply, Refusal>
    ensures { Replies (IsAnswer command text.now) result }
{
    match command {
        Command::Run(
            FileOptions {
                keys,
                maps,
                workers: Some(workers),
                stats,
                ..
            },
        ) => run_file_by_workers(rt, alloc, workers, Extras { keys, maps, stats }, text),
        command => {
            let crew = crew_of(rt, asked_workers(&command));
            answer_to(alloc, command, text, &crew, observer)
        }
    }
}

/// What a command replies to the text that it read, on worker threads where it asks for them.
pub fn reply_by_workers<T: Threads + Wait + Sync, O: Observer>(
    rt: &T,
    alloc: Global,
    command: Command,
    text: &str,
    observer: &mut O,
) -> Reply
    ensures { IsAnswer command text.now result }
{
    Reply::of(answer_by_workers(rt, alloc, command, text, observer))
}
