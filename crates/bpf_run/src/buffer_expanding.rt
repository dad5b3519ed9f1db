//! `ebpf expand --x86`: states of a run file's jobs on CPUs with store buffers, and what moves lead to
//! from them.

ghost use Rattle.std.specs.Prelude.{◌≡◌, ◌≤◌, Ok, Some, [], false, true, IfErr, IfOk, IsUtf8, length, string_bytes};
ghost use Rattle.bpf_file.specs.File.{File, file_of};
ghost use Rattle.bpf_file.specs.Reading.{IsRunFile};
ghost use Rattle.bpf_cpu.specs.Setup.{IsRunnable};
ghost use Rattle.bpf_replies.specs.Answer.{Replies, stats_of};
ghost use Rattle.bpf_run.specs.Conversing.{Converses, Holds, BufferStatesFrom};
ghost use Rattle.bpf_run.specs.BufferExpanding.{IsExpandedFileOnX86, IsExpandedTextOnX86, IsBufferFilterOf};
ghost use Rattle.bpf_replies.specs.Running.{RefusesFile};
ghost use Rattle.bpf_run.specs.declared.conversing.Partner.{Partner};

use crate::conversing::come_to;
use bpf_buffer_expand::{BufferFilter, first_line};
use bpf_file::RunFile;
use bpf_replies::input::MAX_INPUT;
use bpf_replies::printing::answer;
use bpf_replies::refusal::Refusal;
use bpf_replies::reply::{Reply, Status};
use bpf_replies::running::file_in;
use bpf_replies::stream::Sink;
use bpf_talk::{Terminal, talk};
use std::alloc::{AllocError, Global};

/// The filter of the states of a run file's jobs. Out of memory is the only refusal.
fn open_filter(alloc: Global, patient: bool, file: RunFile) -> Result<BufferFilter, AllocError>
    requires { IsRunnable file.setup }
    ensures { IfOk result (IsBufferFilterOf patient (file_of file)) }
{
    let RunFile { setup, names, .. } = file;
    BufferFilter::new(alloc, patient, setup, names)
}

/// The filter of the states of the run file that a text is.
fn filter_in(alloc: Global, patient: bool, text: &str) -> Result<BufferFilter, Refusal>
    ensures opened { IfOk result (λ x. (f : File) × IsRunFile text.now (Ok f)
        × IsBufferFilterOf patient f x) }
    ensures refused { IfErr result (RefusesFile text.now) }
{
    let file = file_in(alloc, text)?;
    let filter = open_filter(alloc, patient, file)?;
    Ok(filter)
}

/// The line of the first state of a run file's jobs. Out of memory is the only refusal.
fn first_of(alloc: Global, file: RunFile) -> Result<String, AllocError>
    requires { IsRunnable file.setup }
    ensures { IfOk result (λ line. IsExpandedTextOnX86 true (file_of file) (string_bytes line)) }
{
    first_line(alloc, file.setup)
}

/// `ebpf expand --x86 --first`.
fn expand_first(alloc: Global, text: &str) -> Result<Reply, Refusal>
    ensures { Replies (IsExpandedFileOnX86 true text.now) result }
{
    let file = file_in(alloc, text)?;
    let line = first_of(alloc, file)?;
    Ok(Reply::Text(line))
}

/// `ebpf expand --x86` where no states are read: the first one, where that is asked for, or nothing.
pub fn expand_file_with_buffers(alloc: Global, first: bool, text: &str) -> Result<Reply, Refusal>
    ensures { Replies (IsExpandedFileOnX86 first text.now) result }
{
    if first {
        return expand_first(alloc, text);
    }
    file_in(alloc, text)?;
    Ok(Reply::Text(String::new(alloc)))
}

/// A conversation with a filter of states.
fn answer_states<D: Terminal>(
    alloc: Global,
    filter: BufferFilter,
    terminal: &mut D,
) -> (Status, Reply)
    requires hears { D.is_unread terminal.old ≡ false }
    requires tells { D.has_failed terminal.old ≡ false }
    ensures talks { BufferStatesFrom (D.passes terminal.old terminal.new) (D.is_unread terminal.new)
        (D.has_failed terminal.new) filter result.0 }
    ensures stats { stats_of result.1 ≡ [] }
{
    let mut filter = filter;
    let talked = talk(alloc, false, &mut filter, terminal);
    come_to(alloc, true, false, talked)
}

/// What is done of the text of a file.
pub(crate) fn expand_text_with_buffers<W: Sink, D: Terminal>(
    alloc: Global,
    patient: bool,
    text: &str,
    sink: &mut W,
    terminal: &mut D,
) -> (Status, Reply)
    requires writable { W.has_failed sink.old ≡ false }
    requires hears { D.is_unread terminal.old ≡ false }
    requires tells { D.has_failed terminal.old ≡ false }
    requires short { length text.now ≤ MAX_INPUT }
    requires utf8 { IsUtf8 text.now }
    ensures { Holds (Partner.BufferStates patient) (Some text.now) (terminal.new ≡ terminal.old)
        (Converses (D.passes terminal.old terminal.new) (D.is_unread terminal.new)
        (D.has_failed terminal.new) (Partner.BufferStates patient))
        false (W.contents sink.old) (W.contents sink.new) (W.has_failed sink.new) result.0
        (stats_of result.1) }
{
    match filter_in(alloc, patient, text) {
        Ok(filter) => answer_states(alloc, filter, terminal),
        Err(refusal) => {
            let reply = Reply::Refused(refusal);
            (answer(alloc, &reply, sink), reply)
        }
    }
}
