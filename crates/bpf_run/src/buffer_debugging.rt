//! `ebpf debug --x86 FILE`: the commands after the file, or a conversation where it has none.

ghost use Rattle.std.specs.Prelude.{◌≡◌, ◌≤◌, Ok, Some, [], false, IfErr, IfOk, IsUtf8, length};
ghost use Rattle.bpf_file.specs.File.{File};
ghost use Rattle.bpf_file.specs.Reading.{IsRunFile};
ghost use Rattle.bpf_buffer_debug.specs.Session.{Scene, IsShown};
ghost use Rattle.bpf_replies.specs.Answer.{stats_of};
ghost use Rattle.bpf_replies.specs.BufferScript.{buffer_scene_of};
ghost use Rattle.bpf_run.specs.Conversing.{BufferDebugsFrom, Converses, Holds};
ghost use Rattle.bpf_replies.specs.Running.{RefusesFile};
ghost use Rattle.bpf_run.specs.BufferDebugging.{IsBufferOpened};
ghost use Rattle.bpf_run.specs.declared.conversing.Partner.{Partner};

use crate::buffer_answering::BufferAnswering;
use crate::conversing::come_to;
use crate::debugging::is_ended;
use bpf_buffer_debug::{Session, has_any_stopped};
use bpf_replies::buffer_script::{debug_file_with_buffers, open_buffer_session};
use bpf_replies::input::MAX_INPUT;
use bpf_replies::printing::answer;
use bpf_replies::refusal::Refusal;
use bpf_replies::reply::{Reply, Status};
use bpf_replies::running::file_in;
use bpf_replies::stream::Sink;
use bpf_talk::{Terminal, talk};
use std::alloc::Global;

/// What the text of a file amounts to.
enum Opening {
    /// All that there is to say.
    Reply(Reply),
    /// A session that waits for commands.
    Talk(Session),
}

/// The session over the jobs that a text says.
pub(crate) fn open_file(alloc: Global, text: &str) -> Result<Session, Refusal>
    ensures opened { IfOk result (λ session. (f : File) × IsRunFile text.now (Ok f)
        × IsShown session (buffer_scene_of f)) }
    ensures refused { IfErr result (RefusesFile text.now) }
{
    let file = file_in(alloc, text)?;
    let session = open_buffer_session(alloc, file)?;
    Ok(session)
}

/// What a text amounts to, or why it is refused.
fn opening_in(alloc: Global, echo: bool, strict: bool, text: &str) -> Result<Opening, Refusal>
    ensures opened { IfOk result (IsBufferOpened echo strict text.now) }
    ensures refused { IfErr result
        (λ why. IsBufferOpened echo strict text.now (Opening.Reply (Reply.Refused why))) }
{
    let ends = is_ended(alloc, text.as_bytes())?;
    if ends {
        let reply = debug_file_with_buffers(alloc, echo, strict, text)?;
        return Ok(Opening::Reply(reply));
    }
    let session = open_file(alloc, text)?;
    Ok(Opening::Talk(session))
}

/// What a text amounts to.
fn open_text(alloc: Global, echo: bool, strict: bool, text: &str) -> Opening
    ensures { IsBufferOpened echo strict text.now result }
{
    match opening_in(alloc, echo, strict, text) {
        Ok(opening) => opening,
        Err(refusal) => Opening::Reply(Reply::Refused(refusal)),
    }
}

/// A conversation over the machine of a session.
fn converse<D: Terminal>(
    alloc: Global,
    echo: bool,
    strict: bool,
    session: Session,
    terminal: &mut D,
) -> (Status, Reply)
    requires hears { D.is_unread terminal.old ≡ false }
    requires tells { D.has_failed terminal.old ≡ false }
    ensures talks { (x : Scene) → IsShown session x → BufferDebugsFrom
        (D.passes terminal.old terminal.new) (D.is_unread terminal.new) (D.has_failed terminal.new)
        echo strict x result.0 }
    ensures stats { stats_of result.1 ≡ [] }
{
    let mut answering = BufferAnswering::new(alloc, session);
    let talked = talk(alloc, echo, &mut answering, terminal);
    let stopped = has_any_stopped(answering.session().machine());
    come_to(alloc, strict, stopped, talked)
}

/// What is done of the text of a file.
pub(crate) fn debug_text_with_buffers<W: Sink, D: Terminal>(
    alloc: Global,
    echo: bool,
    strict: bool,
    text: &str,
    sink: &mut W,
    terminal: &mut D,
) -> (Status, Reply)
    requires writable { W.has_failed sink.old ≡ false }
    requires hears { D.is_unread terminal.old ≡ false }
    requires tells { D.has_failed terminal.old ≡ false }
    requires short { length text.now ≤ MAX_INPUT }
    requires utf8 { IsUtf8 text.now }
    ensures { Holds (Partner.BufferDebugger echo strict) (Some text.now)
        (terminal.new ≡ terminal.old) (Converses (D.passes terminal.old terminal.new)
        (D.is_unread terminal.new) (D.has_failed terminal.new)
        (Partner.BufferDebugger echo strict)) false (W.contents sink.old) (W.contents sink.new)
        (W.has_failed sink.new) result.0 (stats_of result.1) }
{
    match open_text(alloc, echo, strict, text) {
        Opening::Reply(reply) => (answer(alloc, &reply, sink), reply),
        Opening::Talk(session) => converse(alloc, echo, strict, session, terminal),
    }
}
