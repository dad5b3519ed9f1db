//! Commands that may hold a conversation: `ebpf debug FILE` and `ebpf expand FILE`.

ghost use Rattle.std.specs.Prelude.{◌≡◌, ◌&&◌, ◌<◌, ◌≤◌, [], Err, Some, false, IfOk, IfSome, IsUtf8, length, option_map};
ghost use Rattle.bpf_replies.specs.Answer.{Prints, stats_of};
ghost use Rattle.bpf_run.specs.Conversing.{Converses, Holds, asked_talk, talk_status};
ghost use Rattle.bpf_replies.specs.Input.{is_failed_read};

use crate::buffer_debugging::debug_text_with_buffers;
use crate::buffer_expanding::expand_text_with_buffers;
use crate::debugging::debug_text;
use crate::expanding::expand_text;
use crate::perform::Performed;
use bpf_command::Command;
use bpf_replies::input::{InputError, MAX_INPUT, read_whole};
use bpf_replies::printing::answer;
use bpf_replies::refusal::Refusal;
use bpf_replies::reply::{Reply, Status};
use bpf_replies::stream::{Sink, Source};
use bpf_talk::{Stop, Talked, Terminal};
use std::alloc::Global;

/// What lines are exchanged with.
#[derive(Clone, Copy, PartialEq, Eq, Debug)]
pub enum Partner {
    /// The debugger.
    Debugger {
        /// Each line is shown before its answer.
        echo: bool,
        /// A line that is refused refuses all.
        strict: bool,
    },
    /// The debugger of CPUs with store buffers.
    BufferDebugger {
        /// Each line is shown before its answer.
        echo: bool,
        /// A line that is refused refuses all.
        strict: bool,
    },
    /// The states of a run file's jobs.
    States {
        /// How many steps are left of budgets is passed over.
        patient: bool,
        /// The data races of each are printed.
        races: bool,
    },
    /// The states of a run file's jobs on CPUs with store buffers.
    BufferStates {
        /// How many steps are left of budgets is passed over.
        patient: bool,
    },
}

/// A command that lines may be read for from a terminal, with its file.
#[derive(Clone, Copy)]
pub struct Asked<'a> {
    pub partner: Partner,
    pub name: &'a str,
}

/// Whether lines may be read from a terminal: those of `debug` of a file, unless objects are asked
/// for, or of `expand`.
pub fn asked_talk<'a>(command: &Command, file: Option<&'a str>, json: bool) -> Option<Asked<'a>>
    ensures { option_map (λ a. (a.partner, a.name.now)) result
        ≡ asked_talk command.now (option_map (λ s. s.now) file.entry) json }
{
    let Some(name) = file else {
        return None;
    };
    if json {
        return None;
    }
    let partner = match command {
        Command::Debug { echo, strict } => Partner::Debugger {
            echo: *echo,
            strict: *strict,
        },
        Command::DebugX86 { echo, strict } => Partner::BufferDebugger {
            echo: *echo,
            strict: *strict,
        },
        Command::Expand {
            first: false,
            patient,
            races,
        } => Partner::States {
            patient: *patient,
            races: *races,
        },
        Command::ExpandX86 {
            first: false,
            patient,
        } => Partner::BufferStates { patient: *patient },
        _ => return None,
    };
    Some(Asked { partner, name })
}

/// All bytes of the file of a name.
fn read_named<R: Source>(alloc: Global, name: &str, source: &mut R) -> Result<Vec<u8>, InputError>
    requires { R.has_failed source.old ≡ false }
    ensures whole { IfOk result (λ v.
        IfSome (R.file source.old name.now) (λ input. v.items ≡ input)) }
    ensures short { IfOk result (λ v. length v.items ≤ MAX_INPUT) }
    ensures too_long { result ≡ Err InputError.TooLong
        → IfSome (R.file source.old name.now) (λ input. MAX_INPUT < length input) }
    ensures unread { R.has_failed source.new ≡ is_failed_read result }
{
    source.open(name)?;
    read_whole(alloc, source)
}

/// Prints a reply to a file.
fn print_reply<W: Sink>(alloc: Global, input: Vec<u8>, reply: Reply, sink: &mut W) -> Performed
    requires { W.has_failed sink.old ≡ false }
    ensures printed { Prints reply (W.contents sink.old) (W.contents sink.new)
        (W.has_failed sink.new) result.status }
    ensures same { result.reply ≡ reply }
{
    let status = answer(alloc, &reply, sink);
    Performed {
        status,
        reply,
        input,
    }
}

/// The refusal that ends a conversation, as it is explained.
fn refusal_of(why: Stop) -> Refusal {
    match why {
        Stop::Unread => Refusal::Input(InputError::Unread),
        Stop::TooLong => Refusal::Input(InputError::TooLong),
        Stop::NotText => Refusal::NotText,
        Stop::OutOfMemory | Stop::Unwritten => Refusal::OutOfMemory,
    }
}

/// What a conversation amounts to, with a reply that says no more than how it ended.
pub(crate) fn come_to(alloc: Global, strict: bool, stopped: bool, talked: Talked) -> (Status, Reply)
    ensures status { result.0 ≡ talk_status strict stopped talked }
    ensures stats { stats_of result.1 ≡ [] }
{
    match talked {
        Talked::Over(refused) => {
            let reply = Reply::Script {
                answers: Vec::new(alloc),
                lines: None,
                stopped,
                refused: strict && refused,
            };
            (reply.status(), reply)
        }
        Talked::Refused(why) => (Status::Refused, Reply::Refused(refusal_of(why))),
        Talked::CutOff => (Status::Failed, Reply::Refused(Refusal::OutOfMemory)),
    }
}

/// What is done of the text of a file.
fn talk_text<W: Sink, D: Terminal>(
    alloc: Global,
    partner: Partner,
    text: &str,
    sink: &mut W,
    terminal: &mut D,
) -> (Status, Reply)
    requires writable { W.has_failed sink.old ≡ false }
    requires hears { D.is_unread terminal.old ≡ false }
    requires tells { D.has_failed terminal.old ≡ false }
    requires short { length text.now ≤ MAX_INPUT }
    requires utf8 { IsUtf8 text.now }
    ensures { Holds partner (Some text.now) (terminal.new ≡ terminal.old)
        (Converses (D.passes terminal.old terminal.new) (D.is_unread terminal.new)
        (D.has_failed terminal.new) partner)
        false (W.contents sink.old) (W.contents sink.new) (W.has_failed sink.new) result.0
        (stats_of result.1) }
{
    match partner {
        Partner::Debugger { echo, strict } => debug_text(alloc, echo, strict, text, sink, terminal),
        Partner::BufferDebugger { echo, strict } => {
            debug_text_with_buffers(alloc, echo, strict, text, sink, terminal)
        }
        Partner::States { patient, races } => expand_text(
            alloc, patient, races, text, sink, terminal,
        ),
        Partner::BufferStates { patient } => {
            expand_text_with_buffers(alloc, patient, text, sink, terminal)
        }
    }
}

/// What is done of the bytes of a file.
fn talk_bytes<W: Sink, D: Terminal>(
    alloc: Global,
    partner: Partner,
    bytes: &[u8],
    sink: &mut W,
    terminal: &mut D,
) -> (Status, Reply)
    requires writable { W.has_failed sink.old ≡ false }
    requires hears { D.is_unread terminal.old ≡ false }
    requires tells { D.has_failed terminal.old ≡ false }
    requires short { length bytes.now ≤ MAX_INPUT }
    ensures { Holds partner (Some bytes.now) (terminal.new ≡ terminal.old)
        (Converses (D.passes terminal.old terminal.new) (D.is_unread terminal.new)
        (D.has_failed terminal.new) partner)
        false (W.contents sink.old) (W.contents sink.new) (W.has_failed sink.new) result.0
        (stats_of result.1) }
{
    match str::from_utf8(bytes) {
        Ok(text) => talk_text(alloc, partner, text, sink, terminal),
        Err(_) => {
            let reply = Reply::Refused(Refusal::NotText);
            (answer(alloc, &reply, sink), reply)
        }
    }
}

/// What is done of the bytes of a file, with what that amounts to.
fn talk_input<W: Sink, D: Terminal>(
    alloc: Global,
    partner: Partner,
    input: Vec<u8>,
    sink: &mut W,
    terminal: &mut D,
) -> Performed
    requires writable { W.has_failed sink.old ≡ false }
    requires hears { D.is_unread terminal.old ≡ false }
    requires tells { D.has_failed terminal.old ≡ false }
    requires short { length input.items ≤ MAX_INPUT }
    ensures { Holds partner (Some input.items) (terminal.new ≡ terminal.old)
        (Converses (D.passes terminal.old terminal.new) (D.is_unread terminal.new)
        (D.has_failed terminal.new) partner)
        false (W.contents sink.old) (W.contents sink.new) (W.has_failed sink.new) result.status
        (stats_of result.reply) }
{
    let (status, reply) = talk_bytes(alloc, partner, input.as_slice(), sink, terminal);
    Performed {
        status,
        reply,
        input,
    }
}

/// Such a command of a file.
pub fn talk_named<R: Source, W: Sink, D: Terminal>(
    alloc: Global,
    asked: Asked,
    source: &mut R,
    sink: &mut W,
    terminal: &mut D,
) -> Performed
    requires readable { R.has_failed source.old ≡ false }
    requires writable { W.has_failed sink.old ≡ false }
    requires hears { D.is_unread terminal.old ≡ false }
    requires tells { D.has_failed terminal.old ≡ false }
    ensures { Holds asked.entry.partner (R.file source.old asked.entry.name.now)
        (terminal.new ≡ terminal.old) (Converses (D.passes terminal.old terminal.new)
        (D.is_unread terminal.new) (D.has_failed terminal.new) asked.entry.partner)
        (R.has_failed source.new) (W.contents sink.old) (W.contents sink.new)
        (W.has_failed sink.new) result.status (stats_of result.reply) }
{
    match read_named(alloc, asked.name, source) {
        Ok(input) => talk_input(alloc, asked.partner, input, sink, terminal),
        Err(error) => {
            let reply = Reply::Refused(Refusal::Input(error));
            print_reply(alloc, Vec::new(alloc), reply, sink)
        }
    }
}
