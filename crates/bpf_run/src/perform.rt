//! A whole command: what it reads, does and writes.

ghost use Rattle.std.specs.Prelude.{◌≡◌, ◌≤◌, ◌≢◌, ◌+◌, false, option_map, IfSome, List, length, ℕ};
ghost use Rattle.std.specs.Io.KnownBytes.{Consumes};
ghost use Rattle.bpf_replies.specs.Answer.{stats_of};
ghost use Rattle.bpf_replies.specs.Input.{is_unread};
ghost use Rattle.bpf_replies.specs.declared.reply.Reply.{Reply};
ghost use Rattle.bpf_run.specs.Commands.{IsForOneThread, IsReply};
ghost use Rattle.bpf_run.specs.Program.{input_of, Performs};

use crate::engine::{Engine, OneThread, WithWorkers};
use crate::progress::Aside;
use bpf_command::Command;
use bpf_replies::input::{InputError, MAX_INPUT, read_whole};
use bpf_replies::printing::answer;
use bpf_replies::refusal::Refusal;
use bpf_replies::reply::{Reply, Status};
use bpf_replies::stream::{Sink, Source};
use std::alloc::Global;
use std::sync::Wait;
use std::thread::Threads;

/// What a command came to, with what it was asked of.
#[derive(Drop)]
pub struct Performed {
    pub status: Status,
    pub reply: Reply,
    /// What was read; nothing where that failed.
    pub input: Vec<u8>,
}

fn reply_to<E: Engine>(engine: &E, alloc: Global, command: Command, input: &[u8]) -> Reply
    requires able { E.does command }
    requires short { length input.now ≤ MAX_INPUT }
    ensures reply { IsReply command input.now result }
    ensures own { (e : InputError) → result ≢ Reply.Refused (Refusal.Input e) }
    ensures read { is_unread result ≡ false }
{
    match str::from_utf8(input) {
        Ok(text) => engine.reply(alloc, command, text),
        Err(_) => Reply::Refused(Refusal::NotText),
    }
}

/// All that the source has left, and what the command replies to it.
fn read_and_reply<E: Engine, R: Source>(
    engine: &E,
    alloc: Global,
    command: Command,
    source: &mut R,
) -> (Vec<u8>, Reply)
    requires able { E.does command }
    requires readable { R.has_failed source.old ≡ false }
    ensures reply { IfSome (R.remaining source.old) (λ input. IsReply command input result.1) }
    ensures unread { R.has_failed source.new ≡ is_unread result.1 }
    ensures taken { (bytes : List ℕ)
        × Consumes (R.remaining source.old) (R.remaining source.new) bytes
        × (length bytes ≤ MAX_INPUT + 1) }
    ensures reads { R.reads source.new ≤ R.reads source.old + (MAX_INPUT + 1) }
{
    match read_whole(alloc, source) {
        Ok(input) => {
            let made = reply_to(engine, alloc, command, &input);
            (input, made)
        }
        Err(error) => (Vec::new(alloc), Reply::Refused(Refusal::Input(error))),
    }
}

/// The whole command: reads all input, and writes the reply.
fn perform_by<E: Engine, R: Source, W: Sink>(
    engine: &E,
    alloc: Global,
    command: Command,
    source: &mut R,
    sink: &mut W,
) -> Performed
    requires able { E.does command }
    requires readable { R.has_failed source.old ≡ false }
    requires writable { W.has_failed sink.old ≡ false }
    ensures replies { Performs command (R.remaining source.old) (R.has_failed source.new)
        (W.contents sink.old) (W.contents sink.new) (W.has_failed sink.new) result.status
        (stats_of result.reply) }
    ensures taken { (bytes : List ℕ)
        × Consumes (R.remaining source.old) (R.remaining source.new) bytes
        × (length bytes ≤ MAX_INPUT + 1) }
    ensures reads { R.reads source.new ≤ R.reads source.old + (MAX_INPUT + 1) }
{
    let (input, reply) = read_and_reply(engine, alloc, command, source);
    let status = answer(alloc, &reply, sink);
    Performed {
        status,
        reply,
        input,
    }
}

/// The whole command, on the thread that calls: reads all input, and writes the reply.
pub fn perform<R: Source, W: Sink>(
    alloc: Global,
    command: Command,
    source: &mut R,
    sink: &mut W,
) -> Performed
    requires one_thread { IsForOneThread command }
    requires readable { R.has_failed source.old ≡ false }
    requires writable { W.has_failed sink.old ≡ false }
    ensures replies { Performs command (R.remaining source.old) (R.has_failed source.new)
        (W.contents sink.old) (W.contents sink.new) (W.has_failed sink.new) result.status
        (stats_of result.reply) }
    ensures taken { (bytes : List ℕ)
        × Consumes (R.remaining source.old) (R.remaining source.new) bytes
        × (length bytes ≤ MAX_INPUT + 1) }
    ensures reads { R.reads source.new ≤ R.reads source.old + (MAX_INPUT + 1) }
{
    perform_by(&OneThread, alloc, command, source, sink)
}

/// The whole command, on worker threads where it asks for them: reads all input, and writes the reply.
pub fn perform_threads<T: Threads + Wait + Sync + Aside, R: Source, W: Sink>(
    rt: &T,
    alloc: Global,
    command: Command,
    source: &mut R,
    sink: &mut W,
) -> Performed
    requires readable { R.has_failed source.old ≡ false }
    requires writable { W.has_failed sink.old ≡ false }
    ensures replies { Performs command (R.remaining source.old) (R.has_failed source.new)
        (W.contents sink.old) (W.contents sink.new) (W.has_failed sink.new) result.status
        (stats_of result.reply) }
    ensures taken { (bytes : List ℕ)
        × Consumes (R.remaining source.old) (R.remaining source.new) bytes
        × (length bytes ≤ MAX_INPUT + 1) }
    ensures reads { R.reads source.new ≤ R.reads source.old + (MAX_INPUT + 1) }
{
    perform_by(&WithWorkers(rt), alloc, command, source, sink)
}

/// The whole command, of a file: opens it, reads all of it, and writes the reply.
fn perform_file<T: Threads + Wait + Sync + Aside, R: Source, W: Sink>(
    rt: &T,
    alloc: Global,
    command: Command,
    name: &str,
    source: &mut R,
    sink: &mut W,
) -> Performed
    requires readable { R.has_failed source.old ≡ false }
    requires writable { W.has_failed sink.old ≡ false }
    ensures replies { Performs command (R.file source.old name.now) (R.has_failed source.new)
        (W.contents sink.old) (W.contents sink.new) (W.has_failed sink.new) result.status
        (stats_of result.reply) }
    ensures reads { R.reads source.new ≤ R.reads source.old + (MAX_INPUT + 1) }
{
    match source.open(name) {
        Ok(()) => perform_threads(rt, alloc, command, source, sink),
        Err(_) => {
            let reply = Reply::Refused(Refusal::Input(InputError::Unread));
            let status = answer(alloc, &reply, sink);
            Performed {
                status,
                reply,
                input: Vec::new(alloc),
            }
        }
    }
}

/// The whole command, of the file where one is named.
pub fn perform_of<T: Threads + Wait + Sync + Aside, R: Source, W: Sink>(
    rt: &T,
    alloc: Global,
    command: Command,
    file: Option<&str>,
    source: &mut R,
    sink: &mut W,
) -> Performed
    requires readable { R.has_failed source.old ≡ false }
    requires writable { W.has_failed sink.old ≡ false }
    ensures replies { Performs command
        (input_of (R.remaining source.old) (R.file source.old) (option_map (λ s. s.now) file.entry))
        (R.has_failed source.new) (W.contents sink.old) (W.contents sink.new)
        (W.has_failed sink.new) result.status (stats_of result.reply) }
    ensures reads { R.reads source.new ≤ R.reads source.old + (MAX_INPUT + 1) }
{
    match file {
        Some(name) => perform_file(rt, alloc, command, name, source, sink),
        None => perform_threads(rt, alloc, command, source, sink),
    }
}
