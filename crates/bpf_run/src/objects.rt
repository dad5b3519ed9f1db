//! What is printed, as JSON objects in place of lines.

ghost use Rattle.std.specs.Prelude.{◌≡◌, ◌≤◌, ◌+◌, [], Some, false, true, option_map, IfOk, string_bytes};
ghost use Rattle.bpf_json.specs.Lines.{AreObjectsOf};
ghost use Rattle.bpf_replies.specs.Answer.{Prints, stats_of};
ghost use Rattle.bpf_run.specs.Objects.{AreWritten, IsShown};
ghost use Rattle.bpf_run.specs.Program.{input_of, Performs};

use crate::perform::{Performed, perform_of};
use crate::progress::Aside;
use bpf_advice::places_in;
use bpf_command::Command;
use bpf_json::{Known, objects_of};
use bpf_replies::printing::{answer, write_text};
use bpf_replies::reply::{Reply, Status};
use bpf_replies::stream::{Sink, Source};
use std::alloc::{AllocError, Global};
use std::io;
use std::io::ErrorKind;
use std::sync::Wait;
use std::thread::Threads;

/// A sink that keeps what is written.
#[derive(Drop)]
pub struct Kept {
    text: Vec<u8>,
    /// Whether there was no memory for some of it.
    cut: bool,
}

impl Kept {
    /// Nothing is written yet.
    fn new(alloc: Global) -> Kept
        ensures empty { result.text.items ≡ [] }
        ensures whole { result.cut ≡ false }
    {
        Kept {
            text: Vec::new(alloc),
            cut: false,
        }
    }

    /// The objects of the lines that were written. Lines are text, so that they are none counts as
    /// out of memory, as that some are missing does.
    fn objects(&self, alloc: Global, known: &Known) -> Result<String, AllocError>
        ensures whole { IfOk result (λ _. self.now.cut ≡ false) }
        ensures objects { IfOk result (λ objects.
            AreObjectsOf known.now self.now.text.items (string_bytes objects)) }
    {
        if self.cut {
            return Err(AllocError);
        }
        match str::from_utf8(&self.text) {
            Ok(text) => objects_of(alloc, known, text),
            Err(_) => Err(AllocError),
        }
    }
}

impl Sink for Kept {
    ghost contents = { λ s. Some s.text.items };

    ghost has_failed = { λ s. s.cut };

    fn write(&mut self, bytes: &[u8]) -> io::Result<usize> {
        match self.text.extend_from_slice(bytes) {
            Ok(()) => Ok(bytes.len()),
            Err(_) => {
                self.cut = true;
                Err(io::Error::from(ErrorKind::OutOfMemory))
            }
        }
    }

    fn flush(&mut self) -> io::Result<()> {
        Ok(())
    }
}

/// Writes the objects of what was printed, with what is known beside it.
fn write_objects<W: Sink>(
    alloc: Global,
    kept: &Kept,
    known: &Known,
    meant: Status,
    sink: &mut W,
) -> Status
    requires { W.has_failed sink.old ≡ false }
    ensures { AreWritten known.now (Some kept.now.text.items) kept.now.cut meant
        (W.contents sink.old) (W.contents sink.new) (W.has_failed sink.new) result }
{
    match kept.objects(alloc, known) {
        Ok(objects) => write_text(sink, objects.as_str(), meant),
        Err(_) => write_text(sink, "{\"refused\":\"L9\"}\n", Status::Refused),
    }
}

/// What is known of a file of this name and these bytes beside what is printed of it: from which of its
/// lines instructions come. Nothing where there is no memory for it.
fn known_of(alloc: Global, name: Option<&str>, bytes: &[u8]) -> Known {
    let mut known = Known::nothing(alloc);
    if let Some(name) = name {
        known.file = name.to_string(alloc).ok();
    }
    let text = str::from_utf8(bytes).unwrap_or("");
    if let Ok(places) = places_in(alloc, text) {
        known.jobs = places.jobs;
        known.lines = places.lines;
    }
    known
}

/// Prints a reply, or its objects.
pub fn answer_as<W: Sink>(json: bool, alloc: Global, reply: &Reply, sink: &mut W) -> Status
    requires { W.has_failed sink.old ≡ false }
    ensures { IsShown json (Prints reply.now) (W.contents sink.old) (W.contents sink.new)
        (W.has_failed sink.new) result }
{
    if !json {
        return answer(alloc, reply, sink);
    }
    let mut kept = Kept::new(alloc);
    let meant = answer(alloc, reply, &mut kept);
    write_objects(alloc, &kept, &Known::nothing(alloc), meant, sink)
}

/// The whole command, of the file where one is named, whose objects are written.
fn perform_objects<T: Threads + Wait + Sync + Aside, R: Source, W: Sink>(
    rt: &T,
    alloc: Global,
    command: Command,
    file: Option<&str>,
    source: &mut R,
    sink: &mut W,
) -> Performed
    requires readable { R.has_failed source.old ≡ false }
    requires writable { W.has_failed sink.old ≡ false }
    ensures replies { IsShown true (λ old new failed status. Performs command
        (input_of (R.remaining source.old) (R.file source.old) (option_map (λ s. s.now) file.entry))
        (R.has_failed source.new) old new failed status (stats_of result.reply))
        (W.contents sink.old) (W.contents sink.new) (W.has_failed sink.new) result.status }
{
    let mut kept = Kept::new(alloc);
    let Performed {
        status,
        reply,
        input,
    } = perform_of(rt, alloc, command, file, source, &mut kept);
    let known = known_of(alloc, file, &input);
    let status = write_objects(alloc, &kept, &known, status, sink);
    Performed {
        status,
        reply,
        input,
    }
}

/// A command, and what it is asked of.
#[derive(Drop)]
pub struct Errand<'a> {
    pub command: Command,
    /// The file that is read in place of standard input.
    pub file: Option<&'a str>,
    /// Whether objects are written in place of lines.
    pub json: bool,
}

/// The whole command, of the file where one is named; its objects are written in place of lines where
/// that is asked for.
pub fn perform_as<T: Threads + Wait + Sync + Aside, R: Source, W: Sink>(
    rt: &T,
    alloc: Global,
    errand: Errand,
    source: &mut R,
    sink: &mut W,
) -> Performed
    requires readable { R.has_failed source.old ≡ false }
    requires writable { W.has_failed sink.old ≡ false }
    ensures replies { IsShown errand.entry.json (λ old new failed status.
        Performs errand.entry.command (input_of (R.remaining source.old) (R.file source.old)
        (option_map (λ s. s.now) errand.entry.file))
        (R.has_failed source.new) old new failed status (stats_of result.reply))
        (W.contents sink.old) (W.contents sink.new) (W.has_failed sink.new) result.status }
{
    let Errand {
        command,
        file,
        json,
    } = errand;
    if json {
        perform_objects(rt, alloc, command, file, source, sink)
    } else {
        perform_of(rt, alloc, command, file, source, sink)
    }
}
