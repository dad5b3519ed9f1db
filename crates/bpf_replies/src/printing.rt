//! Replies and pages as they are printed.

ghost use Rattle.std.specs.Prelude.{◌≡◌, ◌++◌, codes, false, is_err, map, take, IfOk, OnErr, OnOk, string_bytes, ℕ};
ghost use Rattle.std.specs.Io.KnownBytes.{Appends};
ghost use Rattle.std.specs.Option.{option_copied};
ghost use Rattle.bpf_debug.specs.Script.{answer_of, answer_text};
ghost use Rattle.bpf_lines.specs.Lines.{lines_behind};
ghost use Rattle.bpf_replies.specs.Answer.{Prints, PrintsPage, IsPrinted, all_of, first_shown, other_lines, shown_line, shown_text};

use crate::output::write_whole;
use crate::reply::{Reply, Status};
use crate::stream::Sink;
use bpf_codes::Code;
use bpf_debug::Answer;
use bpf_explain::{Term, Topic, definition_of, page_of};
use bpf_jobs::OutcomeText;
use bpf_lines::lines::first_line;
use std::alloc::{AllocError, Global};
use std::io;

/// Prints a text.
pub fn write_text<W: Sink>(sink: &mut W, text: &str, status: Status) -> Status
    requires { W.has_failed sink.old ≡ false }
    ensures { IsPrinted text.now status (W.contents sink.old) (W.contents sink.new)
        (W.has_failed sink.new) result }
{
    match write_whole(sink, text.as_bytes()) {
        Ok(()) => status,
        Err(_) => Status::Failed,
    }
}

/// Prints a text that was made before its first byte is written, if there was memory for it.
fn write_line<W: Sink>(line: Result<String, AllocError>, status: Status, sink: &mut W) -> Status
    requires { W.has_failed sink.old ≡ false }
    ensures line { IfOk line (λ text. IsPrinted (string_bytes text) status
        (W.contents sink.old) (W.contents sink.new) (W.has_failed sink.new) result) }
    ensures memory { OnErr line (IsPrinted (codes "refused L9\n") Status.Refused
        (W.contents sink.old) (W.contents sink.new) (W.has_failed sink.new) result) }
{
    match line {
        Ok(text) => write_text(sink, text.as_str(), status),
        Err(_) => write_text(sink, "refused L9\n", Status::Refused),
    }
}

/// The text of an answer to a line of a script.
pub fn answer_text<'a>(answer: &'a Answer) -> &'a str
    ensures { result.now ≡ answer_text (answer_of answer.now) }
{
    match answer {
        Ok(text) => text.as_str(),
        Err(error) => error.line(),
    }
}

/// Writes some texts, one after the other.
fn write_all<W: Sink>(texts: &[&[u8]], sink: &mut W) -> io::Result<()>
    requires { W.has_failed sink.old ≡ false }
    ensures written { OnOk result
        (Appends (W.contents sink.old) (W.contents sink.new)
        (all_of (map (λ t. t.now) texts.now))) }
    ensures begun { OnErr result ((k : ℕ) × Appends (W.contents sink.old) (W.contents sink.new)
        (take k (all_of (map (λ t. t.now) texts.now)))) }
    ensures told { W.has_failed sink.new ≡ is_err result }
{
    for text in texts {
        write_whole(sink, text)?;
    }
    Ok(())
}

/// Prints a line of a script and what it is answered.
fn write_pair<W: Sink>(line: &[u8], answer: &Answer, sink: &mut W) -> io::Result<()>
    requires { W.has_failed sink.old ≡ false }
    ensures written { OnOk result (Appends (W.contents sink.old) (W.contents sink.new)
        (shown_line line.now ++ answer_text (answer_of answer.now))) }
    ensures begun { OnErr result ((k : ℕ) × Appends (W.contents sink.old) (W.contents sink.new)
        (take k (shown_line line.now ++ answer_text (answer_of answer.now)))) }
    ensures told { W.has_failed sink.new ≡ is_err result }
{
    let answer = answer_text(answer).as_bytes();
    if line.is_empty() {
        write_whole(sink, answer)
    } else {
        write_all(&["> ".as_bytes(), line, "\n".as_bytes(), answer], sink)
    }
}

/// Prints an answer, after the first of the lines where there are any, and gives what is after
/// that.
fn write_next<'a, W: Sink>(
    lines: Option<&'a [u8]>,
    answer: &Answer,
    sink: &mut W,
) -> io::Result<Option<&'a [u8]>>
    requires { W.has_failed sink.old ≡ false }
    ensures written { OnOk result (Appends (W.contents sink.old) (W.contents sink.new)
        (first_shown (lines_behind (option_copied lines.entry)) (answer_of answer.now))) }
    ensures behind { IfOk result (λ behind. lines_behind (option_copied behind)
        ≡ other_lines (lines_behind (option_copied lines.entry))) }
    ensures begun { OnErr result ((k : ℕ) × Appends (W.contents sink.old) (W.contents sink.new)
        (take k (first_shown (lines_behind (option_copied lines.entry)) (answer_of answer.now)))) }
    ensures told { W.has_failed sink.new ≡ is_err result }
{
    let Some(text) = lines else {
        write_whole(sink, answer_text(answer).as_bytes())?;
        return Ok(None);
    };
    let (line, behind) = first_line(text);
    write_pair(line, answer, sink)?;
    Ok(behind)
}

/// Prints what the lines of a script are answered, one after the other, each after its line where
/// the lines are given.
fn write_answers<W: Sink>(
    lines: Option<&[u8]>,
    answers: &[Answer],
    status: Status,
    sink: &mut W,
) -> Status
    requires { W.has_failed sink.old ≡ false }
    ensures { IsPrinted
        (shown_text (lines_behind (option_copied lines.entry)) (map answer_of answers.now)) status
        (W.contents sink.old) (W.contents sink.new) (W.has_failed sink.new) result }
{
    let mut rest = lines;
    for answer in answers {
        let Ok(behind) = write_next(rest, answer, sink) else {
            return Status::Failed;
        };
        rest = behind;
    }
    status
}

/// Prints a reply. Its whole text is made before its first byte is written.
pub fn answer<W: Sink>(alloc: Global, reply: &Reply, sink: &mut W) -> Status
    requires { W.has_failed sink.old ≡ false }
    ensures { Prints reply.now (W.contents sink.old) (W.contents sink.new)
        (W.has_failed sink.new) result }
{
    match reply {
        Reply::Text(text)
        | Reply::Jobs(text, _)
        | Reply::Counted { text, .. }
        | Reply::Outcomes { text, .. }
        | Reply::Several { text, .. }
        | Reply::NoOutcome { text, .. } => write_text(sink, text.as_str(), reply.status()),
        Reply::Script { answers, lines, .. } => {
            let shown = lines.as_ref().map(Vec::as_slice);
            write_answers(shown, answers, reply.status(), sink)
        }
        Reply::Ended(outcome) => {
            let line = format!(in alloc; "{}\n", OutcomeText(*outcome));
            write_line(line, reply.status(), sink)
        }
        Reply::Refused(refusal) => {
            let line = format!(in alloc; "refused {refusal}\n");
            write_line(line, reply.status(), sink)
        }
    }
}

/// Prints the page of a code. Its whole text is made before its first byte is written.
fn print_code<W: Sink>(alloc: Global, code: Code, sink: &mut W) -> Status
    requires { W.has_failed sink.old ≡ false }
    ensures { PrintsPage (Topic.Code code) (W.contents sink.old) (W.contents sink.new)
        (W.has_failed sink.new) result }
{
    let page = page_of(code);
    let Ok(text) = format!(in alloc; "{page}") else {
        return write_text(sink, "refused L9\n", Status::Refused);
    };
    write_text(sink, text.as_str(), Status::Done)
}

/// Prints what a name is that `explain` knows beside codes, likewise.
fn print_term<W: Sink>(alloc: Global, term: Term, sink: &mut W) -> Status
    requires { W.has_failed sink.old ≡ false }
    ensures { PrintsPage (Topic.Term term) (W.contents sink.old) (W.contents sink.new)
        (W.has_failed sink.new) result }
{
    let definition = definition_of(term);
    let text = format!(in alloc; "{definition}");
    write_line(text, Status::Done, sink)
}

/// Prints the page of a code or of another name. Its whole text is made before its first byte is
/// written.
pub fn print_page<W: Sink>(alloc: Global, topic: Topic, sink: &mut W) -> Status
    requires { W.has_failed sink.old ≡ false }
    ensures { PrintsPage topic (W.contents sink.old) (W.contents sink.new)
        (W.has_failed sink.new) result }
{
    match topic {
        Topic::Code(code) => print_code(alloc, code, sink),
        Topic::Term(term) => print_term(alloc, term, sink),
    }
}
