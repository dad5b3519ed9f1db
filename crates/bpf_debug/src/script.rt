//! Scripts: lines that are followed one after the other.

ghost use Rattle.std.specs.Prelude.{◌≡◌, IfOk, OnErr, length, map, string_bytes};
ghost use Rattle.std.specs.Option.{option_copied};
ghost use Rattle.bpf_lines.specs.Lines.{lines_behind, lines_of};
ghost use Rattle.bpf_debug.specs.Session.{Scene, IsShown};
ghost use Rattle.bpf_debug.specs.Script.{AnswersLine, RunsScript, answer_of};

use crate::error::DebugError;
use crate::session::Session;
use bpf_lines::lines::first_line;
use std::alloc::{AllocError, Global};

/// A line's answer: its text, or why the line is refused.
pub type Answer = Result<String, DebugError>;

/// The text, in no more memory than it needs.
pub fn fitted(text: String) -> String
    ensures { string_bytes result ≡ string_bytes text }
{
    let mut text = text;
    text.shrink_to_fit();
    text
}

/// What a line is answered, in no more memory than its text needs.
pub fn answer(alloc: Global, session: &mut Session, line: &[u8]) -> Answer
    ensures { (x : Scene) → IsShown session.old x
        → (y : Scene) × AnswersLine x line.now (answer_of result) y × IsShown session.new y }
{
    match session.command_bytes(alloc, line) {
        Ok(text) => Ok(fitted(text)),
        Err(error) => Err(error),
    }
}

/// How many lines a text has.
pub fn count_lines(text: &[u8]) -> usize
    ensures { result ≡ length (lines_of text.now) }
{
    let mut count: usize = 0;
    let mut rest = Some(text);
    'lines: while let Some(left) = rest {
        let (_, behind) = first_line(left);
        count += 1;
        rest = behind;
    }
    count
}

/// What the lines of a text are answered.
fn follow_lines(
    alloc: Global,
    session: &mut Session,
    script: &[u8],
) -> Result<Vec<Answer>, AllocError>
    ensures answered { IfOk result (λ answers. (x : Scene) → IsShown session.old x → (y : Scene)
        × RunsScript x (lines_of script.now) (map answer_of answers.items) y
        × IsShown session.new y) }
    ensures unchanged { OnErr result (session.new ≡ session.old) }
{
    let mut answers = Vec::with_capacity(alloc, count_lines(script))?;
    let mut rest = Some(script);
    'lines: while let Some(left) = rest {
        let (line, behind) = first_line(left);
        match answers.push(answer(alloc, session, line)) {
            Ok(()) => {}
            Err(_) => unreachable!(),
        }
        rest = behind;
    }
    Ok(answers)
}

/// What the lines of a script are answered, in their order; without a script there are none. The
/// room for all answers is made before the first line is followed, and out of memory for that is
/// the only refusal: the session is then as it was.
pub fn run_script(
    alloc: Global,
    session: &mut Session,
    script: Option<&[u8]>,
) -> Result<Vec<Answer>, AllocError>
    ensures answered { IfOk result (λ answers. (x : Scene) → IsShown session.old x → (y : Scene)
        × RunsScript x (lines_behind (option_copied script.entry)) (map answer_of answers.items) y
        × IsShown session.new y) }
    ensures unchanged { OnErr result (session.new ≡ session.old) }
{
    match script {
        Some(text) => follow_lines(alloc, session, text),
        None => Ok(Vec::new(alloc)),
    }
}
