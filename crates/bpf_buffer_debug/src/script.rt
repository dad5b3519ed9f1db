//! Scripts: lines that are followed one after the other.

ghost use Rattle.std.specs.Prelude.{IfOk, Option, map};
ghost use Rattle.std.specs.Option.{option_copied};
ghost use Rattle.bpf_lines.specs.Lines.{lines_behind, lines_of};
ghost use Rattle.bpf_debug.specs.Script.{answer_of};
ghost use Rattle.bpf_buffer_debug.specs.Session.{Scene};
ghost use Rattle.bpf_buffer_debug.specs.Script.{AnswersLine, RunsScript, ShowsScene};

use crate::session::Session;
use bpf_debug::Answer;
use bpf_debug::script::{count_lines, fitted};
use bpf_lines::lines::first_line;
use std::alloc::{AllocError, Global};

/// What a line is answered, in no more memory than its text needs.
pub fn answer(alloc: Global, session: &mut Session, line: &[u8]) -> Answer
    ensures { (x : Option Scene) → ShowsScene session.old x
        → (y : Option Scene) × AnswersLine x line.now (answer_of result) y
        × ShowsScene session.new y }
{
    match session.command_bytes(alloc, line) {
        Ok(text) => Ok(fitted(text)),
        Err(error) => Err(error),
    }
}

/// What the lines of a text are answered.
fn follow_lines(
    alloc: Global,
    session: &mut Session,
    script: &[u8],
) -> Result<Vec<Answer>, AllocError>
    ensures { IfOk result (λ answers. (x : Option Scene) → ShowsScene session.old x
        → (y : Option Scene) × RunsScript x (lines_of script.now) (map answer_of answers.items) y
        × ShowsScene session.new y) }
{
    let mut answers = Vec::with_capacity(alloc, count_lines(script))?;
    let mut rest = Some(script);
    'lines: while let Some(left) = rest {
        let (line, behind) = first_line(left);
        answers.push(answer(alloc, session, line))?;
        rest = behind;
    }
    Ok(answers)
}

/// What the lines of a script are answered, in their order; without a script there are none. Out of
/// memory for the list of answers is the only refusal.
pub fn run_script(
    alloc: Global,
    session: &mut Session,
    script: Option<&[u8]>,
) -> Result<Vec<Answer>, AllocError>
    ensures { IfOk result (λ answers. (x : Option Scene) → ShowsScene session.old x
        → (y : Option Scene) × RunsScript x (lines_behind (option_copied script.entry))
        (map answer_of answers.items) y × ShowsScene session.new y) }
{
    match script {
        Some(text) => follow_lines(alloc, session, text),
        None => Ok(Vec::new(alloc)),
    }
}
