//! `ebpf debug`: a run file, and commands after it.

ghost use Rattle.std.specs.Prelude.{◌≡◌, ◌&&◌, IfOk, IsOkUnless, None, Some, [], is_err, map, string_bytes};
ghost use Rattle.std.specs.List.{list_any};
ghost use Rattle.std.specs.Option.{option_copied};
ghost use Rattle.bpf_lines.specs.Lines.{lines_behind};
ghost use Rattle.bpf_names.specs.Names.{names_of};
ghost use Rattle.bpf_machine.specs.Machine.{Shows};
ghost use Rattle.bpf_jobs.specs.Printed.{first_of};
ghost use Rattle.bpf_cpu.specs.Setup.{IsRunnable};
ghost use Rattle.bpf_debug.specs.Script.{answer_of};
ghost use Rattle.bpf_file.specs.File.{file_of};
ghost use Rattle.bpf_debug.specs.Session.{IsShown};
ghost use Rattle.bpf_replies.specs.Answer.{Replies};
ghost use Rattle.bpf_replies.specs.Script.{AreShown, IsDebugReply, IsCut, IsScriptOfFile, any_refused, ends_file, scene_of};

use crate::refusal::Refusal;
use crate::reply::Reply;
use bpf_cpu::Setup;
use bpf_debug::{Answer, Session, run_script};
use bpf_explore::first_machine;
use bpf_file::{RunFile, read_file};
use bpf_jobs::has_any_stopped;
use bpf_lines::lines::{fields, first_line};
use bpf_names::Names;
use std::alloc::{AllocError, Global};

/// An input that is cut in two.
#[derive(Clone, Copy)]
pub(crate) struct Parts<'a> {
    pub file: &'a [u8],
    /// What is after the line that ends the file, if it has one and more lines follow.
    pub commands: Option<&'a [u8]>,
}

/// Whether a line ends the run file: its only word is `---`.
pub fn ends_file(alloc: Global, line: &[u8]) -> Result<bool, AllocError>
    ensures { IfOk result (λ b. b ≡ ends_file line.now) }
{
    let words = fields(alloc, line)?;
    match words.as_slice() {
        [word] => Ok(*word == "---".as_bytes()),
        _ => Ok(false),
    }
}

/// The run file and the commands of an input. Out of memory is the only refusal.
#[tactic(auto, using(crate::proofs::Cutting::seen_start, crate::proofs::Cutting::seen_cut, crate::proofs::Cutting::seen_none))]
pub(crate) fn cut<'a>(alloc: Global, input: &'a [u8]) -> Result<Parts<'a>, AllocError>
    ensures { IfOk result
        (λ p. IsCut input.now p.file.now (lines_behind (option_copied p.commands))) }
{
    let mut size: usize = 0;
    let mut rest = Some(input);
    'lines: while let Some(left) = rest {
        let (line, behind) = first_line(left);
        if ends_file(alloc, line)? {
            return Ok(Parts {
                file: &input[..size],
                commands: behind,
            });
        }
        size += line.len() + 1;
        rest = behind;
    }
    Ok(Parts {
        file: input,
        commands: None,
    })
}

/// What `debug` replies to an input.
pub fn debug_file(alloc: Global, echo: bool, strict: bool, input: &str) -> Result<Reply, Refusal>
    ensures { Replies (IsScriptOfFile echo strict input.now) result }
{
    let parts = cut(alloc, input.as_bytes())?;
    let file = read_file(alloc, parts.file)?;
    let reply = debug(alloc, echo, strict, file, parts.commands)?;
    Ok(reply)
}

/// A session over a new store, whose maps and arrays have these names, and jobs that all wait.
/// Out of memory is the only refusal.
fn make_session(alloc: Global, setup: Setup, names: Names) -> Result<Session, AllocError>
    requires { IsRunnable setup }
    ensures machine { IfOk result (λ s. Shows s.machine (first_of setup)) }
    ensures first { IfOk result (λ s. s.first ≡ s.machine) }
    ensures names { IfOk result (λ s. s.names ≡ names_of names) }
    ensures breaks { IfOk result (λ s. s.breaks ≡ []) }
    ensures watch { IfOk result (λ s. s.watch ≡ None) }
    ensures course { IfOk result (λ s. s.course ≡ Some []) }
{
    let (shape, machine) = first_machine(alloc, setup)?;
    let session = Session::new(alloc, shape, machine, names)?;
    Ok(session)
}

/// The session over the machine of a run file, at its beginning. Out of memory is the only refusal.
pub fn open_session(alloc: Global, file: RunFile) -> Result<Session, AllocError>
    requires { IsRunnable file.setup }
    ensures { IfOk result (λ s. IsShown s (scene_of (file_of file))) }
{
    let RunFile { setup, names, .. } = file;
    let session = make_session(alloc, setup, names)?;
    Ok(session)
}

/// Whether a command is refused.
fn is_any_refused(answers: &[Answer]) -> bool
    ensures { result ≡ list_any is_err answers.now }
{
    answers.iter().any(|answer| answer.is_err())
}

/// Whether a command is refused, where that is asked for.
#[tactic(auto, using(crate::proofs::ScriptReplies::refused_alike))]
pub(crate) fn is_refused(strict: bool, answers: &[Answer]) -> bool
    ensures { result ≡ (strict && any_refused (map answer_of answers.now)) }
{
    strict && is_any_refused(answers)
}

/// The lines of commands, where they are to be printed.
pub(crate) fn shown_lines(
    alloc: Global,
    echo: bool,
    commands: Option<&[u8]>,
) -> Result<Option<Vec<u8>>, AllocError>
    ensures { IfOk result (AreShown echo (lines_behind (option_copied commands.entry))) }
{
    match commands {
        Some(text) if echo => Ok(Some(Vec::from_slice(alloc, text)?)),
        _ => Ok(None),
    }
}

/// What commands are answered over the machine of a run file.
fn debug(
    alloc: Global,
    echo: bool,
    strict: bool,
    file: RunFile,
    commands: Option<&[u8]>,
) -> Result<Reply, AllocError>
    requires { IsRunnable file.setup }
    ensures { IfOk result
        (IsDebugReply echo strict file (lines_behind (option_copied commands.entry))) }
{
    let RunFile { setup, names, .. } = file;
    let mut session = make_session(alloc, setup, names)?;
    let lines = shown_lines(alloc, echo, commands)?;
    let answers = run_script(alloc, &mut session, commands)?;
    let refused = is_refused(strict, &answers);
    Ok(Reply::Script {
        answers,
        lines,
        stopped: has_any_stopped(session.machine()),
        refused,
    })
}
