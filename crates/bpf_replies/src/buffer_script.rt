//! `ebpf debug --x86`: a run file, and commands after it, on CPUs with store buffers.

ghost use Rattle.std.specs.Prelude.{◌≡◌, IfOk, None, Some, [], false};
ghost use Rattle.std.specs.Option.{option_copied};
ghost use Rattle.bpf_lines.specs.Lines.{lines_behind};
ghost use Rattle.bpf_names.specs.Names.{names_of};
ghost use Rattle.bpf_cpu.specs.Setup.{IsRunnable};
ghost use Rattle.bpf_x86.specs.Machine.{drained};
ghost use Rattle.bpf_buffering.specs.Search.{ShowsX86};
ghost use Rattle.bpf_jobs.specs.Printed.{first_of};
ghost use Rattle.bpf_debug.specs.Origin.{IsOfShape};
ghost use Rattle.bpf_buffer_debug.specs.Session.{IsShown};
ghost use Rattle.bpf_file.specs.File.{file_of};
ghost use Rattle.bpf_replies.specs.Answer.{Replies};
ghost use Rattle.bpf_replies.specs.BufferScript.{IsBufferDebugReply, IsBufferScriptOfFile, buffer_scene_of};

use crate::refusal::Refusal;
use crate::reply::Reply;
use crate::script::{cut, is_refused, shown_lines};
use bpf_buffer_debug::{Session, has_any_stopped, run_script};
use bpf_cpu::Setup;
use bpf_file::{RunFile, read_file};
use bpf_flushes::make_buffering;
use bpf_names::Names;
use bpf_plain::{PlainStore, copy_shape};
use bpf_shared::StoreShape;
use std::alloc::{AllocError, Global};

/// A new store of this shape.
fn new_store(alloc: Global, shape: &StoreShape) -> Result<PlainStore, AllocError>
    ensures { IfOk result (IsOfShape shape.now) }
{
    let copy = copy_shape(alloc, shape)?;
    PlainStore::new(alloc, copy).map_err(|_| AllocError)
}

/// A session over a new store, whose maps and arrays have these names, and jobs that all wait. Out of
/// memory is the only refusal.
fn make_session(alloc: Global, setup: Setup, names: Names) -> Result<Session, AllocError>
    requires { IsRunnable setup }
    ensures machine { IfOk result (λ s. ShowsX86 s.machine (drained (first_of setup))) }
    ensures first { IfOk result (λ s. s.first ≡ s.machine) }
    ensures names { IfOk result (λ s. s.names ≡ names_of names) }
    ensures breaks { IfOk result (λ s. s.breaks ≡ []) }
    ensures watch { IfOk result (λ s. s.watch ≡ None) }
    ensures course { IfOk result (λ s. s.course ≡ Some []) }
    ensures kept { IfOk result (λ s. s.lost ≡ false) }
{
    let seen = new_store(alloc, &setup.shape)?;
    let machine = make_buffering(alloc, setup)?;
    let session = Session::new(alloc, seen, machine, names)?;
    Ok(session)
}

/// The session over the machine of a run file, at its beginning. Out of memory is the only refusal.
pub fn open_buffer_session(alloc: Global, file: RunFile) -> Result<Session, AllocError>
    requires { IsRunnable file.setup }
    ensures { IfOk result (λ s. IsShown s (buffer_scene_of (file_of file))) }
{
    let RunFile { setup, names, .. } = file;
    let session = make_session(alloc, setup, names)?;
    Ok(session)
}

/// What commands are answered over the machine of a run file.
fn debug(
    alloc: Global,
    echo: bool,
    strict: bool,
    file: RunFile,
    commands: Option<&[u8]>,
) -> Result<Reply, AllocError>
    requires { IsRunnable file.setup }
    ensures { IfOk result
        (IsBufferDebugReply echo strict file (lines_behind (option_copied commands.entry))) }
{
    let mut session = open_buffer_session(alloc, file)?;
    let lines = shown_lines(alloc, echo, commands)?;
    let answers = run_script(alloc, &mut session, commands)?;
    let refused = is_refused(strict, &answers);
    Ok(Reply::Script {
        answers,
        lines,
        stopped: has_any_stopped(session.machine()),
        refused,
    })
}

/// What `debug --x86` replies to an input.
pub fn debug_file_with_buffers(
    alloc: Global,
    echo: bool,
    strict: bool,
    input: &str,
) -> Result<Reply, Refusal>
    ensures { Replies (IsBufferScriptOfFile echo strict input.now) result }
{
    let parts = cut(alloc, input.as_bytes())?;
    let file = read_file(alloc, parts.file)?;
    let reply = debug(alloc, echo, strict, file, parts.commands)?;
    Ok(reply)
}
