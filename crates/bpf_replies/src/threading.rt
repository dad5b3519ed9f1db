//! In which ways worker threads may reach more outcomes of a run file's jobs than turns.

ghost use Rattle.std.specs.Prelude.{IfErr, IfOk};
ghost use Rattle.bpf_file.specs.File.{file_of};
ghost use Rattle.bpf_replies.specs.Running.{RefusesFile};
ghost use Rattle.bpf_replies.specs.Threading.{AreThreadsOf, AreThreadsOfFile};

use crate::refusal::Refusal;
use crate::running::file_in;
use bpf_file::RunFile;
use bpf_threads::{Threads, may_differ};
use std::alloc::{AllocError, Global};

/// Those of a file's jobs.
fn threads_of(alloc: Global, file: &RunFile) -> Result<Threads, AllocError>
    ensures { IfOk result (AreThreadsOfFile (file_of file.now)) }
{
    may_differ(
        alloc,
        &file.setup.shape,
        &file.setup.pairs,
        &file.setup.programs,
        &file.setup.jobs,
    )
}

/// Those of the jobs that a text says.
pub(crate) fn threads_in(alloc: Global, text: &str) -> Result<Threads, Refusal>
    ensures found { IfOk result (AreThreadsOf text.now) }
    ensures refused { IfErr result (RefusesFile text.now) }
{
    let file = file_in(alloc, text)?;
    let threads = threads_of(alloc, &file)?;
    Ok(threads)
}
