//! Jobs from their beginning to what is printed of them.

ghost use Rattle.std.specs.Prelude.{◌≡◌, IfOk, string_bytes};
ghost use Rattle.bpf_names.specs.Names.{names_of};
ghost use Rattle.bpf_cpu.specs.Setup.{IsRunnable};
ghost use Rattle.bpf_x86.specs.Machine.{X86};
ghost use Rattle.bpf_buffering.specs.Search.{ShowsX86};
ghost use Rattle.bpf_jobs.specs.Printed.{first_of, Tells};
ghost use Rattle.bpf_flushes.specs.Printed.{IsReportWithBuffers};

use crate::listing::{has_any_stopped, list_jobs};
use crate::making::make_buffering;
use crate::moves::moves_by;
use crate::rounds::run_rounds;
use bpf_buffering::Buffering;
use bpf_cpu::Setup;
use bpf_jobs::{Report, asked_lines};
use bpf_names::Names;
use std::alloc::{AllocError, Global};

/// What is printed of a machine whose jobs have ended.
pub fn tell(
    alloc: Global,
    machine: &Buffering,
    names: &Names,
    maps: bool,
) -> Result<Report, AllocError>
    ensures { IfOk result (λ r. (x : X86) → ShowsX86 machine.now x
        → Tells x.world.store x.world.jobs (names_of names.now) maps (string_bytes r.text)
        r.stopped) }
{
    let mut text = list_jobs(alloc, machine)?;
    let lines = asked_lines(alloc, machine.store(), names, maps)?;
    text.push_str(lines.as_str())?;
    let stopped = has_any_stopped(machine);
    Ok(Report { text, stopped })
}

/// Runs jobs on CPUs with store buffers, over a new store whose maps, arrays and variables have these
/// names: first the moves of a schedule, each with how often it is made, then rounds until each job
/// has ended. The only refusal is out of memory.
pub fn run_with_buffers(
    alloc: Global,
    setup: Setup,
    names: &Names,
    moves: &[(u8, u64)],
    maps: bool,
) -> Result<Report, AllocError>
    requires { IsRunnable setup }
    ensures { IfOk result (λ r. IsReportWithBuffers (first_of setup) moves.now
        (names_of names.now) maps (string_bytes r.text) r.stopped) }
{
    let mut machine = make_buffering(alloc, setup)?;
    moves_by(&mut machine, moves)?;
    run_rounds(&mut machine)?;
    let report = tell(alloc, &machine, names, maps)?;
    Ok(report)
}
