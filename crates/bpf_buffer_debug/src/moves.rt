//! Moves, one after the other: turns of CPUs, and flushes of their buffers.

ghost use Rattle.std.specs.Prelude.{◌≡◌, ◌<◌, ◌++◌, [], ◌∷◌, ℕ, List, IfOk, OnOk, length, replicate, string_bytes};
ghost use Rattle.bpf_machine.specs.Parts.{IsSameHost};
ghost use Rattle.bpf_x86.specs.Machine.{X86};
ghost use Rattle.bpf_buffering.specs.Search.{ShowsX86, move_of};
ghost use Rattle.bpf_debug.specs.Answer.{IsWhere};
ghost use Rattle.bpf_buffer_debug.specs.Moves.{TellsMoves, TellsTo, all_moves, cpu_of, last_cpu};

use crate::lines::{push_ended, where_line};
use bpf_buffering::Album;
use bpf_schedule::FLUSH;
use std::alloc::{AllocError, Global};

/// The CPU of a move.
pub(crate) fn cpu_of(made: u8) -> u8
    ensures { result ≡ cpu_of made }
{
    if made < FLUSH { made } else { made - FLUSH }
}

/// One move, with the line of the job that it ends. A flush where nothing waits changes nothing.
fn make_move(alloc: Global, album: &mut Album, made: u8, out: &mut String) -> Result<(), AllocError>
    ensures told { OnOk result (TellsTo album.old.machine (move_of made ∷ [])
        (string_bytes out.old) album.new.machine (string_bytes out.new)) }
    ensures host { IsSameHost album.old.machine.machine album.new.machine.machine }
    ensures kept { album.new.kept ≡ album.old.kept }
{
    if made < FLUSH {
        let turn = album.turn(made)?;
        push_ended(alloc, out, made, turn)
    } else {
        album.flush_alone(made - FLUSH);
        Ok(())
    }
}

/// This many moves of one kind, with the lines of the jobs that end.
fn make_same(
    alloc: Global,
    album: &mut Album,
    made: u8,
    count: u64,
    out: &mut String,
) -> Result<(), AllocError>
    ensures told { OnOk result (TellsTo album.old.machine (replicate count (move_of made))
        (string_bytes out.old) album.new.machine (string_bytes out.new)) }
    ensures host { IsSameHost album.old.machine.machine album.new.machine.machine }
    ensures kept { album.new.kept ≡ album.old.kept }
{
    for _ in 0..count {
        make_move(alloc, album, made, out)?;
    }
    Ok(())
}

/// The moves of a schedule, with the lines of the jobs that end.
pub(crate) fn make_runs(
    alloc: Global,
    album: &mut Album,
    runs: &[(u8, u64)],
    out: &mut String,
) -> Result<(), AllocError>
    ensures told { OnOk result (TellsTo album.old.machine (all_moves runs.now)
        (string_bytes out.old) album.new.machine (string_bytes out.new)) }
    ensures host { IsSameHost album.old.machine.machine album.new.machine.machine }
    ensures kept { album.new.kept ≡ album.old.kept }
{
    for run in runs {
        make_same(alloc, album, run.0, run.1, out)?;
    }
    Ok(())
}

/// The CPU of a schedule's last move.
fn last_cpu(runs: &[(u8, u64)]) -> u8
    requires { 0 < length runs.now }
    ensures { result ≡ last_cpu runs.now }
{
    cpu_of(runs[runs.len() - 1].0)
}

/// The moves of a schedule, with the lines of the jobs that end and that of where the CPU of its last
/// move is then.
pub(crate) fn take_runs(
    alloc: Global,
    album: &mut Album,
    runs: &[(u8, u64)],
) -> Result<String, AllocError>
    requires { 0 < length runs.now }
    ensures told { IfOk result (λ text. (place : List ℕ)
        × IsWhere album.new.machine.machine.jobs (last_cpu runs.now) place
        × ((x : X86) → ShowsX86 album.old.machine x → (z : X86) × (before : List ℕ)
        × TellsMoves x (all_moves runs.now) before z × ShowsX86 album.new.machine z
        × (string_bytes text ≡ before ++ place))) }
    ensures host { IsSameHost album.old.machine.machine album.new.machine.machine }
    ensures kept { album.new.kept ≡ album.old.kept }
{
    let mut out = String::new(alloc);
    make_runs(alloc, album, runs, &mut out)?;
    let place = where_line(alloc, album.machine(), last_cpu(runs))?;
    out.push_str(place.as_str())?;
    Ok(out)
}
