//! What `go` does: rounds of turns, each with a flush after it, up to a breakpoint, to a turn or a flush
//! that changes a watched value, or until no work is left.

ghost use Rattle.std.specs.Prelude.{◌≡◌, ◌+◌, ◌≤◌, ◌<◌, ◌++◌, ◌∷◌, ◌⊎◌, IfSome, IfNone, IfOk, OnOk, List, ℕ, [], true, false, option_map, slice_index_or, string_bytes};
ghost use Rattle.bpf_machine.specs.declared.machine.Turn.{Turn};
ghost use Rattle.bpf_machine.specs.Parts.{IsSameHost};
ghost use Rattle.bpf_x86.specs.Machine.{X86};
ghost use Rattle.bpf_buffering.specs.Buffering.{TurnsTo};
ghost use Rattle.bpf_buffering.specs.Search.{ShowsX86};
ghost use Rattle.bpf_debug.specs.Answer.{changed_line, ended_text, stop_line};
ghost use Rattle.bpf_debug.specs.Course.{KeepsOn};
ghost use Rattle.bpf_debug.specs.Go.{AreIdle, HasWork, IsUp, StandsAt, has_break};
ghost use Rattle.bpf_debug.specs.Watch.{ShowsOther, ShowsWatched, kept_values, watched};
ghost use Rattle.bpf_buffer_debug.specs.Go.{Flushes, Goes, flush_changed_line};

use crate::lines::push_ended;
use bpf_buffering::{Album, Buffering};
use bpf_debug::breakpoint::{Breakpoint, has_break};
use bpf_debug::course::Course;
use bpf_debug::going::Watching;
use bpf_debug::lines::{put_changed, put_stop};
use bpf_debug::session::make_room;
use bpf_debug::watch::has_changed;
use bpf_machine::Standing;
use bpf_schedule::FLUSH;
use std::alloc::{AllocError, Global};

/// The first of some CPUs that has work: of those from a number on and below another.
fn first_at_work(machine: &Buffering, from: u8, to: u8) -> Option<u8>
    ensures found { IfSome result (λ c. (from ≤ c) × (c < to)
        × HasWork machine.now.machine.jobs c × AreIdle machine.now.machine.jobs from c) }
    ensures none { IfNone result (AreIdle machine.now.machine.jobs from to) }
{
    for cpu in from..to {
        match machine.standing(cpu) {
            Standing::InHand(..) => return Some(cpu),
            Standing::Waiting(_) => return Some(cpu),
            Standing::Idle => {}
        }
    }
    None
}

/// The CPU that is up, of those from a number on and below another: the first with work from a number
/// on, and then from the first of them on.
fn next_up(machine: &Buffering, low: u8, high: u8, from: u8) -> Option<u8>
    requires { low ≤ from }
    ensures up { IfSome result (λ c. IsUp machine.now.machine.jobs low high from c) }
    ensures few { IfSome result (λ c. c < 255) }
    ensures idle { IfNone result (AreIdle machine.now.machine.jobs low high) }
{
    match first_at_work(machine, from, high) {
        Some(cpu) => Some(cpu),
        None => first_at_work(machine, low, from.min(high)),
    }
}

/// The pc at which a CPU is, where that is a breakpoint of it.
fn stop_at(machine: &Buffering, breakpoints: &[Breakpoint], cpu: u8) -> Option<u32>
    requires { HasWork machine.now.machine.jobs cpu }
    ensures stop { IfSome result (λ p. StandsAt machine.now.machine.jobs cpu p
        × (has_break breakpoints.now cpu p ≡ true)) }
    ensures free { IfNone result ((p : ℕ) × StandsAt machine.now.machine.jobs cpu p
        × (has_break breakpoints.now cpu p ≡ false)) }
{
    let pc = match machine.standing(cpu) {
        Standing::InHand(_, state) => state.pc,
        Standing::Waiting(_) => 0,
        Standing::Idle => unreachable!(),
    };
    if has_break(breakpoints, cpu, pc) {
        Some(pc)
    } else {
        None
    }
}

/// The pc before which a CPU stops: that of a breakpoint at which it is, if it has made a turn.
fn stop_before(
    machine: &Buffering,
    breakpoints: &[Breakpoint],
    gone: &[bool; 256],
    cpu: u8,
) -> Option<u32>
    requires { HasWork machine.now.machine.jobs cpu }
    ensures stop { IfSome result (λ p. (slice_index_or gone.now cpu false ≡ true)
        × StandsAt machine.now.machine.jobs cpu p × (has_break breakpoints.now cpu p ≡ true)) }
    ensures free { IfNone result ((slice_index_or gone.now cpu false ≡ false)
        ⊎ ((p : ℕ) × StandsAt machine.now.machine.jobs cpu p
        × (has_break breakpoints.now cpu p ≡ false))) }
{
    if gone[cpu as usize] {
        stop_at(machine, breakpoints, cpu)
    } else {
        None
    }
}

/// Which CPUs make turns: those from a number on and below another; and whether a flush follows each.
#[derive(Clone, Copy)]
pub(crate) struct Cpus {
    pub low: u8,
    pub high: u8,
    pub flushes: bool,
}

/// A CPU's turn, with the line of the job that it ends.
fn take_turn(
    alloc: Global,
    album: &mut Album,
    cpu: u8,
    course: &mut Course,
    out: &mut String,
) -> Result<(), AllocError>
    ensures turns { OnOk result ((answer : Turn)
        × TurnsTo album.old.machine cpu answer album.new.machine
        × (string_bytes out.new ≡ string_bytes out.old ++ ended_text cpu answer)) }
    ensures course { OnOk result (KeepsOn course.old (cpu ∷ []) course.new) }
    ensures host { IsSameHost album.old.machine.machine album.new.machine.machine }
    ensures kept { album.new.kept ≡ album.old.kept }
{
    let turn = album.turn(cpu)?;
    push_ended(alloc, out, cpu, turn)?;
    course.add(cpu);
    Ok(())
}

/// The flush of a CPU's buffer, if it is asked for and something waits there.
fn flush(album: &mut Album, cpu: u8, flushes: bool, course: &mut Course)
    requires { cpu < 128 }
    ensures flushed { (moves : List ℕ) × KeepsOn course.old moves course.new
        × ((x : X86) → ShowsX86 album.old.machine x → (z : X86)
        × Flushes flushes x cpu moves z × ShowsX86 album.new.machine z) }
    ensures host { IsSameHost album.old.machine.machine album.new.machine.machine }
    ensures kept { album.new.kept ≡ album.old.kept }
{
    if !flushes {
        return;
    }
    if album.flush_alone(cpu) {
        course.add(FLUSH + cpu);
    }
}

/// Appends that a CPU is at a breakpoint.
fn push_stop(alloc: Global, out: &mut String, cpu: u8, pc: u32) -> Result<(), AllocError>
    ensures { OnOk result (string_bytes out.new ≡ string_bytes out.old ++ stop_line cpu pc) }
{
    let mut line = make_room(alloc, 0)?;
    put_stop(&mut line, cpu, pc);
    out.push_str(line.as_str())
}

/// Whether what is watched in memory is anything else than before.
fn differs(machine: &Buffering, watching: Watching) -> bool
    ensures changed { result ≡ true → ShowsOther machine.now.machine.store
        (option_map watched watching.entry.watch.now) (kept_values watching.entry.before.now) }
    ensures same { result ≡ false → ShowsWatched machine.now.machine.store
        (option_map watched watching.entry.watch.now) (kept_values watching.entry.before.now) }
{
    has_changed(machine.store(), watching.watch, watching.before)
}

/// Appends that a turn of a CPU changed the watched value.
fn push_changed(alloc: Global, out: &mut String, cpu: u8) -> Result<(), AllocError>
    ensures { OnOk result (string_bytes out.new ≡ string_bytes out.old ++ changed_line cpu) }
{
    let mut line = make_room(alloc, 0)?;
    put_changed(&mut line, cpu);
    out.push_str(line.as_str())
}

/// Appends that a flush of a CPU's buffer did.
fn push_flush_changed(alloc: Global, out: &mut String, cpu: u8) -> Result<(), AllocError>
    ensures { OnOk result (string_bytes out.new ≡ string_bytes out.old ++ flush_changed_line cpu) }
{
    let line = format!(in alloc; "changed by a flush of {cpu}\n")?;
    out.push_str(line.as_str())
}

/// All moves of a `go` of some CPUs, with the lines of the jobs that end and the last line.
pub(crate) fn go(
    alloc: Global,
    album: &mut Album,
    breakpoints: &[Breakpoint],
    watching: Watching,
    cpus: Cpus,
    course: &mut Course,
) -> Result<String, AllocError>
    requires few { cpus.high ≤ 128 }
    requires watched { ShowsWatched album.old.machine.machine.store
        (option_map watched watching.watch.now)
        (kept_values watching.before.now) }
    ensures goes { IfOk result (λ text. (x : X86) → ShowsX86 album.old.machine x
        → (z : X86) × (moves : List ℕ)
        × Goes breakpoints.now (option_map watched watching.entry.watch.now) cpus.flushes
        cpus.low cpus.high x cpus.low [] moves (string_bytes text) z
        × ShowsX86 album.new.machine z
        × KeepsOn course.old moves course.new) }
    ensures host { IsSameHost album.old.machine.machine album.new.machine.machine }
    ensures kept { album.new.kept ≡ album.old.kept }
{
    let Cpus { low, high, flushes } = cpus;
    let mut out = String::new(alloc);
    let mut gone = [false; 256];
    let mut from = low;
    for _ in 0..u64::MAX {
        let Some(cpu) = next_up(album.machine(), low, high, from) else {
            out.push_str("done\n")?;
            return Ok(out);
        };
        if let Some(pc) = stop_before(album.machine(), breakpoints, &gone, cpu) {
            push_stop(alloc, &mut out, cpu, pc)?;
            return Ok(out);
        }
        take_turn(alloc, album, cpu, course, &mut out)?;
        if differs(album.machine(), watching) {
            push_changed(alloc, &mut out, cpu)?;
            return Ok(out);
        }
        flush(album, cpu, flushes, course);
        if differs(album.machine(), watching) {
            push_flush_changed(alloc, &mut out, cpu)?;
            return Ok(out);
        }
        gone[cpu as usize] = true;
        from = cpu + 1;
    }
    // Each turn makes a step, and no jobs have budgets for this many.
    Err(AllocError)
}
