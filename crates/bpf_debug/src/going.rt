//! What `go` does: rounds of turns, up to a breakpoint, to a turn that changes a watched value, or
//! until no work is left.

ghost use Rattle.std.specs.Prelude.{◌≡◌, ◌+◌, ◌*◌, ◌≤◌, ◌<◌, ◌++◌, ◌⊎◌, IfSome, IfNone, List, ℕ, [], true, false, length, option_map, slice_index_or, string_bytes, string_capacity, string_len};
ghost use Rattle.bpf_machine.specs.Schedule.{World};
ghost use Rattle.bpf_machine.specs.Machine.{Shows};
ghost use Rattle.bpf_machine.specs.Parts.{IsSameHost};
ghost use Rattle.bpf_machine.specs.Questions.{open_jobs};
ghost use Rattle.bpf_debug.specs.Course.{KeepsOn};
ghost use Rattle.bpf_debug.specs.Go.{Goes, HasWork, AreIdle, IsUp, StandsAt, has_break};
ghost use Rattle.bpf_debug.specs.Watch.{ShowsWatched, kept_values, watched};

use crate::breakpoint::{Breakpoint, has_break};
use crate::course::Course;
use crate::lines::{put_changed, put_ended, put_stop};
use crate::text::put;
use crate::watch::{Watch, has_changed};
use bpf_machine::{Machine, Standing};

/// The first of some CPUs that has work: of those from a number on and below another.
fn first_at_work(machine: &Machine, from: u8, to: u8) -> Option<u8>
    ensures found { IfSome result (λ c. (from ≤ c) × (c < to) × HasWork machine.now.jobs c
        × AreIdle machine.now.jobs from c) }
    ensures none { IfNone result (AreIdle machine.now.jobs from to) }
{
    for cpu in from..to {
        match machine.standing(cpu) {
            Standing::InHand(..) => return Some(cpu),
            Standing::Waiting(_) => return Some(cpu),
            Standing::Idle => {}
        }
    }
    None
}

/// The CPU that is up, of those from a number on and below another: the first with work from a
/// number on, and then from the first of them on.
pub fn next_up(machine: &Machine, low: u8, high: u8, from: u8) -> Option<u8>
    requires { low ≤ from }
    ensures up { IfSome result (λ c. IsUp machine.now.jobs low high from c) }
    ensures few { IfSome result (λ c. c < 255) }
    ensures idle { IfNone result (AreIdle machine.now.jobs low high) }
{
    match first_at_work(machine, from, high) {
        Some(cpu) => Some(cpu),
        None => first_at_work(machine, low, from.min(high)),
    }
}

/// The pc at which a CPU is, where that is a breakpoint of it.
fn stop_at(machine: &Machine, breakpoints: &[Breakpoint], cpu: u8) -> Option<u32>
    requires { HasWork machine.now.jobs cpu }
    ensures stop { IfSome result (λ p. StandsAt machine.now.jobs cpu p
        × (has_break breakpoints.now cpu p ≡ true)) }
    ensures free { IfNone result ((p : ℕ) × StandsAt machine.now.jobs cpu p
        × (has_break breakpoints.now cpu p ≡ false)) }
{
    let pc = match machine.standing(cpu) {
        Standing::InHand(_, state) => state.pc,
        Standing::Waiting(_) => 0,
        Standing::Idle => unreachable!(),
    };
    if has_break(breakpoints, cpu, pc) {
        Some(pc)
    } else {
        None
    }
}

/// The pc before which a CPU stops: that of a breakpoint at which it is, if it has made a turn.
fn stop_before(
    machine: &Machine,
    breakpoints: &[Breakpoint],
    gone: &[bool; 256],
    cpu: u8,
) -> Option<u32>
    requires { HasWork machine.now.jobs cpu }
    ensures stop { IfSome result (λ p. (slice_index_or gone.now cpu false ≡ true)
        × StandsAt machine.now.jobs cpu p × (has_break breakpoints.now cpu p ≡ true)) }
    ensures free { IfNone result ((slice_index_or gone.now cpu false ≡ false)
        ⊎ ((p : ℕ) × StandsAt machine.now.jobs cpu p × (has_break breakpoints.now cpu p ≡ false))) }
{
    if gone[cpu as usize] {
        stop_at(machine, breakpoints, cpu)
    } else {
        None
    }
}

/// Which CPUs make turns: those from a number on and below another.
#[derive(Clone, Copy)]
pub struct Cpus {
    pub low: u8,
    pub high: u8,
}

/// What is watched, and its values before the first turn.
#[derive(Clone, Copy)]
pub struct Watching<'a> {
    pub watch: &'a Option<Watch>,
    pub before: &'a [Option<Vec<u8>>],
}

/// All turns of a `go` of some CPUs, with the lines of the jobs that end and the last line.
pub fn go(
    machine: &mut Machine,
    breakpoints: &[Breakpoint],
    watching: Watching,
    cpus: Cpus,
    course: &mut Course,
    out: &mut String,
)
    requires shown { (w : World) × Shows machine.old w }
    requires room { string_len out.old + 128 * open_jobs machine.old.jobs + 128
        ≤ string_capacity out.old }
    requires watched { ShowsWatched machine.old.store
        (option_map watched watching.watch.now)
        (kept_values watching.before.now) }
    ensures goes { (w : World) → Shows machine.old w → (z : World) × (turns : List ℕ)
        × (text : List ℕ)
        × Goes breakpoints.now (option_map watched watching.entry.watch.now) cpus.low cpus.high w
        cpus.low [] turns text z
        × Shows machine.new z
        × KeepsOn course.old turns course.new
        × (string_bytes out.new ≡ string_bytes out.old ++ text) }
    ensures same { IsSameHost machine.old machine.new }
{
    bpf_machine::laws::turns_fall();
    let Watching { watch, before } = watching;
    let Cpus { low, high } = cpus;
    let mut gone = [false; 256];
    let mut from = low;
    while let Some(cpu) = next_up(machine, low, high, from) {
        if let Some(pc) = stop_before(machine, breakpoints, &gone, cpu) {
            put_stop(out, cpu, pc);
            return;
        }
        let turn = machine.turn(cpu);
        put_ended(out, cpu, turn);
        course.add(cpu);
        if has_changed(machine.store(), watch, before) {
            put_changed(out, cpu);
            return;
        }
        gone[cpu as usize] = true;
        from = cpu + 1;
    }
    put(out, "done\n");
}
