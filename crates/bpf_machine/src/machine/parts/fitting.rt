//! Whether a store, programs and kept jobs fit each other, as those of each machine do.

ghost use Rattle.std.specs.Prelude.{◌≡◌, ◌<◌, ◌↔◌, ℕ, true, false, All, IsTrue, Some, length, slice_get};
ghost use Rattle.bpf_plain.specs.PlainStore.{is_running, held_spans};
ghost use Rattle.bpf_loader.specs.Loaded.{Loaded};
ghost use Rattle.bpf_helpers.specs.Held.{AreHeld};
ghost use Rattle.bpf_cpu.specs.Step.{IsReady};
ghost use Rattle.bpf_machine.specs.Parts.{CanStand, chosen_at, made_of};
ghost use Rattle.bpf_machine.specs.Private.Parts.{in_hand};
ghost use Rattle.bpf_machine.specs.Private.Standing.{FitsState, FitsAlone, Follows};

use super::compact::CompactStage;
use super::{KeptJob, find_hand};
use bpf_cpu::KeptCpu;
use bpf_loader::Program;
use bpf_mem::context::MAX_CONTEXT;
use bpf_mem::packet::MAX_PACKET;
use bpf_plain::PlainStore;
use bpf_shared::Span;

/// A CPU's run holds each of these at the store.
fn are_held(store: &PlainStore, cpu: u8, spans: &[Span]) -> bool
    ensures { IsTrue result ↔ AreHeld (held_spans store.now cpu) spans.now }
{
    for span in spans {
        if !store.holds(cpu, *span) {
            return false;
        }
    }
    true
}

/// The program of this number, if there is one, may be stepped from a state.
fn is_ready(programs: &[Program], number: usize, state: &KeptCpu) -> bool
    ensures { IsTrue result ↔ ((program : Loaded) → slice_get programs.now number ≡ Some program
        → IsReady program state.now) }
{
    match programs.get(number) {
        Some(program) => state.is_ready(program),
        None => true,
    }
}

/// A job's CPU goes on with it from this state.
fn fits_state(store: &PlainStore, programs: &[Program], part: &KeptJob, state: &KeptCpu) -> bool
    ensures { IsTrue result ↔ FitsState store.now programs.now part.now state.now }
{
    state.number() == part.cpu
        && is_ready(programs, part.program, state)
        && store.is_running(part.cpu)
        && are_held(store, part.cpu, state.held().spans())
}

/// A store and programs have what a job wants.
fn fits_alone(store: &PlainStore, programs: &[Program], part: &KeptJob) -> bool
    ensures { IsTrue result ↔ FitsAlone store.now programs.now part.now }
{
    if part.cpu >= store.cpus() || part.program >= programs.len() {
        return false;
    }
    match &part.stage {
        CompactStage::Waiting(input) => {
            input.context.bytes().len() <= MAX_CONTEXT && input.packet.bytes().len() <= MAX_PACKET
        }
        CompactStage::InHand(state, _) => fits_state(store, programs, part, state),
        CompactStage::Ended(_) => true,
    }
}

/// A CPU may have both jobs, in this order.
fn follows(first: &KeptJob, later: &KeptJob) -> bool
    ensures { IsTrue result ↔ Follows first.now later.now }
{
    first.cpu != later.cpu
        || !(first.is_in_hand() && later.is_in_hand())
            && (!first.is_waiting() || later.is_waiting())
}

/// A store and programs have what each of the jobs with these numbers wants.
fn all_fit(store: &PlainStore, programs: &[Program], parts: &[KeptJob], numbers: &[u32]) -> bool
    requires { All (λ n. n < length parts.now) numbers.now }
    ensures { IsTrue result ↔ ((k : ℕ) → k < length numbers.now
        → FitsAlone store.now programs.now (chosen_at parts.now numbers.now k)) }
{
    for job in 0..numbers.len() {
        let part = &parts[numbers[job] as usize];
        if !fits_alone(store, programs, part) {
            return false;
        }
    }
    true
}

/// Its CPU may have each job after one of these besides.
fn all_follow(parts: &[KeptJob], numbers: &[u32], first: usize) -> bool
    requires within { All (λ n. n < length parts.now) numbers.now }
    requires first { first < length numbers.now }
    ensures { IsTrue result ↔ ((k : ℕ) → first < k → k < length numbers.now
        → Follows (chosen_at parts.now numbers.now first) (chosen_at parts.now numbers.now k)) }
{
    let part = &parts[numbers[first] as usize];
    for job in first + 1..numbers.len() {
        let later = &parts[numbers[job] as usize];
        if !follows(part, later) {
            return false;
        }
    }
    true
}

/// Each CPU may have all of its jobs, in their order.
fn are_in_order(parts: &[KeptJob], numbers: &[u32]) -> bool
    requires { All (λ n. n < length parts.now) numbers.now }
    ensures { IsTrue result ↔ ((j k : ℕ) → j < k → k < length numbers.now
        → Follows (chosen_at parts.now numbers.now j) (chosen_at parts.now numbers.now k)) }
{
    for first in 0..numbers.len() {
        if !all_follow(parts, numbers, first) {
            return false;
        }
    }
    true
}

/// No CPU is in a run that has no job in hand.
fn none_runs_idly(store: &PlainStore, parts: &[KeptJob], numbers: &[u32]) -> bool
    requires { All (λ n. n < length parts.now) numbers.now }
    ensures { IsTrue result ↔ ((c : ℕ) → ((k : ℕ) → k < length numbers.now
        → (chosen_at parts.now numbers.now k).cpu ≡ c
        → in_hand (chosen_at parts.now numbers.now k).stage ≡ false)
        → is_running store.now c ≡ false) }
{
    store.runs_are_served();
    for cpu in 0..store.cpus() {
        if store.is_running(cpu) && find_hand(parts, numbers, cpu).is_none() {
            return false;
        }
    }
    true
}

/// A machine can be made of a store, programs and the jobs with these numbers: they fit each other.
pub fn can_stand(
    store: &PlainStore,
    programs: &[Program],
    parts: &[KeptJob],
    numbers: &[u32],
) -> bool
    requires { All (λ n. n < length parts.now) numbers.now }
    ensures { IsTrue result ↔ CanStand (made_of store.now programs.now parts.now numbers.now) }
{
    all_fit(store, programs, parts, numbers)
        && are_in_order(parts, numbers)
        && none_runs_idly(store, parts, numbers)
}
