//! Moves that are made and printed.

ghost use Rattle.std.specs.Prelude.{◌≡◌, ◌++◌, [], ◌∷◌, ℕ, false, IfOk, OnOk, map, replicate, string_bytes};
ghost use Rattle.bpf_machine.specs.Happenings.{end_events, happening};
ghost use Rattle.bpf_machine.specs.Schedule.{unrolled};
ghost use Rattle.bpf_x86.specs.Machine.{TurnOf, FlushOf};
ghost use Rattle.bpf_buffering.specs.Search.{buffer_at, move_of};
ghost use Rattle.bpf_buffering.specs.Waiting as buffers;
ghost use Rattle.bpf_flushes.specs.Moves.{round_below};
ghost use Rattle.bpf_events.specs.Watched.{event_of};
ghost use Rattle.bpf_buffer_events.specs.Happenings.{items};
ghost use Rattle.bpf_buffer_events.specs.Printed.{item_lines};
ghost use Rattle.bpf_buffer_events.specs.Private.Told.{ArePrinted, By, LastRounds, OneRound};
ghost use Rattle.bpf_buffer_events.specs.Private.Watched.{AreWatched, noted};

use crate::lines::{push_call, push_calls, push_flush};
use crate::watching::{Watcher, watch};
use bpf_buffering::{Buffering, Stored};
use bpf_events::{Note, Place};
use bpf_flushes::have_ended;
use bpf_machine::Turn;
use bpf_schedule::FLUSH;
use std::alloc::{AllocError, Global};

/// A machine, what notes its turns, and what was printed of them.
#[derive(Drop)]
pub(crate) struct Scene {
    pub machine: Buffering,
    pub watcher: Watcher,
    pub text: String,
}

/// A turn of a CPU, as its lines show it.
#[derive(Clone, Copy)]
struct Shown<'a> {
    cpu: u8,
    /// The CPU's job and the pc before the turn, if it had work.
    at: Option<(usize, u32)>,
    /// The calls that were noted of it.
    notes: &'a [Note],
    answer: Turn,
}

/// Appends the line of a run's end to the text, where a turn leads to that, and before it those of
/// what it drains.
fn push_end(
    alloc: Global,
    text: &mut String,
    names: &[String],
    place: Place,
    waiting: &mut Vec<Stored>,
    answer: Turn,
) -> Result<(), AllocError>
    ensures { OnOk result (string_bytes text.new ≡ string_bytes text.old
        ++ item_lines (map string_bytes names.now)
        (items place.cpu (happening place.cpu place.job place.pc)
        (map buffers.event_of waiting.old.items) (end_events answer))) }
{
    match answer {
        Turn::Ended(_, _) => {
            push_call(alloc, text, names, place, waiting, &Note::End)?;
            Ok(())
        }
        Turn::Ran | Turn::Idle => Ok(()),
    }
}

/// Appends the lines of a CPU's turn to the text, before which these stores wait. It may have no work.
fn push_turn(
    alloc: Global,
    text: &mut String,
    names: &[String],
    waiting: &mut Vec<Stored>,
    turn: Shown,
) -> Result<(), AllocError>
    ensures { OnOk result (string_bytes text.new ≡ string_bytes text.old
        ++ item_lines (map string_bytes names.now)
        (noted turn.entry.cpu turn.entry.at (map buffers.event_of waiting.old.items)
        (map event_of turn.entry.notes.now) turn.entry.answer)) }
{
    let Shown {
        cpu,
        at,
        notes,
        answer,
    } = turn;
    let Some((job, pc)) = at else {
        return Ok(());
    };
    let place = Place { cpu, job, pc };
    push_calls(alloc, text, names, place, waiting, notes)?;
    push_end(alloc, text, names, place, waiting, answer)?;
    Ok(())
}

/// A copy of the stores of a CPU that wait.
fn copy_buffer(alloc: Global, machine: &Buffering, cpu: u8) -> Result<Vec<Stored>, AllocError>
    ensures { IfOk result (λ copy. map buffers.event_of copy.items
        ≡ buffer_at machine.now.buffers cpu) }
{
    let buffer = machine.buffer(cpu);
    let mut copy = Vec::with_capacity(alloc, buffer.len())?;
    copy.extend_from_slice(buffer)?;
    Ok(copy)
}

/// Makes one turn of a CPU, and prints what happens in it. Whether it had work.
fn take_turn(
    alloc: Global,
    scene: &mut Scene,
    names: &[String],
    cpu: u8,
) -> Result<bool, AllocError>
    requires { AreWatched scene.old.machine scene.old.watcher }
    ensures told { OnOk result (ArePrinted (By (TurnOf cpu ∷ [])) (map string_bytes names.now)
        scene.old scene.new) }
    ensures idle { IfOk result (λ worked. worked ≡ false → (n : ℕ)
        → ArePrinted (By (replicate n (TurnOf cpu))) (map string_bytes names.now)
        scene.old scene.new) }
    ensures shape { OnOk result (AreWatched scene.new.machine scene.new.watcher) }
{
    let at = watch(alloc, &scene.machine, &mut scene.watcher, cpu)?;
    let mut waiting = copy_buffer(alloc, &scene.machine, cpu)?;
    let answer = scene.machine.turn(cpu)?;
    let turn = Shown {
        cpu,
        at,
        notes: scene.watcher.recorder.notes(),
        answer,
    };
    push_turn(alloc, &mut scene.text, names, &mut waiting, turn)?;
    Ok(is_work(answer))
}

/// Whether a turn that came to this had work.
fn is_work(answer: Turn) -> bool
    ensures { result ≡ false → answer ≡ Turn.Idle }
{
    match answer {
        Turn::Idle => false,
        Turn::Ran | Turn::Ended(_, _) => true,
    }
}

/// The flush of a CPU's buffer, which changes nothing where nothing waits, and its line. Whether
/// something waited.
fn flush(alloc: Global, scene: &mut Scene, names: &[String], cpu: u8) -> Result<bool, AllocError>
    requires { AreWatched scene.old.machine scene.old.watcher }
    ensures told { OnOk result (ArePrinted (By (FlushOf cpu ∷ [])) (map string_bytes names.now)
        scene.old scene.new) }
    ensures idle { IfOk result (λ flushed. flushed ≡ false → (n : ℕ)
        → ArePrinted (By (replicate n (FlushOf cpu))) (map string_bytes names.now)
        scene.old scene.new) }
    ensures shape { OnOk result (AreWatched scene.new.machine scene.new.watcher) }
{
    let buffer = scene.machine.buffer(cpu);
    if buffer.is_empty() {
        return Ok(false);
    }
    let oldest = buffer[0];
    push_flush(alloc, &mut scene.text, names, cpu, oldest)?;
    scene.machine.flush(cpu);
    Ok(true)
}

/// A move. Whether another like it may change anything.
fn make_move(
    alloc: Global,
    scene: &mut Scene,
    names: &[String],
    made: u8,
) -> Result<bool, AllocError>
    requires { AreWatched scene.old.machine scene.old.watcher }
    ensures told { OnOk result (ArePrinted (By (move_of made ∷ [])) (map string_bytes names.now)
        scene.old scene.new) }
    ensures idle { IfOk result (λ changes. changes ≡ false → (n : ℕ)
        → ArePrinted (By (replicate n (move_of made))) (map string_bytes names.now)
        scene.old scene.new) }
    ensures shape { OnOk result (AreWatched scene.new.machine scene.new.watcher) }
{
    if made < FLUSH {
        take_turn(alloc, scene, names, made)
    } else {
        flush(alloc, scene, names, made - FLUSH)
    }
}

/// This many moves of one kind. Those after one that changes nothing change nothing, and aren't made.
fn repeat(
    alloc: Global,
    scene: &mut Scene,
    names: &[String],
    made: u8,
    count: u64,
) -> Result<(), AllocError>
    requires { AreWatched scene.old.machine scene.old.watcher }
    ensures told { OnOk result (ArePrinted (By (replicate count (move_of made)))
        (map string_bytes names.now) scene.old scene.new) }
    ensures shape { OnOk result (AreWatched scene.new.machine scene.new.watcher) }
{
    for _ in 0..count {
        if !make_move(alloc, scene, names, made)? {
            break;
        }
    }
    Ok(())
}

/// The moves of a schedule, each with how often it is made before the next.
pub(crate) fn make_moves(
    alloc: Global,
    scene: &mut Scene,
    names: &[String],
    runs: &[(u8, u64)],
) -> Result<(), AllocError>
    requires { AreWatched scene.old.machine scene.old.watcher }
    ensures told { OnOk result (ArePrinted (By (map move_of (unrolled runs.now)))
        (map string_bytes names.now) scene.old scene.new) }
    ensures shape { OnOk result (AreWatched scene.new.machine scene.new.watcher) }
{
    for (made, count) in runs {
        repeat(alloc, scene, names, *made, *count)?;
    }
    Ok(())
}

/// One round: each CPU in rising order takes a turn and flushes its oldest waiting store.
fn make_round(alloc: Global, scene: &mut Scene, names: &[String]) -> Result<(), AllocError>
    requires { AreWatched scene.old.machine scene.old.watcher }
    ensures told { OnOk result (ArePrinted OneRound (map string_bytes names.now)
        scene.old scene.new) }
    ensures shape { OnOk result (AreWatched scene.new.machine scene.new.watcher) }
{
    for cpu in 0..scene.machine.cpus() {
        take_turn(alloc, scene, names, cpu)?;
        flush(alloc, scene, names, cpu)?;
    }
    Ok(())
}

/// Rounds until each job has ended.
pub(crate) fn make_rounds(
    alloc: Global,
    scene: &mut Scene,
    names: &[String],
) -> Result<(), AllocError>
    requires { AreWatched scene.old.machine scene.old.watcher }
    ensures told { OnOk result (ArePrinted LastRounds (map string_bytes names.now)
        scene.old scene.new) }
{
    for _ in 0..u64::MAX {
        if have_ended(&scene.machine) {
            return Ok(());
        }
        make_round(alloc, scene, names)?;
    }
    // Each round makes a step, and no jobs have budgets for this many.
    Err(AllocError)
}
