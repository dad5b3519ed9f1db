//! Turns that are made and printed.

ghost use Rattle.std.specs.Prelude.{◌≡◌, ◌++◌, ℕ, false, IfOk, OnOk, Some, map, replicate, string_bytes};
ghost use Rattle.bpf_plain.specs.Alike.{IsSameShape};
ghost use Rattle.bpf_machine.specs.Happenings.{end_events, happening};
ghost use Rattle.bpf_machine.specs.Machine.{Shows};
ghost use Rattle.bpf_machine.specs.Rounds.{below, HaveEnded};
ghost use Rattle.bpf_machine.specs.Schedule.{World, unrolled};
ghost use Rattle.bpf_events.specs.Lines.{history_lines};
ghost use Rattle.bpf_events.specs.Private.Recording.{event_of};
ghost use Rattle.bpf_events.specs.Private.Told.{ARound, AreTold, OneTurn, SomeRounds, Turns};
ghost use Rattle.bpf_events.specs.Private.Watching.{noted};

use crate::lines::push_note;
use crate::note::{Note, Place};
use crate::recorder::Recorder;
use crate::watching::watch;
use bpf_machine::{Machine, Turn};
use std::alloc::{AllocError, Global};

/// A turn of a CPU, as its lines show it.
#[derive(Clone, Copy)]
struct Shown<'a> {
    cpu: u8,
    /// The CPU's job and the pc before the turn, if it had work.
    at: Option<(usize, u32)>,
    /// The calls that were noted of it.
    notes: &'a [Note],
    answer: Turn,
}

/// Appends the lines of a CPU's calls to the text.
fn push_notes(
    alloc: Global,
    text: &mut String,
    names: &[String],
    place: Place,
    notes: &[Note],
) -> Result<(), AllocError>
    ensures { OnOk result (string_bytes text.new ≡ string_bytes text.old
        ++ history_lines (map string_bytes names.now)
        (map (happening place.cpu place.job place.pc) (map event_of notes.now))) }
{
    for note in notes {
        push_note(alloc, text, names, place, note)?;
    }
    Ok(())
}

/// Appends the line of a run's end to the text, where a turn leads to that.
fn push_end(
    alloc: Global,
    text: &mut String,
    names: &[String],
    place: Place,
    answer: Turn,
) -> Result<(), AllocError>
    ensures { OnOk result (string_bytes text.new ≡ string_bytes text.old
        ++ history_lines (map string_bytes names.now)
        (map (happening place.cpu place.job place.pc) (end_events answer))) }
{
    match answer {
        Turn::Ended(_, _) => {
            push_note(alloc, text, names, place, &Note::End)?;
            Ok(())
        }
        Turn::Ran | Turn::Idle => Ok(()),
    }
}

/// Appends the lines of a turn with this result to the text, of which these calls were noted.
fn push_worked(
    alloc: Global,
    text: &mut String,
    names: &[String],
    place: Place,
    notes: &[Note],
    answer: Turn,
) -> Result<(), AllocError>
    ensures { OnOk result (string_bytes text.new ≡ string_bytes text.old
        ++ history_lines (map string_bytes names.now)
        (noted place.cpu (Some (place.job, place.pc)) (map event_of notes.now) answer)) }
{
    push_notes(alloc, text, names, place, notes)?;
    push_end(alloc, text, names, place, answer)?;
    Ok(())
}

/// Appends the lines of a CPU's turn to the text, which may have no work.
fn push_turn(
    alloc: Global,
    text: &mut String,
    names: &[String],
    turn: Shown,
) -> Result<(), AllocError>
    ensures { OnOk result (string_bytes text.new ≡ string_bytes text.old
        ++ history_lines (map string_bytes names.now)
        (noted turn.entry.cpu turn.entry.at (map event_of turn.entry.notes.now)
        turn.entry.answer)) }
{
    let Shown {
        cpu,
        at,
        notes,
        answer,
    } = turn;
    match at {
        Some((job, pc)) => push_worked(alloc, text, names, Place { cpu, job, pc }, notes, answer),
        None => Ok(()),
    }
}

/// Makes one turn of a CPU, and says what happens in it.
fn make_turn(
    alloc: Global,
    machine: &mut Machine,
    recorder: &mut Recorder,
    text: &mut String,
    names: &[String],
    cpu: u8,
) -> Result<Turn, AllocError>
    requires { IsSameShape machine.old.store recorder.old.store }
    ensures told { IfOk result (λ answer. AreTold (OneTurn cpu answer) (map string_bytes names.now)
        machine.old (string_bytes text.old) machine.new (string_bytes text.new)) }
    ensures idle { IfOk result (λ answer. answer ≡ Turn.Idle → machine.new ≡ machine.old) }
    ensures shape { OnOk result (IsSameShape machine.new.store recorder.new.store) }
{
    let at = watch(alloc, machine, recorder, cpu)?;
    let answer = machine.turn(cpu);
    let turn = Shown {
        cpu,
        at,
        notes: recorder.notes(),
        answer,
    };
    push_turn(alloc, text, names, turn)?;
    Ok(answer)
}

/// Turns of a CPU, as many as are given with it. Those after an idle one are idle too, and aren't
/// made.
fn make_run(
    alloc: Global,
    machine: &mut Machine,
    recorder: &mut Recorder,
    text: &mut String,
    names: &[String],
    run: (u8, u64),
) -> Result<(), AllocError>
    requires { IsSameShape machine.old.store recorder.old.store }
    ensures told { OnOk result (AreTold (Turns (replicate run.1 run.0)) (map string_bytes names.now)
        machine.old (string_bytes text.old) machine.new (string_bytes text.new)) }
    ensures shape { OnOk result (IsSameShape machine.new.store recorder.new.store) }
{
    let (cpu, turns) = run;
    for _ in 0..turns {
        if let Turn::Idle = make_turn(alloc, machine, recorder, text, names, cpu)? {
            break;
        }
    }
    Ok(())
}

/// The turns of a schedule: CPUs, each with how many turns it takes before the next.
pub(crate) fn make_turns(
    alloc: Global,
    machine: &mut Machine,
    recorder: &mut Recorder,
    text: &mut String,
    names: &[String],
    schedule: &[(u8, u64)],
) -> Result<(), AllocError>
    requires { IsSameShape machine.old.store recorder.old.store }
    ensures told { OnOk result (AreTold (Turns (unrolled schedule.now)) (map string_bytes names.now)
        machine.old (string_bytes text.old) machine.new (string_bytes text.new)) }
    ensures shape { OnOk result (IsSameShape machine.new.store recorder.new.store) }
{
    for (cpu, turns) in schedule {
        make_run(alloc, machine, recorder, text, names, (*cpu, *turns))?;
    }
    Ok(())
}

/// Whether some turn had work, with one more that came to this.
fn has_worked(worked: bool, answer: Turn) -> bool
    ensures { result ≡ false → (worked ≡ false) × (answer ≡ Turn.Idle) }
{
    match answer {
        Turn::Idle => worked,
        Turn::Ran | Turn::Ended(_, _) => true,
    }
}

/// One round: each CPU with work makes one turn, in rising order. Whether any had work.
fn make_round(
    alloc: Global,
    machine: &mut Machine,
    recorder: &mut Recorder,
    text: &mut String,
    names: &[String],
) -> Result<bool, AllocError>
    requires { IsSameShape machine.old.store recorder.old.store }
    ensures told { OnOk result (AreTold ARound (map string_bytes names.now)
        machine.old (string_bytes text.old) machine.new (string_bytes text.new)) }
    ensures ended { IfOk result (λ worked. worked ≡ false → ((w : World) × Shows machine.old w)
        → HaveEnded machine.new.jobs) }
    ensures shape { OnOk result (IsSameShape machine.new.store recorder.new.store) }
{
    machine.stands();
    let mut worked = false;
    for cpu in 0..machine.cpus() {
        let answer = make_turn(alloc, machine, recorder, text, names, cpu)?;
        worked = has_worked(worked, answer);
    }
    Ok(worked)
}

/// Rounds until no CPU has work.
pub(crate) fn make_rounds(
    alloc: Global,
    machine: &mut Machine,
    recorder: &mut Recorder,
    text: &mut String,
    names: &[String],
) -> Result<(), AllocError>
    requires shape { IsSameShape machine.old.store recorder.old.store }
    requires shows { (w : World) × Shows machine.old w }
    ensures told { OnOk result (AreTold SomeRounds (map string_bytes names.now)
        machine.old (string_bytes text.old) machine.new (string_bytes text.new)) }
    ensures ended { OnOk result (HaveEnded machine.new.jobs) }
{
    for _ in 0..u64::MAX {
        let worked = make_round(alloc, machine, recorder, text, names)?;
        if !worked {
            return Ok(());
        }
    }
    // Each round makes a step, and no jobs have budgets for this many.
    Err(AllocError)
}
