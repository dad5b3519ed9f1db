//! Where CPUs are in the states from which no end can be reached.

ghost use Rattle.std.specs.Prelude.{◌≡◌, ◌≤◌, ◌∷◌, ◌++◌, ℕ, List, IfOk, IfSome, OnOk, codes, length, string_bytes};
ghost use Rattle.std.specs.Option.{option_copied};
ghost use Rattle.bpf_lines.specs.Lines.{lines_behind, lines_of, rest_size};
ghost use Rattle.bpf_run.specs.Hung.{AreBufferPlaces, ArePlaces, ArePlacesOf, HasSchedule, HavePlaces, MayFollow};
ghost use Rattle.bpf_run.specs.Private.Asking.{AsksWhere, MakesMoves, TellsPlaces};

use crate::answering::Answering;
use crate::buffer_answering::BufferAnswering;
use crate::{buffer_debugging, debugging};
use bpf_shared::Shared;
use bpf_talk::Respond;
use std::alloc::{AllocError, Global};

/// The schedule that leads to a hung state, where a printed line is of one.
fn schedule_of<'a>(line: &'a str) -> Option<&'a str>
    ensures { IfSome result (λ schedule. HasSchedule line.now schedule.now) }
{
    line.strip_prefix("# ")
        .unwrap_or(line)
        .strip_prefix("hung by")
}

/// Makes the moves of a schedule by a command of the debugger.
fn make_moves<R: Respond>(alloc: Global, debugger: &mut R, schedule: &str) -> Option<()>
    ensures { IfSome result
        (λ _. MakesMoves R.answers debugger.old schedule.now debugger.new) }
{
    if schedule.is_empty() {
        return Some(());
    }
    let line = format!(in alloc; "steps{schedule}").ok()?;
    if debugger.answer(alloc, line.as_bytes()) {
        return None;
    }
    Some(())
}

/// Asks the debugger where each of this many CPUs is.
fn ask_where<R: Respond>(alloc: Global, debugger: &mut R, cpus: u8) -> Option<String>
    ensures { IfSome result
        (λ text. AsksWhere R.answers cpus debugger.old (string_bytes text) debugger.new) }
{
    let mut places = String::new(alloc);
    for cpu in 0..cpus {
        let line = format!(in alloc; "where {cpu}").ok()?;
        if debugger.answer(alloc, line.as_bytes()) {
            return None;
        }
        places.push_str(debugger.told()).ok()?;
    }
    Some(places)
}

/// Where each of this many CPUs is after the moves of a schedule.
fn places_by<R: Respond>(
    alloc: Global,
    debugger: &mut R,
    cpus: u8,
    schedule: &str,
) -> Option<String>
    ensures { IfSome result
        (λ text. TellsPlaces R.answers cpus schedule.now debugger.old (string_bytes text)) }
{
    make_moves(alloc, debugger, schedule)?;
    ask_where(alloc, debugger, cpus)
}

/// Where each CPU of a run file is after the turns of a schedule, a line each.
fn places_after(alloc: Global, file: &str, schedule: &str) -> Option<String>
    ensures { IfSome result (λ text. ArePlaces file.now schedule.now (string_bytes text)) }
{
    let Ok(session) = debugging::open_file(alloc, file) else {
        return None;
    };
    let cpus = Shared::cpus(session.machine().store());
    let mut debugger = Answering::new(alloc, session);
    places_by(alloc, &mut debugger, cpus, schedule)
}

/// Where each CPU with a store buffer is after the turns and flushes of a schedule, a line each.
fn places_with_buffers(alloc: Global, file: &str, schedule: &str) -> Option<String>
    ensures { IfSome result (λ text. AreBufferPlaces file.now schedule.now (string_bytes text)) }
{
    let Ok(session) = buffer_debugging::open_file(alloc, file) else {
        return None;
    };
    let cpus = Shared::cpus(session.machine().store());
    let mut debugger = BufferAnswering::new(alloc, session);
    places_by(alloc, &mut debugger, cpus, schedule)
}

/// Where each CPU of a run file is after a schedule, with store buffers or without.
fn places_of(alloc: Global, file: &str, schedule: &str, x86: bool) -> Option<String>
    ensures { IfSome result
        (λ text. ArePlacesOf x86 file.now schedule.now (string_bytes text)) }
{
    if x86 {
        places_with_buffers(alloc, file, schedule)
    } else {
        places_after(alloc, file, schedule)
    }
}

/// The first line of a text, and what follows its line feed, if it has one.
fn first_line<'a>(text: &'a str) -> (&'a str, Option<&'a str>)
    ensures lines { lines_of text.now ≡ result.0.now ∷ lines_behind (option_copied result.1) }
    ensures shorter { rest_size (option_copied result.1) ≤ length text.now }
{
    match text.split_once('\n') {
        Some((line, behind)) => (line, Some(behind)),
        None => (text, None),
    }
}

/// Appends a line, and after one of a hung state where each CPU is.
fn push_line(
    alloc: Global,
    text: &mut String,
    file: &str,
    line: &str,
    x86: bool,
) -> Result<(), AllocError>
    ensures { OnOk result ((places : List ℕ) × MayFollow x86 file.now line.now places
        × (string_bytes text.new ≡ string_bytes text.old ++ ((line.now ++ codes "\n") ++ places))) }
{
    write!(text, "{line}\n")?;
    if let Some(schedule) = schedule_of(line)
        && let Some(places) = places_of(alloc, file, schedule, x86)
    {
        text.push_str(places.as_str())?;
    }
    Ok(())
}

/// What is printed of a run file, and after each line of a hung state where each CPU is, with store
/// buffers or without.
pub fn with_places(
    alloc: Global,
    file: &str,
    printed: &str,
    x86: bool,
) -> Result<String, AllocError>
    ensures { IfOk result
        (λ text. HavePlaces x86 file.now (lines_of printed.now) (string_bytes text)) }
{
    let mut text = String::new(alloc);
    let mut rest = Some(printed);
    'lines: while let Some(left) = rest {
        let (line, behind) = first_line(left);
        push_line(alloc, &mut text, file, line, x86)?;
        rest = behind;
    }
    Ok(text)
}
