//! The lines of calls, and of stores that reach memory.

ghost use Rattle.std.specs.Prelude.{◌≡◌, ◌++◌, ◌∷◌, [], OnOk, map, string_bytes};
ghost use Rattle.bpf_machine.specs.Happenings.{happening};
ghost use Rattle.bpf_events.specs.Watched.{event_of};
ghost use Rattle.bpf_buffering.specs.Waiting as buffers;
ghost use Rattle.bpf_buffer_events.specs.Happenings.{Flushed, all_after, drains, items, waiting_after};
ghost use Rattle.bpf_buffer_events.specs.Printed.{item_line, item_lines};

use bpf_buffering::Stored;
use bpf_events::{Note, Place, note_text, push_note};
use bpf_shared::MapAnswer;
use std::alloc::{AllocError, Global};

/// Appends the line of a waiting store that reaches memory to the text.
pub(crate) fn push_flush(
    alloc: Global,
    text: &mut String,
    names: &[String],
    cpu: u8,
    stored: Stored,
) -> Result<(), AllocError>
    ensures { OnOk result (string_bytes text.new ≡ string_bytes text.old
        ++ item_line (map string_bytes names.now) (Flushed cpu (buffers.event_of stored))) }
{
    let Stored { at, size, word } = stored;
    let call = note_text(alloc, names, &Note::Store { at, size, word })?;
    let line = format!(in alloc; "cpu {cpu} flush {call}\n")?;
    text.push_str(line.as_str())
}

/// Appends the lines of waiting stores that reach memory to the text.
fn push_flushes(
    alloc: Global,
    text: &mut String,
    names: &[String],
    cpu: u8,
    stores: &[Stored],
) -> Result<(), AllocError>
    ensures { OnOk result (string_bytes text.new ≡ string_bytes text.old
        ++ item_lines (map string_bytes names.now)
        (map (Flushed cpu) (map buffers.event_of stores.now))) }
{
    for stored in stores {
        push_flush(alloc, text, names, cpu, *stored)?;
    }
    Ok(())
}

/// Whether a call drains its CPU's buffer.
fn drains(note: &Note) -> bool
    ensures { result ≡ drains (event_of note.now) }
{
    match note {
        Note::Load { .. } | Note::Store { .. } | Note::Lookup { .. } => false,
        Note::Update { answer, .. } => match answer {
            MapAnswer::Invalid => false,
            _ => true,
        },
        Note::Begin | Note::End | Note::Delete { .. } | Note::Atomic { .. } => true,
    }
}

/// Puts a call's store after those that wait, if it makes one, or takes out what the call drains.
fn pass(waiting: &mut Vec<Stored>, note: &Note) -> Result<(), AllocError>
    ensures { OnOk result (map buffers.event_of waiting.new.items
        ≡ waiting_after (map buffers.event_of waiting.old.items) (event_of note.now)) }
{
    if let Note::Store { at, size, word } = note {
        waiting.push(Stored {
            at: *at,
            size: *size,
            word: *word,
        })?;
        return Ok(());
    }
    if drains(note) {
        waiting.clear();
    }
    Ok(())
}

/// Appends the lines of a call to the text: before it those of what it drains.
pub(crate) fn push_call(
    alloc: Global,
    text: &mut String,
    names: &[String],
    place: Place,
    waiting: &mut Vec<Stored>,
    note: &Note,
) -> Result<(), AllocError>
    ensures text { OnOk result (string_bytes text.new ≡ string_bytes text.old
        ++ item_lines (map string_bytes names.now)
        (items place.cpu (happening place.cpu place.job place.pc)
        (map buffers.event_of waiting.old.items) (event_of note.now ∷ []))) }
    ensures waiting { OnOk result (map buffers.event_of waiting.new.items
        ≡ waiting_after (map buffers.event_of waiting.old.items) (event_of note.now)) }
{
    if drains(note) {
        push_flushes(alloc, text, names, place.cpu, waiting)?;
    }
    pass(waiting, note)?;
    push_note(alloc, text, names, place, note)
}

/// Appends the lines of a CPU's calls to the text, before which these stores wait.
pub(crate) fn push_calls(
    alloc: Global,
    text: &mut String,
    names: &[String],
    place: Place,
    waiting: &mut Vec<Stored>,
    notes: &[Note],
) -> Result<(), AllocError>
    ensures text { OnOk result (string_bytes text.new ≡ string_bytes text.old
        ++ item_lines (map string_bytes names.now)
        (items place.cpu (happening place.cpu place.job place.pc)
        (map buffers.event_of waiting.old.items) (map event_of notes.now))) }
    ensures waiting { OnOk result (map buffers.event_of waiting.new.items
        ≡ all_after (map buffers.event_of waiting.old.items) (map event_of notes.now)) }
{
    for note in notes {
        push_call(alloc, text, names, place, waiting, note)?;
    }
    Ok(())
}
