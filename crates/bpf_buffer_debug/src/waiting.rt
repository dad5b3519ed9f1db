//! The stores that wait in a CPU's buffer, and one that reaches memory.

ghost use Rattle.std.specs.Prelude.{◌≡◌, IfOk, map, string_bytes};
ghost use Rattle.bpf_events.specs.Lines.{event_text};
ghost use Rattle.bpf_buffering.specs.Search.{buffer_at};
ghost use Rattle.bpf_buffering.specs.Waiting.{event_of};
ghost use Rattle.bpf_buffer_debug.specs.Waiting.{buffer_text, flush_line, flush_text, nothing_line, waiting_line, waiting_lines};

use bpf_buffering::{Buffering, Stored};
use bpf_events::{Note, note_text};
use std::alloc::{AllocError, Global};

/// A waiting store, as the histories of jobs show it.
fn store_text(alloc: Global, names: &[String], stored: Stored) -> Result<String, AllocError>
    ensures { IfOk result (λ text. string_bytes text
        ≡ event_text (map string_bytes names.now) (event_of stored)) }
{
    let Stored { at, size, word } = stored;
    note_text(alloc, names, &Note::Store { at, size, word })
}

/// The line of a waiting store.
fn waiting_line(
    alloc: Global,
    names: &[String],
    cpu: u8,
    stored: Stored,
) -> Result<String, AllocError>
    ensures { IfOk result (λ line. string_bytes line
        ≡ waiting_line (map string_bytes names.now) cpu (event_of stored)) }
{
    let call = store_text(alloc, names, stored)?;
    let line = format!(in alloc; "cpu {cpu} waits {call}\n")?;
    Ok(line)
}

/// That nothing waits in a CPU's buffer.
fn nothing_line(alloc: Global, cpu: u8) -> Result<String, AllocError>
    ensures { IfOk result (λ line. string_bytes line ≡ nothing_line cpu) }
{
    format!(in alloc; "cpu {cpu} nothing waits\n")
}

/// A line a store that waits, in the order in which they reach memory.
fn waiting_lines(
    alloc: Global,
    names: &[String],
    cpu: u8,
    stores: &[Stored],
) -> Result<String, AllocError>
    ensures { IfOk result (λ text. string_bytes text
        ≡ waiting_lines (map string_bytes names.now) cpu (map event_of stores.now)) }
{
    let mut text = String::new(alloc);
    for stored in stores {
        let line = waiting_line(alloc, names, cpu, *stored)?;
        text.push_str(line.as_str())?;
    }
    Ok(text)
}

/// The stores that wait in a CPU's buffer, the oldest first, or that none does.
pub(crate) fn buffer_lines(
    alloc: Global,
    machine: &Buffering,
    names: &[String],
    cpu: u8,
) -> Result<String, AllocError>
    ensures { IfOk result (λ text. string_bytes text ≡ buffer_text (map string_bytes names.now)
        cpu (buffer_at machine.now.buffers cpu)) }
{
    let stores = machine.buffer(cpu);
    if stores.is_empty() {
        return nothing_line(alloc, cpu);
    }
    waiting_lines(alloc, names, cpu, stores)
}

/// The line of a store that reaches memory.
fn flushed_line(
    alloc: Global,
    names: &[String],
    cpu: u8,
    stored: Stored,
) -> Result<String, AllocError>
    ensures { IfOk result (λ line. string_bytes line
        ≡ flush_line (map string_bytes names.now) cpu (event_of stored)) }
{
    let call = store_text(alloc, names, stored)?;
    let line = format!(in alloc; "cpu {cpu} flush {call}\n")?;
    Ok(line)
}

/// The line of the oldest store that waits in a CPU's buffer, as it reaches memory, or that none does.
pub(crate) fn flush_line(
    alloc: Global,
    machine: &Buffering,
    names: &[String],
    cpu: u8,
) -> Result<String, AllocError>
    ensures { IfOk result (λ text. string_bytes text ≡ flush_text (map string_bytes names.now)
        cpu (buffer_at machine.now.buffers cpu)) }
{
    match machine.buffer(cpu).first() {
        Some(oldest) => flushed_line(alloc, names, cpu, *oldest),
        None => nothing_line(alloc, cpu),
    }
}
