//! The lines of events.

ghost use Rattle.std.specs.Prelude.{◌≡◌, ◌++◌, ℕ, List, IfOk, OnOk, map, string_bytes};
ghost use Rattle.bpf_shared.specs.declared.events.Event.{Event};
ghost use Rattle.bpf_machine.specs.Happenings.{happening};
ghost use Rattle.bpf_events.specs.Private.Recording.{event_of};
ghost use Rattle.bpf_events.specs.Lines.{answer_text, atomic_text, bytes_text, change_text, event_text, happening_line, load_text, name_of, operand_text, place_text, size_text, store_text, value_text};

use crate::note::{Note, Place};
use bpf_shared::{AtomicOp, MapAnswer, Size, Span};
use std::alloc::{AllocError, Global};

/// The name of a map by its number; none for no map's.
fn name_at(names: &[String], number: u8) -> &str
    ensures { result.now ≡ name_of (map string_bytes names.now) number }
{
    match names.get(number as usize) {
        Some(name) => name.as_str(),
        None => "",
    }
}

/// Where a value lies.
fn place_text(alloc: Global, place: Option<Span>) -> Result<String, AllocError>
    ensures { IfOk result (λ text. string_bytes text ≡ place_text place) }
{
    match place {
        Some(span) => format!(in alloc; "0x{:x}", span.at),
        None => format!(in alloc; "none"),
    }
}

/// The answer to an update or a deletion.
fn answer_text(answer: MapAnswer) -> &'static str
    ensures { result.now ≡ answer_text answer }
{
    match answer {
        MapAnswer::Done => "done",
        MapAnswer::Invalid => "EINVAL",
        MapAnswer::Busy => "EBUSY",
        MapAnswer::Exists => "EEXIST",
        MapAnswer::Absent => "ENOENT",
        MapAnswer::Full => "E2BIG",
        MapAnswer::NoMemory => "ENOMEM",
    }
}

fn change_text(op: AtomicOp) -> &'static str
    ensures { result.now ≡ change_text op }
{
    match op {
        AtomicOp::Add => "add",
        AtomicOp::Or => "or",
        AtomicOp::And => "and",
        AtomicOp::Xor => "xor",
        AtomicOp::Exchange => "xchg",
        AtomicOp::CompareExchange => "cmpxchg",
    }
}

fn size_text(size: Size) -> &'static str
    ensures { result.now ≡ size_text size }
{
    match size {
        Size::Byte => "1",
        Size::Half => "2",
        Size::Word => "4",
        Size::Double => "8",
    }
}

/// Appends a word to the text, and what follows it.
fn push_both(text: &mut String, word: &str, rest: &str) -> Result<(), AllocError>
    ensures { OnOk result (string_bytes text.new ≡ string_bytes text.old ++ word.now ++ rest.now) }
{
    text.push_str(word)?;
    text.push_str(rest)
}

/// Appends this many bytes, from an address on, to the text.
fn push_bytes(alloc: Global, text: &mut String, at: u64, size: Size) -> Result<(), AllocError>
    ensures { OnOk result (string_bytes text.new ≡ string_bytes text.old ++ bytes_text at size) }
{
    let place = format!(in alloc; " at 0x{at:x}")?;
    push_both(text, size_text(size), place.as_str())
}

fn exchanged_text(alloc: Global, operand: u64, expected: u64) -> Result<String, AllocError>
    ensures { IfOk result (λ text. string_bytes text
        ≡ operand_text AtomicOp.CompareExchange operand expected) }
{
    let mut text = format!(in alloc; "{operand}")?;
    let rest = format!(in alloc; " expected {expected}")?;
    text.push_str(rest.as_str())?;
    Ok(text)
}

/// What an atomic access does to the word.
#[derive(Clone, Copy)]
struct Change {
    op: AtomicOp,
    operand: u64,
    /// What a compare-and-exchange compares the word with.
    expected: u64,
}

fn operand_text(alloc: Global, change: Change) -> Result<String, AllocError>
    ensures { IfOk result (λ text. string_bytes text
        ≡ operand_text change.op change.operand change.expected) }
{
    let Change {
        op,
        operand,
        expected,
    } = change;
    match op {
        AtomicOp::CompareExchange => exchanged_text(alloc, operand, expected),
        _ => format!(in alloc; "{operand}"),
    }
}

fn lookup_text(
    alloc: Global,
    name: &str,
    key: &[u8],
    found: Option<Span>,
) -> Result<String, AllocError>
    ensures { (names : List (List ℕ)) (m : ℕ) → name_of names m ≡ name.now
        → IfOk result (λ text. string_bytes text
        ≡ event_text names (Event.Lookup m key.now found)) }
{
    let key = hex::encode(alloc, key)?;
    let place = place_text(alloc, found)?;
    format!(in alloc; "lookup {name} {key} = {place}")
}

/// Appends a value and the flags of its update to the text.
fn push_value(alloc: Global, text: &mut String, value: &[u8], flags: u64) -> Result<(), AllocError>
    ensures { OnOk result (string_bytes text.new
        ≡ string_bytes text.old ++ value_text value.now flags) }
{
    let value = hex::encode(alloc, value)?;
    let rest = format!(in alloc; " flags {flags} = ")?;
    push_both(text, value.as_str(), rest.as_str())
}

fn update_text(
    alloc: Global,
    name: &str,
    key: &[u8],
    value: &[u8],
    flags: u64,
    answer: MapAnswer,
) -> Result<String, AllocError>
    ensures { (names : List (List ℕ)) (m : ℕ) → name_of names m ≡ name.now
        → IfOk result (λ text. string_bytes text
        ≡ event_text names (Event.Update m key.now value.now flags answer)) }
{
    let key = hex::encode(alloc, key)?;
    let mut text = format!(in alloc; "update {name} {key} ")?;
    push_value(alloc, &mut text, value, flags)?;
    text.push_str(answer_text(answer))?;
    Ok(text)
}

fn delete_text(
    alloc: Global,
    name: &str,
    key: &[u8],
    answer: MapAnswer,
) -> Result<String, AllocError>
    ensures { (names : List (List ℕ)) (m : ℕ) → name_of names m ≡ name.now
        → IfOk result (λ text. string_bytes text
        ≡ event_text names (Event.Delete m key.now answer)) }
{
    let key = hex::encode(alloc, key)?;
    let mut text = format!(in alloc; "delete {name} {key} = ")?;
    text.push_str(answer_text(answer))?;
    Ok(text)
}

fn load_text(alloc: Global, at: u64, size: Size, found: u64) -> Result<String, AllocError>
    ensures { IfOk result (λ text. string_bytes text ≡ load_text at size found) }
{
    let mut text = format!(in alloc; "load ")?;
    push_bytes(alloc, &mut text, at, size)?;
    let reply = format!(in alloc; " = {found}")?;
    text.push_str(reply.as_str())?;
    Ok(text)
}

fn store_text(alloc: Global, at: u64, size: Size, word: u64) -> Result<String, AllocError>
    ensures { IfOk result (λ text. string_bytes text ≡ store_text at size word) }
{
    let mut text = format!(in alloc; "store ")?;
    push_bytes(alloc, &mut text, at, size)?;
    let last = format!(in alloc; " {word}")?;
    text.push_str(last.as_str())?;
    Ok(text)
}

fn atomic_text(
    alloc: Global,
    at: u64,
    size: Size,
    change: Change,
    found: u64,
) -> Result<String, AllocError>
    ensures { IfOk result (λ text. string_bytes text
        ≡ atomic_text at size change.op change.operand change.expected found) }
{
    let mut text = String::new(alloc);
    push_both(&mut text, change_text(change.op), " ")?;
    push_bytes(alloc, &mut text, at, size)?;
    let operand = operand_text(alloc, change)?;
    push_both(&mut text, " ", operand.as_str())?;
    let reply = format!(in alloc; " = {found}")?;
    text.push_str(reply.as_str())?;
    Ok(text)
}

/// A call with its reply.
pub fn note_text(alloc: Global, names: &[String], note: &Note) -> Result<String, AllocError>
    ensures { IfOk result (λ text. string_bytes text
        ≡ event_text (map string_bytes names.now) (event_of note.now)) }
{
    match note {
        Note::Begin => format!(in alloc; "begin"),
        Note::End => format!(in alloc; "end"),
        Note::Lookup { map, key, answer } => {
            lookup_text(alloc, name_at(names, *map), key, *answer)
        }
        Note::Update {
            map,
            key,
            value,
            flags,
            answer,
        } => update_text(alloc, name_at(names, *map), key, value, *flags, *answer),
        Note::Delete { map, key, answer } => {
            delete_text(alloc, name_at(names, *map), key, *answer)
        }
        Note::Load { at, size, found } => load_text(alloc, *at, *size, *found),
        Note::Store { at, size, word } => store_text(alloc, *at, *size, *word),
        Note::Atomic {
            at,
            size,
            op,
            operand,
            expected,
            found,
        } => {
            let change = Change {
                op: *op,
                operand: *operand,
                expected: *expected,
            };
            atomic_text(alloc, *at, *size, change, *found)
        }
    }
}

/// Appends the line of an event to the text: a call of a CPU, of the job that it runs, at a pc.
pub fn push_note(
    alloc: Global,
    text: &mut String,
    names: &[String],
    place: Place,
    note: &Note,
) -> Result<(), AllocError>
    ensures { OnOk result (string_bytes text.new ≡ string_bytes text.old
        ++ happening_line (map string_bytes names.now)
        (happening place.cpu place.job place.pc (event_of note.now))) }
{
    let call = note_text(alloc, names, note)?;
    let Place { cpu, job, pc } = place;
    let line = format!(in alloc; "cpu {cpu} job {job} pc {pc} {call}\n")?;
    text.push_str(line.as_str())
}
