//! The registers that a turn changed, each number also as what it is where it is an address.

ghost use Rattle.std.specs.Prelude.{◌≡◌, ◌+◌, ◌-◌, ◌≤◌, ◌++◌, [], codes, false, IfOk, IfSome, List, Option, length, map, string_bytes, string_capacity, string_len, ℕ};
ghost use Rattle.std.specs.Fmt.{decimal, digits};
ghost use Rattle.bpf_cpu.specs.Task.{Task};
ghost use Rattle.bpf_debug.specs.Recall.{IsRecall, IsStand, Past};
ghost use Rattle.bpf_names.specs.Names.{names_of};
ghost use Rattle.bpf_plain.specs.PlainStore.{shape_of};
ghost use Rattle.bpf_debug.specs.Show.{HasRegisters, IsBefore, changed_text, is_same, other_words, place_words, shown_line, value_at};
ghost use Rattle.bpf_debug.specs.Private.Naming.{ShowsLine, ShowsLines, ShowsMeaning, ShowsWords};
ghost use Rattle.bpf_debug.specs.Private.Room.{HasRoom, total};

use crate::held::value_name;
use crate::places::{FIRST_FIXED, fixed_words, own_words, place_words};
use crate::recall::{Recall, Stand};
use crate::text::put;
use bpf_cpu::Cpu;
use bpf_names::Names;
use bpf_plain::PlainStore;
use bpf_shared::Span;
use std::alloc::{AllocError, Global};

/// The first of some values that an address is in.
fn value_at(held: &[Span], address: u64) -> Option<Span>
    ensures { result ≡ value_at held.now address }
{
    for span in held {
        if address >= span.at && address - span.at < span.size {
            return Some(*span);
        }
    }
    None
}

/// A number in hex digits.
fn hex_text(alloc: Global, number: u64) -> Result<String, AllocError>
    ensures { IfOk result (λ text. string_bytes text ≡ codes "0x" ++ digits 16 false number) }
{
    let text = format!(in alloc; "0x{number:x}")?;
    Ok(text)
}

/// How far an address is after the beginning of a value.
fn behind(span: Span, address: u64) -> u64
    ensures { result ≡ address - span.at }
{
    address.saturating_sub(span.at)
}

/// An address in a value.
fn value_words(
    alloc: Global,
    store: &PlainStore,
    names: &Names,
    span: Span,
    address: u64,
) -> Result<String, AllocError>
    ensures { IfOk result (λ text. ShowsWords (names_of names.now) store.now address
        (Some span) (string_bytes text)) }
{
    let name = value_name(alloc, store, &names.maps, span.at)?;
    let words = place_words(alloc, name.as_str(), behind(span, address))?;
    Ok(words)
}

/// An address in no held value: in a value of an array, in a frame or in the context.
fn other_words(
    alloc: Global,
    store: &PlainStore,
    names: &Names,
    address: u64,
) -> Result<String, AllocError>
    ensures { IfOk result (λ text. string_bytes text
        ≡ other_words (names_of names.now) (shape_of store.now) address) }
{
    if address >= FIRST_FIXED {
        fixed_words(alloc, store.store_shape(), names, address)
    } else {
        own_words(alloc, address)
    }
}

/// What a number is, where it is an address.
fn meaning(
    alloc: Global,
    store: &PlainStore,
    names: &Names,
    held: &[Span],
    number: u64,
) -> Result<String, AllocError>
    ensures { IfOk result (λ text.
        ShowsMeaning (names_of names.now) store.now held.now number (string_bytes text)) }
{
    match value_at(held, number) {
        Some(span) => value_words(alloc, store, names, span, number),
        None => other_words(alloc, store, names, number),
    }
}

/// A line of these.
fn line_text(
    alloc: Global,
    register: usize,
    number: u64,
    meaning: &str,
) -> Result<String, AllocError>
    ensures { IfOk result (λ text. string_bytes text ≡ shown_line register number meaning.now) }
{
    let hex = hex_text(alloc, number)?;
    let line = format!(in alloc; "r{register} {number} {hex}{meaning}\n")?;
    Ok(line)
}

/// The line of a register.
fn shown_line(
    alloc: Global,
    store: &PlainStore,
    names: &Names,
    held: &[Span],
    register: usize,
    number: u64,
) -> Result<String, AllocError>
    ensures { IfOk result (λ text. ShowsLine (names_of names.now) store.now held.now register
        number (string_bytes text)) }
{
    let meaning = meaning(alloc, store, names, held, number)?;
    let line = line_text(alloc, register, number, meaning.as_str())?;
    Ok(line)
}

/// A line a register.
fn shown_lines(
    alloc: Global,
    store: &PlainStore,
    names: &Names,
    held: &[Span],
    registers: &[u64],
) -> Result<Vec<String>, AllocError>
    ensures count { IfOk result (λ lines. length lines.items ≡ length registers.now) }
    ensures lines { IfOk result (λ lines. ShowsLines (names_of names.now) store.now held.now
        0 registers.now (map string_bytes lines.items)) }
{
    let mut lines = Vec::with_capacity(alloc, registers.len())?;
    for (register, number) in registers.iter().enumerate() {
        lines.push(shown_line(alloc, store, names, held, register, *number)?)?;
    }
    Ok(lines)
}

/// How many bytes some lines have.
fn total(lines: &[String]) -> Option<usize>
    ensures { IfSome result (λ n. n ≡ total (map string_bytes lines.now)) }
{
    let mut sum: usize = 0;
    for line in lines {
        sum = sum.checked_add(line.len())?;
    }
    Some(sum)
}

/// The registers of a CPU that stood so; none where it had no job in hand.
fn registers_of(stand: &Stand) -> &[u64]
    ensures { (jobs : List Task) (cpu : ℕ) → IsStand jobs cpu stand.now
        → HasRegisters jobs cpu result.now }
{
    match stand {
        Stand::InHand(hand) => &hand.registers,
        Stand::Waiting(_) => &[],
        Stand::Idle => &[],
    }
}

/// The registers before a turn; none where no job was in hand.
fn registers_before(recall: &Option<Recall>) -> &[u64]
    ensures { (cpu : ℕ) (past : Option Past) → IsRecall cpu recall.now past
        → IsBefore cpu past result.now }
{
    match recall {
        Some(kept) => registers_of(&kept.stand),
        None => &[],
    }
}

/// Whether a register was this number.
fn is_same(before: &[u64], register: usize, number: u64) -> bool
    ensures { result ≡ is_same before.now register number }
{
    register < before.len() && before[register] == number
}

/// Puts the lines of the registers that were other numbers before.
fn put_changed(out: &mut String, before: &[u64], now: &[u64], lines: &[String])
    requires room { string_len out.old + total (map string_bytes lines.now)
        ≤ string_capacity out.old }
    requires lines { length lines.now ≡ length now.now }
    ensures { string_bytes out.new ≡ string_bytes out.old
        ++ changed_text before.now 0 now.now (map string_bytes lines.now) }
{
    for (register, line) in lines.iter().enumerate() {
        if !is_same(before, register, now[register]) {
            put(out, line.as_str());
        }
    }
}

/// A CPU's registers with their lines, and room for these.
#[derive(Drop)]
pub struct Shown {
    pub registers: [u64; 11],
    pub lines: Vec<String>,
    pub room: String,
}

/// What there is to be shown of a CPU.
pub fn shown_of(
    alloc: Global,
    store: &PlainStore,
    names: &Names,
    state: &Cpu,
) -> Result<Shown, AllocError>
    ensures registers { IfOk result (λ s. s.registers ≡ state.now.registers) }
    ensures lines { IfOk result (λ s. ShowsLines (names_of names.now) store.now state.now.held
        0 state.now.registers (map string_bytes s.lines.items)) }
    ensures empty { IfOk result (λ s. string_bytes s.room ≡ []) }
    ensures room { IfOk result HasRoom }
{
    let lines = shown_lines(alloc, store, names, state.held.spans(), &state.registers)?;
    let Some(bytes) = total(&lines) else {
        return Err(AllocError);
    };
    let room = String::with_capacity(alloc, bytes)?;
    Ok(Shown {
        registers: state.registers,
        lines,
        room,
    })
}

/// The lines of the registers that a turn changed.
pub fn changed(shown: Shown, recall: &Option<Recall>) -> String
    requires { HasRoom shown }
    ensures { (cpu : ℕ) (past : Option Past) → IsRecall cpu recall.now past → (before : List ℕ)
        × IsBefore cpu past before × (string_bytes result ≡ string_bytes shown.room
        ++ changed_text before 0 shown.registers (map string_bytes shown.lines.items)) }
{
    let mut out = shown.room;
    put_changed(
        &mut out,
        registers_before(recall),
        &shown.registers,
        &shown.lines,
    );
    out
}
