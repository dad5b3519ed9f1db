//! The values that a CPU's run holds.

ghost use Rattle.std.specs.Prelude.{◌≡◌, ◌++◌, IfOk, [], codes, length, map, slice_index_or, string_bytes};
ghost use Rattle.std.specs.Fmt.{decimal};
ghost use Rattle.bpf_debug.specs.Held.{ShowsHeld, held_line, map_at, value_name};
ghost use Rattle.bpf_debug.specs.Private.Naming.{ShowsHeldLine, ShowsName, ShowsPlace};

use crate::reading::bytes_line;
use bpf_cpu::Cpu;
use bpf_plain::PlainStore;
use bpf_shared::{FIRST_VALUE, MAP_AREA, Span};
use std::alloc::{AllocError, Global};

/// The number of the map among whose values an address is.
pub fn map_at(address: u64) -> usize
    ensures { result ≡ map_at address }
{
    (address.saturating_sub(FIRST_VALUE) / MAP_AREA) as usize
}

/// The name of a map by its number; none for no map's.
pub fn name_at(names: &[String], number: usize) -> &str
    ensures { result.now ≡ slice_index_or (map string_bytes names.now) number [] }
{
    match names.get(number) {
        Some(name) => name.as_str(),
        None => "",
    }
}

/// An address in decimal, in a form that no key has.
fn address_text(alloc: Global, at: u64) -> Result<String, AllocError>
    ensures { IfOk result (λ text. string_bytes text ≡ codes "at " ++ decimal at) }
{
    format!(in alloc; "at {at}")
}

/// Where in its map the value at an address is: the key that leads to it in hex, or its address.
fn place_text(alloc: Global, store: &PlainStore, at: u64) -> Result<String, AllocError>
    ensures { IfOk result (λ text. ShowsPlace store.now at (string_bytes text)) }
{
    match store.key_at(at) {
        Some(key) => hex::encode(alloc, key),
        None => address_text(alloc, at),
    }
}

/// A map's name, and a place after it.
pub fn bracketed(alloc: Global, name: &str, place: &str) -> Result<String, AllocError>
    ensures { IfOk result (λ text. string_bytes text
        ≡ name.now ++ (codes "[" ++ (place.now ++ codes "]"))) }
{
    let text = format!(in alloc; "{name}[{place}]")?;
    Ok(text)
}

/// A map's name, and where in it a value is.
fn name_text(alloc: Global, names: &[String], at: u64, place: &str) -> Result<String, AllocError>
    ensures { IfOk result (λ text. string_bytes text
        ≡ value_name (map string_bytes names.now) at place.now) }
{
    let name = name_at(names, map_at(at));
    bracketed(alloc, name, place)
}

/// The name of the value at an address.
pub fn value_name(
    alloc: Global,
    store: &PlainStore,
    names: &[String],
    at: u64,
) -> Result<String, AllocError>
    ensures { IfOk result (λ text.
        ShowsName (map string_bytes names.now) store.now at (string_bytes text)) }
{
    let place = place_text(alloc, store, at)?;
    let name = name_text(alloc, names, at, place.as_str())?;
    Ok(name)
}

/// A line of these.
fn line_text(alloc: Global, name: &str, at: u64, shown: &str) -> Result<String, AllocError>
    ensures { IfOk result (λ text. string_bytes text ≡ held_line name.now at shown.now) }
{
    let line = format!(in alloc; "{name} {at} {shown}")?;
    Ok(line)
}

/// The line of a value.
fn held_line(
    alloc: Global,
    store: &PlainStore,
    state: &Cpu,
    names: &[String],
    span: Span,
) -> Result<String, AllocError>
    ensures { IfOk result (λ line. ShowsHeldLine (map string_bytes names.now) store.now state.now
        span (string_bytes line)) }
{
    let name = value_name(alloc, store, names, span.at)?;
    let shown = bytes_line(alloc, store, state, Some(span.at), span.size as usize)?;
    let line = line_text(alloc, name.as_str(), span.at, shown.as_str())?;
    Ok(line)
}

/// A line a value that a CPU's run holds, in the order of their first lookups.
pub fn held_lines(
    alloc: Global,
    store: &PlainStore,
    state: &Cpu,
    names: &[String],
) -> Result<String, AllocError>
    ensures { IfOk result (λ text. ShowsHeld (map string_bytes names.now) store.now state.now
        (length state.now.held) (string_bytes text)) }
{
    let mut text = String::new(alloc);
    for span in state.held.spans() {
        let line = held_line(alloc, store, state, names, *span)?;
        text.push_str(line.as_str())?;
    }
    Ok(text)
}
