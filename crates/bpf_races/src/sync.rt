//! Bytes that are left out, by the names of their maps or variables.

ghost use Rattle.std.specs.Prelude.{◌≡◌, ◌<◌, ◌≤◌, ◌^◌, None, IfNone, IfOk, IfSome, length, map, string_bytes};
ghost use Rattle.std.specs.List.{after_first, before_first};
ghost use Rattle.bpf_schedule.specs.Spelling.{number_below};
ghost use Rattle.bpf_shared.specs.Shape.{element_stride};
ghost use Rattle.bpf_names.specs.Names.{names_of, variable_of};
ghost use Rattle.bpf_races.specs.Private.Parts.{IsPart};
ghost use Rattle.bpf_races.specs.Sync.{ArePartsOf, IsAnyUnknown, Says, SaysOfMap, has_mark, is_mark, range_in, range_of, variable_part};

use bpf_lines::words;
use bpf_names::{Names, Variable, bytes_in};
use bpf_shared::{FIRST_ARRAY, MAP_AREA, MapShape, StoreShape};
use std::alloc::{AllocError, Global};

/// Bytes of the values of a map, or of a variable: from this one of each value on, up to that one.
#[derive(Clone, Copy, PartialEq, Eq, Debug)]
pub struct Part {
    /// The map's number; of an array 16 more than its own.
    pub map: usize,
    /// From the beginning of one value to that of the next.
    pub stride: u64,
    pub from: u64,
    pub past: u64,
}

/// Where a mark first is; the text's length where there is none.
fn mark_in(text: &[u8], mark: u8) -> usize
    ensures value { result ≡ length (before_first (is_mark mark) text.now) }
    ensures bound { result ≤ length text.now }
{
    text.iter().take_while(|byte| **byte != mark).count()
}

/// Whether a mark is in a text.
fn has_mark(text: &[u8], mark: u8) -> bool
    ensures { result ≡ has_mark mark text.now }
{
    mark_in(text, mark) < text.len()
}

/// What is before a mark.
fn before_mark<'a>(text: &'a [u8], mark: u8) -> &'a [u8]
    ensures { result.now ≡ before_first (is_mark mark) text.now }
{
    &text[..mark_in(text, mark)]
}

/// What is after a mark.
fn behind_mark<'a>(text: &'a [u8], mark: u8) -> &'a [u8]
    ensures { result.now ≡ after_first (is_mark mark) text.now }
{
    let at = mark_in(text, mark);
    if at < text.len() {
        &text[at + 1..]
    } else {
        &text[at..]
    }
}

/// The number of bytes that a word is.
fn count_in(word: &[u8]) -> Option<u64>
    ensures result { result ≡ number_below (2 ^ 32) word.now }
    ensures small { IfSome result (λ n. n < 2 ^ 32) }
{
    match words::number(word) {
        Ok(number) if number < 1 << 32 => Some(number),
        _ => None,
    }
}

/// The bytes that a text spells, as `0:8`: where they begin, and how many they are.
fn range_of(text: &[u8]) -> Option<(u64, u64)>
    ensures { result ≡ range_of text.now }
{
    let from = count_in(before_mark(text, b':'))?;
    let size = count_in(behind_mark(text, b':'))?;
    Some((from, from + size))
}

/// The bytes of values of this size that a text names: all, or those after its `+`.
fn range_in(text: &[u8], value: u64) -> Option<(u64, u64)>
    ensures { result ≡ range_in text.now value }
{
    if !has_mark(text, b'+') {
        return Some((0, value));
    }
    match range_of(behind_mark(text, b'+')) {
        Some((from, past)) if past <= value => Some((from, past)),
        _ => None,
    }
}

/// From the beginning of one value of a map to that of the next.
fn stride_of(shape: MapShape) -> u64
    requires { shape.value ≤ 256 }
    ensures { result ≡ element_stride shape }
{
    (shape.value + 7) / 8 * 8
}

/// The bytes that a text names of values of a map of this number, whatever the map's name.
fn range_part(sizes: MapShape, number: usize, text: &[u8]) -> Option<Part>
    requires small { sizes.value ≤ 256 }
    ensures some { IfSome result (IsPart sizes number text.now) }
    ensures none { IfNone result (range_in text.now sizes.value ≡ None) }
{
    let (from, past) = range_in(text, sizes.value)?;
    let stride = stride_of(sizes);
    Some(Part {
        map: number,
        stride,
        from,
        past,
    })
}

/// The bytes of the map of this number that a text names.
fn part_at(names: &[String], shape: &StoreShape, text: &[u8], number: usize) -> Option<Part>
    requires named { number < length names.now }
    ensures said { IfSome result (SaysOfMap (map string_bytes names.now) shape.now.maps text.now) }
    ensures none { IfNone result ((part : Part) → part.map ≡ number
        → SaysOfMap (map string_bytes names.now) shape.now.maps text.now part → ⊥) }
{
    let maps = shape.maps();
    if number >= maps.len() {
        return None;
    }
    if names[number].as_bytes() == before_mark(text, b'+') {
        range_part(maps[number], number, text)
    } else {
        None
    }
}

/// The bytes that a text names, of some map.
fn map_part(names: &[String], shape: &StoreShape, text: &[u8]) -> Option<Part>
    ensures said { IfSome result (SaysOfMap (map string_bytes names.now) shape.now.maps text.now) }
    ensures none { IfNone result ((part : Part)
        → SaysOfMap (map string_bytes names.now) shape.now.maps text.now part → ⊥) }
{
    for number in 0..names.len() {
        if let Some(part) = part_at(names, shape, text, number) {
            return Some(part);
        }
    }
    None
}

/// The bytes of a variable.
fn variable_part(variable: &Variable) -> Part
    ensures { result ≡ variable_part (variable_of variable.now) }
{
    let from = u64::from(variable.at);
    Part {
        map: FIRST_ARRAY as usize + usize::from(variable.array),
        stride: MAP_AREA,
        from,
        past: from + bytes_in(variable.size) as u64,
    }
}

/// The bytes that a text names, of a variable or of some map.
fn part_in(names: &Names, shape: &StoreShape, text: &[u8]) -> Option<Part>
    ensures said { IfSome result (Says (names_of names.now) shape.now.maps text.now) }
    ensures none { IfNone result ((part : Part)
        → Says (names_of names.now) shape.now.maps text.now part → ⊥) }
{
    match names.variable(text) {
        Some(variable) => Some(variable_part(variable)),
        None => map_part(&names.maps, shape, text),
    }
}

/// The bytes that texts name, of maps and variables of these names; `None` where one of the texts names none.
pub fn synced_parts(
    alloc: Global,
    names: &Names,
    shape: &StoreShape,
    sync: &[String],
) -> Result<Option<Vec<Part>>, AllocError>
    ensures parts { IfOk result (λ found. IfSome found (λ parts. ArePartsOf
        (names_of names.now) shape.now.maps (map string_bytes sync.now) parts.items)) }
    ensures unknown { IfOk result (λ found. IfNone found (IsAnyUnknown
        (names_of names.now) shape.now.maps (map string_bytes sync.now))) }
{
    let mut parts = Vec::new(alloc);
    for text in sync {
        let Some(part) = part_in(names, shape, text.as_bytes()) else {
            return Ok(None);
        };
        parts.push(part)?;
    }
    Ok(Some(parts))
}
