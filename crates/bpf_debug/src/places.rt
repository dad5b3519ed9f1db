//! Addresses in values of arrays, in frames, in the context and in the packet, as `show` names them.

ghost use Rattle.std.specs.Prelude.{◌≡◌, ◌+◌, ◌-◌, ◌≤◌, ◌++◌, codes, IfOk, Some, length, option_map, slice_get, string_bytes};
ghost use Rattle.std.specs.Fmt.{decimal};
ghost use Rattle.bpf_shared.specs.Shape.{IsArrayShape, IsShape};
ghost use Rattle.bpf_names.specs.Names.{names_of, variable_at, variable_of};
ghost use Rattle.bpf_jobs.specs.Printed.{place_text};
ghost use Rattle.bpf_debug.specs.Show.{array_words, below_words, context_words, element_words, fixed_words, frame_words, given_words, own_words, packet_words, place_words, variable_words};

use crate::held::{bracketed, name_at};
use bpf_jobs::ArrayPlace;
use bpf_mem::addresses::{CONTEXT_BASE, FRAME_STRIDE, PACKET_BASE, STACK_BASE};
use bpf_mem::context::MAX_CONTEXT;
use bpf_mem::frames::{FRAME_BYTES, MAX_FRAMES};
use bpf_mem::packet::MAX_PACKET;
use bpf_names::{Names, Variable};
use bpf_shared::{ArrayShape, FIRST_ARRAY, FIRST_VALUE, MAP_AREA, StoreShape};
use std::alloc::{AllocError, Global};

/// Where the values of the first array begin: those of maps are at lower addresses.
pub const FIRST_FIXED: u64 = FIRST_VALUE + MAP_AREA * FIRST_ARRAY;

/// A number in decimal.
fn number_text(alloc: Global, number: u64) -> Result<String, AllocError>
    ensures { IfOk result (λ text. string_bytes text ≡ decimal number) }
{
    format!(in alloc; "{number}")
}

/// A value's name, and how far past its beginning.
pub fn place_words(alloc: Global, name: &str, behind: u64) -> Result<String, AllocError>
    ensures { IfOk result (λ text. string_bytes text ≡ place_words name.now behind) }
{
    let behind = number_text(alloc, behind)?;
    let words = format!(in alloc; " {name}+{behind}")?;
    Ok(words)
}

/// An address in a variable.
fn variable_words(alloc: Global, variable: &Variable, address: u64) -> Result<String, AllocError>
    ensures { IfOk result (λ text. string_bytes text
        ≡ variable_words (variable_of variable.now) address) }
{
    let name = variable.name.as_str();
    let name = format!(in alloc; "var {name}")?;
    place_words(
        alloc,
        name.as_str(),
        address.saturating_sub(variable.address()),
    )
}

/// The array's name, which value it is, and how far past its beginning.
fn named_words(
    alloc: Global,
    name: &str,
    place: ArrayPlace,
    past: u64,
) -> Result<String, AllocError>
    ensures { IfOk result (λ text. string_bytes text ≡ place_words (name.now ++ (codes "["
        ++ (place_text place.per_cpu place.index place.cpu ++ codes "]"))) past) }
{
    let place = format!(in alloc; "{place}")?;
    let name = bracketed(alloc, name, place.as_str())?;
    place_words(alloc, name.as_str(), past)
}

/// An offset from the first byte of an array's values on.
fn element_words(
    alloc: Global,
    cpus: u8,
    name: &str,
    array: &ArrayShape,
    offset: u64,
) -> Result<String, AllocError>
    requires few { cpus ≤ 16 }
    requires shape { IsArrayShape cpus array.now }
    ensures { IfOk result (λ text. string_bytes text
        ≡ element_words cpus name.now array.now offset) }
{
    let copy = offset / array.copy_stride();
    let within = offset % array.copy_stride();
    let index = within / array.stride();
    let past = within % array.stride();
    if copy >= array.copies(cpus) || index >= array.max || past >= array.value {
        return Ok(String::new(alloc));
    }
    let place = ArrayPlace {
        index,
        cpu: copy as u8,
        per_cpu: array.per_cpu,
    };
    named_words(alloc, name, place, past)
}

/// The sizes of an array by its number.
fn array_at(shape: &StoreShape, number: usize) -> Option<ArrayShape>
    ensures found { result ≡ slice_get shape.now.arrays number }
    ensures in_range { IsShape shape.now }
{
    shape.arrays().get(number).copied()
}

/// An offset in the area of an array by its number.
fn array_words(
    alloc: Global,
    shape: &StoreShape,
    names: &Names,
    array: usize,
    offset: u64,
) -> Result<String, AllocError>
    ensures { IfOk result (λ text. string_bytes text ≡ array_words (names_of names.now) shape.now
        array offset (slice_get shape.now.arrays array)) }
{
    let Some(sizes) = array_at(shape, array) else {
        return Ok(String::new(alloc));
    };
    let name = name_at(&names.maps, shape.maps().len() + array);
    element_words(alloc, shape.cpus(), name, &sizes, offset)
}

/// An address past those of maps' values.
pub fn fixed_words(
    alloc: Global,
    shape: &StoreShape,
    names: &Names,
    address: u64,
) -> Result<String, AllocError>
    ensures { IfOk result (λ text. string_bytes text ≡ fixed_words (names_of names.now) shape.now
        address (variable_at address (names_of names.now).variables)) }
{
    if let Some(variable) = names.at(address) {
        return variable_words(alloc, variable, address);
    }
    let above = address.saturating_sub(FIRST_FIXED);
    array_words(
        alloc,
        shape,
        names,
        (above / MAP_AREA) as usize,
        above % MAP_AREA,
    )
}

/// A frame, and how far before its end.
fn below_words(alloc: Global, frame: u64, below: u64) -> Result<String, AllocError>
    ensures { IfOk result (λ text. string_bytes text ≡ below_words frame below) }
{
    let below = number_text(alloc, below)?;
    let words = format!(in alloc; " frame {frame} - {below}")?;
    Ok(words)
}

/// An address in a frame, by how far it is after its beginning.
fn frame_words(alloc: Global, frame: u64, at: u64) -> Result<String, AllocError>
    ensures { IfOk result (λ text. string_bytes text ≡ frame_words frame at) }
{
    if frame >= MAX_FRAMES as u64 {
        return Ok(String::new(alloc));
    }
    if at > FRAME_BYTES as u64 {
        return Ok(String::new(alloc));
    }
    below_words(alloc, frame, FRAME_BYTES as u64 - at)
}

/// An address in the context: how far past its beginning.
fn context_words(alloc: Global, at: u64) -> Result<String, AllocError>
    ensures { IfOk result (λ text. string_bytes text ≡ context_words at) }
{
    if at <= MAX_CONTEXT as u64 {
        format!(in alloc; " context + {at}")
    } else {
        Ok(String::new(alloc))
    }
}

/// An address in the packet: how far past its beginning.
fn packet_words(alloc: Global, at: u64) -> Result<String, AllocError>
    ensures { IfOk result (λ text. string_bytes text ≡ packet_words at) }
{
    if at <= MAX_PACKET as u64 {
        format!(in alloc; " packet + {at}")
    } else {
        Ok(String::new(alloc))
    }
}

/// An address in the context or in the packet.
fn given_words(alloc: Global, address: u64) -> Result<String, AllocError>
    ensures { IfOk result (λ text. string_bytes text ≡ given_words address) }
{
    if address >= CONTEXT_BASE {
        context_words(alloc, address - CONTEXT_BASE)
    } else if address >= PACKET_BASE {
        packet_words(alloc, address - PACKET_BASE)
    } else {
        Ok(String::new(alloc))
    }
}

/// An address in a frame, in the context or in the packet.
pub fn own_words(alloc: Global, address: u64) -> Result<String, AllocError>
    ensures { IfOk result (λ text. string_bytes text ≡ own_words address) }
{
    if address >= STACK_BASE {
        let above = address - STACK_BASE;
        frame_words(alloc, above / FRAME_STRIDE, above % FRAME_STRIDE)
    } else {
        given_words(alloc, address)
    }
}
