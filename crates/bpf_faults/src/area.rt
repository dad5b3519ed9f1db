//! The areas of memory that a program reaches.

ghost use Rattle.bpf_faults.specs.Access.{IsInRegion};

use crate::arrays::{array_of, ends_of};
use crate::evidence::Seen;
use crate::named::Maps;
use bpf_helpers::array_with;
use bpf_mem::addresses::{CONTEXT_BASE, FRAME_STRIDE, PACKET_BASE, STACK_BASE};
use bpf_mem::context::MAX_CONTEXT;
use bpf_mem::frames::FRAME_BYTES;
use bpf_mem::packet::MAX_PACKET;
use bpf_plain::PlainStore;
use bpf_shared::{ArrayShape, FIRST_ARRAY, FIRST_VALUE, MAP_AREA};
use std::alloc::AllocError;

/// How many held values are named.
const NAMED_VALUES: usize = 8;

/// Before each line of a list but the first.
pub(crate) const INDENT: &str = "             ";

/// What an address is for.
#[derive(Clone, Copy, PartialEq, Eq, Debug)]
pub enum Region {
    Context,
    Packet,
    /// Values of the map of this number.
    Values(usize),
    /// Values of the array of this number.
    Array(usize),
    Other,
}

/// What an address is for.
pub fn region_of(address: u64) -> Region
    ensures { IsInRegion address result }
{
    if address >= FIRST_VALUE {
        let area = (address - FIRST_VALUE) / MAP_AREA;
        if area < FIRST_ARRAY {
            Region::Values(area as usize)
        } else {
            Region::Array((area - FIRST_ARRAY) as usize)
        }
    } else if address >= CONTEXT_BASE && address - CONTEXT_BASE < MAX_CONTEXT as u64 {
        Region::Context
    } else if address >= PACKET_BASE && address - PACKET_BASE < MAX_PACKET as u64 {
        Region::Packet
    } else {
        Region::Other
    }
}

/// Whether some bytes from an address on all lie in an area of this size.
fn covers(first: u64, size: u64, address: u64, length: u64) -> bool {
    address >= first && length <= size && address - first <= size - length
}

/// Whether a frame of the stack has all of some bytes.
fn in_frame(seen: &Seen, address: u64, length: u64) -> bool {
    let mut first = STACK_BASE;
    for _ in 0..seen.frames {
        if covers(first, FRAME_BYTES as u64, address, length) {
            return true;
        }
        first = first.wrapping_add(FRAME_STRIDE);
    }
    false
}

/// Whether a byte lies in a held value.
fn is_held(seen: &Seen, at: u64) -> bool {
    seen.held
        .iter()
        .any(|span| at >= span.at && at - span.at < span.size)
}

/// Whether each of some bytes lies in a held value, or in an array's.
fn in_values(seen: &Seen, store: &PlainStore, address: u64, length: u64) -> bool {
    let mut at = address;
    for _ in 0..length {
        if !is_held(seen, at) && array_with(store, at, 1).is_none() {
            return false;
        }
        at = at.wrapping_add(1);
    }
    true
}

/// Whether some bytes can be read from an address on.
pub fn is_reached(seen: &Seen, store: &PlainStore, address: u64, length: u64) -> bool {
    covers(CONTEXT_BASE, seen.context as u64, address, length)
        || covers(PACKET_BASE, seen.packet as u64, address, length)
        || in_frame(seen, address, length)
        || in_values(seen, store, address, length)
}

/// Appends the line of an area to the text, of which these are the first address and the size.
fn push_area(
    text: &mut String,
    head: &str,
    what: &str,
    first: u64,
    size: u64,
) -> Result<(), AllocError> {
    let last = first.wrapping_add(size).wrapping_sub(1);
    write!(text, "{head}0x{first:x} to 0x{last:x}, {what}\n")
}

/// Appends a line for each area that is reached to the text.
pub fn push_areas(text: &mut String, seen: &Seen, maps: &Maps<'_>) -> Result<(), AllocError> {
    let mut head = "  reachable: ";
    let mut first = STACK_BASE;
    for _ in 0..seen.frames {
        push_area(
            text,
            head,
            "a frame of the stack",
            first,
            FRAME_BYTES as u64,
        )?;
        head = INDENT;
        first = first.wrapping_add(FRAME_STRIDE);
    }
    if seen.context > 0 {
        push_area(text, head, "the context", CONTEXT_BASE, seen.context as u64)?;
        head = INDENT;
    }
    if seen.packet > 0 {
        push_area(text, head, "the packet", PACKET_BASE, seen.packet as u64)?;
        head = INDENT;
    }
    push_values(text, head, seen, maps)?;
    if !seen.held.is_empty() {
        head = INDENT;
    }
    for array in 0..maps.array_count() {
        push_array(text, head, maps, array)?;
        head = INDENT;
    }
    Ok(())
}

/// Appends a line for each of the first held values to the text, and how many more there are.
fn push_values(
    text: &mut String,
    head: &str,
    seen: &Seen,
    maps: &Maps<'_>,
) -> Result<(), AllocError> {
    for span in seen.held.iter().take(NAMED_VALUES) {
        let last = span.at.wrapping_add(span.size).wrapping_sub(1);
        let name = maps.name_at(span.at);
        write!(
            text,
            "{head}0x{:x} to 0x{last:x}, a value of {name}\n",
            span.at
        )?;
    }
    let more = seen.held.len().saturating_sub(NAMED_VALUES);
    if more > 0 {
        write!(text, "{head}and {more} more values\n")?;
    }
    Ok(())
}

/// "1 value of a", "2 values of a for each CPU" and so on.
fn push_number(text: &mut String, array: ArrayShape, name: &str) -> Result<(), AllocError> {
    match array.max {
        1 => write!(text, "1 value of {name}")?,
        number => write!(text, "{number} values of {name}")?,
    }
    if array.per_cpu {
        text.push_str(" for each CPU")?;
    }
    Ok(())
}

/// Appends a line for the values of an array to the text, which are always reached.
fn push_array(
    text: &mut String,
    head: &str,
    maps: &Maps<'_>,
    number: usize,
) -> Result<(), AllocError> {
    let shape = maps.store.store_shape();
    let Some((first, last)) = ends_of(shape, number) else {
        return Ok(());
    };
    let Some(array) = array_of(shape, number) else {
        return Ok(());
    };
    write!(text, "{head}0x{first:x} to 0x{last:x}, ")?;
    push_number(text, array, maps.array_name(number))?;
    if array.frozen {
        text.push_str(", which may only be read")?;
    }
    text.push('\n')
}
