//! The words in which a fault is explained.

use crate::area::{INDENT, Region, is_reached, push_areas, region_of};
use crate::arrays::{ArrayValue, array_of, value_at};
use crate::evidence::{Evidence, Seen};
use crate::named::{Given, Maps};
use crate::operand::{Access, access_of, register};
use bpf_cpu::Fault;
use bpf_helpers::calls::MAPS;
use bpf_insn::{Insn, Reg};
use bpf_shared::{ArrayShape, FIRST_ARRAY, Span};
use std::alloc::{AllocError, Global};

/// The held value that begins last before an address, unless the address is another value's.
fn value_before(seen: &Seen, address: u64) -> Option<Span> {
    let mut found: Option<Span> = None;
    for span in &seen.held {
        let is_near = address >= span.at && address - span.at < span.size.saturating_mul(2);
        if is_near && found.is_none_or(|other| span.at > other.at) {
            found = Some(*span);
        }
    }
    found
}

/// How far past the end of a held value the bytes end, where that is what is wrong with them.
fn push_past(text: &mut String, span: Span, map: &str, end: u64) -> Result<(), AllocError> {
    let past = end.saturating_sub(span.at.saturating_add(span.size));
    text.push_str("  hint: the access ends ")?;
    push_count(text, past)?;
    write!(
        text,
        " past the end of the value of {map} at 0x{:x}, which has ",
        span.at
    )?;
    push_count(text, span.size)?;
    text.push_str("\n")
}

/// What may be meant by a register that is 0 where an address has to be.
fn push_zero(text: &mut String, number: u8) -> Result<(), AllocError> {
    write!(
        text,
        "  hint: r{number} is 0: so are registers at first, and the answer of a lookup that finds no key"
    )?;
    if matches!(number, 1 | 2 | 3 | 4 | 5) {
        text.push_str(
            "; a helper's call sets r1 to r5 to 0, and what is needed afterwards is kept in r6 to r9",
        )?;
    }
    text.push('\n')
}

/// How far past the end of a value of an array the bytes end, where that is what is wrong with them.
fn push_after(
    text: &mut String,
    value: ArrayValue,
    array: ArrayShape,
    name: &str,
    end: u64,
) -> Result<(), AllocError> {
    let after = end.saturating_sub(value.at.saturating_add(array.value));
    text.push_str("  hint: the access ends ")?;
    push_count(text, after)?;
    write!(
        text,
        " after value {} of {name} at 0x{:x}, which has {}\n",
        value.place, value.at, array.value
    )
}

/// What may be meant by bytes in an array's area that aren't those of a value.
fn push_outside(
    text: &mut String,
    maps: &Maps<'_>,
    number: usize,
    address: u64,
    length: u64,
) -> Result<(), AllocError> {
    let shape = maps.store.store_shape();
    let Some(array) = array_of(shape, number) else {
        return Ok(());
    };
    let name = maps.array_name(number);
    if let Some(value) = value_at(shape, number, address) {
        return push_after(text, value, array, name, address.saturating_add(length));
    }
    write!(
        text,
        "  hint: the access begins after the last value of {name}, which has {} of ",
        array.max
    )?;
    push_count(text, array.value)?;
    text.push_str(if array.per_cpu {
        " for each CPU\n"
    } else {
        "\n"
    })
}

/// What may be meant by bytes that can't be reached.
fn push_hint(
    text: &mut String,
    seen: &Seen,
    maps: &Maps<'_>,
    base: Reg,
    address: u64,
    length: u64,
) -> Result<(), AllocError> {
    if register(seen, base) == 0 {
        return push_zero(text, base.number());
    }
    if let Region::Values(map) = region_of(address)
        && let Some(span) = value_before(seen, address)
    {
        return push_past(text, span, maps.name(map), address.saturating_add(length));
    }
    match region_of(address) {
        Region::Values(map) if map < maps.map_count() => write!(
            text,
            "  hint: values of {} lie there, but a run reaches those only that its own lookups found\n",
            maps.name(map)
        ),
        Region::Array(number) => push_outside(text, maps, number, address, length),
        Region::Context if seen.context == 0 => {
            write!(
                text,
                "  hint: the context lies there, but the job has none\n"
            )
        }
        Region::Context => {
            text.push_str("  hint: the context lies there, but it has ")?;
            push_count(text, seen.context as u64)?;
            text.push_str("\n")
        }
        Region::Packet if seen.packet == 0 => {
            write!(text, "  hint: a packet lies there, but the job has none\n")
        }
        Region::Packet => {
            text.push_str("  hint: the packet lies there, but it has ")?;
            push_count(text, seen.packet as u64)?;
            text.push_str("\n")
        }
        _ => Ok(()),
    }
}

/// A register's value with an offset, as in `r10 - 8`.
fn push_place(text: &mut String, access: &Access) -> Result<(), AllocError> {
    let base = access.base.number();
    let offset = access.offset;
    if offset < 0 {
        write!(text, "r{base} - {}", offset.unsigned_abs())
    } else {
        write!(text, "r{base} + {offset}")
    }
}

/// "1 byte", "2 bytes" and so on.
fn push_count(text: &mut String, length: u64) -> Result<(), AllocError> {
    match length {
        1 => text.push_str("1 byte"),
        _ => write!(text, "{length} bytes"),
    }
}

/// The bytes that an instruction loads or stores itself.
fn push_bytes(text: &mut String, seen: &Seen, access: &Access) -> Result<(), AllocError> {
    let address = access.address(seen);
    text.push_str("  at fault: ")?;
    push_count(text, access.length)?;
    write!(text, " at 0x{address:x} (")?;
    push_place(text, access)?;
    text.push(')')
}

/// The bytes that an instruction can't reach itself.
fn push_access(
    text: &mut String,
    seen: &Seen,
    maps: &Maps<'_>,
    access: Access,
) -> Result<(), AllocError> {
    let address = access.address(seen);
    push_bytes(text, seen, &access)?;
    text.push('\n')?;
    push_areas(text, seen, maps)?;
    push_hint(text, seen, maps, access.base, address, access.length)
}

/// An argument of a helper that points to bytes.
#[derive(Clone, Copy)]
struct Argument<'a> {
    /// What the bytes are, a key or a value.
    what: &'a str,
    /// The register that has their address.
    base: Reg,
    /// How many they are.
    length: u64,
}

/// The key or the value that a helper can't reach, of the map or array of this name.
fn push_argument(
    text: &mut String,
    seen: &Seen,
    maps: &Maps<'_>,
    name: &str,
    argument: Argument,
) -> Result<(), AllocError> {
    let Argument { what, base, length } = argument;
    let address = register(seen, base);
    write!(text, "  at fault: the {what} for {name}, ")?;
    push_count(text, length)?;
    write!(text, " at 0x{address:x} (r{})\n", base.number())?;
    push_areas(text, seen, maps)?;
    push_hint(text, seen, maps, base, address, length)
}

/// Which argument of a helper can't be reached: the key is tried before the value.
fn push_helper(text: &mut String, seen: &Seen, maps: &Maps<'_>) -> Result<(), AllocError> {
    let Some(given) = maps.given(register(seen, Reg::R1)) else {
        return Ok(());
    };
    let Given { name, key, value } = given;
    let argument = if is_reached(seen, maps.store, register(seen, Reg::R2), key) {
        Argument {
            what: "value",
            base: Reg::R3,
            length: value,
        }
    } else {
        Argument {
            what: "key",
            base: Reg::R2,
            length: key,
        }
    };
    push_argument(text, seen, maps, name, argument)
}

/// F1.
fn push_unreached(
    text: &mut String,
    seen: &Seen,
    maps: &Maps<'_>,
    insn: Insn,
) -> Result<(), AllocError> {
    match access_of(insn) {
        Some(access) => push_access(text, seen, maps, access),
        None => push_helper(text, seen, maps),
    }
}

/// The key of an array that lies in values, where a helper loads it at once.
fn push_odd_key(text: &mut String, seen: &Seen, maps: &Maps<'_>) -> Result<(), AllocError> {
    let Some(given) = maps.given(register(seen, Reg::R1)) else {
        return Ok(());
    };
    let at = register(seen, Reg::R2);
    write!(
        text,
        "  at fault: the key for {} at 0x{at:x} (r2), which isn't a multiple of {}\n",
        given.name, given.key
    )
}

/// F2.
fn push_misaligned(
    text: &mut String,
    seen: &Seen,
    maps: &Maps<'_>,
    insn: Insn,
) -> Result<(), AllocError> {
    let Some(access) = access_of(insn) else {
        return push_odd_key(text, seen, maps);
    };
    write!(text, "  at fault: 0x{:x} (", access.address(seen))?;
    push_place(text, &access)?;
    write!(text, "), which isn't a multiple of {}\n", access.length)
}

/// F3.
fn push_depth(text: &mut String, seen: &Seen) -> Result<(), AllocError> {
    write!(
        text,
        "  at fault: the call, since {} of 8 frames are in use\n",
        seen.frames
    )
}

/// Appends the line of a map or an array to the text, of the number that a program names it by.
fn push_named(text: &mut String, head: &str, number: u64, name: &str) -> Result<(), AllocError> {
    let value = MAPS.wrapping_add(number);
    write!(text, "{head}map {number} at 0x{value:x}, {name}\n")
}

/// F4.
fn push_no_map(text: &mut String, seen: &Seen, maps: &Maps<'_>) -> Result<(), AllocError> {
    let found = register(seen, Reg::R1);
    write!(text, "  at fault: r1, which holds 0x{found:x}\n")?;
    let mut head = "  reachable: ";
    for map in 0..maps.map_count() {
        push_named(text, head, map as u64, maps.name(map))?;
        head = INDENT;
    }
    for array in 0..maps.array_count() {
        let number = FIRST_ARRAY.wrapping_add(array as u64);
        push_named(text, head, number, maps.array_name(array))?;
        head = INDENT;
    }
    if head != INDENT {
        write!(text, "{head}no map\n")?;
    }
    Ok(())
}

/// F5.
fn push_too_many(text: &mut String, seen: &Seen, maps: &Maps<'_>) -> Result<(), AllocError> {
    let count = seen.held.len();
    if let Some(given) = maps.given(register(seen, Reg::R1)) {
        write!(
            text,
            "  at fault: the value that is found in {}, since {count} others are held\n",
            given.name
        )?;
    }
    push_areas(text, seen, maps)
}

/// F7.
fn push_read_only(
    text: &mut String,
    seen: &Seen,
    maps: &Maps<'_>,
    insn: Insn,
) -> Result<(), AllocError> {
    let Some(access) = access_of(insn) else {
        return Ok(());
    };
    let address = access.address(seen);
    push_bytes(text, seen, &access)?;
    if let Region::Array(number) = region_of(address)
        && let Some(value) = value_at(maps.store.store_shape(), number, address)
    {
        let name = maps.array_name(number);
        write!(
            text,
            ", in value {} of {name}, which may only be read",
            value.place
        )?;
    }
    text.push('\n')
}

/// What there is to say of a fault of this instruction: the address or the register that is at
/// fault, and what could be reached.
pub fn describe(
    alloc: Global,
    evidence: &Evidence,
    insn: Insn,
    maps: &Maps<'_>,
) -> Result<String, AllocError> {
    let mut text = String::new(alloc);
    let seen = &evidence.seen;
    match evidence.fault {
        Fault::BadAddress => push_unreached(&mut text, seen, maps, insn)?,
        Fault::Misaligned => push_misaligned(&mut text, seen, maps, insn)?,
        Fault::CallDepth => push_depth(&mut text, seen)?,
        Fault::NotAMap => push_no_map(&mut text, seen, maps)?,
        Fault::TooManyHeld => push_too_many(&mut text, seen, maps)?,
        Fault::Worn => text.push_str("  at fault: the CPU's counter of runs\n")?,
        Fault::ReadOnly => push_read_only(&mut text, seen, maps, insn)?,
    }
    Ok(text)
}
