//! The line that a call of `bpf_trace_printk` would print.

use crate::conversion::{Conversion, Kind, Next};
use crate::memory::{Memory, Text};
use std::alloc::{AllocError, Global};

/// The kernel reads no longer strings.
const LONGEST: usize = 512;

/// Why a call prints nothing.
#[derive(Clone, Copy, PartialEq, Eq, Debug)]
pub(crate) enum Refused {
    Unreadable,
    Unended,
    /// A byte that is no printable one of ASCII, or a conversion.
    Unknown,
    /// More conversions than there are registers for.
    TooMany,
}

impl Refused {
    pub(crate) fn why(self) -> &'static str {
        match self {
            Refused::Unreadable => "the program may not read the bytes of its format",
            Refused::Unended => "its format has no 0 within the size in r2",
            Refused::Unknown => "its format has a byte or a conversion that isn't taken",
            Refused::TooMany => "its format has more than three conversions",
        }
    }
}

/// Whether the kernel takes the byte in a format.
fn is_taken(byte: u8) -> bool {
    matches!(byte, 9..=13 | 32..=126)
}

/// Appends a byte as it is shown: a blank or a printable one as itself.
fn push_byte(text: &mut String, byte: u8) -> Result<(), AllocError> {
    match byte {
        b'\n' => text.push_str("\\n"),
        b'\t' => text.push_str("\\t"),
        32..=126 => text.push(char::from(byte)),
        _ => write!(text, "\\x{byte:x}"),
    }
}

/// What is shown of a string at an address.
fn string_at(alloc: Global, memory: Memory<'_>, address: u64) -> Result<String, AllocError> {
    let mut shown = String::new(alloc);
    if let Text::Bytes(bytes) = memory.text(alloc, address, LONGEST)? {
        for byte in &bytes {
            push_byte(&mut shown, *byte)?;
        }
    }
    Ok(shown)
}

/// Appends what a conversion prints of a register.
fn push_converted(
    alloc: Global,
    text: &mut String,
    memory: Memory<'_>,
    (conversion, kind): (Conversion, Kind),
    value: u64,
) -> Result<(), AllocError> {
    match kind {
        Kind::Signed => {
            let (sign, size) = conversion.signed(value);
            let digits = format!(in alloc; "{size}")?;
            conversion.push_digits(text, sign, digits.as_str())
        }
        Kind::Unsigned => {
            let size = conversion.unsigned(value);
            let digits = format!(in alloc; "{size}")?;
            conversion.push_digits(text, "", digits.as_str())
        }
        Kind::Hex => {
            let size = conversion.unsigned(value);
            let digits = format!(in alloc; "{size:x}")?;
            conversion.push_digits(text, "", digits.as_str())
        }
        Kind::Upper => {
            let size = conversion.unsigned(value);
            let digits = format!(in alloc; "{size:X}")?;
            conversion.push_digits(text, "", digits.as_str())
        }
        Kind::Byte => {
            let mut shown = String::new(alloc);
            push_byte(&mut shown, (value & 0xff) as u8)?;
            conversion.push_text(text, shown.as_str())
        }
        Kind::Text => {
            let shown = string_at(alloc, memory, value)?;
            conversion.push_text(text, shown.as_str())
        }
    }
}

/// What is read of a format.
#[derive(Clone, Copy)]
enum Place {
    Text,
    Within(Conversion),
}

/// The text that a format and registers print, as Linux reads a format: up to three conversions,
/// each of `%d %i %u %x %X` with flags, a width, and `l` or `ll`, or of `%c %s`. A line end at its
/// end isn't shown.
fn filled(
    alloc: Global,
    memory: Memory<'_>,
    format: &[u8],
    values: &[u64],
) -> Result<Result<String, Refused>, AllocError> {
    let mut text = String::new(alloc);
    let mut place = Place::Text;
    let mut used: usize = 0;
    for byte in format {
        if !is_taken(*byte) {
            return Ok(Err(Refused::Unknown));
        }
        let Place::Within(conversion) = place else {
            if *byte == b'%' {
                place = Place::Within(Conversion::begun());
            } else {
                push_byte(&mut text, *byte)?;
            }
            continue;
        };
        match conversion.then(*byte) {
            Next::More(more) => place = Place::Within(more),
            Next::Percent => {
                text.push('%')?;
                place = Place::Text;
            }
            Next::Done(kind) => {
                let Some(value) = values.get(used) else {
                    return Ok(Err(Refused::TooMany));
                };
                push_converted(alloc, &mut text, memory, (conversion, kind), *value)?;
                used = used.saturating_add(1);
                place = Place::Text;
            }
            Next::Unknown => return Ok(Err(Refused::Unknown)),
        }
    }
    match place {
        Place::Text => Ok(Ok(text)),
        Place::Within(_) => Ok(Err(Refused::Unknown)),
    }
}

/// A format without the line end at its end.
fn unended(format: &[u8]) -> &[u8] {
    match format.split_last() {
        Some((b'\n', rest)) => rest,
        _ => format,
    }
}

/// What a call prints: its format is at the address in R1 and has at most as many bytes as R2 says,
/// and what it converts is in R3 to R5.
pub(crate) fn printed(
    alloc: Global,
    memory: Memory<'_>,
) -> Result<Result<String, Refused>, AllocError> {
    let [_, at, size, one, two, three, ..] = memory.state.registers;
    let size = (size & 0xffff_ffff) as usize;
    match memory.text(alloc, at, size)? {
        Text::Bytes(format) => filled(alloc, memory, unended(&format), &[one, two, three]),
        Text::Unended => Ok(Err(Refused::Unended)),
        Text::Unreadable => Ok(Err(Refused::Unreadable)),
    }
}
