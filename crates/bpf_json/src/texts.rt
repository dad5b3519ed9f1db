//! Parts of printed lines, and of JSON: words for what is so or not, texts between quotes, members.

ghost use Rattle.std.specs.Prelude.{◌≡◌, ◌<◌, ◌++◌, IfOk, OnOk, map, string_bytes};
ghost use Rattle.bpf_json.specs.Texts.{all_text, by_text, digits_members, exact_members, is_plain, joined, line_member, member, number_member, quoted, shown_byte, text_member, truth, verdict};

use crate::digits::Digits;
use std::alloc::{AllocError, Global};

pub(crate) fn truth(test: bool) -> &'static str
    ensures { result.now ≡ truth test }
{
    if test { "true" } else { "false" }
}

pub(crate) fn verdict(ok: bool) -> &'static str
    ensures { result.now ≡ verdict ok }
{
    if ok { "ok" } else { "not ok" }
}

pub(crate) fn all_text(all: bool) -> &'static str
    ensures { result.now ≡ all_text all }
{
    if all { "all" } else { "not all" }
}

/// The line of a schedule.
pub(crate) fn by_text(alloc: Global, schedule: &str) -> Result<String, AllocError>
    ensures { IfOk result (λ s. string_bytes s ≡ by_text schedule.now) }
{
    if schedule.is_empty() {
        "by".to_string(alloc)
    } else {
        format!(in alloc; "by {schedule}")
    }
}

/// Whether a byte is in JSON text as it is.
fn is_plain(byte: u8) -> bool
    ensures { result ≡ is_plain byte }
{
    31 < byte && byte < 127 && byte != b'"' && byte != b'\\'
}

/// A byte of a printed line as it is shown between quotes.
fn shown_byte(byte: u8) -> u8
    ensures shown { result ≡ shown_byte byte }
    ensures ascii { result < 128 }
{
    if is_plain(byte) { byte } else { b'?' }
}

/// Appends bytes to the text as they are shown.
fn push_shown(text: &mut String, bytes: &[u8]) -> Result<(), AllocError>
    ensures { OnOk result (string_bytes text.new
        ≡ string_bytes text.old ++ map shown_byte bytes.now) }
{
    for byte in bytes {
        text.push(char::from(shown_byte(*byte)))?;
    }
    Ok(())
}

/// A text between quotes.
pub(crate) fn quoted(alloc: Global, text: &str) -> Result<String, AllocError>
    ensures { IfOk result (λ s. string_bytes s ≡ quoted text.now) }
{
    let mut shown = String::new(alloc);
    push_shown(&mut shown, text.as_bytes())?;
    let shown = shown.as_str();
    let quoted = format!(in alloc; "\"{shown}\"")?;
    Ok(quoted)
}

/// A member that is a text.
pub(crate) fn text_member(alloc: Global, name: &str, text: &str) -> Result<String, AllocError>
    ensures { IfOk result (λ s. string_bytes s ≡ text_member name.now text.now) }
{
    let text = quoted(alloc, text)?;
    format!(in alloc; "\"{name}\":{text}")
}

/// An object of one text.
pub(crate) fn member(alloc: Global, name: &str, text: &str) -> Result<String, AllocError>
    ensures { IfOk result (λ s. string_bytes s ≡ member name.now text.now) }
{
    let only = text_member(alloc, name, text)?;
    format!(in alloc; "{{{only}}}")
}

/// The members for a number of 64 bits: itself, and as a text, since some readers round numbers.
pub(crate) fn exact_members(alloc: Global, name: &str, number: u64) -> Result<String, AllocError>
    ensures { IfOk result (λ s. string_bytes s ≡ exact_members name.now number) }
{
    format!(in alloc; "\"{name}\":{number},\"{name}_text\":\"{number}\"")
}

/// Members, and a comma between them.
#[tactic(auto, unfolding(crate::specs::Texts::joined))]
pub(crate) fn joined(alloc: Global, one: &str, other: &str) -> Result<String, AllocError>
    ensures { IfOk result (λ s. string_bytes s ≡ joined one.now other.now) }
{
    format!(in alloc; "{one},{other}")
}

/// The member for the number of a line, where there is one.
pub(crate) fn line_member(alloc: Global, line: Option<u64>) -> Result<String, AllocError>
    ensures { IfOk result (λ s. string_bytes s ≡ line_member line) }
{
    match line {
        Some(line) => format!(in alloc; ",\"line\":{line}"),
        None => Ok(String::new(alloc)),
    }
}

/// The member for a number, where there is one.
fn number_member(alloc: Global, name: &str, number: Option<u64>) -> Result<String, AllocError>
    ensures { IfOk result (λ s. string_bytes s ≡ number_member name.now number) }
{
    match number {
        Some(number) => format!(in alloc; ",\"{name}_number\":{number}"),
        None => Ok(String::new(alloc)),
    }
}

/// The members for bytes: their digits, and their number where there is one.
pub(crate) fn digits_members(
    alloc: Global,
    name: &str,
    digits: &Digits,
) -> Result<String, AllocError>
    ensures { IfOk result (λ s. string_bytes s ≡ digits_members name.now digits.now) }
{
    let hex = text_member(alloc, name, digits.hex.as_str())?;
    let number = number_member(alloc, name, digits.number)?;
    format!(in alloc; "{hex}{number}")
}
