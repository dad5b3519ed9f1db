//! What is printed of the states that a state leads to, or of an end.

ghost use Rattle.std.specs.Prelude.{◌≡◌, ◌++◌, IfOk, OnOk, length, string_bytes};
ghost use Rattle.bpf_expand.specs.Lines.{by_text, end_line, no_state_line, report_line, state_line, successor_line, successor_lines};

use crate::successor::Successor;
use bpf_codes::Code;
use bpf_lines::to_hex;
use std::alloc::{AllocError, Global};

/// How many bytes mostly surround a state's digits in its line.
const AROUND: usize = 24;

/// The CPU, and how many turns it made.
fn by_text(alloc: Global, successor: &Successor) -> Result<String, AllocError>
    ensures { IfOk result (λ text. string_bytes text ≡ by_text successor.now) }
{
    let cpu = successor.cpu;
    let turns = u128::from(successor.ahead) + 1;
    format!(in alloc; " by {cpu}*{turns}\n")
}

/// Appends the line of a state to the text.
fn push_successor(alloc: Global, text: &mut String, successor: &Successor) -> Result<(), AllocError>
    ensures { OnOk result (string_bytes text.new
        ≡ string_bytes text.old ++ successor_line successor.now) }
{
    text.push_str("state ")?;
    let state = to_hex(alloc, &successor.bytes)?;
    text.push_str(state.as_str())?;
    let by = by_text(alloc, successor)?;
    text.push_str(by.as_str())
}

/// How many bytes to make room for: two digits for each of the states' bytes, and what is round
/// them.
fn likely_size(found: &[Successor]) -> usize {
    let mut size: usize = 0;
    for successor in found {
        let digits = successor.bytes.len().saturating_mul(2);
        size = size.saturating_add(digits).saturating_add(AROUND);
    }
    size
}

/// The lines of states.
pub(crate) fn successor_lines(alloc: Global, found: &[Successor]) -> Result<String, AllocError>
    ensures { IfOk result (λ text. string_bytes text
        ≡ successor_lines (length found.now) found.now) }
{
    let mut text = String::with_capacity(alloc, likely_size(found))?;
    for successor in found {
        push_successor(alloc, &mut text, successor)?;
    }
    Ok(text)
}

/// The line of a state alone.
pub(crate) fn state_line(alloc: Global, bytes: &[u8]) -> Result<String, AllocError>
    ensures { IfOk result (λ text. string_bytes text ≡ state_line bytes.now) }
{
    let mut text = to_hex(alloc, bytes)?;
    text.push_str("\n")?;
    Ok(text)
}

/// The line of what is printed of an end.
pub(crate) fn report_line(alloc: Global, report: &str) -> Result<String, AllocError>
    ensures { IfOk result (λ text. string_bytes text ≡ report_line report.now) }
{
    let mut text = "report ".to_string(alloc)?;
    let digits = to_hex(alloc, report.as_bytes())?;
    text.push_str(digits.as_str())?;
    text.push_str("\n")?;
    Ok(text)
}

/// The line of the bytes of what is printed of an end, with the number of a state that has it.
pub(crate) fn end_line(alloc: Global, report: &[u8], number: u64) -> Result<String, AllocError>
    ensures { IfOk result (λ text. string_bytes text ≡ end_line report.now number) }
{
    let mut text = "report ".to_string(alloc)?;
    let digits = to_hex(alloc, report)?;
    text.push_str(digits.as_str())?;
    let of = format!(in alloc; " of {number}\n")?;
    text.push_str(of.as_str())?;
    Ok(text)
}

/// That the line of this number is no state.
pub(crate) fn no_state_line(alloc: Global, line: u64) -> Result<String, AllocError>
    ensures { IfOk result (λ text. string_bytes text ≡ no_state_line line) }
{
    let code = Code::X1.text();
    format!(in alloc; "refused {code} {line}\n")
}
