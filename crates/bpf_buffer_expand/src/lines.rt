//! What is printed of the states that a state leads to, or of an end.

ghost use Rattle.std.specs.Prelude.{◌≡◌, ◌++◌, IfOk, OnOk, length, string_bytes};
ghost use Rattle.bpf_expand.specs.Lines.{no_state_line, report_line, state_line};
ghost use Rattle.bpf_buffer_expand.specs.Lines.{by_text, move_text, successor_line, successor_lines};

use crate::successor::Successor;
use bpf_codes::Code;
use bpf_lines::to_hex;
use std::alloc::{AllocError, Global};

/// What is between the CPU's number and how often the move is made.
fn move_text(is_flush: bool) -> &'static str
    ensures { result.now ≡ move_text is_flush }
{
    if is_flush { "!*" } else { "*" }
}

/// The CPU, its move, and how often it made it.
fn by_text(alloc: Global, successor: &Successor) -> Result<String, AllocError>
    ensures { IfOk result (λ text. string_bytes text ≡ by_text successor.now) }
{
    let cpu = successor.cpu;
    let made = move_text(successor.is_flush);
    let count = u128::from(successor.ahead) + 1;
    format!(in alloc; " by {cpu}{made}{count}\n")
}

/// Appends the line of a state to the text.
fn push_successor(alloc: Global, text: &mut String, successor: &Successor) -> Result<(), AllocError>
    ensures { OnOk result (string_bytes text.new
        ≡ string_bytes text.old ++ successor_line successor.now) }
{
    text.push_str("state ")?;
    let state = to_hex(alloc, &successor.bytes)?;
    text.push_str(state.as_str())?;
    let by = by_text(alloc, successor)?;
    text.push_str(by.as_str())
}

/// The lines of states.
pub(crate) fn successor_lines(alloc: Global, found: &[Successor]) -> Result<String, AllocError>
    ensures { IfOk result (λ text. string_bytes text
        ≡ successor_lines (length found.now) found.now) }
{
    let mut text = String::new(alloc);
    for successor in found {
        push_successor(alloc, &mut text, successor)?;
    }
    Ok(text)
}

/// The line of a state alone.
pub(crate) fn state_line(alloc: Global, bytes: &[u8]) -> Result<String, AllocError>
    ensures { IfOk result (λ text. string_bytes text ≡ state_line bytes.now) }
{
    let mut text = to_hex(alloc, bytes)?;
    text.push_str("\n")?;
    Ok(text)
}

/// The line of what is printed of an end.
pub(crate) fn report_line(alloc: Global, report: &str) -> Result<String, AllocError>
    ensures { IfOk result (λ text. string_bytes text ≡ report_line report.now) }
{
    let mut text = "report ".to_string(alloc)?;
    let digits = to_hex(alloc, report.as_bytes())?;
    text.push_str(digits.as_str())?;
    text.push_str("\n")?;
    Ok(text)
}

/// That the line of this number is no state.
pub(crate) fn no_state_line(alloc: Global, line: u64) -> Result<String, AllocError>
    ensures { IfOk result (λ text. string_bytes text ≡ no_state_line line) }
{
    let code = Code::X1.text();
    format!(in alloc; "refused {code} {line}\n")
}
