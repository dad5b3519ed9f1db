//! Lines of the input as they are shown.

use crate::excerpt::line_of;
use crate::hints::unlabelled;
use crate::places::comment_before;
use std::alloc::{AllocError, Global};

/// The line, and below it a caret at this byte, if there is one.
pub fn push_line(
    alloc: Global,
    text: &mut String,
    number: usize,
    line: &str,
    place: Option<usize>,
) -> Result<(), AllocError> {
    let head = format!(in alloc; "  line {number}: ")?;
    write!(text, "{head}{line}\n")?;
    let Some(place) = place else {
        return Ok(());
    };
    for _ in 0..head.len() {
        text.push(' ')?;
    }
    for byte in line.as_bytes().iter().take(place) {
        if *byte == b'\t' {
            text.push('\t')?;
        } else if *byte & 0xc0 != 0x80 {
            text.push(' ')?;
        }
    }
    text.push_str("^\n")
}

/// Where the instruction of a line begins, in bytes.
fn place_of_instruction(line: &str) -> usize {
    let code = line.split(';').next().unwrap_or("");
    let insn = unlabelled(code);
    let blanks = insn
        .as_bytes()
        .iter()
        .take_while(|byte| byte.is_ascii_whitespace())
        .count();
    code.len().saturating_sub(insn.len()).saturating_add(blanks)
}

/// The line of this number with a caret below its instruction, after the line of C from which it
/// comes, where a comment has that.
pub fn push_source(
    alloc: Global,
    text: &mut String,
    input: &str,
    number: usize,
) -> Result<(), AllocError> {
    let Some(line) = line_of(input, number) else {
        return Ok(());
    };
    if let Some(above) = comment_before(input, number)
        && let Some(comment) = line_of(input, above)
    {
        push_line(alloc, text, above, comment, None)?;
    }
    push_line(alloc, text, number, line, Some(place_of_instruction(line)))
}
