//! What a program likely doesn't mean: instructions in comments, a comparison that is always true,
//! an answer that nothing gives.

use crate::excerpt::{fields, program_text};
use crate::places::begins_program;
use crate::symbols::symbols_of;
use bpf_disassembly::disassemble;
use bpf_text::{Symbols, TextError, assemble_with};
use std::alloc::{AllocError, Global};

/// Whether a text is an instruction, perhaps after a label.
fn is_instruction(alloc: Global, symbols: Option<&Symbols<'_>>, text: &str) -> bool {
    match assemble_with(alloc, symbols, text.as_bytes()) {
        Ok(insns) => !insns.is_empty(),
        Err(TextError::UnknownLabel(_)) => true,
        Err(_) => false,
    }
}

/// The instruction in the comment of a line that has one before it too.
fn commented<'a>(alloc: Global, symbols: Option<&Symbols<'_>>, line: &'a str) -> Option<&'a str> {
    let (code, comment) = line.split_once(';')?;
    if !is_instruction(alloc, symbols, code) {
        return None;
    }
    comment
        .split(';')
        .find(|piece| is_instruction(alloc, symbols, piece))
}

/// The result that a line's comparison always has, if it always has one.
fn always(line: &str) -> Option<&'static str> {
    let mut before = "";
    let mut sign = "";
    for word in fields(line) {
        if before == ">=" && sign != "s" && word == "0" {
            return Some("`>=` compares without signs, so `>= 0` is always true: `s>=` has signs");
        }
        if before == "<" && sign != "s" && word == "0" {
            return Some("`<` compares without signs, so `< 0` is never true: `s<` has signs");
        }
        sign = before;
        before = word;
    }
    None
}

/// Warns of an instruction in the comment of a line.
fn push_commented(
    alloc: Global,
    symbols: Option<&Symbols<'_>>,
    text: &mut String,
    number: usize,
    line: &str,
) -> Result<(), AllocError> {
    match commented(alloc, symbols, line) {
        Some(insn) => {
            let insn = insn.trim();
            write!(
                text,
                "warning: line {number}: `{insn}` is in a comment, which `;` begins: an instruction has a line of its own\n"
            )
        }
        None => Ok(()),
    }
}

/// Warnings of instructions in comments, which are given unasked: a program that lacks them runs,
/// and its answer is another one.
pub fn warnings_of(alloc: Global, input: &str) -> Result<String, AllocError> {
    let symbols = symbols_of(alloc, input);
    let mut text = String::new(alloc);
    let mut number: usize = 0;
    for line in input.split('\n') {
        number = number.saturating_add(1);
        push_commented(alloc, symbols.as_ref(), &mut text, number, line)?;
    }
    Ok(text)
}

/// Warns of what a line likely doesn't mean.
fn push_warning(
    alloc: Global,
    symbols: Option<&Symbols<'_>>,
    text: &mut String,
    number: usize,
    line: &str,
) -> Result<(), AllocError> {
    push_commented(alloc, symbols, text, number, line)?;
    match always(line) {
        Some(warning) => write!(text, "warning: line {number}: {warning}\n"),
        None => Ok(()),
    }
}

/// Whether a program writes registers, and none of them is R0: its answer is 0 whatever it does.
fn answers_nothing(alloc: Global, symbols: Option<&Symbols<'_>>, program: &str) -> bool {
    let Ok(insns) = assemble_with(alloc, symbols, program.as_bytes()) else {
        return false;
    };
    let Ok(canonical) = disassemble(alloc, &insns) else {
        return false;
    };
    let mut writes = false;
    for line in canonical.as_str().split('\n') {
        if line.starts_with("r0 ") || line.starts_with("w0 ") || line.starts_with("call ") {
            return false;
        }
        if line.starts_with(|letter: char| letter == 'r' || letter == 'w') {
            writes = true;
        }
    }
    writes
}

/// Warns of a program that gives no answer, of which this is the text.
fn push_answerless(
    alloc: Global,
    symbols: Option<&Symbols<'_>>,
    text: &mut String,
    name: &str,
    program: &str,
) -> Result<(), AllocError> {
    if answers_nothing(alloc, symbols, program) {
        write!(
            text,
            "warning: {name} writes registers, but never r0, which is its answer\n"
        )
    } else {
        Ok(())
    }
}

/// Warns of each program of a run file that gives no answer.
fn push_answerless_of_file(alloc: Global, text: &mut String, file: &str) -> Result<(), AllocError> {
    let symbols = symbols_of(alloc, file);
    let mut number: usize = 0;
    for line in file.split('\n') {
        number = number.saturating_add(1);
        if begins_program(line) {
            let name = fields(line).nth(1).unwrap_or("");
            let program = program_text(alloc, file, number)?;
            push_answerless(alloc, symbols.as_ref(), text, name, program.as_str())?;
        }
    }
    Ok(())
}

/// Warns of what lines likely don't mean.
pub fn push_warnings(alloc: Global, text: &mut String, input: &str) -> Result<(), AllocError> {
    let symbols = symbols_of(alloc, input);
    let mut number: usize = 0;
    for line in input.split('\n') {
        number = number.saturating_add(1);
        push_warning(alloc, symbols.as_ref(), text, number, line)?;
    }
    Ok(())
}

/// Warns of programs that give no answer: those of a run file, or the one that a text is.
pub fn push_answerless_programs(
    alloc: Global,
    text: &mut String,
    input: &str,
    is_file: bool,
) -> Result<(), AllocError> {
    if is_file {
        push_answerless_of_file(alloc, text, input)
    } else {
        push_answerless(alloc, None, text, "the program", input)
    }
}
