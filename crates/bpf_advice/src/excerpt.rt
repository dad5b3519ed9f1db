//! The piece of the input that a refusal or a fault is of.

use crate::finding::Finding;
use crate::places::is_end;
use crate::symbols::symbols_of;
use bpf_disassembly::disassemble;
use bpf_insn::{Insn, decode};
use bpf_lines::from_hex;
use bpf_text::{assemble, assemble_with};
use std::alloc::{AllocError, Global};
use std::str::SplitAsciiWhitespace;

/// What the input is.
#[derive(Clone, Copy, PartialEq, Eq, Debug)]
pub enum Language {
    Assembly,
    /// Words as hex digits.
    Words,
    RunFile,
}

/// The line of this number, from 1.
pub fn line_of(text: &str, number: usize) -> Option<&str> {
    let before = number.checked_sub(1)?;
    text.split('\n').nth(before)
}

/// The instruction that begins at this pc.
fn insn_at(insns: &[Insn], pc: usize) -> Option<Insn> {
    let mut at: usize = 0;
    for insn in insns {
        if at == pc {
            return Some(*insn);
        }
        at = at.saturating_add(insn.words() as usize);
    }
    None
}

/// The instructions whose words the digits are.
fn insns_of_words(alloc: Global, digits: &str) -> Option<Vec<Insn>> {
    let bytes = from_hex(alloc, digits).ok()?;
    decode(alloc, &bytes).ok()
}

/// The lines of the program that begins at this line of a run file.
pub fn program_text(alloc: Global, file: &str, line: usize) -> Result<String, AllocError> {
    let mut text = String::new(alloc);
    for line in file.split('\n').skip(line) {
        if is_end(line) {
            return Ok(text);
        }
        text.push_str(line)?;
        text.push('\n')?;
    }
    Ok(text)
}

/// The instructions of the program that begins at this line of a run file.
fn insns_of_program(alloc: Global, file: &str, line: usize) -> Option<Vec<Insn>> {
    let head = line_of(file, line)?;
    match head.split_once(" hex ") {
        Some((_, digits)) => insns_of_words(alloc, digits),
        None => {
            let symbols = symbols_of(alloc, file);
            let text = program_text(alloc, file, line).ok()?;
            assemble_with(alloc, symbols.as_ref(), text.as_str().as_bytes()).ok()
        }
    }
}

/// What is between blanks in a line, to its comment.
pub fn fields(line: &str) -> SplitAsciiWhitespace<'_> {
    line.split(';')
        .next()
        .unwrap_or("")
        .split_ascii_whitespace()
}

/// Where the words of a line begin, in bytes.
pub fn places_of(alloc: Global, line: &str) -> Result<Vec<usize>, AllocError> {
    let mut places = Vec::new(alloc);
    let mut behind_blank = true;
    for (place, byte) in line.as_bytes().iter().enumerate() {
        let is_blank = byte.is_ascii_whitespace();
        if behind_blank && !is_blank {
            places.push(place)?;
        }
        behind_blank = is_blank;
    }
    Ok(places)
}

/// The name of a job's program, the job's number counted from 0.
fn program_of_job(file: &str, job: usize) -> Option<&str> {
    let line = file
        .split('\n')
        .filter(|line| fields(line).next() == Some("job"))
        .nth(job)?;
    fields(line).nth(2)
}

/// The line, from 1, at which the program of this name begins.
fn line_of_program(file: &str, name: &str) -> Option<usize> {
    let mut number: usize = 0;
    for line in file.split('\n') {
        number = number.saturating_add(1);
        let mut words = fields(line);
        if words.next() == Some("prog") && words.next() == Some(name) {
            return Some(number);
        }
    }
    None
}

/// The line at which a job's program begins.
pub fn line_of_job_program(file: &str, job: usize) -> Option<usize> {
    line_of_program(file, program_of_job(file, job)?)
}

/// The instructions of a job's program.
fn insns_of_job(alloc: Global, file: &str, job: usize) -> Option<Vec<Insn>> {
    insns_of_program(alloc, file, line_of_job_program(file, job)?)
}

fn insn_of(alloc: Global, language: Language, input: &str, finding: &Finding) -> Option<Insn> {
    let pc = finding.pc?;
    match (language, finding.line, finding.job) {
        (Language::Assembly, ..) => insn_at(&assemble(alloc, input).ok()?, pc),
        (Language::Words, ..) => insn_at(&insns_of_words(alloc, input)?, pc),
        (Language::RunFile, Some(line), _) => insn_at(&insns_of_program(alloc, input, line)?, pc),
        (Language::RunFile, None, Some(job)) => insn_at(&insns_of_job(alloc, input, job)?, pc),
        _ => None,
    }
}

/// The text of the instruction that a finding is of, with its line end, where the input has it.
pub fn instruction_text(
    alloc: Global,
    language: Language,
    input: &str,
    finding: &Finding,
) -> Option<String> {
    let insn = insn_of(alloc, language, input, finding)?;
    disassemble(alloc, &[insn]).ok()
}
