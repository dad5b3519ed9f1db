//! All that is said beside an answer.

use crate::answers::push_answer;
use crate::caret::{caret, names_nothing};
use crate::claims::hint_of_comment;
use crate::excerpt::{Language, instruction_text, line_of};
use crate::expected::expected;
use crate::finding::{Finding, Told, finding_in};
use crate::hints::{hint_of, hint_of_fault, hint_of_program};
use crate::inputs::{hint_of_file, push_input};
use crate::labels::hint_of_names;
use crate::lost::push_lost;
use crate::places::{line_at, line_in_file};
use crate::sights::push_sights;
use crate::sources::{push_line, push_source};
use crate::symbols::symbols_of;
use crate::warnings::{push_answerless_programs, push_warnings};
use bpf_codes::Code;
use bpf_explain::page_of;
use std::alloc::{AllocError, Global};

/// What is known of a job's fault, or of its last steps, beside the place.
#[derive(Drop)]
pub struct Detail {
    pub job: usize,
    /// Lines, each with its end.
    pub text: String,
}

/// What was read.
#[derive(Clone, Copy)]
pub struct Input<'a> {
    pub language: Language,
    pub bytes: &'a [u8],
    /// The bytes as text, empty where they are none.
    pub text: &'a str,
}

/// What is known of the faults of an answer, and of its jobs that are out of budget.
#[derive(Clone, Copy)]
pub struct Details<'a> {
    pub known: &'a [Detail],
    /// A line for those of which nothing is known, with its end.
    pub otherwise: &'a str,
}

/// The line that a finding is of, and what is said of it.
fn push_found_line(
    alloc: Global,
    text: &mut String,
    input: &str,
    number: usize,
    code: Code,
) -> Result<(), AllocError> {
    let Some(line) = line_of(input, number) else {
        return Ok(());
    };
    if let Some(expected) = expected(alloc, code, input, line)? {
        let place = expected.place.min(line.len());
        push_line(alloc, text, number, line, Some(place))?;
        return write!(text, "  hint: {}\n", expected.text.as_str());
    }
    let symbols = symbols_of(alloc, input);
    let place = caret(alloc, symbols.as_ref(), code, line.as_bytes());
    push_line(alloc, text, number, line, place)?;
    if let Some(hint) = hint_of_names(alloc, code, input, number, place)? {
        return write!(text, "  hint: {}\n", hint.as_str());
    }
    if code == Code::L11 {
        let hint = hint_of_comment(alloc, input, line)?;
        return write!(text, "  hint: {}\n", hint.as_str());
    }
    push_hint(
        text,
        hint_of(code, line, place).or(hint_of_file(code, input, line)),
    )
}

/// A hint, where there is one.
fn push_hint(text: &mut String, hint: Option<&str>) -> Result<(), AllocError> {
    match hint {
        Some(hint) => write!(text, "  hint: {hint}\n"),
        None => Ok(()),
    }
}

/// The line from which the instruction of a finding comes.
fn line_of_instruction(alloc: Global, input: &Input<'_>, finding: &Finding) -> Option<usize> {
    match input.language {
        Language::Assembly => line_at(alloc, input.text, 0, finding.pc?),
        Language::RunFile => line_in_file(alloc, input.text, finding),
        Language::Words => None,
    }
}

/// What the input has at a refusal or a fault, and what may be meant.
fn push_place(
    alloc: Global,
    text: &mut String,
    input: &Input<'_>,
    code: Code,
    finding: &Finding,
) -> Result<(), AllocError> {
    if let Some(number) = line_of_instruction(alloc, input, finding) {
        push_source(alloc, text, input.text, number)
    } else if let Some(number) = finding.line {
        push_found_line(alloc, text, input.text, number, code)
    } else if input.language != Language::RunFile || code == Code::L8 {
        push_input(text, code, input.text, input.bytes)
    } else {
        Ok(())
    }
}

/// The instruction that a finding is of, where the input has it, with its labels as distances.
fn push_instruction(
    alloc: Global,
    text: &mut String,
    input: &Input<'_>,
    finding: &Finding,
) -> Result<(), AllocError> {
    if let Some(pc) = finding.pc
        && let Some(insn) = instruction_text(alloc, input.language, input.text, finding)
    {
        write!(text, "  pc {pc}: {}", insn.as_str())?;
    }
    Ok(())
}

/// Whether a code is that of a fault.
fn is_fault(code: Code) -> bool {
    matches!(
        code,
        Code::F1 | Code::F2 | Code::F3 | Code::F4 | Code::F5 | Code::F6 | Code::F7
    )
}

/// What is known of a job's fault, or of its last steps. The only job of `hex` has no number.
fn known_of<'a>(finding: &Finding, details: &Details<'a>) -> &'a str {
    let job = finding.job.unwrap_or(0);
    match details.known.iter().find(|detail| detail.job == job) {
        Some(detail) => detail.text.as_str(),
        None => details.otherwise,
    }
}

/// What is known of a fault, and what may be meant.
fn push_fault(
    text: &mut String,
    finding: &Finding,
    code: Code,
    details: &Details<'_>,
) -> Result<(), AllocError> {
    let known = known_of(finding, details);
    text.push_str(known)?;
    push_hint(text, hint_of_fault(code, known))
}

/// How bytes are named that races are not looked for at.
const HOW_TO_SYNC: &str =
    "`--sync` takes a map's name, bytes of its values as `NAME+AT:SIZE`, or a variable's name; bytes of an array's first value have a name by a line `var NAME ARRAY AT SIZE`";

/// What A3 means where it is no jump.
const UNKNOWN_NAME: &str = "it loads something by a name that nothing has";

/// What a code means of a finding.
fn meaning_of(alloc: Global, input: &Input<'_>, finding: &Finding, code: Code) -> &'static str {
    if code == Code::A3
        && let Some(number) = finding.line
        && let Some(line) = line_of(input.text, number)
    {
        let symbols = symbols_of(alloc, input.text);
        if names_nothing(alloc, symbols.as_ref(), line.as_bytes()) {
            return UNKNOWN_NAME;
        }
    }
    page_of(code).meaning
}

/// What there is to say of a refusal or a fault.
fn push_coded(
    alloc: Global,
    text: &mut String,
    input: &Input<'_>,
    finding: &Finding,
    code: Code,
    details: &Details<'_>,
) -> Result<(), AllocError> {
    let meaning = meaning_of(alloc, input, finding, code);
    write!(text, "{meaning}\n")?;
    push_place(alloc, text, input, code, finding)?;
    push_instruction(alloc, text, input, finding)?;
    push_hint(text, hint_of_program(code))?;
    if code == Code::G3 && finding.line.is_none() {
        push_hint(text, Some(HOW_TO_SYNC))?;
    }
    if is_fault(code) {
        push_fault(text, finding, code, details)?;
    }
    write!(text, "  see: ebpf explain {}\n", code.text())
}

/// What there is to say of a job that is out of budget.
fn push_out_of_budget(
    alloc: Global,
    text: &mut String,
    input: &Input<'_>,
    finding: &Finding,
    details: &Details<'_>,
) -> Result<(), AllocError> {
    text.push_str("the steps of the budget are made, and this instruction would be the next\n")?;
    if let Some(number) = line_of_instruction(alloc, input, finding) {
        push_source(alloc, text, input.text, number)?;
    }
    push_instruction(alloc, text, input, finding)?;
    text.push_str(known_of(finding, details))
}

/// What there is to say of a printed line that has no code.
fn push_uncoded(
    alloc: Global,
    text: &mut String,
    input: &Input<'_>,
    line: &str,
) -> Result<(), AllocError> {
    push_answer(text, line)?;
    if input.language == Language::RunFile {
        push_sights(alloc, text, input.text, line)?;
    }
    Ok(())
}

/// What there is to say of each refusal and fault in what was printed, and of each job that is out
/// of budget: the line or the instruction, what the code means, and what may be meant; of other
/// lines, the error that an answer is, and the lines of the input from which their instructions
/// come; and warnings of what is likely not meant.
pub fn advise(
    alloc: Global,
    input: &Input<'_>,
    printed: &str,
    details: &Details<'_>,
) -> Result<String, AllocError> {
    let mut text = String::new(alloc);
    for line in printed.split('\n') {
        let Some(finding) = finding_in(line) else {
            push_uncoded(alloc, &mut text, input, line)?;
            continue;
        };
        write!(text, "{line}: ")?;
        match finding.told {
            Told::Coded(code) => push_coded(alloc, &mut text, input, &finding, code, details)?,
            Told::OutOfBudget => push_out_of_budget(alloc, &mut text, input, &finding, details)?,
        }
    }
    if input.language != Language::Words {
        push_warnings(alloc, &mut text, input.text)?;
        if !printed.starts_with("refused") {
            let is_file = input.language == Language::RunFile;
            push_answerless_programs(alloc, &mut text, input.text, is_file)?;
            push_lost(&mut text, input.text, is_file)?;
        }
    }
    Ok(text)
}
