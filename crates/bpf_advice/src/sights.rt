//! The lines of a run file that printed lines name by pcs: those of events, of the debugger and of
//! races. A line of a hung state is shown before them.

use crate::excerpt::{fields, line_of, line_of_job_program};
use crate::places::{begins_program, line_at};
use crate::sources::push_source;
use std::alloc::{AllocError, Global};

/// Shows the line of the program that begins at a line, from which the instruction at a pc comes.
fn push_instruction_line(
    alloc: Global,
    text: &mut String,
    file: &str,
    begins: usize,
    pc: usize,
) -> Result<(), AllocError> {
    if !line_of(file, begins).is_some_and(begins_program) {
        return Ok(());
    }
    match line_at(alloc, file, begins, pc) {
        Some(number) => push_source(alloc, text, file, number),
        None => Ok(()),
    }
}

/// The line at which the program of this number begins.
fn line_of_number(file: &str, number: usize) -> Option<usize> {
    let mut left = number;
    let mut at: usize = 0;
    for line in file.split('\n') {
        at = at.saturating_add(1);
        if fields(line).next() == Some("prog") {
            if left == 0 {
                return Some(at);
            }
            left = left.saturating_sub(1);
        }
    }
    None
}

/// Shows where the instruction of a program at a pc is.
fn push_of_program(
    alloc: Global,
    text: &mut String,
    file: &str,
    program: &str,
    pc: &str,
) -> Result<(), AllocError> {
    let (Ok(program), Ok(pc)) = (program.parse::<usize>(), pc.parse::<usize>()) else {
        return Ok(());
    };
    match line_of_number(file, program) {
        Some(begins) => push_instruction_line(alloc, text, file, begins, pc),
        None => Ok(()),
    }
}

/// Shows where the instruction of a job at a pc is.
fn push_of_job(
    alloc: Global,
    text: &mut String,
    file: &str,
    job: &str,
    pc: &str,
) -> Result<(), AllocError> {
    let (Ok(job), Ok(pc)) = (job.parse::<usize>(), pc.parse::<usize>()) else {
        return Ok(());
    };
    match line_of_job_program(file, job) {
        Some(begins) => push_instruction_line(alloc, text, file, begins, pc),
        None => Ok(()),
    }
}

/// Shows the lines of the run file from which the instructions come that a printed line names.
pub fn push_sights(
    alloc: Global,
    text: &mut String,
    file: &str,
    line: &str,
) -> Result<(), AllocError> {
    let mut words: Vec<&str> = Vec::new(alloc);
    for word in line.split(' ').take(13) {
        words.push(word)?;
    }
    match words.as_slice() {
        ["cpu", _, "job", job, "pc", pc, ..] => {
            write!(text, "{line}\n")?;
            push_of_job(alloc, text, file, job, pc)
        }
        [
            "race",
            "cpu",
            _,
            "prog",
            one,
            "pc",
            one_pc,
            "cpu",
            _,
            "prog",
            other,
            "pc",
            other_pc,
            ..
        ] => {
            write!(text, "{line}\n")?;
            push_of_program(alloc, text, file, one, one_pc)?;
            push_of_program(alloc, text, file, other, other_pc)
        }
        ["hung", "by", ..] | ["#", "hung", "by", ..] => write!(text, "{line}\n"),
        _ => Ok(()),
    }
}
