//! Registers that are read after a call, which doesn't keep them.

use crate::excerpt::fields;
use crate::hints::unlabelled;
use crate::places::{begins_program, is_end};
use std::alloc::AllocError;

/// The registers that a call doesn't keep, a bit each by its number: r1 to r5.
const TAKEN: u8 = 0b0011_1110;

/// What the last call on the way to a line took, as far as nothing was put there again.
#[derive(Clone, Copy)]
struct Lost {
    /// The number of the call's line.
    call: usize,
    registers: u8,
}

/// The bit of a register of r1 to r5, also by its lower half.
fn bit_of(word: &str) -> u8 {
    match word {
        "r1" | "w1" => 0b0000_0010,
        "r2" | "w2" => 0b0000_0100,
        "r3" | "w3" => 0b0000_1000,
        "r4" | "w4" => 0b0001_0000,
        "r5" | "w5" => 0b0010_0000,
        _ => 0,
    }
}

/// The registers that a text names.
fn registers_in(text: &str) -> u8 {
    let mut found = 0;
    for word in text.split(|letter: char| !letter.is_ascii_alphanumeric()) {
        found |= bit_of(word);
    }
    found
}

/// The registers that an instruction reads, and those that it puts something into.
fn reads_and_writes(insn: &str) -> (u8, u8) {
    let mut words = insn.split_ascii_whitespace();
    let target = bit_of(words.next().unwrap_or(""));
    if words.next() != Some("=") {
        return (registers_in(insn), target);
    }
    match insn.split_once('=') {
        Some((_, given)) => (registers_in(given), target),
        None => (0, target),
    }
}

/// The first register of r1 to r5 among some.
fn first_of(registers: u8) -> &'static str {
    if registers & 0b0000_0010 != 0 {
        "r1"
    } else if registers & 0b0000_0100 != 0 {
        "r2"
    } else if registers & 0b0000_1000 != 0 {
        "r3"
    } else if registers & 0b0001_0000 != 0 {
        "r4"
    } else {
        "r5"
    }
}

/// Warns of what a line reads and a call before it took; answers what is lost after the line.
fn push_line(text: &mut String, number: usize, insn: &str, lost: Lost) -> Result<Lost, AllocError> {
    let mut after = lost;
    match insn.split_ascii_whitespace().next() {
        Some("call") => {
            after.call = number;
            after.registers = TAKEN;
        }
        Some("goto") | Some("gotol") | Some("exit") => after.registers = 0,
        _ => {
            let (read, written) = reads_and_writes(insn);
            let missed = read & lost.registers;
            if missed != 0 {
                let register = first_of(missed);
                let call = lost.call;
                write!(
                    text,
                    "warning: line {number}: {register} is read after the call at line {call}, which keeps none of r1 to r5: what is needed after it is kept in r6 to r9\n"
                )?;
            }
            after.registers = lost.registers & !(read | written);
        }
    }
    Ok(after)
}

/// Warns of each register that a program reads after a call took it: of the programs of a run file, or
/// of the one that a text is.
pub fn push_lost(text: &mut String, input: &str, is_file: bool) -> Result<(), AllocError> {
    let mut inside = !is_file;
    let mut lost = Lost {
        call: 0,
        registers: 0,
    };
    let mut number: usize = 0;
    for line in input.split('\n') {
        number = number.saturating_add(1);
        if is_file && begins_program(line) {
            inside = true;
            lost.registers = 0;
        } else if is_file && is_end(line) {
            inside = false;
        } else if inside && fields(line).next().is_some() {
            let code = line.split(';').next().unwrap_or("");
            lost = push_line(text, number, unlabelled(code), lost)?;
        }
    }
    Ok(())
}
