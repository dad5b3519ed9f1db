//! The refusals and faults in what is printed, and the budgets that were used up.

use bpf_codes::{Code, code_named};

/// What a printed line says.
#[derive(Clone, Copy)]
pub enum Told {
    /// A refusal or a fault.
    Coded(Code),
    OutOfBudget,
}

/// What a printed line says, and where that is.
#[derive(Clone, Copy)]
pub struct Finding {
    pub told: Told,
    /// The line of the text, from 1.
    pub line: Option<usize>,
    /// The place in words of the instruction, from 0.
    pub pc: Option<usize>,
    /// The job, from 0.
    pub job: Option<usize>,
}

/// What a number after a code counts.
#[derive(Clone, Copy)]
enum Counts {
    Lines,
    Words,
    Other,
}

fn counted_by(code: Code) -> Counts {
    match code {
        Code::A1 | Code::A2 | Code::A3 | Code::A4 | Code::A5 => Counts::Lines,
        Code::E4
        | Code::E5
        | Code::E6
        | Code::E7
        | Code::E8
        | Code::E9
        | Code::E10
        | Code::E11
        | Code::E12
        | Code::E13 => Counts::Words,
        _ => Counts::Other,
    }
}

/// The numbers of a printed line, by the words in front of them.
#[derive(Clone, Copy)]
struct Numbers {
    line: Option<usize>,
    pc: Option<usize>,
    job: Option<usize>,
}

impl Numbers {
    fn note(&mut self, before: &str, number: usize) {
        match before {
            "line" => self.line = Some(number),
            "at" => self.pc = Some(number),
            "job" => self.job = Some(number),
            _ => match code_named(before).map(counted_by) {
                Some(Counts::Lines) => self.line = Some(number),
                Some(Counts::Words) => self.pc = Some(number),
                _ => {}
            },
        }
    }
}

/// What a line with this code says, or none.
fn told_by(line: &str, code: Option<Code>) -> Option<Told> {
    match code {
        Some(code) => Some(Told::Coded(code)),
        None if line.contains("out of budget at ") => Some(Told::OutOfBudget),
        None => None,
    }
}

/// The refusal, the fault or the end of a budget that a printed line reports, if it does. A test
/// that is ok may name one, and reports none.
pub fn finding_in(text: &str) -> Option<Finding> {
    if text.starts_with("ok ") {
        return None;
    }
    let mut numbers = Numbers {
        line: None,
        pc: None,
        job: None,
    };
    let mut code = None;
    let mut tells = false;
    let mut before = "";
    for word in text.split(' ') {
        if word == "refused" || word == "fault" {
            tells = true;
        } else if let Ok(number) = word.parse::<usize>() {
            numbers.note(before, number);
        } else if tells && code.is_none() {
            code = code_named(word);
        }
        before = word;
    }
    let told = told_by(text, code)?;
    let Numbers { line, pc, job } = numbers;
    Some(Finding {
        told,
        line,
        pc,
        job,
    })
}
