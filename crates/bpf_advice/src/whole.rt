//! From which lines of a run file the instructions of all its programs come.

use crate::excerpt::fields;
use crate::places::{begins_program, is_end};
use crate::symbols::symbols_of;
use bpf_text::{Symbols, line_size};
use std::alloc::{AllocError, Global};

/// The programs of a run file, line by line.
#[derive(Drop)]
pub struct Places {
    /// The number of each job's program; beyond all programs where no program has its name.
    pub jobs: Vec<usize>,
    /// Of each program the number of the line from which the instruction at each pc comes.
    pub lines: Vec<Vec<usize>>,
}

/// Adds a line of a program's assembly; answers whether more of its lines have places.
fn add_line(
    alloc: Global,
    lines: &mut Vec<Vec<usize>>,
    symbols: Option<&Symbols<'_>>,
    number: usize,
    line: &str,
) -> Result<bool, AllocError> {
    if is_end(line) {
        return Ok(false);
    }
    let Ok(size) = line_size(alloc, symbols, line.as_bytes()) else {
        return Ok(false);
    };
    if let Some(own) = lines.last_mut() {
        for _ in 0..size {
            own.push(number)?;
        }
    }
    Ok(true)
}

/// The place of a name among those of programs, or the place after the last.
fn place_of(names: &[&str], name: Option<&str>) -> usize {
    match names.iter().position(|known| Some(*known) == name) {
        Some(place) => place,
        None => names.len(),
    }
}

/// From which lines of a run file the instructions of its programs come, and which programs its jobs run.
pub fn places_in(alloc: Global, file: &str) -> Result<Places, AllocError> {
    let symbols = symbols_of(alloc, file);
    let mut names: Vec<&str> = Vec::new(alloc);
    let mut jobs = Vec::new(alloc);
    let mut lines = Vec::new(alloc);
    let mut inside = false;
    let mut number: usize = 0;
    for line in file.split('\n') {
        number = number.saturating_add(1);
        if inside {
            inside = add_line(alloc, &mut lines, symbols.as_ref(), number, line)?;
            continue;
        }
        let mut words = fields(line);
        match words.next() {
            Some("prog") => {
                names.push(words.next().unwrap_or(""))?;
                lines.push(Vec::new(alloc))?;
                inside = begins_program(line);
            }
            Some("job") => jobs.push(place_of(&names, words.nth(1)))?,
            _ => {}
        }
    }
    Ok(Places { jobs, lines })
}
