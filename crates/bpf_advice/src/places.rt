//! The lines of a text from which instructions come.

use crate::excerpt::{fields, line_of, line_of_job_program};
use crate::finding::Finding;
use crate::symbols::symbols_of;
use bpf_text::line_size;
use std::alloc::Global;

/// The line of assembly from which the instruction at a pc comes, where this many lines are before
/// the assembly. In a run file it ends at `end`.
pub fn line_at(alloc: Global, text: &str, before: usize, pc: usize) -> Option<usize> {
    let symbols = symbols_of(alloc, text);
    let mut number = before;
    let mut at: usize = 0;
    for line in text.split('\n').skip(before) {
        number = number.saturating_add(1);
        if before > 0 && is_end(line) {
            return None;
        }
        let size = line_size(alloc, symbols.as_ref(), line.as_bytes()).ok()?;
        if size > 0 && at == pc {
            return Some(number);
        }
        at = at.saturating_add(size);
    }
    None
}

/// Whether a line ends a program of a run file.
pub fn is_end(line: &str) -> bool {
    let mut words = fields(line);
    words.next() == Some("end") && words.next().is_none()
}

/// Whether a line of a run file begins a program whose assembly follows.
pub fn begins_program(line: &str) -> bool {
    let mut words = fields(line);
    words.next() == Some("prog") && words.next().is_some() && words.next().is_none()
}

/// How many lines are before the assembly of which a finding in a run file is; none where the
/// program has words.
fn lines_before(file: &str, finding: &Finding) -> Option<usize> {
    let number = match (finding.line, finding.job) {
        (Some(number), _) => number,
        (None, Some(job)) => line_of_job_program(file, job)?,
        _ => return None,
    };
    if begins_program(line_of(file, number)?) {
        Some(number)
    } else {
        None
    }
}

/// The line of a run file from which the instruction of a finding comes.
pub fn line_in_file(alloc: Global, file: &str, finding: &Finding) -> Option<usize> {
    line_at(alloc, file, lines_before(file, finding)?, finding.pc?)
}

/// The last line of nothing but a comment before a line, where only instructions are between them:
/// text from C that the instruction may come of.
pub fn comment_before(text: &str, number: usize) -> Option<usize> {
    let mut found: Option<usize> = None;
    let mut at: usize = 0;
    for line in text.split('\n') {
        at = at.saturating_add(1);
        if at >= number {
            return found;
        }
        let is_bare = fields(line).next().is_none();
        if is_bare && line.contains(';') {
            found = Some(at);
        } else if is_bare || begins_program(line) {
            found = None;
        }
    }
    None
}
