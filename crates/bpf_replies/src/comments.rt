//! What the comments of a run file expect of its outcomes.

ghost use Rattle.std.specs.Prelude.{◌≡◌, IfErr, IfOk, map};
ghost use Rattle.bpf_cpu.specs.Task.{waiting};
ghost use Rattle.bpf_file.specs.File.{file_of};
ghost use Rattle.bpf_replies.specs.Comments.{AreLeftIn, AreLinesIn, IsExpectedIn, RefusesComments, cpus_of, subjects_of};

use crate::refusal::Refusal;
use crate::running::file_in;
use bpf_check::{
    Expectation, Questions, Subjects, Unexpected, expectation_lines, expectations,
    expectations_left,
};
use bpf_cpu::{Job, Setup};
use bpf_file::RunFile;
use std::alloc::{AllocError, Global};

/// How comments are read.
#[derive(Clone, Copy)]
pub struct Reading {
    /// Whether lists of keys are among the lines of outcomes.
    pub lists: bool,
    /// Whether it may be asked if schedules can end.
    pub ends: bool,
    /// Whether they are read for CPUs with store buffers.
    pub x86: bool,
    /// Whether comments that are meant to expect something and can't are passed over.
    pub lenient: bool,
}

/// The CPU of each job.
#[tactic(auto, using(crate::proofs::Subjects::cpus_waiting))]
fn cpus_of(alloc: Global, jobs: &[Job]) -> Result<Vec<u8>, AllocError>
    ensures { IfOk result (λ cpus. cpus.items ≡ cpus_of (map waiting jobs.now)) }
{
    jobs.iter().map(|job| job.cpu).collect(alloc)
}

/// What the lines of a file's outcomes speak of.
fn subjects_of(alloc: Global, reading: Reading, file: RunFile) -> Result<Subjects, AllocError>
    ensures { IfOk result (λ s. s ≡ subjects_of reading (file_of file)) }
{
    let jobs = cpus_of(alloc, &file.setup.jobs)?;
    let RunFile { setup, names, .. } = file;
    let Setup { shape, .. } = setup;
    let Reading {
        lists,
        ends,
        x86,
        ..
    } = reading;
    let questions = Questions { lists, ends, x86 };
    Ok(Subjects::new(jobs, names, shape, questions))
}

/// What is tested of what the comments of a run file expect, or why nothing is.
pub(crate) fn expected_in(
    alloc: Global,
    reading: Reading,
    text: &str,
) -> Result<Vec<Expectation>, Refusal>
    ensures found { IfOk result (λ found. IsExpectedIn reading text.now found.items) }
    ensures refused { IfErr result (RefusesComments reading text.now) }
{
    let file = file_in(alloc, text)?;
    let subjects = subjects_of(alloc, reading, file)?;
    match expectations(alloc, &subjects, reading.lenient, text.as_bytes()) {
        Ok(found) => Ok(found),
        Err(Unexpected::At(number)) => Err(Refusal::Comment(number + 1)),
        Err(Unexpected::OutOfMemory) => Err(Refusal::OutOfMemory),
    }
}

/// How many expectations of a run file are no tests.
pub(crate) fn left_in(alloc: Global, reading: Reading, text: &str) -> Result<usize, Refusal>
    ensures found { IfOk result (λ count. AreLeftIn reading text.now count) }
    ensures refused { IfErr result (RefusesComments reading text.now) }
{
    let file = file_in(alloc, text)?;
    let subjects = subjects_of(alloc, reading, file)?;
    match expectations_left(alloc, &subjects, text.as_bytes()) {
        Ok(count) => Ok(count),
        Err(_) => Err(Refusal::OutOfMemory),
    }
}

/// The numbers of the lines of a run file whose expectations are tested, where these are wanted; else none.
pub(crate) fn lines_in(
    alloc: Global,
    reading: Reading,
    wanted: bool,
    text: &str,
) -> Result<Vec<usize>, Refusal>
    ensures found { IfOk result (λ found. AreLinesIn reading wanted text.now found.items) }
    ensures refused { IfErr result (RefusesComments reading text.now) }
{
    if !wanted {
        return Ok(Vec::new(alloc));
    }
    let file = file_in(alloc, text)?;
    let subjects = subjects_of(alloc, reading, file)?;
    match expectation_lines(alloc, &subjects, text.as_bytes()) {
        Ok(found) => Ok(found),
        Err(_) => Err(Refusal::OutOfMemory),
    }
}
