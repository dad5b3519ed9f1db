//! What a run file expects of its outcomes, in its comments.

ghost use Rattle.std.specs.Prelude.{◌≡◌, ◌≤◌, ◌++◌, false, is_some, IfErr, IfOk, IfSome, None, OnOk, length, map};
ghost use Rattle.bpf_check.specs.Comments.{words_of};
ghost use Rattle.bpf_check.specs.Expectation.{agrees, are_races_asked, asks_ends, asks_hung, asks_of_ends, asks_of_races, asks_of_search, can_ask, claim_of, expectation_lines, expectations_of, expected_by, expected_in, first_amiss, is_amiss, is_claim, is_left, is_near_often, is_of_x86, is_often, is_test, is_whole, left_of, often_in, often_text, seems_often, test_in, whole};
ghost use Rattle.bpf_check.specs.Faults.{speaks_of_faults};
ghost use Rattle.bpf_check.specs.Parts.{line_of};
ghost use Rattle.bpf_check.specs.Unexpected.{IsUnexpected};

use crate::claim::{Join, Part, are_of_faults, is_joined};
use crate::comments::{comment_of, is_near};
use crate::parts::{line_of, line_part, parts_in};
use crate::settings::is_misset;
use crate::subjects::{Subjects, is, word_at};
use bpf_lines::lines::{fields, first_line};
use std::alloc::{AllocError, Global};
use std::marker::Model;

/// How often outcomes are to have a line.
#[derive(Clone, Copy)]
pub enum Often {
    /// In each outcome.
    Always,
    /// In one outcome or more.
    Sometimes,
    /// In no outcome.
    Never,
}

impl Often {
    /// How it is spelled of all CPUs, or of those with store buffers alone.
    pub fn text(self, x86: bool) -> &'static str
        ensures { result.now ≡ often_text x86 self }
    {
        match (x86, self) {
            (false, Often::Always) => "always",
            (false, Often::Sometimes) => "sometimes",
            (false, Often::Never) => "never",
            (true, Often::Always) => "always-x86",
            (true, Often::Sometimes) => "sometimes-x86",
            (true, Often::Never) => "never-x86",
        }
    }

    /// Whether a word spells it.
    fn is(self, x86: bool, word: &[u8]) -> bool
        ensures { result ≡ is_often x86 self word.now }
    {
        self.text(x86).as_bytes() == word
    }

    /// How often a word says, if it says so.
    fn spelled(x86: bool, word: &[u8]) -> Option<Often>
        ensures { result ≡ often_in x86 word.now }
    {
        if Often::Always.is(x86, word) {
            Some(Often::Always)
        } else if Often::Sometimes.is(x86, word) {
            Some(Often::Sometimes)
        } else if Often::Never.is(x86, word) {
            Some(Often::Never)
        } else {
            None
        }
    }
}

/// Whether a word says how often, of CPUs with store buffers alone.
fn is_of_x86(word: &[u8]) -> bool
    ensures { result ≡ is_of_x86 word.now }
{
    Often::spelled(true, word).is_some()
}

/// What is claimed of outcomes, and how often they are to be so.
#[derive(Drop)]
pub struct Expectation {
    often: Often,
    /// Whether it is expected of CPUs with store buffers alone.
    x86: bool,
    /// The claim as it is written.
    line: Vec<u8>,
    join: Join,
    parts: Vec<Part>,
}

impl Model for Expectation {
    ghost use Rattle.bpf_check.specs.Expectation.{Expected};

    ghost Value = { Expected };

    ghost view = { λ e. record {
      often = e.often;
      x86 = e.x86;
      line = e.line.items;
      join = e.join;
      parts = e.parts.items;
    } };
}

impl Expectation {
    /// How often outcomes are to be so.
    pub fn often(&self) -> Often
        ensures { result ≡ self.now.often }
    {
        self.often
    }

    /// Whether it is expected of CPUs with store buffers alone.
    pub fn x86(&self) -> bool
        ensures { result ≡ self.now.x86 }
    {
        self.x86
    }

    /// The claim, with one blank between words.
    pub fn line(&self) -> &[u8]
        ensures { result.now ≡ self.now.line }
    {
        &self.line
    }

    /// Whether an outcome of this text is as it claims.
    pub(crate) fn agrees(&self, text: &[u8]) -> bool
        ensures { result ≡ agrees self.now text.now }
    {
        is_joined(self.join, &self.parts, text)
    }

    /// Whether it speaks of jobs that end in a fault.
    pub(crate) fn speaks_of_faults(&self) -> bool
        ensures { result ≡ speaks_of_faults self.now }
    {
        are_of_faults(&self.parts)
    }
}

/// Whether a line asks if each schedule can end.
pub(crate) fn asks_ends(often: Often, line: &[u8]) -> bool
    ensures { result ≡ asks_ends often line.now }
{
    match often {
        Often::Always => is(line, "ends"),
        Often::Sometimes | Often::Never => false,
    }
}

/// Whether it asks if some schedule can't.
pub(crate) fn asks_hung(often: Often, line: &[u8]) -> bool
    ensures { result ≡ asks_hung often line.now }
{
    match often {
        Often::Sometimes => is(line, "hung"),
        Often::Always | Often::Never => false,
    }
}

/// Whether it asks either.
pub(crate) fn asks_of_ends(often: Often, line: &[u8]) -> bool
    ensures { result ≡ asks_of_ends often line.now }
{
    asks_ends(often, line) || asks_hung(often, line)
}

/// Whether it asks if there is a data race.
pub(crate) fn asks_of_races(often: Often, line: &[u8]) -> bool
    ensures { result ≡ asks_of_races often line.now }
{
    match often {
        Often::Sometimes | Often::Never => is(line, "race"),
        Often::Always => false,
    }
}

/// Whether it asks of a search, and not of outcomes.
pub(crate) fn asks_of_search(often: Often, line: &[u8]) -> bool
    ensures { result ≡ asks_of_search often line.now }
{
    asks_of_ends(often, line) || asks_of_races(often, line)
}

/// Whether words ask of a search what may be asked: of races that of all CPUs alone.
fn can_ask(subjects: &Subjects, x86: bool, often: Often, words: &[&[u8]]) -> bool
    ensures { result ≡ can_ask subjects.now x86 often (map (λ f. f.now) words.now) }
{
    let word = word_at(words, 0);
    words.len() == 1
        && (!x86 && asks_of_races(often, word) || subjects.ends() && asks_of_ends(often, word))
}

/// Whether words are one line, or ask of a search what may be asked.
fn is_whole(subjects: &Subjects, x86: bool, often: Often, words: &[&[u8]]) -> bool
    ensures { result ≡ is_whole subjects.now x86 often (map (λ f. f.now) words.now) }
{
    subjects.can_print_all(words) || can_ask(subjects, x86, often, words)
}

/// The expectation of these words, which are one line.
fn whole(alloc: Global, x86: bool, often: Often, words: &[&[u8]]) -> Result<Expectation, AllocError>
    ensures { IfOk result (λ found.
        found ≡ whole x86 often (line_of (map (λ f. f.now) words.now))) }
{
    let line = line_of(alloc, words)?;
    let mut parts = Vec::new(alloc);
    parts.push(line_part(line.clone()?))?;
    Ok(Expectation {
        often,
        x86,
        line,
        join: Join::All,
        parts,
    })
}

/// The expectation of these words, if they are parts of a claim.
fn claim_of(
    alloc: Global,
    subjects: &Subjects,
    x86: bool,
    often: Often,
    words: &[&[u8]],
) -> Result<Option<Expectation>, AllocError>
    ensures { IfOk result (λ found. found
        ≡ claim_of subjects.now x86 often (map (λ f. f.now) words.now)) }
{
    let join = Join::of(words);
    let Some(parts) = parts_in(alloc, subjects, join.joint(), words)? else {
        return Ok(None);
    };
    let line = line_of(alloc, words)?;
    Ok(Some(Expectation {
        often,
        x86,
        line,
        join,
        parts,
    }))
}

/// What a word that may say how often and the words of a claim expect, if they say so: of all CPUs, or of
/// those with store buffers alone.
#[tactic(auto, unfolding(crate::specs::Expectation::expected_by))]
fn expected_by(
    alloc: Global,
    subjects: &Subjects,
    x86: bool,
    word: &[u8],
    words: &[&[u8]],
) -> Result<Option<Expectation>, AllocError>
    ensures { IfOk result (λ found. found
        ≡ expected_by subjects.now x86 word.now (map (λ f. f.now) words.now)) }
{
    let Some(often) = Often::spelled(x86, word) else {
        return Ok(None);
    };
    if is_whole(subjects, x86, often, words) {
        Ok(Some(whole(alloc, x86, often, words)?))
    } else {
        claim_of(alloc, subjects, x86, often, words)
    }
}

/// What the words of a comment expect, if they say so.
fn expected_in(
    alloc: Global,
    subjects: &Subjects,
    words: &[&[u8]],
) -> Result<Option<Expectation>, AllocError>
    ensures { IfOk result (λ found.
        found ≡ expected_in subjects.now (map (λ f. f.now) words.now)) }
{
    match words {
        [] | [_] => Ok(None),
        [word, claim @ ..] => expected_by(alloc, subjects, is_of_x86(word), word, claim),
    }
}

/// Whether a word is nearly one that says how often, of all CPUs, or of those with store buffers alone.
fn is_near_often(x86: bool, word: &[u8]) -> bool
    ensures { result ≡ is_near_often x86 word.now }
{
    is_near(word, Often::Always.text(x86).as_bytes())
        || is_near(word, Often::Sometimes.text(x86).as_bytes())
        || is_near(word, Often::Never.text(x86).as_bytes())
}

/// Whether a word seems to say how often.
fn seems_often(word: &[u8]) -> bool
    ensures { result ≡ seems_often word.now }
{
    is_near_often(false, word) || is_near_often(true, word)
}

/// Whether the words of a comment are meant to expect something.
fn is_claim(words: &[&[u8]]) -> bool
    ensures { result ≡ is_claim (map (λ f. f.now) words.now) }
{
    match words {
        [] | [_] => false,
        [word, _, ..] => seems_often(word),
    }
}

/// Whether it is a test of a file's CPUs.
fn is_test(subjects: &Subjects, expectation: &Expectation) -> bool
    ensures { result ≡ is_test subjects.now expectation.now }
{
    subjects.x86() || !expectation.x86
}

/// What the comment of a line expects, if it is a test.
fn test_in(
    alloc: Global,
    subjects: &Subjects,
    line: &[u8],
) -> Result<Option<Expectation>, AllocError>
    ensures { IfOk result (λ found. found ≡ test_in subjects.now (words_of line.now)) }
{
    let words = fields(alloc, comment_of(line))?;
    let Some(expectation) = expected_in(alloc, subjects, &words)? else {
        return Ok(None);
    };
    if is_test(subjects, &expectation) {
        Ok(Some(expectation))
    } else {
        Ok(None)
    }
}

/// Whether the comment of a line expects something that is no test.
fn is_left(alloc: Global, subjects: &Subjects, line: &[u8]) -> Result<bool, AllocError>
    ensures { IfOk result (λ left. left ≡ is_left subjects.now (words_of line.now)) }
{
    let words = fields(alloc, comment_of(line))?;
    let Some(expectation) = expected_in(alloc, subjects, &words)? else {
        return Ok(false);
    };
    Ok(!is_test(subjects, &expectation))
}

/// Whether the comment of a line is meant to expect something, or to say how the file is checked, and can't.
fn is_amiss(alloc: Global, subjects: &Subjects, line: &[u8]) -> Result<bool, AllocError>
    ensures { IfOk result (λ amiss. amiss ≡ is_amiss subjects.now (words_of line.now)) }
{
    let words = fields(alloc, comment_of(line))?;
    if is_misset(&words) {
        return Ok(true);
    }
    if !is_claim(&words) {
        return Ok(false);
    }
    let expected = expected_in(alloc, subjects, &words)?;
    Ok(expected.is_none())
}

/// The first line whose comment is meant to expect something and can't, counted from 0.
fn first_amiss(alloc: Global, subjects: &Subjects, text: &[u8]) -> Result<Option<usize>, AllocError>
    ensures value { IfOk result (λ place. place ≡ first_amiss subjects.now text.now) }
    ensures bound { IfOk result (λ place. IfSome place (λ n. n ≤ length text.now)) }
{
    let mut number = 0;
    let mut rest = Some(text);
    'lines: while let Some(left) = rest {
        let (line, behind) = first_line(left);
        if is_amiss(alloc, subjects, line)? {
            return Ok(Some(number));
        }
        number += 1;
        rest = behind;
    }
    Ok(None)
}

/// What is tested of what the comments of a run file expect, in the order of its lines.
fn expected_of(
    alloc: Global,
    subjects: &Subjects,
    text: &[u8],
) -> Result<Vec<Expectation>, AllocError>
    ensures { IfOk result (λ found. found.items ≡ expectations_of subjects.now text.now) }
{
    let mut found = Vec::new(alloc);
    let mut rest = Some(text);
    'lines: while let Some(left) = rest {
        let (line, behind) = first_line(left);
        if let Some(expectation) = test_in(alloc, subjects, line)? {
            found.push(expectation)?;
        }
        rest = behind;
    }
    Ok(found)
}

/// Whether the comment of a line expects something that is a test.
fn does_test(alloc: Global, subjects: &Subjects, line: &[u8]) -> Result<bool, AllocError>
    ensures { IfOk result (λ does. does ≡ is_some (test_in subjects.now (words_of line.now))) }
{
    let tested = test_in(alloc, subjects, line)?;
    Ok(tested.is_some())
}

/// How many comments of a run file expect something that is no test: something of CPUs with store buffers
/// alone, where the file's have none.
pub fn expectations_left(
    alloc: Global,
    subjects: &Subjects,
    text: &[u8],
) -> Result<usize, AllocError>
    ensures { IfOk result (λ count. count ≡ left_of subjects.now text.now) }
{
    let mut count = 0;
    let mut rest = Some(text);
    'lines: while let Some(left) = rest {
        let (line, behind) = first_line(left);
        if is_left(alloc, subjects, line)? {
            count += 1;
        }
        rest = behind;
    }
    Ok(count)
}

/// The numbers of the lines of a run file whose comments expect something that is tested, counted from 1.
pub fn expectation_lines(
    alloc: Global,
    subjects: &Subjects,
    text: &[u8],
) -> Result<Vec<usize>, AllocError>
    ensures { IfOk result (λ found. found.items ≡ expectation_lines subjects.now text.now) }
{
    let mut found = Vec::new(alloc);
    let mut number = 1;
    let mut rest = Some(text);
    'lines: while let Some(left) = rest {
        let (line, behind) = first_line(left);
        if does_test(alloc, subjects, line)? {
            found.push(number)?;
        }
        number += 1;
        rest = behind;
    }
    Ok(found)
}

/// Whether some expectation asks of data races.
pub fn are_races_asked(expectations: &[Expectation]) -> bool
    ensures { result ≡ are_races_asked expectations.now }
{
    expectations.iter().any(|expectation| asks_of_races(expectation.often(), expectation.line()))
}

/// Why a run file's comments aren't what its outcomes are compared with.
#[derive(Clone, Copy)]
pub enum Unexpected {
    /// The comment of the line of this number, counted from 0, is meant to expect something, and can't.
    At(usize),
    OutOfMemory,
}

/// What is tested of what the comments of a run file expect, in the order of its lines: a comment that is
/// meant to expect something and can't is refused, or passed over where that is asked for.
pub fn expectations(
    alloc: Global,
    subjects: &Subjects,
    lenient: bool,
    text: &[u8],
) -> Result<Vec<Expectation>, Unexpected>
    ensures found { IfOk result (λ found. found.items ≡ expectations_of subjects.now text.now) }
    ensures none { OnOk result (lenient ≡ false → first_amiss subjects.now text.now ≡ None) }
    ensures amiss { IfErr result (λ e. IsUnexpected subjects.now lenient text.now e) }
{
    if !lenient {
        match first_amiss(alloc, subjects, text) {
            Ok(Some(number)) => return Err(Unexpected::At(number)),
            Ok(None) => {}
            Err(_) => return Err(Unexpected::OutOfMemory),
        }
    }
    match expected_of(alloc, subjects, text) {
        Ok(found) => Ok(found),
        Err(_) => Err(Unexpected::OutOfMemory),
    }
}
