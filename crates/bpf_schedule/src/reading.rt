//! What a schedule's text spells.

ghost use Rattle.std.specs.Prelude.{◌≡◌, ◌^◌, ◌≤◌, IfOk, IfSome, IfNone, length, map};
ghost use Rattle.std.specs.List.{before_first, after_first};
ghost use Rattle.bpf_lines.specs.Lines.{fields_of};
ghost use Rattle.bpf_schedule.specs.Spelling.{count_in, is_star, number_below, run_in, PrintedIsReadBack, SpellRuns, SpellNone};

use bpf_lines::{lines, words};
use std::alloc::{AllocError, Global};

/// The CPU that a word is.
fn cpu_in(word: &[u8]) -> Option<u8>
    ensures { result ≡ number_below (2 ^ 8) word.now }
{
    match words::number(word) {
        Ok(number) if number < 256 => Some(number as u8),
        _ => None,
    }
}

/// The number of turns that a word is.
fn turns_in(word: &[u8]) -> Option<u64>
    ensures { result ≡ number_below (2 ^ 64) word.now }
{
    words::number(word).ok()
}

/// Where a word's first star is; the word's length where it has none.
fn star_in(word: &[u8]) -> usize
    ensures value { result ≡ length (before_first is_star word.now) }
    ensures bound { result ≤ length word.now }
{
    word.iter().take_while(|byte| **byte != b'*').count()
}

/// What is before a word's first star.
pub(crate) fn before_star<'a>(word: &'a [u8]) -> &'a [u8]
    ensures { result.now ≡ before_first is_star word.now }
{
    &word[..star_in(word)]
}

/// What follows a word's first star.
fn after_star<'a>(word: &'a [u8]) -> &'a [u8]
    ensures { result.now ≡ after_first is_star word.now }
{
    let star = star_in(word);
    if star < word.len() {
        &word[star + 1..]
    } else {
        &word[star..]
    }
}

/// How often a word says: after its first star, or once where it has none.
pub(crate) fn count_in(word: &[u8]) -> Option<u64>
    ensures { result ≡ count_in word.now }
{
    if star_in(word) < word.len() {
        turns_in(after_star(word))
    } else {
        Some(1)
    }
}

/// The run that a word spells, as `0*9`, or `0` for one turn: a CPU and how many turns it makes;
/// `None` where it spells none.
pub fn run_in(word: &[u8]) -> Option<(u8, u64)>
    ensures { result ≡ run_in word.now }
{
    let cpu = cpu_in(before_star(word))?;
    let turns = count_in(word)?;
    Some((cpu, turns))
}

/// The runs that words spell, a word a run; `None` where some word spells none.
pub fn runs_of(alloc: Global, words: &[&[u8]]) -> Result<Option<Vec<(u8, u64)>>, AllocError>
    ensures spelled { IfOk result (λ found. IfSome found
        (λ runs. SpellRuns (map (λ f. f.now) words.now) runs.items)) }
    ensures none { IfOk result (λ found. IfNone found (SpellNone (map (λ f. f.now) words.now))) }
{
    let mut runs = Vec::with_capacity(alloc, words.len())?;
    for word in words {
        let Some(run) = run_in(word) else {
            return Ok(None);
        };
        runs.push(run)?;
    }
    Ok(Some(runs))
}

/// The schedule that a text spells, as `0*9 1 0*2`: its runs in their order, none of an empty
/// text; `None` where it spells none.
pub fn runs_in(alloc: Global, text: &[u8]) -> Result<Option<Vec<(u8, u64)>>, AllocError>
    ensures spelled { IfOk result (λ found. IfSome found
        (λ runs. SpellRuns (fields_of text.now) runs.items)) }
    ensures none { IfOk result (λ found. IfNone found (SpellNone (fields_of text.now))) }
{
    let words = lines::fields(alloc, text)?;
    runs_of(alloc, &words)
}

/// What `push_runs` prints is read back as the same runs. This function does nothing: its contract
/// is the law.
pub fn printed_is_read_back()
    ensures { PrintedIsReadBack }
{}
