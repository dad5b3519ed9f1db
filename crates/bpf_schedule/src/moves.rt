//! Schedules of turns and of flushes of store buffers as text: as `0*9 0!*1 1*10`, where `0!` is a
//! flush of CPU 0's buffer.

ghost use Rattle.std.specs.Prelude.{◌≡◌, ◌^◌, ◌≤◌, ◌++◌, IfOk, IfSome, IfNone, OnOk, length, map, string_bytes};
ghost use Rattle.std.specs.List.{before_first};
ghost use Rattle.bpf_lines.specs.Lines.{fields_of};
ghost use Rattle.bpf_schedule.specs.Spelling.{number_below};
ghost use Rattle.bpf_schedule.specs.Moves.{moves_text, all_moves_text, is_mark, mover_in, moves_in, MovesAreReadBack, SpellMoves, SpellNoMoves};

use crate::reading::{before_star, count_in};
use bpf_lines::{lines, words};
use std::alloc::{AllocError, Global};

/// Added to a CPU's number: a flush of its buffer.
pub const FLUSH: u8 = 128;

/// Appends this many moves of one kind to the text.
fn push_same(alloc: Global, text: &mut String, made: u8, count: u64) -> Result<(), AllocError>
    ensures { OnOk result (string_bytes text.new
        ≡ string_bytes text.old ++ moves_text (made, count)) }
{
    let run = if made < FLUSH {
        format!(in alloc; " {made}*{count}")?
    } else {
        let cpu = made - FLUSH;
        format!(in alloc; " {cpu}!*{count}")?
    };
    text.push_str(run.as_str())
}

/// Appends a schedule to the text, each move with how often it is made before the next, after a
/// blank.
pub fn push_moves(alloc: Global, text: &mut String, moves: &[(u8, u64)]) -> Result<(), AllocError>
    ensures { OnOk result (string_bytes text.new
        ≡ string_bytes text.old ++ all_moves_text (length moves.now) moves.now) }
{
    for (made, count) in moves {
        push_same(alloc, text, *made, *count)?;
    }
    Ok(())
}

/// The CPU below 128 that a word is.
fn cpu_below(word: &[u8]) -> Option<u8>
    ensures { result ≡ number_below 128 word.now }
{
    match words::number(word) {
        Ok(number) if number < 128 => Some(number as u8),
        _ => None,
    }
}

/// Where a word's first `!` is; the word's length where it has none.
fn mark_in(word: &[u8]) -> usize
    ensures value { result ≡ length (before_first is_mark word.now) }
    ensures bound { result ≤ length word.now }
{
    word.iter().take_while(|byte| **byte != b'!').count()
}

/// What is before a word's first `!`.
fn before_mark<'a>(word: &'a [u8]) -> &'a [u8]
    ensures { result.now ≡ before_first is_mark word.now }
{
    &word[..mark_in(word)]
}

/// The turn or the flush that a word is.
fn mover_in(word: &[u8]) -> Option<u8>
    ensures { result ≡ mover_in word.now }
{
    let cpu = cpu_below(before_mark(word))?;
    match word.len() - mark_in(word) {
        0 => Some(cpu),
        1 => Some(FLUSH + cpu),
        _ => None,
    }
}

/// The moves that a word spells, as `0*9` or `0!*2`, or `0!` for one flush: a turn or a flush, and how
/// many; `None` where it spells none.
pub fn moves_in_word(word: &[u8]) -> Option<(u8, u64)>
    ensures { result ≡ moves_in word.now }
{
    let made = mover_in(before_star(word))?;
    let count = count_in(word)?;
    Some((made, count))
}

/// The moves that words spell, in their order; `None` where some word spells none.
pub fn moves_of(alloc: Global, words: &[&[u8]]) -> Result<Option<Vec<(u8, u64)>>, AllocError>
    ensures spelled { IfOk result (λ found. IfSome found
        (λ moves. SpellMoves (map (λ f. f.now) words.now) moves.items)) }
    ensures none { IfOk result (λ found. IfNone found
        (SpellNoMoves (map (λ f. f.now) words.now))) }
{
    let mut moves = Vec::with_capacity(alloc, words.len())?;
    for word in words {
        let Some(made) = moves_in_word(word) else {
            return Ok(None);
        };
        moves.push(made)?;
    }
    Ok(Some(moves))
}

/// The schedule that a text spells, as `0*9 0! 1*10`; `None` where it spells none.
pub fn moves_in(alloc: Global, text: &[u8]) -> Result<Option<Vec<(u8, u64)>>, AllocError>
    ensures spelled { IfOk result (λ found. IfSome found
        (λ moves. SpellMoves (fields_of text.now) moves.items)) }
    ensures none { IfOk result (λ found. IfNone found (SpellNoMoves (fields_of text.now))) }
{
    let words = lines::fields(alloc, text)?;
    moves_of(alloc, &words)
}

/// What `push_moves` prints is read back as the same moves. This function does nothing: its contract
/// is the law.
pub fn moves_are_read_back()
    ensures { MovesAreReadBack }
{}
