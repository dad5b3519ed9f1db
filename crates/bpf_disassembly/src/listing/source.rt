//! The listing of a text: its lines as they are, with the places and the words of those that have
//! an instruction.

ghost use Rattle.std.specs.Prelude.{◌≡◌, ◌∷◌, ◌++◌, ◌*◌, ◌+◌, ◌≤◌, IfOk, IsOkUnless, OnOk, drop, length, string_bytes};
ghost use Rattle.std.specs.Option.{option_copied};
ghost use Rattle.bpf_text.specs.Assembly.{IsLine, Source, words_of};
ghost use Rattle.bpf_lines.specs.Lines.{lines_behind, lines_of, rest_size};
ghost use Rattle.bpf_disassembly.specs.Listing.Source.{IsSourceListing, behind_line, feed_before};

use crate::listing::place::push_place;
use bpf_text::{TextError, line_size};
use std::alloc::Global;

/// A text's first line, and what follows its line feed, if it has one.
#[tactic(auto, using(crate::proofs::FirstLines::cut, crate::proofs::FirstLines::whole))]
fn first_line(text: &str) -> (&str, Option<&str>)
    ensures lines { lines_of text.now ≡ result.0.now ∷ lines_behind (option_copied result.1) }
    ensures shorter { length result.0.now + rest_size (option_copied result.1) ≤ length text.now }
{
    match text.split_once('\n') {
        Some((line, behind)) => (line, Some(behind)),
        None => (text, None),
    }
}

/// How many words a line has. Fails by `OutOfMemory` alone.
fn size_of_line(alloc: Global, line: &str) -> Result<usize, TextError>
    ensures size { IfOk result (λ n. (s : Source) × IsLine line.now s × (n ≡ words_of s.body)) }
    ensures small { IfOk result (λ n. n ≤ 2 * length line.now) }
    ensures few { IfOk result (λ n. n ≤ 2) }
    ensures memory { IsOkUnless result TextError.OutOfMemory }
{
    if line.is_empty() {
        return Ok(0);
    }
    line_size(alloc, None, line.as_bytes())
}

/// Appends a line to the text, and the place of its instruction, if it has one: its words are
/// those that the bytes begin with.
fn push_line(
    alloc: Global,
    text: &mut String,
    pc: usize,
    size: usize,
    bytes: &[u8],
    line: &str,
) -> Result<(), TextError>
    requires { size ≤ 2 }
    ensures line { OnOk result (string_bytes text.new
        ≡ string_bytes text.old ++ (line.now ++ behind_line pc size bytes.now)) }
    ensures memory { IsOkUnless result TextError.OutOfMemory }
{
    text.push_str(line)?;
    if size == 0 {
        return Ok(());
    }
    let len = bytes.len().min(8 * size);
    push_place(alloc, text, pc, &bytes[..len])
}

/// Appends a line feed to the text, if another line follows.
#[tactic(auto, using(crate::proofs::SourceLines::has_feed))]
fn push_feed(text: &mut String, behind: Option<&str>) -> Result<(), TextError>
    ensures feed { OnOk result (string_bytes text.new
        ≡ string_bytes text.old ++ feed_before (lines_behind (option_copied behind.entry))) }
    ensures memory { IsOkUnless result TextError.OutOfMemory }
{
    if behind.is_some() {
        text.push('\n')?;
    }
    Ok(())
}

/// The bytes after this many words.
fn behind_words(bytes: &[u8], size: usize) -> &[u8]
    requires { size ≤ 2 }
    ensures { result.now ≡ drop (8 * size) bytes.now }
{
    let len = bytes.len().min(8 * size);
    &bytes[len..]
}

/// A text's lines, each with the pc and the words of its instruction after it, as a comment; the
/// bytes are those of the words. Fails by `OutOfMemory` alone.
pub fn source_lines(alloc: Global, bytes: &[u8], source: &str) -> Result<String, TextError>
    ensures listed { IfOk result (λ text.
        IsSourceListing 0 bytes.now (lines_of source.now) (string_bytes text)) }
    ensures memory { IsOkUnless result TextError.OutOfMemory }
{
    let mut text = String::new(alloc);
    let mut rest = Some(source);
    let mut left = bytes;
    let mut pc: usize = 0;
    'lines: while let Some(now) = rest {
        let (line, behind) = first_line(now);
        let size = size_of_line(alloc, line)?;
        push_line(alloc, &mut text, pc, size, left, line)?;
        push_feed(&mut text, behind)?;
        left = behind_words(left, size);
        pc += size;
        rest = behind;
    }
    Ok(text)
}
