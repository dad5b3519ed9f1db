//! Texts cut into lines, and lines that aren't assembly into fields.

ghost use Rattle.std.specs.Prelude.{◌≡◌, ◌≤◌, ◌∷◌, length, take_while, map, filter, IfOk};
ghost use Rattle.std.specs.List.{slice_split};
ghost use Rattle.std.specs.Option.{option_copied};
ghost use Rattle.bpf_lines.specs.Lines.{is_blank, is_field, lines_of, uncommented, fields_of};
ghost use Rattle.bpf_lines.specs.Private.Cutting.{in_line};
ghost use Rattle.bpf_lines.specs.Lines.{lines_behind, rest_size};

use std::alloc::{AllocError, Global};

/// Space, tab or CR.
pub fn is_blank(byte: u8) -> bool
    ensures { result ≡ is_blank byte }
{
    matches!(byte, b' ' | b'\t' | b'\r')
}

fn line_len(text: &[u8]) -> usize
    ensures value { result ≡ length (take_while in_line text.now) }
    ensures bound { result ≤ length text.now }
{
    text.iter().take_while(|b| **b != b'\n').count()
}

/// The first line, and what follows its line feed, if it has one.
pub fn first_line<'a>(text: &'a [u8]) -> (&'a [u8], Option<&'a [u8]>)
    ensures lines { lines_of text.now ≡ result.0.now ∷ lines_behind (option_copied result.1) }
    ensures shorter { rest_size (option_copied result.1) ≤ length text.now }
{
    let len = line_len(text);
    if len < text.len() {
        (&text[..len], Some(&text[len + 1..]))
    } else {
        (text, None)
    }
}

/// How long a line is without its comment.
fn uncommented_len(line: &[u8]) -> usize
    ensures value { result ≡ length (uncommented line.now) }
    ensures bound { result ≤ length line.now }
{
    line.iter().take_while(|b| **b != b';').count()
}

/// A line without its comment.
fn uncommented<'a>(line: &'a [u8]) -> &'a [u8]
    ensures { result.now ≡ uncommented line.now }
{
    &line[..uncommented_len(line)]
}

/// What is between blanks.
fn between_blanks<'a>(alloc: Global, line: &'a [u8]) -> Result<Vec<&'a [u8]>, AllocError>
    ensures { IfOk result (λ fields. map (λ f. f.now) fields.items
        ≡ filter is_field (slice_split is_blank line.now)) }
{
    line.split(|b| is_blank(*b))
        .filter(|f| !f.is_empty())
        .collect(alloc)
}

/// What is between blanks before a line's comment, as in a line that isn't assembly.
pub fn fields<'a>(alloc: Global, line: &'a [u8]) -> Result<Vec<&'a [u8]>, AllocError>
    ensures { IfOk result (λ fields. map (λ f. f.now) fields.items ≡ fields_of line.now) }
{
    between_blanks(alloc, uncommented(line))
}
