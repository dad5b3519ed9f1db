//! How many words a line of a text has.

ghost use Rattle.std.specs.Prelude.{◌≡◌, ◌≤◌, IfOk, IsOkUnless};
ghost use Rattle.bpf_text.specs.Assembly.{IsLineWith, Source, words_of};
ghost use Rattle.bpf_text.specs.Symbols.{names_in};

use crate::assembly::words_of;
use crate::error::TextError;
use crate::source::source_line;
use crate::symbols::Symbols;
use std::alloc::Global;

/// How many words a line's instruction has: none where it has no instruction, or is refused.
/// Fails by `OutOfMemory` alone.
pub fn line_size(
    alloc: Global,
    symbols: Option<&Symbols<'_>>,
    line: &[u8],
) -> Result<usize, TextError>
    ensures size { IfOk result (λ n. (s : Source)
        × IsLineWith (names_in symbols.entry) line.now s × (n ≡ words_of s.body)) }
    ensures small { IfOk result (λ n. n ≤ 2) }
    ensures memory { IsOkUnless result TextError.OutOfMemory }
{
    let source = source_line(alloc, symbols, line)?;
    Ok(words_of(&source.body))
}
