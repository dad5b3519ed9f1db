//! The assembly of a program, cut off a run file.

ghost use Rattle.std.specs.Prelude.{◌≡◌, IfOk, IsOkUnless, MatchOption};
ghost use Rattle.bpf_lines.specs.Lines.{lines_of};
ghost use Rattle.bpf_file.specs.Reading.{is_end};
ghost use Rattle.bpf_file.specs.Private.Cuts.{AreOpen, IsProgramCut};

use crate::error::FileError;
use crate::key::Key;
use bpf_lines::lines;
use std::alloc::Global;

/// The lines between `prog` and `end`, and what follows the `end`.
#[derive(Clone, Copy)]
pub struct Assembly<'a> {
    pub text: &'a [u8],
    /// How many lines these are.
    pub lines: usize,
    pub rest: Option<&'a [u8]>,
}

/// Whether a line's only word is `end`.
fn is_end(alloc: Global, line: &[u8]) -> Result<bool, FileError>
    ensures value { IfOk result (λ b. b ≡ is_end line.now) }
    ensures memory { IsOkUnless result FileError.OutOfMemory }
{
    let Ok(fields) = lines::fields(alloc, line) else {
        return Err(FileError::OutOfMemory);
    };
    match fields.as_slice() {
        [field] => Ok(Key::End.is(field)),
        _ => Ok(false),
    }
}

/// The lines up to the first that is an end, if there is one.
#[tactic(auto, using(crate::proofs::Cutting::seen_start, crate::proofs::Cutting::seen_cut, crate::proofs::Cutting::seen_none))]
pub fn up_to_end<'a>(alloc: Global, text: &'a [u8]) -> Result<Option<Assembly<'a>>, FileError>
    ensures cut { IfOk result
        (λ found. MatchOption found (AreOpen (lines_of text.now)) (IsProgramCut text.now)) }
    ensures memory { IsOkUnless result FileError.OutOfMemory }
{
    let mut len: usize = 0;
    let mut count: usize = 0;
    let mut rest = Some(text);
    'lines: while let Some(left) = rest {
        let (line, behind) = lines::first_line(left);
        if is_end(alloc, line)? {
            return Ok(Some(Assembly {
                text: &text[..len],
                lines: count,
                rest: behind,
            }));
        }
        len += line.len() + 1;
        count += 1;
        rest = behind;
    }
    Ok(None)
}
