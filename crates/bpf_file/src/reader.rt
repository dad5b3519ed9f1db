//! Run files, read line by line.

ghost use Rattle.std.specs.Prelude.{◌≡◌, ◌≤◌, ◌<◌, ◌+◌, ◌^◌, ◌⊎◌, [], Ok, Err, IfOk, IfErr, OnOk, length};
ghost use Rattle.std.specs.Option.{option_copied};
ghost use Rattle.bpf_lines.specs.Lines.{lines_of, lines_behind, rest_size};
ghost use Rattle.bpf_file.specs.File.{file_of};
ghost use Rattle.bpf_file.specs.Parts.{Between, Within};
ghost use Rattle.bpf_file.specs.Reading.{IsRunFile};
ghost use Rattle.bpf_cpu.specs.Setup.{IsRunnable};
ghost use Rattle.bpf_file.specs.Private.Fits.{IsFit, IsFitState};
ghost use Rattle.bpf_file.specs.Private.Drafts.{part_of, ReadsOnFrom};

use crate::assembly;
use crate::draft::{Draft, Next};
use crate::error::{FileError, Reason};
use crate::file::RunFile;
use bpf_lines::lines;
use std::alloc::Global;

#[tactic(auto, using(crate::proofs::Sections::section_read, crate::proofs::Sections::section_refused, crate::proofs::Sections::section_unended, crate::proofs::Fits::section_fits))]
/// The assembly after the `prog` of this line: the number of the line after its `end`, and what
/// is from there on.
fn read_assembly<'a>(
    alloc: Global,
    draft: &mut Draft<'a>,
    line: usize,
    name: &'a [u8],
    behind: Option<&'a [u8]>,
) -> Result<(usize, Option<&'a [u8]>), FileError>
    requires room { line + rest_size (option_copied behind) + 2 < 2 ^ 64 }
    requires fit { IsFit (part_of draft.old) }
    ensures goes { ReadsOnFrom (line + 1) (Within (part_of draft.old) line name.now [])
        (lines_behind (option_copied behind.entry)) (part_of draft.new) result }
    ensures fit { OnOk result (IsFitState (Within (part_of draft.old) line name.now [])
        → IsFit (part_of draft.new)) }
    ensures falls { IfOk result (λ r. r.0 + rest_size (option_copied r.1)
        ≤ line + rest_size (option_copied behind.entry) + 1) }
    ensures shorter { IfOk result (λ r.
        rest_size (option_copied r.1) ≤ rest_size (option_copied behind.entry)) }
{
    let Some(text) = behind else {
        return Err(FileError::Refused(line, Reason::NoEnd));
    };
    let Some(cut) = assembly::up_to_end(alloc, text)? else {
        return Err(FileError::Refused(line, Reason::NoEnd));
    };
    draft.add_assembly(alloc, line, name, cut.text)?;
    Ok((line + cut.lines + 2, cut.rest))
}

#[tactic(auto, using(crate::proofs::Sections::goes_line, crate::proofs::Sections::goes_section, crate::proofs::Sections::goes_refused, crate::proofs::Fits::line_fits, crate::proofs::Fits::opening_fits))]
/// One line, with the assembly after it where it calls for some: the number of the next one, and
/// what is from there on.
fn read_line<'a>(
    alloc: Global,
    draft: &mut Draft<'a>,
    line: usize,
    text: &'a [u8],
) -> Result<(usize, Option<&'a [u8]>), FileError>
    requires room { line + length text.now + 2 < 2 ^ 64 }
    requires fit { IsFit (part_of draft.old) }
    ensures goes { ReadsOnFrom line (Between (part_of draft.old)) (lines_of text.now)
        (part_of draft.new) result }
    ensures fit { OnOk result (IsFit (part_of draft.old) → IsFit (part_of draft.new)) }
    ensures falls { IfOk result (λ r. r.0 + rest_size (option_copied r.1)
        ≤ line + length text.now + 1) }
    ensures shorter { IfOk result (λ r. rest_size (option_copied r.1) ≤ length text.now) }
{
    let (first, behind) = lines::first_line(text);
    let Ok(fields) = lines::fields(alloc, first) else {
        return Err(FileError::OutOfMemory);
    };
    match draft.read_fields(alloc, line, &fields)? {
        Next::Line => Ok((line + 1, behind)),
        Next::Assembly(name) => read_assembly(alloc, draft, line, name, behind),
    }
}

/// Reads a run file, the bytes of a text: what it says, or the first refusal in reading order.
/// Lines count from 1. `OutOfMemory` may take the place of either.
#[tactic(auto, using(crate::proofs::Progress::progress_start, crate::proofs::Progress::progress_next, crate::proofs::Progress::progress_refused, crate::proofs::Progress::progress_end))]
pub fn read_file(alloc: Global, text: &[u8]) -> Result<RunFile, FileError>
    ensures said { IfOk result (λ f. IsRunFile text.now (Ok (file_of f))) }
    ensures fits { IfOk result (λ f. IsRunnable f.setup) }
    ensures refused { IfErr result
        (λ e. (e ≡ FileError.OutOfMemory) ⊎ IsRunFile text.now (Err e)) }
{
    let mut draft = Draft::new(alloc);
    let mut line: usize = 1;
    let mut rest = Some(text);
    'lines: while let Some(left) = rest {
        let (next, behind) = read_line(alloc, &mut draft, line, left)?;
        line = next;
        rest = behind;
    }
    draft.finish()
}
