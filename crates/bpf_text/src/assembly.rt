//! Assembly text as instructions.

ghost use Rattle.std.specs.Prelude.{◌≡◌, ◌||◌, ◌++◌, ◌∷◌, [], ◌<◌, ◌≤◌, ◌^◌, ◌⊎◌, All, List, Ok, Err, Result, map, IfOk, IfErr, OnOk, IsOkUnless, MatchResult, option_to_list};
ghost use Rattle.bpf_insn.specs.declared.instruction.Insn.{Insn};
ghost use Rattle.bpf_text.specs.declared.error.TextError.{TextError};
ghost use Rattle.bpf_text.specs.Assembly.{words_of, Assembles, AssemblesWith};
ghost use Rattle.bpf_text.specs.Symbols.{names_in};
ghost use Rattle.bpf_text.specs.Private.Labels.{found};
ghost use Rattle.bpf_text.specs.Private.Sources.{source_of, body_of, kept_view, nothing_said, is_refused, kept_of, kept_program, Gathers};

use crate::error::TextError;
use crate::labels::{self, Labels, Place};
use crate::meaning;
use crate::source::{self, Body, SourceLine};
use crate::symbols::Symbols;
use bpf_insn::Insn;
use bpf_lines::lines;
use std::alloc::Global;
use std::collections::HashMap;

/// A line that says something, and how many lines are before it.
#[derive(Clone, Copy)]
struct Kept<'a> {
    line: usize,
    source: SourceLine<'a>,
}

/// How many words a line has.
pub(crate) fn words_of(body: &Body<'_>) -> usize
    ensures value { result ≡ words_of (body_of body.now) }
    ensures small { result ≤ 2 }
{
    match body {
        Body::Code(insn) | Body::Named(insn, _) => insn.words() as usize,
        Body::Empty | Body::Refused(_) => 0,
    }
}

/// Whether a line has neither a label nor an instruction.
fn says_nothing(source: &SourceLine<'_>) -> bool
    ensures { result ≡ nothing_said (source_of source.now) }
{
    match (source.label, &source.body) {
        (None, Body::Empty) => true,
        _ => false,
    }
}

/// Whether a line is refused for what it is, whatever the others are.
fn is_refused(body: &Body<'_>) -> bool
    ensures { result ≡ is_refused (body_of body.now) }
{
    matches!(body, Body::Refused(_))
}

/// Whether one of some lines is refused, or this one after them.
fn refuses(refused: bool, body: &Body<'_>) -> bool
    ensures { result ≡ (refused || is_refused (body_of body.now)) }
{
    refused || is_refused(body)
}

/// Appends a line to the others, if it says something: after a refused line no other one.
fn keep<'a>(
    lines: &mut Vec<Kept<'a>>,
    line: usize,
    refused: bool,
    source: SourceLine<'a>,
) -> Result<(), TextError>
    ensures ok { OnOk result (map kept_view lines.new.items
        ≡ map kept_view lines.old.items ++ kept_of refused line (source_of source.entry ∷ [])) }
    ensures memory { IsOkUnless result TextError.OutOfMemory }
{
    if says_nothing(&source) || (refused && is_refused(&source.body)) {
        return Ok(());
    }
    lines.push(Kept { line, source })?;
    Ok(())
}

/// A text's lines that are kept, and the first line with each label.
/// Fails by `OutOfMemory` alone.
fn gather<'a>(
    alloc: Global,
    symbols: Option<&Symbols<'_>>,
    text: &'a [u8],
) -> Result<(Vec<Kept<'a>>, Labels<'a>), TextError>
    ensures gathered { IfOk result (λ r.
        Gathers (names_in symbols.entry) text.now (found r.1) (map kept_view r.0.items)) }
    ensures short { IfOk result (λ r. All (λ k. k.line < 2 ^ 63) r.0.items) }
    ensures memory { IsOkUnless result TextError.OutOfMemory }
{
    let mut kept = Vec::new(alloc);
    let mut labels = HashMap::new(alloc);
    let mut line: usize = 0;
    let mut pc: usize = 0;
    let mut refused = false;
    let mut rest = Some(text);
    'text: while let Some(left) = rest {
        let (first, behind) = lines::first_line(left);
        let source = source::source_line(alloc, symbols, first)?;
        labels::note_line(&mut labels, source.label, Place { line, pc })?;
        let size = words_of(&source.body);
        keep(&mut kept, line, refused, source)?;
        line += 1;
        pc += size;
        refused = refuses(refused, &source.body);
        rest = behind;
    }
    Ok((kept, labels))
}

/// Appends an instruction, if there is one, to the others.
fn push_meant(insns: &mut Vec<Insn>, insn: Option<Insn>) -> Result<(), TextError>
    ensures ok { OnOk result (insns.new.items ≡ insns.old.items ++ option_to_list insn) }
    ensures memory { IsOkUnless result TextError.OutOfMemory }
{
    if let Some(insn) = insn {
        insns.push(insn)?;
    }
    Ok(())
}

/// What lines mean, or the first refusal.
fn program(alloc: Global, lines: &[Kept<'_>], labels: &Labels<'_>) -> Result<Vec<Insn>, TextError>
    requires { All (λ k. k.line < 2 ^ 63) lines.now }
    ensures { MatchResult result
        (λ is. kept_program (found labels.now) 0 (map kept_view lines.now) ≡ Ok is.items)
        (λ e. (e ≡ TextError.OutOfMemory)
        ⊎ (kept_program (found labels.now) 0 (map kept_view lines.now) ≡ Err e)) }
{
    let mut insns = Vec::new(alloc);
    let mut pc: usize = 0;
    for kept in lines {
        let meant = meaning::meaning(labels, kept.line, pc, &kept.source)?;
        push_meant(&mut insns, meant)?;
        pc += words_of(&kept.source.body);
    }
    Ok(insns)
}

/// The instructions that an assembly text of these bytes stands for, or its lowest line that is
/// refused, for the lowest of its reasons. With a table of names a line may load the number of a
/// map or an address by its name.
/// Lines count from 1. `OutOfMemory` may take the place of either.
pub fn assemble_with(
    alloc: Global,
    symbols: Option<&Symbols<'_>>,
    text: &[u8],
) -> Result<Vec<Insn>, TextError>
    ensures assembled { IfOk result (λ program.
        AssemblesWith (names_in symbols.entry) text.now (Ok program.items)) }
    ensures refused { IfErr result (λ e. (e ≡ TextError.OutOfMemory)
        ⊎ AssemblesWith (names_in symbols.entry) text.now (Err e)) }
    ensures only { (outcome : Result (List Insn) TextError)
        → AssemblesWith (names_in symbols.entry) text.now outcome
        → MatchResult result (λ program. outcome ≡ Ok program.items)
        (λ e. (e ≡ TextError.OutOfMemory) ⊎ (outcome ≡ Err e)) }
{
    let (lines, labels) = gather(alloc, symbols, text)?;
    program(alloc, &lines, &labels)
}

/// The instructions that an assembly text with no table of names stands for, or its refusal, as
/// above.
pub fn assemble(alloc: Global, text: &str) -> Result<Vec<Insn>, TextError>
    ensures assembled { IfOk result (λ program. Assembles text.now (Ok program.items)) }
    ensures refused { IfErr result (λ e. (e ≡ TextError.OutOfMemory) ⊎ Assembles text.now (Err e)) }
    ensures only { (outcome : Result (List Insn) TextError) → Assembles text.now outcome
        → MatchResult result (λ program. outcome ≡ Ok program.items)
        (λ e. (e ≡ TextError.OutOfMemory) ⊎ (outcome ≡ Err e)) }
{
    assemble_with(alloc, None, text.as_bytes())
}
