//! Lines as they are written: a label, and an instruction whose target may be a label's name.

ghost use Rattle.std.specs.Prelude.{◌≡◌, map, Ok, Some, IfOk, IsOkUnless};
ghost use Rattle.std.specs.Option.{option_copied};
ghost use Rattle.bpf_text.specs.Symbols.{names_in, table_of, load_of, loaded};
ghost use Rattle.bpf_text.specs.Private.Judging.{drafted};
ghost use Rattle.bpf_text.specs.Private.Loads.{load_view};
ghost use Rattle.bpf_text.specs.Private.Look.{look};
ghost use Rattle.bpf_text.specs.Assembly.{label_of, unlabelled, IsBody, IsBodyWith, IsBodyOr, IsLineWith};
ghost use Rattle.bpf_text.specs.Private.Sources.{body_of, source_of};

use crate::error::TextError;
use crate::reading::named::{self, Load};
use crate::reading::{self, Draft, LineError};
use crate::symbols::Symbols;
use crate::token::{self, Token};
use crate::words;
use bpf_insn::Insn;
use bpf_spelling::Sign;
use std::alloc::Global;

/// What a line has besides its label.
#[derive(Clone, Copy)]
pub enum Body<'a> {
    Empty,
    Code(Insn),
    /// An instruction whose target names this label.
    Named(Insn, &'a [u8]),
    Refused(LineError),
}

/// A line as it is written.
#[derive(Clone, Copy)]
pub struct SourceLine<'a> {
    pub label: Option<&'a [u8]>,
    pub body: Body<'a>,
}

/// A line's label, and what follows it.
#[tactic(auto, unfolding(crate::specs::Assembly::label_of, crate::specs::Assembly::unlabelled))]
pub(crate) fn labelled<'t, 'a>(tokens: &'t [Token<'a>]) -> (Option<&'a [u8]>, &'t [Token<'a>])
    ensures label { option_copied result.0 ≡ label_of (map look tokens.now) }
    ensures rest { map look result.1.now ≡ unlabelled (map look tokens.now) }
{
    match tokens {
        [token, Token::Mark(Sign::Colon), rest @ ..] => match words::name(token) {
            Some(name) => (Some(name), rest),
            None => (None, tokens),
        },
        _ => (None, tokens),
    }
}

/// An instruction that was read.
fn code<'a>(draft: Draft<'a>) -> Body<'a>
    ensures { body_of result ≡ Ok (Some (drafted draft.entry)) }
{
    match draft.target {
        None => Body::Code(draft.insn),
        Some(name) => Body::Named(draft.insn, name),
    }
}

/// What follows a line's label, where it loads nothing by a name.
fn unnamed<'a>(tokens: &[Token<'a>]) -> Body<'a>
    ensures { IsBody (body_of result) (map look tokens.now) }
{
    match tokens {
        [] => Body::Empty,
        _ => match reading::instruction(tokens) {
            Ok(draft) => code(draft),
            Err(error) => Body::Refused(error),
        },
    }
}

/// What is loaded by a name.
fn loaded<'a>(symbols: &Symbols<'_>, load: Load<'_>) -> Body<'a>
    ensures { body_of result ≡ loaded (table_of symbols.now) (load_view load.entry) }
{
    match named::loaded(symbols, load) {
        Ok(insn) => Body::Code(insn),
        Err(error) => Body::Refused(error),
    }
}

/// What follows a line's label, where there is a table of names.
fn named<'a>(symbols: &Symbols<'_>, tokens: &[Token<'a>]) -> Body<'a>
    ensures { let ts = map look tokens.now
        in IsBodyOr (table_of symbols.now) (load_of ts) (body_of result) ts }
{
    match named::load_of(tokens) {
        Some(load) => loaded(symbols, load),
        None => unnamed(tokens),
    }
}

/// What follows a line's label.
pub(crate) fn behind_label<'a>(symbols: Option<&Symbols<'_>>, tokens: &[Token<'a>]) -> Body<'a>
    ensures { IsBodyWith (names_in symbols.entry) (body_of result) (map look tokens.now) }
{
    match symbols {
        Some(symbols) => named(symbols, tokens),
        None => unnamed(tokens),
    }
}

/// Reads one line. Fails by `OutOfMemory` alone.
pub fn source_line<'a>(
    alloc: Global,
    symbols: Option<&Symbols<'_>>,
    line: &'a [u8],
) -> Result<SourceLine<'a>, TextError>
    ensures read { IfOk result (λ s. IsLineWith (names_in symbols.entry) line.now (source_of s)) }
    ensures memory { IsOkUnless result TextError.OutOfMemory }
{
    let tokens = token::tokens_of(alloc, line)?;
    let (label, rest) = labelled(&tokens);
    let body = behind_label(symbols, rest);
    Ok(SourceLine { label, body })
}
