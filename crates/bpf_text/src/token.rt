//! Lines cut into tokens.

ghost use Rattle.std.specs.Prelude.{◌≡◌, ◌<◌, ◌≤◌, ◌+◌, length, take_while, drop, map, IfOk, OnOk, IsOkUnless, IsTrue, ◌↔◌};
ghost use Rattle.bpf_lines.specs.Lines.{is_blank};
ghost use Rattle.bpf_text.specs.Tokens.{word_len, front_tok, front_len, IsEnd};
ghost use Rattle.bpf_text.specs.Private.Cutting.{BeginTokens, KeepsToken};
ghost use Rattle.bpf_text.specs.Private.Look.{look};

use crate::error::TextError;
use crate::words;
use bpf_insn::{Reg, Width};
use bpf_lines::lines::is_blank;
use bpf_lines::numbers::Radix;
use bpf_lines::words::is_word_byte;
use bpf_spelling::Keyword;
use bpf_spelling::signs::{self, Sign};
use std::alloc::Global;

/// A word by what it is, or a sign.
#[derive(Clone, Copy)]
pub enum Token<'a> {
    Register(Width, Reg),
    Word(Keyword),
    Name(&'a [u8]),
    /// Digits, of any size.
    Number(Radix, &'a [u8]),
    Mark(Sign),
    /// What no form has: a word that begins with a digit and is no number, or a byte of no
    /// word and no sign.
    Junk,
}

fn word_len(text: &[u8]) -> usize
    ensures value { result ≡ word_len text.now }
    ensures bound { result ≤ length text.now }
{
    text.iter().take_while(|b| is_word_byte(**b)).count()
}

pub(crate) fn blank_len(text: &[u8]) -> usize
    ensures value { result ≡ length (take_while is_blank text.now) }
    ensures bound { result ≤ length text.now }
{
    text.iter().take_while(|b| is_blank(**b)).count()
}

/// The token at the front, and its length.
#[tactic(auto, unfolding(crate::specs::Tokens::front_tok, crate::specs::Tokens::front_len))]
fn front<'a>(text: &'a [u8]) -> (Token<'a>, usize)
    requires { 0 < length text.now }
    ensures token { look result.0 ≡ front_tok text.now }
    ensures len { result.1 ≡ front_len text.now }
    ensures some { 0 < result.1 }
    ensures bound { result.1 ≤ length text.now }
{
    let len = word_len(text);
    if len > 0 {
        return (words::classify(&text[..len]), len);
    }
    match signs::longest_sign(text) {
        Some(sign) => (Token::Mark(sign), sign.text().len()),
        None => (Token::Junk, 1),
    }
}

/// The token at a place of the line, and its length.
pub(crate) fn front_at<'a>(line: &'a [u8], at: usize) -> (Token<'a>, usize)
    requires { at < length line.now }
    ensures token { look result.0 ≡ front_tok (drop at line.now) }
    ensures len { result.1 ≡ front_len (drop at line.now) }
    ensures some { 0 < result.1 }
    ensures bound { at + result.1 ≤ length line.now }
{
    front(&line[at..])
}

/// The place after the blanks.
pub(crate) fn skip_blanks(line: &[u8], at: usize) -> usize
    requires { at ≤ length line.now }
    ensures value { result ≡ at + length (take_while is_blank (drop at line.now)) }
    ensures bound { result ≤ length line.now }
{
    at + blank_len(&line[at..])
}

/// Whether nothing is left, or a comment.
fn is_end(text: &[u8]) -> bool
    ensures { IsTrue result ↔ IsEnd text.now }
{
    match text {
        [] => true,
        [first, ..] => *first == b';',
    }
}

/// Whether the line's tokens end at this place.
pub(crate) fn ends_at(line: &[u8], at: usize) -> bool
    requires { at ≤ length line.now }
    ensures { IsTrue result ↔ IsEnd (drop at line.now) }
{
    is_end(&line[at..])
}

/// How many tokens of a line are kept: more than a label and any form have.
const MAX_TOKENS: usize = 64;

/// Appends a token to the others, unless they are as many as are kept.
fn keep<'a>(tokens: &mut Vec<Token<'a>>, token: Token<'a>) -> Result<(), TextError>
    ensures kept { OnOk result (KeepsToken tokens.old.items token.entry tokens.new.items) }
    ensures memory { IsOkUnless result TextError.OutOfMemory }
{
    if tokens.len() < MAX_TOKENS {
        tokens.push(token)?;
    }
    Ok(())
}

/// The tokens of a line, or the first ones where it has more than any form. Fails by `OutOfMemory`
/// alone.
pub fn tokens_of<'a>(alloc: Global, line: &'a [u8]) -> Result<Vec<Token<'a>>, TextError>
    ensures found { IfOk result (λ tokens. BeginTokens line.now (map look tokens.items)) }
    ensures memory { IsOkUnless result TextError.OutOfMemory }
{
    let mut tokens = Vec::new(alloc);
    let mut at = blank_len(line);
    'line: while !ends_at(line, at) {
        let (token, len) = front_at(line, at);
        keep(&mut tokens, token)?;
        at = skip_blanks(line, at + len);
    }
    Ok(tokens)
}
