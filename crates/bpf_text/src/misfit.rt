//! Where a line is refused: at the token at which no form goes on, at a number, or at a name.

ghost use Rattle.std.specs.Prelude.{◌≡◌, ◌≤◌, ◌↔◌, ◌⊎◌, ◌||◌, length, map, take, Err, IfOk, IsOkUnless, IsTrue};
ghost use Rattle.bpf_text.specs.Assembly.{IsBodyWith};
ghost use Rattle.bpf_text.specs.Misfit.{FormGoesOn, LoadGoesOn, GoesOnWith, IsLeftAt, IsMisfit, IsUnfit, IsUnfitAt, StandsAt, with_numbers, zeroed};
ghost use Rattle.bpf_text.specs.Symbols.{names_in};
ghost use Rattle.bpf_text.specs.Private.Sources.{body_of, is_bad_number};
ghost use Rattle.bpf_text.specs.Private.Look.{look};

use crate::error::TextError;
use crate::forms::goes_on;
use crate::reading::LineError;
use crate::reading::begun::load_goes_on;
use crate::source::{self, Body};
use crate::symbols::Symbols;
use crate::token::{self, Token};
use bpf_lines::numbers::Radix;
use std::alloc::Global;

/// The token at which a line is refused.
#[derive(Clone, Copy)]
pub struct Misfit {
    /// Why the line is refused.
    pub why: LineError,
    /// How many tokens of the line are before it. There are no more where tokens lack at the
    /// line's end.
    pub token: usize,
}

fn zeroed<'a>(token: Token<'a>) -> Token<'a>
    ensures { look result ≡ zeroed (look token.entry) }
{
    match token {
        Token::Number(..) => Token::Number(Radix::Decimal, "0".as_bytes()),
        other => other,
    }
}

/// This many of the tokens, and the others with 0 for each of their numbers.
fn with_numbers<'a>(
    alloc: Global,
    tokens: &[Token<'a>],
    count: usize,
) -> Result<Vec<Token<'a>>, TextError>
    requires { count ≤ length tokens.now }
    ensures same { IfOk result (λ v. map look v.items ≡ with_numbers count (map look tokens.now)) }
    ensures memory { IsOkUnless result TextError.OutOfMemory }
{
    let (front, others) = tokens.split_at(count);
    let mut made = Vec::from_slice(alloc, front)?;
    for token in others {
        made.push(zeroed(*token))
            .map_err(|_| TextError::OutOfMemory)?;
    }
    Ok(made)
}

fn is_bad_number(body: &Body<'_>) -> bool
    ensures { result ≡ is_bad_number (body_of body.now) }
{
    matches!(body, Body::Refused(LineError::BadNumber))
}

/// Whether tokens have a form, and a number of theirs is out of its range.
fn is_unfit(symbols: Option<&Symbols<'_>>, tokens: &[Token<'_>]) -> bool
    ensures { IsTrue result ↔ IsUnfit (names_in symbols.entry) (map look tokens.now) }
{
    is_bad_number(&source::behind_label(symbols, tokens))
}

/// How many tokens are before the first number that is out of its range.
fn unfit_at(
    alloc: Global,
    symbols: Option<&Symbols<'_>>,
    tokens: &[Token<'_>],
) -> Result<usize, TextError>
    requires { IsUnfit (names_in symbols) (map look tokens.now) }
    ensures first { IfOk result (λ n. IsUnfitAt (names_in symbols.entry) n (map look tokens.now)) }
    ensures bound { IfOk result (λ n. n ≤ length tokens.now) }
    ensures memory { IsOkUnless result TextError.OutOfMemory }
{
    for n in 0..tokens.len() {
        let some = with_numbers(alloc, tokens, n + 1)?;
        if is_unfit(symbols, &some) {
            return Ok(n);
        }
    }
    unreachable!()
}

fn either(one: bool, other: bool) -> bool
    ensures { result ≡ (one || other) }
{
    one || other
}

/// Whether some form, or a load by a name, goes on after tokens.
fn goes_on_named(tokens: &[Token<'_>]) -> bool
    ensures { let ts = map look tokens.now in IsTrue result ↔ (FormGoesOn ts ⊎ LoadGoesOn ts) }
{
    either(goes_on(tokens), load_goes_on(tokens))
}

/// Whether some form of a line goes on after tokens.
fn goes_on_with(symbols: Option<&Symbols<'_>>, tokens: &[Token<'_>]) -> bool
    ensures { IsTrue result ↔ GoesOnWith (names_in symbols.entry) (map look tokens.now) }
{
    match symbols {
        Some(_) => goes_on_named(tokens),
        None => goes_on(tokens),
    }
}

/// Whether some form goes on after this many of the tokens.
fn goes_on_behind(symbols: Option<&Symbols<'_>>, tokens: &[Token<'_>], count: usize) -> bool
    requires { count ≤ length tokens.now }
    ensures { IsTrue
        result ↔ GoesOnWith (names_in symbols.entry) (take count (map look tokens.now)) }
{
    goes_on_with(symbols, &tokens[..count])
}

/// How many tokens are before the first at which no form goes on.
fn left_at(symbols: Option<&Symbols<'_>>, tokens: &[Token<'_>]) -> usize
    ensures first { IsLeftAt (names_in symbols.entry) result (map look tokens.now) }
    ensures bound { result ≤ length tokens.now }
{
    for n in 0..tokens.len() {
        if !goes_on_behind(symbols, tokens, n + 1) {
            return n;
        }
    }
    tokens.len()
}

/// How many tokens of an instruction are before the name by which it loads: `R = map` or `R = &`.
const BEFORE_NAME: usize = 3;

/// How many tokens of an instruction are before the one at which it is refused.
fn stands_at(
    alloc: Global,
    symbols: Option<&Symbols<'_>>,
    why: LineError,
    tokens: &[Token<'_>],
) -> Result<usize, TextError>
    requires { IsBodyWith (names_in symbols) (Err why) (map look tokens.now) }
    ensures first { IfOk result (λ n.
        StandsAt (names_in symbols.entry) why n (map look tokens.now)) }
    ensures bound { IfOk result (λ n. n ≤ length tokens.now) }
    ensures memory { IsOkUnless result TextError.OutOfMemory }
{
    match why {
        LineError::BadLine => Ok(left_at(symbols, tokens)),
        LineError::BadNumber => unfit_at(alloc, symbols, tokens),
        LineError::UnknownName => Ok(BEFORE_NAME),
    }
}

/// Where a line is refused by itself, if it is. Fails by `OutOfMemory` alone.
pub fn misfit_in(
    alloc: Global,
    symbols: Option<&Symbols<'_>>,
    line: &[u8],
) -> Result<Option<Misfit>, TextError>
    ensures found { IfOk result (λ m. IsMisfit (names_in symbols.entry) line.now m) }
    ensures memory { IsOkUnless result TextError.OutOfMemory }
{
    let tokens = token::tokens_of(alloc, line)?;
    let (_, rest) = source::labelled(&tokens);
    let Body::Refused(why) = source::behind_label(symbols, rest) else {
        return Ok(None);
    };
    let behind = stands_at(alloc, symbols, why, rest)?;
    let token = tokens.len() - rest.len() + behind;
    Ok(Some(Misfit { why, token }))
}
