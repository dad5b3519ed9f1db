//! Whether tokens begin a load by a name.

ghost use Rattle.std.specs.Prelude.{◌≡◌, ◌↔◌, map, IsTrue};
ghost use Rattle.bpf_text.specs.Misfit.{LoadGoesOn};
ghost use Rattle.bpf_text.specs.Private.Look.{look};
ghost use Rattle.bpf_text.specs.Private.Loads.{begins_number, begins_beside, begins_address, begins_map, begins_name, begins_assigned, begins_load};

use crate::token::Token;
use crate::words;
use bpf_insn::Width;
use bpf_spelling::{Keyword, Sign};

/// After `R = &NAME +`.
fn begins_number(tokens: &[Token<'_>]) -> bool
    ensures { result ≡ begins_number (map look tokens.now) }
{
    match tokens {
        [] => true,
        [Token::Number(..)] => true,
        _ => false,
    }
}

/// After `R = &NAME`.
fn begins_beside(tokens: &[Token<'_>]) -> bool
    ensures { result ≡ begins_beside (map look tokens.now) }
{
    match tokens {
        [] => true,
        [Token::Mark(Sign::Plus), rest @ ..] => begins_number(rest),
        [Token::Mark(Sign::Minus), rest @ ..] => begins_number(rest),
        _ => false,
    }
}

/// After `R = &`.
fn begins_address(tokens: &[Token<'_>]) -> bool
    ensures { result ≡ begins_address (map look tokens.now) }
{
    match tokens {
        [] => true,
        [token, rest @ ..] => words::name(token).is_some() && begins_beside(rest),
    }
}

/// After `R = map`.
fn begins_map(tokens: &[Token<'_>]) -> bool
    ensures { result ≡ begins_map (map look tokens.now) }
{
    match tokens {
        [] => true,
        [token] => words::name(token).is_some(),
        _ => false,
    }
}

/// After `R =`.
fn begins_name(tokens: &[Token<'_>]) -> bool
    ensures { result ≡ begins_name (map look tokens.now) }
{
    match tokens {
        [] => true,
        [Token::Word(Keyword::Map), rest @ ..] => begins_map(rest),
        [Token::Mark(Sign::And), rest @ ..] => begins_address(rest),
        _ => false,
    }
}

/// After `R`.
fn begins_assigned(tokens: &[Token<'_>]) -> bool
    ensures { result ≡ begins_assigned (map look tokens.now) }
{
    match tokens {
        [] => true,
        [Token::Mark(Sign::Assign), rest @ ..] => begins_name(rest),
        _ => false,
    }
}

fn begins_load(tokens: &[Token<'_>]) -> bool
    ensures { result ≡ begins_load (map look tokens.now) }
{
    match tokens {
        [] => true,
        [Token::Register(Width::Bits64, _), rest @ ..] => begins_assigned(rest),
        _ => false,
    }
}

/// Whether a load by a name goes on after tokens.
pub(crate) fn load_goes_on(tokens: &[Token<'_>]) -> bool
    ensures { IsTrue result ↔ LoadGoesOn (map look tokens.now) }
{
    begins_load(tokens)
}
