//! Addresses, and the bytes there.

ghost use Rattle.std.specs.Prelude.{◌≡◌, map};
ghost use Rattle.bpf_text.specs.Private.Look.{look};
ghost use Rattle.bpf_text.specs.Private.Pieces.{address_at, closed_at, pointer_at, cell_at, cell_width};
ghost use Rattle.bpf_text.specs.Private.Judging.{Gives, literal_value};

use crate::numbers::Literal;
use crate::token::Token;
use bpf_insn::{Reg, Size, Width};
use bpf_spelling::{Keyword, Sign};

/// Reads `R + n` or `R - n`: the base, the offset, and what follows.
#[tactic(auto, unfolding(crate::specs::Private::Pieces::address_at))]
pub fn address<'t, 'a>(tokens: &'t [Token<'a>]) -> Option<(Reg, Literal<'a>, &'t [Token<'a>])>
    ensures { Gives (λ a. record {
      base = a.0;
      offset = literal_value a.1;
      rest = map look a.2.now;
    }) result (address_at (map look tokens.now)) }
{
    match tokens {
        [
            Token::Register(Width::Bits64, base),
            Token::Mark(Sign::Plus),
            Token::Number(radix, digits),
            rest @ ..,
        ] => Some((*base, Literal::new(false, *radix, *digits), rest)),
        [
            Token::Register(Width::Bits64, base),
            Token::Mark(Sign::Minus),
            Token::Number(radix, digits),
            rest @ ..,
        ] => Some((*base, Literal::new(true, *radix, *digits), rest)),
        _ => None,
    }
}

/// After `(u8 *)(R + n`: the size, the base, the offset, and what follows.
#[tactic(auto, unfolding(crate::specs::Private::Pieces::closed_at))]
fn closed<'t, 'a>(
    size: Keyword,
    base: Reg,
    offset: Literal<'a>,
    tokens: &'t [Token<'a>],
) -> Option<(Keyword, Reg, Literal<'a>, &'t [Token<'a>])>
    ensures { Gives (λ c. record {
      size = c.0;
      base = c.1;
      offset = literal_value c.2;
      rest = map look c.3.now;
    })
        result (closed_at size base (literal_value offset.entry) (map look tokens.now)) }
{
    match tokens {
        [Token::Mark(Sign::Close), rest @ ..] => Some((size, base, offset, rest)),
        _ => None,
    }
}

/// After `(u8 *`.
#[tactic(auto, unfolding(crate::specs::Private::Pieces::pointer_at))]
fn pointer<'t, 'a>(
    size: Keyword,
    tokens: &'t [Token<'a>],
) -> Option<(Keyword, Reg, Literal<'a>, &'t [Token<'a>])>
    ensures { Gives (λ c. record {
      size = c.0;
      base = c.1;
      offset = literal_value c.2;
      rest = map look c.3.now;
    }) result (pointer_at size (map look tokens.now)) }
{
    match tokens {
        [Token::Mark(Sign::Close), Token::Mark(Sign::Open), rest @ ..] => {
            let (base, offset, rest) = address(rest)?;
            closed(size, base, offset, rest)
        }
        _ => None,
    }
}

/// Reads `(u8 *)(R + n)`: the size, the base, the offset, and what follows.
#[tactic(auto, unfolding(crate::specs::Private::Pieces::cell_at))]
pub fn cell<'t, 'a>(tokens: &'t [Token<'a>]) -> Option<(Keyword, Reg, Literal<'a>, &'t [Token<'a>])>
    ensures { Gives (λ c. record {
      size = c.0;
      base = c.1;
      offset = literal_value c.2;
      rest = map look c.3.now;
    }) result (cell_at (map look tokens.now)) }
{
    match tokens {
        [
            Token::Mark(Sign::Open),
            Token::Word(size),
            Token::Mark(Sign::Star),
            rest @ ..,
        ] => pointer(*size, rest),
        _ => None,
    }
}

/// The width of an atomic operation on as many bytes.
#[tactic(auto, unfolding(crate::specs::Private::Pieces::cell_width))]
pub fn cell_width(size: Keyword) -> Option<Width>
    ensures { result ≡ cell_width size }
{
    match size {
        Keyword::Unsigned(Size::Word) => Some(Width::Bits32),
        Keyword::Unsigned(Size::Double) => Some(Width::Bits64),
        _ => None,
    }
}
