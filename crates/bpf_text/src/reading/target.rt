//! A jump's target.

ghost use Rattle.std.specs.Prelude.{◌≡◌, map, None};
ghost use Rattle.bpf_lines.specs.Words.{numeral_value};
ghost use Rattle.bpf_text.specs.Private.Look.{look};
ghost use Rattle.bpf_text.specs.Private.Pieces.{label_at, target_at};
ghost use Rattle.bpf_text.specs.Private.Judging.{Gives, signed_of, target_of};

use crate::numbers::Literal;
use crate::token::Token;
use crate::words;
use bpf_lines::numbers::Radix;
use bpf_spelling::Sign;

/// A jump's target: a distance of any size, or a label.
#[derive(Clone, Copy)]
pub enum RawTarget<'a> {
    Distance(Literal<'a>),
    Label(&'a [u8]),
}

impl<'a> RawTarget<'a> {
    fn distance(is_negative: bool, radix: Radix, digits: &'a [u8]) -> Self
        ensures { target_of
            result ≡ record {
              distance = signed_of is_negative
                  (numeral_value radix digits.now);
              name = None;
            } }
    {
        RawTarget::Distance(Literal::new(is_negative, radix, digits))
    }
}

/// Reads a target, which ends its line.
#[tactic(auto, unfolding(crate::specs::Private::Pieces::target_at, crate::specs::Private::Pieces::label_at))]
pub fn target<'a>(tokens: &[Token<'a>]) -> Option<RawTarget<'a>>
    ensures { Gives target_of result (target_at (map look tokens.now)) }
{
    match tokens {
        [Token::Mark(Sign::Plus), Token::Number(radix, digits)] => {
            Some(RawTarget::distance(false, *radix, *digits))
        }
        [Token::Mark(Sign::Minus), Token::Number(radix, digits)] => {
            Some(RawTarget::distance(true, *radix, *digits))
        }
        [token] => Some(RawTarget::Label(words::name(token)?)),
        _ => None,
    }
}
