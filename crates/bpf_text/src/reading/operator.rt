//! What is between two operands.

ghost use Rattle.std.specs.Prelude.{map};
ghost use Rattle.bpf_text.specs.Private.Look.{look};
ghost use Rattle.bpf_text.specs.Private.Pieces.{operator_at};
ghost use Rattle.bpf_text.specs.Private.Judging.{Gives};

use crate::token::Token;
use bpf_spelling::{Keyword, Operator};

/// Reads a sign, perhaps after `s`, and gives what follows.
#[tactic(auto, unfolding(crate::specs::Private::Pieces::operator_at))]
pub fn operator<'t, 'a>(tokens: &'t [Token<'a>]) -> Option<(Operator, &'t [Token<'a>])>
    ensures { Gives (λ m. record { operator = m.0; rest = map look m.1.now })
        result (operator_at (map look tokens.now)) }
{
    match tokens {
        [Token::Word(Keyword::Signed), Token::Mark(sign), rest @ ..] => Some((
            Operator::Signed(*sign),
            rest,
        )),
        [Token::Mark(sign), rest @ ..] => Some((Operator::Plain(*sign), rest)),
        _ => None,
    }
}
