//! The second operand.

ghost use Rattle.std.specs.Prelude.{◌≡◌, map, MatchOption};
ghost use Rattle.bpf_insn.specs.declared.instruction.Operand.TheVariants as operand;
ghost use Rattle.bpf_lines.specs.Words.{numeral_value};
ghost use Rattle.bpf_text.specs.Private.Look.{look};
ghost use Rattle.bpf_text.specs.Private.Pieces.{operand_at};
ghost use Rattle.bpf_text.specs.Private.Judging.{Gives, signed_of, operand_of, FitsOperand};

use crate::numbers::Literal;
use crate::registers;
use crate::token::Token;
use bpf_insn::{Operand, Reg, Width};
use bpf_lines::numbers::Radix;
use bpf_spelling::Sign;

/// The second operand, its number of any size.
#[derive(Clone, Copy)]
pub enum RawOperand<'a> {
    Register(Reg),
    Number(Literal<'a>),
}

impl RawOperand<'_> {
    /// The operand, if its number fits.
    pub fn operand(self) -> Option<Operand>
        ensures { MatchOption result (FitsOperand (operand_of self.entry) → ⊥)
            (λ s. s ≡ operand_of self.entry) }
    {
        match self {
            RawOperand::Register(register) => Some(Operand::Register(register)),
            RawOperand::Number(literal) => Some(Operand::Immediate(literal.immediate()?)),
        }
    }
}

impl<'a> RawOperand<'a> {
    fn number(is_negative: bool, radix: Radix, digits: &'a [u8]) -> Self
        ensures { operand_of
            result ≡ operand.Immediate (signed_of is_negative (numeral_value radix digits.now)) }
    {
        RawOperand::Number(Literal::new(is_negative, radix, digits))
    }
}

/// Reads the second operand, of this width, and gives what follows.
#[tactic(auto, unfolding(crate::specs::Private::Pieces::operand_at))]
pub fn operand<'t, 'a>(
    width: Width,
    tokens: &'t [Token<'a>],
) -> Option<(RawOperand<'a>, &'t [Token<'a>])>
    ensures { Gives (λ s. record { operand = operand_of s.0; rest = map look s.1.now })
        result (operand_at width (map look tokens.now)) }
{
    match tokens {
        [Token::Register(w, register), rest @ ..] => {
            if registers::same_width(*w, width) {
                Some((RawOperand::Register(*register), rest))
            } else {
                None
            }
        }
        [Token::Number(radix, digits), rest @ ..] => {
            Some((RawOperand::number(false, *radix, *digits), rest))
        }
        [
            Token::Mark(Sign::Minus),
            Token::Number(radix, digits),
            rest @ ..,
        ] => Some((RawOperand::number(true, *radix, *digits), rest)),
        _ => None,
    }
}
