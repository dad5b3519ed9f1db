//! Lines that begin with a register, and what it may be set to: a number, a map, or its own
//! negation.

ghost use Rattle.std.specs.Prelude.{map};
ghost use Rattle.bpf_lines.specs.Words.{numeral_value};
ghost use Rattle.bpf_text.specs.Private.Look.{look};
ghost use Rattle.bpf_text.specs.Private.Lines.{map_at, keyword_at, moved_at, wide_at, negative_at, number_at, assigned_at, register_at};
ghost use Rattle.bpf_text.specs.Private.Judging.{Judged, literal_value};

use crate::numbers::{Literal, natural};
use crate::reading::{Draft, LineError, arithmetic, atomic, ends, memory, plain};
use crate::registers;
use crate::token::Token;
use bpf_insn::{AluOp, Insn, Operand, Reg, Width};
use bpf_lines::numbers::{self, Radix};
use bpf_spelling::{Keyword, Sign};

/// After `R = map`.
#[tactic(auto, unfolding(crate::specs::Private::Lines::map_at))]
fn map<'a>(width: Width, dst: Reg, tokens: &[Token<'a>]) -> Result<Draft<'a>, LineError>
    ensures { Judged result (map_at width dst (map look tokens.now)) }
{
    match (width, tokens) {
        (Width::Bits64, [Token::Number(radix, digits)]) => {
            let Some(map) = natural(*radix, *digits) else {
                return Err(LineError::BadNumber);
            };
            plain(Insn::LoadMap { dst, map })
        }
        _ => Err(LineError::BadLine),
    }
}

/// After `=` and a keyword.
#[tactic(auto, unfolding(crate::specs::Private::Lines::keyword_at))]
fn assigned_by<'a>(
    width: Width,
    dst: Reg,
    keyword: Keyword,
    tokens: &[Token<'a>],
) -> Result<Draft<'a>, LineError>
    ensures { Judged result (keyword_at width dst keyword (map look tokens.now)) }
{
    match keyword {
        Keyword::Swap(kind, bits) => arithmetic::swap(width, dst, kind, bits, tokens),
        Keyword::Map => map(width, dst, tokens),
        Keyword::Exchange(w) => {
            if registers::same_width(w, width) {
                atomic::exchange(width, dst, tokens)
            } else {
                Err(LineError::BadLine)
            }
        }
        Keyword::CompareExchange(w) => {
            if registers::same_width(w, width) {
                atomic::compare_exchange(width, dst, tokens)
            } else {
                Err(LineError::BadLine)
            }
        }
        _ => atomic::fetched_by(width, dst, keyword, tokens),
    }
}

/// An immediate that is moved, where the line ends.
#[tactic(auto, unfolding(crate::specs::Private::Lines::moved_at))]
fn moved<'a>(
    width: Width,
    dst: Reg,
    value: Literal<'a>,
    tokens: &[Token<'a>],
) -> Result<Draft<'a>, LineError>
    ensures { Judged result (moved_at width dst (literal_value value.entry) (map look tokens.now)) }
{
    match tokens {
        [] => {
            let Some(number) = value.immediate() else {
                return Err(LineError::BadNumber);
            };
            let src = Operand::Immediate(number);
            let op = AluOp::Mov;
            plain(Insn::Alu {
                width,
                op,
                dst,
                src,
            })
        }
        _ => Err(LineError::BadLine),
    }
}

/// After `= -`.
#[tactic(auto, unfolding(crate::specs::Private::Lines::negative_at))]
fn negative<'a>(width: Width, dst: Reg, tokens: &[Token<'a>]) -> Result<Draft<'a>, LineError>
    ensures { Judged result (negative_at width dst (map look tokens.now)) }
{
    match tokens {
        [Token::Register(w, src), rest @ ..] => {
            if registers::same_width(*w, width) && registers::same_register(*src, dst) {
                ends(Insn::Negate { width, dst }, rest)
            } else {
                Err(LineError::BadLine)
            }
        }
        [Token::Number(radix, digits), rest @ ..] => {
            moved(width, dst, Literal::new(true, *radix, *digits), rest)
        }
        _ => Err(LineError::BadLine),
    }
}

/// After `= n ll`.
#[tactic(auto, unfolding(crate::specs::Private::Lines::wide_at))]
fn wide<'a>(dst: Reg, number: Literal<'a>, tokens: &[Token<'a>]) -> Result<Draft<'a>, LineError>
    ensures { Judged
        result (wide_at dst (numeral_value number.entry.radix number.entry.digits.now)
        (map look tokens.now)) }
{
    match tokens {
        [] => {
            let Some(number) = numbers::value(number.radix, number.digits) else {
                return Err(LineError::BadNumber);
            };
            plain(Insn::LoadNumber { dst, number })
        }
        _ => Err(LineError::BadLine),
    }
}

/// After `= n`.
#[tactic(auto, unfolding(crate::specs::Private::Lines::number_at))]
fn number<'a>(
    width: Width,
    dst: Reg,
    radix: Radix,
    digits: &'a [u8],
    tokens: &[Token<'a>],
) -> Result<Draft<'a>, LineError>
    ensures { Judged result (number_at width dst (numeral_value radix digits.now)
        (map look tokens.now)) }
{
    let literal = Literal::new(false, radix, digits);
    match (width, tokens) {
        (Width::Bits64, [Token::Word(Keyword::Wide), rest @ ..]) => wide(dst, literal, rest),
        _ => moved(width, dst, literal, tokens),
    }
}

/// After `=`.
#[tactic(auto, unfolding(crate::specs::Private::Lines::assigned_at))]
fn assigned<'a>(width: Width, dst: Reg, tokens: &[Token<'a>]) -> Result<Draft<'a>, LineError>
    ensures { Judged result (assigned_at width dst (map look tokens.now)) }
{
    match tokens {
        [Token::Mark(Sign::Minus), rest @ ..] => negative(width, dst, rest),
        [Token::Mark(Sign::Open), rest @ ..] => arithmetic::sign_extension(width, dst, rest),
        [Token::Mark(Sign::Star), rest @ ..] => memory::load(width, dst, rest),
        [Token::Word(keyword), rest @ ..] => assigned_by(width, dst, *keyword, rest),
        [Token::Number(radix, digits), rest @ ..] => number(width, dst, *radix, *digits, rest),
        _ => arithmetic::alu(width, dst, AluOp::Mov, tokens),
    }
}

/// After a register.
#[tactic(auto, unfolding(crate::specs::Private::Lines::register_at))]
pub(crate) fn register<'a>(
    width: Width,
    dst: Reg,
    tokens: &[Token<'a>],
) -> Result<Draft<'a>, LineError>
    ensures { Judged result (register_at width dst (map look tokens.now)) }
{
    match tokens {
        [Token::Mark(Sign::Assign), rest @ ..] => assigned(width, dst, rest),
        _ => arithmetic::operation(width, dst, tokens),
    }
}
