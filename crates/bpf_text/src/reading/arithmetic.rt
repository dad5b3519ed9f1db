//! Operations on a register, sign extensions and byte swaps.

ghost use Rattle.std.specs.Prelude.{◌≡◌, map};
ghost use Rattle.bpf_text.specs.Private.Look.{look};
ghost use Rattle.bpf_text.specs.Private.Lines.{alu_at, alu_end, operation_at, extend_at, swap_at};
ghost use Rattle.bpf_text.specs.Private.Pieces.{extension_of};
ghost use Rattle.bpf_text.specs.Private.Judging.{Judged, operand_of};

use crate::reading::operand::{self, RawOperand};
use crate::reading::{Draft, LineError, ends, operator, plain};
use crate::registers;
use crate::token::Token;
use bpf_insn::{AluOp, ByteSwap, Insn, Reg, SignExtension, SignedSize, SwapWidth, Width};
use bpf_spelling::{Keyword, Sign, operators};

/// After the second operand.
#[tactic(auto, unfolding(crate::specs::Private::Lines::alu_end))]
fn alu_end<'a>(
    width: Width,
    dst: Reg,
    op: AluOp,
    src: RawOperand<'a>,
    tokens: &[Token<'a>],
) -> Result<Draft<'a>, LineError>
    ensures { Judged result (alu_end width dst op (operand_of src.entry) (map look tokens.now)) }
{
    match tokens {
        [] => {
            let Some(src) = src.operand() else {
                return Err(LineError::BadNumber);
            };
            plain(Insn::Alu {
                width,
                op,
                dst,
                src,
            })
        }
        _ => Err(LineError::BadLine),
    }
}

/// After an operation's sign.
#[tactic(auto, unfolding(crate::specs::Private::Lines::alu_at))]
pub(crate) fn alu<'a>(
    width: Width,
    dst: Reg,
    op: AluOp,
    tokens: &[Token<'a>],
) -> Result<Draft<'a>, LineError>
    ensures { Judged result (alu_at width dst op (map look tokens.now)) }
{
    let Some((src, rest)) = operand::operand(width, tokens) else {
        return Err(LineError::BadLine);
    };
    alu_end(width, dst, op, src, rest)
}

/// After a register: an operation's sign, and the second operand.
#[tactic(auto, unfolding(crate::specs::Private::Lines::operation_at))]
pub(crate) fn operation<'a>(
    width: Width,
    dst: Reg,
    tokens: &[Token<'a>],
) -> Result<Draft<'a>, LineError>
    ensures { Judged result (operation_at width dst (map look tokens.now)) }
{
    let Some((operator, rest)) = operator::operator(tokens) else {
        return Err(LineError::BadLine);
    };
    let Some(op) = operators::operation_named(operator) else {
        return Err(LineError::BadLine);
    };
    alu(width, dst, op, rest)
}

#[tactic(auto, unfolding(crate::specs::Private::Pieces::extension_of))]
pub(crate) fn extension(width: Width, size: SignedSize) -> Option<SignExtension>
    ensures { result ≡ extension_of width size }
{
    match (width, size) {
        (Width::Bits32, SignedSize::Byte) => Some(SignExtension::From8To32),
        (Width::Bits32, SignedSize::Half) => Some(SignExtension::From16To32),
        (Width::Bits32, SignedSize::Word) => None,
        (Width::Bits64, SignedSize::Byte) => Some(SignExtension::From8To64),
        (Width::Bits64, SignedSize::Half) => Some(SignExtension::From16To64),
        (Width::Bits64, SignedSize::Word) => Some(SignExtension::From32To64),
    }
}

/// After `= (`.
#[tactic(auto, unfolding(crate::specs::Private::Lines::extend_at))]
pub(crate) fn sign_extension<'a>(
    width: Width,
    dst: Reg,
    tokens: &[Token<'a>],
) -> Result<Draft<'a>, LineError>
    ensures { Judged result (extend_at width dst (map look tokens.now)) }
{
    match tokens {
        [
            Token::Word(Keyword::Extended(size)),
            Token::Mark(Sign::Close),
            Token::Register(w, src),
            rest @ ..,
        ] => {
            if !registers::same_width(*w, width) {
                return Err(LineError::BadLine);
            }
            let Some(extension) = extension(width, *size) else {
                return Err(LineError::BadLine);
            };
            let src = *src;
            ends(
                Insn::SignExtend {
                    extension,
                    dst,
                    src,
                },
                rest,
            )
        }
        _ => Err(LineError::BadLine),
    }
}

/// After `R = be16`.
#[tactic(auto, unfolding(crate::specs::Private::Lines::swap_at))]
pub(crate) fn swap<'a>(
    width: Width,
    dst: Reg,
    swap: ByteSwap,
    bits: SwapWidth,
    tokens: &[Token<'a>],
) -> Result<Draft<'a>, LineError>
    ensures { Judged result (swap_at width dst swap bits (map look tokens.now)) }
{
    match (width, tokens) {
        (Width::Bits64, [Token::Register(Width::Bits64, src), rest @ ..]) => {
            if registers::same_register(*src, dst) {
                let width = bits;
                ends(Insn::SwapBytes { swap, width, dst }, rest)
            } else {
                Err(LineError::BadLine)
            }
        }
        _ => Err(LineError::BadLine),
    }
}
