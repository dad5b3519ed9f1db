//! Loads and stores.

ghost use Rattle.std.specs.Prelude.{map};
ghost use Rattle.bpf_text.specs.Private.Look.{look};
ghost use Rattle.bpf_text.specs.Private.Lines.{loaded_at, load_at, stored_end, stored_at, store_at};
ghost use Rattle.bpf_text.specs.Private.Judging.{Judged, literal_value, operand_of};

use crate::numbers::Literal;
use crate::reading::operand::{self, RawOperand};
use crate::reading::{Draft, LineError, address, plain};
use crate::token::Token;
use bpf_insn::{Insn, Operand, Reg, Width};
use bpf_spelling::{Keyword, Sign};

/// After `R = *(u8 *)(R + n)`.
#[tactic(auto, unfolding(crate::specs::Private::Lines::loaded_at))]
fn loaded<'a>(
    dst: Reg,
    size: Keyword,
    base: Reg,
    offset: Literal<'a>,
    tokens: &[Token<'a>],
) -> Result<Draft<'a>, LineError>
    ensures { Judged result (loaded_at dst size base (literal_value offset.entry)
        (map look tokens.now)) }
{
    match (size, tokens) {
        (Keyword::Unsigned(size), []) => {
            let Some(offset) = offset.offset() else {
                return Err(LineError::BadNumber);
            };
            plain(Insn::Load {
                size,
                dst,
                base,
                offset,
            })
        }
        (Keyword::Extended(size), []) => {
            let Some(offset) = offset.offset() else {
                return Err(LineError::BadNumber);
            };
            plain(Insn::LoadSigned {
                size,
                dst,
                base,
                offset,
            })
        }
        _ => Err(LineError::BadLine),
    }
}

/// After `= *`.
#[tactic(auto, unfolding(crate::specs::Private::Lines::load_at))]
pub(crate) fn load<'a>(width: Width, dst: Reg, tokens: &[Token<'a>]) -> Result<Draft<'a>, LineError>
    ensures { Judged result (load_at width dst (map look tokens.now)) }
{
    match width {
        Width::Bits32 => Err(LineError::BadLine),
        Width::Bits64 => {
            let Some((size, base, offset, rest)) = address::cell(tokens) else {
                return Err(LineError::BadLine);
            };
            loaded(dst, size, base, offset, rest)
        }
    }
}

/// After `*(u8 *)(R + n) = R`.
#[tactic(auto, unfolding(crate::specs::Private::Lines::stored_end))]
fn stored_end<'a>(
    size: Keyword,
    base: Reg,
    offset: Literal<'a>,
    src: RawOperand<'a>,
    tokens: &[Token<'a>],
) -> Result<Draft<'a>, LineError>
    ensures { Judged
        result (stored_end size base (literal_value offset.entry) (operand_of src.entry)
        (map look tokens.now)) }
{
    match (size, tokens) {
        (Keyword::Unsigned(size), []) => {
            let Some(offset) = offset.offset() else {
                return Err(LineError::BadNumber);
            };
            let Some(src) = src.operand() else {
                return Err(LineError::BadNumber);
            };
            match src {
                Operand::Immediate(value) => plain(Insn::StoreImmediate {
                    size,
                    base,
                    offset,
                    value,
                }),
                Operand::Register(src) => plain(Insn::Store {
                    size,
                    base,
                    offset,
                    src,
                }),
            }
        }
        _ => Err(LineError::BadLine),
    }
}

/// After `*(u8 *)(R + n)`.
#[tactic(auto, unfolding(crate::specs::Private::Lines::stored_at))]
fn stored<'a>(
    size: Keyword,
    base: Reg,
    offset: Literal<'a>,
    tokens: &[Token<'a>],
) -> Result<Draft<'a>, LineError>
    ensures { Judged result (stored_at size base (literal_value offset.entry)
        (map look tokens.now)) }
{
    match tokens {
        [Token::Mark(Sign::Assign), rest @ ..] => {
            let Some((src, rest)) = operand::operand(Width::Bits64, rest) else {
                return Err(LineError::BadLine);
            };
            stored_end(size, base, offset, src, rest)
        }
        _ => Err(LineError::BadLine),
    }
}

/// After `*`.
#[tactic(auto, unfolding(crate::specs::Private::Lines::store_at))]
pub(crate) fn store<'a>(tokens: &[Token<'a>]) -> Result<Draft<'a>, LineError>
    ensures { Judged result (store_at (map look tokens.now)) }
{
    let Some((size, base, offset, rest)) = address::cell(tokens) else {
        return Err(LineError::BadLine);
    };
    stored(size, base, offset, rest)
}
