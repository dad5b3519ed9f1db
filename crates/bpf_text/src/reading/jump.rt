//! Jumps, branches and calls.

ghost use Rattle.std.specs.Prelude.{map};
ghost use Rattle.bpf_lines.specs.Words.{numeral_value};
ghost use Rattle.bpf_text.specs.Private.Look.{look};
ghost use Rattle.bpf_text.specs.Private.Lines.{jump_at, jump_long_at, branch_to, branch_end, branch_at, helper_at, call_local_at, call_at};
ghost use Rattle.bpf_text.specs.Private.Judging.{Judged, operand_of, target_of};

use crate::numbers::natural;
use crate::reading::operand::{self, RawOperand};
use crate::reading::target::{self, RawTarget};
use crate::reading::{Draft, LineError, operator, plain};
use crate::token::Token;
use bpf_insn::{Condition, Insn, Reg, Width};
use bpf_lines::numbers::Radix;
use bpf_spelling::{Keyword, operators};

/// After `goto`.
#[tactic(auto, unfolding(crate::specs::Private::Lines::jump_at))]
pub(crate) fn jump<'a>(tokens: &[Token<'a>]) -> Result<Draft<'a>, LineError>
    ensures { Judged result (jump_at (map look tokens.now)) }
{
    match target::target(tokens) {
        Some(RawTarget::Distance(distance)) => {
            let Some(offset) = distance.offset() else {
                return Err(LineError::BadNumber);
            };
            plain(Insn::Jump { offset })
        }
        Some(RawTarget::Label(name)) => Ok(Draft {
            insn: Insn::Jump { offset: 0 },
            target: Some(name),
        }),
        None => Err(LineError::BadLine),
    }
}

/// After `gotol`.
#[tactic(auto, unfolding(crate::specs::Private::Lines::jump_long_at))]
pub(crate) fn jump_long<'a>(tokens: &[Token<'a>]) -> Result<Draft<'a>, LineError>
    ensures { Judged result (jump_long_at (map look tokens.now)) }
{
    match target::target(tokens) {
        Some(RawTarget::Distance(distance)) => {
            let Some(offset) = distance.immediate() else {
                return Err(LineError::BadNumber);
            };
            plain(Insn::JumpLong { offset })
        }
        Some(RawTarget::Label(name)) => Ok(Draft {
            insn: Insn::JumpLong { offset: 0 },
            target: Some(name),
        }),
        None => Err(LineError::BadLine),
    }
}

/// A branch that its target ends.
#[tactic(auto, unfolding(crate::specs::Private::Lines::branch_to))]
fn branch_to<'a>(
    width: Width,
    condition: Condition,
    dst: Reg,
    src: RawOperand<'a>,
    target: RawTarget<'a>,
) -> Result<Draft<'a>, LineError>
    ensures { Judged
        result (branch_to width condition dst (operand_of src.entry) (target_of target.entry)) }
{
    let Some(src) = src.operand() else {
        return Err(LineError::BadNumber);
    };
    match target {
        RawTarget::Distance(distance) => {
            let Some(offset) = distance.offset() else {
                return Err(LineError::BadNumber);
            };
            plain(Insn::JumpIf {
                width,
                condition,
                dst,
                src,
                offset,
            })
        }
        RawTarget::Label(name) => Ok(Draft {
            insn: Insn::JumpIf {
                width,
                condition,
                dst,
                src,
                offset: 0,
            },
            target: Some(name),
        }),
    }
}

/// After `if R == R`.
#[tactic(auto, unfolding(crate::specs::Private::Lines::branch_end))]
fn branch_end<'a>(
    width: Width,
    condition: Condition,
    dst: Reg,
    src: RawOperand<'a>,
    tokens: &[Token<'a>],
) -> Result<Draft<'a>, LineError>
    ensures { Judged result (branch_end width condition dst (operand_of src.entry)
        (map look tokens.now)) }
{
    match tokens {
        [Token::Word(Keyword::Goto), rest @ ..] => {
            let Some(target) = target::target(rest) else {
                return Err(LineError::BadLine);
            };
            branch_to(width, condition, dst, src, target)
        }
        _ => Err(LineError::BadLine),
    }
}

/// After `if`.
#[tactic(auto, unfolding(crate::specs::Private::Lines::branch_at))]
pub(crate) fn branch<'a>(tokens: &[Token<'a>]) -> Result<Draft<'a>, LineError>
    ensures { Judged result (branch_at (map look tokens.now)) }
{
    match tokens {
        [Token::Register(width, dst), rest @ ..] => {
            let Some((operator, rest)) = operator::operator(rest) else {
                return Err(LineError::BadLine);
            };
            let Some(condition) = operators::condition_named(operator) else {
                return Err(LineError::BadLine);
            };
            let Some((src, rest)) = operand::operand(*width, rest) else {
                return Err(LineError::BadLine);
            };
            branch_end(*width, condition, *dst, src, rest)
        }
        _ => Err(LineError::BadLine),
    }
}

/// After `call`, a number.
#[tactic(auto, unfolding(crate::specs::Private::Lines::helper_at))]
fn call_helper<'a>(
    radix: Radix,
    digits: &'a [u8],
    tokens: &[Token<'a>],
) -> Result<Draft<'a>, LineError>
    ensures { Judged result (helper_at (numeral_value radix digits.now) (map look tokens.now)) }
{
    match tokens {
        [] => {
            let Some(number) = natural(radix, digits) else {
                return Err(LineError::BadNumber);
            };
            plain(Insn::CallHelper { number })
        }
        _ => Err(LineError::BadLine),
    }
}

/// After `call`, a target.
#[tactic(auto, unfolding(crate::specs::Private::Lines::call_local_at))]
fn call_local<'a>(tokens: &[Token<'a>]) -> Result<Draft<'a>, LineError>
    ensures { Judged result (call_local_at (map look tokens.now)) }
{
    match target::target(tokens) {
        Some(RawTarget::Distance(distance)) => {
            let Some(offset) = distance.immediate() else {
                return Err(LineError::BadNumber);
            };
            plain(Insn::CallLocal { offset })
        }
        Some(RawTarget::Label(name)) => Ok(Draft {
            insn: Insn::CallLocal { offset: 0 },
            target: Some(name),
        }),
        None => Err(LineError::BadLine),
    }
}

/// After `call`.
#[tactic(auto, unfolding(crate::specs::Private::Lines::call_at))]
pub(crate) fn call<'a>(tokens: &[Token<'a>]) -> Result<Draft<'a>, LineError>
    ensures { Judged result (call_at (map look tokens.now)) }
{
    match tokens {
        [Token::Number(radix, digits), rest @ ..] => call_helper(*radix, *digits, rest),
        _ => call_local(tokens),
    }
}
