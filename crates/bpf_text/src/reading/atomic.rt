//! Atomic operations: those that `lock` begins, and those whose result a register takes.

ghost use Rattle.std.specs.Prelude.{map};
ghost use Rattle.bpf_text.specs.Private.Look.{look};
ghost use Rattle.bpf_text.specs.Private.Lines.{atomic_end, atomic_at, fetch_at, fetched_at, exchange_at, compared_at, expected_at, compare_exchange_at, locked_at, lock_at};
ghost use Rattle.bpf_text.specs.Private.Judging.{Judged, literal_value};

use crate::numbers::Literal;
use crate::reading::{Draft, LineError, address, plain};
use crate::registers;
use crate::token::Token;
use bpf_insn::{AtomicOp, Insn, Reg, Width};
use bpf_spelling::{Keyword, Sign, atomics};

/// The atomic operation, where the line ends.
#[tactic(auto, unfolding(crate::specs::Private::Lines::atomic_end))]
fn atomic_end<'a>(
    op: AtomicOp,
    width: Width,
    base: Reg,
    offset: Literal<'a>,
    src: Reg,
    tokens: &[Token<'a>],
) -> Result<Draft<'a>, LineError>
    ensures { Judged
        result (atomic_end op width base (literal_value offset.entry) src (map look tokens.now)) }
{
    match tokens {
        [] => {
            let Some(offset) = offset.offset() else {
                return Err(LineError::BadNumber);
            };
            plain(Insn::Atomic {
                width,
                op,
                base,
                offset,
                src,
            })
        }
        _ => Err(LineError::BadLine),
    }
}

/// After the place of an operation that fetches: `, R)`.
#[tactic(auto, unfolding(crate::specs::Private::Lines::atomic_at))]
fn fetched<'a>(
    op: AtomicOp,
    width: Width,
    dst: Reg,
    base: Reg,
    offset: Literal<'a>,
    tokens: &[Token<'a>],
) -> Result<Draft<'a>, LineError>
    ensures { Judged
        result (atomic_at op width dst base (literal_value offset.entry) (map look tokens.now)) }
{
    match tokens {
        [
            Token::Mark(Sign::Comma),
            Token::Register(w, src),
            Token::Mark(Sign::Close),
            rest @ ..,
        ] => {
            if registers::same_width(*w, width) && registers::same_register(*src, dst) {
                atomic_end(op, width, base, offset, dst, rest)
            } else {
                Err(LineError::BadLine)
            }
        }
        _ => Err(LineError::BadLine),
    }
}

/// After `= atomic_fetch_add`.
#[tactic(auto, unfolding(crate::specs::Private::Lines::fetch_at))]
fn fetch<'a>(
    op: AtomicOp,
    width: Width,
    dst: Reg,
    tokens: &[Token<'a>],
) -> Result<Draft<'a>, LineError>
    ensures { Judged result (fetch_at op width dst (map look tokens.now)) }
{
    match tokens {
        [Token::Mark(Sign::Open), rest @ ..] => {
            let Some((size, base, offset, rest)) = address::cell(rest) else {
                return Err(LineError::BadLine);
            };
            let Some(w) = address::cell_width(size) else {
                return Err(LineError::BadLine);
            };
            if registers::same_width(w, width) {
                fetched(op, width, dst, base, offset, rest)
            } else {
                Err(LineError::BadLine)
            }
        }
        _ => Err(LineError::BadLine),
    }
}

/// After `=` and a name.
#[tactic(auto, unfolding(crate::specs::Private::Lines::fetched_at))]
pub(crate) fn fetched_by<'a>(
    width: Width,
    dst: Reg,
    name: Keyword,
    tokens: &[Token<'a>],
) -> Result<Draft<'a>, LineError>
    ensures { Judged result (fetched_at width dst name (map look tokens.now)) }
{
    let Some(op) = atomics::fetched_op(name) else {
        return Err(LineError::BadLine);
    };
    fetch(op, width, dst, tokens)
}

/// After `= xchg_64`.
#[tactic(auto, unfolding(crate::specs::Private::Lines::exchange_at))]
pub(crate) fn exchange<'a>(
    width: Width,
    dst: Reg,
    tokens: &[Token<'a>],
) -> Result<Draft<'a>, LineError>
    ensures { Judged result (exchange_at width dst (map look tokens.now)) }
{
    match tokens {
        [Token::Mark(Sign::Open), rest @ ..] => {
            let Some((base, offset, rest)) = address::address(rest) else {
                return Err(LineError::BadLine);
            };
            fetched(AtomicOp::Exchange, width, dst, base, offset, rest)
        }
        _ => Err(LineError::BadLine),
    }
}

/// After `cmpxchg_64(R + n, r0`.
#[tactic(auto, unfolding(crate::specs::Private::Lines::compared_at))]
fn compared<'a>(
    width: Width,
    base: Reg,
    offset: Literal<'a>,
    tokens: &[Token<'a>],
) -> Result<Draft<'a>, LineError>
    ensures { Judged result (compared_at width base (literal_value offset.entry)
        (map look tokens.now)) }
{
    match tokens {
        [
            Token::Mark(Sign::Comma),
            Token::Register(w, src),
            Token::Mark(Sign::Close),
            rest @ ..,
        ] => {
            if registers::same_width(*w, width) {
                let op = AtomicOp::CompareExchange;
                atomic_end(op, width, base, offset, *src, rest)
            } else {
                Err(LineError::BadLine)
            }
        }
        _ => Err(LineError::BadLine),
    }
}

/// After `cmpxchg_64(R + n`.
#[tactic(auto, unfolding(crate::specs::Private::Lines::expected_at))]
fn expected<'a>(
    width: Width,
    base: Reg,
    offset: Literal<'a>,
    tokens: &[Token<'a>],
) -> Result<Draft<'a>, LineError>
    ensures { Judged result (expected_at width base (literal_value offset.entry)
        (map look tokens.now)) }
{
    match tokens {
        [
            Token::Mark(Sign::Comma),
            Token::Register(w, Reg::R0),
            rest @ ..,
        ] => {
            if registers::same_width(*w, width) {
                compared(width, base, offset, rest)
            } else {
                Err(LineError::BadLine)
            }
        }
        _ => Err(LineError::BadLine),
    }
}

/// After `R = cmpxchg_64`.
#[tactic(auto, unfolding(crate::specs::Private::Lines::compare_exchange_at))]
pub(crate) fn compare_exchange<'a>(
    width: Width,
    dst: Reg,
    tokens: &[Token<'a>],
) -> Result<Draft<'a>, LineError>
    ensures { Judged result (compare_exchange_at width dst (map look tokens.now)) }
{
    match (dst, tokens) {
        (Reg::R0, [Token::Mark(Sign::Open), rest @ ..]) => {
            let Some((base, offset, rest)) = address::address(rest) else {
                return Err(LineError::BadLine);
            };
            expected(width, base, offset, rest)
        }
        _ => Err(LineError::BadLine),
    }
}

/// After `lock *(u64 *)(R + n)`.
#[tactic(auto, unfolding(crate::specs::Private::Lines::locked_at))]
fn locked<'a>(
    width: Width,
    base: Reg,
    offset: Literal<'a>,
    tokens: &[Token<'a>],
) -> Result<Draft<'a>, LineError>
    ensures { Judged result (locked_at width base (literal_value offset.entry)
        (map look tokens.now)) }
{
    match tokens {
        [
            Token::Mark(sign),
            Token::Register(Width::Bits64, src),
            rest @ ..,
        ] => {
            let Some(op) = atomics::locked_op(*sign) else {
                return Err(LineError::BadLine);
            };
            atomic_end(op, width, base, offset, *src, rest)
        }
        _ => Err(LineError::BadLine),
    }
}

/// After `lock`.
#[tactic(auto, unfolding(crate::specs::Private::Lines::lock_at))]
pub(crate) fn lock<'a>(tokens: &[Token<'a>]) -> Result<Draft<'a>, LineError>
    ensures { Judged result (lock_at (map look tokens.now)) }
{
    match tokens {
        [Token::Mark(Sign::Star), rest @ ..] => {
            let Some((size, base, offset, rest)) = address::cell(rest) else {
                return Err(LineError::BadLine);
            };
            let Some(width) = address::cell_width(size) else {
                return Err(LineError::BadLine);
            };
            locked(width, base, offset, rest)
        }
        _ => Err(LineError::BadLine),
    }
}
