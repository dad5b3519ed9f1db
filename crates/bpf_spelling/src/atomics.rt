//! How atomic operations are written: a row an operation.

ghost use Rattle.std.specs.Prelude.{◌≡◌};
ghost use Rattle.bpf_spelling.specs.Operators.{atomic_form, is_locked_by, is_fetched_by, locked_op, fetched_op};

use crate::keywords::Keyword;
use crate::signs::Sign;
use bpf_insn::{ATOMIC_OPS, AtomicOp};

/// The form of an atomic operation.
#[derive(Clone, Copy)]
pub enum AtomicForm {
    /// `lock *(u64 *)(R + n) += R`, with this sign.
    Locked(Sign),
    /// `R = atomic_fetch_add((u64 *)(R + n), R)`, with this name.
    Fetch(Keyword),
    /// `R = xchg_64(R + n, R)`.
    Exchange,
    /// `r0 = cmpxchg_64(R + n, r0, R)`.
    CompareExchange,
}

/// How an atomic operation is written.
pub fn atomic_form(op: AtomicOp) -> AtomicForm
    ensures { result ≡ atomic_form op }
{
    match op {
        AtomicOp::Add => AtomicForm::Locked(Sign::AddAssign),
        AtomicOp::Or => AtomicForm::Locked(Sign::OrAssign),
        AtomicOp::And => AtomicForm::Locked(Sign::AndAssign),
        AtomicOp::Xor => AtomicForm::Locked(Sign::XorAssign),
        AtomicOp::FetchAdd => AtomicForm::Fetch(Keyword::FetchAdd),
        AtomicOp::FetchOr => AtomicForm::Fetch(Keyword::FetchOr),
        AtomicOp::FetchAnd => AtomicForm::Fetch(Keyword::FetchAnd),
        AtomicOp::FetchXor => AtomicForm::Fetch(Keyword::FetchXor),
        AtomicOp::Exchange => AtomicForm::Exchange,
        AtomicOp::CompareExchange => AtomicForm::CompareExchange,
    }
}

impl AtomicForm {
    fn is_locked_by(self, sign: Sign) -> bool
        ensures { result ≡ is_locked_by self sign }
    {
        match self {
            AtomicForm::Locked(other) => other.is_same(sign),
            _ => false,
        }
    }

    fn is_fetched_by(self, name: Keyword) -> bool
        ensures { result ≡ is_fetched_by self name }
    {
        match self {
            AtomicForm::Fetch(other) => other.is_same(name),
            _ => false,
        }
    }
}

/// The locked operation with this sign.
#[tactic(auto, unfolding(crate::specs::Operators::locked_op))]
pub fn locked_op(sign: Sign) -> Option<AtomicOp>
    ensures { result ≡ locked_op sign }
{
    ATOMIC_OPS
        .iter()
        .copied()
        .find(|op| atomic_form(*op).is_locked_by(sign))
}

/// The fetching operation with this name.
#[tactic(auto, unfolding(crate::specs::Operators::fetched_op))]
pub fn fetched_op(name: Keyword) -> Option<AtomicOp>
    ensures { result ≡ fetched_op name }
{
    ATOMIC_OPS
        .iter()
        .copied()
        .find(|op| atomic_form(*op).is_fetched_by(name))
}
