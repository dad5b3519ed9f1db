//! Atomic operations: their immediates, what they make of the number in memory, and the register
//! that gets the number found (RFC 9669, section 5.3).

ghost use Rattle.std.specs.Prelude.{◌≡◌};
ghost use Rattle.bpf_insn.specs.Atomic.{atomic_code, change_of, fetched_into};
ghost use Rattle.bpf_insn.specs.Private.Lookup.{atomic_op_at};

use crate::register::Reg;
use bpf_base::Change;

/// What is done in one step with the number in memory (RFC 9669, section 5.3).
#[derive(Clone, Copy, PartialEq, Eq, Debug)]
pub enum AtomicOp {
    /// Adds `src`, without the carry.
    Add,
    /// Sets the bits of `src`.
    Or,
    /// Keeps the bits of `src`.
    And,
    /// Flips the bits of `src`.
    Xor,
    /// Adds `src`, and gives it the number that was there.
    FetchAdd,
    /// Sets the bits of `src`, and gives it the number that was there.
    FetchOr,
    /// Keeps the bits of `src`, and gives it the number that was there.
    FetchAnd,
    /// Flips the bits of `src`, and gives it the number that was there.
    FetchXor,
    /// Stores `src`, and gives it the number that was there.
    Exchange,
    /// Stores `src` where the number equals R0, and gives R0 the number that was there.
    CompareExchange,
}

/// All atomic operations.
pub const ATOMIC_OPS: [AtomicOp; 10] = [
    AtomicOp::Add,
    AtomicOp::Or,
    AtomicOp::And,
    AtomicOp::Xor,
    AtomicOp::FetchAdd,
    AtomicOp::FetchOr,
    AtomicOp::FetchAnd,
    AtomicOp::FetchXor,
    AtomicOp::Exchange,
    AtomicOp::CompareExchange,
];

impl AtomicOp {
    /// The operation of this immediate.
    #[tactic(auto, unfolding(crate::specs::Private::Lookup::atomic_op_at))]
    pub(crate) fn from_code(code: u32) -> Option<AtomicOp>
        ensures { result ≡ atomic_op_at code }
    {
        ATOMIC_OPS.iter().copied().find(|op| op.code() == code)
    }

    pub(crate) fn code(self) -> u32
        ensures { result ≡ atomic_code self }
    {
        match self {
            AtomicOp::Add => 0x00,
            AtomicOp::Or => 0x40,
            AtomicOp::And => 0x50,
            AtomicOp::Xor => 0xa0,
            AtomicOp::FetchAdd => 0x01,
            AtomicOp::FetchOr => 0x41,
            AtomicOp::FetchAnd => 0x51,
            AtomicOp::FetchXor => 0xa1,
            AtomicOp::Exchange => 0xe1,
            AtomicOp::CompareExchange => 0xf1,
        }
    }

    /// What it makes of the number in memory, fetching or not.
    #[inline]
    pub fn change(self) -> Change
        ensures { result ≡ change_of self }
    {
        match self {
            AtomicOp::Add | AtomicOp::FetchAdd => Change::Add,
            AtomicOp::Or | AtomicOp::FetchOr => Change::Or,
            AtomicOp::And | AtomicOp::FetchAnd => Change::And,
            AtomicOp::Xor | AtomicOp::FetchXor => Change::Xor,
            AtomicOp::Exchange => Change::Exchange,
            AtomicOp::CompareExchange => Change::CompareExchange,
        }
    }

    /// The register that gets the number found, of an operation whose operand is in `src`.
    #[inline]
    pub fn fetched_into(self, src: Reg) -> Option<Reg>
        ensures { result ≡ fetched_into self src }
    {
        match self {
            AtomicOp::Add | AtomicOp::Or | AtomicOp::And | AtomicOp::Xor => None,
            AtomicOp::FetchAdd
            | AtomicOp::FetchOr
            | AtomicOp::FetchAnd
            | AtomicOp::FetchXor
            | AtomicOp::Exchange => Some(src),
            AtomicOp::CompareExchange => Some(Reg::R0),
        }
    }
}
