//! Conditions: of the class JMP on all 64 bits, of JMP32 on the lower halves of registers (RFC 9669,
//! section 4.3).

ghost use Rattle.std.specs.Prelude.{◌≡◌};
ghost use Rattle.bpf_insn.specs.declared.operation.widths.Width.TheVariants.{Bits32, Bits64};
ghost use Rattle.bpf_alu.specs.Comparison.{holds};

use crate::low::low32;
use bpf_insn::Condition;

/// Whether a condition holds of all 64 bits.
#[inline]
#[tactic(auto, unfolding(crate::specs::Comparison::holds))]
pub fn test64(condition: Condition, a: u64, b: u64) -> bool
    ensures { result ≡ holds Bits64 condition a b }
{
    match condition {
        Condition::Eq => a == b,
        Condition::Gt => a > b,
        Condition::Ge => a >= b,
        Condition::Set => a & b != 0,
        Condition::Ne => a != b,
        Condition::Sgt => a.cast_signed() > b.cast_signed(),
        Condition::Sge => a.cast_signed() >= b.cast_signed(),
        Condition::Lt => a < b,
        Condition::Le => a <= b,
        Condition::Slt => a.cast_signed() < b.cast_signed(),
        Condition::Sle => a.cast_signed() <= b.cast_signed(),
    }
}

/// Whether a condition holds of the lower halves.
#[inline]
#[tactic(auto, unfolding(crate::specs::Comparison::holds))]
pub fn test32(condition: Condition, a: u64, b: u64) -> bool
    ensures { result ≡ holds Bits32 condition a b }
{
    let (x, y) = (low32(a), low32(b));
    match condition {
        Condition::Eq => x == y,
        Condition::Gt => x > y,
        Condition::Ge => x >= y,
        Condition::Set => x & y != 0,
        Condition::Ne => x != y,
        Condition::Sgt => x.cast_signed() > y.cast_signed(),
        Condition::Sge => x.cast_signed() >= y.cast_signed(),
        Condition::Lt => x < y,
        Condition::Le => x <= y,
        Condition::Slt => x.cast_signed() < y.cast_signed(),
        Condition::Sle => x.cast_signed() <= y.cast_signed(),
    }
}
