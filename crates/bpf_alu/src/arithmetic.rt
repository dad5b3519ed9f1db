//! Arithmetic: of the class ALU64 on all 64 bits, of ALU on the lower halves of registers (RFC 9669,
//! section 4.1).

ghost use Rattle.std.specs.Prelude.{◌≡◌, ◌<◌, ◌^◌};
ghost use Rattle.bpf_insn.specs.declared.operation.widths.Width.TheVariants.{Bits32, Bits64};
ghost use Rattle.bpf_alu.specs.Arithmetic.{arithmetic, negated};

use crate::low::low32;
use bpf_insn::AluOp;

/// The quotient of the signed readings, rounded toward zero; the smallest number divided by -1 is
/// itself.
#[inline]
#[tactic(auto, unfolding(crate::specs::Arithmetic::arithmetic))]
fn signed_quotient64(a: u64, b: u64) -> u64
    ensures { result ≡ arithmetic Bits64 AluOp.Sdiv a b }
{
    if b == 0 {
        return 0;
    }
    a.cast_signed()
        .wrapping_div(b.cast_signed())
        .cast_unsigned()
}

/// The quotient of 32-bit signed readings, likewise.
#[inline]
#[tactic(auto, unfolding(crate::specs::Arithmetic::arithmetic))]
fn signed_quotient32(x: u32, y: u32) -> u32
    ensures { result ≡ arithmetic Bits32 AluOp.Sdiv x y }
{
    if y == 0 {
        return 0;
    }
    x.cast_signed()
        .wrapping_div(y.cast_signed())
        .cast_unsigned()
}

/// The remainder of that division, which has the sign of `a`.
#[inline]
#[tactic(auto, unfolding(crate::specs::Arithmetic::arithmetic))]
fn signed_remainder64(a: u64, b: u64) -> u64
    ensures { result ≡ arithmetic Bits64 AluOp.Smod a b }
{
    if b == 0 {
        return a;
    }
    a.cast_signed()
        .wrapping_rem(b.cast_signed())
        .cast_unsigned()
}

/// The remainder of the division of 32-bit signed readings.
#[inline]
#[tactic(auto, unfolding(crate::specs::Arithmetic::arithmetic))]
fn signed_remainder32(x: u32, y: u32) -> u32
    ensures { result ≡ arithmetic Bits32 AluOp.Smod x y }
{
    if y == 0 {
        return x;
    }
    x.cast_signed()
        .wrapping_rem(y.cast_signed())
        .cast_unsigned()
}

/// `a op b` on 64 bits. Results wrap. Division by zero gives 0, modulo by zero `a`; signed division
/// rounds toward zero, and the smallest number divided by -1 is itself, with remainder 0. A shift
/// counts by the low 6 bits of `b`.
#[inline]
#[tactic(auto, using(crate::proofs::Bitwise::or_below_64, crate::proofs::Bitwise::xor_below_64), unfolding(crate::specs::Arithmetic::arithmetic))]
pub fn alu64(op: AluOp, a: u64, b: u64) -> u64
    ensures value { result ≡ arithmetic Bits64 op a b }
    ensures bounded { result < 2 ^ 64 }
{
    match op {
        AluOp::Add => a.wrapping_add(b),
        AluOp::Sub => a.wrapping_sub(b),
        AluOp::Mul => a.wrapping_mul(b),
        AluOp::Div => a.checked_div(b).unwrap_or(0),
        AluOp::Sdiv => signed_quotient64(a, b),
        AluOp::Or => a | b,
        AluOp::And => a & b,
        AluOp::Lsh => a << (b % 64),
        AluOp::Rsh => a >> (b % 64),
        AluOp::Mod => a.checked_rem(b).unwrap_or(a),
        AluOp::Smod => signed_remainder64(a, b),
        AluOp::Xor => a ^ b,
        AluOp::Mov => b,
        AluOp::Arsh => (a.cast_signed() >> (b % 64)).cast_unsigned(),
    }
}

/// `x op y` on 32 bits.
#[inline]
#[tactic(auto, unfolding(crate::specs::Arithmetic::arithmetic))]
fn of_halves(op: AluOp, x: u32, y: u32) -> u32
    ensures { result ≡ arithmetic Bits32 op x y }
{
    match op {
        AluOp::Add => x.wrapping_add(y),
        AluOp::Sub => x.wrapping_sub(y),
        AluOp::Mul => x.wrapping_mul(y),
        AluOp::Div => x.checked_div(y).unwrap_or(0),
        AluOp::Sdiv => signed_quotient32(x, y),
        AluOp::Or => x | y,
        AluOp::And => x & y,
        AluOp::Lsh => x << (y % 32),
        AluOp::Rsh => x >> (y % 32),
        AluOp::Mod => x.checked_rem(y).unwrap_or(x),
        AluOp::Smod => signed_remainder32(x, y),
        AluOp::Xor => x ^ y,
        AluOp::Mov => y,
        AluOp::Arsh => (x.cast_signed() >> (y % 32)).cast_unsigned(),
    }
}

/// `a op b` on the lower halves; the result's upper half is zero. Results wrap. Division by zero
/// gives 0, modulo by zero the lower half of `a`; signed division rounds toward zero, and the
/// smallest number divided by -1 is itself, with remainder 0. A shift counts by the low 5 bits of
/// `b`.
#[inline]
#[tactic(auto, unfolding(crate::specs::Arithmetic::arithmetic))]
pub fn alu32(op: AluOp, a: u64, b: u64) -> u64
    ensures value { result ≡ arithmetic Bits32 op a b }
    ensures bounded { result < 2 ^ 32 }
{
    u64::from(of_halves(op, low32(a), low32(b)))
}

/// `-a` on 64 bits.
#[inline]
#[tactic(auto, unfolding(crate::specs::Arithmetic::negated))]
pub fn negate64(a: u64) -> u64
    ensures value { result ≡ negated Bits64 a }
    ensures bounded { result < 2 ^ 64 }
{
    0u64.wrapping_sub(a)
}

/// `-a` on the lower half; the result's upper half is zero.
#[inline]
#[tactic(auto, unfolding(crate::specs::Arithmetic::negated))]
pub fn negate32(a: u64) -> u64
    ensures value { result ≡ negated Bits32 a }
    ensures bounded { result < 2 ^ 32 }
{
    u64::from(0u32.wrapping_sub(low32(a)))
}
