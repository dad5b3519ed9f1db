//! MOVSX (RFC 9669, section 4.1).

ghost use Rattle.std.specs.Prelude.{◌≡◌, ◌<◌, ◌^◌};
ghost use Rattle.bpf_alu.specs.Arithmetic.{sign_extended};

use crate::low::{low8, low16, low32};
use bpf_insn::operation::SignExtension;

/// The low bits of `a`, sign-extended to 32 or 64 bits; where to 32, the upper half is zero.
#[inline]
#[tactic(auto, unfolding(crate::specs::Arithmetic::sign_extended))]
pub fn sign_extend(extension: SignExtension, a: u64) -> u64
    ensures value { result ≡ sign_extended extension a }
    ensures bounded { result < 2 ^ 64 }
{
    match extension {
        SignExtension::From8To32 => u64::from(i32::from(low8(a).cast_signed()).cast_unsigned()),
        SignExtension::From16To32 => u64::from(i32::from(low16(a).cast_signed()).cast_unsigned()),
        SignExtension::From8To64 => i64::from(low8(a).cast_signed()).cast_unsigned(),
        SignExtension::From16To64 => i64::from(low16(a).cast_signed()).cast_unsigned(),
        SignExtension::From32To64 => i64::from(low32(a).cast_signed()).cast_unsigned(),
    }
}
