//! The byte order instructions, END (RFC 9669, section 4.2).

ghost use Rattle.std.specs.Prelude.{◌≡◌, ◌<◌, ◌^◌};
ghost use Rattle.bpf_alu.specs.Bytes.{swapped};

use crate::low::{low16, low32};
use bpf_insn::operation::{ByteSwap, SwapWidth};

/// The low 2, 4 or 8 bytes of `a`, kept or reversed; the bytes above are zero.
#[inline]
#[tactic(auto, unfolding(crate::specs::Bytes::swapped))]
pub fn swap(kind: ByteSwap, width: SwapWidth, a: u64) -> u64
    ensures value { result ≡ swapped kind width a }
    ensures bounded { result < 2 ^ 64 }
{
    match kind {
        ByteSwap::ToLittle => match width {
            SwapWidth::Bits16 => u64::from(low16(a)),
            SwapWidth::Bits32 => u64::from(low32(a)),
            SwapWidth::Bits64 => a,
        },
        ByteSwap::ToBig | ByteSwap::Reverse => match width {
            SwapWidth::Bits16 => u64::from(low16(a).swap_bytes()),
            SwapWidth::Bits32 => u64::from(low32(a).swap_bytes()),
            SwapWidth::Bits64 => a.swap_bytes(),
        },
    }
}
