//! END, and its opcodes and immediates (RFC 9669, section 4.2).

ghost use Rattle.std.specs.Prelude.{◌≡◌};
ghost use Rattle.bpf_insn.specs.Codes.{swap_opcode, swap_bits};
ghost use Rattle.bpf_insn.specs.Private.Lookup.{byte_swap_at, swap_width_at};

use crate::codes::{END, opcode_k, opcode_x};
use crate::operation::Width;

/// What END does with the low bytes (RFC 9669, section 4.2), seen from a little-endian machine.
#[derive(Clone, Copy, PartialEq, Eq, Debug)]
pub enum ByteSwap {
    /// `le16` to `le64`: keeps them.
    ToLittle,
    /// `be16` to `be64`: reverses them.
    ToBig,
    /// `bswap16` to `bswap64`: reverses them on any machine.
    Reverse,
}

/// How many low bits END keeps; those above become zero (RFC 9669, section 4.2).
#[derive(Clone, Copy, PartialEq, Eq, Debug)]
pub enum SwapWidth {
    /// 2 bytes.
    Bits16,
    /// 4 bytes.
    Bits32,
    /// 8 bytes.
    Bits64,
}

const BYTE_SWAPS: [ByteSwap; 3] = [ByteSwap::ToLittle, ByteSwap::ToBig, ByteSwap::Reverse];

const SWAP_WIDTHS: [SwapWidth; 3] = [SwapWidth::Bits16, SwapWidth::Bits32, SwapWidth::Bits64];

impl ByteSwap {
    /// What the END of this opcode does.
    #[tactic(auto, unfolding(crate::specs::Private::Lookup::byte_swap_at))]
    pub(crate) fn from_opcode(opcode: u8) -> Option<ByteSwap>
        ensures { result ≡ byte_swap_at opcode }
    {
        BYTE_SWAPS
            .iter()
            .copied()
            .find(|swap| swap.opcode() == opcode)
    }

    pub(crate) fn opcode(self) -> u8
        ensures { result ≡ swap_opcode self }
    {
        match self {
            ByteSwap::ToLittle => opcode_k(Width::Bits32.alu_class(), END),
            ByteSwap::ToBig => opcode_x(Width::Bits32.alu_class(), END),
            ByteSwap::Reverse => opcode_k(Width::Bits64.alu_class(), END),
        }
    }
}

impl SwapWidth {
    /// The width of this many bits.
    #[tactic(auto, unfolding(crate::specs::Private::Lookup::swap_width_at))]
    pub(crate) fn from_bits(bits: u32) -> Option<SwapWidth>
        ensures { result ≡ swap_width_at bits }
    {
        SWAP_WIDTHS
            .iter()
            .copied()
            .find(|width| width.bits() == bits)
    }

    pub(crate) fn bits(self) -> u32
        ensures { result ≡ swap_bits self }
    {
        match self {
            SwapWidth::Bits16 => 16,
            SwapWidth::Bits32 => 32,
            SwapWidth::Bits64 => 64,
        }
    }
}
