//! The two widths, and the classes and sizes that name them (RFC 9669, sections 3.3 and 5.3).

ghost use Rattle.std.specs.Prelude.{◌≡◌, ◌<◌};
ghost use Rattle.bpf_insn.specs.Codes.{alu_class, jump_class, atomic_size_code};
ghost use Rattle.bpf_insn.specs.Private.Lookup.{atomic_width_at};

use crate::codes::{ALU, ALU64, JMP, JMP32};
use crate::operation::Size;

/// How many bits an operation works on: ALU and JMP32 on 32, ALU64 and JMP on 64 (RFC 9669, section
/// 3.3); an atomic operation on 4 bytes or on 8 (section 5.3).
#[derive(Clone, Copy, PartialEq, Eq, Debug)]
pub enum Width {
    /// The low 32 bits; what arithmetic leaves in the high 32 is zero.
    Bits32,
    /// All 64 bits.
    Bits64,
}

const WIDTHS: [Width; 2] = [Width::Bits32, Width::Bits64];

impl Width {
    /// ALU or ALU64.
    pub(crate) fn alu_class(self) -> u8
        ensures value { result ≡ alu_class self }
        ensures small { result < 8 }
    {
        match self {
            Width::Bits32 => ALU,
            Width::Bits64 => ALU64,
        }
    }

    /// JMP32 or JMP.
    pub(crate) fn jump_class(self) -> u8
        ensures value { result ≡ jump_class self }
        ensures small { result < 8 }
    {
        match self {
            Width::Bits32 => JMP32,
            Width::Bits64 => JMP,
        }
    }

    /// The width of an atomic operation on this size.
    #[tactic(auto, unfolding(crate::specs::Private::Lookup::atomic_width_at))]
    pub(crate) fn from_atomic_size(code: u8) -> Option<Width>
        ensures { result ≡ atomic_width_at code }
    {
        WIDTHS.iter().copied().find(|w| w.atomic_size() == code)
    }

    pub(crate) fn atomic_size(self) -> u8
        ensures value { result ≡ atomic_size_code self }
        ensures small { result < 4 }
    {
        match self {
            Width::Bits32 => Size::Word.code(),
            Width::Bits64 => Size::Double.code(),
        }
    }
}
