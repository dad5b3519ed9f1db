//! MOVSX, and its opcodes and offsets (RFC 9669, section 4.1).

ghost use Rattle.std.specs.Prelude.{◌≡◌, ◌<◌};
ghost use Rattle.bpf_insn.specs.Codes.{extension_width, extension_opcode, extension_offset};
ghost use Rattle.bpf_insn.specs.Private.Lookup.{extension_at};

use crate::codes::opcode_x;
use crate::operation::{AluOp, Width};

/// From how many low bits MOVSX reads a signed number, and to how many it extends it; the bits
/// above are zero (RFC 9669, section 4.1).
#[derive(Clone, Copy, PartialEq, Eq, Debug)]
pub enum SignExtension {
    /// A byte to 32 bits.
    From8To32,
    /// 16 bits to 32.
    From16To32,
    /// A byte to 64 bits.
    From8To64,
    /// 16 bits to 64.
    From16To64,
    /// 32 bits to 64.
    From32To64,
}

const SIGN_EXTENSIONS: [SignExtension; 5] = [
    SignExtension::From8To32,
    SignExtension::From16To32,
    SignExtension::From8To64,
    SignExtension::From16To64,
    SignExtension::From32To64,
];

impl SignExtension {
    /// The extension of this opcode and this offset.
    #[tactic(auto, unfolding(crate::specs::Private::Lookup::extension_at))]
    pub(crate) fn from_codes(opcode: u8, offset: u16) -> Option<SignExtension>
        ensures { result ≡ extension_at opcode offset }
    {
        SIGN_EXTENSIONS.iter().copied().find(|e| e.opcode() == opcode
            && e.offset() == u32::from(offset))
    }

    /// To how many bits it extends.
    fn width(self) -> Width
        ensures { result ≡ extension_width self }
    {
        match self {
            SignExtension::From8To32 | SignExtension::From16To32 => Width::Bits32,
            _ => Width::Bits64,
        }
    }

    pub(crate) fn opcode(self) -> u8
        ensures { result ≡ extension_opcode self }
    {
        opcode_x(self.width().alu_class(), AluOp::Mov.code())
    }

    /// Its offset: from how many bits.
    pub(crate) fn offset(self) -> u32
        ensures value { result ≡ extension_offset self }
        ensures small { result < 64 }
    {
        match self {
            SignExtension::From8To32 | SignExtension::From8To64 => 8,
            SignExtension::From16To32 | SignExtension::From16To64 => 16,
            SignExtension::From32To64 => 32,
        }
    }
}
