//! Why bytes are no instructions.

use bpf_codes::{Code, Diagnostic};
use thiserror::Error;

/// Why bytes are refused, in the order in which it is answered: their length, or else at the lowest
/// word the first of the rest. A word is named by its pc, which counts words of 8 bytes from 0. The
/// codes are our own; what E4 to E7 are about is RFC 9669's (sections 3 to 5).
#[derive(Clone, Copy, PartialEq, Eq, Debug, Error)]
pub enum InsnError {
    /// E1: there are no bytes.
    #[error("there are no instructions")]
    Empty,
    /// E2, with the length in bytes: the last word is cut off.
    #[error("the length of {0} bytes is not a multiple of 8")]
    Ragged(usize),
    /// E3: there are more than 65,536 words.
    #[error("there are more than 65536 words")]
    TooLong,
    /// E4, with the pc: no instruction has this opcode with these selecting fields.
    #[error("no instruction has this opcode, at word {0}")]
    UnknownOpcode(u32),
    /// E5, with the pc: an unused field isn't zero; of a second word too.
    #[error("a field that the instruction does not use is not zero, at word {0}")]
    ReservedNotZero(u32),
    /// E6, with the pc: the bytes end within an instruction of two words.
    #[error("the second half of the wide instruction is missing, at word {0}")]
    HalfWide(u32),
    /// E7, with the pc: a field names a register above R10.
    #[error("there is no register of this number, at word {0}")]
    BadRegister(u32),
    /// E14: memory was refused.
    #[error("out of memory")]
    OutOfMemory,
}

impl InsnError {
    ghost use Rattle.std.specs.Prelude.{◌≡◌};
    ghost use Rattle.bpf_insn.specs.Diagnostic.{insn_diagnostic};

    /// What is printed of it: its code, and where it is.
    pub fn diagnostic(self) -> Diagnostic
        ensures { result ≡ insn_diagnostic self }
    {
        match self {
            InsnError::Empty => Diagnostic::new(Code::E1),
            InsnError::Ragged(length) => Diagnostic::with_length(Code::E2, length),
            InsnError::TooLong => Diagnostic::new(Code::E3),
            InsnError::UnknownOpcode(pc) => Diagnostic::at_pc(Code::E4, pc),
            InsnError::ReservedNotZero(pc) => Diagnostic::at_pc(Code::E5, pc),
            InsnError::HalfWide(pc) => Diagnostic::at_pc(Code::E6, pc),
            InsnError::BadRegister(pc) => Diagnostic::at_pc(Code::E7, pc),
            InsnError::OutOfMemory => Diagnostic::new(Code::E14),
        }
    }
}
