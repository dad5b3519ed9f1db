//! Why a list of instructions is refused.

use bpf_codes::{Code, Diagnostic};
use thiserror::Error;

/// Why a program is refused: the first that applies, by the pc and then by the number. A pc counts
/// 8-byte words from 0, and is that of the instruction at fault.
#[derive(Clone, Copy, PartialEq, Eq, Debug, Error)]
pub enum LoadError {
    /// E1: the list has no instructions.
    #[error("The program has no instructions.")]
    Empty,
    /// E3: the list has more than 65,536 words.
    #[error("The program is longer than 65536 words.")]
    TooLong,
    /// E8: R10, the frame pointer, is the instruction's destination.
    #[error("The instruction at {0} writes R10, which is read-only.")]
    WritesR10(u32),
    /// E9: a jump or local call leads before the first word or after the last.
    #[error("The instruction at {0} jumps out of the program.")]
    JumpOut(u32),
    /// E10: a jump or local call leads to a word in which no instruction begins.
    #[error("The instruction at {0} jumps into the second word of a wide instruction.")]
    JumpIntoWide(u32),
    /// E11: a run would go on after the last instruction.
    #[error("The last instruction, at {0}, is neither an exit nor a jump: the program runs past its end.")]
    FallsOff(u32),
    /// E12: the machine has no helper of this number.
    #[error("The instruction at {0} calls an unknown helper.")]
    UnknownHelper(u32),
    /// E13: there is neither a map nor an array of this number.
    #[error("The instruction at {0} names an unknown map.")]
    UnknownMap(u32),
    /// E14: memory was refused.
    #[error("Out of memory.")]
    OutOfMemory,
}

impl LoadError {
    ghost use Rattle.std.specs.Prelude.{◌≡◌};
    ghost use Rattle.bpf_loader.specs.Diagnostic.{load_diagnostic};

    /// What is printed of it: its code, and where it is.
    pub fn diagnostic(self) -> Diagnostic
        ensures { result ≡ load_diagnostic self }
    {
        match self {
            LoadError::Empty => Diagnostic::new(Code::E1),
            LoadError::TooLong => Diagnostic::new(Code::E3),
            LoadError::WritesR10(pc) => Diagnostic::at_pc(Code::E8, pc),
            LoadError::JumpOut(pc) => Diagnostic::at_pc(Code::E9, pc),
            LoadError::JumpIntoWide(pc) => Diagnostic::at_pc(Code::E10, pc),
            LoadError::FallsOff(pc) => Diagnostic::at_pc(Code::E11, pc),
            LoadError::UnknownHelper(pc) => Diagnostic::at_pc(Code::E12, pc),
            LoadError::UnknownMap(pc) => Diagnostic::at_pc(Code::E13, pc),
            LoadError::OutOfMemory => Diagnostic::new(Code::E14),
        }
    }
}
