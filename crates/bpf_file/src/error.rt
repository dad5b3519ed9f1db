//! Why a text is no run file.

use bpf_codes::{Code, Diagnostic};
use bpf_insn::InsnError;
use bpf_loader::LoadError;
use bpf_shared::ShapeError;
use thiserror::Error;

/// What is wrong at a line. Errors of other crates never say here that memory was refused.
#[derive(Clone, Copy, PartialEq, Eq, Debug, Error)]
pub enum Reason {
    /// L1: the first line that says anything, or line 1 where none does.
    #[error("a run file begins with `ebpf-run 1`, `ebpf-run 2` or `ebpf-run 3`")]
    BadFirstLine,
    /// L2: its form, or its place among the others, or it is one too many.
    #[error("no such line may be here")]
    BadLine,
    /// L3
    #[error("a number is out of its range")]
    BadNumber,
    /// L4: of two maps or arrays, or of two programs.
    #[error("the name is there before")]
    TwiceName,
    /// L5
    #[error("a program, a CPU, a map or an array that isn't there")]
    Unknown,
    /// L6: the line of a `prog`.
    #[error("the program has no end")]
    NoEnd,
    /// S12: the size of its key or its value, a key that is there before, or one too many.
    #[error("the pair doesn't fit its map")]
    BadPair,
    /// S1 to S6, and S8 to S12
    #[error("{0}")]
    Shape(ShapeError),
    /// H1
    #[error("not the hex digits of whole bytes")]
    NotHex,
    /// A1
    #[error("no form of the assembly language")]
    BadInstruction,
    /// A2
    #[error("a number of an instruction is out of its range")]
    BadOperand,
    /// A3
    #[error("a label that no line of the program has")]
    UnknownLabel,
    /// A4
    #[error("the label of a line before")]
    TwiceLabel,
    /// A5
    #[error("a label that is too far away")]
    FarLabel,
    /// E1 to E7: the words of a program, at its `prog` line.
    #[error("{0}")]
    Insn(InsnError),
    /// E1, E3 and E8 to E13: a program, at its `prog` line.
    #[error("{0}")]
    Load(LoadError),
}

impl Reason {
    ghost use Rattle.std.specs.Prelude.{◌≡◌};
    ghost use Rattle.bpf_file.specs.Diagnostic.{reason_diagnostic};

    /// What is printed of it: its code, and where it is.
    pub fn diagnostic(self) -> Diagnostic
        ensures { result ≡ reason_diagnostic self }
    {
        match self {
            Reason::BadFirstLine => Diagnostic::new(Code::L1),
            Reason::BadLine => Diagnostic::new(Code::L2),
            Reason::BadNumber => Diagnostic::new(Code::L3),
            Reason::TwiceName => Diagnostic::new(Code::L4),
            Reason::Unknown => Diagnostic::new(Code::L5),
            Reason::NoEnd => Diagnostic::new(Code::L6),
            Reason::BadPair => Diagnostic::new(Code::S12),
            Reason::Shape(error) => error.diagnostic(),
            Reason::NotHex => Diagnostic::new(Code::H1),
            Reason::BadInstruction => Diagnostic::new(Code::A1),
            Reason::BadOperand => Diagnostic::new(Code::A2),
            Reason::UnknownLabel => Diagnostic::new(Code::A3),
            Reason::TwiceLabel => Diagnostic::new(Code::A4),
            Reason::FarLabel => Diagnostic::new(Code::A5),
            Reason::Insn(error) => error.diagnostic(),
            Reason::Load(error) => error.diagnostic(),
        }
    }
}

/// Why there is no file: the first refusal in reading order. Lines count from 1.
#[derive(Clone, Copy, PartialEq, Eq, Debug, Error)]
pub enum FileError {
    #[error("line {0}: {1}")]
    Refused(usize, Reason),
    #[error("out of memory")]
    OutOfMemory,
}
