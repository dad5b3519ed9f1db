//! Why a text is refused.

ghost use Rattle.std.specs.Prelude.{◌≡◌};
ghost use Rattle.bpf_text.specs.declared.error.TextError.TheVariants.{OutOfMemory};

use bpf_codes::{Code, Diagnostic};
use std::alloc::{AllocError, AllocFailed};
use thiserror::Error;

/// Why a text is refused. Lines count from 1.
#[derive(Clone, Copy, PartialEq, Eq, Debug, Error)]
pub enum TextError {
    #[error("line {0} has no form of the assembly language")]
    BadLine(usize),
    #[error("line {0} has a number out of its range")]
    BadNumber(usize),
    #[error("line {0} names a label that no line has")]
    UnknownLabel(usize),
    #[error("line {0} has the label of a line before")]
    TwiceLabel(usize),
    #[error("line {0} names a label that is too far away")]
    FarLabel(usize),
    #[error("out of memory")]
    OutOfMemory,
}

impl From<AllocError> for TextError {
    ghost from_gives = { λ _ e. e ≡ OutOfMemory };

    fn from(_: AllocError) -> TextError {
        TextError::OutOfMemory
    }
}

impl<T: Drop> From<AllocFailed<T>> for TextError {
    ghost from_gives = { λ _ e. e ≡ OutOfMemory };

    fn from(_: AllocFailed<T>) -> TextError {
        TextError::OutOfMemory
    }
}

impl TextError {
    ghost use Rattle.bpf_text.specs.Diagnostic.{text_diagnostic};

    /// What is printed of it: its code, and where it is.
    pub fn diagnostic(self) -> Diagnostic
        ensures { result ≡ text_diagnostic self }
    {
        match self {
            TextError::BadLine(line) => Diagnostic::at_line(Code::A1, line),
            TextError::BadNumber(line) => Diagnostic::at_line(Code::A2, line),
            TextError::UnknownLabel(line) => Diagnostic::at_line(Code::A3, line),
            TextError::TwiceLabel(line) => Diagnostic::at_line(Code::A4, line),
            TextError::FarLabel(line) => Diagnostic::at_line(Code::A5, line),
            TextError::OutOfMemory => Diagnostic::new(Code::A6),
        }
    }
}
