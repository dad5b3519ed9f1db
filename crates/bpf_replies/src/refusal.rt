//! Refusals, and what is printed of them.

ghost use Rattle.std.specs.Prelude.{◌≡◌};

use crate::input::InputError;
use bpf_codes::{Code, Diagnostic};
use bpf_file::{FileError, Reason};
use bpf_insn::InsnError;
use bpf_lines::HexError;
use bpf_loader::LoadError;
use bpf_text::TextError;
use bpf_workers::WorkError;
use std::alloc::AllocError;
use std::fmt;

/// Why a command has no answer.
#[derive(Clone, Copy, PartialEq, Eq, Debug)]
pub enum Refusal {
    Input(InputError),
    /// The input isn't UTF-8.
    NotText,
    /// Hex digits.
    Hex(HexError),
    /// The text of a program.
    Text(TextError),
    /// The words of a program.
    Insn(InsnError),
    /// A whole program.
    Load(LoadError),
    /// A line of a run file, counted from 1.
    File(usize, Reason),
    /// The comment of this line of a run file, counted from 1, is meant to expect something, and can't.
    Comment(usize),
    /// No map of the run file has a name that was given.
    NoMap,
    /// The jobs that workers were to run found no memory before the first of them began.
    JobsOutOfMemory,
    /// The command line, the output or the CPU found no memory.
    OutOfMemory,
}

impl Refusal {
    ghost use Rattle.bpf_replies.specs.Diagnostic.{refusal_diagnostic};

    /// Its code, and where it is; of a run file beside the line.
    pub fn diagnostic(self) -> Diagnostic
        ensures { result ≡ refusal_diagnostic self }
    {
        match self {
            Refusal::Input(error) => error.diagnostic(),
            Refusal::NotText => Diagnostic::new(Code::L8),
            Refusal::Hex(error) => error.diagnostic(),
            Refusal::Text(error) => error.diagnostic(),
            Refusal::Insn(error) => error.diagnostic(),
            Refusal::Load(error) => error.diagnostic(),
            Refusal::File(_, reason) => reason.diagnostic(),
            Refusal::Comment(_) => Diagnostic::new(Code::L11),
            Refusal::NoMap => Diagnostic::new(Code::G3),
            Refusal::JobsOutOfMemory => Diagnostic::new(Code::J4),
            Refusal::OutOfMemory => Diagnostic::new(Code::L9),
        }
    }
}

impl fmt::Display for Refusal {
    ghost use Rattle.std.specs.Prelude.{Some};
    ghost use Rattle.bpf_replies.specs.Diagnostic.{refusal_text};

    ghost output = { λ x. Some (refusal_text x) };

    fn fmt<W: fmt::Write>(&self, f: &mut fmt::Formatter<W>) -> fmt::Result {
        match *self {
            Refusal::File(line, reason) => write!(f, "line {line} {}", reason.diagnostic()),
            Refusal::Comment(line) => write!(f, "line {line} {}", self.diagnostic()),
            other => f.write_fmt(other.diagnostic()),
        }
    }
}

impl From<AllocError> for Refusal {
    ghost use Rattle.bpf_replies.specs.declared.refusal.Refusal.TheVariants.{OutOfMemory};

    ghost from_gives = { λ _ r. r ≡ OutOfMemory };

    fn from(_error: AllocError) -> Refusal {
        Refusal::OutOfMemory
    }
}

impl From<InputError> for Refusal {
    ghost use Rattle.bpf_replies.specs.declared.refusal.Refusal.TheVariants.{Input};

    ghost from_gives = { λ error r. r ≡ Input error };

    fn from(error: InputError) -> Refusal {
        Refusal::Input(error)
    }
}

impl From<HexError> for Refusal {
    ghost use Rattle.bpf_replies.specs.declared.refusal.Refusal.TheVariants.{Hex};

    ghost from_gives = { λ error r. r ≡ Hex error };

    fn from(error: HexError) -> Refusal {
        Refusal::Hex(error)
    }
}

impl From<TextError> for Refusal {
    ghost use Rattle.bpf_replies.specs.declared.refusal.Refusal.TheVariants.{Text};

    ghost from_gives = { λ error r. r ≡ Text error };

    fn from(error: TextError) -> Refusal {
        Refusal::Text(error)
    }
}

impl From<InsnError> for Refusal {
    ghost use Rattle.bpf_replies.specs.declared.refusal.Refusal.TheVariants.{Insn};

    ghost from_gives = { λ error r. r ≡ Insn error };

    fn from(error: InsnError) -> Refusal {
        Refusal::Insn(error)
    }
}

impl From<LoadError> for Refusal {
    ghost use Rattle.bpf_replies.specs.declared.refusal.Refusal.TheVariants.{Load};

    ghost from_gives = { λ error r. r ≡ Load error };

    fn from(error: LoadError) -> Refusal {
        Refusal::Load(error)
    }
}

impl From<FileError> for Refusal {
    ghost use Rattle.bpf_replies.specs.Refusals.{file_refusal};

    ghost from_gives = { λ error r. r ≡ file_refusal error };

    fn from(error: FileError) -> Refusal {
        match error {
            FileError::Refused(line, reason) => Refusal::File(line, reason),
            FileError::OutOfMemory => Refusal::OutOfMemory,
        }
    }
}

impl From<WorkError> for Refusal {
    ghost use Rattle.bpf_replies.specs.Refusals.{work_refusal};

    ghost from_gives = { λ error r. r ≡ work_refusal error };

    fn from(error: WorkError) -> Refusal {
        match error {
            WorkError::Jobs => Refusal::JobsOutOfMemory,
            WorkError::OutOfMemory => Refusal::OutOfMemory,
        }
    }
}
