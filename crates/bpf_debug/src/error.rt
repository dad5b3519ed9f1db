//! Why a command is refused.

use bpf_codes::Code;
use std::alloc::{AllocError, AllocFailed};
use thiserror::Error;

/// Why a command is refused. The session is then as it was.
#[derive(Clone, Copy, PartialEq, Eq, Debug, Error)]
pub enum DebugError {
    /// G1
    #[error("no CPU has this number")]
    NoCpu,
    /// G2
    #[error("no program has an instruction that begins there")]
    NoPc,
    /// G3
    #[error("no map, array or variable has this name")]
    NoMap,
    /// G4
    #[error("not a command")]
    BadCommand,
    /// G5
    #[error("out of memory")]
    OutOfMemory,
    /// G4
    #[error("fewer turns were made, or the map has no such key, or the array no such index")]
    BadOperand,
}

impl DebugError {
    ghost use Rattle.std.specs.Prelude.{◌≡◌};
    ghost use Rattle.bpf_debug.specs.Codes.{refusal_code, refusal_line};

    /// The code that is printed of it.
    pub fn code(self) -> Code
        ensures { result ≡ refusal_code self }
    {
        match self {
            DebugError::NoCpu => Code::G1,
            DebugError::NoPc => Code::G2,
            DebugError::NoMap => Code::G3,
            DebugError::BadCommand => Code::G4,
            DebugError::OutOfMemory => Code::G5,
            DebugError::BadOperand => Code::G4,
        }
    }

    /// The line that is printed of it.
    pub fn line(self) -> &'static str
        ensures { result.now ≡ refusal_line self }
    {
        match self {
            DebugError::NoCpu => "refused G1\n",
            DebugError::NoPc => "refused G2\n",
            DebugError::NoMap => "refused G3\n",
            DebugError::BadCommand => "refused G4\n",
            DebugError::OutOfMemory => "refused G5\n",
            DebugError::BadOperand => "refused G4\n",
        }
    }
}

impl From<AllocError> for DebugError {
    ghost use Rattle.std.specs.Prelude.{◌≡◌};
    ghost use Rattle.bpf_debug.specs.declared.error.DebugError.TheVariants.{OutOfMemory};

    ghost from_gives = { λ _ e. e ≡ OutOfMemory };

    fn from(_error: AllocError) -> DebugError {
        DebugError::OutOfMemory
    }
}

impl<T: Drop> From<AllocFailed<T>> for DebugError {
    ghost use Rattle.std.specs.Prelude.{◌≡◌};
    ghost use Rattle.bpf_debug.specs.declared.error.DebugError.TheVariants.{OutOfMemory};

    ghost from_gives = { λ _ e. e ≡ OutOfMemory };

    fn from(_error: AllocFailed<T>) -> DebugError {
        DebugError::OutOfMemory
    }
}
