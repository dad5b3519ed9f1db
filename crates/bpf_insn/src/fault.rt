//! What can be wrong at one word.

use crate::error::InsnError;

/// The refusals that name a pc, in the order in which they are tested.
#[derive(Clone, Copy, PartialEq, Eq, Debug)]
pub enum Fault {
    UnknownOpcode,
    ReservedNotZero,
    HalfWide,
    BadRegister,
}

impl Fault {
    ghost use Rattle.std.specs.Prelude.{◌≡◌};
    ghost use Rattle.bpf_insn.specs.Refusal.{error_at};

    /// The refusal at this pc.
    pub fn at(self, pc: u32) -> InsnError
        ensures { result ≡ error_at self pc }
    {
        match self {
            Fault::UnknownOpcode => InsnError::UnknownOpcode(pc),
            Fault::ReservedNotZero => InsnError::ReservedNotZero(pc),
            Fault::HalfWide => InsnError::HalfWide(pc),
            Fault::BadRegister => InsnError::BadRegister(pc),
        }
    }
}
