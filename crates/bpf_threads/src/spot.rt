//! A spot where runs of a program may be.
ghost use Rattle.std.specs.Prelude.{◌≡◌, ◌<◌, IfSome, Some, length, slice_get};
ghost use Rattle.bpf_insn.specs.declared.register.Reg.TheVariants.{R10};
ghost use Rattle.bpf_threads.specs.Chart.{Knows, KnowsOperand};

use crate::after::Known;
use bpf_insn::{Operand, Reg};
use bpf_mem::addresses::{FRAME_STRIDE, STACK_BASE};
use bpf_mem::frames::{FRAME_BYTES, MAX_FRAMES};

/// A pc, with what registers are known to hold there, and how the function that runs was called.
#[derive(Drop)]
pub struct Spot {
    pub pc: u32,
    /// By register. R10 is never looked up.
    pub known: Known,
    /// Where each caller goes on, the newest last.
    pub callers: Vec<u32>,
    /// The number of the spot that comes next where no jump is taken, or after the function's exit.
    pub next: Option<usize>,
    /// That to which a jump or a local call leads.
    pub jump: Option<usize>,
}

impl Spot {
    /// What R10 holds.
    fn top(&self) -> Option<u64>
        ensures { IfSome result (λ x. Knows self.now R10 x) }
    {
        let depth = self.callers.len();
        if depth < MAX_FRAMES {
            Some(STACK_BASE + FRAME_STRIDE * depth as u64 + FRAME_BYTES as u64)
        } else {
            None
        }
    }

    /// What a register is known to hold.
    pub(crate) fn known(&self, register: Reg) -> Option<u64>
        ensures { IfSome result (λ x. Knows self.now register x) }
    {
        match register {
            Reg::R0 => self.known[0],
            Reg::R1 => self.known[1],
            Reg::R2 => self.known[2],
            Reg::R3 => self.known[3],
            Reg::R4 => self.known[4],
            Reg::R5 => self.known[5],
            Reg::R6 => self.known[6],
            Reg::R7 => self.known[7],
            Reg::R8 => self.known[8],
            Reg::R9 => self.known[9],
            Reg::R10 => self.top(),
        }
    }

    /// What an operand is known to be.
    pub(crate) fn operand(&self, operand: Operand) -> Option<u64>
        ensures { IfSome result (λ x. KnowsOperand self.now operand x) }
    {
        match operand {
            Operand::Immediate(number) => Some(i64::from(number).cast_unsigned()),
            Operand::Register(register) => self.known(register),
        }
    }
}

/// The spot of a number.
pub(crate) fn spot_at(spots: &[Spot], place: usize) -> &Spot
    requires { place < length spots.now }
    ensures { slice_get spots.now place ≡ Some result.now }
{
    &spots[place]
}
