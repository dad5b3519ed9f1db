//! What is known after an instruction that goes on to the next.
ghost use Rattle.std.specs.Prelude.{◌≡◌, IfSome, slice_set};
ghost use Rattle.bpf_insn.specs.Register.{register_number};
ghost use Rattle.bpf_insn.specs.declared.instruction.Insn.{Insn};
ghost use Rattle.bpf_threads.specs.Chart.{IsAfter, IsResult, known_after_helper, forgetting, goes_straight};

use crate::spot::Spot;
use bpf_alu::{alu32, alu64};
use bpf_helpers::calls::MAPS;
use bpf_insn::{AluOp, Insn, Operand, Reg, Width};

/// What is known of R0 to R10.
pub type Known = [Option<u64>; 11];

/// What is known of R0 to R10, with another register.
fn with(known: Known, register: Reg, value: Option<u64>) -> Known
    ensures { result ≡ slice_set known (register_number register) value }
{
    let mut known = known;
    known[register.number() as usize] = value;
    known
}

/// What an operation is known to leave in `dst`.
fn value_of(spot: &Spot, width: Width, op: AluOp, dst: Reg, src: Operand) -> Option<u64>
    ensures { IfSome result (IsResult spot.now width op dst src) }
{
    let right = spot.operand(src)?;
    let left = match op {
        AluOp::Mov => 0,
        _ => spot.known(dst)?,
    };
    Some(match width {
        Width::Bits64 => alu64(op, left, right),
        Width::Bits32 => alu32(op, left, right),
    })
}

/// Nothing is known of the register that is written.
fn without(known: Known, register: Option<Reg>) -> Known
    ensures { result ≡ forgetting register known }
{
    match register {
        Some(register) => with(known, register, None),
        None => known,
    }
}

/// Nothing is known of R0 to R5 after a helper.
fn known_after_helper(known: Known) -> Known
    ensures { result ≡ known_after_helper known }
{
    let mut known = known;
    known[1] = None;
    known[2] = None;
    known[3] = None;
    known[4] = None;
    known[5] = None;
    known[0] = None;
    known
}

/// What is known after an instruction that goes on to the next.
pub(crate) fn after(spot: &Spot, insn: Insn) -> Known
    requires { goes_straight insn ≡ Rattle.std.specs.Prelude.true }
    ensures { IsAfter spot.now insn result }
{
    match insn {
        Insn::Alu {
            width,
            op,
            dst,
            src,
        } => with(spot.known, dst, value_of(spot, width, op, dst, src)),
        Insn::LoadNumber { dst, number } => with(spot.known, dst, Some(number)),
        Insn::LoadMap { dst, map } => with(spot.known, dst, Some(MAPS + u64::from(map))),
        Insn::CallHelper { .. } => known_after_helper(spot.known),
        Insn::Negate { dst, .. }
        | Insn::SignExtend { dst, .. }
        | Insn::SwapBytes { dst, .. }
        | Insn::Load { dst, .. }
        | Insn::LoadSigned { dst, .. } => with(spot.known, dst, None),
        Insn::Atomic { op, src, .. } => without(spot.known, op.fetched_into(src)),
        _ => spot.known,
    }
}
