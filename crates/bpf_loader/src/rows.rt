//! What the rows of the table mean for the checks.

ghost use Rattle.std.specs.Prelude.{◌≡◌, ◌↔◌, IsTrue};
ghost use Rattle.bpf_loader.specs.Rows.{destination, jump_offset, goes_on, helper_of, map_of, IsHelper};

use bpf_insn::instruction::Insn;
use bpf_insn::register::Reg;

/// The register that an instruction puts its result in.
pub fn destination(insn: Insn) -> Option<Reg>
    ensures { result ≡ destination insn }
{
    match insn {
        Insn::Alu { dst, .. }
        | Insn::Negate { dst, .. }
        | Insn::SignExtend { dst, .. }
        | Insn::SwapBytes { dst, .. }
        | Insn::Load { dst, .. }
        | Insn::LoadSigned { dst, .. }
        | Insn::LoadNumber { dst, .. }
        | Insn::LoadMap { dst, .. } => Some(dst),
        Insn::Atomic { op, src, .. } => op.fetched_into(src),
        Insn::CallHelper { .. } => Some(Reg::R0),
        _ => None,
    }
}

/// By how many words an instruction may jump, from the word after it.
pub fn jump_offset(insn: Insn) -> Option<i32>
    ensures { result ≡ jump_offset insn }
{
    match insn {
        Insn::Jump { offset } => Some(i32::from(offset)),
        Insn::JumpLong { offset } => Some(offset),
        Insn::JumpIf { offset, .. } => Some(i32::from(offset)),
        Insn::CallLocal { offset } => Some(offset),
        _ => None,
    }
}

/// Whether a run may come from this instruction to the next.
pub fn goes_on(insn: Insn) -> bool
    ensures { result ≡ goes_on insn }
{
    !matches!(insn, Insn::Jump { .. } | Insn::JumpLong { .. } | Insn::Exit)
}

/// The number of the helper that is called.
pub fn helper_of(insn: Insn) -> Option<u32>
    ensures { result ≡ helper_of insn }
{
    match insn {
        Insn::CallHelper { number } => Some(number),
        _ => None,
    }
}

/// The number of the map or array that is named.
pub fn map_of(insn: Insn) -> Option<u32>
    ensures { result ≡ map_of insn }
{
    match insn {
        Insn::LoadMap { map, .. } => Some(map),
        _ => None,
    }
}

/// Whether this machine has the helper.
pub fn is_helper(number: u32) -> bool
    ensures { IsTrue result ↔ IsHelper number }
{
    matches!(number, 1 | 2 | 3 | 8 | 5 | 7 | 14 | 15 | 125 | 6 | 93 | 94)
}
