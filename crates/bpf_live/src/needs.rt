//! What has to be live at an instruction, by what is live after it.

ghost use Rattle.std.specs.Prelude.{◌≡◌};
ghost use Rattle.bpf_insn.specs.Atomic.{fetched_into};
ghost use Rattle.bpf_loader.specs.Places.{target};
ghost use Rattle.bpf_loader.specs.Rows.{jump_offset};
ghost use Rattle.bpf_live.specs.Live.{is_live, next_word};
ghost use Rattle.bpf_live.specs.Registers.{is_move};
ghost use Rattle.bpf_live.specs.Private.Needs.{is_argument, is_destination, is_left, is_live_after, is_live_by, is_operand, is_read, is_within, is_written, needs};

use bpf_insn::{AluOp, AtomicOp, Insn, Operand, Reg};

/// Registers by their numbers, R0 to R9.
pub(crate) type Set = [bool; 10];

/// Whether a register is live at a pc. R10 always is.
pub(crate) fn is_live(sets: &[Set], pc: usize, register: u8) -> bool
    ensures { result ≡ is_live sets.now pc register }
{
    if register >= 10 {
        return true;
    }
    match sets.get(pc) {
        Some(set) => set[register as usize],
        None => true,
    }
}

/// Whether a number is from low to high.
fn is_within(low: u8, high: u8, register: u8) -> bool
    ensures { result ≡ is_within low high register }
{
    low <= register && register <= high
}

fn is_operand(operand: Operand, register: u8) -> bool
    ensures { result ≡ is_operand operand register }
{
    match operand {
        Operand::Immediate(_) => false,
        Operand::Register(source) => source.number() == register,
    }
}

/// Whether it is an argument of a helper.
fn is_argument(number: u32, register: u8) -> bool
    ensures { result ≡ is_argument number register }
{
    if number == 2 {
        is_within(1, 4, register)
    } else if number == 1 || number == 3 {
        is_within(1, 2, register)
    } else if number == 93 || number == 94 {
        register == 1
    } else {
        false
    }
}

fn is_move(op: AluOp) -> bool
    ensures { result ≡ is_move op }
{
    matches!(op, AluOp::Mov)
}

/// Whether an instruction reads a register.
fn is_read(insn: &Insn, register: u8) -> bool
    ensures { result ≡ is_read insn.now register }
{
    match *insn {
        Insn::Alu { op, dst, src, .. } => {
            is_operand(src, register) || (!is_move(op) && dst.number() == register)
        }
        Insn::Negate { dst, .. } => dst.number() == register,
        Insn::SignExtend { src, .. } => src.number() == register,
        Insn::SwapBytes { dst, .. } => dst.number() == register,
        Insn::Jump { .. } => false,
        Insn::JumpLong { .. } => false,
        Insn::JumpIf { dst, src, .. } => is_operand(src, register) || dst.number() == register,
        Insn::CallHelper { number } => is_argument(number, register),
        Insn::CallLocal { .. } => is_within(6, 9, register),
        Insn::Exit => register == 0,
        Insn::Load { base, .. } => base.number() == register,
        Insn::LoadSigned { base, .. } => base.number() == register,
        Insn::StoreImmediate { base, .. } => base.number() == register,
        Insn::Store { base, src, .. } => base.number() == register || src.number() == register,
        Insn::Atomic { base, src, .. } => {
            register == 0 || (base.number() == register || src.number() == register)
        }
        Insn::LoadNumber { .. } => false,
        Insn::LoadMap { .. } => false,
    }
}

/// Whether an atomic operation puts the number found in a register.
fn is_fetched(op: AtomicOp, src: Reg, register: u8) -> bool
    ensures { result ≡ is_destination (fetched_into op src) register }
{
    match op {
        AtomicOp::Add | AtomicOp::Or | AtomicOp::And | AtomicOp::Xor => false,
        AtomicOp::CompareExchange => Reg::R0.number() == register,
        AtomicOp::FetchAdd
        | AtomicOp::FetchOr
        | AtomicOp::FetchAnd
        | AtomicOp::FetchXor
        | AtomicOp::Exchange => src.number() == register,
    }
}

/// Whether an instruction writes a register.
fn is_written(insn: &Insn, register: u8) -> bool
    ensures { result ≡ is_written insn.now register }
{
    match *insn {
        Insn::Alu { dst, .. } => dst.number() == register,
        Insn::Negate { dst, .. } => dst.number() == register,
        Insn::SignExtend { dst, .. } => dst.number() == register,
        Insn::SwapBytes { dst, .. } => dst.number() == register,
        Insn::Jump { .. } => false,
        Insn::JumpLong { .. } => false,
        Insn::JumpIf { .. } => false,
        Insn::CallHelper { .. } => register <= 5,
        Insn::CallLocal { .. } => register == 10,
        Insn::Exit => false,
        Insn::Load { dst, .. } => dst.number() == register,
        Insn::LoadSigned { dst, .. } => dst.number() == register,
        Insn::StoreImmediate { .. } => false,
        Insn::Store { .. } => false,
        Insn::Atomic { op, src, .. } => is_fetched(op, src, register),
        Insn::LoadNumber { dst, .. } => dst.number() == register,
        Insn::LoadMap { dst, .. } => dst.number() == register,
    }
}

/// Whether an EXIT from a function of the program leaves it to the caller.
fn is_left(calls: bool, insn: &Insn, register: u8) -> bool
    ensures { result ≡ is_left calls insn.now register }
{
    match insn {
        Insn::Exit => calls && is_within(1, 5, register),
        _ => false,
    }
}

/// How many words further a CPU goes on that doesn't jump.
fn next_word(insn: &Insn) -> Option<u32>
    ensures { result ≡ next_word insn.now }
{
    match insn {
        Insn::Jump { .. } | Insn::JumpLong { .. } | Insn::CallLocal { .. } | Insn::Exit => None,
        Insn::LoadNumber { .. } | Insn::LoadMap { .. } => Some(2),
        _ => Some(1),
    }
}

/// The offset of a jump or a local call.
fn jump_offset(insn: &Insn) -> Option<i32>
    ensures { result ≡ jump_offset insn.now }
{
    match *insn {
        Insn::Jump { offset } => Some(i32::from(offset)),
        Insn::JumpLong { offset } => Some(offset),
        Insn::JumpIf { offset, .. } => Some(i32::from(offset)),
        Insn::CallLocal { offset } => Some(offset),
        _ => None,
    }
}

/// Whether a register is live where a CPU goes on that doesn't jump.
fn is_live_after(sets: &[Set], pc: u32, words: Option<u32>, register: u8) -> bool
    ensures { result ≡ is_live_after sets.now pc words register }
{
    match words {
        None => false,
        Some(words) => is_live(sets, pc as usize + words as usize, register),
    }
}

/// Whether it is live where a jump leads.
fn is_live_by(sets: &[Set], pc: u32, offset: Option<i32>, register: u8) -> bool
    ensures { result ≡ is_live_by sets.now pc offset register }
{
    match offset {
        None => false,
        Some(offset) => {
            let to = i64::from(pc) + 1 + i64::from(offset);
            if to < 0 {
                return true;
            }
            is_live(sets, to as usize, register)
        }
    }
}

/// Whether a register has to be live at an instruction.
pub(crate) fn needs(sets: &[Set], calls: bool, pc: u32, insn: &Insn, register: u8) -> bool
    ensures { result ≡ needs sets.now calls pc insn.now register }
{
    if is_read(insn, register) || is_left(calls, insn, register) {
        return true;
    }
    !is_written(insn, register)
        && (is_live_after(sets, pc, next_word(insn), register)
            || is_live_by(sets, pc, jump_offset(insn), register))
}
