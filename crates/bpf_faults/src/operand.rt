//! The bytes and registers that an instruction is about.

ghost use Rattle.std.specs.Prelude.{◌≡◌, ℕ, ℤ, IfNone, IfSome};
ghost use Rattle.bpf_insn.specs.declared.register.Reg as registers;
ghost use Rattle.bpf_mem.specs.Bytes.{length_of};
ghost use Rattle.bpf_cpu.specs.declared.cpu.Cpu as state;
ghost use Rattle.bpf_cpu.specs.Row.{plain_size};
ghost use Rattle.bpf_cpu.specs.State.{effective_address, value};
ghost use Rattle.bpf_faults.specs.Access.{Accesses};
ghost use Rattle.bpf_faults.specs.Evidence.{IsSeen};

use crate::evidence::Seen;
use bpf_helpers::calls::{SPIN_LOCK, SPIN_UNLOCK};
use bpf_insn::{Insn, Reg, SignedSize, Size};
use bpf_mem::{length, size_of_width};

/// Bytes that an instruction loads or stores: at a register's value and an offset from it.
#[derive(Clone, Copy)]
pub struct Access {
    pub base: Reg,
    pub offset: i16,
    /// How many bytes there are.
    pub length: u64,
}

impl Access {
    /// The address of its first byte.
    pub fn address(&self, seen: &Seen) -> u64
        ensures { (s : state.Cpu) → IsSeen s seen.now
            → result ≡ effective_address s self.now.base self.now.offset }
    {
        let offset = i64::from(self.offset).cast_unsigned();
        register(seen, self.base).wrapping_add(offset)
    }
}

/// What a register holds.
pub fn register(seen: &Seen, register: Reg) -> u64
    ensures { (s : state.Cpu) → IsSeen s seen.now → result ≡ value s register }
{
    seen.registers[register as usize]
}

/// The bytes of this size there.
fn access_at(base: Reg, offset: i16, size: Size) -> Access
    ensures { result ≡ record { base = base; offset = offset; length = length_of size } }
{
    Access {
        base,
        offset,
        length: length(size) as u64,
    }
}

/// The size of as many bytes.
fn plain_size(size: SignedSize) -> Size
    ensures { result ≡ plain_size size }
{
    match size {
        SignedSize::Byte => Size::Byte,
        SignedSize::Half => Size::Half,
        SignedSize::Word => Size::Word,
    }
}

/// The bytes that an instruction loads or stores itself, or those of the lock that it takes or frees.
pub fn access_of(insn: Insn) -> Option<Access>
    ensures some { IfSome result (λ a. Accesses insn a.base a.offset a.length) }
    ensures none { IfNone result ((base : registers.Reg) (offset : ℤ) (length : ℕ)
        → Accesses insn base offset length → ⊥) }
{
    match insn {
        Insn::Load {
            size,
            base,
            offset,
            ..
        } => Some(access_at(base, offset, size)),
        Insn::LoadSigned {
            size,
            base,
            offset,
            ..
        } => Some(access_at(base, offset, plain_size(size))),
        Insn::StoreImmediate {
            size,
            base,
            offset,
            ..
        } => Some(access_at(base, offset, size)),
        Insn::Store {
            size,
            base,
            offset,
            ..
        } => Some(access_at(base, offset, size)),
        Insn::Atomic {
            width,
            base,
            offset,
            ..
        } => Some(access_at(base, offset, size_of_width(width))),
        Insn::CallHelper {
            number: SPIN_LOCK | SPIN_UNLOCK,
        } => Some(access_at(Reg::R1, 0, Size::Word)),
        _ => None,
    }
}
