//! A CPU's state as bytes, and from such bytes.

ghost use Rattle.std.specs.Prelude.{◌≡◌, ◌^◌, ◌<◌, ◌∷◌, ◌++◌, [], ℕ, List, OnOk, OnErr, IfSome, IfNone, length};
ghost use Rattle.std.specs.Io.{StartsWith};
ghost use Rattle.bpf_base.specs.Bytes.{low_bytes};
ghost use Rattle.bpf_mem.specs.Saved.{IsWord, words_saved};
ghost use Rattle.bpf_helpers.specs.Saved.{AreOnce, MayBeHeld};
ghost use Rattle.bpf_cpu.specs.declared.cpu.Cpu.{Cpu};
ghost use Rattle.bpf_cpu.specs.Saved.{cpu_saved, IsOfOneJob, IsSavableState};

use crate::cpu::Cpu;
use crate::kept::KeptCpu;
use bpf_base::bytes::load_word;
use bpf_mem::{are_words, read_words, save_words};
use std::alloc::{AllocError, Global};

/// Appends bytes to others.
fn save_bytes(bytes: &[u8], out: &mut Vec<u8>) -> Result<(), AllocError>
    ensures ok { OnOk result (out.new.items ≡ out.old.items ++ bytes.now) }
    ensures err { OnErr result (StartsWith out.new.items out.old.items) }
{
    out.extend_from_slice(bytes)
}

/// Appends a pc's bytes to others.
fn save_pc(pc: u32, out: &mut Vec<u8>) -> Result<(), AllocError>
    ensures ok { OnOk result (out.new.items ≡ out.old.items ++ low_bytes 4 pc) }
    ensures err { OnErr result (StartsWith out.new.items out.old.items) }
{
    save_bytes(&pc.to_le_bytes(), out)
}

/// The pc that the bytes begin with; what comes after it.
fn read_pc(bytes: &[u8]) -> Option<(u32, &[u8])>
    ensures some { IfSome result (λ r. bytes.now ≡ low_bytes 4 r.0 ++ r.1.now) }
    ensures near { IfSome result (λ r. r.0 < 2 ^ 32) }
    ensures none { IfNone result (length bytes.now < 4) }
{
    if bytes.len() < 4 {
        return None;
    }
    Some((load_word(bytes, 0), &bytes[4..]))
}

/// Appends to the bytes what a count is saved as.
fn save_count(count: u64, out: &mut Vec<u8>) -> Result<(), AllocError>
    ensures ok { OnOk result (out.new.items ≡ out.old.items ++ words_saved 0 (count ∷ [])) }
    ensures err { OnErr result (StartsWith out.new.items out.old.items) }
{
    save_words(&[count], out)
}

/// The count whose saved form the bytes begin with; what comes after it.
fn read_count(bytes: &[u8]) -> Option<(u64, &[u8])>
    ensures some { IfSome result (λ r. bytes.now ≡ words_saved 0 (r.0 ∷ []) ++ r.1.now) }
    ensures word { IfSome result (λ r. IsWord r.0) }
    ensures none { IfNone result ((count : ℕ) (rest : List ℕ) → IsWord count
        → bytes.now ≡ words_saved 0 (count ∷ []) ++ rest → ⊥) }
{
    let mut words = [0; 1];
    let rest = read_words(&mut words, bytes)?;
    Some((words[0], rest))
}

impl Cpu {
    /// The state is determined by what it is saved as, and its run holds each value once: says so, and
    /// does nothing.
    pub fn is_savable(&self)
        ensures savable { IsSavableState self.now }
        ensures once { AreOnce self.now.held }
    {
        let _pc = self.pc;
        let _drawn = self.drawn;
        are_words(&self.registers);
        self.memory.frames.are_savable();
        self.held.are_savable();
    }

    /// Appends to the bytes what the state is saved as. The CPU's number and what the job was given
    /// aren't in it.
    pub fn save(&self, out: &mut Vec<u8>) -> Result<(), AllocError>
        ensures ok { OnOk result (out.new.items ≡ out.old.items ++ cpu_saved self.now) }
        ensures err { OnErr result (StartsWith out.new.items out.old.items) }
    {
        save_pc(self.pc, out)?;
        save_words(&self.registers, out)?;
        save_count(self.drawn, out)?;
        self.memory.frames.save(out)?;
        self.held.save(out)?;
        save_bytes(self.memory.context.bytes(), out)?;
        save_bytes(self.memory.packet.bytes(), out)
    }

    /// Becomes the state whose saved form the bytes begin with, of those of one job; what comes
    /// after it. `None` where no state has such a form, and then it may be any. It takes no
    /// memory.
    pub fn restore<'a>(&mut self, bytes: &'a [u8]) -> Option<&'a [u8]>
        ensures some { IfSome result (λ rest. bytes.now ≡ cpu_saved self.new ++ rest.now) }
        ensures savable { IfSome result (λ _. IsSavableState self.new) }
        ensures job { IsOfOneJob self.old self.new }
        ensures none { IfNone result ((other : Cpu) (more : List ℕ) → IsSavableState other
            → MayBeHeld other.held → IsOfOneJob self.old other
            → bytes.now ≡ cpu_saved other ++ more → ⊥) }
    {
        let (pc, rest) = read_pc(bytes)?;
        self.pc = pc;
        let rest = read_words(&mut self.registers, rest)?;
        let (drawn, rest) = read_count(rest)?;
        self.drawn = drawn;
        let rest = self.memory.frames.restore(rest)?;
        let rest = self.held.restore(rest)?;
        let rest = self.memory.context.restore(rest)?;
        self.memory.packet.restore(rest)
    }
}

impl KeptCpu {
    ghost use Rattle.std.specs.Prelude.{◌≡◌, ◌++◌, ℕ, List, IfOk, IfSome, IfNone};
    ghost use Rattle.bpf_helpers.specs.Saved.{MayBeHeld};
    ghost use Rattle.bpf_cpu.specs.declared.cpu.Cpu.{Cpu};
    ghost use Rattle.bpf_cpu.specs.Saved.{cpu_saved, IsOfOneJob, IsSavableState};

    /// Becomes the state whose saved form the bytes begin with, of those of one job; what comes
    /// after it. `None` where no state has such a form.
    pub fn restore<'a>(
        &mut self,
        alloc: Global,
        bytes: &'a [u8],
    ) -> Result<Option<&'a [u8]>, AllocError>
        ensures some { IfOk result (λ o. IfSome o
            (λ rest. bytes.now ≡ cpu_saved self.new ++ rest.now)) }
        ensures savable { IfOk result (λ o. IfSome o (λ _. IsSavableState self.new)) }
        ensures job { IsOfOneJob self.old self.new }
        ensures none { IfOk result (λ o. IfNone o ((other : Cpu) (more : List ℕ)
            → IsSavableState other → MayBeHeld other.held → IsOfOneJob self.old other
            → bytes.now ≡ cpu_saved other ++ more → ⊥)) }
    {
        let mut state = self.to_cpu(alloc)?;
        let Some(rest) = state.restore(bytes) else {
            return Ok(None);
        };
        *self = KeptCpu::of(alloc, &state)?;
        Ok(Some(rest))
    }
}
