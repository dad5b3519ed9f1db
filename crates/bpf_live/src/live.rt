//! The registers that a program may read before it writes them, and states that differ only in the
//! others.

use crate::needs::{Set, is_live};
use bpf_cpu::KeptCpu;
use std::marker::Model;

/// Which registers are live, by pc. With no set all are.
#[derive(Drop)]
pub struct Live {
    sets: Vec<Set>,
}

impl Model for Live {
    ghost use Rattle.bpf_live.specs.Live.{Table};

    ghost Value = { Table };

    ghost view = { λ l. l.sets.items };
}

impl Live {
    ghost use Rattle.std.specs.Prelude.{◌≡◌, ◌⊎◌, ℕ, [], true, length, slice_index};
    ghost use Rattle.bpf_live.specs.Live.{is_live, IsLive, Table};
    ghost use Rattle.bpf_live.specs.Alike.{AreAlike, marked_as};
    ghost use Rattle.bpf_loader.specs.Loaded.{Loaded};

    /// These sets.
    pub(crate) fn new(sets: Vec<Set>) -> Live
        ensures { result ≡ sets.items }
    {
        Live { sets }
    }

    /// Whether a register is live at a pc. R10 always is.
    pub fn is_live(&self, pc: u32, register: u8) -> bool
        ensures { result ≡ is_live self.now pc register }
    {
        is_live(&self.sets, pc as usize, register)
    }

    /// The registers of a state, with those of another in place of the ones that aren't live at its
    /// pc: inside of a function that was called, of none.
    fn mixed(&self, cpu: &KeptCpu, other: &KeptCpu) -> [u64; 11]
        ensures many { length result ≡ length cpu.now.registers }
        ensures live { (r : ℕ) → IsLive self.now cpu.now.pc r
            → slice_index result r ≡ slice_index cpu.now.registers r }
        ensures entered { (result ≡ cpu.now.registers)
            ⊎ (cpu.now.memory.frames.callers ≡ []) }
    {
        if !cpu.frames().callers().is_empty() {
            return *cpu.registers();
        }
        let mut registers = *cpu.registers();
        for register in 0u8..10 {
            if !self.is_live(cpu.pc(), register) {
                registers[register as usize] = other.registers()[register as usize];
            }
        }
        registers
    }

    /// Whether two states are the same but for registers that aren't live at their pc. Inside of a
    /// function that was called all count.
    pub fn is_alike(&self, cpu: &KeptCpu, other: &KeptCpu) -> bool
        ensures { result ≡ true
            → (program : Loaded) → AreAlike program self.now cpu.now other.now }
    {
        self.mixed(cpu, other) == *other.registers() && cpu.is_same_beside(other)
    }

    /// Whether a state with the marks of another is alike it: with its CPU's number, its job's, and the
    /// seed of its random numbers.
    pub fn is_alike_but_for_marks(&self, cpu: &KeptCpu, other: &KeptCpu) -> bool
        ensures { result ≡ true → (program : Loaded)
            → AreAlike program self.now (marked_as other.now cpu.now) other.now }
    {
        self.mixed(cpu, other) == *other.registers() && cpu.is_same_beside_marks(other)
    }
}
