//! A fault with what its CPU had before the step.

ghost use Rattle.std.specs.Prelude.{◌≡◌, IfOk, OnOk, ℕ, List, length};
ghost use Rattle.bpf_cpu.specs.declared.cpu.Cpu as state;
ghost use Rattle.bpf_cpu.specs.State.{start};
ghost use Rattle.bpf_faults.specs.Evidence.{IsSeen, sizes_of};

use bpf_cpu::{Cpu, Fault, Input};
use bpf_shared::Span;
use std::alloc::{AllocError, Global};

/// How many bytes of memory a job is given.
#[derive(Clone, Copy)]
pub(crate) struct Sizes {
    pub context: usize,
    pub packet: usize,
}

/// What an explanation shows of a CPU's state.
#[derive(Drop)]
pub struct Seen {
    pub registers: [u64; 11],
    /// How many frames are live.
    pub frames: usize,
    /// How many bytes the context has.
    pub context: usize,
    /// How many bytes the packet has.
    pub packet: usize,
    /// Where the values lie that the run holds, in the order of their first lookup.
    pub held: Vec<Span>,
}

/// A job's fault, and what its CPU had before the step.
#[derive(Drop)]
pub struct Evidence {
    pub job: usize,
    pub cpu: u8,
    pub fault: Fault,
    /// The pc of the instruction.
    pub pc: u32,
    pub seen: Seen,
}

impl Seen {
    /// Nothing yet.
    pub(crate) fn nothing(alloc: Global) -> Seen {
        Seen {
            registers: [0; 11],
            frames: 0,
            context: 0,
            packet: 0,
            held: Vec::new(alloc),
        }
    }

    /// Sees this state. Where as many values were seen before, it takes no memory.
    pub(crate) fn see(&mut self, state: &Cpu) -> Result<(), AllocError>
        ensures { OnOk result (IsSeen state.now self.new) }
    {
        self.registers = state.registers;
        self.frames = state.memory.frames.depth();
        self.context = state.memory.context.bytes().len();
        self.packet = state.memory.packet.bytes().len();
        self.held.clear();
        self.held.extend_from_slice(state.held.spans())
    }

    /// Sees the state in which a job starts on this CPU, with memory of these sizes.
    pub(crate) fn see_start(
        &mut self,
        alloc: Global,
        cpu: u8,
        sizes: Sizes,
    ) -> Result<(), AllocError>
        ensures { OnOk result ((input : Input) → sizes_of input ≡ sizes
            → IsSeen (start cpu input) self.new) }
    {
        let start = Cpu::new(cpu, Input::nothing(alloc));
        self.see(&start)?;
        self.context = sizes.context;
        self.packet = sizes.packet;
        Ok(())
    }

    /// A copy of what was seen.
    pub(crate) fn again(&self, alloc: Global) -> Result<Seen, AllocError>
        ensures { IfOk result (λ seen. (s : state.Cpu) → IsSeen s self.now → IsSeen s seen) }
    {
        let held = Vec::from_slice(alloc, &self.held)?;
        Ok(Seen {
            registers: self.registers,
            frames: self.frames,
            context: self.context,
            packet: self.packet,
            held,
        })
    }
}
