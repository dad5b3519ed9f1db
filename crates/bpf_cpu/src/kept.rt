//! A CPU's state as it is kept: a `Cpu` but for the room in which it may come to have more.

ghost use Rattle.std.specs.Prelude.{◌≡◌, ◌↔◌, true, IfOk, IsTrue, length};

use crate::cpu::Cpu;
use crate::input::Input;
use bpf_helpers::{Given, KeptSpans};
use bpf_mem::{Context, KeptFrames, Packet};
use std::alloc::{AllocError, Global};
use std::marker::Model;

/// The state of one job on one CPU, which is kept. It is seen as the `Cpu` that it was made of.
#[derive(Drop)]
pub struct KeptCpu {
    registers: [u64; 11],
    number: u8,
    pc: u32,
    frames: KeptFrames,
    context: Context,
    packet: Packet,
    held: KeptSpans,
    given: Given,
    drawn: u64,
}

impl Model for KeptCpu {
    ghost use Rattle.bpf_cpu.specs.declared.cpu.Cpu.{Cpu};

    ghost Value = { Cpu };

    ghost view = { λ k. record {
      registers = k.registers;
      number = k.number;
      pc = k.pc;
      memory = record { frames = k.frames; context = k.context; packet = k.packet };
      held = k.held;
      given = k.given;
      drawn = k.drawn;
    } };
}

impl KeptCpu {
    /// A CPU's state as it is.
    pub fn of(alloc: Global, cpu: &Cpu) -> Result<KeptCpu, AllocError>
        ensures { IfOk result (λ kept. kept ≡ cpu.now) }
    {
        let frames = KeptFrames::of(alloc, &cpu.memory.frames)?;
        let context = cpu.memory.context.copy(alloc)?;
        let packet = cpu.memory.packet.copy(alloc)?;
        let held = KeptSpans::of(alloc, &cpu.held)?;
        Ok(KeptCpu {
            registers: cpu.registers,
            number: cpu.number,
            pc: cpu.pc,
            frames,
            context,
            packet,
            held,
            given: cpu.given,
            drawn: cpu.drawn,
        })
    }

    /// A CPU in this state.
    pub fn to_cpu(&self, alloc: Global) -> Result<Cpu, AllocError>
        ensures { IfOk result (λ cpu. cpu ≡ self.now) }
    {
        let input = Input {
            context: self.context.copy(alloc)?,
            packet: self.packet.copy(alloc)?,
            given: self.given,
        };
        let mut cpu = Cpu::new(self.number, input);
        cpu.copy_from_kept(self);
        Ok(cpu)
    }

    /// R0 to R10.
    pub fn registers(&self) -> &[u64; 11]
        ensures { result.now ≡ self.now.registers }
    {
        &self.registers
    }

    /// The CPU's number.
    pub fn number(&self) -> u8
        ensures { result ≡ self.now.number }
    {
        self.number
    }

    /// The word of the program at which the next instruction begins.
    pub fn pc(&self) -> u32
        ensures { result ≡ self.now.pc }
    {
        self.pc
    }

    /// The live frames.
    pub fn frames(&self) -> &KeptFrames
        ensures { result.now ≡ self.now.memory.frames }
    {
        &self.frames
    }

    /// The context.
    pub fn context(&self) -> &Context
        ensures { result.now ≡ self.now.memory.context }
    {
        &self.context
    }

    /// The packet.
    pub fn packet(&self) -> &Packet
        ensures { result.now ≡ self.now.memory.packet }
    {
        &self.packet
    }

    /// The values that the run holds.
    pub fn held(&self) -> &KeptSpans
        ensures { result.now ≡ self.now.held }
    {
        &self.held
    }

    /// About how many bytes of memory it takes beside itself, its context and its packet.
    pub fn bytes(&self) -> usize {
        self.frames.bytes().saturating_add(self.held.bytes())
    }

    /// Whether a CPU is in this state.
    pub fn is_state_of(&self, cpu: &Cpu) -> bool
        ensures { IsTrue result ↔ (self.now ≡ cpu.now) }
    {
        self.number == cpu.number
            && self.pc == cpu.pc
            && self.registers == cpu.registers
            && self.given == cpu.given
            && self.drawn == cpu.drawn
            && self.held.are(&cpu.held)
            && self.frames.are(&cpu.memory.frames)
            && self.context.is_same(&cpu.memory.context)
            && self.packet.is_same(&cpu.memory.packet)
    }

    /// Whether all of it but the registers is that of another.
    pub fn is_same_beside(&self, other: &KeptCpu) -> bool
        ensures { result ≡ true → other.now
            ≡ record self.now { registers = other.now.registers } }
    {
        self.number == other.number
            && self.pc == other.pc
            && self.given == other.given
            && self.drawn == other.drawn
            && self.held.is_same(&other.held)
            && self.frames.is_same(&other.frames)
            && self.context.is_same(&other.context)
            && self.packet.is_same(&other.packet)
    }

    /// Whether all of it but the registers is that of another, and but for marks: the CPU's number, the
    /// job's, and the seed of its random numbers.
    pub fn is_same_beside_marks(&self, other: &KeptCpu) -> bool
        ensures { result ≡ true → other.now ≡ record self.now {
          registers = other.now.registers;
          number = other.now.number;
          given = record self.now.given {
            job = other.now.given.job;
            seed = other.now.given.seed;
          };
        } }
    {
        self.pc == other.pc
            && self.given.time == other.given.time
            && self.drawn == other.drawn
            && self.held.is_same(&other.held)
            && self.frames.is_same(&other.frames)
            && self.context.is_same(&other.context)
            && self.packet.is_same(&other.packet)
    }

    /// Is of the CPU of this number, and of a job that is given this.
    pub fn set_job(&mut self, number: u8, given: Given)
        ensures { self.new ≡ record self.old { number = number; given = given } }
    {
        self.number = number;
        self.given = given;
    }
}

impl Cpu {
    ghost use Rattle.std.specs.Prelude.{◌≡◌, length};

    /// Comes into a state that is kept, whose context and packet are as long. It takes no memory.
    pub fn copy_from_kept(&mut self, kept: &KeptCpu)
        requires context { length kept.now.memory.context ≡ length self.old.memory.context }
        requires packet { length kept.now.memory.packet ≡ length self.old.memory.packet }
        ensures { self.new ≡ kept.now }
    {
        self.registers = kept.registers;
        self.number = kept.number;
        self.pc = kept.pc;
        self.memory.frames.copy_from_kept(&kept.frames);
        self.memory.context.copy_from(&kept.context);
        self.memory.packet.copy_from(&kept.packet);
        self.held.copy_from_kept(&kept.held);
        self.given = kept.given;
        self.drawn = kept.drawn;
    }
}
