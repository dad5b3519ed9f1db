//! What a job is given.

ghost use Rattle.std.specs.Prelude.{◌≡◌, ◌≤◌, ◌↔◌, IfOk, IsTrue, vec_len};
ghost use Rattle.bpf_mem.specs.Limits.{max_context};
ghost use Rattle.bpf_cpu.specs.Input.{no_input, of_bytes};

use bpf_helpers::Given;
use bpf_mem::{Context, Packet};
use std::alloc::{AllocError, Global};

/// What a job is given before its first step.
#[derive(Drop)]
pub struct Input {
    /// The bytes that R1 leads to.
    pub context: Context,
    /// The packet, which programs find by addresses in the context; none has no bytes.
    pub packet: Packet,
    /// What helpers answer from.
    pub given: Given,
}

impl Input {
    /// These bytes as the context, and nothing that helpers answer from. It takes no memory.
    pub fn of_bytes(alloc: Global, bytes: Vec<u8>) -> Input
        requires { vec_len bytes ≤ max_context }
        ensures { result ≡ of_bytes bytes.items }
    {
        Input {
            context: Context::new(bytes),
            packet: Packet::new(Vec::new(alloc)),
            given: Given::NOTHING,
        }
    }

    /// No bytes either.
    pub fn nothing(alloc: Global) -> Input
        ensures { result ≡ no_input }
    {
        Input::of_bytes(alloc, Vec::new(alloc))
    }

    /// A copy of it.
    pub fn copy(&self, alloc: Global) -> Result<Input, AllocError>
        ensures { IfOk result (λ copy. copy ≡ self.now) }
    {
        let context = self.context.copy(alloc)?;
        let packet = self.packet.copy(alloc)?;
        let given = self.given;
        Ok(Input {
            context,
            packet,
            given,
        })
    }

    /// Whether all of it is that of another.
    pub fn is_same(&self, other: &Input) -> bool
        ensures { IsTrue result ↔ (self.now ≡ other.now) }
    {
        self.given == other.given
            && self.context.is_same(&other.context)
            && self.packet.is_same(&other.packet)
    }

    /// Whether there is nothing.
    pub fn is_nothing(&self) -> bool
        ensures { IsTrue result ↔ (self.now ≡ no_input) }
    {
        self.given == Given::NOTHING
            && self.context.bytes().is_empty()
            && self.packet.bytes().is_empty()
    }
}
