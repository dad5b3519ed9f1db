//! What a session does to its breakpoints.

ghost use Rattle.std.specs.Prelude.{◌≡◌, IfErr, IfOk, OnErr, Some, string_bytes, true};
ghost use Rattle.bpf_plain.specs.PlainStore.{has_cpu};
ghost use Rattle.bpf_debug.specs.Command.{Break, Delete};
ghost use Rattle.bpf_debug.specs.Session.{IsPc};
ghost use Rattle.bpf_buffer_debug.specs.Command.{Plain};

use super::Session;
use bpf_debug::DebugError;
use bpf_debug::breakpoint::{Breakpoint, has_break, remove_break};
use bpf_debug::lines::{put_break, put_deleted};
use bpf_debug::session::{is_pc, make_room};
use std::alloc::Global;

impl Session {
    ghost use Rattle.bpf_buffer_debug.specs.Session.{Leaves, RefusesHere};

    /// A breakpoint of a CPU, at a pc of some program.
    fn set_break(&mut self, alloc: Global, cpu: u8, pc: u32) -> Result<String, DebugError>
        requires served { has_cpu self.old.machine.machine.store cpu ≡ true }
        requires begins { IsPc self.old.machine.machine.programs pc }
        ensures answered { IfOk result (λ text. Leaves self.old
            (Plain (Break (Some cpu) (Some pc))) (string_bytes text) self.new) }
        ensures refused { IfErr result (λ e. e ≡ DebugError.OutOfMemory) }
        ensures unchanged { OnErr result (self.new ≡ self.old) }
    {
        let mut out = make_room(alloc, 0)?;
        put_break(&mut out, cpu, pc);
        if has_break(&self.breakpoints, cpu, pc) {
            return Ok(out);
        }
        self.breakpoints.push(Breakpoint { cpu, pc })?;
        Ok(out)
    }

    fn break_at(&mut self, alloc: Global, cpu: u8, pc: Option<u32>) -> Result<String, DebugError>
        requires { has_cpu self.old.machine.machine.store cpu ≡ true }
        ensures answered { IfOk result (λ text.
            Leaves self.old (Plain (Break (Some cpu) pc)) (string_bytes text) self.new) }
        ensures refused { IfErr result
            (λ e. RefusesHere self.old (Plain (Break (Some cpu) pc)) e) }
        ensures unchanged { OnErr result (self.new ≡ self.old) }
    {
        let Some(at) = pc else {
            return Err(DebugError::NoPc);
        };
        if !is_pc(self.machine().programs(), at) {
            return Err(DebugError::NoPc);
        }
        self.set_break(alloc, cpu, at)
    }

    pub(super) fn break_cpu(
        &mut self,
        alloc: Global,
        number: Option<u8>,
        pc: Option<u32>,
    ) -> Result<String, DebugError>
        ensures answered { IfOk result (λ text.
            Leaves self.old (Plain (Break number pc)) (string_bytes text) self.new) }
        ensures refused { IfErr result
            (λ e. RefusesHere self.old (Plain (Break number pc)) e) }
        ensures unchanged { OnErr result (self.new ≡ self.old) }
    {
        let Some(cpu) = self.cpu(number) else {
            return Err(DebugError::NoCpu);
        };
        self.break_at(alloc, cpu, pc)
    }

    /// No breakpoint of a CPU, at a pc of some program.
    fn delete_break(&mut self, alloc: Global, cpu: u8, pc: u32) -> Result<String, DebugError>
        requires served { has_cpu self.old.machine.machine.store cpu ≡ true }
        requires begins { IsPc self.old.machine.machine.programs pc }
        ensures answered { IfOk result (λ text. Leaves self.old
            (Plain (Delete (Some cpu) (Some pc))) (string_bytes text) self.new) }
        ensures refused { IfErr result (λ e. e ≡ DebugError.OutOfMemory) }
        ensures unchanged { OnErr result (self.new ≡ self.old) }
    {
        let mut out = make_room(alloc, 0)?;
        put_deleted(&mut out, cpu, pc);
        remove_break(&mut self.breakpoints, cpu, pc);
        Ok(out)
    }

    fn delete_at(&mut self, alloc: Global, cpu: u8, pc: Option<u32>) -> Result<String, DebugError>
        requires { has_cpu self.old.machine.machine.store cpu ≡ true }
        ensures answered { IfOk result (λ text.
            Leaves self.old (Plain (Delete (Some cpu) pc)) (string_bytes text) self.new) }
        ensures refused { IfErr result
            (λ e. RefusesHere self.old (Plain (Delete (Some cpu) pc)) e) }
        ensures unchanged { OnErr result (self.new ≡ self.old) }
    {
        let Some(at) = pc else {
            return Err(DebugError::NoPc);
        };
        if !is_pc(self.machine().programs(), at) {
            return Err(DebugError::NoPc);
        }
        self.delete_break(alloc, cpu, at)
    }

    pub(super) fn delete(
        &mut self,
        alloc: Global,
        number: Option<u8>,
        pc: Option<u32>,
    ) -> Result<String, DebugError>
        ensures answered { IfOk result (λ text.
            Leaves self.old (Plain (Delete number pc)) (string_bytes text) self.new) }
        ensures refused { IfErr result
            (λ e. RefusesHere self.old (Plain (Delete number pc)) e) }
        ensures unchanged { OnErr result (self.new ≡ self.old) }
    {
        let Some(cpu) = self.cpu(number) else {
            return Err(DebugError::NoCpu);
        };
        self.delete_at(alloc, cpu, pc)
    }
}
