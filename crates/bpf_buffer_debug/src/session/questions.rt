//! What a session answers to questions: they make no move and change nothing.

ghost use Rattle.std.specs.Prelude.{◌≡◌, IfErr, IfOk, Some, string_bytes, true};
ghost use Rattle.bpf_plain.specs.PlainStore.{has_cpu};
ghost use Rattle.bpf_debug.specs.Command.{Held, Help, Jobs, Keys, Map, Maps, Mark, Memory, Nearby, Number, Registers, Schedule, Variables, Where};
ghost use Rattle.bpf_buffer_debug.specs.Command.{Buffer, Plain};

use super::Session;
use crate::help::help_text;
use crate::lines::{put_jobs, put_registers, where_line};
use crate::nearby::nearby_lines;
use crate::schedule::course_line;
use crate::seeing::{held_text, memory_line};
use crate::waiting::buffer_lines;
use bpf_debug::DebugError;
use bpf_debug::lines::put_mark;
use bpf_debug::maps::{map_named, number_line, table_keys, table_lines};
use bpf_debug::session::make_room;
use bpf_debug::told::store_lines;
use bpf_jobs::list_variables;
use std::alloc::Global;

impl Session {
    ghost use Rattle.bpf_buffer_debug.specs.Session.{Leaves, RefusesHere};

    fn registers_at(&self, alloc: Global, cpu: u8) -> Result<String, DebugError>
        requires { has_cpu self.now.machine.machine.store cpu ≡ true }
        ensures answered { IfOk result (λ text.
            Leaves self.now (Plain (Registers (Some cpu))) (string_bytes text) self.now) }
        ensures refused { IfErr result (λ e. e ≡ DebugError.OutOfMemory) }
    {
        let mut out = make_room(alloc, 0)?;
        put_registers(&mut out, self.machine(), cpu);
        Ok(out)
    }

    pub(super) fn registers(&self, alloc: Global, number: Option<u8>) -> Result<String, DebugError>
        ensures answered { IfOk result (λ text.
            Leaves self.now (Plain (Registers number)) (string_bytes text) self.now) }
        ensures refused { IfErr result (λ e. RefusesHere self.now (Plain (Registers number)) e) }
    {
        let Some(cpu) = self.cpu(number) else {
            return Err(DebugError::NoCpu);
        };
        self.registers_at(alloc, cpu)
    }

    fn standing_at(&self, alloc: Global, cpu: u8) -> Result<String, DebugError>
        requires { has_cpu self.now.machine.machine.store cpu ≡ true }
        ensures answered { IfOk result (λ text.
            Leaves self.now (Plain (Where (Some cpu))) (string_bytes text) self.now) }
        ensures refused { IfErr result (λ e. e ≡ DebugError.OutOfMemory) }
    {
        let text = where_line(alloc, self.machine(), cpu)?;
        Ok(text)
    }

    pub(super) fn standing(&self, alloc: Global, number: Option<u8>) -> Result<String, DebugError>
        ensures answered { IfOk result (λ text.
            Leaves self.now (Plain (Where number)) (string_bytes text) self.now) }
        ensures refused { IfErr result (λ e. RefusesHere self.now (Plain (Where number)) e) }
    {
        let Some(cpu) = self.cpu(number) else {
            return Err(DebugError::NoCpu);
        };
        self.standing_at(alloc, cpu)
    }

    fn memory_at(
        &mut self,
        alloc: Global,
        cpu: u8,
        address: Option<u64>,
        count: usize,
    ) -> Result<String, DebugError>
        requires { has_cpu self.old.machine.machine.store cpu ≡ true }
        ensures answered { IfOk result (λ text.
            Leaves self.old (Plain (Memory (Some cpu) address count)) (string_bytes text) self.new) }
        ensures refused { IfErr result (λ e. e ≡ DebugError.OutOfMemory) }
        ensures same { self.new ≡ self.old }
    {
        let machine = self.album.machine();
        let text = memory_line(alloc, machine, &mut self.seen, cpu, address, count)?;
        Ok(text)
    }

    pub(super) fn memory(
        &mut self,
        alloc: Global,
        number: Option<u8>,
        address: Option<u64>,
        count: usize,
    ) -> Result<String, DebugError>
        ensures answered { IfOk result (λ text.
            Leaves self.old (Plain (Memory number address count)) (string_bytes text) self.new) }
        ensures refused { IfErr result (λ e. RefusesHere self.old (Plain (Memory number address count)) e) }
        ensures same { self.new ≡ self.old }
    {
        let Some(cpu) = self.cpu(number) else {
            return Err(DebugError::NoCpu);
        };
        self.memory_at(alloc, cpu, address, count)
    }

    fn held_at(&mut self, alloc: Global, cpu: u8) -> Result<String, DebugError>
        requires { has_cpu self.old.machine.machine.store cpu ≡ true }
        ensures answered { IfOk result (λ text.
            Leaves self.old (Plain (Held (Some cpu))) (string_bytes text) self.new) }
        ensures refused { IfErr result (λ e. e ≡ DebugError.OutOfMemory) }
        ensures same { self.new ≡ self.old }
    {
        let machine = self.album.machine();
        let text = held_text(alloc, machine, &mut self.seen, cpu, &self.names.maps)?;
        Ok(text)
    }

    pub(super) fn held(&mut self, alloc: Global, number: Option<u8>) -> Result<String, DebugError>
        ensures answered { IfOk result (λ text.
            Leaves self.old (Plain (Held number)) (string_bytes text) self.new) }
        ensures refused { IfErr result (λ e. RefusesHere self.old (Plain (Held number)) e) }
        ensures same { self.new ≡ self.old }
    {
        let Some(cpu) = self.cpu(number) else {
            return Err(DebugError::NoCpu);
        };
        self.held_at(alloc, cpu)
    }

    fn nearby_at(&self, alloc: Global, cpu: u8) -> Result<String, DebugError>
        requires { has_cpu self.now.machine.machine.store cpu ≡ true }
        ensures answered { IfOk result (λ text.
            Leaves self.now (Plain (Nearby (Some cpu))) (string_bytes text) self.now) }
        ensures refused { IfErr result (λ e. e ≡ DebugError.OutOfMemory) }
    {
        let text = nearby_lines(alloc, self.machine(), cpu)?;
        Ok(text)
    }

    pub(super) fn nearby(&self, alloc: Global, number: Option<u8>) -> Result<String, DebugError>
        ensures answered { IfOk result (λ text.
            Leaves self.now (Plain (Nearby number)) (string_bytes text) self.now) }
        ensures refused { IfErr result (λ e. RefusesHere self.now (Plain (Nearby number)) e) }
    {
        let Some(cpu) = self.cpu(number) else {
            return Err(DebugError::NoCpu);
        };
        self.nearby_at(alloc, cpu)
    }

    fn buffer_at(&self, alloc: Global, cpu: u8) -> Result<String, DebugError>
        requires { has_cpu self.now.machine.machine.store cpu ≡ true }
        ensures answered { IfOk result (λ text.
            Leaves self.now (Buffer (Some cpu)) (string_bytes text) self.now) }
        ensures refused { IfErr result (λ e. e ≡ DebugError.OutOfMemory) }
    {
        let text = buffer_lines(alloc, self.machine(), &self.names.maps, cpu)?;
        Ok(text)
    }

    pub(super) fn buffer(&self, alloc: Global, number: Option<u8>) -> Result<String, DebugError>
        ensures answered { IfOk result (λ text.
            Leaves self.now (Buffer number) (string_bytes text) self.now) }
        ensures refused { IfErr result (λ e. RefusesHere self.now (Buffer number) e) }
    {
        let Some(cpu) = self.cpu(number) else {
            return Err(DebugError::NoCpu);
        };
        self.buffer_at(alloc, cpu)
    }

    pub(super) fn map(&self, alloc: Global, name: &[u8]) -> Result<String, DebugError>
        ensures answered { IfOk result
            (λ text. Leaves self.now (Plain (Map name.now)) (string_bytes text) self.now) }
        ensures refused { IfErr result (λ e. RefusesHere self.now (Plain (Map name.now)) e) }
    {
        let Some(map) = map_named(&self.names.maps, name) else {
            return Err(DebugError::NoMap);
        };
        let text = table_lines(alloc, self.machine().store(), &self.names.maps, map)?;
        Ok(text)
    }

    pub(super) fn keys(&self, alloc: Global, name: &[u8]) -> Result<String, DebugError>
        ensures answered { IfOk result
            (λ text. Leaves self.now (Plain (Keys name.now)) (string_bytes text) self.now) }
        ensures refused { IfErr result (λ e. RefusesHere self.now (Plain (Keys name.now)) e) }
    {
        let Some(map) = map_named(&self.names.maps, name) else {
            return Err(DebugError::NoMap);
        };
        let text = table_keys(alloc, self.machine().store(), map)?;
        Ok(text)
    }

    pub(super) fn schedule(&self, alloc: Global) -> Result<String, DebugError>
        ensures answered { IfOk result
            (λ text. Leaves self.now (Plain Schedule) (string_bytes text) self.now) }
        ensures refused { IfErr result (λ e. RefusesHere self.now (Plain Schedule) e) }
    {
        let Some(runs) = self.course.runs() else {
            return Err(DebugError::OutOfMemory);
        };
        let text = course_line(alloc, runs)?;
        Ok(text)
    }

    pub(super) fn maps(&self, alloc: Global) -> Result<String, DebugError>
        ensures answered { IfOk result
            (λ text. Leaves self.now (Plain Maps) (string_bytes text) self.now) }
        ensures refused { IfErr result (λ e. RefusesHere self.now (Plain Maps) e) }
    {
        let text = store_lines(alloc, self.machine().store(), &self.names)?;
        Ok(text)
    }

    pub(super) fn variables(&self, alloc: Global) -> Result<String, DebugError>
        ensures answered { IfOk result
            (λ text. Leaves self.now (Plain Variables) (string_bytes text) self.now) }
        ensures refused { IfErr result (λ e. RefusesHere self.now (Plain Variables) e) }
    {
        let text = list_variables(alloc, self.machine().store(), &self.names.variables)?;
        Ok(text)
    }

    pub(super) fn number(&self, alloc: Global, name: &[u8]) -> Result<String, DebugError>
        ensures answered { IfOk result
            (λ text. Leaves self.now (Plain (Number name.now)) (string_bytes text) self.now) }
        ensures refused { IfErr result (λ e. RefusesHere self.now (Plain (Number name.now)) e) }
    {
        let Some(variable) = self.names.variable(name) else {
            return Err(DebugError::NoMap);
        };
        let text = number_line(alloc, self.machine().store(), variable)?;
        Ok(text)
    }

    pub(super) fn jobs(&self, alloc: Global) -> Result<String, DebugError>
        ensures answered { IfOk result
            (λ text. Leaves self.now (Plain Jobs) (string_bytes text) self.now) }
        ensures refused { IfErr result (λ e. RefusesHere self.now (Plain Jobs) e) }
    {
        let mut out = make_room(alloc, self.machine().jobs())?;
        put_jobs(&mut out, self.machine());
        Ok(out)
    }

    pub(super) fn mark(&self, alloc: Global, number: u64) -> Result<String, DebugError>
        ensures answered { IfOk result
            (λ text. Leaves self.now (Plain (Mark number)) (string_bytes text) self.now) }
        ensures refused { IfErr result (λ e. RefusesHere self.now (Plain (Mark number)) e) }
    {
        let mut out = make_room(alloc, 0)?;
        put_mark(&mut out, number);
        Ok(out)
    }

    pub(super) fn help(&self, alloc: Global) -> Result<String, DebugError>
        ensures answered { IfOk result
            (λ text. Leaves self.now (Plain Help) (string_bytes text) self.now) }
        ensures refused { IfErr result (λ e. RefusesHere self.now (Plain Help) e) }
    {
        let text = help_text(alloc)?;
        Ok(text)
    }
}
