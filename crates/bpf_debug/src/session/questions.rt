//! What a session answers to questions: they make no turn and change nothing.

ghost use Rattle.std.specs.Prelude.{◌≡◌, true, IfOk, IfErr, Some, string_bytes};
ghost use Rattle.bpf_plain.specs.PlainStore.{has_cpu};
ghost use Rattle.bpf_debug.specs.Command.{Order};

use super::{Session, make_room};
use crate::course::course_line;
use crate::error::DebugError;
use crate::held::held_lines;
use crate::help::help_text;
use crate::lines::{put_jobs, put_mark, put_off, put_registers, put_where};
use crate::maps::{map_named, number_line, table_keys, table_lines};
use crate::nearby::nearby_lines;
use crate::reading::bytes_line;
use crate::told::store_lines;
use bpf_jobs::list_variables;
use std::alloc::Global;

impl Session {
    ghost use Rattle.bpf_machine.specs.Hands.{IsFree};
    ghost use Rattle.bpf_debug.specs.Session.{Leaves, RefusesHere};

    fn registers_at(&self, alloc: Global, cpu: u8) -> Result<String, DebugError>
        requires { has_cpu self.now.machine.store cpu ≡ true }
        ensures answered { IfOk result (λ text.
            Leaves self.now (Order.Registers (Some cpu)) (string_bytes text) self.now) }
        ensures refused { IfErr result (λ e. e ≡ DebugError.OutOfMemory) }
    {
        let mut out = make_room(alloc, 0)?;
        put_registers(&mut out, &self.machine, cpu);
        Ok(out)
    }

    pub(super) fn registers(&self, alloc: Global, number: Option<u8>) -> Result<String, DebugError>
        ensures answered { IfOk result (λ text.
            Leaves self.now (Order.Registers number) (string_bytes text) self.now) }
        ensures refused { IfErr result (λ e. RefusesHere self.now (Order.Registers number) e) }
    {
        let Some(cpu) = self.cpu(number) else {
            return Err(DebugError::NoCpu);
        };
        self.registers_at(alloc, cpu)
    }

    fn standing_at(&self, alloc: Global, cpu: u8) -> Result<String, DebugError>
        requires { has_cpu self.now.machine.store cpu ≡ true }
        ensures answered { IfOk result (λ text.
            Leaves self.now (Order.Where (Some cpu)) (string_bytes text) self.now) }
        ensures refused { IfErr result (λ e. e ≡ DebugError.OutOfMemory) }
    {
        let mut out = make_room(alloc, 1)?;
        put_where(&mut out, &self.machine, cpu);
        Ok(out)
    }

    pub(super) fn standing(&self, alloc: Global, number: Option<u8>) -> Result<String, DebugError>
        ensures answered { IfOk result (λ text.
            Leaves self.now (Order.Where number) (string_bytes text) self.now) }
        ensures refused { IfErr result (λ e. RefusesHere self.now (Order.Where number) e) }
    {
        let Some(cpu) = self.cpu(number) else {
            return Err(DebugError::NoCpu);
        };
        self.standing_at(alloc, cpu)
    }

    /// What `mem` answers of a CPU that has no job in hand.
    fn off_at(
        &self,
        alloc: Global,
        cpu: u8,
        address: Option<u64>,
        count: usize,
    ) -> Result<String, DebugError>
        requires served { has_cpu self.now.machine.store cpu ≡ true }
        requires free { IsFree self.now.machine.jobs cpu }
        ensures answered { IfOk result (λ text.
            Leaves self.now (Order.Memory (Some cpu) address count) (string_bytes text) self.now) }
        ensures refused { IfErr result (λ e. e ≡ DebugError.OutOfMemory) }
    {
        let mut out = make_room(alloc, 1)?;
        put_off(&mut out, &self.machine, cpu);
        Ok(out)
    }

    fn memory_at(
        &self,
        alloc: Global,
        cpu: u8,
        address: Option<u64>,
        count: usize,
    ) -> Result<String, DebugError>
        requires { has_cpu self.now.machine.store cpu ≡ true }
        ensures answered { IfOk result (λ text.
            Leaves self.now (Order.Memory (Some cpu) address count) (string_bytes text) self.now) }
        ensures refused { IfErr result (λ e. e ≡ DebugError.OutOfMemory) }
    {
        let Some(state) = self.machine.cpu(cpu) else {
            return self.off_at(alloc, cpu, address, count);
        };
        let text = bytes_line(alloc, self.machine.store(), state, address, count)?;
        Ok(text)
    }

    pub(super) fn memory(
        &self,
        alloc: Global,
        number: Option<u8>,
        address: Option<u64>,
        count: usize,
    ) -> Result<String, DebugError>
        ensures answered { IfOk result (λ text.
            Leaves self.now (Order.Memory number address count) (string_bytes text) self.now) }
        ensures refused { IfErr result
            (λ e. RefusesHere self.now (Order.Memory number address count) e) }
    {
        let Some(cpu) = self.cpu(number) else {
            return Err(DebugError::NoCpu);
        };
        self.memory_at(alloc, cpu, address, count)
    }

    pub(super) fn map(&self, alloc: Global, name: &[u8]) -> Result<String, DebugError>
        ensures answered { IfOk result
            (λ text. Leaves self.now (Order.Map name.now) (string_bytes text) self.now) }
        ensures refused { IfErr result (λ e. RefusesHere self.now (Order.Map name.now) e) }
    {
        let Some(map) = map_named(&self.names.maps, name) else {
            return Err(DebugError::NoMap);
        };
        let text = table_lines(alloc, self.machine.store(), &self.names.maps, map)?;
        Ok(text)
    }

    pub(super) fn keys(&self, alloc: Global, name: &[u8]) -> Result<String, DebugError>
        ensures answered { IfOk result
            (λ text. Leaves self.now (Order.Keys name.now) (string_bytes text) self.now) }
        ensures refused { IfErr result (λ e. RefusesHere self.now (Order.Keys name.now) e) }
    {
        let Some(map) = map_named(&self.names.maps, name) else {
            return Err(DebugError::NoMap);
        };
        let text = table_keys(alloc, self.machine.store(), map)?;
        Ok(text)
    }

    pub(super) fn schedule(&self, alloc: Global) -> Result<String, DebugError>
        ensures answered { IfOk result
            (λ text. Leaves self.now Order.Schedule (string_bytes text) self.now) }
        ensures refused { IfErr result (λ e. RefusesHere self.now Order.Schedule e) }
    {
        let Some(runs) = self.course.runs() else {
            return Err(DebugError::OutOfMemory);
        };
        let text = course_line(alloc, runs)?;
        Ok(text)
    }

    pub(super) fn maps(&self, alloc: Global) -> Result<String, DebugError>
        ensures answered { IfOk result
            (λ text. Leaves self.now Order.Maps (string_bytes text) self.now) }
        ensures refused { IfErr result (λ e. RefusesHere self.now Order.Maps e) }
    {
        let text = store_lines(alloc, self.machine.store(), &self.names)?;
        Ok(text)
    }

    pub(super) fn variables(&self, alloc: Global) -> Result<String, DebugError>
        ensures answered { IfOk result
            (λ text. Leaves self.now Order.Variables (string_bytes text) self.now) }
        ensures refused { IfErr result (λ e. RefusesHere self.now Order.Variables e) }
    {
        let text = list_variables(alloc, self.machine.store(), &self.names.variables)?;
        Ok(text)
    }

    pub(super) fn number(&self, alloc: Global, name: &[u8]) -> Result<String, DebugError>
        ensures answered { IfOk result
            (λ text. Leaves self.now (Order.Number name.now) (string_bytes text) self.now) }
        ensures refused { IfErr result (λ e. RefusesHere self.now (Order.Number name.now) e) }
    {
        let Some(variable) = self.names.variable(name) else {
            return Err(DebugError::NoMap);
        };
        let text = number_line(alloc, self.machine.store(), variable)?;
        Ok(text)
    }

    pub(super) fn jobs(&self, alloc: Global) -> Result<String, DebugError>
        ensures answered { IfOk result
            (λ text. Leaves self.now Order.Jobs (string_bytes text) self.now) }
        ensures refused { IfErr result (λ e. RefusesHere self.now Order.Jobs e) }
    {
        let mut out = make_room(alloc, self.machine.jobs())?;
        put_jobs(&mut out, &self.machine);
        Ok(out)
    }

    pub(super) fn mark(&self, alloc: Global, number: u64) -> Result<String, DebugError>
        ensures answered { IfOk result
            (λ text. Leaves self.now (Order.Mark number) (string_bytes text) self.now) }
        ensures refused { IfErr result (λ e. RefusesHere self.now (Order.Mark number) e) }
    {
        let mut out = make_room(alloc, 1)?;
        put_mark(&mut out, number);
        Ok(out)
    }

    /// What `held` answers of a CPU that has no job in hand.
    fn holds_nothing(&self, alloc: Global, cpu: u8) -> Result<String, DebugError>
        requires served { has_cpu self.now.machine.store cpu ≡ true }
        requires free { IsFree self.now.machine.jobs cpu }
        ensures answered { IfOk result (λ text.
            Leaves self.now (Order.Held (Some cpu)) (string_bytes text) self.now) }
        ensures refused { IfErr result (λ e. e ≡ DebugError.OutOfMemory) }
    {
        let mut out = make_room(alloc, 1)?;
        put_off(&mut out, &self.machine, cpu);
        Ok(out)
    }

    fn held_at(&self, alloc: Global, cpu: u8) -> Result<String, DebugError>
        requires { has_cpu self.now.machine.store cpu ≡ true }
        ensures answered { IfOk result (λ text.
            Leaves self.now (Order.Held (Some cpu)) (string_bytes text) self.now) }
        ensures refused { IfErr result (λ e. e ≡ DebugError.OutOfMemory) }
    {
        let Some(state) = self.machine.cpu(cpu) else {
            return self.holds_nothing(alloc, cpu);
        };
        let text = held_lines(alloc, self.machine.store(), state, &self.names.maps)?;
        Ok(text)
    }

    pub(super) fn held(&self, alloc: Global, number: Option<u8>) -> Result<String, DebugError>
        ensures answered { IfOk result
            (λ text. Leaves self.now (Order.Held number) (string_bytes text) self.now) }
        ensures refused { IfErr result (λ e. RefusesHere self.now (Order.Held number) e) }
    {
        let Some(cpu) = self.cpu(number) else {
            return Err(DebugError::NoCpu);
        };
        self.held_at(alloc, cpu)
    }

    pub(super) fn help(&self, alloc: Global) -> Result<String, DebugError>
        ensures answered { IfOk result
            (λ text. Leaves self.now Order.Help (string_bytes text) self.now) }
        ensures refused { IfErr result (λ e. RefusesHere self.now Order.Help e) }
    {
        let text = help_text(alloc)?;
        Ok(text)
    }

    fn nearby_at(&self, alloc: Global, cpu: u8) -> Result<String, DebugError>
        requires { has_cpu self.now.machine.store cpu ≡ true }
        ensures answered { IfOk result (λ text.
            Leaves self.now (Order.Nearby (Some cpu)) (string_bytes text) self.now) }
        ensures refused { IfErr result (λ e. e ≡ DebugError.OutOfMemory) }
    {
        let text = nearby_lines(alloc, &self.machine, cpu)?;
        Ok(text)
    }

    pub(super) fn nearby(&self, alloc: Global, number: Option<u8>) -> Result<String, DebugError>
        ensures answered { IfOk result (λ text.
            Leaves self.now (Order.Nearby number) (string_bytes text) self.now) }
        ensures refused { IfErr result (λ e. RefusesHere self.now (Order.Nearby number) e) }
    {
        let Some(cpu) = self.cpu(number) else {
            return Err(DebugError::NoCpu);
        };
        self.nearby_at(alloc, cpu)
    }
}
