//! What a session does by making its turns again, from the first machine on.

ghost use Rattle.std.specs.Prelude.{◌≡◌, ◌≤◌, true, IfOk, IfErr, OnErr, List, Some, length, string_bytes, ℕ};
ghost use Rattle.bpf_machine.specs.Schedule.{unrolled};
ghost use Rattle.bpf_plain.specs.PlainStore.{has_cpu};
ghost use Rattle.bpf_debug.specs.Command.{Order};

use super::{Session, make_room};
use crate::course::has_turns;
use crate::error::DebugError;
use crate::lines::{put_off, put_where};
use crate::recall::{Kind, put_last};
use crate::show::{changed, shown_of};
use std::alloc::Global;

impl Session {
    ghost use Rattle.bpf_machine.specs.Hands.{IsFree};
    ghost use Rattle.bpf_debug.specs.Session.{Leaves, RefusesHere};

    /// Undoes this many turns, which there are.
    fn back_by(&mut self, alloc: Global, count: u64) -> Result<String, DebugError>
        requires { (runs : List (ℕ × ℕ)) × (self.old.course ≡ Some runs)
            × (count ≤ length (unrolled runs)) }
        ensures answered { IfOk result
            (λ text. Leaves self.old (Order.Back count) (string_bytes text) self.new) }
        ensures refused { IfErr result (λ e. e ≡ DebugError.OutOfMemory) }
        ensures unchanged { OnErr result (self.new ≡ self.old) }
    {
        let mut out = make_room(alloc, 1)?;
        self.origin.rewind(alloc, &mut self.machine)?;
        let cpu = self.course.take_back(count);
        self.course.repeat(&mut self.machine);
        put_where(&mut out, &self.machine, cpu);
        Ok(out)
    }

    pub(super) fn back(&mut self, alloc: Global, count: u64) -> Result<String, DebugError>
        ensures answered { IfOk result
            (λ text. Leaves self.old (Order.Back count) (string_bytes text) self.new) }
        ensures refused { IfErr result (λ e. RefusesHere self.old (Order.Back count) e) }
        ensures unchanged { OnErr result (self.new ≡ self.old) }
    {
        let Some(runs) = self.course.runs() else {
            return Err(DebugError::OutOfMemory);
        };
        if has_turns(runs, count) {
            self.back_by(alloc, count)
        } else {
            Err(DebugError::BadOperand)
        }
    }

    /// What the last job that ended on a CPU left: all turns are made again.
    fn last_at(&mut self, alloc: Global, cpu: u8) -> Result<String, DebugError>
        requires served { has_cpu self.old.machine.store cpu ≡ true }
        requires told { (runs : List (ℕ × ℕ)) × (self.old.course ≡ Some runs) }
        ensures answered { IfOk result
            (λ text. Leaves self.old (Order.Last (Some cpu)) (string_bytes text) self.new) }
        ensures refused { IfErr result (λ e. e ≡ DebugError.OutOfMemory) }
        ensures unchanged { OnErr result (self.new ≡ self.old) }
    {
        let mut out = make_room(alloc, 1)?;
        self.origin.rewind(alloc, &mut self.machine)?;
        let recall = self.course.recall(&mut self.machine, cpu, Kind::Ends);
        put_last(&mut out, &self.machine, cpu, recall);
        Ok(out)
    }

    pub(super) fn last(&mut self, alloc: Global, number: Option<u8>) -> Result<String, DebugError>
        ensures answered { IfOk result
            (λ text. Leaves self.old (Order.Last number) (string_bytes text) self.new) }
        ensures refused { IfErr result (λ e. RefusesHere self.old (Order.Last number) e) }
        ensures unchanged { OnErr result (self.new ≡ self.old) }
    {
        let Some(cpu) = self.cpu(number) else {
            return Err(DebugError::NoCpu);
        };
        let Some(_) = self.course.runs() else {
            return Err(DebugError::OutOfMemory);
        };
        self.last_at(alloc, cpu)
    }

    /// What `show` answers of a CPU that has no job in hand.
    fn shows_nothing(&self, alloc: Global, cpu: u8) -> Result<String, DebugError>
        requires served { has_cpu self.now.machine.store cpu ≡ true }
        requires free { IsFree self.now.machine.jobs cpu }
        ensures answered { IfOk result (λ text.
            Leaves self.now (Order.Show (Some cpu)) (string_bytes text) self.now) }
        ensures refused { IfErr result (λ e. e ≡ DebugError.OutOfMemory) }
    {
        let mut out = make_room(alloc, 1)?;
        put_off(&mut out, &self.machine, cpu);
        Ok(out)
    }

    /// What the last turn of a CPU changed of its registers: all turns are made again.
    fn show_at(&mut self, alloc: Global, cpu: u8) -> Result<String, DebugError>
        requires served { has_cpu self.old.machine.store cpu ≡ true }
        requires told { (runs : List (ℕ × ℕ)) × (self.old.course ≡ Some runs) }
        ensures answered { IfOk result
            (λ text. Leaves self.old (Order.Show (Some cpu)) (string_bytes text) self.new) }
        ensures refused { IfErr result (λ e. e ≡ DebugError.OutOfMemory) }
        ensures unchanged { OnErr result (self.new ≡ self.old) }
    {
        let Some(state) = self.machine.cpu(cpu) else {
            return self.shows_nothing(alloc, cpu);
        };
        let shown = shown_of(alloc, self.machine.store(), &self.names, state)?;
        self.origin.rewind(alloc, &mut self.machine)?;
        let recall = self.course.recall(&mut self.machine, cpu, Kind::Works);
        Ok(changed(shown, &recall))
    }

    pub(super) fn show(&mut self, alloc: Global, number: Option<u8>) -> Result<String, DebugError>
        ensures answered { IfOk result
            (λ text. Leaves self.old (Order.Show number) (string_bytes text) self.new) }
        ensures refused { IfErr result (λ e. RefusesHere self.old (Order.Show number) e) }
        ensures unchanged { OnErr result (self.new ≡ self.old) }
    {
        let Some(cpu) = self.cpu(number) else {
            return Err(DebugError::NoCpu);
        };
        let Some(_) = self.course.runs() else {
            return Err(DebugError::OutOfMemory);
        };
        self.show_at(alloc, cpu)
    }
}
