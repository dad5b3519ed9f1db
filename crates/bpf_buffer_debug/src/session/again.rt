//! What a session says of turns that it made, by making its moves again from the first machine on.

ghost use Rattle.std.specs.Prelude.{◌≡◌, [], IfErr, IfOk, Some, string_bytes, true};
ghost use Rattle.bpf_plain.specs.PlainStore.{has_cpu};
ghost use Rattle.bpf_machine.specs.Hands.{IsFree};
ghost use Rattle.bpf_debug.specs.Command.{Last, Show};
ghost use Rattle.bpf_debug.specs.Private.Room.{HasRoom};
ghost use Rattle.bpf_buffer_debug.specs.Command.{Plain};
ghost use Rattle.bpf_buffer_debug.specs.Seeing.{TellsSeenLines};

use super::Session;
use crate::lines::off_line;
use crate::recall::{last_lines, recall};
use crate::seeing::shown_lines;
use bpf_debug::DebugError;
use bpf_debug::recall::Kind;
use bpf_debug::show::{Shown, changed};
use std::alloc::Global;

impl Session {
    ghost use Rattle.bpf_buffer_debug.specs.Session.{Leaves, RefusesHere, Stays};

    /// What the last job that ended on a CPU left: all moves are made again.
    fn last_at(&mut self, alloc: Global, cpu: u8) -> Result<String, DebugError>
        requires { has_cpu self.old.machine.machine.store cpu ≡ true }
        ensures answered { IfOk result
            (λ text. Leaves self.old (Plain (Last (Some cpu))) (string_bytes text) self.new) }
        ensures refused { IfErr result (λ e. e ≡ DebugError.OutOfMemory) }
        ensures stays { IfErr result (λ e. Stays self.old e self.new) }
    {
        self.album.restore(0)?;
        self.lost = true;
        let recalled = recall(&mut self.album, &self.course, cpu, Kind::Ends)?;
        let text = last_lines(alloc, self.album.machine(), cpu, recalled)?;
        self.lost = false;
        Ok(text)
    }

    pub(super) fn last(&mut self, alloc: Global, number: Option<u8>) -> Result<String, DebugError>
        ensures answered { IfOk result
            (λ text. Leaves self.old (Plain (Last number)) (string_bytes text) self.new) }
        ensures refused { IfErr result (λ e. RefusesHere self.old (Plain (Last number)) e) }
        ensures stays { IfErr result (λ e. Stays self.old e self.new) }
    {
        let Some(cpu) = self.cpu(number) else {
            return Err(DebugError::NoCpu);
        };
        let Some(_) = self.course.runs() else {
            return Err(DebugError::OutOfMemory);
        };
        self.last_at(alloc, cpu)
    }

    /// What `show` answers of a CPU that has no job in hand.
    fn shows_nothing(&self, alloc: Global, cpu: u8) -> Result<String, DebugError>
        requires served { has_cpu self.now.machine.machine.store cpu ≡ true }
        requires free { IsFree self.now.machine.machine.jobs cpu }
        ensures answered { IfOk result (λ text.
            Leaves self.now (Plain (Show (Some cpu))) (string_bytes text) self.now) }
        ensures refused { IfErr result (λ e. e ≡ DebugError.OutOfMemory) }
    {
        let text = off_line(alloc, self.machine(), cpu)?;
        Ok(text)
    }

    /// Of these lines of registers those that the last turn of a CPU changed: all moves are made again.
    fn show_changed(&mut self, cpu: u8, shown: Shown) -> Result<String, DebugError>
        requires served { has_cpu self.old.machine.machine.store cpu ≡ true }
        requires room { HasRoom shown }
        requires empty { string_bytes shown.room ≡ [] }
        requires lines { TellsSeenLines self.old.names self.old.machine cpu shown }
        ensures answered { IfOk result
            (λ text. Leaves self.old (Plain (Show (Some cpu))) (string_bytes text) self.new) }
        ensures refused { IfErr result (λ e. e ≡ DebugError.OutOfMemory) }
        ensures stays { IfErr result (λ e. Stays self.old e self.new) }
    {
        self.album.restore(0)?;
        self.lost = true;
        let recalled = recall(&mut self.album, &self.course, cpu, Kind::Works)?;
        self.lost = false;
        Ok(changed(shown, &recalled))
    }

    /// What the last turn of a CPU changed of its registers.
    fn show_at(&mut self, alloc: Global, cpu: u8) -> Result<String, DebugError>
        requires { has_cpu self.old.machine.machine.store cpu ≡ true }
        ensures answered { IfOk result
            (λ text. Leaves self.old (Plain (Show (Some cpu))) (string_bytes text) self.new) }
        ensures refused { IfErr result (λ e. e ≡ DebugError.OutOfMemory) }
        ensures stays { IfErr result (λ e. Stays self.old e self.new) }
    {
        let machine = self.album.machine();
        match shown_lines(alloc, machine, &mut self.seen, cpu, &self.names)? {
            Some(shown) => self.show_changed(cpu, shown),
            None => self.shows_nothing(alloc, cpu),
        }
    }

    pub(super) fn show(&mut self, alloc: Global, number: Option<u8>) -> Result<String, DebugError>
        ensures answered { IfOk result
            (λ text. Leaves self.old (Plain (Show number)) (string_bytes text) self.new) }
        ensures refused { IfErr result (λ e. RefusesHere self.old (Plain (Show number)) e) }
        ensures stays { IfErr result (λ e. Stays self.old e self.new) }
    {
        let Some(cpu) = self.cpu(number) else {
            return Err(DebugError::NoCpu);
        };
        let Some(_) = self.course.runs() else {
            return Err(DebugError::OutOfMemory);
        };
        self.show_at(alloc, cpu)
    }
}
