//! A session: a machine with its breakpoints and its turns, and what commands do to it.

ghost use Rattle.std.specs.Prelude.{◌≡◌, ℕ, List, ◌<◌, ◌↔◌, IsTrue, true, false, IfOk, IfErr, OnErr, IfSome, IfNone, Some, None, List, [], map, length, string_bytes, string_len, string_capacity, ◌+◌, ◌*◌, ◌++◌, ◌≤◌};
ghost use Rattle.bpf_lines.specs.Lines.{fields_of};
ghost use Rattle.bpf_names.specs.Names.{names_of};
ghost use Rattle.bpf_plain.specs.PlainStore.{has_cpu};
ghost use Rattle.bpf_machine.specs.Machine.{Shows};
ghost use Rattle.bpf_machine.specs.Parts.{IsSameHost};
ghost use Rattle.bpf_machine.specs.Schedule.{World, TakesTurn, unrolled};
ghost use Rattle.bpf_debug.specs.Answer.{IsWhere, ended_text};
ghost use Rattle.bpf_debug.specs.Command.{Order, command_order, few_words, order_of, schedule_in};
ghost use Rattle.bpf_debug.specs.Origin.{IsOfShape};
ghost use Rattle.bpf_debug.specs.Session.{IsPc, are_cpus};

mod again;
mod questions;
mod watching;

use crate::breakpoint::{Breakpoint, has_break, remove_break};
use crate::command::{Command, command_of};
use crate::course::Course;
use crate::error::DebugError;
use crate::going::{self, Cpus, Watching};
use crate::lines::{LINE, put_break, put_deleted, put_ended, put_where};
use crate::origin::Origin;
use crate::schedule::{is_schedule, schedule_in};
use crate::turns::{take_runs, take_turns};
use crate::watch::{Watch, watched_values};
use bpf_lines::lines;
use bpf_loader::Program;
use bpf_machine::{Machine, Turn};
use bpf_names::Names;
use bpf_shared::StoreShape;
use std::alloc::{AllocError, Global};
use std::marker::Model;

/// A machine that commands run and look at.
#[derive(Drop)]
pub struct Session {
    machine: Machine,
    /// What the machine is made again of, as it was before the first turn.
    origin: Origin,
    /// The names of maps, arrays and variables.
    names: Names,
    breakpoints: Vec<Breakpoint>,
    /// What is watched.
    watch: Option<Watch>,
    /// The turns made so far.
    course: Course,
}

impl Model for Session {
    ghost use Rattle.std.specs.Prelude.{option_map};
    ghost use Rattle.bpf_names.specs.Names.{names_of};
    ghost use Rattle.bpf_debug.specs.Watch.{watched};
    ghost use Rattle.bpf_machine.specs.Schedule.{World};
    ghost use Rattle.bpf_machine.specs.Machine.{Shows};
    ghost use Rattle.bpf_debug.specs.Origin.{CanRewind, first_of};
    ghost use Rattle.bpf_debug.specs.Session.{SessionState};

    ghost Value = { SessionState };

    ghost view = { λ s. record {
      machine = s.machine;
      first = first_of s.origin s.machine.programs;
      names = names_of s.names;
      breaks = s.breakpoints.items;
      watch = option_map watched s.watch;
      course = s.course;
    } };

    ghost invariant = { λ s. (w : World) × Shows s.machine w × CanRewind s.origin s.machine };
}

/// Whether some program has an instruction that begins at a pc.
pub fn is_pc(programs: &[Program], pc: u32) -> bool
    ensures { IsTrue result ↔ IsPc programs.now pc }
{
    for program in programs {
        if program.is_start(pc) {
            return true;
        }
    }
    false
}

/// Whether each CPU of a schedule is one of this many.
fn are_cpus(runs: &[(u8, u64)], cpus: u8) -> bool
    ensures { result ≡ are_cpus cpus runs.now }
{
    runs.iter().all(|run| run.0 < cpus)
}

/// Room for this many lines and some more.
pub fn make_room(alloc: Global, lines: usize) -> Result<String, AllocError>
    ensures empty { IfOk result (λ s. string_bytes s ≡ []) }
    ensures size { IfOk result (λ s. string_len s ≡ 0) }
    ensures room { IfOk result (λ s. 128 * lines + 1024 ≤ string_capacity s) }
{
    let bytes = lines.checked_mul(LINE).ok_or(AllocError)?;
    let bytes = bytes.checked_add(1024).ok_or(AllocError)?;
    String::with_capacity(alloc, bytes)
}

/// The number after a CPU's.
fn next_cpu(machine: &Machine, cpu: u8) -> u8
    requires { has_cpu machine.now.store cpu ≡ true }
    ensures { result ≡ cpu + 1 }
{
    let cpus = machine.cpus();
    prove!(cpu < cpus);
    cpu + 1
}

/// One turn of a CPU, with the line of the job that it ends and that of where the CPU is then.
fn take_turn(machine: &mut Machine, cpu: u8, out: &mut String)
    requires { string_len out.old + 256 ≤ string_capacity out.old }
    ensures made { (answer : Turn) × (place : List ℕ)
        × ((w : World) → Shows machine.old w → (z : World) × TakesTurn w cpu answer z
        × Shows machine.new z)
        × IsWhere machine.new.jobs cpu place
        × (string_bytes out.new ≡ (string_bytes out.old ++ ended_text cpu answer) ++ place) }
    ensures same { IsSameHost machine.old machine.new }
{
    let turn = machine.turn(cpu);
    put_ended(out, cpu, turn);
    put_where(out, machine, cpu);
}

impl Session {
    ghost use Rattle.bpf_machine.specs.Schedule.{World};
    ghost use Rattle.bpf_machine.specs.Machine.{Shows};
    ghost use Rattle.bpf_debug.specs.Session.{IsNoCpu, Leaves, LeavesLine, RefusesHere, RefusesLine};

    /// A session without breakpoints, with these names of maps and arrays, over a machine whose
    /// store has this shape. What it takes to make the machine again is kept: out of memory for
    /// that is the only refusal.
    pub fn new(
        alloc: Global,
        shape: StoreShape,
        machine: Machine,
        names: Names,
    ) -> Result<Session, AllocError>
        requires shown { (w : World) × Shows machine w }
        requires shape { IsOfShape shape machine.store }
        requires lists { machine.lists ≡ None }
        ensures machine { IfOk result (λ s. s.machine ≡ machine) }
        ensures first { IfOk result (λ s. s.first ≡ machine) }
        ensures names { IfOk result (λ s. s.names ≡ names_of names) }
        ensures breaks { IfOk result (λ s. s.breaks ≡ []) }
        ensures watch { IfOk result (λ s. s.watch ≡ None) }
        ensures course { IfOk result (λ s. s.course ≡ Some []) }
    {
        let origin = Origin::new(alloc, shape, &machine)?;
        Ok(Session {
            machine,
            origin,
            names,
            breakpoints: Vec::new(alloc),
            watch: None,
            course: Course::new(alloc),
        })
    }

    /// The machine.
    pub fn machine(&self) -> &Machine
        ensures { result.now ≡ self.now.machine }
    {
        &self.machine
    }

    /// The CPU of a number, if there is one.
    fn cpu(&self, number: Option<u8>) -> Option<u8>
        ensures some { IfSome result (λ c. (number ≡ Some c)
            × (has_cpu self.now.machine.store c ≡ true)) }
        ensures none { IfNone result (IsNoCpu (length self.now.machine.store.maps.runs) number) }
    {
        match number {
            Some(cpu) => {
                if cpu < self.machine.cpus() {
                    Some(cpu)
                } else {
                    None
                }
            }
            None => None,
        }
    }

    fn step_at(&mut self, alloc: Global, cpu: u8) -> Result<String, DebugError>
        requires { has_cpu self.old.machine.store cpu ≡ true }
        ensures answered { IfOk result
            (λ text. Leaves self.old (Order.Step (Some cpu)) (string_bytes text) self.new) }
        ensures refused { IfErr result (λ e. e ≡ DebugError.OutOfMemory) }
        ensures unchanged { OnErr result (self.new ≡ self.old) }
    {
        let mut out = make_room(alloc, 2)?;
        self.course.reserve(1)?;
        take_turn(&mut self.machine, cpu, &mut out);
        self.course.add(cpu);
        Ok(out)
    }

    fn step(&mut self, alloc: Global, number: Option<u8>) -> Result<String, DebugError>
        ensures answered { IfOk result
            (λ text. Leaves self.old (Order.Step number) (string_bytes text) self.new) }
        ensures refused { IfErr result (λ e. RefusesHere self.old (Order.Step number) e) }
        ensures unchanged { OnErr result (self.new ≡ self.old) }
    {
        let Some(cpu) = self.cpu(number) else {
            return Err(DebugError::NoCpu);
        };
        self.step_at(alloc, cpu)
    }

    fn step_times_at(&mut self, alloc: Global, cpu: u8, count: u64) -> Result<String, DebugError>
        requires { has_cpu self.old.machine.store cpu ≡ true }
        ensures answered { IfOk result (λ text.
            Leaves self.old (Order.StepTimes (Some cpu) count) (string_bytes text) self.new) }
        ensures refused { IfErr result (λ e. e ≡ DebugError.OutOfMemory) }
        ensures unchanged { OnErr result (self.new ≡ self.old) }
    {
        let mut out = make_room(alloc, self.machine.jobs())?;
        self.course.reserve(2)?;
        take_turns(&mut self.machine, cpu, count, &mut out);
        self.course.add_times(cpu, count);
        Ok(out)
    }

    fn step_times(
        &mut self,
        alloc: Global,
        number: Option<u8>,
        count: u64,
    ) -> Result<String, DebugError>
        ensures answered { IfOk result (λ text.
            Leaves self.old (Order.StepTimes number count) (string_bytes text) self.new) }
        ensures refused { IfErr result
            (λ e. RefusesHere self.old (Order.StepTimes number count) e) }
        ensures unchanged { OnErr result (self.new ≡ self.old) }
    {
        let Some(cpu) = self.cpu(number) else {
            return Err(DebugError::NoCpu);
        };
        self.step_times_at(alloc, cpu, count)
    }

    /// Whether each CPU of a schedule is one of the machine's.
    fn has_cpus(&self, runs: &[(u8, u64)]) -> bool
        ensures { result ≡ are_cpus (length self.now.machine.store.maps.runs) runs.now }
    {
        are_cpus(runs, self.machine.cpus())
    }

    fn steps_at(&mut self, alloc: Global, runs: &[(u8, u64)]) -> Result<String, DebugError>
        requires some { 0 < length runs.now }
        requires served { are_cpus (length self.old.machine.store.maps.runs) runs.now ≡ true }
        ensures answered { IfOk result
            (λ text. Leaves self.old (Order.Steps runs.now) (string_bytes text) self.new) }
        ensures refused { IfErr result (λ e. e ≡ DebugError.OutOfMemory) }
        ensures unchanged { OnErr result (self.new ≡ self.old) }
    {
        let mut out = make_room(alloc, self.machine.jobs())?;
        self.course.reserve(runs.len().saturating_mul(2))?;
        take_runs(&mut self.machine, runs, &mut out);
        self.course.add_runs(runs);
        Ok(out)
    }

    fn steps(&mut self, alloc: Global, runs: &[(u8, u64)]) -> Result<String, DebugError>
        requires { 0 < length runs.now }
        ensures answered { IfOk result
            (λ text. Leaves self.old (Order.Steps runs.now) (string_bytes text) self.new) }
        ensures refused { IfErr result (λ e. RefusesHere self.old (Order.Steps runs.now) e) }
        ensures unchanged { OnErr result (self.new ≡ self.old) }
    {
        if self.has_cpus(runs) {
            self.steps_at(alloc, runs)
        } else {
            Err(DebugError::NoCpu)
        }
    }

    fn go(&mut self, alloc: Global) -> Result<String, DebugError>
        ensures answered { IfOk result
            (λ text. Leaves self.old Order.Go (string_bytes text) self.new) }
        ensures refused { IfErr result (λ e. RefusesHere self.old Order.Go e) }
        ensures unchanged { OnErr result (self.new ≡ self.old) }
    {
        let mut out = make_room(alloc, self.machine.jobs())?;
        self.course.reserve(usize::MAX)?;
        let before = watched_values(alloc, self.machine.store(), &self.watch)?;
        let cpus = self.machine.cpus();
        going::go(
            &mut self.machine,
            &self.breakpoints,
            Watching {
                watch: &self.watch,
                before: &before,
            },
            Cpus { low: 0, high: cpus },
            &mut self.course,
            &mut out,
        );
        Ok(out)
    }

    /// Turns of one CPU, up to a pc of some program.
    fn go_to_pc(&mut self, alloc: Global, cpu: u8, pc: u32) -> Result<String, DebugError>
        requires served { has_cpu self.old.machine.store cpu ≡ true }
        requires begins { IsPc self.old.machine.programs pc }
        ensures answered { IfOk result (λ text.
            Leaves self.old (Order.GoTo (Some cpu) (Some pc)) (string_bytes text) self.new) }
        ensures refused { IfErr result (λ e. e ≡ DebugError.OutOfMemory) }
        ensures unchanged { OnErr result (self.new ≡ self.old) }
    {
        let mut out = make_room(alloc, self.machine.jobs())?;
        self.course.reserve(usize::MAX)?;
        let before = watched_values(alloc, self.machine.store(), &self.watch)?;
        let place = [Breakpoint { cpu, pc }];
        let next = next_cpu(&self.machine, cpu);
        going::go(
            &mut self.machine,
            &place,
            Watching {
                watch: &self.watch,
                before: &before,
            },
            Cpus {
                low: cpu,
                high: next,
            },
            &mut self.course,
            &mut out,
        );
        Ok(out)
    }

    fn go_to_at(&mut self, alloc: Global, cpu: u8, pc: Option<u32>) -> Result<String, DebugError>
        requires { has_cpu self.old.machine.store cpu ≡ true }
        ensures answered { IfOk result (λ text.
            Leaves self.old (Order.GoTo (Some cpu) pc) (string_bytes text) self.new) }
        ensures refused { IfErr result
            (λ e. RefusesHere self.old (Order.GoTo (Some cpu) pc) e) }
        ensures unchanged { OnErr result (self.new ≡ self.old) }
    {
        let Some(at) = pc else {
            return Err(DebugError::NoPc);
        };
        if !is_pc(self.machine.programs(), at) {
            return Err(DebugError::NoPc);
        }
        self.go_to_pc(alloc, cpu, at)
    }

    fn go_to(
        &mut self,
        alloc: Global,
        number: Option<u8>,
        pc: Option<u32>,
    ) -> Result<String, DebugError>
        ensures answered { IfOk result (λ text.
            Leaves self.old (Order.GoTo number pc) (string_bytes text) self.new) }
        ensures refused { IfErr result (λ e. RefusesHere self.old (Order.GoTo number pc) e) }
        ensures unchanged { OnErr result (self.new ≡ self.old) }
    {
        let Some(cpu) = self.cpu(number) else {
            return Err(DebugError::NoCpu);
        };
        self.go_to_at(alloc, cpu, pc)
    }

    /// A breakpoint of a CPU, at a pc of some program.
    fn set_break(&mut self, alloc: Global, cpu: u8, pc: u32) -> Result<String, DebugError>
        requires served { has_cpu self.old.machine.store cpu ≡ true }
        requires begins { IsPc self.old.machine.programs pc }
        ensures answered { IfOk result (λ text.
            Leaves self.old (Order.Break (Some cpu) (Some pc)) (string_bytes text) self.new) }
        ensures refused { IfErr result (λ e. e ≡ DebugError.OutOfMemory) }
        ensures unchanged { OnErr result (self.new ≡ self.old) }
    {
        let mut out = make_room(alloc, 1)?;
        put_break(&mut out, cpu, pc);
        if has_break(&self.breakpoints, cpu, pc) {
            return Ok(out);
        }
        self.breakpoints.push(Breakpoint { cpu, pc })?;
        Ok(out)
    }

    fn break_at(&mut self, alloc: Global, cpu: u8, pc: Option<u32>) -> Result<String, DebugError>
        requires { has_cpu self.old.machine.store cpu ≡ true }
        ensures answered { IfOk result (λ text.
            Leaves self.old (Order.Break (Some cpu) pc) (string_bytes text) self.new) }
        ensures refused { IfErr result
            (λ e. RefusesHere self.old (Order.Break (Some cpu) pc) e) }
        ensures unchanged { OnErr result (self.new ≡ self.old) }
    {
        let Some(at) = pc else {
            return Err(DebugError::NoPc);
        };
        if !is_pc(self.machine.programs(), at) {
            return Err(DebugError::NoPc);
        }
        self.set_break(alloc, cpu, at)
    }

    fn break_cpu(
        &mut self,
        alloc: Global,
        number: Option<u8>,
        pc: Option<u32>,
    ) -> Result<String, DebugError>
        ensures answered { IfOk result (λ text.
            Leaves self.old (Order.Break number pc) (string_bytes text) self.new) }
        ensures refused { IfErr result (λ e. RefusesHere self.old (Order.Break number pc) e) }
        ensures unchanged { OnErr result (self.new ≡ self.old) }
    {
        let Some(cpu) = self.cpu(number) else {
            return Err(DebugError::NoCpu);
        };
        self.break_at(alloc, cpu, pc)
    }

    /// No breakpoint of a CPU, at a pc of some program.
    fn delete_break(&mut self, alloc: Global, cpu: u8, pc: u32) -> Result<String, DebugError>
        requires served { has_cpu self.old.machine.store cpu ≡ true }
        requires begins { IsPc self.old.machine.programs pc }
        ensures answered { IfOk result (λ text.
            Leaves self.old (Order.Delete (Some cpu) (Some pc)) (string_bytes text) self.new) }
        ensures refused { IfErr result (λ e. e ≡ DebugError.OutOfMemory) }
        ensures unchanged { OnErr result (self.new ≡ self.old) }
    {
        let mut out = make_room(alloc, 1)?;
        put_deleted(&mut out, cpu, pc);
        remove_break(&mut self.breakpoints, cpu, pc);
        Ok(out)
    }

    fn delete_at(&mut self, alloc: Global, cpu: u8, pc: Option<u32>) -> Result<String, DebugError>
        requires { has_cpu self.old.machine.store cpu ≡ true }
        ensures answered { IfOk result (λ text.
            Leaves self.old (Order.Delete (Some cpu) pc) (string_bytes text) self.new) }
        ensures refused { IfErr result
            (λ e. RefusesHere self.old (Order.Delete (Some cpu) pc) e) }
        ensures unchanged { OnErr result (self.new ≡ self.old) }
    {
        let Some(at) = pc else {
            return Err(DebugError::NoPc);
        };
        if !is_pc(self.machine.programs(), at) {
            return Err(DebugError::NoPc);
        }
        self.delete_break(alloc, cpu, at)
    }

    fn delete(
        &mut self,
        alloc: Global,
        number: Option<u8>,
        pc: Option<u32>,
    ) -> Result<String, DebugError>
        ensures answered { IfOk result (λ text.
            Leaves self.old (Order.Delete number pc) (string_bytes text) self.new) }
        ensures refused { IfErr result (λ e. RefusesHere self.old (Order.Delete number pc) e) }
        ensures unchanged { OnErr result (self.new ≡ self.old) }
    {
        let Some(cpu) = self.cpu(number) else {
            return Err(DebugError::NoCpu);
        };
        self.delete_at(alloc, cpu, pc)
    }

    fn follow<'a>(&mut self, alloc: Global, command: Command<'a>) -> Result<String, DebugError>
        ensures answered { IfOk result
            (λ text. Leaves self.old (command_order command.entry) (string_bytes text) self.new) }
        ensures refused { IfErr result (λ e. RefusesHere self.old (command_order command.entry) e) }
        ensures unchanged { OnErr result (self.new ≡ self.old) }
    {
        match command {
            Command::Break(cpu, pc) => self.break_cpu(alloc, cpu, pc),
            Command::Delete(cpu, pc) => self.delete(alloc, cpu, pc),
            Command::Step(cpu) => self.step(alloc, cpu),
            Command::StepTimes(cpu, count) => self.step_times(alloc, cpu, count),
            Command::Go => self.go(alloc),
            Command::Registers(cpu) => self.registers(alloc, cpu),
            Command::Where(cpu) => self.standing(alloc, cpu),
            Command::Memory(cpu, address, count) => self.memory(alloc, cpu, address, count),
            Command::Map(name) => self.map(alloc, name),
            Command::Keys(name) => self.keys(alloc, name),
            Command::Schedule => self.schedule(alloc),
            Command::GoTo(cpu, pc) => self.go_to(alloc, cpu, pc),
            Command::Maps => self.maps(alloc),
            Command::Variables => self.variables(alloc),
            Command::Number(name) => self.number(alloc, name),
            Command::Jobs => self.jobs(alloc),
            Command::Mark(number) => self.mark(alloc, number),
            Command::Back(count) => self.back(alloc, count),
            Command::Help => self.help(alloc),
            Command::Held(cpu) => self.held(alloc, cpu),
            Command::Nearby(cpu) => self.nearby(alloc, cpu),
            Command::Last(cpu) => self.last(alloc, cpu),
            Command::Show(cpu) => self.show(alloc, cpu),
            Command::Watch(name, word) => self.watch(alloc, name, word),
            Command::WatchVariable(name) => self.watch_variable(alloc, name),
            Command::Unwatch => self.unwatch(alloc),
        }
    }

    /// Does what few fields say.
    fn obey_few(&mut self, alloc: Global, fields: &[&[u8]]) -> Result<String, DebugError>
        requires some { map (λ f. f.now) fields.now ≡ [] → ⊥ }
        requires few { order_of (map (λ f. f.now) fields.now)
            ≡ few_words (map (λ f. f.now) fields.now) }
        ensures answered { IfOk result (λ text.
            LeavesLine self.old (map (λ f. f.now) fields.now) (string_bytes text) self.new) }
        ensures refused { IfErr result (λ e. RefusesLine self.old (map (λ f. f.now) fields.now) e) }
        ensures unchanged { OnErr result (self.new ≡ self.old) }
    {
        match command_of(fields) {
            Some(command) => self.follow(alloc, command),
            None => Err(DebugError::BadCommand),
        }
    }

    /// Makes the turns that the words after `steps` spell.
    fn obey_schedule(
        &mut self,
        alloc: Global,
        fields: &[&[u8]],
        words: &[&[u8]],
    ) -> Result<String, DebugError>
        requires some { map (λ f. f.now) fields.now ≡ [] → ⊥ }
        requires said { order_of (map (λ f. f.now) fields.now)
            ≡ schedule_in (map (λ f. f.now) words.now) }
        ensures answered { IfOk result (λ text.
            LeavesLine self.old (map (λ f. f.now) fields.now) (string_bytes text) self.new) }
        ensures refused { IfErr result (λ e. RefusesLine self.old (map (λ f. f.now) fields.now) e) }
        ensures unchanged { OnErr result (self.new ≡ self.old) }
    {
        let Some(runs) = schedule_in(alloc, words)? else {
            return Err(DebugError::BadCommand);
        };
        self.steps(alloc, &runs)
    }

    fn obey(&mut self, alloc: Global, fields: &[&[u8]]) -> Result<String, DebugError>
        ensures answered { IfOk result (λ text.
            LeavesLine self.old (map (λ f. f.now) fields.now) (string_bytes text) self.new) }
        ensures refused { IfErr result (λ e. RefusesLine self.old (map (λ f. f.now) fields.now) e) }
        ensures unchanged { OnErr result (self.new ≡ self.old) }
    {
        match fields {
            [] => Ok(String::new(alloc)),
            [word, words @ ..] => {
                if is_schedule(word, words) {
                    self.obey_schedule(alloc, fields, words)
                } else {
                    self.obey_few(alloc, fields)
                }
            }
        }
    }

    /// Does what a line says, and answers its lines. After a refusal the session is as it was.
    pub fn command(&mut self, alloc: Global, line: &str) -> Result<String, DebugError>
        ensures answered { IfOk result (λ text.
            LeavesLine self.old (fields_of line.now) (string_bytes text) self.new) }
        ensures refused { IfErr result (λ e. RefusesLine self.old (fields_of line.now) e) }
        ensures unchanged { OnErr result (self.new ≡ self.old) }
    {
        self.command_bytes(alloc, line.as_bytes())
    }

    /// Does what a line of these bytes says, and answers its lines.
    pub fn command_bytes(&mut self, alloc: Global, line: &[u8]) -> Result<String, DebugError>
        ensures answered { IfOk result (λ text.
            LeavesLine self.old (fields_of line.now) (string_bytes text) self.new) }
        ensures refused { IfErr result (λ e. RefusesLine self.old (fields_of line.now) e) }
        ensures unchanged { OnErr result (self.new ≡ self.old) }
    {
        let fields = lines::fields(alloc, line)?;
        self.obey(alloc, &fields)
    }
}
