//! A session: a machine whose CPUs have store buffers, with its breakpoints and its moves, and what
//! commands do to it.

ghost use Rattle.std.specs.Prelude.{◌≡◌, ◌<◌, ◌∷◌, [], ℕ, Err, IfErr, IfOk, List, Some, false, length, map, string_bytes, true};
ghost use Rattle.bpf_cpu.specs.Task.{outcome_at};
ghost use Rattle.bpf_jobs.specs.Printed.{any_stopped, is_stop};
ghost use Rattle.bpf_lines.specs.Lines.{fields_of};
ghost use Rattle.bpf_names.specs.Names.{names_of};
ghost use Rattle.bpf_plain.specs.PlainStore.{has_cpu};
ghost use Rattle.bpf_plain.specs.Alike.{IsSameShape};
ghost use Rattle.bpf_machine.specs.Parts.{IsSameHost};
ghost use Rattle.bpf_flushes.specs.Moves.{MakesTo};
ghost use Rattle.bpf_debug.specs.Answer.{IsWhere};
ghost use Rattle.bpf_debug.specs.Command.{Back, Go, GoTo, Step, StepTimes, Steps, command_order};
ghost use Rattle.bpf_buffer_debug.specs.Command.{Flush, Plain, few_words, order_of, schedule_in};
ghost use Rattle.bpf_buffer_debug.specs.Moves.{all_moves};
ghost use Rattle.bpf_buffer_debug.specs.Session.{are_cpus};

mod again;
mod breaks;
mod questions;
mod watching;

use crate::command::{Asked, asked_in};
use crate::going::{self, Cpus};
use crate::lines::where_line;
use crate::moves::{cpu_of, make_runs, take_runs};
use crate::schedule::schedule_in;
use crate::waiting::flush_line;
use bpf_alike::Merged;
use bpf_buffering::{Album, Buffering};
use bpf_debug::breakpoint::Breakpoint;
use bpf_debug::command::is;
use bpf_debug::course::{Course, has_turns};
use bpf_debug::going::Watching;
use bpf_debug::session::is_pc;
use bpf_debug::watch::{Watch, watched_values};
use bpf_debug::{Command, DebugError};
use bpf_jobs::is_stop;
use bpf_lines::lines;
use bpf_names::Names;
use bpf_plain::PlainStore;
use bpf_schedule::FLUSH;
use std::alloc::{AllocError, Global};
use std::marker::Model;

/// A machine that commands run and look at.
#[derive(Drop)]
pub struct Session {
    /// The machine, and as the first kept state the machine before the first move.
    album: Album,
    /// A store to make what a CPU sees in.
    seen: PlainStore,
    /// The names of maps, arrays and variables.
    names: Names,
    breakpoints: Vec<Breakpoint>,
    /// What is watched.
    watch: Option<Watch>,
    /// The moves made so far.
    course: Course,
    /// Whether memory ran out in the middle of a move: the machine is of no more use then.
    lost: bool,
}

impl Model for Session {
    ghost use Rattle.std.specs.Prelude.{option_map};
    ghost use Rattle.bpf_names.specs.Names.{names_of};
    ghost use Rattle.bpf_debug.specs.Watch.{watched};
    ghost use Rattle.bpf_buffer_debug.specs.Session.{SessionState};
    ghost use Rattle.bpf_buffer_debug.specs.Private.Kept.{CanRewind, first_of};

    ghost Value = { SessionState };

    ghost view = { λ s. record {
      machine = s.album.machine;
      first = first_of s.album;
      names = names_of s.names;
      breaks = s.breakpoints.items;
      watch = option_map watched s.watch;
      course = s.course;
      lost = s.lost;
    } };

    ghost invariant = { λ s. CanRewind s.album s.seen };
}

/// Whether some job of a machine has ended in a fault or out of budget.
pub fn has_any_stopped(machine: &Buffering) -> bool
    ensures { result
        ≡ any_stopped (length machine.now.machine.jobs) machine.now.machine.jobs }
{
    let mut stopped = false;
    for job in 0..machine.jobs() {
        stopped = stopped || has_stopped(machine, job);
    }
    stopped
}

/// Whether a job has ended in a fault or out of budget.
fn has_stopped(machine: &Buffering, job: usize) -> bool
    ensures { result ≡ is_stop (outcome_at machine.now.machine.jobs job) }
{
    match machine.outcome(job) {
        Some(outcome) => is_stop(outcome),
        None => false,
    }
}

/// Whether each move of a schedule is of one of this many CPUs.
fn are_cpus(runs: &[(u8, u64)], cpus: u8) -> bool
    ensures { result ≡ are_cpus cpus runs.now }
{
    runs.iter().all(|run| cpu_of(run.0) < cpus)
}

/// What a line is answered once memory ran out in the middle of a move.
fn lost_answer(alloc: Global, line: &[u8]) -> Result<String, DebugError>
    ensures nothing { IfOk result
        (λ text. (fields_of line.now ≡ []) × (string_bytes text ≡ [])) }
    ensures refused { IfErr result
        (λ e. (line.now ≡ [] → ⊥) × (e ≡ DebugError.OutOfMemory)) }
{
    if line.is_empty() {
        return Ok(String::new(alloc));
    }
    let fields = lines::fields(alloc, line)?;
    if fields.is_empty() {
        Ok(String::new(alloc))
    } else {
        Err(DebugError::OutOfMemory)
    }
}

/// Makes the moves that are kept, and says where a CPU is then.
fn repeat(alloc: Global, album: &mut Album, course: &Course, cpu: u8) -> Result<String, AllocError>
    ensures made { IfOk result (λ text. (runs : List (ℕ × ℕ)) × (course.now ≡ Some runs)
        × MakesTo album.old.machine (all_moves runs) album.new.machine
        × IsWhere album.new.machine.machine.jobs cpu (string_bytes text)) }
    ensures host { IsSameHost album.old.machine.machine album.new.machine.machine }
    ensures kept { album.new.kept ≡ album.old.kept }
{
    let Some(runs) = course.runs() else {
        return Err(AllocError);
    };
    let mut out = String::new(alloc);
    make_runs(alloc, album, runs, &mut out)?;
    where_line(alloc, album.machine(), cpu)
}

impl Session {
    ghost use Rattle.std.specs.Prelude.{◌≡◌, ◌<◌, ◌≤◌, ◌∷◌, [], ℕ, Err, List, IfErr, IfNone, IfOk, IfSome, None, OnErr, Some, false, length, map, string_bytes, true};
    ghost use Rattle.bpf_machine.specs.Schedule.{unrolled};
    ghost use Rattle.bpf_debug.specs.Session.{IsNoCpu, IsPc};
    ghost use Rattle.bpf_buffer_debug.specs.Session.{Leaves, LeavesLine, RefusesHere, RefusesLine, Stays};

    /// A session without breakpoints, with these names of maps and arrays, over a machine. The second
    /// store has the shape of the machine's. What it takes to make the machine again is kept: out of
    /// memory for that is the only refusal.
    pub fn new(
        alloc: Global,
        seen: PlainStore,
        machine: Buffering,
        names: Names,
    ) -> Result<Session, AllocError>
        requires { IsSameShape machine.machine.store seen }
        ensures machine { IfOk result (λ s. s.machine ≡ machine) }
        ensures first { IfOk result (λ s. s.first ≡ machine) }
        ensures names { IfOk result (λ s. s.names ≡ names_of names) }
        ensures breaks { IfOk result (λ s. s.breaks ≡ []) }
        ensures watch { IfOk result (λ s. s.watch ≡ None) }
        ensures course { IfOk result (λ s. s.course ≡ Some []) }
        ensures kept { IfOk result (λ s. s.lost ≡ false) }
    {
        let album = Album::new(alloc, machine, Merged::Same)?;
        Ok(Session {
            album,
            seen,
            names,
            breakpoints: Vec::new(alloc),
            watch: None,
            course: Course::new(alloc),
            lost: false,
        })
    }

    /// The machine.
    pub fn machine(&self) -> &Buffering
        ensures { result.now ≡ self.now.machine }
    {
        self.album.machine()
    }

    /// The CPU of a number, if there is one.
    fn cpu(&self, number: Option<u8>) -> Option<u8>
        ensures some { IfSome result (λ c. (number ≡ Some c)
            × (has_cpu self.now.machine.machine.store c ≡ true)) }
        ensures few { IfSome result (λ c. c < 16) }
        ensures none { IfNone result
            (IsNoCpu (length self.now.machine.machine.store.maps.runs) number) }
    {
        match number {
            Some(cpu) => {
                if cpu < self.machine().cpus() {
                    Some(cpu)
                } else {
                    None
                }
            }
            None => None,
        }
    }

    /// Makes the moves of a schedule, whose CPUs there are.
    fn steps_at(&mut self, alloc: Global, runs: &[(u8, u64)]) -> Result<String, DebugError>
        requires some { 0 < length runs.now }
        requires served { are_cpus (length self.old.machine.machine.store.maps.runs) runs.now ≡ true }
        ensures answered { IfOk result
            (λ text. Leaves self.old (Plain (Steps runs.now)) (string_bytes text) self.new) }
        ensures refused { IfErr result (λ e. e ≡ DebugError.OutOfMemory) }
        ensures stays { IfErr result (λ e. Stays self.old e self.new) }
    {
        self.course.reserve(runs.len().saturating_mul(2))?;
        self.lost = true;
        let text = take_runs(alloc, &mut self.album, runs)?;
        self.course.add_runs(runs);
        self.lost = false;
        Ok(text)
    }

    fn steps(&mut self, alloc: Global, runs: &[(u8, u64)]) -> Result<String, DebugError>
        requires { 0 < length runs.now }
        ensures answered { IfOk result
            (λ text. Leaves self.old (Plain (Steps runs.now)) (string_bytes text) self.new) }
        ensures refused { IfErr result (λ e. RefusesHere self.old (Plain (Steps runs.now)) e) }
        ensures stays { IfErr result (λ e. Stays self.old e self.new) }
    {
        if are_cpus(runs, self.machine().cpus()) {
            self.steps_at(alloc, runs)
        } else {
            Err(DebugError::NoCpu)
        }
    }

    /// This many turns of a CPU, which there is.
    fn turns_at(&mut self, alloc: Global, cpu: u8, count: u64) -> Result<String, DebugError>
        requires served { has_cpu self.old.machine.machine.store cpu ≡ true }
        requires few { cpu < 16 }
        ensures answered { IfOk result (λ text.
            Leaves self.old (Plain (Steps ((cpu, count) ∷ []))) (string_bytes text) self.new) }
        ensures refused { IfErr result (λ e. e ≡ DebugError.OutOfMemory) }
        ensures stays { IfErr result (λ e. Stays self.old e self.new) }
    {
        self.steps_at(alloc, &[(cpu, count)])
    }

    /// One turn of a CPU.
    fn step(&mut self, alloc: Global, number: Option<u8>) -> Result<String, DebugError>
        ensures answered { IfOk result
            (λ text. Leaves self.old (Plain (Step number)) (string_bytes text) self.new) }
        ensures refused { IfErr result (λ e. RefusesHere self.old (Plain (Step number)) e) }
        ensures stays { IfErr result (λ e. Stays self.old e self.new) }
    {
        let Some(cpu) = self.cpu(number) else {
            return Err(DebugError::NoCpu);
        };
        self.turns_at(alloc, cpu, 1)
    }

    /// This many turns of a CPU.
    fn step_times(
        &mut self,
        alloc: Global,
        number: Option<u8>,
        count: u64,
    ) -> Result<String, DebugError>
        ensures answered { IfOk result (λ text.
            Leaves self.old (Plain (StepTimes number count)) (string_bytes text) self.new) }
        ensures refused { IfErr result
            (λ e. RefusesHere self.old (Plain (StepTimes number count)) e) }
        ensures stays { IfErr result (λ e. Stays self.old e self.new) }
    {
        let Some(cpu) = self.cpu(number) else {
            return Err(DebugError::NoCpu);
        };
        self.turns_at(alloc, cpu, count)
    }

    fn flush_at(&mut self, alloc: Global, cpu: u8) -> Result<String, DebugError>
        requires served { has_cpu self.old.machine.machine.store cpu ≡ true }
        requires few { cpu < 16 }
        ensures answered { IfOk result
            (λ text. Leaves self.old (Flush (Some cpu)) (string_bytes text) self.new) }
        ensures refused { IfErr result (λ e. e ≡ DebugError.OutOfMemory) }
        ensures unchanged { OnErr result (self.new ≡ self.old) }
    {
        let text = flush_line(alloc, self.album.machine(), &self.names.maps, cpu)?;
        self.course.reserve(1)?;
        self.album.flush_alone(cpu);
        self.course.add(FLUSH + cpu);
        Ok(text)
    }

    /// A flush of a CPU's buffer.
    fn flush(&mut self, alloc: Global, number: Option<u8>) -> Result<String, DebugError>
        ensures answered { IfOk result
            (λ text. Leaves self.old (Flush number) (string_bytes text) self.new) }
        ensures refused { IfErr result (λ e. RefusesHere self.old (Flush number) e) }
        ensures unchanged { OnErr result (self.new ≡ self.old) }
    {
        let Some(cpu) = self.cpu(number) else {
            return Err(DebugError::NoCpu);
        };
        self.flush_at(alloc, cpu)
    }

    fn go(&mut self, alloc: Global) -> Result<String, DebugError>
        ensures answered { IfOk result
            (λ text. Leaves self.old (Plain Go) (string_bytes text) self.new) }
        ensures refused { IfErr result (λ e. RefusesHere self.old (Plain Go) e) }
        ensures stays { IfErr result (λ e. Stays self.old e self.new) }
    {
        let high = self.machine().cpus();
        let cpus = Cpus {
            low: 0,
            high,
            flushes: true,
        };
        self.course.reserve(usize::MAX)?;
        let before = watched_values(alloc, self.album.machine().store(), &self.watch)?;
        self.lost = true;
        let text = going::go(
            alloc,
            &mut self.album,
            &self.breakpoints,
            Watching {
                watch: &self.watch,
                before: &before,
            },
            cpus,
            &mut self.course,
        )?;
        self.lost = false;
        Ok(text)
    }

    /// Turns of one CPU, up to a pc of some program.
    fn go_to_pc(&mut self, alloc: Global, cpu: u8, pc: u32) -> Result<String, DebugError>
        requires served { has_cpu self.old.machine.machine.store cpu ≡ true }
        requires few { cpu < 16 }
        requires begins { IsPc self.old.machine.machine.programs pc }
        ensures answered { IfOk result (λ text.
            Leaves self.old (Plain (GoTo (Some cpu) (Some pc))) (string_bytes text) self.new) }
        ensures refused { IfErr result (λ e. e ≡ DebugError.OutOfMemory) }
        ensures stays { IfErr result (λ e. Stays self.old e self.new) }
    {
        let place = [Breakpoint { cpu, pc }];
        let cpus = Cpus {
            low: cpu,
            high: cpu + 1,
            flushes: false,
        };
        self.course.reserve(usize::MAX)?;
        let before = watched_values(alloc, self.album.machine().store(), &self.watch)?;
        self.lost = true;
        let text = going::go(
            alloc,
            &mut self.album,
            &place,
            Watching {
                watch: &self.watch,
                before: &before,
            },
            cpus,
            &mut self.course,
        )?;
        self.lost = false;
        Ok(text)
    }

    fn go_to_at(&mut self, alloc: Global, cpu: u8, pc: Option<u32>) -> Result<String, DebugError>
        requires served { has_cpu self.old.machine.machine.store cpu ≡ true }
        requires few { cpu < 16 }
        ensures answered { IfOk result (λ text.
            Leaves self.old (Plain (GoTo (Some cpu) pc)) (string_bytes text) self.new) }
        ensures refused { IfErr result
            (λ e. RefusesHere self.old (Plain (GoTo (Some cpu) pc)) e) }
        ensures stays { IfErr result (λ e. Stays self.old e self.new) }
    {
        let Some(at) = pc else {
            return Err(DebugError::NoPc);
        };
        if !is_pc(self.machine().programs(), at) {
            return Err(DebugError::NoPc);
        }
        self.go_to_pc(alloc, cpu, at)
    }

    fn go_to(
        &mut self,
        alloc: Global,
        number: Option<u8>,
        pc: Option<u32>,
    ) -> Result<String, DebugError>
        ensures answered { IfOk result (λ text.
            Leaves self.old (Plain (GoTo number pc)) (string_bytes text) self.new) }
        ensures refused { IfErr result (λ e. RefusesHere self.old (Plain (GoTo number pc)) e) }
        ensures stays { IfErr result (λ e. Stays self.old e self.new) }
    {
        let Some(cpu) = self.cpu(number) else {
            return Err(DebugError::NoCpu);
        };
        self.go_to_at(alloc, cpu, pc)
    }

    /// Undoes this many moves, which there are.
    fn back_by(&mut self, alloc: Global, count: u64) -> Result<String, DebugError>
        requires { (runs : List (ℕ × ℕ)) × (self.old.course ≡ Some runs)
            × (count ≤ length (unrolled runs)) }
        ensures answered { IfOk result
            (λ text. Leaves self.old (Plain (Back count)) (string_bytes text) self.new) }
        ensures refused { IfErr result (λ e. e ≡ DebugError.OutOfMemory) }
        ensures stays { IfErr result (λ e. Stays self.old e self.new) }
    {
        self.album.restore(0)?;
        self.lost = true;
        let made = self.course.take_back(count);
        let text = repeat(alloc, &mut self.album, &self.course, cpu_of(made))?;
        self.lost = false;
        Ok(text)
    }

    fn back(&mut self, alloc: Global, count: u64) -> Result<String, DebugError>
        ensures answered { IfOk result
            (λ text. Leaves self.old (Plain (Back count)) (string_bytes text) self.new) }
        ensures refused { IfErr result (λ e. RefusesHere self.old (Plain (Back count)) e) }
        ensures stays { IfErr result (λ e. Stays self.old e self.new) }
    {
        let Some(runs) = self.course.runs() else {
            return Err(DebugError::OutOfMemory);
        };
        if has_turns(runs, count) {
            self.back_by(alloc, count)
        } else {
            Err(DebugError::BadOperand)
        }
    }

    fn follow<'a>(&mut self, alloc: Global, command: Command<'a>) -> Result<String, DebugError>
        ensures answered { IfOk result (λ text.
            Leaves self.old (Plain (command_order command.entry)) (string_bytes text) self.new) }
        ensures refused { IfErr result
            (λ e. RefusesHere self.old (Plain (command_order command.entry)) e) }
        ensures stays { IfErr result (λ e. Stays self.old e self.new) }
    {
        match command {
            Command::Break(cpu, pc) => self.break_cpu(alloc, cpu, pc),
            Command::Delete(cpu, pc) => self.delete(alloc, cpu, pc),
            Command::Step(cpu) => self.step(alloc, cpu),
            Command::StepTimes(cpu, count) => self.step_times(alloc, cpu, count),
            Command::Go => self.go(alloc),
            Command::GoTo(cpu, pc) => self.go_to(alloc, cpu, pc),
            Command::Back(count) => self.back(alloc, count),
            Command::Registers(cpu) => self.registers(alloc, cpu),
            Command::Where(cpu) => self.standing(alloc, cpu),
            Command::Memory(cpu, address, count) => self.memory(alloc, cpu, address, count),
            Command::Map(name) => self.map(alloc, name),
            Command::Keys(name) => self.keys(alloc, name),
            Command::Schedule => self.schedule(alloc),
            Command::Maps => self.maps(alloc),
            Command::Variables => self.variables(alloc),
            Command::Number(name) => self.number(alloc, name),
            Command::Jobs => self.jobs(alloc),
            Command::Mark(number) => self.mark(alloc, number),
            Command::Help => self.help(alloc),
            Command::Held(cpu) => self.held(alloc, cpu),
            Command::Nearby(cpu) => self.nearby(alloc, cpu),
            Command::Last(cpu) => self.last(alloc, cpu),
            Command::Show(cpu) => self.show(alloc, cpu),
            Command::Watch(name, word) => self.watch(alloc, name, word),
            Command::WatchVariable(name) => self.watch_variable(alloc, name),
            Command::Unwatch => self.unwatch(alloc),
        }
    }

    /// Does what few fields say.
    fn obey_few(&mut self, alloc: Global, fields: &[&[u8]]) -> Result<String, DebugError>
        requires some { map (λ f. f.now) fields.now ≡ [] → ⊥ }
        requires few { order_of (map (λ f. f.now) fields.now)
            ≡ few_words (map (λ f. f.now) fields.now) }
        ensures answered { IfOk result (λ text.
            LeavesLine self.old (map (λ f. f.now) fields.now) (string_bytes text) self.new) }
        ensures refused { IfErr result (λ e. RefusesLine self.old (map (λ f. f.now) fields.now) e) }
        ensures stays { IfErr result (λ e. Stays self.old e self.new) }
    {
        match asked_in(fields) {
            Some(Asked::Plain(command)) => self.follow(alloc, command),
            Some(Asked::Flush(cpu)) => self.flush(alloc, cpu),
            Some(Asked::Buffer(cpu)) => self.buffer(alloc, cpu),
            None => Err(DebugError::BadCommand),
        }
    }

    /// Makes the moves that the words after `steps` spell.
    fn obey_schedule(
        &mut self,
        alloc: Global,
        fields: &[&[u8]],
        words: &[&[u8]],
    ) -> Result<String, DebugError>
        requires some { map (λ f. f.now) fields.now ≡ [] → ⊥ }
        requires said { order_of (map (λ f. f.now) fields.now)
            ≡ schedule_in (map (λ f. f.now) words.now) }
        ensures answered { IfOk result (λ text.
            LeavesLine self.old (map (λ f. f.now) fields.now) (string_bytes text) self.new) }
        ensures refused { IfErr result (λ e. RefusesLine self.old (map (λ f. f.now) fields.now) e) }
        ensures stays { IfErr result (λ e. Stays self.old e self.new) }
    {
        let Some(runs) = schedule_in(alloc, words)? else {
            return Err(DebugError::BadCommand);
        };
        self.steps(alloc, &runs)
    }

    fn obey(&mut self, alloc: Global, fields: &[&[u8]]) -> Result<String, DebugError>
        ensures answered { IfOk result (λ text.
            LeavesLine self.old (map (λ f. f.now) fields.now) (string_bytes text) self.new) }
        ensures refused { IfErr result (λ e. RefusesLine self.old (map (λ f. f.now) fields.now) e) }
        ensures stays { IfErr result (λ e. Stays self.old e self.new) }
    {
        match fields {
            [] => Ok(String::new(alloc)),
            [word, words @ ..] => {
                if is(word, "steps") {
                    self.obey_schedule(alloc, fields, words)
                } else {
                    self.obey_few(alloc, fields)
                }
            }
        }
    }

    /// Does what a line of these bytes says, and answers its lines. After a refusal the session is as
    /// it was, unless memory ran out in the middle of a move: each line that says something is refused
    /// then.
    pub fn command_bytes(&mut self, alloc: Global, line: &[u8]) -> Result<String, DebugError>
        ensures answered { IfOk result (λ text.
            LeavesLine self.old (fields_of line.now) (string_bytes text) self.new) }
        ensures refused { IfErr result (λ e. RefusesLine self.old (fields_of line.now) e) }
        ensures stays { IfErr result (λ e. Stays self.old e self.new) }
        ensures lost { self.old.lost ≡ true → self.new ≡ self.old }
        ensures nothing { self.old.lost ≡ true
            → IfOk result (λ text. (fields_of line.now ≡ []) × (string_bytes text ≡ [])) }
        ensures words { self.old.lost ≡ true
            → IfErr result (λ e. (line.now ≡ [] → ⊥) × (e ≡ DebugError.OutOfMemory)) }
    {
        if self.lost {
            return lost_answer(alloc, line);
        }
        let fields = lines::fields(alloc, line)?;
        self.obey(alloc, &fields)
    }
}
