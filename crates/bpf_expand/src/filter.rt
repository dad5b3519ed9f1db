//! A filter of lines: each is a state, and answered by what CPUs' turns lead to from it.

ghost use Rattle.std.specs.Prelude.{◌≡◌, ◌++◌, IfNone, IfOk, IfSome, false, is_some, map, string_bytes, true};
ghost use Rattle.bpf_names.specs.Names.{names_of};
ghost use Rattle.bpf_cpu.specs.Setup.{IsRunnable, named_in};
ghost use Rattle.bpf_cpu.specs.Task.{waiting};
ghost use Rattle.bpf_machine.specs.Machine.{Shows};
ghost use Rattle.bpf_jobs.specs.Printed.{first_of};
ghost use Rattle.bpf_pairs.specs.Pairs.{pair_of};
ghost use Rattle.bpf_expand.specs.Filter.{IsFirstLine, host_of, new_filter};
ghost use Rattle.bpf_expand.specs.Lines.{no_state_line};
ghost use Rattle.bpf_expand.specs.Private.Races.{TellsRaces};

use crate::digits::line_bytes;
use crate::expander::Expander;
use crate::lines::{no_state_line, report_line, state_line, successor_lines};
use bpf_cpu::Setup;
use bpf_explore::first_machine;
use bpf_loader::Named;
use bpf_machine::Machine;
use bpf_names::Names;
use bpf_plain::copy_shape;
use bpf_races::{Watcher, list_races_in, races_in};
use bpf_shared::StoreShape;
use bpf_talk::Respond;
use std::alloc::{AllocError, Global};
use std::marker::Model;

/// What is answered where there is no memory.
const NO_MEMORY: &str = "refused L9\n";

/// The jobs of a host, whose states are read from lines and printed.
#[derive(Drop)]
pub struct Filter {
    expander: Expander,
    names: Names,
    /// Where races are printed: what finds them.
    watcher: Option<Watcher>,
    /// How many lines were answered, counted up to the greatest `u64`.
    lines: u64,
    told: Result<String, AllocError>,
}

impl Model for Filter {
    ghost use Rattle.std.specs.Prelude.{is_some};
    ghost use Rattle.bpf_names.specs.Names.{names_of};
    ghost use Rattle.bpf_expand.specs.Filter.{FilterState, told_text};

    ghost Value = { FilterState };

    ghost view = { λ f. record {
      host = f.expander.host;
      names = names_of f.names;
      races = is_some f.watcher;
      lines = f.lines;
      told = told_text f.told;
    } };
}

/// What is printed of a line that is a state, or that is none; whether it is refused.
fn shown(alloc: Global, told: Option<String>, line: u64) -> Result<(String, bool), AllocError>
    ensures some { IfOk result (λ r. IfSome told (λ text. (r.0 ≡ text) × (r.1 ≡ false))) }
    ensures none { IfOk result (λ r. IfNone told
        ((string_bytes r.0 ≡ no_state_line line) × (r.1 ≡ true))) }
{
    match told {
        Some(text) => Ok((text, false)),
        None => Ok((no_state_line(alloc, line)?, true)),
    }
}

/// The machine of jobs over a new store, to work with.
pub fn open(alloc: Global, patient: bool, setup: Setup) -> Result<Expander, AllocError>
    requires { IsRunnable setup }
    ensures host { IfOk result (λ e. e.host ≡ host_of patient setup.shape setup.programs.items
        (map waiting setup.jobs.items)) }
    ensures machine { IfOk result (λ e. Shows e.machine (first_of setup)) }
{
    let (shape, machine) = first_machine(alloc, setup)?;
    Expander::new(alloc, patient, shape, machine)
}

/// What finds races over stores of this shape, if they are to be printed.
fn watcher_of(alloc: Global, races: bool, shape: &StoreShape) -> Result<Option<Watcher>, AllocError>
    ensures { IfOk result (λ o. is_some o ≡ races) }
{
    if !races {
        return Ok(None);
    }
    let copy = copy_shape(alloc, shape)?;
    let watcher = Watcher::new(alloc, copy)?;
    Ok(Some(watcher))
}

/// How many maps and arrays a store of this shape has.
fn named_of(shape: &StoreShape) -> Named
    ensures { result ≡ named_in shape.now }
{
    Named {
        maps: shape.maps().len(),
        arrays: shape.arrays().len(),
    }
}

/// The lines of the races of a machine, whose maps and arrays have these names.
fn race_lines(
    alloc: Global,
    watcher: &mut Watcher,
    machine: &Machine,
    names: &Names,
) -> Result<String, AllocError>
    ensures { IfOk result (λ text. TellsRaces true machine.now (names_of names.now)
        (string_bytes text)) }
{
    let races = races_in(alloc, watcher, machine, &[])?;
    let named = named_of(machine.store().store_shape());
    let text = list_races_in(alloc, named, names, &races)?;
    Ok(text)
}

/// The lines of the races of a machine, if they are to be printed; else none.
fn told_races(
    alloc: Global,
    watcher: &mut Option<Watcher>,
    machine: &Machine,
    names: &Names,
) -> Result<String, AllocError>
    ensures told { IfOk result (λ text. TellsRaces (is_some watcher.old) machine.now
        (names_of names.now) (string_bytes text)) }
    ensures same { is_some watcher.new ≡ is_some watcher.old }
{
    match watcher {
        Some(watcher) => race_lines(alloc, watcher, machine, names),
        None => Ok(String::new(alloc)),
    }
}

/// One text after another.
fn joined(before: String, rest: String) -> Result<String, AllocError>
    ensures { IfOk result (λ text. string_bytes text ≡ string_bytes before ++ string_bytes rest) }
{
    if before.is_empty() {
        return Ok(rest);
    }
    let mut text = before;
    text.push_str(rest.as_str())?;
    Ok(text)
}

impl Filter {
    ghost use Rattle.std.specs.Prelude.{◌≡◌, ◌≢◌, ℕ, [], codes, false, true, IfNone, IfOk, IfSome, OnErr, string_bytes};
    ghost use Rattle.bpf_expand.specs.State.{AreSuccessors, IsNoState};
    ghost use Rattle.bpf_expand.specs.Filter.{AreRacesTold, IsLineTold, IsNoStateLine, IsToldOf, IsToldWith};

    /// The filter of jobs over a new store whose maps and arrays have these names, which prints
    /// races or not.
    pub fn new(
        alloc: Global,
        patient: bool,
        races: bool,
        setup: Setup,
        names: Names,
    ) -> Result<Filter, AllocError>
        requires { IsRunnable setup }
        ensures { IfOk result (λ f. f ≡ new_filter patient races setup.shape
            (names_of names) setup.programs.items (map waiting setup.jobs.items)) }
    {
        let watcher = watcher_of(alloc, races, &setup.shape)?;
        let expander = open(alloc, patient, setup)?;
        Ok(Filter {
            expander,
            names,
            watcher,
            lines: 0,
            told: Ok(String::new(alloc)),
        })
    }

    /// The report of a state from which no CPU's turn leads on. `None` where the bytes are none.
    fn report(&mut self, alloc: Global, bytes: &[u8]) -> Result<Option<String>, AllocError>
        requires ended { AreSuccessors self.old.host bytes.now [] }
        ensures some { IfOk result (λ o. IfSome o
            (λ text. IsToldOf self.new.host self.new.names bytes.now (string_bytes text))) }
        ensures none { IfOk result (λ o. IfNone o (IsNoState self.new.host bytes.now)) }
        ensures same { (self.new.host ≡ self.old.host) × (self.new.names ≡ self.old.names)
            × (self.new.races ≡ self.old.races) × (self.new.lines ≡ self.old.lines) }
    {
        if !self.expander.take(bytes)? {
            return Ok(None);
        }
        let report = self.expander.report(&self.names)?;
        Ok(Some(report_line(alloc, report.as_str())?))
    }

    /// What is printed of a state but for its races. `None` where the bytes are none.
    fn tell_turns(&mut self, alloc: Global, bytes: &[u8]) -> Result<Option<String>, AllocError>
        ensures some { IfOk result (λ o. IfSome o
            (λ text. IsToldOf self.new.host self.new.names bytes.now (string_bytes text))) }
        ensures none { IfOk result (λ o. IfNone o (IsNoState self.new.host bytes.now)) }
        ensures same { (self.new.host ≡ self.old.host) × (self.new.names ≡ self.old.names)
            × (self.new.races ≡ self.old.races) × (self.new.lines ≡ self.old.lines) }
    {
        let Some(found) = self.expander.successors(bytes)? else {
            return Ok(None);
        };
        if found.is_empty() {
            return self.report(alloc, bytes);
        }
        Ok(Some(successor_lines(alloc, &found)?))
    }

    /// What is printed of the races of a state. `None` where the bytes are none.
    fn tell_races(&mut self, alloc: Global, bytes: &[u8]) -> Result<Option<String>, AllocError>
        ensures some { IfOk result (λ o. IfSome o (λ text. AreRacesTold self.new.races
            self.new.host self.new.names bytes.now (string_bytes text))) }
        ensures none { IfOk result (λ o. IfNone o (IsNoState self.new.host bytes.now)) }
        ensures same { (self.new.host ≡ self.old.host) × (self.new.names ≡ self.old.names)
            × (self.new.races ≡ self.old.races) × (self.new.lines ≡ self.old.lines) }
    {
        if self.watcher.is_none() {
            return Ok(Some(String::new(alloc)));
        }
        if !self.expander.take(bytes)? {
            return Ok(None);
        }
        let text = told_races(
            alloc,
            &mut self.watcher,
            self.expander.machine(),
            &self.names,
        )?;
        Ok(Some(text))
    }

    /// What is printed of a state. `None` where the bytes are none.
    fn tell(&mut self, alloc: Global, bytes: &[u8]) -> Result<Option<String>, AllocError>
        ensures some { IfOk result (λ o. IfSome o (λ text. IsToldWith self.new.races
            self.new.host self.new.names bytes.now (string_bytes text))) }
        ensures none { IfOk result (λ o. IfNone o (IsNoState self.new.host bytes.now)) }
        ensures same { (self.new.host ≡ self.old.host) × (self.new.names ≡ self.old.names)
            × (self.new.races ≡ self.old.races) × (self.new.lines ≡ self.old.lines) }
    {
        let Some(before) = self.tell_races(alloc, bytes)? else {
            return Ok(None);
        };
        let Some(rest) = self.tell_turns(alloc, bytes)? else {
            return Ok(None);
        };
        let text = joined(before, rest)?;
        Ok(Some(text))
    }

    /// What is printed of the state that a line is. `None` where it is none.
    fn tell_line(&mut self, alloc: Global, line: &[u8]) -> Result<Option<String>, AllocError>
        requires { line.now ≢ [] }
        ensures some { IfOk result (λ o. IfSome o (λ text. (number : ℕ)
            → IsLineTold self.new.races self.new.host self.new.names number line.now
            (string_bytes text) false)) }
        ensures none { IfOk result (λ o. IfNone o (IsNoStateLine self.new.host line.now)) }
        ensures same { (self.new.host ≡ self.old.host) × (self.new.names ≡ self.old.names)
            × (self.new.races ≡ self.old.races) × (self.new.lines ≡ self.old.lines) }
    {
        match line_bytes(alloc, line)? {
            Some(bytes) => self.tell(alloc, &bytes),
            None => Ok(None),
        }
    }

    /// What a line is answered, and whether it is refused.
    fn answer_line(&mut self, alloc: Global, line: &[u8]) -> Result<(String, bool), AllocError>
        ensures told { IfOk result (λ r. IsLineTold self.new.races self.new.host self.new.names
            self.new.lines line.now (string_bytes r.0) r.1) }
        ensures same { (self.new.host ≡ self.old.host) × (self.new.names ≡ self.old.names)
            × (self.new.races ≡ self.old.races) × (self.new.lines ≡ self.old.lines) }
    {
        if line.is_empty() {
            return Ok((String::new(alloc), false));
        }
        let told = self.tell_line(alloc, line)?;
        shown(alloc, told, self.lines)
    }

    /// Keeps an answer; whether it is a refusal.
    fn keep(&mut self, answer: Result<(String, bool), AllocError>) -> bool
        ensures ok { IfOk answer (λ r. (result ≡ r.1) × (self.new.told ≡ string_bytes r.0)) }
        ensures err { OnErr answer ((result ≡ true) × (self.new.told ≡ codes "refused L9\n")) }
        ensures same { (self.new.host ≡ self.old.host) × (self.new.names ≡ self.old.names)
            × (self.new.races ≡ self.old.races) × (self.new.lines ≡ self.old.lines) }
    {
        match answer {
            Ok((text, refused)) => {
                self.told = Ok(text);
                refused
            }
            Err(_) => {
                self.told = Err(AllocError);
                true
            }
        }
    }
}

/// The line of the first state of jobs over a new store.
pub fn first_line(alloc: Global, setup: Setup) -> Result<String, AllocError>
    requires { IsRunnable setup }
    ensures { IfOk result (λ text. IsFirstLine setup.shape (map pair_of setup.pairs.items)
        setup.programs.items (map waiting setup.jobs.items) (string_bytes text)) }
{
    let expander = open(alloc, false, setup)?;
    let bytes = expander.state()?;
    state_line(alloc, &bytes)
}

impl Respond for Filter {
    ghost use Rattle.bpf_expand.specs.Filter.{AnswersState};

    ghost answers = { AnswersState };

    ghost text = { λ s. s.told };

    fn answer(&mut self, alloc: Global, line: &[u8]) -> bool {
        self.lines = self.lines.saturating_add(1);
        let answer = self.answer_line(alloc, line);
        self.keep(answer)
    }

    fn told(&self) -> &str {
        match &self.told {
            Ok(text) => text.as_str(),
            Err(_) => NO_MEMORY,
        }
    }
}
