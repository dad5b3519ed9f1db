//! A filter of lines: each is a state, and answered by what moves lead to from it.

ghost use Rattle.std.specs.Prelude.{◌≡◌, IfNone, IfOk, IfSome, List, None, Ok, ℕ, false, map, string_bytes, true};
ghost use Rattle.hex.specs.Hex.{decode_of};
ghost use Rattle.bpf_names.specs.Names.{names_of};
ghost use Rattle.bpf_cpu.specs.Setup.{IsRunnable};
ghost use Rattle.bpf_cpu.specs.Task.{waiting};
ghost use Rattle.bpf_jobs.specs.Printed.{first_of};
ghost use Rattle.bpf_pairs.specs.Pairs.{pair_of};
ghost use Rattle.bpf_x86.specs.Machine.{drained};
ghost use Rattle.bpf_explore.specs.Stores.{IsOfShape};
ghost use Rattle.bpf_buffering.specs.Search.{ShowsX86};
ghost use Rattle.bpf_expand.specs.Filter.{host_of};
ghost use Rattle.bpf_expand.specs.Lines.{no_state_line};
ghost use Rattle.bpf_buffer_expand.specs.Filter.{IsFirstLine, new_filter};

use crate::expander::BufferExpander;
use crate::lines::{no_state_line, report_line, state_line, successor_lines};
use bpf_buffering::Buffering;
use bpf_cpu::Setup;
use bpf_flushes::make_buffering;
use bpf_names::Names;
use bpf_plain::copy_shape;
use bpf_shared::StoreShape;
use bpf_talk::Respond;
use hex::FromHexError;
use std::alloc::{AllocError, Global};
use std::marker::Model;

/// What is answered where there is no memory.
const NO_MEMORY: &str = "refused L9\n";

/// The jobs of a host, whose states are read from lines and printed.
#[derive(Drop)]
pub struct BufferFilter {
    expander: BufferExpander,
    names: Names,
    /// How many lines were answered, counted up to the greatest `u64`.
    lines: u64,
    told: Result<String, AllocError>,
}

impl Model for BufferFilter {
    ghost use Rattle.bpf_names.specs.Names.{names_of};
    ghost use Rattle.bpf_expand.specs.Filter.{told_text};
    ghost use Rattle.bpf_buffer_expand.specs.Filter.{FilterState};

    ghost Value = { FilterState };

    ghost view = { λ f. record {
      host = f.expander.host;
      names = names_of f.names;
      lines = f.lines;
      told = told_text f.told;
    } };
}

/// The bytes that a line has as hex digits.
fn line_bytes(alloc: Global, line: &[u8]) -> Result<Option<Vec<u8>>, AllocError>
    ensures some { IfOk result (λ o. IfSome o (λ bytes. decode_of line.now ≡ Ok bytes.items)) }
    ensures none { IfOk result (λ o. IfNone o ((bytes : List ℕ) → decode_of line.now ≡ Ok bytes
        → ⊥)) }
{
    match hex::decode(alloc, line) {
        Ok(bytes) => Ok(Some(bytes)),
        Err(FromHexError::OutOfMemory) => Err(AllocError),
        Err(_) => Ok(None),
    }
}

/// What is printed of a line that is a state, or that is none; whether it is refused.
fn shown(alloc: Global, told: Option<String>, line: u64) -> Result<(String, bool), AllocError>
    ensures some { IfOk result (λ r. IfSome told (λ text. (r.0 ≡ text) × (r.1 ≡ false))) }
    ensures none { IfOk result (λ r. IfNone told
        ((string_bytes r.0 ≡ no_state_line line) × (r.1 ≡ true))) }
{
    match told {
        Some(text) => Ok((text, false)),
        None => Ok((no_state_line(alloc, line)?, true)),
    }
}

/// The machine of jobs over a new store, in which they all wait, and a copy of the store's shape.
fn first_machine(alloc: Global, setup: Setup) -> Result<(StoreShape, Buffering), AllocError>
    requires { IsRunnable setup }
    ensures copy { IfOk result (λ r. r.0 ≡ setup.shape) }
    ensures shape { IfOk result (λ r. IsOfShape r.0 r.1.machine.store) }
    ensures lists { IfOk result (λ r. r.1.machine.lists ≡ None) }
    ensures machine { IfOk result (λ r. ShowsX86 r.1 (drained (first_of setup))) }
{
    let shape = copy_shape(alloc, &setup.shape)?;
    let machine = make_buffering(alloc, setup)?;
    Ok((shape, machine))
}

/// The machine of jobs over a new store, to work with.
fn open(alloc: Global, patient: bool, setup: Setup) -> Result<BufferExpander, AllocError>
    requires { IsRunnable setup }
    ensures host { IfOk result (λ e. e.host ≡ host_of patient setup.shape setup.programs.items
        (map waiting setup.jobs.items)) }
    ensures machine { IfOk result (λ e. ShowsX86 e.machine (drained (first_of setup))) }
{
    let (shape, machine) = first_machine(alloc, setup)?;
    BufferExpander::new(alloc, patient, shape, machine)
}

impl BufferFilter {
    ghost use Rattle.std.specs.Prelude.{◌≡◌, ◌≢◌, ℕ, [], codes, false, true, IfNone, IfOk, IfSome, OnErr, string_bytes};
    ghost use Rattle.bpf_buffer_expand.specs.State.{AreSuccessors, IsNoState};
    ghost use Rattle.bpf_buffer_expand.specs.Filter.{IsLineTold, IsNoStateLine, IsToldOf};

    /// The filter of jobs over a new store whose maps and arrays have these names.
    pub fn new(
        alloc: Global,
        patient: bool,
        setup: Setup,
        names: Names,
    ) -> Result<BufferFilter, AllocError>
        requires { IsRunnable setup }
        ensures { IfOk result (λ f. f ≡ new_filter patient setup.shape
            (names_of names) setup.programs.items (map waiting setup.jobs.items)) }
    {
        let expander = open(alloc, patient, setup)?;
        Ok(BufferFilter {
            expander,
            names,
            lines: 0,
            told: Ok(String::new(alloc)),
        })
    }

    /// The report of a state from which no move leads on. `None` where the bytes are none.
    fn report(&mut self, alloc: Global, bytes: &[u8]) -> Result<Option<String>, AllocError>
        requires ended { AreSuccessors self.old.host bytes.now [] }
        ensures some { IfOk result (λ o. IfSome o
            (λ text. IsToldOf self.new.host self.new.names bytes.now (string_bytes text))) }
        ensures none { IfOk result (λ o. IfNone o (IsNoState self.new.host bytes.now)) }
        ensures same { (self.new.host ≡ self.old.host) × (self.new.names ≡ self.old.names)
            × (self.new.lines ≡ self.old.lines) }
    {
        if !self.expander.take(bytes)? {
            return Ok(None);
        }
        let report = self.expander.report(&self.names)?;
        Ok(Some(report_line(alloc, report.as_str())?))
    }

    /// What is printed of a state. `None` where the bytes are none.
    fn tell(&mut self, alloc: Global, bytes: &[u8]) -> Result<Option<String>, AllocError>
        ensures some { IfOk result (λ o. IfSome o
            (λ text. IsToldOf self.new.host self.new.names bytes.now (string_bytes text))) }
        ensures none { IfOk result (λ o. IfNone o (IsNoState self.new.host bytes.now)) }
        ensures same { (self.new.host ≡ self.old.host) × (self.new.names ≡ self.old.names)
            × (self.new.lines ≡ self.old.lines) }
    {
        let Some(found) = self.expander.successors(bytes)? else {
            return Ok(None);
        };
        if found.is_empty() {
            return self.report(alloc, bytes);
        }
        Ok(Some(successor_lines(alloc, &found)?))
    }

    /// What is printed of the state that a line is. `None` where it is none.
    fn tell_line(&mut self, alloc: Global, line: &[u8]) -> Result<Option<String>, AllocError>
        requires { line.now ≢ [] }
        ensures some { IfOk result (λ o. IfSome o (λ text. (number : ℕ)
            → IsLineTold self.new.host self.new.names number line.now
            (string_bytes text) false)) }
        ensures none { IfOk result (λ o. IfNone o (IsNoStateLine self.new.host line.now)) }
        ensures same { (self.new.host ≡ self.old.host) × (self.new.names ≡ self.old.names)
            × (self.new.lines ≡ self.old.lines) }
    {
        match line_bytes(alloc, line)? {
            Some(bytes) => self.tell(alloc, &bytes),
            None => Ok(None),
        }
    }

    /// What a line is answered, and whether it is refused.
    fn answer_line(&mut self, alloc: Global, line: &[u8]) -> Result<(String, bool), AllocError>
        ensures told { IfOk result (λ r. IsLineTold self.new.host self.new.names
            self.new.lines line.now (string_bytes r.0) r.1) }
        ensures same { (self.new.host ≡ self.old.host) × (self.new.names ≡ self.old.names)
            × (self.new.lines ≡ self.old.lines) }
    {
        if line.is_empty() {
            return Ok((String::new(alloc), false));
        }
        let told = self.tell_line(alloc, line)?;
        shown(alloc, told, self.lines)
    }

    /// Keeps an answer; whether it is a refusal.
    fn keep(&mut self, answer: Result<(String, bool), AllocError>) -> bool
        ensures ok { IfOk answer (λ r. (result ≡ r.1) × (self.new.told ≡ string_bytes r.0)) }
        ensures err { OnErr answer ((result ≡ true) × (self.new.told ≡ codes "refused L9\n")) }
        ensures same { (self.new.host ≡ self.old.host) × (self.new.names ≡ self.old.names)
            × (self.new.lines ≡ self.old.lines) }
    {
        match answer {
            Ok((text, refused)) => {
                self.told = Ok(text);
                refused
            }
            Err(_) => {
                self.told = Err(AllocError);
                true
            }
        }
    }
}

/// The line of the first state of jobs over a new store, in which nothing waits.
pub fn first_line(alloc: Global, setup: Setup) -> Result<String, AllocError>
    requires { IsRunnable setup }
    ensures { IfOk result (λ text. IsFirstLine setup.shape (map pair_of setup.pairs.items)
        setup.programs.items (map waiting setup.jobs.items) (string_bytes text)) }
{
    let expander = open(alloc, false, setup)?;
    let bytes = expander.state()?;
    state_line(alloc, &bytes)
}

impl Respond for BufferFilter {
    ghost use Rattle.bpf_buffer_expand.specs.Filter.{AnswersState};

    ghost answers = { AnswersState };

    ghost text = { λ s. s.told };

    fn answer(&mut self, alloc: Global, line: &[u8]) -> bool {
        self.lines = self.lines.saturating_add(1);
        let answer = self.answer_line(alloc, line);
        self.keep(answer)
    }

    fn told(&self) -> &str {
        match &self.told {
            Ok(text) => text.as_str(),
            Err(_) => NO_MEMORY,
        }
    }
}
