//! A host whose states are read and made.

ghost use Rattle.std.specs.Prelude.{◌≡◌, IfOk, None, map, string_bytes};
ghost use Rattle.bpf_names.specs.Names.{names_of};
ghost use Rattle.bpf_explore.specs.Stores.{IsOfShape};
ghost use Rattle.bpf_machine.specs.Parts.{IsSameHost};
ghost use Rattle.bpf_machine.specs.Saved.{ComeFromSame};
ghost use Rattle.bpf_expand.specs.State.{Fills, IsTold};

use crate::jobs::{count_up, jobs_fit_bytes, keep_jobs, save_jobs};
use crate::successor::Successor;
use bpf_jobs::tell;
use bpf_machine::{KeptJob, Machine, read_jobs};
use bpf_names::Names;
use bpf_plain::{PlainStore, copy_shape};
use bpf_shared::StoreShape;
use std::alloc::{AllocError, Global};
use std::marker::Model;

/// By how many bytes a state may be longer than the one that led to it before more room is made.
const SPARE: usize = 128;

/// A store of this shape.
fn make_room(alloc: Global, shape: &StoreShape) -> Result<PlainStore, AllocError>
    ensures { IfOk result (λ store. IsOfShape shape.now store) }
{
    let shape = copy_shape(alloc, shape)?;
    PlainStore::new(alloc, shape).map_err(|_| AllocError)
}

/// Gives a CPU's job in hand its whole budget back, where budgets are passed over.
fn fill(machine: &mut Machine, patient: bool, cpu: u8)
    ensures fills { Fills patient machine.old cpu machine.new }
    ensures same { IsSameHost machine.old machine.new }
    ensures jobs { ComeFromSame machine.old.jobs machine.new.jobs }
{
    if !patient {
        return;
    }
    machine.refill(cpu);
}

/// What is printed of a machine's jobs, maps and arrays, which have these names.
fn report(alloc: Global, machine: &Machine, names: &Names) -> Result<String, AllocError>
    requires { machine.now.lists ≡ None }
    ensures { IfOk result (λ text. IsTold machine.now (names_of names.now)
        (string_bytes text)) }
{
    let report = tell(alloc, machine, names, true)?;
    Ok(report.text)
}

/// What a CPU's turn leads to from some bytes.
enum Next {
    /// They are no state of the host.
    Refused,
    /// The CPU has no work.
    Idle,
    State(Successor),
}

/// A machine of a host, which any state of it can be read into.
#[derive(Drop)]
pub struct Expander {
    alloc: Global,
    /// How many steps are left of budgets is passed over.
    patient: bool,
    shape: StoreShape,
    machine: Machine,
    /// The bytes of the state that was read last: of what it leads to the next is mostly asked too.
    read: Option<Vec<u8>>,
    /// Whether the machine is the one of that state, with no turn made since.
    is_placed: bool,
    /// Its jobs. They are read in place, so where none was read they may be any.
    jobs: Vec<KeptJob>,
    /// Its store; where none was read, one of the same shape.
    room: PlainStore,
    /// The jobs of the first machine.
    first: Vec<KeptJob>,
    /// Their numbers.
    numbers: Vec<u32>,
}

impl Model for Expander {
    ghost use Rattle.std.specs.Prelude.{option_map};
    ghost use Rattle.bpf_expand.specs.State.{ExpanderState, Host};
    ghost use Rattle.bpf_expand.specs.Private.Home.{IsHome};

    ghost Value = { ExpanderState };

    ghost view = { λ e. record {
      host = record {
        shape = e.shape;
        programs = e.machine.programs;
        jobs = e.first.items;
        patient = e.patient;
      };
      machine = e.machine;
      read = option_map (λ v. v.items) e.read;
    } };

    ghost invariant = { λ e. IsHome e.shape e.machine e.room e.first.items e.numbers.items
        e.jobs.items (option_map (λ v. v.items) e.read) e.is_placed };
}

impl Expander {
    ghost use Rattle.std.specs.Prelude.{◌≡◌, true, false, IfNone, IfOk, IfSome, None, OnOk, Some, map, string_bytes};
    ghost use Rattle.bpf_machine.specs.Hands.{IsFree, NoneWaits};
    ghost use Rattle.bpf_expand.specs.State.{AllWait, AreSuccessors, HasWork, IsNoState, IsSavedState, IsStateOf, IsTold, Leads};
    ghost use Rattle.bpf_expand.specs.Private.Next.{IsNext};

    /// The host of a machine whose jobs all wait, which is the one to work with.
    pub fn new(
        alloc: Global,
        patient: bool,
        shape: StoreShape,
        machine: Machine,
    ) -> Result<Expander, AllocError>
        requires shape { IsOfShape shape machine.store }
        requires lists { machine.lists ≡ None }
        requires waits { AllWait machine.jobs }
        ensures machine { IfOk result (λ e. e.machine ≡ machine) }
        ensures patient { IfOk result (λ e. e.host.patient ≡ patient) }
        ensures shape { IfOk result (λ e. e.host.shape ≡ shape) }
        ensures programs { IfOk result (λ e. e.host.programs ≡ machine.programs) }
        ensures jobs { IfOk result (λ e. e.host.jobs ≡ machine.jobs) }
    {
        machine.stands();
        let first = keep_jobs(alloc, &machine)?;
        let jobs = keep_jobs(alloc, &machine)?;
        let numbers = count_up(alloc, machine.jobs())?;
        let room = make_room(alloc, &shape)?;
        Ok(Expander {
            alloc,
            patient,
            shape,
            machine,
            read: None,
            is_placed: false,
            jobs,
            room,
            first,
            numbers,
        })
    }

    /// The machine to work with.
    pub fn machine(&self) -> &Machine
        ensures { result.now ≡ self.now.machine }
    {
        &self.machine
    }

    /// How many bytes to make room for: a state is about as long as the one that led to it.
    fn likely_size(&self) -> usize {
        match &self.read {
            Some(read) => read.len().saturating_add(SPARE),
            None => SPARE,
        }
    }

    /// What the machine is saved as.
    fn save(&self) -> Result<Vec<u8>, AllocError>
        ensures { IfOk result (λ v. IsSavedState self.now.machine v.items) }
    {
        let mut bytes = Vec::with_capacity(self.alloc, self.likely_size())?;
        save_jobs(&self.machine, &mut bytes)?;
        self.machine.store().save(&mut bytes)?;
        Ok(bytes)
    }

    /// The state of the machine.
    pub fn state(&self) -> Result<Vec<u8>, AllocError>
        ensures { IfOk result (λ v. IsStateOf self.now.host self.now.machine v.items) }
    {
        self.machine.stands();
        jobs_fit_bytes(&self.machine);
        self.save()
    }

    /// Whether these bytes are the state that was read last.
    fn is_read(&self, bytes: &[u8]) -> bool
        ensures { result ≡ true → self.now.read ≡ Some bytes.now }
    {
        match &self.read {
            Some(read) => read.as_slice() == bytes,
            None => false,
        }
    }

    /// Reads these bytes, if they are a state of this host.
    fn read(&mut self, bytes: &[u8]) -> Result<bool, AllocError>
        ensures read { IfOk result (λ is. is ≡ true → self.new.read ≡ Some bytes.now) }
        ensures none { IfOk result (λ is. is ≡ false → IsNoState self.new.host bytes.now) }
        ensures same { self.new.host ≡ self.old.host }
    {
        self.read = None;
        self.is_placed = false;
        let Some(rest) = read_jobs(self.alloc, &self.first, &mut self.jobs, bytes)? else {
            return Ok(false);
        };
        let Some(count) = self.room.read(self.alloc, rest)? else {
            return Ok(false);
        };
        if count < rest.len()
            || !self
                .machine
                .can_restore(&self.room, &self.jobs, &self.numbers)
        {
            return Ok(false);
        }
        let read = Vec::from_slice(self.alloc, bytes)?;
        self.read = Some(read);
        Ok(true)
    }

    /// Reads these bytes, if they are a state of this host and weren't read last.
    fn has_read(&mut self, bytes: &[u8]) -> Result<bool, AllocError>
        ensures read { IfOk result (λ is. is ≡ true → self.new.read ≡ Some bytes.now) }
        ensures none { IfOk result (λ is. is ≡ false → IsNoState self.new.host bytes.now) }
        ensures same { self.new.host ≡ self.old.host }
    {
        if self.is_read(bytes) {
            return Ok(true);
        }
        self.read(bytes)
    }

    /// Makes the machine of the state that was read last.
    fn place(&mut self, bytes: &[u8]) -> Result<(), AllocError>
        requires { self.old.read ≡ Some bytes.now }
        ensures placed { OnOk result (IsStateOf self.new.host self.new.machine bytes.now) }
        ensures same { self.new.host ≡ self.old.host }
    {
        if self.is_placed {
            jobs_fit_bytes(&self.machine);
            return Ok(());
        }
        self.machine
            .restore(self.alloc, &self.room, &self.jobs, &self.numbers)?;
        self.is_placed = true;
        jobs_fit_bytes(&self.machine);
        Ok(())
    }

    /// Takes the machine to work with that is saved as all of these bytes, if there is one of this
    /// host.
    pub fn take(&mut self, bytes: &[u8]) -> Result<bool, AllocError>
        ensures taken { IfOk result (λ is. is ≡ true
            → IsStateOf self.new.host self.new.machine bytes.now) }
        ensures none { IfOk result (λ is. is ≡ false → IsNoState self.new.host bytes.now) }
        ensures same { self.new.host ≡ self.old.host }
    {
        if !self.has_read(bytes)? {
            return Ok(false);
        }
        self.place(bytes)?;
        Ok(true)
    }

    /// One turn of a CPU, and then its turns that no store sees: how many of these.
    pub fn turn_ahead(&mut self, cpu: u8) -> u64
        ensures turns { Leads self.old.host self.old.machine cpu result self.new.machine }
        ensures same { self.new.host ≡ self.old.host }
    {
        self.is_placed = false;
        let ahead = self.machine.turn_ahead(cpu);
        fill(&mut self.machine, self.patient, cpu);
        ahead
    }

    /// Whether a CPU has work.
    pub fn has_work(&self, cpu: u8) -> bool
        ensures work { result ≡ true → HasWork self.now.machine cpu }
        ensures idle { result ≡ false
            → IsFree self.now.machine.jobs cpu × NoneWaits self.now.machine.jobs cpu }
    {
        match self.machine.job(cpu) {
            Some(_) => true,
            None => false,
        }
    }

    /// What a CPU's turn leads to from the state of these bytes.
    fn next(&mut self, bytes: &[u8], cpu: u8) -> Result<Next, AllocError>
        ensures next { IfOk result (λ n. IsNext self.new.host bytes.now cpu n) }
        ensures same { self.new.host ≡ self.old.host }
    {
        if !self.take(bytes)? {
            return Ok(Next::Refused);
        }
        if !self.has_work(cpu) {
            return Ok(Next::Idle);
        }
        let ahead = self.turn_ahead(cpu);
        let bytes = self.state()?;
        Ok(Next::State(Successor { cpu, ahead, bytes }))
    }

    /// What the turns of all CPUs with work lead to from the state of these bytes, by rising CPU.
    /// `None` where they are no state of the host.
    pub fn successors(&mut self, bytes: &[u8]) -> Result<Option<Vec<Successor>>, AllocError>
        ensures some { IfOk result (λ o. IfSome o
            (λ found. AreSuccessors self.new.host bytes.now found.items)) }
        ensures none { IfOk result (λ o. IfNone o (IsNoState self.new.host bytes.now)) }
        ensures same { self.new.host ≡ self.old.host }
    {
        let mut found = Vec::new(self.alloc);
        if !self.take(bytes)? {
            return Ok(None);
        }
        let cpus = self.machine.cpus();
        for cpu in 0..cpus {
            match self.next(bytes, cpu)? {
                Next::Idle => {}
                Next::State(successor) => found.push(successor)?,
                Next::Refused => return Ok(None),
            }
        }
        Ok(Some(found))
    }

    /// What is printed of the machine's jobs, maps and arrays, which have these names.
    pub fn report(&self, names: &Names) -> Result<String, AllocError>
        ensures { IfOk result (λ text. IsTold self.now.machine (names_of names.now)
            (string_bytes text)) }
    {
        report(self.alloc, &self.machine, names)
    }
}
