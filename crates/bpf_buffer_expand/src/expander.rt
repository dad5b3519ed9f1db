//! A host whose CPUs have store buffers, whose states are read and made.

ghost use Rattle.std.specs.Prelude.{◌≡◌, true, None, IfOk, map, string_bytes};
ghost use Rattle.bpf_names.specs.Names.{names_of};
ghost use Rattle.bpf_machine.specs.Parts.{IsSameHost};
ghost use Rattle.bpf_x86.specs.Machine.{TurnOf};
ghost use Rattle.bpf_explore.specs.Stores.{IsOfShape};
ghost use Rattle.bpf_buffer_expand.specs.State.{FillsX86, IsToldX86, LeadsAhead};
ghost use Rattle.bpf_buffer_expand.specs.Private.Home.{IsFit};
ghost use Rattle.bpf_buffer_expand.specs.Private.Room.{IsRoom, host_with};

use crate::buffers::{are_savable, save_buffers};
use crate::fits::fit_all;
use crate::jobs::{are_from, jobs_fit_bytes, keep_jobs, save_jobs};
use crate::room::Room;
use crate::successor::Successor;
use bpf_buffering::{Buffering, Stored};
use bpf_flushes::tell;
use bpf_machine::can_stand;
use bpf_names::Names;
use bpf_shared::StoreShape;
use std::alloc::{AllocError, Global};
use std::marker::Model;

/// Gives a CPU's job in hand its whole budget back, where budgets are passed over.
fn fill(machine: &mut Buffering, patient: bool, cpu: u8)
    ensures fills { FillsX86 patient machine.old cpu machine.new }
    ensures host { IsSameHost machine.old.machine machine.new.machine }
{
    if !patient {
        return;
    }
    machine.refill(cpu);
}

/// One turn of a CPU, and then its turns that no other CPU sees: how many of these.
fn run_turn(machine: &mut Buffering, cpu: u8) -> Result<u64, AllocError>
    ensures leads { IfOk result
        (λ n. LeadsAhead machine.old (TurnOf cpu) cpu n machine.new) }
    ensures host { IsSameHost machine.old.machine machine.new.machine }
{
    machine.turn(cpu)?;
    machine.run_ahead(cpu)
}

/// What is printed of a machine's jobs, maps and arrays, which have these names.
fn report(alloc: Global, machine: &Buffering, names: &Names) -> Result<String, AllocError>
    ensures { IfOk result (λ text. IsToldX86 machine.now (names_of names.now)
        (string_bytes text)) }
{
    let report = tell(alloc, machine, names, true)?;
    Ok(report.text)
}

/// Whether a machine is of the host that there is room for, with what waits. It always is where turns
/// led to it: what is below doesn't say so, and so it is looked at.
fn is_of_host(
    alloc: Global,
    shape: &StoreShape,
    room: &Room,
    machine: &Buffering,
    waiting: &[Vec<Stored>],
) -> Result<bool, AllocError>
    requires room { IsRoom shape.now room.now }
    requires lists { machine.now.machine.lists ≡ None }
    ensures { IfOk result (λ is. is ≡ true
        → IsFit (host_with shape.now machine.now.machine.programs room.now.first.items)
        machine.now (map (λ b. b.items) waiting.now)) }
{
    let jobs = machine.listed();
    if waiting.len() != shape.cpus() as usize {
        return Ok(false);
    }
    if !are_from(&room.cpus, &room.first, jobs) {
        return Ok(false);
    }
    jobs_fit_bytes(jobs);
    are_savable(waiting);
    let kept = keep_jobs(alloc, jobs)?;
    if !can_stand(machine.store(), machine.programs(), &kept, &room.numbers) {
        return Ok(false);
    }
    Ok(fit_all(shape, jobs, waiting))
}

/// What a move leads to from some bytes.
enum Next {
    /// They are no state of the host.
    Refused,
    /// There is nothing to move.
    Idle,
    State(Successor),
}

/// A machine of a host, which any state of it can be read into.
#[derive(Drop)]
pub struct BufferExpander {
    alloc: Global,
    /// How many steps are left of budgets is passed over.
    patient: bool,
    shape: StoreShape,
    machine: Buffering,
    room: Room,
}

impl Model for BufferExpander {
    ghost use Rattle.bpf_buffer_expand.specs.State.{ExpanderState};
    ghost use Rattle.bpf_expand.specs.State.{Host};
    ghost use Rattle.bpf_buffer_expand.specs.Private.Home.{IsHome};

    ghost Value = { ExpanderState };

    ghost view = { λ e. record {
      host = record {
        shape = e.shape;
        programs = e.machine.machine.programs;
        jobs = e.room.first.items;
        patient = e.patient;
      };
      machine = e.machine;
    } };

    ghost invariant = { λ e. IsHome e.shape e.machine e.room };
}

impl BufferExpander {
    ghost use Rattle.std.specs.Prelude.{◌≡◌, ◌+◌, ◌*◌, true, false, IfNone, IfOk, IfSome, None, map, string_bytes};
    ghost use Rattle.bpf_x86.specs.Machine.{TurnOf, FlushOf};
    ghost use Rattle.bpf_expand.specs.State.{AllWait};
    ghost use Rattle.bpf_buffer_expand.specs.State.{AreSuccessors, HasNone, HasSome, IsNoState, IsStateOf, IsToldX86, Leads};
    ghost use Rattle.bpf_buffer_expand.specs.Private.Home.{IsSavedWith};
    ghost use Rattle.bpf_buffer_expand.specs.Private.Next.{AreBelow, IsNext};

    /// The host of a machine whose jobs all wait, which is the one to work with.
    pub fn new(
        alloc: Global,
        patient: bool,
        shape: StoreShape,
        machine: Buffering,
    ) -> Result<BufferExpander, AllocError>
        requires shape { IsOfShape shape machine.machine.store }
        requires lists { machine.machine.lists ≡ None }
        requires waits { AllWait machine.machine.jobs }
        ensures machine { IfOk result (λ e. e.machine ≡ machine) }
        ensures patient { IfOk result (λ e. e.host.patient ≡ patient) }
        ensures shape { IfOk result (λ e. e.host.shape ≡ shape) }
        ensures programs { IfOk result (λ e. e.host.programs ≡ machine.machine.programs) }
        ensures jobs { IfOk result (λ e. e.host.jobs ≡ machine.machine.jobs) }
    {
        let room = Room::new(alloc, &shape, machine.listed())?;
        Ok(BufferExpander {
            alloc,
            patient,
            shape,
            machine,
            room,
        })
    }

    /// The machine to work with.
    pub fn machine(&self) -> &Buffering
        ensures { result.now ≡ self.now.machine }
    {
        &self.machine
    }

    /// Takes the machine to work with that is saved as all of these bytes, if there is one of this
    /// host.
    pub fn take(&mut self, bytes: &[u8]) -> Result<bool, AllocError>
        ensures taken { IfOk result (λ is. is ≡ true
            → IsStateOf self.new.host self.new.machine bytes.now) }
        ensures none { IfOk result (λ is. is ≡ false → IsNoState self.new.host bytes.now) }
        ensures same { self.new.host ≡ self.old.host }
    {
        let programs = self.machine.programs();
        let Some(parts) = self.room.read(self.alloc, &self.shape, programs, bytes)? else {
            return Ok(false);
        };
        jobs_fit_bytes(&parts.jobs);
        self.machine
            .take(&self.room.store, parts.jobs, parts.buffers);
        Ok(true)
    }

    /// What the machine is saved as, with what waits.
    fn save(&self, waiting: &[Vec<Stored>]) -> Result<Vec<u8>, AllocError>
        ensures { IfOk result (λ v. IsSavedWith self.now.machine (map (λ b. b.items) waiting.now)
            v.items) }
    {
        let mut bytes = Vec::new(self.alloc);
        save_jobs(self.machine.listed(), &mut bytes)?;
        save_buffers(waiting, &mut bytes)?;
        self.machine.store().save(&mut bytes)?;
        Ok(bytes)
    }

    /// The state of the machine.
    pub fn state(&self) -> Result<Vec<u8>, AllocError>
        ensures { IfOk result (λ v. IsStateOf self.now.host self.now.machine v.items) }
    {
        let waiting = self.machine.waiting();
        if !is_of_host(self.alloc, &self.shape, &self.room, &self.machine, waiting)? {
            return Err(AllocError);
        }
        self.save(waiting)
    }

    /// One turn of a CPU, and then its turns that no other CPU sees: how many of these.
    pub fn turn_ahead(&mut self, cpu: u8) -> Result<u64, AllocError>
        ensures turns { IfOk result (λ n.
            Leads self.old.host self.old.machine (TurnOf cpu) cpu n self.new.machine) }
        ensures same { self.new.host ≡ self.old.host }
    {
        let ahead = run_turn(&mut self.machine, cpu)?;
        fill(&mut self.machine, self.patient, cpu);
        Ok(ahead)
    }

    /// The CPU's oldest waiting store reaches memory. Whether one waits.
    pub fn flush(&mut self, cpu: u8) -> bool
        ensures flushed { result ≡ true
            → Leads self.old.host self.old.machine (FlushOf cpu) cpu 0 self.new.machine }
        ensures none { result ≡ false → HasNone self.old.machine (FlushOf cpu) }
        ensures same { self.new.host ≡ self.old.host }
    {
        if !self.machine.flush(cpu) {
            return false;
        }
        fill(&mut self.machine, self.patient, cpu);
        true
    }

    /// Whether a CPU has work.
    fn has_work(&self, cpu: u8) -> bool
        ensures some { result ≡ true → HasSome self.now.machine (TurnOf cpu) }
        ensures none { result ≡ false → HasNone self.now.machine (TurnOf cpu) }
    {
        match self.machine.job(cpu) {
            Some(_) => true,
            None => false,
        }
    }

    /// Whether a store of a CPU waits.
    fn has_waiting(&self, cpu: u8) -> bool
        ensures some { result ≡ true → HasSome self.now.machine (FlushOf cpu) }
        ensures none { result ≡ false → HasNone self.now.machine (FlushOf cpu) }
    {
        self.machine.waits(cpu) > 0
    }

    /// What a CPU's turn leads to from the state of these bytes.
    fn next_turn(&mut self, bytes: &[u8], cpu: u8) -> Result<Next, AllocError>
        ensures next { IfOk result (IsNext self.new.host bytes.now cpu false) }
        ensures same { self.new.host ≡ self.old.host }
    {
        if !self.take(bytes)? {
            return Ok(Next::Refused);
        }
        if !self.has_work(cpu) {
            return Ok(Next::Idle);
        }
        let ahead = self.turn_ahead(cpu)?;
        let bytes = self.state()?;
        Ok(Next::State(Successor {
            cpu,
            is_flush: false,
            ahead,
            bytes,
        }))
    }

    /// What the flush of a CPU's oldest store leads to from the state of these bytes.
    fn next_flush(&mut self, bytes: &[u8], cpu: u8) -> Result<Next, AllocError>
        ensures next { IfOk result (IsNext self.new.host bytes.now cpu true) }
        ensures same { self.new.host ≡ self.old.host }
    {
        if !self.take(bytes)? {
            return Ok(Next::Refused);
        }
        if !self.has_waiting(cpu) || !self.flush(cpu) {
            return Ok(Next::Idle);
        }
        let bytes = self.state()?;
        Ok(Next::State(Successor {
            cpu,
            is_flush: true,
            ahead: 0,
            bytes,
        }))
    }

    /// Puts after what was found what a CPU's turn leads to. Whether the bytes are a state.
    fn add_turn(
        &mut self,
        bytes: &[u8],
        cpu: u8,
        found: &mut Vec<Successor>,
    ) -> Result<bool, AllocError>
        requires { AreBelow self.old.host bytes.now found.old.items (2 * cpu) }
        ensures adds { IfOk result (λ is. is ≡ true
            → AreBelow self.new.host bytes.now found.new.items (2 * cpu + 1)) }
        ensures none { IfOk result (λ is. is ≡ false → IsNoState self.new.host bytes.now) }
        ensures same { self.new.host ≡ self.old.host }
    {
        match self.next_turn(bytes, cpu)? {
            Next::Idle => Ok(true),
            Next::State(successor) => {
                found.push(successor)?;
                Ok(true)
            }
            Next::Refused => Ok(false),
        }
    }

    /// Puts after that what the flush of its oldest store leads to. Whether the bytes are a state.
    fn add_flush(
        &mut self,
        bytes: &[u8],
        cpu: u8,
        found: &mut Vec<Successor>,
    ) -> Result<bool, AllocError>
        requires { AreBelow self.old.host bytes.now found.old.items (2 * cpu + 1) }
        ensures adds { IfOk result (λ is. is ≡ true
            → AreBelow self.new.host bytes.now found.new.items (2 * cpu + 1 + 1)) }
        ensures none { IfOk result (λ is. is ≡ false → IsNoState self.new.host bytes.now) }
        ensures same { self.new.host ≡ self.old.host }
    {
        match self.next_flush(bytes, cpu)? {
            Next::Idle => Ok(true),
            Next::State(successor) => {
                found.push(successor)?;
                Ok(true)
            }
            Next::Refused => Ok(false),
        }
    }

    /// What moves lead to from the state of these bytes: by rising CPU the turn of each with work,
    /// and then the flush of its oldest store that waits. `None` where they are no state of the
    /// host.
    pub fn successors(&mut self, bytes: &[u8]) -> Result<Option<Vec<Successor>>, AllocError>
        ensures some { IfOk result (λ o. IfSome o
            (λ found. AreSuccessors self.new.host bytes.now found.items)) }
        ensures none { IfOk result (λ o. IfNone o (IsNoState self.new.host bytes.now)) }
        ensures same { self.new.host ≡ self.old.host }
    {
        let mut found = Vec::new(self.alloc);
        if !self.take(bytes)? {
            return Ok(None);
        }
        for cpu in 0..self.shape.cpus() {
            if !self.add_turn(bytes, cpu, &mut found)? {
                return Ok(None);
            }
            if !self.add_flush(bytes, cpu, &mut found)? {
                return Ok(None);
            }
        }
        Ok(Some(found))
    }

    /// What is printed of the machine's jobs, maps and arrays, which have these names.
    pub fn report(&self, names: &Names) -> Result<String, AllocError>
        ensures { IfOk result (λ text. IsToldX86 self.now.machine (names_of names.now)
            (string_bytes text)) }
    {
        report(self.alloc, &self.machine, names)
    }
}
