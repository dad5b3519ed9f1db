//! What CPUs' next steps touch of values: the steps are made on copies.

ghost use Rattle.std.specs.Prelude.{◌≡◌, [], IfOk, IfSome, IfNone};
ghost use Rattle.bpf_helpers.specs.Arrays.{IsInArray};
ghost use Rattle.bpf_plain.specs.PlainStore.{shape_of};
ghost use Rattle.bpf_races.specs.Races.{IsIndexAt};
ghost use Rattle.bpf_plain.specs.Alike.{IsSameShape};
ghost use Rattle.bpf_mem.specs.Laws.{IsMemory};
ghost use Rattle.bpf_machine.specs.Questions.{IsStanding};
ghost use Rattle.bpf_races.specs.Private.Accesses.{AreAccesses, seen};
ghost use Rattle.bpf_races.specs.Private.Searching.{IsNextOf};

use crate::access::{Access, accesses_of};
use crate::shape::has_shape;
use bpf_cpu::Cpu;
use bpf_events::{Recorder, watch};
use bpf_helpers::array_with;
use bpf_machine::{Machine, Stand, Standing};
use bpf_plain::{PlainStore, copy_shape};
use bpf_shared::{FIRST_ARRAY, FIRST_VALUE, MAP_AREA, StoreShape};
use std::alloc::{AllocError, Global};
use std::marker::Model;

/// Where a CPU is, and what its next step touches of values.
#[derive(Drop)]
pub struct Next {
    here: Stand,
    accesses: Vec<Access>,
}

impl Model for Next {
    ghost use Rattle.bpf_races.specs.Next.{NextStep};

    ghost Value = { NextStep };

    ghost view = { λ n. record { here = n.here; accesses = n.accesses.items } };
}

impl Next {
    /// Where the CPU is, if its step touches anything.
    pub fn here(&self) -> Stand
        ensures { result ≡ self.now.here }
    {
        self.here
    }

    /// What its step touches.
    pub fn accesses(&self) -> &[Access]
        ensures { result.now ≡ self.now.accesses }
    {
        &self.accesses
    }
}

/// The memory of a CPU is as large as it may be.
fn remember(state: &Cpu)
    ensures { IsMemory state.now.memory }
{
    let _depth = state.memory.frames.depth();
    let _context = state.memory.context.bytes();
    let _packet = state.memory.packet.bytes();
}

/// What the notes of a recorder touch, if it has any of a turn.
fn seen(
    alloc: Global,
    recorder: &Recorder,
    at: Option<(usize, u32)>,
) -> Result<Vec<Access>, AllocError>
    ensures { IfOk result (λ v. AreAccesses (seen at recorder.now.events) v.items) }
{
    match at {
        Some(_) => accesses_of(alloc, recorder.notes()),
        None => Ok(Vec::new(alloc)),
    }
}

/// What the next step of a CPU touches that has a job in hand, and is in this state.
fn next_in_hand(
    alloc: Global,
    machine: &Machine,
    recorder: &mut Recorder,
    cpu: u8,
    job: usize,
    state: &Cpu,
) -> Result<Next, AllocError>
    requires shape { IsSameShape machine.now.store recorder.old.store }
    requires hand { IsStanding machine.now.jobs cpu (Standing.InHand job state) }
    ensures next { IfOk result (IsNextOf machine.now cpu) }
    ensures shape { IsSameShape machine.now.store recorder.new.store }
{
    bpf_mem::laws::writes_are_determined();
    bpf_loader::laws::one_instruction_begins();
    bpf_shared::laws::calls_have_one_reply();
    machine.stands();
    remember(state);
    let Some(program) = machine.program_of(job) else {
        return Ok(no_next(alloc, cpu));
    };
    let pc = state.pc;
    let at = watch(alloc, machine, recorder, cpu)?;
    let accesses = seen(alloc, recorder, at)?;
    let here = Stand { cpu, program, pc };
    Ok(Next { here, accesses })
}

/// A step that touches nothing.
fn no_next(alloc: Global, cpu: u8) -> Next
    ensures { result ≡ record { here = record { cpu = cpu; program = 0; pc = 0 }; accesses = [] } }
{
    let here = Stand {
        cpu,
        program: 0,
        pc: 0,
    };
    Next {
        here,
        accesses: Vec::new(alloc),
    }
}

/// What a CPU's next step touches.
fn next_of(
    alloc: Global,
    machine: &Machine,
    recorder: &mut Recorder,
    cpu: u8,
) -> Result<Next, AllocError>
    requires { IsSameShape machine.now.store recorder.old.store }
    ensures next { IfOk result (IsNextOf machine.now cpu) }
    ensures shape { IsSameShape machine.now.store recorder.new.store }
{
    match machine.standing(cpu) {
        Standing::InHand(job, state) => { next_in_hand(alloc, machine, recorder, cpu, job, state) }
        Standing::Waiting(_) => Ok(no_next(alloc, cpu)),
        Standing::Idle => Ok(no_next(alloc, cpu)),
    }
}

/// A copy of bytes.
pub(crate) fn copy_bytes(alloc: Global, bytes: &[u8]) -> Result<Vec<u8>, AllocError>
    ensures { IfOk result (λ v. v.items ≡ bytes.now) }
{
    let mut copy = Vec::with_capacity(alloc, bytes.len())?;
    copy.extend_from_slice(bytes)?;
    Ok(copy)
}

/// Finds what CPUs' next steps touch.
#[derive(Drop)]
pub struct Watcher {
    alloc: Global,
    shape: StoreShape,
    recorder: Recorder,
}

impl Model for Watcher {
    ghost use Rattle.bpf_shared.specs.Shape.{Shape};
    ghost use Rattle.bpf_events.specs.Watched.{IsRecorderOf};

    ghost Value = { Shape };

    ghost view = { λ s. s.shape };

    ghost invariant = { λ s. IsRecorderOf s.shape s.recorder };
}

/// The index of the value of an array at an address, as a key.
fn index_at(alloc: Global, store: &PlainStore, at: u64) -> Result<Option<Vec<u8>>, AllocError>
    ensures some { IfOk result (λ key. IfSome key (λ bytes. IsIndexAt (shape_of store.now) at bytes.items)) }
    ensures none { IfOk result (λ key. IfNone key (¬ IsInArray (shape_of store.now) at 1)) }
{
    let _arrays = store.store_shape().arrays();
    let Some(array) = array_with(store, at, 1) else {
        return Ok(None);
    };
    let offset = (at - FIRST_VALUE - MAP_AREA * FIRST_ARRAY) % MAP_AREA;
    let index = (offset % array.copy_stride() / array.stride()) as u32;
    Ok(Some(copy_bytes(alloc, &index.to_le_bytes())?))
}

impl Watcher {
    ghost use Rattle.std.specs.Prelude.{IfOk, option_map};
    ghost use Rattle.bpf_machine.specs.Machine.{Shows};
    ghost use Rattle.bpf_machine.specs.Schedule.{World};
    ghost use Rattle.bpf_races.specs.Races.{IsKeyAt};
    ghost use Rattle.bpf_races.specs.Private.Searching.{AreNexts, IsNextOf};

    /// For machines over stores of this shape.
    pub fn new(alloc: Global, shape: StoreShape) -> Result<Watcher, AllocError> {
        let copy = copy_shape(alloc, &shape)?;
        let store = PlainStore::new(alloc, copy).map_err(|_| AllocError)?;
        Ok(Watcher {
            alloc,
            shape,
            recorder: Recorder::new(alloc, store),
        })
    }

    /// By what it takes memory.
    pub(crate) fn alloc(&self) -> Global {
        self.alloc
    }

    /// What a CPU's next step touches. A machine over a store of another shape counts as out of
    /// memory.
    pub fn next(&mut self, machine: &Machine, cpu: u8) -> Result<Next, AllocError>
        ensures { IfOk result (IsNextOf machine.now cpu) }
    {
        if !has_shape(machine.store(), &self.shape) {
            return Err(AllocError);
        }
        next_of(self.alloc, machine, &mut self.recorder, cpu)
    }

    /// The key of the value at an address, if it is in its map, or its index in an array.
    pub(crate) fn key_at(&self, machine: &Machine, at: u64) -> Result<Option<Vec<u8>>, AllocError>
        ensures { IfOk result (λ key. (w : World) → Shows machine.now w
            → IsKeyAt w.store at (option_map (λ bytes. bytes.items) key)) }
    {
        match machine.store().key_at(at) {
            Some(key) => Ok(Some(copy_bytes(self.alloc, key)?)),
            None => {
                let index = index_at(self.alloc, machine.store(), at)?;
                Ok(index)
            }
        }
    }

    /// What each CPU's next step touches.
    pub(crate) fn nexts(&mut self, machine: &Machine) -> Result<Vec<Next>, AllocError>
        ensures { IfOk result (λ nexts. AreNexts machine.now nexts.items) }
    {
        machine.stands();
        let mut nexts = Vec::new(self.alloc);
        for cpu in 0..machine.cpus() {
            let next = self.next(machine, cpu)?;
            nexts.push(next)?;
        }
        Ok(nexts)
    }
}
