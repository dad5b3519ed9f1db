//! What states are read into.

ghost use Rattle.std.specs.Prelude.{◌≡◌, List, IfNone, IfOk, IfSome, map};
ghost use Rattle.bpf_loader.specs.Loaded.{Loaded};
ghost use Rattle.bpf_explore.specs.Stores.{IsOfShape};
ghost use Rattle.bpf_buffering.specs.Jobs.{tasks_of};
ghost use Rattle.bpf_buffer_expand.specs.State.{IsNoState};
ghost use Rattle.bpf_buffer_expand.specs.Private.Room.{host_with, AreRead, IsRead, IsRoom};

use crate::buffers::read_buffers;
use crate::fits::fit_all;
use crate::jobs::{count_up, cpus_of, keep_jobs, list_jobs};
use bpf_buffering::{Listed, Stored};
use bpf_loader::Program;
use bpf_machine::{KeptJob, can_stand, read_jobs};
use bpf_plain::{PlainStore, copy_shape};
use bpf_shared::StoreShape;
use std::alloc::{AllocError, Global};

/// A store of this shape.
fn make_room(alloc: Global, shape: &StoreShape) -> Result<PlainStore, AllocError>
    ensures { IfOk result (λ store. IsOfShape shape.now store) }
{
    let shape = copy_shape(alloc, shape)?;
    PlainStore::new(alloc, shape).map_err(|_| AllocError)
}

/// The jobs of a state, and by CPU the stores that wait.
#[derive(Drop)]
pub(crate) struct Parts {
    pub jobs: Vec<Listed>,
    pub buffers: Vec<Vec<Stored>>,
}

/// Room for a state of a host.
#[derive(Drop)]
pub(crate) struct Room {
    /// The jobs of the first machine.
    pub first: Vec<KeptJob>,
    /// Their CPUs.
    pub cpus: Vec<u8>,
    /// Their numbers.
    pub numbers: Vec<u32>,
    /// The jobs of the state that was read last. They are read in place, so where none was read
    /// they may be any.
    pub jobs: Vec<KeptJob>,
    /// Its store; where none was read, one of the same shape.
    pub store: PlainStore,
}

impl Room {
    /// For a host of this shape with these jobs.
    pub(crate) fn new(
        alloc: Global,
        shape: &StoreShape,
        jobs: &[Listed],
    ) -> Result<Room, AllocError>
        ensures room { IfOk result (IsRoom shape.now) }
        ensures first { IfOk result (λ r. r.first.items ≡ tasks_of jobs.now) }
    {
        let first = keep_jobs(alloc, jobs)?;
        let cpus = cpus_of(alloc, jobs)?;
        let numbers = count_up(alloc, jobs.len())?;
        let room = keep_jobs(alloc, jobs)?;
        let store = make_room(alloc, shape)?;
        Ok(Room {
            first,
            cpus,
            numbers,
            jobs: room,
            store,
        })
    }

    /// Reads the parts of a state, which the bytes are; whether they fit each other is not asked.
    fn read_parts(
        &mut self,
        alloc: Global,
        shape: &StoreShape,
        bytes: &[u8],
    ) -> Result<Option<Vec<Vec<Stored>>>, AllocError>
        requires { IsRoom shape.now self.old }
        ensures some { IfOk result (λ o. IfSome o (λ buffers. AreRead shape.now
            self.old.first.items self.new.jobs.items (map (λ b. b.items) buffers.items)
            self.new.store bytes.now)) }
        ensures none { IfOk result (λ o. IfNone o ((programs : List Loaded)
            → IsNoState (host_with shape.now programs self.old.first.items) bytes.now)) }
        ensures room { IsRoom shape.now self.new }
        ensures first { self.new.first.items ≡ self.old.first.items }
    {
        let Some(rest) = read_jobs(alloc, &self.first, &mut self.jobs, bytes)? else {
            return Ok(None);
        };
        let Some((buffers, last)) = read_buffers(alloc, shape.cpus(), rest)? else {
            return Ok(None);
        };
        let Some(count) = self.store.read(alloc, last)? else {
            return Ok(None);
        };
        if count < last.len() {
            return Ok(None);
        }
        Ok(Some(buffers))
    }

    /// The parts of a state, which the bytes are, if they are those of one of a machine with these
    /// programs.
    pub(crate) fn read(
        &mut self,
        alloc: Global,
        shape: &StoreShape,
        programs: &[Program],
        bytes: &[u8],
    ) -> Result<Option<Parts>, AllocError>
        requires { IsRoom shape.now self.old }
        ensures some { IfOk result (λ o. IfSome o (λ parts. IsRead shape.now programs.now
            self.old.first.items (tasks_of parts.jobs.items)
            (map (λ b. b.items) parts.buffers.items) self.new.store bytes.now)) }
        ensures none { IfOk result (λ o. IfNone o
            (IsNoState (host_with shape.now programs.now self.old.first.items) bytes.now)) }
        ensures room { IsRoom shape.now self.new }
        ensures first { self.new.first.items ≡ self.old.first.items }
    {
        let Some(buffers) = self.read_parts(alloc, shape, bytes)? else {
            return Ok(None);
        };
        if !can_stand(&self.store, programs, &self.jobs, &self.numbers) {
            return Ok(None);
        }
        let jobs = list_jobs(alloc, &self.cpus, &self.jobs)?;
        if !fit_all(shape, &jobs, &buffers) {
            return Ok(None);
        }
        Ok(Some(Parts { jobs, buffers }))
    }
}
