//! What is kept of a machine before its first turn, so that it can be made again.

ghost use Rattle.std.specs.Prelude.{◌≡◌, ◌<◌, All, IfOk, length};
ghost use Rattle.bpf_machine.specs.Parts.{chosen};
ghost use Rattle.bpf_debug.specs.Origin.{IsOfShape};

use bpf_machine::{KeptJob, Machine};
use bpf_plain::PlainStore;
use bpf_shared::StoreShape;
use std::alloc::{AllocError, Global};
use std::marker::Model;

/// A machine's store, its jobs as they stood, and their numbers.
#[derive(Drop)]
pub struct Origin {
    store: PlainStore,
    jobs: Vec<KeptJob>,
    /// 0, 1 and so on: a machine is made again of jobs that have these numbers.
    numbers: Vec<u32>,
}

impl Model for Origin {
    ghost use Rattle.bpf_debug.specs.Origin.{OriginState};

    ghost Value = { OriginState };

    ghost view = { λ o. record {
      store = o.store;
      jobs = o.jobs.items;
      numbers = o.numbers.items;
    } };
}

/// The number in 32 bits. One that is greater counts as out of memory.
fn number_of(count: usize) -> Result<u32, AllocError>
    ensures { IfOk result (λ n. n ≡ count) }
{
    u32::try_from(count).map_err(|_| AllocError)
}

/// The jobs of a machine as they are, and their numbers.
fn keep_jobs(alloc: Global, machine: &Machine) -> Result<(Vec<KeptJob>, Vec<u32>), AllocError>
    ensures within { IfOk result (λ r. All (λ n. n < length r.0.items) r.1.items) }
    ensures jobs { IfOk result (λ r. chosen r.0.items r.1.items ≡ machine.now.jobs) }
{
    let mut jobs = Vec::with_capacity(alloc, machine.jobs())?;
    let mut numbers = Vec::with_capacity(alloc, machine.jobs())?;
    for job in 0..machine.jobs() {
        let number = number_of(job)?;
        numbers.push(number)?;
        jobs.push(machine.kept_job(alloc, job)?)?;
    }
    Ok((jobs, numbers))
}

/// A copy of a store of this shape.
fn copy_store(
    alloc: Global,
    shape: StoreShape,
    store: &PlainStore,
) -> Result<PlainStore, AllocError>
    requires { IsOfShape shape store.now }
    ensures { IfOk result (λ copy. copy ≡ store.now) }
{
    let mut copy = PlainStore::new(alloc, shape).map_err(|_| AllocError)?;
    copy.copy_from(store);
    Ok(copy)
}

impl Origin {
    ghost use Rattle.std.specs.Prelude.{◌≡◌, IfOk, OnOk, OnErr, None};
    ghost use Rattle.bpf_machine.specs.Machine.{Shows};
    ghost use Rattle.bpf_machine.specs.Schedule.{World};
    ghost use Rattle.bpf_debug.specs.Origin.{CanRewind, IsOfShape, first_of};

    /// What is kept of a machine as it is, whose store has this shape.
    pub fn new(alloc: Global, shape: StoreShape, machine: &Machine) -> Result<Origin, AllocError>
        requires shown { (w : World) × Shows machine.now w }
        requires shape { IsOfShape shape machine.now.store }
        requires lists { machine.now.lists ≡ None }
        ensures first { IfOk result (λ o. first_of o machine.now.programs ≡ machine.now) }
        ensures can { IfOk result (λ o. CanRewind o machine.now) }
    {
        machine.stands();
        let store = copy_store(alloc, shape, machine.store())?;
        let (jobs, numbers) = keep_jobs(alloc, machine)?;
        Ok(Origin {
            store,
            jobs,
            numbers,
        })
    }

    /// Makes a machine what it was. Unchanged where there is no memory.
    pub fn rewind(&self, alloc: Global, machine: &mut Machine) -> Result<(), AllocError>
        requires { CanRewind self.now machine.old }
        ensures ok { OnOk result (machine.new ≡ first_of self.now machine.old.programs) }
        ensures err { OnErr result (machine.new ≡ machine.old) }
    {
        machine.restore(alloc, &self.store, &self.jobs, &self.numbers)
    }
}
