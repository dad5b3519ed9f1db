//! What kept states are made of: each store, each job and each list of buffers once.

ghost use Rattle.std.specs.Prelude.{◌≡◌, [], IfSome, IfOk, Some, slice_get};
ghost use Rattle.bpf_buffering.specs.Private.Kept.{AddsTo, IsPooled};

pub(crate) mod buffers;
pub(crate) mod jobs;
pub(crate) mod stores;

use crate::buffering::Buffering;
use crate::pools::buffers::Buffers;
use crate::pools::jobs::Jobs;
use crate::pools::stores::Stores;
use crate::states::Kept;
use std::alloc::{AllocError, Global};

/// The number in 32 bits. One that is greater counts as out of memory.
fn number_of(count: usize) -> Result<u32, AllocError>
    ensures { IfOk result (λ n. n ≡ count) }
{
    u32::try_from(count).map_err(|_| AllocError)
}

/// Stores, jobs and lists of buffers, each under its number. What is there stays.
#[derive(Drop)]
pub(crate) struct Pools {
    pub stores: Stores,
    pub jobs: Jobs,
    pub buffers: Buffers,
}

impl Pools {
    /// Nothing is there.
    pub(crate) fn new(alloc: Global) -> Pools
        ensures { result ≡ record { stores = []; jobs = []; buffers = [] } }
    {
        Pools {
            stores: Stores::new(alloc),
            jobs: Jobs::new(alloc),
            buffers: Buffers::new(alloc),
        }
    }

    /// The number of the machine's store, which may be known. Where it isn't, one more is kept.
    fn number_store(
        &mut self,
        alloc: Global,
        machine: &Buffering,
        known: Option<u32>,
    ) -> Result<u32, AllocError>
        requires { IfSome known (λ n. slice_get self.old.stores n
            ≡ Some machine.now.machine.store) }
        ensures at { IfOk result (λ n. slice_get self.new.stores n
            ≡ Some machine.now.machine.store) }
        ensures adds { AddsTo machine.now.machine.store self.old self.new }
    {
        match known {
            Some(number) => Ok(number),
            None => self.stores.keep_anew(alloc, machine.store()),
        }
    }

    /// The numbers of the machine as it is. That of its store may be known.
    pub(crate) fn number(
        &mut self,
        alloc: Global,
        machine: &Buffering,
        known: Option<u32>,
    ) -> Result<Kept, AllocError>
        requires { IfSome known (λ n. slice_get self.old.stores n
            ≡ Some machine.now.machine.store) }
        ensures pooled { IfOk result (IsPooled self.new machine.now) }
        ensures adds { AddsTo machine.now.machine.store self.old self.new }
    {
        let store = self.number_store(alloc, machine, known)?;
        let jobs = self.jobs.keep_all(alloc, machine.listed())?;
        let buffers = self.buffers.keep(alloc, machine.waiting())?;
        Ok(Kept {
            store,
            buffers,
            jobs,
        })
    }

    /// About how many bytes of memory they take.
    pub(crate) fn bytes(&self) -> usize {
        let jobs = self.jobs.bytes();
        let stores = self.stores.bytes();
        self.buffers
            .bytes()
            .saturating_add(jobs)
            .saturating_add(stores)
    }
}
