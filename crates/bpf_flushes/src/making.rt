//! Machines with store buffers before their first move.

ghost use Rattle.std.specs.Prelude.{◌≡◌, IfOk, Ok};
ghost use Rattle.bpf_plain.specs.PlainStore.{IsMade};
ghost use Rattle.bpf_cpu.specs.Setup.{IsRunnable};
ghost use Rattle.bpf_x86.specs.Machine.{drained};
ghost use Rattle.bpf_buffering.specs.Search.{ShowsX86};
ghost use Rattle.bpf_jobs.specs.Printed.{first_of};

use bpf_buffering::Buffering;
use bpf_cpu::Setup;
use bpf_pairs::put_pairs;
use bpf_plain::{PlainStore, copy_shape};
use bpf_shared::StoreShape;
use std::alloc::{AllocError, Global};

/// A new store of this shape. Out of memory is the only refusal.
fn new_store(alloc: Global, shape: StoreShape) -> Result<PlainStore, AllocError>
    ensures { IfOk result (IsMade shape) }
{
    match PlainStore::new(alloc, shape) {
        Ok(store) => Ok(store),
        Err(_) => Err(AllocError),
    }
}

/// A machine over a new store whose maps have their pairs. Its jobs all wait, and no store does. Out
/// of memory is the only refusal.
pub fn make_buffering(alloc: Global, setup: Setup) -> Result<Buffering, AllocError>
    requires { IsRunnable setup }
    ensures { IfOk result (λ m. ShowsX86 m (drained (first_of setup))) }
{
    let Setup {
        shape,
        pairs,
        programs,
        jobs,
    } = setup;
    // The call says that the shape is in range, and so that a store as made is sound.
    let _ = shape.cpus();
    let seen = new_store(alloc, copy_shape(alloc, &shape)?)?;
    let mut store = new_store(alloc, shape)?;
    // Each is done, as the setup's pairs are.
    if !put_pairs(&mut store, 0, &pairs) {
        return Err(AllocError);
    }
    let machine = Buffering::new(alloc, store, seen, programs, jobs)?;
    Ok(machine)
}
