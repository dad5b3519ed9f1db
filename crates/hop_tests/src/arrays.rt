//! Arrays' values, which two CPUs change at once.
ghost use Rattle.std.specs.Prelude.{All, IfOk};
ghost use Rattle.hop_tests.specs.Trial.{IsIdlePort};

use crate::programs::run_by_threads;
use crate::stores::close;
use crate::texts::COUNT;
use bpf_loader::{Named, load};
use bpf_shared::{ArrayShape, StoreShape};
use bpf_text::assemble;
use hop_map::{HopPort, HopStore};
use hop_words::HopTable;
use std::alloc::Global;
use std::sync::Wait;
use std::test::Fail;
use std::thread::Threads;

// Two values that both CPUs share, of which the first is 7 from the start, and one that each has
// for itself.
fn array_ports(alloc: Global) -> Result<(HopTable, Vec<HopPort>), Fail>
    ensures { IfOk result (λ r. All (IsIdlePort r.0) r.1.items) }
{
    let shared = ArrayShape {
        value: 8,
        max: 2,
        per_cpu: false,
        frozen: false,
    };
    let own = ArrayShape {
        value: 8,
        max: 1,
        per_cpu: true,
        frozen: false,
    };
    let seven = Vec::from_slice(alloc, &7u64.to_le_bytes())?;
    let contents = vec![in alloc; seven, Vec::new(alloc)]?;
    let arrays = vec![in alloc; shared, own]?;
    let shape = StoreShape::new(2, Vec::new(alloc))?.with_arrays(arrays, contents)?;
    Ok(HopStore::new(alloc, shape, 0)?.ports())
}

fn number_of(value: Option<Vec<u8>>) -> Option<u64> {
    let value = value?;
    let bytes: [u8; 8] = value.as_slice().try_into().ok()?;
    Some(u64::from_le_bytes(bytes))
}

// How many of two CPUs' jobs ended with 0, and then the shared values, and each CPU's own.
fn count_in_arrays<R: Threads + Wait + Sync>(
    rt: &R,
    alloc: Global,
) -> Result<(u64, [Option<u64>; 4]), Fail> {
    let (table, ports) = array_ports(alloc)?;
    let named = Named { maps: 0, arrays: 2 };
    let program = load(alloc, assemble(alloc, COUNT)?, named)?;
    let (count, ports) = run_by_threads(rt, alloc, &table, ports, &program, 0)?;
    let closed = close(table, ports)?;
    let values = [
        number_of(closed.fixed(alloc, 0, 0, 0)?),
        number_of(closed.fixed(alloc, 0, 0, 1)?),
        number_of(closed.fixed(alloc, 1, 0, 0)?),
        number_of(closed.fixed(alloc, 1, 1, 0)?),
    ];
    Ok((count, values))
}

#[test]
fn two_cpus_add_to_one_value_and_each_to_its_own(rt: HostRuntime) -> Result<(), Fail> {
    let values = [Some(7), Some(2_000), Some(1_000), Some(1_000)];
    for _ in 0..20u32 {
        assert!(rt; count_in_arrays(&rt, rt.alloc())? == (2, values));
    }
    Ok(())
}
