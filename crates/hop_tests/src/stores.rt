//! New stores of one map, their ports, and what is left when all ports are back.
ghost use Rattle.std.specs.Prelude.{◌≡◌, ◌<◌, ◌%◌, ◌^◌, All, IfOk, IfSome, IsTrue, OnOk};
ghost use Rattle.hop_map.specs.Port.{IsPortOf, IsAllOf};
ghost use Rattle.hop_tests.specs.Trial.{IsIdlePort};

use bpf_shared::{MapShape, StoreShape};
use hop_map::{Closed, HopPort, HopStore, gather};
use hop_words::HopTable;
use std::alloc::{AllocError, Global};
use std::test::Fail;

/// A map with keys of four bytes and values of eight.
pub(crate) fn a_map(max: u64, spare: u64, mask: u32) -> MapShape {
    MapShape {
        key: 4,
        value: 8,
        max,
        spare,
        mask,
        grow: false,
    }
}

/// A store for n CPUs, with this map.
pub(crate) fn a_shape(alloc: Global, cpus: u64, map: MapShape) -> Result<StoreShape, Fail> {
    Ok(StoreShape::new(cpus, vec![in alloc; map]?)?)
}

/// The ports of a store whose segments have this version, and whose run counters this count.
pub(crate) fn aged_ports(
    alloc: Global,
    cpus: u64,
    map: MapShape,
    version: u64,
    count: u64,
) -> Result<(HopTable, Vec<HopPort>), Fail>
    requires version { version < 2 ^ 56 }
    requires even { count % 2 ≡ 0 }
    ensures { IfOk result (λ r. All (IsIdlePort r.0) r.1.items) }
{
    let shape = a_shape(alloc, cpus, map)?;
    Ok(HopStore::aged(alloc, shape, 0, version, count)?.ports())
}

/// The ports of a new store.
pub(crate) fn new_ports(
    alloc: Global,
    cpus: u64,
    map: MapShape,
) -> Result<(HopTable, Vec<HopPort>), Fail>
    ensures { IfOk result (λ r. All (IsIdlePort r.0) r.1.items) }
{
    aged_ports(alloc, cpus, map, 0, 0)
}

/// The last port.
pub(crate) fn pop_port(table: &HopTable, ports: &mut Vec<HopPort>) -> Option<HopPort>
    requires idle { All (IsIdlePort table.now) ports.old.items }
    ensures port { IfSome result (IsIdlePort table.now) }
    ensures idle { All (IsIdlePort table.now) ports.new.items }
{
    let _table = table;
    ports.pop()
}

/// A port goes after the others.
pub(crate) fn push_port(
    table: &HopTable,
    ports: &mut Vec<HopPort>,
    port: HopPort,
) -> Result<(), AllocError>
    requires idle { All (IsIdlePort table.now) ports.old.items }
    requires port { IsIdlePort table.now port }
    ensures idle { OnOk result (All (IsIdlePort table.now) ports.new.items) }
{
    let _table = table;
    ports.push(port)?;
    Ok(())
}

// Whether these are the ports of all CPUs, the lowest first.
fn in_order(table: &HopTable, ports: &[HopPort]) -> bool
    requires fit { All (IsPortOf table.now) ports.now }
    ensures { IsTrue result → IsAllOf table.now ports.now }
{
    let cpus = usize::from(table.about().shape.cpus());
    if ports.len() != cpus {
        return false;
    }
    'ports: for place in 0..cpus {
        if usize::from(ports[place].cpu()) != place {
            return false;
        }
    }
    true
}

/// What is left of the store.
pub(crate) fn close(table: HopTable, ports: Vec<HopPort>) -> Result<Closed, Fail>
    requires fit { All (IsPortOf table) ports.items }
{
    if !in_order(&table, &ports) {
        return Err(Fail::new("a port is missing"));
    }
    Ok(gather(table, ports))
}

/// A key's value among the pairs of a map.
pub(crate) fn last_of(pairs: &[(Vec<u8>, Vec<u8>)], key: u32) -> Option<u64> {
    for pair in pairs {
        if pair.0.as_slice() == key.to_le_bytes().as_slice() {
            let bytes: [u8; 8] = pair.1.as_slice().try_into().ok()?;
            return Some(u64::from_le_bytes(bytes));
        }
    }
    None
}
