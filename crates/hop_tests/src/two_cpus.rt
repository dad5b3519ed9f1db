//! Calls of two CPUs of one store, made by one thread, with answers worked out by hand.
ghost use Rattle.std.specs.Prelude.{◌≡◌, true, false, IfSome};
ghost use Rattle.hop_tests.specs.Trial.{IsIdlePort, IsRunning};

use crate::asking::{Call, Reply, ask_port, is_fitting, is_place};
use crate::stores::{a_map, new_ports, pop_port};
use crate::worked::{put, take};
use bpf_shared::{MapAnswer, Shared, Size, ValuePlace};
use hop_cpu::HopCpu;
use hop_map::HopPort;
use hop_words::HopTable;
use std::alloc::Global;
use std::sync::Wait;
use std::test::Fail;

// What a port is given, and the port.
fn tell<R: Wait>(rt: &R, table: &HopTable, port: HopPort, call: Call) -> Option<(HopPort, Reply)>
    requires running { IsRunning table.now port }
    ensures running { IfSome result (λ r. IsRunning table.now r.0) }
{
    let (port, reply) = ask_port(rt, table, port, call);
    let reply = reply?;
    Some((port, reply))
}

// The answers of two CPUs, of which the first deletes the only element's key in its run.
fn delete_while_another_runs<R: Wait>(
    rt: &R,
    table: &HopTable,
    first: HopPort,
    second: HopPort,
    second_ends_first: bool,
) -> Option<[Reply; 5]>
    requires first { IsIdlePort table.now first }
    requires second { IsIdlePort table.now second }
{
    let (mut first, mut second) = (first, second);
    let add = put(2, 2, 1, MapAnswer::Done).call;
    first.begin(table).ok()?;
    second.begin(table).ok()?;
    let (first, added) = tell(rt, table, first, put(1, 1, 1, MapAnswer::Done).call)?;
    let (first, deleted) = tell(rt, table, first, take(1, MapAnswer::Done).call)?;
    let (first, both_run) = tell(rt, table, first, add)?;
    if second_ends_first {
        second.end(table);
    }
    let (first, first_runs) = tell(rt, table, first, add)?;
    let (first, _begun) = tell(rt, table, first, Call::NextRun)?;
    let (_first, next_run) = tell(rt, table, first, add)?;
    Some([added, deleted, both_run, first_runs, next_run])
}

// What the first of two CPUs is given of a map with one element.
fn told_of_one_element<R: Wait>(
    rt: &R,
    alloc: Global,
    second_ends_first: bool,
) -> Result<Option<[Reply; 5]>, Fail> {
    let (table, mut ports) = new_ports(alloc, 2, a_map(1, 0, 0xffff_ffff))?;
    let Some(second) = pop_port(&table, &mut ports) else {
        return Err(Fail::new("no port"));
    };
    let Some(first) = pop_port(&table, &mut ports) else {
        return Err(Fail::new("no port"));
    };
    Ok(delete_while_another_runs(rt, &table, first, second, second_ends_first))
}

fn answers(next_run: MapAnswer) -> [Reply; 5] {
    [
        Reply::Answer(MapAnswer::Done),
        Reply::Answer(MapAnswer::Done),
        Reply::Answer(MapAnswer::NoMemory),
        Reply::Answer(MapAnswer::NoMemory),
        Reply::Answer(next_run),
    ]
}

#[test]
fn an_element_comes_back_when_both_runs_have_ended(rt: HostRuntime) -> Result<(), Fail> {
    let told = told_of_one_element(&rt, rt.alloc(), true)?;
    assert!(rt; told == Some(answers(MapAnswer::Done)));
    let told = told_of_one_element(&rt, rt.alloc(), false)?;
    assert!(rt; told == Some(answers(MapAnswer::NoMemory)));
    Ok(())
}

// The answers of the first of two CPUs, of which the second stays in the run that it began before:
// an insertion and a replacement in one run, and two replacements in the next, between which the
// second CPU's run ends.
fn replace_while_another_runs<R: Wait>(
    rt: &R,
    table: &HopTable,
    first: HopPort,
    second: HopPort,
) -> Option<[Reply; 4]>
    requires first { IsIdlePort table.now first }
    requires second { IsIdlePort table.now second }
{
    let (mut first, mut second) = (first, second);
    let replace = put(0, 2, 2, MapAnswer::Done).call;
    let Ok(()) = second.begin(table) else {
        return None;
    };
    let Ok(()) = first.begin(table) else {
        return None;
    };
    let (first, inserted) = tell(rt, table, first, put(0, 1, 1, MapAnswer::Done).call)?;
    let (first, replaced) = tell(rt, table, first, replace)?;
    let (first, _begun) = tell(rt, table, first, Call::NextRun)?;
    let (first, beside) = tell(rt, table, first, replace)?;
    second.end(table);
    let (_first, alone) = tell(rt, table, first, replace)?;
    Some([inserted, replaced, beside, alone])
}

#[test]
fn a_cpu_that_stays_in_its_run_keeps_what_others_replace(rt: HostRuntime) -> Result<(), Fail> {
    let (table, mut ports) = new_ports(rt.alloc(), 2, a_map(1, 1, 0xffff_ffff))?;
    let Some(second) = pop_port(&table, &mut ports) else {
        return Err(Fail::new("no port"));
    };
    let Some(first) = pop_port(&table, &mut ports) else {
        return Err(Fail::new("no port"));
    };
    let told = replace_while_another_runs(&rt, &table, first, second);
    let answers = [
        Reply::Answer(MapAnswer::Done),
        Reply::Answer(MapAnswer::Done),
        Reply::Answer(MapAnswer::NoMemory),
        Reply::Answer(MapAnswer::Done),
    ];
    assert!(rt; told == Some(answers));
    Ok(())
}

// What the first of two CPUs reads, which put 7 under the key 0 and looked it up, when the second
// has deleted the key and put 8 under it: at the address that it holds, there again when the
// second's run has ended, and at the address that a lookup answers then.
fn read_what_is_held<S: Shared, T: Shared>(zero: &mut S, one: &mut T) -> Option<[u64; 3]>
    requires serves_zero { S.serves zero.old 0 ≡ true }
    requires idle_zero { S.running zero.old 0 ≡ false }
    requires serves_one { T.serves one.old 1 ≡ true }
    requires idle_one { T.running one.old 1 ≡ false }
{
    if !is_fitting(zero) || !is_fitting(one) {
        return None;
    }
    let key = 0u32.to_le_bytes();
    zero.begin(0).ok()?;
    one.begin(1).ok()?;
    let _put = zero.update(0, 0, &key, &7u64.to_le_bytes(), 1);
    let held = zero.lookup(0, 0, &key)?;
    if !is_place(held, 0, 8) {
        return None;
    }
    let held = ValuePlace { at: held.at };
    let _deleted = one.delete(1, 0, &key);
    let _put = one.update(1, 0, &key, &8u64.to_le_bytes(), 1);
    let beside = zero.value_load(0, held, Size::Double);
    one.end(1);
    let alone = zero.value_load(0, held, Size::Double);
    let found = zero.lookup(0, 0, &key)?;
    if !is_place(found, 0, 8) {
        return None;
    }
    let found = ValuePlace { at: found.at };
    let anew = zero.value_load(0, found, Size::Double);
    Some([beside, alone, anew])
}

#[test]
fn a_held_value_stays_when_another_cpu_puts_its_key_anew(rt: HostRuntime) -> Result<(), Fail> {
    let (table, mut ports) = new_ports(rt.alloc(), 2, a_map(1, 1, 0xffff_ffff))?;
    let Some(second) = pop_port(&table, &mut ports) else {
        return Err(Fail::new("no port"));
    };
    let Some(first) = pop_port(&table, &mut ports) else {
        return Err(Fail::new("no port"));
    };
    if first.cpu() != 0 || second.cpu() != 1 {
        return Err(Fail::new("the ports are others"));
    }
    let mut zero = HopCpu::new(&rt, &table, first);
    let mut one = HopCpu::new(&rt, &table, second);
    assert!(rt; read_what_is_held(&mut zero, &mut one) == Some([7, 7, 8]));
    Ok(())
}
