//! Calls of a map with keys of four bytes and values of eight, and their replies.
ghost use Rattle.std.specs.Prelude.{◌≡◌, ◌+◌, ◌<◌, ◌%◌, true, List, IsTrue, OnSome};
ghost use Rattle.bpf_shared.specs.Shape.{Covers, IsValueSpan};
ghost use Rattle.bpf_shared.specs.declared.events.Entry.{Entry};
ghost use Rattle.hop_map.specs.Port.{IsPortOf};
ghost use Rattle.hop_tests.specs.Trial.{HasSizes, IsRunning};

use bpf_shared::{AtomicOp, MapAnswer, Shared, Size, Span, ValuePlace};
use hop_cpu::HopCpu;
use hop_map::{HopPort, Once};
use hop_words::HopTable;
use std::sync::Wait;

#[derive(Clone, Copy, PartialEq, Eq, Debug)]
pub(crate) enum Call {
    Update { key: u32, value: u64, flags: u64 },
    Delete { key: u32 },
    /// The value is looked up, and its eight bytes are loaded.
    Find { key: u32 },
    /// The value is looked up, and a byte of it stored.
    StoreByte { key: u32, place: u64, byte: u64 },
    /// The value is looked up, and 1 is added to four bytes of it.
    AddOne { key: u32, place: u64 },
    /// The run ends, and another begins.
    NextRun,
}

impl Call {
    /// The key that is asked for.
    pub(crate) fn key(self) -> Option<u32> {
        match self {
            Call::Update {
                key,
                value: _,
                flags: _,
            }
            | Call::Delete { key }
            | Call::Find { key }
            | Call::StoreByte {
                key,
                place: _,
                byte: _,
            }
            | Call::AddOne { key, place: _ } => Some(key),
            Call::NextRun => None,
        }
    }
}

#[derive(Clone, Copy, PartialEq, Eq, Debug)]
pub(crate) enum Reply {
    Answer(MapAnswer),
    /// The number that was found there; none where the key has no value.
    Value(Option<u64>),
    /// Another run has begun.
    Begun,
    /// The map has other sizes, or the value no such place.
    Misasked,
}

/// Whether the first map has the sizes of the calls.
pub(crate) fn is_fitting<S: Shared>(shared: &S) -> bool
    ensures { IsTrue result → HasSizes (S.shapes shared.now).maps }
{
    match shared.shape(0) {
        Some(shape) => shape.key == 4 && shape.value == 8,
        None => false,
    }
}

// What is done with a value that was looked up.
#[derive(Clone, Copy)]
enum Access {
    Load,
    StoreByte { byte: u64 },
    AddOne,
}

/// Whether n bytes lie at a place in a value, which is a multiple of their number.
pub(crate) fn is_place(span: Span, place: u64, bytes: u64) -> bool
    requires some { 0 < bytes }
    requires in_range { IsValueSpan span }
    ensures { IsTrue result → Covers span (span.at + place) bytes
        × ((span.at + place) % bytes ≡ 0) }
{
    bytes <= span.size && place <= span.size - bytes && (span.at + place) % bytes == 0
}

// Makes an access at a place in a value that the CPU holds.
fn touch<S: Shared>(shared: &mut S, cpu: u8, span: Span, place: u64, access: Access) -> Reply
    requires serves { S.serves shared.old cpu ≡ true }
    requires in_run { S.running shared.old cpu ≡ true }
    requires held { S.held shared.old cpu span ≡ true }
    requires in_range { IsValueSpan span }
    ensures passes { (log : List Entry) × S.passes shared.old shared.new log }
    ensures serves { S.serves shared.new cpu ≡ true }
    ensures in_run { S.running shared.new cpu ≡ true }
{
    match access {
        Access::Load if is_place(span, place, 8) => {
            let at = ValuePlace {
                at: span.at + place,
            };
            Reply::Value(Some(shared.value_load(cpu, at, Size::Double)))
        }
        Access::StoreByte { byte } if is_place(span, place, 1) => {
            let at = ValuePlace {
                at: span.at + place,
            };
            shared.value_store(cpu, at, Size::Byte, byte);
            Reply::Value(Some(byte))
        }
        Access::AddOne if is_place(span, place, 4) => {
            let at = ValuePlace {
                at: span.at + place,
            };
            let found = shared.value_atomic(cpu, at, Size::Word, AtomicOp::Add, 1, 0);
            Reply::Value(Some(found))
        }
        _ => Reply::Misasked,
    }
}

// Looks a key up, and makes an access at a place in its value.
fn find_and_touch<S: Shared>(shared: &mut S, cpu: u8, key: u32, place: u64, access: Access) -> Reply
    requires serves { S.serves shared.old cpu ≡ true }
    requires in_run { S.running shared.old cpu ≡ true }
    requires sizes { HasSizes (S.shapes shared.old).maps }
    ensures passes { (log : List Entry) × S.passes shared.old shared.new log }
    ensures serves { S.serves shared.new cpu ≡ true }
    ensures in_run { S.running shared.new cpu ≡ true }
{
    match shared.lookup(cpu, 0, &key.to_le_bytes()) {
        Some(span) => touch(shared, cpu, span, place, access),
        None => Reply::Value(None),
    }
}

// Ends the run, and begins another, unless the run counter is used up.
fn begin_next<S: Shared>(shared: &mut S, cpu: u8) -> Option<Reply>
    requires serves { S.serves shared.old cpu ≡ true }
    requires in_run { S.running shared.old cpu ≡ true }
    ensures passes { (log : List Entry) × S.passes shared.old shared.new log }
    ensures serves { S.serves shared.new cpu ≡ true }
    ensures in_run { OnSome result (S.running shared.new cpu ≡ true) }
{
    shared.end(cpu);
    match shared.begin(cpu) {
        Ok(()) => Some(Reply::Begun),
        Err(_) => None,
    }
}

/// Makes a call; none where the run counter is used up.
pub(crate) fn ask<S: Shared>(shared: &mut S, cpu: u8, call: Call) -> Option<Reply>
    requires serves { S.serves shared.old cpu ≡ true }
    requires in_run { S.running shared.old cpu ≡ true }
    ensures passes { (log : List Entry) × S.passes shared.old shared.new log }
    ensures serves { S.serves shared.new cpu ≡ true }
    ensures in_run { OnSome result (S.running shared.new cpu ≡ true) }
{
    if !is_fitting(shared) {
        return Some(Reply::Misasked);
    }
    match call {
        Call::Update { key, value, flags } => {
            let (key, value) = (key.to_le_bytes(), value.to_le_bytes());
            Some(Reply::Answer(shared.update(cpu, 0, &key, &value, flags)))
        }
        Call::Delete { key } => Some(Reply::Answer(shared.delete(cpu, 0, &key.to_le_bytes()))),
        Call::Find { key } => Some(find_and_touch(shared, cpu, key, 0, Access::Load)),
        Call::StoreByte { key, place, byte } => {
            let access = Access::StoreByte { byte };
            Some(find_and_touch(shared, cpu, key, place, access))
        }
        Call::AddOne { key, place } => {
            Some(find_and_touch(shared, cpu, key, place, Access::AddOne))
        }
        Call::NextRun => begin_next(shared, cpu),
    }
}

/// Makes a call of a port.
pub(crate) fn ask_port<R: Wait>(
    rt: &R,
    table: &HopTable,
    port: HopPort,
    call: Call,
) -> (HopPort, Option<Reply>)
    requires running { IsRunning table.now port }
    ensures fits { IsPortOf table.now result.0 }
    ensures running { OnSome result.1 (IsRunning table.now result.0) }
{
    let cpu = port.cpu();
    let mut shared = HopCpu::new(rt, table, port);
    let reply = ask(&mut shared, cpu, call);
    (shared.into_port(), reply)
}

/// Whether all three ways to look a key up find the same, where nobody else calls the store.
pub(crate) fn lookups_agree<R: Wait>(rt: &R, table: &HopTable, port: &mut HopPort, key: u32) -> bool
    requires running { IsRunning table.now port.old }
    ensures running { IsRunning table.now port.new }
{
    let Some(shape) = port.shape(table, 0) else {
        return false;
    };
    if shape.key != 4 {
        return false;
    }
    let key = key.to_le_bytes();
    let once = match port.find_once(table, 0, &key) {
        Once::Found(span) => Some(span),
        Once::Absent => None,
        Once::Disturbed(_, _) => return false,
    };
    let found = port.lookup(rt, table, 0, &key);
    once == found && port.find_locked(rt, table, 0, &key) == found
}
