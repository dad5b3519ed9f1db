//! Accesses to values, by their addresses: those of fixed values follow those of held ones.
ghost use Rattle.std.specs.Prelude.{◌≡◌, ◌<◌, ◌≤◌};
ghost use Rattle.bpf_base.specs.Bytes.{modulus};
ghost use Rattle.bpf_shared.specs.Access.{bytes_in};
ghost use Rattle.bpf_shared.specs.declared.events.Event.TheVariants.{Load, Store, Atomic};
ghost use Rattle.bpf_shared.specs.declared.events.Size.TheVariants.{Double};
ghost use Rattle.hop_words.specs.Kinds.{AddsEvent};
ghost use Rattle.hop_map.specs.Private.Accesses.{MayLoadAt, MayChangeAt};

use crate::accessing::{change_part_at, change_word_at, load_at, store_part_at, store_word_at};
use crate::fixed::{
    change_fixed_part, change_fixed_word, load_fixed, store_fixed_part, store_fixed_word,
};
use bpf_shared::{AtomicOp, FIRST_ARRAY, MAP_AREA, Size, ValuePlace};
use hop_words::{HopTable, Lane, Operation};
use std::sync::Wait;

/// How many bytes the areas of all maps have together. Those of all arrays, which follow them, have
/// as many, and the first area begins at a multiple of twice this number: so one bit of an address
/// says whether its value is held or fixed.
const HALF: u64 = MAP_AREA * FIRST_ARRAY;

/// The number that the bytes read as.
#[inline(always)]
pub(crate) fn load(table: &HopTable, lane: &mut Lane, at: ValuePlace, size: Size) -> u64
    requires table { lane.old.table ≡ table.now.id }
    requires place { MayLoadAt table.now.about lane.old.known at.at (bytes_in size) }
    ensures table { lane.new.table ≡ lane.old.table }
    ensures loaded { AddsEvent table.now.about lane.old.known (Load at.at size result)
        lane.new.known }
    ensures small { result < modulus (bytes_in size) }
{
    let _cpus = table.about().shape.cpus();
    if at.at / HALF % 2 == 0 {
        load_at(table, lane, at, size)
    } else {
        load_fixed(table, lane, at, size)
    }
}

/// The eight bytes become the word.
#[inline(always)]
pub(crate) fn store_word(table: &HopTable, lane: &mut Lane, at: ValuePlace, word: u64)
    requires table { lane.old.table ≡ table.now.id }
    requires place { MayChangeAt table.now.about lane.old.known at.at 8 }
    ensures table { lane.new.table ≡ lane.old.table }
    ensures stored { AddsEvent table.now.about lane.old.known (Store at.at Double word)
        lane.new.known }
{
    let _cpus = table.about().shape.cpus();
    if at.at / HALF % 2 == 0 {
        store_word_at(table, lane, at, word);
    } else {
        store_fixed_word(table, lane, at, word);
    }
}

/// The bytes become the low ones of the word.
#[inline(always)]
pub(crate) fn store_part<R: Wait>(
    rt: &R,
    table: &HopTable,
    lane: &mut Lane,
    at: ValuePlace,
    size: Size,
    word: u64,
)
    requires table { lane.old.table ≡ table.now.id }
    requires place { MayChangeAt table.now.about lane.old.known at.at (bytes_in size) }
    ensures table { lane.new.table ≡ lane.old.table }
    ensures stored { AddsEvent table.now.about lane.old.known (Store at.at size word)
        lane.new.known }
{
    let _cpus = table.about().shape.cpus();
    if at.at / HALF % 2 == 0 {
        store_part_at(rt, table, lane, at, size, word);
    } else {
        store_fixed_part(rt, table, lane, at, size, word);
    }
}

/// An atomic operation on the eight bytes, and the number that stood there before.
#[inline(always)]
pub(crate) fn change_word(
    table: &HopTable,
    lane: &mut Lane,
    at: ValuePlace,
    op: AtomicOp,
    operand: u64,
    expected: u64,
) -> u64
    requires table { lane.old.table ≡ table.now.id }
    requires place { MayChangeAt table.now.about lane.old.known at.at 8 }
    ensures table { lane.new.table ≡ lane.old.table }
    ensures changed { AddsEvent table.now.about lane.old.known
        (Atomic at.at Double op operand expected result) lane.new.known }
{
    let _cpus = table.about().shape.cpus();
    if at.at / HALF % 2 == 0 {
        change_word_at(table, lane, at, op, operand, expected)
    } else {
        change_fixed_word(table, lane, at, op, operand, expected)
    }
}

/// An atomic operation on the bytes, and the number that stood there before.
#[inline(always)]
pub(crate) fn change_part<R: Wait>(
    rt: &R,
    table: &HopTable,
    lane: &mut Lane,
    at: ValuePlace,
    size: Size,
    operation: Operation,
) -> u64
    requires table { lane.old.table ≡ table.now.id }
    requires place { MayChangeAt table.now.about lane.old.known at.at (bytes_in size) }
    requires wide { 4 ≤ bytes_in size }
    ensures table { lane.new.table ≡ lane.old.table }
    ensures changed { AddsEvent table.now.about lane.old.known
        (Atomic at.at size operation.op operation.operand operation.expected result)
        lane.new.known }
    ensures small { result < modulus (bytes_in size) }
{
    let _cpus = table.about().shape.cpus();
    if at.at / HALF % 2 == 0 {
        change_part_at(rt, table, lane, at, size, operation)
    } else {
        change_fixed_part(rt, table, lane, at, size, operation)
    }
}
