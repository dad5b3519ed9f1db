//! Accesses to held values: each takes effect at one step on the word that its bytes lie in.
ghost use Rattle.std.specs.Prelude.{◌≡◌, ◌<◌, ◌≤◌};
ghost use Rattle.bpf_base.specs.Bytes.{modulus};
ghost use Rattle.bpf_shared.specs.Access.{bytes_in};
ghost use Rattle.bpf_shared.specs.declared.events.Event.TheVariants.{Load, Store, Atomic};
ghost use Rattle.bpf_shared.specs.declared.events.Size.TheVariants.{Double};
ghost use Rattle.hop_words.specs.Kinds.{AddsEvent};
ghost use Rattle.hop_map.specs.Private.Accesses.{IsHeldAt};

use crate::parts::{number_in, part_at, with_number};
use bpf_shared::bytes::change;
use bpf_shared::{AtomicOp, Size, ValuePlace};
use hop_words::{HopTable, Lane, Operation};
use std::sync::Wait;

/// The number that the bytes read as.
pub(crate) fn load_at(table: &HopTable, lane: &mut Lane, at: ValuePlace, size: Size) -> u64
    requires table { lane.old.table ≡ table.now.id }
    requires held { IsHeldAt table.now.about lane.old.known at.at (bytes_in size) }
    ensures table { lane.new.table ≡ lane.old.table }
    ensures loaded { AddsEvent table.now.about lane.old.known (Load at.at size result)
        lane.new.known }
    ensures small { result < modulus (bytes_in size) }
{
    let part = part_at(table, at, size);
    number_in(lane.load_value(table, part), part.offset, size)
}

/// The eight bytes become the word.
pub(crate) fn store_word_at(table: &HopTable, lane: &mut Lane, at: ValuePlace, word: u64)
    requires table { lane.old.table ≡ table.now.id }
    requires held { IsHeldAt table.now.about lane.old.known at.at 8 }
    ensures table { lane.new.table ≡ lane.old.table }
    ensures stored { AddsEvent table.now.about lane.old.known (Store at.at Double word)
        lane.new.known }
{
    let part = part_at(table, at, Size::Double);
    lane.store_value(table, part, word);
}

/// The bytes become the low ones of the word: by a compare-exchange of the word that they lie in,
/// again and again until nobody else has changed that since it was seen.
pub(crate) fn store_part_at<R: Wait>(
    rt: &R,
    table: &HopTable,
    lane: &mut Lane,
    at: ValuePlace,
    size: Size,
    word: u64,
)
    requires table { lane.old.table ≡ table.now.id }
    requires held { IsHeldAt table.now.about lane.old.known at.at (bytes_in size) }
    ensures table { lane.new.table ≡ lane.old.table }
    ensures stored { AddsEvent table.now.about lane.old.known (Store at.at size word)
        lane.new.known }
{
    let part = part_at(table, at, size);
    let mut old = lane.look_at_value(rt, table, part);
    'tries: for _ in rt.forever() {
        let new = with_number(old, part.offset, size, word);
        let found = lane.exchange_value(table, part, old, new, word);
        if found == old {
            return;
        }
        old = found;
    }
    unreachable!()
}

/// An atomic operation on the eight bytes, and the number that stood there before.
pub(crate) fn change_word_at(
    table: &HopTable,
    lane: &mut Lane,
    at: ValuePlace,
    op: AtomicOp,
    operand: u64,
    expected: u64,
) -> u64
    requires table { lane.old.table ≡ table.now.id }
    requires held { IsHeldAt table.now.about lane.old.known at.at 8 }
    ensures table { lane.new.table ≡ lane.old.table }
    ensures changed { AddsEvent table.now.about lane.old.known
        (Atomic at.at Double op operand expected result) lane.new.known }
{
    let part = part_at(table, at, Size::Double);
    lane.change_value(table, part, op, operand, expected)
}

/// An atomic operation on the bytes, and the number that stood there before: as a part is stored.
pub(crate) fn change_part_at<R: Wait>(
    rt: &R,
    table: &HopTable,
    lane: &mut Lane,
    at: ValuePlace,
    size: Size,
    operation: Operation,
) -> u64
    requires table { lane.old.table ≡ table.now.id }
    requires held { IsHeldAt table.now.about lane.old.known at.at (bytes_in size) }
    requires wide { 4 ≤ bytes_in size }
    ensures table { lane.new.table ≡ lane.old.table }
    ensures changed { AddsEvent table.now.about lane.old.known
        (Atomic at.at size operation.op operation.operand operation.expected result)
        lane.new.known }
    ensures small { result < modulus (bytes_in size) }
{
    let part = part_at(table, at, size);
    let mut old = lane.look_at_value(rt, table, part);
    'tries: for _ in rt.forever() {
        let number = number_in(old, part.offset, size);
        let left = change(
            operation.op,
            size,
            number,
            operation.operand,
            operation.expected,
        );
        let new = with_number(old, part.offset, size, left);
        let found = lane.exchange_value_by(table, part, operation, old, new);
        if found == old {
            return number;
        }
        old = found;
    }
    unreachable!()
}
