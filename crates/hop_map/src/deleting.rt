//! A whole deletion by one CPU.
ghost use Rattle.std.specs.Prelude.{ℕ, ◌≡◌, ◌<◌, true, [], length};
ghost use Rattle.bpf_shared.specs.Shape.{IsKeyOf};
ghost use Rattle.bpf_shared.specs.History.{events_of};
ghost use Rattle.bpf_shared.specs.declared.events.Event.TheVariants.{Delete};
ghost use Rattle.hop_words.specs.Ghost.{shape_at};
ghost use Rattle.bpf_shared.specs.Own.{in_run};
ghost use Rattle.hop_map.specs.Finding.{OwnsKey};
ghost use Rattle.hop_map.specs.Private.Locks.{with_lock};
ghost use Rattle.hop_map.specs.Noting.{BusyFirst, CallNotes};
ghost use Rattle.hop_map.specs.Private.Removals.{NamesKeyOf, DeleteEnds, answer_to};
ghost use Rattle.hop_map.specs.Call.{IsBetweenCalls, IsOneCall, IsShortage, AreBatchesOf};

use crate::dropping::{Deletion, delete_key};
use crate::homing::homing;
use crate::locked::{KeyLock, LockedWords};
use crate::waiting::lock_home;
use bpf_shared::MapAnswer;
use hop_epoch::{Batches, Used};
use hop_words::{HopTable, Lane};
use std::sync::Wait;

/// A deletion, as a CPU calls it: by what it waits, the store's table, the map's number, and the key.
#[derive(Drop)]
pub struct DeleteCall<'a, R: Wait> {
    pub rt: &'a R,
    pub table: &'a HopTable,
    pub map: u8,
    pub key: &'a [u8],
}

// Locks the key's segment, and takes out the key, if the segment has it.
fn lock_and_delete<R: Wait>(
    call: &DeleteCall<'_, R>,
    lane: Lane,
    expected: &mut u64,
) -> (Lane, Deletion)
    requires table { lane.table ≡ call.now.table.now.id }
    requires map { call.now.map < length call.now.table.now.about.shape.maps }
    requires names { NamesKeyOf call.now.table.now.about lane.known call.now.map call.now.key.now }
    requires empty { lane.known.fresh ≡ [] }
    requires idle { lane.known.locks ≡ [] }
    ensures table { result.0.table ≡ call.now.table.now.id }
    ensures ends { (s : ℕ) × (n : ℕ) × OwnsKey call.now.table.now.about call.now.map
        call.now.key.now s n
        × DeleteEnds call.now.table.now.about (with_lock lane.known call.now.map s n) call.now.map
        call.now.key.now result.1
        result.0.known × BusyFirst n (answer_to result.1) }
{
    let DeleteCall {
        rt,
        table,
        map,
        key,
    } = *call;
    let mut lane = lane;
    let at = homing(table, map, key);
    let taken = lock_home(rt, table, &mut lane, map, at.home);
    let words = LockedWords::new(table, lane, map, taken.segment, at.key_size, at.elements);
    let lock = KeyLock {
        home: at.home,
        stamp: taken.stamp,
    };
    delete_key(words, expected, lock, key)
}

/// The key is to leave the map (bpf-helpers(7)). Its element goes to the CPU's young batch, since a
/// CPU in a run may still hold its value. The key count that is left is what this CPU's next
/// insertion expects.
pub fn delete<R: Wait>(
    call: &DeleteCall<'_, R>,
    lane: Lane,
    expected: &mut u64,
    batches: &mut Batches,
) -> (Lane, MapAnswer)
    requires table { lane.table ≡ call.now.table.now.id }
    requires batches { AreBatchesOf call.now.table.now.about lane.known call.now.map batches.old }
    requires rests { IsBetweenCalls lane.known call.now.map }
    requires runs { in_run (events_of lane.known.cpu lane.known.seen) ≡ true }
    requires key { IsKeyOf call.now.table.now.about.shape.maps call.now.map call.now.key.now }
    ensures table { result.0.table ≡ call.now.table.now.id }
    ensures called { IsOneCall call.now.table.now.about lane.known call.now.map
        (Delete call.now.map call.now.key.now result.1) result.0.known }
    ensures lacks { IsShortage call.now.table.now.about lane.known call.now.map result.1
        result.0.known }
    ensures noted { CallNotes call.now.table.now.about (Delete call.now.map call.now.key.now
        result.1)
        lane.known result.0.known }
    ensures batches { AreBatchesOf call.now.table.now.about result.0.known call.now.map
        batches.new }
{
    let DeleteCall { table, map, .. } = *call;
    let (mut lane, deletion) = lock_and_delete(call, lane, expected);
    match deletion {
        Deletion::Gone(old) => {
            let used = Used::new(&lane, map, old);
            batches.retire(&mut lane, table, used);
            (lane, MapAnswer::Done)
        }
        Deletion::Missing => (lane, MapAnswer::Absent),
        Deletion::Worn => (lane, MapAnswer::Busy),
    }
}
