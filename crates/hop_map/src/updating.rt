//! A whole update by one CPU.
ghost use Rattle.std.specs.Prelude.{ℕ, ◌≡◌, ◌≢◌, ◌+◌, ◌-◌, ◌%◌, ◌^◌, ◌<◌, ◌≤◌, true, [], length, None, IfSome, MatchOption};
ghost use Rattle.bpf_shared.specs.Shape.{IsPairOf, elements as elements_of};
ghost use Rattle.bpf_shared.specs.History.{events_of};
ghost use Rattle.bpf_shared.specs.declared.events.Event.TheVariants.{Update};
ghost use Rattle.bpf_shared.specs.declared.events.MapAnswer.TheVariants.{Done, Busy, NoMemory};
ghost use Rattle.hop_words.specs.Shortage.{done_in};
ghost use Rattle.hop_words.specs.Ghost.{shape_at, limbo_at};
ghost use Rattle.hop_words.specs.Kinds.{SawAllTaken, holding};
ghost use Rattle.bpf_shared.specs.Own.{in_run};
ghost use Rattle.hop_arena.specs.Claiming.{Claims, Misses, IsArena};
ghost use Rattle.hop_epoch.specs.Batch.{KeepsBatches};
ghost use Rattle.hop_map.specs.Finding.{OwnsKey};
ghost use Rattle.hop_map.specs.Private.Locks.{Readies, with_lock};
ghost use Rattle.hop_map.specs.Noting.{BusyFirst, CallNotes, LockedLast};
ghost use Rattle.hop_map.specs.Private.Updates.{Brought, Refusal, UpdateEnds, SpillsTo, ClaimsOrLacks, answer_of};
ghost use Rattle.hop_map.specs.Call.{IsBetweenCalls, IsOneCall, IsShortage, SearchesInVain, Searches, AreBatchesOf};
ghost use Rattle.hop_map.specs.Private.Call.{HoldsNew};
ghost use Rattle.hop_layout.specs.Layout.{gained};
ghost use Rattle.hop_layout.specs.Words.{AreBytes};

use crate::ending::Ending;
use crate::homing::{homing, shape_of};
use crate::locked::{KeyLock, LockedWords};
use crate::putting::{put, refuse};
use crate::waiting::lock_home;
use bpf_shared::MapAnswer;
use crossbeam_utils::Backoff;
use hop_arena::{Arena, Element};
use hop_epoch::{Batches, Used};
use hop_words::{HopTable, Lane, Request};
use std::sync::Wait;

/// An update, as a CPU calls it: by what it waits, the store's table, the map's number, and what is
/// asked for.
#[derive(Drop)]
pub struct UpdateCall<'a, R: Wait> {
    pub rt: &'a R,
    pub table: &'a HopTable,
    pub map: u8,
    pub request: Request<'a>,
}

// Bytes of a key or a value are bytes.
#[inline(always)]
fn remember(bytes: &[u8])
    ensures { AreBytes bytes.now }
{}

// Locks the key's segment, and puts the element in hand, as the flags say.
fn lock_and_put<R: Wait>(
    call: &UpdateCall<'_, R>,
    lane: Lane,
    expected: &mut u64,
    element: u32,
) -> (Lane, Ending)
    requires table { lane.table ≡ call.now.table.now.id }
    requires map { call.now.map < length call.now.table.now.about.shape.maps }
    requires readies { Readies call.now.table.now.about lane.known call.now.map
        call.now.request.key.now call.now.request.value.now call.now.request.flags element }
    ensures table { result.0.table ≡ call.now.table.now.id }
    ensures ends { (s : ℕ) × (n : ℕ) × OwnsKey call.now.table.now.about call.now.map
        call.now.request.key.now s n
        × UpdateEnds call.now.table.now.about (with_lock lane.known call.now.map s n) call.now.map
        call.now.request.key.now call.now.request.value.now call.now.request.flags result.1
        result.0.known
        × BusyFirst n (answer_of result.1) × SpillsTo s result.1 }
{
    let UpdateCall {
        rt,
        table,
        map,
        request,
    } = *call;
    let mut lane = lane;
    let at = homing(table, map, request.key);
    let taken = lock_home(rt, table, &mut lane, map, at.home);
    let words = LockedWords::new(table, lane, map, taken.segment, at.key_size, at.elements);
    let lock = KeyLock {
        home: at.home,
        stamp: taken.stamp,
    };
    put(rt, words, expected, lock, element, &request)
}

// Locks the key's segment, and refuses an update for which no element is to be had.
fn lock_and_refuse<R: Wait>(call: &UpdateCall<'_, R>, lane: Lane) -> (Lane, MapAnswer)
    requires table { lane.table ≡ call.now.table.now.id }
    requires map { call.now.map < length call.now.table.now.about.shape.maps }
    requires empty { lane.known.fresh ≡ [] }
    requires idle { lane.known.locks ≡ [] }
    requires brought { Brought call.now.table.now.about lane.known call.now.map
        call.now.request.key.now call.now.request.value.now call.now.request.flags }
    requires lacks { SawAllTaken call.now.table.now.about lane.known call.now.map }
    ensures table { result.0.table ≡ call.now.table.now.id }
    ensures refused { (s : ℕ) × (n : ℕ) × OwnsKey call.now.table.now.about call.now.map
        call.now.request.key.now s n
        × Refusal call.now.table.now.about (with_lock lane.known call.now.map s n) call.now.map
        call.now.request.key.now call.now.request.value.now call.now.request.flags result.1
        result.0.known
        × BusyFirst n result.1 }
{
    let UpdateCall {
        rt,
        table,
        map,
        request,
    } = *call;
    let mut lane = lane;
    let at = homing(table, map, request.key);
    let taken = lock_home(rt, table, &mut lane, map, at.home);
    let words = LockedWords::new(table, lane, map, taken.segment, at.key_size, at.elements);
    let lock = KeyLock {
        home: at.home,
        stamp: taken.stamp,
    };
    refuse(words, lock, &request)
}

// One pass over the free bits, from the element on that the CPU gave back last.
#[inline(always)]
fn claim_near(
    table: &HopTable,
    lane: &mut Lane,
    arena: &mut Arena,
    batches: &mut Batches,
) -> Option<Element>
    requires table { lane.old.table ≡ table.now.id }
    requires map { arena.old.map < length table.now.about.shape.maps }
    requires arena { Searches table.now.about arena.old.map arena.old }
    requires empty { lane.old.known.fresh ≡ [] }
    requires unlocked { lane.old.known.locks ≡ [] }
    requires runs { in_run (events_of lane.old.known.cpu lane.old.known.seen) ≡ true }
    ensures table { lane.new.table ≡ lane.old.table }
    ensures claimed { MatchOption result
        (Misses table.now.about lane.old.known arena.old.map lane.new.known)
        (λ e. Claims table.now.about lane.old.known arena.old.map e lane.new.known) }
    ensures arena { (arena.new.map ≡ arena.old.map)
        × IsArena table.now.about arena.new.map arena.new.elements arena.new.start }
    ensures batches { batches.new ≡ record batches.old { returned = None } }
{
    if let Some(element) = batches.take_returned() {
        arena.look_from(element);
    }
    arena.claim(lane, table)
}

// How often an update that found no free element looks once more where only another CPU's run keeps
// what this CPU took out. Before each time it lets others go on.
const PATIENCE: u32 = 24;

// A free element of the map, after the CPU's own batches were looked at.
fn reclaim_and_claim(
    table: &HopTable,
    lane: &mut Lane,
    arena: &mut Arena,
    batches: &mut Batches,
) -> Option<Element>
    requires table { lane.old.table ≡ table.now.id }
    requires even { table.now.about.count % 2 ≡ 0 }
    requires map { arena.old.map < length table.now.about.shape.maps }
    requires arena { Searches table.now.about arena.old.map arena.old }
    requires batches { AreBatchesOf table.now.about lane.old.known arena.old.map batches.old }
    requires empty { lane.old.known.fresh ≡ [] }
    requires unlocked { lane.old.known.locks ≡ [] }
    requires runs { in_run (events_of lane.old.known.cpu lane.old.known.seen) ≡ true }
    ensures table { lane.new.table ≡ lane.old.table }
    ensures claimed { ClaimsOrLacks table.now.about lane.old.known arena.old.map result
        lane.new.known }
    ensures arena { Searches table.now.about arena.old.map arena.new }
    ensures batches { AreBatchesOf table.now.about lane.new.known arena.old.map batches.new }
{
    batches.reclaim(lane, table);
    claim_near(table, lane, arena, batches)
}

// A free element of the map, where one pass found none: the CPU's own batches are looked at, and
// then there is a second pass. Where only the runs of others keep what this CPU took out, it is
// patient: one of them may have been taken off its core.
#[inline(never)]
fn claim_patiently(
    table: &HopTable,
    lane: &mut Lane,
    arena: &mut Arena,
    batches: &mut Batches,
) -> Option<Element>
    requires table { lane.old.table ≡ table.now.id }
    requires inside { lane.old.known.cpu < table.now.about.shape.cpus }
    requires even { table.now.about.count % 2 ≡ 0 }
    requires map { arena.old.map < length table.now.about.shape.maps }
    requires arena { Searches table.now.about arena.old.map arena.old }
    requires batches { AreBatchesOf table.now.about lane.old.known arena.old.map batches.old }
    requires empty { lane.old.known.fresh ≡ [] }
    requires unlocked { lane.old.known.locks ≡ [] }
    requires runs { in_run (events_of lane.old.known.cpu lane.old.known.seen) ≡ true }
    ensures table { lane.new.table ≡ lane.old.table }
    ensures claimed { ClaimsOrLacks table.now.about lane.old.known arena.old.map result
        lane.new.known }
    ensures arena { Searches table.now.about arena.old.map arena.new }
    ensures batches { AreBatchesOf table.now.about lane.new.known arena.old.map batches.new }
{
    let backoff = Backoff::new();
    'patience: for _tried in 0..PATIENCE {
        if let Some(element) = reclaim_and_claim(table, lane, arena, batches) {
            return Some(element);
        }
        if !batches.waits_for_others(lane, table) {
            return None;
        }
        backoff.snooze();
    }
    reclaim_and_claim(table, lane, arena, batches)
}

// A free element of the map, by one pass or, where that finds none, by more.
fn claim_free(
    table: &HopTable,
    lane: &mut Lane,
    arena: &mut Arena,
    batches: &mut Batches,
) -> Option<Element>
    requires table { lane.old.table ≡ table.now.id }
    requires inside { lane.old.known.cpu < table.now.about.shape.cpus }
    requires even { table.now.about.count % 2 ≡ 0 }
    requires map { arena.old.map < length table.now.about.shape.maps }
    requires arena { Searches table.now.about arena.old.map arena.old }
    requires batches { AreBatchesOf table.now.about lane.old.known arena.old.map batches.old }
    requires empty { lane.old.known.fresh ≡ [] }
    requires unlocked { lane.old.known.locks ≡ [] }
    requires runs { in_run (events_of lane.old.known.cpu lane.old.known.seen) ≡ true }
    ensures table { lane.new.table ≡ lane.old.table }
    ensures claimed { ClaimsOrLacks table.now.about lane.old.known arena.old.map result
        lane.new.known }
    ensures arena { Searches table.now.about arena.old.map arena.new }
    ensures batches { AreBatchesOf table.now.about lane.new.known arena.old.map batches.new }
{
    if let Some(element) = claim_near(table, lane, arena, batches) {
        return Some(element);
    }
    claim_patiently(table, lane, arena, batches)
}

// Fills a new element, and puts it, as the flags say. Where the update is refused the element is
// given back, and where it took the place of another, that one is retired. Answers too which
// segment's overflow list a new key went to.
fn fill_and_put<R: Wait>(
    call: &UpdateCall<'_, R>,
    lane: Lane,
    expected: &mut u64,
    arena: &mut Arena,
    batches: &mut Batches,
    element: Element,
) -> (Lane, MapAnswer, Option<u32>)
    requires table { lane.table ≡ call.now.table.now.id }
    requires arena { Searches call.now.table.now.about call.now.map arena.old }
    requires batches { AreBatchesOf call.now.table.now.about lane.known call.now.map batches.old }
    requires map { element.map ≡ call.now.map }
    requires inside { element.number < elements_of (shape_at call.now.table.now.about
        call.now.map) }
    requires new { HoldsNew lane.known call.now.map element.number }
    requires idle { lane.known.locks ≡ [] }
    requires used { (limbo_at lane.known.limbo call.now.map).used ≡ [] }
    requires runs { in_run (events_of lane.known.cpu lane.known.seen) ≡ true }
    requires pair { IsPairOf call.now.table.now.about.shape.maps call.now.map
        call.now.request.key.now call.now.request.value.now }
    requires flags { call.now.request.flags ≤ 2 }
    ensures table { result.0.table ≡ call.now.table.now.id }
    ensures called { IsOneCall call.now.table.now.about lane.known call.now.map
        (Update call.now.map call.now.request.key.now call.now.request.value.now
        call.now.request.flags result.1) result.0.known }
    ensures worn { result.1 ≡ Busy →
        2 ^ 56 - 1 ≤ call.now.table.now.about.version + gained
        (shape_at call.now.table.now.about call.now.map)
        + done_in call.now.map result.0.known.seen }
    ensures served { result.1 ≢ NoMemory }
    ensures noted { CallNotes call.now.table.now.about (Update call.now.map
        call.now.request.key.now call.now.request.value.now call.now.request.flags result.1)
        lane.known result.0.known }
    ensures spilled { IfSome result.2 (λ s. (result.1 ≡ Done) × LockedLast call.now.map s
        lane.known result.0.known) }
    ensures arena { Searches call.now.table.now.about call.now.map arena.new }
    ensures batches { AreBatchesOf call.now.table.now.about result.0.known call.now.map
        batches.new }
{
    let UpdateCall {
        table,
        map,
        request,
        ..
    } = *call;
    let Request { key, value, .. } = request;
    let mut lane = lane;
    let _sizes = shape_of(table, map);
    remember(key);
    remember(value);
    element.fill(&mut lane, table, key, value);
    let number = element.number();
    let (mut lane, ending) = lock_and_put(call, lane, expected, number);
    match ending {
        Ending::Added(spilled) => {
            let _linked = element.into_number();
            (lane, MapAnswer::Done, spilled)
        }
        Ending::Replaced(old) => {
            let _linked = element.into_number();
            let used = Used::new(&lane, map, old);
            batches.retire(&mut lane, table, used);
            (lane, MapAnswer::Done, None)
        }
        Ending::Refused(answer) => {
            arena.give_back(&mut lane, table, element);
            (lane, answer, None)
        }
    }
}

/// A value of these bytes is to be under the key: always for the flags 0, where the key isn't
/// there yet for 1, where it is there for 2 (bpf-helpers(7)). The value gets an element of its own,
/// which is claimed and filled before the key's segment is locked, and given back where the update
/// is refused. Answers too which segment's overflow list a new key went to. A new key is first
/// counted by the key count that this CPU left; any number does, and the one left then is there.
pub fn update<R: Wait>(
    call: &UpdateCall<'_, R>,
    lane: Lane,
    expected: &mut u64,
    arena: &mut Arena,
    batches: &mut Batches,
) -> (Lane, MapAnswer, Option<u32>)
    requires table { lane.table ≡ call.now.table.now.id }
    requires inside { lane.known.cpu < call.now.table.now.about.shape.cpus }
    requires even { call.now.table.now.about.count % 2 ≡ 0 }
    requires arena { Searches call.now.table.now.about call.now.map arena.old }
    requires batches { AreBatchesOf call.now.table.now.about lane.known call.now.map batches.old }
    requires rests { IsBetweenCalls lane.known call.now.map }
    requires runs { in_run (events_of lane.known.cpu lane.known.seen) ≡ true }
    requires pair { IsPairOf call.now.table.now.about.shape.maps call.now.map
        call.now.request.key.now call.now.request.value.now }
    ensures table { result.0.table ≡ call.now.table.now.id }
    ensures called { IsOneCall call.now.table.now.about lane.known call.now.map
        (Update call.now.map call.now.request.key.now call.now.request.value.now
        call.now.request.flags result.1) result.0.known }
    ensures lacks { IsShortage call.now.table.now.about lane.known call.now.map result.1
        result.0.known }
    ensures noted { CallNotes call.now.table.now.about (Update call.now.map
        call.now.request.key.now call.now.request.value.now call.now.request.flags result.1)
        lane.known result.0.known }
    ensures spilled { IfSome result.2 (λ s. (result.1 ≡ Done) × LockedLast call.now.map s
        lane.known result.0.known) }
    ensures arena { Searches call.now.table.now.about call.now.map arena.new }
    ensures batches { AreBatchesOf call.now.table.now.about result.0.known call.now.map
        batches.new }
{
    let UpdateCall { table, map, .. } = *call;
    let flags = call.request.flags;
    remember(call.request.value);
    let mut lane = lane;
    if flags > 2 {
        lane.see_count_misflagged(table, map, &call.request);
        return (lane, MapAnswer::Invalid, None);
    }
    match claim_free(table, &mut lane, arena, batches) {
        None => {
            let (lane, answer) = lock_and_refuse(call, lane);
            (lane, answer, None)
        }
        Some(element) => fill_and_put(call, lane, expected, arena, batches, element),
    }
}
