//! A port: the right of one CPU to call the store.
ghost use Rattle.std.specs.Prelude.{ℕ, ◌≡◌, ◌-◌, ◌^◌, true, false, OnOk, OnErr, Some, length, slice_get, IfSome, ◌<◌, ◌≤◌};
ghost use Rattle.bpf_shared.specs.declared.events.Event.TheVariants.{Begin, End, Lookup, Update, Delete, Keys};
ghost use Rattle.bpf_shared.specs.Shape.{IsMapShape, IsArrayShape, IsKeyOf, IsPairOf, IsElementSpan, IsValueSpan};
ghost use Rattle.hop_words.specs.Kinds.{run_count};
ghost use Rattle.hop_map.specs.Call.{IsShortage, IsReclaimed};
ghost use Rattle.bpf_shared.specs.declared.events.MapAnswer.TheVariants.{Done};
ghost use Rattle.hop_map.specs.Noting.{CallNotes, LockedLast};
ghost use Rattle.hop_map.specs.Finding.{OnceEnds, LooksAtMost, most_loads};
ghost use Rattle.hop_map.specs.Port.{IsPortOf, PortDoes, runs};
ghost use Rattle.hop_map.specs.Splitting.{SplitEnds};

use crate::counts::MapCounts;
use crate::deleting::{DeleteCall, delete};
use crate::finding::{find_locked, find_once, locate, span_of};
use crate::growth::Growth;
use crate::leaving::leave_run;
use crate::listing::list_keys;
use crate::once::Once;
use crate::splitting::split_segment;
use crate::updating::{UpdateCall, update};
use bpf_shared::{ArrayShape, KeyList, MapAnswer, MapShape, Span, Worn};
use hop_arena::Arena;
use hop_epoch::{Batches, begin_run};
use hop_words::{HopTable, Lane, Request};
use std::marker::Model;
use std::sync::Wait;

/// One CPU of a store, which calls it. Between two calls it owns no element and has no lock. Each
/// call takes the table of the port's store.
#[derive(Drop)]
pub struct HopPort {
    // there, but in a call
    pub(crate) lane: Option<Lane>,
    // by map
    pub(crate) arenas: Vec<Arena>,
    // by map
    pub(crate) batches: Vec<Batches>,
    pub(crate) spilled: Option<u32>,
    pub(crate) counts: MapCounts,
}

impl Model for HopPort {
    ghost use Rattle.hop_map.specs.Port.{Port};
    ghost use Rattle.hop_map.specs.Private.Port.{port_of, IsPortIdle};

    ghost Value = { Port };

    ghost view = { port_of };

    ghost invariant = { IsPortIdle };
}

impl HopPort {
    /// The number of the port's CPU.
    pub fn cpu(&self) -> u8
        ensures { result ≡ self.now.known.cpu }
    {
        let Some(lane) = &self.lane else {
            unreachable!()
        };
        lane.cpu()
    }

    /// The shape of the map of this number; `None` for no map's number.
    pub fn shape(&self, table: &HopTable, map: u64) -> Option<MapShape>
        ensures shape { result ≡ slice_get table.now.about.shape.maps map }
        ensures in_range { IfSome result (λ h. (map < 16) × IsMapShape h) }
    {
        table.about().shape.maps().get(map as usize).copied()
    }

    /// The shape of the array of this number; `None` for no array's number.
    pub fn array(&self, table: &HopTable, array: u64) -> Option<ArrayShape>
        ensures array { result ≡ slice_get table.now.about.shape.arrays array }
        ensures in_range { IfSome result
            (λ g. (array < 16) × IsArrayShape table.now.about.shape.cpus g) }
    {
        let shape = table.about().shape.arrays().get(array as usize)?;
        Some(*shape)
    }

    /// How many CPUs there are. The port's own has a number below it.
    pub fn cpus(&self, table: &HopTable) -> u8
        requires fits { IsPortOf table.now self.now }
        ensures cpus { result ≡ table.now.about.shape.cpus }
        ensures in_range { (1 ≤ result) × (result ≤ 16) }
        ensures own { self.now.known.cpu < result }
    {
        table.about().shape.cpus()
    }

    /// The CPU enters a run, unless its run counter is at its last value, 2^64 - 2.
    pub fn begin(&mut self, table: &HopTable) -> Result<(), Worn>
        requires fits { IsPortOf table.now self.old }
        requires idle { runs self.old ≡ false }
        ensures in_run { OnOk result (runs self.new ≡ true) }
        ensures begun { OnOk result (PortDoes table.now.about self.old Begin self.new) }
        ensures noted { OnOk result (CallNotes table.now.about Begin
            self.old.known self.new.known) }
        ensures worn { OnErr result (run_count table.now.about self.old.known ≡ 2 ^ 64 - 2) }
        ensures unchanged { OnErr result (self.new ≡ self.old) }
        ensures fits { IsPortOf table.now self.new }
    {
        let Some(lane) = &mut self.lane else {
            unreachable!()
        };
        begin_run(lane, table)
    }

    /// The CPU leaves its run. Then it gives back what it took out and no running CPU can hold.
    pub fn end(&mut self, table: &HopTable)
        requires fits { IsPortOf table.now self.old }
        requires in_run { runs self.old ≡ true }
        ensures idle { runs self.new ≡ false }
        ensures ended { PortDoes table.now.about self.old End self.new }
        ensures noted { CallNotes table.now.about End self.old.known self.new.known }
        ensures reclaimed { (m : ℕ) → m < length table.now.about.shape.maps
            → IsReclaimed m self.old.known.tally self.new.known }
        ensures fits { IsPortOf table.now self.new }
    {
        let Some(lane) = &mut self.lane else {
            unreachable!()
        };
        leave_run(lane, table, &mut self.batches);
    }

    /// Where the value of the key lies, found under the lock of the key's segment; the CPU holds
    /// that value until its run ends.
    pub fn find_locked<R: Wait>(
        &mut self,
        rt: &R,
        table: &HopTable,
        map: u8,
        key: &[u8],
    ) -> Option<Span>
        requires fits { IsPortOf table.now self.old }
        requires in_run { runs self.old ≡ true }
        requires key { IsKeyOf table.now.about.shape.maps map key.now }
        ensures in_run { runs self.new ≡ true }
        ensures found { PortDoes table.now.about self.old (Lookup map key.now result) self.new }
        ensures element { IfSome result (IsElementSpan table.now.about.shape.maps map) }
        ensures in_range { IfSome result IsValueSpan }
        ensures fits { IsPortOf table.now self.new }
    {
        let _maps = table.about().shape.maps();
        let Some(lane) = self.lane.take() else {
            unreachable!()
        };
        let (lane, found) = find_locked(rt, table, lane, map, key);
        self.lane = Some(lane);
        found
    }

    /// The keys of a map in the order of their bytes, listed as one step. The CPU may be in a run or
    /// not. It takes the lock of each segment of the map, and waits for them. The list is one that
    /// was made for the map's shape.
    pub fn keys<R: Wait>(&mut self, rt: &R, table: &HopTable, map: u8, list: &mut KeyList)
        requires fits { IsPortOf table.now self.old }
        requires list { slice_get table.now.about.shape.maps map ≡ Some list.old.shape }
        ensures in_run { runs self.new ≡ runs self.old }
        ensures listed { PortDoes table.now.about self.old (Keys map list.new.keys) self.new }
        ensures list { list.new.shape ≡ list.old.shape }
        ensures noted { CallNotes table.now.about (Keys map list.new.keys)
            self.old.known self.new.known }
        ensures fits { IsPortOf table.now self.new }
    {
        let Some(mut lane) = self.lane.take() else {
            unreachable!()
        };
        list_keys(rt, table, &mut lane, map, list);
        self.lane = Some(lane);
    }

    /// Where the value of the key lies, by one reading of the key's segment that takes no lock and
    /// writes no word; the CPU holds that value until its run ends. A reading that others disturbed
    /// answers the two stamps that it saw, and is no event. It loads at most `most_loads` words.
    pub fn find_once(&mut self, table: &HopTable, map: u8, key: &[u8]) -> Once
        requires fits { IsPortOf table.now self.old }
        requires in_run { runs self.old ≡ true }
        requires key { IsKeyOf table.now.about.shape.maps map key.now }
        ensures in_run { runs self.new ≡ true }
        ensures table { self.new.table ≡ self.old.table }
        ensures ends { OnceEnds table.now.about self.old.known map key.now result self.new.known }
        ensures loads { LooksAtMost (most_loads table.now.about map) self.old.known
            self.new.known }
        ensures fits { IsPortOf table.now self.new }
    {
        let Some(lane) = self.lane.take() else {
            unreachable!()
        };
        let (lane, once) = find_once(table, lane, map, key);
        self.lane = Some(lane);
        once
    }

    /// Where the value of the key lies, found without a lock or, after eight disturbed readings,
    /// under one; the CPU holds that value until its run ends.
    #[inline(always)]
    pub fn lookup<R: Wait>(&mut self, rt: &R, table: &HopTable, map: u8, key: &[u8]) -> Option<Span>
        requires fits { IsPortOf table.now self.old }
        requires in_run { runs self.old ≡ true }
        requires key { IsKeyOf table.now.about.shape.maps map key.now }
        ensures in_run { runs self.new ≡ true }
        ensures found { PortDoes table.now.about self.old (Lookup map key.now result) self.new }
        ensures element { IfSome result (IsElementSpan table.now.about.shape.maps map) }
        ensures in_range { IfSome result IsValueSpan }
        ensures spares { CallNotes table.now.about (Lookup map key.now result)
            self.old.known self.new.known }
        ensures fits { IsPortOf table.now self.new }
    {
        let _maps = table.about().shape.maps();
        let Some(lane) = self.lane.take() else {
            unreachable!()
        };
        let (lane, found) = locate(rt, table, lane, &mut self.counts, map, key);
        self.lane = Some(lane);
        span_of(table, map, found)
    }

    /// A value of these bytes is to be under the key: always for the flags 0, where the key
    /// isn't there yet for 1, where it is there for 2 (bpf-helpers(7)).
    pub fn update<R: Wait>(
        &mut self,
        rt: &R,
        table: &HopTable,
        map: u8,
        request: &Request<'_>,
    ) -> MapAnswer
        requires fits { IsPortOf table.now self.old }
        requires in_run { runs self.old ≡ true }
        requires pair { IsPairOf table.now.about.shape.maps map request.now.key.now
            request.now.value.now }
        ensures in_run { runs self.new ≡ true }
        ensures answered { PortDoes table.now.about self.old
            (Update map request.now.key.now request.now.value.now request.now.flags result)
            self.new }
        ensures shortage { IsShortage table.now.about self.old.known map result self.new.known }
        ensures noted { CallNotes table.now.about (Update map request.now.key.now
            request.now.value.now request.now.flags result)
            self.old.known self.new.known }
        ensures spilled { IfSome self.new.spilled (λ s. (result ≡ Done)
            × LockedLast map s self.old.known self.new.known) }
        ensures fits { IsPortOf table.now self.new }
    {
        let Some(lane) = self.lane.take() else {
            unreachable!()
        };
        let place = usize::from(map);
        let mut keys = self.counts.at(map).keys;
        let arena = &mut self.arenas[place];
        let batches = &mut self.batches[place];
        let call = UpdateCall {
            rt,
            table,
            map,
            request: *request,
        };
        let (lane, answer, spilled) = update(&call, lane, &mut keys, arena, batches);
        self.lane = Some(lane);
        self.spilled = spilled;
        self.counts.keys_left(map, keys);
        answer
    }

    /// The key is to leave the map. Whoever holds its value keeps it until its run ends.
    pub fn delete<R: Wait>(&mut self, rt: &R, table: &HopTable, map: u8, key: &[u8]) -> MapAnswer
        requires fits { IsPortOf table.now self.old }
        requires in_run { runs self.old ≡ true }
        requires key { IsKeyOf table.now.about.shape.maps map key.now }
        ensures in_run { runs self.new ≡ true }
        ensures answered { PortDoes table.now.about self.old (Delete map key.now result) self.new }
        ensures shortage { IsShortage table.now.about self.old.known map result self.new.known }
        ensures noted { CallNotes table.now.about (Delete map key.now result)
            self.old.known self.new.known }
        ensures fits { IsPortOf table.now self.new }
    {
        let Some(lane) = self.lane.take() else {
            unreachable!()
        };
        let mut keys = self.counts.at(map).keys;
        let batches = &mut self.batches[usize::from(map)];
        let call = DeleteCall {
            rt,
            table,
            map,
            key,
        };
        let (lane, answer) = delete(&call, lane, &mut keys, batches);
        self.lane = Some(lane);
        self.counts.keys_left(map, keys);
        answer
    }

    /// The segment to whose overflow list the last update's new key went, if it went to one.
    pub fn spilled(&self) -> Option<u32>
        ensures spilled { result ≡ self.now.spilled }
    {
        self.spilled
    }

    /// Splits the segment of a map that a home belongs to, if its depth and its version let it. The
    /// home of a born segment's own number belongs to that segment. It is no event: the map has the
    /// keys and values that it had. The CPU may be in a run or not, and waits for the segment's lock.
    pub fn split<R: Wait>(&mut self, rt: &R, table: &HopTable, map: u8, home: u32) -> Growth
        requires fits { IsPortOf table.now self.old }
        requires map { map < length table.now.about.shape.maps }
        ensures in_run { runs self.new ≡ runs self.old }
        ensures ends { SplitEnds table.now.about self.old.known map home result self.new.known }
        ensures else_same { self.new ≡ record self.old { known = self.new.known } }
        ensures fits { IsPortOf table.now self.new }
    {
        let Some(lane) = self.lane.take() else {
            unreachable!()
        };
        let (lane, growth) = split_segment(rt, table, lane, map, home);
        self.lane = Some(lane);
        self.counts.split(map, growth);
        growth
    }
}
