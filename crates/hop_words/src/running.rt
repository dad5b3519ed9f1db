//! The steps on run counters: a counter is odd while its CPU is in a run.
ghost use Rattle.std.specs.Prelude.{◌≡◌, ◌<◌, ◌+◌, ◌^◌, true, false, [], length};
ghost use Rattle.bpf_shared.specs.History.{events_of};
ghost use Rattle.bpf_shared.specs.declared.events.Event.TheVariants.{Begin, End};
ghost use Rattle.hop_words.specs.Ghost.{limbo_at};
ghost use Rattle.hop_words.specs.Kinds.{run_count, AddsEvent, noting_next, ageing};
ghost use Rattle.bpf_shared.specs.Own.{in_run};
ghost use Rattle.hop_words.specs.Owning.{IsIdleOrKeeps, LooksAgain};

use crate::lane::Lane;
use crate::table::HopTable;
use hop_layout::Place;
use std::marker::Brand;

impl Lane {
    /// The CPU's number.
    pub fn cpu(&self) -> u8
        ensures { result ≡ self.now.known.cpu }
    {
        self.cpu
    }

    /// The CPU's own counter. It isn't noted: so it is there only for a CPU that is in no run, or
    /// that has an old batch.
    pub fn see_own_counter(&mut self, table: &HopTable, cpu: u8) -> u64
        requires table { self.old.table ≡ table.now.id }
        requires own { cpu ≡ self.old.known.cpu }
        requires apart { IsIdleOrKeeps self.old.known }
        requires inside { self.old.known.cpu < table.now.about.shape.cpus }
        ensures table { self.new.table ≡ self.old.table }
        ensures count { result ≡ run_count table.now.about self.old.known }
        ensures same { self.new.known ≡ self.old.known }
    {
        self.load_by::<Brand, _>(table, Place::RunCount { cpu }, ())
    }

    /// The CPU enters a run: its counter goes up by one fetch-add.
    pub fn count_begin(&mut self, table: &HopTable, cpu: u8)
        requires table { self.old.table ≡ table.now.id }
        requires own { cpu ≡ self.old.known.cpu }
        requires inside { self.old.known.cpu < table.now.about.shape.cpus }
        requires idle { in_run (events_of self.old.known.cpu self.old.known.seen) ≡ false }
        requires room { run_count table.now.about self.old.known + 1 < 2 ^ 64 }
        ensures table { self.new.table ≡ self.old.table }
        ensures begun { AddsEvent table.now.about self.old.known Begin self.new.known }
    {
        self.add_by::<Brand, _>(table, Place::RunCount { cpu }, 1, ());
    }

    /// The CPU leaves its run, with no element in hand: its counter goes up by one fetch-add.
    pub fn count_end(&mut self, table: &HopTable)
        requires table { self.old.table ≡ table.now.id }
        requires empty { self.old.known.fresh ≡ [] }
        requires inside { self.old.known.cpu < table.now.about.shape.cpus }
        requires running { in_run (events_of self.old.known.cpu self.old.known.seen) ≡ true }
        requires room { run_count table.now.about self.old.known + 1 < 2 ^ 64 }
        ensures table { self.new.table ≡ self.old.table }
        ensures ended { AddsEvent table.now.about self.old.known End self.new.known }
    {
        let cpu = self.cpu();
        self.add_by::<Brand, _>(table, Place::RunCount { cpu }, 1, ());
    }

    /// The young batch becomes the old one, which was empty, and the counter of CPU 0 is noted with
    /// it.
    pub fn note_first_counter(&mut self, table: &HopTable, map: u8) -> u64
        requires table { self.old.table ≡ table.now.id }
        requires inside { 0 < table.now.about.shape.cpus }
        requires room { map < length self.old.known.limbo }
        requires empty { (limbo_at self.old.known.limbo map).old ≡ [] }
        ensures table { self.new.table ≡ self.old.table }
        ensures aged { self.new.known ≡ ageing self.old.known map result }
    {
        self.load_by::<Brand, _>(table, Place::RunCount { cpu: 0 }, map)
    }

    /// The counter of the next CPU is noted with the old batch.
    pub fn note_counter(&mut self, table: &HopTable, map: u8, cpu: u8) -> u64
        requires table { self.old.table ≡ table.now.id }
        requires inside { cpu < table.now.about.shape.cpus }
        requires room { map < length self.old.known.limbo }
        requires next { cpu ≡ length (limbo_at self.old.known.limbo map).noted }
        ensures table { self.new.table ≡ self.old.table }
        ensures noted { self.new.known ≡ noting_next self.old.known map result }
    {
        self.load_by::<Brand, _>(table, Place::RunCount { cpu }, map)
    }

    /// A counter that was noted with the old batch is looked at again. Where it is another by now,
    /// its CPU can't hold an element of that batch.
    pub fn see_counter_again(&mut self, table: &HopTable, map: u8, cpu: u8) -> u64
        requires table { self.old.table ≡ table.now.id }
        requires inside { cpu < table.now.about.shape.cpus }
        requires room { map < length self.old.known.limbo }
        requires noted { cpu < length (limbo_at self.old.known.limbo map).noted }
        ensures table { self.new.table ≡ self.old.table }
        ensures looked { LooksAgain self.old.known map cpu result self.new.known }
    {
        self.load_noted::<Brand, _>(table, Place::RunCount { cpu }, (map, cpu))
    }
}
