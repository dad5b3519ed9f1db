//! The begin and the end of a run.
ghost use Rattle.std.specs.Prelude.{◌≡◌, ◌+◌, ◌-◌, ◌%◌, ◌<◌, ◌^◌, [], true, false, OnOk, OnErr};
ghost use Rattle.bpf_shared.specs.History.{events_of};
ghost use Rattle.bpf_shared.specs.declared.events.Event.TheVariants.{Begin, End};
ghost use Rattle.hop_words.specs.Kinds.{run_count, AddsEvent};
ghost use Rattle.bpf_shared.specs.Own.{in_run};

use bpf_shared::Worn;
use hop_words::{HopTable, Lane};

/// The CPU enters a run, unless its counter is at its last even value. Its own counter is read
/// first, then counted up.
#[tactic(auto, using(crate::proofs::Evenness::idle_even, crate::proofs::Evenness::last_even))]
pub fn begin_run(lane: &mut Lane, table: &HopTable) -> Result<(), Worn>
    requires table { lane.old.table ≡ table.now.id }
    requires inside { lane.old.known.cpu < table.now.about.shape.cpus }
    requires even { table.now.about.count % 2 ≡ 0 }
    requires idle { in_run (events_of lane.old.known.cpu lane.old.known.seen) ≡ false }
    ensures table { lane.new.table ≡ lane.old.table }
    ensures begun { OnOk result (AddsEvent table.now.about lane.old.known Begin lane.new.known) }
    ensures room { OnOk result (run_count table.now.about lane.old.known + 2 < 2 ^ 64) }
    ensures worn { OnErr result (run_count table.now.about lane.old.known ≡ 2 ^ 64 - 2) }
    ensures unchanged { OnErr result (lane.new.known ≡ lane.old.known) }
{
    // Read once: a step may change memory, where the lane lies.
    let cpu = lane.cpu();
    let count = lane.see_own_counter(table, cpu);
    if count >= u64::MAX - 1 {
        return Err(Worn);
    }
    lane.count_begin(table, cpu);
    Ok(())
}

/// The CPU leaves its run, with no element in hand.
pub fn end_run(lane: &mut Lane, table: &HopTable)
    requires table { lane.old.table ≡ table.now.id }
    requires inside { lane.old.known.cpu < table.now.about.shape.cpus }
    requires empty { lane.old.known.fresh ≡ [] }
    requires running { in_run (events_of lane.old.known.cpu lane.old.known.seen) ≡ true }
    requires room { run_count table.now.about lane.old.known + 1 < 2 ^ 64 }
    ensures table { lane.new.table ≡ lane.old.table }
    ensures ended { AddsEvent table.now.about lane.old.known End lane.new.known }
{
    lane.count_end(table);
}
