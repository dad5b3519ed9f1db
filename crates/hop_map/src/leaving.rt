//! The end of a run.
ghost use Rattle.std.specs.Prelude.{ℕ, ◌≡◌, ◌+◌, ◌%◌, ◌^◌, ◌<◌, true, length};
ghost use Rattle.bpf_shared.specs.declared.events.Event.TheVariants.{End};
ghost use Rattle.bpf_shared.specs.History.{events_of};
ghost use Rattle.bpf_shared.specs.Own.{in_run};
ghost use Rattle.hop_words.specs.declared.known.Known.{Known};
ghost use Rattle.hop_words.specs.Kinds.{AddsEvent, run_count};
ghost use Rattle.hop_map.specs.Call.{IsReclaimed};
ghost use Rattle.hop_map.specs.Port.{AreBatches};
ghost use Rattle.hop_map.specs.Private.Port.{HasNothing, IsEnding};

use hop_epoch::{Batches, end_run};
use hop_words::{HopTable, Lane};

/// The CPU leaves its run. Then it gives back, map by map, what it took out and no running CPU can
/// hold.
#[inline(always)]
pub(crate) fn leave_run(lane: &mut Lane, table: &HopTable, batches: &mut Vec<Batches>)
    requires table { lane.old.table ≡ table.now.id }
    requires inside { lane.old.known.cpu < table.now.about.shape.cpus }
    requires even { table.now.about.count % 2 ≡ 0 }
    requires room { run_count table.now.about lane.old.known + 1 < 2 ^ 64 }
    requires running { in_run (events_of lane.old.known.cpu lane.old.known.seen) ≡ true }
    requires nothing { HasNothing lane.old.known }
    requires limbo { length lane.old.known.limbo ≡ length table.now.about.shape.maps }
    requires batches { AreBatches table.now.about lane.old.known
        (length table.now.about.shape.maps) batches.old.items }
    ensures table { lane.new.table ≡ lane.old.table }
    ensures ended { (l : Known) × AddsEvent table.now.about lane.old.known End l
        × IsEnding table.now l lane.new.known batches.new.items
        × ((m : ℕ) → m < length table.now.about.shape.maps
        → IsReclaimed m l.tally lane.new.known) }
{
    end_run(lane, table);
    'maps: for map in 0..batches.len() {
        batches[map].reclaim(lane, table);
    }
}
