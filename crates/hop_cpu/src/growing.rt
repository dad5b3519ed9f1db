//! Maps that grow: after an update whose new key went to an overflow list one split is tried.
ghost use Rattle.std.specs.Prelude.{◌≡◌, ◌<◌, true, [], ◌∷◌, length};
ghost use Rattle.bpf_shared.specs.declared.events.Event.TheVariants.{Update};
ghost use Rattle.bpf_shared.specs.Shape.{IsPairOf};
ghost use Rattle.hop_map.specs.Call.{IsShortage};
ghost use Rattle.hop_map.specs.Noting.{CallsNote};
ghost use Rattle.hop_map.specs.Port.{IsPortOf, PortDoes, runs};
ghost use Rattle.hop_cpu.specs.Growing.{GrowsMap, HasTriedSplit};

use bpf_shared::MapAnswer;
use hop_map::HopPort;
use hop_words::{HopTable, Request};
use std::sync::Wait;

// Tries to split the segment to whose overflow list the last update's new key went, of a map that
// grows.
fn grow<R: Wait>(rt: &R, table: &HopTable, port: &mut HopPort, map: u8)
    requires fits { IsPortOf table.now port.old }
    requires map { map < length table.now.about.shape.maps }
    ensures grows { GrowsMap table.now.about map port.old port.new }
    ensures fits { IsPortOf table.now port.new }
{
    let Some(shape) = port.shape(table, u64::from(map)) else {
        return;
    };
    if !shape.grow {
        return;
    }
    let Some(segment) = port.spilled() else {
        return;
    };
    let _growth = port.split(rt, table, map, segment);
}

/// An update. Where its new key went to the overflow list of a segment of a map that grows, one
/// split of that segment is tried, and whatever becomes of it, the update has its answer.
pub(crate) fn update_growing<R: Wait>(
    rt: &R,
    table: &HopTable,
    port: &mut HopPort,
    map: u8,
    request: &Request<'_>,
) -> MapAnswer
    requires fits { IsPortOf table.now port.old }
    requires in_run { runs port.old ≡ true }
    requires pair { IsPairOf table.now.about.shape.maps map request.now.key.now
        request.now.value.now }
    ensures in_run { runs port.new ≡ true }
    ensures answered { PortDoes table.now.about port.old
        (Update map request.now.key.now request.now.value.now request.now.flags result) port.new }
    ensures shortage { IsShortage table.now.about port.old.known map result port.new.known }
    ensures noted { CallsNote table.now.about (Update map request.now.key.now
        request.now.value.now request.now.flags result ∷ [])
        port.old.known port.new.known }
    ensures tried { HasTriedSplit table.now.about map port.new }
    ensures fits { IsPortOf table.now port.new }
{
    let answer = port.update(rt, table, map, request);
    grow(rt, table, port, map);
    answer
}
