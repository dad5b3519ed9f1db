//! Numbers of a map at rest, for whoever sizes it.
ghost use Rattle.std.specs.Prelude.{◌≡◌, ◌<◌, ◌≤◌, IfSome, IfNone, IsTrue, IsFalse, length};
ghost use Rattle.std.specs.FinMap.{len};
ghost use Rattle.std.specs.Int.{bit_at};
ghost use Rattle.bpf_shared.specs.Shape.{IsMapShape, elements as element_count};
ghost use Rattle.bpf_shared.specs.Store.{Plain};
ghost use Rattle.hop_layout.specs.Layout.{segments};
ghost use Rattle.hop_words.specs.Ghost.{shape_at, IsSegment};
ghost use Rattle.hop_map.specs.Dumping.{IsLast};
ghost use Rattle.hop_map.specs.Stats.{is_placed, placed_in, placed_below, free_below, IsCounted};

use crate::closed::Closed;
use crate::dumping::{count_born, is_born, shape_of};
use crate::numbers::item;
use hop_layout::{Place, elements, segments};
use hop_words::Rest;

/// What a store at rest says of one of its maps.
#[derive(Clone, Copy, PartialEq, Eq, Debug)]
pub struct MapStats {
    /// Its segments that are born.
    pub segments: u32,
    /// Its keys.
    pub keys: u64,
    /// Its keys that no place of a segment has: they are on overflow lists.
    pub overflow: u64,
    /// Its elements that are free. Those in ports' batches aren't.
    pub free: u32,
    /// How often its segments split, as the ports counted.
    pub splits: u64,
    /// How many readings of its lookups others disturbed, as the ports counted.
    pub disturbed: u64,
    /// How many lookups took a segment's lock, as the ports counted.
    pub locks: u64,
}

// Whether a place of a segment has an item.
fn is_placed(rest: &Rest, map: u8, segment: u32, place: u32) -> bool
    requires inside { IsSegment rest.now.about map segment }
    requires place { place < 64 }
    ensures { result ≡ is_placed rest.now map segment place }
{
    item(rest.word(Place::Slot {
        map,
        segment,
        place,
    }))
    .is_some()
}

// How many places of a segment have an item.
fn placed_in(rest: &Rest, map: u8, segment: u32) -> u32
    requires inside { IsSegment rest.now.about map segment }
    ensures counted { result ≡ placed_in rest.now map segment 64 }
    ensures most { result ≤ 64 }
{
    let mut placed = 0;
    'places: for place in 0..64 {
        if is_placed(rest, map, segment, place) {
            placed += 1;
        }
    }
    placed
}

// How many places of a map's born segments have an item.
fn count_placed(rest: &Rest, map: u8) -> u64
    requires map { map < length rest.now.about.shape.maps }
    ensures { result ≡ placed_below rest.now map (segments (shape_at rest.now.about map)) }
{
    let count = segments(&shape_of(rest, map));
    let mut placed = 0;
    'segments: for segment in 0..count {
        if !is_born(rest, map, segment) {
            continue;
        }
        placed += u64::from(placed_in(rest, map, segment));
    }
    placed
}

// Whether a bit is set.
fn has_bit(bits: u64, place: u32) -> bool
    requires { place < 64 }
    ensures set { IsTrue result → bit_at bits place ≡ 1 }
    ensures clear { IsFalse result → bit_at bits place ≡ 0 }
{
    bits >> place & 1 == 1
}

// How many elements of a map are free.
fn count_free(rest: &Rest, map: u8) -> u32
    requires map { map < length rest.now.about.shape.maps }
    ensures { result ≡ free_below rest.now map (element_count (shape_at rest.now.about map)) }
{
    let count = elements(&shape_of(rest, map));
    let mut free = 0;
    'elements: for element in 0..count {
        let word = element / 64;
        if has_bit(rest.word(Place::FreeBits { map, word }), element % 64) {
            free += 1;
        }
    }
    free
}

impl Closed {
    /// What is to be printed of a map of this number; of no map there is nothing.
    pub fn stats(&self, map: u64) -> Option<MapStats>
        ensures none { IfNone result (length self.now.about.shape.maps ≤ map) }
        ensures counted { IfSome result (IsCounted self.now map) }
        ensures keys { (last : Plain) → IsLast self.now last
            → IfSome result (λ s. s.keys ≡ len (last.maps map)) }
    {
        if map >= self.rest.about().shape.maps().len() as u64 {
            return None;
        }
        let map = map as u8;
        let keys = self.rest.word(Place::KeyCount { map });
        let placed = count_placed(&self.rest, map);
        let counts = self.counts.at(map);
        Some(MapStats {
            segments: count_born(&self.rest, map),
            keys,
            overflow: keys.saturating_sub(placed),
            free: count_free(&self.rest, map),
            splits: counts.splits,
            disturbed: counts.disturbed,
            locks: counts.locks,
        })
    }
}
