//! Where a key is at home, and the sizes of its map.
ghost use Rattle.std.specs.Prelude.{◌≡◌, ◌<◌, ◌≤◌, length};
ghost use Rattle.bpf_shared.specs.Shape.{IsMapShape, elements as elements_of};
ghost use Rattle.hop_layout.specs.Home.{home_of};
ghost use Rattle.hop_words.specs.Ghost.{shape_at};

use bpf_shared::MapShape;
use hop_layout::{elements, home};
use hop_words::HopTable;

/// The home of a key; the size of the map's keys in bytes, and how many elements
/// the map has.
#[derive(Clone, Copy)]
pub(crate) struct KeyHome {
    pub(crate) home: u32,
    pub(crate) key_size: usize,
    pub(crate) elements: u32,
}

/// The sizes of a map.
pub(crate) fn shape_of(table: &HopTable, map: u8) -> MapShape
    requires map { map < length table.now.about.shape.maps }
    ensures shape { result ≡ shape_at table.now.about map }
    ensures sizes { IsMapShape result }
{
    table.about().shape.maps()[usize::from(map)]
}

/// This home, with the sizes of the map.
#[inline(always)]
pub(crate) fn homed(table: &HopTable, map: u8, home: u32) -> KeyHome
    requires map { map < length table.now.about.shape.maps }
    ensures home { result.home ≡ home }
    ensures key { result.key_size ≡ (shape_at table.now.about map).key }
    ensures small { result.key_size ≤ 64 }
    ensures elements { result.elements ≡ elements_of (shape_at table.now.about map) }
{
    let shape = shape_of(table, map);
    KeyHome {
        home,
        key_size: shape.key as usize,
        elements: elements(&shape),
    }
}

/// Where a key of a map is at home.
#[inline(always)]
pub(crate) fn homing(table: &HopTable, map: u8, key: &[u8]) -> KeyHome
    requires map { map < length table.now.about.shape.maps }
    ensures home { result.home ≡ home_of key.now table.now.about.seed
        (shape_at table.now.about map).mask }
    ensures key { result.key_size ≡ (shape_at table.now.about map).key }
    ensures small { result.key_size ≤ 64 }
    ensures elements { result.elements ≡ elements_of (shape_at table.now.about map) }
{
    let mask = shape_of(table, map).mask;
    homed(table, map, home(key, table.about().seed, mask))
}
