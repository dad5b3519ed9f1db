//! The words that a segment has in the store.
ghost use Rattle.std.specs.Prelude.{◌≡◌, ◌<◌};
ghost use Rattle.hop_layout.specs.declared.place.Place.TheVariants.{Head, Hop, Slot, Link};

use hop_layout::Place;

/// The word of a bucket's hop information.
#[inline(always)]
pub(crate) fn hop_place(map: u8, segment: u32, bucket: usize) -> Place
    requires { bucket < 64 }
    ensures { result ≡ Hop map segment bucket }
{
    Place::Hop {
        map,
        segment,
        bucket: bucket as u32,
    }
}

/// The word of the item at a place.
#[inline(always)]
pub(crate) fn slot_place(map: u8, segment: u32, place: usize) -> Place
    requires { place < 64 }
    ensures { result ≡ Slot map segment place }
{
    Place::Slot {
        map,
        segment,
        place: place as u32,
    }
}

/// The word of the overflow list's first element.
#[inline(always)]
pub(crate) fn head_place(map: u8, segment: u32) -> Place
    ensures { result ≡ Head map segment }
{
    Place::Head { map, segment }
}

/// The word of the element after an element.
#[inline(always)]
pub(crate) fn link_place(map: u8, element: u32) -> Place
    ensures { result ≡ Link map element }
{
    Place::Link { map, element }
}
