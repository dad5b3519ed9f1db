//! The pairs of a map at rest.
ghost use Rattle.std.specs.Prelude.{◌≡◌, ◌++◌, ◌<◌, ◌≤◌, ℕ, false, Some, IfOk, OnOk, length};
ghost use Rattle.bpf_base.specs.Bytes.{low_bytes};
ghost use Rattle.bpf_shared.specs.Shape.{IsMapShape};
ghost use Rattle.bpf_shared.specs.Store.{Plain};
ghost use Rattle.bpf_shared.specs.Listing.{IsListing, listed};
ghost use Rattle.hop_words.specs.Content.{item, IsOnList};
ghost use Rattle.hop_layout.specs.Births.{is_born};
ghost use Rattle.hop_layout.specs.Layout.{depth, segments};
ghost use Rattle.hop_words.specs.Ghost.{shape_at, HasElement, IsSegment};
ghost use Rattle.hop_map.specs.Private.Dumping.{words_in, key_in, value_in, IsReached, IsKeyAmong, AreFound, AddsPairs};
ghost use Rattle.hop_map.specs.Dumping.{rest_depths, IsBornHere, born_below, IsLast};

use crate::closed::Closed;
use crate::numbers::item;
use bpf_shared::MapShape;
use hop_layout::{Place, depth, elements, segments};
use hop_words::Rest;
use std::alloc::{AllocError, Global};
use std::collections::BTreeMap;

// Keys with their values.
type Pairs = BTreeMap<Vec<u8>, Vec<u8>>;

// The sizes of a map.
pub(crate) fn shape_of(rest: &Rest, map: u8) -> MapShape
    requires map { map < length rest.now.about.shape.maps }
    ensures shape { result ≡ shape_at rest.now.about map }
    ensures sizes { IsMapShape result }
{
    rest.about().shape.maps()[usize::from(map)]
}

// Puts the bytes of a word after others, the lowest first.
pub(crate) fn push_word(bytes: &mut Vec<u8>, word: u64) -> Result<(), AllocError>
    ensures { OnOk result (bytes.new.items ≡ bytes.old.items ++ low_bytes 8 word) }
{
    bytes.extend_from_slice(&word.to_le_bytes())
}

// The key in an element's words.
fn read_key(alloc: Global, rest: &Rest, map: u8, element: u32) -> Result<Vec<u8>, AllocError>
    requires element { HasElement rest.now.about map element }
    ensures { IfOk result (λ key. key.items ≡ key_in rest.now map element) }
{
    let size = shape_of(rest, map).key as usize;
    let words = size.div_ceil(8);
    let mut bytes = Vec::with_capacity(alloc, 8 * words)?;
    'words: for word in 0..words {
        let place = Place::KeyWord {
            map,
            element,
            word: word as u32,
        };
        push_word(&mut bytes, rest.word(place))?;
    }
    bytes.truncate(size);
    Ok(bytes)
}

// The value in an element's words.
fn read_value(alloc: Global, rest: &Rest, map: u8, element: u32) -> Result<Vec<u8>, AllocError>
    requires element { HasElement rest.now.about map element }
    ensures { IfOk result (λ value. value.items ≡ value_in rest.now map element) }
{
    let size = shape_of(rest, map).value as usize;
    let words = size.div_ceil(8);
    let mut bytes = Vec::with_capacity(alloc, 8 * words)?;
    'words: for word in 0..words {
        let place = Place::ValueWord {
            map,
            element,
            word: word as u32,
        };
        push_word(&mut bytes, rest.word(place))?;
    }
    bytes.truncate(size);
    Ok(bytes)
}

// Adds the pair of an element that a segment's words lead to.
fn add(
    alloc: Global,
    rest: &Rest,
    map: u8,
    segment: u32,
    element: u32,
    pairs: &mut Pairs,
) -> Result<(), AllocError>
    requires inside { IsBornHere rest.now map segment }
    requires element { HasElement rest.now.about map element }
    requires reached { IsReached rest.now map segment element }
    ensures adds { OnOk result
        (AddsPairs rest.now map (listed pairs.old.entries) (listed pairs.new.entries)) }
    ensures key { OnOk result
        (IsKeyAmong (key_in rest.now map element) (listed pairs.new.entries)) }
{
    let _segment = segment;
    let key = read_key(alloc, rest, map, element)?;
    let value = read_value(alloc, rest, map, element)?;
    pairs.insert(key, value)?;
    Ok(())
}

// Adds the pair of the element at a place, if there is one.
fn add_at(
    alloc: Global,
    rest: &Rest,
    map: u8,
    segment: u32,
    place: u32,
    pairs: &mut Pairs,
) -> Result<(), AllocError>
    requires inside { IsBornHere rest.now map segment }
    requires place { place < 64 }
    ensures adds { OnOk result
        (AddsPairs rest.now map (listed pairs.old.entries) (listed pairs.new.entries)) }
    ensures key { OnOk result ((i : ℕ)
        → item ((words_in rest.now).slot map segment place) ≡ Some i →
        IsKeyAmong (key_in rest.now map i) (listed pairs.new.entries)) }
{
    let _about = rest.about();
    match item(rest.word(Place::Slot {
        map,
        segment,
        place,
    })) {
        Some(element) => add(alloc, rest, map, segment, element, pairs),
        None => Ok(()),
    }
}

// Adds the pairs of the elements at a segment's places.
fn add_placed(
    alloc: Global,
    rest: &Rest,
    map: u8,
    segment: u32,
    pairs: &mut Pairs,
) -> Result<(), AllocError>
    requires inside { IsBornHere rest.now map segment }
    ensures adds { OnOk result
        (AddsPairs rest.now map (listed pairs.old.entries) (listed pairs.new.entries)) }
    ensures keys { OnOk result ((p i : ℕ) → p < 64 →
        item ((words_in rest.now).slot map segment p) ≡ Some i →
        IsKeyAmong (key_in rest.now map i) (listed pairs.new.entries)) }
{
    'places: for place in 0..64 {
        add_at(alloc, rest, map, segment, place, pairs)?;
    }
    Ok(())
}

// Adds the pairs of the elements on a segment's overflow list.
fn add_listed(
    alloc: Global,
    rest: &Rest,
    map: u8,
    segment: u32,
    pairs: &mut Pairs,
) -> Result<(), AllocError>
    requires inside { IsBornHere rest.now map segment }
    ensures adds { OnOk result
        (AddsPairs rest.now map (listed pairs.old.entries) (listed pairs.new.entries)) }
    ensures keys { OnOk result ((i : ℕ) → IsOnList (words_in rest.now) map segment i →
        IsKeyAmong (key_in rest.now map i) (listed pairs.new.entries)) }
{
    let _about = rest.about();
    let count = elements(&shape_of(rest, map));
    let mut at = item(rest.word(Place::Head { map, segment }));
    'list: for _passed in 0..count {
        let Some(element) = at else {
            return Ok(());
        };
        add(alloc, rest, map, segment, element, pairs)?;
        at = item(rest.word(Place::Link { map, element }));
    }
    Ok(())
}

// Adds the pairs of all elements that a segment's words lead to.
fn add_segment(
    alloc: Global,
    rest: &Rest,
    map: u8,
    segment: u32,
    pairs: &mut Pairs,
) -> Result<(), AllocError>
    requires inside { IsBornHere rest.now map segment }
    ensures adds { OnOk result
        (AddsPairs rest.now map (listed pairs.old.entries) (listed pairs.new.entries)) }
    ensures keys { OnOk result ((i : ℕ) → IsReached rest.now map segment i →
        IsKeyAmong (key_in rest.now map i) (listed pairs.new.entries)) }
{
    add_placed(alloc, rest, map, segment, pairs)?;
    add_listed(alloc, rest, map, segment, pairs)?;
    Ok(())
}

// Whether a segment is born, by the stamps of those that it comes from: each is another without its
// top bit.
pub(crate) fn is_born(rest: &Rest, map: u8, segment: u32) -> bool
    requires inside { IsSegment rest.now.about map segment }
    ensures born { result ≡ is_born (rest_depths rest.now map) (depth (shape_at rest.now.about map))
        segment }
{
    let deepest = depth(shape_of(rest, map).max);
    let mut at = segment;
    'bits: for passed in 0..deepest {
        let bit = deepest - 1 - passed;
        if at < 1 << bit {
            continue;
        }
        at -= 1 << bit;
        let stamp = rest.word(Place::Stamp { map, segment: at });
        if (stamp / 2 % 32) as u32 <= bit {
            return false;
        }
    }
    at == 0
}

// The pairs of all elements that the words of a map lead to.
fn pairs_of(alloc: Global, rest: &Rest, map: u8) -> Result<Pairs, AllocError>
    requires map { map < length rest.now.about.shape.maps }
    ensures found { IfOk result (λ pairs. AreFound rest.now map (listed pairs.entries)) }
    ensures keys { IfOk result (λ pairs. (s i : ℕ) → IsBornHere rest.now map s →
        IsReached rest.now map s i → IsKeyAmong (key_in rest.now map i) (listed pairs.entries)) }
{
    let count = segments(&shape_of(rest, map));
    let mut pairs = BTreeMap::new(alloc);
    'segments: for segment in 0..count {
        if !is_born(rest, map, segment) {
            continue;
        }
        add_segment(alloc, rest, map, segment, &mut pairs)?;
    }
    Ok(pairs)
}

// How many segments of a map are born.
pub(crate) fn count_born(rest: &Rest, map: u8) -> u32
    requires map { map < length rest.now.about.shape.maps }
    ensures counted { result ≡ born_below rest.now map (segments (shape_at rest.now.about map)) }
{
    let count = segments(&shape_of(rest, map));
    let mut born = 0;
    'segments: for segment in 0..count {
        if is_born(rest, map, segment) {
            born += 1;
        }
    }
    born
}

impl Closed {
    /// The keys of a map with their values, in the keys' order; of no map there are none. Want of
    /// memory is the only refusal.
    pub fn dump(&self, alloc: Global, map: u64) -> Result<Vec<(Vec<u8>, Vec<u8>)>, AllocError>
        ensures listed { IfOk result (λ pairs. (last : Plain) → IsLast self.now last →
            IsListing last map (listed pairs.items)) }
    {
        if map >= self.rest.about().shape.maps().len() as u64 {
            return Ok(Vec::new(alloc));
        }
        let found = pairs_of(alloc, &self.rest, map as u8)?;
        let mut pairs = Vec::with_capacity(alloc, found.len())?;
        'found: for pair in found {
            pairs.push(pair)?;
        }
        Ok(pairs)
    }

    /// How many segments of a map are born; of no map there are none.
    pub fn segments(&self, map: u64) -> u32
        ensures none { length self.now.about.shape.maps ≤ map → result ≡ 0 }
        ensures counted { map < length self.now.about.shape.maps →
            result ≡ born_below self.now map (segments (shape_at self.now.about map)) }
        ensures whole { (last : Plain) → IsLast self.now last →
            map < length self.now.about.shape.maps →
            (shape_at self.now.about map).grow ≡ false →
            result ≡ segments (shape_at self.now.about map) }
    {
        if map >= self.rest.about().shape.maps().len() as u64 {
            return 0;
        }
        count_born(&self.rest, map as u8)
    }
}
