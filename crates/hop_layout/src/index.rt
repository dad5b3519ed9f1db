//! Where each word is, as numbers that are computed once.
ghost use Rattle.std.specs.Prelude.{◌≡◌, ◌+◌, ◌*◌, ◌/◌, ◌%◌, ◌<◌, ◌≤◌, ◌^◌, true, length, IfOk};
ghost use Rattle.hop_layout.specs.Layout.{is_place, at, size, line_rest, depth_from, segments, map_shape, words_for as word_count, power, first_depth, array_shape, array_words};
ghost use Rattle.hop_layout.specs.declared.place.Place.TheVariants.{FixedWord};
ghost use Rattle.bpf_shared.specs.Shape.{IsMapShape, IsArrayShape, copies, copy_stride, elements as element_count};
ghost use Rattle.hop_layout.specs.Private.Index.{bases, bases_from, end_from, AreArrayBases};

use crate::about::About;
use crate::place::Place;
use bpf_shared::{ArrayShape, MapShape, StoreShape};
use std::alloc::{AllocError, Global};
use std::marker::Model;

/// Where a map's words begin, by their kinds, the words of a key and of a value, and the depth of
/// the map's segments as made.
#[derive(Clone, Copy, Drop)]
struct Bases {
    start: u32,
    segments: u32,
    links: u32,
    keys: u32,
    values: u32,
    key_words: u32,
    value_words: u32,
    first: u32,
}

// Of no map.
const NO_BASES: Bases = Bases {
    start: 0,
    segments: 0,
    links: 0,
    keys: 0,
    values: 0,
    key_words: 0,
    value_words: 0,
    first: 0,
};

/// Where the words of a store are. It is seen as what the store was given when it was made.
#[derive(Drop)]
pub struct Index {
    about: About,
    // by map, of which there are at most 16: in line, so that a base is one load
    maps: [Bases; 16],
    arrays: Vec<u32>,
    words: usize,
}

impl Model for Index {
    ghost use Rattle.hop_layout.specs.declared.about.About.{About};
    ghost use Rattle.hop_layout.specs.Private.Index.{IsIndex};

    ghost Value = { About };

    ghost view = { λ i. i.about };

    ghost invariant = { λ i. IsIndex i.about.shape i.maps i.arrays.items i.words };
}

// How many words are left of a line of eight after n.
fn line_rest(words: u32) -> u32
    ensures { result ≡ line_rest words }
{
    (8 - words % 8) % 8
}

/// How often the segments of a map double, from one on, until each key may have a place of 64.
#[tactic(auto, using(crate::proofs::Depths::depth_on, crate::proofs::Depths::depth_stop, crate::proofs::Depths::depth_end))]
pub fn depth(max: u64) -> u32
    requires { max ≤ 65536 }
    ensures value { result ≡ depth_from 10 64 max }
    ensures most { result ≤ 10 }
{
    for depth in 0..10 {
        if max <= 64 << depth {
            return depth;
        }
    }
    10
}

/// The depth of a map's segments as made: one that grows begins with one segment.
pub fn first_depth(shape: &MapShape) -> u32
    requires { IsMapShape shape.now }
    ensures value { result ≡ first_depth shape.now }
    ensures most { result ≤ 10 }
{
    if shape.grow { 0 } else { depth(shape.max) }
}

/// How many segments a map has: a power of two.
pub fn segments(shape: &MapShape) -> u32
    requires { IsMapShape shape.now }
    ensures { result ≡ segments shape.now }
{
    1 << depth(shape.max)
}

// How many words the segments of a map have.
fn segment_words(shape: &MapShape) -> u32
    requires { IsMapShape shape.now }
    ensures words { result ≡ 130 * segments shape.now }
    ensures most { result ≤ 133120 }
{
    130 << depth(shape.max)
}

/// How many elements a map has.
pub fn elements(shape: &MapShape) -> u32
    requires { IsMapShape shape.now }
    ensures elements { result ≡ element_count shape.now }
    ensures most { result ≤ 131072 }
{
    (shape.max + shape.spare) as u32
}

// How many words n bytes lie in.
fn words_for(bytes: u64) -> u32
    requires { bytes ≤ 256 }
    ensures words { result ≡ word_count bytes }
    ensures most { result ≤ 32 }
{
    bytes.div_ceil(8) as u32
}

// How many words n elements have.
fn product(elements: u32, words: u32) -> u32
    requires elements { elements ≤ 131072 }
    requires words { words ≤ 32 }
    ensures product { result ≡ elements * words }
    ensures most { result ≤ 4194304 }
{
    elements * words
}

// Where the words of a map begin, by their kinds, if they begin here, and where they end.
fn lay_out(start: u32, shape: &MapShape) -> (Bases, u32)
    requires shape { IsMapShape shape.now }
    requires small { start ≤ 2 ^ 28 }
    ensures bases { result.0 ≡ bases_from start shape.now }
    ensures end { result.1 ≡ end_from start shape.now }
    ensures most { result.1 ≤ start + 2 ^ 24 }
{
    let elements = elements(shape);
    let segment_words = segment_words(shape);
    let key_words = words_for(shape.key);
    let value_words = words_for(shape.value);
    let free_words = elements.div_ceil(64);
    let all_keys = product(elements, key_words);
    let all_values = product(elements, value_words);
    let segments = start + 8 + free_words + line_rest(free_words);
    let links = segments + segment_words;
    let keys = links + elements;
    let values = keys + all_keys;
    let end = values + all_values;
    let bases = Bases {
        start,
        segments,
        links,
        keys,
        values,
        key_words,
        value_words,
        first: first_depth(shape),
    };
    (
        bases,
        end + line_rest(segment_words + elements + all_keys + all_values),
    )
}

// How many words an array's values have, those of all CPUs.
fn words_of(cpus: u8, array: &ArrayShape) -> u32
    requires shape { IsArrayShape cpus array.now }
    requires cpus { cpus ≤ 16 }
    ensures words { result ≡ copies cpus array.now * copy_stride array.now / 8 }
    ensures most { result ≤ 2 ^ 25 }
{
    (array.copies(cpus) * array.copy_stride() / 8) as u32
}

// Where each array's words begin, the first here, and where the last one's end.
fn lay_out_arrays(
    alloc: Global,
    shape: &StoreShape,
    first: u32,
) -> Result<(Vec<u32>, u32), AllocError>
    requires first { first ≡ at shape.now (FixedWord 0 0) }
    requires small { first ≤ 2 ^ 29 }
    ensures starts { IfOk result (λ r. AreArrayBases shape.now (length shape.now.arrays) r.0.items) }
    ensures end { IfOk result (λ r. r.1 ≡ size shape.now) }
{
    let mut starts = Vec::new(alloc);
    let mut end = first;
    for array in shape.arrays() {
        starts.push(end)?;
        end += words_of(shape.cpus(), array);
    }
    Ok((starts, end))
}

impl Index {
    /// Where the words of a store of this shape are.
    pub fn new(alloc: Global, about: About) -> Result<Index, AllocError>
        ensures { IfOk result (λ i. i ≡ about) }
    {
        let mut maps = [NO_BASES; 16];
        let mut start = 8 * u32::from(about.shape.cpus());
        let shapes = about.shape.maps();
        'maps: for map in 0..shapes.len() {
            let (bases, end) = lay_out(start, &shapes[map]);
            maps[map] = bases;
            start = end;
        }
        let (arrays, end) = lay_out_arrays(alloc, &about.shape, start)?;
        Ok(Index {
            about,
            maps,
            arrays,
            words: end as usize,
        })
    }

    /// What the store was given when it was made.
    pub fn about(&self) -> &About
        ensures { result.now ≡ self.now }
    {
        &self.about
    }

    /// How many words the store has.
    pub fn words(&self) -> usize
        ensures { result ≡ size self.now.shape }
    {
        self.words
    }

    /// Where the word of a place is.
    #[inline(always)]
    #[tactic(auto, using(crate::proofs::Indexes::map_there, crate::proofs::Indexes::array_there))]
    pub fn word_of(&self, place: Place) -> usize
        requires there { is_place self.now.shape place ≡ true }
        ensures word { result ≡ at self.now.shape place }
    {
        match place {
            Place::RunCount { cpu } => 8 * usize::from(cpu),
            Place::KeyCount { map } => self.bases(map).start as usize,
            Place::FreeBits { map, word } => self.bases(map).start as usize + 8 + word as usize,
            Place::Stamp { map, segment } => self.segment(map, segment),
            Place::Head { map, segment } => self.segment(map, segment) + 1,
            Place::Hop {
                map,
                segment,
                bucket,
            } => self.segment(map, segment) + 2 + 2 * bucket as usize,
            Place::Slot {
                map,
                segment,
                place,
            } => self.segment(map, segment) + 3 + 2 * place as usize,
            Place::Link { map, element } => self.bases(map).links as usize + element as usize,
            Place::KeyWord { map, element, word } => {
                let bases = self.bases(map);
                bases.keys as usize + element as usize * bases.key_words as usize + word as usize
            }
            Place::ValueWord { map, element, word } => {
                let bases = self.bases(map);
                bases.values as usize
                    + element as usize * bases.value_words as usize
                    + word as usize
            }
            Place::FixedWord { array, word } => self.array(array) as usize + word as usize,
        }
    }

    /// The number of the segment that a home lies in as made.
    #[inline(always)]
    pub fn first_segment(&self, map: u8, home: u32) -> u32
        requires there { map < length self.now.shape.maps }
        ensures segment { result ≡ home % power (first_depth (map_shape self.now.shape map)) }
        ensures inside { result < segments (map_shape self.now.shape map) }
    {
        home % (1 << self.bases(map).first)
    }

    /// The depth of a map's segments as made.
    #[inline(always)]
    #[tactic(auto, using(crate::proofs::Depths::first_most))]
    pub fn first_depth_of(&self, map: u8) -> u32
        requires there { map < length self.now.shape.maps }
        ensures depth { result ≡ first_depth (map_shape self.now.shape map) }
        ensures most { result ≤ 10 }
    {
        self.bases(map).first
    }

    // Where a map's words begin.
    #[inline(always)]
    fn bases(&self, map: u8) -> Bases
        requires there { map < length self.now.shape.maps }
        ensures bases { result ≡ bases self.now.shape map }
    {
        self.maps[usize::from(map)]
    }

    // Where an array's words begin.
    #[inline(always)]
    fn array(&self, array: u8) -> u32
        requires there { array < length self.now.shape.arrays }
        ensures start { result ≡ at self.now.shape (FixedWord array 0) }
    {
        self.arrays[usize::from(array)]
    }

    // Where the words of a segment begin.
    #[inline(always)]
    fn segment(&self, map: u8, segment: u32) -> usize
        requires there { is_place self.now.shape (Place.Stamp map segment) ≡ true }
        ensures word { result ≡ at self.now.shape (Place.Stamp map segment) }
        ensures small { result < 2 ^ 40 }
    {
        self.bases(map).segments as usize + 130 * segment as usize
    }
}
