//! Making a store's words, and dealing its CPUs.
ghost use Rattle.std.specs.Prelude.{◌≡◌, ◌+◌, ◌/◌, ◌<◌, ◌^◌, true, length, IfOk};
ghost use Rattle.bpf_shared.specs.Shape.{IsMapShape, IsShape, copy_stride, contents_of as first_contents};
ghost use Rattle.hop_layout.specs.Layout.{is_place, mem, put_at, size};
ghost use Rattle.hop_layout.specs.Words.{AreBytes};
ghost use Rattle.hop_words.specs.Ghost.{shape_at, array_at};
ghost use Rattle.hop_words.specs.Private.Made.{IsPartly, IsFilled, IsCopyStart, AreNewWords};

use bpf_shared::{ArrayShape, MapShape, StoreShape};
use hop_layout::{Index, Place, elements, first_depth, segments, word_of};
use std::alloc::{AllocError, Global};

// Writes a word.
fn put(words: &mut Vec<u64>, index: &Index, place: Place, number: u64)
    requires there { is_place index.now.shape place ≡ true }
    requires sized { length words.old.items ≡ size index.now.shape }
    ensures sized { length words.new.items ≡ size index.now.shape }
    ensures put { mem index.now.shape words.new.items
        ≡ put_at (mem index.now.shape words.old.items) place number }
{
    let word = index.word_of(place);
    words[word] = number;
}

// The words of one more map: all elements are free, and no segment is locked.
fn put_map(words: &mut Vec<u64>, index: &Index, map: u8, shape: &MapShape)
    requires map { map < length index.now.shape.maps }
    requires shape { shape.now ≡ shape_at index.now map }
    requires sizes { IsMapShape shape.now }
    requires version { index.now.version < 2 ^ 56 }
    requires sized { length words.old.items ≡ size index.now.shape }
    requires partly { IsPartly index.now (mem index.now.shape words.old.items) index.now.shape.cpus
        map 0 0 }
    ensures sized { length words.new.items ≡ size index.now.shape }
    ensures partly { IsPartly index.now (mem index.now.shape words.new.items) index.now.shape.cpus
        (map + 1) 0 0 }
{
    'bits: for word in 0..elements(shape).div_ceil(64) {
        put(words, index, Place::FreeBits { map, word }, u64::MAX);
    }
    let stamp = index.about().version * 256 + 2 * u64::from(first_depth(shape));
    'stamps: for segment in 0..segments(shape) {
        put(words, index, Place::Stamp { map, segment }, stamp);
    }
}

// What an array has at first, without the zeros that follow.
fn contents_of(shape: &StoreShape, array: usize) -> &[u8]
    ensures { result.now ≡ first_contents shape.now array }
{
    match shape.contents().get(array) {
        Some(bytes) => bytes,
        None => &[],
    }
}

// The words of one CPU's values of an array, which begin with this word.
fn put_copy(words: &mut Vec<u64>, index: &Index, array: u8, first: u32, bytes: &[u8])
    requires shaped { IsShape index.now.shape }
    requires array { array < length index.now.shape.arrays }
    requires first { IsCopyStart index.now array first }
    requires bytes { bytes.now ≡ first_contents index.now.shape array }
    requires sized { length words.old.items ≡ size index.now.shape }
    requires filled { IsFilled index.now (mem index.now.shape words.old.items) array first }
    ensures sized { length words.new.items ≡ size index.now.shape }
    ensures filled { IsFilled index.now (mem index.now.shape words.new.items) array
        (first + copy_stride (array_at index.now array) / 8) }
    ensures bytes { AreBytes (first_contents index.now.shape array) }
{
    'words: for word in 0..bytes.len().div_ceil(8) as u32 {
        let place = Place::FixedWord {
            array,
            word: first + word,
        };
        put(words, index, place, word_of(bytes, word as usize));
    }
}

// The words of one more array.
fn put_array(words: &mut Vec<u64>, index: &Index, array: u8, shape: &ArrayShape)
    requires shaped { IsShape index.now.shape }
    requires array { array < length index.now.shape.arrays }
    requires shape { shape.now ≡ array_at index.now array }
    requires sized { length words.old.items ≡ size index.now.shape }
    requires filled { IsFilled index.now (mem index.now.shape words.old.items) array 0 }
    ensures sized { length words.new.items ≡ size index.now.shape }
    ensures filled { IsFilled index.now (mem index.now.shape words.new.items) (array + 1) 0 }
    ensures bytes { AreBytes (first_contents index.now.shape array) }
{
    let bytes = contents_of(&index.about().shape, usize::from(array));
    let copy_words = (shape.copy_stride() / 8) as u32;
    'copies: for copy in 0..shape.copies(index.about().shape.cpus()) as u32 {
        put_copy(words, index, array, copy * copy_words, bytes);
    }
}

// The words of all arrays, after those of maps.
fn put_arrays(words: &mut Vec<u64>, index: &Index)
    requires sized { length words.old.items ≡ size index.now.shape }
    requires partly { IsPartly index.now (mem index.now.shape words.old.items) index.now.shape.cpus
        (length index.now.shape.maps) 0 0 }
    ensures sized { length words.new.items ≡ size index.now.shape }
    ensures made { AreNewWords index.now (mem index.now.shape words.new.items) }
{
    'arrays: for (array, shape) in index.about().shape.arrays().iter().enumerate() {
        put_array(words, index, array as u8, shape);
    }
}

// The words of a store as made.
pub(crate) fn first_words(alloc: Global, index: &Index) -> Result<Vec<u64>, AllocError>
    requires { index.now.version < 2 ^ 56 }
    ensures sized { IfOk result (λ v. length v.items ≡ size index.now.shape) }
    ensures made { IfOk result (λ v. AreNewWords index.now (mem index.now.shape v.items)) }
{
    let mut words = vec![in alloc; 0; index.words()]?;
    'runs: for cpu in 0..index.about().shape.cpus() {
        put(
            &mut words,
            index,
            Place::RunCount { cpu },
            index.about().count,
        );
    }
    'maps: for (map, shape) in index.about().shape.maps().iter().enumerate() {
        put_map(&mut words, index, map as u8, shape);
    }
    put_arrays(&mut words, index);
    Ok(words)
}
