//! The values of arrays at rest.
ghost use Rattle.std.specs.Prelude.{◌≡◌, ◌+◌, ◌<◌, ◌≤◌, ℕ, true, take, length, IfOk, IfSome, option_map};
ghost use Rattle.bpf_shared.specs.Shape.{IsArrayShape, copies, copy_stride, array_stride};
ghost use Rattle.bpf_shared.specs.Store.{Plain};
ghost use Rattle.hop_layout.specs.declared.place.Place.TheVariants.{FixedWord};
ghost use Rattle.hop_layout.specs.Layout.{mem, is_place, words_for};
ghost use Rattle.hop_layout.specs.Words.{bytes_of_words};
ghost use Rattle.hop_words.specs.Ghost.{fixed_word};
ghost use Rattle.hop_map.specs.Dumping.{IsLast, fixed_of};
ghost use Rattle.hop_map.specs.Private.Dumping.{array_with, fixed_in};

use crate::closed::Closed;
use crate::dumping::push_word;
use bpf_shared::ArrayShape;
use hop_layout::Place;
use hop_words::Rest;
use std::alloc::{AllocError, Global};

// The array of this number, if it has this index, of this CPU if each has its own.
fn array_with(rest: &Rest, array: u64, copy: u8, index: u64) -> Option<ArrayShape>
    ensures { result ≡ array_with rest.now.about.shape array copy index }
{
    let shape = &rest.about().shape;
    let array = shape.arrays().get(array as usize)?;
    if u64::from(copy) >= array.copies(shape.cpus()) {
        return None;
    }
    if index >= array.max {
        return None;
    }
    Some(*array)
}

// The first of a value's words among those of its array.
fn first_word(rest: &Rest, array: &ArrayShape, copy: u8, index: u64) -> u32
    requires shape { IsArrayShape rest.now.about.shape.cpus array.now }
    requires copy { copy < copies rest.now.about.shape.cpus array.now }
    requires index { index < array.now.max }
    ensures first { result ≡ fixed_word array.now copy index }
{
    let _cpus = rest.about().shape.cpus();
    let at = u64::from(copy) * array.copy_stride() + index * array.stride();
    (at / 8) as u32
}

// The value in words of an array, from the first of them on.
fn read_words(
    alloc: Global,
    rest: &Rest,
    array: u8,
    first: u32,
    size: usize,
) -> Result<Vec<u8>, AllocError>
    requires there { (word : ℕ) → word < words_for size
        → is_place rest.now.about.shape (FixedWord array (first + word)) ≡ true }
    requires room { first + words_for size ≤ 0x200_0000 }
    ensures { IfOk result (λ value. value.items ≡ fixed_in rest.now array first size) }
{
    let words = size.div_ceil(8);
    let mut bytes = Vec::with_capacity(alloc, 8 * words)?;
    'words: for word in 0..words {
        let place = Place::FixedWord {
            array,
            word: first + word as u32,
        };
        push_word(&mut bytes, rest.word(place))?;
    }
    bytes.truncate(size);
    Ok(bytes)
}

impl Closed {
    /// The bytes of the value of an index of an array, of a CPU if each has its own; else it is that
    /// of CPU 0. None where there is no such value. Out of memory is the only refusal.
    pub fn fixed(
        &self,
        alloc: Global,
        array: u64,
        copy: u8,
        index: u64,
    ) -> Result<Option<Vec<u8>>, AllocError>
        ensures shows { IfOk result (λ value. (last : Plain) → IsLast self.now last →
            fixed_of last array copy index ≡ option_map (λ bytes. bytes.items) value) }
    {
        let _about = self.rest.about();
        let Some(shape) = array_with(&self.rest, array, copy, index) else {
            return Ok(None);
        };
        let first = first_word(&self.rest, &shape, copy, index);
        let bytes = read_words(alloc, &self.rest, array as u8, first, shape.value as usize)?;
        Ok(Some(bytes))
    }
}
