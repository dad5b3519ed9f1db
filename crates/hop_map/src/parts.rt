//! The bytes of a value as part of one of its words.
ghost use Rattle.std.specs.Prelude.{◌≡◌, ◌+◌, ◌*◌, ◌/◌, ◌%◌, ◌<◌, ◌≤◌};
ghost use Rattle.bpf_base.specs.Bytes.{low_bytes, modulus, with_part};
ghost use Rattle.bpf_shared.specs.Access.{bytes_in};
ghost use Rattle.hop_words.specs.declared.known.Known.{Known};
ghost use Rattle.bpf_shared.specs.Passage.{IsFixedPlace};
ghost use Rattle.hop_words.specs.Kinds.{number_in_word};
ghost use Rattle.hop_words.specs.Touching.{TouchesPart, TouchesFixed, ChangesFixed, part_address, fixed_part_address};
ghost use Rattle.hop_map.specs.Private.Accesses.{IsValuePlace, IsHeldAt, IsFixedAt, IsFreeAt};

use crate::homing::shape_of;
use bpf_shared::bytes::{load, store};
use bpf_shared::{FIRST_ARRAY, FIRST_VALUE, MAP_AREA, Size, ValuePlace};
use hop_words::{FixedPart, HopTable, ValuePart};

// Which value of n bytes each a byte lies in, and where in it. Each begins at a whole word; values
// of one word need no division.
fn divided(within: u64, value: u64) -> (u64, u64)
    requires { (1 ≤ value) × (value ≤ 256) }
    ensures value { result.0 ≡ within / ((value + 7) / 8 * 8) }
    ensures place { result.1 ≡ within % ((value + 7) / 8 * 8) }
{
    if value <= 8 {
        return (within / 8, within % 8);
    }
    // `div_ceil` would test the remainder.
    let stride = (value + 7) / 8 * 8;
    (within / stride, within % stride)
}

/// The word that the bytes lie in, and their place there.
pub(crate) fn part_at(table: &HopTable, at: ValuePlace, size: Size) -> ValuePart
    requires there { IsValuePlace table.now.about at.at (bytes_in size) }
    ensures touches { (l : Known) → IsHeldAt table.now.about l at.at (bytes_in size)
        → TouchesPart table.now.about l result }
    ensures at { part_address table.now.about result ≡ at.at }
    ensures size { result.size ≡ size }
{
    let _cpus = table.about().shape.cpus();
    let above = at.at - FIRST_VALUE;
    let map = (above / MAP_AREA) as u8;
    let within = above % MAP_AREA;
    let (element, place) = divided(within, shape_of(table, map).value);
    ValuePart {
        map,
        element: element as u32,
        word: (place / 8) as u32,
        // Strides are whole words. So a caller that knows the address knows this too.
        offset: (within % 8) as u32,
        size,
    }
}

/// The word of an array that the bytes lie in, and their place there.
#[inline(always)]
pub(crate) fn fixed_part_at(table: &HopTable, at: ValuePlace, size: Size) -> FixedPart
    requires there { IsFixedPlace table.now.about.shape at.at (bytes_in size) }
    ensures touches { (l : Known) → IsFixedAt table.now.about l at.at (bytes_in size)
        → TouchesFixed table.now.about l result }
    ensures changes { (l : Known) → IsFreeAt table.now.about l at.at (bytes_in size)
        → ChangesFixed table.now.about l result }
    ensures at { fixed_part_address result ≡ at.at }
    ensures size { result.size ≡ size }
{
    let _cpus = table.about().shape.cpus();
    let above = at.at - FIRST_VALUE;
    let within = above % MAP_AREA;
    FixedPart {
        array: (above / MAP_AREA - FIRST_ARRAY) as u8,
        word: (within / 8) as u32,
        offset: (within % 8) as u32,
        size,
    }
}

/// The number that bytes read as in a word, from an offset on.
pub(crate) fn number_in(word: u64, offset: u32, size: Size) -> u64
    requires fits { offset + bytes_in size ≤ 8 }
    ensures value { result ≡ number_in_word word offset (bytes_in size) }
    ensures small { result < modulus (bytes_in size) }
{
    load(&word.to_le_bytes(), offset as usize, size)
}

/// A word with other bytes there: the low ones of a number. All else of it stays.
pub(crate) fn with_number(word: u64, offset: u32, size: Size, number: u64) -> u64
    requires fits { offset + bytes_in size ≤ 8 }
    ensures { low_bytes 8 result
        ≡ with_part (low_bytes 8 word) offset (low_bytes (bytes_in size) number) }
{
    let mut bytes = word.to_le_bytes();
    store(&mut bytes, offset as usize, size, number);
    u64::from_le_bytes(bytes)
}
