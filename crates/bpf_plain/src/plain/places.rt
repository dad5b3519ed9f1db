//! The fixed values of a `PlainStore`, by their addresses.
ghost use Rattle.std.specs.Prelude.{◌≡◌, ◌+◌, ◌<◌, ◌≤◌, false, IfSome, IfNone, length, option_map};
ghost use Rattle.bpf_base.specs.Bytes.{little_endian, low_bytes, modulus, part, with_part};
ghost use Rattle.bpf_shared.specs.Access.{bytes_in};
ghost use Rattle.bpf_shared.specs.Passage.{IsFixedPlace};
ghost use Rattle.bpf_plain.specs.Private.Contents.{shape_of, bytes_of, with_array};
ghost use Rattle.bpf_plain.specs.Private.Places.{array_at, offset_at};
ghost use Rattle.bpf_plain.specs.Shows.{ShowsByte, ShowsFixed, ShowsNoByte};

use super::PlainStore;
use bpf_shared::bytes::{load, store};
use bpf_shared::{FIRST_ARRAY, FIRST_VALUE, MAP_AREA, Size};

/// Where the first array's values begin: maps' values are at lower addresses.
pub(super) const FIRST_FIXED: u64 = FIRST_VALUE + MAP_AREA * FIRST_ARRAY;

/// Where among the bytes of a store's arrays a value's bytes are.
#[derive(Clone, Copy)]
struct Place {
    array: usize,
    offset: usize,
}

/// As many bytes from an offset on.
fn bytes_from(bytes: &[u8], first: usize, count: usize) -> &[u8]
    requires { first + count ≤ length bytes.now }
    ensures { result.now ≡ part bytes.now first count }
{
    &bytes[first..first + count]
}

impl PlainStore {
    /// Where the bytes at an address in a fixed value are.
    fn place(&self, at: u64, size: Size) -> Place
        requires { IsFixedPlace (shape_of self.now) at (bytes_in size) }
        ensures array { result.array ≡ array_at at }
        ensures offset { result.offset ≡ offset_at at }
        ensures there { result.array < length self.now.arrays }
        ensures inside { result.offset + bytes_in size ≤ length (bytes_of self.now result.array) }
    {
        let _ = &self.arrays;
        let above = at - FIRST_VALUE;
        Place {
            array: (above / MAP_AREA - FIRST_ARRAY) as usize,
            offset: (above % MAP_AREA) as usize,
        }
    }

    /// The number that the bytes at a place in a fixed value read as.
    pub(super) fn load_fixed(&self, at: u64, size: Size) -> u64
        requires { IsFixedPlace (shape_of self.now) at (bytes_in size) }
        ensures value { result ≡ little_endian
            (part (bytes_of self.now (array_at at)) (offset_at at) (bytes_in size)) }
        ensures fits { result < modulus (bytes_in size) }
    {
        let place = self.place(at, size);
        load(&self.arrays[place.array], place.offset, size)
    }

    /// The bytes at a place in a fixed value that isn't read only become the low bytes of the word.
    pub(super) fn store_fixed(&mut self, at: u64, size: Size, word: u64)
        requires { (p : IsFixedPlace (shape_of self.old) at (bytes_in size))
            × (p.array.frozen ≡ false) }
        ensures { self.new ≡ with_array self.old (array_at at)
            (with_part (bytes_of self.old (array_at at)) (offset_at at)
            (low_bytes (bytes_in size) word)) }
    {
        let place = self.place(at, size);
        store(&mut self.arrays[place.array], place.offset, size, word);
    }

    /// The byte at an address at which no map has values.
    fn peek_fixed(&self, address: u64) -> Option<u8>
        requires { FIRST_FIXED ≤ address }
        ensures found { IfSome result (ShowsByte self.now address) }
        ensures none { IfNone result (ShowsNoByte self.now address) }
    {
        self.maps.values_are_low();
        let above = address - FIRST_VALUE;
        let number = (above / MAP_AREA - FIRST_ARRAY) as usize;
        let offset = above % MAP_AREA;
        let array = self.shape.arrays().get(number)?;
        if array.has(self.shape.cpus(), offset, 1) {
            Some(self.arrays[number][offset as usize])
        } else {
            None
        }
    }

    /// The byte at an address, of the one value there that is in a map, kept or fixed.
    pub fn peek(&self, address: u64) -> Option<u8>
        ensures found { IfSome result (ShowsByte self.now address) }
        ensures none { IfNone result (ShowsNoByte self.now address) }
    {
        if address < FIRST_FIXED {
            self.maps.peek(address)
        } else {
            self.peek_fixed(address)
        }
    }

    /// The bytes of the value of an index of an array, of a CPU if each has its own; else it is that
    /// of CPU 0. None where there is no such value.
    pub fn fixed(&self, array: u64, copy: u8, index: u64) -> Option<&[u8]>
        ensures { ShowsFixed self.now array copy index (option_map (λ value. value.now) result) }
    {
        let shape = self.shape.arrays().get(array as usize)?;
        if u64::from(copy) >= shape.copies(self.shape.cpus()) {
            return None;
        }
        if index >= shape.max {
            return None;
        }
        let at = u64::from(copy) * shape.copy_stride() + index * shape.stride();
        let bytes = self.arrays[array as usize].as_slice();
        Some(bytes_from(bytes, at as usize, shape.value as usize))
    }
}
