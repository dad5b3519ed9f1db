//! Pairs of maps, and values of arrays, as lines `put` say them.

ghost use Rattle.std.specs.Prelude.{◌≡◌, ◌<◌, ◌^◌, ◌++◌, ◌/◌, ◌≤◌, Some, IfOk, IfSome, OnOk, IsOkUnless, length, map, nat_lt, slice_get};
ghost use Rattle.std.specs.List.{slice_split};
ghost use Rattle.hex.specs.Hex.{decode_of};
ghost use Rattle.bpf_base.specs.Bytes.{low_bytes, modulus};
ghost use Rattle.bpf_lines.specs.Words.{written_number};
ghost use Rattle.bpf_pairs.specs.Pairs.{has_key, pair_of};
ghost use Rattle.bpf_file.specs.Contents.{up_to};
ghost use Rattle.bpf_file.specs.Parts.{place_of, with_pair};
ghost use Rattle.bpf_file.specs.Rows.{element_added, element_numbered, is_comma, is_numbered, is_sized, key_put, number_of, numbered_bytes, numbers_of, numbers_put, pair_added, pair_numbered, pair_put, pair_refusal, value_place};
ghost use Rattle.bpf_file.specs.Statement.{said_by};
ghost use Rattle.bpf_file.specs.declared.statement.Statement.TheVariants as statement_kind;
ghost use Rattle.bpf_file.specs.Private.Answers.{OrMemory};
ghost use Rattle.bpf_file.specs.Private.Drafts.{Added, after, part_of};
ghost use Rattle.bpf_file.specs.Private.Fits.{IsFit};
ghost use Rattle.bpf_file.specs.Private.Numbers.{HasNumbers};

use crate::draft::{Draft, Next, decoded};
use crate::error::{FileError, Reason};
use crate::group;
use crate::statement::{NumbersLine, PutLine};
use bpf_lines::words::{self, NumberError};
use bpf_names::bytes_in;
use bpf_pairs::{Pair, count_in, has_key};
use bpf_shared::{ArrayShape, MapShape, ShapeError, Size};
use std::alloc::{AllocError, Global};

/// The most pairs of a file.
const MOST_PAIRS: usize = 4_096;

/// Whether n bytes hold a number.
fn is_held(size: u64, number: u64) -> bool
    ensures { result ≡ nat_lt number (modulus size) }
{
    if size >= 8 {
        true
    } else {
        number >> (8 * size) == 0
    }
}

/// Appends the lowest bytes of a number, the lowest first.
fn push_low(bytes: &mut Vec<u8>, size: u64, number: u64) -> Result<(), AllocError>
    ensures { OnOk result (bytes.new.items ≡ bytes.old.items ++ low_bytes size number) }
{
    let mut left = number;
    for _ in 0..size {
        bytes.push((left % 256) as u8)?;
        left /= 256;
    }
    Ok(())
}

/// The number of a size that a word is.
#[tactic(auto, using(crate::proofs::Puts::too_large))]
fn number_in(word: &[u8], size: Size) -> Result<u64, Reason>
    ensures { result ≡ number_of size (written_number word.now) }
{
    match words::number(word) {
        Ok(number) => {
            if is_held(bytes_in(size) as u64, number) {
                Ok(number)
            } else {
                Err(Reason::BadNumber)
            }
        }
        Err(NumberError::TooLarge) => Err(Reason::BadNumber),
        Err(NumberError::NoNumber) => Err(Reason::BadLine),
    }
}

/// What is between commas.
fn between_commas<'a>(alloc: Global, numbers: &'a [u8]) -> Result<Vec<&'a [u8]>, AllocError>
    ensures { IfOk result (λ words. map (λ w. w.now) words.items
        ≡ slice_split is_comma numbers.now) }
{
    numbers.split(|byte| *byte == b',').collect(alloc)
}

/// The bytes of the numbers of this size that words are, of each the lowest first.
fn bytes_of(alloc: Global, line: usize, size: Size, words: &[&[u8]]) -> Result<Vec<u8>, FileError>
    ensures { HasNumbers line (numbers_of size (map (λ w. w.now) words.now)) result }
{
    let mut bytes = Vec::new(alloc);
    for word in words {
        match number_in(word, size) {
            Ok(number) => {
                let Ok(()) = push_low(&mut bytes, bytes_in(size) as u64, number) else {
                    return Err(FileError::OutOfMemory);
                };
            }
            Err(reason) => return Err(FileError::Refused(line, reason)),
        }
    }
    Ok(bytes)
}

/// The bytes of a line's numbers of this size, which are apart by commas.
fn numbered(alloc: Global, line: usize, size: Size, numbers: &[u8]) -> Result<Vec<u8>, FileError>
    ensures { HasNumbers line (numbered_bytes size numbers.now) result }
{
    let Ok(words) = between_commas(alloc, numbers) else {
        return Err(FileError::OutOfMemory);
    };
    bytes_of(alloc, line, size, &words)
}

/// These bytes, and zeros after them up to this size.
fn padded(bytes: Vec<u8>, size: usize) -> Result<Vec<u8>, AllocError>
    ensures { IfOk result (λ v. v.items ≡ up_to size bytes.items) }
{
    let mut bytes = bytes;
    if bytes.len() < size {
        bytes.resize(size, 0)?;
    }
    Ok(bytes)
}

/// Whether hex digits are a key and a value of a map of this shape.
fn is_sized(shape: MapShape, key: &[u8], value: &[u8]) -> bool
    ensures { result ≡ is_sized (length key.now / 2) (length value.now / 2) shape }
{
    (key.len() / 2) as u64 == shape.key && (value.len() / 2) as u64 == shape.value
}

/// Whether a number is that of a key of a map of this shape, and n bytes are no more than a value.
fn is_numbered(shape: MapShape, number: u64, bytes: usize) -> bool
    ensures { result ≡ is_numbered number bytes shape }
{
    is_held(shape.key, number) && bytes as u64 <= shape.value
}

/// The pair of a number as a key, in the bytes that a map of this shape has for it, and bytes.
fn numbered_pair(
    alloc: Global,
    map: u8,
    shape: MapShape,
    number: u64,
    bytes: Vec<u8>,
) -> Result<Pair, AllocError>
    ensures { IfOk result (λ pair. pair_of pair ≡ record {
      map = map;
      key = low_bytes shape.key number;
      value = up_to shape.value bytes.items;
    }) }
{
    let mut key = Vec::new(alloc);
    push_low(&mut key, shape.key, number)?;
    let value = padded(bytes, shape.value as usize)?;
    Ok(Pair { map, key, value })
}

/// Where the value of an index begins in the array of this number and shape, if it has one, which
/// is to have its size.
fn value_place(array: usize, shape: ArrayShape, fits: bool, index: u64) -> Result<usize, Reason>
    requires value { shape.value ≤ 65536 }
    requires max { shape.max ≤ 65536 }
    ensures place { result ≡ value_place array shape fits (Some index) }
    ensures small { IfOk result (λ at. at ≤ 2 ^ 32) }
{
    if index < shape.max && fits {
        Ok((index * shape.stride()) as usize)
    } else {
        Err(Reason::Shape(ShapeError::ArrayContents { array }))
    }
}

/// Where the value of the index that a field is begins.
#[tactic(auto, using(crate::proofs::Puts::past_all))]
fn written_place(array: usize, shape: ArrayShape, fits: bool, field: &[u8]) -> Result<usize, Reason>
    requires value { shape.value ≤ 65536 }
    requires max { shape.max ≤ 65536 }
    ensures place { result ≡ value_place array shape fits (written_number field.now) }
    ensures small { IfOk result (λ at. at ≤ 2 ^ 32) }
{
    match words::number(field) {
        Ok(index) => value_place(array, shape, fits, index),
        Err(NumberError::TooLarge) => Err(Reason::Shape(ShapeError::ArrayContents { array })),
        Err(NumberError::NoNumber) => Err(Reason::BadLine),
    }
}

impl<'a> Draft<'a> {
    /// The shape of the array of this number.
    fn array_at(&self, array: usize) -> Option<ArrayShape>
        ensures { result ≡ slice_get (part_of self.now).file.arrays array }
    {
        match self.arrays.get(array) {
            Some(shape) => Some(*shape),
            None => None,
        }
    }

    /// The shape of the array of this number, which is in its range.
    fn shape_of(&self, array: usize) -> Option<ArrayShape>
        requires { IsFit (part_of self.now) }
        ensures shape { result ≡ slice_get (part_of self.now).file.arrays array }
        ensures value { IfSome result (λ g. g.value ≤ 65536) }
        ensures max { IfSome result (λ g. g.max ≤ 65536) }
    {
        self.array_at(array)
    }

    /// Why the map of this number and shape can't have one more pair at first, which is to fit it.
    fn pair_refusal(&self, map: usize, shape: MapShape, fits: bool) -> Option<Reason>
        requires { map < 16 }
        ensures { result ≡ pair_refusal (part_of self.now).file map fits shape }
    {
        if self.pairs.len() >= MOST_PAIRS {
            return Some(Reason::BadLine);
        }
        if fits && (count_in(map as u8, &self.pairs) as u64) < shape.max {
            None
        } else {
            Some(Reason::BadPair)
        }
    }

    /// Whether the map of this number has this key at first.
    fn has_key(&self, map: u8, key: &[u8]) -> bool
        ensures { result ≡ has_key map key.now (part_of self.now).file.pairs }
    {
        has_key(map, key, &self.pairs)
    }

    fn push_pair(&mut self, pair: Pair) -> Result<(), FileError>
        ensures ok { OnOk result
            (part_of self.new ≡ with_pair (part_of self.old) (pair_of pair)) }
        ensures memory { IsOkUnless result FileError.OutOfMemory }
    {
        self.pairs.push(pair).map_err(|_| FileError::OutOfMemory)?;
        self.group = 6;
        Ok(())
    }

    /// A pair of a map that has room for it.
    fn put_pair(&mut self, line: usize, pair: Pair) -> Result<Next<'a>, FileError>
        ensures { OrMemory (λ a. after line (part_of self.new) a
            ≡ pair_put line (part_of self.old) (pair_of pair)) result }
    {
        if self.has_key(pair.map, &pair.key) {
            return Err(FileError::Refused(line, Reason::BadPair));
        }
        self.push_pair(pair)?;
        Ok(Next::Line)
    }

    /// A pair by digits, of a map that has room for it.
    fn put_digits(
        &mut self,
        alloc: Global,
        line: usize,
        map: u8,
        said: PutLine<'_>,
    ) -> Result<Next<'a>, FileError>
        ensures { OrMemory (λ a. after line (part_of self.new) a
            ≡ key_put line (part_of self.old) map (decode_of said.entry.key.now)
            (decode_of said.entry.value.now)) result }
    {
        let key = decoded(alloc, line, said.key)?;
        if self.has_key(map, &key) {
            return Err(FileError::Refused(line, Reason::BadPair));
        }
        let value = decoded(alloc, line, said.value)?;
        self.push_pair(Pair { map, key, value })?;
        Ok(Next::Line)
    }

    /// `put NAME KEY VALUE` of the map of this number.
    fn add_pair(
        &mut self,
        alloc: Global,
        line: usize,
        map: usize,
        said: PutLine<'_>,
    ) -> Result<Next<'a>, FileError>
        requires { map < 16 }
        ensures { OrMemory (λ a. after line (part_of self.new) a
            ≡ pair_added line (part_of self.old) map said.entry.key.now said.entry.value.now
            (slice_get (part_of self.old).file.maps map)) result }
    {
        let Some(shape) = self.maps.get(map) else {
            return Err(FileError::Refused(line, Reason::Unknown));
        };
        let shape = *shape;
        let fits = is_sized(shape, said.key, said.value);
        if let Some(reason) = self.pair_refusal(map, shape, fits) {
            return Err(FileError::Refused(line, reason));
        }
        self.put_digits(alloc, line, map as u8, said)
    }

    /// `put NAME[K] of SIZE = N,N,..` of the map of this number, by the numbers' bytes.
    fn add_numbered_pair(
        &mut self,
        alloc: Global,
        line: usize,
        map: usize,
        number: u64,
        bytes: Vec<u8>,
    ) -> Result<Next<'a>, FileError>
        requires { map < 16 }
        ensures { OrMemory (λ a. after line (part_of self.new) a
            ≡ pair_numbered line (part_of self.old) map number bytes.items
            (slice_get (part_of self.old).file.maps map)) result }
    {
        let Some(shape) = self.maps.get(map) else {
            return Err(FileError::Refused(line, Reason::Unknown));
        };
        let shape = *shape;
        let fits = is_numbered(shape, number, bytes.len());
        if let Some(reason) = self.pair_refusal(map, shape, fits) {
            return Err(FileError::Refused(line, reason));
        }
        let Ok(pair) = numbered_pair(alloc, map as u8, shape, number, bytes) else {
            return Err(FileError::OutOfMemory);
        };
        self.put_pair(line, pair)
    }

    /// `put NAME INDEX VALUE` of the array of this number.
    fn add_element(
        &mut self,
        alloc: Global,
        line: usize,
        array: usize,
        said: PutLine<'_>,
    ) -> Result<Next<'a>, FileError>
        requires { IsFit (part_of self.old) }
        ensures { OrMemory (λ a. after line (part_of self.new) a
            ≡ element_added line (part_of self.old) array (written_number said.entry.key.now)
            said.entry.value.now (slice_get (part_of self.old).file.arrays array)) result }
    {
        let Some(shape) = self.shape_of(array) else {
            return Err(FileError::Refused(line, Reason::Unknown));
        };
        let fits = (said.value.len() / 2) as u64 == shape.value;
        match written_place(array, shape, fits, said.key) {
            Ok(at) => {
                let bytes = decoded(alloc, line, said.value)?;
                self.put_data(array, at, &bytes)?;
                Ok(Next::Line)
            }
            Err(reason) => Err(FileError::Refused(line, reason)),
        }
    }

    /// `put NAME[K] of SIZE = N,N,..` of the array of this number, by the numbers' bytes.
    fn add_numbered_element(
        &mut self,
        line: usize,
        array: usize,
        index: u64,
        bytes: Vec<u8>,
    ) -> Result<Next<'a>, FileError>
        requires { IsFit (part_of self.old) }
        ensures { OrMemory (λ a. after line (part_of self.new) a
            ≡ element_numbered line (part_of self.old) array index bytes.items
            (slice_get (part_of self.old).file.arrays array)) result }
    {
        let Some(shape) = self.shape_of(array) else {
            return Err(FileError::Refused(line, Reason::Unknown));
        };
        let fits = bytes.len() as u64 <= shape.value;
        match value_place(array, shape, fits, index) {
            Ok(at) => {
                let Ok(value) = padded(bytes, shape.value as usize) else {
                    return Err(FileError::OutOfMemory);
                };
                self.put_data(array, at, &value)?;
                Ok(Next::Line)
            }
            Err(reason) => Err(FileError::Refused(line, reason)),
        }
    }

    /// `put NAME KEY VALUE`, or `put NAME INDEX VALUE`
    pub(crate) fn add_put(
        &mut self,
        alloc: Global,
        line: usize,
        said: PutLine<'_>,
    ) -> Result<Next<'a>, FileError>
        requires { IsFit (part_of self.old) }
        ensures { Added line (part_of self.old) (said_by (statement_kind.Put said.entry))
            (part_of self.new) result }
    {
        let Some(place) = group::place_in(said.name, &self.names.maps) else {
            return Err(FileError::Refused(line, Reason::Unknown));
        };
        let maps = self.maps.len();
        if place < maps {
            self.add_pair(alloc, line, place, said)
        } else {
            self.add_element(alloc, line, place - maps, said)
        }
    }

    /// `put NAME[K] of SIZE = N,N,..`, by the numbers' bytes.
    fn put_numbers(
        &mut self,
        alloc: Global,
        line: usize,
        said: NumbersLine<'_>,
        bytes: Vec<u8>,
    ) -> Result<Next<'a>, FileError>
        requires { IsFit (part_of self.old) }
        ensures { OrMemory (λ a. after line (part_of self.new) a ≡ numbers_put line (part_of self.old)
            (place_of said.entry.name.now (part_of self.old).file.names.maps) said.entry.key
            bytes.items) result }
    {
        let Some(place) = group::place_in(said.name, &self.names.maps) else {
            return Err(FileError::Refused(line, Reason::Unknown));
        };
        let maps = self.maps.len();
        if place < maps {
            self.add_numbered_pair(alloc, line, place, said.key, bytes)
        } else {
            self.add_numbered_element(line, place - maps, said.key, bytes)
        }
    }

    /// `put NAME[K] of SIZE = N,N,..`
    pub(crate) fn add_numbers(
        &mut self,
        alloc: Global,
        line: usize,
        said: NumbersLine<'_>,
    ) -> Result<Next<'a>, FileError>
        requires { IsFit (part_of self.old) }
        ensures { Added line (part_of self.old) (said_by (statement_kind.PutNumbers said.entry))
            (part_of self.new) result }
    {
        let bytes = numbered(alloc, line, said.size, said.numbers)?;
        self.put_numbers(alloc, line, said, bytes)
    }
}
