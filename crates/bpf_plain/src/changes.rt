//! The bytes of arrays that aren't as at first: what is saved of them.
ghost use Rattle.std.specs.Prelude.{◌≡◌, ◌++◌, ◌+◌, ◌%◌, ◌<◌, ◌≤◌, ℕ, [], OnOk, OnErr, length, slice_get, slice_index, slice_index_or, true};
ghost use Rattle.std.specs.Io.{StartsWith};
ghost use Rattle.bpf_shared.specs.Contents.{bytes_of_all};
ghost use Rattle.bpf_plain.specs.Private.Contents.{AreArrays};
ghost use Rattle.bpf_plain.specs.Private.Changes.{change, changes, changes_from};
ghost use Rattle.bpf_plain.specs.Private.Saved.{saved_array, saved_arrays};

use crate::bytes::first_bytes;
use bpf_shared::StoreShape;
use std::alloc::AllocError;

/// Zeros, as many as are compared at once.
const BLANK: [u8; 256] = [0; 256];

/// Appends bytes to others.
fn push_bytes(bytes: &[u8], out: &mut Vec<u8>) -> Result<(), AllocError>
    ensures ok { OnOk result (out.new.items ≡ out.old.items ++ bytes.now) }
    ensures err { OnErr result (StartsWith out.new.items out.old.items) }
{
    out.extend_from_slice(bytes)
}

/// Appends the byte at an offset, after the offset's number.
fn push_change(offset: usize, byte: u8, out: &mut Vec<u8>) -> Result<(), AllocError>
    requires { offset < 0x1000_0000 }
    ensures ok { OnOk result (out.new.items ≡ out.old.items ++ change offset byte) }
    ensures err { OnErr result (StartsWith out.new.items out.old.items) }
{
    let number = offset as u32 + 1;
    let [a, b, c, d] = number.to_le_bytes();
    push_bytes(&[a, b, c, d, byte], out)
}

/// The byte at a place in the first copy, where zeros follow the first bytes.
fn first_byte(first: &[u8], place: usize) -> u8
    ensures { result ≡ slice_index first.now place }
{
    match first.get(place) {
        Some(byte) => *byte,
        None => 0,
    }
}

/// The place of the next byte in its copy.
fn next_place(place: usize, stride: usize) -> usize
    requires { place < stride }
    ensures { (x : ℕ) → place ≡ x % stride → result ≡ (x + 1) % stride }
{
    if place + 1 < stride { place + 1 } else { 0 }
}

/// Appends those bytes of a part, from an offset on, that aren't as at first.
fn push_part(
    part: &[u8],
    offset: usize,
    first: &[u8],
    stride: usize,
    out: &mut Vec<u8>,
) -> Result<(), AllocError>
    requires few { offset + length part.now ≤ 0x1000_0000 }
    requires stride { 0 < stride }
    ensures ok { OnOk result (out.new.items ≡ out.old.items
        ++ changes_from (λ x. slice_index first.now (x % stride)) offset part.now) }
    ensures err { OnErr result (StartsWith out.new.items out.old.items) }
{
    let mut place = offset % stride;
    for step in 0..part.len() {
        let byte = part[step];
        if byte != first_byte(first, place) {
            push_change(offset + step, byte, out)?;
        }
        place = next_place(place, stride);
    }
    Ok(())
}

/// Whether both are the same bytes.
fn is_same(bytes: &[u8], others: &[u8]) -> bool
    ensures { result ≡ true → bytes.now ≡ others.now }
{
    bytes == others
}

/// Whether all bytes are zeros, of a part at most.
fn is_blank(part: &[u8]) -> bool
    requires { length part.now ≤ 256 }
    ensures { result ≡ true → (k : ℕ) → slice_index part.now k ≡ 0 }
{
    is_same(part, &BLANK[..part.len()])
}

/// Whether a part that lies in one copy, from this place on, is seen to be as at first.
fn is_as_first(part: &[u8], first: &[u8], place: usize) -> bool
    requires few { length part.now ≤ 256 }
    ensures { result ≡ true → (k : ℕ) → k < length part.now
        → slice_index part.now k ≡ slice_index first.now (place + k) }
{
    if place >= first.len() {
        return is_blank(part);
    }
    match first.get(place..place + part.len()) {
        Some(bytes) => is_same(part, bytes),
        None => false,
    }
}

/// How many bytes are compared at once from a place on: a part at most, and none of the next copy.
fn part_size(left: usize, place: usize, stride: usize) -> usize
    requires left { 0 < left }
    requires place { place < stride }
    ensures some { 0 < result }
    ensures part { result ≤ 256 }
    ensures left { result ≤ left }
    ensures copy { place + result ≤ stride }
{
    left.min(stride - place).min(BLANK.len())
}

/// Appends those bytes that aren't as at first, where each copy has the first bytes and zeros. Most
/// are as at first, and are passed over by parts.
fn push_changes(
    bytes: &[u8],
    first: &[u8],
    stride: usize,
    out: &mut Vec<u8>,
) -> Result<(), AllocError>
    requires few { length bytes.now ≤ 0x1000_0000 }
    requires stride { 0 < stride }
    ensures ok { OnOk result (out.new.items
        ≡ out.old.items ++ changes (λ x. slice_index first.now (x % stride)) bytes.now) }
    ensures err { OnErr result (StartsWith out.new.items out.old.items) }
{
    let mut offset = 0;
    let mut rest = bytes;
    while !rest.is_empty() {
        let place = offset % stride;
        let (part, more) = rest.split_at(part_size(rest.len(), place, stride));
        if !is_as_first(part, first, place) {
            push_part(part, offset, first, stride, out)?;
        }
        offset += part.len();
        rest = more;
    }
    push_bytes(&[0, 0, 0, 0], out)
}

/// Appends the changes of all copies. Where the first bytes are none, the copies are compared as one, in
/// parts that needn't end with a copy.
fn push_copies(
    bytes: &[u8],
    first: &[u8],
    stride: usize,
    out: &mut Vec<u8>,
) -> Result<(), AllocError>
    requires few { length bytes.now ≤ 0x1000_0000 }
    requires stride { 0 < stride }
    ensures ok { OnOk result (out.new.items
        ≡ out.old.items ++ changes (λ x. slice_index first.now (x % stride)) bytes.now) }
    ensures err { OnErr result (StartsWith out.new.items out.old.items) }
{
    if first.is_empty() {
        push_changes(bytes, first, usize::MAX, out)
    } else {
        push_changes(bytes, first, stride, out)
    }
}

/// Appends what the array of this number is saved as: nothing, where it may only be read.
fn push_array(
    shape: &StoreShape,
    number: usize,
    bytes: &[u8],
    out: &mut Vec<u8>,
) -> Result<(), AllocError>
    requires there { number < length shape.now.arrays }
    requires few { length bytes.now ≤ 0x1000_0000 }
    ensures ok { OnOk result (out.new.items ≡ out.old.items
        ++ saved_array shape.now number (slice_get shape.now.arrays number) bytes.now) }
    ensures err { OnErr result (StartsWith out.new.items out.old.items) }
{
    let array = shape.arrays()[number];
    if array.frozen {
        return Ok(());
    }
    let first = first_bytes(shape.contents(), number);
    push_copies(bytes, first, array.copy_stride() as usize, out)
}

/// Appends what all arrays are saved as.
pub fn push_arrays(
    shape: &StoreShape,
    arrays: &[Vec<u8>],
    out: &mut Vec<u8>,
) -> Result<(), AllocError>
    requires { AreArrays shape.now (bytes_of_all arrays.now) }
    ensures ok { OnOk result (out.new.items
        ≡ out.old.items ++ saved_arrays shape.now (bytes_of_all arrays.now)) }
    ensures err { OnErr result (StartsWith out.new.items out.old.items) }
{
    for number in 0..shape.arrays().len() {
        push_array(shape, number, &arrays[number], out)?;
    }
    Ok(())
}
