//! The bytes of an array's values, each at its offset from the first value.
ghost use Rattle.std.specs.Prelude.{◌≡◌, ◌+◌, ◌*◌, ◌<◌, ◌≤◌, ℕ, [], IfOk, length, slice_index, slice_index_or};
ghost use Rattle.bpf_base.specs.Bytes.{with_part};
ghost use Rattle.bpf_shared.specs.Contents.{bytes_of_all};
ghost use Rattle.bpf_shared.specs.Shape.{Shape, IsShape, IsArrayShape, copies, copy_size, copy_stride};
ghost use Rattle.bpf_plain.specs.Private.Contents.{AreAsMade, IsAsMade, IsFilled};

use bpf_shared::{ArrayShape, StoreShape};
use std::alloc::{AllocError, Global};

/// Puts others in place of as many bytes.
fn put_part(bytes: &mut [u8], first: usize, others: &[u8])
    requires { first + length others.now ≤ length bytes.old }
    ensures { bytes.new ≡ with_part bytes.old first others.now }
{
    bytes[first..first + others.len()].copy_from_slice(others);
}

/// Gives each of these copies, a stride from one to the next, the first bytes; others stay zeros.
fn fill(bytes: &mut [u8], copies: usize, stride: usize, first: &[u8])
    requires size { length bytes.old ≡ copies * stride }
    requires fits { length first.now ≤ stride }
    requires blank { (x : ℕ) → slice_index bytes.old x ≡ 0 }
    ensures { IsFilled stride first.now copies bytes.new }
{
    for copy in 0..copies {
        put_part(bytes, copy * stride, first);
    }
}

/// An array's bytes as they are at first.
fn new_array(
    alloc: Global,
    array: &ArrayShape,
    cpus: u8,
    first: &[u8],
) -> Result<Vec<u8>, AllocError>
    requires cpus { cpus ≤ 16 }
    requires shape { IsArrayShape cpus array.now }
    requires first { length first.now ≤ copy_size array.now }
    ensures { IfOk result (λ v. IsAsMade cpus array.now first.now v.items) }
{
    let copies = array.copies(cpus) as usize;
    let stride = array.copy_stride() as usize;
    let mut bytes = vec![in alloc; 0; copies * stride]?;
    fill(&mut bytes, copies, stride, first);
    Ok(bytes)
}

/// What an array of this number has at first.
pub fn first_bytes(contents: &[Vec<u8>], array: usize) -> &[u8]
    ensures { result.now ≡ slice_index_or (bytes_of_all contents.now) array [] }
{
    match contents.get(array) {
        Some(bytes) => bytes,
        None => &[],
    }
}

/// All arrays' bytes as they are at first.
pub fn new_arrays(alloc: Global, shape: &StoreShape) -> Result<Vec<Vec<u8>>, AllocError>
    ensures { IfOk result (λ v. AreAsMade shape.now (bytes_of_all v.items)) }
{
    let cpus = shape.cpus();
    let mut arrays = Vec::with_capacity(alloc, shape.arrays().len())?;
    for (number, array) in shape.arrays().iter().enumerate() {
        let first = first_bytes(shape.contents(), number);
        arrays.push(new_array(alloc, array, cpus, first)?)?;
    }
    Ok(arrays)
}

/// These bytes become others, which are as many.
fn copy_bytes(bytes: &mut Vec<u8>, others: &[u8])
    requires { length others.now ≡ length bytes.old.items }
    ensures { bytes.new.items ≡ others.now }
{
    bytes.copy_from_slice(others);
}

/// These arrays' bytes become those of others of the same sizes.
pub fn copy_arrays(arrays: &mut [Vec<u8>], others: &[Vec<u8>])
    requires count { length others.now ≡ length arrays.old }
    requires sizes { (a : ℕ) → a < length arrays.old
        → length (slice_index_or (bytes_of_all others.now) a [])
        ≡ length (slice_index_or (bytes_of_all arrays.old) a []) }
    ensures { bytes_of_all arrays.new ≡ bytes_of_all others.now }
{
    for number in 0..arrays.len() {
        copy_bytes(&mut arrays[number], &others[number]);
    }
}
