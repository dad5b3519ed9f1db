//! The bytes of arrays, from the bytes that they were saved as, or from any.
ghost use Rattle.std.specs.Prelude.{◌≡◌, ◌≢◌, ◌⊎◌, ◌++◌, ◌<◌, ◌≤◌, ℕ, List, IfOk, IfSome, IfNone, length, drop, take, slice_index, slice_get};
ghost use Rattle.bpf_shared.specs.declared.shapes.ArrayShape.{ArrayShape};
ghost use Rattle.bpf_shared.specs.Contents.{bytes_of_all};
ghost use Rattle.bpf_shared.specs.Shape.{IsArray, IsArrayShape, IsWithin, contents_of};
ghost use Rattle.bpf_plain.specs.Private.Contents.{AreArrays, AreAsMade, IsArrayOf, IsAsMade, IsPadded};
ghost use Rattle.bpf_plain.specs.Private.Changes.{change, changes};
ghost use Rattle.bpf_plain.specs.Private.Saved.{saved_array, saved_arrays};

use crate::bytes::new_arrays;
use crate::changes::push_arrays;
use bpf_base::bytes::load_word;
use bpf_shared::{ArrayShape, StoreShape};
use std::alloc::{AllocError, Global};

/// What is after this many.
pub fn past(bytes: &[u8], count: usize) -> &[u8]
    requires { count ≤ length bytes.now }
    ensures { result.now ≡ drop count bytes.now }
{
    &bytes[count..]
}

/// The changed byte at an offset, if the bytes begin with it.
fn change_at(saved: &[u8], offset: usize) -> Option<u8>
    requires { offset < 0x1000_0000 }
    ensures found { IfSome result (λ byte. saved.now ≡ change offset byte ++ drop 5 saved.now) }
    ensures room { IfSome result (λ byte. 5 ≤ length saved.now) }
    ensures none { IfNone result ((byte : ℕ) (more : List ℕ)
        → saved.now ≡ change offset byte ++ more → ⊥) }
{
    if saved.len() < 5 {
        return None;
    }
    if load_word(saved, 0) != offset as u32 + 1 {
        return None;
    }
    Some(saved[4])
}

/// Puts a byte at an offset that is in a value; at another it doesn't.
fn put_within(array: &ArrayShape, cpus: u8, bytes: &mut [u8], offset: usize, byte: u8)
    requires shape { IsArrayShape cpus array.now }
    requires inside { offset < length bytes.old }
    ensures here { (IsWithin cpus array.now offset 1 × (slice_index bytes.new offset ≡ byte))
        ⊎ ((IsWithin cpus array.now offset 1 → ⊥)
        × (slice_index bytes.new offset ≡ slice_index bytes.old offset)) }
    ensures others { (x : ℕ) → x ≢ offset → slice_index bytes.new x ≡ slice_index bytes.old x }
{
    if array.has(cpus, offset as u64, 1) {
        bytes[offset] = byte;
    }
}

/// An array's bytes, which are as at first, become those whose changes these bytes begin with, if
/// they begin with any; with how many bytes that takes. Nothing is written between values.
fn read_changes(array: &ArrayShape, cpus: u8, bytes: &mut [u8], saved: &[u8]) -> usize
    requires shape { IsArrayShape cpus array.now }
    requires few { length bytes.old ≤ 0x1000_0000 }
    ensures read { (xs more : List ℕ) → length xs ≡ length bytes.old
        → IsPadded cpus array.now (slice_index bytes.old) xs
        → saved.now ≡ changes (slice_index bytes.old) xs ++ more
        → (bytes.new ≡ xs) × (drop result saved.now ≡ more) }
    ensures padded { IsPadded cpus array.now (slice_index bytes.old) bytes.new }
    ensures inside { result ≤ length saved.now }
{
    let mut at = 0;
    for offset in 0..bytes.len() {
        if let Some(byte) = change_at(past(saved, at), offset) {
            put_within(array, cpus, bytes, offset, byte);
            at += 5;
        }
    }
    if saved.len() - at < 4 {
        saved.len()
    } else {
        at + 4
    }
}

/// Reads the bytes of the array of this number out of what was saved. What may only be read stays.
fn read_array(shape: &StoreShape, number: usize, bytes: &mut [u8], saved: &[u8]) -> usize
    requires there { number < length shape.now.arrays }
    requires made { (g : ArrayShape) → IsArray shape.now.arrays number g
        → IsAsMade shape.now.cpus g (contents_of shape.now number) bytes.old }
    ensures read { (g : ArrayShape) (xs more : List ℕ) → IsArray shape.now.arrays number g
        → IsArrayOf shape.now number g xs
        → saved.now ≡ saved_array shape.now number (slice_get shape.now.arrays number) xs ++ more
        → (bytes.new ≡ xs) × (drop result saved.now ≡ more) }
    ensures array { (g : ArrayShape) → IsArray shape.now.arrays number g
        → IsArrayOf shape.now number g bytes.new }
    ensures inside { result ≤ length saved.now }
{
    let array = &shape.arrays()[number];
    if array.frozen {
        return 0;
    }
    read_changes(array, shape.cpus(), bytes, saved)
}

/// Reads the bytes of all arrays out of what was saved.
fn fill_arrays(shape: &StoreShape, arrays: &mut [Vec<u8>], saved: &[u8])
    requires { AreAsMade shape.now (bytes_of_all arrays.old) }
    ensures read { (others : List (List ℕ)) (more : List ℕ) → AreArrays shape.now others
        → saved.now ≡ saved_arrays shape.now others ++ more → bytes_of_all arrays.new ≡ others }
    ensures arrays { AreArrays shape.now (bytes_of_all arrays.new) }
{
    let mut at = 0;
    for number in 0..shape.arrays().len() {
        at += read_array(shape, number, &mut arrays[number], past(saved, at));
    }
}

/// The bytes of all arrays of a store of this shape, if the bytes begin with what they were saved
/// as. Else those of some other such store.
pub fn read_arrays(
    alloc: Global,
    shape: &StoreShape,
    saved: &[u8],
) -> Result<Vec<Vec<u8>>, AllocError>
    ensures read { IfOk result (λ v. (arrays : List (List ℕ)) (more : List ℕ)
        → AreArrays shape.now arrays → saved.now ≡ saved_arrays shape.now arrays ++ more
        → bytes_of_all v.items ≡ arrays) }
    ensures arrays { IfOk result (λ v. AreArrays shape.now (bytes_of_all v.items)) }
{
    let mut arrays = new_arrays(alloc, shape)?;
    fill_arrays(shape, &mut arrays, saved);
    Ok(arrays)
}

/// How many of the bytes the arrays are saved as, if they begin so.
pub fn count_arrays(
    alloc: Global,
    shape: &StoreShape,
    arrays: &[Vec<u8>],
    bytes: &[u8],
) -> Result<Option<usize>, AllocError>
    requires { AreArrays shape.now (bytes_of_all arrays.now) }
    ensures some { IfOk result (λ found. IfSome found (λ n. (n ≤ length bytes.now)
        × (take n bytes.now ≡ saved_arrays shape.now (bytes_of_all arrays.now)))) }
    ensures none { IfOk result (λ found. IfNone found ((more : List ℕ)
        → bytes.now ≡ saved_arrays shape.now (bytes_of_all arrays.now) ++ more → ⊥)) }
{
    let mut saved = Vec::new(alloc);
    push_arrays(shape, arrays, &mut saved)?;
    if bytes.starts_with(&saved) {
        Ok(Some(saved.len()))
    } else {
        Ok(None)
    }
}
