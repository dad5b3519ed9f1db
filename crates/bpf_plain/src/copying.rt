//! Copies of a store's shape, for another store like it.
ghost use Rattle.std.specs.Prelude.{◌≡◌, IfOk};
ghost use Rattle.bpf_shared.specs.Contents.{bytes_of_all};

use bpf_shared::StoreShape;
use std::alloc::{AllocError, Global};

/// A copy of bytes.
fn copy_bytes(alloc: Global, bytes: &[u8]) -> Result<Vec<u8>, AllocError>
    ensures { IfOk result (λ copy. copy.items ≡ bytes.now) }
{
    let mut copy = Vec::with_capacity(alloc, bytes.len())?;
    copy.extend_from_slice(bytes)?;
    Ok(copy)
}

/// A copy of what arrays have at first.
fn copy_contents(alloc: Global, contents: &[Vec<u8>]) -> Result<Vec<Vec<u8>>, AllocError>
    ensures { IfOk result (λ copy. bytes_of_all copy.items ≡ bytes_of_all contents.now) }
{
    let mut copy = Vec::with_capacity(alloc, contents.len())?;
    for bytes in contents {
        copy.push(copy_bytes(alloc, bytes)?)?;
    }
    Ok(copy)
}

/// A copy of a shape.
pub fn copy_shape(alloc: Global, shape: &StoreShape) -> Result<StoreShape, AllocError>
    ensures { IfOk result (λ copy. copy ≡ shape.now) }
{
    let mut maps = Vec::with_capacity(alloc, shape.maps().len())?;
    maps.extend_from_slice(shape.maps())?;
    let mut arrays = Vec::with_capacity(alloc, shape.arrays().len())?;
    arrays.extend_from_slice(shape.arrays())?;
    let contents = copy_contents(alloc, shape.contents())?;
    let copy = StoreShape::new(u64::from(shape.cpus()), maps).map_err(|_| AllocError)?;
    copy.with_arrays(arrays, contents).map_err(|_| AllocError)
}
