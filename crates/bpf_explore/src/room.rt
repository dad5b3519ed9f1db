//! About how much memory things take: what is printed of a search while it works, and no more.

ghost use Rattle.std.specs.Prelude.{◌<◌, length};

use bpf_shared::{MapShape, StoreShape};

/// About how many bytes the vectors of a map take beside what it has of its elements.
const MAP_ITSELF: u64 = 512;

/// How many bytes a vector's room takes, of which each place has this size.
pub(crate) fn bytes_of<T>(room: &Vec<T>, size: usize) -> usize {
    room.capacity().saturating_mul(size)
}

/// About how many bytes a map of this shape takes in a plain store: of each element the key, the
/// value, a note of each CPU's run that looked it up and one of its run when it left, and a few links.
fn map_bytes(map: &MapShape, cpus: u8) -> u64 {
    let notes = u64::from(cpus) * 8;
    let element = map.key.saturating_add(map.value).saturating_add(notes + 9);
    let elements = map.max.saturating_add(map.spare);
    elements.saturating_mul(element).saturating_add(MAP_ITSELF)
}

/// How many bytes an array of this number has at first: each plain store keeps them.
fn first_bytes(shape: &StoreShape, array: usize) -> u64 {
    match shape.contents().get(array) {
        Some(bytes) => bytes.len() as u64,
        None => 0,
    }
}

/// How many bytes an array takes in a plain store of this shape: its values, and what it has at first.
fn array_bytes(shape: &StoreShape, array: usize) -> u64
    requires { array < length shape.now.arrays }
{
    let first = first_bytes(shape, array);
    let cpus = shape.cpus();
    let array = shape.arrays()[array];
    let values = array.copy_stride().saturating_mul(array.copies(cpus));
    values.saturating_add(first)
}

/// About how many bytes a plain store of this shape takes.
pub(crate) fn store_bytes(shape: &StoreShape) -> u64 {
    let mut bytes = 0u64;
    for map in shape.maps() {
        bytes = bytes.saturating_add(map_bytes(map, shape.cpus()));
    }
    for array in 0..shape.arrays().len() {
        bytes = bytes.saturating_add(array_bytes(shape, array));
    }
    bytes
}
