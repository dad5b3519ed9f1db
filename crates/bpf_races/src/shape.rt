//! Stores of a shape.

ghost use Rattle.std.specs.Prelude.{◌≡◌, true};
ghost use Rattle.bpf_shared.specs.Contents.{bytes_of_all};
ghost use Rattle.bpf_explore.specs.Stores.{IsOfShape};

use bpf_plain::PlainStore;
use bpf_shared::{ArrayShape, MapShape, StoreShape};

/// Whether these are the same bytes.
fn are_bytes(one: &[u8], two: &[u8]) -> bool
    ensures { result ≡ true → one.now ≡ two.now }
{
    one == two
}

/// Whether both are one shape of a map.
fn is_map(one: MapShape, two: MapShape) -> bool
    ensures { result ≡ true → one ≡ two }
{
    one == two
}

/// Whether both are one shape of an array.
fn is_array(one: ArrayShape, two: ArrayShape) -> bool
    ensures { result ≡ true → one ≡ two }
{
    one == two
}

/// Whether these are the same maps.
fn are_maps(one: &[MapShape], two: &[MapShape]) -> bool
    ensures { result ≡ true → one.now ≡ two.now }
{
    if one.len() != two.len() {
        return false;
    }
    for place in 0..one.len() {
        if !is_map(one[place], two[place]) {
            return false;
        }
    }
    true
}

/// Whether these are the same arrays.
fn are_arrays(one: &[ArrayShape], two: &[ArrayShape]) -> bool
    ensures { result ≡ true → one.now ≡ two.now }
{
    if one.len() != two.len() {
        return false;
    }
    for place in 0..one.len() {
        if !is_array(one[place], two[place]) {
            return false;
        }
    }
    true
}

/// Whether arrays have the same bytes at first.
fn are_alike(one: &[Vec<u8>], two: &[Vec<u8>]) -> bool
    ensures { result ≡ true → bytes_of_all one.now ≡ bytes_of_all two.now }
{
    if one.len() != two.len() {
        return false;
    }
    for array in 0..one.len() {
        if !are_bytes(&one[array], &two[array]) {
            return false;
        }
    }
    true
}

/// Whether both are one shape.
fn is_same(one: &StoreShape, two: &StoreShape) -> bool
    ensures { result ≡ true → one.now ≡ two.now }
{
    if one.cpus() != two.cpus() {
        return false;
    }
    if !are_maps(one.maps(), two.maps()) {
        return false;
    }
    if !are_arrays(one.arrays(), two.arrays()) {
        return false;
    }
    are_alike(one.contents(), two.contents())
}

/// Whether a store has the CPUs, maps and arrays of this shape.
pub(crate) fn has_shape(store: &PlainStore, shape: &StoreShape) -> bool
    ensures { result ≡ true → IsOfShape shape.now store.now }
{
    store.cpus() == shape.cpus() && is_same(store.store_shape(), shape)
}
