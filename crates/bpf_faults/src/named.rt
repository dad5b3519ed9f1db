//! The maps and arrays of a store, by their names.

use crate::area::{Region, region_of};
use bpf_helpers::calls::MAPS;
use bpf_plain::PlainStore;
use bpf_shared::FIRST_ARRAY;

/// How many bytes a key of an array has.
const INDEX_BYTES: u64 = 4;

/// The maps and arrays that a program may be given, by their numbers.
#[derive(Clone, Copy)]
pub struct Maps<'a> {
    /// A store that has them.
    pub store: &'a PlainStore,
    /// The maps' names, and after them the arrays'.
    pub names: &'a [String],
}

/// A map or an array as a helper takes it.
#[derive(Clone, Copy)]
pub(crate) struct Given<'a> {
    pub name: &'a str,
    /// How many bytes a key has.
    pub key: u64,
    /// How many a value has.
    pub value: u64,
}

impl Maps<'_> {
    /// How many maps there are.
    pub(crate) fn map_count(&self) -> usize {
        self.store.store_shape().maps().len()
    }

    /// How many arrays there are.
    pub(crate) fn array_count(&self) -> usize {
        self.store.store_shape().arrays().len()
    }

    /// The name of a map.
    pub(crate) fn name(&self, map: usize) -> &str {
        match self.names.get(map) {
            Some(name) => name.as_str(),
            None => "no map",
        }
    }

    /// The name of an array.
    pub(crate) fn array_name(&self, array: usize) -> &str {
        self.name(self.map_count().saturating_add(array))
    }

    /// The name of the map of which values lie at an address.
    pub(crate) fn name_at(&self, address: u64) -> &str {
        match region_of(address) {
            Region::Values(map) => self.name(map),
            _ => "no map",
        }
    }

    /// The map or array that a register's value stands for.
    pub(crate) fn given(&self, value: u64) -> Option<Given<'_>> {
        let number = value.checked_sub(MAPS)? as usize;
        let shape = self.store.store_shape();
        if let Some(map) = shape.maps().get(number) {
            return Some(Given {
                name: self.name(number),
                key: map.key,
                value: map.value,
            });
        }
        let number = number.checked_sub(FIRST_ARRAY as usize)?;
        let array = shape.arrays().get(number)?;
        Some(Given {
            name: self.array_name(number),
            key: INDEX_BYTES,
            value: array.value,
        })
    }
}
