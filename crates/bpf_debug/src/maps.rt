//! Maps, arrays and variables by their names, and what they hold.

ghost use Rattle.std.specs.Prelude.{◌≡◌, ◌++◌, IfOk, IfSome, IfNone, List, OnOk, length, map, slice_get, string_bytes, ℕ};
ghost use Rattle.bpf_shared.specs.Listing.{listed};
ghost use Rattle.bpf_shared.specs.Store.{Plain};
ghost use Rattle.bpf_shared.specs.Sound.{IsSoundStore};
ghost use Rattle.bpf_names.specs.Names.{variable_of};
ghost use Rattle.bpf_plain.specs.PlainStore.{StandsFor, shape_of};
ghost use Rattle.bpf_debug.specs.Read.{IsNamed, IsNoName, TellsKeys, TellsMap, TellsNumber, TellsTable, TellsTableKeys, array_named, index_line, index_lines, indices_text, key_line, key_lines, pair_line, pair_lines, values_text};

use crate::held::name_at;
use bpf_jobs::{NamedArray, list_values, push_variable};
use bpf_names::Variable;
use bpf_plain::PlainStore;
use std::alloc::{AllocError, Global};

/// The number of the first map of a name.
pub fn map_named(names: &[String], name: &[u8]) -> Option<usize>
    ensures named { IfSome result
        (λ m. IsNamed (map string_bytes names.now) name.now m) }
    ensures none { IfNone result (IsNoName (map string_bytes names.now) name.now) }
{
    for (number, own) in names.iter().enumerate() {
        if own.as_bytes() == name {
            return Some(number);
        }
    }
    None
}

/// Appends the line of a key to the text.
fn push_pair(alloc: Global, text: &mut String, key: &[u8], value: &[u8]) -> Result<(), AllocError>
    ensures { OnOk result (string_bytes text.new
        ≡ string_bytes text.old ++ pair_line (key.now, value.now)) }
{
    let key = hex::encode(alloc, key)?;
    let value = hex::encode(alloc, value)?;
    let line = format!(in alloc; "{key}={value}\n")?;
    text.push_str(line.as_str())
}

/// The lines of keys with their values, in their order.
fn pair_lines(alloc: Global, pairs: &[(Vec<u8>, Vec<u8>)]) -> Result<String, AllocError>
    ensures { IfOk result
        (λ text. string_bytes text ≡ pair_lines (length pairs.now) (listed pairs.now)) }
{
    let mut text = String::new(alloc);
    for pair in pairs {
        push_pair(alloc, &mut text, &pair.0, &pair.1)?;
    }
    Ok(text)
}

/// The lines of a map, in the order of its keys.
fn map_lines(alloc: Global, store: &PlainStore, map: usize) -> Result<String, AllocError>
    ensures { IfOk result (λ text. TellsMap store.now map (string_bytes text)) }
{
    let pairs = store.dump(alloc, map as u64)?;
    pair_lines(alloc, &pairs)
}

/// The lines of an array's values, also of one that may only be read; none of no array's.
fn array_lines(
    alloc: Global,
    store: &PlainStore,
    names: &[String],
    number: usize,
) -> Result<String, AllocError>
    ensures { IfOk result (λ text. (s : Plain) → IsSoundStore s → StandsFor store.now s
        → string_bytes text ≡ values_text s
        (array_named (map string_bytes names.now) (length s.shape.maps) number)
        (slice_get s.shape.arrays number)) }
{
    let shape = store.store_shape();
    if number >= shape.arrays().len() {
        return Ok(String::new(alloc));
    }
    let array = NamedArray {
        number,
        name: name_at(names, shape.maps().len() + number),
        variables: &[],
    };
    list_values(alloc, store, array)
}

/// The lines of a map, or of an array, whose numbers follow those of the maps.
pub fn table_lines(
    alloc: Global,
    store: &PlainStore,
    names: &[String],
    number: usize,
) -> Result<String, AllocError>
    ensures { IfOk result
        (λ text. TellsTable store.now (map string_bytes names.now) number (string_bytes text)) }
{
    let maps = store.store_shape().maps().len();
    if number < maps {
        map_lines(alloc, store, number)
    } else {
        array_lines(alloc, store, names, number - maps)
    }
}

/// Appends the line of a key without its value to the text.
fn push_key(alloc: Global, text: &mut String, key: &[u8]) -> Result<(), AllocError>
    ensures { OnOk result ((value : List ℕ) → string_bytes text.new
        ≡ string_bytes text.old ++ key_line (key.now, value)) }
{
    let key = hex::encode(alloc, key)?;
    let line = format!(in alloc; "{key}\n")?;
    text.push_str(line.as_str())
}

/// The lines of keys without their values, in their order.
fn key_lines(alloc: Global, pairs: &[(Vec<u8>, Vec<u8>)]) -> Result<String, AllocError>
    ensures { IfOk result
        (λ text. string_bytes text ≡ key_lines (length pairs.now) (listed pairs.now)) }
{
    let mut text = String::new(alloc);
    for pair in pairs {
        push_key(alloc, &mut text, &pair.0)?;
    }
    Ok(text)
}

/// The lines of a map's keys, in their order.
fn map_keys(alloc: Global, store: &PlainStore, map: usize) -> Result<String, AllocError>
    ensures { IfOk result (λ text. TellsKeys store.now map (string_bytes text)) }
{
    let pairs = store.dump(alloc, map as u64)?;
    key_lines(alloc, &pairs)
}

/// Appends the line of an index to the text.
fn push_index(alloc: Global, text: &mut String, index: u64) -> Result<(), AllocError>
    ensures { OnOk result (string_bytes text.new ≡ string_bytes text.old ++ index_line index) }
{
    let line = format!(in alloc; "{index}\n")?;
    text.push_str(line.as_str())
}

/// The lines of the indices of an array with this many.
fn index_lines(alloc: Global, count: u64) -> Result<String, AllocError>
    ensures { IfOk result (λ text. string_bytes text ≡ index_lines count) }
{
    let mut text = String::new(alloc);
    for index in 0..count {
        push_index(alloc, &mut text, index)?;
    }
    Ok(text)
}

/// The lines of an array's indices; none of no array's number.
fn indices(alloc: Global, store: &PlainStore, number: usize) -> Result<String, AllocError>
    ensures { IfOk result (λ text. string_bytes text
        ≡ indices_text (slice_get (shape_of store.now).arrays number)) }
{
    match store.store_shape().arrays().get(number) {
        Some(array) => index_lines(alloc, array.max),
        None => Ok(String::new(alloc)),
    }
}

/// The lines of the keys of a map, or of the indices of an array, whose numbers follow those of the
/// maps.
pub fn table_keys(alloc: Global, store: &PlainStore, number: usize) -> Result<String, AllocError>
    ensures { IfOk result (λ text. TellsTableKeys store.now number (string_bytes text)) }
{
    let maps = store.store_shape().maps().len();
    if number < maps {
        map_keys(alloc, store, number)
    } else {
        indices(alloc, store, number - maps)
    }
}

/// The line of a variable's number, also of one that may only be read.
pub fn number_line(
    alloc: Global,
    store: &PlainStore,
    variable: &Variable,
) -> Result<String, AllocError>
    ensures { IfOk result
        (λ text. TellsNumber store.now (variable_of variable.now) (string_bytes text)) }
{
    let mut text = String::new(alloc);
    if let Some(value) = store.fixed(u64::from(variable.array), 0, 0) {
        push_variable(alloc, &mut text, variable, value)?;
    }
    Ok(text)
}
