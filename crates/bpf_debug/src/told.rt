//! The maps, arrays and variables, with their names and sizes.

ghost use Rattle.std.specs.Prelude.{◌≡◌, ℕ, List, [], ◌+◌, ◌≤◌, ◌++◌, IfOk, OnOk, length, map, slice_get, slice_index_or, string_bytes, string_capacity, string_len};
ghost use Rattle.bpf_names.specs.Names.{names_of, variable_of};
ghost use Rattle.bpf_plain.specs.PlainStore.{shape_of, shapes_of};
ghost use Rattle.bpf_debug.specs.Told.{array_line, array_lines, frozen_word, grow_word, named_line, per_cpu_word, place_line, place_lines, shape_line, shape_lines, sizes_text, store_lines};

use crate::held::name_at;
use crate::text::{put, put_number};
use bpf_names::{Names, Variable, bytes_in};
use bpf_plain::PlainStore;
use bpf_shared::{ArrayShape, MapShape, Shared};
use std::alloc::{AllocError, Global};

/// What a map's line ends in.
fn grow_word(grow: bool) -> &'static str
    ensures text { result.now ≡ grow_word grow }
    ensures size { length result.now ≤ 5 }
{
    if grow { " grow" } else { "" }
}

/// Appends a map's sizes to a text, in its room.
fn put_sizes(out: &mut String, shape: MapShape)
    requires { string_len out.old + 128 ≤ string_capacity out.old }
    ensures { string_bytes out.new ≡ string_bytes out.old ++ sizes_text shape }
{
    put(out, " key ");
    put_number(out, shape.key);
    put(out, " value ");
    put_number(out, shape.value);
    put(out, " max ");
    put_number(out, shape.max);
    put(out, " spare ");
    put_number(out, shape.spare);
    put(out, grow_word(shape.grow));
}

/// A map's sizes.
fn sizes(alloc: Global, shape: MapShape) -> Result<String, AllocError>
    ensures { IfOk result (λ text. string_bytes text ≡ sizes_text shape) }
{
    let mut text = String::with_capacity(alloc, 128)?;
    put_sizes(&mut text, shape);
    Ok(text)
}

/// Appends the line of a map to the text, as a run file has it.
fn push_shape(
    alloc: Global,
    text: &mut String,
    name: &str,
    shape: MapShape,
) -> Result<(), AllocError>
    ensures { OnOk result (string_bytes text.new
        ≡ string_bytes text.old ++ shape_line name.now shape) }
{
    let sizes = sizes(alloc, shape)?;
    let line = format!(in alloc; "map {name}{sizes}\n")?;
    text.push_str(line.as_str())
}

/// Appends the line of the map of this number to the text, if there is one.
fn push_map(
    alloc: Global,
    text: &mut String,
    store: &PlainStore,
    name: &str,
    map: usize,
) -> Result<(), AllocError>
    ensures { OnOk result (string_bytes text.new
        ≡ string_bytes text.old ++ named_line name.now (slice_get (shapes_of store.now) map)) }
{
    match store.shape(map as u64) {
        Some(shape) => push_shape(alloc, text, name, shape),
        None => Ok(()),
    }
}

/// A line a map, in the order of their numbers.
fn shape_lines(alloc: Global, store: &PlainStore, names: &[String]) -> Result<String, AllocError>
    ensures { IfOk result (λ text. string_bytes text
        ≡ shape_lines (map string_bytes names.now) (shapes_of store.now) (length names.now)) }
{
    let mut text = String::new(alloc);
    for (map, name) in names.iter().enumerate() {
        push_map(alloc, &mut text, store, name.as_str(), map)?;
    }
    Ok(text)
}

fn per_cpu_word(per_cpu: bool) -> &'static str
    ensures { result.now ≡ per_cpu_word per_cpu }
{
    if per_cpu { " percpu" } else { "" }
}

fn frozen_word(frozen: bool) -> &'static str
    ensures { result.now ≡ frozen_word frozen }
{
    if frozen { " frozen" } else { "" }
}

/// Appends the line of an array to the text, as a run file has it.
fn push_array(
    alloc: Global,
    text: &mut String,
    name: &str,
    shape: ArrayShape,
) -> Result<(), AllocError>
    ensures { OnOk result (string_bytes text.new
        ≡ string_bytes text.old ++ array_line name.now shape) }
{
    let ArrayShape {
        value,
        max,
        per_cpu,
        frozen,
    } = shape;
    let per_cpu = per_cpu_word(per_cpu);
    let frozen = frozen_word(frozen);
    let line = format!(in alloc; "array {name} value {value} max {max}{per_cpu}{frozen}\n")?;
    text.push_str(line.as_str())
}

/// A line an array, in the order of their numbers. Their names follow those of the maps.
fn array_lines(alloc: Global, store: &PlainStore, names: &[String]) -> Result<String, AllocError>
    ensures { IfOk result (λ text. string_bytes text ≡ array_lines (map string_bytes names.now)
        (length (shape_of store.now).maps) (shape_of store.now).arrays
        (length (shape_of store.now).arrays)) }
{
    let mut text = String::new(alloc);
    let maps = store.store_shape().maps().len();
    for array in 0..store.store_shape().arrays().len() {
        let shape = store.store_shape().arrays()[array];
        push_array(alloc, &mut text, name_at(names, maps + array), shape)?;
    }
    Ok(text)
}

/// Appends the line of a variable to the text, as a run file has it: its array has this name.
fn push_place(
    alloc: Global,
    text: &mut String,
    variable: &Variable,
    array: &str,
) -> Result<(), AllocError>
    ensures { OnOk result (string_bytes text.new
        ≡ string_bytes text.old ++ place_line array.now (variable_of variable.now)) }
{
    let name = variable.name.as_str();
    let at = variable.at;
    let size = bytes_in(variable.size);
    let line = format!(in alloc; "var {name} {array} {at} {size}\n")?;
    text.push_str(line.as_str())
}

/// A line a variable, in the order of their lines in the file.
fn place_lines(alloc: Global, store: &PlainStore, names: &Names) -> Result<String, AllocError>
    ensures { IfOk result (λ text. string_bytes text ≡ place_lines (names_of names.now).maps
        (length (shape_of store.now).maps) (names_of names.now).variables
        (length (names_of names.now).variables)) }
{
    let mut text = String::new(alloc);
    let maps = store.store_shape().maps().len();
    for variable in &names.variables {
        let array = name_at(&names.maps, maps + usize::from(variable.array));
        push_place(alloc, &mut text, variable, array)?;
    }
    Ok(text)
}

/// The lines of the maps, then those of the arrays, and then those of the variables.
pub fn store_lines(alloc: Global, store: &PlainStore, names: &Names) -> Result<String, AllocError>
    ensures { IfOk result (λ text. string_bytes text
        ≡ store_lines (names_of names.now) (shape_of store.now)) }
{
    let mut text = shape_lines(alloc, store, &names.maps)?;
    let arrays = array_lines(alloc, store, &names.maps)?;
    let variables = place_lines(alloc, store, names)?;
    text.push_str(arrays.as_str())?;
    text.push_str(variables.as_str())?;
    Ok(text)
}
