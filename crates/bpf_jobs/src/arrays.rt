//! The lines of arrays: a line for each value that has a byte other than zero which no variable's
//! line shows.

ghost use Rattle.std.specs.Prelude.{◌≡◌, ◌++◌, ◌<◌, IfOk, OnOk, length, map, slice_get, string_bytes};
ghost use Rattle.std.specs.List.{list_any};
ghost use Rattle.bpf_shared.specs.declared.shapes.ArrayShape.{ArrayShape};
ghost use Rattle.bpf_shared.specs.Shape.{IsArray, copies};
ghost use Rattle.bpf_shared.specs.Store.{Plain, fixed_number};
ghost use Rattle.bpf_shared.specs.Sound.{IsSoundStore};
ghost use Rattle.bpf_plain.specs.PlainStore.{StandsFor, shape_of};
ghost use Rattle.bpf_names.specs.Names.{has_byte, names_of, variable_of};
ghost use Rattle.bpf_jobs.specs.Printed.{array_lines, array_text, called_by, has_line, index_lines, is_set, is_set_outside, is_shown, value_line, value_lines};

use crate::lists::name_at;
use bpf_names::{Names, Variable};
use bpf_plain::PlainStore;
use std::alloc::{AllocError, Global};
use std::fmt;

/// An array as its lines name it.
#[derive(Clone, Copy)]
pub struct NamedArray<'a> {
    pub number: usize,
    pub name: &'a str,
    /// The file's variables.
    pub variables: &'a [Variable],
}

/// Which of an array's values: its index, and the CPU's number where each CPU has its own.
#[derive(Clone, Copy)]
pub struct ArrayPlace {
    pub index: u64,
    pub cpu: u8,
    pub per_cpu: bool,
}

impl fmt::Display for ArrayPlace {
    ghost use Rattle.std.specs.Prelude.{Some};
    ghost use Rattle.bpf_jobs.specs.Printed.{place_text};

    ghost output = { λ x. Some (place_text x.per_cpu x.index x.cpu) };

    fn fmt<W: fmt::Write>(&self, f: &mut fmt::Formatter<W>) -> fmt::Result {
        if self.per_cpu {
            write!(f, "{} cpu {}", self.index, self.cpu)
        } else {
            write!(f, "{}", self.index)
        }
    }
}

/// Whether some byte isn't zero.
fn is_set(bytes: &[u8]) -> bool
    ensures { result ≡ is_set bytes.now }
{
    bytes.iter().any(|byte| *byte != 0)
}

/// Whether a byte of an array's first value is one of a variable.
fn has_any(variables: &[Variable], array: usize, at: usize) -> bool
    ensures { result ≡ list_any (has_byte array at) (map variable_of variables.now) }
{
    match variables {
        [] => false,
        [first, others @ ..] => first.has_byte(array, at) || has_any(others, array, at),
    }
}

/// Whether a byte of an array's first value isn't zero, and is none of a variable.
#[tactic(auto, unfolding(crate::specs::Printed::is_shown))]
fn is_shown(array: NamedArray, at: usize, byte: u8) -> bool
    ensures { result ≡ is_shown (called_by array.entry) at byte }
{
    byte != 0 && !has_any(array.variables, array.number, at)
}

/// Whether some byte of an array's first value is.
#[tactic(auto, using(crate::proofs::VariableLines::byte_shown, crate::proofs::VariableLines::byte_hidden, crate::proofs::VariableLines::bytes_over))]
fn is_set_outside(array: NamedArray, bytes: &[u8]) -> bool
    ensures { result ≡ is_set_outside (called_by array.entry) 0 bytes.now }
{
    for at in 0..bytes.len() {
        if is_shown(array, at, bytes[at]) {
            return true;
        }
    }
    false
}

/// Whether a value of an array has a line.
fn has_line(array: NamedArray, place: ArrayPlace, value: &[u8]) -> bool
    ensures { result ≡ has_line (called_by array.entry) place.index place.cpu value.now }
{
    if place.index == 0 && place.cpu == 0 {
        is_set_outside(array, value)
    } else {
        is_set(value)
    }
}

/// Appends the line of a value of an array to the text, if it has one.
pub fn push_value(
    alloc: Global,
    text: &mut String,
    array: NamedArray,
    place: ArrayPlace,
    value: &[u8],
) -> Result<(), AllocError>
    ensures { OnOk result (string_bytes text.new ≡ string_bytes text.old
        ++ value_line (called_by array.entry) place.per_cpu place.index place.cpu value.now) }
{
    if !has_line(array, place, value) {
        return Ok(());
    }
    let name = array.name;
    let value = hex::encode(alloc, value)?;
    let line = format!(in alloc; "array {name} {place}={value}\n")?;
    text.push_str(line.as_str())
}

/// Appends the line of a store's value of an array to the text.
fn push_place(
    alloc: Global,
    text: &mut String,
    store: &PlainStore,
    array: NamedArray,
    place: ArrayPlace,
) -> Result<(), AllocError>
    ensures { OnOk result ((s : Plain) → IsSoundStore s → StandsFor store.now s
        → (g : ArrayShape) → IsArray s.shape.arrays array.entry.number g
        → place.cpu < copies s.shape.cpus g → place.index < g.max
        → string_bytes text.new ≡ string_bytes text.old
        ++ value_line (called_by array.entry) place.per_cpu place.index place.cpu
        (s.value (fixed_number array.entry.number place.cpu place.index)).bytes) }
{
    match store.fixed(array.number as u64, place.cpu, place.index) {
        Some(value) => push_value(alloc, text, array, place, value),
        None => Ok(()),
    }
}

/// Appends the lines of an index of an array to the text: of its one value, or of each CPU's.
fn push_index(
    alloc: Global,
    text: &mut String,
    store: &PlainStore,
    array: NamedArray,
    index: u64,
) -> Result<(), AllocError>
    requires { array.number < length (shape_of store.now).arrays }
    ensures { OnOk result ((s : Plain) → IsSoundStore s → StandsFor store.now s
        → (g : ArrayShape) → IsArray s.shape.arrays array.entry.number g → index < g.max
        → string_bytes text.new ≡ string_bytes text.old
        ++ index_lines s (called_by array.entry) g index (copies s.shape.cpus g)) }
{
    let shape = store.store_shape();
    let array_shape = shape.arrays()[array.number];
    let per_cpu = array_shape.per_cpu;
    for copy in 0..array_shape.copies(shape.cpus()) {
        let cpu = copy as u8;
        let place = ArrayPlace {
            index,
            cpu,
            per_cpu,
        };
        push_place(alloc, text, store, array, place)?;
    }
    Ok(())
}

/// Appends the lines of all values of an array to the text.
fn push_values(
    alloc: Global,
    text: &mut String,
    store: &PlainStore,
    array: NamedArray,
) -> Result<(), AllocError>
    requires { array.number < length (shape_of store.now).arrays }
    ensures { OnOk result ((s : Plain) → IsSoundStore s → StandsFor store.now s
        → (g : ArrayShape) → IsArray s.shape.arrays array.entry.number g
        → string_bytes text.new ≡ string_bytes text.old
        ++ value_lines s (called_by array.entry) g g.max) }
{
    let shape = store.store_shape().arrays()[array.number];
    for index in 0..shape.max {
        push_index(alloc, text, store, array, index)?;
    }
    Ok(())
}

/// The lines of all values of an array, also of one that may only be read.
pub fn list_values(
    alloc: Global,
    store: &PlainStore,
    array: NamedArray,
) -> Result<String, AllocError>
    requires { array.number < length (shape_of store.now).arrays }
    ensures { IfOk result (λ text. (s : Plain) → IsSoundStore s → StandsFor store.now s
        → (g : ArrayShape) → IsArray s.shape.arrays array.entry.number g
        → string_bytes text ≡ value_lines s (called_by array.entry) g g.max) }
{
    let mut text = String::new(alloc);
    push_values(alloc, &mut text, store, array)?;
    Ok(text)
}

/// Appends the lines of an array to the text: none of one that may only be read.
fn push_array(
    alloc: Global,
    text: &mut String,
    store: &PlainStore,
    array: NamedArray,
) -> Result<(), AllocError>
    requires { array.number < length (shape_of store.now).arrays }
    ensures { OnOk result ((s : Plain) → IsSoundStore s → StandsFor store.now s
        → string_bytes text.new ≡ string_bytes text.old
        ++ array_text s (called_by array.entry) (slice_get s.shape.arrays array.entry.number)) }
{
    if store.store_shape().arrays()[array.number].frozen {
        return Ok(());
    }
    push_values(alloc, text, store, array)
}

/// The lines of all arrays in the order of their numbers.
pub(crate) fn list_arrays(
    alloc: Global,
    store: &PlainStore,
    names: &Names,
) -> Result<String, AllocError>
    ensures { IfOk result (λ text. (s : Plain) → IsSoundStore s → StandsFor store.now s
        → string_bytes text
        ≡ array_lines s (names_of names.now) (length s.shape.arrays)) }
{
    let mut text = String::new(alloc);
    let maps = store.store_shape().maps().len();
    for number in 0..store.store_shape().arrays().len() {
        let array = NamedArray {
            number,
            name: name_at(&names.maps, maps + number),
            variables: &names.variables,
        };
        push_array(alloc, &mut text, store, array)?;
    }
    Ok(text)
}
