//! The lines of the arrays of a store that is left, as bpf_jobs has them.

ghost use Rattle.std.specs.Prelude.{◌≡◌, ◌++◌, ◌<◌, IfOk, OnOk, length, slice_get, string_bytes};
ghost use Rattle.bpf_shared.specs.declared.shapes.ArrayShape.{ArrayShape};
ghost use Rattle.bpf_shared.specs.Shape.{IsArray, copies};
ghost use Rattle.bpf_shared.specs.Store.{Plain, fixed_number};
ghost use Rattle.bpf_names.specs.Names.{names_of};
ghost use Rattle.bpf_jobs.specs.Printed.{array_lines, array_text, called_by, index_lines, value_line};
ghost use Rattle.hop_map.specs.Dumping.{IsLast};

use crate::left::Left;
use crate::names::name_at;
use bpf_jobs::{ArrayPlace, NamedArray, push_value};
use bpf_names::Names;
use hop_map::Closed;
use std::alloc::{AllocError, Global};

/// Appends the line of a value of an array to the text.
fn push_place(
    alloc: Global,
    text: &mut String,
    closed: &Closed,
    array: NamedArray,
    place: ArrayPlace,
) -> Result<(), AllocError>
    ensures { OnOk result ((last : Plain) → IsLast closed.now last
        → (g : ArrayShape) → IsArray last.shape.arrays array.entry.number g
        → place.cpu < copies last.shape.cpus g → place.index < g.max
        → string_bytes text.new ≡ string_bytes text.old
        ++ value_line (called_by array.entry) place.per_cpu place.index place.cpu
        (last.value (fixed_number array.entry.number place.cpu place.index)).bytes) }
{
    match closed.fixed(alloc, array.number as u64, place.cpu, place.index)? {
        Some(value) => push_value(alloc, text, array, place, &value),
        None => Ok(()),
    }
}

/// Appends the lines of an index of an array to the text: of its one value, or of each CPU's.
fn push_index(
    alloc: Global,
    text: &mut String,
    left: Left,
    array: NamedArray,
    index: u64,
) -> Result<(), AllocError>
    requires { array.number < length left.shape.now.arrays }
    ensures { OnOk result ((last : Plain) → IsLast left.entry.closed.now last
        → last.shape ≡ left.entry.shape.now
        → (g : ArrayShape) → IsArray last.shape.arrays array.entry.number g → index < g.max
        → string_bytes text.new ≡ string_bytes text.old
        ++ index_lines last (called_by array.entry) g index (copies last.shape.cpus g)) }
{
    let Left { shape, closed } = left;
    let array_shape = shape.arrays()[array.number];
    let per_cpu = array_shape.per_cpu;
    for copy in 0..array_shape.copies(shape.cpus()) {
        let cpu = copy as u8;
        let place = ArrayPlace {
            index,
            cpu,
            per_cpu,
        };
        push_place(alloc, text, closed, array, place)?;
    }
    Ok(())
}

/// Appends the lines of an array to the text: none of one that may only be read.
fn push_array(
    alloc: Global,
    text: &mut String,
    left: Left,
    array: NamedArray,
) -> Result<(), AllocError>
    requires { array.number < length left.shape.now.arrays }
    ensures { OnOk result ((last : Plain) → IsLast left.entry.closed.now last
        → last.shape ≡ left.entry.shape.now
        → string_bytes text.new ≡ string_bytes text.old
        ++ array_text last (called_by array.entry) (slice_get last.shape.arrays array.entry.number)) }
{
    let shape = left.shape.arrays()[array.number];
    if shape.frozen {
        return Ok(());
    }
    for index in 0..shape.max {
        push_index(alloc, text, left, array, index)?;
    }
    Ok(())
}

/// The lines of all arrays in the order of their numbers.
pub(crate) fn list_arrays(alloc: Global, left: Left, names: &Names) -> Result<String, AllocError>
    ensures { IfOk result (λ text. (last : Plain) → IsLast left.entry.closed.now last
        → last.shape ≡ left.entry.shape.now → string_bytes text
        ≡ array_lines last (names_of names.now) (length last.shape.arrays)) }
{
    let mut text = String::new(alloc);
    let maps = left.shape.maps().len();
    for number in 0..left.shape.arrays().len() {
        let array = NamedArray {
            number,
            name: name_at(&names.maps, maps + number),
            variables: &names.variables,
        };
        push_array(alloc, &mut text, left, array)?;
    }
    Ok(text)
}
