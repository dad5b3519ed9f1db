//! The lines of the variables of a store that is left, as bpf_jobs has them.

ghost use Rattle.std.specs.Prelude.{◌≡◌, ◌++◌, ◌<◌, IfOk, OnOk, length, map, slice_get, string_bytes};
ghost use Rattle.bpf_shared.specs.declared.shapes.ArrayShape.{ArrayShape};
ghost use Rattle.bpf_shared.specs.Shape.{IsArray, copies};
ghost use Rattle.bpf_shared.specs.Store.{Plain, fixed_number};
ghost use Rattle.bpf_names.specs.Names.{variable_of};
ghost use Rattle.bpf_jobs.specs.Printed.{variable_line, variable_lines, variable_text};
ghost use Rattle.hop_map.specs.Dumping.{IsLast};

use crate::left::Left;
use bpf_jobs::push_variable;
use bpf_names::Variable;
use hop_map::Closed;
use std::alloc::{AllocError, Global};

/// Appends the line of a variable to the text, of whose array there is a first value.
fn push_first(
    alloc: Global,
    text: &mut String,
    closed: &Closed,
    variable: &Variable,
) -> Result<(), AllocError>
    ensures { OnOk result ((last : Plain) → IsLast closed.now last
        → (g : ArrayShape) → IsArray last.shape.arrays variable.now.array g
        → 0 < copies last.shape.cpus g → 0 < g.max
        → string_bytes text.new ≡ string_bytes text.old
        ++ variable_line (variable_of variable.now)
        (last.value (fixed_number variable.now.array 0 0)).bytes) }
{
    match closed.fixed(alloc, u64::from(variable.array), 0, 0)? {
        Some(value) => push_variable(alloc, text, variable, &value),
        None => Ok(()),
    }
}

/// Appends the line of a variable to the text: none of an array that may only be read.
fn push_number(
    alloc: Global,
    text: &mut String,
    left: Left,
    variable: &Variable,
) -> Result<(), AllocError>
    ensures { OnOk result ((last : Plain) → IsLast left.entry.closed.now last
        → last.shape ≡ left.entry.shape.now
        → string_bytes text.new ≡ string_bytes text.old
        ++ variable_text last (variable_of variable.now)
        (slice_get last.shape.arrays variable.now.array)) }
{
    let Some(array) = left.shape.arrays().get(usize::from(variable.array)) else {
        return Ok(());
    };
    if array.frozen {
        return Ok(());
    }
    push_first(alloc, text, left.closed, variable)
}

/// The lines of all variables in their order.
pub(crate) fn list_variables(
    alloc: Global,
    left: Left,
    variables: &[Variable],
) -> Result<String, AllocError>
    ensures { IfOk result (λ text. (last : Plain) → IsLast left.entry.closed.now last
        → last.shape ≡ left.entry.shape.now → string_bytes text
        ≡ variable_lines last (map variable_of variables.now) (length variables.now)) }
{
    let mut text = String::new(alloc);
    for variable in variables {
        push_number(alloc, &mut text, left, variable)?;
    }
    Ok(text)
}
