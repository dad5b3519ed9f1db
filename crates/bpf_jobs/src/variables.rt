//! The lines of variables: a line for each, also where its number is 0.

ghost use Rattle.std.specs.Prelude.{◌≡◌, ◌++◌, IfOk, OnOk, length, map, slice_get, string_bytes};
ghost use Rattle.bpf_shared.specs.Store.{Plain};
ghost use Rattle.bpf_shared.specs.Sound.{IsSoundStore};
ghost use Rattle.bpf_names.specs.Names.{variable_of};
ghost use Rattle.bpf_plain.specs.PlainStore.{StandsFor};
ghost use Rattle.bpf_jobs.specs.Printed.{variable_line, variable_lines, variable_text};

use bpf_names::Variable;
use bpf_plain::PlainStore;
use std::alloc::{AllocError, Global};

/// Appends the line of a variable to the text, of whose array this is the first value.
pub fn push_variable(
    alloc: Global,
    text: &mut String,
    variable: &Variable,
    value: &[u8],
) -> Result<(), AllocError>
    ensures { OnOk result (string_bytes text.new
        ≡ string_bytes text.old ++ variable_line (variable_of variable.now) value.now) }
{
    let name = variable.name.as_str();
    let number = variable.number(value);
    let line = format!(in alloc; "var {name}={number}\n")?;
    text.push_str(line.as_str())
}

/// Appends the line of a store's variable to the text: none of an array that may only be read.
fn push_number(
    alloc: Global,
    text: &mut String,
    store: &PlainStore,
    variable: &Variable,
) -> Result<(), AllocError>
    ensures { OnOk result ((s : Plain) → IsSoundStore s → StandsFor store.now s
        → string_bytes text.new ≡ string_bytes text.old
        ++ variable_text s (variable_of variable.now)
        (slice_get s.shape.arrays variable.now.array)) }
{
    let shape = store.store_shape();
    let Some(array) = shape.arrays().get(usize::from(variable.array)) else {
        return Ok(());
    };
    if array.frozen {
        return Ok(());
    }
    match store.fixed(u64::from(variable.array), 0, 0) {
        Some(value) => push_variable(alloc, text, variable, value),
        None => Ok(()),
    }
}

/// The lines of all variables in their order.
pub fn list_variables(
    alloc: Global,
    store: &PlainStore,
    variables: &[Variable],
) -> Result<String, AllocError>
    ensures { IfOk result (λ text. (s : Plain) → IsSoundStore s → StandsFor store.now s
        → string_bytes text
        ≡ variable_lines s (map variable_of variables.now) (length variables.now)) }
{
    let mut text = String::new(alloc);
    for variable in variables {
        push_number(alloc, &mut text, store, variable)?;
    }
    Ok(text)
}
