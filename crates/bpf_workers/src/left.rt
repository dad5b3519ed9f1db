//! What is left of a store, and the lines of its maps, variables and arrays.

ghost use Rattle.std.specs.Prelude.{◌≡◌, ◌++◌, IfOk, length, map, string_bytes};
ghost use Rattle.bpf_shared.specs.Store.{Plain};
ghost use Rattle.bpf_names.specs.Names.{names_of};
ghost use Rattle.bpf_jobs.specs.Printed.{AreMapsAsked, AreMapLines, fixed_lines};
ghost use Rattle.hop_map.specs.Dumping.{IsLast};

use crate::arrays::list_arrays;
use crate::names::name_at;
use crate::variables::list_variables;
use bpf_jobs::push_map;
use bpf_names::Names;
use bpf_shared::StoreShape;
use hop_map::Closed;
use std::alloc::{AllocError, Global};

/// What is left of a store of this shape.
#[derive(Clone, Copy)]
pub(crate) struct Left<'a> {
    pub(crate) shape: &'a StoreShape,
    pub(crate) closed: &'a Closed,
}

/// The lines of all maps in the order of their numbers. They have the first of these names.
fn list_maps(alloc: Global, left: Left, names: &[String]) -> Result<String, AllocError>
    ensures { IfOk result (λ text. (last : Plain) → IsLast left.entry.closed.now last
        → last.shape ≡ left.entry.shape.now → AreMapLines last (map string_bytes names.now)
        (length last.shape.maps) (string_bytes text)) }
{
    let mut text = String::new(alloc);
    for map in 0..left.shape.maps().len() {
        let pairs = left.closed.dump(alloc, map as u64)?;
        push_map(alloc, &mut text, name_at(names, map), &pairs)?;
    }
    Ok(text)
}

/// The lines of the variables, and then of the arrays.
fn fixed_lines(alloc: Global, left: Left, names: &Names) -> Result<String, AllocError>
    ensures { IfOk result (λ text. (last : Plain) → IsLast left.entry.closed.now last
        → last.shape ≡ left.entry.shape.now
        → string_bytes text ≡ fixed_lines last (names_of names.now)) }
{
    let mut text = list_variables(alloc, left, &names.variables)?;
    let arrays = list_arrays(alloc, left, names)?;
    text.push_str(arrays.as_str())?;
    Ok(text)
}

/// The lines of the maps, the variables and the arrays, where they are asked for.
pub(crate) fn asked_lines(
    alloc: Global,
    left: Left,
    names: &Names,
    maps: bool,
) -> Result<String, AllocError>
    ensures { IfOk result (λ text. (last : Plain) → IsLast left.entry.closed.now last
        → last.shape ≡ left.entry.shape.now
        → AreMapsAsked maps last (names_of names.now) (string_bytes text)) }
{
    if maps {
        let mut text = list_maps(alloc, left, &names.maps)?;
        let fixed = fixed_lines(alloc, left, names)?;
        text.push_str(fixed.as_str())?;
        Ok(text)
    } else {
        Ok(String::new(alloc))
    }
}
