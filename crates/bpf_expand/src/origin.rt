//! Where states come from.

ghost use Rattle.std.specs.Prelude.{◌≡◌, ◌++◌, ◌<◌, ℕ, List, IfOk, OnOk, Some, length, map, slice_get};
ghost use Rattle.std.specs.Int.{to_le_bytes, w64};
ghost use Rattle.bpf_expand.specs.Parts.{AreOrigins, ArePaired, LeadsTo, origin_bytes};
ghost use Rattle.bpf_expand.specs.State.{Host};

use crate::parts::{empty_parts, part_of};
use std::alloc::{AllocError, Global};

/// What a new state was found by.
#[derive(Drop)]
pub struct Origin {
    /// How many states were read before the one that leads to it.
    pub number: u64,
    /// The CPU whose turns do.
    pub cpu: u8,
    /// How many turns the CPU makes after its first, which no store sees.
    pub ahead: u64,
}

/// Appends a number as it is in a file.
fn push_number(part: &mut Vec<u8>, number: u64) -> Result<(), AllocError>
    ensures { OnOk result (part.new.items ≡ part.old.items ++ to_le_bytes w64 number) }
{
    part.extend_from_slice(&number.to_le_bytes())
}

/// Appends an origin as it is in a file.
fn push_origin(part: &mut Vec<u8>, origin: &Origin) -> Result<(), AllocError>
    ensures { OnOk result (part.new.items ≡ part.old.items ++ origin_bytes origin.now) }
{
    push_number(part, origin.number)?;
    push_number(part, u64::from(origin.cpu))?;
    push_number(part, origin.ahead)?;
    Ok(())
}

/// The origin of a number.
fn origin_at(origins: &[Origin], number: usize) -> &Origin
    requires { number < length origins.now }
    ensures { slice_get origins.now number ≡ Some result.now }
{
    &origins[number]
}

/// The origins of states, each in the part of its state among n.
pub(crate) fn origin_parts(
    alloc: Global,
    states: &[Vec<u8>],
    origins: &[Origin],
    count: usize,
) -> Result<Vec<Vec<u8>>, AllocError>
    requires some { 0 < count }
    requires all { length origins.now ≡ length states.now }
    ensures { IfOk result (λ parts. (h : Host) (read : List (List ℕ))
        → ArePaired (LeadsTo h read) origins.now (map (λ v. v.items) states.now)
        → AreOrigins h read count (map (λ v. v.items) states.now)
        (map (λ v. v.items) parts.items)) }
{
    let mut parts = empty_parts(alloc, count)?;
    for number in 0..states.len() {
        let part = part_of(count, &states[number]);
        let origin = origin_at(origins, number);
        push_origin(&mut parts[part], origin)?;
    }
    Ok(parts)
}
