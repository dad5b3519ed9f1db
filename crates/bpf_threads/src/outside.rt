//! Whether keys and values of calls lie outside the values of maps and arrays, and updates of arrays
//! are one store.
ghost use Rattle.std.specs.Prelude.{◌≡◌, ◌<◌, ◌≤◌, IsTrue, Some, length, slice_get};
ghost use Rattle.bpf_threads.specs.Chart.{IsChart};
ghost use Rattle.bpf_threads.specs.Outside.{AllReadOutside, IsCopiedAtOnce};
ghost use Rattle.bpf_threads.specs.Private.Outside.{AreAtOnce, IsAtOnce, LiesOutside, PlaceReadsOutside, ReadsOutsideAt, SpotReadsOutside, UpdatesAtOnce};

use crate::spot::{Spot, spot_at};
use bpf_helpers::asks_once;
use bpf_helpers::calls::{MAP_UPDATE_ELEM, MAPS};
use bpf_insn::{Insn, Reg};
use bpf_loader::Program;
use bpf_shared::{ArrayShape, FIRST_ARRAY, FIRST_VALUE, MAP_AREA, StoreShape};

/// How many areas values have: those of maps, and as many of arrays.
const AREAS: u64 = 32;

/// Whether a register is known to have an address from which n bytes lie in no value.
fn lies_outside(spot: &Spot, register: Reg, size: u64) -> bool
    requires { size ≤ 65536 }
    ensures { IsTrue result → LiesOutside spot.now register size }
{
    match spot.known(register) {
        Some(at) => at <= FIRST_VALUE - size || FIRST_VALUE + AREAS * MAP_AREA <= at,
        None => false,
    }
}

/// Whether an array's value is copied in one part.
fn is_copied_at_once(array: ArrayShape) -> bool
    ensures { IsTrue result → IsCopiedAtOnce array }
{
    matches!(array.value, 1 | 2 | 4 | 8)
}

/// The array of a number.
fn array_at(arrays: &[ArrayShape], place: usize) -> ArrayShape
    requires { place < length arrays.now }
    ensures { slice_get arrays.now place ≡ Some result }
{
    arrays[place]
}

/// Whether it is so of each array.
fn are_at_once(arrays: &[ArrayShape]) -> bool
    ensures { IsTrue result → AreAtOnce arrays.now }
{
    for place in 0..arrays.len() {
        if !is_copied_at_once(array_at(arrays, place)) {
            return false;
        }
    }
    true
}

/// Whether it is so of that which has this number, if it is an array.
fn is_at_once(arrays: &[ArrayShape], map: u64) -> bool
    ensures { IsTrue result → IsAtOnce arrays.now map }
{
    let Some(place) = map.checked_sub(MAPS + FIRST_ARRAY) else {
        return true;
    };
    match arrays.get(place as usize) {
        Some(array) => is_copied_at_once(*array),
        None => true,
    }
}

/// Whether it is so of that which R1 has at a spot, if it is an array.
fn updates_at_once(spot: &Spot, arrays: &[ArrayShape]) -> bool
    ensures { IsTrue result → UpdatesAtOnce arrays.now spot.now }
{
    match spot.known(Reg::R1) {
        Some(map) => is_at_once(arrays, map),
        None => are_at_once(arrays),
    }
}

/// Whether the instruction at a spot, if it calls a map or an array, reads outside of values, and
/// stores at once.
fn reads_outside(arrays: &[ArrayShape], spot: &Spot, insn: Insn) -> bool
    ensures { IsTrue result → ReadsOutsideAt arrays.now spot.now insn }
{
    match insn {
        Insn::CallHelper { number } => {
            asks_once(number)
                || (lies_outside(spot, Reg::R2, 64)
                    && (number != MAP_UPDATE_ELEM
                        || (lies_outside(spot, Reg::R3, 65_536) && updates_at_once(spot, arrays))))
        }
        _ => true,
    }
}

/// Whether so it is of the instruction at a spot.
fn spot_reads_outside(arrays: &[ArrayShape], program: &Program, spot: &Spot) -> bool
    ensures { IsTrue result → SpotReadsOutside arrays.now program.now spot.now }
{
    if !program.is_start(spot.pc) {
        return false;
    }
    reads_outside(arrays, spot, *program.instruction_at(spot.pc))
}

/// Whether so it is of the instruction at the spot at a place.
fn place_reads_outside(
    arrays: &[ArrayShape],
    program: &Program,
    spots: &[Spot],
    place: usize,
) -> bool
    requires { place < length spots.now }
    ensures { IsTrue result → PlaceReadsOutside arrays.now program.now spots.now place }
{
    spot_reads_outside(arrays, program, spot_at(spots, place))
}

/// Whether it is so of each call of a map or an array that a run of the program makes.
pub(crate) fn all_read_outside(shape: &StoreShape, program: &Program, spots: &[Spot]) -> bool
    requires { IsChart program.now spots.now }
    ensures { IsTrue result → AllReadOutside shape.now program.now }
{
    let arrays = shape.arrays();
    for place in 0..spots.len() {
        if !place_reads_outside(arrays, program, spots, place) {
            return false;
        }
    }
    true
}
