//! Bounds on what is counted of a program's runs.
ghost use Rattle.std.specs.Prelude.{◌≡◌, ◌<◌, ℕ, IsTrue, IfOk, IfSome, Some, length, slice_get};
ghost use Rattle.bpf_threads.specs.Chart.{IsChart};
ghost use Rattle.bpf_threads.specs.Counting.{AreAllBounds, FallsAlong, FallsBy, FallsFrom, HasAtMost, HasNumber, LeavesEnough, known_in, weight};

use crate::counting::{Counted, weight};
use crate::spot::{Spot, spot_at};
use bpf_loader::Program;
use std::alloc::{AllocError, Global};

/// How often numbers are gone through at most.
const ROUNDS: usize = 200;

/// The number of a spot: 0 where there is no such spot, and `None` where there is no bound.
fn number_of(most: &[Option<u64>], place: Option<usize>) -> Option<u64> {
    match place {
        Some(place) => match most.get(place) {
            Some(number) => *number,
            None => None,
        },
        None => Some(0),
    }
}

/// What a spot has with what comes next.
fn sum_at(program: &Program, spot: &Spot, most: &[Option<u64>], counted: Counted) -> Option<u64> {
    let next = number_of(most, spot.next)?;
    let jump = number_of(most, spot.jump)?;
    let own = if program.is_start(spot.pc) {
        weight(counted, spot, *program.instruction_at(spot.pc))
    } else {
        0
    };
    next.max(jump).checked_add(own)
}

/// One round from the last spot to the first: what has grown grows on, or has no bound where this is
/// the last of the rounds. Whether something has changed.
fn go_through(
    program: &Program,
    spots: &[Spot],
    most: &mut Vec<Option<u64>>,
    counted: Counted,
    last: bool,
) -> bool {
    let mut changed = false;
    for behind in 0..spots.len() {
        let place = spots.len() - 1 - behind;
        let sum = sum_at(program, &spots[place], most, counted);
        if let Some(number) = most.get_mut(place)
            && *number != sum
        {
            *number = if last { None } else { sum };
            changed = true;
        }
    }
    changed
}

/// A guess at the numbers of spots.
fn guess(
    alloc: Global,
    program: &Program,
    spots: &[Spot],
    counted: Counted,
) -> Result<Vec<Option<u64>>, AllocError> {
    let mut most = vec![in alloc; Some(0); spots.len()]?;
    for round in 0..2 * ROUNDS {
        if !go_through(program, spots, &mut most, counted, round >= ROUNDS) {
            break;
        }
    }
    Ok(most)
}

/// Whether this number is left where a way leads.
fn leaves_enough(most: &[Option<u64>], place: Option<usize>, own: u64, number: u64) -> bool
    ensures { IsTrue result → LeavesEnough most.now place own number }
{
    let Some(place) = place else {
        return true;
    };
    match most.get(place) {
        Some(Some(left)) => *left <= number && own <= number - *left,
        _ => false,
    }
}

/// Whether this number is left where each way of a spot leads.
fn falls_by(spot: &Spot, most: &[Option<u64>], own: u64, number: u64) -> bool
    ensures { IsTrue result → FallsBy spot.now most.now own number }
{
    own <= number
        && leaves_enough(most, spot.next, own, number)
        && leaves_enough(most, spot.jump, own, number)
}

/// Whether it is with what the spot's instruction has.
fn falls_from(
    program: &Program,
    spot: &Spot,
    most: &[Option<u64>],
    counted: Counted,
    number: u64,
) -> bool
    ensures { IsTrue result → FallsFrom counted program.now spot.now most.now number }
{
    if !program.is_start(spot.pc) {
        return false;
    }
    let own = weight(counted, spot, *program.instruction_at(spot.pc));
    falls_by(spot, most, own, number)
}

/// Whether the bound falls by what the spot's instruction has, if the spot has a number.
fn may_fall(
    program: &Program,
    spot: &Spot,
    most: &[Option<u64>],
    counted: Counted,
    number: Option<u64>,
) -> bool
    ensures { IsTrue result → (n : ℕ) → number ≡ Some n
        → FallsFrom counted program.now spot.now most.now n }
{
    match number {
        Some(number) => falls_from(program, spot, most, counted, number),
        None => true,
    }
}

/// The number of the spot at a place.
fn number_at(most: &[Option<u64>], place: usize) -> Option<u64>
    ensures { result ≡ known_in (slice_get most.now place) }
{
    match most.get(place) {
        Some(number) => *number,
        None => None,
    }
}

/// Whether the bound falls at the spot at a place.
fn falls(
    program: &Program,
    spots: &[Spot],
    most: &[Option<u64>],
    counted: Counted,
    place: usize,
) -> bool
    requires { place < length spots.now }
    ensures { IsTrue result → FallsAlong counted program.now spots.now most.now place }
{
    let number = number_at(most, place);
    may_fall(program, spot_at(spots, place), most, counted, number)
}

/// Whether it is so of each spot.
fn all_fall(program: &Program, spots: &[Spot], most: &[Option<u64>], counted: Counted) -> bool
    ensures { IsTrue result → AreAllBounds counted program.now spots.now most.now }
{
    for place in 0..spots.len() {
        if !falls(program, spots, most, counted, place) {
            return false;
        }
    }
    true
}

/// How many counted calls a run of the program makes at most; `None` where no bound was found.
pub(crate) fn bound(
    alloc: Global,
    program: &Program,
    spots: &[Spot],
    counted: Counted,
) -> Result<Option<u64>, AllocError>
    requires { IsChart program.now spots.now }
    ensures { IfOk result (λ most. IfSome most (λ n. HasAtMost counted program.now n)) }
{
    let most = guess(alloc, program, spots, counted)?;
    if !all_fall(program, spots, &most, counted) {
        return Ok(None);
    }
    Ok(number_of_first(&most))
}

/// The number of the first spot.
fn number_of_first(most: &[Option<u64>]) -> Option<u64>
    ensures { IfSome result (λ n. HasNumber most.now 0 n) }
{
    match most.first() {
        Some(number) => *number,
        None => None,
    }
}
