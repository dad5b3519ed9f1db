//! Charts of programs: whether a list of spots has all that a run may reach.
ghost use Rattle.std.specs.Prelude.{◌≡◌, ◌<◌, IsTrue, IfOk, length, slice_index};
ghost use Rattle.bpf_cpu.specs.Input.{no_input};
ghost use Rattle.bpf_cpu.specs.State.{start};
ghost use Rattle.bpf_threads.specs.Chart.{IsChart, IsFirstSpot, IsCharted};
ghost use Rattle.bpf_threads.specs.Private.Charts.{Begin, IsChartOf, IsSpotFrom};

use crate::drawing::{Care, draw};
use crate::following::follows;
use crate::spot::{Spot, spot_at};
use bpf_loader::Program;
use bpf_mem::addresses::CONTEXT_BASE;
use std::alloc::{AllocError, Global};

/// Whether an instruction is there, from which each step leads to a spot.
fn is_spot(program: &Program, spots: &[Spot], spot: &Spot) -> bool
    ensures { IsTrue result → IsCharted program.now spots.now spot.now }
{
    if !program.is_start(spot.pc) {
        return false;
    }
    follows(spots, spot, *program.instruction_at(spot.pc))
}

/// Whether an instruction is at the spot of this number, from which each step leads to a spot.
fn is_spot_at(program: &Program, spots: &[Spot], place: usize) -> bool
    requires { place < length spots.now }
    ensures { IsTrue result → IsSpotFrom program.now spots.now place }
{
    is_spot(program, spots, spot_at(spots, place))
}

/// What a register holds as a run begins.
fn first_number(register: usize) -> u64
    requires { register < 10 }
    ensures { result ≡ slice_index (start 0 no_input).registers register }
{
    if register == 1 { CONTEXT_BASE } else { 0 }
}

/// Whether runs may begin at a spot.
fn is_first(spot: &Spot) -> bool
    ensures { IsTrue result → IsFirstSpot spot.now }
{
    if spot.pc != 0 || !spot.callers.is_empty() {
        return false;
    }
    for register in 0..10 {
        if let Some(number) = spot.known[register]
            && number != first_number(register)
        {
            return false;
        }
    }
    true
}

/// Whether runs may begin at the first of the spots.
fn begin(spots: &[Spot]) -> bool
    ensures { IsTrue result → Begin spots.now }
{
    if spots.is_empty() {
        return false;
    }
    let first = spot_at(spots, 0);
    is_first(first)
}

/// Whether spots have all that runs of the program may reach.
fn is_chart(program: &Program, spots: &[Spot]) -> bool
    ensures { IsTrue result → IsChart program.now spots.now }
{
    if !begin(spots) {
        return false;
    }
    for place in 0..spots.len() {
        if !is_spot_at(program, spots, place) {
            return false;
        }
    }
    true
}

/// What was drawn of a program: whether it is a chart, and its spots.
#[derive(Drop)]
pub struct Drawn {
    pub whole: bool,
    pub spots: Vec<Spot>,
}

/// A chart of a program, or none: first with all numbers that registers hold, then with fewer.
pub(crate) fn chart(alloc: Global, program: &Program) -> Result<Drawn, AllocError>
    ensures { IfOk result (IsChartOf program.now) }
{
    for care in [Care::All, Care::Addresses, Care::Blocks] {
        if let Some(spots) = draw(alloc, program, care)?
            && is_chart(program, &spots)
        {
            return Ok(Drawn { whole: true, spots });
        }
    }
    Ok(Drawn {
        whole: false,
        spots: Vec::new(alloc),
    })
}
