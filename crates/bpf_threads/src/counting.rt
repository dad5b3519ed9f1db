//! What is counted of runs.
ghost use Rattle.std.specs.Prelude.{◌≡◌, ◌≤◌};
ghost use Rattle.bpf_threads.specs.Counting.{is_counted_call, known_at, may_be, may_replace_by, weight};

use crate::spot::Spot;
use bpf_helpers::calls::{MAP_DELETE_ELEM, MAP_UPDATE_ELEM, MAPS};
use bpf_insn::Insn;

/// Which calls of a map.
#[derive(Clone, Copy, PartialEq, Eq, Debug)]
pub enum Kind {
    /// Each update.
    Updates,
    /// Those that may take a value out of the map: deletions, and updates that may replace one.
    Removals,
}

/// A kind of calls of one map.
#[derive(Clone, Copy, PartialEq, Eq, Debug)]
pub struct Counted {
    pub map: u8,
    pub kind: Kind,
}

/// Whether flags that are known so far may let an update replace a value.
fn may_replace_by(flags: Option<u64>) -> bool
    ensures { result ≡ may_replace_by flags }
{
    match flags {
        Some(flags) => flags != 1,
        None => true,
    }
}

/// Whether a map that is known so far may be this one.
fn may_be(map: Option<u64>, number: u8) -> bool
    ensures { result ≡ may_be map number }
{
    match map {
        Some(map) => map == MAPS + u64::from(number),
        None => true,
    }
}

/// Whether a helper's call may be counted.
fn is_counted_call(kind: Kind, number: u32, flags: Option<u64>) -> bool
    ensures { result ≡ is_counted_call kind number flags }
{
    match kind {
        Kind::Updates => number == MAP_UPDATE_ELEM,
        Kind::Removals => {
            number == MAP_DELETE_ELEM || (number == MAP_UPDATE_ELEM && may_replace_by(flags))
        }
    }
}

/// What a register is known to hold at a spot.
fn known_at(spot: &Spot, register: usize) -> Option<u64>
    ensures { result ≡ known_at spot.now register }
{
    match spot.known.get(register) {
        Some(number) => *number,
        None => None,
    }
}

/// How many counted calls an instruction makes at most, at a spot.
pub(crate) fn weight(counted: Counted, spot: &Spot, insn: Insn) -> u64
    ensures weight { result ≡ weight counted spot.now insn }
    ensures one { result ≤ 1 }
{
    match insn {
        Insn::CallHelper { number } => {
            let flags = known_at(spot, 4);
            let map = known_at(spot, 1);
            u64::from(is_counted_call(counted.kind, number, flags) && may_be(map, counted.map))
        }
        _ => 0,
    }
}
