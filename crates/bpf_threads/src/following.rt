//! Whether each step from a spot leads to a spot of the list.
ghost use Rattle.std.specs.Prelude.{◌≡◌, ◌+◌, ◌<◌, ℕ, pos, true, false, IsTrue, IfSome, Some, Bool, length, slice_get, ◌++◌, ◌∷◌, []};
ghost use Rattle.bpf_loader.specs.Places.{target};
ghost use Rattle.bpf_threads.specs.Chart.{KnowsNoMore, FollowsSpots, IsSpotAt, IsSpotThere, MayBe, goes_straight};

use crate::after::{Known, after};
use crate::spot::{Spot, spot_at};
use bpf_alu::{test32, test64};
use bpf_insn::{Condition, Insn, Operand, Reg, Width};
use bpf_mem::frames::MAX_FRAMES;

/// Whether no more is known than there.
pub(crate) fn agrees(known: &Known, there: &Known) -> bool
    ensures { IsTrue result → KnowsNoMore known.now there.now }
{
    for register in 0..10 {
        if let Some(number) = known[register]
            && there[register] != Some(number)
        {
            return false;
        }
    }
    true
}

/// Whether a spot is there, and knows no more.
fn stands(spot: &Spot, pc: i64, callers: &[u32], known: &Known) -> bool
    ensures { IsTrue result → IsSpotAt pc callers.now known.now spot.now }
{
    if i64::from(spot.pc) != pc {
        return false;
    }
    if spot.callers.as_slice() != callers {
        return false;
    }
    agrees(&spot.known, known)
}

/// Whether the spot of a number does.
fn is_there(spots: &[Spot], place: Option<usize>, pc: i64, callers: &[u32], known: &Known) -> bool
    ensures { IsTrue result → IsSpotThere spots.now place pc callers.now known.now }
{
    let Some(place) = place else {
        return false;
    };
    if place >= spots.len() {
        return false;
    }
    let spot = spot_at(spots, place);
    stands(spot, pc, callers, known)
}

/// Where a jump leads.
pub(crate) fn target(pc: u32, by: i32) -> i64
    ensures { result ≡ target pc by }
{
    i64::from(pc) + 1 + i64::from(by)
}

/// Where an instruction is that is this many words further.
fn further(pc: u32, words: u32) -> i64
    ensures { result ≡ pos (pc + words) }
{
    i64::from(pc) + i64::from(words)
}

/// Whether a jump leads to a spot.
fn jumps(spots: &[Spot], spot: &Spot, by: i32) -> bool
    ensures { IsTrue result → IsSpotThere spots.now spot.now.jump (target spot.now.pc by)
        spot.now.callers.items spot.now.known }
{
    let to = target(spot.pc, by);
    is_there(spots, spot.jump, to, &spot.callers, &spot.known)
}

/// Whether the next instruction is at a spot.
fn passes(spots: &[Spot], spot: &Spot) -> bool
    ensures { IsTrue result → IsSpotThere spots.now spot.now.next (pos (spot.now.pc + 1))
        spot.now.callers.items spot.now.known }
{
    let to = further(spot.pc, 1);
    is_there(spots, spot.next, to, &spot.callers, &spot.known)
}

/// Whether a condition holds, where that is known.
pub(crate) fn decision(
    spot: &Spot,
    width: Width,
    condition: Condition,
    dst: Reg,
    src: Operand,
) -> Option<bool>
    ensures { IfSome result (λ b. (taken : Bool) → MayBe spot.now width condition dst src taken
        → b ≡ taken) }
{
    let left = spot.known(dst)?;
    let right = spot.operand(src)?;
    Some(match width {
        Width::Bits32 => test32(condition, left, right),
        Width::Bits64 => test64(condition, left, right),
    })
}

/// Whether what a conditional jump may do leads to spots.
fn branches(spots: &[Spot], spot: &Spot, by: i32, decided: Option<bool>) -> bool
    ensures jump { IsTrue result → (decided ≡ Some false → ⊥) → IsSpotThere spots.now spot.now.jump
        (target spot.now.pc by) spot.now.callers.items spot.now.known }
    ensures next { IsTrue result → (decided ≡ Some true → ⊥) → IsSpotThere spots.now spot.now.next
        (pos (spot.now.pc + 1)) spot.now.callers.items spot.now.known }
{
    match decided {
        Some(true) => jumps(spots, spot, by),
        Some(false) => passes(spots, spot),
        None => jumps(spots, spot, by) && passes(spots, spot),
    }
}

/// Whether nothing is known.
fn is_blank(known: &Known) -> bool
    ensures { IsTrue result → KnowsNoMore known.now [] }
{
    for register in 0..10 {
        if known[register].is_some() {
            return false;
        }
    }
    true
}

/// Whether these are callers with one more after them.
fn has_pushed(callers: &[u32], others: &[u32], back: u64) -> bool
    ensures { IsTrue result → callers.now ≡ others.now ++ back ∷ [] }
{
    match callers.split_last() {
        Some((last, front)) => u64::from(*last) == back && front == others,
        None => false,
    }
}

/// Whether a local call leads there.
fn is_entry(entry: &Spot, spot: &Spot, by: i32) -> bool
    ensures { IsTrue result → IsSpotAt (target spot.now.pc by)
        (spot.now.callers.items ++ (spot.now.pc + 1) ∷ []) spot.now.known entry.now }
{
    if i64::from(entry.pc) != target(spot.pc, by) {
        return false;
    }
    let back = u64::from(spot.pc) + 1;
    if !has_pushed(&entry.callers, &spot.callers, back) {
        return false;
    }
    agrees(&entry.known, &spot.known)
}

/// Whether a local call leads to a spot.
fn enters(spots: &[Spot], spot: &Spot, by: i32) -> bool
    ensures { IsTrue result → IsSpotThere spots.now spot.now.jump (target spot.now.pc by)
        (spot.now.callers.items ++ (spot.now.pc + 1) ∷ []) spot.now.known }
{
    let Some(place) = spot.jump else {
        return false;
    };
    if place >= spots.len() {
        return false;
    }
    let entry = spot_at(spots, place);
    is_entry(entry, spot, by)
}

/// Whether a spot is there, and nothing is known at it.
fn stands_blank(spot: &Spot, pc: u32, callers: &[u32]) -> bool
    ensures { IsTrue result → IsSpotAt (pos pc) callers.now [] spot.now }
{
    if spot.pc != pc {
        return false;
    }
    if spot.callers.as_slice() != callers {
        return false;
    }
    is_blank(&spot.known)
}

/// Whether the spot of a number does.
fn is_blank_there(spots: &[Spot], place: Option<usize>, pc: u32, callers: &[u32]) -> bool
    ensures { IsTrue result → IsSpotThere spots.now place (pos pc) callers.now [] }
{
    let Some(place) = place else {
        return false;
    };
    if place >= spots.len() {
        return false;
    }
    let spot = spot_at(spots, place);
    stands_blank(spot, pc, callers)
}

/// Whether an exit leads to where the caller goes on, if there is one.
fn returns(spots: &[Spot], spot: &Spot) -> bool
    ensures { IsTrue result → FollowsSpots spots.now spot.now Insn.Exit }
{
    match spot.callers.split_last() {
        Some((back, others)) => is_blank_there(spots, spot.next, *back, others),
        None => true,
    }
}

/// Whether an instruction n words further is at a spot, where no more is known than this.
fn passes_with(spots: &[Spot], spot: &Spot, words: u32, known: &Known) -> bool
    ensures { IsTrue result → IsSpotThere spots.now spot.now.next (pos (spot.now.pc + words))
        spot.now.callers.items known.now }
{
    let to = further(spot.pc, words);
    is_there(spots, spot.next, to, &spot.callers, known)
}

/// Whether an instruction that goes on to the next leads to a spot.
fn goes_on(spots: &[Spot], spot: &Spot, insn: Insn) -> bool
    requires { goes_straight insn ≡ true }
    ensures { IsTrue result → FollowsSpots spots.now spot.now insn }
{
    let known = after(spot, insn);
    passes_with(spots, spot, insn.words(), &known)
}

/// Whether each step of this instruction that goes on leads to a spot.
pub(crate) fn follows(spots: &[Spot], spot: &Spot, insn: Insn) -> bool
    ensures { IsTrue result → FollowsSpots spots.now spot.now insn }
{
    match insn {
        Insn::Exit => returns(spots, spot),
        Insn::CallLocal { offset } => {
            spot.callers.len() + 1 >= MAX_FRAMES || enters(spots, spot, offset)
        }
        Insn::Jump { offset } => jumps(spots, spot, i32::from(offset)),
        Insn::JumpLong { offset } => jumps(spots, spot, offset),
        Insn::JumpIf {
            width,
            condition,
            dst,
            src,
            offset,
        } => {
            let decided = decision(spot, width, condition, dst, src);
            branches(spots, spot, i32::from(offset), decided)
        }
        _ => goes_on(spots, spot, insn),
    }
}
