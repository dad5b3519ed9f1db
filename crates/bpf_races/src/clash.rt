//! Bytes for which two next steps race.

ghost use Rattle.std.specs.Prelude.{◌≡◌, ◌||◌, ◌&&◌, ℕ, [], true, false, not, IfOk, OnOk};
ghost use Rattle.bpf_races.specs.Touch.{AreAtOdds, Clash, IsAmong};
ghost use Rattle.bpf_races.specs.Parts.{IsInPart, IsLeftOut, map_at, offset_at};
ghost use Rattle.bpf_races.specs.Private.Clashes.{Collects};

use crate::access::Access;
use crate::sync::Part;
use bpf_shared::{FIRST_VALUE, MAP_AREA};
use std::alloc::{AllocError, Global};

/// The number of the map among whose values an address is.
pub(crate) fn map_at(address: u64) -> usize
    ensures { result ≡ map_at address }
{
    (address.saturating_sub(FIRST_VALUE) / MAP_AREA) as usize
}

/// How far an address is from the beginning of its value, in a map whose values are so far apart.
fn offset_at(stride: u64, address: u64) -> u64
    requires { stride ≡ 0 → ⊥ }
    ensures { result ≡ offset_at stride address }
{
    address.saturating_sub(FIRST_VALUE) % MAP_AREA % stride
}

/// Whether an address is among these bytes of a map's values.
fn is_in_part(part: &Part, address: u64) -> bool
    ensures is { result ≡ true → IsInPart part.now address }
    ensures not { result ≡ false → IsInPart part.now address → ⊥ }
{
    if part.stride == 0 || part.map != map_at(address) {
        return false;
    }
    let offset = offset_at(part.stride, address);
    part.from <= offset && offset < part.past
}

/// Whether an address is among bytes that are left out.
fn is_left_out(sync: &[Part], address: u64) -> bool
    ensures out { result ≡ true → IsLeftOut sync.now address }
    ensures not { result ≡ false → IsLeftOut sync.now address → ⊥ }
{
    for k in 0..sync.len() {
        if is_in_part(&sync[k], address) {
            return true;
        }
    }
    false
}

/// Whether one of them writes, and not both are atomic.
fn is_unordered(first: Access, second: Access) -> bool
    ensures yes { result ≡ true → (first.writes || second.writes ≡ true)
        × (first.atomic && second.atomic ≡ false) }
    ensures no { result ≡ false → (b : ℕ) → AreAtOdds first second b → ⊥ }
{
    (first.writes || second.writes) && !(first.atomic && second.atomic)
}

/// Appends a byte to the others, unless it is left out.
fn push_byte(byte: u64, sync: &[Part], bytes: &mut Vec<u64>) -> Result<(), AllocError>
    ensures { OnOk result (Collects (λ b. b ≡ byte) sync.now bytes.old.items bytes.new.items) }
{
    if is_left_out(sync, byte) {
        return Ok(());
    }
    bytes.push(byte)?;
    Ok(())
}

/// Appends the bytes that both touch to the others, but for those that are left out.
fn push_common(
    first: Access,
    second: Access,
    sync: &[Part],
    bytes: &mut Vec<u64>,
) -> Result<(), AllocError>
    requires unordered { (first.writes || second.writes ≡ true)
        × (first.atomic && second.atomic ≡ false) }
    ensures { OnOk result (Collects (AreAtOdds first second) sync.now bytes.old.items
        bytes.new.items) }
{
    let low = first.at.max(second.at);
    let high = first.past.min(second.past);
    for byte in low..high {
        push_byte(byte, sync, bytes)?;
    }
    Ok(())
}

/// Appends the bytes for which two accesses race to the others, but for those that are left out.
fn push_of_two(
    first: Access,
    second: Access,
    sync: &[Part],
    bytes: &mut Vec<u64>,
) -> Result<(), AllocError>
    ensures { OnOk result (Collects (AreAtOdds first second) sync.now bytes.old.items
        bytes.new.items) }
{
    if is_unordered(first, second) {
        push_common(first, second, sync, bytes)
    } else {
        Ok(())
    }
}

/// Appends the bytes for which an access and one of some others race, but for those that are left out.
fn push_of_one(
    first: Access,
    seconds: &[Access],
    sync: &[Part],
    bytes: &mut Vec<u64>,
) -> Result<(), AllocError>
    ensures { OnOk result (Collects (λ b. (second : Access) × IsAmong seconds.now second
        × AreAtOdds first second b) sync.now bytes.old.items bytes.new.items) }
{
    for k in 0..seconds.len() {
        push_of_two(first, seconds[k], sync, bytes)?;
    }
    Ok(())
}

/// The bytes for which some of the first and some of the second race, but for those that are left
/// out.
pub(crate) fn racing_bytes(
    alloc: Global,
    firsts: &[Access],
    seconds: &[Access],
    sync: &[Part],
) -> Result<Vec<u64>, AllocError>
    ensures { IfOk result (λ v. Collects (Clash firsts.now seconds.now) sync.now [] v.items) }
{
    let mut bytes = Vec::new(alloc);
    for k in 0..firsts.len() {
        push_of_one(firsts[k], seconds, sync, &mut bytes)?;
    }
    Ok(bytes)
}
