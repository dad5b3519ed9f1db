//! Races, each between two places for one value once.

ghost use Rattle.std.specs.Prelude.{◌≡◌, ◌<◌, ◌++◌, ◌∷◌, [], true, false, IfOk, OnOk, option_map};
ghost use Rattle.bpf_races.specs.Races.{IsListed, spot_of};
ghost use Rattle.bpf_races.specs.Private.Searching.{AddsRace, IsOneOf, IsSame};

use crate::clash::map_at;
use bpf_machine::Stand;
use std::alloc::AllocError;
use std::marker::Model;

/// Two CPUs and where they are, that of the lesser number first.
#[derive(Clone, Copy, PartialEq, Eq, Debug)]
pub struct Pair {
    pub one: Stand,
    pub other: Stand,
}

/// Two CPUs whose next steps race, where a schedule leads.
#[derive(Drop)]
pub struct Race {
    pub pair: Pair,
    /// The address of a byte for which they race.
    pub at: u64,
    /// The key of the byte's value, if it is in its map.
    pub key: Option<Vec<u8>>,
    /// The schedule: CPUs, each with how many turns it makes before the next.
    pub by: Vec<(u8, u64)>,
}

impl Model for Race {
    ghost use Rattle.std.specs.Prelude.{option_map};
    ghost use Rattle.bpf_races.specs.Races.{RaceFound};

    ghost Value = { RaceFound };

    ghost view = { λ r. record {
      pair = r.pair;
      at = r.at;
      key = option_map (λ key. key.items) r.key;
      by = r.by.items;
    } };
}

/// Whether both are one key, or none.
fn is_key(one: &Option<Vec<u8>>, two: &Option<Vec<u8>>) -> bool
    ensures is { result ≡ true → option_map (λ key. key.items) one.now
        ≡ option_map (λ key. key.items) two.now }
    ensures not { result ≡ false → option_map (λ key. key.items) one.now
        ≡ option_map (λ key. key.items) two.now → ⊥ }
{
    match (one, two) {
        (Some(one), Some(two)) => one.as_slice() == two.as_slice(),
        (None, None) => true,
        _ => false,
    }
}

/// Whether both are between the same places, for the same key of the same map.
fn is_like(one: &Race, two: &Race) -> bool
    ensures is { result ≡ true → spot_of one.now ≡ spot_of two.now }
    ensures not { result ≡ false → spot_of one.now ≡ spot_of two.now → ⊥ }
{
    one.pair == two.pair && map_at(one.at) == map_at(two.at) && is_key(&one.key, &two.key)
}

/// Whether some race is between the same places, for the same key of the same map.
pub(crate) fn is_listed(races: &[Race], race: &Race) -> bool
    ensures is { result ≡ true → IsListed races.now (spot_of race.now) }
    ensures not { result ≡ false → IsListed races.now (spot_of race.now) → ⊥ }
{
    for k in 0..races.len() {
        if is_like(&races[k], race) {
            return true;
        }
    }
    false
}

/// Appends a race to the others, unless such a one is listed.
pub(crate) fn add_race(races: &mut Vec<Race>, race: Race) -> Result<(), AllocError>
    ensures { OnOk result (AddsRace races.old.items race races.new.items) }
{
    if is_listed(races, &race) {
        return Ok(());
    }
    races.push(race)?;
    Ok(())
}

/// Whether both are between the same places, for the same byte and key.
fn is_same(one: &Race, two: &Race) -> bool
    ensures { result ≡ true → IsSame one.now two.now }
{
    one.pair == two.pair && one.at == two.at && is_key(&one.key, &two.key)
}

/// Whether some race is between the same places, for the same byte and key.
pub(crate) fn is_one_of(races: &[Race], race: &Race) -> bool
    ensures { result ≡ true → IsOneOf races.now race.now }
{
    for k in 0..races.len() {
        if is_same(&races[k], race) {
            return true;
        }
    }
    false
}
