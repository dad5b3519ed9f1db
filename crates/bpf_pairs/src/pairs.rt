//! Pairs of maps, in the order in which they are put in.

ghost use Rattle.std.specs.Prelude.{◌≡◌, ◌≤◌, length, map};
ghost use Rattle.bpf_pairs.specs.Pairs.{has_key, pair_of, pairs_in};

/// A key of a map with its value: what the map has at first.
#[derive(Drop)]
pub struct Pair {
    /// The map's number.
    pub map: u8,
    pub key: Vec<u8>,
    pub value: Vec<u8>,
}

/// How many of these pairs are those of the map of this number.
pub fn count_in(number: u8, pairs: &[Pair]) -> usize
    ensures count { result ≡ pairs_in number (map pair_of pairs.now) }
    ensures few { result ≤ length pairs.now }
{
    let mut count = 0;
    for pair in pairs {
        if pair.map == number {
            count += 1;
        }
    }
    count
}

/// Whether one of these pairs is that of the map of this number, and has this key.
pub fn has_key(number: u8, key: &[u8], pairs: &[Pair]) -> bool
    ensures { result ≡ has_key number key.now (map pair_of pairs.now) }
{
    for pair in pairs {
        if pair.map == number && pair.key.as_slice() == key {
            return true;
        }
    }
    false
}
