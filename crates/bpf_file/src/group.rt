//! The order of the groups of a run file.

ghost use Rattle.std.specs.Prelude.{◌≡◌, ◌+◌, ◌≤◌, map, IfSome, length, string_bytes};
ghost use Rattle.bpf_file.specs.Parts.{group_of, is_in_order, place_of};

use crate::key::Key;

/// The group of a line, by its first word: 1 to 8, or 9 for a word that begins none.
pub fn group_of(word: &[u8]) -> u8
    ensures value { result ≡ group_of word.now }
    ensures small { result ≤ 9 }
{
    if Key::RunFile.is(word) {
        1
    } else if Key::Cpus.is(word) {
        2
    } else if Key::Seed.is(word) {
        3
    } else if Key::Map.is(word) {
        4
    } else if Key::Array.is(word) {
        5
    } else if Key::Data.is(word) || Key::Variable.is(word) || Key::Put.is(word) {
        6
    } else if Key::Program.is(word) {
        7
    } else if Key::Job.is(word) {
        8
    } else {
        9
    }
}

/// Whether a line of this group may follow one of the last.
pub fn is_in_order(last: u8, group: u8) -> bool
    ensures { result ≡ is_in_order last group }
{
    last < group || (last == group && group >= 4)
}

/// The number of the first of this name.
pub fn place_of(name: &[u8], names: &[&[u8]]) -> Option<usize>
    ensures value { result ≡ place_of name.now (map (λ n. n.now) names.now) }
    ensures bound { IfSome result (λ k. k + 1 ≤ length names.now) }
{
    match names {
        [] => None,
        [first, others @ ..] => {
            if *first == name {
                Some(0)
            } else {
                let place = place_of(name, others)?;
                Some(place + 1)
            }
        }
    }
}

/// The number of the first text that is this name.
pub fn place_in(name: &str, names: &[String]) -> Option<usize>
    ensures value { result ≡ place_of name.now (map string_bytes names.now) }
    ensures bound { IfSome result (λ k. k + 1 ≤ length names.now) }
{
    match names {
        [] => None,
        [first, others @ ..] => {
            if first.as_str() == name {
                Some(0)
            } else {
                let place = place_in(name, others)?;
                Some(place + 1)
            }
        }
    }
}
