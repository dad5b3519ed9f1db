//! Races as they are printed.

ghost use Rattle.std.specs.Prelude.{◌≡◌, ◌+◌, ◌++◌, [], IfOk, OnOk, length, map, option_map, slice_index_or, string_bytes};
ghost use Rattle.bpf_names.specs.Names.{names_of, variable_of};
ghost use Rattle.bpf_races.specs.Lines.{comment_lines, comment_text, count_text, here_lines, here_text, key_text, keyed_text, last_line, place_text, places_text, race_text, races_text, same_line, stand_text, value_text, variable_text};
ghost use Rattle.bpf_races.specs.Races.{is_race_free};

use crate::clash::map_at;
use crate::found::{Pair, Race};
use crate::search::Races;
use crate::sync::Part;
use bpf_explore::whether_all;
use bpf_loader::Named;
use bpf_machine::Stand;
use bpf_names::{Names, Variable};
use bpf_schedule::push_runs;
use bpf_shared::FIRST_ARRAY;
use std::alloc::{AllocError, Global};

/// The name of a map by its number; none for no map's.
fn name_at(names: &[String], number: usize) -> &str
    ensures { result.now ≡ slice_index_or (map string_bytes names.now) number [] }
{
    match names.get(number) {
        Some(name) => name.as_str(),
        None => "",
    }
}

/// The name of an array, whose names are after those of the maps; none for no array's.
fn array_name(named: Named, names: &[String], array: usize) -> &str
    ensures { result.now ≡ slice_index_or (map string_bytes names.now) (named.maps + array) [] }
{
    match named.maps.checked_add(array) {
        Some(number) => name_at(names, number),
        None => "",
    }
}

/// A key in hex, if there is one.
fn key_text(alloc: Global, key: &Option<Vec<u8>>) -> Result<String, AllocError>
    ensures { IfOk result (λ text. string_bytes text
        ≡ key_text (option_map (λ bytes. bytes.items) key.now)) }
{
    match key {
        Some(key) => hex::encode(alloc, key),
        None => format!(in alloc; "deleted"),
    }
}

/// Where a CPU is.
fn stand_text(alloc: Global, at: Stand) -> Result<String, AllocError>
    ensures { IfOk result (λ text. string_bytes text ≡ stand_text at) }
{
    let Stand { cpu, program, pc } = at;
    format!(in alloc; "cpu {cpu} prog {program} pc {pc}")
}

/// Two CPUs, and where they are.
fn places_text(alloc: Global, pair: Pair) -> Result<String, AllocError>
    ensures { IfOk result (λ text. string_bytes text ≡ places_text pair) }
{
    let one = stand_text(alloc, pair.one)?;
    let other = stand_text(alloc, pair.other)?;
    format!(in alloc; "race {one} {other}")
}

/// The name of the map or the array of a number.
fn place_text(
    alloc: Global,
    named: Named,
    names: &[String],
    number: usize,
) -> Result<String, AllocError>
    ensures { IfOk result (λ text. string_bytes text
        ≡ place_text named (map string_bytes names.now) number) }
{
    if number < FIRST_ARRAY as usize {
        let name = name_at(names, number);
        return format!(in alloc; " map {name}");
    }
    let name = array_name(named, names, number - FIRST_ARRAY as usize);
    format!(in alloc; " array {name}")
}

/// That name and the key.
fn keyed_text(
    alloc: Global,
    named: Named,
    names: &[String],
    race: &Race,
) -> Result<String, AllocError>
    ensures { IfOk result (λ text. string_bytes text
        ≡ keyed_text named (map string_bytes names.now) race.now) }
{
    let place = place_text(alloc, named, names, map_at(race.at))?;
    let key = key_text(alloc, &race.key)?;
    format!(in alloc; "{place} {key}")
}

/// The byte for which CPUs race.
fn byte_of(race: &Race) -> u64
    ensures { result ≡ race.now.at }
{
    race.at
}

/// The name of a variable.
fn variable_text(alloc: Global, variable: &Variable) -> Result<String, AllocError>
    ensures { IfOk result (λ text. string_bytes text ≡ variable_text (variable_of variable.now)) }
{
    let name = variable.name.as_str();
    format!(in alloc; " var {name}")
}

/// The variable that has the byte, or the map's or the array's name and the key.
fn value_text(alloc: Global, named: Named, names: &Names, race: &Race) -> Result<String, AllocError>
    ensures { IfOk result (λ text. string_bytes text
        ≡ value_text named (names_of names.now) race.now) }
{
    match names.at(byte_of(race)) {
        Some(variable) => variable_text(alloc, variable),
        None => keyed_text(alloc, named, &names.maps, race),
    }
}

/// Its places.
fn pair_of(race: &Race) -> Pair
    ensures { result ≡ race.now.pair }
{
    race.pair
}

/// Appends the places of a race and its value to the text.
fn push_places(
    alloc: Global,
    text: &mut String,
    named: Named,
    names: &Names,
    race: &Race,
) -> Result<(), AllocError>
    ensures { OnOk result (string_bytes text.new ≡ string_bytes text.old
        ++ (places_text race.now.pair ++ value_text named (names_of names.now) race.now)) }
{
    let places = places_text(alloc, pair_of(race))?;
    let value = value_text(alloc, named, names, race)?;
    text.push_str(places.as_str())?;
    text.push_str(value.as_str())?;
    Ok(())
}

/// Its schedule.
fn way_of(race: &Race) -> &[(u8, u64)]
    ensures { result.now ≡ race.now.by }
{
    &race.by
}

/// Appends the line of a race to the text.
fn push_race(
    alloc: Global,
    text: &mut String,
    named: Named,
    names: &Names,
    race: &Race,
) -> Result<(), AllocError>
    ensures { OnOk result (string_bytes text.new
        ≡ string_bytes text.old ++ race_text named (names_of names.now) race.now) }
{
    push_places(alloc, text, named, names, race)?;
    text.push_str(" by")?;
    push_runs(alloc, text, way_of(race))?;
    text.push_str("\n")?;
    Ok(())
}

/// Appends the line of a race to the text, as a comment.
fn push_comment(
    alloc: Global,
    text: &mut String,
    named: Named,
    names: &Names,
    race: &Race,
) -> Result<(), AllocError>
    ensures { OnOk result (string_bytes text.new
        ≡ string_bytes text.old ++ comment_text named (names_of names.now) race.now) }
{
    text.push_str("# ")?;
    push_race(alloc, text, named, names, race)
}

/// A comment a race, with its schedule.
pub fn comment_races(
    alloc: Global,
    named: Named,
    names: &Names,
    races: &[Race],
) -> Result<String, AllocError>
    ensures { IfOk result (λ text. string_bytes text
        ≡ comment_lines named (names_of names.now) (length races.now) races.now) }
{
    let mut text = String::new(alloc);
    for race in races {
        push_comment(alloc, &mut text, named, names, race)?;
    }
    Ok(text)
}

/// Appends the end of the last line to the text.
fn push_count(alloc: Global, text: &mut String, count: usize) -> Result<(), AllocError>
    ensures { OnOk result (string_bytes text.new ≡ string_bytes text.old ++ count_text count) }
{
    let line = format!(in alloc; ": {count} races\n")?;
    text.push_str(line.as_str())?;
    Ok(())
}

/// Appends the last line to the text.
fn push_last(alloc: Global, text: &mut String, all: bool, count: usize) -> Result<(), AllocError>
    ensures { OnOk result (string_bytes text.new ≡ string_bytes text.old ++ last_line all count) }
{
    text.push_str(whether_all(all))?;
    push_count(alloc, text, count)?;
    Ok(())
}

/// Whether there is no race at all, and no bytes were left out.
fn is_race_free(sync: &[Part], races: &Races) -> bool
    ensures { result ≡ is_race_free sync.now races.now.list.items races.now.all }
{
    races.all && sync.is_empty() && races.list.is_empty()
}

/// Appends what follows for x86 to the text.
fn push_same(text: &mut String, same: bool) -> Result<(), AllocError>
    ensures { OnOk result (string_bytes text.new ≡ string_bytes text.old ++ same_line same) }
{
    if same {
        text.push_str("no races: on x86 the outcomes are the same\n")?;
    }
    Ok(())
}

/// A line a race; where there is none at all, that x86 adds no outcome; and a line that says whether they are
/// all, and how many they are.
pub fn list_races(
    alloc: Global,
    named: Named,
    names: &Names,
    sync: &[Part],
    races: &Races,
) -> Result<String, AllocError>
    ensures { IfOk result (λ text. string_bytes text ≡ races_text named (names_of names.now)
        sync.now races.now.list.items races.now.all) }
{
    let mut text = String::new(alloc);
    for race in &races.list {
        push_race(alloc, &mut text, named, names, race)?;
    }
    push_same(&mut text, is_race_free(sync, races))?;
    push_last(alloc, &mut text, races.all, races.list.len())?;
    Ok(text)
}

/// Appends the line of a race to the text, but for its schedule.
fn push_here(
    alloc: Global,
    text: &mut String,
    named: Named,
    names: &Names,
    race: &Race,
) -> Result<(), AllocError>
    ensures { OnOk result (string_bytes text.new
        ≡ string_bytes text.old ++ here_text named (names_of names.now) race.now) }
{
    push_places(alloc, text, named, names, race)?;
    text.push_str("\n")?;
    Ok(())
}

/// A line a race, without its schedule.
pub fn list_races_in(
    alloc: Global,
    named: Named,
    names: &Names,
    races: &[Race],
) -> Result<String, AllocError>
    ensures { IfOk result (λ text. string_bytes text
        ≡ here_lines named (names_of names.now) (length races.now) races.now) }
{
    let mut text = String::new(alloc);
    for race in races {
        push_here(alloc, &mut text, named, names, race)?;
    }
    Ok(text)
}
