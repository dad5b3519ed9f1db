//! What a name in a refused line may mean: a label that is spelled almost so, or a map.

use crate::excerpt::{fields, line_of};
use crate::hints::front_word;
use crate::places::{begins_program, is_end};
use crate::symbols::symbols_of;
use bpf_codes::Code;
use bpf_shared::FIRST_ARRAY;
use bpf_text::Symbol;
use std::alloc::{AllocError, Global};

/// The label of a line, if it has one.
fn label_of(line: &str) -> Option<&str> {
    let code = line.split(';').next().unwrap_or("");
    let (label, _) = code.split_once(':')?;
    let label = label.trim();
    if !label.is_empty() && front_word(label).len() == label.len() {
        Some(label)
    } else {
        None
    }
}

/// How many lines are before the program in which a line is: none where the text isn't a run file.
fn lines_before(text: &str, number: usize) -> usize {
    let mut before: usize = 0;
    let mut at: usize = 0;
    for line in text.split('\n') {
        at = at.saturating_add(1);
        if at >= number {
            return before;
        }
        if begins_program(line) {
            before = at;
        }
    }
    before
}

/// A byte of a word, by how many are before it, in lower case.
fn byte_from_front(word: &[u8], before: usize) -> Option<u8> {
    let byte = word.get(before)?;
    Some(byte.to_ascii_lowercase())
}

/// The byte after which this many come.
fn byte_from_back(word: &[u8], after: usize) -> Option<u8> {
    let place = word.len().checked_sub(after)?.checked_sub(1)?;
    byte_from_front(word, place)
}

/// How many bytes at the front of two words are the same, but for their case.
fn common_front(one: &[u8], other: &[u8]) -> usize {
    for count in 0..one.len() {
        if byte_from_front(one, count) != byte_from_front(other, count) {
            return count;
        }
    }
    one.len()
}

/// How many bytes two words have in common at their ends.
fn common_back(one: &[u8], other: &[u8]) -> usize {
    for count in 0..one.len() {
        if byte_from_back(one, count) != byte_from_back(other, count) {
            return count;
        }
    }
    one.len()
}

/// How many bytes of the longer of two words differ, between what they begin and end with alike.
pub fn difference(one: &[u8], other: &[u8]) -> usize {
    let longest = one.len().max(other.len());
    let shortest = one.len().min(other.len());
    let alike = common_front(one, other).saturating_add(common_back(one, other));
    longest.saturating_sub(shortest.min(alike))
}

/// The line of the label that is spelled most like a name, of the program around a line.
fn nearest(text: &str, number: usize, name: &str) -> Option<usize> {
    let before = lines_before(text, number);
    let mut found: Option<usize> = None;
    let mut least: usize = 3;
    let mut at = before;
    for line in text.split('\n').skip(before) {
        at = at.saturating_add(1);
        if before > 0 && is_end(line) {
            return found;
        }
        if let Some(label) = label_of(line) {
            let differs = difference(label.as_bytes(), name.as_bytes());
            if differs < least && differs < name.len() {
                least = differs;
                found = Some(at);
            }
        }
    }
    found
}

/// What may be meant by a label that isn't there.
fn label_hint(
    alloc: Global,
    text: &str,
    number: usize,
    name: &str,
) -> Result<Option<String>, AllocError> {
    if let Some(near) = nearest(text, number, name)
        && let Some(line) = line_of(text, near)
        && let Some(label) = label_of(line)
    {
        return Ok(Some(format!(in alloc; "there is a label {label}, at line {near}")?));
    }
    Ok(None)
}

/// The first line of the program around a line that has this label.
fn first_with(text: &str, number: usize, name: &str) -> Option<usize> {
    let mut at = lines_before(text, number);
    for line in text.split('\n').skip(at) {
        at = at.saturating_add(1);
        if label_of(line) == Some(name) {
            return Some(at);
        }
    }
    None
}

/// The number of the map of this name.
fn map_number(file: &str, name: &str) -> Option<usize> {
    file.split('\n')
        .filter(|line| fields(line).next() == Some("map"))
        .position(|line| fields(line).nth(1) == Some(name))
}

/// What may be meant by `map NAME` in an instruction.
fn map_hint(alloc: Global, text: &str, name: &str) -> Result<String, AllocError> {
    match map_number(text, name) {
        Some(number) => format!(in alloc;
            "{name} is map {number}: maps are numbered by their lines"
        ),
        None => "maps are numbered by their lines in the run file: the first is `map 0`".to_string(
            alloc,
        ),
    }
}

/// What may be meant by a name by which an instruction loads.
fn name_hint(alloc: Global, text: &str, name: &str) -> Result<String, AllocError> {
    let symbols = symbols_of(alloc, text);
    let symbol = match &symbols {
        Some(symbols) => symbols.get(name.as_bytes()).copied(),
        None => None,
    };
    match symbol {
        Some(Symbol::Variable(_)) => format!(in alloc;
            "{name} is a variable and has no number: `&{name}` is its address"
        ),
        Some(Symbol::Map(number)) if u64::from(number) >= FIRST_ARRAY => format!(in alloc;
            "each CPU has its own values of {name}: `lookup` answers where those of one are"
        ),
        Some(_) => format!(in alloc;
            "{name} is a map and has no address: `map {name}` is its number"
        ),
        None => format!(in alloc; "no map, array or variable has the name {name}"),
    }
}

/// What the rest of the text says of the line of this number, which is refused at this place.
pub fn hint_of_names(
    alloc: Global,
    code: Code,
    text: &str,
    number: usize,
    place: Option<usize>,
) -> Result<Option<String>, AllocError> {
    let Some(line) = line_of(text, number) else {
        return Ok(None);
    };
    let Some(left) = place.and_then(|place| line.get(place..)) else {
        return Ok(None);
    };
    let before = line.get(..place.unwrap_or(0)).unwrap_or("").trim();
    let name = front_word(left);
    match code {
        Code::A1 if before.ends_with("= map") && !name.is_empty() => {
            Ok(Some(map_hint(alloc, text, name)?))
        }
        Code::A3 if before.ends_with("= map") || before.ends_with("&") => {
            Ok(Some(name_hint(alloc, text, name)?))
        }
        Code::A3 => label_hint(alloc, text, number, name),
        Code::A4 => match first_with(text, number, name) {
            Some(first) => Ok(Some(format!(in alloc; "line {first} has this label, too")?)),
            None => Ok(None),
        },
        _ => Ok(None),
    }
}
