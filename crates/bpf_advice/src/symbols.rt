//! What the names of a run file stand for in its programs, as its lines say it.

use crate::excerpt::fields;
use bpf_lines::numbers::value;
use bpf_lines::words::{Numeral, numeral_of};
use bpf_shared::{FIRST_ARRAY, FIRST_VALUE, MAP_AREA};
use bpf_text::{Symbol, Symbols, name_symbol};
use std::alloc::Global;
use std::collections::HashMap;

/// Whether the programs of a text may use names: those of a run file of version 3.
fn has_names(file: &str) -> bool {
    for line in file.split('\n') {
        let mut words = fields(line);
        if let Some(first) = words.next() {
            return first == "ebpf-run" && words.next() == Some("3");
        }
    }
    false
}

/// The map of this number.
fn map_symbol(number: usize) -> Option<Symbol> {
    let number = u32::try_from(number).ok()?;
    Some(Symbol::Map(number))
}

/// The array of this number, by its line.
fn array_symbol(number: usize, line: &str) -> Option<Symbol> {
    let area = (number as u64).checked_add(FIRST_ARRAY)?;
    let first = area.checked_mul(MAP_AREA)?.checked_add(FIRST_VALUE)?;
    let number = u32::try_from(area).ok()?;
    if fields(line).any(|word| word == "percpu") {
        Some(Symbol::Map(number))
    } else {
        Some(Symbol::Array(number, first))
    }
}

/// The variable of a line `var NAME ARRAY AT SIZE`, after the lines of its array.
fn variable_symbol(symbols: &Symbols<'_>, line: &str) -> Option<Symbol> {
    let mut words = fields(line).skip(2);
    let array = words.next()?;
    let Numeral { radix, digits } = numeral_of(words.next()?.as_bytes())?;
    let at = value(radix, digits)?;
    match symbols.get(array.as_bytes()) {
        Some(Symbol::Array(_, first)) => Some(Symbol::Variable(first.checked_add(at)?)),
        _ => None,
    }
}

/// The names of a text's programs, if they may use names and there is memory for them.
pub fn symbols_of(alloc: Global, file: &str) -> Option<Symbols<'_>> {
    if !has_names(file) {
        return None;
    }
    let mut symbols = HashMap::new(alloc);
    let mut maps: usize = 0;
    let mut arrays: usize = 0;
    for line in file.split('\n') {
        let mut words = fields(line);
        let symbol = match words.next() {
            Some("map") => {
                maps = maps.saturating_add(1);
                map_symbol(maps.saturating_sub(1))
            }
            Some("array") => {
                arrays = arrays.saturating_add(1);
                array_symbol(arrays.saturating_sub(1), line)
            }
            Some("var") => variable_symbol(&symbols, line),
            Some("prog") => return Some(symbols),
            _ => None,
        };
        if let (Some(name), Some(symbol)) = (words.next(), symbol) {
            name_symbol(&mut symbols, name.as_bytes(), symbol).ok()?;
        }
    }
    Some(symbols)
}
