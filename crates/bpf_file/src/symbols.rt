//! What the names of a run file stand for in its programs.

ghost use Rattle.std.specs.Prelude.{◌≡◌, ◌+◌, ◌<◌, ◌≤◌, ◌^◌, ℕ, List, length, map, string_bytes, IfOk, OnOk, IsOkUnless};
ghost use Rattle.std.specs.Option.{option_or};
ghost use Rattle.bpf_text.specs.Symbols.{table_of};
ghost use Rattle.bpf_names.specs.Names.{names_of, variable_of};
ghost use Rattle.bpf_file.specs.Symbols.{array_symbol, symbol_at, maps_from, variables_from};
ghost use Rattle.bpf_file.specs.Private.Symbols.{named_in};

use bpf_names::{Names, Variable};
use bpf_shared::{ArrayShape, FIRST_ARRAY, FIRST_VALUE, MAP_AREA};
use bpf_text::{Symbol, Symbols, TextError, name_symbol};
use std::alloc::Global;
use std::collections::HashMap;

/// What the name of the array of this number stands for. Where each CPU has its own values there is
/// no one address.
fn array_symbol(number: usize, shape: ArrayShape) -> Symbol
    requires { number < 16 }
    ensures { result ≡ array_symbol number shape }
{
    let area = FIRST_ARRAY + number as u64;
    if shape.per_cpu {
        Symbol::Map(area as u32)
    } else {
        Symbol::Array(area as u32, FIRST_VALUE + MAP_AREA * area)
    }
}

/// What the name at this place stands for: a map, where fewer names than maps are before it, or an
/// array.
fn symbol_at(maps: usize, arrays: &[ArrayShape], place: usize) -> Option<Symbol>
    requires maps { maps ≤ 16 }
    requires arrays { length arrays.now ≤ 16 }
    ensures { result ≡ symbol_at maps arrays.now place }
{
    if place < maps {
        return Some(Symbol::Map(place as u32));
    }
    let number = place - maps;
    let shape = arrays.get(number)?;
    Some(array_symbol(number, *shape))
}

/// Names what has a name of its own, if anything has it.
fn name_if<'a>(
    symbols: &mut Symbols<'a>,
    name: &'a str,
    symbol: Option<Symbol>,
) -> Result<(), TextError>
    ensures named { OnOk result ((q : List ℕ) → table_of symbols.new q
        ≡ option_or (table_of symbols.old q) (named_in name.now symbol q)) }
    ensures memory { IsOkUnless result TextError.OutOfMemory }
{
    match symbol {
        Some(symbol) => name_symbol(symbols, name.as_bytes(), symbol),
        None => Ok(()),
    }
}

/// Names the maps and the arrays from this place on, after what is named before.
fn name_maps<'a>(
    symbols: &mut Symbols<'a>,
    maps: usize,
    arrays: &[ArrayShape],
    place: usize,
    names: &'a [String],
) -> Result<(), TextError>
    requires maps { maps ≤ 16 }
    requires arrays { length arrays.now ≤ 16 }
    requires room { place + length names.now < 2 ^ 64 }
    ensures named { OnOk result ((q : List ℕ) → table_of symbols.new q
        ≡ option_or (table_of symbols.old q)
        (maps_from (symbol_at maps arrays.now) place (map string_bytes names.now) q)) }
    ensures memory { IsOkUnless result TextError.OutOfMemory }
{
    match names {
        [] => Ok(()),
        [first, others @ ..] => {
            name_if(symbols, first.as_str(), symbol_at(maps, arrays, place))?;
            name_maps(symbols, maps, arrays, place + 1, others)
        }
    }
}

/// Names the variables, after what is named before.
fn name_variables<'a>(symbols: &mut Symbols<'a>, variables: &'a [Variable]) -> Result<(), TextError>
    ensures named { OnOk result ((q : List ℕ) → table_of symbols.new q
        ≡ option_or (table_of symbols.old q)
        (variables_from (map variable_of variables.now) q)) }
    ensures memory { IsOkUnless result TextError.OutOfMemory }
{
    match variables {
        [] => Ok(()),
        [first, others @ ..] => {
            let symbol = Symbol::Variable(first.address());
            name_symbol(symbols, first.name.as_bytes(), symbol)?;
            name_variables(symbols, others)
        }
    }
}

/// What the names of a file with this many maps and these arrays stand for.
/// Fails by `OutOfMemory` alone.
pub fn symbols_of<'a>(
    alloc: Global,
    names: &'a Names,
    maps: usize,
    arrays: &[ArrayShape],
) -> Result<Symbols<'a>, TextError>
    requires maps { maps ≤ 16 }
    requires arrays { length arrays.now ≤ 16 }
    ensures named { IfOk result (λ s. (q : List ℕ) → table_of s q
        ≡ option_or (maps_from (symbol_at maps arrays.now) 0 (names_of names.now).maps q)
        (variables_from (names_of names.now).variables q)) }
    ensures memory { IsOkUnless result TextError.OutOfMemory }
{
    let mut symbols = HashMap::new(alloc);
    name_maps(&mut symbols, maps, arrays, 0, &names.maps)?;
    name_variables(&mut symbols, &names.variables)?;
    Ok(symbols)
}
