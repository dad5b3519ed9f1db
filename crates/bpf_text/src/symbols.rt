//! Names that a text may have in place of numbers.

ghost use Rattle.std.specs.Prelude.{◌≡◌, OnOk, IsOkUnless, ℕ, List};
ghost use Rattle.bpf_text.specs.Symbols.{table_of, with_name};

use crate::error::TextError;
use std::collections::HashMap;

/// What a name stands for.
#[derive(Clone, Copy)]
pub enum Symbol {
    /// A map of this number.
    Map(u32),
    /// An array: its number, and the address of its first value.
    Array(u32, u64),
    /// A variable at this address.
    Variable(u64),
}

/// The names that a text may have, and what each stands for.
pub type Symbols<'a> = HashMap<&'a [u8], Symbol>;

/// What a name stands for.
pub(crate) fn symbol_of(symbols: &Symbols<'_>, name: &[u8]) -> Option<Symbol>
    ensures { result ≡ table_of symbols.now name.now }
{
    symbols.get(name).copied()
}

/// Lets a name stand for something, where it stands for nothing yet.
pub fn name_symbol<'a>(
    symbols: &mut Symbols<'a>,
    name: &'a [u8],
    symbol: Symbol,
) -> Result<(), TextError>
    ensures named { OnOk result ((q : List ℕ)
        → table_of symbols.new q ≡ with_name (table_of symbols.old) name.now symbol q) }
    ensures memory { IsOkUnless result TextError.OutOfMemory }
{
    if symbol_of(symbols, name).is_some() {
        return Ok(());
    }
    match symbols.insert(name, symbol) {
        Ok(_) => Ok(()),
        Err(_) => Err(TextError::OutOfMemory),
    }
}
