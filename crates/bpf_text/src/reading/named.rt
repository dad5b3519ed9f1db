//! Loads by a name: of a map's number, or of an address.

ghost use Rattle.std.specs.Prelude.{◌≡◌, map};
ghost use Rattle.std.specs.Option.{option_and_then};
ghost use Rattle.bpf_lines.specs.Words.{numeral_value};
ghost use Rattle.bpf_text.specs.Symbols.{table_of, number_of, address_of, beside, address_loaded, name_loaded, load_of, loaded, map_load, fitting, sum_of, difference_of};
ghost use Rattle.bpf_text.specs.Private.Look.{look};
ghost use Rattle.bpf_text.specs.Private.Judging.{Gives};
ghost use Rattle.bpf_text.specs.Private.Loads.{load_view, numeral_of, coded};

use crate::reading::LineError;
use crate::symbols::{Symbol, Symbols, symbol_of};
use crate::token::Token;
use crate::words;
use bpf_insn::{Insn, Reg, Width};
use bpf_lines::numbers::{Radix, value};
use bpf_lines::words::Numeral;
use bpf_spelling::{Keyword, Sign};

/// What a line loads by a name: the number of what has it, or an address before or after it, by a
/// number of bytes.
#[derive(Clone, Copy)]
pub enum Load<'a> {
    MapOf(Reg, &'a [u8]),
    After(Reg, &'a [u8], Numeral<'a>),
    Before(Reg, &'a [u8], Numeral<'a>),
}

/// After `R = &NAME`.
#[tactic(auto, unfolding(crate::specs::Symbols::beside))]
fn beside<'a>(dst: Reg, name: &'a [u8], tokens: &[Token<'a>]) -> Option<Load<'a>>
    ensures { Gives load_view result (beside dst name.now (map look tokens.now)) }
{
    match tokens {
        [] => {
            let radix = Radix::Decimal;
            let digits = "0".as_bytes();
            Some(Load::After(dst, name, Numeral { radix, digits }))
        }
        [Token::Mark(Sign::Plus), Token::Number(radix, digits)] => {
            let (radix, digits) = (*radix, *digits);
            Some(Load::After(dst, name, Numeral { radix, digits }))
        }
        [Token::Mark(Sign::Minus), Token::Number(radix, digits)] => {
            let (radix, digits) = (*radix, *digits);
            Some(Load::Before(dst, name, Numeral { radix, digits }))
        }
        _ => None,
    }
}

/// After `R = &`.
#[tactic(auto, unfolding(crate::specs::Symbols::address_loaded))]
fn address_loaded<'a>(dst: Reg, tokens: &[Token<'a>]) -> Option<Load<'a>>
    ensures { Gives load_view result (address_loaded dst (map look tokens.now)) }
{
    match tokens {
        [] => None,
        [token, rest @ ..] => beside(dst, words::name(token)?, rest),
    }
}

/// After `R =`.
#[tactic(auto, unfolding(crate::specs::Symbols::name_loaded))]
fn name_loaded<'a>(dst: Reg, tokens: &[Token<'a>]) -> Option<Load<'a>>
    ensures { Gives load_view result (name_loaded dst (map look tokens.now)) }
{
    match tokens {
        [Token::Word(Keyword::Map), token] => Some(Load::MapOf(dst, words::name(token)?)),
        [Token::Mark(Sign::And), rest @ ..] => address_loaded(dst, rest),
        _ => None,
    }
}

/// What a line's tokens, its label taken off, load by a name, if they do.
#[tactic(auto, unfolding(crate::specs::Symbols::load_of))]
pub(crate) fn load_of<'a>(tokens: &[Token<'a>]) -> Option<Load<'a>>
    ensures { Gives load_view result (load_of (map look tokens.now)) }
{
    match tokens {
        [
            Token::Register(Width::Bits64, dst),
            Token::Mark(Sign::Assign),
            rest @ ..,
        ] => name_loaded(*dst, rest),
        _ => None,
    }
}

fn number_of(symbol: Symbol) -> Option<u32>
    ensures { result ≡ number_of symbol }
{
    match symbol {
        Symbol::Map(number) | Symbol::Array(number, _) => Some(number),
        Symbol::Variable(_) => None,
    }
}

fn address_of(symbol: Symbol) -> Option<u64>
    ensures { result ≡ address_of symbol }
{
    match symbol {
        Symbol::Array(_, address) | Symbol::Variable(address) => Some(address),
        Symbol::Map(_) => None,
    }
}

/// The number of the map or the array of this name.
fn number_named(symbols: &Symbols<'_>, name: &[u8]) -> Option<u32>
    ensures { result ≡ option_and_then number_of (table_of symbols.now name.now) }
{
    number_of(symbol_of(symbols, name)?)
}

/// The address of the array or the variable of this name.
fn address_named(symbols: &Symbols<'_>, name: &[u8]) -> Option<u64>
    ensures { result ≡ option_and_then address_of (table_of symbols.now name.now) }
{
    address_of(symbol_of(symbols, name)?)
}

/// The address that is this number of bytes after another, if 64 bits hold it.
fn sum_of(address: u64, bytes: Numeral<'_>) -> Option<u64>
    ensures { result ≡ sum_of address (numeral_of bytes.entry) }
{
    address.checked_add(value(bytes.radix, bytes.digits)?)
}

/// The address that is this number of bytes before another, if there is one.
fn difference_of(address: u64, bytes: Numeral<'_>) -> Option<u64>
    ensures { result ≡ difference_of address (numeral_of bytes.entry) }
{
    address.checked_sub(value(bytes.radix, bytes.digits)?)
}

fn map_load(dst: Reg, number: Option<u32>) -> Result<Insn, LineError>
    ensures { coded result ≡ map_load dst number }
{
    match number {
        Some(map) => Ok(Insn::LoadMap { dst, map }),
        None => Err(LineError::UnknownName),
    }
}

fn fitting(dst: Reg, address: Option<u64>) -> Result<Insn, LineError>
    ensures { coded result ≡ fitting dst address }
{
    match address {
        Some(number) => Ok(Insn::LoadNumber { dst, number }),
        None => Err(LineError::BadNumber),
    }
}

/// The instruction that a load stands for.
pub(crate) fn loaded(symbols: &Symbols<'_>, load: Load<'_>) -> Result<Insn, LineError>
    ensures { coded result ≡ loaded (table_of symbols.now) (load_view load.entry) }
{
    match load {
        Load::MapOf(dst, name) => map_load(dst, number_named(symbols, name)),
        Load::After(dst, name, bytes) => match address_named(symbols, name) {
            Some(address) => fitting(dst, sum_of(address, bytes)),
            None => Err(LineError::UnknownName),
        },
        Load::Before(dst, name, bytes) => match address_named(symbols, name) {
            Some(address) => fitting(dst, difference_of(address, bytes)),
            None => Err(LineError::UnknownName),
        },
    }
}
