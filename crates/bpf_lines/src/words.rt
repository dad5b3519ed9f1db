//! What a word is made of: a name, or a number.

ghost use Rattle.std.specs.Prelude.{◌≡◌, ◌≤◌, ◌^◌, Some, None, Err, IfOk, IsSomeAnd, MatchOption};
ghost use Rattle.std.specs.List.{list_all};
ghost use Rattle.bpf_lines.specs.Words.{is_word_byte, is_decimal_digit, begins_with_digit, written_number, numeral_value, is_word, is_name};

use crate::numbers::{self, Radix};
use thiserror::Error;

/// Whether the byte is a letter, a digit or an underscore.
pub fn is_word_byte(byte: u8) -> bool
    ensures { result ≡ is_word_byte byte }
{
    matches!(byte, b'a'..=b'z' | b'A'..=b'Z' | b'0'..=b'9' | b'_')
}

fn is_decimal_digit(byte: u8) -> bool
    ensures { result ≡ is_decimal_digit byte }
{
    matches!(byte, b'0'..=b'9')
}

/// Whether the first byte is a decimal digit.
pub fn begins_with_digit(word: &[u8]) -> bool
    ensures { result ≡ begins_with_digit word.now }
{
    match word {
        [first, ..] => is_decimal_digit(*first),
        [] => false,
    }
}

/// The digits of a number, and the base that they are written in.
#[derive(Clone, Copy)]
pub struct Numeral<'a> {
    pub radix: Radix,
    pub digits: &'a [u8],
}

/// The digits of the number that a word is, of any size: decimal digits, or `0x` and hex digits.
#[tactic(auto, unfolding(crate::specs::Words::written_number))]
pub fn numeral_of<'a>(word: &'a [u8]) -> Option<Numeral<'a>>
    ensures { MatchOption result (written_number word.now ≡ None)
        (λ n. written_number word.now ≡ Some (numeral_value n.radix n.digits.now)) }
{
    if word.starts_with(b"0x") {
        let digits = &word[2..];
        let radix = Radix::Hex;
        numbers::is_numeral(16, digits).then_some(Numeral { radix, digits })
    } else {
        let radix = Radix::Decimal;
        numbers::is_numeral(10, word).then_some(Numeral {
            radix,
            digits: word,
        })
    }
}

fn has_word_bytes(word: &[u8]) -> bool
    ensures { result ≡ list_all is_word_byte word.now }
{
    word.iter().all(|b| is_word_byte(*b))
}

fn is_word(word: &[u8]) -> bool
    ensures { result ≡ is_word word.now }
{
    !word.is_empty() && has_word_bytes(word)
}

/// Whether the bytes are a name: a word that doesn't begin with a digit.
pub fn is_name(word: &[u8]) -> bool
    ensures { result ≡ is_name word.now }
{
    is_word(word) && !begins_with_digit(word)
}

/// Why a word is no number of 64 bits.
#[derive(Clone, Copy, PartialEq, Eq, Debug, Error)]
pub enum NumberError {
    #[error("not a number")]
    NoNumber,
    #[error("a number that 64 bits don't hold")]
    TooLarge,
}

/// The number that a word is: decimal digits, or `0x` and hex digits.
pub fn number(word: &[u8]) -> Result<u64, NumberError>
    ensures number { IfOk result (λ n. written_number word.now ≡ Some n) }
    ensures no_number { result ≡ Err NumberError.NoNumber → written_number word.now ≡ None }
    ensures too_large { result ≡ Err NumberError.TooLarge
        → IsSomeAnd (written_number word.now) (λ n. 2 ^ 64 ≤ n) }
{
    match numeral_of(word) {
        Some(Numeral { radix, digits }) => match numbers::value(radix, digits) {
            Some(number) => Ok(number),
            None => Err(NumberError::TooLarge),
        },
        None => Err(NumberError::NoNumber),
    }
}
