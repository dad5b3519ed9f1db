//! Bytes as hex digits, two a byte.

ghost use Rattle.std.specs.Prelude.{◌≡◌, ◌<◌, ◌≤◌, ℕ, List, length, ◌⊎◌, IfOk, IfErr, IfSome, string_bytes};
ghost use Rattle.hex.specs.Hex.{encode_lower, hex_digit_value};
ghost use Rattle.bpf_lines.specs.HexText.{is_passed_over, IsHexOf};
ghost use Rattle.bpf_lines.specs.Private.Digits.{IsAhead};

use bpf_codes::{Code, Diagnostic};
use std::alloc::{AllocError, Global};
use thiserror::Error;

/// Why hex text is refused.
#[derive(Clone, Copy, PartialEq, Eq, Debug, Error)]
pub enum HexError {
    /// H1
    #[error("not the hex digits of whole bytes")]
    NotHex,
    /// A6
    #[error("out of memory")]
    OutOfMemory,
}

impl HexError {
    ghost use Rattle.bpf_lines.specs.Diagnostic.{hex_diagnostic};

    /// What is printed of it.
    pub fn diagnostic(self) -> Diagnostic
        ensures { result ≡ hex_diagnostic self }
    {
        match self {
            HexError::NotHex => Diagnostic::new(Code::H1),
            HexError::OutOfMemory => Diagnostic::new(Code::A6),
        }
    }
}

/// Whether hex text may have this byte between digits: space, tab, CR and LF.
fn is_passed_over(byte: u8) -> bool
    ensures { result ≡ is_passed_over byte }
{
    matches!(byte, b' ' | b'\t' | b'\r' | b'\n')
}

/// The number that a hex digit has.
fn digit(byte: u8) -> Option<u8>
    ensures value { result ≡ hex_digit_value byte }
    ensures small { IfSome result (λ n. n < 16) }
{
    match byte {
        b'0'..=b'9' => Some(byte - b'0'),
        b'a'..=b'f' => Some(byte - b'a' + 10),
        b'A'..=b'F' => Some(byte - b'A' + 10),
        _ => None,
    }
}

/// The bytes as lower case hex digits.
pub fn to_hex(alloc: Global, bytes: &[u8]) -> Result<String, AllocError>
    ensures digits { IfOk result (λ text. string_bytes text ≡ encode_lower bytes.now) }
    ensures reads_back { IfOk result (λ text. IsHexOf (string_bytes text) bytes.now) }
{
    hex::encode(alloc, bytes)
}

/// What is ahead of a place of hex text, after blanks.
#[derive(Clone, Copy)]
enum Ahead {
    /// A digit, by its number, and the place after it.
    Digit(u8, usize),
    /// The end of the text.
    End,
    Other,
}

/// What is ahead of a place. Digits are asked for first, since most bytes are digits.
#[inline(always)]
fn look_ahead(text: &[u8], from: usize) -> Ahead
    requires { from ≤ length text.now }
    ensures { IsAhead text.now from result }
{
    let mut at = from;
    while at < text.len() {
        match digit(text[at]) {
            Some(number) => return Ahead::Digit(number, at + 1),
            None if is_passed_over(text[at]) => at += 1,
            None => return Ahead::Other,
        }
    }
    Ahead::End
}

/// The bytes that the text's hex digits spell, of either case. Space, tab, CR and LF are passed
/// over wherever they are.
/// `NotHex` where any other byte or half a byte is; else it fails by `OutOfMemory` alone.
pub fn from_hex(alloc: Global, text: &str) -> Result<Vec<u8>, HexError>
    ensures spelled { IfOk result (λ bytes. IsHexOf text.now bytes.items) }
    ensures not_hex { result ≡ Err HexError.NotHex → (bytes : List ℕ) → IsHexOf text.now bytes
        → ⊥ }
    ensures errors { IfErr result (λ e. (e ≡ HexError.NotHex) ⊎ (e ≡ HexError.OutOfMemory)) }
{
    let text = text.as_bytes();
    let mut bytes = Vec::with_capacity(alloc, text.len() / 2).map_err(|_| HexError::OutOfMemory)?;
    let mut at = 0;
    'bytes: while let Ahead::Digit(high, next) = look_ahead(text, at) {
        let Ahead::Digit(low, next) = look_ahead(text, next) else {
            return Err(HexError::NotHex);
        };
        let Ok(()) = bytes.push(high * 16 + low) else {
            return Err(HexError::OutOfMemory);
        };
        at = next;
    }
    match look_ahead(text, at) {
        Ahead::End => Ok(bytes),
        _ => Err(HexError::NotHex),
    }
}
