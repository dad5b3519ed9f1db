//! The bytes that a line has as hex digits. Most of what is read is such lines, so the number of
//! each digit is looked up in a table.

ghost use Rattle.std.specs.Prelude.{◌≡◌, ◌*◌, ◌<◌, ℕ, List, IfNone, IfOk, IfSome, Ok, Err, false, length, true};
ghost use Rattle.hex.specs.Hex.{decode_of, decode_pairs, hex_digit_value, pair_value};
ghost use Rattle.hex.specs.declared.error.FromHexError.{FromHexError};
ghost use Rattle.bpf_expand.specs.Private.Digits.{number_or_none, AreNumbers};

use std::alloc::{AllocError, Global};

/// By byte, the number that it stands for as a digit of either case; 16 where it is none.
const NUMBERS: &[u8; 256] = &[
    16, 16, 16, 16, 16, 16, 16, 16, 16, 16, 16, 16, 16, 16, 16, 16, 16, 16, 16, 16, 16, 16, 16, 16,
    16, 16, 16, 16, 16, 16, 16, 16, 16, 16, 16, 16, 16, 16, 16, 16, 16, 16, 16, 16, 16, 16, 16, 16,
    0, 1, 2, 3, 4, 5, 6, 7, 8, 9, 16, 16, 16, 16, 16, 16, 16, 10, 11, 12, 13, 14, 15, 16, 16, 16,
    16, 16, 16, 16, 16, 16, 16, 16, 16, 16, 16, 16, 16, 16, 16, 16, 16, 16, 16, 16, 16, 16, 16, 10,
    11, 12, 13, 14, 15, 16, 16, 16, 16, 16, 16, 16, 16, 16, 16, 16, 16, 16, 16, 16, 16, 16, 16, 16,
    16, 16, 16, 16, 16, 16, 16, 16, 16, 16, 16, 16, 16, 16, 16, 16, 16, 16, 16, 16, 16, 16, 16, 16,
    16, 16, 16, 16, 16, 16, 16, 16, 16, 16, 16, 16, 16, 16, 16, 16, 16, 16, 16, 16, 16, 16, 16, 16,
    16, 16, 16, 16, 16, 16, 16, 16, 16, 16, 16, 16, 16, 16, 16, 16, 16, 16, 16, 16, 16, 16, 16, 16,
    16, 16, 16, 16, 16, 16, 16, 16, 16, 16, 16, 16, 16, 16, 16, 16, 16, 16, 16, 16, 16, 16, 16, 16,
    16, 16, 16, 16, 16, 16, 16, 16, 16, 16, 16, 16, 16, 16, 16, 16, 16, 16, 16, 16, 16, 16, 16, 16,
    16, 16, 16, 16, 16, 16, 16, 16, 16, 16, 16, 16, 16, 16,
];

/// The number that a byte stands for as a digit, or 16.
fn number_of(numbers: &[u8; 256], byte: u8) -> u8
    requires { AreNumbers numbers.now }
    ensures { hex_digit_value byte ≡ number_or_none result }
{
    numbers[byte as usize]
}

/// The byte of two digits.
fn byte_of(numbers: &[u8; 256], high: u8, low: u8) -> Option<u8>
    requires { AreNumbers numbers.now }
    ensures some { IfSome result (λ byte. (i : ℕ) → pair_value high low i ≡ Ok byte) }
    ensures none { IfNone result ((i : ℕ) → (e : FromHexError) × (pair_value high low i ≡ Err e)) }
{
    let first = number_of(numbers, high);
    let second = number_of(numbers, low);
    if first < 16 && second < 16 {
        Some(first * 16 + second)
    } else {
        None
    }
}

/// Bytes become those of a line's digits; whether all are digits.
fn read_digits(numbers: &[u8; 256], line: &[u8], bytes: &mut [u8]) -> bool
    requires numbers { AreNumbers numbers.now }
    requires sized { length line.now ≡ 2 * length bytes.old }
    ensures read { result ≡ true → decode_pairs 0 line.now ≡ Ok bytes.new }
    ensures none { result ≡ false → (others : List ℕ) → decode_pairs 0 line.now ≡ Ok others → ⊥ }
{
    'bytes: for i in 0..bytes.len() {
        let Some(byte) = byte_of(numbers, line[2 * i], line[2 * i + 1]) else {
            return false;
        };
        bytes[i] = byte;
    }
    true
}

/// The bytes that a line has as hex digits.
pub(crate) fn line_bytes(alloc: Global, line: &[u8]) -> Result<Option<Vec<u8>>, AllocError>
    ensures some { IfOk result (λ o. IfSome o (λ bytes. decode_of line.now ≡ Ok bytes.items)) }
    ensures none { IfOk result (λ o. IfNone o ((bytes : List ℕ) → decode_of line.now ≡ Ok bytes
        → ⊥)) }
{
    if line.len() % 2 != 0 {
        return Ok(None);
    }
    let mut bytes = vec![in alloc; 0u8; line.len() / 2]?;
    if read_digits(NUMBERS, line, &mut bytes) {
        Ok(Some(bytes))
    } else {
        Ok(None)
    }
}
