//! Bytes as they are printed: two hex digits a byte.

ghost use Rattle.std.specs.Prelude.{◌≡◌, IfOk, IfSome, string_bytes};
ghost use Rattle.bpf_base.specs.Bytes.{little_endian};
ghost use Rattle.bpf_json.specs.Lines.{IsNumberOf, IsRightNumber};

use bpf_lines::{HexError, from_hex};
use std::alloc::{AllocError, Global};

/// Digits, and the number that their bytes read as, lowest byte first, where they are eight at most.
#[derive(PartialEq, Eq, Debug, Drop)]
pub struct Digits {
    pub hex: String,
    pub number: Option<u64>,
}

/// The number that eight bytes at most read as, the lowest byte first.
fn number_of_bytes(bytes: &[u8]) -> Option<u64>
    ensures { IfSome result (λ n. n ≡ little_endian bytes.now) }
{
    match bytes {
        [] => Some(0),
        [lowest, higher @ ..] => number_of_bytes(higher)?
            .checked_mul(256)?
            .checked_add(u64::from(*lowest)),
    }
}

/// The number that these digits spell, if they do.
fn number_of(alloc: Global, hex: &str) -> Result<Option<u64>, AllocError>
    ensures { IfOk result (λ number. IfSome number (IsNumberOf hex.now)) }
{
    match from_hex(alloc, hex) {
        Ok(bytes) if bytes.len() <= 8 => Ok(number_of_bytes(&bytes)),
        Err(HexError::OutOfMemory) => Err(AllocError),
        _ => Ok(None),
    }
}

impl Digits {
    /// These digits, with their number.
    pub(crate) fn new(alloc: Global, hex: &str) -> Result<Digits, AllocError>
        ensures hex { IfOk result (λ d. string_bytes d.hex ≡ hex.now) }
        ensures number { IfOk result IsRightNumber }
    {
        Ok(Digits {
            hex: hex.to_string(alloc)?,
            number: number_of(alloc, hex)?,
        })
    }
}
