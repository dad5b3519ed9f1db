//! Numbers of assembly text: digits in a base, of any size, and a sign.

ghost use Rattle.std.specs.Prelude.{◌≡◌, ◌<◌, ◌≤◌, ◌^◌, MatchOption, FitsSigned};
ghost use Rattle.std.specs.Int.{w16, w32};
ghost use Rattle.bpf_lines.specs.Words.{numeral_value};
ghost use Rattle.bpf_text.specs.Private.Judging.{signed_of, literal_value};

use bpf_lines::numbers::{Radix, value};

/// A number with its sign, of any size.
#[derive(Clone, Copy)]
pub struct Literal<'a> {
    pub is_negative: bool,
    pub radix: Radix,
    pub digits: &'a [u8],
}

impl<'a> Literal<'a> {
    pub fn new(is_negative: bool, radix: Radix, digits: &'a [u8]) -> Self
        ensures { literal_value result ≡ signed_of is_negative (numeral_value radix digits.now) }
    {
        Literal {
            is_negative,
            radix,
            digits,
        }
    }
}

impl Literal<'_> {
    /// The number, if 32 bits hold it.
    pub fn immediate(self) -> Option<i32>
        ensures { MatchOption result (FitsSigned w32 (literal_value self.entry) → ⊥)
            (λ n. n ≡ literal_value self.entry) }
    {
        let size = value(self.radix, self.digits)?;
        if self.is_negative {
            (size <= 0x8000_0000).then(|| (-(size as i64)) as i32)
        } else {
            (size < 0x8000_0000).then(|| size as i32)
        }
    }

    /// The number, if 16 bits hold it.
    pub fn offset(self) -> Option<i16>
        ensures { MatchOption result (FitsSigned w16 (literal_value self.entry) → ⊥)
            (λ n. n ≡ literal_value self.entry) }
    {
        let size = value(self.radix, self.digits)?;
        if self.is_negative {
            (size <= 0x8000).then(|| (-(size as i64)) as i16)
        } else {
            (size < 0x8000).then(|| size as i16)
        }
    }
}

/// The number, if 32 bits without a sign hold it.
pub fn natural(radix: Radix, digits: &[u8]) -> Option<u32>
    ensures { MatchOption result (numeral_value radix digits.now < 2 ^ 32 → ⊥)
        (λ n. n ≡ numeral_value radix digits.now) }
{
    let size = value(radix, digits)?;
    (size < 0x1_0000_0000).then(|| size as u32)
}
