//! Numbers as they are written: digits in a base, of any size.

ghost use Rattle.std.specs.Prelude.{◌≡◌, ◌<◌, ◌≤◌, ◌^◌, MatchOption};
ghost use Rattle.std.specs.Char.{digit_value};
ghost use Rattle.std.specs.Str.Parse.{digits_value};
ghost use Rattle.std.specs.List.{list_all};
ghost use Rattle.bpf_lines.specs.Words.{is_digit_of, is_numeral, numeral_value};

/// In which base a number is written.
#[derive(Clone, Copy, PartialEq, Eq, Debug)]
pub enum Radix {
    Decimal,
    Hex,
}

/// The number that digits write, if 64 bits hold it.
pub fn value(radix: Radix, digits: &[u8]) -> Option<u64>
    ensures { MatchOption result (2 ^ 64 ≤ numeral_value radix digits.now)
        (λ n. n ≡ numeral_value radix digits.now) }
{
    match radix {
        Radix::Decimal => number(10, digits),
        Radix::Hex => number(16, digits),
    }
}

/// What a digit stands for; 36 where it is none.
fn digit(byte: u8) -> u8
    ensures { result ≡ digit_value byte }
{
    match byte {
        b'0'..=b'9' => byte - b'0',
        b'a'..=b'z' => byte - b'a' + 10,
        b'A'..=b'Z' => byte - b'A' + 10,
        _ => 36,
    }
}

fn all_digits(base: u8, digits: &[u8]) -> bool
    ensures { result ≡ list_all (is_digit_of base) digits.now }
{
    digits.iter().all(|b| digit(*b) < base)
}

/// Whether these are digits of the base, one or more.
pub fn is_numeral(base: u8, digits: &[u8]) -> bool
    ensures { result ≡ is_numeral base digits.now }
{
    !digits.is_empty() && all_digits(base, digits)
}

/// The number that digits write, if 64 bits hold it.
fn number(base: u8, digits: &[u8]) -> Option<u64>
    requires low { base ≤ 16 }
    requires some { 0 < base }
    ensures { MatchOption result (2 ^ 64 ≤ digits_value base digits.now)
        (λ n. n ≡ digits_value base digits.now) }
{
    let mut n: u64 = 0;
    for b in digits {
        n = n
            .checked_mul(u64::from(base))?
            .checked_add(u64::from(digit(*b)))?;
    }
    Some(n)
}
