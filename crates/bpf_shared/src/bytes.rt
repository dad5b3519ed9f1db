//! Numbers in little-endian bytes of values.
ghost use Rattle.std.specs.Prelude.{◌≡◌, ◌+◌, ◌<◌, ◌≤◌, length};
ghost use Rattle.bpf_base.specs.Bytes.{modulus, little_endian, low_bytes, part, with_part};
ghost use Rattle.bpf_base.specs.Atomic.{number_after};
ghost use Rattle.bpf_shared.specs.Access.{bytes_in};

use crate::events::{AtomicOp, Size};
use bpf_base::bytes::{load_double, load_half, load_word, store_double, store_half, store_word};

/// The number at an offset.
pub fn load(bytes: &[u8], at: usize, size: Size) -> u64
    requires { at + bytes_in size ≤ length bytes.now }
    ensures value { result ≡ little_endian (part bytes.now at (bytes_in size)) }
    ensures fits { result < modulus (bytes_in size) }
{
    match size {
        Size::Byte => u64::from(bytes[at]),
        Size::Half => u64::from(load_half(bytes, at)),
        Size::Word => u64::from(load_word(bytes, at)),
        Size::Double => load_double(bytes, at),
    }
}

/// Sets the bytes at an offset to the low bytes of a word.
pub fn store(bytes: &mut [u8], at: usize, size: Size, word: u64)
    requires { at + bytes_in size ≤ length bytes.old }
    ensures { bytes.new ≡ with_part bytes.old at (low_bytes (bytes_in size) word) }
{
    match size {
        Size::Byte => bytes[at] = (word % 0x100) as u8,
        Size::Half => store_half(bytes, at, word),
        Size::Word => store_word(bytes, at, word),
        Size::Double => store_double(bytes, at, word),
    }
}

/// The number that an atomic operation leaves where it found one of four or eight bytes.
pub fn change(op: AtomicOp, size: Size, found: u64, operand: u64, expected: u64) -> u64
    requires wide { 4 ≤ bytes_in size }
    requires fits { found < modulus (bytes_in size) }
    ensures { result ≡ number_after op (bytes_in size) found operand expected }
{
    match size {
        Size::Word => u64::from(op.word_after(found as u32, operand, expected)),
        _ => op.double_after(found, operand, expected),
    }
}
