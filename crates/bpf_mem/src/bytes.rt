//! Numbers in little-endian bytes.

ghost use Rattle.std.specs.Prelude.{◌≡◌, ◌+◌, ◌<◌, ◌≤◌, length};
ghost use Rattle.bpf_base.specs.Bytes.{modulus, little_endian, low_bytes, part, with_part};
ghost use Rattle.bpf_mem.specs.Bytes.{length_of, size_of};

use bpf_base::bytes::{load_double, load_half, load_word, store_double, store_half, store_word};
use bpf_insn::operation::{Size, Width};

/// How many bytes a size has.
#[inline]
pub fn length(size: Size) -> usize
    ensures value { result ≡ length_of size }
    ensures some { 1 ≤ result }
    ensures bounded { result ≤ 8 }
{
    match size {
        Size::Byte => 1,
        Size::Half => 2,
        Size::Word => 4,
        Size::Double => 8,
    }
}

/// The size of an atomic operation's bytes.
#[inline]
pub fn size_of_width(width: Width) -> Size
    ensures { result ≡ size_of width }
{
    match width {
        Width::Bits32 => Size::Word,
        Width::Bits64 => Size::Double,
    }
}

/// The number at an offset, zero-extended.
#[inline]
pub(crate) fn load(bytes: &[u8], at: usize, size: Size) -> u64
    requires { at + length_of size ≤ length bytes.now }
    ensures value { result ≡ little_endian (part bytes.now at (length_of size)) }
    ensures bounded { result < modulus (length_of size) }
{
    match size {
        Size::Byte => u64::from(bytes[at]),
        Size::Half => u64::from(load_half(bytes, at)),
        Size::Word => u64::from(load_word(bytes, at)),
        Size::Double => load_double(bytes, at),
    }
}

/// Sets the bytes at an offset to the low bytes of a number.
#[inline]
pub(crate) fn store(bytes: &mut [u8], at: usize, size: Size, value: u64)
    requires { at + length_of size ≤ length bytes.old }
    ensures { bytes.new ≡ with_part bytes.old at (low_bytes (length_of size) value) }
{
    match size {
        Size::Byte => bytes[at] = (value % 0x100) as u8,
        Size::Half => store_half(bytes, at, value),
        Size::Word => store_word(bytes, at, value),
        Size::Double => store_double(bytes, at, value),
    }
}
