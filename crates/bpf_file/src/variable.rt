//! The bytes of an array that a variable may have.

ghost use Rattle.std.specs.Prelude.{◌≡◌, ◌+◌, ◌%◌, ◌==◌, nat_lt};
ghost use Rattle.bpf_shared.specs.Access.{bytes_in};
ghost use Rattle.bpf_file.specs.Statement.{size_of};

use bpf_names::bytes_in;
use bpf_shared::Size;

/// The size of this many bytes.
pub fn size_of(bytes: u32) -> Option<Size>
    ensures { result ≡ size_of bytes }
{
    match bytes {
        1 => Some(Size::Byte),
        2 => Some(Size::Half),
        4 => Some(Size::Word),
        8 => Some(Size::Double),
        _ => None,
    }
}

/// Whether an offset is a multiple of a size.
pub fn is_aligned(at: u32, size: Size) -> bool
    ensures { result ≡ (at % bytes_in size == 0) }
{
    at as usize % bytes_in(size) == 0
}

/// Whether bytes end after a value of this size.
pub fn ends_after(value: u64, at: u32, size: Size) -> bool
    ensures { result ≡ nat_lt value (at + bytes_in size) }
{
    value < u64::from(at) + bytes_in(size) as u64
}
