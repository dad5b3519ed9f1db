//! Numbers read from little-endian bytes, and written to them.

ghost use Rattle.std.specs.Prelude.{◌≡◌, ◌+◌, ◌≤◌, length};
ghost use Rattle.bpf_base.specs.Bytes.{little_endian, low_bytes, part, with_part};

/// The number of the two bytes from an offset on.
#[inline]
pub fn load_half(bytes: &[u8], at: usize) -> u16
    requires { at + 2 ≤ length bytes.now }
    ensures { result ≡ little_endian (part bytes.now at 2) }
{
    u16::from_le_bytes([bytes[at], bytes[at + 1]])
}

/// The number of the four bytes from an offset on.
#[inline]
pub fn load_word(bytes: &[u8], at: usize) -> u32
    requires { at + 4 ≤ length bytes.now }
    ensures { result ≡ little_endian (part bytes.now at 4) }
{
    u32::from_le_bytes([bytes[at], bytes[at + 1], bytes[at + 2], bytes[at + 3]])
}

/// The number of the eight bytes from an offset on.
#[inline]
pub fn load_double(bytes: &[u8], at: usize) -> u64
    requires { at + 8 ≤ length bytes.now }
    ensures { result ≡ little_endian (part bytes.now at 8) }
{
    u64::from_le_bytes([
        bytes[at],
        bytes[at + 1],
        bytes[at + 2],
        bytes[at + 3],
        bytes[at + 4],
        bytes[at + 5],
        bytes[at + 6],
        bytes[at + 7],
    ])
}

/// Sets the two bytes from an offset on to the low ones of a number.
#[inline]
pub fn store_half(bytes: &mut [u8], at: usize, number: u64)
    requires { at + 2 ≤ length bytes.old }
    ensures { bytes.new ≡ with_part bytes.old at (low_bytes 2 number) }
{
    bytes[at..at + 2].copy_from_slice(&((number % 0x1_0000) as u16).to_le_bytes());
}

/// Sets the four bytes from an offset on to the low ones of a number.
#[inline]
pub fn store_word(bytes: &mut [u8], at: usize, number: u64)
    requires { at + 4 ≤ length bytes.old }
    ensures { bytes.new ≡ with_part bytes.old at (low_bytes 4 number) }
{
    bytes[at..at + 4].copy_from_slice(&((number % 0x1_0000_0000) as u32).to_le_bytes());
}

/// Sets the eight bytes from an offset on to those of a number.
#[inline]
pub fn store_double(bytes: &mut [u8], at: usize, number: u64)
    requires { at + 8 ≤ length bytes.old }
    ensures { bytes.new ≡ with_part bytes.old at (low_bytes 8 number) }
{
    bytes[at..at + 8].copy_from_slice(&number.to_le_bytes());
}
