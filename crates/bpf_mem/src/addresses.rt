//! Where the parts of the private memory begin. The addresses are our own choice.

ghost use Rattle.std.specs.Prelude.{◌≡◌, ◌%◌, ◌↔◌, IsTrue};
ghost use Rattle.bpf_mem.specs.Bytes.{length_of};

use bpf_insn::operation::Size;

/// Where the packet begins: its addresses have 32 bits, as many as a context has room for.
pub const PACKET_BASE: u64 = 0x1000_0000;

/// Where the context begins.
pub const CONTEXT_BASE: u64 = 0x2_0000_0000;

/// Where the oldest frame begins.
pub const STACK_BASE: u64 = 0x3_0000_0000;

/// How far each frame begins above the one before.
pub const FRAME_STRIDE: u64 = 0x1000;

/// Whether an address is a multiple of a size.
#[inline]
pub fn is_aligned(address: u64, size: Size) -> bool
    ensures { IsTrue result ↔ (address % length_of size ≡ 0) }
{
    match size {
        Size::Byte => true,
        Size::Half => address % 2 == 0,
        Size::Word => address % 4 == 0,
        Size::Double => address % 8 == 0,
    }
}
