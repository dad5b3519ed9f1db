//! What an atomic operation leaves in memory.

ghost use Rattle.std.specs.Prelude.{◌≡◌, ◌<◌};
ghost use Rattle.bpf_base.specs.Bytes.{modulus};
ghost use Rattle.bpf_mem.specs.Atomic.{number_left};
ghost use Rattle.bpf_mem.specs.Bytes.{length_of, size_of};

use bpf_insn::{AtomicOp, Width};

/// The number that is left where `before` stood.
#[inline]
pub(crate) fn number_left(
    op: AtomicOp,
    width: Width,
    before: u64,
    operand: u64,
    expected: u64,
) -> u64
    requires { before < modulus (length_of (size_of width)) }
    ensures { result ≡ number_left op width before operand expected }
{
    let change = op.change();
    match width {
        Width::Bits32 => u64::from(change.word_after(before as u32, operand, expected)),
        Width::Bits64 => change.double_after(before, operand, expected),
    }
}
