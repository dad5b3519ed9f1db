//! Numbers spread over 64 bits, for hashes.

ghost use Rattle.std.specs.Prelude.{◌≡◌};
ghost use Rattle.bpf_base.specs.Hashes.{spread};

/// 2 ^ 64 by the golden ratio, which is odd.
const GOLDEN: u64 = 0x9e37_79b9_7f4a_7c15;

/// A number of which each bit depends on another one's bits up to its place: the highest on all.
#[inline]
pub fn spread(number: u64) -> u64
    ensures { result ≡ spread number }
{
    number.wrapping_mul(GOLDEN)
}
