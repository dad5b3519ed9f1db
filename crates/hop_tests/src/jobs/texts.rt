//! Assembly texts for maps with keys of four bytes and values of eight.

/// Puts a value under the key 0 of map 0, and that value's address under the key 0 of map 1.
pub(super) const KEEP: &str = "
    *(u32 *)(r10 - 4) = 0
    *(u64 *)(r10 - 16) = 7
    r1 = map 0
    r2 = r10
    r2 += -4
    r3 = r10
    r3 += -16
    r4 = 0
    call 2
    r1 = map 0
    r2 = r10
    r2 += -4
    call 1
    *(u64 *)(r10 - 16) = r0
    r1 = map 1
    r2 = r10
    r2 += -4
    r3 = r10
    r3 += -16
    r4 = 0
    call 2
    exit
";

/// Reads at the address under the key 0 of map 1, which a later run doesn't hold.
pub(super) const USE: &str = "
    *(u32 *)(r10 - 4) = 0
    r1 = map 1
    r2 = r10
    r2 += -4
    call 1
    r1 = *(u64 *)(r0 + 0)
    r0 = *(u64 *)(r1 + 0)
    exit
";

/// Puts a value of zeros under the key 0 of map 0 unless one is there, and adds 1 to it 1,000
/// times.
pub(super) const ADD: &str = "
    *(u32 *)(r10 - 4) = 0
    *(u64 *)(r10 - 16) = 0
    r1 = map 0
    r2 = r10
    r2 += -4
    r3 = r10
    r3 += -16
    r4 = 1
    call 2
    r1 = map 0
    r2 = r10
    r2 += -4
    call 1
    r6 = 1000
    r1 = 1
    lock *(u64 *)(r0 + 0) += r1
    r6 += -1
    if r6 != 0 goto -3
    r0 = 0
    exit
";
