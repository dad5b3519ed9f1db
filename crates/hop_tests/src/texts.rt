//! Assembly texts for a map 0 with keys of four bytes, values of eight, and room for one key.

/// Puts a value of zeros under the key 0 unless one is there, and adds 1 to it 1,000 times.
pub(crate) const ADD: &str = "
    *(u32 *)(r10 - 4) = 0
    *(u64 *)(r10 - 16) = 0
    r1 = map 0
    r2 = r10
    r2 += -4
    r3 = r10
    r3 += -16
    r4 = 1
    call 2
    r1 = map 0
    r2 = r10
    r2 += -4
    call 1
    r6 = 1000
    r1 = 1
    lock *(u64 *)(r0 + 0) += r1
    r6 += -1
    if r6 != 0 goto -3
    r0 = 0
    exit
";

/// Adds 1 a thousand times to the value 1 of the first array by atomic additions, and to the value 0
/// of the second by loads and stores.
pub(crate) const COUNT: &str = "
    *(u32 *)(r10 - 4) = 1
    r1 = map 16
    r2 = r10
    r2 += -4
    call 1
    r7 = r0
    *(u32 *)(r10 - 4) = 0
    r1 = map 17
    r2 = r10
    r2 += -4
    call 1
    r6 = 1000
    r1 = 1
    lock *(u64 *)(r7 + 0) += r1
    r2 = *(u64 *)(r0 + 0)
    r2 += 1
    *(u64 *)(r0 + 0) = r2
    r6 += -1
    if r6 != 0 goto -6
    r0 = 0
    exit
";

/// The value under the key 0.
const READ: &str = "
    *(u32 *)(r10 - 4) = 0
    r1 = map 0
    r2 = r10
    r2 += -4
    call 1
    r0 = *(u64 *)(r0 + 0)
    exit
";

/// Stores two bytes and a half-word of the value, and answers it.
const PARTS: &str = "
    *(u32 *)(r10 - 4) = 0
    r1 = map 0
    r2 = r10
    r2 += -4
    call 1
    *(u8 *)(r0 + 0) = 17
    *(u8 *)(r0 + 1) = 34
    *(u16 *)(r0 + 6) = 513
    r0 = *(u64 *)(r0 + 0)
    exit
";

/// Adds 5 to the value's upper half, changes its lower half where it is 8721, and answers the sum
/// of the value and what the upper half was.
const HALVES: &str = "
    *(u32 *)(r10 - 4) = 0
    r1 = map 0
    r2 = r10
    r2 += -4
    call 1
    r6 = r0
    w1 = 5
    w1 = atomic_fetch_add((u32 *)(r6 + 4), w1)
    r0 = 34
    w2 = 9
    w0 = 8721
    w0 = cmpxchg_32(r6 + 0, w0, w2)
    r0 = *(u64 *)(r6 + 0)
    r0 += r1
    exit
";

/// Fails to change the value where it is 1, swaps it for -1, and answers -1 xor what it was.
const SWAP: &str = "
    *(u32 *)(r10 - 4) = 0
    r1 = map 0
    r2 = r10
    r2 += -4
    call 1
    r6 = r0
    r0 = 1
    r2 = 3
    r0 = cmpxchg_64(r6 + 0, r0, r2)
    r1 = -1
    r1 = xchg_64(r6 + 0, r1)
    lock *(u64 *)(r6 + 0) ^= r1
    r0 = *(u64 *)(r6 + 0)
    exit
";

/// Deletes the key 0.
const DELETE: &str = "
    *(u32 *)(r10 - 4) = 0
    r1 = map 0
    r2 = r10
    r2 += -4
    call 3
    exit
";

/// Whether the key 0 is there.
const LOOKUP: &str = "
    *(u32 *)(r10 - 4) = 0
    r1 = map 0
    r2 = r10
    r2 += -4
    call 1
    exit
";

/// Replaces the value under the key 0, where it is there.
const REPLACE: &str = "
    *(u32 *)(r10 - 4) = 0
    *(u64 *)(r10 - 16) = 7
    r1 = map 0
    r2 = r10
    r2 += -4
    r3 = r10
    r3 += -16
    r4 = 2
    call 2
    exit
";

/// Puts a value under the key 5.
const PUT_5: &str = "
    *(u32 *)(r10 - 4) = 5
    *(u64 *)(r10 - 16) = 7
    r1 = map 0
    r2 = r10
    r2 += -4
    r3 = r10
    r3 += -16
    r4 = 0
    call 2
    exit
";

/// Puts a value under the key 0.
const PUT_0: &str = "
    *(u32 *)(r10 - 4) = 0
    *(u64 *)(r10 - 16) = 7
    r1 = map 0
    r2 = r10
    r2 += -4
    r3 = r10
    r3 += -16
    r4 = 0
    call 2
    exit
";

/// Puts a value under the key 5 unless one is there.
const ADD_5: &str = "
    *(u32 *)(r10 - 4) = 5
    *(u64 *)(r10 - 16) = 7
    r1 = map 0
    r2 = r10
    r2 += -4
    r3 = r10
    r3 += -16
    r4 = 1
    call 2
    exit
";

/// Puts a value with flags that are none.
const MISFLAGGED: &str = "
    *(u32 *)(r10 - 4) = 5
    *(u64 *)(r10 - 16) = 7
    r1 = map 0
    r2 = r10
    r2 += -4
    r3 = r10
    r3 += -16
    r4 = 3
    call 2
    exit
";

/// Puts 7 under the key 0 and looks it up, deletes the key, puts 8 and looks it up. Answers 87
/// where the second value reads as 8 and the first, which has left its map, still as 7.
const KEPT: &str = "
    *(u32 *)(r10 - 4) = 0
    *(u64 *)(r10 - 16) = 7
    r1 = map 0
    r2 = r10
    r2 += -4
    r3 = r10
    r3 += -16
    r4 = 0
    call 2
    r1 = map 0
    r2 = r10
    r2 += -4
    call 1
    r6 = r0
    r1 = map 0
    r2 = r10
    r2 += -4
    call 3
    *(u64 *)(r10 - 16) = 8
    r1 = map 0
    r2 = r10
    r2 += -4
    r3 = r10
    r3 += -16
    r4 = 0
    call 2
    r1 = map 0
    r2 = r10
    r2 += -4
    call 1
    r7 = r0
    r0 = 0
    if r6 == r7 goto done
    r0 = *(u64 *)(r7 + 0)
    r0 *= 10
    r1 = *(u64 *)(r6 + 0)
    r0 += r1
done:
    exit
";

/// Puts as many keys as its context says, looks each up, then the first again, and answers their
/// number.
pub(crate) const LOOK_UP: &str = "
    r6 = 0
    r8 = *(u16 *)(r1 + 0)
next:
    *(u32 *)(r10 - 4) = r6
    *(u64 *)(r10 - 16) = 0
    r1 = map 0
    r2 = r10
    r2 += -4
    r3 = r10
    r3 += -16
    r4 = 1
    call 2
    r1 = map 0
    r2 = r10
    r2 += -4
    call 1
    r6 += 1
    if r6 != r8 goto next
    *(u32 *)(r10 - 4) = 0
    r1 = map 0
    r2 = r10
    r2 += -4
    call 1
    r0 = r6
    exit
";

/// Programs to be run one after the other, each with R0 at its end, worked out by hand.
pub(crate) const CALLS: [(&str, u64); 15] = [
    (KEPT, 87),
    (DELETE, 0),
    (ADD, 0),
    (READ, 1000),
    (PARTS, 0x201000000002211),
    (HALVES, 0x201000502010009),
    (SWAP, 0xfdfefffafffffff6),
    (DELETE, 0),
    (DELETE, 0xfffffffffffffffe),
    (LOOKUP, 0),
    (REPLACE, 0xfffffffffffffffe),
    (PUT_5, 0),
    (PUT_0, 0xfffffffffffffff9),
    (ADD_5, 0xffffffffffffffef),
    (MISFLAGGED, 0xffffffffffffffea),
];
