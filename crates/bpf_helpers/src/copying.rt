//! How a value is copied into an array: part by part, each read at once and then stored.

ghost use Rattle.std.specs.Prelude.{◌≡◌, ◌≤◌, ◌<◌, true, ℕ, List, length};
ghost use Rattle.bpf_shared.specs.Access.{bytes_in};
ghost use Rattle.bpf_shared.specs.Chain.{Chain};
ghost use Rattle.bpf_helpers.specs.Arrays.{array_start, copies, parts_of};
ghost use Rattle.bpf_helpers.specs.Held.{AreHeld};
ghost use Rattle.bpf_helpers.specs.Reads.{AreReached, loads, no_loads};
ghost use Rattle.bpf_helpers.specs.Private.Parts.{IsNextPart};
ghost use Rattle.bpf_helpers.specs.Private.Target.{IsTarget};

use crate::held::HeldSpans;
use crate::reading::gather;
use bpf_shared::bytes::load;
use bpf_shared::{Shared, Size, ValuePlace};

/// The size of the next part, where this number of bytes is left.
#[inline]
fn next_part(rest: usize) -> Size
    requires { 1 ≤ rest }
    ensures { IsNextPart rest result }
{
    if rest >= 8 {
        Size::Double
    } else if rest >= 4 {
        Size::Word
    } else if rest >= 2 {
        Size::Half
    } else {
        Size::Byte
    }
}

/// How many bytes a part has.
#[inline]
fn length_of(size: Size) -> usize
    ensures { result ≡ bytes_in size }
{
    match size {
        Size::Byte => 1,
        Size::Half => 2,
        Size::Word => 4,
        Size::Double => 8,
    }
}

/// Copies the CPU's own bytes to a value of an array.
pub(crate) fn copy_own<S: Shared>(cpu: u8, bytes: &[u8], to: u64, shared: &mut S)
    requires serves { S.serves shared.old cpu ≡ true }
    requires in_run { S.running shared.old cpu ≡ true }
    requires target { IsTarget (S.shapes shared.old) to (length bytes.now) }
    requires few { length bytes.now ≤ 65536 }
    requires low { to < array_start 16 }
    ensures copied { (from : ℕ) → Chain S.passes S.serves cpu shared.old shared.new
        (copies no_loads from to (parts_of (length bytes.now)) bytes.now) }
    ensures held { S.held shared.new ≡ S.held shared.old }
    ensures running { S.running shared.new ≡ S.running shared.old }
    ensures shapes { S.shapes shared.new ≡ S.shapes shared.old }
{
    let mut done = 0;
    while done < bytes.len() {
        let size = next_part(bytes.len() - done);
        let word = load(bytes, done, size);
        let place = ValuePlace {
            at: to + done as u64,
        };
        shared.value_store(cpu, place, size, word);
        done += length_of(size);
    }
}

/// Copies bytes of values to a value of an array. It has room for a part's bytes, so it is out of
/// line.
#[cold]
#[inline(never)]
pub(crate) fn copy_shared<S: Shared>(
    cpu: u8,
    held: &HeldSpans,
    from: u64,
    count: usize,
    to: u64,
    shared: &mut S,
)
    requires serves { S.serves shared.old cpu ≡ true }
    requires in_run { S.running shared.old cpu ≡ true }
    requires held { AreHeld (S.held shared.old cpu) held.now }
    requires reached { AreReached (S.shapes shared.old) held.now from count }
    requires target { IsTarget (S.shapes shared.old) to count }
    requires few { count ≤ 65536 }
    requires near { from < array_start 16 }
    requires low { to < array_start 16 }
    ensures copied { (value : List ℕ) × (length value ≡ count)
        × Chain S.passes S.serves cpu shared.old shared.new
        (copies loads from to (parts_of count) value) }
    ensures held { S.held shared.new ≡ S.held shared.old }
    ensures running { S.running shared.new ≡ S.running shared.old }
    ensures shapes { S.shapes shared.new ≡ S.shapes shared.old }
{
    let mut done = 0;
    while done < count {
        let size = next_part(count - done);
        let part = gather(cpu, held, shared, from + done as u64, length_of(size));
        let word = load(part.as_slice(), 0, size);
        let place = ValuePlace {
            at: to + done as u64,
        };
        shared.value_store(cpu, place, size, word);
        done += length_of(size);
    }
}
