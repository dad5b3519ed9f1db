//! Arrays, whose values lie at addresses of their own.

ghost use Rattle.std.specs.Prelude.{◌≡◌, ◌+◌, ◌≤◌, ◌<◌, ◌↔◌, ℕ, true, IfSome, IfNone, IsTrue};
ghost use Rattle.bpf_helpers.specs.Arrays.{IsInArray, array_start};

use bpf_shared::{ArrayShape, FIRST_ARRAY, FIRST_VALUE, MAP_AREA, Shared};

/// The array that has the bytes from an address on in one of its values; `None` where none has.
#[inline(always)]
pub fn array_with<S: Shared>(shared: &S, at: u64, count: u64) -> Option<ArrayShape>
    requires some { 1 ≤ count }
    requires few { count ≤ 65536 }
    ensures found { IfSome result
        (λ g. (is : IsInArray (S.shapes shared.now) at count) × (is.array ≡ g)) }
    ensures low { IfSome result (λ g. at < array_start 16) }
    ensures each { IfSome result
        (λ g. (k : ℕ) → k < count → IsInArray (S.shapes shared.now) (at + k) 1) }
    ensures none { IfNone result (¬ IsInArray (S.shapes shared.now) at count) }
{
    let above = at.checked_sub(FIRST_VALUE + MAP_AREA * FIRST_ARRAY)?;
    let array = shared.array(above / MAP_AREA)?;
    if array.has(shared.cpus(), above % MAP_AREA, count) {
        Some(array)
    } else {
        None
    }
}

/// Whether the bytes from an address on are in one value of an array.
pub(crate) fn is_in_array<S: Shared>(shared: &S, at: u64, count: u64) -> bool
    requires some { 1 ≤ count }
    requires few { count ≤ 65536 }
    ensures is { IsTrue result ↔ IsInArray (S.shapes shared.now) at count }
    ensures low { result ≡ true → at < array_start 16 }
    ensures each { result ≡ true
        → (k : ℕ) → k < count → IsInArray (S.shapes shared.now) (at + k) 1 }
{
    array_with(shared, at, count).is_some()
}
