//! Values of arrays, by the addresses at which they lie.

ghost use Rattle.std.specs.Prelude.{◌≡◌, ◌≤◌, ◌<◌, ◌+◌, ◌-◌, IfSome};
ghost use Rattle.bpf_shared.specs.declared.shapes.ArrayShape.{ArrayShape};
ghost use Rattle.bpf_shared.specs.Shape.{IsArray, IsArrayShape, IsShape, array_stride, copies, copy_stride, fixed_span};
ghost use Rattle.bpf_faults.specs.Access.{IsAt};

use bpf_jobs::ArrayPlace;
use bpf_shared::{ArrayShape, StoreShape};

/// A value of an array.
#[derive(Clone, Copy)]
pub(crate) struct ArrayValue {
    pub place: ArrayPlace,
    /// The address of its first byte.
    pub at: u64,
}

/// The array of this number, if it is there.
fn find_array(shape: &StoreShape, number: usize) -> Option<ArrayShape>
    ensures there { IfSome result (λ g. IsArray shape.now.arrays number g) }
    ensures few { IfSome result (λ g. (number < 16) × (shape.now.cpus ≤ 16)) }
    ensures in_range { IsShape shape.now }
{
    shape.arrays().get(number).copied()
}

/// The array of this number, with what its sizes are.
pub(crate) fn array_of(shape: &StoreShape, number: usize) -> Option<ArrayShape>
    ensures there { IfSome result (λ g. IsArray shape.now.arrays number g) }
    ensures sized { IfSome result (λ g. IsArrayShape shape.now.cpus g) }
    ensures few { IfSome result (λ g. (number < 16) × (shape.now.cpus ≤ 16)) }
    ensures value { IfSome result (λ g. (1 ≤ g.value) × (g.value ≤ 65536)) }
    ensures max { IfSome result (λ g. (1 ≤ g.max) × (g.max ≤ 65536)) }
    ensures strides { IfSome result (λ g. (1 ≤ array_stride g) × (1 ≤ copy_stride g)) }
{
    find_array(shape, number)
}

/// The addresses of the first and the last byte of an array's values.
pub(crate) fn ends_of(shape: &StoreShape, number: usize) -> Option<(u64, u64)>
    ensures { IfSome result (λ e. (g : ArrayShape) × IsArray shape.now.arrays number g
        × (e.0 ≡ (fixed_span number g 0 0).at)
        × (e.1 + 1 ≡ (fixed_span number g (copies shape.now.cpus g - 1) (g.max - 1)).at + g.value)) }
{
    let array = array_of(shape, number)?;
    let number = number as u8;
    let copies = array.copies(shape.cpus());
    let first = array.address(number, 0, 0);
    let last = array.address(number, (copies - 1) as u8, array.max - 1);
    Some((first, last + (array.value - 1)))
}

/// The value of an array that has the byte at an address, or ends last before it; `None` of an
/// address after the last value of a CPU, or of all.
pub(crate) fn value_at(shape: &StoreShape, number: usize, address: u64) -> Option<ArrayValue>
    ensures { IfSome result (λ v. (g : ArrayShape) × IsArray shape.now.arrays number g
        × IsAt shape.now.cpus number g v.place.cpu v.place.index v.at address) }
{
    let array = array_of(shape, number)?;
    let number = number as u8;
    let offset = address.checked_sub(array.address(number, 0, 0))?;
    let copy = offset / array.copy_stride();
    let index = offset % array.copy_stride() / array.stride();
    if copy >= array.copies(shape.cpus()) || index >= array.max {
        return None;
    }
    let cpu = copy as u8;
    let at = array.address(number, cpu, index);
    let per_cpu = array.per_cpu;
    let place = ArrayPlace {
        index,
        cpu,
        per_cpu,
    };
    Some(ArrayValue { place, at })
}
