//! Why a helper can't be called.

/// The faults of helpers. Nothing is changed, but that a lookup that found one value too many was
/// made.
#[derive(Clone, Copy, PartialEq, Eq, Debug)]
pub enum HelperFault {
    /// F1: a byte of the key or the value is neither the CPU's own, nor in a value that its run
    /// holds, nor in an array's.
    BadAddress,
    /// F2: the key of an array lies in values, and its address is no multiple of four.
    Misaligned,
    /// F4: R1 is no map and no array.
    NotAMap,
    /// F5: the lookup found a value, and the run holds as many others as it may.
    TooManyHeld,
}
