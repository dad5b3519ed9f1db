//! What instructions do: the closed sets from which their rows are made (RFC 9669, sections 4 and
//! 5), a file each, with the numbers by which words name its members. Each number occurs once: the
//! operation that has a number is found in the list of all.

pub mod arithmetic;
pub mod atomics;
pub mod conditions;
pub mod extensions;
pub mod sizes;
pub mod swaps;
pub mod widths;

pub use arithmetic::{ALU_OPS, AluOp};
pub use atomics::{ATOMIC_OPS, AtomicOp};
pub use conditions::{CONDITIONS, Condition};
pub use extensions::SignExtension;
pub use sizes::{SignedSize, Size};
pub use swaps::{ByteSwap, SwapWidth};
pub use widths::Width;
