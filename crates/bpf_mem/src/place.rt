//! Places: addresses that were found to be good.

/// Where bytes lie. Which address it stands for is said by `address_of` of this crate's
/// definitions.
#[derive(Clone, Copy, PartialEq, Eq, Debug)]
pub enum Place {
    Context { offset: usize },
    Packet { offset: usize },
    Frame { depth: usize, offset: usize },
}
