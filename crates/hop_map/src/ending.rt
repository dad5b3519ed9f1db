//! How an update ends.
use bpf_shared::MapAnswer;

/// What became of an update under its key's lock.
pub(crate) enum Ending {
    /// The key is new, and the element is the map's. Where it went to the overflow list of a
    /// segment, that segment's number.
    Added(Option<u32>),
    /// The element is the map's, in the place of this one, which is in hand from now on.
    Replaced(u32),
    /// Nothing changed.
    Refused(MapAnswer),
}
