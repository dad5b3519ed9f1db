//! How a split of a segment ends.

/// What became of a segment that was to split.
#[derive(Clone, Copy, PartialEq, Eq, Debug)]
pub enum Growth {
    /// It split: half of its homes belong to a new segment from now on.
    Grown,
    /// It has the map's greatest depth, as each segment of a map that doesn't grow.
    AtDepth,
    /// It can't change any more.
    Worn,
}
