//! What follows from the definitions of births, as promises to the crates above.
//!
//! These functions do nothing: their contracts are the laws, which a proof cites.
ghost use Rattle.hop_layout.specs.Births.{EachHasOneOwner, SplitsBearOneChild};

/// Each home has one owner among the born segments.
pub fn each_has_one_owner()
    ensures { EachHasOneOwner }
{}

/// Where a segment splits, its child is born and no other; who was born stays so.
pub fn splits_bear_one_child()
    ensures { SplitsBearOneChild }
{}
