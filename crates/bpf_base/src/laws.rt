//! What follows from the definitions, as promises to the crates above.
//!
//! These functions do nothing: their contracts are the laws, which a proof cites.
ghost use Rattle.bpf_base.specs.Laws.{NumbersReadBack, OnePartIsReplaced};

/// A number is read back from its bytes, and bytes from their number.
pub fn numbers_read_back()
    ensures { NumbersReadBack }
{}

/// Where bytes are replaced, the new ones are there, and each other byte stays.
pub fn one_part_is_replaced()
    ensures { OnePartIsReplaced }
{}
