//! What follows from the definitions of places and sound programs, as promises to the crates above.
//!
//! These functions do nothing: their contracts are the laws, which a proof cites.
ghost use Rattle.bpf_loader.specs.Laws.{FirstIsDetermined, OneInstructionBegins};

/// One instruction at most begins at a pc.
pub fn one_instruction_begins()
    ensures { OneInstructionBegins }
{}

/// A list of instructions has one first refusal at most, and a sound one has none.
pub fn first_is_determined()
    ensures { FirstIsDetermined }
{}
