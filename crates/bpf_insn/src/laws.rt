//! What follows from the definitions of encodings and refusals, as promises to the crates above.
//!
//! These functions do nothing: their contracts are the laws, which a proof cites.
ghost use Rattle.bpf_insn.specs.Laws.{WordsAreDetermined, EncodingsAreDetermined, RefusalsAreDetermined, EncodingsAreDecoded};

/// Bytes are those of one list of instructions at most.
pub fn words_are_determined()
    ensures { WordsAreDetermined }
{}

/// A list of instructions has one encoding at most.
pub fn encodings_are_determined()
    ensures { EncodingsAreDetermined }
{}

/// Bytes are refused for one reason at most, and where they are instructions of the right length
/// for none; unless memory runs out.
pub fn refusals_are_determined()
    ensures { RefusalsAreDetermined }
{}

/// The encoding of a list of 1 to 65,536 words is decoded as that list, unless memory is refused.
pub fn encodings_are_decoded()
    ensures { EncodingsAreDecoded }
{}
