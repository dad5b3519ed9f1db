//! What follows from the definitions of a call and of what is saved, as promises to the crates
//! above.
//!
//! These functions do nothing: their contracts are the laws, which a proof cites.
ghost use Rattle.bpf_helpers.specs.Laws.{CallsAreDetermined, SavedTellsSpans};

/// The store's replies determine what a call asks next, and in the end its result and what is held.
pub fn calls_are_determined()
    ensures { CallsAreDetermined }
{}

/// What spans are saved as determines them, and where it ends.
pub fn saved_tells_spans()
    ensures { SavedTellsSpans }
{}
