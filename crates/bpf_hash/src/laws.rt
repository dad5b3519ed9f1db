//! What follows from the hash store's definitions, as promises to the crates above.
//!
//! These functions do nothing: their contracts are the laws, which a proof cites.
ghost use Rattle.bpf_hash.specs.Alike.{AlikeStandAlike, RestoredLooksAlike, SavedAlikeLookAlike};
ghost use Rattle.bpf_hash.specs.Read.{ReadingsAreDetermined, RestoredIsSavedAlike};

/// Contents that look alike stand for the same plain stores.
pub fn alike_stand_alike()
    ensures { AlikeStandAlike }
{}

/// Contents of one shape that are saved as the same bytes look alike.
pub fn saved_alike_look_alike()
    ensures { SavedAlikeLookAlike }
{}

/// What is restored looks like what was saved.
pub fn restored_looks_alike()
    ensures { RestoredLooksAlike }
{}

/// What is restored is saved as the same bytes.
pub fn restored_is_saved_alike()
    ensures { RestoredIsSavedAlike }
{}

/// Bytes are read in one way.
pub fn readings_are_determined()
    ensures { ReadingsAreDetermined }
{}
