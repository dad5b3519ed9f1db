//! What follows from the definition of the store that has pairs, as promises to the crates above.
//!
//! These functions do nothing: their contracts are the laws, which a proof cites.
ghost use Rattle.bpf_pairs.specs.Laws.{PairsArePut, PutsLeaveOneStore};

/// The store that has pairs is the one that updates leave which put them in.
pub fn pairs_are_put()
    ensures { PairsArePut }
{}

/// On one thread such updates leave no other store.
pub fn puts_leave_one_store()
    ensures { PutsLeaveOneStore }
{}
