//! What follows from the definitions of a report, as promises to the crates above.
//!
//! This function does nothing: its contract is the law, which a proof cites.
ghost use Rattle.bpf_sched.specs.Laws.{FewUpdatesSuffice};

/// Where a history has no more updates of a map than the map has elements, none of them is answered
/// `NoMemory`.
pub fn few_updates_suffice()
    ensures { FewUpdatesSuffice }
{}
