//! What follows from the definition of a report, as a promise to the crates above.
//!
//! This function does nothing: its contract is the law, which a proof cites.
ghost use Rattle.bpf_workers.specs.Laws.{FewUpdatesSuffice};

/// Where the history that explains a report has no more updates of a map than the map has elements,
/// none of them is answered `NoMemory`.
pub fn few_updates_suffice()
    ensures { FewUpdatesSuffice }
{}
