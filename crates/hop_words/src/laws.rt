//! What follows from the definitions of a shortage, as promises to the crates above.
//!
//! These functions do nothing: their contracts are the laws, which a proof cites.
ghost use Rattle.hop_words.specs.Laws.{FewUpdatesSuffice, LacksComeLate};

/// Where a history has no more updates of a map than the map has elements, none of them is answered
/// `NoMemory`.
pub fn few_updates_suffice()
    ensures { FewUpdatesSuffice }
{}

/// Before an update that is answered `NoMemory` there are at least as many updates of the map as it
/// has elements, less one for each CPU.
pub fn lacks_come_late()
    ensures { LacksComeLate }
{}
