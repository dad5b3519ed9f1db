//! What follows from the definitions of events and histories, as promises to the crates above.
//!
//! These functions do nothing: their contracts are the laws, which a proof cites.
ghost use Rattle.bpf_shared.specs.Laws.{LegalIsSound, ValuesStay, RefusalsChangeNothing, UpdatesMakeValues, OneValueIsReached, WritesTouchNamedBytes, CallsHaveOneReply};
ghost use Rattle.bpf_shared.specs.Lasting.{UpdatesAreFound, DeletionsAreFound, HeldValuesStay, FixedValuesStay};
ghost use Rattle.bpf_shared.specs.Own.{OwnEventsTell};
ghost use Rattle.bpf_shared.specs.Listing.{ListingsAreDetermined};

/// Each store that a legal history leads to is sound: a held value is in a map or kept for the CPU
/// that holds it, no two live values overlap, no map has too many keys, and fixed values are there.
pub fn legal_is_sound()
    ensures { LegalIsSound }
{}

/// No value vanishes, and none moves.
pub fn values_stay()
    ensures { ValuesStay }
{}

/// A refused update or deletion leaves the store as it was.
pub fn refusals_change_nothing()
    ensures { RefusalsChangeNothing }
{}

/// An update that is done makes a new value, and writes into no old one.
pub fn updates_make_values()
    ensures { UpdatesMakeValues }
{}

/// After an update that is done a lookup of the key, with no update or deletion of it between,
/// finds the new value, and its bytes are those given, until somebody writes there.
pub fn updates_are_found()
    ensures { UpdatesAreFound }
{}

/// After a deletion that is done a lookup of the key, with no update of it between, finds nothing.
pub fn deletions_are_found()
    ensures { DeletionsAreFound }
{}

/// What a run holds it holds until it ends, in its place, and no other value is placed there.
pub fn held_values_stay()
    ensures { HeldValuesStay }
{}

/// A fixed value stays in its place. A byte of it changes only by a write there, and a value that may
/// only be read has the bytes that it had at first.
pub fn fixed_values_stay()
    ensures { FixedValuesStay }
{}

/// The bytes of one access lie in one value, held or fixed.
pub fn one_value_is_reached()
    ensures { OneValueIsReached }
{}

/// A write touches the named bytes of one value, and no others.
pub fn writes_touch_named_bytes()
    ensures { WritesTouchNamedBytes }
{}

/// On one thread a call has one reply.
pub fn calls_have_one_reply()
    ensures { CallsHaveOneReply }
{}

/// In every legal history a CPU's own events say whether it is in a run, and each span that they
/// hold is that of a value that it holds.
pub fn own_events_tell()
    ensures { OwnEventsTell }
{}

/// A map has one listing.
pub fn listings_are_determined()
    ensures { ListingsAreDetermined }
{}
