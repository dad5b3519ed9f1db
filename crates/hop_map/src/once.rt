//! What a lookup without a lock answers.
use bpf_shared::Span;

/// What a lookup without a lock answers.
#[derive(Clone, Copy, PartialEq, Eq, Debug)]
pub enum Once {
    /// The key's value lies here.
    Found(Span),
    /// The key isn't there.
    Absent,
    /// The segment's stamp, as it was read first and last: the first is locked, or the two differ.
    Disturbed(u64, u64),
}
