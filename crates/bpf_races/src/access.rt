//! What a CPU's calls touch of values.

ghost use Rattle.std.specs.Prelude.{◌≡◌, IfOk, OnOk, map};
ghost use Rattle.bpf_shared.specs.Access.{bytes_in};
ghost use Rattle.bpf_events.specs.Watched.{event_of};
ghost use Rattle.bpf_races.specs.Touch.{access_at, access_of};
ghost use Rattle.bpf_races.specs.Private.Accesses.{Adds, AreAccesses};

use bpf_events::Note;
use bpf_shared::Size;
use std::alloc::{AllocError, Global};

/// Bytes of a value that a call touches, and how.
#[derive(Clone, Copy)]
pub struct Access {
    /// The address of the first.
    pub at: u64,
    /// The address after the last.
    pub past: u64,
    pub writes: bool,
    pub atomic: bool,
}

fn bytes_in(size: Size) -> u64
    ensures { result ≡ bytes_in size }
{
    match size {
        Size::Byte => 1,
        Size::Half => 2,
        Size::Word => 4,
        Size::Double => 8,
    }
}

/// The bytes of a size from an address on. One that ends beyond 64 bits counts as out of memory.
fn access_at(at: u64, size: Size, writes: bool, atomic: bool) -> Result<Access, AllocError>
    ensures { IfOk result (λ access. access ≡ access_at at size writes atomic) }
{
    let past = at.checked_add(bytes_in(size)).ok_or(AllocError)?;
    Ok(Access {
        at,
        past,
        writes,
        atomic,
    })
}

/// What a call touches of a value.
fn access_of(note: &Note) -> Result<Option<Access>, AllocError>
    ensures { IfOk result (λ access. access ≡ access_of (event_of note.now)) }
{
    match note {
        Note::Load { at, size, found: _ } => Ok(Some(access_at(*at, *size, false, false)?)),
        Note::Store { at, size, word: _ } => Ok(Some(access_at(*at, *size, true, false)?)),
        Note::Atomic { at, size, .. } => Ok(Some(access_at(*at, *size, true, true)?)),
        Note::Begin | Note::End | Note::Lookup { .. } | Note::Update { .. } | Note::Delete { .. } =>
            Ok(None),
    }
}

/// Appends what a call touches to the others.
fn add_access(accesses: &mut Vec<Access>, note: &Note) -> Result<(), AllocError>
    ensures { OnOk result (Adds accesses.old.items (access_of (event_of note.now))
        accesses.new.items) }
{
    match access_of(note)? {
        Some(access) => {
            accesses.push(access)?;
            Ok(())
        }
        None => Ok(()),
    }
}

/// What some calls touch of values.
pub(crate) fn accesses_of(alloc: Global, notes: &[Note]) -> Result<Vec<Access>, AllocError>
    ensures { IfOk result (λ v. AreAccesses (map event_of notes.now) v.items) }
{
    let mut accesses = Vec::new(alloc);
    for note in notes {
        add_access(&mut accesses, note)?;
    }
    Ok(accesses)
}
