//! Notes of a store's calls.

ghost use Rattle.std.specs.Prelude.{◌≡◌, IfOk};
ghost use Rattle.bpf_shared.specs.declared.events.Event.{Event};
ghost use Rattle.bpf_events.specs.Private.Recording.{event_of};

use bpf_shared::{AtomicOp, MapAnswer, Size, Span};
use std::alloc::{AllocError, Global};

/// Where a CPU is: in which job, and at which pc of its program.
#[derive(Clone, Copy)]
pub struct Place {
    pub cpu: u8,
    pub job: usize,
    pub pc: u32,
}

/// A call of a store with its reply.
#[derive(Drop)]
pub enum Note {
    Begin,
    End,
    Lookup {
        map: u8,
        key: Vec<u8>,
        answer: Option<Span>,
    },
    Update {
        map: u8,
        key: Vec<u8>,
        value: Vec<u8>,
        flags: u64,
        answer: MapAnswer,
    },
    Delete {
        map: u8,
        key: Vec<u8>,
        answer: MapAnswer,
    },
    Load {
        at: u64,
        size: Size,
        found: u64,
    },
    Store {
        at: u64,
        size: Size,
        word: u64,
    },
    Atomic {
        at: u64,
        size: Size,
        op: AtomicOp,
        operand: u64,
        expected: u64,
        found: u64,
    },
}

/// A copy of bytes.
fn copy_bytes(alloc: Global, bytes: &[u8]) -> Result<Vec<u8>, AllocError>
    ensures { IfOk result (λ v. v.items ≡ bytes.now) }
{
    let mut copy = Vec::with_capacity(alloc, bytes.len())?;
    copy.extend_from_slice(bytes)?;
    Ok(copy)
}

/// The note of a lookup.
pub(crate) fn note_lookup(
    alloc: Global,
    map: u8,
    key: &[u8],
    answer: Option<Span>,
) -> Result<Note, AllocError>
    ensures { IfOk result (λ note. event_of note ≡ Event.Lookup map key.now answer) }
{
    let key = copy_bytes(alloc, key)?;
    Ok(Note::Lookup { map, key, answer })
}

/// The note of an update.
pub(crate) fn note_update(
    alloc: Global,
    map: u8,
    key: &[u8],
    value: &[u8],
    flags: u64,
    answer: MapAnswer,
) -> Result<Note, AllocError>
    ensures { IfOk result (λ note. event_of note ≡ Event.Update map key.now value.now flags answer) }
{
    let key = copy_bytes(alloc, key)?;
    let value = copy_bytes(alloc, value)?;
    Ok(Note::Update {
        map,
        key,
        value,
        flags,
        answer,
    })
}

/// The note of a deletion.
pub(crate) fn note_delete(
    alloc: Global,
    map: u8,
    key: &[u8],
    answer: MapAnswer,
) -> Result<Note, AllocError>
    ensures { IfOk result (λ note. event_of note ≡ Event.Delete map key.now answer) }
{
    let key = copy_bytes(alloc, key)?;
    Ok(Note::Delete { map, key, answer })
}
