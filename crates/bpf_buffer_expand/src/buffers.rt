//! What waits, as bytes.

ghost use Rattle.std.specs.Prelude.{◌≡◌, ◌≤◌, ◌++◌, ℕ, List, IfNone, IfOk, IfSome, OnOk, length, map};
ghost use Rattle.std.specs.List.{flat_map, AllByRecursion as Each};
ghost use Rattle.bpf_mem.specs.Saved.{IsWord};
ghost use Rattle.bpf_shared.specs.declared.events.Size.{Size};
ghost use Rattle.bpf_shared.specs.Access.{bytes_in};
ghost use Rattle.bpf_buffering.specs.declared.waiting.Stored.{Stored};
ghost use Rattle.bpf_buffer_expand.specs.Saved.{count_saved, stored_saved, buffer_saved, buffers_saved, IsSavable, AreSavable};

use bpf_buffering::Stored;
use bpf_mem::{read_words, save_words};
use bpf_shared::Size;
use std::alloc::{AllocError, Global};

/// How many bytes a store of this size has.
pub(crate) fn count_of(size: Size) -> u64
    ensures count { result ≡ bytes_in size }
    ensures some { 1 ≤ result }
    ensures few { result ≤ 8 }
{
    match size {
        Size::Byte => 1,
        Size::Half => 2,
        Size::Word => 4,
        Size::Double => 8,
    }
}

/// The size of a store that has this many bytes.
fn size_of_count(count: u64) -> Option<Size>
    ensures some { IfSome result (λ size. bytes_in size ≡ count) }
    ensures none { IfNone result ((size : Size) → bytes_in size ≡ count → ⊥) }
{
    match count {
        1 => Some(Size::Byte),
        2 => Some(Size::Half),
        4 => Some(Size::Word),
        8 => Some(Size::Double),
        _ => None,
    }
}

/// A store that waits fits into bytes: says so, and does nothing.
fn is_savable(stored: &Stored)
    ensures { IsSavable stored.now }
{
    let _at = stored.at;
    let _word = stored.word;
}

/// So do those of a CPU: says so.
fn buffer_is_savable(buffer: &[Stored])
    ensures { AreSavable buffer.now }
{
    for stored in buffer {
        is_savable(stored);
    }
}

/// So do all: says so.
pub(crate) fn are_savable(buffers: &[Vec<Stored>])
    ensures { Each AreSavable (map (λ b. b.items) buffers.now) }
{
    for buffer in buffers {
        buffer_is_savable(buffer);
    }
}

/// Appends to the bytes what a store that waits is saved as.
fn save_stored(stored: &Stored, out: &mut Vec<u8>) -> Result<(), AllocError>
    ensures { OnOk result (out.new.items ≡ out.old.items ++ stored_saved stored.now) }
{
    let words = [stored.at, count_of(stored.size), stored.word];
    save_words(&words, out)
}

/// Appends to the bytes what a CPU's stores that wait are saved as.
fn save_buffer(buffer: &[Stored], out: &mut Vec<u8>) -> Result<(), AllocError>
    ensures { OnOk result (out.new.items ≡ out.old.items ++ buffer_saved buffer.now) }
{
    let words = [buffer.len() as u64];
    save_words(&words, out)?;
    for stored in buffer {
        save_stored(stored, out)?;
    }
    Ok(())
}

/// Appends to the bytes what all stores that wait are saved as.
pub(crate) fn save_buffers(buffers: &[Vec<Stored>], out: &mut Vec<u8>) -> Result<(), AllocError>
    ensures { OnOk result
        (out.new.items ≡ out.old.items ++ buffers_saved (map (λ b. b.items) buffers.now)) }
{
    for buffer in buffers {
        save_buffer(buffer, out)?;
    }
    Ok(())
}

/// The store that waits whose saved form the bytes begin with; what comes after it.
fn read_stored(bytes: &[u8]) -> Option<(Stored, &[u8])>
    ensures some { IfSome result (λ r. bytes.now ≡ stored_saved r.0 ++ r.1.now) }
    ensures savable { IfSome result (λ r. IsSavable r.0) }
    ensures none { IfNone result ((e : Stored) (more : List ℕ) → IsSavable e
        → bytes.now ≡ stored_saved e ++ more → ⊥) }
{
    let mut words = [0; 3];
    let Some(rest) = read_words(&mut words, bytes) else {
        return None;
    };
    match size_of_count(words[1]) {
        Some(size) => {
            let stored = Stored {
                at: words[0],
                size,
                word: words[2],
            };
            Some((stored, rest))
        }
        None => None,
    }
}

/// How many stores wait, which the bytes begin with; what comes after it.
fn read_count(bytes: &[u8]) -> Option<(u64, &[u8])>
    ensures some { IfSome result (λ r. bytes.now ≡ count_saved r.0 ++ r.1.now) }
    ensures word { IfSome result (λ r. IsWord r.0) }
    ensures none { IfNone result ((n : ℕ) (more : List ℕ) → IsWord n
        → bytes.now ≡ count_saved n ++ more → ⊥) }
{
    let mut words = [0; 1];
    match read_words(&mut words, bytes) {
        Some(rest) => Some((words[0], rest)),
        None => None,
    }
}

/// This many stores that wait, whose saved forms the bytes begin with; what comes after them.
fn read_all(
    alloc: Global,
    count: u64,
    bytes: &[u8],
) -> Result<Option<(Vec<Stored>, &[u8])>, AllocError>
    ensures some { IfOk result (λ o. IfSome o
        (λ r. bytes.now ≡ flat_map stored_saved r.0.items ++ r.1.now)) }
    ensures count { IfOk result (λ o. IfSome o (λ r. length r.0.items ≡ count)) }
    ensures savable { IfOk result (λ o. IfSome o (λ r. Each IsSavable r.0.items)) }
    ensures none { IfOk result (λ o. IfNone o ((es : List Stored) (more : List ℕ)
        → length es ≡ count → Each IsSavable es
        → bytes.now ≡ flat_map stored_saved es ++ more → ⊥)) }
{
    let mut rest = bytes;
    let mut found = Vec::new(alloc);
    for _place in 0..count {
        let Some((stored, behind)) = read_stored(rest) else {
            return Ok(None);
        };
        found.push(stored)?;
        rest = behind;
    }
    Ok(Some((found, rest)))
}

/// The stores of a CPU that wait whose saved form the bytes begin with; what comes after it.
fn read_buffer(alloc: Global, bytes: &[u8]) -> Result<Option<(Vec<Stored>, &[u8])>, AllocError>
    ensures some { IfOk result (λ o. IfSome o
        (λ r. bytes.now ≡ buffer_saved r.0.items ++ r.1.now)) }
    ensures savable { IfOk result (λ o. IfSome o (λ r. AreSavable r.0.items)) }
    ensures none { IfOk result (λ o. IfNone o ((es : List Stored) (more : List ℕ)
        → AreSavable es → bytes.now ≡ buffer_saved es ++ more → ⊥)) }
{
    let Some((count, rest)) = read_count(bytes) else {
        return Ok(None);
    };
    read_all(alloc, count, rest)
}

/// By CPU, the stores that wait whose saved form the bytes begin with, and the bytes after that form.
pub(crate) fn read_buffers(
    alloc: Global,
    cpus: u8,
    bytes: &[u8],
) -> Result<Option<(Vec<Vec<Stored>>, &[u8])>, AllocError>
    ensures some { IfOk result (λ o. IfSome o
        (λ r. bytes.now ≡ buffers_saved (map (λ b. b.items) r.0.items) ++ r.1.now)) }
    ensures count { IfOk result (λ o. IfSome o (λ r. length r.0.items ≡ cpus)) }
    ensures savable { IfOk result (λ o. IfSome o
        (λ r. Each AreSavable (map (λ b. b.items) r.0.items))) }
    ensures none { IfOk result (λ o. IfNone o ((others : List (List Stored)) (more : List ℕ)
        → length others ≡ cpus → Each AreSavable others
        → bytes.now ≡ buffers_saved others ++ more → ⊥)) }
{
    let mut rest = bytes;
    let mut found = Vec::new(alloc);
    for _cpu in 0..cpus {
        let Some((buffer, behind)) = read_buffer(alloc, rest)? else {
            return Ok(None);
        };
        found.push(buffer)?;
        rest = behind;
    }
    Ok(Some((found, rest)))
}
