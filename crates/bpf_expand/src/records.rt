//! States in files.

ghost use Rattle.std.specs.Prelude.{◌≡◌, ◌++◌, ◌<◌, ◌^◌, ℕ, List, IfNone, IfOk, IfSome, OnOk, length, map};
ghost use Rattle.bpf_expand.specs.Parts.{AreShort, record_of, records_of};

use std::alloc::{AllocError, Global};

/// Appends a state as it is in a file.
pub(crate) fn push_record(part: &mut Vec<u8>, bytes: &[u8]) -> Result<(), AllocError>
    ensures { OnOk result (part.new.items ≡ part.old.items ++ record_of bytes.now) }
{
    let count = u32::try_from(bytes.len()).map_err(|_| AllocError)?;
    part.extend_from_slice(&count.to_le_bytes())?;
    part.extend_from_slice(bytes)
}

/// The first state of some bytes, and the bytes after it. `None` where they don't begin with one.
fn split(bytes: &[u8]) -> Option<(&[u8], &[u8])>
    ensures some { IfSome result (λ r. bytes.now ≡ record_of r.0.now ++ r.1.now) }
    ensures short { IfSome result (λ r. length r.0.now < 2 ^ 32) }
    ensures none { IfNone result ((state rest : List ℕ) → length state < 2 ^ 32
        → bytes.now ≡ record_of state ++ rest → ⊥) }
{
    let [a, b, c, d, after @ ..] = bytes else {
        return None;
    };
    let count = u32::from_le_bytes([*a, *b, *c, *d]) as usize;
    if after.len() < count {
        return None;
    }
    Some((&after[..count], &after[count..]))
}

/// The states of a file; `None` where its bytes are cut off.
pub fn states_in(alloc: Global, bytes: &[u8]) -> Result<Option<Vec<Vec<u8>>>, AllocError>
    ensures some { IfOk result (λ o. IfSome o
        (λ states. bytes.now ≡ records_of (map (λ v. v.items) states.items))) }
    ensures none { IfOk result (λ o. IfNone o
        ((states : List (List ℕ)) → AreShort states → bytes.now ≡ records_of states → ⊥)) }
{
    let mut states = Vec::new(alloc);
    let mut rest = bytes;
    for _turn in 0..bytes.len() {
        if rest.is_empty() {
            break;
        }
        let Some((state, after)) = split(rest) else {
            return Ok(None);
        };
        let state = Vec::from_slice(alloc, state)?;
        states.push(state)?;
        rest = after;
    }
    Ok(Some(states))
}
