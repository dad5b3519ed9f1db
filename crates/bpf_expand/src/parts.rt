//! States in parts, by a hash.

ghost use Rattle.std.specs.Prelude.{◌≡◌, ◌<◌, [], fold, IfOk, length, map, replicate};
ghost use Rattle.bpf_machine.specs.Hashes.{mix};
ghost use Rattle.bpf_expand.specs.Parts.{AreParts, part_of};

use crate::records::push_record;
use bpf_base::spread;
use std::alloc::{AllocError, Global};

/// What a call found that read states.
#[derive(Drop)]
pub struct Parted {
    /// The new states, by a hash of each, as they are in files.
    pub parts: Vec<Vec<u8>>,
    /// What each was found by, in the same parts and order.
    pub origins: Vec<Vec<u8>>,
    /// What is printed: reports of states where no CPU has work, and how many states there are.
    pub text: String,
}

/// A hash of a state.
fn hash_of(bytes: &[u8]) -> u64
    ensures { result ≡ fold mix 0 bytes.now }
{
    bytes
        .iter()
        .fold(0, |hash: u64, byte| spread(hash ^ u64::from(*byte)))
}

/// The part of a state among n.
pub(crate) fn part_of(count: usize, bytes: &[u8]) -> usize
    requires { 0 < count }
    ensures within { result < count }
    ensures part { result ≡ part_of count bytes.now }
{
    (hash_of(bytes) >> 32) as usize % count
}

/// Parts of which each is empty.
pub(crate) fn empty_parts(alloc: Global, count: usize) -> Result<Vec<Vec<u8>>, AllocError>
    ensures { IfOk result (λ parts. map (λ v. v.items) parts.items ≡ replicate count []) }
{
    let mut parts = Vec::with_capacity(alloc, count)?;
    for _part in 0..count {
        parts.push(Vec::new(alloc))?;
    }
    Ok(parts)
}

/// States in n parts.
pub(crate) fn into_parts(
    alloc: Global,
    states: &[Vec<u8>],
    count: usize,
) -> Result<Vec<Vec<u8>>, AllocError>
    requires { 0 < count }
    ensures { IfOk result (λ parts. AreParts count (map (λ v. v.items) states.now)
        (map (λ v. v.items) parts.items)) }
{
    let mut parts = empty_parts(alloc, count)?;
    for state in states {
        let part = part_of(count, state);
        push_record(&mut parts[part], state)?;
    }
    Ok(parts)
}
