//! Bytes, as a CPU's program may read them.

ghost use Rattle.std.specs.Prelude.{◌≡◌, ◌++◌, true, false, codes, IfSome, IfNone, IfOk, Some, string_bytes};
ghost use Rattle.hex.specs.Hex.{encode_lower};
ghost use Rattle.bpf_mem.specs.Memory.{byte_at};
ghost use Rattle.bpf_debug.specs.Read.{ReachesByte, ReachesNoByte, ReadsByte, ReadsNoByte, ReadsBytes, ReadsNoBytes, TellsBytes};

use bpf_cpu::Cpu;
use bpf_helpers::array_with;
use bpf_mem::PrivateMemory;
use bpf_plain::PlainStore;
use std::alloc::{AllocError, Global};

const UNREADABLE: &str = "unreadable\n";

/// The byte that a CPU's own memory has at an address.
fn own_byte(memory: &PrivateMemory, address: u64) -> Option<u8>
    ensures { result ≡ byte_at memory.now address }
{
    let place = memory.locate_bytes(address, 1)?;
    Some(memory.bytes(place, 1)[0])
}

/// Whether an address is in a value that a CPU's run may reach: one that it holds, or an array's.
fn may_reach(store: &PlainStore, state: &Cpu, address: u64) -> bool
    ensures yes { result ≡ true → ReachesByte store.now state.now address }
    ensures no { result ≡ false → ReachesNoByte store.now state.now address }
{
    if state.held.reaches(address) {
        return true;
    }
    array_with(store, address, 1).is_some()
}

/// The byte at an address: a CPU's own, or one of a value that its run may reach.
pub fn byte(store: &PlainStore, state: &Cpu, address: u64) -> Option<u8>
    ensures read { IfSome result (ReadsByte store.now state.now address) }
    ensures none { IfNone result (ReadsNoByte store.now state.now address) }
{
    if let Some(byte) = own_byte(&state.memory, address) {
        return Some(byte);
    }
    if may_reach(store, state, address) {
        store.peek(address)
    } else {
        None
    }
}

/// The bytes from an address on, this many, where each may be read.
fn bytes(
    alloc: Global,
    store: &PlainStore,
    state: &Cpu,
    address: u64,
    count: usize,
) -> Result<Option<Vec<u8>>, AllocError>
    ensures read { IfOk result (λ found. IfSome found
        (λ v. ReadsBytes store.now state.now address count v.items)) }
    ensures none { IfOk result (λ found. IfNone found
        (ReadsNoBytes store.now state.now address count)) }
{
    if address.checked_add(count as u64).is_none() {
        return Ok(None);
    }
    let mut found = Vec::with_capacity(alloc, count)?;
    for offset in 0..count {
        let Some(byte) = byte(store, state, address + offset as u64) else {
            return Ok(None);
        };
        found.push(byte)?;
    }
    Ok(Some(found))
}

/// Bytes in hex, and a line end.
fn hex_line(alloc: Global, bytes: &[u8]) -> Result<String, AllocError>
    ensures { IfOk result (λ text. string_bytes text ≡ encode_lower bytes.now ++ codes "\n") }
{
    let digits = hex::encode(alloc, bytes)?;
    format!(in alloc; "{digits}\n")
}

fn line_at(
    alloc: Global,
    store: &PlainStore,
    state: &Cpu,
    address: u64,
    count: usize,
) -> Result<String, AllocError>
    ensures { IfOk result
        (λ text. TellsBytes store.now state.now (Some address) count (string_bytes text)) }
{
    match bytes(alloc, store, state, address, count)? {
        Some(found) => hex_line(alloc, &found),
        None => UNREADABLE.to_string(alloc),
    }
}

/// The line of this many bytes from an address on, in hex.
pub fn bytes_line(
    alloc: Global,
    store: &PlainStore,
    state: &Cpu,
    address: Option<u64>,
    count: usize,
) -> Result<String, AllocError>
    ensures { IfOk result
        (λ text. TellsBytes store.now state.now address count (string_bytes text)) }
{
    match address {
        Some(address) => line_at(alloc, store, state, address, count),
        None => UNREADABLE.to_string(alloc),
    }
}
