//! How keys and values are read, from a CPU's own memory and from values.

ghost use Rattle.std.specs.Prelude.{◌≡◌, ◌≤◌, ◌<◌, ◌⊎◌, ◌↔◌, true, All, List, length, is_some, Some, IfSome, IfNone, IsTrue};
ghost use Rattle.bpf_mem.specs.Memory.{bytes_at};
ghost use Rattle.bpf_mem.specs.Place.{address_of, IsWithin};
ghost use Rattle.bpf_shared.specs.declared.events.Event.{Event};
ghost use Rattle.bpf_shared.specs.Chain.{Chain};
ghost use Rattle.bpf_shared.specs.Shape.{IsValueSpan};
ghost use Rattle.bpf_helpers.specs.Arrays.{IsInArray, array_start};
ghost use Rattle.bpf_helpers.specs.Held.{AreHeld, reaches};
ghost use Rattle.bpf_helpers.specs.Reads.{AreReached, IsReadable, Reads, ReadsIndex, loads};
ghost use Rattle.bpf_helpers.specs.Private.Source.{IsOdd, IsSource};

use crate::arrays::is_in_array;
use crate::held::HeldSpans;
use arrayvec::ArrayVec;
use bpf_base::bytes::load_word;
use bpf_mem::packet::MAX_PACKET;
use bpf_mem::{Place, PrivateMemory};
use bpf_shared::{Shared, Size, ValuePlace};

/// How many bytes a key or a value of a hash map has at most.
pub(crate) const MAX_BYTES: usize = 256;

/// How many bytes a key of an array has.
pub(crate) const INDEX_BYTES: usize = 4;

/// The bytes of a key or a value.
pub(crate) type Bytes = ArrayVec<u8, MAX_BYTES>;

/// Where the bytes of a key or a value lie: in the CPU's own memory, or in values.
#[derive(Clone, Copy)]
pub(crate) enum Source {
    Private(Place),
    Shared,
}

/// The bytes from an address on, where they are the CPU's own.
#[inline]
pub(crate) fn own_bytes(memory: &PrivateMemory, at: u64, count: usize) -> Option<&[u8]>
    requires some { 1 ≤ count }
    requires bounded { count ≤ 256 }
    ensures own { IfSome result (λ b. bytes_at memory.now at count ≡ Some b.now) }
    ensures count { IfSome result (λ b. length b.now ≡ count) }
{
    let place = memory.locate_bytes(at, count)?;
    Some(memory.bytes(place, count))
}

/// Where some bytes from an address on lie in the CPU's own memory, none of whose parts is longer
/// than a packet.
fn locate_own(memory: &PrivateMemory, at: u64, count: usize) -> Option<Place>
    requires { 1 ≤ count }
    ensures found { is_some result ≡ is_some (bytes_at memory.now at count) }
    ensures address { IfSome result (λ p. address_of p ≡ at) }
    ensures within { IfSome result (λ p. IsWithin memory.now p count) }
{
    if count > MAX_PACKET {
        let _frames = memory.frames.depth();
        let _context = memory.context.bytes();
        let _packet = memory.packet.bytes();
        return None;
    }
    memory.locate_bytes(at, count)
}

/// Whether the byte at an address is in a value that is held, or in an array's.
fn is_reached<S: Shared>(held: &HeldSpans, shared: &S, at: u64) -> bool
    requires { All IsValueSpan held.now }
    ensures is { IsTrue result
        ↔ ((reaches held.now at ≡ true) ⊎ IsInArray (S.shapes shared.now) at 1) }
    ensures low { result ≡ true → at < array_start 16 }
{
    if held.reaches(at) {
        true
    } else {
        is_in_array(shared, at, 1)
    }
}

/// Whether each of some bytes from an address on is.
fn are_reached<S: Shared>(held: &HeldSpans, shared: &S, at: u64, count: usize) -> bool
    requires some { 1 ≤ count }
    requires bounded { count ≤ 65536 }
    requires values { All IsValueSpan held.now }
    ensures are { IsTrue result ↔ AreReached (S.shapes shared.now) held.now at count }
    ensures low { result ≡ true → at < array_start 16 }
{
    if held.covers(at, count as u64) {
        return true;
    }
    if is_in_array(shared, at, count as u64) {
        return true;
    }
    for k in 0..count {
        if !is_reached(held, shared, at + k as u64) {
            return false;
        }
    }
    true
}

/// Where some bytes from an address on lie; `None` where one of them can't be read.
pub(crate) fn find_source<S: Shared>(
    memory: &PrivateMemory,
    held: &HeldSpans,
    shared: &S,
    at: u64,
    count: usize,
) -> Option<Source>
    requires some { 1 ≤ count }
    requires bounded { count ≤ 65536 }
    requires values { All IsValueSpan held.now }
    ensures found { IfSome result (IsSource (S.shapes shared.now) memory.now held.now at count) }
    ensures missing { IfNone result
        (¬ IsReadable (S.shapes shared.now) memory.now held.now at count) }
{
    if let Some(place) = locate_own(memory, at, count) {
        return Some(Source::Private(place));
    }
    if are_reached(held, shared, at, count) {
        Some(Source::Shared)
    } else {
        None
    }
}

/// Loads bytes of values one by one.
pub(crate) fn gather<S: Shared>(
    cpu: u8,
    held: &HeldSpans,
    shared: &mut S,
    at: u64,
    count: usize,
) -> Bytes
    requires serves { S.serves shared.old cpu ≡ true }
    requires in_run { S.running shared.old cpu ≡ true }
    requires held { AreHeld (S.held shared.old cpu) held.now }
    requires reached { AreReached (S.shapes shared.old) held.now at count }
    requires bounded { count ≤ 256 }
    requires low { at < array_start 17 }
    ensures bytes { length result.items ≡ count }
    ensures chain { Chain S.passes S.serves cpu shared.old shared.new (loads at result.items) }
    ensures held { S.held shared.new ≡ S.held shared.old }
    ensures running { S.running shared.new ≡ S.running shared.old }
    ensures shapes { S.shapes shared.new ≡ S.shapes shared.old }
{
    let mut bytes = Bytes::new();
    for k in 0..count {
        let at = ValuePlace { at: at + k as u64 };
        let byte = shared.value_load(cpu, at, Size::Byte);
        bytes.push(byte as u8);
    }
    bytes
}

/// The bytes that lie there. Those of values are gathered in a room.
pub(crate) fn read<'a, S: Shared>(
    cpu: u8,
    memory: &'a PrivateMemory,
    held: &HeldSpans,
    shared: &mut S,
    at: u64,
    count: usize,
    source: Source,
    room: &'a mut Bytes,
) -> &'a [u8]
    requires serves { S.serves shared.old cpu ≡ true }
    requires in_run { S.running shared.old cpu ≡ true }
    requires held { AreHeld (S.held shared.old cpu) held.now }
    requires source { IsSource (S.shapes shared.old) memory.now held.now at count source }
    requires bounded { count ≤ 256 }
    ensures bytes { length result.now ≡ count }
    ensures read { (events : List Event)
        × Reads (S.shapes shared.old) memory.now held.now at count result.now events
        × Chain S.passes S.serves cpu shared.old shared.new events }
    ensures held { S.held shared.new ≡ S.held shared.old }
    ensures running { S.running shared.new ≡ S.running shared.old }
    ensures shapes { S.shapes shared.new ≡ S.shapes shared.old }
{
    match source {
        Source::Private(place) => memory.bytes(place, count),
        Source::Shared => {
            *room = gather(cpu, held, shared, at, count);
            room.as_slice()
        }
    }
}

/// Whether a key of an array can't be loaded at once, since its address is no multiple of four.
#[inline]
pub(crate) fn is_odd(source: Source, at: u64) -> bool
    ensures { IsTrue result ↔ IsOdd source at }
{
    match source {
        Source::Private(_) => false,
        Source::Shared => at % 4 != 0,
    }
}

/// The index that a key of an array is, loaded at once where it lies in values.
#[inline]
pub(crate) fn read_index<S: Shared>(
    cpu: u8,
    memory: &PrivateMemory,
    held: &HeldSpans,
    shared: &mut S,
    at: u64,
    source: Source,
) -> u64
    requires serves { S.serves shared.old cpu ≡ true }
    requires in_run { S.running shared.old cpu ≡ true }
    requires held { AreHeld (S.held shared.old cpu) held.now }
    requires source { IsSource (S.shapes shared.old) memory.now held.now at 4 source }
    requires even { ¬ IsOdd source at }
    ensures read { (events : List Event)
        × ReadsIndex (S.shapes shared.old) memory.now held.now at result events
        × Chain S.passes S.serves cpu shared.old shared.new events }
    ensures held { S.held shared.new ≡ S.held shared.old }
    ensures running { S.running shared.new ≡ S.running shared.old }
    ensures shapes { S.shapes shared.new ≡ S.shapes shared.old }
{
    match source {
        Source::Private(place) => u64::from(load_word(memory.bytes(place, INDEX_BYTES), 0)),
        Source::Shared => {
            held.are_aligned();
            shared.value_load(cpu, ValuePlace { at }, Size::Word)
        }
    }
}
