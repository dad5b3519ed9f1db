//! The helpers on an array, whose values are always there: out of line, so that those on a hash map
//! don't pay for them.

ghost use Rattle.std.specs.Prelude.{◌≡◌, ◌<◌, ◌≤◌, ◌⊎◌, true, false, All, [], nat_lt, if◌then◌else◌, List, None, slice_get, slice_index};
ghost use Rattle.bpf_shared.specs.declared.events.Event.{Event};
ghost use Rattle.bpf_shared.specs.Chain.{Chain};
ghost use Rattle.bpf_shared.specs.Shape.{IsArray, IsArrayShape, IsValueSpan, copies, fixed_span};
ghost use Rattle.bpf_helpers.specs.Arrays.{array_refusal, array_start};
ghost use Rattle.bpf_helpers.specs.Held.{AreHeld, KeepsRun};
ghost use Rattle.bpf_helpers.specs.Calls.{CallsHelper, Copies, DeletesIndex, LooksUpIndex, UpdatesIndex, copy_for, lookup_number, map_value, update_number, delete_number};
ghost use Rattle.bpf_helpers.specs.Private.Source.{IsSource};
ghost use Rattle.bpf_helpers.specs.Private.Target.{IsTarget};

use crate::copying::{copy_own, copy_shared};
use crate::fault::HelperFault;
use crate::held::HeldSpans;
use crate::numbers::{MAP_LOOKUP_ELEM, MAP_UPDATE_ELEM};
use crate::reading::{INDEX_BYTES, Source, find_source, is_odd, own_bytes, read_index};
use bpf_base::bytes::load_word;
use bpf_mem::PrivateMemory;
use bpf_shared::{ArrayShape, FIRST_ARRAY, Shared};

/// Whose values the CPU uses: its own if each has its own, else those of all.
#[inline]
fn copy_for<S: Shared>(cpu: u8, array: ArrayShape, shared: &S) -> u8
    requires { S.serves shared.now cpu ≡ true }
    ensures copy { result ≡ copy_for cpu array }
    ensures there { result < copies (S.shapes shared.now).cpus array }
    ensures few { result < 16 }
{
    let _more = shared.cpus();
    if array.per_cpu { cpu } else { 0 }
}

/// The address of the value of an index, of this CPU if each has its own.
#[inline]
fn address_of<S: Shared>(cpu: u8, number: u8, array: ArrayShape, index: u64, shared: &S) -> u64
    requires serves { S.serves shared.now cpu ≡ true }
    requires array { IsArray (S.shapes shared.now).arrays number array }
    requires few { number < 16 }
    requires sized { IsArrayShape (S.shapes shared.now).cpus array }
    requires index { index < array.max }
    ensures address { result ≡ (fixed_span number array (copy_for cpu array) index).at }
    ensures target { array.frozen ≡ false → IsTarget (S.shapes shared.now) result array.value }
    ensures low { result < array_start 16 }
{
    let _few = shared.cpus();
    array.address(number, copy_for(cpu, array, shared), index)
}

/// What a lookup of an index answers: the address of its value, or 0.
#[inline]
fn answer_for<S: Shared>(cpu: u8, number: u8, array: ArrayShape, index: u64, shared: &S) -> u64
    requires serves { S.serves shared.now cpu ≡ true }
    requires array { IsArray (S.shapes shared.now).arrays number array }
    requires few { number < 16 }
    requires sized { IsArrayShape (S.shapes shared.now).cpus array }
    ensures { result ≡ (if nat_lt index array.max
        then (fixed_span number array (copy_for cpu array) index).at else 0) }
{
    if index < array.max {
        address_of(cpu, number, array, index, shared)
    } else {
        0
    }
}

/// Why an update copies nothing: its answer.
fn refusal(array: ArrayShape, index: u64, flags: u64) -> Option<u64>
    ensures { result ≡ array_refusal array index flags }
{
    if flags > 2 {
        Some(u64::MAX - 21)
    } else if array.frozen {
        Some(u64::MAX)
    } else if index >= array.max {
        Some(u64::MAX - 6)
    } else if flags == 1 {
        Some(u64::MAX - 16)
    } else {
        None
    }
}

/// Looks up the index that lies at R2.
#[inline]
fn look_up_index<S: Shared>(
    cpu: u8,
    number: u8,
    array: ArrayShape,
    registers: &[u64; 11],
    memory: &PrivateMemory,
    held: &HeldSpans,
    shared: &mut S,
) -> Result<u64, HelperFault>
    requires serves { S.serves shared.old cpu ≡ true }
    requires in_run { S.running shared.old cpu ≡ true }
    requires held { AreHeld (S.held shared.old cpu) held.now }
    requires array { IsArray (S.shapes shared.old).arrays number array }
    requires few { number < 16 }
    requires sized { IsArrayShape (S.shapes shared.old).cpus array }
    ensures call { (events : List Event) × Chain S.passes S.serves cpu shared.old shared.new events
        × LooksUpIndex (S.shapes shared.old) memory.now registers.now held.now cpu number array
        events result held.now }
    ensures held { S.held shared.new ≡ S.held shared.old }
    ensures running { S.running shared.new ≡ S.running shared.old }
    ensures shapes { S.shapes shared.new ≡ S.shapes shared.old }
{
    let at = registers[2];
    if let Some(key) = own_bytes(memory, at, INDEX_BYTES) {
        let index = u64::from(load_word(key, 0));
        return Ok(answer_for(cpu, number, array, index, shared));
    }
    let Some(source) = find_source(memory, held, shared, at, INDEX_BYTES) else {
        return Err(HelperFault::BadAddress);
    };
    if is_odd(source, at) {
        return Err(HelperFault::Misaligned);
    }
    let index = read_index(cpu, memory, held, shared, at, source);
    Ok(answer_for(cpu, number, array, index, shared))
}

/// Copies the bytes that lie there to a value of an array.
fn copy_value<S: Shared>(
    cpu: u8,
    memory: &PrivateMemory,
    held: &HeldSpans,
    shared: &mut S,
    from: u64,
    count: usize,
    source: Source,
    to: u64,
)
    requires serves { S.serves shared.old cpu ≡ true }
    requires in_run { S.running shared.old cpu ≡ true }
    requires held { AreHeld (S.held shared.old cpu) held.now }
    requires source { IsSource (S.shapes shared.old) memory.now held.now from count source }
    requires target { IsTarget (S.shapes shared.old) to count }
    requires few { count ≤ 65536 }
    requires low { to < array_start 16 }
    ensures copied { (events : List Event) × Chain S.passes S.serves cpu shared.old shared.new events
        × Copies memory.now from to count events }
    ensures held { S.held shared.new ≡ S.held shared.old }
    ensures running { S.running shared.new ≡ S.running shared.old }
    ensures shapes { S.shapes shared.new ≡ S.shapes shared.old }
{
    match source {
        Source::Private(place) => copy_own(cpu, memory.bytes(place, count), to, shared),
        Source::Shared => copy_shared(cpu, held, from, count, to, shared),
    }
}

/// Copies the value at R3 to the index that lies at R2, where it may.
#[inline(never)]
fn update_index<S: Shared>(
    cpu: u8,
    number: u8,
    array: ArrayShape,
    registers: &[u64; 11],
    memory: &PrivateMemory,
    held: &HeldSpans,
    shared: &mut S,
) -> Result<u64, HelperFault>
    requires serves { S.serves shared.old cpu ≡ true }
    requires in_run { S.running shared.old cpu ≡ true }
    requires held { AreHeld (S.held shared.old cpu) held.now }
    requires array { IsArray (S.shapes shared.old).arrays number array }
    requires few { number < 16 }
    requires sized { IsArrayShape (S.shapes shared.old).cpus array }
    ensures call { (events : List Event) × Chain S.passes S.serves cpu shared.old shared.new events
        × UpdatesIndex (S.shapes shared.old) memory.now registers.now held.now cpu number array
        events result held.now }
    ensures held { S.held shared.new ≡ S.held shared.old }
    ensures running { S.running shared.new ≡ S.running shared.old }
    ensures shapes { S.shapes shared.new ≡ S.shapes shared.old }
{
    let key_at = registers[2];
    let value_at = registers[3];
    let count = array.value as usize;
    let Some(key) = find_source(memory, held, shared, key_at, INDEX_BYTES) else {
        return Err(HelperFault::BadAddress);
    };
    let Some(value) = find_source(memory, held, shared, value_at, count) else {
        return Err(HelperFault::BadAddress);
    };
    if is_odd(key, key_at) {
        return Err(HelperFault::Misaligned);
    }
    let index = read_index(cpu, memory, held, shared, key_at, key);
    if let Some(answer) = refusal(array, index, registers[4]) {
        return Ok(answer);
    }
    let to = address_of(cpu, number, array, index, shared);
    copy_value(cpu, memory, held, shared, value_at, count, value, to);
    Ok(0)
}

/// Answers that no index leaves an array.
fn delete_index<S: Shared>(
    registers: &[u64; 11],
    memory: &PrivateMemory,
    held: &HeldSpans,
    shared: &S,
) -> Result<u64, HelperFault>
    requires { All IsValueSpan held.now }
    ensures { DeletesIndex (S.shapes shared.now) memory.now registers.now held.now [] result
        held.now }
{
    let at = registers[2];
    let Some(source) = find_source(memory, held, shared, at, INDEX_BYTES) else {
        return Err(HelperFault::BadAddress);
    };
    if is_odd(source, at) {
        return Err(HelperFault::Misaligned);
    }
    Ok(u64::MAX - 21)
}

/// Calls the map helper of this number on what is no hash map: an array, or no map at all.
#[cold]
#[inline(never)]
pub(crate) fn call_array<S: Shared>(
    number: u32,
    cpu: u8,
    map: u64,
    registers: &[u64; 11],
    memory: &PrivateMemory,
    held: &HeldSpans,
    shared: &mut S,
) -> Result<u64, HelperFault>
    requires number { (number ≡ lookup_number) ⊎ (number ≡ update_number)
        ⊎ (number ≡ delete_number) }
    requires map { slice_index registers.now 1 ≡ map_value map }
    requires other { slice_get (S.shapes shared.old).maps map ≡ None }
    requires serves { S.serves shared.old cpu ≡ true }
    requires in_run { S.running shared.old cpu ≡ true }
    requires held { AreHeld (S.held shared.old cpu) held.now }
    ensures call { (events : List Event) × Chain S.passes S.serves cpu shared.old shared.new events
        × CallsHelper (S.shapes shared.old) number cpu registers.now memory.now held.now events
        result held.now }
    ensures held { S.held shared.new ≡ S.held shared.old }
    ensures keeps { KeepsRun S.shapes S.running S.held cpu shared.old shared.new }
{
    let Some(area) = map.checked_sub(FIRST_ARRAY) else {
        return Err(HelperFault::NotAMap);
    };
    let Some(array) = shared.array(area) else {
        return Err(HelperFault::NotAMap);
    };
    let area = area as u8;
    match number {
        MAP_LOOKUP_ELEM => look_up_index(cpu, area, array, registers, memory, held, shared),
        MAP_UPDATE_ELEM => update_index(cpu, area, array, registers, memory, held, shared),
        _ => delete_index(registers, memory, held, shared),
    }
}
