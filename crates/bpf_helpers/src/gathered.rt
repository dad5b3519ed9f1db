//! The calls of map helpers whose key or value may lie in values, from which bytes are gathered.
//! They have room for the bytes, which the calls of programs that keep both on their stacks don't
//! pay for: so they are out of line.

ghost use Rattle.std.specs.Prelude.{◌≡◌, ◌⊎◌, true, List};
ghost use Rattle.bpf_shared.specs.declared.events.Event.{Event};
ghost use Rattle.bpf_shared.specs.Chain.{Chain};
ghost use Rattle.bpf_shared.specs.Shape.{IsMapShape};
ghost use Rattle.bpf_helpers.specs.Held.{AreHeld, KeepsRun};
ghost use Rattle.bpf_helpers.specs.Calls.{CallsMap, IsMapAt, lookup_number, update_number, delete_number};

use crate::answers::{look_up, number_of_answer};
use crate::fault::HelperFault;
use crate::held::HeldSpans;
use crate::numbers::{MAP_LOOKUP_ELEM, MAP_UPDATE_ELEM};
use crate::reading::{Bytes, find_source, read};
use bpf_mem::PrivateMemory;
use bpf_shared::{MapShape, Shared};

/// Calls the map helper of this number on a map.
#[cold]
#[inline(never)]
pub(crate) fn call_map<S: Shared>(
    number: u32,
    cpu: u8,
    map: u8,
    shape: MapShape,
    registers: &[u64; 11],
    memory: &PrivateMemory,
    held: &mut HeldSpans,
    shared: &mut S,
) -> Result<u64, HelperFault>
    requires number { (number ≡ lookup_number) ⊎ (number ≡ update_number)
        ⊎ (number ≡ delete_number) }
    requires map { IsMapAt (S.shapes shared.old).maps registers.now map shape }
    requires shape { IsMapShape shape }
    requires serves { S.serves shared.old cpu ≡ true }
    requires in_run { S.running shared.old cpu ≡ true }
    requires held { AreHeld (S.held shared.old cpu) held.old }
    ensures call { (events : List Event) × Chain S.passes S.serves cpu shared.old shared.new events
        × CallsMap (S.shapes shared.old) memory.now registers.now held.old map shape number events
        result held.new }
    ensures held { AreHeld (S.held shared.new cpu) held.new }
    ensures keeps { KeepsRun S.shapes S.running S.held cpu shared.old shared.new }
{
    let key_at = registers[2];
    let key_count = shape.key as usize;
    let Some(key_place) = find_source(memory, held, shared, key_at, key_count) else {
        return Err(HelperFault::BadAddress);
    };
    let mut key_room = Bytes::new();
    if number == MAP_UPDATE_ELEM {
        let value_at = registers[3];
        let value_count = shape.value as usize;
        let Some(value_place) = find_source(memory, held, shared, value_at, value_count) else {
            return Err(HelperFault::BadAddress);
        };
        let mut value_room = Bytes::new();
        let key = read(
            cpu,
            memory,
            held,
            shared,
            key_at,
            key_count,
            key_place,
            &mut key_room,
        );
        let value = read(
            cpu,
            memory,
            held,
            shared,
            value_at,
            value_count,
            value_place,
            &mut value_room,
        );
        let answer = shared.update(cpu, map, key, value, registers[4]);
        return Ok(number_of_answer(answer));
    }
    let key = read(
        cpu,
        memory,
        held,
        shared,
        key_at,
        key_count,
        key_place,
        &mut key_room,
    );
    if number == MAP_LOOKUP_ELEM {
        return look_up(cpu, map, key, held, shared);
    }
    let answer = shared.delete(cpu, map, key);
    Ok(number_of_answer(answer))
}
