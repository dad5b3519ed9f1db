//! The helpers.

ghost use Rattle.std.specs.Prelude.{◌≡◌, true, List};
ghost use Rattle.bpf_shared.specs.declared.events.Event.{Event};
ghost use Rattle.bpf_shared.specs.Chain.{Chain};
ghost use Rattle.bpf_helpers.specs.Held.{AreHeld, KeepsRun};
ghost use Rattle.bpf_helpers.specs.Calls.{CallsHelper, IsHelperNumber};

use crate::answers::{look_up, number_of_answer};
use crate::fault::HelperFault;
use crate::gathered::call_map;
use crate::held::HeldSpans;
use crate::indexed::call_array;
pub use crate::numbers::{
    GET_SMP_PROCESSOR_ID, MAP_DELETE_ELEM, MAP_LOOKUP_ELEM, MAP_UPDATE_ELEM, MAPS, SPIN_LOCK,
    SPIN_UNLOCK,
};
use crate::reading::own_bytes;
use bpf_mem::PrivateMemory;
use bpf_shared::Shared;

/// Calls the helper of this number on a CPU: its result, for R0. R1 to R5 have the arguments; the
/// caller clears them. Its own memory is only read.
pub fn call<S: Shared>(
    number: u32,
    cpu: u8,
    registers: &[u64; 11],
    memory: &PrivateMemory,
    held: &mut HeldSpans,
    shared: &mut S,
) -> Result<u64, HelperFault>
    requires number { IsHelperNumber number }
    requires serves { S.serves shared.old cpu ≡ true }
    requires in_run { S.running shared.old cpu ≡ true }
    requires held { AreHeld (S.held shared.old cpu) held.old }
    ensures call { (events : List Event) × Chain S.passes S.serves cpu shared.old shared.new events
        × CallsHelper (S.shapes shared.old) number cpu registers.now memory.now held.old events
        result held.new }
    ensures held { AreHeld (S.held shared.new cpu) held.new }
    ensures keeps { KeepsRun S.shapes S.running S.held cpu shared.old shared.new }
{
    if number == GET_SMP_PROCESSOR_ID {
        return Ok(u64::from(cpu));
    }
    let Some(map) = registers[1].checked_sub(MAPS) else {
        return Err(HelperFault::NotAMap);
    };
    let Some(shape) = shared.shape(map) else {
        return call_array(number, cpu, map, registers, memory, held, shared);
    };
    let map = map as u8;
    let Some(key) = own_bytes(memory, registers[2], shape.key as usize) else {
        return call_map(number, cpu, map, shape, registers, memory, held, shared);
    };
    match number {
        MAP_LOOKUP_ELEM => look_up(cpu, map, key, held, shared),
        MAP_UPDATE_ELEM => {
            let Some(value) = own_bytes(memory, registers[3], shape.value as usize) else {
                return call_map(number, cpu, map, shape, registers, memory, held, shared);
            };
            let answer = shared.update(cpu, map, key, value, registers[4]);
            Ok(number_of_answer(answer))
        }
        _ => {
            let answer = shared.delete(cpu, map, key);
            Ok(number_of_answer(answer))
        }
    }
}
