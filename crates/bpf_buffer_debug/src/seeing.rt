//! What a CPU sees: memory after its own waiting stores.

ghost use Rattle.std.specs.Prelude.{◌≡◌, [], IfNone, IfOk, IfSome, map, string_bytes};
ghost use Rattle.bpf_names.specs.Names.{names_of};
ghost use Rattle.bpf_plain.specs.Alike.{IsSameShape};
ghost use Rattle.bpf_machine.specs.Hands.{IsFree};
ghost use Rattle.bpf_debug.specs.Private.Room.{HasRoom};
ghost use Rattle.bpf_buffer_debug.specs.Seeing.{TellsSeenHeld, TellsSeenLines, TellsSeenMemory};

use crate::lines::off_line;
use bpf_buffering::Buffering;
use bpf_debug::held::held_lines;
use bpf_debug::reading::bytes_line;
use bpf_debug::show::{Shown, shown_of};
use bpf_machine::Standing;
use bpf_names::Names;
use bpf_plain::PlainStore;
use std::alloc::{AllocError, Global};

/// This many bytes from an address on, as a CPU's program sees them, or where the CPU is, if it has no
/// job in hand.
pub(crate) fn memory_line(
    alloc: Global,
    machine: &Buffering,
    seen: &mut PlainStore,
    cpu: u8,
    address: Option<u64>,
    count: usize,
) -> Result<String, AllocError>
    requires { IsSameShape machine.now.machine.store seen.old }
    ensures told { IfOk result
        (λ text. TellsSeenMemory machine.now cpu address count (string_bytes text)) }
    ensures shape { IsSameShape machine.now.machine.store seen.new }
{
    machine.see(cpu, seen);
    match machine.standing(cpu) {
        Standing::InHand(_, state) => bytes_line(alloc, seen, state, address, count),
        Standing::Waiting(_) => off_line(alloc, machine, cpu),
        Standing::Idle => off_line(alloc, machine, cpu),
    }
}

/// The values that a CPU's run holds, as its program sees them, or where the CPU is, if it has no job
/// in hand.
pub(crate) fn held_text(
    alloc: Global,
    machine: &Buffering,
    seen: &mut PlainStore,
    cpu: u8,
    names: &[String],
) -> Result<String, AllocError>
    requires { IsSameShape machine.now.machine.store seen.old }
    ensures told { IfOk result
        (λ text. TellsSeenHeld (map string_bytes names.now) machine.now cpu (string_bytes text)) }
    ensures shape { IsSameShape machine.now.machine.store seen.new }
{
    machine.see(cpu, seen);
    match machine.standing(cpu) {
        Standing::InHand(_, state) => held_lines(alloc, seen, state, names),
        Standing::Waiting(_) => off_line(alloc, machine, cpu),
        Standing::Idle => off_line(alloc, machine, cpu),
    }
}

/// The registers of a CPU that has a job in hand, with their lines, of memory as its program sees it.
pub(crate) fn shown_lines(
    alloc: Global,
    machine: &Buffering,
    seen: &mut PlainStore,
    cpu: u8,
    names: &Names,
) -> Result<Option<Shown>, AllocError>
    requires { IsSameShape machine.now.machine.store seen.old }
    ensures lines { IfOk result (λ found. IfSome found
        (TellsSeenLines (names_of names.now) machine.now cpu)) }
    ensures empty { IfOk result (λ found. IfSome found (λ shown. string_bytes shown.room ≡ [])) }
    ensures room { IfOk result (λ found. IfSome found HasRoom) }
    ensures free { IfOk result (λ found. IfNone found (IsFree machine.now.machine.jobs cpu)) }
    ensures shape { IsSameShape machine.now.machine.store seen.new }
{
    machine.see(cpu, seen);
    match machine.standing(cpu) {
        Standing::InHand(_, state) => {
            let shown = shown_of(alloc, seen, names, state)?;
            Ok(Some(shown))
        }
        Standing::Waiting(_) => Ok(None),
        Standing::Idle => Ok(None),
    }
}
