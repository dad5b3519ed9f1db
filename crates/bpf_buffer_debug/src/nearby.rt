//! The instructions near a CPU's pc.

ghost use Rattle.std.specs.Prelude.{IfOk, ℕ, string_bytes};
ghost use Rattle.bpf_cpu.specs.Task.{InHand, Task};
ghost use Rattle.bpf_machine.specs.Hands.{IsAt};
ghost use Rattle.bpf_debug.specs.Nearby.{IsNearbyText};

use crate::lines::off_line;
use bpf_buffering::Buffering;
use bpf_cpu::Cpu;
use bpf_debug::nearby::program_lines;
use bpf_machine::Standing;
use std::alloc::{AllocError, Global};

/// The lines near the pc of a CPU that has a job in hand.
fn lines_in_hand(
    alloc: Global,
    machine: &Buffering,
    cpu: u8,
    job: usize,
    state: &Cpu,
) -> Result<String, AllocError>
    requires { (task : Task) × (left : ℕ)
        × IsAt machine.now.machine.jobs cpu job task (InHand state.now left) }
    ensures { IfOk result (λ text. IsNearbyText machine.now.machine.programs
        machine.now.machine.jobs cpu (string_bytes text)) }
{
    let _ = cpu;
    machine.stands();
    let listed = machine.copy_of(alloc, job)?;
    program_lines(alloc, &machine.programs()[listed.program], state.pc)
}

/// The lines near the pc of a CPU, or where it is, if it has no job in hand.
pub(crate) fn nearby_lines(
    alloc: Global,
    machine: &Buffering,
    cpu: u8,
) -> Result<String, AllocError>
    ensures { IfOk result (λ text. IsNearbyText machine.now.machine.programs
        machine.now.machine.jobs cpu (string_bytes text)) }
{
    match machine.standing(cpu) {
        Standing::InHand(job, state) => lines_in_hand(alloc, machine, cpu, job, state),
        Standing::Waiting(_) => off_line(alloc, machine, cpu),
        Standing::Idle => off_line(alloc, machine, cpu),
    }
}
