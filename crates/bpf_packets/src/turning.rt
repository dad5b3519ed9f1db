//! Turns that are made after what their CPUs have in packets is kept.

ghost use Rattle.std.specs.Prelude.{◌≡◌, ℕ, false, IfOk, OnOk, replicate};
ghost use Rattle.bpf_machine.specs.Machine.{Shows};
ghost use Rattle.bpf_machine.specs.Rounds.{below, HaveEnded};
ghost use Rattle.bpf_machine.specs.Schedule.{World, unrolled};
ghost use Rattle.bpf_shared.specs.Contents.{bytes_of_all};
ghost use Rattle.bpf_packets.specs.Private.{ARound, AreKept, OneTurn, SomeRounds, Turns};

use crate::keeping::keep_packet;
use bpf_machine::{Machine, Turn};
use std::alloc::{AllocError, Global};

/// Makes one turn of a CPU, and keeps before it the packet of the job that the CPU has in hand.
fn make_turn(machine: &mut Machine, packets: &mut [Vec<u8>], cpu: u8) -> Result<Turn, AllocError>
    ensures kept { IfOk result (λ answer. AreKept (OneTurn cpu answer)
        machine.old (bytes_of_all packets.old) machine.new (bytes_of_all packets.new)) }
    ensures idle { IfOk result (λ answer. answer ≡ Turn.Idle → machine.new ≡ machine.old) }
{
    keep_packet(machine, cpu, packets)?;
    Ok(machine.turn(cpu))
}

/// Turns of a CPU, as many as are given with it. Those after an idle one are idle too, and aren't
/// made.
fn make_run(
    machine: &mut Machine,
    packets: &mut [Vec<u8>],
    run: (u8, u64),
) -> Result<(), AllocError>
    ensures { OnOk result (AreKept (Turns (replicate run.1 run.0))
        machine.old (bytes_of_all packets.old) machine.new (bytes_of_all packets.new)) }
{
    let (cpu, turns) = run;
    for _ in 0..turns {
        if let Turn::Idle = make_turn(machine, packets, cpu)? {
            break;
        }
    }
    Ok(())
}

/// The turns of a schedule: CPUs, each with how many turns it takes before the next.
pub(crate) fn make_turns(
    machine: &mut Machine,
    packets: &mut [Vec<u8>],
    schedule: &[(u8, u64)],
) -> Result<(), AllocError>
    ensures { OnOk result (AreKept (Turns (unrolled schedule.now))
        machine.old (bytes_of_all packets.old) machine.new (bytes_of_all packets.new)) }
{
    for (cpu, turns) in schedule {
        make_run(machine, packets, (*cpu, *turns))?;
    }
    Ok(())
}

/// Whether some turn had work, with one more that came to this.
fn has_worked(worked: bool, answer: Turn) -> bool
    ensures { result ≡ false → (worked ≡ false) × (answer ≡ Turn.Idle) }
{
    match answer {
        Turn::Idle => worked,
        Turn::Ran | Turn::Ended(_, _) => true,
    }
}

/// One round: each CPU with work makes one turn, in rising order. Whether any had work.
fn make_round(machine: &mut Machine, packets: &mut [Vec<u8>]) -> Result<bool, AllocError>
    ensures kept { OnOk result (AreKept ARound
        machine.old (bytes_of_all packets.old) machine.new (bytes_of_all packets.new)) }
    ensures ended { IfOk result (λ worked. worked ≡ false → ((w : World) × Shows machine.old w)
        → HaveEnded machine.new.jobs) }
{
    machine.stands();
    let mut worked = false;
    for cpu in 0..machine.cpus() {
        let answer = make_turn(machine, packets, cpu)?;
        worked = has_worked(worked, answer);
    }
    Ok(worked)
}

/// Rounds until no CPU has work.
pub(crate) fn make_rounds(machine: &mut Machine, packets: &mut [Vec<u8>]) -> Result<(), AllocError>
    requires { (w : World) × Shows machine.old w }
    ensures kept { OnOk result (AreKept SomeRounds
        machine.old (bytes_of_all packets.old) machine.new (bytes_of_all packets.new)) }
    ensures ended { OnOk result (HaveEnded machine.new.jobs) }
{
    for _ in 0..u64::MAX {
        let worked = make_round(machine, packets)?;
        if !worked {
            return Ok(());
        }
    }
    // Each round makes a step, and no jobs have budgets for this many.
    Err(AllocError)
}
