//! Moves: turns of CPUs, and flushes of their buffers.

ghost use Rattle.std.specs.Prelude.{◌≡◌, ◌<◌, [], ◌∷◌, ℕ, true, false, IfOk, OnOk, map, replicate};
ghost use Rattle.bpf_machine.specs.Hands.{IsFree, NoneWaits};
ghost use Rattle.bpf_machine.specs.Questions.{turns_left};
ghost use Rattle.bpf_machine.specs.Schedule.{unrolled};
ghost use Rattle.bpf_x86.specs.Machine.{X86, TurnOf, FlushOf};
ghost use Rattle.bpf_buffering.specs.Search.{ShowsX86, move_of};
ghost use Rattle.bpf_flushes.specs.Moves.{IdlesAt, MakesTo};

use bpf_buffering::Buffering;
use bpf_machine::Turn;
use bpf_schedule::FLUSH;
use std::alloc::AllocError;

/// A CPU's turn. Whether it had work.
pub(crate) fn take_turn(machine: &mut Buffering, cpu: u8) -> Result<bool, AllocError>
    ensures makes { OnOk result (MakesTo machine.old (TurnOf cpu ∷ []) machine.new) }
    ensures idle { IfOk result (λ worked. worked ≡ false → IdlesAt machine.old cpu machine.new) }
    ensures falls { IfOk result (λ worked. worked ≡ true → (x : X86) → ShowsX86 machine.old x
        → turns_left machine.new.machine.jobs < turns_left machine.old.machine.jobs) }
{
    match machine.turn(cpu)? {
        Turn::Idle => Ok(false),
        Turn::Ran | Turn::Ended(_, _) => Ok(true),
    }
}

/// The flush of a CPU's buffer, which changes nothing where nothing waits. Whether something did.
pub(crate) fn flush(machine: &mut Buffering, cpu: u8) -> bool
    ensures makes { MakesTo machine.old (FlushOf cpu ∷ []) machine.new }
    ensures idle { result ≡ false → (n : ℕ)
        → MakesTo machine.old (replicate n (FlushOf cpu)) machine.new }
    ensures jobs { (x : X86) → ShowsX86 machine.old x
        → machine.new.machine.jobs ≡ machine.old.machine.jobs }
{
    machine.flush(cpu)
}

/// A move. Whether another like it may change anything.
fn make_move(machine: &mut Buffering, made: u8) -> Result<bool, AllocError>
    ensures makes { OnOk result (MakesTo machine.old (move_of made ∷ []) machine.new) }
    ensures idle { IfOk result (λ changes. changes ≡ false → (n : ℕ)
        → MakesTo machine.old (replicate n (move_of made)) machine.new) }
{
    if made < FLUSH {
        take_turn(machine, made)
    } else {
        Ok(flush(machine, made - FLUSH))
    }
}

/// This many moves of one kind. Those after one that changes nothing change nothing, and aren't made.
fn repeat(machine: &mut Buffering, made: u8, count: u64) -> Result<(), AllocError>
    ensures { OnOk result (MakesTo machine.old (replicate count (move_of made)) machine.new) }
{
    for _ in 0..count {
        if !make_move(machine, made)? {
            break;
        }
    }
    Ok(())
}

/// The moves of a schedule, each with how often it is made before the next: below `FLUSH` of
/// bpf_schedule the turn of a CPU, and from there on the flush of its buffer. A turn without work and
/// a flush where nothing waits change nothing.
pub fn moves_by(machine: &mut Buffering, runs: &[(u8, u64)]) -> Result<(), AllocError>
    ensures { OnOk result
        (MakesTo machine.old (map move_of (unrolled runs.now)) machine.new) }
{
    for (made, count) in runs {
        repeat(machine, *made, *count)?;
    }
    Ok(())
}
