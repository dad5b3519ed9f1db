//! The instructions near a CPU's pc.

ghost use Rattle.std.specs.Prelude.{◌≡◌, ◌++◌, ◌<◌, IfOk, List, OnOk, Some, length, slice_get, string_bytes, ℕ};
ghost use Rattle.bpf_loader.specs.Places.{IsStart};
ghost use Rattle.bpf_cpu.specs.Task.{InHand, Task};
ghost use Rattle.bpf_machine.specs.Hands.{IsAt, IsFree};
ghost use Rattle.bpf_debug.specs.Answer.{IsOff};
ghost use Rattle.bpf_debug.specs.Nearby.{IsNearbyText, IsLineAt, TellsLines, count_shown, first_shown, mark_at, nearby_line};

use crate::lines::{LINE, put_off};
use bpf_cpu::Cpu;
use bpf_disassembly::disassemble;
use bpf_insn::Insn;
use bpf_loader::Program;
use bpf_machine::{Machine, Standing};
use std::alloc::{AllocError, Global};

/// How many words before the pc are shown.
const BEFORE: u32 = 3;

/// How many words after the pc are shown.
const BEHIND: u32 = 5;

/// What a line begins with: the mark of the instruction that comes next, or blanks.
fn mark_at(here: u32, pc: u32) -> &'static str
    ensures { result.now ≡ mark_at here pc }
{
    if pc == here { "> " } else { "  " }
}

/// Appends the line of an instruction to the text.
fn push_insn(
    alloc: Global,
    text: &mut String,
    here: u32,
    pc: u32,
    insn: Insn,
) -> Result<(), AllocError>
    ensures { OnOk result (string_bytes text.new
        ≡ string_bytes text.old ++ nearby_line here pc insn) }
{
    let spelled = disassemble(alloc, &[insn]).map_err(|_| AllocError)?;
    let mark = mark_at(here, pc);
    let line = format!(in alloc; "{mark}{pc}  {spelled}")?;
    text.push_str(line.as_str())
}

/// Appends the line of a pc to the text, if an instruction begins there.
fn push_pc(
    alloc: Global,
    text: &mut String,
    program: &Program,
    here: u32,
    pc: u32,
) -> Result<(), AllocError>
    ensures { OnOk result ((line : List ℕ) × IsLineAt program.now here pc line
        × (string_bytes text.new ≡ string_bytes text.old ++ line)) }
{
    if program.is_start(pc) {
        push_insn(alloc, text, here, pc, *program.instruction_at(pc))
    } else {
        Ok(())
    }
}

/// The first pc that is shown.
fn first_shown(here: u32) -> u32
    ensures { result ≡ first_shown here }
{
    here.saturating_sub(BEFORE)
}

/// The lines of the instructions near a pc.
pub fn program_lines(alloc: Global, program: &Program, here: u32) -> Result<String, AllocError>
    requires { IsStart program.now.instructions here }
    ensures { IfOk result (λ text. TellsLines program.now here (first_shown here)
        (count_shown here) (string_bytes text)) }
{
    // A pc at which an instruction begins is so small that the sums don't overflow.
    let _ = program.instruction_at(here);
    let first = first_shown(here);
    let mut text = String::new(alloc);
    for place in 0..here + BEHIND + 1 - first {
        push_pc(alloc, &mut text, program, here, first + place)?;
    }
    Ok(text)
}

/// The program of a job.
fn program_of<'a>(
    alloc: Global,
    machine: &'a Machine,
    job: usize,
) -> Result<&'a Program, AllocError>
    requires { job < length machine.now.jobs }
    ensures { IfOk result (λ program. (task : Task)
        × (slice_get machine.now.jobs job ≡ Some task)
        × (slice_get machine.now.programs task.program ≡ Some program.now)) }
{
    machine.stands();
    let kept = machine.kept_job(alloc, job)?;
    Ok(&machine.programs()[kept.program()])
}

/// The lines near the pc of a CPU that has a job in hand.
fn lines_in_hand(
    alloc: Global,
    machine: &Machine,
    cpu: u8,
    job: usize,
    state: &Cpu,
) -> Result<String, AllocError>
    requires { (task : Task) × (left : ℕ)
        × IsAt machine.now.jobs cpu job task (InHand state.now left) }
    ensures { IfOk result (λ text.
        IsNearbyText machine.now.programs machine.now.jobs cpu (string_bytes text)) }
{
    machine.stands();
    let program = program_of(alloc, machine, job)?;
    program_lines(alloc, program, state.pc)
}

/// Where a CPU is that has no job in hand.
fn line_off(alloc: Global, machine: &Machine, cpu: u8) -> Result<String, AllocError>
    requires { IsFree machine.now.jobs cpu }
    ensures { IfOk result (λ text. IsOff machine.now.jobs cpu (string_bytes text)) }
{
    let mut line = String::with_capacity(alloc, LINE)?;
    put_off(&mut line, machine, cpu);
    Ok(line)
}

/// The lines near the pc of a CPU, or where it is, if it has no job in hand.
pub fn nearby_lines(alloc: Global, machine: &Machine, cpu: u8) -> Result<String, AllocError>
    ensures { IfOk result (λ text.
        IsNearbyText machine.now.programs machine.now.jobs cpu (string_bytes text)) }
{
    match machine.standing(cpu) {
        Standing::InHand(job, state) => lines_in_hand(alloc, machine, cpu, job, state),
        Standing::Waiting(_) => line_off(alloc, machine, cpu),
        Standing::Idle => line_off(alloc, machine, cpu),
    }
}
