//! A run of jobs, watched for calls of `bpf_trace_printk`.

ghost use Rattle.bpf_cpu.specs.Setup.{IsRunnable};

use crate::format::printed;
use crate::memory::Memory;
use bpf_cpu::{Cpu, Setup};
use bpf_insn::Insn;
use bpf_jobs::make_machine;
use bpf_loader::Program;
use bpf_machine::{Machine, Standing, Turn};
use std::alloc::{AllocError, Global};

/// The helper's number, in bpf-helpers(7).
const TRACE_PRINTK: u32 = 6;

/// How many calls are shown.
const MOST: usize = 1_000;

/// The lines of calls, so far.
#[derive(Drop)]
struct Lines {
    text: String,
    count: usize,
}

/// Whether the instruction of a program at a pc is a call of the helper.
fn is_call(program: &Program, pc: u32) -> bool {
    program.is_start(pc)
        && matches!(
            program.instruction_at(pc),
            Insn::CallHelper {
                number: TRACE_PRINTK
            }
        )
}

/// Whether a program calls the helper.
fn has_call(program: &Program) -> bool {
    let Ok(end) = u32::try_from(program.ops().len()) else {
        return false;
    };
    for pc in 0..end {
        if is_call(program, pc) {
            return true;
        }
    }
    false
}

/// Whether a job's next instruction is a call of the helper.
fn calls(machine: &Machine, job: usize, state: &Cpu) -> bool {
    let Some(number) = machine.program_of(job) else {
        return false;
    };
    match machine.programs().get(number) {
        Some(program) => is_call(program, state.pc),
        None => false,
    }
}

/// The line of the call that a CPU makes next, if it makes one.
fn next_line(alloc: Global, machine: &Machine, cpu: u8) -> Result<Option<String>, AllocError> {
    let Standing::InHand(job, state) = machine.standing(cpu) else {
        return Ok(None);
    };
    if !calls(machine, job, state) {
        return Ok(None);
    }
    let memory = Memory {
        store: machine.store(),
        state,
    };
    let pc = state.pc;
    let line = match printed(alloc, memory)? {
        Ok(text) => format!(in alloc; "cpu {cpu} job {job} pc {pc} prints: {text}\n")?,
        Err(refused) => {
            let why = refused.why();
            format!(in alloc; "cpu {cpu} job {job} pc {pc} prints nothing: {why}\n")?
        }
    };
    Ok(Some(line))
}

/// Makes a CPU's turn, and adds the line of the call that it makes.
fn watch_turn(
    alloc: Global,
    machine: &mut Machine,
    cpu: u8,
    lines: &mut Lines,
) -> Result<Turn, AllocError> {
    let line = next_line(alloc, machine, cpu)?;
    let turn = machine.turn(cpu);
    // A job whose budget is used up ends at its call.
    if let (Turn::Ran, Some(line)) = (turn, line) {
        lines.text.push_str(line.as_str())?;
        lines.count = lines.count.saturating_add(1);
    }
    Ok(turn)
}

/// Makes a CPU's turns, this many, as long as it has work and lines are wanted.
fn watch_turns(
    alloc: Global,
    machine: &mut Machine,
    (cpu, turns): (u8, u64),
    lines: &mut Lines,
) -> Result<(), AllocError> {
    for _ in 0..turns {
        if lines.count >= MOST {
            break;
        }
        if let Turn::Idle = watch_turn(alloc, machine, cpu, lines)? {
            break;
        }
    }
    Ok(())
}

/// One round. Whether some CPU had work, and more lines are wanted.
fn watch_round(
    alloc: Global,
    machine: &mut Machine,
    lines: &mut Lines,
) -> Result<bool, AllocError> {
    let mut worked = false;
    for cpu in 0..machine.cpus() {
        if lines.count >= MOST {
            return Ok(false);
        }
        let turn = watch_turn(alloc, machine, cpu, lines)?;
        worked |= !matches!(turn, Turn::Idle);
    }
    Ok(worked)
}

/// What each call of `bpf_trace_printk` would print, a line each, where jobs take the turns of a
/// schedule, CPUs with how many turns each takes before the next, and then rounds until each has
/// ended. Out of memory is the only refusal.
pub fn prints_of(alloc: Global, setup: Setup, schedule: &[(u8, u64)]) -> Result<String, AllocError>
    requires { IsRunnable setup }
{
    let mut lines = Lines {
        text: String::new(alloc),
        count: 0,
    };
    if !setup.programs.iter().any(has_call) {
        return Ok(lines.text);
    }
    let mut machine = make_machine(alloc, setup)?;
    for run in schedule {
        watch_turns(alloc, &mut machine, *run, &mut lines)?;
    }
    for _ in 0..u64::MAX {
        if !watch_round(alloc, &mut machine, &mut lines)? {
            break;
        }
    }
    if lines.count >= MOST {
        lines.text.push_str("  more calls aren't shown\n")?;
    }
    Ok(lines.text)
}
