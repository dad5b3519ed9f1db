//! The lines that answer commands, of CPUs with store buffers.

ghost use Rattle.std.specs.Prelude.{◌≡◌, ◌+◌, ◌*◌, ◌≤◌, ◌++◌, List, ℕ, IfOk, OnOk, length, slice_get, string_bytes, string_capacity, string_len};
ghost use Rattle.bpf_machine.specs.Hands.{IsFree};
ghost use Rattle.bpf_debug.specs.Answer.{IsOff, IsRegisters, IsWhere, ended_text};
ghost use Rattle.bpf_debug.specs.Told.{told_job, told_jobs};

use bpf_buffering::Buffering;
use bpf_debug::lines::{
    put_ended, put_idle, put_in_hand, put_job, put_open, put_values, put_waiting,
};
use bpf_debug::session::make_room;
use bpf_machine::{Standing, Turn};
use std::alloc::{AllocError, Global};

/// Puts the line of where a CPU is.
fn put_where(out: &mut String, machine: &Buffering, cpu: u8)
    requires { string_len out.old + 128 ≤ string_capacity out.old }
    ensures { (text : List ℕ) × IsWhere machine.now.machine.jobs cpu text
        × (string_bytes out.new ≡ string_bytes out.old ++ text) }
{
    match machine.standing(cpu) {
        Standing::InHand(job, state) => put_in_hand(out, cpu, job, state),
        Standing::Waiting(job) => put_waiting(out, cpu, job),
        Standing::Idle => put_idle(out, cpu),
    }
}

/// The line of where a CPU is.
pub(crate) fn where_line(alloc: Global, machine: &Buffering, cpu: u8) -> Result<String, AllocError>
    ensures { IfOk result (λ text. IsWhere machine.now.machine.jobs cpu (string_bytes text)) }
{
    let mut out = make_room(alloc, 0)?;
    put_where(&mut out, machine, cpu);
    Ok(out)
}

/// The line of where a CPU is that has no job in hand.
pub(crate) fn off_line(alloc: Global, machine: &Buffering, cpu: u8) -> Result<String, AllocError>
    requires { IsFree machine.now.machine.jobs cpu }
    ensures { IfOk result (λ text. IsOff machine.now.machine.jobs cpu (string_bytes text)) }
{
    where_line(alloc, machine, cpu)
}

/// Puts the registers of a CPU that has a job in hand, or where it is.
pub(crate) fn put_registers(out: &mut String, machine: &Buffering, cpu: u8)
    requires { string_len out.old + 1024 ≤ string_capacity out.old }
    ensures { (text : List ℕ) × IsRegisters machine.now.machine.jobs cpu text
        × (string_bytes out.new ≡ string_bytes out.old ++ text) }
{
    match machine.standing(cpu) {
        Standing::InHand(_, state) => put_values(out, &state.registers),
        Standing::Waiting(job) => put_waiting(out, cpu, job),
        Standing::Idle => put_idle(out, cpu),
    }
}

/// Appends the line of a job that a turn of a CPU has ended, if it has.
pub(crate) fn push_ended(
    alloc: Global,
    out: &mut String,
    cpu: u8,
    turn: Turn,
) -> Result<(), AllocError>
    ensures { OnOk result (string_bytes out.new ≡ string_bytes out.old ++ ended_text cpu turn) }
{
    match turn {
        Turn::Ended(_, _) => {
            let mut line = make_room(alloc, 0)?;
            put_ended(&mut line, cpu, turn);
            out.push_str(line.as_str())
        }
        Turn::Ran | Turn::Idle => Ok(()),
    }
}

/// Puts the line of a job: how it ended, or that it hasn't.
fn put_told(out: &mut String, machine: &Buffering, job: usize)
    requires { string_len out.old + 128 ≤ string_capacity out.old }
    ensures text { string_bytes out.new
        ≡ string_bytes out.old ++ told_job job (slice_get machine.now.machine.jobs job) }
    ensures size { string_len out.new ≤ string_len out.old + 128 }
    ensures room { string_capacity out.old ≤ string_capacity out.new }
{
    let Some(cpu) = machine.cpu_of(job) else {
        return;
    };
    let Some(outcome) = machine.outcome(job) else {
        return put_open(out, cpu, job);
    };
    put_job(out, cpu, job, outcome);
}

/// Puts a line a job, in the order of the machine's list.
pub(crate) fn put_jobs(out: &mut String, machine: &Buffering)
    requires { string_len out.old + 128 * length machine.now.machine.jobs
        ≤ string_capacity out.old }
    ensures { string_bytes out.new ≡ string_bytes out.old
        ++ told_jobs (length machine.now.machine.jobs) machine.now.machine.jobs }
{
    for job in 0..machine.jobs() {
        put_told(out, machine, job);
    }
}
