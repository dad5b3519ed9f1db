//! The lines that answer commands. A line has room for 128 bytes.

ghost use Rattle.std.specs.Prelude.{◌≡◌, ◌+◌, ◌*◌, ◌≤◌, ◌++◌, List, ℕ, length, slice_get, string_bytes, string_capacity, string_len};
ghost use Rattle.bpf_cpu.specs.Lines.{outcome_text, job_line};
ghost use Rattle.bpf_machine.specs.Hands.{IsFree};
ghost use Rattle.bpf_debug.specs.Told.{mark_line, open_line, told_job, told_jobs};
ghost use Rattle.bpf_debug.specs.Answer.{IsOff, IsRegisters, IsWhere, break_line, changed_line, cpu_words, deleted_line, ended_text, idle_line, in_hand_line, place_line, register_line, register_lines, stop_line, waiting_line};

use crate::text::{put, put_number};
use bpf_cpu::{Cpu, Fault, Outcome};
use bpf_machine::{Machine, Standing, Turn};

/// How many bytes a line has at most.
pub const LINE: usize = 128;

fn put_cpu(out: &mut String, cpu: u8)
    requires { string_len out.old + 24 ≤ string_capacity out.old }
    ensures text { string_bytes out.new ≡ string_bytes out.old ++ cpu_words cpu }
    ensures size { string_len out.new ≤ string_len out.old + 24 }
    ensures room { string_capacity out.old ≤ string_capacity out.new }
{
    put(out, "cpu ");
    put_number(out, cpu as u64);
}

/// Puts the line of a CPU that has a job in hand.
pub fn put_place(out: &mut String, cpu: u8, job: usize, pc: u32, depth: usize)
    requires { string_len out.old + 128 ≤ string_capacity out.old }
    ensures text { string_bytes out.new ≡ string_bytes out.old ++ place_line cpu job pc depth }
    ensures size { string_len out.new ≤ string_len out.old + 128 }
    ensures room { string_capacity out.old ≤ string_capacity out.new }
{
    put_cpu(out, cpu);
    put(out, " job ");
    put_number(out, job as u64);
    put(out, " pc ");
    put_number(out, pc as u64);
    put(out, " depth ");
    put_number(out, depth as u64);
    put(out, "\n");
}

/// Puts the line of a CPU that has a job in hand, in this state.
pub fn put_in_hand(out: &mut String, cpu: u8, job: usize, state: &Cpu)
    requires { string_len out.old + 128 ≤ string_capacity out.old }
    ensures text { string_bytes out.new ≡ string_bytes out.old ++ in_hand_line cpu job state.now }
    ensures size { string_len out.new ≤ string_len out.old + 128 }
    ensures room { string_capacity out.old ≤ string_capacity out.new }
{
    put_place(out, cpu, job, state.pc, state.memory.frames.depth());
}

/// Puts the line of a CPU that is to begin this job next.
pub fn put_waiting(out: &mut String, cpu: u8, job: usize)
    requires { string_len out.old + 128 ≤ string_capacity out.old }
    ensures text { string_bytes out.new ≡ string_bytes out.old ++ waiting_line cpu job }
    ensures size { string_len out.new ≤ string_len out.old + 128 }
    ensures room { string_capacity out.old ≤ string_capacity out.new }
{
    put_cpu(out, cpu);
    put(out, " job ");
    put_number(out, job as u64);
    put(out, " waiting\n");
}

/// Puts the line of a CPU without work.
pub fn put_idle(out: &mut String, cpu: u8)
    requires { string_len out.old + 128 ≤ string_capacity out.old }
    ensures text { string_bytes out.new ≡ string_bytes out.old ++ idle_line cpu }
    ensures size { string_len out.new ≤ string_len out.old + 128 }
    ensures room { string_capacity out.old ≤ string_capacity out.new }
{
    put_cpu(out, cpu);
    put(out, " idle\n");
}

/// Puts the line of where a CPU is.
pub fn put_where(out: &mut String, machine: &Machine, cpu: u8)
    requires { string_len out.old + 128 ≤ string_capacity out.old }
    ensures text { (text : List ℕ) × IsWhere machine.now.jobs cpu text
        × (string_bytes out.new ≡ string_bytes out.old ++ text) }
    ensures size { string_len out.new ≤ string_len out.old + 128 }
    ensures room { string_capacity out.old ≤ string_capacity out.new }
{
    match machine.standing(cpu) {
        Standing::InHand(job, state) => put_in_hand(out, cpu, job, state),
        Standing::Waiting(job) => put_waiting(out, cpu, job),
        Standing::Idle => put_idle(out, cpu),
    }
}

fn put_register(out: &mut String, number: usize, value: u64)
    requires { string_len out.old + 64 ≤ string_capacity out.old }
    ensures text { string_bytes out.new ≡ string_bytes out.old ++ register_line number value }
    ensures size { string_len out.new ≤ string_len out.old + 64 }
    ensures room { string_capacity out.old ≤ string_capacity out.new }
{
    put(out, "r");
    put_number(out, number as u64);
    put(out, "=");
    put_number(out, value);
    put(out, "\n");
}

/// Puts the lines of a CPU's registers.
pub fn put_values(out: &mut String, values: &[u64])
    requires { string_len out.old + 64 * length values.now ≤ string_capacity out.old }
    ensures text { string_bytes out.new ≡ string_bytes out.old ++ register_lines 0 values.now }
{
    for (number, value) in values.iter().enumerate() {
        put_register(out, number, *value);
    }
}

/// Puts the registers of a CPU that has a job in hand, or where it is.
pub fn put_registers(out: &mut String, machine: &Machine, cpu: u8)
    requires { string_len out.old + 1024 ≤ string_capacity out.old }
    ensures { (text : List ℕ) × IsRegisters machine.now.jobs cpu text
        × (string_bytes out.new ≡ string_bytes out.old ++ text) }
{
    match machine.standing(cpu) {
        Standing::InHand(_, state) => put_values(out, &state.registers),
        Standing::Waiting(job) => put_waiting(out, cpu, job),
        Standing::Idle => put_idle(out, cpu),
    }
}

/// Puts where a CPU is that has no job in hand.
pub fn put_off(out: &mut String, machine: &Machine, cpu: u8)
    requires room { string_len out.old + 128 ≤ string_capacity out.old }
    requires free { IsFree machine.now.jobs cpu }
    ensures { (text : List ℕ) × IsOff machine.now.jobs cpu text
        × (string_bytes out.new ≡ string_bytes out.old ++ text) }
{
    match machine.standing(cpu) {
        Standing::InHand(..) => unreachable!(),
        Standing::Waiting(job) => put_waiting(out, cpu, job),
        Standing::Idle => put_idle(out, cpu),
    }
}

fn put_fault(out: &mut String, fault: Fault, pc: u32)
    requires { string_len out.old + 48 ≤ string_capacity out.old }
    ensures text { string_bytes out.new ≡ string_bytes out.old
        ++ outcome_text (Outcome.Fault fault pc) }
    ensures size { string_len out.new ≤ string_len out.old + 48 }
    ensures room { string_capacity out.old ≤ string_capacity out.new }
{
    put(out, "fault ");
    put(out, fault.code().text());
    put(out, " at ");
    put_number(out, pc as u64);
}

fn put_out_of_budget(out: &mut String, pc: u32)
    requires { string_len out.old + 48 ≤ string_capacity out.old }
    ensures text { string_bytes out.new
        ≡ string_bytes out.old ++ outcome_text (Outcome.OutOfBudget pc) }
    ensures size { string_len out.new ≤ string_len out.old + 48 }
    ensures room { string_capacity out.old ≤ string_capacity out.new }
{
    put(out, "out of budget at ");
    put_number(out, pc as u64);
}

fn put_outcome(out: &mut String, outcome: Outcome)
    requires { string_len out.old + 48 ≤ string_capacity out.old }
    ensures text { string_bytes out.new ≡ string_bytes out.old ++ outcome_text outcome }
    ensures size { string_len out.new ≤ string_len out.old + 48 }
    ensures room { string_capacity out.old ≤ string_capacity out.new }
{
    match outcome {
        Outcome::Exit(r0) => {
            put(out, "r0=");
            put_number(out, r0);
        }
        Outcome::Fault(fault, pc) => put_fault(out, fault, pc),
        Outcome::OutOfBudget(pc) => put_out_of_budget(out, pc),
    }
}

/// Puts the line of a job that has ended.
pub fn put_job(out: &mut String, cpu: u8, job: usize, outcome: Outcome)
    requires { string_len out.old + 128 ≤ string_capacity out.old }
    ensures text { string_bytes out.new ≡ string_bytes out.old ++ job_line job cpu outcome }
    ensures size { string_len out.new ≤ string_len out.old + 128 }
    ensures room { string_capacity out.old ≤ string_capacity out.new }
{
    put(out, "job ");
    put_number(out, job as u64);
    put(out, " cpu ");
    put_number(out, cpu as u64);
    put(out, " ");
    put_outcome(out, outcome);
    put(out, "\n");
}

/// Puts the line of a job that a turn of a CPU has ended, if it has.
pub fn put_ended(out: &mut String, cpu: u8, turn: Turn)
    requires { (job : ℕ) (end : Outcome) → turn ≡ Turn.Ended job end
        → string_len out.old + 128 ≤ string_capacity out.old }
    ensures text { string_bytes out.new ≡ string_bytes out.old ++ ended_text cpu turn }
    ensures size { string_len out.new ≤ string_len out.old + 128 }
    ensures none { ((job : ℕ) (end : Outcome) → turn ≡ Turn.Ended job end → ⊥)
        → string_len out.new ≡ string_len out.old }
    ensures room { string_capacity out.old ≤ string_capacity out.new }
{
    match turn {
        Turn::Ended(job, outcome) => put_job(out, cpu, job, outcome),
        Turn::Ran | Turn::Idle => {}
    }
}

/// Puts that a pc is a breakpoint of a CPU.
pub fn put_break(out: &mut String, cpu: u8, pc: u32)
    requires { string_len out.old + 128 ≤ string_capacity out.old }
    ensures { string_bytes out.new ≡ string_bytes out.old ++ break_line cpu pc }
{
    put(out, "break ");
    put_number(out, cpu as u64);
    put(out, " ");
    put_number(out, pc as u64);
    put(out, " set\n");
}

/// Puts that a pc is no breakpoint of a CPU.
pub fn put_deleted(out: &mut String, cpu: u8, pc: u32)
    requires { string_len out.old + 128 ≤ string_capacity out.old }
    ensures { string_bytes out.new ≡ string_bytes out.old ++ deleted_line cpu pc }
{
    put(out, "break ");
    put_number(out, cpu as u64);
    put(out, " ");
    put_number(out, pc as u64);
    put(out, " deleted\n");
}

/// Puts that a turn of a CPU changed the watched value.
pub fn put_changed(out: &mut String, cpu: u8)
    requires { string_len out.old + 128 ≤ string_capacity out.old }
    ensures { string_bytes out.new ≡ string_bytes out.old ++ changed_line cpu }
{
    put(out, "changed by ");
    put_number(out, cpu as u64);
    put(out, "\n");
}

/// Puts that a CPU is at a breakpoint.
pub fn put_stop(out: &mut String, cpu: u8, pc: u32)
    requires { string_len out.old + 128 ≤ string_capacity out.old }
    ensures { string_bytes out.new ≡ string_bytes out.old ++ stop_line cpu pc }
{
    put(out, "stop ");
    put_number(out, cpu as u64);
    put(out, " ");
    put_number(out, pc as u64);
    put(out, "\n");
}

/// Puts the line of a job that hasn't ended.
pub fn put_open(out: &mut String, cpu: u8, job: usize)
    requires { string_len out.old + 128 ≤ string_capacity out.old }
    ensures text { string_bytes out.new ≡ string_bytes out.old ++ open_line job cpu }
    ensures size { string_len out.new ≤ string_len out.old + 128 }
    ensures room { string_capacity out.old ≤ string_capacity out.new }
{
    put(out, "job ");
    put_number(out, job as u64);
    put(out, " cpu ");
    put_number(out, cpu as u64);
    put(out, " open\n");
}

/// Puts the line of a job: how it ended, or that it hasn't.
fn put_told(out: &mut String, machine: &Machine, job: usize)
    requires { string_len out.old + 128 ≤ string_capacity out.old }
    ensures text { string_bytes out.new
        ≡ string_bytes out.old ++ told_job job (slice_get machine.now.jobs job) }
    ensures size { string_len out.new ≤ string_len out.old + 128 }
    ensures room { string_capacity out.old ≤ string_capacity out.new }
{
    let Some(cpu) = machine.cpu_of(job) else {
        return;
    };
    let Some(outcome) = machine.outcome(job) else {
        return put_open(out, cpu, job);
    };
    put_job(out, cpu, job, outcome);
}

/// Puts a line a job, in the order of the machine's list.
pub fn put_jobs(out: &mut String, machine: &Machine)
    requires { string_len out.old + 128 * length machine.now.jobs ≤ string_capacity out.old }
    ensures { string_bytes out.new
        ≡ string_bytes out.old ++ told_jobs (length machine.now.jobs) machine.now.jobs }
{
    for job in 0..machine.jobs() {
        put_told(out, machine, job);
    }
}

/// Puts a number that was asked for.
pub fn put_mark(out: &mut String, number: u64)
    requires { string_len out.old + 128 ≤ string_capacity out.old }
    ensures { string_bytes out.new ≡ string_bytes out.old ++ mark_line number }
{
    put(out, "mark ");
    put_number(out, number);
    put(out, "\n");
}
