//! Turns of one CPU, one after the other, and those of a schedule.

ghost use Rattle.std.specs.Prelude.{◌≡◌, ◌+◌, ◌*◌, ◌<◌, ◌≤◌, ◌++◌, List, ℕ, length, string_bytes, string_capacity, string_len};
ghost use Rattle.bpf_machine.specs.Schedule.{World};
ghost use Rattle.bpf_machine.specs.Machine.{Shows};
ghost use Rattle.bpf_machine.specs.Parts.{IsSameHost};
ghost use Rattle.bpf_machine.specs.Questions.{open_jobs};
ghost use Rattle.bpf_debug.specs.Answer.{IsWhere};
ghost use Rattle.bpf_debug.specs.Turns.{MakesRuns, MakesTurns, last_cpu};

use crate::lines::{put_ended, put_where};
use bpf_machine::Machine;

/// This many turns of a CPU, with the lines of the jobs that end.
fn make_turns(machine: &mut Machine, cpu: u8, count: u64, out: &mut String)
    requires shown { (w : World) × Shows machine.old w }
    requires room { string_len out.old + 128 * open_jobs machine.old.jobs + 128
        ≤ string_capacity out.old }
    ensures made { (w : World) → Shows machine.old w → (z : World) × (text : List ℕ)
        × MakesTurns w cpu count text z × Shows machine.new z
        × (string_bytes out.new ≡ string_bytes out.old ++ text) }
    ensures same { IsSameHost machine.old machine.new }
    ensures room { string_len out.new + 128 * open_jobs machine.new.jobs + 128
        ≤ string_capacity out.new }
{
    bpf_machine::laws::turns_fall();
    for _ in 0..count {
        let turn = machine.turn(cpu);
        put_ended(out, cpu, turn);
    }
}

/// This many turns of a CPU, with the lines of the jobs that end and that of where it is then.
pub fn take_turns(machine: &mut Machine, cpu: u8, count: u64, out: &mut String)
    requires shown { (w : World) × Shows machine.old w }
    requires room { string_len out.old + 128 * open_jobs machine.old.jobs + 128
        ≤ string_capacity out.old }
    ensures made { (place : List ℕ) × IsWhere machine.new.jobs cpu place
        × ((w : World) → Shows machine.old w → (z : World) × (before : List ℕ)
        × MakesTurns w cpu count before z × Shows machine.new z
        × (string_bytes out.new ≡ (string_bytes out.old ++ before) ++ place)) }
    ensures same { IsSameHost machine.old machine.new }
{
    make_turns(machine, cpu, count, out);
    put_where(out, machine, cpu);
}

/// The turns of a schedule, with the lines of the jobs that end.
fn make_runs(machine: &mut Machine, runs: &[(u8, u64)], out: &mut String)
    requires shown { (w : World) × Shows machine.old w }
    requires room { string_len out.old + 128 * open_jobs machine.old.jobs + 128
        ≤ string_capacity out.old }
    ensures made { (w : World) → Shows machine.old w → (z : World) × (text : List ℕ)
        × MakesRuns w runs.now text z × Shows machine.new z
        × (string_bytes out.new ≡ string_bytes out.old ++ text) }
    ensures same { IsSameHost machine.old machine.new }
    ensures room { string_len out.new + 128 ≤ string_capacity out.new }
{
    for run in runs {
        make_turns(machine, run.0, run.1, out);
    }
}

/// The CPU of a schedule's last run.
fn last_cpu(runs: &[(u8, u64)]) -> u8
    requires { 0 < length runs.now }
    ensures { result ≡ last_cpu runs.now }
{
    runs[runs.len() - 1].0
}

/// The turns of a schedule, with the lines of the jobs that end and that of where the CPU of its
/// last run is then.
pub fn take_runs(machine: &mut Machine, runs: &[(u8, u64)], out: &mut String)
    requires some { 0 < length runs.now }
    requires shown { (w : World) × Shows machine.old w }
    requires room { string_len out.old + 128 * open_jobs machine.old.jobs + 128
        ≤ string_capacity out.old }
    ensures made { (place : List ℕ) × IsWhere machine.new.jobs (last_cpu runs.now) place
        × ((w : World) → Shows machine.old w → (z : World) × (before : List ℕ)
        × MakesRuns w runs.now before z × Shows machine.new z
        × (string_bytes out.new ≡ (string_bytes out.old ++ before) ++ place)) }
    ensures same { IsSameHost machine.old machine.new }
{
    make_runs(machine, runs, out);
    put_where(out, machine, last_cpu(runs));
}
