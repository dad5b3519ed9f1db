//! Kept jobs that are alike, and tables of the registers that their programs may read.

ghost use Rattle.std.specs.Prelude.{◌≡◌, ◌<◌, ℕ, List, Some, true, IfOk, length, slice_get};
ghost use Rattle.bpf_live.specs.Live.{IsLive, IsLiveTable};
ghost use Rattle.bpf_loader.specs.Loaded.{Loaded};
ghost use Rattle.bpf_live.specs.Alike.{AreAlike};
ghost use Rattle.bpf_cpu.specs.declared.cpu.Cpu.{Cpu};
ghost use Rattle.bpf_cpu.specs.Task.{InHand};
ghost use Rattle.bpf_alike.specs.Worlds.{AreLiveTables, IsAlike, table_at};

use bpf_base::spread;
use bpf_cpu::KeptCpu;
use bpf_live::{Live, all_live, find_live};
use bpf_loader::Program;
use bpf_machine::KeptJob;
use std::alloc::{AllocError, Global};

/// Which states count as one.
#[derive(Clone, Copy, PartialEq, Eq, Debug)]
pub enum Merged {
    /// Those that differ only in registers that are written before they are read.
    Alike,
    /// Those that don't differ.
    Same,
}

/// The registers in which states of a program have to agree to count as one: those that it may read
/// before it writes them, or all.
fn live_of(alloc: Global, program: &Program, merged: Merged) -> Result<Live, AllocError>
    ensures right { IfOk result (λ table. IsLiveTable program.now.instructions table) }
    ensures all { IfOk result (λ table. merged ≡ Merged.Same → (pc r : ℕ) → IsLive table pc r) }
{
    match merged {
        Merged::Alike => find_live(alloc, program),
        Merged::Same => Ok(all_live(alloc)),
    }
}

/// By program, the registers in which its states have to agree to count as one.
pub fn live_tables(
    alloc: Global,
    programs: &[Program],
    merged: Merged,
) -> Result<Vec<Live>, AllocError>
    ensures right { IfOk result (λ tables. AreLiveTables programs.now (table_at tables.items)) }
    ensures all { IfOk result (λ tables. merged ≡ Merged.Same → (n pc r : ℕ)
        → n < length programs.now → IsLive (table_at tables.items n) pc r) }
{
    let mut tables = Vec::new(alloc);
    for number in 0..programs.len() {
        let table = live_of(alloc, &programs[number], merged)?;
        tables.push(table)?;
    }
    Ok(tables)
}

/// Whether two states in a program of this number are alike. Where there is no table for it, none
/// is said to be.
fn are_states_alike(tables: &[Live], program: usize, cpu: &KeptCpu, other: &KeptCpu) -> bool
    ensures { result ≡ true → (loaded : Loaded)
        → AreAlike loaded (table_at tables.now program) cpu.now other.now }
{
    program < tables.len() && tables[program].is_alike(cpu, other)
}

/// Whether both jobs of a program of this number are in hand, with as many steps left, in states that
/// are alike.
pub fn are_stages_alike(tables: &[Live], program: usize, job: &KeptJob, other: &KeptJob) -> bool
    ensures { result ≡ true → (state : Cpu) × (left : ℕ) × (later : Cpu)
        × (job.now.stage ≡ InHand state left) × (other.now.stage ≡ InHand later left)
        × ((loaded : Loaded) → AreAlike loaded (table_at tables.now program) state later) }
{
    match job.state() {
        Some((state, left)) => match other.state() {
            Some((later, rest)) => left == rest && are_states_alike(tables, program, state, later),
            None => false,
        },
        None => false,
    }
}

/// Whether a job is another one, but for the stage.
fn is_same_job(job: &KeptJob, other: &KeptJob) -> bool
    ensures { result ≡ true → (other.now.cpu ≡ job.now.cpu)
        × (other.now.program ≡ job.now.program) × (other.now.budget ≡ job.now.budget) }
{
    job.cpu() == other.cpu() && job.program() == other.program() && job.budget() == other.budget()
}

/// Whether the other job is the same one, in hand, in a state that is alike.
pub fn are_alike(tables: &[Live], job: &KeptJob, other: &KeptJob) -> bool
    ensures { result ≡ true → (programs : List Loaded) (program : Loaded)
        → AreLiveTables programs (table_at tables.now)
        → slice_get programs job.now.program ≡ Some program
        → IsAlike programs job.now other.now }
{
    if !is_same_job(job, other) {
        return false;
    }
    are_stages_alike(tables, job.program(), job, other)
}

/// One more number of what is hashed.
fn mix(hash: u64, number: u64) -> u64 {
    spread(hash ^ number)
}

/// A number by which a state in a program of this number is found that is alike, after one of its own.
/// Nothing that is promised rests on it.
pub fn live_state_hash(first: u64, tables: &[Live], program: usize, cpu: &KeptCpu) -> u64 {
    let mut hash = mix(first, u64::from(cpu.pc()));
    for register in 0u8..11 {
        let number = cpu.registers()[register as usize];
        if program >= tables.len() || tables[program].is_live(cpu.pc(), register) {
            hash = mix(hash, number);
        }
    }
    hash
}

/// A number by which a job is found that is alike. Nothing that is promised rests on it.
pub fn live_hash(tables: &[Live], job: &KeptJob) -> u64 {
    let first = mix(u64::from(job.cpu()), job.program() as u64);
    match job.state() {
        Some((cpu, left)) => live_state_hash(mix(first, left), tables, job.program(), cpu),
        None if job.has_ended() => mix(first, 2),
        None => mix(first, 1),
    }
}
