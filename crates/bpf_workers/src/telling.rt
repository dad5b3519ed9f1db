//! The lines of jobs that workers have run, of what their CPUs have listed, and of the maps,
//! variables and arrays that they leave.

ghost use Rattle.std.specs.Prelude.{◌≡◌, ◌++◌, IfOk, OnOk, length, List, map, string_bytes};
ghost use Rattle.bpf_shared.specs.Store.{Plain};
ghost use Rattle.bpf_names.specs.Names.{names_of};
ghost use Rattle.bpf_cpu.specs.Task.{Task, waiting};
ghost use Rattle.bpf_jobs.specs.Printed.{any_stopped, cpu_lines, job_lines, list_lines, TellsWith};
ghost use Rattle.bpf_sched.specs.Worked.{listed_by};
ghost use Rattle.hop_map.specs.Dumping.{IsLast};
ghost use Rattle.bpf_workers.specs.Printed.{as_ended};
ghost use Rattle.bpf_workers.specs.Stats.{AreStatsAsked};

use crate::left::{Left, asked_lines};
use crate::stats::asked_stats;
use bpf_cpu::{Job, Outcome};
use bpf_jobs::{Report, is_stop, push_job, push_lists};
use bpf_names::Names;
use bpf_shared::KeyList;
use std::alloc::{AllocError, Global};

/// What is printed of a run file, and beside it what is printed of its maps.
pub struct Counted {
    pub report: Report,
    pub stats: String,
}

/// What is printed of a run beside the lines of its jobs.
#[derive(Clone, Copy)]
pub struct Extras {
    /// The keys that each CPU lists.
    pub keys: bool,
    /// The maps.
    pub maps: bool,
    /// What workers came to at the maps.
    pub stats: bool,
}

/// Jobs that have ended, how each of them did, and what CPUs have listed.
#[derive(Clone, Copy)]
pub(crate) struct Ended<'a> {
    pub(crate) jobs: &'a [Job],
    pub(crate) ends: &'a [Outcome],
    pub(crate) lists: &'a [Vec<KeyList>],
}

/// A line a job, in the order of their list, of jobs that have ended so.
fn list_jobs(alloc: Global, jobs: &[Job], ends: &[Outcome]) -> Result<String, AllocError>
    requires { length ends.now ≡ length jobs.now }
    ensures { IfOk result (λ text. string_bytes text
        ≡ job_lines (length jobs.now) (as_ended (map waiting jobs.now) ends.now)) }
{
    let mut text = String::new(alloc);
    for job in 0..jobs.len() {
        push_job(alloc, &mut text, job, jobs[job].cpu, ends[job])?;
    }
    Ok(text)
}

/// Whether one of these is a fault or out of budget.
fn has_stopped(ends: &[Outcome]) -> bool
    ensures { (tasks : List Task) → length tasks ≡ length ends.now
        → result ≡ any_stopped (length ends.now) (as_ended tasks ends.now) }
{
    let mut stopped = false;
    for end in ends {
        stopped |= is_stop(*end);
    }
    stopped
}

/// Appends the lines of all that a CPU has listed to the text, where lists are printed by CPU.
fn push_listed(
    alloc: Global,
    text: &mut String,
    cpu: u8,
    names: &[String],
    lists: &[Vec<KeyList>],
) -> Result<(), AllocError>
    ensures { OnOk result (string_bytes text.new ≡ string_bytes text.old
        ++ cpu_lines cpu (map string_bytes names.now) (length (listed_by lists.now cpu))
        (listed_by lists.now cpu)) }
{
    match lists.get(usize::from(cpu)) {
        Some(found) => push_lists(alloc, text, cpu, names, found),
        None => Ok(()),
    }
}

/// The lines of all that CPUs have listed, by rising CPU.
fn list_keys(
    alloc: Global,
    lists: &[Vec<KeyList>],
    cpus: u8,
    names: &[String],
) -> Result<String, AllocError>
    ensures { IfOk result (λ text. string_bytes text
        ≡ list_lines (listed_by lists.now) (map string_bytes names.now) cpus) }
{
    let mut text = String::new(alloc);
    for cpu in 0..cpus {
        push_listed(alloc, &mut text, cpu, names, lists)?;
    }
    Ok(text)
}

/// What is printed of jobs that have ended so, of what CPUs have listed, and of what is left of
/// their store.
fn tell(
    alloc: Global,
    ended: &Ended<'_>,
    left: Left,
    names: &Names,
    maps: bool,
) -> Result<Report, AllocError>
    requires { length ended.now.ends.now ≡ length ended.now.jobs.now }
    ensures { IfOk result (λ r. (last : Plain) → IsLast left.entry.closed.now last
        → last.shape ≡ left.entry.shape.now
        → TellsWith (list_lines (listed_by ended.now.lists.now) (names_of names.now).maps
        left.entry.shape.now.cpus) last (as_ended (map waiting ended.now.jobs.now)
        ended.now.ends.now)
        (names_of names.now) maps (string_bytes r.text) r.stopped) }
{
    let Ended { jobs, ends, lists } = *ended;
    let mut text = list_jobs(alloc, jobs, ends)?;
    let keys = list_keys(alloc, lists, left.shape.cpus(), &names.maps)?;
    text.push_str(keys.as_str())?;
    let lines = asked_lines(alloc, left, names, maps)?;
    text.push_str(lines.as_str())?;
    let stopped = has_stopped(ends);
    Ok(Report { text, stopped })
}

/// What is printed of such jobs, and beside it the lines of the maps' numbers, where they are asked for.
pub(crate) fn tell_counted(
    alloc: Global,
    ended: &Ended<'_>,
    left: Left,
    names: &Names,
    extras: Extras,
) -> Result<Counted, AllocError>
    requires { length ended.now.ends.now ≡ length ended.now.jobs.now }
    ensures told { IfOk result (λ r. (last : Plain) → IsLast left.entry.closed.now last
        → last.shape ≡ left.entry.shape.now
        → TellsWith (list_lines (listed_by ended.now.lists.now) (names_of names.now).maps
        left.entry.shape.now.cpus) last (as_ended (map waiting ended.now.jobs.now)
        ended.now.ends.now)
        (names_of names.now) extras.maps (string_bytes r.report.text) r.report.stopped) }
    ensures stats { IfOk result (λ r. AreStatsAsked extras.stats left.entry.closed.now
        (names_of names.now).maps (string_bytes r.stats)) }
{
    let report = tell(alloc, ended, left, names, extras.maps)?;
    let stats = asked_stats(alloc, left.closed, &names.maps, extras.stats)?;
    Ok(Counted { report, stats })
}
