//! Jobs from their beginning to what is printed of them.

ghost use Rattle.std.specs.Prelude.{◌≡◌, IfOk, string_bytes};
ghost use Rattle.bpf_shared.specs.Store.{Plain};
ghost use Rattle.bpf_shared.specs.Sound.{IsSoundStore};
ghost use Rattle.bpf_names.specs.Names.{names_of};
ghost use Rattle.bpf_plain.specs.PlainStore.{StandsFor};
ghost use Rattle.bpf_cpu.specs.Setup.{IsRunnable};
ghost use Rattle.bpf_machine.specs.Machine.{Shows};
ghost use Rattle.bpf_machine.specs.Schedule.{World};
ghost use Rattle.bpf_jobs.specs.Printed.{asked_of, first_of, AreMapsAsked, fixed_lines, IsReportBy, lines_of_lists, TellsWith};

use crate::arrays::list_arrays;
use crate::listing::{has_any_stopped, list_jobs};
use crate::lists::list_keys;
use crate::maps::list_maps;
use crate::variables::list_variables;
use bpf_cpu::Setup;
use bpf_machine::Machine;
use bpf_names::Names;
use bpf_pairs::put_pairs;
use bpf_plain::PlainStore;
use std::alloc::{AllocError, Global};

/// How jobs have ended.
#[derive(Drop)]
pub struct Report {
    /// A line a job, then those of lists of keys and those of the maps, variables and arrays, where
    /// they were asked for.
    pub text: String,
    /// Whether some job ended in a fault or out of budget.
    pub stopped: bool,
}

/// A machine over a new store whose maps have their pairs. Its jobs all wait. Out of memory is the
/// only refusal.
pub fn make_machine(alloc: Global, setup: Setup) -> Result<Machine, AllocError>
    requires { IsRunnable setup }
    ensures { IfOk result (λ m. Shows m (first_of setup)) }
{
    make_asked(alloc, setup, false)
}

/// A machine over a new store whose maps have their pairs, which lists keys after its jobs or
/// doesn't. Out of memory is the only refusal.
pub fn make_asked(alloc: Global, setup: Setup, keys: bool) -> Result<Machine, AllocError>
    requires { IsRunnable setup }
    ensures { IfOk result (λ m. Shows m (asked_of keys setup)) }
{
    let Setup {
        shape,
        pairs,
        programs,
        jobs,
    } = setup;
    // The call says that the shape is in range, and so that a store as made is sound.
    let _ = shape.cpus();
    let Ok(mut store) = PlainStore::new(alloc, shape) else {
        return Err(AllocError);
    };
    // Each is done, as the setup's pairs are.
    if !put_pairs(&mut store, 0, &pairs) {
        return Err(AllocError);
    }
    if keys {
        match Machine::with_keys(alloc, store, programs, jobs) {
            Ok(machine) => Ok(machine),
            Err(_) => Err(AllocError),
        }
    } else {
        match Machine::new(alloc, store, programs, jobs) {
            Ok(machine) => Ok(machine),
            Err(_) => Err(AllocError),
        }
    }
}

/// The lines of the variables, and then of the arrays.
fn fixed_lines(alloc: Global, store: &PlainStore, names: &Names) -> Result<String, AllocError>
    ensures { IfOk result (λ text. (s : Plain) → IsSoundStore s → StandsFor store.now s
        → string_bytes text ≡ fixed_lines s (names_of names.now)) }
{
    let mut text = list_variables(alloc, store, &names.variables)?;
    let arrays = list_arrays(alloc, store, names)?;
    text.push_str(arrays.as_str())?;
    Ok(text)
}

/// The lines of the maps, the variables and the arrays, where they are asked for.
pub fn asked_lines(
    alloc: Global,
    store: &PlainStore,
    names: &Names,
    maps: bool,
) -> Result<String, AllocError>
    ensures { IfOk result (λ text. (s : Plain) → IsSoundStore s → StandsFor store.now s
        → AreMapsAsked maps s (names_of names.now) (string_bytes text)) }
{
    if maps {
        let mut text = list_maps(alloc, store, &names.maps)?;
        let fixed = fixed_lines(alloc, store, names)?;
        text.push_str(fixed.as_str())?;
        Ok(text)
    } else {
        Ok(String::new(alloc))
    }
}

/// What is printed of a machine whose jobs have ended.
pub fn tell(
    alloc: Global,
    machine: &Machine,
    names: &Names,
    maps: bool,
) -> Result<Report, AllocError>
    ensures { IfOk result (λ r. (w : World) → Shows machine.now w
        → TellsWith (lines_of_lists w (names_of names.now).maps) w.store w.jobs
        (names_of names.now) maps (string_bytes r.text) r.stopped) }
{
    let mut text = list_jobs(alloc, machine)?;
    let lists = list_keys(alloc, machine, &names.maps)?;
    text.push_str(lists.as_str())?;
    let lines = asked_lines(alloc, machine.store(), names, maps)?;
    text.push_str(lines.as_str())?;
    let stopped = has_any_stopped(machine);
    Ok(Report { text, stopped })
}

/// Runs jobs over a new store whose maps, arrays and variables have these names: first the turns of a schedule (CPUs, each
/// with how many turns it takes before the next), then rounds until each job has ended. Turns of a CPU
/// without work change nothing, and neither do those of a CPU that the store hasn't. Where keys are
/// asked for, each CPU lists those of all maps with the end of its last job. The only refusal is out of
/// memory; all that the machine needs is there before its first turn.
pub fn run_jobs_by(
    alloc: Global,
    setup: Setup,
    names: &Names,
    schedule: &[(u8, u64)],
    keys: bool,
    maps: bool,
) -> Result<Report, AllocError>
    requires { IsRunnable setup }
    ensures { IfOk result (λ r. IsReportBy (asked_of keys setup) schedule.now
        (names_of names.now) maps (string_bytes r.text) r.stopped) }
{
    let mut machine = make_asked(alloc, setup, keys)?;
    machine.turns_by(schedule);
    machine.rounds();
    let report = tell(alloc, &machine, names, maps)?;
    Ok(report)
}
