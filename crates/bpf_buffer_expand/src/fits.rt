//! Whether runs may have made the stores that wait.

ghost use Rattle.std.specs.Prelude.{◌<◌, ◌≤◌, ◌↔◌, IsTrue, All, length, map};
ghost use Rattle.bpf_shared.specs.Shape.{IsArrayShape};
ghost use Rattle.bpf_buffering.specs.Jobs.{task_of, tasks_of};
ghost use Rattle.bpf_buffer_expand.specs.State.{HasStored, IsOpen, IsOpenIn, MayHaveStored};
ghost use Rattle.bpf_buffer_expand.specs.Private.Fits.{FitAll, FitsCpu, HasMade, IsInArray};

use crate::buffers::count_of;
use bpf_buffering::{Listed, Stored};
use bpf_helpers::HeldSpans;
use bpf_machine::KeptStage;
use bpf_shared::{ArrayShape, FIRST_ARRAY, FIRST_VALUE, MAP_AREA, StoreShape};

/// Whether `count` bytes from `at` on are in a value of an array that begins at `start`, which a CPU
/// may write.
fn is_in_array(array: &ArrayShape, cpus: u8, start: u64, at: u64, count: u64) -> bool
    requires shape { IsArrayShape cpus array.now }
    requires some { 1 ≤ count }
    requires few { count ≤ 8 }
    ensures { IsTrue result ↔ IsInArray cpus array.now start at count }
{
    if array.frozen {
        return false;
    }
    if at < start {
        return false;
    }
    array.has(cpus, at - start, count)
}

/// Whether they are in a value of the array of this number, which a CPU may write.
fn is_open_in(shape: &StoreShape, at: u64, count: u64, number: usize) -> bool
    requires number { number < length shape.now.arrays }
    requires some { 1 ≤ count }
    requires few { count ≤ 8 }
    ensures { IsTrue result ↔ IsOpenIn shape.now at count number }
{
    let array = &shape.arrays()[number];
    let start = FIRST_VALUE + MAP_AREA * (FIRST_ARRAY + number as u64);
    is_in_array(array, shape.cpus(), start, at, count)
}

/// Whether they are in one of some array.
fn is_open(shape: &StoreShape, at: u64, count: u64) -> bool
    requires some { 1 ≤ count }
    requires few { count ≤ 8 }
    ensures { IsTrue result ↔ IsOpen shape.now at count }
{
    for number in 0..shape.arrays().len() {
        if is_open_in(shape, at, count, number) {
            return true;
        }
    }
    false
}

/// Whether a run that holds these spans may have made the store.
fn may_have_stored(shape: &StoreShape, held: &HeldSpans, stored: Stored) -> bool
    ensures { IsTrue result ↔ MayHaveStored shape.now held.now stored }
{
    let count = count_of(stored.size);
    stored.at % count == 0 && (held.covers(stored.at, count) || is_open(shape, stored.at, count))
}

/// Whether it may have made all of these.
fn may_have_stored_all(shape: &StoreShape, held: &HeldSpans, buffer: &[Stored]) -> bool
    ensures { IsTrue result ↔ All (MayHaveStored shape.now held.now) buffer.now }
{
    for stored in buffer {
        if !may_have_stored(shape, held, *stored) {
            return false;
        }
    }
    true
}

/// Whether the job is in this CPU's hand, and its run may have made these.
fn has_made(shape: &StoreShape, job: &Listed, cpu: u8, buffer: &[Stored]) -> bool
    ensures { IsTrue result ↔ HasMade shape.now (task_of job.now) cpu buffer.now }
{
    match &job.stage {
        KeptStage::InHand(state, _) => {
            job.cpu == cpu && may_have_stored_all(shape, &state.held, buffer)
        }
        KeptStage::Waiting(_) | KeptStage::Ended(_) => false,
    }
}

/// Whether the run of a job that the CPU has in hand may have made these.
fn has_stored(shape: &StoreShape, jobs: &[Listed], cpu: u8, buffer: &[Stored]) -> bool
    ensures { IsTrue result ↔ HasStored shape.now (tasks_of jobs.now) cpu buffer.now }
{
    for job in 0..jobs.len() {
        if has_made(shape, &jobs[job], cpu, buffer) {
            return true;
        }
    }
    false
}

/// Whether nothing waits of a CPU, or what its run may have stored.
fn fits_cpu(shape: &StoreShape, jobs: &[Listed], cpu: u8, buffer: &[Stored]) -> bool
    ensures { IsTrue result ↔ FitsCpu shape.now (tasks_of jobs.now) cpu buffer.now }
{
    buffer.is_empty() || has_stored(shape, jobs, cpu, buffer)
}

/// Whether that is so of each CPU.
pub(crate) fn fit_all(shape: &StoreShape, jobs: &[Listed], buffers: &[Vec<Stored>]) -> bool
    requires { length buffers.now ≤ 16 }
    ensures { IsTrue result ↔ FitAll shape.now (tasks_of jobs.now)
        (map (λ b. b.items) buffers.now) }
{
    for cpu in 0..buffers.len() {
        if !fits_cpu(shape, jobs, cpu as u8, &buffers[cpu]) {
            return false;
        }
    }
    true
}
