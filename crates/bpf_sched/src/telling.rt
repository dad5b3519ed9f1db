//! How all jobs ended, put together from what each CPU's worker has.

ghost use Rattle.std.specs.Prelude.{◌≡◌, ◌≢◌, ◌<◌, ◌≤◌, ℕ, length, map, slice_index_or};
ghost use Rattle.bpf_cpu.specs.Task.{waiting};
ghost use Rattle.bpf_sched.specs.declared.worker.Worker.{Worker};
ghost use Rattle.bpf_sched.specs.Explained.{ends_of, jobs_of};
ghost use Rattle.bpf_sched.specs.Working.{outcome_of};

use crate::assignment::Assignment;
use crate::worker::Worker;
use bpf_cpu::{Job, Outcome};

/// Notes how a CPU's jobs ended, each at its place in the list of all.
fn note(cpu: u8, jobs: &[Job], work: &[Assignment], ends: &mut [Outcome])
    requires room { length ends.old ≡ length jobs.now }
    requires work { length work.now ≡ length (jobs_of cpu (map waiting jobs.now)) }
    ensures room { length ends.new ≡ length ends.old }
    ensures noted { ends_of cpu (map waiting jobs.now) ends.new ≡ map outcome_of work.now }
    ensures others { (c : ℕ) → c ≢ cpu → ends_of c (map waiting jobs.now) ends.new
        ≡ ends_of c (map waiting jobs.now) ends.old }
{
    let mut next = 0;
    for place in 0..jobs.len() {
        if jobs[place].cpu == cpu {
            let has_next = next < work.len();
            prove!(has_next);
            ends[place] = work[next].outcome;
            next += 1;
        }
    }
}

/// Notes how all jobs ended, where each CPU's worker has run its own.
pub(crate) fn note_all(jobs: &[Job], workers: &[Worker], ends: &mut [Outcome])
    requires room { length ends.old ≡ length jobs.now }
    requires few { length workers.now ≤ 16 }
    requires work { (c : ℕ) (d : Worker) → c < length workers.now →
        length (slice_index_or workers.now c d).workload.jobs.items ≡ length (jobs_of c (map waiting jobs.now)) }
    ensures room { length ends.new ≡ length ends.old }
    ensures noted { (c : ℕ) (d : Worker) → c < length workers.now
        → ends_of c (map waiting jobs.now) ends.new
        ≡ map outcome_of (slice_index_or workers.now c d).workload.jobs.items }
{
    for cpu in 0..workers.len() {
        note(cpu as u8, jobs, &workers[cpu].workload.jobs, ends);
    }
}
