//! Jobs that are as far but for marks: the number of their CPU, their own, and the seed of their random
//! numbers.

ghost use Rattle.std.specs.Prelude.{◌≡◌, true};
ghost use Rattle.bpf_loader.specs.Loaded.{Loaded};
ghost use Rattle.bpf_live.specs.Alike.{AreAlike, marked_as};
ghost use Rattle.bpf_alike.specs.Worlds.{table_at};
ghost use Rattle.bpf_equal.specs.States.{AreOneInput};
ghost use Rattle.bpf_equal.specs.Worlds.{AreOneStage};
ghost use Rattle.bpf_equal.specs.Twins.{IsLikeUnmarked};

use bpf_cpu::{Input, KeptCpu};
use bpf_live::Live;
use bpf_machine::KeptJob;

/// Whether jobs get the same.
fn are_one_input(input: &Input, other: &Input) -> bool
    ensures { result ≡ true → AreOneInput input.now other.now }
{
    input.given.time == other.given.time
        && input.context.is_same(&other.context)
        && input.packet.is_same(&other.packet)
}

/// Whether two states in a program of this number are alike but for marks. Where there is no table for
/// it, none is said to be.
fn are_states_unmarked(tables: &[Live], program: usize, cpu: &KeptCpu, other: &KeptCpu) -> bool
    ensures { result ≡ true → (loaded : Loaded)
        → AreAlike loaded (table_at tables.now program) (marked_as other.now cpu.now) other.now }
{
    program < tables.len() && tables[program].is_alike_but_for_marks(cpu, other)
}

/// Whether both jobs wait, and get the same.
pub(crate) fn wait_alike(job: &KeptJob, other: &KeptJob) -> bool
    ensures { result ≡ true → AreOneStage job.now.stage other.now.stage }
{
    match job.input() {
        Some(input) => match other.input() {
            Some(more) => are_one_input(input, more),
            None => false,
        },
        None => false,
    }
}

/// Whether both jobs of a program of this number are in hand, with as many steps left, in states that
/// are alike.
fn are_in_hand_alike(tables: &[Live], program: usize, job: &KeptJob, other: &KeptJob) -> bool
    ensures { result ≡ true
        → IsLikeUnmarked (table_at tables.now program) job.now.stage other.now.stage }
{
    match job.state() {
        Some((state, left)) => match other.state() {
            Some((later, rest)) => {
                left == rest && are_states_unmarked(tables, program, state, later)
            }
            None => false,
        },
        None => false,
    }
}

/// Whether both jobs have ended, with one outcome.
fn have_ended_alike(job: &KeptJob, other: &KeptJob) -> bool
    ensures { result ≡ true → other.now.stage ≡ job.now.stage }
{
    match job.outcome() {
        Some(end) => match other.outcome() {
            Some(last) => end == last,
            None => false,
        },
        None => false,
    }
}

/// Whether both jobs of a program of this number are as far, but for registers that are written before
/// they are read.
pub(crate) fn are_like_unmarked(
    tables: &[Live],
    program: usize,
    job: &KeptJob,
    other: &KeptJob,
) -> bool
    ensures { result ≡ true
        → IsLikeUnmarked (table_at tables.now program) job.now.stage other.now.stage }
{
    if are_in_hand_alike(tables, program, job, other) {
        return true;
    }
    if wait_alike(job, other) {
        return true;
    }
    have_ended_alike(job, other)
}
